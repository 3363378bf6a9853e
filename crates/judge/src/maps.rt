//! Whether the answer to a REPORT MAP is whole in an output.

ghost use Rattle.std.specs.Prelude.{◌≡◌, ◌∷◌, ◌++◌, List, ℕ, true, IfOk};
ghost use Rattle.judge.specs.Excluding.{BeginsWord, EndsMap, Lacks};

use crate::deciding::begins;
use crate::openings::print_head;
use mvs_model::error::OutOfMemory;
use mvs_model::line::{Line, Statement};
use std::alloc::Global;

// A number and the first word of the end of a step have fewer bytes than this.
const MOST_WORD: usize = 24;

// Returns whether a blank comes before a line feed.
fn has_blank_first(text: &[u8]) -> bool
    ensures { result ≡ true
        → (word : List ℕ) × (more : List ℕ) × Lacks 10 word × (text.now ≡ word ++ 32 ∷ more) }
{
    let Some((first, rest)) = text.split_first() else {
        return false;
    };
    if *first == b' ' {
        return true;
    }
    *first != b'\n' && has_blank_first(rest)
}

// Returns whether a text is empty, or begins with a short word and a blank.
fn begins_word(text: &[u8]) -> bool
    ensures { result ≡ true → BeginsWord text.now }
{
    text.is_empty() || has_blank_first(&text[..text.len().min(MOST_WORD)])
}

/// Returns whether a line is a REPORT MAP, and the text after its answer shows that this is whole: it goes on with an answer to a later line, or
/// with the end of the step.
pub fn ends_map(
    alloc: Global,
    line_number: u32,
    read: &Line,
    rest: &[u8],
) -> Result<bool, OutOfMemory>
    ensures { IfOk result (λ b. b ≡ true → EndsMap line_number read.now rest.now) }
{
    match read {
        Line::Statement(task, Statement::ReportMap) => {
            let head = print_head(alloc, line_number, task)?;
            Ok(begins_word(rest) && !begins(rest, head.as_slice()))
        }
        Line::Statement(
            _,
            Statement::Request(_)
            | Statement::Where(_)
            | Statement::ReportSubpools
            | Statement::Region { .. },
        ) => Ok(false),
        Line::Nothing => Ok(false),
    }
}
