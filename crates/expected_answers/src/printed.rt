//! The printed lines of a run, statement by statement.

ghost use Rattle.std.specs.Prelude.{◌≡◌, ◌++◌, ◌==◌, ◌<◌, ◌∷◌, List, ℕ, IfOk, IfSome, OnOk, codes, decimal, if◌then◌else◌, is_some, length};
ghost use Rattle.std.specs.Option.{option_map};
ghost use Rattle.mvs_model.specs.Lines.{lines_of};
ghost use Rattle.expected_answers.specs.ExpectedAnswers.{begins_with, ends_step, after_own, is_own, joined, last_or, numbered, own_texts, text_of, without_task};

use crate::lines::{after_prefix, next_line};
use line_text::text::LineText;
use std::alloc::AllocError;
use std::marker::Model;

/// The number of a statement, and how the lines begin that are printed with it.
#[derive(Drop)]
struct LineNumber {
    number: u32,
    /// Its digits and a blank.
    head: LineText,
}

impl Model for LineNumber {
    ghost use Rattle.std.specs.Prelude.{◌≡◌, ◌++◌, codes, decimal, ℕ};

    ghost Value = { ℕ };

    ghost view = { λ n. n.number };

    ghost invariant = { λ n. n.head ≡ decimal n.number ++ codes " " };
}

impl LineNumber {
    // Returns a number with its digits.
    fn new(number: u32) -> LineNumber
        ensures { result ≡ number }
    {
        let mut head = LineText::new();
        head.push_decimal(number);
        head.push_str(b" ");
        LineNumber { number, head }
    }

    // Returns the text of a printed line after its number, if it has this number.
    fn text_in<'a>(&self, line: &'a [u8]) -> Option<&'a [u8]>
        ensures { option_map (λ text. text.now) result ≡ numbered self.now line.now }
    {
        after_prefix(line, self.head.as_slice())
    }
}

/// Returns the text of a printed line after its number, if it has this number.
pub fn numbered(line: &[u8], number: u32) -> Option<&[u8]>
    ensures { option_map (λ text. text.now) result ≡ numbered number line.now }
{
    LineNumber::new(number).text_in(line)
}

// Returns whether a printed line is the end of a step.
fn ends_step(line: &[u8]) -> bool
    ensures { result ≡ ends_step line.now }
{
    after_prefix(line, b"STEP ENDED ").is_some()
}

// Returns whether the first of some printed lines has this number.
fn begins_with(printed: &[u8], number: &LineNumber) -> bool
    ensures { result ≡ begins_with number.now (lines_of printed.now) }
{
    let (line, _) = next_line(printed);
    number.text_in(line).is_some()
}

/// Returns a text without the name of the task of the statement.
pub fn without_task<'a>(text: &'a [u8], task: &[u8]) -> &'a [u8]
    ensures { result.now ≡ without_task task.now text.now }
{
    match after_prefix(text, task) {
        Some(rest) => after_prefix(rest, b" ").unwrap_or(text),
        None => text,
    }
}

// Returns the text of the first of some printed lines, and the lines after it, if it is of the statement with this number. The end of a
// step is of the REGION statement after it.
fn own_line<'a>(printed: &'a [u8], number: &LineNumber, task: &[u8]) -> Option<(&'a [u8], &'a [u8])>
    ensures own { is_some result ≡ is_own number.now (lines_of printed.now) }
    ensures line { IfSome result (λ own. (line : List ℕ) × (lines_of printed.now ≡ line ∷ lines_of own.1.now)
        × (own.0.now ≡ text_of number.now task.now line)) }
    ensures less { IfSome result (λ own. length own.1.now < length printed.now) }
{
    let (line, more) = next_line(printed);
    if let Some(text) = number.text_in(line) {
        return Some((without_task(text, task), more));
    }
    if ends_step(line) && begins_with(more, number) {
        return Some((line, more));
    }
    None
}

/// Appends a text to others, after ` / ` if it is not the first.
pub fn push_text(texts: &mut Vec<u8>, text: &[u8]) -> Result<(), AllocError>
    ensures { OnOk result
        (texts.new.items ≡ (if length texts.old.items == 0 then text.now else texts.old.items ++ (codes " / " ++ text.now))) }
{
    if !texts.is_empty() {
        texts.extend_from_slice(b" / ")?;
    }
    texts.extend_from_slice(text)
}

/// Returns the last line of what was printed, or the word for none.
pub fn last_line(printed: &[u8]) -> &[u8]
    ensures { result.now ≡ last_or (codes "nothing") (lines_of printed.now) }
{
    let mut last = b"nothing".as_slice();
    let mut rest = printed;
    'lines: while !rest.is_empty() {
        let (line, more) = next_line(rest);
        last = line;
        rest = more;
    }
    last
}

/// Appends the texts of the first printed lines that belong to the statement with this number, and returns what is printed
/// after them.
pub fn take_own<'a>(
    texts: &mut Vec<u8>,
    printed: &'a [u8],
    number: u32,
    task: &[u8],
) -> Result<&'a [u8], AllocError>
    ensures texts { OnOk result
        (texts.new.items ≡ joined texts.old.items (own_texts number task.now (lines_of printed.now))) }
    ensures rest { IfOk result (λ rest. lines_of rest.now ≡ after_own number (lines_of printed.now)) }
{
    let own = LineNumber::new(number);
    let mut rest = printed;
    'own: while let Some((text, more)) = own_line(rest, &own, task) {
        push_text(texts, text)?;
        rest = more;
    }
    Ok(rest)
}
