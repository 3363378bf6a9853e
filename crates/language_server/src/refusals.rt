//! The lines whose requests were refused, or that were not executed.

ghost use Rattle.std.specs.Prelude.{◌≡◌, ◌++◌, [], IfOk, OnOk};
ghost use Rattle.language_server.specs.Refusals.{is_refused, onto_line, refused_from};

use crate::line_outputs::LineOutput;
use std::alloc::{AllocError, Global};

/// Returns whether an answer is one of a request that was refused, or of a line that was not executed.
#[tactic(auto, unfolding(crate::specs::Refusals::is_refused))]
pub fn is_refused(answer: &[u8]) -> bool
    ensures { result ≡ is_refused answer.now }
{
    answer.starts_with(b"RC 4")
        || answer.starts_with(b"NO CELL")
        || answer.starts_with(b"NOT RUN")
        || answer.starts_with(b"NO NAME")
        || answer.starts_with(b"ABEND ")
}

// Adds a line, if it was refused.
fn push_line(lines: &mut Vec<usize>, line: usize, is_refused: bool) -> Result<(), AllocError>
    ensures { OnOk result (lines.new.items ≡ lines.old.items ++ onto_line is_refused line []) }
{
    if is_refused {
        lines.push(line)?;
    }
    Ok(())
}

/// Returns the lines that were refused, by the numbers of the lines before them.
pub fn refused_lines(alloc: Global, outputs: &[LineOutput]) -> Result<Vec<usize>, AllocError>
    ensures { IfOk result (λ lines. lines.items ≡ refused_from 0 outputs.now) }
{
    let mut lines = Vec::new(alloc);
    for (line, output) in outputs.iter().enumerate() {
        push_line(&mut lines, line, is_refused(&output.answer))?;
    }
    Ok(lines)
}
