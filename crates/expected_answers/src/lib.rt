//! Scripts with the answers that are expected of their statements: `STATEMENT => TEXT / TEXT`.
//!
//! A text has neither the number of the line nor the task of the statement. A last line `* STEP ENDED RC n` or
//! `* JOB FAULT RC 12` is the last line that is expected. A script is bytes: its lines end at X'0A', as those of a run.
#![tactic(auto)]

ghost use Rattle.std.specs.Prelude.{◌≡◌, IfOk};
ghost use Rattle.line_text.specs.Writing.{Prints};
ghost use Rattle.expected_answers.specs.ExpectedAnswers.{statements};
ghost use Rattle.expected_answers.specs.Blank.{blank, blank_end};

mod expected;
mod lines;
mod printed;
mod report;
mod shown;

use line_text::write_all;
use lines::{next_line, parted_line, statement_of};
pub use lines::{ARROW, end_in, parted_at, trimmed};
use mvs_model::watched::{Failed, Watched};
pub use printed::{numbered, push_text, without_task};
pub use report::{Counts, Format, Report, ReportForm, report_answers};
use std::alloc::{AllocError, Global};
use std::io::Write;

/// Returns the statements of a script, without the answers after them, as a script. A line with a byte that no script may have is whole.
pub fn statements(alloc: Global, script: &[u8]) -> Result<Vec<u8>, AllocError>
    ensures { IfOk result (λ run. run.items ≡ statements script.now) }
{
    let mut run = Vec::new(alloc);
    let mut rest = script;
    'lines: while !rest.is_empty() {
        let (line, more) = next_line(rest);
        run.extend_from_slice(statement_of(line))?;
        run.push(b'\n')?;
        rest = more;
    }
    run.truncate(script.len());
    Ok(run)
}

/// Returns the statement in the line of a number, without the answers after it; an empty one where the script has no such line.
pub fn statement_at(script: &[u8], line_number: u32) -> &[u8] {
    let mut number = 0u32;
    for line in script.split(|byte| *byte == b'\n') {
        number = number.saturating_add(1);
        if number == line_number {
            return statement_of(line);
        }
    }
    &[]
}

// Returns what is written after the statement of a line, which has answers or not.
fn blank_end(is_answered: bool) -> &'static [u8]
    ensures { result.now ≡ blank_end is_answered }
{
    if is_answered { b" => ?\n" } else { b"\n" }
}

/// Writes a script with `?` instead of the answers of each line.
pub fn write_blank<W: Write>(writer: &mut Watched<W>, script: &[u8]) -> Result<(), Failed>
    ensures { Prints W.contents writer.old writer.new result (blank script.now) }
{
    let mut rest = script;
    'lines: while !rest.is_empty() {
        let (line, more) = next_line(rest);
        let (statement, answers) = parted_line(line);
        write_all(writer, statement)?;
        write_all(writer, blank_end(answers.is_some()))?;
        rest = more;
    }
    Ok(())
}
