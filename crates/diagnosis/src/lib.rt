//! Describes the fault of a line: its columns, what was found, what was expected, and a hint. The table of `job_script` gives the
//! operands of a statement.
#![tactic(auto)]

ghost use Rattle.std.specs.Prelude.{◌≡◌, ◌≤◌, Some, flat_map, length};
ghost use Rattle.mvs_model.specs.Grammar as grammar;
ghost use Rattle.mvs_model.specs.Reading.{operands_after_form, first_of, operand_checks, operands_of, operation_in, row_of, with_left};
ghost use Rattle.diagnosis.specs.Blame.{AreWithin, IsOperandBlamed};

mod blamed;
mod columns;
mod faults;
mod hint;
mod lacking;
mod message;
mod near;
mod operands;
mod refused;
mod unserved;
mod values;
mod words;

use crate::blamed::{OperandError, blamed_operand};
pub use crate::columns::Columns;
use crate::faults::find_fault;
use crate::hint::Hint;
use crate::lacking::row_of as row_of_field;
use crate::message::Message;
pub use crate::near::edits_between;
use crate::operands::{field_of, second_word};
pub use crate::unserved::{NotServed, Suggestion};
use crate::values::{key_hint, keyword_of, range_hint, value_hint};
use crate::words::StatementName;
pub use crate::words::{Plain, PlainName};
use job_script::MOST_LINE_BYTES;
use job_script::operations::read_operation;
use job_script::split_once::split_once;
use line_text::fault_digit;
use mvs_model::line::Fault;
use std::alloc::Global;
use std::fmt;

/// The most bytes of a line that is printed.

/// What is wrong with a line.
#[derive(Clone, Copy)]
pub struct Diagnosis<'a> {
    pub fault: Fault,
    pub columns: Columns,
    line: &'a [u8],
    said: Message<'a>,
    hint: Hint<'a>,
}

// Returns how the statement of a line is called.
fn called_in(line: &[u8]) -> Option<StatementName<'_>> {
    let (word, _) = second_word(line);
    let (called, _, _) = row_of_field(read_operation(word)?, field_of(line))?;
    Some(called)
}

// Returns the hint for an operand without a key.
fn positional_hint<'a>(alloc: Global, line: &[u8], blamed: &OperandError<'a>) -> Hint<'a> {
    let follows = match line.get(blamed.at) {
        Some(b' ') => true,
        _ => false,
    };
    if blamed.operand.is_empty() {
        return if follows {
            Hint::Says("a blank ends the operands")
        } else {
            Hint::Nothing
        };
    }
    match blamed.expected {
        Some(kind) if blamed.fault == Fault::InvalidOperand => {
            value_hint(alloc, kind, blamed.operand)
        }
        Some(_) => Hint::Nothing,
        None if blamed.row.keywords().is_empty() => Hint::Nothing,
        None => Hint::Says("the operands of this statement have the form KEY=value"),
    }
}

// Returns the hint for an operand that is not taken.
fn operand_hint<'a>(
    alloc: Global,
    line: &[u8],
    called: &StatementName<'_>,
    blamed: &OperandError<'a>,
) -> Hint<'a> {
    let (key, text) = split_once(blamed.operand, b'=');
    let Some(text) = text else {
        return positional_hint(alloc, line, blamed);
    };
    let Some(keyword) = keyword_of(blamed.row, key) else {
        return key_hint(alloc, called, blamed.row, key);
    };
    match blamed.fault {
        Fault::InvalidOperand => value_hint(alloc, keyword.kind, text),
        Fault::OutOfRange => range_hint(key, keyword.kind, text),
        Fault::TooLong
        | Fault::InvalidByte
        | Fault::UnknownOperation
        | Fault::MissingOperand
        | Fault::Repeated
        | Fault::Conflicting
        | Fault::OutOfPlace => Hint::Nothing,
    }
}

// Describes an operand that is not accepted, with a hint.
fn operand_message<'a>(
    alloc: Global,
    line: &'a [u8],
    blamed: &OperandError<'a>,
) -> (Message<'a>, Hint<'a>) {
    match called_in(line) {
        Some(called) => (
            Message::Operand(called, *blamed),
            operand_hint(alloc, line, &called, blamed),
        ),
        None => (Message::Something, Hint::Nothing),
    }
}

/// Describes a fault of a line. The line has no newline; for an empty script it is empty. Memory is allocated only for the search
/// for a similar word, which finds none if that fails.
pub fn diagnose<'a>(alloc: Global, line: &'a [u8], fault: Fault) -> Diagnosis<'a>
    ensures fault { result.fault ≡ fault }
    ensures within { 1 ≤ length line.now → AreWithin line.now result.columns }
    // Where the operands of a statement have the fault, the columns are those of the first one that is refused.
    ensures operand { (row : grammar.Row)
        → row_of (operation_in line.now) (operands_of line.now) ≡ Some row
        → first_of
        (flat_map (operand_checks row) (with_left (operands_after_form row (operands_of line.now))))
        ≡ Some fault
        → IsOperandBlamed row line.now fault result.columns }
{
    match blamed_operand(line) {
        Some(blamed) if blamed.fault == fault => {
            let (said, hint) = operand_message(alloc, line, &blamed);
            Diagnosis {
                fault,
                columns: blamed.columns,
                line,
                said,
                hint,
            }
        }
        _ => {
            let found = find_fault(alloc, line, fault);
            Diagnosis {
                fault,
                columns: Columns::of(line, found.at, found.count),
                line,
                said: found.said,
                hint: found.hint,
            }
        }
    }
}

// Writes a byte a number of times.
fn write_times<W: fmt::Write>(f: &mut fmt::Formatter<W>, times: usize, text: &str) -> fmt::Result {
    for _ in 0..times {
        write!(f, "{text}")?;
    }
    Ok(())
}

// Writes a line, and marks below some columns.
fn write_marked<W: fmt::Write>(
    f: &mut fmt::Formatter<W>,
    line: &[u8],
    columns: Columns,
) -> fmt::Result {
    writeln!(f, "    {}", Plain(line))?;
    let Columns { first, last } = columns;
    write_times(f, first.saturating_add(3), " ")?;
    write_times(f, last.saturating_sub(first).saturating_add(1), "^")
}

/// Writes the first column and what is wrong, and below it the line with what is to blame and what may help, each line with its
/// end. The texts are this project's choice.
impl fmt::Display for Diagnosis<'_> {
    fn fmt<W: fmt::Write>(&self, f: &mut fmt::Formatter<W>) -> fmt::Result {
        let column = self.columns.first.max(1);
        writeln!(
            f,
            "{column}: JS{:02}: {}",
            fault_digit(self.fault),
            self.said
        )?;
        if self.line.is_empty() || self.line.len() > MOST_LINE_BYTES {
            return Ok(());
        }
        write_marked(f, self.line, self.columns)?;
        if !matches!(self.hint, Hint::Nothing) {
            write!(f, " {}", self.hint)?;
        }
        writeln!(f)
    }
}
