//! Reads the lines of a script, keeps its names, and prints the answers to its lines.
#![tactic(auto)]

ghost use Rattle.std.specs.Prelude.{◌≡◌, ◌<◌, ◌≤◌, ◌==◌, ◌&&◌, nat_le, true, false, length};
ghost use Rattle.std.specs.List.{list_all};
ghost use Rattle.mvs_model.specs.Lines.{IsLine};
ghost use Rattle.mvs_model.specs.Reading.{IsReading, first_of, is_blank_or_comment};
ghost use Rattle.job_script.specs.Kinds.{fault_in};
ghost use Rattle.job_script.specs.Operations.{operation_text};
ghost use Rattle.job_script.specs.Parted.{field_in};
ghost use Rattle.job_script.specs.LineMeaning.{filled};
ghost use Rattle.job_script.specs.Stated.{is_in_place, byte_checks, field_of, StatementReading};

use crate::addresses::{is_name, name};
pub use crate::answers::{print_abend, print_short_answer};
pub use crate::data_lines::print_data;
pub use crate::line_buffer::{LineBuffer, Pushed};
pub use crate::names::NamePlaces;
use crate::operations::{Operation, read_operation};
use crate::plain::read_plain;
pub use crate::report_lines::{print_map_run, print_no_subpool, print_subpool_line};
pub use crate::resolving::{names_set, resolve, set_names, unset};
use crate::split_once::{next_word, skip_blanks, split_once};
use crate::statement::read_operands;
use mvs_model::line::{Fault, Line};

mod access;
pub mod addresses;
mod answers;
mod checks;
mod data_lines;
pub mod digits;
pub mod given;
pub mod items;
pub mod keys;
pub mod kinds;
mod line_buffer;
mod names;
pub mod operations;
mod plain;
mod pools;
mod prefix;
mod report_lines;
mod resolving;
pub mod rows;
pub mod split_once;
mod statement;
mod storage_requests;
mod subtasks;
mod values;

/// The most bytes of a line, without its end. This project's choice.
pub const MOST_LINE_BYTES: usize = 255;

// Returns whether each byte is one that a script may have.
fn are_plain(bytes: &[u8]) -> bool
    ensures { result ≡ list_all (λ b. nat_le 32 b && nat_le b 126) bytes.now }
{
    let mut plain = true;
    for byte in bytes {
        plain &= *byte >= b' ' && *byte <= b'~';
    }
    plain
}

// Checks a line in blocks of a fixed size, the last of which may overlap the one before.
fn is_plain_by<const SIZE: usize>(line: &[u8]) -> bool
    requires some { 0 < SIZE }
    requires long { SIZE ≤ length line.now }
    ensures { result ≡ list_all (λ b. nat_le 32 b && nat_le b 126) line.now }
{
    let mut done = 0;
    while line.len() - done > SIZE {
        if !are_plain(&line[done..done + SIZE]) {
            return false;
        }
        done += SIZE;
    }
    are_plain(&line[line.len() - SIZE..])
}

// Checks a line of any length.
fn is_plain(line: &[u8]) -> bool
    ensures { result ≡ list_all (λ b. nat_le 32 b && nat_le b 126) line.now }
{
    match line.len() {
        0..=7 => are_plain(line),
        8..=15 => is_plain_by::<8>(line),
        _ => is_plain_by::<16>(line),
    }
}

// Returns whether the line has no byte but blanks.
fn is_blank(line: &[u8]) -> bool
    ensures { result ≡ list_all (λ b. b == 32) line.now }
{
    line.iter().all(|byte| *byte == b' ')
}

// Returns whether the line is blank or a comment.
fn is_blank_or_comment(line: &[u8]) -> bool
    ensures { result ≡ is_blank_or_comment line.now }
{
    match line {
        [] => true,
        [first, ..] => *first == b'*' || is_blank(line),
    }
}

// Returns whether the operation is allowed there: the first statement must be REGION.
fn is_in_place(first: bool, operation: Operation) -> bool
    ensures { result ≡ is_in_place first (operation_text operation) }
{
    !first || matches!(operation, Operation::Region)
}

// Returns the text from the operands after an operation on. Everything after RETURN is a remark.
fn field_of<'a>(operation: Operation, rest: &'a [u8]) -> &'a [u8]
    ensures { field_in result.now ≡ field_of operation rest.now }
{
    match operation {
        Operation::Return => &[],
        Operation::Region
        | Operation::Getmain
        | Operation::Freemain
        | Operation::Storage
        | Operation::Cpool
        | Operation::Attach
        | Operation::Abend
        | Operation::Put
        | Operation::Show
        | Operation::Move
        | Operation::Where
        | Operation::Report => skip_blanks(rest),
    }
}

// Reads a statement.
fn read_statement(line: &[u8], first: bool, read: &mut Line) -> Result<(), Fault>
    ensures { StatementReading first line.now (filled read.new result) }
{
    let (task, rest) = split_once(line, b' ');
    if !is_name(task) {
        return Err(Fault::UnknownOperation);
    }
    let Some(rest) = rest else {
        return Err(Fault::UnknownOperation);
    };
    let (word, rest) = next_word(rest);
    let Some(operation) = read_operation(word) else {
        return Err(Fault::UnknownOperation);
    };
    if !is_in_place(first, operation) {
        return Err(Fault::OutOfPlace);
    }
    read_operands(name(task), operation, field_of(operation, rest), read)
}

// Checks the bytes of a line.
fn check_bytes(line: &[u8]) -> Result<(), Fault>
    ensures { fault_in result ≡ first_of (byte_checks line.now) }
{
    if line.len() > MOST_LINE_BYTES {
        return Err(Fault::TooLong);
    }
    if !is_plain(line) {
        return Err(Fault::InvalidByte);
    }
    Ok(())
}

// Reads a line that is blank or a comment.
fn read_nothing(line: &[u8], first: bool, read: &mut Line) -> Result<(), Fault>
    requires { is_blank_or_comment line.now ≡ true }
    ensures { IsReading first line.now (filled read.new result) }
{
    check_bytes(line)?;
    if !matches!(read, Line::Nothing) {
        *read = Line::Nothing;
    }
    Ok(())
}

// Reads a line that says something.
fn read_something(line: &[u8], first: bool, read: &mut Line) -> Result<(), Fault>
    requires { is_blank_or_comment line.now ≡ false }
    ensures { IsReading first line.now (filled read.new result) }
{
    if !first && read_plain(line, read).is_some() {
        return Ok(());
    }
    check_bytes(line)?;
    read_statement(line, first, read)
}

/// Reads a line, without its end: `read` is what it says, or the answer is the first fault that applies, and then what `read` holds is nothing that
/// the line says. `first` says whether no statement came before it. Of a line that is too long any front of more than 255 bytes serves. What the line
/// says is written over `read`, so that nothing of it is copied. The notation is this project's own.
pub fn read_line(line: &[u8], first: bool, read: &mut Line) -> Result<(), Fault>
    ensures reading { IsReading first line.now (filled read.new result) }
    ensures in_range { IsLine first (filled read.new result) }
{
    if is_blank_or_comment(line) {
        read_nothing(line, first, read)
    } else {
        read_something(line, first, read)
    }
}
