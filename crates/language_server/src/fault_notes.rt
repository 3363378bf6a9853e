//! Diagnostics of faults.

ghost use Rattle.std.specs.Prelude.{◌≡◌, ◌++◌, [], IfOk, OnOk, string_bytes};
ghost use Rattle.language_server.specs.FaultNotes.{AreFaultNotes, IsFaultNote, columns_span, fault_code, is_out_of_place, onto_reported, reported_faults};

use crate::document::Document;
use crate::notes::{Note, Severity};
use crate::runnable::FaultAt;
use crate::span::Span;
use diagnosis::{Columns, diagnose};
use line_text::fault_digit;
use mvs_model::line::Fault;
use std::alloc::{AllocError, Global};

// Returns columns, counted from 1, as a span of their line.
fn columns_span(columns: Columns) -> Span
    ensures { result ≡ columns_span columns }
{
    Span {
        start: columns.first.saturating_sub(1),
        end: columns.last,
    }
}

// Returns the message of a diagnosis as it is printed: what is after the code in the first line, and what is after the marks in the
// last.
fn message_of(alloc: Global, printed: &str) -> Result<String, AllocError> {
    let mut message = String::new(alloc);
    let mut lines = printed.split('\n');
    let first = lines.next().unwrap_or("");
    let said = match first.split_once(": ") {
        Some((_, rest)) => rest,
        None => first,
    };
    message.push_str(match said.split_once(": ") {
        Some((_, rest)) => rest,
        None => said,
    })?;
    for line in lines {
        if let Some((_, hint)) = line.rsplit_once("^ ") {
            message.push_str("\n")?;
            message.push_str(hint)?;
        }
    }
    Ok(message)
}

// Returns the code of a fault.
fn fault_code(alloc: Global, fault: Fault) -> Result<String, AllocError>
    ensures { IfOk result (λ code. string_bytes code ≡ fault_code fault) }
{
    let mut code = String::from_str(alloc, "JS0")?;
    let digit = fault_digit(fault);
    write!(code, "{digit}")?;
    Ok(code)
}

// Returns whether a fault is that of a line before REGION.
fn is_out_of_place(fault: Fault) -> bool
    ensures { result ≡ is_out_of_place fault }
{
    match fault {
        Fault::OutOfPlace => true,
        Fault::TooLong
        | Fault::InvalidByte
        | Fault::UnknownOperation
        | Fault::InvalidOperand
        | Fault::MissingOperand
        | Fault::OutOfRange
        | Fault::Repeated
        | Fault::Conflicting => false,
    }
}

// Adds a fault, unless it is left out.
fn push_reported(
    reported: &mut Vec<FaultAt>,
    is_left_out: bool,
    found: FaultAt,
) -> Result<(), AllocError>
    ensures { OnOk result
        (reported.new.items ≡ reported.old.items ++ onto_reported is_left_out found []) }
{
    if !is_left_out {
        reported.push(found)?;
    }
    Ok(())
}

// Returns the faults that are reported. Of those of lines before REGION only the first is.
fn reported_faults(alloc: Global, faults: &[FaultAt]) -> Result<Vec<FaultAt>, AllocError>
    ensures { IfOk result (λ reported. reported.items ≡ reported_faults faults.now) }
{
    let mut reported = Vec::new(alloc);
    let mut is_found = false;
    for found in faults {
        let is_first = is_out_of_place(found.fault);
        push_reported(&mut reported, is_found && is_first, *found)?;
        is_found = is_found || is_first;
    }
    Ok(reported)
}

impl Document {
    // Returns the diagnostic of a fault.
    fn fault_note(&self, alloc: Global, found: FaultAt) -> Result<Note, AllocError>
        ensures { IfOk result (λ note. IsFaultNote self.now found note) }
    {
        let diagnosis = diagnose(alloc, self.line(found.line), found.fault);
        let printed = format!(in alloc; "{diagnosis}")?;
        Ok(Note {
            span: self.within_line(found.line, columns_span(diagnosis.columns)),
            severity: Severity::Error,
            code: fault_code(alloc, found.fault)?,
            message: message_of(alloc, &printed)?,
        })
    }

    // Returns the diagnostics of some faults.
    fn notes_of_faults(&self, alloc: Global, faults: &[FaultAt]) -> Result<Vec<Note>, AllocError>
        ensures { IfOk result (λ notes. AreFaultNotes self.now faults.now notes.items) }
    {
        let mut notes = Vec::new(alloc);
        for found in faults {
            notes.push(self.fault_note(alloc, *found)?)?;
        }
        Ok(notes)
    }

    /// Returns the diagnostics of the faults that are reported.
    pub(crate) fn fault_notes(&self, alloc: Global) -> Result<Vec<Note>, AllocError>
        ensures { IfOk result
            (λ notes. AreFaultNotes self.now (reported_faults self.now.faults) notes.items) }
    {
        let reported = reported_faults(alloc, &self.faults)?;
        let notes = self.notes_of_faults(alloc, &reported)?;
        Ok(notes)
    }
}
