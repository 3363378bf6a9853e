//! Diagnostics, in the order of their places.

ghost use Rattle.std.specs.Prelude.{◌≡◌, ◌≤◌, ◌++◌, IfOk, IsPermutation, OnOk, find, length};
ghost use Rattle.language_server.specs.Names.{line_names};
ghost use Rattle.language_server.specs.NoteValues.{field_end, is_operand_name, named_by, named_span, statement_by, statement_span, whole_span};
ghost use Rattle.language_server.specs.Notes.{AreInOrder, AreNotes};

use crate::document::Document;
use crate::names::{Occurrence, line_names};
use crate::parts::{Parts, parts_of};
use crate::references::kind_number;
use crate::span::Span;
use std::alloc::{AllocError, Global};
use std::marker::Model;

/// How serious a diagnostic is.
#[derive(Clone, Copy, Debug, PartialEq, Eq)]
pub enum Severity {
    Error,
    Warning,
    Information,
}

/// A diagnostic: the bytes that it is about, how serious it is, its code, and what it says.
#[derive(Drop)]
pub struct Note {
    pub span: Span,
    pub severity: Severity,
    pub code: String,
    pub message: String,
}

impl Model for Note {
    ghost use Rattle.std.specs.Prelude.{string_bytes};
    ghost use Rattle.language_server.specs.NoteValues.{NoteValue};

    ghost Value = { NoteValue };

    ghost view = { λ n. record {
      span = n.span;
      severity = n.severity;
      code = string_bytes n.code;
      message = string_bytes n.message;
    } };
}

// ---- what a diagnostic is about

/// Returns all bytes of a line.
pub(crate) fn whole_span(line: &[u8]) -> Span
    ensures { result ≡ whole_span line.now }
{
    Span {
        start: 0,
        end: line.len(),
    }
}

// Returns where the operands of a statement end, or its operation, if it has none.
fn field_end(parts: Parts) -> usize
    ensures { result ≡ field_end parts }
{
    if parts.field.is_empty() {
        parts.operation.end
    } else {
        parts.field.end
    }
}

/// Returns the operation and the operands of a line; all of it, if it has no statement.
pub(crate) fn statement_span(line: &[u8]) -> Span
    requires { length line.now ≤ 1048576 }
    ensures { result ≡ statement_span line.now }
{
    match parts_of(line) {
        Some(parts) => Span {
            start: parts.operation.start,
            end: field_end(parts),
        },
        None => whole_span(line),
    }
}

// Returns whether a name is one of an operand, with some bytes.
fn is_operand_name(line: &[u8], word: &[u8], name: &Occurrence) -> bool
    ensures { result ≡ is_operand_name line.now word.now name.now }
{
    kind_number(name.kind) != 1 && name.span.of(line) == word
}

// Returns where a name first is in the operands of a line, if it is there.
fn operand_name(line: &[u8], word: &[u8], names: &[Occurrence]) -> Option<Occurrence>
    ensures { result ≡ find (is_operand_name line.now word.now) names.now }
{
    names
        .iter()
        .copied()
        .find(|name| is_operand_name(line, word, name))
}

/// Returns where a name first is in the operands of a line; if it is not there, where the statement is.
pub(crate) fn named_span(alloc: Global, line: &[u8], word: &[u8]) -> Result<Span, AllocError>
    requires { length line.now ≤ 1048576 }
    ensures { IfOk result (λ span. span ≡ named_span line.now word.now) }
{
    let names = line_names(alloc, line)?;
    match operand_name(line, word, &names) {
        Some(name) => Ok(name.span),
        None => Ok(statement_span(line)),
    }
}

// ---- diagnostics

// Puts diagnostics in the order of their places.
fn sort(notes: &mut Vec<Note>) -> Result<(), AllocError>
    ensures { OnOk result (AreInOrder notes.old.items notes.new.items) }
{
    notes.sort_by_key(|note| note.span.start)
}

impl Document {
    /// Returns the diagnostics of the document, in the order of their places.
    pub fn notes(&self, alloc: Global) -> Result<Vec<Note>, AllocError>
        ensures { IfOk result (λ notes. AreNotes self.now notes.items) }
    {
        let mut notes = self.fault_notes(alloc)?;
        self.push_refusals(alloc, &mut notes)?;
        self.push_leaks(alloc, &mut notes)?;
        self.push_differences(alloc, &mut notes)?;
        sort(&mut notes)?;
        Ok(notes)
    }
}
