//! Diagnostics of requests that were refused, and of lines that were not executed.

ghost use Rattle.std.specs.Prelude.{◌≡◌, ◌≤◌, ◌++◌, ◌∷◌, [], IfOk, OnOk, length, map, string_bytes, true};
ghost use Rattle.mvs_model.specs.Lines.{lines_of};
ghost use Rattle.expected_answers.specs.Reports.{shown};
ghost use Rattle.language_server.specs.RefusalNotes.{answer_code, first_reason, gap, is_no_name, is_not_run, lacking_word, reason_text, reasons_in, refusal_message, refusal_note, refusal_notes, refusal_severity, refusal_span, spaced};

use crate::document::Document;
use crate::explanations::{abend_code, starred};
use crate::names::{Piece, has_bytes, split_blank, split_line};
use crate::notes::{Note, Severity, named_span, statement_span};
use crate::parts::word_span;
use crate::plain_text::{push_shown, shown_text};
use crate::refusals::refused_lines;
use crate::span::Span;
use std::alloc::{AllocError, Global};

/// The most lines of a reason that are shown.
const MOST_REASONS: usize = 3;

// Returns what separates a line of a reason from the one before it, if it is not the first.
fn gap(is_first: bool) -> &'static str
    ensures { result.now ≡ gap is_first }
{
    if is_first { "" } else { " " }
}

// Appends a line of a reason.
fn push_reason(text: &mut String, is_first: bool, reason: &[u8]) -> Result<(), AllocError>
    ensures { OnOk result
        (string_bytes text.new ≡ string_bytes text.old ++ spaced is_first (reason.now ∷ [])) }
{
    text.push_str(gap(is_first))?;
    push_shown(text, reason)
}

// Appends the first lines of an explanation, in one line.
fn push_reasons(text: &mut String, others: &[u8], most: usize) -> Result<(), AllocError>
    ensures { OnOk result (string_bytes text.new
        ≡ string_bytes text.old ++ spaced true (reasons_in most (lines_of others.now))) }
{
    let mut is_first = true;
    let mut left = most;
    let mut rest = others;
    'lines: while left > 0 && has_bytes(rest) {
        let (line, more) = split_line(rest);
        let Some(reason) = starred(line) else {
            return Ok(());
        };
        push_reason(text, is_first, reason)?;
        is_first = false;
        left -= 1;
        match more {
            Some(next) => rest = next,
            None => return Ok(()),
        }
    }
    Ok(())
}

// Returns the first line of an explanation.
fn first_reason(others: &[u8]) -> &[u8]
    ensures { result.now ≡ first_reason (lines_of others.now) }
{
    if !has_bytes(others) {
        return &[];
    }
    let (line, _) = split_line(others);
    starred(line).unwrap_or(&[])
}

// Returns the word with which an explanation begins.
fn lacking_word(others: &[u8]) -> &[u8]
    ensures { result.now ≡ lacking_word others.now }
{
    let (word, _) = split_blank(first_reason(others));
    word
}

// Returns whether an answer is that of a line whose task is not active.
fn is_not_run(answer: &[u8]) -> bool
    ensures { result ≡ is_not_run answer.now }
{
    answer == b"NOT RUN".as_slice()
}

// Returns whether an answer is that of a line with a name that is not set.
fn is_no_name(answer: &[u8]) -> bool
    ensures { result ≡ is_no_name answer.now }
{
    answer == b"NO NAME".as_slice()
}

// Returns what a diagnostic is about: the task that is not active, the name that is not set, or else the statement.
fn refusal_span(
    alloc: Global,
    line: &[u8],
    answer: &[u8],
    others: &[u8],
) -> Result<Span, AllocError>
    requires { length line.now ≤ 1048576 }
    ensures { IfOk result (λ span. span ≡ refusal_span line.now answer.now others.now) }
{
    if is_not_run(answer) {
        Ok(word_span(&Piece { at: 0, bytes: line }))
    } else if is_no_name(answer) {
        named_span(alloc, line, lacking_word(others))
    } else {
        Ok(statement_span(line))
    }
}

// Returns how serious a refusal is.
fn refusal_severity(answer: &[u8]) -> Severity
    ensures { result ≡ refusal_severity answer.now }
{
    if is_not_run(answer) || is_no_name(answer) {
        Severity::Warning
    } else {
        Severity::Information
    }
}

// Returns the code of an answer: that of an abend, or else the answer.
fn answer_code(answer: &[u8]) -> &[u8]
    ensures { result.now ≡ answer_code answer.now }
{
    abend_code(answer).unwrap_or(answer)
}

// Returns an answer with its reason.
fn refusal_message(alloc: Global, answer: &[u8], others: &[u8]) -> Result<String, AllocError>
    ensures { IfOk result
        (λ text. string_bytes text ≡ refusal_message answer.now others.now) }
{
    let mut text = shown_text(alloc, answer)?;
    text.push_str(": ")?;
    push_reasons(&mut text, others, MOST_REASONS)?;
    Ok(text)
}

impl Document {
    // Returns the diagnostic of a line that was refused.
    fn refusal_note(&self, alloc: Global, number: usize) -> Result<Note, AllocError>
        ensures { IfOk result (λ note. note ≡ refusal_note self.now number) }
    {
        let (line, answer, others) = (self.line(number), self.answer(number), self.others(number));
        let span = refusal_span(alloc, line, answer, others)?;
        Ok(Note {
            span: self.within_line(number, span),
            severity: refusal_severity(answer),
            code: shown_text(alloc, answer_code(answer))?,
            message: refusal_message(alloc, answer, others)?,
        })
    }

    // Adds the diagnostics of some lines that were refused.
    fn push_each_refusal(
        &self,
        alloc: Global,
        notes: &mut Vec<Note>,
        lines: &[usize],
    ) -> Result<(), AllocError>
        ensures { OnOk result
            (notes.new.items ≡ notes.old.items ++ map (refusal_note self.now) lines.now) }
    {
        for number in lines {
            notes.push(self.refusal_note(alloc, *number)?)?;
        }
        Ok(())
    }

    /// Adds the diagnostics of the lines that were refused.
    pub(crate) fn push_refusals(
        &self,
        alloc: Global,
        notes: &mut Vec<Note>,
    ) -> Result<(), AllocError>
        ensures { OnOk result (notes.new.items ≡ notes.old.items ++ refusal_notes self.now) }
    {
        let lines = refused_lines(alloc, &self.outputs)?;
        self.push_each_refusal(alloc, notes, &lines)
    }
}
