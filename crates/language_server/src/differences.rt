//! Diagnostics of answers, and of the end of the run, that differ from those that the text expects.

ghost use Rattle.std.specs.Prelude.{◌≡◌, ◌≤◌, ◌++◌, ◌∷◌, [], IfOk, OnOk, Some, bytes_eq, codes, filter, is_some, length, option_map, string_bytes};
ghost use Rattle.mvs_model.specs.Lines.{lines_of};
ghost use Rattle.expected_answers.specs.ExpectedAnswers.{answers_in, end_in, ends_step, last_or, or_nothing};
ghost use Rattle.language_server.specs.Differences.{arrow_span, difference_at, difference_by, difference_message, difference_note, differences, differences_from, end_by, end_difference, end_printed, got_text, is_difference, is_open, last_line, line_count, step_ends};
ghost use Rattle.language_server.specs.Documents.{answer_at};
ghost use Rattle.language_server.specs.NoteValues.{line_span, whole_span};
ghost use Rattle.language_server.specs.Spans.{line_bytes};
ghost use Rattle.language_server.specs.Words.{parts_of};

use crate::actions::{answers_in, statement_length};
use crate::document::Document;
use crate::explanations::ends_step;
use crate::line_outputs::LineOutput;
use crate::names::{has_bytes, split_line};
use crate::notes::{Note, Severity, whole_span};
use crate::parts::parts_of;
use crate::plain_text::push_shown;
use crate::span::Span;
use expected_answers::end_in;
use std::alloc::{AllocError, Global};

// Appends what a run printed.
fn push_got(text: &mut String, got: &[u8]) -> Result<(), AllocError>
    ensures { OnOk result
        (string_bytes text.new ≡ string_bytes text.old ++ got_text got.now) }
{
    text.push_str(", but the run prints ")?;
    push_shown(text, got)
}

// Returns what a diagnostic says of an answer that is expected, and what a run printed.
fn difference_message(alloc: Global, expected: &[u8], got: &[u8]) -> Result<String, AllocError>
    ensures { IfOk result
        (λ text. string_bytes text ≡ difference_message expected.now got.now) }
{
    let mut text = String::from_str(alloc, "expected ")?;
    push_shown(&mut text, expected)?;
    push_got(&mut text, got)?;
    Ok(text)
}

// Returns the diagnostic of an answer that is expected, and what a run printed.
fn difference_note(
    alloc: Global,
    span: Span,
    expected: &[u8],
    got: &[u8],
) -> Result<Note, AllocError>
    ensures { IfOk result (λ note. note ≡ difference_note span expected.now got.now) }
{
    Ok(Note {
        span,
        severity: Severity::Warning,
        code: String::from_str(alloc, "=>")?,
        message: difference_message(alloc, expected, got)?,
    })
}

// Adds a diagnostic.
fn push_note(notes: &mut Vec<Note>, note: Note) -> Result<(), AllocError>
    ensures { OnOk result (notes.new.items ≡ notes.old.items ++ note ∷ []) }
{
    notes.push(note)?;
    Ok(())
}

// ---- the answers of lines

// Returns what is after the blank of an arrow.
fn arrow_span(line: &[u8]) -> Span
    ensures { result ≡ arrow_span line.now }
{
    let start = statement_length(line) + 1;
    Span {
        start,
        end: line.len().max(start),
    }
}

// Returns whether a text after an arrow expects no answer.
fn is_open(expected: &[u8]) -> bool
    ensures { result ≡ is_open expected.now }
{
    expected.is_empty() || expected == b"?".as_slice()
}

// Returns whether a line has a statement.
fn has_statement(line: &[u8]) -> bool
    requires { length line.now ≤ 1048576 }
    ensures { result ≡ is_some (parts_of line.now) }
{
    parts_of(line).is_some()
}

// Returns whether a statement expects an answer, and the run printed another one.
fn is_difference(line: &[u8], expected: &[u8], got: &[u8]) -> bool
    requires { length line.now ≤ 1048576 }
    ensures { result ≡ is_difference line.now expected.now got.now }
{
    !is_open(expected) && (expected != got && has_statement(line))
}

// Returns what a run printed, or the word for nothing.
fn or_nothing(got: &[u8]) -> &[u8]
    ensures { result.now ≡ or_nothing got.now }
{
    if got.is_empty() { b"nothing" } else { got }
}

// ---- the end

// Returns a line, if it is the end of a step, or else an earlier one.
fn later_end<'a>(line: &'a [u8], earlier: &'a [u8]) -> &'a [u8]
    ensures { result.now ≡ last_or earlier.now (filter ends_step (line.now ∷ [])) }
{
    if ends_step(line) { line } else { earlier }
}

// Returns the last end of a step in what a run printed, or else an earlier one.
fn last_end<'a>(others: &'a [u8], earlier: &'a [u8]) -> &'a [u8]
    ensures { result.now ≡ last_or earlier.now (filter ends_step (lines_of others.now)) }
{
    let mut last = earlier;
    let mut rest = others;
    'lines: while has_bytes(rest) {
        let (line, more) = split_line(rest);
        last = later_end(line, last);
        match more {
            Some(next) => rest = next,
            None => return last,
        }
    }
    last
}

// Returns the last end of a step.
fn last_of(outputs: &[LineOutput]) -> &[u8]
    ensures { result.now ≡ last_or (codes "nothing") (step_ends outputs.now) }
{
    let mut last: &[u8] = b"nothing";
    for output in outputs {
        last = last_end(output.others(), last);
    }
    last
}

impl Document {
    /// Returns the number of the lines.
    pub(crate) fn line_count(&self) -> usize
        ensures { result ≡ line_count self.now.text }
    {
        self.starts.len()
    }

    // Returns whether the run printed another answer for a line than one that is expected.
    fn is_different(&self, number: usize, expected: &[u8]) -> bool
        ensures { result
            ≡ is_difference (line_bytes self.now.text number) expected.now (answer_at self.now number) }
    {
        is_difference(self.line(number), expected, self.answer(number))
    }

    // Returns what is after the blank of the arrow of a line.
    fn arrow_span(&self, number: usize) -> Span
        ensures { result
            ≡ line_span self.now.text number (arrow_span (line_bytes self.now.text number)) }
    {
        self.within_line(number, arrow_span(self.line(number)))
    }

    // Returns what the run printed for a line, or the word for nothing.
    fn printed(&self, number: usize) -> &[u8]
        ensures { result.now ≡ or_nothing (answer_at self.now number) }
    {
        or_nothing(self.answer(number))
    }

    // Adds the diagnostic of an answer that a line expects.
    fn push_difference_note(
        &self,
        alloc: Global,
        notes: &mut Vec<Note>,
        number: usize,
        expected: &[u8],
    ) -> Result<(), AllocError>
        ensures { OnOk result (notes.new.items ≡ notes.old.items
            ++ difference_note (line_span self.now.text number (arrow_span (line_bytes self.now.text number))) expected.now (or_nothing (answer_at self.now number)) ∷ []) }
    {
        let span = self.arrow_span(number);
        let note = difference_note(alloc, span, expected, self.printed(number))?;
        push_note(notes, note)
    }

    // Adds the diagnostic of an answer that a line expects, if the run printed another one.
    fn push_if_different(
        &self,
        alloc: Global,
        notes: &mut Vec<Note>,
        number: usize,
        expected: &[u8],
    ) -> Result<(), AllocError>
        ensures { OnOk result (notes.new.items
            ≡ notes.old.items ++ difference_by self.now number (Some expected.now)) }
    {
        if self.is_different(number, expected) {
            self.push_difference_note(alloc, notes, number, expected)
        } else {
            Ok(())
        }
    }

    // Returns the answer that a line expects, if it has an arrow.
    fn expected(&self, number: usize) -> Option<&[u8]>
        ensures { option_map (λ text. text.now) result
            ≡ answers_in (line_bytes self.now.text number) }
    {
        answers_in(self.line(number))
    }

    // Adds the diagnostic of the answer that a line expects, if it has an arrow, and the run printed another one.
    fn push_difference(
        &self,
        alloc: Global,
        notes: &mut Vec<Note>,
        number: usize,
    ) -> Result<(), AllocError>
        ensures { OnOk result
            (notes.new.items ≡ notes.old.items ++ difference_at self.now number) }
    {
        match self.expected(number) {
            Some(expected) => self.push_if_different(alloc, notes, number, expected),
            None => Ok(()),
        }
    }

    // Adds the diagnostics of the answers that differ from those that lines expect.
    fn push_each_difference(&self, alloc: Global, notes: &mut Vec<Note>) -> Result<(), AllocError>
        ensures { OnOk result (notes.new.items
            ≡ notes.old.items ++ differences_from self.now 0 (line_count self.now.text)) }
    {
        for number in 0..self.line_count() {
            self.push_difference(alloc, notes, number)?;
        }
        Ok(())
    }

    // Returns the end of the last step. `mvsjob` ends a job at a line with a fault.
    fn end_printed(&self) -> &[u8]
        ensures { result.now ≡ end_printed self.now }
    {
        if self.faults.is_empty() {
            last_of(&self.outputs)
        } else {
            b"JOB FAULT RC 12"
        }
    }

    // Returns the last line, or the one before it, if that is empty.
    fn last_line(&self) -> usize
        ensures { result ≡ last_line self.now.text }
    {
        let last = self.line_count().saturating_sub(1);
        if self.line(last).is_empty() {
            last.saturating_sub(1)
        } else {
            last
        }
    }

    // Returns all of a line.
    fn line_span(&self, number: usize) -> Span
        ensures { result
            ≡ line_span self.now.text number (whole_span (line_bytes self.now.text number)) }
    {
        self.within_line(number, whole_span(self.line(number)))
    }

    // Returns whether an end of the run is the one that is printed.
    fn is_end(&self, expected: &[u8]) -> bool
        ensures { result ≡ bytes_eq (end_printed self.now) expected.now }
    {
        self.end_printed() == expected
    }

    // Adds the diagnostic of the end of the run that a line expects.
    fn push_end_note(
        &self,
        alloc: Global,
        notes: &mut Vec<Note>,
        number: usize,
        expected: &[u8],
    ) -> Result<(), AllocError>
        ensures { OnOk result (notes.new.items ≡ notes.old.items
            ++ difference_note (line_span self.now.text number (whole_span (line_bytes self.now.text number))) expected.now (end_printed self.now) ∷ []) }
    {
        let span = self.line_span(number);
        let note = difference_note(alloc, span, expected, self.end_printed())?;
        push_note(notes, note)
    }

    // Adds the diagnostic of the end of the run, if a line expects another one.
    fn push_if_other_end(
        &self,
        alloc: Global,
        notes: &mut Vec<Note>,
        number: usize,
        expected: &[u8],
    ) -> Result<(), AllocError>
        ensures { OnOk result
            (notes.new.items ≡ notes.old.items ++ end_by self.now number (Some expected.now)) }
    {
        if self.is_end(expected) {
            Ok(())
        } else {
            self.push_end_note(alloc, notes, number, expected)
        }
    }

    // Returns the end of the run that a line expects, if it does so.
    fn expected_end(&self, number: usize) -> Option<&[u8]>
        ensures { option_map (λ text. text.now) result ≡ end_in (line_bytes self.now.text number) }
    {
        end_in(self.line(number))
    }

    // Adds the diagnostic of the end of the run, if the last line expects another one.
    fn push_end(&self, alloc: Global, notes: &mut Vec<Note>) -> Result<(), AllocError>
        ensures { OnOk result (notes.new.items ≡ notes.old.items ++ end_difference self.now) }
    {
        let last = self.last_line();
        match self.expected_end(last) {
            Some(expected) => self.push_if_other_end(alloc, notes, last, expected),
            None => Ok(()),
        }
    }

    /// Adds the diagnostics of answers that differ from those that the text expects.
    pub(crate) fn push_differences(
        &self,
        alloc: Global,
        notes: &mut Vec<Note>,
    ) -> Result<(), AllocError>
        ensures { OnOk result (notes.new.items ≡ notes.old.items ++ differences self.now) }
    {
        if !self.is_whole {
            return Ok(());
        }
        self.push_each_difference(alloc, notes)?;
        self.push_end(alloc, notes)
    }
}
