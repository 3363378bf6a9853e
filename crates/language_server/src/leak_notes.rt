//! Diagnostics of areas that were never released, and of pools that were never deleted.

ghost use Rattle.std.specs.Prelude.{◌≡◌, ◌≤◌, ◌-◌, ◌++◌, IfOk, OnOk, codes, drop, flat_map, length, option_map, position, reverse, string_bytes, take};
ghost use Rattle.mvs_model.specs.Lines.{lines_of};
ghost use Rattle.expected_answers.specs.Reports.{shown};
ghost use Rattle.language_server.specs.LeakNotes.{digits_after, leak_in, leak_kind, leak_note, leak_note_by, leak_notes, leak_with, line_number, number_after_line, short_number};
ghost use Rattle.language_server.specs.Words.{ends_digits};

use crate::document::Document;
use crate::explanations::starred;
use crate::hints::front;
use crate::names::{has_bytes, split_line};
use crate::notes::{Note, Severity, named_span};
use crate::plain_text::push_shown;
use crate::words::length_to;
use job_script::digits::read_number;
use job_script::split_once::split_once;
use std::alloc::{AllocError, Global};
use std::marker::Model;

/// A line of a report of leaks: what it is about, the number of the lines before the one that obtained or built that, and the text.
#[derive(Drop)]
pub struct LeakLine<'a> {
    pub area: &'a [u8],
    pub line: usize,
    pub text: &'a [u8],
}

impl<'a> Model for LeakLine<'a> {
    ghost use Rattle.language_server.specs.LeakNotes.{LeakValue};

    ghost Value = { LeakValue };

    ghost view = { λ l. record { area = l.area.now; line = l.line; text = l.text.now } };
}

// ---- the number of a line

// Returns the number of the digits with which a text ends, if there is another byte before them.
fn digits_before(text: &[u8]) -> Option<usize>
    ensures { result ≡ position ends_digits (reverse text.now) }
{
    text.iter().rev().position(|byte| !byte.is_ascii_digit())
}

// Returns the number of the digits with which a text ends.
fn digits_after(text: &[u8]) -> usize
    ensures { result ≡ digits_after text.now }
{
    length_to(digits_before(text), text.len())
}

// Returns the bytes of a text from a place on.
fn back(text: &[u8], place: usize) -> &[u8]
    ensures { result.now ≡ drop place text.now }
{
    if place <= text.len() {
        &text[place..]
    } else {
        &[]
    }
}

// Returns the number that at most ten digits are.
fn short_number(digits: &[u8]) -> Option<u64>
    ensures { result ≡ short_number digits.now }
{
    if digits.len() <= 10 {
        read_number(digits)
    } else {
        None
    }
}

// Returns the number at a place of a text, if it follows ` in line `.
fn number_after_line(text: &[u8], place: usize) -> Option<u64>
    ensures { result ≡ number_after_line text.now place }
{
    if front(text, place).ends_with(b" in line ") {
        short_number(back(text, place))
    } else {
        None
    }
}

// Returns the number of the line that a text names at its end.
fn line_number(text: &[u8]) -> Option<u64>
    ensures { result ≡ line_number text.now }
{
    if !text.ends_with(b".") {
        return None;
    }
    let count = text.len().saturating_sub(1);
    let before = front(text, count);
    number_after_line(before, count.saturating_sub(digits_after(before)))
}

// ---- the lines of a report

// Returns what a text reports of the line with a number, if it names one.
fn leak_with(text: &[u8], number: Option<u64>) -> Option<LeakLine<'_>>
    ensures { result ≡ leak_with text.now number }
{
    let number = number?;
    let (area, _) = split_once(text, b':');
    Some(LeakLine {
        area,
        line: (number as usize).saturating_sub(1),
        text,
    })
}

/// Returns what a printed line reports, if it is about one area or pool.
pub fn leak_in(line: &[u8]) -> Option<LeakLine<'_>>
    ensures { result ≡ leak_in line.now }
{
    let text = starred(line)?;
    leak_with(text, line_number(text))
}

// Returns what is reported of an area or a pool.
fn leak_kind(area: &[u8]) -> &'static str
    ensures { result.now ≡ leak_kind area.now }
{
    if area.starts_with(b"Pool ") {
        "Never deleted"
    } else {
        "Never released"
    }
}

// Returns the message about a leak.
fn leak_message(alloc: Global, leak: &LeakLine<'_>) -> Result<String, AllocError>
    ensures { IfOk result (λ text. string_bytes text
        ≡ leak_kind leak.now.area ++ (codes ": " ++ shown leak.now.text)) }
{
    let mut text = String::from_str(alloc, leak_kind(leak.area))?;
    text.push_str(": ")?;
    push_shown(&mut text, leak.text)?;
    Ok(text)
}

impl Document {
    // Returns the diagnostic of a leak.
    fn leak_note(&self, alloc: Global, leak: &LeakLine<'_>) -> Result<Note, AllocError>
        ensures { IfOk result (λ note. note ≡ leak_note self.now leak.now) }
    {
        let span = named_span(alloc, self.line(leak.line), leak.area)?;
        Ok(Note {
            span: self.within_line(leak.line, span),
            severity: Severity::Warning,
            code: String::from_str(alloc, "leak")?,
            message: leak_message(alloc, leak)?,
        })
    }

    // Adds the diagnostic of a line of a report, if it is about one area or pool.
    fn push_leak(&self, alloc: Global, notes: &mut Vec<Note>, line: &[u8]) -> Result<(), AllocError>
        ensures { OnOk result (notes.new.items
            ≡ notes.old.items ++ leak_note_by self.now (leak_in line.now)) }
    {
        match leak_in(line) {
            Some(leak) => {
                notes.push(self.leak_note(alloc, &leak)?)?;
                Ok(())
            }
            None => Ok(()),
        }
    }

    /// Adds the diagnostics of the areas that were never released, and of the pools that were never deleted.
    pub(crate) fn push_leaks(&self, alloc: Global, notes: &mut Vec<Note>) -> Result<(), AllocError>
        ensures { OnOk result (notes.new.items ≡ notes.old.items ++ leak_notes self.now) }
    {
        let mut rest: &[u8] = &self.leaks;
        'lines: while has_bytes(rest) {
            let (line, more) = split_line(rest);
            self.push_leak(alloc, notes, line)?;
            match more {
                Some(next) => rest = next,
                None => return Ok(()),
            }
        }
        Ok(())
    }
}
