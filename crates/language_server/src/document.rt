//! A document: its text, its lines, its faults, and what a run of it prints.

ghost use Rattle.std.specs.Prelude.{◌≡◌, ◌⊎◌, ◌≤◌, ◌<◌, ◌+◌, ◌++◌, [], IfErr, IfOk, MatchOption, OnErr, OnOk, length, min};
ghost use Rattle.language_server.specs.Documents.{IsAnalysed, IsTooLong, answer_at, others_at};
ghost use Rattle.language_server.specs.Positions.{IsPlaceOf};
ghost use Rattle.language_server.specs.Spans.{IsIn, line_at, line_bytes, line_end, line_start, line_starts, onto_start, shifted, within};

use crate::leaks::leak_reports;
use crate::line_outputs::{LineOutput, line_outputs};
use crate::position::place_of;
use crate::runnable::{FaultAt, without_faults};
use crate::span::Span;
use crate::transcript::run;
use editor_messages::Position;
use std::alloc::{AllocError, Global};
use std::marker::Model;

/// The most bytes of a document.
pub const MOST_DOCUMENT: usize = 1_048_576;

/// Why a document is not analysed.
#[derive(Clone, Copy, Debug, PartialEq, Eq)]
pub enum DocumentError {
    TooLong,
    Memory,
}

/// A text, and what is known of it.
#[derive(Drop)]
pub struct Document {
    pub(crate) text: Vec<u8>,
    /// Where each line begins.
    pub(crate) starts: Vec<usize>,
    pub(crate) faults: Vec<FaultAt>,
    /// What a run printed for each line. After the bytes that are shown there is nothing.
    pub(crate) outputs: Vec<LineOutput>,
    pub(crate) is_whole: bool,
    /// The lines about areas that were never released.
    pub(crate) leaks: Vec<u8>,
}

impl Model for Document {
    ghost use Rattle.std.specs.Prelude.{◌≡◌, ◌≤◌, length};
    ghost use Rattle.language_server.specs.Documents.{DocumentValue};
    ghost use Rattle.language_server.specs.Spans.{line_starts};

    ghost Value = { DocumentValue };

    ghost view = { λ d. record {
      text = d.text.items;
      faults = d.faults.items;
      outputs = d.outputs.items;
      is_whole = d.is_whole;
      leaks = d.leaks.items;
    } };

    ghost invariant = { λ d. (d.starts.items ≡ line_starts d.text.items)
        × (length d.text.items ≤ 1048576) };
}

// Adds a place, if a line begins there.
fn push_start(starts: &mut Vec<usize>, place: usize, begins: bool) -> Result<(), AllocError>
    ensures { OnOk result (starts.new.items ≡ starts.old.items ++ onto_start begins place []) }
{
    if begins {
        starts.push(place)?;
    }
    Ok(())
}

// Returns where the lines of a text begin.
#[tactic(auto, unfolding(crate::specs::Spans::line_starts))]
fn starts_of(alloc: Global, text: &[u8]) -> Result<Vec<usize>, AllocError>
    ensures { IfOk result (λ starts. starts.items ≡ line_starts text.now) }
{
    let mut starts = Vec::new(alloc);
    starts.push(0)?;
    for (at, byte) in text.iter().enumerate() {
        push_start(&mut starts, at + 1, *byte == b'\n')?;
    }
    Ok(starts)
}

// Returns a place of a line as one of the text, which has at most a number of bytes.
fn far_place(place: usize, start: usize, most: usize) -> usize
    requires { most ≤ 1048576 }
    ensures { result ≡ min (place + start) most }
{
    place.saturating_add(start).min(most)
}

impl Document {
    // Analyses a text, unless it is too long.
    fn analyse(alloc: Global, text: Vec<u8>) -> Result<Option<Document>, AllocError>
        ensures analysed { IfOk result
            (λ found. MatchOption found (IsTooLong text.items)
            (λ document. IsAnalysed text.items document)) }
        ensures memory { OnErr result (length text.items ≤ 1048576) }
    {
        if text.len() > MOST_DOCUMENT {
            return Ok(None);
        }
        let starts = starts_of(alloc, &text)?;
        let runnable = without_faults(alloc, &text)?;
        if runnable.script.len() > MOST_DOCUMENT + 1 {
            return Ok(None);
        }
        let ran = run(alloc, &runnable.script)?;
        let outputs = line_outputs(alloc, &text, &ran.printed)?;
        let leaks = leak_reports(alloc, &runnable.script)?;
        Ok(Some(Document {
            text,
            starts,
            faults: runnable.faults,
            outputs,
            is_whole: ran.is_whole,
            leaks,
        }))
    }

    /// Analyses a text: finds its faults, and runs its other lines.
    pub fn new(alloc: Global, text: Vec<u8>) -> Result<Document, DocumentError>
        ensures analysed { IfOk result (λ document. IsAnalysed text.items document) }
        ensures too_long { IfErr result
            (λ error. error ≡ DocumentError.TooLong → IsTooLong text.items) }
        ensures memory { IfErr result
            (λ error. error ≡ DocumentError.Memory → length text.items ≤ 1048576) }
    {
        Document::analyse(alloc, text)
            .map_err(|_| DocumentError::Memory)?
            .ok_or(DocumentError::TooLong)
    }

    /// Returns its text.
    pub fn text(&self) -> &[u8]
        ensures text { result.now ≡ self.now.text }
        ensures bound { length result.now ≤ 1048576 }
    {
        &self.text
    }

    /// Returns the place of a position.
    pub fn place(&self, position: Position) -> usize
        ensures { IsPlaceOf self.now.text position result }
    {
        place_of(&self.text, position)
    }

    /// Returns whether the whole run is shown.
    pub fn is_whole(&self) -> bool
        ensures { result ≡ self.now.is_whole }
    {
        self.is_whole
    }

    /// Returns where a line begins, by the number of the lines before it.
    pub(crate) fn start(&self, line: usize) -> usize
        ensures { result ≡ line_start self.now.text line }
    {
        self.starts.get(line).copied().unwrap_or(self.text.len())
    }

    /// Returns where a line ends, before its line feed.
    pub(crate) fn end(&self, line: usize) -> usize
        ensures { result ≡ line_end self.now.text line }
    {
        if line >= self.starts.len() {
            return self.text.len();
        }
        match self.starts.get(line + 1) {
            Some(next) => next.saturating_sub(1),
            None => self.text.len(),
        }
    }

    /// Returns a line without its end.
    pub(crate) fn line(&self, line: usize) -> &[u8]
        ensures line { result.now ≡ line_bytes self.now.text line }
        ensures bound { length result.now ≤ 1048576 }
    {
        let span = Span {
            start: self.start(line),
            end: self.end(line),
        };
        span.of(&self.text)
    }

    /// Returns the bytes of a span that are in the text.
    pub(crate) fn within(&self, span: Span) -> Span
        ensures exact { result ≡ within self.now.text span }
        ensures within { IsIn self.now.text result }
        ensures same { IsIn self.now.text span → result ≡ span }
    {
        let start = span.start.min(self.text.len());
        Span {
            start,
            end: span.end.min(self.text.len()).max(start),
        }
    }

    /// Returns the bytes of a span of a line that are in the text.
    pub(crate) fn within_line(&self, line: usize, span: Span) -> Span
        ensures { result ≡ within self.now.text (shifted (line_start self.now.text line) span) }
    {
        let start = self.start(line);
        let first = far_place(span.start, start, self.text.len());
        Span {
            start: first,
            end: far_place(span.end, start, self.text.len()).max(first),
        }
    }

    /// Returns the number of the lines before the one that has a place.
    pub fn line_of(&self, place: usize) -> usize
        ensures exact { result ≡ line_at self.now.text place }
        ensures bound { result ≤ 1048576 }
    {
        let begun = self.starts.iter().filter(|start| **start <= place).count();
        begun.saturating_sub(1)
    }

    /// Returns what a run printed for a line.
    pub(crate) fn answer(&self, line: usize) -> &[u8]
        ensures { result.now ≡ answer_at self.now line }
    {
        match self.outputs.get(line) {
            Some(output) => &output.answer,
            None => &[],
        }
    }

    /// Returns the lines without a number that a run printed for a line.
    pub(crate) fn others(&self, line: usize) -> &[u8]
        ensures { result.now ≡ others_at self.now line }
    {
        match self.outputs.get(line) {
            Some(output) => &output.others,
            None => &[],
        }
    }
}
