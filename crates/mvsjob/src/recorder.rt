//! A reader that keeps the lines of its latest read, so that a faulty one can be reported.

ghost use Rattle.std.specs.Prelude.{◌≡◌, ◌≤◌, IfOk, length};

use crate::faulty::{FaultyLine, first_faulty};
use job_script::read_line;
use job_script::split_once::split_once;
use mvs_model::line::Line;
use std::alloc::{AllocError, Global};
use std::io::{self, Read};

/// How many bytes are kept: those of a read of a job, and of a line that began before it.
const ROOM: usize = 66_048;

/// What was read since the beginning of the line in which the latest read began. The lines before had no fault, since a job reads
/// nothing after one.
#[derive(Drop)]
struct RecordedLines {
    /// On the heap, and never more than the room that was taken when the reader was made.
    bytes: Vec<u8>,
    /// The number of the first line that is kept.
    number: u32,
    /// Whether no statement came before it.
    first: bool,
}

/// A reader that keeps the lines of its latest read.
#[derive(Drop)]
pub struct LineRecorder<R> {
    inner: R,
    lines: RecordedLines,
}

/// Returns whether no line of a text is a statement.
pub fn is_silent(text: &[u8]) -> bool {
    let mut read = Line::Nothing;
    let mut rest = text;
    'lines: loop {
        let (line, more) = split_once(rest, b'\n');
        let said = read_line(line, true, &mut read);
        if said.is_err() || !matches!(read, Line::Nothing) {
            return false;
        }
        match more {
            None => return true,
            Some(next) => rest = next,
        }
    }
}

// Returns how many lines have ended in a few bytes, fewer than 256: a byte counts them, so that many are looked at together.
fn ended_in_block(block: &[u8]) -> u8 {
    let mut lines = 0u8;
    for byte in block {
        lines = lines.wrapping_add(u8::from(*byte == b'\n'));
    }
    lines
}

/// Returns the number of lines of a text that have ended.
pub fn ended_lines(text: &[u8]) -> u32 {
    let mut lines = 0u32;
    for block in text.chunks(240) {
        lines = lines.wrapping_add(u32::from(ended_in_block(block)));
    }
    lines
}

/// Returns where the last line that has ended ends.
pub fn ended(text: &[u8]) -> usize
    ensures { result ≤ length text.now }
{
    for i in (0..text.len()).rev() {
        if text[i] == b'\n' {
            return i + 1;
        }
    }
    0
}

impl RecordedLines {
    fn new(alloc: Global) -> Result<RecordedLines, AllocError> {
        Ok(RecordedLines {
            bytes: Vec::with_capacity(alloc, ROOM)?,
            number: 1,
            first: true,
        })
    }

    // Lets go of the lines that have ended.
    fn let_go(&mut self) {
        let from = ended(&self.bytes);
        let lines = ended_lines(&self.bytes[..from]);
        self.number = self.number.saturating_add(lines);
        if self.first {
            self.first = is_silent(&self.bytes[..from]);
        }
        let len = self.bytes.len();
        for i in from..len {
            self.bytes[i - from] = self.bytes[i];
        }
        self.bytes.truncate(len - from);
    }

    // Keeps what was read while there is space.
    fn keep(&mut self, written: &[u8]) {
        let count = written.len().min(ROOM.saturating_sub(self.bytes.len()));
        let _ = self.bytes.extend_from_slice(&written[..count]);
    }

    fn faulty(&self) -> FaultyLine<'_> {
        first_faulty(&self.bytes, self.number, self.first)
    }
}

impl<R: Drop> LineRecorder<R> {
    /// Makes a reader before its first read. Fails only if memory is exhausted.
    pub fn new(alloc: Global, inner: R) -> Result<LineRecorder<R>, AllocError>
        ensures { IfOk result (λ kept. kept.inner ≡ inner) }
    {
        Ok(LineRecorder {
            lines: RecordedLines::new(alloc)?,
            inner,
        })
    }

    /// Returns the line whose fault has ended a job.
    pub fn faulty(&self) -> FaultyLine<'_> {
        self.lines.faulty()
    }

    /// Returns the reader below.
    pub fn get_ref(&self) -> &R
        ensures { result.now ≡ self.now.inner }
    {
        &self.inner
    }
}

impl<R: Read> Read for LineRecorder<R> {
    ghost remaining = { λ k. R.remaining k.inner };

    fn read(&mut self, buf: &mut [u8]) -> io::Result<usize> {
        self.lines.let_go();
        let count = self.inner.read(buf)?;
        self.lines.keep(&buf[..count]);
        Ok(count)
    }
}
