//! The lines that a reader has, one at a time.

ghost use Rattle.std.specs.Prelude.{◌≡◌, ◌<◌, ◌≤◌, ◌+◌, ◌||◌, ◌∷◌, [], List, ℕ, false, true, nat_lt, IfOk, MatchResult, OnErr, OnOk};
ghost use Rattle.std.specs.Io.KnownBytes.{Consumes, IsAtEnd};
ghost use Rattle.mvs_model.specs.Numbers.{most_script_bytes};
ghost use Rattle.shell.specs.Inputs.{Begins, Finds, Reads};

use job_script::LineBuffer;
use mvs_model::numbers::MOST_SCRIPT_BYTES;
use mvs_model::watched::{Failed, Watched};
use std::io::Read;
use std::marker::Model;

/// How many bytes of a line are kept at most, which are enough to see that it is too long.
const ROOM: usize = 256;

/// A reader of lines. It reads no further than the end of a line.
#[derive(Drop)]
pub struct LineInput<R> {
    inner: Watched<R>,
    /// How many bytes were read.
    count: usize,
    /// Whether the reader is at its end.
    ended: bool,
}

impl<R> Model for LineInput<R> {
    ghost use Rattle.shell.specs.Inputs.{InputValue};

    ghost Value = { InputValue R };

    ghost view = { λ i. record { inner = i.inner; count = i.count; ended = i.ended } };
}

/// What a reader has next.
#[derive(Clone, Copy, Debug, PartialEq, Eq)]
enum Next {
    /// A byte of a line.
    Byte(u8),
    /// The end of a line.
    Line,
    /// Nothing.
    End,
}

impl<R> LineInput<R> {
    /// Makes a reader of lines before its first read.
    pub fn new(inner: R) -> LineInput<R>
        ensures inner { result.inner.inner ≡ inner }
        ensures failed { result.inner.failed ≡ false }
        ensures count { result.count ≡ 0 }
        ensures ended { result.ended ≡ false }
    {
        LineInput {
            inner: Watched::new(inner),
            count: 0,
            ended: false,
        }
    }

    /// Returns whether more bytes were read than a script may have.
    pub fn is_long(&self) -> bool
        ensures { result ≡ nat_lt most_script_bytes self.now.count }
    {
        self.count > MOST_SCRIPT_BYTES
    }

    /// Returns the reader, which knows whether a read failed.
    pub fn into_inner(self) -> Watched<R>
        ensures { result ≡ self.inner }
    {
        self.inner
    }
}

impl<R: Read> LineInput<R> {
    // Reads a byte.
    fn next(&mut self) -> Result<Next, Failed>
        requires { self.old.count ≤ most_script_bytes }
        ensures found { MatchResult result
            (Finds (R.remaining self.old.inner.inner) (R.remaining self.new.inner.inner)
            self.old.ended self.new.ended self.old.count self.new.count)
            (λ _. Consumes (R.remaining self.old.inner.inner) (R.remaining self.new.inner.inner) []
            × (self.new.ended ≡ self.old.ended)) }
        ensures at_end { (self.old.ended ≡ true → IsAtEnd (R.remaining self.old.inner.inner))
            → self.new.ended ≡ true → IsAtEnd (R.remaining self.new.inner.inner) }
        ensures ok { OnOk result (self.new.inner.failed ≡ self.old.inner.failed) }
        ensures err { OnErr result (self.new.inner.failed ≡ true) }
    {
        let mut byte = [0u8; 1];
        if self.ended {
            return Ok(Next::End);
        }
        if self.inner.read(&mut byte)? == 0 {
            self.ended = true;
            return Ok(Next::End);
        }
        self.count += 1;
        Ok(if byte[0] == b'\n' {
            Next::Line
        } else {
            Next::Byte(byte[0])
        })
    }

    /// Reads a line, and writes its first 256 bytes over `line`. Returns false if there is none. Fails if a read failed, or
    /// if there are too many bytes.
    pub fn read_line(&mut self, line: &mut LineBuffer) -> Result<bool, Failed>
        ensures some { IfOk result (λ more. more ≡ true → (self.old.ended ≡ false)
            × (self.old.count < self.new.count) × (self.new.count ≤ most_script_bytes + 1)
            × Reads (R.remaining self.old.inner.inner) (R.remaining self.new.inner.inner)
            self.new.ended line.new) }
        ensures none { IfOk result (λ more. more ≡ false → (self.new.ended ≡ true)
            × Consumes (R.remaining self.old.inner.inner) (R.remaining self.new.inner.inner) []) }
        ensures part { OnErr result (Begins (R.remaining self.old.inner.inner)
            (R.remaining self.new.inner.inner) self.old.ended line.new) }
        ensures at_end { (self.old.ended ≡ true → IsAtEnd (R.remaining self.old.inner.inner))
            → self.new.ended ≡ true → IsAtEnd (R.remaining self.new.inner.inner) }
        ensures ok { OnOk result (self.new.inner.failed ≡ self.old.inner.failed) }
        ensures err { OnErr result
            ((self.new.inner.failed || nat_lt most_script_bytes self.new.count) ≡ true) }
    {
        line.clear();
        'bytes: while !self.is_long() {
            match self.next()? {
                Next::Byte(byte) => {
                    if line.bytes().len() < ROOM {
                        let _ = line.push(byte);
                    }
                }
                Next::Line => return Ok(true),
                Next::End => return Ok(!line.bytes().is_empty()),
            }
        }
        Err(Failed)
    }
}
