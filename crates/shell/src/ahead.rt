//! A reader that reads ahead, for a caller that asks for one byte at a time.

ghost use Rattle.std.specs.Prelude.{◌≡◌, ◌≤◌, ◌∷◌, [], List, ℕ, IfOk, MatchOption, OnOk, length};
ghost use Rattle.std.specs.Io.KnownBytes.{IsAtEnd, Keeps, ReadConsumes, prepend_known};

use std::io::{self, Read};
use std::marker::Model;

/// How many bytes are read at once.
const CHUNK: usize = 4_096;

/// A reader that reads ahead, and gives one byte a read.
#[derive(Drop)]
pub struct ByteReader<R> {
    inner: R,
    chunk: [u8; CHUNK],
    /// Where the bytes begin that were read and not given yet.
    at: usize,
    /// Where they end.
    end: usize,
}

impl<R> Model for ByteReader<R> {
    ghost use Rattle.std.specs.Prelude.{◌≤◌, slice_range};
    ghost use Rattle.shell.specs.Inputs.{AheadValue};

    ghost Value = { AheadValue R };

    ghost view = { λ b. record { inner = b.inner; ahead = slice_range b.chunk b.at b.end } };

    ghost invariant = { λ b. (b.at ≤ b.end) × (b.end ≤ 4096) };
}

// Reads once.
fn read_chunk<R: Read>(reader: &mut R, chunk: &mut [u8; CHUNK]) -> io::Result<usize>
    ensures bound { IfOk result (λ n. n ≤ 4096) }
    ensures room { length chunk.new ≡ 4096 }
    ensures bytes { ReadConsumes (R.remaining reader.old) (R.remaining reader.new) result chunk.new }
{
    reader.read(&mut chunk[..])
}

impl<R> ByteReader<R> {
    /// Makes a reader before its first read.
    pub fn new(inner: R) -> ByteReader<R>
        ensures inner { result.inner ≡ inner }
        ensures ahead { result.ahead ≡ [] }
    {
        ByteReader {
            inner,
            chunk: [0; CHUNK],
            at: 0,
            end: 0,
        }
    }

    // Gives a byte that was read and not given yet, if there is one.
    fn next(&mut self) -> Option<u8>
        ensures byte { MatchOption result ((self.old.ahead ≡ []) × (self.new.ahead ≡ []))
            (λ byte. self.old.ahead ≡ byte ∷ self.new.ahead) }
        ensures inner { self.new.inner ≡ self.old.inner }
    {
        if self.at == self.end {
            return None;
        }
        let byte = self.chunk[self.at];
        self.at += 1;
        Some(byte)
    }
}

impl<R: Read> ByteReader<R> {
    // Reads, if each byte was given.
    fn fill(&mut self) -> io::Result<()>
        ensures bytes { Keeps (prepend_known self.old.ahead (R.remaining self.old.inner))
            (prepend_known self.new.ahead (R.remaining self.new.inner)) }
        ensures end { OnOk result (self.new.ahead ≡ [] → IsAtEnd (R.remaining self.new.inner)) }
    {
        if self.at < self.end {
            return Ok(());
        }
        self.at = 0;
        self.end = 0;
        let count = read_chunk(&mut self.inner, &mut self.chunk)?;
        self.end = count;
        Ok(())
    }
}

impl<R: Read> Read for ByteReader<R> {
    ghost remaining = { λ b. prepend_known b.ahead (R.remaining b.inner) };

    fn read(&mut self, buf: &mut [u8]) -> io::Result<usize> {
        if buf.is_empty() {
            return Ok(0);
        }
        self.fill()?;
        match self.next() {
            Some(byte) => {
                buf[0] = byte;
                Ok(1)
            }
            None => Ok(0),
        }
    }
}
