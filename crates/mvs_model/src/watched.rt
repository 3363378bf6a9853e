//! Readers and writers whose failures are remembered.

ghost use Rattle.std.specs.Prelude.{◌≡◌, ◌<◌, ◌≤◌, length, true, false, IfOk, OnOk, OnErr};
ghost use Rattle.std.specs.Io.KnownBytes.{Keeps, ReadConsumes, WriteAppends};

use std::io::{Read, Write};
use std::marker::Model;
use thiserror::Error;

/// A call of a reader or a writer failed.
#[derive(Clone, Copy, Debug, PartialEq, Eq, Error)]
#[error("read or write failed")]
pub struct Failed;

/// A reader or a writer, and whether a call of it has failed.
#[derive(Drop)]
pub struct Watched<T> {
    inner: T,
    failed: bool,
}

impl<T> Model for Watched<T> {
    ghost use Rattle.mvs_model.specs.Watched.{WatchedValue};

    ghost Value = { WatchedValue T };

    ghost view = { λ w. record { inner = w.inner; failed = w.failed } };
}

impl<T> Watched<T> {
    /// Watches a reader or writer of which no call has failed so far.
    pub fn new(inner: T) -> Watched<T>
        ensures inner { result.inner ≡ inner }
        ensures failed { result.failed ≡ false }
    {
        Watched {
            inner,
            failed: false,
        }
    }

    /// Returns whether a call has failed so far.
    pub fn failed(&self) -> bool
        ensures { result ≡ self.now.failed }
    {
        self.failed
    }

    /// Returns the reader or writer.
    pub fn into_inner(self) -> T
        ensures { result ≡ self.inner }
    {
        self.inner
    }
}

impl<R: Read> Watched<R> {
    /// Makes one read of the reader.
    pub fn read(&mut self, buf: &mut [u8]) -> Result<usize, Failed>
        ensures bound { IfOk result (λ n. n ≤ length buf.new) }
        ensures bytes { ReadConsumes (R.remaining self.old.inner) (R.remaining self.new.inner)
            result buf.new }
        ensures ok { OnOk result (self.new.failed ≡ self.old.failed) }
        ensures err { OnErr result (self.new.failed ≡ true) }
    {
        match self.inner.read(buf) {
            Ok(n) => Ok(n),
            Err(_) => {
                self.failed = true;
                Err(Failed)
            }
        }
    }
}

impl<W: Write> Watched<W> {
    /// Makes one write to the writer. A write of at least one byte that takes none is a failure.
    pub fn write(&mut self, buf: &[u8]) -> Result<usize, Failed>
        ensures bound { IfOk result (λ n. n ≤ length buf.now) }
        ensures some { IfOk result (λ n. 0 < length buf.now → 0 < n) }
        ensures bytes { WriteAppends (W.contents self.old.inner) (W.contents self.new.inner) result
            buf.now }
        ensures ok { OnOk result (self.new.failed ≡ self.old.failed) }
        ensures err { OnErr result (self.new.failed ≡ true) }
    {
        match self.inner.write(buf) {
            Ok(n) if n > 0 || buf.is_empty() => Ok(n),
            _ => {
                self.failed = true;
                Err(Failed)
            }
        }
    }

    /// Passes on what the writer has kept back.
    pub fn flush(&mut self) -> Result<(), Failed>
        ensures bytes { Keeps (W.contents self.old.inner) (W.contents self.new.inner) }
        ensures ok { OnOk result (self.new.failed ≡ self.old.failed) }
        ensures err { OnErr result (self.new.failed ≡ true) }
    {
        if self.inner.flush().is_ok() {
            return Ok(());
        }
        self.failed = true;
        Err(Failed)
    }
}
