//! Where a script comes from.

ghost use Rattle.std.specs.Prelude.{◌≡◌, ◌<◌, ◌≤◌, Bool, List, Option, ℕ, length, true, IfOk, OnOk, OnErr};
ghost use Rattle.std.specs.Io.KnownBytes.{Consumes, IsAtEnd, ReadConsumes};

use mvs_model::watched::{Failed, Watched};
use std::io::Read;

/// A reader of a script that knows whether a read has failed.
pub trait Source {
    // What is left to be read, where that is known.
    ghost left: { Self → Option (List ℕ) };

    // Whether a read has failed.
    ghost failed: { Self → Bool };

    // No more is to come.
    ghost is_at_end: { Self → Type 0 };

    // What each read keeps, if these bytes were left at some moment before.
    ghost since: { Option (List ℕ) → Self → Type 0 };

    /// Reads into a buffer once, and returns the number of bytes: none only at the end, or if the buffer is empty.
    fn read(&mut self, buf: &mut [u8]) -> Result<usize, Failed>
        ensures bound { IfOk result (λ n. n ≤ length buf.new) }
        ensures bytes { ReadConsumes (left self.old) (left self.new) result buf.new }
        ensures end { IfOk result (λ n. n ≡ 0 → 0 < length buf.new → is_at_end self.new) }
        ensures since { (start : Option (List ℕ)) → since start self.old → since start self.new }
        ensures ok { OnOk result (failed self.new ≡ failed self.old) }
        ensures err { OnErr result (failed self.new ≡ true) };
}

impl<R: Read> Source for Watched<R> {
    ghost left = { λ w. R.remaining w.inner };

    ghost failed = { λ w. w.failed };

    ghost is_at_end = { λ w. IsAtEnd (R.remaining w.inner) };

    ghost since = { λ start w. (bytes : List ℕ) × Consumes start (R.remaining w.inner) bytes };

    fn read(&mut self, buf: &mut [u8]) -> Result<usize, Failed> {
        Watched::read(self, buf)
    }
}
