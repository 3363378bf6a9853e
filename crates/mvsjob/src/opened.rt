//! A reader that remembers why a read of it failed.

ghost use Rattle.std.specs.Prelude.{◌≡◌};

use crate::ending::CliError;
use crate::script::read_fault;
use mvs_job::RunFault;
use std::io::{self, Read};

/// A reader, and why the program stops if a read of it fails.
#[derive(Drop)]
pub struct OpenReader<R> {
    inner: R,
    failure: CliError,
}

impl<R> OpenReader<R> {
    /// Makes a reader before its first failure.
    pub fn new(inner: R) -> OpenReader<R>
        ensures { result.inner ≡ inner }
    {
        OpenReader {
            inner,
            failure: CliError::Job(RunFault::Read),
        }
    }

    /// Returns why the program stops if a read failed.
    pub fn failure(&self) -> CliError {
        self.failure
    }
}

impl<R: Read> Read for OpenReader<R> {
    ghost remaining = { λ o. R.remaining o.inner };

    fn read(&mut self, buf: &mut [u8]) -> io::Result<usize> {
        let read = self.inner.read(buf);
        if let Err(error) = &read {
            self.failure = read_fault(error);
        }
        read
    }
}
