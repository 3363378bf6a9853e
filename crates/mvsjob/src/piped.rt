//! A writer that knows whether nobody reads any more what it writes.

use std::io::{self, ErrorKind, Write};

/// A writer, and whether a write has failed because its pipe is closed.
#[derive(Drop)]
pub struct Piped<W> {
    inner: W,
    is_closed: bool,
}

impl<W> Piped<W> {
    /// Makes a writer that notes a closed pipe.
    pub fn new(inner: W) -> Piped<W> {
        Piped {
            inner,
            is_closed: false,
        }
    }

    /// Returns whether the pipe is closed.
    pub fn is_closed(&self) -> bool {
        self.is_closed
    }
}

impl<W: Write> Write for Piped<W> {
    ghost contents = { λ p. W.contents p.inner };

    fn write(&mut self, buf: &[u8]) -> io::Result<usize> {
        match self.inner.write(buf) {
            Ok(count) => Ok(count),
            Err(error) => {
                self.is_closed = error.kind() == ErrorKind::BrokenPipe;
                Err(error)
            }
        }
    }

    fn flush(&mut self) -> io::Result<()> {
        match self.inner.flush() {
            Ok(()) => Ok(()),
            Err(error) => {
                self.is_closed = error.kind() == ErrorKind::BrokenPipe;
                Err(error)
            }
        }
    }
}
