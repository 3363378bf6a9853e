//! A writer with a limit.

ghost use Rattle.std.specs.Prelude.{◌≡◌, ◌≤◌, [], Some, length};

use std::alloc::Global;
use std::io::{self, Write};

/// Bytes that are written, and how many there may be.
#[derive(Drop)]
pub struct Limited {
    bytes: Vec<u8>,
    most: usize,
}

impl Limited {
    /// Makes one without bytes.
    pub fn new(alloc: Global, most: usize) -> Limited
        ensures { result.bytes.items ≡ [] }
    {
        Limited {
            bytes: Vec::new(alloc),
            most,
        }
    }

    /// Returns the bytes.
    pub fn into_bytes(self) -> Vec<u8>
        ensures { result.items ≡ self.bytes.items }
    {
        self.bytes
    }
}

impl Write for Limited {
    ghost contents = { λ l. Some l.bytes.items };

    fn write(&mut self, buf: &[u8]) -> io::Result<usize> {
        let room = self.most.saturating_sub(self.bytes.len());
        let count = buf.len().min(room);
        self.bytes.extend_from_slice(&buf[..count])?;
        Ok(count)
    }

    fn flush(&mut self) -> io::Result<()> {
        Ok(())
    }
}
