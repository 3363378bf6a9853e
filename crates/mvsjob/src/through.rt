//! A watched writer as a plain one.

use mvs_model::watched::Watched;
use std::io::{self, ErrorKind, Write};

/// Writes to a watched writer.
#[derive(Drop)]
pub struct Through<'a, W> {
    writer: &'a mut Watched<W>,
}

impl<'a, W> Through<'a, W> {
    /// Makes a writer that passes bytes on.
    pub fn new(writer: &'a mut Watched<W>) -> Through<'a, W> {
        Through { writer }
    }
}

impl<W: Write> Write for Through<'_, W> {
    fn write(&mut self, buf: &[u8]) -> io::Result<usize> {
        self.writer
            .write(buf)
            .map_err(|_| io::Error::from(ErrorKind::Other))
    }

    fn flush(&mut self) -> io::Result<()> {
        self.writer
            .flush()
            .map_err(|_| io::Error::from(ErrorKind::Other))
    }
}
