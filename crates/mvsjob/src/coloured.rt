//! A writer that colours lines of answers for a terminal.

use crate::options::Color;
use std::env::{self, VarError};
use std::io::{self, IsTerminal, Write};

/// The colours of an ABEND and of RC 4, and what ends them.
const RED: &[u8] = b"\x1b[31m";

const YELLOW: &[u8] = b"\x1b[33m";

const PLAIN: &[u8] = b"\x1b[0m\n";

/// A writer of whole lines, which are coloured or not.
#[derive(Drop)]
pub struct Coloured<W> {
    inner: W,
    is_on: bool,
}

// Returns the colour of a line: `n TASK ABEND ..` and `n TASK RC 4` have one.
fn colour_of(line: &[u8]) -> Option<&'static [u8]> {
    let mut words = line.split(|byte| *byte == b' ').skip(2);
    match (words.next(), words.next()) {
        (Some(word), _) if word == b"ABEND".as_slice() => Some(RED),
        (Some(word), Some(code)) if word == b"RC".as_slice() && code == b"4\n".as_slice() => Some(
            YELLOW,
        ),
        _ => None,
    }
}

impl<W> Coloured<W> {
    /// Makes a writer that colours lines if it is switched on.
    pub fn new(inner: W, is_on: bool) -> Coloured<W> {
        Coloured { inner, is_on }
    }

    /// Returns the writer below.
    pub fn get_ref(&self) -> &W {
        &self.inner
    }
}

impl<W: Write> Write for Coloured<W> {
    fn write(&mut self, line: &[u8]) -> io::Result<usize> {
        let colour = if self.is_on { colour_of(line) } else { None };
        match (colour, line.split_last()) {
            (Some(colour), Some((b'\n', text))) => {
                self.inner.write_all(colour)?;
                self.inner.write_all(text)?;
                self.inner.write_all(PLAIN)?;
                Ok(line.len())
            }
            _ => self.inner.write(line),
        }
    }

    fn flush(&mut self) -> io::Result<()> {
        self.inner.flush()
    }
}

// Returns whether the environment forbids colors.
fn forbids_colour(rt: &HostRuntime) -> bool {
    match env::var(rt, "NO_COLOR") {
        Ok(value) => !value.is_empty(),
        Err(VarError::NotPresent) => false,
        Err(_) => true,
    }
}

/// Returns whether the answers of a run are coloured.
pub fn is_coloured(rt: &HostRuntime, color: Color) -> bool {
    match color {
        Color::Always => true,
        Color::Never => false,
        Color::Auto => rt.stdout().is_terminal() && !forbids_colour(rt),
    }
}
