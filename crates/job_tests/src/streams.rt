//! Readers and writers of one byte a call.

use std::io::{self, Error, ErrorKind, Read, Write};

/// A reader of one byte a call, which fails after a number of calls.
#[derive(Drop)]
pub struct Trickle {
    pub rest: &'static [u8],
    pub calls: usize,
}

impl Read for Trickle {
    fn read(&mut self, buf: &mut [u8]) -> io::Result<usize> {
        if self.calls == 0 {
            return Err(Error::from(ErrorKind::Other));
        }
        self.calls -= 1;
        if buf.is_empty() {
            return Ok(0);
        }
        match self.rest.split_first() {
            None => Ok(0),
            Some((first, rest)) => {
                buf[0] = *first;
                self.rest = rest;
                Ok(1)
            }
        }
    }
}

/// What a writer does when it accepts no more bytes.
#[derive(Clone, Copy, Debug, PartialEq, Eq)]
pub enum WriterEnd {
    Fails,
    TakesNone,
}

/// A writer of one byte a call, which fails when it is full.
#[derive(Drop)]
pub struct Narrow {
    pub bytes: Vec<u8>,
    pub most: usize,
    pub refusal: WriterEnd,
}

impl Write for Narrow {
    fn write(&mut self, buf: &[u8]) -> io::Result<usize> {
        if self.bytes.len() >= self.most {
            return match self.refusal {
                WriterEnd::Fails => Err(Error::from(ErrorKind::Other)),
                WriterEnd::TakesNone => Ok(0),
            };
        }
        if buf.is_empty() {
            return Ok(0);
        }
        self.bytes.push(buf[0])?;
        Ok(1)
    }

    fn flush(&mut self) -> io::Result<()> {
        Ok(())
    }
}
