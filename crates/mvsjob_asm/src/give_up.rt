//! Why no script is written.

use assembler_output::ScriptStop;
use assembler_source::ConversionRefusal;
use std::alloc::{AllocError, AllocFailed};
use std::io::{self, ErrorKind};
use thiserror::Error;

/// Why no script is written.
#[derive(Debug, Drop, Error)]
pub enum ConversionError {
    #[error("no such file")]
    Missing,
    #[error("permission denied")]
    Forbidden,
    #[error("is a directory")]
    Directory,
    #[error("read failed")]
    Read,
    #[error("source too long")]
    TooLong,
    #[error("out of memory")]
    Memory,
    #[error("{0}")]
    Refused(ConversionRefusal),
    #[error("write failed")]
    Write,
    /// Nobody reads what is written.
    #[error("the pipe is closed")]
    Pipe,
    /// The words were refused, or the help was printed: with this status.
    #[error("the command line was answered")]
    Words(u8),
}

impl ConversionError {
    /// Returns whether standard error reports it.
    pub fn is_reported(&self) -> bool {
        !matches!(self, ConversionError::Pipe | ConversionError::Words(_))
    }

    /// Returns the exit status.
    pub fn status(&self) -> u8 {
        match self {
            ConversionError::Words(status) => *status,
            ConversionError::Pipe => 141,
            ConversionError::Missing
            | ConversionError::Forbidden
            | ConversionError::Directory
            | ConversionError::Read
            | ConversionError::TooLong
            | ConversionError::Memory
            | ConversionError::Refused(_)
            | ConversionError::Write => 2,
        }
    }
}

/// A failure to read. One to write is a `ScriptStop`.
impl From<io::Error> for ConversionError {
    fn from(error: io::Error) -> ConversionError {
        match error.kind() {
            ErrorKind::NotFound => ConversionError::Missing,
            ErrorKind::PermissionDenied => ConversionError::Forbidden,
            ErrorKind::IsADirectory => ConversionError::Directory,
            ErrorKind::OutOfMemory => ConversionError::Memory,
            _ => ConversionError::Read,
        }
    }
}

impl From<ConversionRefusal> for ConversionError {
    fn from(why: ConversionRefusal) -> ConversionError {
        ConversionError::Refused(why)
    }
}

impl From<ScriptStop> for ConversionError {
    fn from(stop: ScriptStop) -> ConversionError {
        match stop {
            ScriptStop::Memory => ConversionError::Memory,
            ScriptStop::Write => ConversionError::Write,
            ScriptStop::Pipe => ConversionError::Pipe,
        }
    }
}

impl From<AllocError> for ConversionError {
    fn from(_: AllocError) -> ConversionError {
        ConversionError::Memory
    }
}

impl<T: Drop> From<AllocFailed<T>> for ConversionError {
    fn from(_: AllocFailed<T>) -> ConversionError {
        ConversionError::Memory
    }
}
