//! Why a request cannot be said as a statement of a script.

use crate::names::NoName;
use std::alloc::{AllocError, AllocFailed, Global};
use std::fmt;
use thiserror::Error;

/// What is wrong with a request, or with an operand of it.
#[derive(Clone, Copy, Debug)]
pub enum OpenCause {
    /// What a register holds is no number, or no address that a request has left.
    Register,
    /// A value is no plain number.
    NoNumber,
    /// An address is no name of a word.
    NoWord,
    /// There is no plain list of numbers.
    NoList,
    /// An operand that only an authorized program may write.
    Authorized,
    /// An operand that the machine has nothing for.
    NotModelled,
    AboveTheBar,
    /// There is no list form with this label.
    NoListForm,
    NoForm,
    /// An operand is missing.
    Missing,
    /// The reader has to choose how the script continues.
    Choice,
    /// Each name that could be made of a symbol is in use.
    NoName,
}

/// Why a request cannot be said, and what it is about.
#[derive(Debug, Drop)]
pub struct OpenReason {
    why: OpenCause,
    of: String,
}

impl OpenCause {
    // Returns the text after what it is about.
    fn text(self) -> &'static str {
        match self {
            OpenCause::Register | OpenCause::Choice => "",
            OpenCause::NoNumber => ": no plain number",
            OpenCause::NoWord => ": no name of a word",
            OpenCause::NoList => ": no plain list",
            OpenCause::Authorized => ": of authorized programs",
            OpenCause::NotModelled => ": not modelled",
            OpenCause::AboveTheBar => "storage above the bar is not modelled",
            OpenCause::NoListForm => ": no list form has this label",
            OpenCause::NoForm => ": no form of the script",
            OpenCause::Missing => " is missing",
            OpenCause::NoName => "no name is left for a symbol",
        }
    }

    // Returns whether the text is all.
    fn is_whole(self) -> bool {
        matches!(self, OpenCause::AboveTheBar | OpenCause::NoName)
    }
}

impl fmt::Display for OpenReason {
    fn fmt<W: fmt::Write>(&self, f: &mut fmt::Formatter<W>) -> fmt::Result {
        if !self.why.is_whole() {
            f.write_str(&self.of)?;
        }
        f.write_str(self.why.text())
    }
}

impl OpenReason {
    /// Returns a reason that is about nothing.
    pub fn alone(alloc: Global, why: OpenCause) -> OpenReason {
        OpenReason {
            why,
            of: String::new(alloc),
        }
    }

    /// Returns what the reader has to choose.
    pub fn choice(of: String) -> OpenReason {
        OpenReason {
            why: OpenCause::Choice,
            of,
        }
    }

    // Returns a reason that is about a text.
    fn new(alloc: Global, why: OpenCause, of: &str) -> Result<OpenReason, AllocError> {
        Ok(OpenReason {
            why,
            of: String::from_str(alloc, of)?,
        })
    }
}

/// Why there is no statement: a reason, no name that is left, or no memory.
#[derive(Debug, Drop, Error)]
pub enum Unsaid {
    #[error("{0}")]
    For(OpenReason),
    #[error("no name is left for a symbol")]
    NoName,
    #[error("out of memory")]
    Memory,
}

impl From<NoName> for Unsaid {
    fn from(why: NoName) -> Unsaid {
        match why {
            NoName::Memory => Unsaid::Memory,
            NoName::AllUsed => Unsaid::NoName,
        }
    }
}

impl<T: Drop> From<AllocFailed<T>> for Unsaid {
    fn from(_: AllocFailed<T>) -> Unsaid {
        Unsaid::Memory
    }
}

impl From<AllocError> for Unsaid {
    fn from(_: AllocError) -> Unsaid {
        Unsaid::Memory
    }
}

impl Unsaid {
    /// Returns a reason that is about a text, or `Memory` if memory is exhausted.
    pub fn of(alloc: Global, why: OpenCause, of: &str) -> Unsaid {
        match OpenReason::new(alloc, why, of) {
            Ok(reason) => Unsaid::For(reason),
            Err(_) => Unsaid::Memory,
        }
    }

    /// Returns a reason that is about an operand, or `Memory` if memory is exhausted.
    pub fn of_operand(alloc: Global, why: OpenCause, key: &str, text: &str) -> Unsaid {
        match format!(in alloc; "{key}={text}") {
            Ok(of) => Unsaid::For(OpenReason { why, of }),
            Err(_) => Unsaid::Memory,
        }
    }

    /// Returns a reason that is about an operand in a register, with what the register holds, or `Memory` if memory is exhausted.
    pub fn of_register(alloc: Global, key: &str, text: &str, register: u8, held: &str) -> Unsaid {
        match format!(in alloc; "{key}={text}: R{register} {held}") {
            Ok(of) => Unsaid::For(OpenReason {
                why: OpenCause::Register,
                of,
            }),
            Err(_) => Unsaid::Memory,
        }
    }
}
