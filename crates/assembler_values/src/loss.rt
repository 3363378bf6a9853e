//! Why it is not known what a register or a word holds.

use assembler_statements::SourceStatement;
use std::alloc::{AllocError, Global};
use std::fmt;

/// Why it is not known what a register or a word holds.
#[derive(Drop)]
pub enum Loss {
    /// An instruction that is not followed has set it.
    Set { operation: String, line: u32 },
    /// A call or a macro has left something there.
    Left { operation: String, line: u32 },
    /// It comes from a word that a line has changed.
    From { word: String, line: u32 },
}

impl Loss {
    /// Returns that a statement has set it. It fails if memory is exhausted.
    pub fn set(statement: &SourceStatement) -> Result<Loss, AllocError> {
        Ok(Loss::Set {
            operation: statement.operation.clone()?,
            line: statement.number,
        })
    }

    /// Returns that a statement has left something there. It fails if memory is exhausted.
    pub fn left(statement: &SourceStatement) -> Result<Loss, AllocError> {
        Ok(Loss::Left {
            operation: statement.operation.clone()?,
            line: statement.number,
        })
    }

    // Returns the line that changed it.
    fn line(&self) -> u32 {
        match self {
            Loss::Set { line, .. } | Loss::Left { line, .. } | Loss::From { line, .. } => *line,
        }
    }

    /// Returns why a value that comes from a word with this loss is not known. It fails if memory is exhausted.
    pub fn from_word(&self, alloc: Global, word: &str) -> Result<Loss, AllocError> {
        Ok(Loss::From {
            word: String::from_str(alloc, word)?,
            line: self.line(),
        })
    }

    /// Returns a copy. It fails if memory is exhausted.
    pub fn copied(&self) -> Result<Loss, AllocError> {
        Ok(match self {
            Loss::Set { operation, line } => Loss::Set {
                operation: operation.clone()?,
                line: *line,
            },
            Loss::Left { operation, line } => Loss::Left {
                operation: operation.clone()?,
                line: *line,
            },
            Loss::From { word, line } => Loss::From {
                word: word.clone()?,
                line: *line,
            },
        })
    }
}

impl fmt::Display for Loss {
    fn fmt<W: fmt::Write>(&self, f: &mut fmt::Formatter<W>) -> fmt::Result {
        match self {
            Loss::Set { operation, line } => write!(f, "holds what {operation} in line {line} set"),
            Loss::Left { operation, line } => {
                write!(f, "holds what {operation} in line {line} left")
            }
            Loss::From { word, line } => {
                write!(f, "was set from {word}, which line {line} changed")
            }
        }
    }
}
