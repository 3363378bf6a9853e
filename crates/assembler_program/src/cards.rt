//! Cards of a program: comments, job control, and statements in the columns that the assembler expects.

use std::alloc::{AllocError, Global};
use std::io::Write;
use thiserror::Error;

/// Why a program was not written to its end.
#[derive(Clone, Copy, Debug, PartialEq, Eq, Error)]
pub enum ProgramFault {
    #[error("out of memory")]
    Memory,
    #[error("write failed")]
    Write,
}

impl From<AllocError> for ProgramFault {
    fn from(_: AllocError) -> ProgramFault {
        ProgramFault::Memory
    }
}

/// The last column of a statement, after which a mark says that it continues.
const LAST: usize = 71;

/// The columns before those in which a statement continues.
const MARGIN: usize = 15;

/// A writer of cards.
#[derive(Drop)]
pub struct Cards<W> {
    alloc: Global,
    writer: W,
}

// Adds blanks up to a column.
fn pad(card: &mut String, column: usize) -> Result<(), AllocError> {
    for _ in card.len()..column.max(card.len()) {
        card.push(' ')?;
    }
    Ok(())
}

// Returns the places at which a text of operands may be parted: after its commas outside of quotes.
fn parts(alloc: Global, operands: &str) -> Result<Vec<String>, AllocError> {
    let mut parts = Vec::new(alloc);
    let mut part = String::new(alloc);
    let mut in_quotes = false;
    for letter in operands.chars() {
        part.push(letter)?;
        match letter {
            '\'' => in_quotes = !in_quotes,
            ',' if !in_quotes => {
                parts.push(part)?;
                part = String::new(alloc);
            }
            _ => {}
        }
    }
    parts.push(part)?;
    Ok(parts)
}

impl<W: Write> Cards<W> {
    /// Makes a writer of cards. It writes nothing.
    pub fn new(alloc: Global, writer: W) -> Cards<W> {
        Cards { alloc, writer }
    }

    /// Returns the allocator.
    pub fn alloc(&self) -> Global {
        self.alloc
    }

    /// Writes a card as it is.
    pub fn card(&mut self, text: &str) -> Result<(), ProgramFault> {
        let writer = &mut self.writer;
        writeln!(writer, "{text}").map_err(|_| ProgramFault::Write)
    }

    /// Cards as they are.
    pub fn cards(&mut self, texts: &str) -> Result<(), ProgramFault> {
        for text in texts.lines() {
            self.card(text)?;
        }
        Ok(())
    }

    /// Writes a comment, as much of it as a card has room for.
    pub fn comment(&mut self, text: &str) -> Result<(), ProgramFault> {
        let mut card = String::from_str(self.alloc, "* ")?;
        for letter in text.chars().take(LAST - 2) {
            card.push(letter)?;
        }
        self.card(&card)
    }

    /// Writes a statement. Operands that have no room continue on the next card.
    pub fn statement(
        &mut self,
        label: &str,
        operation: &str,
        operands: &str,
    ) -> Result<(), ProgramFault> {
        let mut card = String::from_str(self.alloc, label)?;
        pad(&mut card, 9)?;
        card.push_str(operation)?;
        card.push(' ')?;
        pad(&mut card, MARGIN)?;
        let mut is_begun = false;
        for part in parts(self.alloc, operands)? {
            if is_begun && card.len().saturating_add(part.len()) > LAST {
                pad(&mut card, LAST)?;
                card.push('X')?;
                self.card(&card)?;
                card.clear();
                pad(&mut card, MARGIN)?;
            }
            card.push_str(&part)?;
            is_begun = true;
        }
        self.card(card.trim_end())
    }

    /// Writes an instruction or macro without a label.
    pub fn code(&mut self, operation: &str, operands: &str) -> Result<(), ProgramFault> {
        self.statement("", operation, operands)
    }

    /// Jumps to a label.
    pub fn go(&mut self, label: &str) -> Result<(), ProgramFault> {
        self.branch("15", label)
    }

    /// Jumps to a label under a mask.
    pub fn branch(&mut self, mask: &str, label: &str) -> Result<(), ProgramFault> {
        let operands = format!(in self.alloc; "{mask},{label}")?;
        self.code("BRCL", &operands)
    }
}
