//! Texts of operands: registers, symbols, and lists in parentheses.

use crate::calculation::number_of;
use crate::symbols::Symbols;
use assembler_statements::is_of_symbol;
use std::alloc::{AllocError, Global};

/// Returns the text between the parentheses of an operand, if it is all in one pair.
pub fn inside(text: &str) -> Option<&str> {
    text.strip_prefix("(")?.strip_suffix(")")
}

/// Returns whether a text is a symbol.
pub fn is_symbol(text: &str) -> bool {
    let begins = text.starts_with(|letter: char| !letter.is_ascii_digit());
    begins && text.chars().all(|letter| is_of_symbol(letter))
}

// Returns a register by its number, or by a symbol for it.
fn register(alloc: Global, symbols: &Symbols, text: &str) -> Result<Option<u8>, AllocError> {
    Ok(match number_of(alloc, symbols, text)? {
        Some(number) if number >= 0 && number < 16 => u8::try_from(number).ok(),
        _ => None,
    })
}

/// Returns the register that an operand of an instruction is. It fails if memory is exhausted.
pub fn register_of(alloc: Global, symbols: &Symbols, text: &str) -> Result<Option<u8>, AllocError> {
    if text.starts_with("(") {
        return Ok(None);
    }
    register(alloc, symbols, text)
}

/// Returns the register that an operand of a macro names in parentheses. It fails if memory is exhausted.
pub fn in_register(alloc: Global, symbols: &Symbols, text: &str) -> Result<Option<u8>, AllocError> {
    match inside(text) {
        Some(text) => register(alloc, symbols, text),
        None => Ok(None),
    }
}
