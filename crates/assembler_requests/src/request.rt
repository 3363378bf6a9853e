//! A request where it is executed, and the operands that several macros have.

use assembler_operands::{MacroOperands, OpenCause, Unsaid};
use assembler_symbols::in_register;
use assembler_values::{Comes, KnownValues, put_number};
use std::alloc::AllocError;
use std::fmt::Write;

/// A request: what is known where it is executed, and its operands.
#[derive(Clone, Copy)]
pub struct MacroRequest<'a> {
    pub known: KnownValues<'a>,
    pub operands: &'a MacroOperands,
}

// Returns the front of a text before a character, or all of it.
fn before(text: &str, end: char) -> &str {
    match text.split_once(end) {
        Some((front, _)) => front,
        None => text,
    }
}

// Returns the first value of LOC. A second one is for real storage.
fn first_location(loc: &str) -> &str {
    match loc.strip_prefix("(") {
        Some(rest) => before(before(rest, ','), ')'),
        None => loc,
    }
}

impl<'a> MacroRequest<'a> {
    /// Returns why the request is not converted.
    pub fn refusal(self, why: OpenCause, key: &str, text: &str) -> Unsaid {
        Unsaid::of_operand(self.known.alloc, why, key, text)
    }

    /// Returns that the request has a form for which there is no statement.
    pub fn no_form(self, form: &str) -> Unsaid {
        Unsaid::of(self.known.alloc, OpenCause::NoForm, form)
    }

    /// Returns the number of a key.
    pub fn number(self, key: &str) -> Result<u32, Unsaid> {
        self.known.number(key, self.operands.required(key)?)
    }

    /// Returns the symbol at the address of a key.
    pub fn symbol_at(self, key: &str) -> Result<&'a str, Unsaid> {
        self.known.symbol_at(key, self.operands.required(key)?)
    }

    /// Returns the area whose address is in the word or register of a key.
    pub fn area(self, key: &str) -> Result<&'a str, Unsaid> {
        self.known.area(key, self.operands.required(key)?)
    }

    /// Returns the area whose address is in the word or register of a key, or in another one if the key is missing.
    pub fn area_or(self, key: &str, default: &'a str) -> Result<&'a str, Unsaid> {
        self.known
            .area(key, self.operands.get(key).unwrap_or(default))
    }

    /// Returns where the request leaves an address: in the register or word of a key, or in another one if the key is missing.
    pub fn comes(self, key: &str, default: &'a str, kind: &str) -> Result<Comes, Unsaid> {
        let address = self.operands.get(key).unwrap_or(default);
        match in_register(self.known.alloc, self.known.symbols, address)? {
            Some(register) => Ok(self.comes_in_register(register, kind)?),
            None => {
                let word = self.known.symbol_at(key, address)?;
                Ok(self.known.comes_in_word(word)?)
            }
        }
    }

    /// Returns that the request leaves an address in a register. It fails if memory is exhausted.
    pub fn comes_in_register(self, register: u8, kind: &str) -> Result<Comes, AllocError> {
        let symbol = self.known.symbol_for(register, kind)?;
        Ok(Comes::InRegister { register, symbol })
    }

    /// Appends the number of a key, if the key is written.
    pub fn put_number(self, text: &mut String, key: &str) -> Result<(), Unsaid> {
        if let Some(number) = self.operands.get(key) {
            put_number(text, key, self.known.number(key, number)?)?;
        }
        Ok(())
    }

    /// Appends the value of a key as it is written, if the key is written. It fails if memory is exhausted.
    pub fn put_written(self, text: &mut String, key: &str) -> Result<(), AllocError> {
        if let Some(value) = self.operands.get(key) {
            write!(text, ",{key}={value}")?;
        }
        Ok(())
    }

    /// Appends the subpool number, if one is written.
    pub fn put_subpool(self, text: &mut String) -> Result<(), Unsaid> {
        let Some(subpool) = self.operands.get("SP") else {
            return Ok(());
        };
        let number = self.known.number("SP", subpool)?;
        if number > 127 && number != 131 && number != 132 {
            return Err(self.refusal(OpenCause::Authorized, "SP", subpool));
        }
        Ok(put_number(text, "SP", number)?)
    }

    /// Appends the boundaries that are written.
    pub fn put_boundaries(self, text: &mut String) -> Result<(), Unsaid> {
        self.put_written(text, "BNDRY")?;
        self.put_number(text, "STARTBDY")?;
        self.put_number(text, "CONTBDY")
    }

    /// Appends the location, without the part for real storage.
    pub fn put_location(self, text: &mut String) -> Result<(), Unsaid> {
        let Some(loc) = self.operands.get("LOC") else {
            return Ok(());
        };
        let first = first_location(loc);
        if ["BELOW", "ANY", "RES", "24", "31"].contains(&first) {
            return Ok(write!(text, ",LOC={first}")?);
        }
        if first == "64" {
            return Err(Unsaid::of(self.known.alloc, OpenCause::AboveTheBar, "LOC"));
        }
        Err(self.refusal(OpenCause::NotModelled, "LOC", loc))
    }
}
