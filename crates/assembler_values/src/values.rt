//! The values of operands: numbers, names of areas, and lists.

use crate::held::{Comes, Content};
use crate::known::KnownValues;
use crate::macros::macro_of;
use assembler_operands::{OpenCause, Unsaid};
use assembler_statements::{SourceStatement, separated};
use assembler_symbols::{Symbol, in_register, inside, is_symbol, number_of, register_of};
use std::alloc::{AllocError, Global};
use std::fmt::Write;

/// The bit that ends a list of lengths.
const END_OF_LIST: u32 = 0x8000_0000;

/// The most items of a list that are read.
const MOST_ITEMS: usize = 64;

/// How many statements after a request are looked through for the word that its address is stored in.
const LOOKED_THROUGH: usize = 12;

// Returns the number that the first word of a symbol has.
fn first_word(symbol: &Symbol) -> Option<i64> {
    match symbol.bytes.as_slice() {
        [a, b, c, d, ..] => Some(i64::from(u32::from_be_bytes([*a, *b, *c, *d]))),
        [a, b] => Some(i64::from(u16::from_be_bytes([*a, *b]))),
        _ => None,
    }
}

// Returns the words of a list up to the one that has its first bit set, if there is one.
fn words_of(alloc: Global, bytes: &[u8]) -> Result<Option<Vec<u32>>, AllocError> {
    let mut words = Vec::new(alloc);
    for chunk in bytes.chunks_exact(4).take(MOST_ITEMS) {
        let [a, b, c, d] = chunk else {
            break;
        };
        let word = u32::from_be_bytes([*a, *b, *c, *d]);
        if word >= END_OF_LIST {
            words.push(word - END_OF_LIST)?;
            return Ok(Some(words));
        }
        words.push(word)?;
    }
    Ok(None)
}

// Returns the bytes of a list. Its first byte is the number of those that follow.
fn counted_bytes(bytes: &[u8]) -> Option<&[u8]> {
    match bytes {
        [count, rest @ ..] => rest.get(..*count as usize),
        [] => None,
    }
}

impl<'a> KnownValues<'a> {
    // Returns the number that a word holds, if it is constant.
    fn constant_in(self, symbol: &str) -> Option<i64> {
        if self.held.stored(symbol).is_some() {
            return None;
        }
        first_word(self.symbols.get(symbol)?)
    }

    // Returns the number that a register holds, if it is known.
    fn held_number(self, register: u8) -> Option<i64> {
        match self.held.register(register)? {
            Content::Number(number) => Some(*number),
            Content::Word(symbol) => self.constant_in(symbol),
            Content::Place(_) | Content::Lost(_) => None,
        }
    }

    // Returns why an operand is not converted.
    fn refusal(self, why: OpenCause, key: &str, text: &str) -> Unsaid {
        Unsaid::of_operand(self.alloc, why, key, text)
    }

    // Returns what a register holds, as a text that follows its name.
    fn text_of(self, register: u8) -> Result<String, AllocError> {
        let alloc = self.alloc;
        match self.held.register(register) {
            None => String::from_str(alloc, "is not set before"),
            Some(Content::Number(number)) => format!(in alloc; "holds {number}"),
            Some(Content::Word(word)) => format!(in alloc; "holds what is in {word}"),
            Some(Content::Place(symbol)) => format!(in alloc; "holds the address of {symbol}"),
            Some(Content::Lost(loss)) => format!(in alloc; "{loss}"),
        }
    }

    // Returns why an operand in a register is not converted: what the register holds.
    fn refusal_of(self, register: u8, key: &str, text: &str) -> Unsaid {
        match self.text_of(register) {
            Ok(held) => Unsaid::of_register(self.alloc, key, text, register, &held),
            Err(_) => Unsaid::Memory,
        }
    }

    // Returns the number in a register, or why it is not known.
    fn number_in(self, register: u8, key: &str, text: &str) -> Result<u32, Unsaid> {
        self.held_number(register)
            .and_then(|number| u32::try_from(number).ok())
            .ok_or_else(|| self.refusal_of(register, key, text))
    }

    /// Returns the number that an operand is, or why it is none.
    pub fn number(self, key: &str, text: &str) -> Result<u32, Unsaid> {
        if let Some(register) = in_register(self.alloc, self.symbols, text)? {
            return self.number_in(register, key, text);
        }
        number_of(self.alloc, self.symbols, text)?
            .and_then(|number| u32::try_from(number).ok())
            .ok_or_else(|| self.refusal(OpenCause::NoNumber, key, text))
    }

    // Returns the two numbers that some parts are, if there are two.
    fn two_numbers(self, key: &str, parts: &[String]) -> Result<Option<(u32, u32)>, Unsaid> {
        let [first, second] = parts else {
            return Ok(None);
        };
        let first = self.number(key, first)?;
        Ok(Some((first, self.number(key, second)?)))
    }

    /// Returns the two numbers that an operand is, `None` if it is no pair, or why they are no numbers.
    pub fn pair(self, key: &str, text: &str) -> Result<Option<(u32, u32)>, Unsaid> {
        let Some(inside) = inside(text) else {
            return Ok(None);
        };
        let parts = separated(self.alloc, inside)?;
        self.two_numbers(key, &parts)
    }

    // Returns the symbol to which a register points.
    fn symbol_in(self, register: u8) -> Option<&'a str> {
        match self.held.register(register)? {
            Content::Place(symbol) => Some(symbol.as_str()),
            _ => None,
        }
    }

    /// Returns the symbol at an address, as it is written or in a register, or why it is not known.
    pub fn symbol_at(self, key: &str, text: &'a str) -> Result<&'a str, Unsaid> {
        if let Some(register) = in_register(self.alloc, self.symbols, text)? {
            return self
                .symbol_in(register)
                .ok_or_else(|| self.refusal_of(register, key, text));
        }
        if is_symbol(text) {
            return Ok(text);
        }
        Err(self.refusal(OpenCause::NoWord, key, text))
    }

    // Returns the area whose address a word or a register holds.
    fn area_in(self, content: Option<&'a Content>) -> Option<&'a str> {
        match content {
            Some(Content::Word(symbol)) if self.constant_in(symbol).is_none() => {
                Some(symbol.as_str())
            }
            _ => None,
        }
    }

    // Returns the area whose address a word holds.
    fn area_in_word(self, word: &'a str) -> Option<&'a str> {
        match self.held.stored(word) {
            Some(content) => self.area_in(Some(content)),
            None => Some(word),
        }
    }

    /// Returns the area whose address is in the word or the register that an operand names, or why it is not known.
    pub fn area(self, key: &str, text: &'a str) -> Result<&'a str, Unsaid> {
        if let Some(register) = in_register(self.alloc, self.symbols, text)? {
            return self
                .area_in(self.held.register(register))
                .ok_or_else(|| self.refusal_of(register, key, text));
        }
        if is_symbol(text) {
            if let Some(area) = self.area_in_word(text) {
                return Ok(area);
            }
        }
        Err(self.refusal(OpenCause::NoWord, key, text))
    }

    // Returns the bytes at an address.
    fn bytes_at(self, key: &str, text: &'a str) -> Result<&'a [u8], Unsaid> {
        let symbol = self.symbol_at(key, text)?;
        match self.symbols.get(symbol) {
            Some(found) if self.held.stored(symbol).is_none() => Ok(found.bytes.as_slice()),
            _ => Err(self.refusal(OpenCause::NoList, key, text)),
        }
    }

    /// Returns the words of a list, or why they are not known. The last word has its first bit set.
    pub fn word_list(self, key: &str, text: &'a str) -> Result<Vec<u32>, Unsaid> {
        words_of(self.alloc, self.bytes_at(key, text)?)?.ok_or_else(|| self.refusal(
            OpenCause::NoList,
            key,
            text,
        ))
    }

    /// Returns the two words at an address, or why they are not known.
    pub fn two_words(self, key: &str, text: &'a str) -> Result<(u32, u32), Unsaid> {
        match self.bytes_at(key, text)? {
            [a, b, c, d, e, f, g, h, ..] => Ok((
                u32::from_be_bytes([*a, *b, *c, *d]),
                u32::from_be_bytes([*e, *f, *g, *h]),
            )),
            _ => Err(self.refusal(OpenCause::NoList, key, text)),
        }
    }

    /// Returns the bytes of a list, or why they are not known. Its first byte is the number of those that follow.
    pub fn byte_list(self, key: &str, text: &'a str) -> Result<&'a [u8], Unsaid> {
        counted_bytes(self.bytes_at(key, text)?).ok_or_else(|| self.refusal(
            OpenCause::NoList,
            key,
            text,
        ))
    }

    // Returns the word in which a statement stores a register, if it does.
    fn stored_by(
        self,
        statement: &'a SourceStatement,
        register: u8,
    ) -> Result<Option<&'a str>, AllocError> {
        if statement.operation.as_str() != "ST" {
            return Ok(None);
        }
        let [from, word] = statement.operands.as_slice() else {
            return Ok(None);
        };
        if is_symbol(word) && register_of(self.alloc, self.symbols, from)? == Some(register) {
            return Ok(Some(word.as_str()));
        }
        Ok(None)
    }

    // Returns the word in which a register is stored next.
    fn word_after(self, register: u8) -> Result<Option<&'a str>, AllocError> {
        for statement in self.following.iter().take(LOOKED_THROUGH) {
            if let Some(word) = self.stored_by(statement, register)? {
                return Ok(Some(word));
            }
            if macro_of(&statement.operation).is_some() || statement.operation.len() > 5 {
                break;
            }
        }
        Ok(None)
    }

    // Returns a symbol as what is obtained is called that is executed for this time.
    fn numbered(self, symbol: &str) -> Result<String, AllocError> {
        let time = self.time;
        if time > 1 {
            return format!(in self.alloc; "{symbol}'{time}");
        }
        String::from_str(self.alloc, symbol)
    }

    /// Returns the symbol by which an area is called whose address comes in a register: the word in which it is stored next, or a new one.
    /// It fails if memory is exhausted.
    pub fn symbol_for(self, register: u8, kind: &str) -> Result<String, AllocError> {
        match self.word_after(register)? {
            Some(word) => self.numbered(word),
            None => {
                let number = self.statement.number;
                let member = self.statement.member.as_str();
                self.numbered(&format!(in self.alloc; "{kind}{number}{member}")?)
            }
        }
    }

    /// Returns that a request leaves the address of an area in a word, by which it is called. It fails if memory is exhausted.
    pub fn comes_in_word(self, word: &str) -> Result<Comes, AllocError> {
        Ok(Comes::InWord {
            word: String::from_str(self.alloc, word)?,
            symbol: self.numbered(word)?,
        })
    }
}

/// Appends a keyword with a number. It fails if memory is exhausted.
pub fn put_number(text: &mut String, key: &str, number: u32) -> Result<(), AllocError> {
    write!(text, ",{key}={number}")
}

/// Appends a keyword with a list of numbers. It fails if memory is exhausted.
pub fn put_numbers(text: &mut String, key: &str, numbers: &[u32]) -> Result<(), AllocError> {
    write!(text, ",{key}=(")?;
    for (place, number) in numbers.iter().enumerate() {
        let comma = if place > 0 { "," } else { "" };
        write!(text, "{comma}{number}")?;
    }
    write!(text, ")")
}
