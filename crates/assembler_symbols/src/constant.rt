//! The operands of DC and DS: what storage they take, and the bytes that are plain in it.

use crate::calculation::{Value, number_of};
use crate::symbols::Symbols;
use assembler_statements::separated;
use std::alloc::{AllocError, Global};

/// An operand of DC or DS.
#[derive(Drop)]
pub struct Constant<'a> {
    /// How often it is there, if that is known.
    repeats: Option<u32>,
    kind: char,
    /// The bytes of each value, if they are written.
    length: Option<u32>,
    /// What is between quotes or parentheses.
    text: Option<&'a str>,
}

/// The most bytes of a constant that are kept.
const MOST_KEPT: u32 = 4096;

// Returns what is between the first parentheses, and after them.
fn in_parentheses(text: &str) -> Option<(&str, &str)> {
    text.strip_prefix("(")?.split_once(')')
}

// Returns a number before a text, as digits or in parentheses, and what follows it.
fn leading<'a>(
    alloc: Global,
    symbols: &Symbols,
    text: &'a str,
) -> Result<(Option<u32>, &'a str), AllocError> {
    if let Some((inside, rest)) = in_parentheses(text) {
        let number = number_of(alloc, symbols, inside)?;
        return Ok((number.and_then(|number| u32::try_from(number).ok()), rest));
    }
    let rest = text.trim_start_matches(|letter: char| letter.is_ascii_digit());
    let digits = text.strip_suffix(rest).unwrap_or("");
    Ok((digits.parse::<u32>().ok(), rest))
}

// Returns what is between the quotes or parentheses of a constant.
fn nominal(text: &str) -> Option<&str> {
    match text.strip_prefix("'") {
        Some(rest) => rest.strip_suffix("'"),
        None => text.strip_prefix("(")?.strip_suffix(")"),
    }
}

// Returns the bytes of a value of a kind where no length is written.
fn implied(kind: char) -> Option<u32> {
    match kind {
        'C' | 'X' | 'B' | 'P' | 'Z' => Some(1),
        'H' | 'Y' | 'S' => Some(2),
        'F' | 'A' | 'V' | 'E' | 'Q' | 'R' | 'J' => Some(4),
        'D' => Some(8),
        'L' => Some(16),
        _ => None,
    }
}

impl<'a> Constant<'a> {
    /// Reads an operand of DC or DS.
    pub fn read(
        alloc: Global,
        symbols: &Symbols,
        text: &'a str,
    ) -> Result<Option<Constant<'a>>, AllocError> {
        let repeated = text.starts_with("(")
            || text.starts_with(|letter: char| letter.is_ascii_digit());
        let (repeats, rest) = leading(alloc, symbols, text)?;
        let mut letters = rest.chars();
        let Some(kind) = letters.next() else {
            return Ok(None);
        };
        let mut modifiers = letters.as_str();
        let mut is_double = false;
        if kind == 'F' || kind == 'A' {
            if let Some(double) = modifiers.strip_prefix("D") {
                modifiers = double;
                is_double = true;
            }
        }
        let (length, value) = match modifiers.strip_prefix("L") {
            Some(modifier) => leading(alloc, symbols, modifier)?,
            None => (None, modifiers),
        };
        let is_plain = value.is_empty() || value.starts_with("'") || value.starts_with("(");
        if !is_plain || modifiers.starts_with("L") && length.is_none() {
            return Ok(None);
        }
        Ok(Some(Constant {
            repeats: if repeated { repeats } else { Some(1) },
            kind,
            length: if is_double { Some(8) } else { length },
            text: nominal(value),
        }))
    }

    /// Returns the boundary on which it begins.
    pub fn boundary(&self) -> u32 {
        match (self.kind, self.length) {
            ('F' | 'H' | 'A' | 'Y' | 'V' | 'E' | 'D' | 'L' | 'S' | 'Q' | 'R' | 'J', None) => {
                implied(self.kind).unwrap_or(1).min(8)
            }
            ('F' | 'A', Some(8)) => 8,
            _ => 1,
        }
    }

    // Returns the bytes that a text takes, written as it is.
    fn length_of_text(&self, text: &str) -> Option<u32> {
        let letters = u32::try_from(text.len()).ok()?;
        match self.kind {
            'C' => Some(letters),
            'X' => Some(letters.div_ceil(2)),
            'B' => Some(letters.div_ceil(8)),
            _ => implied(self.kind),
        }
    }

    /// Returns the bytes of one value, which are the length of its symbol.
    pub fn length(&self) -> Option<u32> {
        match (self.length, self.text) {
            (Some(length), _) => Some(length),
            (None, Some(text)) => self.length_of_text(text),
            (None, None) => implied(self.kind),
        }
    }

    // Returns how many values are between the quotes or parentheses.
    fn count(&self, alloc: Global) -> Result<u32, AllocError> {
        match self.text {
            Some(text) if !matches!(self.kind, 'C' | 'X' | 'B') => {
                let parts = separated(alloc, text)?;
                Ok(u32::try_from(parts.len()).unwrap_or(u32::MAX))
            }
            _ => Ok(1),
        }
    }

    /// Returns the bytes that it takes, if that is known.
    pub fn size(&self, alloc: Global) -> Result<Option<i64>, AllocError> {
        let count = i64::from(self.count(alloc)?);
        Ok(match (self.repeats, self.length()) {
            (Some(repeats), Some(length)) => i64::from(repeats)
                .checked_mul(i64::from(length))
                .and_then(|size| size.checked_mul(count)),
            _ => None,
        })
    }

    // Returns the numbers that are its values, if all are known.
    fn numbers(&self, alloc: Global, symbols: &Symbols) -> Result<Option<Vec<i64>>, AllocError> {
        let Some(text) = self.text else {
            return Ok(None);
        };
        let mut numbers = Vec::new(alloc);
        if self.kind == 'X' {
            let Ok(number) = u32::from_str_radix(text, 16) else {
                return Ok(None);
            };
            numbers.push(i64::from(number))?;
            return Ok(Some(numbers));
        }
        for part in separated(alloc, text)? {
            let number = match self.kind {
                'F' | 'H' => part.parse::<i64>().ok(),
                'A' | 'Y' => number_of(alloc, symbols, &part)?,
                _ => None,
            };
            let Some(number) = number else {
                return Ok(None);
            };
            numbers.push(number)?;
        }
        Ok(Some(numbers))
    }

    // Puts its values after some bytes.
    fn put_values(
        &self,
        bytes: &mut Vec<u8>,
        numbers: &[i64],
        length: u32,
    ) -> Result<(), AllocError> {
        for number in numbers {
            let [_, _, _, _, a, b, c, d] = number.to_be_bytes();
            let word = [a, b, c, d];
            for byte in word.iter().skip(4u32.saturating_sub(length) as usize) {
                bytes.push(*byte)?;
            }
        }
        Ok(())
    }

    /// Puts its bytes after others, and answers whether all of them are known.
    pub fn put(
        &self,
        alloc: Global,
        symbols: &Symbols,
        bytes: &mut Vec<u8>,
    ) -> Result<bool, AllocError> {
        let (Some(numbers), Some(length), Some(repeats)) = (
            self.numbers(alloc, symbols)?,
            self.length(),
            self.repeats,
        ) else {
            return Ok(false);
        };
        if length > 4 || repeats > MOST_KEPT || bytes.len() > MOST_KEPT as usize {
            return Ok(false);
        }
        for _ in 0..repeats {
            self.put_values(bytes, &numbers, length)?;
        }
        Ok(true)
    }

    /// Returns the characters that it is, if it has any.
    pub fn characters(&self) -> Option<&'a str> {
        match (self.kind, self.text) {
            ('C', Some(text)) => Some(text.trim_end()),
            _ => None,
        }
    }
}

/// Returns the value of a literal, as `=F'8192'`, if it is one number. It fails if memory is exhausted.
pub fn literal_number(
    alloc: Global,
    symbols: &Symbols,
    text: &str,
) -> Result<Option<Value>, AllocError> {
    let Some(constant) = Constant::read(alloc, symbols, text)? else {
        return Ok(None);
    };
    match constant.numbers(alloc, symbols)? {
        Some(numbers) => match numbers.as_slice() {
            [number] => Ok(Some(Value::of(*number))),
            _ => Ok(None),
        },
        None => Ok(None),
    }
}
