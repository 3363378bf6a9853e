//! What a diagnosis says below the columns that are to blame.

use crate::words::{Among, Plain};
use job_script::keys::Key;
use job_script::operations::Operation;
use std::fmt;

/// What may help.
#[derive(Clone, Copy)]
pub enum Hint<'a> {
    Nothing,
    /// This sentence.
    Says(&'static str),
    /// Another word is meant.
    Meant(&'static str),
    /// The number in decimal.
    Decimal(u64),
    /// A comma is missing before this text.
    Comma(&'a [u8]),
    /// The bytes of this text in EBCDIC.
    Ebcdic(&'a [u8]),
    /// What follows a blank is a remark.
    Remark(&'a [u8]),
    /// Other forms of the operation take the key.
    Forms(Operation, Key),
    /// The operation takes these forms.
    Takes(Operation),
}

// The forms of an operation that take a key.
#[derive(Clone, Copy)]
struct FormsWith(Operation, Key);

impl fmt::Display for FormsWith {
    fn fmt<W: fmt::Write>(&self, f: &mut fmt::Formatter<W>) -> fmt::Result {
        let mut between = "";
        for form in self.0.forms() {
            if takes(self.0, form.as_bytes(), self.1) {
                write!(f, "{between}{form}")?;
                between = ", ";
            }
        }
        Ok(())
    }
}

/// Returns whether a form of an operation takes a key.
pub fn takes(operation: Operation, form: &[u8], key: Key) -> bool {
    match operation.row(form) {
        Some(row) => {
            let key = key.text();
            row.keywords()
                .iter()
                .any(|keyword| keyword.key.text() == key)
        }
        None => false,
    }
}

// Returns the byte of a plain one in EBCDIC, as code page 1047 has it.
fn ebcdic(byte: u8) -> Option<u8> {
    match byte {
        b'A'..=b'I' => Some(byte - b'A' + 0xC1),
        b'J'..=b'R' => Some(byte - b'J' + 0xD1),
        b'S'..=b'Z' => Some(byte - b'S' + 0xE2),
        b'a'..=b'i' => Some(byte - b'a' + 0x81),
        b'j'..=b'r' => Some(byte - b'j' + 0x91),
        b's'..=b'z' => Some(byte - b's' + 0xA2),
        b'0'..=b'9' => Some(byte - b'0' + 0xF0),
        b' ' => Some(0x40),
        _ => None,
    }
}

/// Returns whether each byte is a letter, a digit or a blank, which are the same in all code pages.
pub fn is_common(text: &[u8]) -> bool {
    text.iter().all(|byte| ebcdic(*byte).is_some())
}

// Bytes in EBCDIC, two hexadecimal digits for each.
#[derive(Clone, Copy)]
struct InEbcdic<'a>(&'a [u8]);

impl fmt::Display for InEbcdic<'_> {
    fn fmt<W: fmt::Write>(&self, f: &mut fmt::Formatter<W>) -> fmt::Result {
        for byte in self.0 {
            write!(f, "{:02X}", ebcdic(*byte).unwrap_or(0))?;
        }
        Ok(())
    }
}

impl fmt::Display for Hint<'_> {
    fn fmt<W: fmt::Write>(&self, f: &mut fmt::Formatter<W>) -> fmt::Result {
        match self {
            Hint::Nothing => Ok(()),
            Hint::Says(text) => write!(f, "{text}"),
            Hint::Meant(word) => write!(f, "did you mean {word}?"),
            Hint::Decimal(number) => write!(f, "in decimal: {number}"),
            Hint::Comma(text) => write!(f, "missing comma before {}?", Plain(text)),
            Hint::Ebcdic(text) => write!(f, "in EBCDIC: X'{}'", InEbcdic(text)),
            Hint::Remark(text) => {
                write!(
                    f,
                    "'{}' after a blank is a remark: did you mean a comma?",
                    Plain(text)
                )
            }
            Hint::Forms(operation, key) => {
                let forms = FormsWith(*operation, *key);
                write!(f, "{} {forms} take {}", operation.text(), key.text())
            }
            Hint::Takes(operation) => write!(f, "forms: {}", Among(operation.forms(), "or")),
        }
    }
}
