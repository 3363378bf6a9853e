//! The lines of a source, each as a text of plain characters with the number that it has.

use crate::listing::{Listing, header_column};
use std::alloc::{AllocError, Global};
use std::str;

/// A line of source.
#[derive(Drop)]
pub struct SourceLine {
    /// The number of the line, or in a listing that of its statement.
    pub number: u32,
    pub text: String,
}

/// The column in which a line says that it is continued, counted from 0.
pub const CONTINUATION: usize = 71;

/// The column in which a continuation begins, counted from 0.
pub const GO_ON: usize = 15;

impl SourceLine {
    /// Returns whether the next line belongs to the statement.
    pub fn is_continued(&self) -> bool {
        match self.text.chars().nth(CONTINUATION) {
            Some(mark) => mark != ' ',
            None => false,
        }
    }
}

// Returns a character of a text, if it is one: a tab is a blank, and what is not plain is a point.
fn plain(letter: char) -> Option<char> {
    match letter {
        '\n' | ' '..='~' => Some(letter),
        '\t' => Some(' '),
        '\r' | '\u{FEFF}' => None,
        _ => Some('.'),
    }
}

// Returns the text of some bytes, in which each character has one column.
fn plain_text(alloc: Global, source: &[u8]) -> Result<String, AllocError> {
    let mut text = String::new(alloc);
    match str::from_utf8(source) {
        Ok(letters) => {
            for letter in letters.chars() {
                if let Some(letter) = plain(letter) {
                    text.push(letter)?;
                }
            }
        }
        Err(_) => {
            for byte in source {
                if let Some(letter) = plain(char::from(*byte)) {
                    text.push(letter)?;
                }
            }
        }
    }
    Ok(text)
}

/// Returns a number of columns of a text, from one on.
pub fn columns(alloc: Global, text: &str, from: usize, count: usize) -> Result<String, AllocError> {
    text.chars().skip(from).take(count).collect(alloc)
}

// Returns the lines of a text that is source.
fn lines_of_source(alloc: Global, text: &str) -> Result<Vec<SourceLine>, AllocError> {
    let mut lines = Vec::new(alloc);
    let mut number = 0u32;
    for line in text.lines() {
        number = number.saturating_add(1);
        let text = String::from_str(alloc, line)?;
        lines.push(SourceLine { number, text })?;
    }
    Ok(lines)
}

// Returns the lines of source in a listing.
fn lines_of_listing(alloc: Global, text: &str) -> Result<Vec<SourceLine>, AllocError> {
    let mut lines = Vec::new(alloc);
    let mut listing = Listing::new();
    for line in text.lines() {
        if let Some(found) = listing.take(alloc, line)? {
            lines.push(found)?;
        }
    }
    Ok(lines)
}

/// Returns the lines of a source, or of a listing of it, which is known by its heads of columns.
pub fn source_lines(alloc: Global, source: &[u8]) -> Result<Vec<SourceLine>, AllocError> {
    let text = plain_text(alloc, source)?;
    if text.lines().any(|line| header_column(line).is_some()) {
        lines_of_listing(alloc, &text)
    } else {
        lines_of_source(alloc, &text)
    }
}
