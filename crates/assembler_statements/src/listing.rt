//! The lines of a listing: offset, object code and number of a statement are before its source.

use crate::lines::{SourceLine, columns};
use std::alloc::{AllocError, Global};

/// How many columns of source a listing shows.
const SHOWN: usize = 80;

/// Returns where the last digit of the number of a statement is, if a line is a head of columns.
pub fn header_column(line: &str) -> Option<usize> {
    if line.contains("Source Statement") && line.contains("Loc") {
        Some(line.find("Stmt")?.saturating_add(3))
    } else if line.contains("SOURCE STATEMENT") && line.contains("LOC") {
        Some(line.find("STMT")?.saturating_add(3))
    } else {
        None
    }
}

/// A listing that is read line by line.
#[derive(Drop)]
pub struct Listing {
    /// Where numbers of statements end, while lines of source come.
    column: Option<usize>,
    /// The number of the last statement.
    number: u32,
    /// Whether the last line of source is continued.
    continued: bool,
}

// Returns whether a line is a message of the assembler, or names the base registers of a page.
fn is_remark(line: &str) -> bool {
    line.starts_with("**") || line.contains("ASMA") || line.contains("Active Usings:")
}

// Returns whether a line is a COPY, whose statements come in the listing.
fn is_copy(text: &str) -> bool {
    match text.split_once(' ') {
        Some((_, rest)) => {
            let rest = rest.trim_start();
            rest.starts_with("COPY ") || rest.starts_with("copy ")
        }
        None => false,
    }
}

// Returns whether some columns of a line are blank.
fn is_blank(line: &str, count: usize) -> bool {
    line.chars().take(count).all(|letter| letter == ' ')
}

// Returns the number of a statement that ends in a column, or after it where it is long, and the column after it.
fn number_at(alloc: Global, line: &str, column: usize) -> Result<Option<(u32, usize)>, AllocError> {
    let mut digits = String::new(alloc);
    let mut end = 0usize;
    for (place, letter) in line.chars().enumerate() {
        if letter.is_ascii_digit() {
            digits.push(letter)?;
            end = place;
        } else if place > column {
            break;
        } else {
            digits.clear();
        }
    }
    if digits.is_empty() || end < column {
        return Ok(None);
    }
    match digits.parse::<u32>() {
        Ok(number) => Ok(Some((number, end.saturating_add(1)))),
        Err(_) => Ok(None),
    }
}

impl Listing {
    /// Makes the state before the first line of a listing.
    pub fn new() -> Listing {
        Listing {
            column: None,
            number: 0,
            continued: false,
        }
    }

    // Returns the source of a line, which begins in a column.
    fn found(
        &mut self,
        alloc: Global,
        line: &str,
        from: usize,
    ) -> Result<Option<SourceLine>, AllocError> {
        let text = columns(alloc, line, from, SHOWN)?;
        if is_copy(&text) {
            return Ok(None);
        }
        let found = SourceLine {
            number: self.number,
            text,
        };
        self.continued = found.is_continued();
        Ok(Some(found))
    }

    // Returns the source of a line that has no number of a statement, if it continues one; a title ends the source of its page.
    fn take_unnumbered(
        &mut self,
        alloc: Global,
        line: &str,
        column: usize,
    ) -> Result<Option<SourceLine>, AllocError> {
        let from = column.saturating_add(2);
        if self.continued && is_blank(line, from) {
            return self.found(alloc, line, from);
        }
        if line.contains(" Page ") || line.contains(" PAGE ") {
            self.column = None;
        }
        Ok(None)
    }

    // Returns the source of a line of a page, if it has any. A mark after the number says where it comes from: `=` is for COPY.
    fn take_of_page(
        &mut self,
        alloc: Global,
        line: &str,
        column: usize,
    ) -> Result<Option<SourceLine>, AllocError> {
        match number_at(alloc, line, column)? {
            Some((number, end)) if number > self.number => {
                self.number = number;
                match line.chars().nth(end) {
                    None | Some(' ' | '=') => self.found(alloc, line, end.saturating_add(1)),
                    _ => Ok(None),
                }
            }
            _ => self.take_unnumbered(alloc, line, column),
        }
    }

    /// Returns the source of the next line, if it has any. What a macro was expanded to is left out, and so are messages.
    pub fn take(&mut self, alloc: Global, line: &str) -> Result<Option<SourceLine>, AllocError> {
        if let Some(column) = header_column(line) {
            self.column = Some(column);
            return Ok(None);
        }
        match self.column {
            Some(column) if !is_remark(line) => self.take_of_page(alloc, line, column),
            _ => Ok(None),
        }
    }
}
