//! Similar words that may have been meant.

use job_script::operations::{OPERATIONS, Operation};
use job_script::rows::Row;
use std::alloc::Global;
use strsim::osa_distance;

// Returns how many edits lead from one word to another that may be meant.
fn edits(alloc: Global, word: &str, other: &str) -> Option<usize> {
    let most = if word.len() <= 3 { 1 } else { 2 };
    match osa_distance(alloc, word, other) {
        Ok(count) if count <= most && count < word.len() => Some(count),
        _ => None,
    }
}

/// Returns how many edits lead from one word to another that may be meant.
pub fn edits_between(alloc: Global, word: &[u8], other: &[u8]) -> Option<usize> {
    match (str::from_utf8(word), str::from_utf8(other)) {
        (Ok(word), Ok(other)) => edits(alloc, word, other),
        _ => None,
    }
}

/// The nearest word that was offered so far.
#[derive(Clone, Copy)]
pub struct Nearest<'a> {
    alloc: Global,
    word: &'a str,
    edits: usize,
    found: Option<&'static str>,
}

impl<'a> Nearest<'a> {
    /// Makes a search for the words nearest to one. A word of another alphabet, or of more than sixteen bytes, has none.
    pub fn new(alloc: Global, word: &'a [u8]) -> Nearest<'a> {
        let word = match str::from_utf8(word) {
            Ok(text) if text.len() <= 16 => text,
            _ => "",
        };
        Nearest {
            alloc,
            word,
            edits: usize::MAX,
            found: None,
        }
    }

    /// Takes the word where it is nearer than those before.
    pub fn offer(&mut self, other: &'static str) {
        if let Some(edits) = edits(self.alloc, self.word, other) {
            if edits < self.edits {
                self.edits = edits;
                self.found = Some(other);
            }
        }
    }

    /// Returns the nearest word, if there is one.
    pub fn found(&self) -> Option<&'static str> {
        self.found
    }
}

/// Returns the operation that is meant by a word.
pub fn near_operation(alloc: Global, word: &[u8]) -> Option<&'static str> {
    let mut nearest = Nearest::new(alloc, word);
    for operation in OPERATIONS {
        nearest.offer(operation.text());
    }
    nearest.found()
}

/// Returns the form of an operation that is meant by a word.
pub fn near_form(alloc: Global, operation: Operation, word: &[u8]) -> Option<&'static str> {
    let mut nearest = Nearest::new(alloc, word);
    for form in operation.forms() {
        nearest.offer(form);
    }
    nearest.found()
}

/// Returns the key of a row that is meant by a word.
pub fn near_key(alloc: Global, row: Row, word: &[u8]) -> Option<&'static str> {
    let mut nearest = Nearest::new(alloc, word);
    for keyword in row.keywords() {
        nearest.offer(keyword.key.text());
    }
    nearest.found()
}

/// Returns one of some words that is meant by another one.
pub fn near_word(
    alloc: Global,
    words: &'static [&'static str],
    word: &[u8],
) -> Option<&'static str> {
    let mut nearest = Nearest::new(alloc, word);
    for other in words {
        nearest.offer(other);
    }
    nearest.found()
}
