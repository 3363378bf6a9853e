//! Commands and operations that may be meant by words that name none.

use crate::command::{DotCommand, KEYWORDS};
use diagnosis::edits_between;
use job_script::operations::{OPERATIONS, Operation};
use job_script::split_once::next_word;
use std::alloc::Global;

/// Names that other programs have for a command.
const OTHERS: [(&str, DotCommand); 4] = [
    ("exit", DotCommand::Quit),
    ("bye", DotCommand::Quit),
    ("h", DotCommand::Help),
    ("?", DotCommand::Help),
];

/// The item with the name that is most similar to a word.
#[derive(Clone, Copy)]
struct Nearest<'a, T> {
    alloc: Global,
    word: &'a [u8],
    edits: usize,
    found: Option<T>,
}

impl<'a, T: Copy> Nearest<'a, T> {
    // Makes the search, in which no item was found.
    fn new(alloc: Global, word: &'a [u8]) -> Nearest<'a, T> {
        Nearest {
            alloc,
            word,
            edits: usize::MAX,
            found: None,
        }
    }

    // Takes an item, if its name is more similar than those before.
    fn offer(&mut self, item: T, name: &str) {
        if let Some(edits) = edits_between(self.alloc, self.word, name.as_bytes()) {
            if edits < self.edits {
                self.edits = edits;
                self.found = Some(item);
            }
        }
    }
}

/// Returns whether a word is a name, in capital or small letters.
pub fn is_name(word: &[u8], name: &str) -> bool {
    word.eq_ignore_ascii_case(name.as_bytes())
}

// Returns whether a name begins with a word of two bytes or more.
fn begins(word: &[u8], name: &str) -> bool {
    let name = name.as_bytes();
    word.len() > 1 && word.len() <= name.len() && word.eq_ignore_ascii_case(&name[..word.len()])
}

/// Returns the command that has a name, in capital or small letters, with its dot or without it.
pub fn keyword_named(word: &[u8]) -> Option<DotCommand> {
    KEYWORDS.iter().copied().find(|keyword| is_name(word, keyword.text())
        || is_name(word, keyword.name()))
}

/// Returns the operation that has a name, in capital or small letters.
pub fn operation_named(word: &[u8]) -> Option<Operation> {
    OPERATIONS
        .iter()
        .copied()
        .find(|operation| is_name(word, operation.text()))
}

// Returns the command that another program calls so, without a dot.
fn other_keyword(word: &[u8]) -> Option<DotCommand> {
    OTHERS
        .iter()
        .find(|other| is_name(word, other.0))
        .map(|other| other.1)
}

// Returns the first command whose name begins with a word.
fn begun_keyword(word: &[u8]) -> Option<DotCommand> {
    KEYWORDS
        .iter()
        .copied()
        .find(|keyword| begins(word, keyword.text()))
}

// Returns the command whose name is the most similar to a word.
fn similar_keyword(alloc: Global, word: &[u8]) -> Option<DotCommand> {
    let mut nearest = Nearest::new(alloc, word);
    for keyword in KEYWORDS {
        nearest.offer(keyword, keyword.text());
    }
    nearest.found
}

// Returns a word without its first byte.
fn without_dot(word: &[u8]) -> &[u8] {
    match word {
        [] => &[],
        [_, rest @ ..] => rest,
    }
}

/// Returns the command that may be meant by a word that begins with a dot.
pub fn near_keyword(alloc: Global, word: &[u8]) -> Option<DotCommand> {
    let known = keyword_named(word).or(other_keyword(without_dot(word)));
    known
        .or(begun_keyword(word))
        .or_else(|| similar_keyword(alloc, word))
}

/// Returns the operation that may be meant by a word.
pub fn near_operation(alloc: Global, word: &[u8]) -> Option<Operation> {
    let mut nearest = Nearest::new(alloc, word);
    for operation in OPERATIONS {
        nearest.offer(operation, operation.text());
    }
    nearest.found
}

/// Returns the command that may be meant by a line that is no statement, and does not begin with a dot.
pub fn command_meant(line: &[u8]) -> Option<DotCommand> {
    let (word, rest) = next_word(line);
    let (next, _) = next_word(rest);
    // A task may have the name of a command in capital letters.
    if !next.is_empty() && word.iter().any(|byte| byte.is_ascii_uppercase()) {
        return None;
    }
    keyword_named(word).or(other_keyword(word))
}
