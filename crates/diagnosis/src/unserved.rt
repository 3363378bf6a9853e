//! Describes a line that was not executed: its task is not active, or a name in it is not set.

ghost use Rattle.std.specs.Prelude.{◌≤◌, length};
ghost use Rattle.diagnosis.specs.Blame.{AreWithin};

use crate::columns::Columns;
use crate::operands::second_word;
use crate::words::Plain;
use crate::write_marked;
use mvs_model::name::Name;
use std::fmt;

/// What may help.
#[derive(Clone, Copy)]
pub enum Suggestion {
    Nothing,
    /// Another name is meant.
    Meant(Name),
    /// A line before this one is to begin the task, or to set the name.
    Before(u32),
    /// A later line does.
    After(u32),
}

// What there is not: an active task, or a name that is set.
#[derive(Clone, Copy)]
enum Needed {
    Task,
    Name,
}

impl Needed {
    // Writes what a line before is to do.
    fn write_before<W: fmt::Write>(&self, f: &mut fmt::Formatter<W>, line: u32) -> fmt::Result {
        match self {
            Needed::Task => write!(f, " it begins in line {line}, but is not active here"),
            Needed::Name => write!(f, " the request in line {line} was not granted"),
        }
    }

    // Writes what a later line does.
    fn write_later<W: fmt::Write>(&self, f: &mut fmt::Formatter<W>, line: u32) -> fmt::Result {
        match self {
            Needed::Task => write!(f, " it is attached in line {line}"),
            Needed::Name => write!(f, " it is set in line {line}"),
        }
    }
}

/// The message for a line that was not executed.
#[derive(Clone, Copy)]
pub struct NotServed<'a> {
    pub columns: Columns,
    line: &'a [u8],
    lacked: Needed,
    name: Name,
    clue: Suggestion,
}

// Returns whether a name can follow such a byte.
fn leads(byte: u8) -> bool {
    matches!(byte, b' ' | b',' | b'(' | b'=')
}

// Returns whether a name may end before such a byte.
fn follows(byte: u8) -> bool {
    matches!(byte, b' ' | b',' | b')' | b'+')
}

// Returns whether a name is in a line at a place, as a word of its own.
fn is_word_at(line: &[u8], at: usize, name: &[u8]) -> bool {
    let before = match line.get(at.wrapping_sub(1)) {
        Some(byte) => leads(*byte),
        None => true,
    };
    let after = match line.get(at.saturating_add(name.len())) {
        Some(byte) => follows(*byte),
        None => true,
    };
    match line.get(at..) {
        Some(rest) => before && after && rest.starts_with(name),
        None => false,
    }
}

// Returns where a name is among the operands of a line.
fn place_of(line: &[u8], name: &[u8]) -> usize {
    let (_, rest) = second_word(line);
    let start = line.len().saturating_sub(rest.len());
    for at in 0..line.len() {
        if at >= start && is_word_at(line, at, name) {
            return at;
        }
    }
    start
}

impl<'a> NotServed<'a> {
    /// Makes the message about a line whose task is not active.
    pub fn without_task(line: &'a [u8], task: Name, clue: Suggestion) -> NotServed<'a>
        ensures { 1 ≤ length line.now → AreWithin line.now result.columns }
    {
        let count = task.text().len();
        NotServed {
            columns: Columns::of(line, 0, count),
            line,
            lacked: Needed::Task,
            name: task,
            clue,
        }
    }

    /// Makes the message about a line with a name that is not set.
    pub fn without_name(line: &'a [u8], name: Name, clue: Suggestion) -> NotServed<'a>
        ensures { 1 ≤ length line.now → AreWithin line.now result.columns }
    {
        let text = name.text();
        let at = place_of(line, text);
        let count = text.len();
        NotServed {
            columns: Columns::of(line, at, count),
            line,
            lacked: Needed::Name,
            name,
            clue,
        }
    }

    // Writes what may help.
    fn write_clue<W: fmt::Write>(&self, f: &mut fmt::Formatter<W>) -> fmt::Result {
        match &self.clue {
            Suggestion::Nothing => Ok(()),
            Suggestion::Meant(name) => write!(f, " did you mean {}?", Plain(name.text())),
            Suggestion::Before(line) => self.lacked.write_before(f, *line),
            Suggestion::After(line) => self.lacked.write_later(f, *line),
        }
    }
}

/// Writes the first column and why the line was not served, and below it the line with what there is not and what may help, each
/// line with its end. The texts are this project's choice.
impl fmt::Display for NotServed<'_> {
    fn fmt<W: fmt::Write>(&self, f: &mut fmt::Formatter<W>) -> fmt::Result {
        let column = self.columns.first.max(1);
        let name = Plain(self.name.text());
        match self.lacked {
            Needed::Task => writeln!(f, "{column}: NOT RUN: no task {name} is active")?,
            Needed::Name => writeln!(f, "{column}: NO NAME: {name} is not set")?,
        }
        write_marked(f, self.line, self.columns)?;
        self.write_clue(f)?;
        writeln!(f)
    }
}
