//! The statements of a source: label, operation and operands, with the lines that continue them.

use crate::lines::{CONTINUATION, GO_ON, SourceLine, columns, source_lines};
use crate::quotes::OpenQuotes;
use std::alloc::{AllocError, Global};

/// A statement of a source.
#[derive(Drop)]
pub struct SourceStatement {
    /// The number of its first line.
    pub number: u32,
    /// The member of COPY from which it is, or an empty text.
    pub member: String,
    pub label: String,
    pub operation: String,
    /// The operands as they are written, one after the other.
    pub field: String,
    pub operands: Vec<String>,
}

/// A member that COPY names, and what is in it.
#[derive(Drop)]
pub struct CopyMember {
    pub name: String,
    pub source: Vec<u8>,
}

/// How deep members may copy others.
const DEEPEST: u32 = 8;

/// The most statements before one that a member takes the place of.
const MOST_COPIED: usize = 1_000_000;

/// Splits a text at the commas that are outside of quotes and parentheses. An empty text has no parts. It fails if memory is exhausted.
pub fn separated(alloc: Global, text: &str) -> Result<Vec<String>, AllocError> {
    let mut parts = Vec::new(alloc);
    if text.is_empty() {
        return Ok(parts);
    }
    let mut part = String::new(alloc);
    let mut opened = OpenQuotes::new();
    for letter in text.chars() {
        if opened.separates(letter) {
            parts.push(part)?;
            part = String::new(alloc);
        } else {
            part.push(letter)?;
        }
        opened.pass(letter);
    }
    parts.push(part)?;
    Ok(parts)
}

// The statements of a source as far as it was read. Lines that continue the last of them may still come.
#[derive(Drop)]
struct StatementReading {
    alloc: Global,
    found: Vec<SourceStatement>,
    /// What the operands of the last statement have opened.
    opened: OpenQuotes,
    /// Whether the operands of the last statement go on in the next line.
    continues: bool,
}

// Returns a word in upper case.
fn upper(alloc: Global, word: &str) -> Result<String, AllocError> {
    word.chars()
        .map(|letter| letter.to_ascii_uppercase())
        .collect(alloc)
}

// Returns the first word of a text, and what follows it and its blanks.
fn word_of(text: &str) -> (&str, &str) {
    match text.split_once(' ') {
        Some((word, rest)) => (word, rest.trim_start()),
        None => (text, ""),
    }
}

// Appends the operands of a line, which end at the first blank, and returns whether the next line continues them.
fn take_operands(
    field: &mut String,
    opened: &mut OpenQuotes,
    text: &str,
) -> Result<bool, AllocError> {
    for letter in text.chars() {
        if opened.ends_operands(letter) {
            return Ok(field.ends_with(","));
        }
        field.push(opened.stored(letter))?;
        opened.pass(letter);
    }
    Ok(true)
}

// Returns the statement that begins in this line, without its operands, and the text of these.
fn begun<'a>(
    alloc: Global,
    number: u32,
    text: &'a str,
) -> Result<(SourceStatement, &'a str), AllocError> {
    let (label, rest) = word_of(text);
    let (operation, operands) = word_of(rest);
    let statement = SourceStatement {
        number,
        member: String::new(alloc),
        label: upper(alloc, label)?,
        operation: upper(alloc, operation)?,
        field: String::new(alloc),
        operands: Vec::new(alloc),
    };
    Ok((statement, operands))
}

impl StatementReading {
    fn new(alloc: Global) -> StatementReading {
        StatementReading {
            alloc,
            found: Vec::new(alloc),
            opened: OpenQuotes::new(),
            continues: false,
        }
    }

    // Appends operands to the last statement.
    fn take(&mut self, text: &str) -> Result<(), AllocError> {
        if let Some(last) = self.found.last_mut() {
            self.continues = take_operands(&mut last.field, &mut self.opened, text)?;
        }
        Ok(())
    }

    // Reads the first line of a statement, or a comment.
    fn begin(&mut self, line: &SourceLine) -> Result<(), AllocError> {
        self.continues = false;
        if line.text.starts_with("*") || line.text.starts_with(".*") {
            return Ok(());
        }
        let text = columns(self.alloc, &line.text, 0, CONTINUATION)?;
        let (statement, operands) = begun(self.alloc, line.number, &text)?;
        self.found.push(statement)?;
        self.opened = OpenQuotes::new();
        self.take(operands)
    }

    // Reads a line that continues the last statement.
    fn go_on(&mut self, line: &SourceLine) -> Result<(), AllocError> {
        if !self.continues {
            return Ok(());
        }
        let text = columns(self.alloc, &line.text, GO_ON, CONTINUATION - GO_ON)?;
        self.take(&text)
    }
}

// Reads the statements of some lines, definitions of macros among them. They have no operands yet.
fn all_statements(alloc: Global, lines: &[SourceLine]) -> Result<Vec<SourceStatement>, AllocError> {
    let mut reading = StatementReading::new(alloc);
    let mut continued = false;
    for line in lines {
        if continued {
            reading.go_on(line)?;
        } else {
            reading.begin(line)?;
        }
        continued = line.is_continued();
    }
    Ok(reading.found)
}

// Reads the statements of a source, or of a listing of it, up to END, without definitions of macros.
fn plain_statements(alloc: Global, source: &[u8]) -> Result<Vec<SourceStatement>, AllocError> {
    let lines = source_lines(alloc, source)?;
    let mut found = Vec::new(alloc);
    let mut in_macro = false;
    for statement in all_statements(alloc, &lines)? {
        match statement.operation.as_str() {
            "MACRO" => in_macro = true,
            "MEND" => in_macro = false,
            "END" if !in_macro => break,
            "" => {}
            _ if in_macro => {}
            _ => found.push(statement)?,
        }
    }
    Ok(found)
}

// Returns the member that a statement copies, if it is one of some.
fn copied<'a>(members: &'a [CopyMember], statement: &SourceStatement) -> Option<&'a CopyMember> {
    if statement.operation.as_str() != "COPY" {
        return None;
    }
    for member in members {
        if member.name == statement.field {
            return Some(member);
        }
    }
    None
}

// Appends the statements of a member.
fn append_member(
    alloc: Global,
    found: &mut Vec<SourceStatement>,
    member: &CopyMember,
) -> Result<(), AllocError> {
    for mut statement in plain_statements(alloc, &member.source)? {
        statement.member = member.name.clone()?;
        found.push(statement)?;
    }
    Ok(())
}

// Returns some statements with those of members in place of each COPY of one, and whether there was such a COPY.
fn with_members(
    alloc: Global,
    statements: Vec<SourceStatement>,
    members: &[CopyMember],
) -> Result<(Vec<SourceStatement>, bool), AllocError> {
    let mut found = Vec::new(alloc);
    let mut is_changed = false;
    for statement in statements {
        match copied(members, &statement) {
            Some(member) if found.len() < MOST_COPIED => {
                append_member(alloc, &mut found, member)?;
                is_changed = true;
            }
            _ => found.push(statement)?,
        }
    }
    Ok((found, is_changed))
}

// Returns some statements with those of members in place of each COPY of one, also in members.
fn expanded(
    alloc: Global,
    statements: Vec<SourceStatement>,
    members: &[CopyMember],
) -> Result<Vec<SourceStatement>, AllocError> {
    let mut found = statements;
    for _ in 0..DEEPEST {
        let (next, is_changed) = with_members(alloc, found, members)?;
        found = next;
        if !is_changed {
            break;
        }
    }
    Ok(found)
}

/// Reads the statements of a source, or of a listing of it, up to END, without definitions of macros, and with the statements of members in
/// place of COPY. It fails if memory is exhausted.
pub fn read_statements(
    alloc: Global,
    source: &[u8],
    members: &[CopyMember],
) -> Result<Vec<SourceStatement>, AllocError> {
    let mut found = expanded(alloc, plain_statements(alloc, source)?, members)?;
    for statement in found.iter_mut() {
        statement.operands = separated(alloc, &statement.field)?;
    }
    Ok(found)
}

/// Returns the members that a source copies, each as often as it does. It fails if memory is exhausted.
pub fn copied_members(alloc: Global, source: &[u8]) -> Result<Vec<String>, AllocError> {
    let mut names = Vec::new(alloc);
    for statement in plain_statements(alloc, source)? {
        if statement.operation.as_str() == "COPY" {
            names.push(statement.field)?;
        }
    }
    Ok(names)
}
