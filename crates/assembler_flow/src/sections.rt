//! The sections of a source, and which of them are programs of tasks.

use crate::layout::begins_section;
use assembler_statements::SourceStatement;
use assembler_symbols::Symbols;
use std::alloc::{AllocError, Global};
use std::collections::{BTreeMap, BTreeSet};

/// The name of a program without a label.
const UNNAMED: &str = "JOB";

/// The program of the first task, the programs that are attached, and those that reside above 16 megabytes.
#[derive(Drop)]
pub struct Sections {
    pub first: String,
    attached: BTreeSet<String>,
    above: BTreeSet<String>,
    /// By its label, where a section begins.
    starts: BTreeMap<String, usize>,
}

// Returns the characters at a symbol.
fn characters_at<'a>(symbols: &'a Symbols, symbol: &str) -> Option<&'a str> {
    Some(symbols.get(symbol)?.characters.as_ref()?.as_str())
}

// Returns the program that a statement attaches.
fn attached_by<'a>(symbols: &'a Symbols, statement: &'a SourceStatement) -> Option<&'a str> {
    if !statement.operation.starts_with("ATTACH") {
        return None;
    }
    for operand in statement.operands.iter() {
        match operand.split_once('=') {
            Some(("EP", name)) => return Some(name),
            Some(("EPLOC" | "DE", place)) => return characters_at(symbols, place),
            _ => {}
        }
    }
    None
}

// Returns whether a statement says that its program may reside above 16 megabytes.
fn is_above(statement: &SourceStatement) -> bool {
    statement.operation.as_str() == "RMODE" && matches!(statement.field.as_str(), "ANY" | "31")
}

// Returns the label of the first section.
fn first_section(statements: &[SourceStatement]) -> &str {
    for statement in statements {
        if begins_section(statement) && !statement.label.is_empty() {
            return statement.label.as_str();
        }
    }
    UNNAMED
}

impl Sections {
    // Takes a statement.
    fn take(
        &mut self,
        alloc: Global,
        symbols: &Symbols,
        place: usize,
        statement: &SourceStatement,
    ) -> Result<(), AllocError> {
        if let Some(program) = attached_by(symbols, statement) {
            let program = String::from_str(alloc, program)?;
            self.attached.insert(program)?;
        }
        if is_above(statement) {
            self.above.insert(statement.label.clone()?)?;
        }
        if begins_section(statement) && !self.starts.contains_key(statement.label.as_str()) {
            self.starts.insert(statement.label.clone()?, place)?;
        }
        Ok(())
    }

    /// Returns the sections of a source. It fails if memory is exhausted.
    pub fn find(
        alloc: Global,
        symbols: &Symbols,
        statements: &[SourceStatement],
    ) -> Result<Sections, AllocError> {
        let mut sections = Sections {
            first: String::from_str(alloc, first_section(statements))?,
            attached: BTreeSet::new(alloc),
            above: BTreeSet::new(alloc),
            starts: BTreeMap::new(alloc),
        };
        for (place, statement) in statements.iter().enumerate() {
            sections.take(alloc, symbols, place, statement)?;
        }
        Ok(sections)
    }

    /// Returns the program whose task runs a section: its own, or the first one.
    pub fn program_of<'a>(&'a self, section: &'a str) -> &'a str {
        if self.attached.contains(section) {
            section
        } else {
            self.first.as_str()
        }
    }

    /// Returns whether a program resides above 16 megabytes.
    pub fn is_above(&self, program: &str) -> bool {
        self.above.contains(program)
    }

    /// Returns where a program begins, if it is a section of the source.
    pub fn start_of(&self, program: &str) -> Option<usize> {
        self.starts.get(program).copied()
    }
}
