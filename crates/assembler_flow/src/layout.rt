//! Where the labels, the sections and the structured macros of a source are.

use crate::flow::{Flow, Target};
use crate::lengths::length_of;
use crate::structures::{Structured, structures_of};
use assembler_statements::SourceStatement;
use std::alloc::{AllocError, Global};
use std::collections::BTreeMap;

/// How many statements before and after a branch to `*+8` its target is searched for.
const NEAR: usize = 100;

// Where a statement is: in which run of statements whose lengths are known, and how many bytes after its beginning.
#[derive(Clone, Copy)]
struct Address {
    run: usize,
    offset: usize,
}

impl Address {
    // Returns the address after a statement.
    fn after(self, statement: &SourceStatement) -> Address {
        match length_of(statement) {
            Some(length) => Address {
                run: self.run,
                offset: self.offset.saturating_add(length),
            },
            None => Address {
                run: self.run.saturating_add(1),
                offset: 0,
            },
        }
    }

    // Returns the address a number of bytes after this one or before it, as the text `+8` or `-8` says.
    fn moved(self, sign: &str, bytes: &str) -> Option<Address> {
        let bytes = bytes.parse::<usize>().ok()?;
        let offset = if sign == "+" {
            self.offset.checked_add(bytes)?
        } else {
            self.offset.checked_sub(bytes)?
        };
        Some(Address {
            run: self.run,
            offset,
        })
    }
}

/// Where the labels, the sections and the structured macros of a source are.
#[derive(Drop)]
pub struct Layout {
    labels: BTreeMap<String, usize>,
    numbers: BTreeMap<u32, usize>,
    structures: BTreeMap<usize, Structured>,
    /// By the place of a statement, the section that it is in: the number of sections that begin before it.
    sections: Vec<usize>,
    /// Where the sections begin.
    starts: Vec<usize>,
    /// By the place of a statement, its address.
    addresses: Vec<Address>,
}

/// Returns whether a section of instructions begins.
pub fn begins_section(statement: &SourceStatement) -> bool {
    matches!(statement.operation.as_str(), "CSECT" | "RSECT" | "START")
}

impl Layout {
    fn new(alloc: Global) -> Layout {
        Layout {
            labels: BTreeMap::new(alloc),
            numbers: BTreeMap::new(alloc),
            structures: BTreeMap::new(alloc),
            sections: Vec::new(alloc),
            starts: Vec::new(alloc),
            addresses: Vec::new(alloc),
        }
    }

    // Takes the statement at a place.
    fn take(&mut self, place: usize, statement: &SourceStatement) -> Result<(), AllocError> {
        if begins_section(statement) {
            self.starts.push(place)?;
        }
        self.sections.push(self.starts.len())?;
        if statement.member.is_empty() && !self.numbers.contains_key(&statement.number) {
            self.numbers.insert(statement.number, place)?;
        }
        let label = statement.label.as_str();
        if !label.is_empty() && !self.labels.contains_key(label) {
            self.labels.insert(statement.label.clone()?, place)?;
        }
        Ok(())
    }

    /// Returns the layout of a source. It fails if memory is exhausted.
    pub fn find(alloc: Global, statements: &[SourceStatement]) -> Result<Layout, AllocError> {
        let mut layout = Layout::new(alloc);
        let mut address = Address { run: 0, offset: 0 };
        for (place, statement) in statements.iter().enumerate() {
            layout.take(place, statement)?;
            layout.addresses.push(address)?;
            address = address.after(statement);
        }
        layout.structures = structures_of(alloc, statements)?;
        Ok(layout)
    }

    /// Returns the place of a label, or of the statement that has a number.
    pub fn place_of(&self, text: &str) -> Option<usize> {
        if let Some(place) = self.labels.get(text) {
            return Some(*place);
        }
        let number = text.parse::<u32>().ok()?;
        self.numbers.get(&number).copied()
    }

    /// Returns the target of a branch to a label, if the source has it.
    pub fn target<'a>(&self, label: &'a str) -> Option<Target<'a>> {
        let place = *self.labels.get(label)?;
        Some(Target { place, label })
    }

    // Returns the place near another one that has an address.
    fn place_near(&self, place: usize, address: Address) -> Option<usize> {
        let first = place.saturating_sub(NEAR);
        for (after, near) in self
            .addresses
            .get(first..)?
            .iter()
            .take(2 * NEAR)
            .enumerate()
        {
            if near.run == address.run && near.offset == address.offset {
                return Some(first.saturating_add(after));
            }
        }
        None
    }

    // Returns the place of a base of addresses: `*` is the statement at a place.
    fn base(&self, place: usize, text: &str) -> Option<usize> {
        if text == "*" {
            return Some(place);
        }
        self.labels.get(text).copied()
    }

    /// Returns the target of a branch from a place to `*+8`, `*-8`, `LABEL+8` or `LABEL-8`, if the lengths of all statements between are known.
    pub fn relative<'a>(&self, place: usize, operand: &'a str) -> Option<Target<'a>> {
        for sign in ["+", "-"] {
            if let Some((base, bytes)) = operand.split_once(sign) {
                let base = self.base(place, base)?;
                let address = self.addresses.get(base)?.moved(sign, bytes)?;
                return Some(Target {
                    place: self.place_near(base, address)?,
                    label: operand,
                });
            }
        }
        None
    }

    /// Returns how a program continues after the structured macro at a place, if one is there.
    pub fn structured<'a>(&self, place: usize) -> Option<Flow<'a>> {
        let structured = self.structures.get(&place)?;
        Some(Flow::Branch {
            to: Target {
                place: structured.place,
                label: structured.operation,
            },
            is_conditional: structured.is_conditional,
        })
    }

    // Returns the section in which a place is.
    fn section(&self, place: usize) -> usize {
        self.sections.get(place).copied().unwrap_or(0)
    }

    /// Returns where the section begins in which a place is: before it or there.
    pub fn section_start(&self, place: usize) -> Option<usize> {
        let before = self.section(place).checked_sub(1)?;
        self.starts.get(before).copied()
    }

    /// Returns where the next section begins after the one in which a place is.
    pub fn next_section(&self, place: usize) -> Option<usize> {
        self.starts.get(self.section(place)).copied()
    }

    /// Returns where the sections begin.
    pub fn starts(&self) -> &[usize] {
        &self.starts
    }
}
