//! The loops of a source that have requests.

use crate::flow::{Flow, Target, flow_of};
use crate::layout::Layout;
use assembler_statements::SourceStatement;
use assembler_symbols::Symbols;
use assembler_values::macro_of;
use std::alloc::{AllocError, Global};
use std::collections::BTreeSet;

/// The most loops that are kept.
const MOST: usize = 1000;

/// A loop: from a label to the last branch that jumps back there.
#[derive(Drop)]
pub struct Loop {
    pub start: usize,
    pub end: usize,
    pub label: String,
}

impl Loop {
    /// Returns whether a place is in the loop.
    pub fn has(&self, place: usize) -> bool {
        self.start <= place && place <= self.end
    }
}

/// The loops of a source that have requests, and where requests and calls of routines are.
#[derive(Drop)]
pub struct Loops {
    loops: Vec<Loop>,
    /// By the place of a statement, how many requests and calls are before it, and at the end how many there are.
    counts: Vec<usize>,
    /// By the place of a statement, how many routines begin before it.
    routines: Vec<usize>,
}

// What was found of a source up to some statement.
#[derive(Drop)]
struct Search<'a> {
    alloc: Global,
    layout: &'a Layout,
    found: Loops,
    count: usize,
    /// Where the last statement is that ends a path.
    last_end: usize,
    entries: BTreeSet<usize>,
}

// Returns whether a statement is a request, or calls a routine.
fn may_request(statement: &SourceStatement, flow: Flow<'_>) -> bool {
    match flow {
        Flow::Call { .. } | Flow::CallRegister { .. } => true,
        Flow::On
        | Flow::Branch { .. }
        | Flow::Away { .. }
        | Flow::Unknown { .. }
        | Flow::BranchRegister { .. }
        | Flow::Return
        | Flow::End => macro_of(&statement.operation).is_some(),
    }
}

impl<'a> Search<'a> {
    // Returns whether a branch back closes a loop: some request is in it, and no path ends in it if the branch is always taken.
    fn closes_loop(&self, to: usize, from: usize, is_conditional: bool) -> bool {
        let Some(before) = self.found.counts.get(to) else {
            return false;
        };
        let is_here = self.layout.section_start(to) == self.layout.section_start(from);
        is_here && *before < self.count && (is_conditional || self.last_end <= to)
    }

    // Takes a branch.
    fn take_branch(
        &mut self,
        place: usize,
        to: Target<'_>,
        is_conditional: bool,
    ) -> Result<(), AllocError> {
        if to.place <= place && self.closes_loop(to.place, place, is_conditional) {
            self.found.put_loop(self.alloc, to, place)?;
        }
        Ok(())
    }

    // Takes a statement.
    fn take(
        &mut self,
        place: usize,
        statement: &SourceStatement,
        flow: Flow<'_>,
    ) -> Result<(), AllocError> {
        self.found.counts.push(self.count)?;
        if may_request(statement, flow) {
            self.count = self.count.saturating_add(1);
        }
        match flow {
            Flow::Branch { to, is_conditional } => self.take_branch(place, to, is_conditional),
            Flow::Call { to, .. } => {
                self.entries.insert(to.place)?;
                Ok(())
            }
            Flow::Return
            | Flow::End
            | Flow::BranchRegister {
                is_conditional: false,
                ..
            } => {
                self.last_end = place;
                Ok(())
            }
            Flow::On
            | Flow::Away { .. }
            | Flow::Unknown { .. }
            | Flow::CallRegister { .. }
            | Flow::BranchRegister {
                is_conditional: true,
                ..
            } => Ok(()),
        }
    }

    // Counts the routines, and returns what was found.
    fn end(self) -> Result<Loops, AllocError> {
        let Search {
            mut found,
            count,
            entries,
            ..
        } = self;
        found.counts.push(count)?;
        let places = found.counts.len();
        let mut routines = 0usize;
        for place in 0..places {
            found.routines.push(routines)?;
            if entries.contains(&place) {
                routines = routines.saturating_add(1);
            }
        }
        Ok(found)
    }
}

// Returns whether a table of counts counts something from one place on and before another one.
fn counts_some(counts: &[usize], from: usize, to: usize) -> bool {
    match (counts.get(from), counts.get(to)) {
        (Some(before), Some(after)) => before < after,
        _ => false,
    }
}

impl Loops {
    // Takes a branch from a place back to a label.
    fn put_loop(&mut self, alloc: Global, to: Target<'_>, end: usize) -> Result<(), AllocError> {
        for known in self.loops.iter_mut() {
            if known.start == to.place {
                known.end = end;
                return Ok(());
            }
        }
        if self.loops.len() < MOST {
            let label = String::from_str(alloc, to.label)?;
            self.loops.push(Loop {
                start: to.place,
                end,
                label,
            })?;
        }
        Ok(())
    }

    /// Returns the loops of a source. It fails if memory is exhausted.
    pub fn find<'a>(
        alloc: Global,
        symbols: &'a Symbols,
        layout: &'a Layout,
        statements: &'a [SourceStatement],
    ) -> Result<Loops, AllocError> {
        let mut search = Search {
            alloc,
            layout,
            found: Loops {
                loops: Vec::new(alloc),
                counts: Vec::new(alloc),
                routines: Vec::new(alloc),
            },
            count: 0,
            last_end: 0,
            entries: BTreeSet::new(alloc),
        };
        for (place, statement) in statements.iter().enumerate() {
            let flow = flow_of(alloc, symbols, layout, place, statement)?;
            search.take(place, statement, flow)?;
        }
        search.end()
    }

    /// Returns whether some request or call is from one place on and before another one.
    pub fn has_request(&self, from: usize, to: usize) -> bool {
        counts_some(&self.counts, from, to)
    }

    /// Returns whether some routine begins from one place on and before another one.
    pub fn has_routine(&self, from: usize, to: usize) -> bool {
        counts_some(&self.routines, from, to)
    }

    /// Returns the loops.
    pub fn all(&self) -> &[Loop] {
        &self.loops
    }

    /// Returns the loop that begins at a place.
    pub fn from(&self, start: usize) -> Option<&Loop> {
        for one in self.loops.iter() {
            if one.start == start {
                return Some(one);
            }
        }
        None
    }
}
