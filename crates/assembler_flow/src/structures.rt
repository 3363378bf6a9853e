//! The macros of structured programs: IF, ELSEIF, ELSE, ENDIF, DO, DOEXIT, ASMLEAVE and ENDDO.

use assembler_statements::SourceStatement;
use std::alloc::{AllocError, Global};
use std::collections::BTreeMap;

/// The target of a structured macro.
#[derive(Clone, Copy)]
pub struct Structured {
    pub place: usize,
    /// The operation there.
    pub operation: &'static str,
    pub is_conditional: bool,
}

// A group of IF whose end was read.
#[derive(Clone, Copy)]
struct Group {
    end: usize,
    /// The target of IF if its condition is false.
    otherwise: Structured,
}

// What was read of a source, from its last statement back.
#[derive(Drop)]
struct StructureReading {
    groups: Vec<Group>,
    ends_of_loops: Vec<usize>,
    found: BTreeMap<usize, Structured>,
}

// Returns where a macro jumps to that ends its group.
fn leaving(end: usize, operation: &'static str, is_conditional: bool) -> Structured {
    Structured {
        place: end,
        operation,
        is_conditional,
    }
}

impl StructureReading {
    fn new(alloc: Global) -> StructureReading {
        StructureReading {
            groups: Vec::new(alloc),
            ends_of_loops: Vec::new(alloc),
            found: BTreeMap::new(alloc),
        }
    }

    fn put(&mut self, place: usize, structured: Structured) -> Result<(), AllocError> {
        self.found.insert(place, structured)?;
        Ok(())
    }

    // Reads ENDIF.
    fn end_if(&mut self, place: usize) -> Result<(), AllocError> {
        let otherwise = leaving(place, "ENDIF", true);
        self.groups.push(Group {
            end: place,
            otherwise,
        })?;
        Ok(())
    }

    // Reads ELSE or ELSEIF: who comes there from above jumps to ENDIF, and IF jumps to what follows.
    fn otherwise(&mut self, place: usize, operation: &'static str) -> Result<(), AllocError> {
        let Some(group) = self.groups.last_mut() else {
            return Ok(());
        };
        let end = group.end;
        group.otherwise = leaving(place.saturating_add(1), operation, true);
        self.put(place, leaving(end, "ENDIF", false))
    }

    // Reads IF.
    fn begin_if(&mut self, place: usize) -> Result<(), AllocError> {
        match self.groups.pop() {
            Some(group) => self.put(place, group.otherwise),
            None => Ok(()),
        }
    }

    // Reads DO.
    fn begin_loop(&mut self, place: usize) -> Result<(), AllocError> {
        match self.ends_of_loops.pop() {
            Some(end) => self.put(end, leaving(place, "DO", true)),
            None => Ok(()),
        }
    }

    // Reads a macro that leaves a loop.
    fn leave_loop(&mut self, place: usize, is_conditional: bool) -> Result<(), AllocError> {
        match self.ends_of_loops.last() {
            Some(end) => {
                let next = end.saturating_add(1);
                self.put(place, leaving(next, "ENDDO", is_conditional))
            }
            None => Ok(()),
        }
    }

    fn take(&mut self, place: usize, operation: &str) -> Result<(), AllocError> {
        match operation {
            "ENDIF" => self.end_if(place),
            "ELSE" => self.otherwise(place, "ELSE"),
            "ELSEIF" => self.otherwise(place, "ELSEIF"),
            "IF" => self.begin_if(place),
            "ENDDO" => Ok(self.ends_of_loops.push(place)?),
            "DO" => self.begin_loop(place),
            "DOEXIT" => self.leave_loop(place, true),
            "ASMLEAVE" => self.leave_loop(place, false),
            _ => Ok(()),
        }
    }
}

/// Returns the target of each structured macro of a source, by its place. It fails if memory is exhausted.
pub fn structures_of(
    alloc: Global,
    statements: &[SourceStatement],
) -> Result<BTreeMap<usize, Structured>, AllocError> {
    let mut reading = StructureReading::new(alloc);
    for (place, statement) in statements.iter().enumerate().rev() {
        reading.take(place, &statement.operation)?;
    }
    Ok(reading.found)
}
