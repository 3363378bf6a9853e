//! Hints for the places that lines are granted.

use mvs_model::error::OutOfMemory;
use mvs_model::place::Addr;
use std::alloc::Global;
use std::collections::HashMap;

/// Hints for the areas and cells that lines are granted: for a request for one area its address, for a list those of its areas in
/// order, for CPOOL BUILD that of the first cell of the pool, for CPOOL GET that of the cell and, after it, that of the first cell
/// of a part that is added for it. Other lines do not use hints.
#[derive(Drop)]
pub struct AddressHints {
    lines: HashMap<u32, Vec<Addr>>,
}

impl AddressHints {
    /// Makes an empty list of hints. It allocates no memory.
    pub fn nothing(alloc: Global) -> AddressHints {
        AddressHints {
            lines: HashMap::new(alloc),
        }
    }

    // Replaces the addresses of the line with a number.
    fn put(&mut self, line_number: u32, addrs: Vec<Addr>) -> Result<(), OutOfMemory> {
        self.lines
            .insert(line_number, addrs)
            .map_err(|_| OutOfMemory)?;
        Ok(())
    }

    /// Adds an address for the line with a number.
    pub fn add(&mut self, alloc: Global, line_number: u32, addr: Addr) -> Result<(), OutOfMemory> {
        if let Some(addrs) = self.lines.get_mut(&line_number) {
            return addrs.push(addr).map_err(|_| OutOfMemory);
        }
        let mut addrs = Vec::new(alloc);
        addrs.push(addr).map_err(|_| OutOfMemory)?;
        self.put(line_number, addrs)
    }

    /// Returns the addresses for the line with a number.
    pub fn of(&self, line_number: u32) -> &[Addr] {
        if self.lines.is_empty() {
            return &[];
        }
        match self.lines.get(&line_number) {
            Some(addrs) => addrs,
            None => &[],
        }
    }
}
