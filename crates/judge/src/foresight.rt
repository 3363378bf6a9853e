//! Reads ahead in a script and an output, for the places of what the next line is granted. A run with other places prints something else, and
//! then the output is judged in other ways, so no contract depends on what is found.

use crate::deciding::text_after;
use crate::hearing::hear;
use crate::parts::likely_first;
use job_script::read_line;
use job_script::split_once::split_once;
use mvs_job::{AddressHints, line_end};
use mvs_model::error::OutOfMemory;
use mvs_model::line::{Line, SourceRequest, Statement};
use mvs_model::name::Name;
use mvs_model::place::Addr;
use std::alloc::Global;

// The bytes of the script, and those of the output, in which cells of a new pool are looked for.
const MOST_AHEAD: usize = 2048;

// The lines after which that is done again.
const LINES_AHEAD: u32 = 48;

// The areas of a list.
const MOST_AREAS: usize = 16;

// A pool that can get further parts: how long a cell is, and how many a further part has.
#[derive(Clone, Copy)]
struct GrowingPool {
    name: Name,
    cell_size: u32,
    count: u32,
}

/// The hints for the next line, and what they follow from: the pools of the step that can get further parts, and the places of some lines,
/// up to this number, that were found from cells further on.
#[derive(Drop)]
pub struct Foresight {
    hints: Vec<Addr>,
    growing: Vec<GrowingPool>,
    ahead: AddressHints,
    until: u32,
}

// Returns the first line of a text.
fn first_line(text: &[u8]) -> &[u8] {
    if text.is_empty() {
        return text;
    }
    &text[..line_end(text)]
}

// Returns the beginning of a text, if it is long.
fn shortened(text: &[u8]) -> &[u8] {
    &text[..text.len().min(MOST_AHEAD)]
}

// Returns the number that hexadecimal digits write, if it is an address.
fn address_of(digits: &[u8]) -> Option<Addr> {
    let mut number = 0u32;
    for byte in digits {
        let digit = match *byte {
            b'0'..=b'9' => *byte - b'0',
            b'A'..=b'F' => *byte - b'A' + 10,
            _ => return None,
        };
        number = number.wrapping_mul(16) | u32::from(digit);
    }
    if number < 0x8000_0000 {
        Some(Addr::new(number))
    } else {
        None
    }
}

// Returns the address at the end of a printed line.
fn shown_address(line: &[u8]) -> Option<Addr> {
    let front = line.len().checked_sub(12)?;
    let shown = text_after(line, front);
    if shown.starts_with(b" AT ") {
        address_of(text_after(shown, 4))
    } else {
        None
    }
}

// Returns what comes after the task in a line.
fn statement_of(line: &[u8]) -> &[u8] {
    for (at, byte) in line.iter().enumerate() {
        if *byte == b' ' {
            return text_after(line, at + 1);
        }
    }
    &[]
}

// Returns the name of the pool in the operands of CPOOL GET.
fn pool_name(operands: &[u8]) -> &[u8] {
    let mut rest = operands;
    for _ in 0..3 {
        let (operand, others) = split_once(rest, b',');
        if operand.starts_with(b"CPID=") {
            return text_after(operand, 5);
        }
        rest = others.unwrap_or(&[]);
    }
    rest
}

impl Foresight {
    /// Makes the foresight at the beginning of a step.
    pub fn new(alloc: Global) -> Foresight {
        Foresight {
            hints: Vec::new(alloc),
            growing: Vec::new(alloc),
            ahead: AddressHints::nothing(alloc),
            until: 0,
        }
    }

    /// Returns the hints for the next line.
    pub fn hints(&self) -> &[Addr] {
        &self.hints
    }

    // Adds a hint.
    fn add(&mut self, addr: Addr) -> Result<(), OutOfMemory> {
        self.hints.push(addr).map_err(|_| OutOfMemory)
    }

    // Adds the addresses, at most this many, that an output shows after its first line.
    fn add_shown(&mut self, left: &[u8], most: usize) -> Result<(), OutOfMemory> {
        let mut rest = text_after(left, first_line(left).len().saturating_add(1));
        for _ in 0..most {
            let line = first_line(rest);
            let Some(addr) = shown_address(line) else {
                break;
            };
            self.add(addr)?;
            rest = text_after(rest, line.len().saturating_add(1));
        }
        Ok(())
    }

    // Returns the pool of a name that can get further parts.
    fn growing_pool(&self, name: &[u8]) -> Option<GrowingPool> {
        for pool in &self.growing {
            if pool.name.text() == name {
                return Some(*pool);
            }
        }
        None
    }

    // Adds the first cell of a part that may be added for the cell that is shown.
    fn add_part(&mut self, operands: &[u8]) -> Result<(), OutOfMemory> {
        if self.growing.is_empty() {
            return Ok(());
        }
        let Some(pool) = self.growing_pool(pool_name(operands)) else {
            return Ok(());
        };
        let Some(cell) = self.hints.first().copied() else {
            return Ok(());
        };
        match likely_first(pool.cell_size, pool.count, cell.get()) {
            Some(first) => self.add(Addr::new(first.min(0x7FFF_FFFF))),
            None => Ok(()),
        }
    }

    // Records a pool, if it can get further parts.
    fn keep(&mut self, line: &[u8]) -> Result<(), OutOfMemory> {
        let mut read = Line::Nothing;
        if read_line(line, false, &mut read).is_err() {
            return Ok(());
        }
        let Line::Statement(
            _,
            Statement::Request(
                SourceRequest::Build {
                    pool,
                    size,
                    secondary,
                    ..
                },
            ),
        ) = &read
        else {
            return Ok(());
        };
        let kept = GrowingPool {
            name: *pool,
            cell_size: size.get(),
            count: secondary.get(),
        };
        for other in self.growing.iter_mut() {
            if other.name == kept.name {
                *other = kept;
                return Ok(());
            }
        }
        if kept.count > 0 {
            self.growing.push(kept).map_err(|_| OutOfMemory)?;
        }
        Ok(())
    }

    // Adds the place of the part of a new pool, which follows from its cells further on.
    fn add_ahead(
        &mut self,
        alloc: Global,
        line_number: u32,
        script: &[u8],
        left: &[u8],
    ) -> Result<(), OutOfMemory> {
        if line_number >= self.until {
            let near = shortened(script);
            self.ahead = hear(alloc, line_number, near, shortened(left), true)?;
            self.until = line_number.saturating_add(LINES_AHEAD);
        }
        if let Some(first) = self.ahead.of(line_number).first().copied() {
            self.add(first)?;
        }
        Ok(())
    }

    // Finds the hints for a CPOOL statement.
    fn look_at_pool(
        &mut self,
        alloc: Global,
        line_number: u32,
        script: &[u8],
        statement: &[u8],
        left: &[u8],
    ) -> Result<(), OutOfMemory> {
        if statement.starts_with(b"CPOOL GET,") {
            self.add_shown(left, 1)?;
            return self.add_part(text_after(statement, 10));
        }
        if statement.starts_with(b"CPOOL BUILD,") {
            self.keep(first_line(script))?;
            return self.add_ahead(alloc, line_number, script, left);
        }
        Ok(())
    }

    /// Finds the hints for the first line of a script, which has this number. The answer to it comes first in an output.
    pub fn look(
        &mut self,
        alloc: Global,
        line_number: u32,
        script: &[u8],
        line: &[u8],
        left: &[u8],
    ) -> Result<(), OutOfMemory> {
        self.hints.clear();
        let statement = statement_of(line);
        match statement.first() {
            Some(b'C') => self.look_at_pool(alloc, line_number, script, statement, left),
            Some(b'G' | b'S') => {
                let is_list = line.contains(&b'(');
                self.add_shown(left, if is_list { MOST_AREAS } else { 1 })
            }
            _ => {
                if statement.starts_with(b"REGION") {
                    self.growing.clear();
                }
                Ok(())
            }
        }
    }
}
