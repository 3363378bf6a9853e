//! The answers of an output that say what was granted, and where.

use mvs_model::error::OutOfMemory;
use std::alloc::Global;
use std::collections::HashMap;

/// What the output says of the statement of a line.
#[derive(Clone, Copy, Debug, PartialEq, Eq)]
pub enum PrintedAnswer {
    /// It was answered 0, or with a cell.
    Granted,
    /// An area or a cell is at this address.
    At(u32),
}

/// The first answer to each line that shows a grant or an address.
#[derive(Drop)]
pub struct OutputAnswers {
    lines: HashMap<u32, PrintedAnswer>,
}

// Returns what a printed line says, and the number of its line.
fn read_answer(line: &str) -> Option<(u32, PrintedAnswer)> {
    let (digits, rest) = line.split_once(' ')?;
    let (_, text) = rest.split_once(' ')?;
    let number = digits.parse().ok()?;
    if text == "RC 0" || text == "CELL" || text.starts_with("RC 0 LENGTH ") {
        return Some((number, PrintedAnswer::Granted));
    }
    let addr = u32::from_str_radix(text.strip_prefix("AT ")?, 16).ok()?;
    Some((number, PrintedAnswer::At(addr)))
}

impl OutputAnswers {
    /// Returns the addresses of an output for the line with this number and those after it.
    pub fn read(
        alloc: Global,
        first_number: u32,
        output: &str,
    ) -> Result<OutputAnswers, OutOfMemory> {
        let mut lines = HashMap::new(alloc);
        for line in output.lines() {
            if let Some((number, said)) = read_answer(line) {
                if number >= first_number {
                    lines.insert(number, said).map_err(|_| OutOfMemory)?;
                }
            }
        }
        Ok(OutputAnswers { lines })
    }

    /// Returns the answer to the line of a number.
    pub fn of(&self, line_number: u32) -> Option<PrintedAnswer> {
        self.lines.get(&line_number).copied()
    }
}
