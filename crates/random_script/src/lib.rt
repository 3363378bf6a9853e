//! Random scripts: each statement is asked of a job before the next one is chosen, so that most requests are served.
#![tactic(auto)]

mod dice;
mod faults;
mod forms;
mod known;
mod lists;
mod maker;
mod operands;
mod pools;
mod refusals;
mod requests;
mod statements;
mod subtasks;
mod theme;

use maker::ScriptMaker;
use std::alloc::{AllocError, Global};
use std::io::Write;
use thiserror::Error;

/// What a script is mostly made of.
#[derive(Clone, Copy, Debug, PartialEq, Eq)]
pub enum Profile {
    /// Areas of a task or two, and their bytes.
    Storage,
    /// Subtasks, and the subpools that they are given and share.
    Tasks,
    /// Cell pools.
    Pools,
    /// No statement prints an address or a length that was obtained.
    Tidy,
    /// One of some forty lines has a fault, and is the last one; if there is no such line, the last one has a fault.
    Faults,
    /// Lists of areas.
    Lists,
    /// Areas with boundaries, of all lengths and in both regions.
    Boundaries,
    /// Releases of whole subpools, also with cell pools in them.
    Whole,
    /// All statements, operands and replies; one script in two ends with a fault.
    All,
}

/// Why a script was not written to its end.
#[derive(Clone, Copy, Debug, PartialEq, Eq, Error)]
pub enum RandomFault {
    #[error("out of memory")]
    Memory,
    #[error("write failed")]
    Write,
}

impl From<AllocError> for RandomFault {
    fn from(_: AllocError) -> RandomFault {
        RandomFault::Memory
    }
}

/// Writes a script with a number of lines, or fewer if one has a fault: always the same bytes for a seed, a number of lines and a
/// profile.
pub fn write_script<W: Write>(
    alloc: Global,
    writer: &mut W,
    seed: u64,
    lines: u32,
    profile: Profile,
) -> Result<(), RandomFault> {
    let mut maker = ScriptMaker::new(alloc, seed, profile);
    for number in 0..lines {
        let is_last = lines - number == 1;
        if !maker.makes_line(is_last)? {
            break;
        }
        let line = maker.line();
        writeln!(writer, "{line}").map_err(|_| RandomFault::Write)?;
    }
    Ok(())
}
