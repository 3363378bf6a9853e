//! Statements of cell pools with all their operands.

use crate::dice::Dice;
use crate::known::{CELLS, Cell, KnownStep, POOLS, Task};
use crate::operands::{number, write_location, write_number};
use crate::requests::ExpectedChange;
use std::alloc::AllocError;
use std::fmt::Write;

static GETS: [&str; 6] = ["", "", "COND,", "C,", "UNCOND,", "U,"];

static SIZES: [u32; 8] = [4, 6, 8, 12, 20, 64, 100, 600];

static COUNTS: [u32; 4] = [1, 2, 3, 5];

/// Statements of a pool that is not there: the texts before and after its name.
static OF_NONE: [(&'static str, &'static str); 3] = [
    ("CPOOL GET,CPID=P", ",CELL=C0"),
    ("CPOOL FREE,CPID=P", ",CELL=X'6000'"),
    ("CPOOL DELETE,CPID=P", ""),
];

/// Statements about a pool that is there: the texts before and after its name. Those of a new pool do not have that name.
static OF_ONE: [(&'static str, Option<&'static str>); 6] = [
    ("CPOOL BUILD,CPID=P", Some(",CSIZE=8,PCELLCT=1")),
    ("CPOOL BUILD,CPID=P", Some(",CSIZE=8,PCELLCT=1")),
    ("CPOOL BUILD,CPID=P", Some(",CSIZE=8,PCELLCT=1")),
    ("CPOOL BUILD,CPID=NEW,CSIZE=65536,PCELLCT=65536", None),
    ("CPOOL BUILD,CPID=NEW,CSIZE=8,PCELLCT=1,SP=133", None),
    ("CPOOL FREE,CPID=P", Some(",CELL=X'01000004'")),
];

// Writes the operands of a new pool.
fn write_pool(line: &mut String, dice: &mut Dice) -> Result<(), AllocError> {
    let size = SIZES[dice.below(8) as usize];
    let cells = COUNTS[dice.below(4) as usize];
    write!(line, ",CSIZE={size},PCELLCT={cells}")?;
    if dice.is_one_of(3) {
        write!(line, ",SCELLCT={}", COUNTS[dice.below(4) as usize])?;
    }
    if dice.is_one_of(2) {
        let number = number(dice);
        write_number(line, dice, number)?;
    }
    write_location(line, dice)
}

/// Writes a BUILD of a pool.
pub fn build(
    line: &mut String,
    dice: &mut Dice,
    task: Task,
    pool: usize,
) -> Result<ExpectedChange, AllocError> {
    write!(line, "{task} CPOOL BUILD,CPID=P{pool}")?;
    write_pool(line, dice)?;
    Ok(ExpectedChange::Builds(pool))
}

/// Writes a BUILD of a pool of a new name, which is small.
pub fn build_one_more(
    line: &mut String,
    task: Task,
    count: u32,
) -> Result<ExpectedChange, AllocError> {
    write!(line, "{task} CPOOL BUILD,CPID=Q{count},CSIZE=4,PCELLCT=1")?;
    Ok(ExpectedChange::OneMore)
}

// Writes a FREE of a cell, by its name or by its address.
fn free(
    line: &mut String,
    dice: &mut Dice,
    task: Task,
    found: (usize, Cell),
) -> Result<ExpectedChange, AllocError> {
    let (place, cell) = found;
    write!(line, "{task} CPOOL FREE,CPID=P{},CELL=", cell.pool)?;
    if cell.addr > 0 && dice.is_one_of(3) {
        write!(line, "X'{:08X}'", cell.addr)?;
    } else {
        write!(line, "C{place}")?;
    }
    Ok(ExpectedChange::Gives(place))
}

/// Writes a statement of a cell pool: a BUILD where there is no pool of the name, and rarely where there is one.
pub fn any_pool(
    line: &mut String,
    dice: &mut Dice,
    known: &KnownStep,
    task: Task,
) -> Result<ExpectedChange, AllocError> {
    let pool = dice.below(POOLS as u32) as usize;
    if !known.pools[pool] {
        return build(line, dice, task, pool);
    }
    match known.cell(dice) {
        Some(found) if dice.is_one_of(2) => free(line, dice, task, found),
        _ if task.0 > 0 && dice.is_one_of(8) => build(line, dice, task, pool),
        _ if dice.is_one_of(16) => {
            write!(line, "{task} CPOOL DELETE,CPID=P{pool}")?;
            Ok(ExpectedChange::Deletes(pool))
        }
        _ => {
            let place = dice.below(CELLS as u32) as usize;
            let form = GETS[dice.below(6) as usize];
            write!(line, "{task} CPOOL GET,{form}CPID=P{pool},CELL=C{place}")?;
            Ok(ExpectedChange::Takes(place, Cell { pool, addr: 0 }))
        }
    }
}

/// Writes a statement of a pool that is refused: there is none of the name or there is one, or the cell is none. It may also write a
/// BUILD that is granted.
pub fn refused_pool(
    line: &mut String,
    dice: &mut Dice,
    known: &KnownStep,
    task: Task,
) -> Result<ExpectedChange, AllocError> {
    let other = dice.below(POOLS as u32) as usize;
    let pool = if known.pools[0] { 0 } else { other };
    if !known.pools[pool] && dice.is_one_of(2) {
        return build(line, dice, task, pool);
    }
    if !known.pools[pool] {
        let (head, tail) = OF_NONE[dice.below(3) as usize];
        write!(line, "{task} {head}{pool}{tail}")?;
        return Ok(ExpectedChange::Nothing);
    }
    let (head, tail) = OF_ONE[dice.below(6) as usize];
    match tail {
        Some(tail) => write!(line, "{task} {head}{pool}{tail}")?,
        None => write!(line, "{task} {head}")?,
    }
    Ok(ExpectedChange::Nothing)
}
