//! Obtains and releases of several areas by one request.

ghost use Rattle.std.specs.Prelude.{◌<◌};

use crate::dice::Dice;
use crate::known::{AREAS, KnownArea, KnownStep, Task};
use crate::operands::{
    invalid_number, length, number, write_address, write_number, write_page_or_doubleword,
};
use crate::requests::ExpectedChange;
use std::alloc::AllocError;
use std::fmt::Write;

/// The areas of a list: the place of the first, how many there are in the places from there on, and what they have in common.
#[derive(Clone, Copy, Debug)]
pub struct ListAreas {
    pub first: usize,
    pub count: usize,
    pub area: KnownArea,
}

/// Returns the place of a member.
pub fn place_of(first: usize, member: usize) -> usize
    ensures { result < 16 }
{
    first.wrapping_add(member) % AREAS
}

// Returns how many members a list has.
fn count(dice: &mut Dice) -> usize {
    if dice.is_one_of(24) {
        AREAS
    } else {
        1 + dice.below(4) as usize
    }
}

// Writes the lengths of new areas.
fn write_lengths(line: &mut String, dice: &mut Dice, count: usize) -> Result<(), AllocError> {
    let share = if count > 4 { 100 } else { 9000 };
    for member in 0..count {
        let separator = if member == 0 { "(" } else { "," };
        let len = length(dice).min(share);
        write!(line, "{separator}{len}")?;
    }
    line.push_str(")")
}

// Writes the names of areas.
fn write_names(line: &mut String, first: usize, count: usize) -> Result<(), AllocError> {
    for member in 0..count {
        let separator = if member == 0 { "(" } else { "," };
        write!(line, "{separator}A{}", place_of(first, member))?;
    }
    line.push_str(")")
}

/// Writes an obtain of a list for a task.
pub fn obtain_list(
    line: &mut String,
    dice: &mut Dice,
    task: Task,
) -> Result<ExpectedChange, AllocError> {
    let first = dice.below(AREAS as u32) as usize;
    let count = count(dice);
    let area = KnownArea {
        task,
        number: number(dice),
        len: 8,
        addr: 0,
    };
    let chances = if task.0 == 0 { 8 } else { 2 };
    let form = if dice.is_one_of(chances) { "LU" } else { "LC" };
    write!(line, "{task} GETMAIN {form},LA=")?;
    write_lengths(line, dice, count)?;
    line.push_str(",A=")?;
    write_names(line, first, count)?;
    write_number(line, dice, area.number)?;
    if dice.is_one_of(5) {
        write_page_or_doubleword(line, dice)?;
    }
    Ok(ExpectedChange::GrantsAll(ListAreas { first, count, area }))
}

// Returns how many areas from a place on belong together, at most four.
fn alike(known: &KnownStep, first: usize, area: KnownArea) -> u32 {
    let mut count = 0u32;
    for member in 0..4u32 {
        let found = known.areas[place_of(first, member as usize)];
        let is_alike = match found {
            Some(other) => other.task == area.task && other.number == area.number,
            None => false,
        };
        if is_alike && count == member {
            count = member + 1;
        }
    }
    count
}

// Writes the lengths of areas that are known.
fn write_known_lengths(
    line: &mut String,
    known: &KnownStep,
    first: usize,
    count: usize,
) -> Result<(), AllocError> {
    for member in 0..count {
        let separator = if member == 0 { "(" } else { "," };
        let len = known.areas[place_of(first, member)].map_or(8, |area| area.len);
        write!(line, "{separator}{len}")?;
    }
    line.push_str(")")
}

// Writes the addresses of areas that are known.
fn write_addresses(
    line: &mut String,
    dice: &mut Dice,
    known: &KnownStep,
    first: usize,
    count: usize,
) -> Result<(), AllocError> {
    for member in 0..count {
        line.push_str(if member == 0 { "(" } else { "," })?;
        let place = place_of(first, member);
        match known.areas[place] {
            Some(area) => write_address(line, dice, (place, area), 0)?,
            None => write!(line, "A{place}")?,
        }
    }
    line.push_str(")")
}

/// Writes a release of a list: an area and those after it that are of the same task and subpool number.
pub fn release_list(
    line: &mut String,
    dice: &mut Dice,
    known: &KnownStep,
    found: (usize, KnownArea),
) -> Result<ExpectedChange, AllocError> {
    let (first, area) = found;
    let most = alike(known, first, area);
    let count = 1 + dice.below(most.max(1)) as usize;
    let form = if dice.is_one_of(4) { "LU" } else { "LC" };
    write!(line, "{} FREEMAIN {form},LA=", area.task)?;
    write_known_lengths(line, known, first, count)?;
    line.push_str(",A=")?;
    write_addresses(line, dice, known, first, count)?;
    write_number(line, dice, area.number)?;
    Ok(ExpectedChange::ReleasesAll(ListAreas { first, count, area }))
}

/// Writes a list that is refused: its subpool number is invalid, it is too long, or it names one area twice.
pub fn refused_list(
    line: &mut String,
    dice: &mut Dice,
    known: &KnownStep,
    task: Task,
) -> Result<ExpectedChange, AllocError> {
    let form = if dice.is_one_of(2) { "LU" } else { "LC" };
    match dice.below(4) {
        0 => write!(
            line,
            "{task} GETMAIN {form},LA=(8,8),A=(A0,A1),SP={}",
            invalid_number(dice)
        )?,
        1 => write!(line, "{task} GETMAIN {form},LA=(8,99999999),A=(A0,A1)")?,
        2 => write!(
            line,
            "{task} FREEMAIN {form},LA=(8,8),A=(A0,A1),SP={}",
            invalid_number(dice)
        )?,
        _ => match known.area(dice) {
            Some((place, area)) => write!(
                line,
                "{task} FREEMAIN {form},LA=(8,8),A=(A{place},A{place}),SP={}",
                area.number
            )?,
            None => write!(line, "{task} FREEMAIN {form},LA=(8,8),A=(X'6000',X'6004')")?,
        },
    }
    Ok(ExpectedChange::Nothing)
}
