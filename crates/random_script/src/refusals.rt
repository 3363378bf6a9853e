//! Statements that are refused in most states, each for a reason of its own.

use crate::dice::Dice;
use crate::forms::{Manner, new_area, obtain_area, release_bytes, release_whole};
use crate::known::{KnownArea, KnownStep, Task};
use crate::lists::refused_list;
use crate::operands::invalid_number;
use crate::pools::refused_pool;
use crate::requests::ExpectedChange;
use crate::subtasks::refused_task;
use std::alloc::AllocError;
use std::fmt::Write;

/// Statements that touch bytes outside of both regions.
static OUTSIDE: [&str; 4] = [
    "SHOW X'00000000',8",
    "PUT X'7FFFFFFF',X'FF'",
    "MOVE X'00005FFC',X'00006000',8",
    "MOVE X'00006000',X'7FFFFFF8',65536",
];

// Writes a release that is refused: its number is invalid, its address is not on a doubleword, or the storage is not held. If no
// area is known, it writes an obtain.
fn refused_release(
    line: &mut String,
    dice: &mut Dice,
    known: &KnownStep,
    task: Task,
) -> Result<ExpectedChange, AllocError> {
    let Some((place, area)) = known.live_area(dice) else {
        let area = new_area(dice, task);
        return obtain_area(line, dice, Manner::Plain, area);
    };
    match dice.below(6) {
        0 | 1 => {
            let number = invalid_number(dice);
            release_bytes(
                line,
                dice,
                (place, KnownArea { number, ..area }),
                0,
                area.len,
            )?;
        }
        2 => {
            let number = invalid_number(dice);
            release_whole(line, dice, task, number)?;
        }
        3 | 4 => {
            release_bytes(line, dice, (place, area), 4, 8)?;
        }
        _ => {
            release_bytes(line, dice, (place, area), 0, area.len.saturating_add(4096))?;
        }
    }
    Ok(ExpectedChange::Nothing)
}

// Writes an obtain that is refused: its number is invalid, or it is too long.
fn refused_obtain(
    line: &mut String,
    dice: &mut Dice,
    task: Task,
) -> Result<ExpectedChange, AllocError> {
    let area = new_area(dice, task);
    let refused = if dice.is_one_of(2) {
        KnownArea {
            number: invalid_number(dice),
            ..area
        }
    } else {
        KnownArea {
            len: 2_000_000_000,
            ..area
        }
    };
    obtain_area(line, dice, Manner::Plain, refused)
}

// Writes a statement of a task that is not active, or with a name that is not set.
fn not_executed(
    line: &mut String,
    dice: &mut Dice,
    task: Task,
) -> Result<ExpectedChange, AllocError> {
    match dice.below(6) {
        0..=2 => write!(line, "Z REPORT SP")?,
        3 => write!(line, "{task} WHERE NOTSET")?,
        4 => write!(line, "{task} SHOW NOTSET+8,8")?,
        _ => write!(line, "{task} FREEMAIN VC,A=NOTSET")?,
    }
    Ok(ExpectedChange::Nothing)
}

/// Writes a statement that is refused in most states.
pub fn refused(
    line: &mut String,
    dice: &mut Dice,
    known: &KnownStep,
    task: Task,
) -> Result<ExpectedChange, AllocError> {
    match dice.below(16) {
        0..=2 => refused_obtain(line, dice, task),
        3..=7 => refused_release(line, dice, known, task),
        8 => refused_list(line, dice, known, task),
        9 => release_whole(line, dice, task, 0),
        10 => {
            write!(line, "{task} {}", OUTSIDE[dice.below(4) as usize])?;
            Ok(ExpectedChange::Nothing)
        }
        11 | 15 => refused_task(line, dice, known, task),
        12 | 13 => refused_pool(line, dice, known, task),
        _ => not_executed(line, dice, task),
    }
}
