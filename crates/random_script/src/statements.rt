//! The statements of a script that reaches everything, by their kinds.

use crate::dice::Dice;
use crate::forms::{Manner, new_area, obtain_area, release_area, release_some_subpool};
use crate::known::{CELLS, KnownArea, KnownStep, Task};
use crate::lists::{obtain_list, release_list};
use crate::operands::write_address;
use crate::pools::{any_pool, build_one_more};
use crate::refusals::refused;
use crate::requests::ExpectedChange;
use crate::subtasks::{attach_any, attach_one_more, end};
use crate::theme::StatementKind;
use std::alloc::AllocError;
use std::fmt::Write;

static FILLS: [&str; 4] = ["", "", ",FILL=FF", ",FILL=A5"];

static RESIDENCES: [&str; 4] = ["", "", ",RES=BELOW", ",RES=ABOVE"];

/// Writes the REGION statement of a step.
pub fn write_region(line: &mut String, dice: &mut Dice) -> Result<(), AllocError> {
    write!(line, "JOB REGION BELOW={}", 2 + dice.below(6))?;
    if !dice.is_one_of(4) {
        write!(line, ",ABOVE={}", dice.below(5))?;
    }
    line.push_str(FILLS[dice.below(4) as usize])?;
    line.push_str(RESIDENCES[dice.below(4) as usize])
}

// Writes PUT, SHOW or MOVE of bytes of an area, which it has in most cases.
fn touch_area(
    line: &mut String,
    dice: &mut Dice,
    task: Task,
    found: (usize, KnownArea),
) -> Result<(), AllocError> {
    let (_, area) = found;
    let offset = if area.len > 64 { 8 * dice.below(4) } else { 0 };
    let most = if dice.is_one_of(16) {
        48
    } else {
        area.len.min(40)
    };
    let len = 1 + dice.below(most.max(1));
    match dice.below(4) {
        0 => {
            write!(line, "{task} PUT ")?;
            write_address(line, dice, found, offset)?;
            write!(line, ",X'{:02X}'", dice.below(256))
        }
        1 => {
            write!(line, "{task} MOVE ")?;
            let (to, from) = if dice.is_one_of(2) {
                (offset, 0)
            } else {
                (0, offset)
            };
            write_address(line, dice, found, to)?;
            line.push_str(",")?;
            write_address(line, dice, found, from)?;
            write!(line, ",{len}")
        }
        _ => {
            write!(line, "{task} SHOW ")?;
            write_address(line, dice, found, offset)?;
            write!(line, ",{len}")
        }
    }
}

// Writes PUT, SHOW or MOVE of an area, or REPORT SP if none is known.
fn touch_some(
    line: &mut String,
    dice: &mut Dice,
    known: &KnownStep,
    task: Task,
) -> Result<(), AllocError> {
    match known.live_area(dice) {
        Some(found) => touch_area(line, dice, task, found),
        None => write!(line, "{task} REPORT SP"),
    }
}

// Writes WHERE, mostly of a name that is set.
fn write_where(
    line: &mut String,
    dice: &mut Dice,
    known: &KnownStep,
    task: Task,
) -> Result<(), AllocError> {
    match known.area(dice) {
        Some((place, _)) => write!(line, "{task} WHERE A{place}"),
        None => write!(line, "{task} WHERE C{}", dice.below(CELLS as u32)),
    }
}

// Writes a statement that is refused in most states; of the job step task mostly an ATTACH or an obtain, so that its step lasts.
fn refused_some(
    line: &mut String,
    dice: &mut Dice,
    known: &KnownStep,
    task: Task,
) -> Result<ExpectedChange, AllocError> {
    if task.0 > 0 || dice.is_one_of(2) {
        return refused(line, dice, known, task);
    }
    match known.new_task(dice) {
        Some(subtask) => attach_any(line, dice, task, subtask),
        None => obtain_plain(line, dice, task),
    }
}

// Writes an ATTACH, or the end of a task if all names are in use.
fn attach_some(
    line: &mut String,
    dice: &mut Dice,
    known: &KnownStep,
    task: Task,
) -> Result<ExpectedChange, AllocError> {
    match known.new_task(dice) {
        Some(subtask) => attach_any(line, dice, task, subtask),
        None => end(line, dice, task),
    }
}

// Writes a plain obtain.
fn obtain_plain(
    line: &mut String,
    dice: &mut Dice,
    task: Task,
) -> Result<ExpectedChange, AllocError> {
    let area = new_area(dice, task);
    obtain_area(line, dice, Manner::Plain, area)
}

// Writes a release of an area, or an obtain if none is known.
fn release_some(
    line: &mut String,
    dice: &mut Dice,
    known: &KnownStep,
    task: Task,
) -> Result<ExpectedChange, AllocError> {
    match known.live_area(dice) {
        Some(found) => release_area(line, dice, found),
        None => obtain_plain(line, dice, task),
    }
}

// Writes a release of several areas, or an obtain of some if none is known.
fn release_several(
    line: &mut String,
    dice: &mut Dice,
    known: &KnownStep,
    task: Task,
) -> Result<ExpectedChange, AllocError> {
    match known.live_area(dice) {
        Some(found) => release_list(line, dice, known, found),
        None => obtain_list(line, dice, task),
    }
}

// Writes a statement that changes nothing.
fn read_only(
    line: &mut String,
    dice: &mut Dice,
    known: &KnownStep,
    task: Task,
    kind: StatementKind,
) -> Result<ExpectedChange, AllocError> {
    if kind == StatementKind::Touch {
        touch_some(line, dice, known, task)?;
    } else if kind == StatementKind::Where {
        write_where(line, dice, known, task)?;
    } else if kind == StatementKind::Map {
        write!(line, "{task} REPORT MAP")?;
    } else {
        write!(line, "{task} REPORT SP")?;
    }
    Ok(ExpectedChange::Nothing)
}

/// Writes a statement of a kind, and returns what it changes where it is granted.
pub fn statement(
    line: &mut String,
    dice: &mut Dice,
    known: &KnownStep,
    kind: StatementKind,
) -> Result<ExpectedChange, AllocError> {
    let task = known.task(dice);
    match kind {
        StatementKind::Obtain => obtain_plain(line, dice, task),
        StatementKind::ObtainWithin => {
            let area = new_area(dice, task);
            obtain_area(line, dice, Manner::Bounded, area)
        }
        StatementKind::ObtainList => obtain_list(line, dice, task),
        StatementKind::Release => release_some(line, dice, known, task),
        StatementKind::ReleaseList => release_several(line, dice, known, task),
        StatementKind::ReleaseWhole => release_some_subpool(line, dice, known, task),
        StatementKind::Pool => any_pool(line, dice, known, task),
        StatementKind::Attach => attach_some(line, dice, known, task),
        StatementKind::End => end(line, dice, task),
        StatementKind::Touch
        | StatementKind::Where
        | StatementKind::Subpools
        | StatementKind::Map => { read_only(line, dice, known, task, kind) }
        StatementKind::Refused => refused_some(line, dice, known, task),
        StatementKind::OneMoreTask => attach_one_more(line, task, known.more),
        StatementKind::OneMorePool => build_one_more(line, task, known.more),
    }
}
