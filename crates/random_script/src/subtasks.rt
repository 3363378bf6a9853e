//! Statements that attach tasks and end them.

use crate::dice::Dice;
use crate::known::{KnownStep, Task};
use crate::requests::ExpectedChange;
use std::alloc::AllocError;
use std::fmt::Write;

/// The subpools that a subtask is given and shares: each text with the first number that is shared, or 0.
static SUBPOOLS: [(&'static str, u8); 12] = [
    ("", 0),
    ("", 0),
    (",GSPV=1", 0),
    (",GSPV=127", 0),
    (",GSPL=(1,2,10)", 0),
    (",GSPL=(2)", 0),
    (",SHSPV=1", 1),
    (",SHSPV=2", 2),
    (",SHSPL=(1,2)", 1),
    (",SHSPL=(10,127)", 10),
    (",GSPV=2,SHSPV=10", 10),
    (",GSPL=(1,127),SHSPL=(2,10)", 2),
];

/// The other operands of ATTACH.
static OTHERS: [&str; 8] = [
    "",
    "",
    "",
    ",SZERO=YES",
    ",SZERO=NO",
    ",RES=BELOW",
    ",RES=ABOVE",
    ",SZERO=NO,RES=ABOVE",
];

/// Writes an ATTACH of a subtask with all its operands.
pub fn attach_any(
    line: &mut String,
    dice: &mut Dice,
    task: Task,
    subtask: Task,
) -> Result<ExpectedChange, AllocError> {
    let (subpools, shared) = SUBPOOLS[dice.below(12) as usize];
    let others = OTHERS[dice.below(8) as usize];
    write!(line, "{task} ATTACH TASK={subtask}{subpools}{others}")?;
    Ok(ExpectedChange::Shares(subtask, shared))
}

/// Writes an ATTACH of a task of a new name.
pub fn attach_one_more(
    line: &mut String,
    task: Task,
    count: u32,
) -> Result<ExpectedChange, AllocError> {
    write!(line, "{task} ATTACH TASK=U{count}")?;
    Ok(ExpectedChange::OneMore)
}

/// Writes a statement that ends a task; of the job step task mostly another one.
pub fn end(line: &mut String, dice: &mut Dice, task: Task) -> Result<ExpectedChange, AllocError> {
    if task.0 == 0 && !dice.is_one_of(8) {
        write!(line, "{task} REPORT SP")?;
    } else if dice.is_one_of(3) {
        write!(line, "{task} ABEND {}", dice.below(4096))?;
    } else {
        write!(line, "{task} RETURN")?;
    }
    Ok(ExpectedChange::Nothing)
}

/// Writes a statement about a task that is refused: its name is in use, it has subtasks, or it gives what it shares.
pub fn refused_task(
    line: &mut String,
    dice: &mut Dice,
    known: &KnownStep,
    task: Task,
) -> Result<ExpectedChange, AllocError> {
    match known.sharing(dice) {
        Some((sharer, number)) => {
            write!(line, "{sharer} ATTACH TASK=V,GSPV={number}")?;
        }
        None if dice.is_one_of(2) => write!(line, "JOB RETURN")?,
        None => write!(line, "JOB ATTACH TASK={task}")?,
    }
    Ok(ExpectedChange::Nothing)
}
