//! The statements of a random script, as lines.

use crate::dice::Dice;
use crate::known::{AREAS, CELLS, Cell, KnownArea, KnownStep, POOLS, Task};
use crate::lists::ListAreas;
use std::alloc::AllocError;
use std::fmt::Write;

/// What a statement changes, where it is served.
#[derive(Clone, Copy, Debug)]
pub enum ExpectedChange {
    Nothing,
    Obtains(usize, KnownArea),
    Releases(usize),
    Builds(usize),
    Deletes(usize),
    Takes(usize, Cell),
    Gives(usize),
    Attaches(Task),
    /// An area is obtained, whose address and length are looked up.
    Grants(usize, KnownArea),
    GrantsAll(ListAreas),
    ReleasesAll(ListAreas),
    Empties(Task, u8),
    /// A task is attached that shares this number, or none if it is 0.
    Shares(Task, u8),
    /// A task or a pool of a new name is there.
    OneMore,
}

/// The subpool numbers that a script names most.
static NUMBERS: [u8; 6] = [0, 0, 1, 2, 10, 131];

/// Lengths of areas, in bytes.
static LENGTHS: [u32; 8] = [1, 8, 20, 64, 100, 400, 1000, 4096];

/// The forms of an obtain of one length: the texts before the length, between it and the area, and at the end.
static OBTAINS: [(&'static str, &'static str, &'static str); 6] = [
    ("GETMAIN R,LV=", ",A=", ""),
    ("GETMAIN EC,LV=", ",A=", ""),
    ("GETMAIN RU,LV=", ",A=", ",LOC=ANY"),
    ("STORAGE OBTAIN,LENGTH=", ",ADDR=", ",COND=YES"),
    ("GETMAIN RC,LV=", ",A=", ""),
    ("GETMAIN RC,LV=", ",A=", ""),
];

/// The forms of a release of one length: the texts before the length, and between it and the area.
static RELEASES: [(&'static str, &'static str); 3] = [
    ("FREEMAIN RU,LV=", ",A="),
    ("FREEMAIN EC,LV=", ",A="),
    ("STORAGE RELEASE,LENGTH=", ",ADDR="),
];

/// The subpools that a subtask is given and shares, and its residence.
static ATTACHED: [&str; 5] = [
    ",GSPV=1",
    ",SHSPL=(1,2)",
    ",GSPV=2,SHSPV=10,SZERO=NO",
    ",SZERO=NO,RES=ABOVE",
    "",
];

fn number(dice: &mut Dice) -> u8 {
    NUMBERS[dice.below(6) as usize]
}

fn length(dice: &mut Dice) -> u32 {
    LENGTHS[dice.below(8) as usize]
}

/// Writes an obtain of one length, in one of its forms.
pub fn obtain(
    line: &mut String,
    dice: &mut Dice,
    task: Task,
) -> Result<ExpectedChange, AllocError> {
    let place = dice.below(AREAS as u32) as usize;
    let area = KnownArea {
        task,
        number: number(dice),
        len: length(dice),
        addr: 0,
    };
    let (number, len) = (area.number, area.len);
    let (head, middle, tail) = OBTAINS[dice.below(6) as usize];
    write!(line, "{task} {head}{len}{middle}A{place},SP={number}{tail}")?;
    Ok(ExpectedChange::Obtains(place, area))
}

/// Writes an obtain of a variable length.
pub fn obtain_some(
    line: &mut String,
    dice: &mut Dice,
    task: Task,
) -> Result<ExpectedChange, AllocError> {
    let place = dice.below(AREAS as u32) as usize;
    let area = KnownArea {
        task,
        number: number(dice),
        len: length(dice),
        addr: 0,
    };
    let (number, len) = (area.number, area.len);
    write!(
        line,
        "{task} GETMAIN VRC,LV=({len},1),A=A{place},SP={number}"
    )?;
    Ok(ExpectedChange::Obtains(place, area))
}

/// Writes a release of an area, by a task that most likely means its subpool.
pub fn release(
    line: &mut String,
    dice: &mut Dice,
    known: &KnownStep,
    found: (usize, KnownArea),
) -> Result<ExpectedChange, AllocError> {
    let (
        place,
        KnownArea {
            task,
            number,
            len,
            ..
        },
    ) = found;
    let task = if dice.is_one_of(8) {
        known.task(dice)
    } else {
        task
    };
    match RELEASES.get(dice.below(4) as usize) {
        Some((head, middle)) => write!(line, "{task} {head}{len}{middle}A{place},SP={number}")?,
        None => write!(line, "{task} FREEMAIN VC,A=A{place},SP={number}")?,
    }
    Ok(ExpectedChange::Releases(place))
}

/// Writes a statement that touches the bytes of an area.
pub fn touch(
    line: &mut String,
    dice: &mut Dice,
    task: Task,
    found: (usize, KnownArea),
) -> Result<ExpectedChange, AllocError> {
    let (place, area) = found;
    let len = if area.len > 64 { 64 } else { area.len };
    match dice.below(3) {
        0 => write!(line, "{task} SHOW A{place},{len}")?,
        1 => write!(line, "{task} PUT A{place},X'{:02X}'", dice.below(256))?,
        _ => write!(line, "{task} MOVE A{place},A{place},{len}")?,
    }
    Ok(ExpectedChange::Nothing)
}

// Writes a BUILD of a pool.
fn build(
    line: &mut String,
    dice: &mut Dice,
    task: Task,
    pool: usize,
) -> Result<ExpectedChange, AllocError> {
    let size = 4 * (1 + dice.below(30));
    let cells = 1 + dice.below(6);
    write!(
        line,
        "{task} CPOOL BUILD,CPID=P{pool},CSIZE={size},PCELLCT={cells}"
    )?;
    Ok(ExpectedChange::Builds(pool))
}

// Writes a GET of a cell of a pool.
fn get(
    line: &mut String,
    dice: &mut Dice,
    task: Task,
    pool: usize,
) -> Result<ExpectedChange, AllocError> {
    let place = dice.below(CELLS as u32) as usize;
    let form = if dice.is_one_of(3) { "C," } else { "" };
    write!(line, "{task} CPOOL GET,{form}CPID=P{pool},CELL=C{place}")?;
    Ok(ExpectedChange::Takes(place, Cell { pool, addr: 0 }))
}

/// Writes a statement of a cell pool.
pub fn pool(
    line: &mut String,
    dice: &mut Dice,
    known: &KnownStep,
    task: Task,
) -> Result<ExpectedChange, AllocError> {
    let pool = dice.below(POOLS as u32) as usize;
    if !known.pools[pool] {
        return build(line, dice, task, pool);
    }
    match known.cell(dice) {
        Some((place, cell)) if dice.is_one_of(2) => {
            write!(line, "{task} CPOOL FREE,CPID=P{},CELL=C{place}", cell.pool)?;
            Ok(ExpectedChange::Gives(place))
        }
        _ if dice.is_one_of(30) => {
            write!(line, "{task} CPOOL DELETE,CPID=P{pool}")?;
            Ok(ExpectedChange::Deletes(pool))
        }
        _ => get(line, dice, task, pool),
    }
}

/// Writes an ATTACH, with numbers to give and to share.
pub fn attach(
    line: &mut String,
    dice: &mut Dice,
    task: Task,
    subtask: Task,
) -> Result<ExpectedChange, AllocError> {
    let operands = ATTACHED[dice.below(5) as usize];
    write!(line, "{task} ATTACH TASK={subtask}{operands}")?;
    Ok(ExpectedChange::Attaches(subtask))
}
