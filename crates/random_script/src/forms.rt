//! Obtains and releases of one area, in all forms.

use crate::dice::Dice;
use crate::known::{AREAS, KnownArea, KnownStep, Task};
use crate::operands::{
    length, number, write_address, write_boundaries, write_location, write_number,
    write_page_or_doubleword,
};
use crate::requests::ExpectedChange;
use std::alloc::AllocError;
use std::fmt::Write;

/// A form: the texts before the length, between it and the area, and at the end.
type FormTexts = (&'static str, &'static str, &'static str);

/// The forms of one length that obtain below: the conditional one twice, then the others.
static FIXED: [FormTexts; 4] = [
    ("GETMAIN EC,LV=", ",A=", ""),
    ("GETMAIN EC,LV=", ",A=", ""),
    ("GETMAIN R,LV=", ",A=", ""),
    ("GETMAIN EU,LV=", ",A=", ""),
];

/// Those of one length that take LOC, STARTBDY and CONTBDY: two conditional ones, then two others.
static LOCATED: [FormTexts; 4] = [
    ("GETMAIN RC,LV=", ",A=", ""),
    ("STORAGE OBTAIN,LENGTH=", ",ADDR=", ",COND=YES"),
    ("GETMAIN RU,LV=", ",A=", ""),
    ("STORAGE OBTAIN,LENGTH=", ",ADDR=", ",COND=NO"),
];

/// Those of a variable length that obtain below, in the same order.
static VARIABLE: [FormTexts; 4] = [
    ("GETMAIN VC,LV=", ",A=", ""),
    ("GETMAIN VC,LV=", ",A=", ""),
    ("GETMAIN VU,LV=", ",A=", ""),
    ("GETMAIN VU,LV=", ",A=", ""),
];

/// Those of a variable length that take LOC, STARTBDY and CONTBDY, in the same order.
static LOCATED_VARIABLE: [FormTexts; 4] = [
    ("GETMAIN VRC,LV=", ",A=", ""),
    ("STORAGE OBTAIN,LENGTH=", ",ADDR=", ",COND=YES"),
    ("GETMAIN VRU,LV=", ",A=", ""),
    ("STORAGE OBTAIN,LENGTH=", ",ADDR=", ""),
];

/// The forms that release a length at an address.
static RELEASES: [FormTexts; 12] = [
    ("FREEMAIN R,LV=", ",A=", ""),
    ("FREEMAIN R,LV=", ",A=", ""),
    ("FREEMAIN R,LV=", ",A=", ""),
    ("FREEMAIN RC,LV=", ",A=", ""),
    ("FREEMAIN RU,LV=", ",A=", ""),
    ("FREEMAIN EC,LV=", ",A=", ""),
    ("FREEMAIN EC,LV=", ",A=", ""),
    ("FREEMAIN EU,LV=", ",A=", ""),
    ("FREEMAIN EU,LV=", ",A=", ""),
    ("STORAGE RELEASE,LENGTH=", ",ADDR=", ",COND=YES"),
    ("STORAGE RELEASE,LENGTH=", ",ADDR=", ",COND=NO"),
    ("STORAGE RELEASE,LENGTH=", ",ADDR=", ""),
];

/// The forms that release a whole subpool: the text before its number, and the text after it.
static WHOLE: [(&'static str, &'static str); 8] = [
    ("FREEMAIN R", ""),
    ("FREEMAIN RC", ""),
    ("FREEMAIN RU", ""),
    ("FREEMAIN RU", ""),
    ("STORAGE RELEASE", ""),
    ("STORAGE RELEASE", ""),
    ("STORAGE RELEASE", ",COND=YES"),
    ("STORAGE RELEASE", ",COND=NO"),
];

/// How an area will be obtained.
#[derive(Clone, Copy, Debug, PartialEq, Eq)]
pub enum Manner {
    /// In any form, mostly without boundaries.
    Plain,
    /// With boundaries, where the form takes them.
    Bounded,
}

// Returns a form for a task, mostly a conditional one for the job step task; and whether it takes LOC.
fn form(dice: &mut Dice, task: Task, varies: bool) -> (FormTexts, bool) {
    let chances = if task.0 == 0 { 6 } else { 2 };
    let half = if dice.is_one_of(chances) { 2 } else { 0 };
    let place = (half + dice.below(2)) as usize;
    let is_located = !dice.is_one_of(3);
    let words = match (varies, is_located) {
        (false, false) => FIXED[place],
        (false, true) => LOCATED[place],
        (true, false) => VARIABLE[place],
        (true, true) => LOCATED_VARIABLE[place],
    };
    (words, is_located)
}

// Writes the boundaries of an area, and where it may be.
fn write_place(
    line: &mut String,
    dice: &mut Dice,
    manner: Manner,
    is_located: bool,
) -> Result<(), AllocError> {
    let is_bounded = match manner {
        Manner::Plain => dice.is_one_of(6),
        Manner::Bounded => !dice.is_one_of(6),
    };
    if is_bounded && is_located && dice.is_one_of(2) {
        write_boundaries(line, dice)?;
    } else if is_bounded {
        write_page_or_doubleword(line, dice)?;
    }
    if is_located {
        write_location(line, dice)?;
    }
    Ok(())
}

/// Writes an obtain of an area, in any form.
pub fn obtain_area(
    line: &mut String,
    dice: &mut Dice,
    manner: Manner,
    area: KnownArea,
) -> Result<ExpectedChange, AllocError> {
    let place = dice.below(AREAS as u32) as usize;
    let KnownArea {
        task,
        number,
        len,
        ..
    } = area;
    let varies = dice.is_one_of(3);
    let ((head, middle, tail), is_located) = form(dice, task, varies);
    write!(line, "{task} {head}")?;
    if varies {
        let least = 1 + dice.below(len.max(1));
        write!(line, "({len},{least})")?;
    } else {
        write!(line, "{len}")?;
    }
    write!(line, "{middle}A{place}")?;
    write_number(line, dice, number)?;
    write_place(line, dice, manner, is_located)?;
    line.push_str(tail)?;
    Ok(ExpectedChange::Grants(place, area))
}

/// Returns an area that will be obtained.
pub fn new_area(dice: &mut Dice, task: Task) -> KnownArea {
    KnownArea {
        task,
        number: number(dice),
        len: length(dice),
        addr: 0,
    }
}

/// Writes a release of a number of bytes of an area from an offset on, in any form.
pub fn release_bytes(
    line: &mut String,
    dice: &mut Dice,
    found: (usize, KnownArea),
    offset: u32,
    len: u32,
) -> Result<ExpectedChange, AllocError> {
    let (place, KnownArea { task, number, .. }) = found;
    let (head, middle, tail) = RELEASES[dice.below(12) as usize];
    write!(line, "{task} {head}{len}{middle}")?;
    write_address(line, dice, found, offset)?;
    write_number(line, dice, number)?;
    line.push_str(tail)?;
    Ok(ExpectedChange::Releases(place))
}

/// Writes a release of an area, of a part of it, or of its name.
pub fn release_area(
    line: &mut String,
    dice: &mut Dice,
    found: (usize, KnownArea),
) -> Result<ExpectedChange, AllocError> {
    let (
        place,
        KnownArea {
            task,
            number,
            len,
            ..
        },
    ) = found;
    let kind = dice.below(6);
    if kind == 0 && len > 16 {
        return release_bytes(line, dice, found, 8, 8);
    }
    if kind < 4 {
        return release_bytes(line, dice, found, 0, len);
    }
    let form = if kind == 4 { "VC" } else { "VU" };
    write!(line, "{task} FREEMAIN {form},A=A{place}")?;
    write_number(line, dice, number)?;
    Ok(ExpectedChange::Releases(place))
}

/// Writes a release of a whole subpool of a task.
pub fn release_whole(
    line: &mut String,
    dice: &mut Dice,
    task: Task,
    number: u8,
) -> Result<ExpectedChange, AllocError> {
    let (head, tail) = WHOLE[dice.below(8) as usize];
    write!(line, "{task} {head}")?;
    write_number(line, dice, number)?;
    line.push_str(tail)?;
    Ok(ExpectedChange::Empties(task, number))
}

/// Writes a release of the whole subpool of an area that is known, or of a number.
pub fn release_some_subpool(
    line: &mut String,
    dice: &mut Dice,
    known: &KnownStep,
    task: Task,
) -> Result<ExpectedChange, AllocError> {
    match known.area(dice) {
        Some((_, area)) if area.number > 0 => release_whole(line, dice, area.task, area.number),
        Some(_) | None => {
            let number = 1 + dice.below(2) as u8;
            release_whole(line, dice, task, number)
        }
    }
}
