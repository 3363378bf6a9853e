//! Operands of the statements of a random script, as text.

use crate::dice::Dice;
use crate::known::KnownArea;
use std::alloc::AllocError;
use std::fmt::Write;

/// The subpool numbers of areas that are obtained.
static NUMBERS: [u8; 8] = [0, 0, 1, 2, 10, 127, 131, 132];

/// Numbers of no subpool.
static INVALID_NUMBERS: [u8; 4] = [128, 130, 133, 255];

/// Lengths of areas, in bytes.
static LENGTHS: [u32; 16] = [
    1, 8, 8, 20, 24, 64, 100, 256, 400, 1000, 2000, 2048, 4096, 4096, 5000, 8192,
];

static LOCATIONS: [&str; 8] = [
    "",
    "",
    "",
    ",LOC=BELOW",
    ",LOC=24",
    ",LOC=ANY",
    ",LOC=31",
    ",LOC=RES",
];

static STARTS: [u8; 8] = [3, 4, 5, 8, 10, 12, 12, 31];

static LIMITS: [u8; 8] = [3, 8, 11, 12, 12, 12, 13, 31];

/// Returns a number of a subpool.
pub fn number(dice: &mut Dice) -> u8 {
    NUMBERS[dice.below(8) as usize]
}

/// Returns a number of no subpool.
pub fn invalid_number(dice: &mut Dice) -> u8 {
    INVALID_NUMBERS[dice.below(4) as usize]
}

/// Returns a length of an area.
pub fn length(dice: &mut Dice) -> u32 {
    LENGTHS[dice.below(16) as usize]
}

/// Writes a subpool number; subpool 0 mostly by leaving it out.
pub fn write_number(line: &mut String, dice: &mut Dice, number: u8) -> Result<(), AllocError> {
    if number > 0 || dice.is_one_of(3) {
        write!(line, ",SP={number}")?;
    }
    Ok(())
}

/// Writes where an area may be, or nothing.
pub fn write_location(line: &mut String, dice: &mut Dice) -> Result<(), AllocError> {
    line.push_str(LOCATIONS[dice.below(8) as usize])
}

/// Writes BNDRY.
pub fn write_page_or_doubleword(line: &mut String, dice: &mut Dice) -> Result<(), AllocError> {
    line.push_str(if dice.is_one_of(2) {
        ",BNDRY=DBLWD"
    } else {
        ",BNDRY=PAGE"
    })
}

/// Writes STARTBDY, CONTBDY, or both.
pub fn write_boundaries(line: &mut String, dice: &mut Dice) -> Result<(), AllocError> {
    let kind = dice.below(3);
    if kind < 2 {
        write!(line, ",STARTBDY={}", STARTS[dice.below(8) as usize])?;
    }
    if kind > 0 {
        write!(line, ",CONTBDY={}", LIMITS[dice.below(8) as usize])?;
    }
    Ok(())
}

/// Writes an address in an area: as its name and an offset, or as a number.
pub fn write_address(
    line: &mut String,
    dice: &mut Dice,
    found: (usize, KnownArea),
    offset: u32,
) -> Result<(), AllocError> {
    let (place, area) = found;
    if area.addr > 0 && dice.is_one_of(4) {
        write!(line, "X'{:X}'", area.addr.wrapping_add(offset))?;
    } else if offset > 0 || dice.is_one_of(8) {
        write!(line, "A{place}+{offset}")?;
    } else {
        write!(line, "A{place}")?;
    }
    Ok(())
}
