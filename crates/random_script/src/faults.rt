//! Lines with a fault.

use crate::dice::Dice;
use std::alloc::AllocError;

/// Lines with a fault, three for each of JS02 to JS08.
static FAULTY: [&str; 21] = [
    "JOB\tREPORT SP",
    "JOB REPORT SP \u{7f}",
    "* A COMMENT\t",
    " JOB REPORT SP",
    "JOB OBTAIN 8",
    "JOB GETMAIN XX,LV=8,A=A0",
    "JOB GETMAIN R,LV=X'8',A=A0",
    "JOB GETMAIN R,LV=8,A=A0,LOC=ANY",
    "JOB SHOW A0,",
    "JOB GETMAIN R,LV=8",
    "JOB FREEMAIN RC,LV=8",
    "JOB CPOOL BUILD,CPID=P0,CSIZE=8",
    "JOB GETMAIN R,LV=0,A=A0",
    "JOB GETMAIN VC,LV=(8,16),A=A0",
    "JOB ATTACH TASK=T1,GSPV=128",
    "JOB GETMAIN RC,LV=8,LV=8,A=A0",
    "JOB GETMAIN LC,LA=(8,8),A=(A0,A0)",
    "JOB ATTACH TASK=T1,SHSPL=(5,05)",
    "JOB GETMAIN RC,LV=8,A=A0,BNDRY=PAGE,STARTBDY=4",
    "JOB GETMAIN LC,LA=(8,8),A=(A0)",
    "JOB ATTACH TASK=T1,GSPV=1,SHSPV=1",
];

// Writes a line that is too long.
fn write_long_line(line: &mut String) -> Result<(), AllocError> {
    line.push_str("JOB REPORT SP ")?;
    for _ in 0..31 {
        line.push_str("LONGLINE")?;
    }
    Ok(())
}

/// Writes a line with one of the faults JS01 to JS08.
pub fn write_fault(line: &mut String, dice: &mut Dice) -> Result<(), AllocError> {
    if dice.is_one_of(8) {
        write_long_line(line)
    } else {
        line.push_str(FAULTY[dice.below(21) as usize])
    }
}
