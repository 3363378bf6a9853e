//! Writes the script as a program for the assembler.

ghost use Rattle.std.specs.Prelude.{◌≤◌, ◌⊎◌, IfOk, length};
ghost use Rattle.mvs_model.specs.Numbers.{most_script_bytes};
ghost use Rattle.mvsjob.specs.ModeResult.{EndsAtFault, IsPrinted};

use crate::ending::{CliError, ExitReason};
use crate::faulty::first_faulty;
use crate::front::front_of;
use crate::recorder::is_silent;
use crate::served::ModeResult;
use crate::through::Through;
use assembler_program::{ProgramFault, write_program};
use mvs_job::RunFault;
use mvs_model::watched::Watched;
use std::alloc::Global;
use std::io::Write;

/// Writes a script as a program for the assembler. It ends at a line with a fault. Of a script without a statement nothing is
/// written.
pub fn write_assembled<'a, W: Write>(
    alloc: Global,
    script: &'a [u8],
    writer: &mut Watched<W>,
) -> Result<ModeResult<'a>, CliError>
    requires { length script.now ≤ most_script_bytes }
    ensures { IfOk result (λ served. IsPrinted served ⊎ EndsAtFault script.now served) }
{
    if is_silent(script) {
        return Ok(ModeResult::of_fault(first_faulty(script, 1, true)));
    }
    let front = front_of(script);
    match write_program(alloc, Through::new(writer), front.text()) {
        Ok(true) if front.faulty.is_none() => Ok(ModeResult::of(ExitReason::Printed)),
        Ok(_) => Ok(ModeResult::of_fault(first_faulty(script, 1, true))),
        Err(ProgramFault::Memory) => Err(CliError::Job(RunFault::Memory)),
        Err(ProgramFault::Write) => Err(CliError::Job(RunFault::Write)),
    }
}
