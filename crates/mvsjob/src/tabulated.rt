//! Runs the schedules of a script, and writes the answers that occur.

ghost use Rattle.std.specs.Prelude.{◌≡◌, ◌≤◌, IfOk, length};
ghost use Rattle.mvs_model.specs.Numbers.{most_script_bytes};
ghost use Rattle.mvsjob.specs.Tabulating.{IsTable, Tabulates};

use crate::ending::{CliError, ExitReason};
use crate::faulty::faulty_in;
use crate::options::{RunOutput, Settings};
use crate::served::ModeResult;
use line_text::write_all;
use mvs_job::RunFault;
use mvs_model::watched::Watched;
use schedules::{Explored, ScheduleError, explore, json_report, text_report, verdict_of};
use std::alloc::{AllocError, Global};
use std::io::Write;

// Returns the table of the schedules of a script in the form that the settings ask for.
fn table_of(alloc: Global, output: RunOutput, explored: &Explored) -> Result<Vec<u8>, AllocError>
    ensures { IfOk result (λ table. IsTable output explored.now table.items) }
{
    match output {
        RunOutput::Json => json_report(alloc, explored),
        RunOutput::Replies | RunOutput::Page | RunOutput::PageFile => text_report(alloc, explored),
    }
}

/// Runs the schedules of a script, and writes a table of the answers that occur. A script with a fault, or without a statement, has
/// none: that line is to be reported.
pub fn write_schedules<'a, W: Write>(
    alloc: Global,
    settings: &Settings<'_>,
    script: &'a [u8],
    writer: &mut Watched<W>,
) -> Result<ModeResult<'a>, CliError>
    requires { length script.now ≤ most_script_bytes }
    ensures { Tabulates settings.now.output settings.now.ignores_addresses settings.now.most
        (W.contents writer.old.inner) (W.contents writer.new.inner) script.now result }
{
    let explored = match explore(
        alloc,
        script,
        settings.placement,
        settings.ignores_addresses,
        settings.most,
    ) {
        Ok(explored) => explored,
        Err(ScheduleError::Memory) => return Err(CliError::Job(RunFault::Memory)),
        Err(ScheduleError::Fault { .. }) => return Ok(ModeResult::of_fault(faulty_in(script))),
    };
    if explored.steps.is_empty() {
        return Ok(ModeResult::of_fault(faulty_in(script)));
    }
    let table = table_of(alloc, settings.output, &explored)?;
    write_all(writer, &table)?;
    Ok(ModeResult::of(ExitReason::Explored(verdict_of(&explored.steps))))
}
