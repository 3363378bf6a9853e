//! Compares the answers of a script with those of its run, leaves them out, or puts questions in.

ghost use Rattle.std.specs.Prelude.{◌≡◌, ◌≤◌, IfOk, length};
ghost use Rattle.mvs_model.specs.Numbers.{most_script_bytes};
ghost use Rattle.mvs_model.specs.Runs.{IsPrinting};
ghost use Rattle.mvsjob.specs.Checking.{Checks, IsReported, checked_ending, hides_fault, line_of};
ghost use Rattle.mvsjob.specs.ModeResult.{Asks, Blanks, HasNoForeign};

use crate::ending::{CliError, ExitReason};
use crate::faulty::FaultyLine;
use crate::front::front_of;
use crate::options::Settings;
use crate::queries::write_with_queries;
use crate::served::{ModeResult, fault_of};
use expected_answers::{Counts, report_answers, statement_at, statements, write_blank};
use line_text::write_all;
use mvs_job::{Printer, RunFault, Stop, run_lines};
use mvs_model::outcome::Outcome;
use mvs_model::want::Placement;
use mvs_model::watched::Watched;
use std::alloc::Global;
use std::io::Write;

// Runs a script, and keeps what it prints.
fn printing_of(alloc: Global, place: Placement, script: &[u8]) -> (Result<Outcome, Stop>, Vec<u8>)
    requires { length script.now ≤ most_script_bytes }
    ensures { IfOk result.0 (λ outcome. IsPrinting script.now result.1.items outcome) }
{
    let mut writer = Watched::new(Vec::new(alloc));
    let ran = run_lines(alloc, script, &mut writer, place, &mut Printer);
    (ran, writer.into_inner())
}

// Returns a faulty line of the statements of a script as a line of the script.
fn in_script<'a>(script: &'a [u8], faulty: &FaultyLine<'_>) -> FaultyLine<'a>
    ensures number { result.number ≡ faulty.now.number }
    ensures fault { result.fault ≡ faulty.now.fault }
{
    FaultyLine {
        number: faulty.number,
        line: statement_at(script, faulty.number),
        fault: faulty.fault,
    }
}

// Returns how a check ends, by its counts and the line whose fault ended the run.
fn ending_of(counts: &Counts, faulty: &Option<FaultyLine<'_>>) -> ExitReason
    ensures { result ≡ checked_ending counts.now (line_of faulty.now) }
{
    if !counts.are_right() {
        return ExitReason::Checked { differs: true };
    }
    match faulty {
        Some(faulty) if faulty.number > counts.last => ExitReason::Ran(Outcome::ScriptFault),
        Some(_) | None => ExitReason::Checked { differs: false },
    }
}

// Returns whether the fault of a line is not reported: the script has an answer for it, and the report hides what the run printed, or
// some answer is missing.
fn hides_fault(is_hidden: bool, counts: &Counts, line_number: u32) -> bool
    ensures { result ≡ hides_fault is_hidden counts.now line_number }
{
    (is_hidden || counts.missing != 0) && line_number <= counts.last
}

// Returns the line to report, if there is one.
fn reported<'a>(
    script: &'a [u8],
    is_hidden: bool,
    counts: &Counts,
    faulty: &Option<FaultyLine<'_>>,
) -> Option<FaultyLine<'a>>
    ensures { IsReported is_hidden counts.now faulty.now result }
{
    let faulty = faulty.as_ref()?;
    if hides_fault(is_hidden, counts, faulty.number) {
        return None;
    }
    Some(in_script(script, faulty))
}

/// Runs a script, and reports which of the answers that it expects are those of the run. A script that ends with a fault that it does
/// not expect ends the program as a run does.
pub fn check_answers<'a, W: Write>(
    alloc: Global,
    settings: &Settings<'_>,
    script: &'a [u8],
    writer: &mut Watched<W>,
) -> Result<ModeResult<'a>, CliError>
    requires { length script.now ≤ most_script_bytes }
    ensures { Checks (W.contents writer.old.inner) (W.contents writer.new.inner) settings.now.form
        settings.now.file.now script.now result }
{
    let run = statements(alloc, script).map_err(|_| RunFault::Memory)?;
    let (ran, printed) = printing_of(alloc, settings.placement, &run);
    // A vector that accepts no byte has no memory for it.
    let outcome = ran.map_err(|_| RunFault::Memory)?;
    let report = report_answers(alloc, settings.form, settings.file, script, &printed).map_err(
        |_| RunFault::Memory,
    )?;
    write_all(writer, &report.text)?;
    let faulty = fault_of(&run, outcome);
    Ok(ModeResult {
        ending: ending_of(&report.counts, &faulty),
        faulty: reported(script, settings.form.is_hidden, &report.counts, &faulty),
    })
}

/// Writes a script without its answers. It ends at a byte that no script may have.
pub fn write_blanks<'a, W: Write>(
    script: &'a [u8],
    writer: &mut Watched<W>,
) -> Result<ModeResult<'a>, CliError>
    ensures { HasNoForeign script.now
        → Blanks (W.contents writer.old.inner) (W.contents writer.new.inner) script.now result }
{
    let front = front_of(script);
    write_blank(writer, front.bytes)?;
    Ok(ModeResult::of_front(front.faulty))
}

/// Writes a script with a WHERE for each of its areas. It ends at an invalid byte.
pub fn write_questions<'a, W: Write>(
    script: &'a [u8],
    writer: &mut Watched<W>,
) -> Result<ModeResult<'a>, CliError>
    ensures { HasNoForeign script.now
        → Asks (W.contents writer.old.inner) (W.contents writer.new.inner) script.now result }
{
    let front = front_of(script);
    write_with_queries(writer, front.bytes)?;
    Ok(ModeResult::of_front(front.faulty))
}
