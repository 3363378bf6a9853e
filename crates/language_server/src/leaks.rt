//! The reports of a run about areas that were never released.

ghost use Rattle.std.specs.Prelude.{◌≡◌, ◌≤◌, ◌++◌, [], Err, IfErr, IfOk, MatchResult, OnOk, Some, length};
ghost use Rattle.mvs_model.specs.Lines.{lines_of};
ghost use Rattle.mvs_job.specs.Consuming.{LeavesText};
ghost use Rattle.mvs_job.specs.Printed.{printed};
ghost use Rattle.mvs_job.specs.Trace.{Entry};
ghost use Rattle.area_history.specs.LeakTexts.{report_text};
ghost use Rattle.area_history.specs.Reporting.{IsReported, with_leaks};
ghost use Rattle.std.specs.Prelude.{List};
ghost use Rattle.language_server.specs.Explanations.{starred};
ghost use Rattle.language_server.specs.Leaks.{AreLeaks, report_line, report_lines};

use crate::explanations::starred;
use crate::limited::Limited;
use crate::names::{has_bytes, split_line};
use crate::transcript::MOST_PRINTED;
use area_history::{LeakOutcome, TextReport, run_with_report};
use mvs_job::{Printer, Stop};
use mvs_model::want::Placement;
use mvs_model::watched::Watched;
use std::alloc::{AllocError, Global};

// Appends a printed line, if it begins with an asterisk.
fn push_report_line(reports: &mut Vec<u8>, line: &[u8]) -> Result<(), AllocError>
    ensures { OnOk result
        (reports.new.items ≡ reports.old.items ++ report_line line.now (starred line.now)) }
{
    if starred(line).is_some() {
        reports.extend_from_slice(line)?;
        reports.push(b'\n')?;
    }
    Ok(())
}

// Returns the lines of reports in what a run printed.
fn reports_in(alloc: Global, printed: &[u8]) -> Result<Vec<u8>, AllocError>
    ensures { IfOk result
        (λ reports. reports.items ≡ report_lines (lines_of printed.now)) }
{
    let mut reports = Vec::new(alloc);
    let mut rest = printed;
    'lines: while has_bytes(rest) {
        let (line, more) = split_line(rest);
        push_report_line(&mut reports, line)?;
        match more {
            Some(next) => rest = next,
            None => return Ok(reports),
        }
    }
    Ok(reports)
}

// Runs a script, and prints it with a report at the end of each step.
fn print_reports(
    alloc: Global,
    script: &[u8],
    writer: &mut Watched<Limited>,
) -> Result<LeakOutcome, Stop>
    requires { length script.now ≤ 16777215 }
    ensures run { IfOk result
        (λ end. (entries : List Entry)
        × IsReported report_text printed (Some writer.old.inner.bytes.items)
        (Some writer.new.inner.bytes.items) script.now end.outcome end.has_leaked entries) }
    ensures cut { IfErr result
        (λ stop. LeavesText (with_leaks report_text printed) (Some writer.old.inner.bytes.items)
        (Some writer.new.inner.bytes.items) script.now (Err stop)) }
{
    run_with_report(
        alloc,
        script,
        writer,
        Placement::Low,
        &mut Printer,
        TextReport,
    )
}

// Returns the reports in what a run printed that ended so: none, if it printed as much as there may be.
fn reports_of(
    alloc: Global,
    printed: &[u8],
    ended: Result<LeakOutcome, Stop>,
    most: usize,
) -> Result<Vec<u8>, AllocError>
    ensures { IfOk result
        (λ leaks. MatchResult ended
        (λ _. leaks.items ≡ report_lines (lines_of printed.now))
        (λ stop. (stop ≡ Stop.Write) × (length printed.now ≡ most) × (leaks.items ≡ []))) }
{
    match ended {
        Ok(_) => reports_in(alloc, printed),
        Err(Stop::Write) if printed.len() == most => Ok(Vec::new(alloc)),
        Err(Stop::Write | Stop::Memory) => Err(AllocError),
    }
}

/// Returns the lines about areas that a run of a script never released, and nothing if it prints too much.
pub fn leak_reports(alloc: Global, script: &[u8]) -> Result<Vec<u8>, AllocError>
    requires { length script.now ≤ 16777215 }
    ensures { IfOk result (λ leaks. AreLeaks script.now leaks.items) }
{
    let mut writer = Watched::new(Limited::new(alloc, MOST_PRINTED));
    let ended = print_reports(alloc, script, &mut writer);
    let printed = writer.into_inner().into_bytes();
    let leaks = reports_of(alloc, &printed, ended, MOST_PRINTED)?;
    Ok(leaks)
}
