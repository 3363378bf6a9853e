//! Runs a script with a report of leaks at the end of each step.

ghost use Rattle.std.specs.Prelude.{◌≡◌, ◌≤◌, ◌&&◌, [], Err, IfErr, IfOk, IsErrOf, List, OnOk, length, true};
ghost use Rattle.std.specs.List.{list_all};
ghost use Rattle.mvs_model.specs.Numbers.{most_script_bytes};
ghost use Rattle.mvs_job.specs.Consuming.{LeavesText};
ghost use Rattle.mvs_job.specs.Strict.{Observes, is_of_served};
ghost use Rattle.mvs_job.specs.Trace.{Entry, events_of};
ghost use Rattle.area_history.specs.Reporting.{IsReported, with_leaks};

use crate::format::ReportFormat;
use crate::reporter::Reporter;
use mvs_job::{Consumer, SkipObserver, Stop, Strict, run_lines};
use mvs_model::outcome::Outcome;
use mvs_model::want::Placement;
use mvs_model::watched::Watched;
use std::alloc::Global;
use std::io::Write;

/// How a job ended, and whether one of its steps ended with a leak.
#[derive(Clone, Copy, Debug, PartialEq, Eq)]
pub struct LeakOutcome {
    pub outcome: Outcome,
    pub has_leaked: bool,
}

/// How a strict run ended: also whether each line was executed.
#[derive(Clone, Copy, Debug, PartialEq, Eq)]
pub struct StrictLeakOutcome {
    pub outcome: Outcome,
    pub has_leaked: bool,
    pub all_served: bool,
}

/// Runs a script of at most 16,777,215 bytes, gives each entry of the run to a consumer, and writes a report of leaks at the end of each
/// step.
pub fn run_with_report<W: Write, C: Consumer, F: ReportFormat + Drop>(
    alloc: Global,
    script: &[u8],
    writer: &mut Watched<W>,
    placement: Placement,
    consumer: &mut C,
    format: F,
) -> Result<LeakOutcome, Stop>
    requires script { length script.now ≤ most_script_bytes }
    requires new { (C.knows consumer.old).has consumer.old [] }
    // What is written is what the consumer writes for a trace of the script, with a report at the end of each step; and there is a leak if
    // a step of the trace ends with one.
    ensures run { IfOk result
        (λ end. (entries : List Entry) × IsReported F.report C.piece (W.contents writer.old.inner)
        (W.contents writer.new.inner) script.now end.outcome end.has_leaked entries) }
    ensures stop { IfErr result
        (λ stop. LeavesText (with_leaks F.report C.piece) (W.contents writer.old.inner)
        (W.contents writer.new.inner) script.now (Err stop)) }
    ensures ok { OnOk result (writer.new.failed ≡ writer.old.failed) }
    ensures write { IsErrOf result Stop.Write → writer.new.failed ≡ true }
{
    let mut reporter = Reporter::new(alloc, consumer, format);
    let outcome = run_lines(alloc, script, writer, placement, &mut reporter)?;
    Ok(LeakOutcome {
        outcome,
        has_leaked: reporter.has_leaked(),
    })
}

/// Runs a script as `run_with_report` does, and returns whether each line was executed. The observer in `strict` is called for each other line.
pub fn run_strictly_with_report<W: Write, C: Consumer, H: SkipObserver, F: ReportFormat + Drop>(
    alloc: Global,
    script: &[u8],
    writer: &mut Watched<W>,
    placement: Placement,
    strict: &mut Strict<'_, C, H>,
    format: F,
) -> Result<StrictLeakOutcome, Stop>
    requires script { length script.now ≤ most_script_bytes }
    requires new { (C.knows strict.old.consumer.now).has strict.old.consumer.now [] }
    requires all { strict.old.all_served ≡ true }
    ensures run { IfOk result
        (λ end. (entries : List Entry) × IsReported F.report C.piece (W.contents writer.old.inner)
        (W.contents writer.new.inner) script.now end.outcome end.has_leaked entries
        × (end.all_served ≡ list_all is_of_served (events_of entries))) }
    ensures stop { IfErr result
        (λ stop. LeavesText (with_leaks F.report C.piece) (W.contents writer.old.inner)
        (W.contents writer.new.inner) script.now (Err stop)) }
    ensures ok { OnOk result (writer.new.failed ≡ writer.old.failed) }
    ensures write { IsErrOf result Stop.Write → writer.new.failed ≡ true }
{
    let mut reporter = Reporter::new(alloc, strict, format);
    let outcome = run_lines(alloc, script, writer, placement, &mut reporter)?;
    Ok(StrictLeakOutcome {
        outcome,
        has_leaked: reporter.has_leaked(),
        all_served: reporter.consumer().is_all_served(),
    })
}
