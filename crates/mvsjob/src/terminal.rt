//! A session at a terminal: a faulty line is reported and skipped, and the job continues.

ghost use Rattle.std.specs.Prelude.{◌≡◌, [], false};

use crate::desk::{Desk, is_typed};
use crate::ending::{CliError, ExitReason};
use crate::faulty::FaultyLine;
use crate::opened::OpenReader;
use crate::options::{RunOutput, Settings};
use crate::strict::Teller;
use crate::{Output, passed_on};
use area_history::{Historian, JsonReport, ReportFormat, Reporter, TextReport};
use event_json::EventLines;
use mvs_job::{Consumer, RunFault, SkipObserver, Strict, StrictOutcome};
use mvs_model::outcome::Outcome;
use mvs_model::watched::Watched;
use std::cell::Cell;
use std::io::{IsTerminal, Read};
use terminal_session::{JobStop, Switched, TerminalSession};

/// A session whose reader remembers why a read failed.
type DeskSession<'a, R> = TerminalSession<OpenReader<R>, Desk<'a>>;

/// How the run of a job ended, whether each line of it was executed, and whether a step ended with a leak.
#[derive(Clone, Copy, Debug, PartialEq, Eq)]
struct JobRun {
    stop: JobStop,
    all_served: bool,
    has_leaked: bool,
}

impl JobRun {
    // Returns how the program ends after a job with this outcome.
    fn ending(self, outcome: Outcome) -> ExitReason {
        let end = StrictOutcome {
            outcome,
            all_served: self.all_served,
        };
        ExitReason::of_strict(end).with_leaks(self.has_leaked)
    }
}

/// Returns whether lines are prompted for: if the options say so, or if somebody types the script and sees the answers.
pub fn is_at_terminal(rt: &HostRuntime, settings: &Settings<'_>) -> bool {
    settings.interactive
        || settings.is_answers()
            && settings.file == "-"
            && rt.stdin().is_terminal()
            && rt.stdout().is_terminal()
}

// Runs a job, and gives each entry of the run to a consumer. If that is asked for, each line is reported that was not executed;
// without a script there are no hints.
fn run_to<R: Read, C: Consumer>(
    rt: &HostRuntime,
    session: &mut DeskSession<'_, R>,
    settings: &Settings<'_>,
    writer: &mut Watched<Output<'_>>,
    consumer: &mut C,
) -> Result<JobRun, RunFault>
    requires { (C.knows consumer.old).has consumer.old [] }
{
    let (all_served, has_leaked) = (true, false);
    if !settings.strict {
        let stop = session.run_job(writer, consumer)?;
        return Ok(JobRun {
            stop,
            all_served,
            has_leaked,
        });
    }
    let mut teller = Teller::new(rt, settings.file, b"");
    let mut strict = Strict::new(consumer, &mut teller);
    let stop = session.run_job(writer, &mut strict)?;
    Ok(JobRun {
        stop,
        all_served: strict.is_all_served(),
        has_leaked,
    })
}

// Why a run of a job with reports of leaks returned, and whether a step ended with a leak.
#[derive(Clone, Copy, Debug, PartialEq, Eq)]
struct ReportedStop {
    stop: JobStop,
    has_leaked: bool,
}

// Runs a job, and writes a report of leaks in a format at the end of each step.
fn report_to<R: Read, C: Consumer, F: ReportFormat + Drop>(
    rt: &HostRuntime,
    session: &mut DeskSession<'_, R>,
    writer: &mut Watched<Output<'_>>,
    consumer: &mut C,
    format: F,
) -> Result<ReportedStop, RunFault>
    requires { (C.knows consumer.old).has consumer.old [] }
{
    let mut reporter = Reporter::new(rt.alloc(), consumer, format);
    let stop = session.run_job(writer, &mut reporter)?;
    Ok(ReportedStop {
        stop,
        has_leaked: reporter.has_leaked(),
    })
}

// Runs a job in that way, and reports each line that was not executed.
fn report_strictly<R: Read, C: Consumer, H: SkipObserver, F: ReportFormat + Drop>(
    rt: &HostRuntime,
    session: &mut DeskSession<'_, R>,
    writer: &mut Watched<Output<'_>>,
    strict: &mut Strict<'_, C, H>,
    format: F,
) -> Result<JobRun, RunFault>
    requires { (C.knows strict.old.consumer.now).has strict.old.consumer.now [] }
{
    let ran = report_to(rt, session, writer, strict, format)?;
    Ok(JobRun {
        stop: ran.stop,
        all_served: strict.is_all_served(),
        has_leaked: ran.has_leaked,
    })
}

// Runs a job, with a report of leaks in a format at the end of each step, if that is asked for.
fn run_reported<R: Read, C: Consumer, F: ReportFormat + Drop>(
    rt: &HostRuntime,
    session: &mut DeskSession<'_, R>,
    settings: &Settings<'_>,
    writer: &mut Watched<Output<'_>>,
    consumer: &mut C,
    format: F,
) -> Result<JobRun, RunFault>
    requires { (C.knows consumer.old).has consumer.old [] }
{
    if !settings.leaks {
        return run_to(rt, session, settings, writer, consumer);
    }
    if settings.strict {
        let mut teller = Teller::new(rt, settings.file, b"");
        let mut strict = Strict::new(consumer, &mut teller);
        return report_strictly(rt, session, writer, &mut strict, format);
    }
    let ran = report_to(rt, session, writer, consumer, format)?;
    Ok(JobRun {
        stop: ran.stop,
        all_served: true,
        has_leaked: ran.has_leaked,
    })
}

// Runs a job, and writes its events as lines of JSON.
fn run_as_json<R: Read>(
    rt: &HostRuntime,
    session: &mut DeskSession<'_, R>,
    settings: &Settings<'_>,
    writer: &mut Watched<Output<'_>>,
) -> Result<JobRun, RunFault> {
    let mut lines = EventLines::new(rt.alloc(), settings.explains);
    if !settings.explains {
        return run_reported(rt, session, settings, writer, &mut lines, JsonReport);
    }
    let mut historian = Historian::new(rt.alloc(), &mut lines, JsonReport);
    run_reported(rt, session, settings, writer, &mut historian, JsonReport)
}

// Runs a job from its first line on, with explanations while they are on.
fn run_job<R: Read>(
    rt: &HostRuntime,
    session: &mut DeskSession<'_, R>,
    settings: &Settings<'_>,
    writer: &mut Watched<Output<'_>>,
    reasons: &Cell<bool>,
) -> Result<JobRun, RunFault> {
    if settings.output == RunOutput::Json {
        return run_as_json(rt, session, settings, writer);
    }
    let mut text = Switched::new(rt.alloc(), reasons);
    run_reported(rt, session, settings, writer, &mut text, TextReport)
}

// Runs jobs until one ends.
fn run_jobs<R: Read>(
    rt: &HostRuntime,
    session: &mut DeskSession<'_, R>,
    settings: &Settings<'_>,
    writer: &mut Watched<Output<'_>>,
    reasons: &Cell<bool>,
) -> Result<(Outcome, JobRun), RunFault> {
    for _ in 0..u32::MAX {
        let ran = run_job(rt, session, settings, writer, reasons)?;
        if let JobStop::Ended(outcome) = ran.stop {
            return Ok((outcome, ran));
        }
    }
    Err(RunFault::ReadTooLong)
}

/// Runs the lines that a reader has as they come, but for those that have a fault, and does what dot commands ask for.
pub fn run_at_terminal<R: Read + Drop>(
    rt: &HostRuntime,
    reader: OpenReader<R>,
    settings: &Settings<'_>,
    writer: &mut Watched<Output<'_>>,
) -> Result<ExitReason, CliError>
    requires { writer.old.failed ≡ false }
{
    let reasons = Cell::new(settings.explains);
    let desk = Desk::new(rt, settings, &reasons);
    desk.greet();
    let cleans = is_typed(rt, settings);
    let mut session = TerminalSession::new(rt.alloc(), reader, desk, settings.placement, cleans);
    let ended = run_jobs(rt, &mut session, settings, writer, &reasons);
    end_session(rt, session, settings, writer, ended)
}

// Passes on how a session ended.
fn end_session<R: Read + Drop>(
    rt: &HostRuntime,
    session: DeskSession<'_, R>,
    settings: &Settings<'_>,
    writer: &mut Watched<Output<'_>>,
    ended: Result<(Outcome, JobRun), RunFault>,
) -> Result<ExitReason, CliError> {
    if matches!(ended, Err(RunFault::Read | RunFault::ReadTooLong)) {
        // So that the message does not follow the prompt.
        let _ = eprintln!(rt);
    }
    let faulty = FaultyLine::after(session.next_number());
    let failure = session.into_reader().into_inner().failure();
    match ended {
        Ok((outcome, ran)) => {
            let ending = passed_on(rt, settings, writer, Ok(outcome), failure, &faulty)?;
            Ok(match ending {
                ExitReason::Ran(outcome) => ran.ending(outcome),
                other => other,
            })
        }
        Err(fault) => passed_on(rt, settings, writer, Err(fault), failure, &faulty),
    }
}
