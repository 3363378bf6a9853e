//! Runs a script in the order of a schedule that the options give.

ghost use Rattle.std.specs.Prelude.{◌≡◌, ◌≤◌, [], OnOk, false, length};
ghost use Rattle.mvs_model.specs.Numbers.{most_script_bytes};

use crate::ending::{CliError, ExitReason};
use crate::faulty::faulty_in;
use crate::options::{RunOutput, Settings};
use crate::script::read_script;
use crate::second_run::{write_ordered, write_second};
use crate::strict::Teller;
use crate::whole_page::NoText;
use crate::{Output, report_fault};
use area_history::{Historian, JsonReport, LeakOutcome, ReportFormat, Reporter, TextReport};
use event_json::EventLines;
use line_text::write_all;
use mvs_job::{Consumer, Explained, Printer, RunFault, SkipObserver, Stop, Strict, StrictOutcome};
use mvs_model::outcome::Outcome;
use mvs_model::want::Placement;
use mvs_model::watched::Watched;
use page::{FRAME, PageItems};
use schedules::{OrderError, Ordered, order_script, run_in_order};
use std::alloc::Global;
use std::io::{Read, Write};

/// A script that was read whole, and its lines in the order of a schedule.
#[derive(Clone, Copy)]
struct ScheduledScript<'a, 'b> {
    script: &'a [u8],
    ordered: &'b Ordered<'a>,
}

// Returns a number with one more digit, if it has at most 32 bits.
fn with_digit(number: u32, byte: u8) -> Option<u32> {
    let digit = u32::from(byte.wrapping_sub(b'0'));
    number.checked_mul(10)?.checked_add(digit)
}

// Reads the numbers of an order, between which there are commas or blanks.
fn numbers_in(alloc: Global, text: &str) -> Result<Vec<u32>, OrderError> {
    let mut numbers = Vec::new(alloc);
    let mut number = None;
    for byte in text.as_bytes() {
        if byte.is_ascii_digit() {
            let next = with_digit(number.unwrap_or(0), *byte);
            number = Some(next.ok_or(OrderError::Malformed)?);
        } else if *byte == b',' || *byte == b' ' {
            if let Some(ended) = number {
                numbers.push(ended).map_err(|_| OrderError::Memory)?;
            }
            number = None;
        } else {
            return Err(OrderError::Malformed);
        }
    }
    if let Some(last) = number {
        numbers.push(last).map_err(|_| OrderError::Memory)?;
    }
    Ok(numbers)
}

/// Returns the lines of a script in an order.
pub fn lines_ordered<'a>(
    alloc: Global,
    placement: Placement,
    order: &str,
    script: &'a [u8],
) -> Result<Ordered<'a>, OrderError>
    requires { length script.now ≤ most_script_bytes }
{
    let numbers = numbers_in(alloc, order)?;
    order_script(alloc, script, placement, &numbers)
}

// Returns the lines of a script in the order of the settings. A script with a fault has none: the line is reported.
fn ordered_of<'a>(
    rt: &HostRuntime,
    settings: &Settings<'_>,
    order: &str,
    script: &'a [u8],
) -> Result<Option<Ordered<'a>>, CliError>
    requires { length script.now ≤ most_script_bytes }
{
    match lines_ordered(rt.alloc(), settings.placement, order, script) {
        Ok(ordered) => Ok(Some(ordered)),
        Err(OrderError::Memory) => Err(CliError::Job(RunFault::Memory)),
        Err(OrderError::Fault { .. }) => {
            report_fault(rt, settings.file, &faulty_in(script));
            Ok(None)
        }
        Err(error) => Err(CliError::Order(error)),
    }
}

// Runs lines in an order, and gives each entry of the run to a consumer. If that is asked for, each line is reported that was not
// executed.
fn run_to<W: Write, C: Consumer>(
    rt: &HostRuntime,
    settings: &Settings<'_>,
    run: &ScheduledScript<'_, '_>,
    writer: &mut Watched<W>,
    consumer: &mut C,
) -> Result<ExitReason, CliError>
    requires { (C.knows consumer.old).has consumer.old [] }
    ensures { OnOk result (writer.new.failed ≡ writer.old.failed) }
{
    let (alloc, placement) = (rt.alloc(), settings.placement);
    if !settings.strict {
        let outcome = run_in_order(alloc, run.ordered, writer, placement, consumer)?;
        return Ok(ExitReason::Ran(outcome));
    }
    let mut teller = Teller::new(rt, settings.file, run.script);
    let mut strict = Strict::new(consumer, &mut teller);
    let outcome = run_in_order(alloc, run.ordered, writer, placement, &mut strict)?;
    Ok(ExitReason::of_strict(StrictOutcome {
        outcome,
        all_served: strict.is_all_served(),
    }))
}

// Runs lines in an order, with a report of leaks at the end of each step.
fn report_in_order<W: Write, C: Consumer, F: ReportFormat + Drop>(
    alloc: Global,
    ordered: &Ordered<'_>,
    placement: Placement,
    writer: &mut Watched<W>,
    consumer: &mut C,
    format: F,
) -> Result<LeakOutcome, Stop>
    requires { (C.knows consumer.old).has consumer.old [] }
    ensures { OnOk result (writer.new.failed ≡ writer.old.failed) }
{
    let mut reporter = Reporter::new(alloc, consumer, format);
    let outcome = run_in_order(alloc, ordered, writer, placement, &mut reporter)?;
    Ok(LeakOutcome {
        outcome,
        has_leaked: reporter.has_leaked(),
    })
}

// Runs lines in that way, and returns how the program ends if each line that was not executed is reported.
fn report_strictly<W: Write, C: Consumer, H: SkipObserver, F: ReportFormat + Drop>(
    alloc: Global,
    ordered: &Ordered<'_>,
    placement: Placement,
    writer: &mut Watched<W>,
    strict: &mut Strict<'_, C, H>,
    format: F,
) -> Result<ExitReason, Stop>
    requires { (C.knows strict.old.consumer.now).has strict.old.consumer.now [] }
    ensures { OnOk result (writer.new.failed ≡ writer.old.failed) }
{
    let end = report_in_order(alloc, ordered, placement, writer, strict, format)?;
    let ran = StrictOutcome {
        outcome: end.outcome,
        all_served: strict.is_all_served(),
    };
    Ok(ExitReason::of_strict(ran).with_leaks(end.has_leaked))
}

// Runs lines in an order, with a report of leaks at the end of each step if that is asked for.
fn report_to<W: Write, C: Consumer, F: ReportFormat + Drop>(
    rt: &HostRuntime,
    settings: &Settings<'_>,
    run: &ScheduledScript<'_, '_>,
    writer: &mut Watched<W>,
    consumer: &mut C,
    format: F,
) -> Result<ExitReason, CliError>
    requires { (C.knows consumer.old).has consumer.old [] }
    ensures { OnOk result (writer.new.failed ≡ writer.old.failed) }
{
    let (alloc, placement) = (rt.alloc(), settings.placement);
    if !settings.leaks {
        return run_to(rt, settings, run, writer, consumer);
    }
    if !settings.strict {
        let end = report_in_order(alloc, run.ordered, placement, writer, consumer, format)?;
        return Ok(ExitReason::Ran(end.outcome).with_leaks(end.has_leaked));
    }
    let mut teller = Teller::new(rt, settings.file, run.script);
    let mut strict = Strict::new(consumer, &mut teller);
    Ok(report_strictly(alloc, run.ordered, placement, writer, &mut strict, format)?)
}

// Runs lines in an order, and writes what the settings ask for.
fn run_as_asked<W: Write>(
    rt: &HostRuntime,
    settings: &Settings<'_>,
    run: &ScheduledScript<'_, '_>,
    writer: &mut Watched<W>,
) -> Result<ExitReason, CliError> {
    let alloc = rt.alloc();
    let is_json = settings.output == RunOutput::Json;
    if is_json && settings.explains {
        let mut lines = EventLines::new(alloc, true);
        let mut historian = Historian::new(alloc, &mut lines, JsonReport);
        report_to(rt, settings, run, writer, &mut historian, JsonReport)
    } else if is_json {
        let mut lines = EventLines::new(alloc, false);
        report_to(rt, settings, run, writer, &mut lines, JsonReport)
    } else if settings.explains {
        let mut explained = Explained::new(alloc);
        let mut historian = Historian::new(alloc, &mut explained, TextReport);
        report_to(rt, settings, run, writer, &mut historian, TextReport)
    } else {
        report_to(rt, settings, run, writer, &mut Printer, TextReport)
    }
}

/// Runs the script that a reader has, in an order.
pub fn run_scheduled<R: Read + Drop>(
    rt: &HostRuntime,
    reader: R,
    settings: &Settings<'_>,
    order: &str,
    writer: &mut Watched<Output<'_>>,
) -> Result<ExitReason, CliError> {
    let script = read_script(rt.alloc(), reader)?;
    let Some(ordered) = ordered_of(rt, settings, order, &script)? else {
        return Ok(ExitReason::Ran(Outcome::ScriptFault));
    };
    let run = ScheduledScript {
        script: &script,
        ordered: &ordered,
    };
    run_as_asked(rt, settings, &run, writer)
}

/// Writes the page of the script that a reader has, in an order, and after it that of a second script, if there is one: of its lines in
/// an order, if there are such.
pub fn write_scheduled<R: Read + Drop, W: Write>(
    rt: &HostRuntime,
    reader: R,
    settings: &Settings<'_>,
    order: &str,
    second: Option<&Ordered<'_>>,
    writer: &mut Watched<W>,
) -> Result<ExitReason, CliError>
    requires { writer.old.failed ≡ false }
{
    let alloc = rt.alloc();
    let script = read_script(alloc, reader)?;
    let Some(ordered) = ordered_of(rt, settings, order, &script)? else {
        return Ok(ExitReason::Ran(Outcome::ScriptFault));
    };
    let run = ScheduledScript {
        script: &script,
        ordered: &ordered,
    };
    write_all(writer, FRAME.as_bytes())?;
    let mut items = PageItems::new(alloc);
    let ending = report_to(rt, settings, &run, writer, &mut items, NoText)?;
    match (second, settings.second) {
        (Some(second), _) => write_ordered(alloc, second, settings.placement, writer)?,
        (None, Some(file)) => write_second(rt, file, settings.placement, writer)?,
        (None, None) => {}
    }
    Ok(ending)
}
