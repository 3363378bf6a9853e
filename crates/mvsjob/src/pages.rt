//! Writes pages of runs, each item before the next line of the script is read.

ghost use Rattle.std.specs.Prelude.{◌≡◌, false};

use crate::ending::{CliError, ExitReason};
use crate::opened::OpenReader;
use crate::options::{RunOutput, Settings};
use crate::page_file::new_page_file;
use crate::recorder::LineRecorder;
use crate::scheduled::write_scheduled;
use crate::second_run::{read_second, second_ended, second_ordered, second_script, write_ordered};
use crate::streamed::{Streamed, TwoRuns, stream_page, stream_two_pages};
use crate::whole_page::write_whole_page;
use crate::{Output, passed_on};
use line_text::write_all;
use mvs_model::want::Placement;
use mvs_model::watched::Watched;
use page::FRAME;
use schedules::Ordered;
use std::io::{Read, Write};

// Makes a reader that keeps the lines of its latest read.
fn recorder<R: Read + Drop>(
    rt: &HostRuntime,
    reader: R,
) -> Result<LineRecorder<OpenReader<R>>, CliError> {
    Ok(LineRecorder::new(rt.alloc(), OpenReader::new(reader))?)
}

// Returns where the areas of a second run are placed: at the other end, if its script is that of the first run.
fn second_placement(settings: &Settings<'_>, second: &str) -> Placement {
    match settings.placement {
        Placement::Low if second == settings.file => Placement::High,
        Placement::High if second == settings.file => Placement::Low,
        placement => placement,
    }
}

// Passes on how the run of a script ended, and reports the line that ended it, if one did.
fn first_ended<R: Read + Drop, W: Write>(
    rt: &HostRuntime,
    settings: &Settings<'_>,
    writer: &mut Watched<W>,
    ran: Streamed<OpenReader<R>>,
) -> Result<ExitReason, CliError> {
    let kept = ran.reader.into_inner();
    passed_on(
        rt,
        settings,
        writer,
        ran.ended,
        kept.get_ref().failure(),
        &kept.faulty(),
    )
}

// Writes the page of the script that a reader has, and after it that of the lines of the second script in an order, if there are such.
fn write_in_turn<R: Read + Drop, W: Write>(
    rt: &HostRuntime,
    reader: R,
    settings: &Settings<'_>,
    ordered: Option<&Ordered<'_>>,
    writer: &mut Watched<W>,
) -> Result<ExitReason, CliError>
    requires { writer.old.failed ≡ false }
{
    let first = recorder(rt, reader)?;
    let frame = FRAME.as_bytes();
    let ran = stream_page(rt.alloc(), frame, first, writer, settings.placement);
    if let Some(ordered) = ordered {
        if ran.ended.is_ok() {
            write_ordered(rt.alloc(), ordered, settings.placement, writer)?;
        }
    }
    first_ended(rt, settings, writer, ran)
}

// Writes the page of the script that a reader has, and after it that of the second script as it is.
fn write_both<R: Read + Drop, W: Write>(
    rt: &HostRuntime,
    reader: R,
    settings: &Settings<'_>,
    file: &str,
    writer: &mut Watched<W>,
) -> Result<ExitReason, CliError>
    requires { writer.old.failed ≡ false }
{
    let first = recorder(rt, reader)?;
    let second = second_script(rt, file)?;
    let placements = (settings.placement, second_placement(settings, file));
    let TwoRuns { first, second } = stream_two_pages(rt.alloc(), first, second, writer, placements);
    if let Some(second) = second {
        second_ended(second)?;
    }
    first_ended(rt, settings, writer, first)
}

// Writes the page of the script that a reader has, and after it that of the second script, if there is one: of its lines in an order, if
// there are such. A script whose lines are reported, or whose leaks set the exit status, is read whole, and has no second one.
fn write_runs<R: Read + Drop, W: Write>(
    rt: &HostRuntime,
    reader: R,
    settings: &Settings<'_>,
    ordered: Option<&Ordered<'_>>,
    writer: &mut Watched<W>,
) -> Result<ExitReason, CliError>
    requires { writer.old.failed ≡ false }
{
    if let Some(order) = settings.schedule {
        return write_scheduled(rt, reader, settings, order, ordered, writer);
    }
    if settings.strict || settings.leaks {
        return write_whole_page(rt, reader, settings, writer);
    }
    match settings.second {
        Some(file) if ordered.is_none() => write_both(rt, reader, settings, file, writer),
        Some(_) | None => write_in_turn(rt, reader, settings, ordered, writer),
    }
}

// Writes these pages. The second script is read before, if its lines are to run in an order.
fn write_pages<R: Read + Drop, W: Write>(
    rt: &HostRuntime,
    reader: R,
    settings: &Settings<'_>,
    writer: &mut Watched<W>,
) -> Result<ExitReason, CliError>
    requires { writer.old.failed ≡ false }
{
    match (settings.second, settings.second_schedule) {
        (Some(file), Some(order)) => {
            let script = read_second(rt, file)?;
            let ordered = second_ordered(rt, settings.placement, order, &script)?;
            write_runs(rt, reader, settings, Some(&ordered), writer)
        }
        (Some(_), None) | (None, Some(_) | None) => write_runs(rt, reader, settings, None, writer),
    }
}

/// Writes the page of the script that a reader has: to standard output, or to a new file, whose name it prints.
pub fn write_page_of<R: Read + Drop>(
    rt: &HostRuntime,
    reader: R,
    settings: &Settings<'_>,
    writer: &mut Watched<Output<'_>>,
) -> Result<ExitReason, CliError>
    requires { writer.old.failed ≡ false }
{
    if settings.output != RunOutput::PageFile {
        return write_pages(rt, reader, settings, writer);
    }
    let page = new_page_file(rt)?;
    let mut file = Watched::new(page.file);
    let ended = write_pages(rt, reader, settings, &mut file)?;
    write_all(writer, page.name.as_bytes())?;
    write_all(writer, b"\n")?;
    Ok(ended)
}
