//! The second run of a page.

ghost use Rattle.std.specs.Prelude.{◌≡◌, ◌≤◌, IfOk, OnOk, false, length};
ghost use Rattle.mvs_model.specs.Numbers.{most_script_bytes};

use crate::ending::{Cause, CliError};
use crate::opened::OpenReader;
use crate::recorder::LineRecorder;
use crate::scheduled::lines_ordered;
use crate::script::read_script;
use crate::streamed::{Streamed, stream_page};
use line_text::write_all;
use mvs_job::RunFault;
use mvs_model::want::Placement;
use mvs_model::watched::Watched;
use page::{PageItems, SECOND_RUN};
use schedules::{OrderError, Ordered, run_in_order};
use std::alloc::Global;
use std::fs::File;
use std::io::{Read, Write};

// Opens the script of a second run.
fn open_second(rt: &HostRuntime, file: &str) -> Result<File, CliError> {
    File::open(rt, file).map_err(|error| CliError::Second(Cause::from(error.kind())))
}

/// Opens the script of a second run, whose lines are kept as they are read.
pub fn second_script(
    rt: &HostRuntime,
    file: &str,
) -> Result<LineRecorder<OpenReader<File>>, CliError> {
    let script = open_second(rt, file)?;
    Ok(LineRecorder::new(rt.alloc(), OpenReader::new(script))?)
}

// Returns why the program stops at a read of the second script that failed.
fn second_failure(why: CliError) -> CliError {
    match why {
        CliError::Script(cause) => CliError::Second(cause),
        why => why,
    }
}

/// Returns why the run of a second script stopped, if it did. How it ended is only shown.
pub fn second_ended<R: Read + Drop>(ran: Streamed<OpenReader<R>>) -> Result<(), CliError> {
    match ran.ended {
        Ok(_) => Ok(()),
        Err(RunFault::Read) => {
            let reader = ran.reader.into_inner();
            Err(second_failure(reader.get_ref().failure()))
        }
        Err(fault) => Err(CliError::Job(fault)),
    }
}

/// Reads the script of a second run, all its bytes.
pub fn read_second(rt: &HostRuntime, file: &str) -> Result<Vec<u8>, CliError>
    ensures { IfOk result (λ script. length script.items ≤ most_script_bytes) }
{
    let script = open_second(rt, file)?;
    read_script(rt.alloc(), script).map_err(second_failure)
}

/// Returns the lines of a second script in an order.
pub fn second_ordered<'a>(
    rt: &HostRuntime,
    placement: Placement,
    order: &str,
    script: &'a [u8],
) -> Result<Ordered<'a>, CliError>
    requires { length script.now ≤ most_script_bytes }
{
    lines_ordered(rt.alloc(), placement, order, script).map_err(|error| match error {
        OrderError::Memory => CliError::Job(RunFault::Memory),
        error => CliError::SecondOrder(error),
    })
}

/// Writes the page of a second run after that of the first: of the lines of its script in an order.
pub fn write_ordered<W: Write>(
    alloc: Global,
    ordered: &Ordered<'_>,
    placement: Placement,
    writer: &mut Watched<W>,
) -> Result<(), CliError>
    ensures { OnOk result (writer.new.failed ≡ writer.old.failed) }
{
    write_all(writer, SECOND_RUN.as_bytes())?;
    let mut items = PageItems::new(alloc);
    run_in_order(alloc, ordered, writer, placement, &mut items)?;
    Ok(())
}

/// Writes the page of a second run after that of the first: of its script as it is.
pub fn write_second<W: Write>(
    rt: &HostRuntime,
    file: &str,
    placement: Placement,
    writer: &mut Watched<W>,
) -> Result<(), CliError>
    requires { writer.old.failed ≡ false }
{
    let second = second_script(rt, file)?;
    let frame = SECOND_RUN.as_bytes();
    second_ended(stream_page(rt.alloc(), frame, second, writer, placement))
}
