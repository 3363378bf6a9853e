//! Runs the lines of a script in another order, with their own numbers.

ghost use Rattle.std.specs.Prelude.{◌≡◌, ◌<◌, ◌+◌, ◌^◌, [], length, map, true, IsErrOf, OnOk};
ghost use Rattle.std.specs.List.{AllByRecursion};
ghost use Rattle.mvs_model.specs.Lines.{IsUnended};
ghost use Rattle.mvs_job.specs.Consuming.{RunsLast, RunsNext};
ghost use Rattle.schedules.specs.InOrder.{LeavesInOrder, knows_with_numbers, line_at, number_at, with_numbers};

use crate::ordered::Ordered;
use mvs_job::{Consumer, End, LineEvent, Stop, Walk};
use mvs_model::outcome::Outcome;
use mvs_model::want::Placement;
use mvs_model::watched::Watched;
use std::alloc::Global;
use std::io::Write;

// Returns the number in the script of the line that comes at a place.
fn number_at(numbers: &[u32], place: u32) -> u32
    ensures { result ≡ number_at numbers.now place }
{
    match numbers.get(place.saturating_sub(1) as usize) {
        Some(number) => *number,
        None => place,
    }
}

// Returns the line with a number.
fn line_at<'a>(lines: &[&'a [u8]], number: u32) -> &'a [u8]
    ensures { result.now ≡ line_at (map (λ l. l.now) lines.now) number }
{
    match lines.get(number.saturating_sub(1) as usize) {
        Some(line) => line,
        None => &[],
    }
}

// Executes one line, and gives its entry to a consumer, with the number that it has in the script. Returns whether the job continues.
fn run_entry_as<W: Write, C: Consumer>(
    walk: &mut Walk,
    line: &[u8],
    numbers: &[u32],
    writer: &mut Watched<W>,
    consumer: &mut C,
) -> Result<bool, Stop>
    requires { walk.old.number + 1 < 2 ^ 32 }
    ensures ran { (first : C)
        → RunsNext (with_numbers numbers.now C.piece) (knows_with_numbers numbers.now (C.knows first))
        (W.contents writer.old.inner) (W.contents writer.new.inner) walk.old line.now walk.new
        consumer.old consumer.new result }
    ensures number { walk.new.number ≡ walk.old.number + 1 }
    ensures ok { OnOk result (writer.new.failed ≡ writer.old.failed) }
    ensures write { IsErrOf result Stop.Write → writer.new.failed ≡ true }
{
    let place = walk.number();
    let line_number = number_at(numbers, place);
    let parsed = walk.parse(line);
    consumer.look(walk);
    match walk.execute(parsed, &[], consumer) {
        Ok(line_event) => {
            consumer.entry(writer, line_number, line, walk, &line_event)?;
            Ok(!matches!(line_event, LineEvent::Faulted(_)))
        }
        Err(stopped) => {
            consumer.end(writer, line_number, walk, End::Exhausted(stopped.ended))?;
            Err(Stop::Memory)
        }
    }
}

// Ends a job that has no more lines, and gives the entry of its end to a consumer.
fn run_end_as<W: Write, C: Consumer>(
    walk: &Walk,
    numbers: &[u32],
    writer: &mut Watched<W>,
    consumer: &mut C,
) -> Result<Outcome, Stop>
    ensures ran { (first : C)
        → RunsLast (with_numbers numbers.now C.piece) (knows_with_numbers numbers.now (C.knows first))
        (W.contents writer.old.inner) (W.contents writer.new.inner) walk.now consumer.old
        consumer.new result }
    ensures ok { OnOk result (writer.new.failed ≡ writer.old.failed) }
    ensures write { IsErrOf result Stop.Write → writer.new.failed ≡ true }
{
    let closing = walk.close();
    let line_number = number_at(numbers, walk.number());
    consumer.end(writer, line_number, walk, End::Closed(closing.ended))?;
    Ok(closing.outcome)
}

// Runs those of some lines that have these numbers, one after another, and gives each entry of the run to a consumer.
fn run_numbers<W: Write, C: Consumer>(
    alloc: Global,
    lines: &[&[u8]],
    numbers: &[u32],
    writer: &mut Watched<W>,
    placement: Placement,
    consumer: &mut C,
) -> Result<Outcome, Stop>
    requires unended { AllByRecursion IsUnended (map (λ l. l.now) lines.now) }
    requires few { length numbers.now + 3 < 2 ^ 32 }
    requires new { (C.knows consumer.old).has consumer.old [] }
    ensures written { LeavesInOrder C.piece (C.knows consumer.old) (W.contents writer.old.inner)
        (W.contents writer.new.inner) (map (λ l. l.now) lines.now) numbers.now consumer.new result }
    ensures ok { OnOk result (writer.new.failed ≡ writer.old.failed) }
    ensures write { IsErrOf result Stop.Write → writer.new.failed ≡ true }
{
    let mut walk = Walk::new(alloc, placement);
    let mut at = 0;
    'lines: while at < numbers.len() {
        let line = line_at(lines, numbers[at]);
        let continues = run_entry_as(&mut walk, line, numbers, writer, consumer)?;
        if !continues {
            return Ok(Outcome::ScriptFault);
        }
        at += 1;
    }
    run_end_as(&walk, numbers, writer, consumer)
}

/// Runs lines of a script in an order, and gives each entry of the run to a consumer, with the number that its line has in the script.
pub fn run_in_order<W: Write, C: Consumer>(
    alloc: Global,
    ordered: &Ordered<'_>,
    writer: &mut Watched<W>,
    placement: Placement,
    consumer: &mut C,
) -> Result<Outcome, Stop>
    requires { (C.knows consumer.old).has consumer.old [] }
    ensures written { LeavesInOrder C.piece (C.knows consumer.old) (W.contents writer.old.inner)
        (W.contents writer.new.inner) (map (λ l. l.now) ordered.now.lines.items)
        ordered.now.numbers.items consumer.new result }
    ensures ok { OnOk result (writer.new.failed ≡ writer.old.failed) }
    ensures write { IsErrOf result Stop.Write → writer.new.failed ≡ true }
{
    run_numbers(
        alloc,
        &ordered.lines,
        &ordered.numbers,
        writer,
        placement,
        consumer,
    )
}
