//! The events of a run as lines of JSON: an object for each event. docs/JSON.md describes the members.
#![tactic(auto)]

ghost use Rattle.std.specs.Prelude.{◌≡◌, ◌++◌, true, IfOk, OnErr, OnOk, IsErrOf};
ghost use Rattle.line_text.specs.Writing.{Prints};
ghost use Rattle.mvs_job.specs.LineEvents.{closing, events_of_line, new_walk};
ghost use Rattle.event_json.specs.Lines.{AreLinesOf, IsStatement, WritesEvents, WritesLast, fault_line, statement_head, step_end};

mod answers;
mod effects;
mod event_lines;
pub mod laws;
mod members;
mod reasons;

use crate::answers::put_answer;
use crate::effects::put_explanation;
use crate::members::Members;
pub use event_lines::EventLines;
use line_text::text::LineText;
use line_text::{fault_digit, write_all};
use mvs_job::{EndedTasks, Explanation, LineEvent, Stop, Walk, ended_tasks};
use mvs_model::answer::Answer;
use mvs_model::card::Card;
use mvs_model::line::Fault;
use mvs_model::name::Name;
use mvs_model::watched::{Failed, Watched};
use std::alloc::{AllocError, Global};
use std::io::Write;
use std::str;

/// A line of a script, without its end: its number, its bytes, and its explanation if that is asked for.
#[derive(Clone, Copy)]
pub(crate) struct ScriptLine<'a, 'b> {
    pub number: u32,
    pub bytes: &'a [u8],
    pub explanation: Option<Explanation<'b>>,
}

// Returns the statement of a line, from its operation on, without the task and the blanks around.
fn statement(line: &[u8]) -> &str {
    let text = str::from_utf8(line).unwrap_or("");
    match text.split_once(' ') {
        Some((_, rest)) => rest.trim(),
        None => "",
    }
}

// Returns the first members of a statement of a task, and the comma after them.
fn statement_head(number: u32, task: &Name) -> LineText
    ensures { result ≡ statement_head number task.now }
{
    let mut text = LineText::new();
    text.push_str(b"{\"event\":\"statement\",\"line\":");
    text.push_decimal(number);
    text.push_str(b",\"task\":\"");
    text.push_name(task);
    text.push_str(b"\",");
    text
}

// Returns the line of the end of a step, if one ended.
fn step_end(ended: Option<bool>) -> &'static [u8]
    ensures { result.now ≡ step_end ended }
{
    match ended {
        Some(true) => b"{\"event\":\"step_ended\",\"return_code\":8}\n",
        Some(false) => b"{\"event\":\"step_ended\",\"return_code\":0}\n",
        None => b"",
    }
}

// Returns the line of a fault.
fn fault_line(number: u32, digit: u32) -> LineText
    ensures { result ≡ fault_line number digit }
{
    let mut text = LineText::new();
    text.push_str(b"{\"event\":\"fault\",\"line\":");
    text.push_decimal(number);
    text.push_str(b",\"fault\":");
    text.push_decimal(digit);
    text.push_str(b"}\n");
    text
}

// Returns the members that each statement has, after other lines.
fn of_statement(
    alloc: Global,
    lines: &[u8],
    line: &ScriptLine<'_, '_>,
    task: &Name,
) -> Result<Members, AllocError>
    ensures { IfOk result
        (λ members. members ≡ lines.now ++ statement_head line.now.number task.now) }
{
    let mut head = Vec::new(alloc);
    head.extend_from_slice(lines)?;
    head.extend_from_slice(statement_head(line.number, task).as_slice())?;
    let mut members = Members::after(head);
    members.text("statement", statement(line.bytes))?;
    Ok(members)
}

// Returns the members of a step that begins, after the end of the one before it, if one has ended.
fn region(
    alloc: Global,
    line: &ScriptLine<'_, '_>,
    ended: Option<bool>,
    card: &Card,
) -> Result<Members, AllocError>
    ensures { IfOk result
        (λ members. members
        ≡ step_end ended ++ statement_head line.now.number card.now.name) }
{
    let mut members = of_statement(alloc, step_end(ended), line, &card.name())?;
    members.text("answer", "region")?;
    members.number("below", card.below())?;
    members.number("above", card.above())?;
    Ok(members)
}

// Returns the lines of a step that begins: the end of the one before it, if one has ended, and its REGION statement.
fn region_lines(
    alloc: Global,
    line: &ScriptLine<'_, '_>,
    ended: Option<bool>,
    card: &Card,
) -> Result<Vec<u8>, AllocError>
    ensures { IfOk result
        (λ lines. AreLinesOf
        (events_of_line line.now.number new_walk (LineEvent.StepBegan ended card.now)) lines.items) }
{
    let members = region(alloc, line, ended, card)?;
    members.into_line()
}

// Returns the members of a statement of a task, with the answer.
fn answered(
    alloc: Global,
    line: &ScriptLine<'_, '_>,
    walk: &Walk,
    task: &Name,
    answer: &Answer,
    ended: &Option<EndedTasks<'_>>,
) -> Result<Members, AllocError>
    ensures { IfOk result (λ members. members ≡ statement_head line.now.number task.now) }
{
    let mut members = of_statement(alloc, b"", line, task)?;
    put_answer(alloc, &mut members, walk, task, answer)?;
    if let Some(explanation) = &line.explanation {
        put_explanation(&mut members, explanation, ended)?;
    }
    Ok(members)
}

// Returns the line of a statement of a task, with the answer.
fn answer_line(
    alloc: Global,
    line: &ScriptLine<'_, '_>,
    walk: &Walk,
    task: &Name,
    answer: &Answer,
    ended: &Option<EndedTasks<'_>>,
) -> Result<Vec<u8>, AllocError>
    ensures { IfOk result (λ text. IsStatement line.now.number task.now text.items) }
{
    let members = answered(alloc, line, walk, task, answer, ended)?;
    members.into_line()
}

// Writes a text.
fn write_text<W: Write>(writer: &mut Watched<W>, text: &[u8]) -> Result<(), Stop>
    ensures text { Prints W.contents writer.old writer.new result text.now }
    ensures memory { ¬ IsErrOf result Stop.Memory }
{
    write_all(writer, text)?;
    Ok(())
}

/// Writes the events of a line: no line of JSON, one, or two if a step has ended. The walk is the one after the line.
pub(crate) fn write_line<'a, W: Write>(
    alloc: Global,
    writer: &mut Watched<W>,
    line: &ScriptLine<'_, '_>,
    walk: &'a Walk,
    line_event: &'a LineEvent,
) -> Result<(), Stop>
    ensures written { WritesEvents (W.contents writer.old.inner) (W.contents writer.new.inner)
        (events_of_line line.now.number walk.now line_event.now) result }
    ensures ok { OnOk result (writer.new.failed ≡ writer.old.failed) }
    ensures write { IsErrOf result Stop.Write → writer.new.failed ≡ true }
{
    match line_event {
        LineEvent::Nothing => Ok(()),
        LineEvent::StepBegan { ended, card } => {
            let lines = region_lines(alloc, line, *ended, card).map_err(|_| Stop::Memory)?;
            write_text(writer, &lines)
        }
        LineEvent::Answered { task, answer } => {
            let ended = ended_tasks(walk, line_event);
            let text = answer_line(alloc, line, walk, task, answer, &ended).map_err(
                |_| Stop::Memory,
            )?;
            write_text(writer, &text)
        }
        LineEvent::Faulted(fault) => write_text(
            writer,
            fault_line(line.number, fault_digit(*fault)).as_slice(),
        ),
    }
}

/// Writes the end of a step, if one ended.
pub(crate) fn write_ended<W: Write>(
    writer: &mut Watched<W>,
    ended: Option<bool>,
) -> Result<(), Failed>
    ensures { Prints W.contents writer.old writer.new result (step_end ended) }
{
    write_all(writer, step_end(ended))
}

/// Writes the end of a job that has no more lines: the end of its last step, or that there is no statement.
pub(crate) fn write_end<W: Write>(
    writer: &mut Watched<W>,
    number: u32,
    ended: Option<bool>,
) -> Result<(), Failed>
    ensures written { WritesLast (W.contents writer.old.inner) (W.contents writer.new.inner)
        (closing number ended) result }
    ensures ok { OnOk result (writer.new.failed ≡ writer.old.failed) }
    ensures err { OnErr result (writer.new.failed ≡ true) }
{
    match ended {
        Some(_) => write_ended(writer, ended),
        None => write_all(
            writer,
            fault_line(number, fault_digit(Fault::OutOfPlace)).as_slice(),
        ),
    }
}
