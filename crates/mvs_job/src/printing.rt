//! Prints the events of lines, and the end of a job.

ghost use Rattle.std.specs.Prelude.{◌≡◌, ◌<◌, ◌+◌, ◌^◌, ◌∷◌, [], List, true, OnOk, IsErrOf};
ghost use Rattle.mvs_model.specs.declared.name.Name.{Name as TaskName};
ghost use Rattle.mvs_model.specs.FullAnswers.{full_answer};
ghost use Rattle.mvs_model.specs.Texts.{answer_text, printing};
ghost use Rattle.line_text.specs.Writing.{Prints};
ghost use Rattle.mvs_job.specs.Replying.{plain_answer};
ghost use Rattle.mvs_job.specs.Serving.{RunsLine};
ghost use Rattle.mvs_job.specs.LineEvents.{IsAvailable, IsAvailableIn, closing, ended, events_of_line};

use crate::driver::run_entry;
use crate::job::Job;
use crate::printer::Printer;
use crate::reports::{print_map, print_subpools};
use crate::run::RunFault;
use crate::walk::{LineEvent, Walk};
use job_script::{print_abend, print_data, print_short_answer};
use line_text::{print_fault, print_region, print_step_end};
use mvs_model::answer::Answer;
use mvs_model::error::OutOfMemory;
use mvs_model::line::Fault;
use mvs_model::name::Name;
use mvs_model::place::{Addr, Place};
use mvs_model::request::Reply;
use mvs_model::watched::{Failed, Watched};
use std::io::Write;
use thiserror::Error;

/// Why a job stops before its end.
#[derive(Clone, Copy, Debug, PartialEq, Eq, Error)]
#[error("{}", RunFault::from(*self))]
pub enum Stop {
    Write,
    Memory,
}

impl From<Failed> for Stop {
    ghost use Rattle.mvs_job.specs.declared.printing.Stop.{Stop};

    ghost from_gives = { λ _ stop. stop ≡ Stop.Write };

    fn from(_: Failed) -> Stop {
        Stop::Write
    }
}

impl From<OutOfMemory> for Stop {
    ghost use Rattle.mvs_job.specs.declared.printing.Stop.{Stop};

    ghost from_gives = { λ _ stop. stop ≡ Stop.Memory };

    fn from(_: OutOfMemory) -> Stop {
        Stop::Memory
    }
}

/// Prints the end of a step, if one ended.
pub(crate) fn print_ended<W: Write>(
    writer: &mut Watched<W>,
    end: Option<bool>,
) -> Result<(), Failed>
    ensures { Prints W.contents writer.old writer.new result (printing (ended end)) }
{
    match end {
        Some(abended) => print_step_end(writer, abended),
        None => Ok(()),
    }
}

// Prints the bytes of a place.
fn print_shown<W: Write>(
    writer: &mut Watched<W>,
    line_number: u32,
    task: &Name,
    job: &Job,
    place: Place,
) -> Result<(), Failed>
    requires { IsAvailableIn job.now.state (Answer.Data place) }
    ensures { (fallen : List TaskName)
        → Prints W.contents writer.old writer.new result
        (answer_text line_number task.now
        (full_answer job.now.state fallen task.now (Answer.Data place))) }
{
    match job.step().bytes(place) {
        Some(bytes) => print_data(writer, line_number, task, bytes),
        None => unreachable!(),
    }
}

// Prints the answer to a statement of a task, with the long data of the job.
fn print_answer<W: Write>(
    writer: &mut Watched<W>,
    line_number: u32,
    task: &Name,
    job: &Job,
    fallen: &[Name],
    answer: &Answer,
) -> Result<(), Failed>
    requires { IsAvailableIn job.now.state answer.now }
    ensures { Prints W.contents writer.old writer.new result
        (answer_text line_number task.now (full_answer job.now.state fallen.now task.now answer.now)) }
{
    match answer {
        Answer::Data(place) => print_shown(writer, line_number, task, job, *place),
        Answer::Abended(code) => print_abend(writer, line_number, task, *code, fallen),
        Answer::Subpools => print_subpools(writer, line_number, task, job),
        Answer::Map => print_map(writer, line_number, task, job),
        Answer::NotRun
        | Answer::NoName
        | Answer::At(_)
        | Answer::Rc0
        | Answer::Granted(_)
        | Answer::Rc4
        | Answer::Cell
        | Answer::NoCell
        | Answer::Attached
        | Answer::Ended
        | Answer::Done => print_short_answer(writer, line_number, task, answer),
    }
}

/// Prints the reply to a request of a task that is neither variable nor SHOW. A reply has neither the length of a variable request
/// nor the bytes of SHOW: `print_line` prints these.
pub fn print_reply<W: Write>(
    writer: &mut Watched<W>,
    line_number: u32,
    task: &Name,
    reply: &Reply,
) -> Result<(), Failed>
    ensures { Prints W.contents writer.old writer.new result
        (answer_text line_number task.now (plain_answer reply.now)) }
{
    match reply {
        Reply::NotRun => print_short_answer(writer, line_number, task, &Answer::NotRun),
        Reply::Rc0 => print_short_answer(writer, line_number, task, &Answer::Rc0),
        Reply::Obtained(_) => print_short_answer(writer, line_number, task, &Answer::Rc0),
        Reply::Listed(_) => print_short_answer(writer, line_number, task, &Answer::Rc0),
        Reply::Rc4 => print_short_answer(writer, line_number, task, &Answer::Rc4),
        Reply::Cell(_) => print_short_answer(writer, line_number, task, &Answer::Cell),
        Reply::NoCell => print_short_answer(writer, line_number, task, &Answer::NoCell),
        Reply::Attached => print_short_answer(writer, line_number, task, &Answer::Attached),
        Reply::Ended => print_short_answer(writer, line_number, task, &Answer::Ended),
        Reply::Done => print_short_answer(writer, line_number, task, &Answer::Done),
        Reply::Abended(code, fallen) => {
            print_abend(writer, line_number, task, *code, fallen.names())
        }
    }
}

/// Prints the events of a line, with the long data of the job.
pub fn print_line<W: Write>(
    writer: &mut Watched<W>,
    line_number: u32,
    walk: &Walk,
    line_event: &LineEvent,
) -> Result<(), Failed>
    requires { IsAvailable walk.now line_event.now }
    ensures { Prints W.contents writer.old writer.new result
        (printing (events_of_line line_number walk.now line_event.now)) }
{
    match line_event {
        LineEvent::Nothing => Ok(()),
        LineEvent::StepBegan { ended: end, card } => {
            print_ended(writer, *end)?;
            print_region(writer, line_number, card)
        }
        LineEvent::Answered { task, answer } => match walk.job() {
            Some(job) => print_answer(writer, line_number, task, job, walk.fallen(), answer),
            None => unreachable!(),
        },
        LineEvent::Faulted(fault) => print_fault(writer, line_number, *fault),
    }
}

/// Executes one line, and prints its events. Returns whether the job continues.
pub fn run_line<W: Write>(
    walk: &mut Walk,
    line: &[u8],
    line_event: &[Addr],
    writer: &mut Watched<W>,
) -> Result<bool, Stop>
    requires { walk.old.number + 1 < 2 ^ 32 }
    ensures ran { RunsLine (W.contents writer.old.inner) (W.contents writer.new.inner) walk.old
        line.now walk.new result }
    ensures number { walk.new.number ≡ walk.old.number + 1 }
    ensures ok { OnOk result (writer.new.failed ≡ writer.old.failed) }
    ensures write { IsErrOf result Stop.Write → writer.new.failed ≡ true }
{
    run_entry(walk, line, line_event, writer, &mut Printer)
}

/// Prints the end of a job that has no more lines.
pub fn print_closing<W: Write>(
    writer: &mut Watched<W>,
    line_number: u32,
    end: Option<bool>,
) -> Result<(), Failed>
    ensures { Prints W.contents writer.old writer.new result (printing (closing line_number end)) }
{
    match end {
        Some(abended) => print_step_end(writer, abended),
        None => print_fault(writer, line_number, Fault::OutOfPlace),
    }
}
