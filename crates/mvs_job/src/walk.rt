//! The walk over the lines of a script: each line is parsed and executed, and has events.

ghost use Rattle.std.specs.Prelude.{◌≡◌, ◌<◌, ◌+◌, ◌^◌, ◌∷◌, [], Bool, Some, None, IfOk, IfSome, List, MatchOption, MatchResult, OnErr, length, ℕ};
ghost use Rattle.mvs_model.specs.declared.line.Line.TheVariants as line;
ghost use Rattle.mvs_model.specs.Card.{IsCard};
ghost use Rattle.mvs_model.specs.Job.{JobValue, job_at};
ghost use Rattle.mvs_model.specs.FullAnswers.{ended_with_in, full_answer};
ghost use Rattle.job_script.specs.LineMeaning.{filled};
ghost use Rattle.mvs_model.specs.Lines.{IsLine, IsStatement};
ghost use Rattle.mvs_model.specs.Memory.{StopsForMemory, TakesMemory};
ghost use Rattle.mvs_model.specs.Reading.{IsReading};
ghost use Rattle.mvs_model.specs.Runs.{Does, machine};
ghost use Rattle.mvs_model.specs.Walk.{Closes, has_abended, is_first};
ghost use Rattle.request_forms.specs.Taking.{Takes};
ghost use Rattle.mvs_job.specs.LineEvents.{HasRequest, IsAvailable, IsAvailableIn, ServesAsUnder, KeepsReply, KeepsReplyOf, region_card, closing, end_of_step, ended, new_walk};
ghost use Rattle.mvs_job.specs.Valued.{ObservesValues, RequestsOf, WritesOf};
ghost use Rattle.mvs_job.specs.Observing.{ObservesLine};

use crate::copying::{copy_job, copy_reply};
use crate::copying_lines::{copy_line, copy_request};
use crate::job::Job;
use crate::observer::{Observer, Unobserved};
use crate::run::RunFault;
use job_script::read_line;
use mvs_model::answer::Answer;
use mvs_model::card::Card;
use mvs_model::error::OutOfMemory;
use mvs_model::line::{Fault, Line, Statement};
use mvs_model::name::Name;
use mvs_model::outcome::Outcome;
use mvs_model::place::{Addr, Place};
use mvs_model::request::{Reply, Request};
use mvs_model::want::Placement;
use std::alloc::Global;
use std::marker::Model;
use thiserror::Error;

/// The events of a line.
#[derive(Clone, Copy, Debug, PartialEq, Eq)]
pub enum LineEvent {
    /// It is blank or a comment.
    Nothing,
    /// A REGION statement: the step that ran, if one did, has ended, and a task of it had abended or not; and another one has
    /// begun.
    StepBegan { ended: Option<bool>, card: Card },
    /// A statement of a task, in a step.
    Answered { task: Name, answer: Answer },
    /// The line has a fault, which ends the job.
    Faulted(Fault),
}

/// Memory was exhausted at a line. For a REGION statement the running step, if there was one, has ended: whether a task of it had
/// abended.
#[derive(Clone, Copy, Debug, PartialEq, Eq, Error)]
#[error("{}", RunFault::Memory)]
pub struct OutOfMemoryAt {
    pub ended: Option<bool>,
}

impl From<OutOfMemory> for OutOfMemoryAt {
    ghost use Rattle.std.specs.Prelude.{◌≡◌, None};

    ghost from_gives = { λ _ stopped. stopped.ended ≡ None };

    fn from(_: OutOfMemory) -> OutOfMemoryAt {
        OutOfMemoryAt { ended: None }
    }
}

/// How a job ends that has no more lines: its step ends, and a task of it had abended or not; where no step has begun, the
/// script lacks its REGION statement.
#[derive(Clone, Copy, Debug, PartialEq, Eq)]
pub struct JobEnd {
    pub ended: Option<bool>,
    pub outcome: Outcome,
}

/// A job between two lines of its script.
#[derive(Drop)]
pub struct Walk {
    alloc: Global,
    placement: Placement,
    /// The step that runs; None before the first.
    job: Option<Job>,
    /// The number of the next line.
    number: u32,
    /// The last line that was parsed, the last request that a line made, and the last reply. They are large, so they stay in place.
    read: Line,
    request: Request,
    reply: Reply,
}

impl Model for Walk {
    ghost use Rattle.mvs_job.specs.LineEvents.{WalkValue, walk_code};

    ghost Value = { WalkValue };

    ghost coded = { walk_code };

    ghost view = { λ w. record { step = w.job; number = w.number; read = w.read; request = w.request; reply = w.reply } };
}

// Returns the card of a REGION statement of a task, or None for another statement.
fn card_of(task: &Name, statement: &Statement) -> Option<Card>
    requires { (first : Bool) × IsStatement first task.now statement.now }
    ensures card { result ≡ region_card task.now statement.now }
    ensures in_range { IfSome result IsCard }
{
    match statement {
        Statement::Region {
            below,
            above,
            fill,
            residence,
        } => Some(Card::new(*task, *below, *above, *fill, *residence)),
        Statement::Request(_)
        | Statement::Where(_)
        | Statement::ReportSubpools
        | Statement::ReportMap => None,
    }
}

// Returns whether a task of the step that runs has abended, if one runs.
fn end_of(job: &Option<Job>) -> Option<bool>
    ensures { result ≡ end_of_step job.now }
{
    job.as_ref().map(|job| job.step().abended())
}

// Returns whether a task has abended so far.
fn has_abended(job: &Option<Job>) -> bool
    ensures { result ≡ has_abended machine job.now }
{
    match job {
        Some(job) => job.any_abended(),
        None => false,
    }
}

// Ends the step that runs, if one does, and begins that of a card.
fn begin(
    job: &mut Option<Job>,
    alloc: Global,
    placement: Placement,
    card: &Card,
) -> Result<Option<bool>, OutOfMemoryAt>
    requires { IsCard card.now }
    ensures { MatchResult result
        (λ ended. (ended ≡ end_of_step job.old)
        × (job.new ≡ Some (job_at card.now (has_abended machine job.old))))
        (λ stopped. stopped.ended ≡ end_of_step job.old) }
{
    let ended = end_of(job);
    let former = has_abended(job);
    *job = None;
    let next = Job::new(alloc, card, placement, former).map_err(|_| OutOfMemoryAt { ended })?;
    *job = Some(next);
    Ok(ended)
}

impl Walk {
    /// Makes a job before its first line.
    pub fn new(alloc: Global, placement: Placement) -> Walk
        ensures { result ≡ new_walk }
    {
        Walk {
            alloc,
            placement,
            job: None,
            number: 1,
            read: Line::Nothing,
            request: Request::Return,
            reply: Reply::NotRun,
        }
    }

    /// Returns the number of the next line.
    pub fn number(&self) -> u32
        ensures { result ≡ self.now.number }
    {
        self.number
    }

    /// Returns the step that runs; None before the first.
    pub fn job(&self) -> Option<&Job>
        ensures { MatchOption result (self.now.step ≡ None) (λ job. self.now.step ≡ Some job.now) }
    {
        self.job.as_ref()
    }

    /// Returns what the last line says that was parsed: nothing, if it has a fault.
    pub fn read(&self) -> &Line
        ensures { result.now ≡ self.now.read }
    {
        &self.read
    }

    /// Returns the tasks that ended with the one that abended, if the last request abended.
    pub fn fallen(&self) -> &[Name]
        ensures { result.now ≡ ended_with_in self.now.reply }
    {
        match &self.reply {
            Reply::Abended(_, fallen) => fallen.names(),
            Reply::NotRun
            | Reply::Rc0
            | Reply::Rc4
            | Reply::Obtained(_)
            | Reply::Listed(_)
            | Reply::Cell(_)
            | Reply::NoCell
            | Reply::Attached
            | Reply::Ended
            | Reply::Done => &[],
        }
    }

    /// Returns the last request that a line made. One that is made by values is not kept.
    pub fn last_request(&self) -> &Request
        ensures { result.now ≡ self.now.request }
    {
        &self.request
    }

    /// Returns the reply to the last request that was made.
    pub fn reply(&self) -> &Reply
        ensures { result.now ≡ self.now.reply }
    {
        &self.reply
    }

    /// Executes a request of a task that is given by values, and keeps the reply. Returns false if no step is running. The observer
    /// sees the request if it is refused.
    pub fn request<O: Observer>(&mut self, task: &Name, request: &Request, observer: &mut O) -> bool
        ensures requests { RequestsOf self.old task.now request.now result self.new }
        ensures observed { ObservesValues O.heard observer.old self.old.step task.now request.now self.new
            observer.new }
    {
        match &mut self.job {
            Some(job) => {
                job.request(task, request, &mut self.reply, observer);
                true
            }
            None => false,
        }
    }

    /// Overwrites the bytes of a place, and returns whether it did. None changes if no step runs, or if one of them may not be
    /// written.
    pub fn write(&mut self, place: Place, bytes: &[u8]) -> bool
        requires { length bytes.now ≡ place.len }
        ensures { WritesOf self.old place bytes.now result self.new }
    {
        match &mut self.job {
            Some(job) => job.write(place, bytes),
            None => false,
        }
    }

    /// Parses the next line, which is given without its newline. `read` returns what it says, and `execute` executes it.
    pub fn parse(&mut self, line: &[u8]) -> Result<(), Fault>
        ensures reading { IsReading (is_first self.new.step) line.now (filled self.new.read result) }
        ensures in_range { IsLine (is_first self.new.step) (filled self.new.read result) }
        ensures fault { OnErr result (self.new.read ≡ Line.Nothing) }
        ensures rest { self.new ≡ record self.old { read = self.new.read } }
    {
        match read_line(line, self.job.is_none(), &mut self.read) {
            Ok(()) => Ok(()),
            Err(fault) => {
                self.read = Line::Nothing;
                Err(fault)
            }
        }
    }

    /// Executes the line that was parsed last, as `line` does, and shows its request to an observer if that is refused. `parsed` is
    /// what `parse` returned.
    pub fn execute<O: Observer>(
        &mut self,
        parsed: Result<(), Fault>,
        hints: &[Addr],
        observer: &mut O,
    ) -> Result<LineEvent, OutOfMemoryAt>
        requires number { self.old.number + 1 < 2 ^ 32 }
        requires in_range { IsLine (is_first self.old.step) (filled self.old.read parsed) }
        // It is any line that is parsed so.
        ensures executed { (line : List ℕ) → IsReading (is_first self.old.step) line (filled self.old.read parsed)
            → MatchResult result (λ answered. ServesAsUnder (Takes hints.now) self.old line answered self.new)
            (λ stopped. StopsForMemory self.old.number self.old.step (line ∷ []) (ended stopped.ended)) }
        ensures reply { (line : List ℕ) → IsReading (is_first self.old.step) line (filled self.old.read parsed)
            → IfOk result (λ answered. KeepsReplyOf self.old line answered self.new) }
        ensures observed { (line : List ℕ) → IsReading (is_first self.old.step) line (filled self.old.read parsed)
            → IfOk result (λ answered. ObservesLine O.heard observer.old self.old.step line answered self.new observer.new) }
        // If memory is exhausted, it sees nothing.
        ensures unheard { OnErr result (observer.new ≡ observer.old) }
        ensures request { IfOk result (HasRequest self.new) }
        ensures full_answer { IfOk result (IsAvailable self.new) }
        ensures read { self.new.read ≡ self.old.read }
        ensures number { self.new.number ≡ self.old.number + 1 }
    {
        self.number += 1;
        if let Err(fault) = parsed {
            return Ok(LineEvent::Faulted(fault));
        }
        let Line::Statement(task, statement) = &self.read else {
            return Ok(LineEvent::Nothing);
        };
        if let Some(card) = card_of(task, statement) {
            let ended = begin(&mut self.job, self.alloc, self.placement, &card)?;
            return Ok(LineEvent::StepBegan { ended, card });
        }
        let Some(job) = &mut self.job else {
            unreachable!();
        };
        let answer = job.serve(
            task,
            statement,
            hints,
            &mut self.request,
            &mut self.reply,
            observer,
        )?;
        Ok(LineEvent::Answered {
            task: *task,
            answer,
        })
    }

    /// Executes one line, which is given without its newline. Areas and cells are placed at the hinted addresses if the machine
    /// allows that.
    pub fn line(&mut self, line: &[u8], hints: &[Addr]) -> Result<LineEvent, OutOfMemoryAt>
        requires { self.old.number + 1 < 2 ^ 32 }
        ensures executed { MatchResult result (λ answered. ServesAsUnder (Takes hints.now) self.old line.now answered self.new)
            (λ stopped. StopsForMemory self.old.number self.old.step (line.now ∷ [])
            (ended stopped.ended)) }
        // The kept reply is that to the line's request; if the line makes none, it is the one before.
        ensures reply { IfOk result (λ answered. KeepsReplyOf self.old line.now answered self.new) }
        ensures full_answer { IfOk result (IsAvailable self.new) }
        ensures number { self.new.number ≡ self.old.number + 1 }
    {
        self.observed_line(line, hints, &mut Unobserved)
    }

    /// Executes one line as `line` does, and shows its request to an observer if that is refused.
    pub fn observed_line<O: Observer>(
        &mut self,
        line: &[u8],
        hints: &[Addr],
        observer: &mut O,
    ) -> Result<LineEvent, OutOfMemoryAt>
        requires { self.old.number + 1 < 2 ^ 32 }
        ensures executed { MatchResult result (λ answered. ServesAsUnder (Takes hints.now) self.old line.now answered self.new)
            (λ stopped. StopsForMemory self.old.number self.old.step (line.now ∷ [])
            (ended stopped.ended)) }
        ensures reply { IfOk result (λ answered. KeepsReplyOf self.old line.now answered self.new) }
        ensures observed { IfOk result
            (λ answered. ObservesLine O.heard observer.old self.old.step line.now answered self.new
            observer.new) }
        // If memory is exhausted, it sees nothing.
        ensures unheard { OnErr result (observer.new ≡ observer.old) }
        ensures full_answer { IfOk result (IsAvailable self.new) }
        ensures number { self.new.number ≡ self.old.number + 1 }
    {
        let parsed = self.parse(line);
        self.execute(parsed, hints, observer)
    }

    /// Returns how the job ends, if it has no more lines.
    pub fn close(&self) -> JobEnd
        ensures { Closes machine self.now.number self.now.step
            (closing self.now.number result.ended) result.outcome }
    {
        let outcome = match &self.job {
            None => Outcome::ScriptFault,
            Some(job) if job.any_abended() => Outcome::SomeAbend,
            Some(_) => Outcome::Clean,
        };
        JobEnd {
            ended: end_of(&self.job),
            outcome,
        }
    }

    /// Returns a copy, which continues as the original would. It fails if memory is exhausted.
    pub fn try_clone(&self) -> Result<Walk, OutOfMemory>
        ensures { IfOk result (λ copy. copy ≡ self.now) }
    {
        Ok(Walk {
            alloc: self.alloc,
            placement: self.placement,
            job: copy_job(&self.job)?,
            number: self.number,
            read: copy_line(&self.read),
            request: copy_request(&self.request),
            reply: copy_reply(&self.reply),
        })
    }
}
