//! What a session records of its last request, if that is asked for, so that its effects are known.

ghost use Rattle.std.specs.Prelude.{◌≡◌, IfOk, IsOk, IsSome, MatchResult};
ghost use Rattle.mvs_c.specs.Effects.{asked_of};
ghost use Rattle.mvs_c.specs.Recording.{Looks, forgotten, makes_request, no_recorder, owned_in, recorded, recorded_line, settled, switched_on};

use crate::asked::{Asked, asked_in, asked_of};
use crate::baseline::{Baseline, baseline_of};
use crate::owned_list::OwnedList;
use job_script::read_line;
use mvs_job::{Job, LineEvent, OutOfMemoryAt, OwnedSubpool, Walk};
use mvs_model::answer::Answer;
use mvs_model::error::OutOfMemory;
use mvs_model::line::{Line, Statement};
use mvs_model::name::Name;
use mvs_model::request::Request;
use std::alloc::Global;

/// What is recorded of the last request.
#[derive(Drop)]
pub struct Recorder {
    /// Whether the last event was a request that was recorded.
    pub is_made: bool,
    pub task: Name,
    pub asked: Asked,
    pub baseline: Baseline,
    /// The subpools that tasks owned before it; None if nothing is to be recorded.
    pub owned: Option<OwnedList>,
}

// Returns whether an answer is that to a request of a statement.
fn answers_request(answer: &Answer) -> bool
    ensures { result ≡ makes_request answer.now }
{
    match answer {
        Answer::Rc0
        | Answer::Granted(_)
        | Answer::Rc4
        | Answer::Cell
        | Answer::NoCell
        | Answer::Attached
        | Answer::Ended
        | Answer::Done
        | Answer::Data(_)
        | Answer::Abended(_) => true,
        Answer::NotRun | Answer::NoName | Answer::At(_) | Answer::Subpools | Answer::Map => false,
    }
}

impl Recorder {
    /// Makes one that records nothing.
    pub fn none() -> Recorder
        ensures { result ≡ no_recorder }
    {
        Recorder {
            is_made: false,
            task: Name::of(b"NONE"),
            asked: Asked::Other,
            baseline: Baseline::none(),
            owned: None,
        }
    }

    /// Begins to record. It fails if memory is exhausted.
    pub fn switch_on(&mut self, alloc: Global) -> Result<(), OutOfMemory>
        ensures on { MatchResult result (λ _. self.new ≡ switched_on self.old) (λ _. self.new ≡ self.old) }
        ensures already { IsSome self.old.owned → IsOk result }
    {
        if self.owned.is_none() {
            self.owned = Some(OwnedList::new(alloc)?);
        }
        Ok(())
    }

    /// Forgets the last request.
    pub fn forget(&mut self)
        ensures { self.new ≡ forgotten self.old }
    {
        self.is_made = false;
    }

    // Records what a request of a task asks, before it is executed, if that is to be recorded.
    fn record(&mut self, job: &Job, task: &Name, asked: Asked)
        ensures { self.new ≡ recorded self.old job.now task.now asked }
    {
        self.is_made = false;
        if let Some(owned) = &mut self.owned {
            owned.collect(job, task);
            self.is_made = true;
            self.task = *task;
            self.baseline = baseline_of(job, task, &asked);
            self.asked = asked;
        }
    }

    /// Records a request of a task, before it is executed, if that is to be recorded.
    #[inline(always)]
    pub fn record_request(&mut self, job: &Job, task: &Name, request: &Request)
        ensures { self.new ≡ recorded self.old job.now task.now (asked_of request.now) }
    {
        self.is_made = false;
        if self.owned.is_some() {
            self.record(job, task, asked_of(request));
        }
    }

    // Records what a line asks that was read, before it is executed.
    fn record_line(&mut self, job: &Job, read: &Line)
        ensures { self.new ≡ recorded_line self.old job.now read.now }
    {
        self.is_made = false;
        match read {
            Line::Statement(task, Statement::Request(written)) => {
                self.record(job, task, asked_in(written));
            }
            Line::Statement(
                _,
                Statement::Region { .. }
                | Statement::Where(_)
                | Statement::ReportSubpools
                | Statement::ReportMap,
            )
            | Line::Nothing => {}
        }
    }

    /// Records what a line asks, before it is executed, if that is to be recorded.
    pub fn look(&mut self, walk: &Walk, line: &[u8])
        ensures { Looks self.old walk.now.step line.now self.new }
    {
        self.is_made = false;
        if self.owned.is_none() {
            return;
        }
        let Some(job) = walk.job() else {
            return;
        };
        let mut read = Line::Nothing;
        if let Ok(()) = read_line(line, false, &mut read) {
            self.record_line(job, &read);
        }
    }

    /// Forgets what was recorded of a line that made no request.
    pub fn settle(&mut self, line_event: &Result<LineEvent, OutOfMemoryAt>)
        ensures { self.new ≡ settled line_event.now self.old }
    {
        match line_event {
            Ok(LineEvent::Answered { answer, .. }) => {
                if !answers_request(answer) {
                    self.is_made = false;
                }
            }
            Ok(LineEvent::Nothing | LineEvent::StepBegan { .. } | LineEvent::Faulted(_)) | Err(_) =>
                self.is_made = false,
        }
    }

    /// Returns the subpools that tasks owned before the request.
    pub fn owned_subpools(&self) -> &[OwnedSubpool]
        ensures { result.now ≡ owned_in self.now }
    {
        match &self.owned {
            Some(owned) => owned.as_slice(),
            None => &[],
        }
    }

    /// Returns a copy. It fails if memory is exhausted.
    pub fn try_clone(&self) -> Result<Recorder, OutOfMemory>
        ensures { IfOk result (λ copy. copy ≡ self.now) }
    {
        let owned = self.owned.as_ref().map(OwnedList::try_clone).transpose()?;
        Ok(Recorder {
            is_made: self.is_made,
            task: self.task,
            asked: self.asked.copied(),
            baseline: self.baseline.copied(),
            owned,
        })
    }
}
