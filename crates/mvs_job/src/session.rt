//! A job that gets its lines one by one.

ghost use Rattle.std.specs.Prelude.{◌≡◌, ◌≢◌, ◌<◌, ◌≤◌, ◌+◌, ◌^◌, ◌⊎◌, ◌↔◌, ◌∷◌, [], ℕ, true, false, None, Some, Ok, IfOk, IfSome, IsSome, MatchOption, MatchResult, OnErr, length, slice_get};
ghost use Rattle.std.specs.FinMap.{get};
ghost use Rattle.mvs_model.specs.Changes.{Granted};
ghost use Rattle.mvs_model.specs.Job.{JobValue};
ghost use Rattle.mvs_model.specs.Memory.{StopsForMemory};
ghost use Rattle.mvs_model.specs.Numbers.{subpool_numbers};
ghost use Rattle.mvs_model.specs.Runs.{machine};
ghost use Rattle.mvs_model.specs.Walk.{Closes};
ghost use Rattle.mvs_job.specs.Sessions.{new_session};
ghost use Rattle.mvs_job.specs.LineEvents.{IsAvailable, ServesAs, KeepsReplyOf, closing, ended, events_of_line, continues};
ghost use Rattle.mvs_job.specs.Why.{OfNext};
ghost use Rattle.mvs_job.specs.Observing.{ObservesLine};
ghost use Rattle.mvs_job.specs.Valued.{ObservesValues, RequestsOf, WritesOf};

use crate::apart::Explainer;
use crate::observer::{Observer, Unobserved};
use crate::walk::{JobEnd, LineEvent, OutOfMemoryAt, Walk};
use mvs_model::error::OutOfMemory;
use mvs_model::name::Name;
use mvs_model::place::Place;
use mvs_model::reason::LineReason;
use mvs_model::request::Request;
use mvs_model::want::Placement;
use std::alloc::Global;
use std::marker::Model;

/// A job, from before its first line on.
#[derive(Drop)]
pub struct Session {
    walk: Walk,
    continues: bool,
}

impl Model for Session {
    ghost use Rattle.mvs_job.specs.Sessions.{SessionValue, session_code};

    ghost Value = { SessionValue };

    ghost coded = { session_code };

    ghost view = { λ s. record { walk = s.walk; continues = s.continues } };
}

impl Session {
    /// Makes a job before its first line.
    pub fn new(alloc: Global, placement: Placement) -> Session
        ensures { result ≡ new_session }
    {
        Session {
            walk: Walk::new(alloc, placement),
            continues: true,
        }
    }

    /// Returns whether the job accepts a line: it has not ended, and there is a number for the next line.
    pub fn takes_line(&self) -> bool
        ensures yes { result ≡ true
            → (self.now.continues ≡ true) × (self.now.walk.number + 1 < 2 ^ 32) }
        ensures no { result ≡ false
            → (self.now.continues ≡ false) ⊎ (2 ^ 32 ≤ self.now.walk.number + 1) }
    {
        self.continues && self.walk.number() < u32::MAX
    }

    /// Returns whether the job continues: no line had a fault, memory was not exhausted, and it was not closed.
    pub fn continues(&self) -> bool
        ensures { result ≡ self.now.continues }
    {
        self.continues
    }

    /// Returns the state of the job: the number of the next line, and the long data of the last answer.
    pub fn walk(&self) -> &Walk
        ensures { result.now ≡ self.now.walk }
    {
        &self.walk
    }

    /// Executes one line, which is given without its newline, and returns its events. A fault ends the job, and so does want of
    /// memory.
    pub fn line(&mut self, line: &[u8]) -> Result<LineEvent, OutOfMemoryAt>
        requires continues { self.old.continues ≡ true }
        requires number { self.old.walk.number + 1 < 2 ^ 32 }
        ensures executed { MatchResult result (λ line_event. ServesAs self.old.walk line.now line_event self.new.walk)
            (λ stopped. StopsForMemory self.old.walk.number self.old.walk.step (line.now ∷ [])
            (ended stopped.ended)) }
        ensures reply { IfOk result
            (λ line_event. KeepsReplyOf self.old.walk line.now line_event self.new.walk) }
        ensures full_answer { IfOk result (IsAvailable self.new.walk) }
        ensures number { self.new.walk.number ≡ self.old.walk.number + 1 }
        ensures continues { self.new.continues ≡ continues result }
    {
        self.observed_line(line, &mut Unobserved)
    }

    /// Executes one line as `line` does. The observer sees its request if that is refused.
    pub fn observed_line<O: Observer>(
        &mut self,
        line: &[u8],
        observer: &mut O,
    ) -> Result<LineEvent, OutOfMemoryAt>
        requires continues { self.old.continues ≡ true }
        requires number { self.old.walk.number + 1 < 2 ^ 32 }
        ensures executed { MatchResult result (λ line_event. ServesAs self.old.walk line.now line_event self.new.walk)
            (λ stopped. StopsForMemory self.old.walk.number self.old.walk.step (line.now ∷ [])
            (ended stopped.ended)) }
        ensures reply { IfOk result
            (λ line_event. KeepsReplyOf self.old.walk line.now line_event self.new.walk) }
        ensures observed { IfOk result
            (λ line_event. ObservesLine O.heard observer.old self.old.walk.step line.now line_event self.new.walk
            observer.new) }
        // If memory is exhausted, it sees nothing.
        ensures unheard { OnErr result (observer.new ≡ observer.old) }
        ensures full_answer { IfOk result (IsAvailable self.new.walk) }
        ensures number { self.new.walk.number ≡ self.old.walk.number + 1 }
        ensures continues { self.new.continues ≡ continues result }
    {
        let line_event = self.walk.observed_line(line, &[], observer);
        self.continues = match &line_event {
            Ok(LineEvent::Faulted(_)) => false,
            Ok(_) => true,
            Err(_) => false,
        };
        line_event
    }

    /// Executes one line as `line` does, and returns its events and why it was not executed as it asks. The explainer has seen
    /// each line of the session.
    pub fn explain(
        &mut self,
        explainer: &mut Explainer,
        line: &[u8],
    ) -> Result<(LineEvent, Option<LineReason>), OutOfMemoryAt>
        requires continues { self.old.continues ≡ true }
        requires number { self.old.walk.number + 1 < 2 ^ 32 }
        ensures executed { MatchResult result
            (λ r. ServesAs self.old.walk line.now r.0 self.new.walk)
            (λ stopped. StopsForMemory self.old.walk.number self.old.walk.step (line.now ∷ [])
            (ended stopped.ended)) }
        ensures reason { IfOk result
            (λ r. OfNext self.old.walk.step line.now
            (events_of_line self.old.walk.number self.new.walk r.0) r.1) }
        ensures full_answer { IfOk result (λ r. IsAvailable self.new.walk r.0) }
        ensures number { self.new.walk.number ≡ self.old.walk.number + 1 }
        ensures continues { IfOk result (λ r. self.new.continues ≡ continues (Ok r.0)) }
    {
        let line_event = explainer.line(&mut self.walk, line);
        self.continues = match &line_event {
            Ok((LineEvent::Faulted(_), _)) => false,
            Ok(_) => true,
            Err(_) => false,
        };
        line_event
    }

    /// Executes a request of a task that is given by values, and keeps the reply. Returns false if no step is running. It is no line:
    /// it has no number, and sets no name. The observer sees it if it is refused.
    pub fn request<O: Observer>(&mut self, task: &Name, request: &Request, observer: &mut O) -> bool
        requires { self.old.continues ≡ true }
        ensures served { RequestsOf self.old.walk task.now request.now result self.new.walk }
        ensures observed { ObservesValues O.heard observer.old self.old.walk.step task.now request.now
            self.new.walk observer.new }
        ensures continues { self.new.continues ≡ true }
    {
        self.walk.request(task, request, observer)
    }

    /// Overwrites the bytes of a place, and returns whether it did. None changes if no step runs, or if one of them may not be
    /// written.
    pub fn write(&mut self, place: Place, bytes: &[u8]) -> bool
        requires continues { self.old.continues ≡ true }
        requires len { length bytes.now ≡ place.len }
        ensures written { WritesOf self.old.walk place bytes.now result self.new.walk }
        ensures continues { self.new.continues ≡ true }
    {
        self.walk.write(place, bytes)
    }

    /// Ends a job that has no more lines, and returns how it ends.
    pub fn close(&mut self) -> JobEnd
        requires { self.old.continues ≡ true }
        ensures closed { Closes machine self.old.walk.number self.old.walk.step
            (closing self.old.walk.number result.ended) result.outcome }
        ensures walk { self.new.walk ≡ self.old.walk }
        ensures over { self.new.continues ≡ false }
    {
        self.continues = false;
        self.walk.close()
    }

    /// Returns a copy, which continues as the original would. What one of them does later has no effect on the other. It fails if
    /// memory is exhausted.
    pub fn try_clone(&self) -> Result<Session, OutOfMemory>
        ensures { IfOk result (λ copy. copy ≡ self.now) }
    {
        Ok(Session {
            walk: self.walk.try_clone()?,
            continues: self.continues,
        })
    }
}
