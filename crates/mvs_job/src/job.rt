//! A step with the names that it has set. It executes statements, and has the long data of their answers.

ghost use Rattle.std.specs.Prelude.{◌≡◌, ◌≢◌, ◌⊎◌, ◌||◌, ◌<◌, ◌≤◌, ◌↔◌, ℕ, List, [], ◌+◌, true, false, None, Some, IfOk, IfSome, IsSome, OnErr, MatchOption, MatchResult, length, slice_get};
ghost use Rattle.std.specs.FinMap.{get};
ghost use Rattle.mvs_model.specs.declared.line.Line.TheVariants as line;
ghost use Rattle.mvs_model.specs.declared.name.Name.{Name as TaskName};
ghost use Rattle.mvs_model.specs.Card.{IsCard};
ghost use Rattle.mvs_model.specs.Job.{JobValue, job_at};
ghost use Rattle.mvs_model.specs.FullAnswers.{ended_with_in, full_answer};
ghost use Rattle.mvs_model.specs.Lines.{IsStatement, IsWritten};
ghost use Rattle.mvs_model.specs.Memory.{SetsName, TakesMemory};
ghost use Rattle.mvs_model.specs.Numbers.{most_shown};
ghost use Rattle.mvs_model.specs.Owners.{is_active};
ghost use Rattle.mvs_model.specs.Place.{PlaceValue};
ghost use Rattle.mvs_model.specs.Replies as replies;
ghost use Rattle.mvs_model.specs.Resolving.{first_unset, looked_up, resolved};
ghost use Rattle.mvs_model.specs.Runs.{Asks, Does, Makes};
ghost use Rattle.mvs_model.specs.State.{State};
ghost use Rattle.mvs_model.specs.View.{IsBounded};
ghost use Rattle.request_forms.specs.Taking.{Takes};
ghost use Rattle.mvs_job.specs.LineEvents.{IsAvailableIn, KeepsReply, KeepsRequest, Replies, region_card};
ghost use Rattle.mvs_job.specs.Steady.{IsSteady};
ghost use Rattle.mvs_job.specs.Valued.{BuildsInRange, MayWrite, Requests};
ghost use Rattle.mvs_model.specs.Steps.{Step as MachineStep};
ghost use Rattle.mvs_job.specs.Observing.{Fails, ObservesRequest, KeepsNamesAndFormer, Observes, Passes};

use crate::observer::Observer;
use job_script::{NamePlaces, resolve, set_names, unset};
use job_step::Step;
use mvs_model::answer::Answer;
use mvs_model::card::Card;
use mvs_model::error::OutOfMemory;
use mvs_model::line::{SourceRequest, Statement};
use mvs_model::name::Name;
use mvs_model::place::{Addr, Place};
use mvs_model::refusal::Refusal;
use mvs_model::request::{Reply, Request};
use mvs_model::want::Placement;
use request_forms::no_shortfall;
use std::alloc::Global;
use std::marker::Model;

/// A step with the names that it has set, and what became of the former steps.
#[derive(Drop)]
pub struct Job {
    step: Step,
    names: NamePlaces,
    former: bool,
}

impl Model for Job {
    ghost use Rattle.mvs_model.specs.Job.{JobValue};
    ghost use Rattle.mvs_job.specs.LineEvents.{job_code};
    ghost use Rattle.mvs_job.specs.Steady.{IsSteady};

    ghost Value = { JobValue };

    ghost coded = { job_code };

    ghost view = { λ r. record { state = r.step.state; names = r.names; abended = r.step.abended; former = r.former } };

    ghost invariant = { λ r. IsSteady r.step.state };
}

// Shows that the numbers of a pool that a request builds are in their ranges, as their types say.
fn builds_in_range(request: &Request)
    ensures { BuildsInRange request.now }
{
    if let Request::Build {
        size,
        primary,
        secondary,
        ..
    } = request
    {
        let _ = (size.get(), primary.get(), secondary.get());
    }
}

// Returns the answer of a grant: its length, if the request is variable.
fn grant_answer(written: &SourceRequest, place: &Place) -> Answer
    ensures answer { (st : State) (fallen : List TaskName) (t : TaskName)
        → full_answer st fallen t result ≡ replies.grant_answer written.now place.now }
    ensures quiet { (p : PlaceValue) → result ≢ Answer.Data p }
{
    match written {
        SourceRequest::Obtain { variable: true, .. } => Answer::Granted(place.len()),
        SourceRequest::Obtain {
            variable: false,
            ..
        }
        | SourceRequest::ObtainList { .. }
        | SourceRequest::Release { .. }
        | SourceRequest::ReleaseArea { .. }
        | SourceRequest::ReleaseList { .. }
        | SourceRequest::ReleaseWhole { .. }
        | SourceRequest::Build { .. }
        | SourceRequest::Get { .. }
        | SourceRequest::Free { .. }
        | SourceRequest::Delete { .. }
        | SourceRequest::Attach { .. }
        | SourceRequest::Return
        | SourceRequest::Abend(_)
        | SourceRequest::Show { .. }
        | SourceRequest::Put { .. }
        | SourceRequest::Move { .. } => Answer::Rc0,
    }
}

// Returns the answer of a request that read or wrote bytes: the job has what SHOW read.
fn done_answer(request: &Request) -> Answer
    ensures answer { (st : State) (fallen : List TaskName) (t : TaskName)
        → full_answer st fallen t result ≡ replies.done_answer st request.now }
    ensures shown { (p : PlaceValue) → result ≡ Answer.Data p
        → (request.now ≡ Request.Show p.addr p.len) × (p.len ≤ most_shown) }
{
    match request {
        Request::Show { from, len } => Answer::Data(Place::new(*from, len.get())),
        Request::Obtain { .. }
        | Request::ObtainList { .. }
        | Request::Release { .. }
        | Request::ReleaseList { .. }
        | Request::ReleaseWhole { .. }
        | Request::Build { .. }
        | Request::Get { .. }
        | Request::Free { .. }
        | Request::Delete { .. }
        | Request::Attach { .. }
        | Request::Return
        | Request::Abend(_)
        | Request::Put { .. }
        | Request::Move { .. } => Answer::Done,
    }
}

// Returns the answer for the reply to a request.
fn answer_of(written: &SourceRequest, request: &Request, reply: &Reply) -> Answer
    ensures answer { (st : State) (t : TaskName)
        → full_answer st (ended_with_in reply.now) t result
        ≡ replies.answer_of st written.now request.now reply.now }
    ensures shown { (p : PlaceValue) → result ≡ Answer.Data p
        → (request.now ≡ Request.Show p.addr p.len) × (reply.now ≡ Reply.Done)
        × (p.len ≤ most_shown) }
{
    match reply {
        Reply::NotRun => Answer::NotRun,
        Reply::Rc0 | Reply::Listed(_) => Answer::Rc0,
        Reply::Rc4 => Answer::Rc4,
        Reply::Obtained(place) => grant_answer(written, place),
        Reply::Cell(_) => Answer::Cell,
        Reply::NoCell => Answer::NoCell,
        Reply::Attached => Answer::Attached,
        Reply::Ended => Answer::Ended,
        Reply::Done => done_answer(request),
        Reply::Abended(code, _) => Answer::Abended(*code),
    }
}

// Returns the answer to WHERE.
fn where_answer(place: Option<Place>) -> Answer
    ensures answer { (st : State) (fallen : List TaskName) (t : TaskName)
        → full_answer st fallen t result ≡ replies.where_answer place }
    ensures quiet { (st : State) → IsAvailableIn st result }
{
    match place {
        Some(place) => Answer::At(place.addr()),
        None => Answer::NoName,
    }
}

impl Job {
    /// Makes a step at its start; `former` says whether a task of a former step has abended.
    pub fn new(
        alloc: Global,
        card: &Card,
        placement: Placement,
        former: bool,
    ) -> Result<Job, OutOfMemory>
        requires { IsCard card.now }
        ensures { IfOk result (λ job. job ≡ job_at card.now former) }
    {
        let step = Step::new(alloc, card, placement)?;
        Ok(Job {
            step,
            names: NamePlaces::new(alloc),
            former,
        })
    }

    /// Returns the machine of the step, which answers questions about its tasks, its storage and its pools.
    pub fn step(&self) -> &Step
        ensures state { result.now.state ≡ self.now.state }
        ensures abended { result.now.abended ≡ self.now.abended }
        ensures bounded { IsBounded self.now.state.regions }
        ensures steady { IsSteady self.now.state }
    {
        &self.step
    }

    /// Returns whether a task of this step or of a former one has abended.
    pub fn any_abended(&self) -> bool
        ensures { result ≡ (self.now.abended || self.now.former) }
    {
        self.step.abended() || self.former
    }

    /// Returns the place that a name was last set to, by any task.
    pub fn place_of(&self, name: &Name) -> Option<Place>
        ensures { result ≡ get self.now.names name.now }
    {
        self.names.get(name)
    }

    /// Returns whether each name that a request looks up is set. If so, it writes the request of the machine over `request`.
    pub fn request_of(&self, written: &SourceRequest, request: &mut Request) -> Option<()>
        ensures { MatchOption result (resolved self.now.names written.now ≡ None)
            (λ _. resolved self.now.names written.now ≡ Some request.new) }
    {
        resolve(&self.names, written, request)
    }

    /// Returns the leftmost name in a request that is not set.
    pub fn unset(&self, written: &SourceRequest) -> Option<Name>
        ensures { result ≡ first_unset self.now.names (looked_up written.now) }
    {
        unset(&self.names, written)
    }

    /// Executes a request that is given by values, and writes the reply to it over another one. It sets no name. The observer sees
    /// the request if it is refused.
    pub fn request<O: Observer>(
        &mut self,
        task: &Name,
        request: &Request,
        reply: &mut Reply,
        observer: &mut O,
    )
        ensures requests { Requests self.old task.now request.now reply.new self.new }
        ensures observed { ObservesRequest O.heard observer.old self.old task.now request.now reply.new
            self.new.state observer.new }
    {
        self.settle_or_do(task, request, &[], reply, observer);
    }

    /// Overwrites the bytes of a place, and returns whether it did. If one of them may not be written, none changes.
    pub fn write(&mut self, place: Place, bytes: &[u8]) -> bool
        requires { length bytes.now ≡ place.len }
        ensures { MayWrite self.old place bytes.now result self.new }
    {
        self.step.write(place, bytes)
    }

    // Attempts a task's request. If it is refused, the observer sees that before it is settled.
    fn settle_or_do<O: Observer>(
        &mut self,
        task: &Name,
        request: &Request,
        hints: &[Addr],
        reply: &mut Reply,
        observer: &mut O,
    )
        ensures step { MachineStep self.old.state task.now request.now reply.new self.new.state }
        ensures rest { KeepsNamesAndFormer self.old reply.new self.new }
        ensures hinted { Takes hints.now self.old.state task.now request.now reply.new self.new.state }
        ensures observed { ObservesRequest O.heard observer.old self.old task.now request.now reply.new
            self.new.state observer.new }
    {
        builds_in_range(request);
        let mut left = no_shortfall();
        match self.step.attempt(task, request, hints, reply, &mut left) {
            Ok(()) => {}
            Err(refusal) => {
                observer.refused(self, task, request, refusal, &left);
                self.step.settle(task, request, refusal, reply);
            }
        }
    }

    // Serves a request of an active task.
    fn ask<O: Observer>(
        &mut self,
        task: &Name,
        written: &SourceRequest,
        hints: &[Addr],
        request: &mut Request,
        reply: &mut Reply,
        observer: &mut O,
    ) -> Result<Answer, OutOfMemory>
        requires written { IsWritten written.now }
        requires active { is_active self.old.state.owners task.now ≡ true }
        ensures served { MatchResult result
            (λ answer. Asks (Takes hints.now) self.old task.now written.now
            (resolved self.old.names written.now)
            (full_answer self.new.state (ended_with_in reply.new) task.now answer) self.new)
            (λ _. SetsName self.old task.now written.now) }
        ensures reply { IfOk result
            (λ answer. MatchOption (resolved self.old.names written.now) (reply.new ≡ reply.old)
            (λ asked. Makes (Replies reply.new) self.old task.now written.now asked
            (full_answer self.new.state (ended_with_in reply.new) task.now answer) self.new)) }
        ensures observed { IfOk result
            (λ answer. MatchOption (resolved self.old.names written.now)
            (observer.new ≡ observer.old)
            (λ asked. let said = full_answer self.new.state (ended_with_in reply.new) task.now answer in
            Passes observer.old self.old task.now asked said observer.new
            ⊎ Fails O.heard observer.old self.old task.now asked said observer.new)) }
        ensures request { IfOk result
            (λ answer. KeepsRequest self.new (Statement.Request written.now) answer request.new) }
        ensures unheard { OnErr result (observer.new ≡ observer.old) }
        ensures full_answer { IfOk result (IsAvailableIn self.new.state) }
    {
        let Some(()) = resolve(&self.names, written, request) else {
            return Ok(Answer::NoName);
        };
        self.settle_or_do(task, request, hints, reply, observer);
        set_names(&mut self.names, written, reply)?;
        Ok(answer_of(written, request, reply))
    }

    /// Executes a statement of the step, which is not REGION. Its request and the reply are written over `request` and `reply`,
    /// which are large; the reply has the names of the tasks that ended with one that abended. Areas and cells are placed at the
    /// hinted addresses if the machine allows that. The observer sees a request that is refused.
    pub fn serve<O: Observer>(
        &mut self,
        task: &Name,
        statement: &Statement,
        hints: &[Addr],
        request: &mut Request,
        reply: &mut Reply,
        observer: &mut O,
    ) -> Result<Answer, OutOfMemory>
        requires in_range { IsStatement false task.now statement.now }
        requires of_step { region_card task.now statement.now ≡ None }
        ensures served { MatchResult result
            (λ answer. Does (Takes hints.now) self.old task.now statement.now
            (full_answer self.new.state (ended_with_in reply.new) task.now answer) self.new)
            (λ _. TakesMemory (Some self.old) (line.Statement task.now statement.now) []) }
        ensures reply { IfOk result
            (λ answer. KeepsReply self.old task.now statement.now reply.old
            (full_answer self.new.state (ended_with_in reply.new) task.now answer) reply.new self.new) }
        ensures observed { IfOk result
            (λ answer. Observes O.heard observer.old self.old task.now statement.now
            (full_answer self.new.state (ended_with_in reply.new) task.now answer) observer.new) }
        ensures request { IfOk result
            (λ answer. KeepsRequest self.new statement.now answer request.new) }
        ensures unheard { OnErr result (observer.new ≡ observer.old) }
        ensures full_answer { IfOk result (IsAvailableIn self.new.state) }
    {
        if !self.step.is_active(task) {
            return Ok(Answer::NotRun);
        }
        match statement {
            Statement::Request(written) => {
                self.ask(task, written, hints, request, reply, observer)
            }
            Statement::Where(name) => Ok(where_answer(self.names.get(name))),
            Statement::ReportSubpools => Ok(Answer::Subpools),
            Statement::ReportMap => Ok(Answer::Map),
            Statement::Region { .. } => unreachable!(),
        }
    }

    /// Returns a copy. It fails if memory is exhausted.
    pub fn try_clone(&self) -> Result<Job, OutOfMemory>
        ensures { IfOk result (λ copy. copy ≡ self.now) }
    {
        Ok(Job {
            step: self.step.try_clone()?,
            names: self.names.try_clone()?,
            former: self.former,
        })
    }
}
