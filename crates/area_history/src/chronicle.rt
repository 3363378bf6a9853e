//! What is kept of the step that runs, for its history.

ghost use Rattle.std.specs.Prelude.{◌≡◌, ◌≢◌, ◌⊎◌, ◌++◌, [], ℕ, List, false, length, option_map, unwrap_or, OnErr, OnOk};
ghost use Rattle.mvs_model.specs.FullAnswers.{full_answer};
ghost use Rattle.mvs_model.specs.Causes.{IsRefused};
ghost use Rattle.mvs_model.specs.Reasons.{released};
ghost use Rattle.mvs_job.specs.Observing.{LeftFor};
ghost use Rattle.mvs_model.specs.State.{State};
ghost use Rattle.mvs_model.specs.declared.name.Name.{Name as TaskName};
ghost use Rattle.mvs_job.specs.LineEvents.{HasRequest, IsAvailable, Resolves, WalkValue, events_of_line};
ghost use Rattle.area_history.specs.Chronicles.{HearsHistory, IsHistory, IsKept, ResolvesAt, history_of};
ghost use Rattle.area_history.specs.Histories.{all_ended, all_released, changed_by, emptied_by, ended_tasks, ended_with, ends_by, events_by, found_for, found_in, granted_changes, no_history, nothing_found, released_by, stays_in, stays_of};
ghost use Rattle.area_history.specs.Ledgers.{granted_by};
ghost use Rattle.area_history.specs.Leaking.{summary};

use crate::anywhere::anywhere;
use crate::events::{StorageChange, StorageEvents};
use crate::findings::{Findings, address_history, address_of, is_short, sought};
use crate::grant::{EndedTaskList, Selection};
use crate::history::AreaHistory;
use crate::largest::Leaks;
use crate::obtained::{push_granted, reports_grant};
use crate::task_ends::ended_since;
use mvs_job::{Job, LineEvent, Walk};
use mvs_model::answer::Answer;
use mvs_model::error::OutOfMemory;
use mvs_model::line::{Line, SourceRequest, Statement};
use mvs_model::name::Name;
use mvs_model::reason::{Reason, Shortfall};
use mvs_model::refusal::Refusal;
use mvs_model::request::Request;
use std::alloc::Global;

/// The history of the step that runs, and what it says of a line.
#[derive(Drop)]
pub struct Chronicle {
    /// The areas that were obtained.
    pub(crate) areas: AreaHistory,
    /// What lines did to storage that was obtained before.
    pub(crate) events: StorageEvents,
    /// What is found of the line.
    pub(crate) found: Findings,
}

/// A line of a task: its number, the task, and the job after it.
#[derive(Clone, Copy)]
struct LineOf<'a> {
    number: u32,
    task: &'a Name,
    job: &'a Job,
}

/// The result of a line.
#[derive(Clone, Copy)]
struct Outcome<'a> {
    walk: &'a Walk,
    line_event: &'a LineEvent,
}

// Adds the places that a task's request released.
fn push_places(
    events: &mut StorageEvents,
    line: u32,
    task: &Name,
    request: &Request,
) -> Result<(), OutOfMemory>
    ensures ok { OnOk result
        (events.new ≡ events.old ++ all_released line task.now (released request.now)) }
    ensures err { OnErr result (all_released line task.now (released request.now) ≢ []) }
{
    match request {
        Request::Release { place, .. } => events.push_released(line, task, &[*place]),
        Request::ReleaseList { places, .. } => events.push_released(line, task, places.as_slice()),
        Request::Obtain { .. }
        | Request::ObtainList { .. }
        | Request::ReleaseWhole { .. }
        | Request::Build { .. }
        | Request::Get { .. }
        | Request::Free { .. }
        | Request::Delete { .. }
        | Request::Attach { .. }
        | Request::Return
        | Request::Abend(_)
        | Request::Show { .. }
        | Request::Put { .. }
        | Request::Move { .. } => Ok(()),
    }
}

// Adds the subpool that a task's request released as a whole.
fn push_emptied(
    events: &mut StorageEvents,
    line: u32,
    task: &Name,
    job: &Job,
    number: u8,
) -> Result<(), OutOfMemory>
    ensures ok { OnOk result (events.new ≡ events.old ++ emptied_by line task.now job.now number) }
    ensures err { OnErr result (emptied_by line task.now job.now number ≢ []) }
{
    match job.step().machine().resolved_owner(task, number) {
        Some((number, owner)) => events.push(line, task, StorageChange::Emptied(number, owner)),
        None => Ok(()),
    }
}

// Adds the ends of a task and of those that ended with it, if an answer says so.
fn push_ends(
    events: &mut StorageEvents,
    line: u32,
    task: &Name,
    answer: &Answer,
    fallen: &[Name],
) -> Result<(), OutOfMemory>
    ensures ok { (st : State) → OnOk result
        (events.new ≡ events.old ++ all_ended line task.now (ended_with task.now (full_answer st fallen.now task.now answer.now))) }
    ensures err { (st : State) → OnErr result
        (all_ended line task.now (ended_with task.now (full_answer st fallen.now task.now answer.now)) ≢ []) }
{
    match answer {
        Answer::Ended => events.push_ended(line, task, &[*task]),
        Answer::Abended(_) => {
            events.push_ended(line, task, &[*task])?;
            events.push_ended(line, task, fallen)
        }
        Answer::NotRun
        | Answer::NoName
        | Answer::At(_)
        | Answer::Rc0
        | Answer::Granted(_)
        | Answer::Rc4
        | Answer::Cell
        | Answer::NoCell
        | Answer::Attached
        | Answer::Done
        | Answer::Data(_)
        | Answer::Subpools
        | Answer::Map => Ok(()),
    }
}

// Adds what a task's request did that was granted, after a number of areas had been obtained. It is given as written, and as the
// machine was asked, where it sets no name.
fn push_changed(
    events: &mut StorageEvents,
    line: &LineOf<'_>,
    areas: usize,
    written: &SourceRequest,
    request: &Request,
) -> Result<(), OutOfMemory>
    ensures ok { OnOk result (Resolves line.now.job.now written.now request.now
        → events.new ≡ events.old ++ changed_by line.now.number line.now.task.now line.now.job.now areas written.now) }
    ensures err { OnErr result (Resolves line.now.job.now written.now request.now
        → changed_by line.now.number line.now.task.now line.now.job.now areas written.now ≢ []) }
{
    let LineOf { number, task, job } = *line;
    match written {
        SourceRequest::Release { .. }
        | SourceRequest::ReleaseArea { .. }
        | SourceRequest::ReleaseList { .. } => push_places(events, number, task, request),
        SourceRequest::ReleaseWhole {
            number: subpool,
            ..
        } => push_emptied(events, number, task, job, *subpool),
        SourceRequest::Attach { name, gifts, .. } => events.push(
            number,
            task,
            StorageChange::Attached {
                name: *name,
                gifts: *gifts,
                areas,
            },
        ),
        SourceRequest::Obtain { .. }
        | SourceRequest::ObtainList { .. }
        | SourceRequest::Build { .. }
        | SourceRequest::Get { .. }
        | SourceRequest::Free { .. }
        | SourceRequest::Delete { .. }
        | SourceRequest::Return
        | SourceRequest::Abend(_)
        | SourceRequest::Show { .. }
        | SourceRequest::Put { .. }
        | SourceRequest::Move { .. } => Ok(()),
    }
}

// Adds this, if the line was granted.
fn push_granted_changes(
    events: &mut StorageEvents,
    line: &LineOf<'_>,
    areas: usize,
    written: &SourceRequest,
    request: &Request,
    line_event: &LineEvent,
) -> Result<(), OutOfMemory>
    ensures ok { OnOk result ((number : ℕ) (walk : WalkValue) → IsAvailable walk line_event.now
        → ResolvesAt line.now.job.now written.now request.now line_event.now
        → events.new ≡ events.old ++ granted_changes line.now.number line.now.task.now line.now.job.now areas written.now (events_of_line number walk line_event.now)) }
    ensures err { OnErr result ((number : ℕ) (walk : WalkValue) → IsAvailable walk line_event.now
        → ResolvesAt line.now.job.now written.now request.now line_event.now
        → granted_changes line.now.number line.now.task.now line.now.job.now areas written.now (events_of_line number walk line_event.now) ≢ []) }
{
    if !reports_grant(line_event) {
        return Ok(());
    }
    push_changed(events, line, areas, written, request)
}

// Adds the ends of the tasks that ended with a line.
fn push_line_ends(
    events: &mut StorageEvents,
    line: u32,
    walk: &Walk,
    line_event: &LineEvent,
) -> Result<(), OutOfMemory>
    requires { IsAvailable walk.now line_event.now }
    ensures ok { OnOk result ((number : ℕ)
        → events.new ≡ events.old ++ ends_by line (events_of_line number walk.now line_event.now)) }
    ensures err { OnErr result ((number : ℕ)
        → ends_by line (events_of_line number walk.now line_event.now) ≢ []) }
{
    match line_event {
        LineEvent::Answered { task, answer } => {
            push_ends(events, line, task, answer, walk.fallen())
        }
        LineEvent::Nothing | LineEvent::StepBegan { .. } | LineEvent::Faulted(_) => Ok(()),
    }
}

// Adds what a line did, by what was read of it.
fn push_events(
    events: &mut StorageEvents,
    line: u32,
    areas: usize,
    at: Outcome<'_>,
) -> Result<(), OutOfMemory>
    requires { IsAvailable at.walk.now at.line_event.now }
    ensures ok { OnOk result (HasRequest at.entry.walk.now at.entry.line_event.now
        → events.new ≡ events.old ++ events_by line at.entry.walk.now.read (events_of_line line at.entry.walk.now at.entry.line_event.now) at.entry.walk.now.step areas) }
    ensures err { OnErr result (HasRequest at.entry.walk.now at.entry.line_event.now
        → events_by line at.entry.walk.now.read (events_of_line line at.entry.walk.now at.entry.line_event.now) at.entry.walk.now.step areas ≢ []) }
{
    let Line::Statement(task, statement) = at.walk.read() else {
        return Ok(());
    };
    let Statement::Request(written) = statement else {
        return Ok(());
    };
    let Some(job) = at.walk.job() else {
        return Ok(());
    };
    let line_of = LineOf {
        number: line,
        task,
        job,
    };
    let request = at.walk.last_request();
    push_granted_changes(events, &line_of, areas, written, request, at.line_event)?;
    push_line_ends(events, line, at.walk, at.line_event)
}

// Returns whether an answer ends tasks.
fn ends_tasks(answer: &Answer) -> bool
    ensures { (st : State) (fallen : List TaskName) (t : TaskName) → result ≡ false
        → ended_with t (full_answer st fallen t answer.now) ≡ [] }
{
    match answer {
        Answer::Ended | Answer::Abended(_) => true,
        Answer::NotRun
        | Answer::NoName
        | Answer::At(_)
        | Answer::Rc0
        | Answer::Granted(_)
        | Answer::Rc4
        | Answer::Cell
        | Answer::NoCell
        | Answer::Attached
        | Answer::Done
        | Answer::Data(_)
        | Answer::Subpools
        | Answer::Map => false,
    }
}

// Returns whether a line ended tasks.
fn has_ended_tasks(walk: &Walk, line_event: &LineEvent) -> bool
    requires { IsAvailable walk.now line_event.now }
    ensures { (number : ℕ) → result ≡ false
        → ended_tasks (events_of_line number walk.now line_event.now) ≡ [] }
{
    match line_event {
        LineEvent::Answered { answer, .. } => ends_tasks(answer),
        LineEvent::Nothing | LineEvent::StepBegan { .. } | LineEvent::Faulted(_) => false,
    }
}

// Finds what stays of the areas that tasks which ended obtained since they were attached.
fn stays_in(areas: &mut AreaHistory, ended: EndedTaskList, job: &Job) -> Leaks
    ensures kept { areas.new ≡ areas.old }
    ensures stays { result ≡ stays_in job.now areas.old ended }
{
    let Some((first, _)) = ended.as_slice().split_first() else {
        return Leaks::none();
    };
    let first = first.start.areas;
    areas.survey_from(first, &Selection::EndedWith(ended), job)
}

impl Chronicle {
    /// Makes the history before the first step. It allocates no memory.
    pub fn new(alloc: Global) -> Chronicle
        ensures { IsHistory result no_history }
    {
        Chronicle {
            areas: AreaHistory::new(alloc),
            events: StorageEvents::new(alloc),
            found: Findings::none(),
        }
    }

    /// Forgets what it found, before the next line.
    pub fn begin_line(&mut self)
        ensures found { found_in self.new.found ≡ nothing_found }
        ensures same { history_of self.new ≡ history_of self.old }
    {
        self.found.clear();
    }

    /// Returns what it found of the line.
    pub fn found(&self) -> &Findings
        ensures { result.now ≡ self.now.found }
    {
        &self.found
    }

    // Finds what the history says of a reason. The length is the one that fits with LOC=ANY, if one does.
    fn find(&mut self, job: &Job, request: &Request, reason: &Reason, any: Option<u32>)
        ensures found { found_in self.new.found ≡ found_for (history_of self.old) job.now request.now reason.now any }
        ensures same { history_of self.new ≡ history_of self.old }
    {
        self.found.address = match address_of(reason) {
            Some(addr) => Some(address_history(&mut self.areas, &mut self.events, addr)),
            None => None,
        };
        self.found.anywhere = any;
        self.found.side = sought(request);
        if is_short(reason) {
            self.found.held = self.areas.survey(&self.found.side, job);
        } else {
            self.found.held.clear();
        }
    }

    /// Observes that a request is refused.
    pub fn refused(
        &mut self,
        job: &Job,
        task: &Name,
        request: &Request,
        refusal: Refusal,
        left: &Shortfall,
    )
        requires refused { IsRefused job.now.state task.now request.now refusal }
        requires left { LeftFor job.now task.now request.now refusal left.now }
        ensures { HearsHistory self.old job.now task.now request.now refusal self.new }
    {
        let reason = job.step().details(task, request, refusal, left);
        let any = anywhere(job, task, request, refusal, &reason, left);
        self.find(job, request, &reason, any);
    }

    // Finds what stays after a line that ended tasks.
    fn find_stays(&mut self, walk: &Walk, line_event: &LineEvent)
        requires { IsAvailable walk.now line_event.now }
        ensures stays { (number : ℕ) → self.new.found.stays
            ≡ stays_of (history_of self.old) walk.now.step (ended_tasks (events_of_line number walk.now line_event.now)) }
        ensures found { found_in self.new.found ≡ found_in self.old.found }
        ensures same { history_of self.new ≡ history_of self.old }
    {
        let ended = ended_since(&self.events, walk, line_event);
        self.found.stays = match walk.job() {
            Some(job) => stays_in(&mut self.areas, ended, job),
            None => Leaks::none(),
        };
    }

    /// Finds which areas of the tasks that a line ended are still held after it. A line that ended no task costs nothing.
    pub fn settle(&mut self, walk: &Walk, line_event: &LineEvent)
        requires { IsAvailable walk.now line_event.now }
        ensures stays { (number : ℕ) → self.new.found.stays
            ≡ stays_of (history_of self.old) walk.now.step (ended_tasks (events_of_line number walk.now line_event.now)) }
        ensures found { found_in self.new.found ≡ found_in self.old.found }
        ensures same { history_of self.new ≡ history_of self.old }
    {
        if has_ended_tasks(walk, line_event) {
            self.find_stays(walk, line_event);
        } else {
            self.found.stays.clear();
        }
    }

    // Begins a step.
    fn begin(&mut self)
        ensures same { history_of self.new ≡ no_history }
        ensures found { self.new.found ≡ self.old.found }
    {
        self.areas.clear();
        self.events.clear();
    }

    /// Keeps what a line did. The walk still has the request of the line.
    pub fn keep(
        &mut self,
        number: u32,
        walk: &Walk,
        line_event: &LineEvent,
    ) -> Result<(), OutOfMemory>
        requires { IsAvailable walk.now line_event.now }
        ensures ok { OnOk result (HasRequest walk.now line_event.now
            → IsKept self.old number walk.now.read (events_of_line number walk.now line_event.now)
            walk.now.step self.new) }
        ensures found { self.new.found ≡ self.old.found }
        ensures err { OnErr result (HasRequest walk.now line_event.now
            → (granted_by number walk.now.read (events_of_line number walk.now line_event.now) walk.now.step ≢ [])
            ⊎ (events_by number walk.now.read (events_of_line number walk.now line_event.now) walk.now.step (length self.old.areas) ≢ [])) }
    {
        if let LineEvent::StepBegan { .. } = line_event {
            self.begin();
            return Ok(());
        }
        let areas = self.areas.len();
        push_granted(&mut self.areas, number, walk.read(), walk, line_event)?;
        push_events(
            &mut self.events,
            number,
            areas,
            Outcome { walk, line_event },
        )
    }
}
