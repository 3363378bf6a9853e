//! The areas that a line was granted.

ghost use Rattle.std.specs.Prelude.{◌≡◌, ◌≢◌, ◌++◌, ◌∷◌, [], ℕ, List, OnErr, OnOk};
ghost use Rattle.mvs_model.specs.FullAnswers.{full_answer};
ghost use Rattle.mvs_model.specs.State.{State};
ghost use Rattle.mvs_model.specs.declared.name.Name.{Name as TaskName};
ghost use Rattle.request_forms.specs.Facts.{listed};
ghost use Rattle.mvs_job.specs.Granting.{is_grant, reports_grant};
ghost use Rattle.mvs_job.specs.LineEvents.{IsAvailable, WalkValue, events_of_line};
ghost use Rattle.area_history.specs.Ledgers.{area_grant, area_grants, built_with, granted_by, obtained_by, pools_by};

use crate::grant::AreaGrant;
use crate::history::AreaHistory;
use crate::pools::{BuiltPools, PoolBuild, part_len, with_pool};
use mvs_job::{Job, LineEvent, Walk};
use mvs_model::answer::Answer;
use mvs_model::error::OutOfMemory;
use mvs_model::line::{Line, SourceRequest, Statement};
use mvs_model::name::Name;

// Returns whether an answer says that a request was granted.
fn is_grant(answer: &Answer) -> bool
    ensures { (st : State) (fallen : List TaskName) (t : TaskName)
        → result ≡ is_grant (full_answer st fallen t answer.now) }
{
    match answer {
        Answer::Rc0 | Answer::Granted(_) | Answer::Cell | Answer::Attached => true,
        Answer::NotRun
        | Answer::NoName
        | Answer::At(_)
        | Answer::Rc4
        | Answer::NoCell
        | Answer::Ended
        | Answer::Done
        | Answer::Data(_)
        | Answer::Abended(_)
        | Answer::Subpools
        | Answer::Map => false,
    }
}

/// Returns whether the events of a line say that a request was granted.
pub(crate) fn reports_grant(line_event: &LineEvent) -> bool
    ensures { (number : ℕ) (walk : WalkValue) → IsAvailable walk line_event.now
        → result ≡ reports_grant (events_of_line number walk line_event.now) }
{
    match line_event {
        LineEvent::Answered { answer, .. } => is_grant(answer),
        LineEvent::Nothing | LineEvent::StepBegan { .. } | LineEvent::Faulted(_) => false,
    }
}

// Returns an area of a name that a line was granted.
fn area_grant(line: u32, task: &Name, job: &Job, number: u8, area: &Name) -> Option<AreaGrant>
    ensures { result ≡ area_grant line task.now job.now number area.now }
{
    let Some(place) = job.place_of(area) else {
        return None;
    };
    let Some((subpool, owner)) = job.step().machine().resolved_owner(task, number) else {
        return None;
    };
    Some(AreaGrant {
        area: *area,
        place,
        line,
        task: *task,
        subpool,
        owner,
    })
}

// Adds an area of a name that a line was granted.
fn push_area(
    history: &mut AreaHistory,
    line: u32,
    task: &Name,
    job: &Job,
    number: u8,
    area: &Name,
) -> Result<(), OutOfMemory>
    ensures ok { OnOk result
        (history.new ≡ history.old ++ listed (area_grant line task.now job.now number area.now)) }
    ensures err { OnErr result (listed (area_grant line task.now job.now number area.now) ≢ []) }
{
    match area_grant(line, task, job, number, area) {
        Some(grant) => history.push(&grant),
        None => Ok(()),
    }
}

// Adds the areas of some names that a line was granted.
fn push_areas(
    history: &mut AreaHistory,
    line: u32,
    task: &Name,
    job: &Job,
    number: u8,
    areas: &[Name],
) -> Result<(), OutOfMemory>
    ensures ok { OnOk result
        (history.new ≡ history.old ++ area_grants line task.now job.now number areas.now) }
    ensures err { OnErr result (area_grants line task.now job.now number areas.now ≢ []) }
{
    let Some((area, areas)) = areas.split_first() else {
        return Ok(());
    };
    push_area(history, line, task, job, number, area)?;
    push_areas(history, line, task, job, number, areas)
}

// Adds the areas that a task's request was granted.
fn push_obtained(
    history: &mut AreaHistory,
    line: u32,
    task: &Name,
    job: &Job,
    written: &SourceRequest,
) -> Result<(), OutOfMemory>
    ensures ok { OnOk result
        (history.new ≡ history.old ++ obtained_by line task.now job.now written.now) }
    ensures err { OnErr result (obtained_by line task.now job.now written.now ≢ []) }
{
    match written {
        SourceRequest::Obtain { number, area, .. } => {
            push_areas(history, line, task, job, *number, &[*area])
        }
        SourceRequest::ObtainList { number, areas, .. } => {
            push_areas(history, line, task, job, *number, areas.as_slice())
        }
        SourceRequest::Release { .. }
        | SourceRequest::ReleaseArea { .. }
        | SourceRequest::ReleaseList { .. }
        | SourceRequest::ReleaseWhole { .. }
        | SourceRequest::Build { .. }
        | SourceRequest::Get { .. }
        | SourceRequest::Free { .. }
        | SourceRequest::Delete { .. }
        | SourceRequest::Attach { .. }
        | SourceRequest::Return
        | SourceRequest::Abend(_)
        | SourceRequest::Show { .. }
        | SourceRequest::Put { .. }
        | SourceRequest::Move { .. } => Ok(()),
    }
}

/// Adds the areas that a line was granted, by what was read of it.
pub(crate) fn push_granted(
    history: &mut AreaHistory,
    line: u32,
    read: &Line,
    walk: &Walk,
    line_event: &LineEvent,
) -> Result<(), OutOfMemory>
    requires { IsAvailable walk.now line_event.now }
    ensures ok { OnOk result
        (history.new ≡ history.old ++ granted_by line read.now (events_of_line line walk.now line_event.now) walk.now.step) }
    ensures err { OnErr result
        (granted_by line read.now (events_of_line line walk.now line_event.now) walk.now.step ≢ []) }
{
    let Line::Statement(task, Statement::Request(written)) = read else {
        return Ok(());
    };
    if !reports_grant(line_event) {
        return Ok(());
    }
    match walk.job() {
        Some(job) => push_obtained(history, line, task, job, written),
        None => Ok(()),
    }
}

// Returns the pool that a task's request built.
fn built_with(line: u32, task: &Name, job: &Job, written: &SourceRequest) -> Option<PoolBuild>
    ensures { result ≡ built_with line task.now job.now written.now }
{
    let SourceRequest::Build {
        pool,
        number,
        size,
        primary,
        secondary,
        ..
    } = written
    else {
        return None;
    };
    let Some((subpool, owner)) = job.step().machine().resolved_owner(task, *number) else {
        return None;
    };
    Some(PoolBuild {
        pool: *pool,
        first: part_len(size, primary),
        further: part_len(size, secondary),
        line,
        task: *task,
        subpool,
        owner,
    })
}

/// Keeps the pool that a line built, if it did, by what was read of it.
pub(crate) fn keep_built(
    pools: &mut BuiltPools,
    line: u32,
    read: &Line,
    walk: &Walk,
    line_event: &LineEvent,
)
    requires { IsAvailable walk.now line_event.now }
    ensures { pools.new
        ≡ pools_by line read.now (events_of_line line walk.now line_event.now) walk.now.step pools.old }
{
    let Line::Statement(task, Statement::Request(written)) = read else {
        return;
    };
    if !reports_grant(line_event) {
        return;
    }
    let Some(job) = walk.job() else {
        return;
    };
    if let Some(built) = built_with(line, task, job, written) {
        *pools = with_pool(pools, &built, job);
    }
}
