//! What a line did to the step, as changes.

ghost use Rattle.std.specs.Prelude.{◌≡◌, ◌≤◌, ◌<◌, ◌+◌, ◌++◌, ◌∷◌, [], List, ℕ, Some, length};
ghost use Rattle.mvs_model.specs.FullAnswers.{ended_with_in, full_answer};
ghost use Rattle.mvs_model.specs.Numbers.{task_numbers};
ghost use Rattle.mvs_model.specs.declared.name.Name.{Name as TaskName};
ghost use Rattle.mvs_model.specs.Reports.{each_below};
ghost use Rattle.mvs_model.specs.State.{State};
ghost use Rattle.request_forms.specs.Facts.{listed};
ghost use Rattle.mvs_model.specs.declared.line.Statement.TheVariants as says;
ghost use Rattle.mvs_job.specs.LineEvents.{HasRequest, IsAvailable, KeepsRequest, Resolves, events_of_line};
ghost use Rattle.page.specs.Changes.{answer_changes, area_change, area_changes, begin_changes, cell_change, changes_of, done_changes, empty_change, fall_changes, free_changes, held_change, part_change, pool_change, request_changes, statement_changes, where_changes};

use crate::change::Change;
use line_text::is_same_name;
use mvs_job::{Job, LineEvent, Walk};
use mvs_model::answer::Answer;
use mvs_model::card::Card;
use mvs_model::line::{Line, SourceRequest, Statement};
use mvs_model::name::Name;
use mvs_model::numbers::TASK_NUMBERS;
use mvs_model::place::{Addr, Place};
use mvs_model::request::{Reply, Request};
use mvs_model::short_list::ShortList;
use mvs_model::subpool::SubNo;

const MOST_CHANGES: usize = 160;

/// What a line did.
pub type Changes = ShortList<Change, 0, MOST_CHANGES>;

/// Makes an empty list of changes.
pub fn no_changes() -> Changes
    ensures { result ≡ [] }
{
    Changes::empty(Change::Read {
        place: Place::new(Addr::new(0), 1),
    })
}

// Appends a change, if there is one.
fn push_some(changes: &mut Changes, change: Option<Change>)
    requires { length changes.old < 160 }
    ensures changes { changes.new ≡ changes.old ++ listed change }
    ensures len { length changes.new ≤ length changes.old + 1 }
{
    if let Some(change) = change {
        changes.push(change);
    }
}

// Returns the change of an area that was obtained.
fn area_change(job: &Job, task: &Name, number: u8, area: &Name) -> Option<Change>
    ensures { result ≡ area_change job.now task.now number area.now }
{
    let Some(place) = job.place_of(area) else {
        return None;
    };
    let Some((number, owner)) = job.step().machine().resolved_owner(task, number) else {
        return None;
    };
    Some(Change::Take {
        place,
        number,
        owner,
        name: *area,
    })
}

// Appends the areas of a list.
fn push_areas(changes: &mut Changes, job: &Job, task: &Name, number: u8, areas: &[Name])
    requires { length changes.old + length areas.now ≤ 100 }
    ensures changes { changes.new
        ≡ changes.old ++ area_changes job.now task.now number areas.now }
    ensures len { length changes.new ≤ length changes.old + length areas.now }
{
    let Some((area, areas)) = areas.split_first() else {
        return;
    };
    push_some(changes, area_change(job, task, number, area));
    push_areas(changes, job, task, number, areas);
}

// Appends released places.
fn push_frees(changes: &mut Changes, places: &[Place])
    requires { length changes.old + length places.now ≤ 100 }
    ensures changes { changes.new ≡ changes.old ++ free_changes places.now }
    ensures len { length changes.new ≤ length changes.old + length places.now }
{
    let Some((place, places)) = places.split_first() else {
        return;
    };
    changes.push(Change::Free { place: *place });
    push_frees(changes, places);
}

// Appends the tasks that ended with one.
fn push_falls(changes: &mut Changes, task: &Name, fallen: &[Name])
    requires { length changes.old + length fallen.now ≤ 100 }
    ensures changes { changes.new ≡ changes.old ++ fall_changes task.now fallen.now }
    ensures len { length changes.new ≤ length changes.old + length fallen.now }
{
    let Some((other, fallen)) = fallen.split_first() else {
        return;
    };
    changes.push(Change::Fall {
        task: *other,
        other: *task,
    });
    push_falls(changes, task, fallen);
}

// Returns the subpool that was released as a whole, by the task's number for it.
fn empty_change(job: &Job, task: &Name, number: u8) -> Option<Change>
    ensures { result ≡ empty_change job.now task.now number }
{
    let Some((number, owner)) = job.step().machine().resolved_owner(task, number) else {
        return None;
    };
    Some(Change::Empty { number, owner })
}

// Returns the change of a pool that was built in that subpool.
fn pool_change(job: &Job, task: &Name, number: u8, pool: &Name, size: u32) -> Option<Change>
    ensures { result ≡ pool_change job.now task.now number pool.now size }
{
    let Some((number, owner)) = job.step().machine().resolved_owner(task, number) else {
        return None;
    };
    Some(Change::Pool {
        name: *pool,
        number,
        owner,
        size,
    })
}

// Returns the last part of a pool.
fn part_change(job: &Job, pool: &Name) -> Option<Change>
    ensures { result ≡ part_change job.now pool.now }
{
    let Some(newest) = job.step().machine().newest(pool) else {
        return None;
    };
    Some(Change::Part {
        pool: *pool,
        place: newest.place,
        cells: newest.cells,
    })
}

// Returns the change of a cell that was taken.
fn cell_change(job: &Job, pool: &Name, cell: &Name) -> Option<Change>
    ensures { result ≡ cell_change job.now pool.now cell.now }
{
    let Some(place) = job.place_of(cell) else {
        return None;
    };
    Some(Change::Cell {
        pool: *pool,
        place,
        name: *cell,
    })
}

// Returns what a subtask has under a number.
fn held_change(job: &Job, mother: &Name, subtask: &Name, held: SubNo) -> Option<Change>
    ensures { result ≡ held_change job.now mother.now subtask.now held }
{
    let Some((number, owner)) = job.step().machine().entry_owner(subtask, held) else {
        return None;
    };
    if is_same_name(&owner, subtask) {
        return Some(Change::Given {
            task: *subtask,
            number,
            mother: *mother,
        });
    }
    Some(Change::Shared {
        task: *subtask,
        held,
        number,
        owner,
    })
}

// Appends what a subtask has.
fn push_held(changes: &mut Changes, job: &Job, mother: &Name, subtask: &Name)
    requires { length changes.old ≤ 2 }
    ensures { changes.new
        ≡ changes.old ++ each_below task_numbers
        (λ n. listed (held_change job.now mother.now subtask.now n)) }
{
    for n in 0..TASK_NUMBERS {
        push_some(changes, held_change(job, mother, subtask, SubNo::of(n)));
    }
}

// Puts what a request did that names places.
fn put_request(changes: &mut Changes, request: &Request)
    ensures { changes.new ≡ request_changes (Some request.now) }
{
    changes.clear();
    match request {
        Request::Release { place, .. } => changes.push(Change::Free { place: *place }),
        Request::ReleaseList { places, .. } => push_frees(changes, places.as_slice()),
        Request::Free { pool, cell } => changes.push(Change::Back {
            pool: *pool,
            cell: *cell,
        }),
        Request::Show { from, len } => changes.push(Change::Read {
            place: Place::new(*from, len.get()),
        }),
        Request::Put { to, bytes } => changes.push(Change::Write {
            place: Place::new(*to, bytes.len() as u32),
        }),
        Request::Move { to, from, len } => {
            changes.push(Change::Read {
                place: Place::new(*from, len.get()),
            });
            changes.push(Change::Write {
                place: Place::new(*to, len.get()),
            });
        }
        Request::Obtain { .. }
        | Request::ObtainList { .. }
        | Request::ReleaseWhole { .. }
        | Request::Build { .. }
        | Request::Get { .. }
        | Request::Delete { .. }
        | Request::Attach { .. }
        | Request::Return
        | Request::Abend(_) => {}
    }
}

// Puts what a task's request did that was granted. It is given as written, and as the machine was asked, where it sets no name.
fn put_done(
    changes: &mut Changes,
    task: &Name,
    written: &SourceRequest,
    request: &Request,
    job: &Job,
)
    ensures { Resolves job.now written.now request.now
        → changes.new ≡ done_changes task.now written.now job.now }
{
    changes.clear();
    match written {
        SourceRequest::Obtain { number, area, .. } => {
            push_some(changes, area_change(job, task, *number, area));
        }
        SourceRequest::ObtainList { number, areas, .. } => {
            push_areas(changes, job, task, *number, areas.as_slice());
        }
        SourceRequest::ReleaseWhole { number, .. } => {
            push_some(changes, empty_change(job, task, *number));
        }
        SourceRequest::Build {
            pool,
            number,
            size,
            ..
        } => {
            push_some(changes, pool_change(job, task, *number, pool, size.get()));
            push_some(changes, part_change(job, pool));
        }
        SourceRequest::Get { pool, cell, .. } => {
            push_some(changes, part_change(job, pool));
            push_some(changes, cell_change(job, pool, cell));
        }
        SourceRequest::Delete { pool } => changes.push(Change::Delete { pool: *pool }),
        SourceRequest::Attach {
            name,
            residence,
            ..
        } => {
            changes.push(Change::Task {
                name: *name,
                mother: *task,
                residence: *residence,
            });
            push_held(changes, job, task, name);
        }
        SourceRequest::Release { .. }
        | SourceRequest::ReleaseArea { .. }
        | SourceRequest::ReleaseList { .. }
        | SourceRequest::Free { .. }
        | SourceRequest::Return
        | SourceRequest::Abend(_)
        | SourceRequest::Show { .. }
        | SourceRequest::Put { .. }
        | SourceRequest::Move { .. } => put_request(changes, request),
    }
}

// Puts the change of a task that abended, and those that ended with it.
fn put_abend(changes: &mut Changes, task: &Name, fallen: &[Name])
    requires { length fallen.now ≤ 31 }
    ensures { changes.new ≡ Change.Abend task.now ∷ fall_changes task.now fallen.now }
{
    changes.clear();
    changes.push(Change::Abend { task: *task });
    push_falls(changes, task, fallen);
}

// Puts the change of a task that returned.
fn put_return(changes: &mut Changes, task: &Name)
    ensures { changes.new ≡ Change.Return task.now ∷ [] }
{
    changes.clear();
    changes.push(Change::Return { task: *task });
}

// Puts what a request did that is answered so.
fn put_answered(
    changes: &mut Changes,
    task: &Name,
    written: &SourceRequest,
    answer: &Answer,
    job: &Job,
    walk: &Walk,
)
    ensures { (st : State)
        → KeepsRequest job.now (says.Request written.now) answer.now walk.now.request
        → changes.new
        ≡ answer_changes task.now written.now (full_answer st (ended_with_in walk.now.reply) task.now answer.now)
        job.now }
{
    match answer {
        Answer::Ended => put_return(changes, task),
        Answer::Abended(_) => put_abend(changes, task, fallen(walk)),
        Answer::Rc0
        | Answer::Granted(_)
        | Answer::Cell
        | Answer::Attached
        | Answer::Done
        | Answer::Data(_) => put_done(changes, task, written, walk.last_request(), job),
        Answer::NotRun
        | Answer::NoName
        | Answer::At(_)
        | Answer::Rc4
        | Answer::NoCell
        | Answer::Subpools
        | Answer::Map => changes.clear(),
    }
}

// Puts the place that WHERE shows.
fn put_where(changes: &mut Changes, name: &Name, answer: &Answer, job: &Job)
    ensures { (st : State) (fallen : List TaskName) (t : TaskName)
        → changes.new ≡ where_changes name.now (full_answer st fallen t answer.now) job.now }
{
    changes.clear();
    if let Answer::At(_) = answer {
        if let Some(place) = job.place_of(name) {
            changes.push(Change::Look { place });
        }
    }
}

// Puts the change of a step that begins.
fn put_begin(changes: &mut Changes, card: &Card)
    ensures { changes.new ≡ begin_changes card.now }
{
    changes.clear();
    changes.push(Change::Step {
        below: card.below(),
        above: card.above(),
        fill: card.fill(),
    });
    changes.push(Change::First {
        name: card.name(),
        residence: card.residence(),
    });
}

// Puts what a statement did that is answered so.
fn put_statement(
    changes: &mut Changes,
    task: &Name,
    statement: &Statement,
    answer: &Answer,
    job: &Job,
    walk: &Walk,
)
    ensures { (st : State)
        → KeepsRequest job.now statement.now answer.now walk.now.request
        → changes.new
        ≡ statement_changes task.now statement.now (full_answer st (ended_with_in walk.now.reply) task.now answer.now)
        job.now }
{
    match statement {
        Statement::Request(written) => put_answered(changes, task, written, answer, job, walk),
        Statement::Where(name) => put_where(changes, name, answer, job),
        Statement::Region { .. } | Statement::ReportSubpools | Statement::ReportMap => {
            changes.clear();
        }
    }
}

// Returns the tasks that ended with the one that abended, where the last request abended.
fn fallen(walk: &Walk) -> &[Name]
    ensures names { result.now ≡ ended_with_in walk.now.reply }
    ensures most { length result.now ≤ 31 }
{
    match walk.reply() {
        Reply::Abended(_, fallen) => fallen.names(),
        Reply::NotRun
        | Reply::Rc0
        | Reply::Rc4
        | Reply::Obtained(_)
        | Reply::Listed(_)
        | Reply::Cell(_)
        | Reply::NoCell
        | Reply::Attached
        | Reply::Ended
        | Reply::Done => &[],
    }
}

/// Puts the changes of the last line, which has these events.
pub fn put_changes(changes: &mut Changes, walk: &Walk, line_event: &LineEvent)
    requires { IsAvailable walk.now line_event.now }
    ensures { (number : ℕ) → HasRequest walk.now line_event.now
        → changes.new
        ≡ changes_of walk.now.read (events_of_line number walk.now line_event.now) walk.now.step }
{
    match line_event {
        LineEvent::StepBegan { card, .. } => put_begin(changes, card),
        LineEvent::Answered { task, answer } => match (walk.read(), walk.job()) {
            (Line::Statement(_, statement), Some(job)) => {
                put_statement(changes, task, statement, answer, job, walk);
            }
            (Line::Statement(..), None) | (Line::Nothing, _) => changes.clear(),
        },
        LineEvent::Nothing | LineEvent::Faulted(_) => changes.clear(),
    }
}
