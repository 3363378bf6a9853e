//! The tasks that a line ended.

ghost use Rattle.std.specs.Prelude.{◌≡◌, ◌++◌, ◌∷◌, [], ℕ, map, take};
ghost use Rattle.mvs_model.specs.FullAnswers.{full_answer};
ghost use Rattle.mvs_model.specs.State.{State};
ghost use Rattle.mvs_job.specs.LineEvents.{IsAvailable, events_of_line};
ghost use Rattle.area_history.specs.Histories.{ended_at, ended_since, ended_tasks, ended_with};

use crate::events::StorageEvents;
use crate::first::push;
use crate::grant::{EndedTask, EndedTaskList, TaskStart};
use mvs_job::{LineEvent, Walk};
use mvs_model::answer::Answer;
use mvs_model::name::Name;

// Makes an empty list of tasks.
fn none_ended() -> EndedTaskList
    ensures { result ≡ [] }
{
    EndedTaskList::empty(EndedTask {
        task: Name::of(b"NONE"),
        start: TaskStart { line: 0, areas: 0 },
    })
}

// Appends tasks, each with when it was attached, as long as there is room.
fn push_ended(list: &mut EndedTaskList, events: &StorageEvents, tasks: &[Name])
    ensures { list.new ≡ take 32 (list.old ++ map (ended_at events.now) tasks.now) }
{
    let _ = list.as_slice();
    let Some((task, tasks)) = tasks.split_first() else {
        return;
    };
    push(list, &events.ended_at(task));
    push_ended(list, events, tasks);
}

// Returns a task, and others that ended with it.
fn all_ended(events: &StorageEvents, task: &Name, others: &[Name]) -> EndedTaskList
    ensures { result ≡ ended_since events.now (task.now ∷ others.now) }
{
    let mut list = none_ended();
    push(&mut list, &events.ended_at(task));
    push_ended(&mut list, events, others);
    list
}

// Returns the tasks that ended with an answer.
fn ended_by_answer(
    events: &StorageEvents,
    task: &Name,
    answer: &Answer,
    fallen: &[Name],
) -> EndedTaskList
    ensures { (st : State)
        → result ≡ ended_since events.now (ended_with task.now (full_answer st fallen.now task.now answer.now)) }
{
    match answer {
        Answer::Ended => all_ended(events, task, &[]),
        Answer::Abended(_) => all_ended(events, task, fallen),
        Answer::NotRun
        | Answer::NoName
        | Answer::At(_)
        | Answer::Rc0
        | Answer::Granted(_)
        | Answer::Rc4
        | Answer::Cell
        | Answer::NoCell
        | Answer::Attached
        | Answer::Done
        | Answer::Data(_)
        | Answer::Subpools
        | Answer::Map => none_ended(),
    }
}

/// Returns the tasks that ended with a line, each with when it was attached.
pub(crate) fn ended_since(
    events: &StorageEvents,
    walk: &Walk,
    line_event: &LineEvent,
) -> EndedTaskList
    requires { IsAvailable walk.now line_event.now }
    ensures { (number : ℕ)
        → result ≡ ended_since events.now (ended_tasks (events_of_line number walk.now line_event.now)) }
{
    match line_event {
        LineEvent::Answered { task, answer } => {
            ended_by_answer(events, task, answer, walk.fallen())
        }
        LineEvent::Nothing | LineEvent::StepBegan { .. } | LineEvent::Faulted(_) => none_ended(),
    }
}
