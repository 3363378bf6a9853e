//! What is freed with a task that ends: the subpools that tasks own before it ends, and those of them that are freed.

ghost use Rattle.std.specs.Prelude.{◌≡◌, [], false, None, Some, option_map, ℕ};
ghost use Rattle.mvs_model.specs.FullAnswers.{full_answer};
ghost use Rattle.mvs_model.specs.Owners.{is_among_ended};
ghost use Rattle.mvs_model.specs.State.{State};
ghost use Rattle.request_forms.specs.Facts.{owned_subpools};
ghost use Rattle.line_text.specs.Writing.{Prints};
ghost use Rattle.mvs_job.specs.LineEvents.{IsAvailable, events_of_line};
ghost use Rattle.mvs_job.specs.Facts.{end_of, ended_by, ended_pair, fate, freed_lines, subpool_line};

use crate::job::Job;
use crate::walk::{LineEvent, Walk};
use explanation::{print_freed, print_stays};
use line_text::is_same_name;
use mvs_model::answer::Answer;
use mvs_model::name::Name;
use mvs_model::numbers::MOST_SUBPOOLS;
use mvs_model::short_list::ShortList;
use mvs_model::subpool::SubNo;
use mvs_model::watched::{Failed, Watched};
use request_forms::OwnedSubpool;
use std::io::Write;

/// Subpools that tasks own.
pub(crate) type OwnedSubpools = ShortList<OwnedSubpool, 0, MOST_SUBPOOLS>;

/// Makes an empty list of subpools.
pub(crate) fn no_subpools() -> OwnedSubpools
    ensures { result ≡ [] }
{
    OwnedSubpools::empty(OwnedSubpool {
        number: SubNo::of(0),
        owner: Name::of(b"NONE"),
        bytes: 0,
        pages: 0,
        had: false,
    })
}

/// Replaces a list by all subpools that tasks own, each with whether a task has it.
pub(crate) fn collect_owned_subpools(job: &Job, task: &Name, subpools: &mut OwnedSubpools)
    ensures { subpools.new ≡ owned_subpools job.now.state task.now }
{
    let machine = job.step().machine();
    let had = machine.subpools_of(task);
    subpools.clear();
    let mut from = 0;
    while let Some(next) = machine.next_owned(from) {
        if let Some(subpool) = machine.owned_among(next, &had) {
            subpools.push(subpool);
        }
        from = next.get() + 1;
    }
}

/// What becomes of a subpool at the end of tasks.
#[derive(Clone, Copy, Debug, PartialEq, Eq)]
pub enum Fate {
    /// Its owner ended, and it is freed.
    Freed,
    /// The ending task shared it, and it remains.
    Remains,
    /// The ending task did not have it.
    Unaffected,
}

/// A task that ended, and the tasks that ended with it.
#[derive(Clone, Copy)]
pub struct EndedTasks<'a> {
    pub task: &'a Name,
    pub others: &'a [Name],
}

// Returns whether a task is among one that ended and those that ended with it.
fn is_among_ended(task: &Name, fallen: &[Name], other: &Name) -> bool
    ensures { result ≡ is_among_ended task.now fallen.now other.now }
{
    let mut any = is_same_name(other, task);
    for name in fallen {
        any |= is_same_name(other, name);
    }
    any
}

impl EndedTasks<'_> {
    /// Returns what becomes of a subpool.
    pub fn fate(&self, subpool: &OwnedSubpool) -> Fate
        ensures { result ≡ fate (ended_pair self.now) subpool.now }
    {
        if is_among_ended(self.task, self.others, &subpool.owner) {
            return Fate::Freed;
        }
        if subpool.had {
            return Fate::Remains;
        }
        Fate::Unaffected
    }
}

// Returns the task that an answer ends, and those that end with it.
fn ended_with<'a>(task: &'a Name, others: &'a [Name], answer: &Answer) -> Option<EndedTasks<'a>>
    ensures { (st : State)
        → option_map ended_pair result
        ≡ end_of task.now (full_answer st others.now task.now answer.now) }
{
    match answer {
        Answer::Abended(_) => Some(EndedTasks { task, others }),
        Answer::Ended => Some(EndedTasks { task, others: &[] }),
        Answer::NotRun
        | Answer::NoName
        | Answer::At(_)
        | Answer::Rc0
        | Answer::Granted(_)
        | Answer::Rc4
        | Answer::Cell
        | Answer::NoCell
        | Answer::Attached
        | Answer::Done
        | Answer::Data(_)
        | Answer::Subpools
        | Answer::Map => None,
    }
}

/// Returns the task that a line ended, and those that ended with it.
pub fn ended_tasks<'a>(walk: &'a Walk, line_event: &'a LineEvent) -> Option<EndedTasks<'a>>
    ensures { (number : ℕ) → IsAvailable walk.now line_event.now
        → option_map ended_pair result
        ≡ ended_by (events_of_line number walk.now line_event.now) }
{
    match line_event {
        LineEvent::Answered { task, answer } => ended_with(task, walk.fallen(), answer),
        LineEvent::Nothing | LineEvent::StepBegan { .. } | LineEvent::Faulted(_) => None,
    }
}

// Prints what becomes of a subpool.
fn print_fate<W: Write>(
    writer: &mut Watched<W>,
    ended: &EndedTasks<'_>,
    subpool: &OwnedSubpool,
) -> Result<(), Failed>
    ensures { Prints W.contents writer.old writer.new result
        (subpool_line (ended_pair ended.now) subpool.now) }
{
    match ended.fate(subpool) {
        Fate::Freed => print_freed(
            writer,
            subpool.number,
            &subpool.owner,
            subpool.bytes,
            subpool.pages,
        ),
        Fate::Remains => print_stays(writer, subpool.number, &subpool.owner, ended.task),
        Fate::Unaffected => Ok(()),
    }
}

// Prints what becomes of each subpool.
fn print_fates<W: Write>(
    writer: &mut Watched<W>,
    ended: &EndedTasks<'_>,
    subpools: &[OwnedSubpool],
) -> Result<(), Failed>
    ensures { Prints W.contents writer.old writer.new result
        (freed_lines subpools.now (Some (ended_pair ended.now))) }
{
    for subpool in subpools {
        print_fate(writer, ended, subpool)?;
    }
    Ok(())
}

/// Prints which subpools were freed, and which remain, if a line ended a task.
pub(crate) fn print_frees<W: Write>(
    writer: &mut Watched<W>,
    walk: &Walk,
    line_event: &LineEvent,
    subpools: &[OwnedSubpool],
) -> Result<(), Failed>
    requires { IsAvailable walk.now line_event.now }
    ensures { (number : ℕ)
        → Prints W.contents writer.old writer.new result
        (freed_lines subpools.now (ended_by (events_of_line number walk.now line_event.now))) }
{
    match ended_tasks(walk, line_event) {
        Some(ended) => print_fates(writer, &ended, subpools),
        None => Ok(()),
    }
}
