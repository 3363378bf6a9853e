//! What a granted request changed: what is looked up before it, and what is reported after it.

ghost use Rattle.std.specs.Prelude.{◌≡◌, ◌≤◌, ◌<◌, ◌+◌, ◌^◌, ◌++◌, [], ◌∷◌, ℕ, List, is_some, length, flat_map};
ghost use Rattle.mvs_model.specs.FullAnswers.{full_answer};
ghost use Rattle.mvs_model.specs.Numbers.{task_numbers};
ghost use Rattle.mvs_model.specs.Reports.{each_below};
ghost use Rattle.mvs_model.specs.State.{State};
ghost use Rattle.mvs_model.specs.declared.name.Name.{Name as TaskName};
ghost use Rattle.explanation.specs.FactTexts.{fact_line};
ghost use Rattle.line_text.specs.Writing.{Prints};
ghost use Rattle.request_forms.specs.Facts.{listed};
ghost use Rattle.request_forms.specs.SubpoolLabels.{entry_owner};
ghost use Rattle.mvs_job.specs.Granting.{area_fact, area_facts, attach_facts, before_request, cell_fact, created_fact, emptied_fact, facts_of, free_in, freed_fact, greater_fact, is_grant, looked_at, means, numbers_of, part_fact, part_pages, parts_at, subpool_fact, subtask_fact, taken_fact};

use crate::job::Job;
use explanation::print_fact;
use line_text::is_same_name;
use mvs_model::answer::Answer;
use mvs_model::bounded::Length;
use mvs_model::fact::Fact;
use mvs_model::line::SourceRequest;
use mvs_model::name::Name;
use mvs_model::numbers::TASK_NUMBERS;
use mvs_model::short_list::ShortList;
use mvs_model::subpool::SubNo;
use mvs_model::watched::{Failed, Watched};
use std::io::Write;

/// What is looked at before a request.
#[derive(Drop)]
pub(crate) struct Baseline {
    /// How many pages of each region hold nothing.
    pub(crate) below: u16,
    pub(crate) above: u16,
    /// Whether the task means a subpool by the number of the request.
    pub(crate) had: bool,
    /// How many parts the pool has.
    pub(crate) parts: u32,
    /// For each number of a task, whether the attaching task has a subpool. Empty before other requests.
    pub(crate) numbers: Numbers,
}

const MOST_FACTS: usize = 260;

/// For each number of a task, whether it has a subpool.
pub(crate) type Numbers = ShortList<bool, 0, 128>;

/// What a request did.
pub(crate) type Facts = ShortList<Fact, 0, MOST_FACTS>;

// Returns what is looked up before a request: whether the task has the subpool, and the number of parts of the pool.
fn looked_at(job: &Job, had: bool, parts: u32) -> Baseline
    ensures { result ≡ looked_at job.now had parts }
{
    let free = job.step().machine().free_pages();
    Baseline {
        below: free.below,
        above: free.above,
        had,
        parts,
        numbers: Numbers::empty(false),
    }
}

// Returns whether a task has a subpool under a number.
fn has_number(job: &Job, task: &Name, number: SubNo) -> bool
    ensures { result ≡ is_some (entry_owner job.now.state.owners task.now number) }
{
    job.step().machine().entry_owner(task, number).is_some()
}

// Returns the numbers under which a task has a subpool.
fn numbers_of(job: &Job, task: &Name) -> Numbers
    ensures { result ≡ numbers_of job.now task.now }
{
    let mut numbers = Numbers::empty(false);
    for n in 0..TASK_NUMBERS {
        numbers.push(has_number(job, task, SubNo::of(n)));
    }
    numbers
}

// Returns whether a task means a subpool by a number.
fn means(job: &Job, task: &Name, number: u8) -> bool
    ensures { result ≡ means job.now task.now number }
{
    job.step().machine().resolved_owner(task, number).is_some()
}

// Returns how many parts the pool of a name has.
fn parts_at(job: &Job, pool: &Name) -> u32
    ensures { result ≡ parts_at job.now.state pool.now }
{
    match job.step().machine().newest(pool) {
        Some(newest) => newest.parts,
        None => 0,
    }
}

/// Returns what is looked up before the request of a task, or None if its changes are not reported.
pub(crate) fn before_request(job: &Job, task: &Name, written: &SourceRequest) -> Option<Baseline>
    ensures { result ≡ before_request job.now task.now written.now }
{
    match written {
        SourceRequest::Obtain { number, .. }
        | SourceRequest::ObtainList { number, .. }
        | SourceRequest::Build { number, .. } => Some(looked_at(job, means(job, task, *number), 0)),
        SourceRequest::Release { .. }
        | SourceRequest::ReleaseArea { .. }
        | SourceRequest::ReleaseList { .. }
        | SourceRequest::ReleaseWhole { .. }
        | SourceRequest::Delete { .. } => Some(looked_at(job, true, 0)),
        SourceRequest::Get { pool, .. } => Some(looked_at(job, true, parts_at(job, pool))),
        SourceRequest::Attach { .. } => Some(Baseline {
            below: 0,
            above: 0,
            had: true,
            parts: 0,
            numbers: numbers_of(job, task),
        }),
        SourceRequest::Free { .. }
        | SourceRequest::Return
        | SourceRequest::Abend(_)
        | SourceRequest::Show { .. }
        | SourceRequest::Put { .. }
        | SourceRequest::Move { .. } => None,
    }
}

// Returns the fact of an area that was obtained.
fn area_fact(job: &Job, task: &Name, number: u8, area: &Name, least: u32, most: u32) -> Option<Fact>
    ensures { result ≡ area_fact job.now task.now number area.now least most }
{
    let place = job.place_of(area)?;
    let (number, owner) = job.step().machine().resolved_owner(task, number)?;
    Some(Fact::Obtained {
        area: *area,
        place,
        least,
        most,
        number,
        owner,
    })
}

// Returns the fact that no greater length had a place.
fn greater_fact(before: &Baseline, job: &Job, area: &Name, most: u32) -> Option<Fact>
    requires { most < 2 ^ 31 }
    ensures { result ≡ greater_fact before.now job.now area.now most }
{
    let place = job.place_of(area)?;
    if place.len() < most.div_ceil(8) * 8 {
        return Some(Fact::NoGreater {
            below: u32::from(before.below),
            above: u32::from(before.above),
        });
    }
    None
}

// Returns the fact of a subpool that the task did not mean by the number before.
fn subpool_fact(before: &Baseline, job: &Job, task: &Name, number: u8) -> Option<Fact>
    ensures { result ≡ subpool_fact before.now job.now task.now number }
{
    if before.had {
        return None;
    }
    let (number, owner) = job.step().machine().resolved_owner(task, number)?;
    Some(Fact::NewSubpool { number, owner })
}

// Returns the number of free pages in both regions.
fn sum(below: u16, above: u16) -> u32
    ensures { result ≡ below + above }
{
    u32::from(below) + u32::from(above)
}

// Returns how many pages hold nothing.
fn free_in(job: &Job) -> u32
    ensures { result ≡ free_in job.now }
{
    let free = job.step().machine().free_pages();
    sum(free.below, free.above)
}

// Returns the pages that were assigned.
fn taken_fact(before: &Baseline, job: &Job) -> Fact
    ensures { result ≡ taken_fact before.now job.now }
{
    Fact::PagesTaken(sum(before.below, before.above).saturating_sub(free_in(job)))
}

// Returns the pages that became free.
fn freed_fact(before: &Baseline, job: &Job) -> Option<Fact>
    ensures { result ≡ freed_fact before.now job.now }
{
    let freed = free_in(job).saturating_sub(sum(before.below, before.above));
    if freed == 0 {
        return None;
    }
    Some(Fact::PagesFreed(freed))
}

// Returns the subpool that was released as a whole, by the task's number for it.
fn emptied_fact(job: &Job, task: &Name, number: u8) -> Option<Fact>
    ensures { result ≡ emptied_fact job.now task.now number }
{
    let (number, owner) = job.step().machine().resolved_owner(task, number)?;
    Some(Fact::Emptied { number, owner })
}

// Returns the last part of a pool, if its number of parts has changed.
fn part_fact(before: &Baseline, job: &Job, pool: &Name) -> Option<Fact>
    ensures { result ≡ part_fact before.now job.now pool.now }
{
    let newest = job.step().machine().newest(pool)?;
    if newest.parts == before.parts {
        return None;
    }
    Some(Fact::PartAdded {
        pool: *pool,
        cells: newest.cells,
        size: newest.cell_size,
        place: newest.place,
    })
}

// Returns the pages that were taken for it.
fn part_pages(before: &Baseline, job: &Job, pool: &Name) -> Option<Fact>
    ensures { result ≡ part_pages before.now job.now pool.now }
{
    part_fact(before, job, pool)?;
    Some(taken_fact(before, job))
}

// Returns the fact of a cell that was allocated.
fn cell_fact(job: &Job, pool: &Name, cell: &Name) -> Option<Fact>
    ensures { result ≡ cell_fact job.now pool.now cell.now }
{
    let place = job.place_of(cell)?;
    Some(Fact::CellTaken {
        cell: *cell,
        pool: *pool,
        place,
    })
}

// Returns the subpool that the attaching task has under a number, if it had none.
fn created_fact(before: &Baseline, job: &Job, task: &Name, number: SubNo) -> Option<Fact>
    ensures { result ≡ created_fact before.now job.now task.now number }
{
    let at = usize::from(number.get());
    if before.numbers.as_slice().get(at).copied().unwrap_or(false) {
        return None;
    }
    let (number, owner) = job.step().machine().entry_owner(task, number)?;
    Some(Fact::NewSubpool { number, owner })
}

// Returns what a subtask has under a number.
fn subtask_fact(job: &Job, mother: &Name, subtask: &Name, number: SubNo) -> Option<Fact>
    ensures { result ≡ subtask_fact job.now mother.now subtask.now number }
{
    let (number, owner) = job.step().machine().entry_owner(subtask, number)?;
    if is_same_name(&owner, subtask) {
        return Some(Fact::Given {
            subtask: *subtask,
            number,
            mother: *mother,
        });
    }
    Some(Fact::Shared {
        subtask: *subtask,
        number,
        owner,
    })
}

/// Makes an empty list of facts.
pub(crate) fn no_facts() -> Facts
    ensures { result ≡ [] }
{
    Facts::empty(Fact::PagesTaken(0))
}

// Appends a fact, if there is one.
fn push_some(facts: &mut Facts, fact: Option<Fact>)
    requires { length facts.old < 260 }
    ensures facts { facts.new ≡ facts.old ++ listed fact }
    ensures len { length facts.new ≤ length facts.old + 1 }
{
    if let Some(fact) = fact {
        facts.push(fact);
    }
}

// Appends the areas of a list.
fn push_areas(
    facts: &mut Facts,
    job: &Job,
    task: &Name,
    number: u8,
    areas: &[Name],
    lengths: &[Length],
)
    requires { length facts.old + length areas.now ≤ 100 }
    ensures facts { facts.new
        ≡ facts.old ++ area_facts job.now task.now number areas.now lengths.now }
    ensures len { length facts.new ≤ length facts.old + length areas.now }
{
    let Some((area, areas)) = areas.split_first() else {
        return;
    };
    let Some((length, lengths)) = lengths.split_first() else {
        return;
    };
    let most = length.get();
    push_some(facts, area_fact(job, task, number, area, most, most));
    push_areas(facts, job, task, number, areas, lengths);
}

// Replaces the facts by what a subtask has of its attaching task, and the subpools that were created for that.
fn put_subtask(facts: &mut Facts, before: &Baseline, job: &Job, attaching: &Name, subtask: &Name)
    ensures { facts.new
        ≡ each_below task_numbers
        (λ n. attach_facts before.now job.now attaching.now subtask.now n) }
{
    facts.clear();
    for n in 0..TASK_NUMBERS {
        let number = SubNo::of(n);
        push_some(facts, created_fact(before, job, attaching, number));
        push_some(facts, subtask_fact(job, attaching, subtask, number));
    }
}

/// Replaces the facts by what a granted request of a task did.
pub(crate) fn put_facts(
    facts: &mut Facts,
    before: &Baseline,
    task: &Name,
    written: &SourceRequest,
    job: &Job,
)
    ensures { facts.new ≡ facts_of before.now task.now written.now job.now }
{
    facts.clear();
    match written {
        SourceRequest::Obtain {
            number,
            ask,
            area,
            ..
        } => {
            let (least, most) = (ask.least(), ask.most());
            push_some(facts, area_fact(job, task, *number, area, least, most));
            push_some(facts, greater_fact(before, job, area, most));
            push_some(facts, subpool_fact(before, job, task, *number));
            facts.push(taken_fact(before, job));
        }
        SourceRequest::ObtainList {
            number,
            lengths,
            areas,
            ..
        } => {
            let (areas, lengths) = (areas.as_slice(), lengths.as_slice());
            push_areas(facts, job, task, *number, areas, lengths);
            push_some(facts, subpool_fact(before, job, task, *number));
            facts.push(taken_fact(before, job));
        }
        SourceRequest::ReleaseWhole { number, .. } => {
            push_some(facts, emptied_fact(job, task, *number));
            push_some(facts, freed_fact(before, job));
        }
        SourceRequest::Build { pool, number, .. } => {
            push_some(facts, part_fact(before, job, pool));
            push_some(facts, subpool_fact(before, job, task, *number));
            push_some(facts, part_pages(before, job, pool));
        }
        SourceRequest::Get { pool, cell, .. } => {
            push_some(facts, cell_fact(job, pool, cell));
            push_some(facts, part_fact(before, job, pool));
            push_some(facts, part_pages(before, job, pool));
        }
        SourceRequest::Attach { name, .. } => put_subtask(facts, before, job, task, name),
        SourceRequest::Release { .. }
        | SourceRequest::ReleaseArea { .. }
        | SourceRequest::ReleaseList { .. }
        | SourceRequest::Delete { .. } => push_some(facts, freed_fact(before, job)),
        SourceRequest::Free { .. }
        | SourceRequest::Return
        | SourceRequest::Abend(_)
        | SourceRequest::Show { .. }
        | SourceRequest::Put { .. }
        | SourceRequest::Move { .. } => {}
    }
}

/// Prints what a request did.
pub(crate) fn print_facts<W: Write>(writer: &mut Watched<W>, facts: &[Fact]) -> Result<(), Failed>
    ensures { Prints W.contents writer.old writer.new result (flat_map fact_line facts.now) }
{
    for fact in facts {
        print_fact(writer, fact)?;
    }
    Ok(())
}

/// Returns whether an answer says that a request was granted.
pub(crate) fn is_grant(answer: &Answer) -> bool
    ensures { (st : State) (fallen : List TaskName) (t : TaskName)
        → result ≡ is_grant (full_answer st fallen t answer.now) }
{
    match answer {
        Answer::Rc0 | Answer::Granted(_) | Answer::Cell | Answer::Attached => true,
        Answer::NotRun
        | Answer::NoName
        | Answer::At(_)
        | Answer::Rc4
        | Answer::NoCell
        | Answer::Ended
        | Answer::Done
        | Answer::Data(_)
        | Answer::Abended(_)
        | Answer::Subpools
        | Answer::Map => false,
    }
}
