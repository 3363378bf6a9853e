//! What is looked up before a request, so that its effects are known after it.

ghost use Rattle.std.specs.Prelude.{◌≡◌, is_some};
ghost use Rattle.mvs_job.specs.Granting.{means, numbers_of, parts_at};
ghost use Rattle.request_forms.specs.SubpoolLabels.{entry_owner};
ghost use Rattle.mvs_c.specs.Effects.{baseline_of, had_before, no_baseline, numbers_before, parts_before};

use crate::asked::Asked;
use mvs_job::Job;
use mvs_model::name::Name;
use mvs_model::numbers::TASK_NUMBERS;
use mvs_model::short_list::ShortList;
use mvs_model::subpool::SubNo;

/// For each number of a task, whether it has a subpool.
pub type Numbers = ShortList<bool, 0, 128>;

/// What is looked up before a request of a task.
#[derive(Drop)]
pub struct Baseline {
    /// How many pages of each region hold nothing.
    pub below: u16,
    pub above: u16,
    /// Whether the task has the subpool of the number from which it obtains.
    pub had: bool,
    /// How many parts the pool has from which it gets a cell.
    pub parts: u32,
    /// Under which numbers it has a subpool, if it attaches a subtask.
    pub numbers: Numbers,
}

// Returns whether a task means a subpool by a number.
fn means(job: &Job, task: &Name, number: u8) -> bool
    ensures { result ≡ means job.now task.now number }
{
    job.step().machine().resolved_owner(task, number).is_some()
}

// Returns whether a task has a subpool under a number.
fn has_number(job: &Job, task: &Name, number: SubNo) -> bool
    ensures { result ≡ is_some (entry_owner job.now.state.owners task.now number) }
{
    job.step().machine().entry_owner(task, number).is_some()
}

// Returns the numbers under which a task has a subpool.
fn numbers_of(job: &Job, task: &Name) -> Numbers
    ensures { result ≡ numbers_of job.now task.now }
{
    let mut numbers = Numbers::empty(false);
    for n in 0..TASK_NUMBERS {
        numbers.push(has_number(job, task, SubNo::of(n)));
    }
    numbers
}

// Returns how many parts the pool of a name has.
fn parts_at(job: &Job, pool: &Name) -> u32
    ensures { result ≡ parts_at job.now.state pool.now }
{
    match job.step().machine().newest(pool) {
        Some(newest) => newest.parts,
        None => 0,
    }
}

// Returns whether a task has the subpool from which it obtains.
fn had_before(job: &Job, task: &Name, asked: &Asked) -> bool
    ensures { result ≡ had_before job.now task.now asked.now }
{
    match asked {
        Asked::Obtain { number, .. }
        | Asked::ObtainList { number, .. }
        | Asked::Build { number, .. } => means(job, task, *number),
        Asked::Release
        | Asked::ReleaseWhole { .. }
        | Asked::Get { .. }
        | Asked::Attach { .. }
        | Asked::Other => true,
    }
}

// Returns how many parts the pool has from which a cell is taken.
fn parts_before(job: &Job, asked: &Asked) -> u32
    ensures { result ≡ parts_before job.now asked.now }
{
    match asked {
        Asked::Get { pool } => parts_at(job, pool),
        Asked::Obtain { .. }
        | Asked::ObtainList { .. }
        | Asked::Release
        | Asked::ReleaseWhole { .. }
        | Asked::Build { .. }
        | Asked::Attach { .. }
        | Asked::Other => 0,
    }
}

// Returns under which numbers an attaching task has a subpool.
fn numbers_before(job: &Job, task: &Name, asked: &Asked) -> Numbers
    ensures { result ≡ numbers_before job.now task.now asked.now }
{
    match asked {
        Asked::Attach { .. } => numbers_of(job, task),
        Asked::Obtain { .. }
        | Asked::ObtainList { .. }
        | Asked::Release
        | Asked::ReleaseWhole { .. }
        | Asked::Build { .. }
        | Asked::Get { .. }
        | Asked::Other => Numbers::empty(false),
    }
}

/// Returns what is looked up before a request of a task.
pub fn baseline_of(job: &Job, task: &Name, asked: &Asked) -> Baseline
    ensures { result ≡ baseline_of job.now task.now asked.now }
{
    let free = job.step().machine().free_pages();
    Baseline {
        below: free.below,
        above: free.above,
        had: had_before(job, task, asked),
        parts: parts_before(job, asked),
        numbers: numbers_before(job, task, asked),
    }
}

impl Baseline {
    /// Makes one before which nothing was looked up.
    pub fn none() -> Baseline
        ensures { result ≡ no_baseline }
    {
        Baseline {
            below: 0,
            above: 0,
            had: true,
            parts: 0,
            numbers: Numbers::empty(false),
        }
    }

    /// Returns a copy.
    pub fn copied(&self) -> Baseline
        ensures { result ≡ self.now }
    {
        Baseline {
            below: self.below,
            above: self.above,
            had: self.had,
            parts: self.parts,
            numbers: self.numbers.copied(),
        }
    }
}
