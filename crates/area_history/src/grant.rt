//! Areas that were granted, and what is left of them.

ghost use Rattle.std.specs.Prelude.{◌≡◌, ◌<◌, ◌+◌, ◌/◌, ◌↔◌, ℕ, Bool, IsTrue, true};
ghost use Rattle.mvs_model.specs.declared.name.Name.{Name as TaskName};
ghost use Rattle.std.specs.List.{list_any};
ghost use Rattle.area_history.specs.Leaking.{has_obtained, selects};

use line_text::is_same_name;
use mvs_model::name::Name;
use mvs_model::numbers::{ABOVE_BEGINS, MOST_TASKS};
use mvs_model::place::Place;
use mvs_model::short_list::ShortList;
use mvs_model::subpool::SubNo;

/// An area that a line was granted.
#[derive(Clone, Copy, Debug, PartialEq, Eq)]
pub struct AreaGrant {
    /// The name that the line set to it.
    pub area: Name,
    pub place: Place,
    /// The number of the line.
    pub line: u32,
    pub task: Name,
    /// The number under which its owner has the subpool, and the owner.
    pub subpool: SubNo,
    pub owner: Name,
}

/// When a task was attached: by which line, and how many areas had been obtained before. For the job step task both are 0.
#[derive(Clone, Copy, Debug, PartialEq, Eq)]
pub struct TaskStart {
    pub line: u32,
    pub areas: usize,
}

/// A task that ended, and when it was attached.
#[derive(Clone, Copy, Debug, PartialEq, Eq)]
pub struct EndedTask {
    pub task: Name,
    pub start: TaskStart,
}

/// Tasks that ended with one line.
pub(crate) type EndedTaskList = ShortList<EndedTask, 0, MOST_TASKS>;

/// Which areas are looked at.
#[derive(Drop)]
pub enum Selection {
    All,
    /// Those that tasks which ended obtained since they were attached.
    EndedWith(EndedTaskList),
    /// Those below 16 megabytes.
    Below,
}

impl EndedTask {
    // Returns whether the task obtained an area since it was attached.
    fn has_obtained(&self, grant: &AreaGrant) -> bool
        ensures { result ≡ has_obtained self.now grant.now }
    {
        is_same_name(&self.task, &grant.task) && self.start.line < grant.line
    }
}

// Returns whether one of some tasks obtained an area since it was attached.
fn any_obtained(tasks: &[EndedTask], grant: &AreaGrant) -> bool
    ensures { result ≡ list_any (λ e. has_obtained e grant.now) tasks.now }
{
    let Some((first, others)) = tasks.split_first() else {
        return false;
    };
    first.has_obtained(grant) || any_obtained(others, grant)
}

impl Selection {
    /// Returns whether all areas are looked at.
    pub(crate) fn is_all(&self) -> bool
        ensures { result ≡ true → self.now ≡ Selection.All }
    {
        match self {
            Selection::All => true,
            Selection::EndedWith(_) | Selection::Below => false,
        }
    }

    /// Returns whether an area is looked at.
    pub fn selects(&self, grant: &AreaGrant) -> bool
        ensures { result ≡ selects self.now grant.now }
    {
        match self {
            Selection::All => true,
            Selection::EndedWith(tasks) => any_obtained(tasks.as_slice(), grant),
            Selection::Below => grant.place.addr().get() < ABOVE_BEGINS,
        }
    }
}

/// An area, and how many bytes of it are left.
#[derive(Clone, Copy, Debug, PartialEq, Eq)]
pub struct Leak {
    pub grant: AreaGrant,
    pub bytes: u32,
}

/// The storage of a step that subpools hold, and its cell pools.
pub trait Holdings {
    // Whether a subpool holds a doubleword outside of cell pools.
    ghost plain: { Self → ℕ → Bool };

    // How many parts the cell pool of a name has: 0, if there is none.
    ghost parts: { Self → TaskName → ℕ };

    /// Returns whether a subpool holds a doubleword, by its address divided by eight, outside of cell pools.
    fn is_plain(&self, doubleword: u32) -> bool
        ensures { result ≡ plain self.now doubleword };

    /// Returns whether subpools hold each doubleword of a place outside of cell pools. Its time does not depend on the length of a
    /// place that one subpool holds.
    fn has_plain(&self, place: Place) -> bool
        ensures { IsTrue result
            ↔ ((k : ℕ) → k < place.len / 8 → plain self.now (place.addr / 8 + k) ≡ true) };

    /// Returns how many parts the cell pool of a name has: 0, if there is none.
    fn parts(&self, pool: &Name) -> u32
        ensures { result ≡ parts self.now pool.now };
}
