//! What is removed when a task ends.

ghost use Rattle.std.specs.Prelude.{◌≡◌, ◌≢◌, ◌≤◌, ℕ, [], length, IsSome, MatchOption, Some, None};
ghost use Rattle.std.specs.List.Sorted.{IsStrictlySortedBy};
ghost use Rattle.std.specs.Ordering.{nat_cmp};
ghost use Rattle.slab.specs.Slab.{get, slab_len};
ghost use Rattle.mvs_model.specs.Numbers.{most_subpools, most_tasks};
ghost use Rattle.task_owner.specs.Seats.{Distinct, MothersActive};
ghost use Rattle.task_owner.specs.Family.{Falls, IsFreed, OwnersHave};
ghost use Rattle.task_owner.specs.declared.task_slot.TaskSlot.{TaskSlot};

use crate::freed::collect_owned;
use crate::task_slot::{Owned, TaskSlot, seat_at};
use mvs_model::request::TaskNames;
use mvs_model::subpool_set::SubpoolSet;
use slab::Slab;

// Returns a task whose mother is not active.
fn orphan(active: &Slab<TaskSlot>) -> Option<usize>
    ensures { MatchOption result (MothersActive active.now.slots)
        (λ k. (m : ℕ) × (x : TaskSlot) × (get active.now k ≡ Some x) × (x.mother ≡ Some m)
        × (get active.now m ≡ None)) }
{
    for (key, seat) in active.iter() {
        if let Some(mother) = seat.mother {
            if !active.contains(mother) {
                return Some(key);
            }
        }
    }
    None
}

// Takes a task and its descendants out, and puts the subpools that they own into the set; the names of the descendants.
pub(crate) fn remove_family(
    active: &mut Slab<TaskSlot>,
    owned: &[Option<Owned>],
    t: usize,
    freed: &mut SubpoolSet,
) -> TaskNames
    requires there { IsSome (get active.old t) }
    requires distinct { Distinct active.old.slots }
    requires mothers { MothersActive active.old.slots }
    requires few { slab_len active.old ≤ most_tasks }
    requires long { length owned.now ≡ most_subpools }
    requires owners { OwnersHave active.old.slots owned.now }
    requires none { freed.old ≡ [] }
    ensures falls { (x : TaskSlot) → get active.old t ≡ Some x
        → Falls active.old t x.name result active.new }
    ensures closed { MothersActive active.new.slots }
    ensures freed { IsFreed active.new owned.now freed.new }
    ensures rising { IsStrictlySortedBy nat_cmp freed.new }
{
    collect_owned(&seat_at(active, t).numbers, t, owned, freed);
    let mut names = TaskNames::empty(active.remove(t).name);
    'family: while let Some(key) = orphan(active) {
        collect_owned(&seat_at(active, key).numbers, key, owned, freed);
        names.push(active.remove(key).name);
    }
    names
}

// Takes out a task that has no subtask, and puts the subpools that it owns into the set.
pub(crate) fn remove_alone(
    active: &mut Slab<TaskSlot>,
    owned: &[Option<Owned>],
    t: usize,
    freed: &mut SubpoolSet,
)
    requires there { IsSome (get active.old t) }
    requires distinct { Distinct active.old.slots }
    requires mothers { MothersActive active.old.slots }
    requires alone { (k : ℕ) (x : TaskSlot) → get active.old k ≡ Some x → x.mother ≢ Some t }
    requires long { length owned.now ≡ most_subpools }
    requires owners { OwnersHave active.old.slots owned.now }
    requires none { freed.old ≡ [] }
    ensures falls { (x : TaskSlot) → get active.old t ≡ Some x
        → Falls active.old t x.name [] active.new }
    ensures closed { MothersActive active.new.slots }
    ensures freed { IsFreed active.new owned.now freed.new }
{
    collect_owned(&seat_at(active, t).numbers, t, owned, freed);
    active.remove(t);
}
