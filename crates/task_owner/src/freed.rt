//! The subpools that are freed when their owner ends.

ghost use Rattle.std.specs.Prelude.{◌≡◌, ◌≢◌, ◌<◌, ◌==◌, ◌&&◌, ◌||◌, ◌↔◌, ℕ, length, true, IsTrue, IsSome, Some};
ghost use Rattle.std.specs.List.Sorted.{IsStrictlySortedBy};
ghost use Rattle.std.specs.Ordering.{nat_cmp};
ghost use Rattle.slab.specs.Slab.{get, slab_len};
ghost use Rattle.mvs_model.specs.Numbers.{most_subpools, subpool_numbers};
ghost use Rattle.mvs_model.specs.Storage.{is_one_of};
ghost use Rattle.task_owner.specs.Seats.{item_at, number_of};
ghost use Rattle.task_owner.specs.Family.{is_of, is_freed_below, EntriesStand, IsLost, IsTrimmed, FreedBelow};
ghost use Rattle.task_owner.specs.declared.task_slot.TaskSlot.{TaskSlot};
ghost use Rattle.task_owner.specs.declared.task_slot.Owned.{Owned};

use crate::task_slot::{OwnNumbers, Owned, TaskSlot};
use mvs_model::subpool::SubpoolId;
use mvs_model::subpool_set::SubpoolSet;
use slab::Slab;

// Puts a subpool into the set if the task at the key owns it.
fn collect(subpool: SubpoolId, key: usize, owned: &[Option<Owned>], freed: &mut SubpoolSet)
    requires { length owned.now ≡ most_subpools }
    ensures members { (s : ℕ)
        → is_one_of freed.new s
        ≡ (((s == subpool) && is_of key (item_at owned.now s)) || is_one_of freed.old s) }
    ensures rising { IsStrictlySortedBy nat_cmp freed.old → IsStrictlySortedBy nat_cmp freed.new }
{
    if let Some(o) = owned[subpool.get() as usize] {
        if o.owner == key {
            freed.insert(subpool);
        }
    }
}

// Adds each subpool that the task at the key owns to the set. They are the entries of its numbers.
pub(crate) fn collect_owned(
    numbers: &OwnNumbers,
    key: usize,
    owned: &[Option<Owned>],
    freed: &mut SubpoolSet,
)
    requires long { length owned.now ≡ most_subpools }
    requires listed { (s : ℕ) (o : Owned) → item_at owned.now s ≡ Some o → o.owner ≡ key
        → (o.number < subpool_numbers) × (item_at numbers.now o.number ≡ Some s) }
    ensures members { (s : ℕ)
        → is_one_of freed.new s ≡ (is_of key (item_at owned.now s) || is_one_of freed.old s) }
    ensures rising { IsStrictlySortedBy nat_cmp freed.old → IsStrictlySortedBy nat_cmp freed.new }
{
    for n in 0..numbers.len() {
        if let Some(subpool) = numbers[n] {
            collect(subpool, key, owned, freed);
        }
    }
}

// Drops a task's entry for a subpool under a number, if it has it.
fn lose(active: &mut Slab<TaskSlot>, key: usize, number: usize, subpool: SubpoolId)
    requires there { IsSome (get active.old key) }
    requires low { number < subpool_numbers }
    ensures lost { IsLost number subpool (get active.old key) (get active.new key) }
    ensures others { (k : ℕ) → k ≢ key → get active.new k ≡ get active.old k }
    ensures len { slab_len active.new ≡ slab_len active.old }
    ensures capacity { active.new.capacity ≡ active.old.capacity }
{
    match active.get_mut(key) {
        Some(seat) => {
            if seat.numbers[number] == Some(subpool) {
                seat.numbers[number] = None;
            }
        }
        None => unreachable!(),
    }
}

// Returns whether a task has the subpool under the number.
fn is_held(active: &Slab<TaskSlot>, number: usize, subpool: SubpoolId) -> bool
    requires { number < subpool_numbers }
    ensures { IsTrue result
        ↔ ((k : ℕ) × (x : TaskSlot) × (get active.now k ≡ Some x)
        × (number_of x number ≡ Some subpool)) }
{
    for (_, seat) in active.iter() {
        if seat.numbers[number] == Some(subpool) {
            return true;
        }
    }
    false
}

// Drops each task's entry for a subpool under a number. Few subpools are still held when they fall free.
fn drop_entries(active: &mut Slab<TaskSlot>, number: usize, subpool: SubpoolId)
    requires { number < subpool_numbers }
    ensures each { (k : ℕ) → IsLost number subpool (get active.old k) (get active.new k) }
    ensures len { slab_len active.new ≡ slab_len active.old }
    ensures capacity { active.new.capacity ≡ active.old.capacity }
{
    if !is_held(active, number, subpool) {
        return;
    }
    for key in 0..active.capacity() {
        if active.contains(key) {
            lose(active, key, number, subpool);
        }
    }
}

// Removes the owner of each subpool of the set, and the entry of each task for it. A subpool has only one number.
pub(crate) fn free_subpools(
    active: &mut Slab<TaskSlot>,
    owned: &mut Vec<Option<Owned>>,
    freed: &SubpoolSet,
)
    requires long { length owned.old.items ≡ most_subpools }
    requires low { (s : ℕ) (o : Owned) → item_at owned.old.items s ≡ Some o
        → o.number < subpool_numbers }
    requires entries { EntriesStand active.old.slots owned.old.items }
    requires owned { (s : ℕ) → is_one_of freed.now s ≡ true → IsSome (item_at owned.old.items s) }
    ensures { FreedBelow active.old owned.old.items freed.now most_subpools active.new
        owned.new.items }
{
    let mut from = 0;
    'subpools: while let Some(subpool) = freed.first_from(from) {
        let s = subpool.get() as usize;
        let Some(o) = owned[s] else {
            unreachable!();
        };
        drop_entries(active, o.number as usize, subpool);
        owned[s] = None;
        from = s + 1;
    }
}
