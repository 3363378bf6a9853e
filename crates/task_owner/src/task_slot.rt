//! A task with its subpools, and who owns a subpool.

ghost use Rattle.std.specs.Prelude.{◌≡◌, ◌≢◌, ◌<◌, ◌≤◌, ◌↔◌, ℕ, false, length, replicate, IsTrue, IsSome, IfOk, MatchOption, Some, None, slice_set};
ghost use Rattle.slab.specs.Slab.{get, slab_len};
ghost use Rattle.mvs_model.specs.NextName.{is_before, IsAfter};
ghost use Rattle.mvs_model.specs.Numbers.{most_subpools, subpool_numbers};
ghost use Rattle.task_owner.specs.Seats.{item_at};
ghost use Rattle.task_owner.specs.declared.task_slot.TaskSlot.{TaskSlot};
ghost use Rattle.task_owner.specs.declared.task_slot.Owned.{Owned};

use crate::skipping::pass_none;
use mvs_model::name::Name;
use mvs_model::next_name::first_of;
use mvs_model::numbers::{MOST_SUBPOOLS, SUBPOOL_NUMBERS};
use mvs_model::subpool::SubpoolId;
use mvs_model::want::Residence;
use slab::Slab;
use std::alloc::{AllocError, Global};

// The places for a task's numbers; those from 128 to 130 are never taken.
pub(crate) const SLOTS: usize = SUBPOOL_NUMBERS as usize;

// The subpools under the numbers of a task.
pub(crate) type OwnNumbers = [Option<SubpoolId>; SLOTS];

// A task, its mother by her key, and the subpools under its numbers.
#[derive(Drop)]
pub(crate) struct TaskSlot {
    pub(crate) name: Name,
    pub(crate) mother: Option<usize>,
    pub(crate) residence: Residence,
    pub(crate) numbers: OwnNumbers,
}

// The owner of a subpool, by its key, and the owner's number for it.
#[derive(Clone, Copy)]
pub(crate) struct Owned {
    pub(crate) owner: usize,
    pub(crate) number: u8,
}

// Returns the task at a key.
pub(crate) fn seat_at(active: &Slab<TaskSlot>, key: usize) -> &TaskSlot
    requires { IsSome (get active.now key) }
    ensures { get active.now key ≡ Some result.now }
{
    match active.get(key) {
        Some(seat) => seat,
        None => unreachable!(),
    }
}

// Enters a subpool under a number of the task at a key.
pub(crate) fn enter(active: &mut Slab<TaskSlot>, key: usize, number: usize, subpool: SubpoolId)
    requires there { IsSome (get active.old key) }
    requires low { number < subpool_numbers }
    ensures entered { (x : TaskSlot) → get active.old key ≡ Some x
        → get active.new key
        ≡ Some (record x { numbers = slice_set x.numbers number (Some subpool) }) }
    ensures fits { (x : TaskSlot) → get active.old key ≡ Some x → number < length x.numbers }
    ensures others { (k : ℕ) → k ≢ key → get active.new k ≡ get active.old k }
    ensures len { slab_len active.new ≡ slab_len active.old }
    ensures capacity { active.new.capacity ≡ active.old.capacity }
{
    match active.get_mut(key) {
        Some(seat) => seat.numbers[number] = Some(subpool),
        None => unreachable!(),
    }
}

// Returns the key of the task of this name.
pub(crate) fn find_key(active: &Slab<TaskSlot>, name: Name) -> Option<usize>
    ensures { MatchOption result ((k : ℕ) (x : TaskSlot) → get active.now k ≡ Some x → x.name ≢ name)
        (λ k. (x : TaskSlot) × (get active.now k ≡ Some x) × (x.name ≡ name)) }
{
    for (key, seat) in active.iter() {
        if seat.name == name {
            return Some(key);
        }
    }
    None
}

// Returns the task without a mother.
pub(crate) fn find_first(active: &Slab<TaskSlot>) -> Option<usize>
    ensures { MatchOption result ((k : ℕ) (x : TaskSlot) → get active.now k ≡ Some x → x.mother ≢ None)
        (λ k. (x : TaskSlot) × (get active.now k ≡ Some x) × (x.mother ≡ None)) }
{
    for (key, seat) in active.iter() {
        if seat.mother.is_none() {
            return Some(key);
        }
    }
    None
}

// Returns the name of a task that has the mother at the key.
pub(crate) fn find_child(active: &Slab<TaskSlot>, mother: usize) -> Option<Name>
    ensures { MatchOption result
        ((k : ℕ) (x : TaskSlot) → get active.now k ≡ Some x → x.mother ≢ Some mother)
        (λ name. (k : ℕ) × (x : TaskSlot) × (get active.now k ≡ Some x) × (x.mother ≡ Some mother)
        × (x.name ≡ name)) }
{
    for (_, seat) in active.iter() {
        if seat.mother == Some(mother) {
            return Some(seat.name);
        }
    }
    None
}

// Returns the first name of a task in byte order after the given one.
pub(crate) fn find_next(active: &Slab<TaskSlot>, given: &Option<Name>) -> Option<Name>
    ensures { MatchOption result
        ((k : ℕ) (x : TaskSlot) → get active.now k ≡ Some x → IsAfter x.name given.now → ⊥)
        (λ next. ((k : ℕ) × (x : TaskSlot) × (get active.now k ≡ Some x) × (x.name ≡ next)
        × IsAfter next given.now)
        × ((k : ℕ) (x : TaskSlot) → get active.now k ≡ Some x → IsAfter x.name given.now
        → is_before x.name next ≡ false)) }
{
    let mut next = None;
    for (_, seat) in active.iter() {
        next = first_of(next, seat.name, given);
    }
    next
}

// Returns the lowest subpool without an owner.
pub(crate) fn first_spare(owned: &[Option<Owned>]) -> usize
    requires { (s : ℕ) × (s < length owned.now) × (item_at owned.now s ≡ None) }
    ensures spare { item_at owned.now result ≡ None }
    ensures least { (r : ℕ) → r < result → IsSome (item_at owned.now r) }
    ensures low { result < length owned.now }
{
    for s in 0..owned.len() {
        if owned[s].is_none() {
            return s;
        }
    }
    unreachable!()
}

// Returns the first subpool from a number on that has an owner.
pub(crate) fn first_owned(owned: &[Option<Owned>], from: usize) -> Option<usize>
    requires { from ≤ length owned.now }
    ensures { MatchOption result
        ((s : ℕ) → from ≤ s → s < length owned.now → item_at owned.now s ≡ None)
        (λ next. (from ≤ next) × (next < length owned.now) × IsSome (item_at owned.now next)
        × ((s : ℕ) → from ≤ s → s < next → item_at owned.now s ≡ None)) }
{
    let passed = pass_none(owned, from);
    for s in passed..owned.len() {
        if owned[s].is_some() {
            return Some(s);
        }
    }
    None
}

// Subpools without an owner.
pub(crate) fn no_owners(alloc: Global) -> Result<Vec<Option<Owned>>, AllocError>
    ensures { IfOk result (λ v. v.items ≡ replicate most_subpools None) }
{
    let owned = vec![in alloc; None; MOST_SUBPOOLS]?;
    Ok(owned)
}

// Returns a copy of the subpools under the numbers of a task.
fn copy_numbers(numbers: &OwnNumbers) -> OwnNumbers
    ensures { result ≡ numbers.now }
{
    let mut copy = [None; SLOTS];
    copy.copy_from_slice(numbers);
    copy
}

impl Clone for TaskSlot {
    ghost use Rattle.std.specs.Prelude.{◌≡◌};

    ghost is_clone = { λ task copy. copy ≡ task };

    fn clone(&self) -> Result<TaskSlot, AllocError> {
        Ok(TaskSlot {
            name: self.name,
            mother: self.mother,
            residence: self.residence,
            numbers: copy_numbers(&self.numbers),
        })
    }
}
