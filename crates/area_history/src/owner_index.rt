//! An index of the changes that concern whole subpools, by the owner and the number of the subpool.

ghost use Rattle.std.specs.Prelude.{◌≡◌, ◌<◌, ◌≤◌, ◌+◌, ◌*◌, ◌^◌, ◌⊎◌, ℕ, IfSome, false, true};
ghost use Rattle.mvs_model.specs.declared.name.Name.{Name as TaskName};
ghost use Rattle.mvs_model.specs.Gifts.{gives};
ghost use Rattle.area_history.specs.ReleaseIndex.{IsFirstCode, concerns, first_code, has_code};

use crate::events::{StorageChange, StorageEvent};
use mvs_model::gifts::Gifts;
use mvs_model::name::Name;
use std::alloc::Global;
use std::collections::BTreeSet;

/// Takes the place of a number for a change that concerns all subpools of an owner.
const EACH_NUMBER: u8 = 255;

/// For each owner and each number of a subpool, the changes that concern it. The code of a change is its own number after that of the
/// owner and the number of the subpool.
#[derive(Drop)]
pub(crate) struct OwnerIndex {
    codes: BTreeSet<u128>,
}

// Returns the code of the change with number 0, for a subpool.
fn first_code(owner: &Name, number: u8) -> u128
    ensures code { result ≡ first_code owner.now number }
    ensures most { result < 2 ^ 105 }
{
    u128::from(u64::from_be_bytes(owner.bytes())) * 0x100_0000_0000
        + u128::from(number) * 0x1_0000_0000
}

impl OwnerIndex {
    /// Makes an index without changes. It allocates no memory.
    pub(crate) fn new(alloc: Global) -> OwnerIndex
        ensures { (code : ℕ) → has_code result code ≡ false }
    {
        OwnerIndex {
            codes: BTreeSet::new(alloc),
        }
    }

    /// Forgets all changes.
    pub(crate) fn clear(&mut self)
        ensures { (code : ℕ) → has_code self.new code ≡ false }
    {
        self.codes.clear();
    }

    // Adds a change that concerns a subpool. Returns whether memory was enough.
    fn insert(&mut self, owner: &Name, number: u8, change: u32) -> bool
        ensures added { result ≡ true → has_code self.new (first_code owner.now number + change) ≡ true }
        ensures kept { (code : ℕ) → has_code self.old code ≡ true → has_code self.new code ≡ true }
    {
        let code = first_code(owner, number) + u128::from(change);
        let Ok(_) = self.codes.insert(code) else {
            return false;
        };
        true
    }

    // Adds a change that concerns the subpools which a task gives. Returns whether memory was enough.
    fn insert_given(&mut self, task: &Name, gifts: &Gifts, change: u32) -> bool
        ensures added { result ≡ true → (n : ℕ) → gives gifts.now n ≡ true
            → has_code self.new (first_code task.now n + change) ≡ true }
        ensures kept { (code : ℕ) → has_code self.old code ≡ true → has_code self.new code ≡ true }
    {
        let mut from = 0;
        'given: while let Some(number) = gifts.first_given(from) {
            if !self.insert(task, number, change) {
                return false;
            }
            from = number + 1;
        }
        true
    }

    /// Adds a change under its number. Returns whether memory was enough.
    pub(crate) fn add(&mut self, event: &StorageEvent, change: u32) -> bool
        ensures added { result ≡ true → (owner : TaskName) (n : ℕ) → concerns owner n event.now ≡ true
            → (has_code self.new (first_code owner n + change) ≡ true)
            ⊎ (has_code self.new (first_code owner 255 + change) ≡ true) }
        ensures kept { (code : ℕ) → has_code self.old code ≡ true → has_code self.new code ≡ true }
    {
        match &event.change {
            StorageChange::Released(_) => true,
            StorageChange::Emptied(number, owner) => self.insert(owner, number.get(), change),
            StorageChange::Ended(task) => self.insert(task, EACH_NUMBER, change),
            StorageChange::Attached { gifts, .. } => self.insert_given(&event.task, gifts, change),
        }
    }

    // Returns the first code from one on.
    fn first_from(&self, least: u128) -> Option<u128>
        ensures { IsFirstCode self.now least result }
    {
        self.codes.range(least..).next().copied()
    }

    // Returns the number of the first change, from one on, that concerns a subpool, or a number before it.
    fn first_of(&self, owner: &Name, number: u8, from: usize) -> usize
        ensures from { from ≤ result }
        ensures first { (i : ℕ) → from ≤ i → has_code self.now (first_code owner.now number + i) ≡ true
            → result ≤ i }
    {
        let start = first_code(owner, number);
        let Some(code) = self.first_from(start + from as u128) else {
            return usize::MAX;
        };
        (code - start).min(usize::MAX as u128) as usize
    }

    /// Returns a number that is not before another one. No change between them concerns the subpool that an owner has under a number.
    pub(crate) fn next(&self, owner: &Name, number: u8, from: usize) -> usize
        ensures from { from ≤ result }
        ensures first { (i : ℕ) → from ≤ i
            → (has_code self.now (first_code owner.now number + i) ≡ true)
            ⊎ (has_code self.now (first_code owner.now 255 + i) ≡ true) → result ≤ i }
    {
        let next = self.first_of(owner, number, from);
        next.min(self.first_of(owner, EACH_NUMBER, from))
    }
}
