//! What is freed with a task that ends, computed before it does: the subpools that tasks own.

ghost use Rattle.std.specs.Prelude.{◌≡◌, ◌≤◌, ◌==◌, ◌||◌, ℕ, None, length, slice_index_or};
ghost use Rattle.mvs_model.specs.declared.name.Name.{Name as TheName};
ghost use Rattle.mvs_model.specs.Finite.{any_below, has};
ghost use Rattle.mvs_model.specs.Numbers.{most_subpools};
ghost use Rattle.mvs_model.specs.NextOwned.{IsNextOwned};
ghost use Rattle.mvs_model.specs.Storage.{is_one_of};
ghost use Rattle.request_forms.specs.Facts.{has_subpool, owned_at};

use crate::machine::Machine;
use mvs_model::name::Name;
use mvs_model::subpool::{SubNo, SubpoolId};
use mvs_model::subpool_set::SubpoolSet;

/// A subpool that a task owns.
#[derive(Clone, Copy, Debug, PartialEq, Eq)]
pub struct OwnedSubpool {
    /// The number under which its owner has it.
    pub number: SubNo,
    pub owner: Name,
    /// How many bytes it holds, outside and inside of cell pools.
    pub bytes: u32,
    /// How many pages are assigned to it.
    pub pages: u32,
    /// Whether the task has it that was asked for.
    pub had: bool,
}

// Puts the subpool of an entry, if it has one, into a set.
fn insert_entry(subpools: &mut SubpoolSet, entry: Option<SubpoolId>)
    ensures { (s : ℕ)
        → is_one_of subpools.new s ≡ (has (λ r. r == s) entry || is_one_of subpools.old s) }
{
    if let Some(subpool) = entry {
        subpools.insert(subpool);
    }
}

// Returns the subpools of some entries.
fn subpools_among(entries: &[Option<SubpoolId>]) -> SubpoolSet
    ensures { (s : ℕ)
        → is_one_of result s
        ≡ any_below (λ n. has (λ r. r == s) (slice_index_or entries.now n None))
        (length entries.now) }
{
    let mut subpools = SubpoolSet::empty();
    for entry in entries {
        insert_entry(&mut subpools, *entry);
    }
    subpools
}

impl Machine {
    /// Returns the first subpool from a number on that a task owns.
    pub fn next_owned(&self, from: u16) -> Option<SubpoolId>
        requires { from ≤ most_subpools }
        ensures { IsNextOwned self.now.state.owners from result }
    {
        self.tasks.next_owned(from)
    }

    /// Returns the subpools that a task has under some number. A task that is not active has none.
    pub fn subpools_of(&self, task: &Name) -> SubpoolSet
        ensures { (s : ℕ)
            → is_one_of result s ≡ has_subpool self.now.state.owners task.now s }
    {
        match self.tasks.find(task) {
            Some(t) => subpools_among(self.tasks.entries(t)),
            None => SubpoolSet::empty(),
        }
    }

    /// Returns a subpool if a task owns it, with whether it is among the subpools that another task has.
    pub fn owned_among(&self, subpool: SubpoolId, had: &SubpoolSet) -> Option<OwnedSubpool>
        ensures { (t : TheName)
            → ((s : ℕ) → is_one_of had.now s ≡ has_subpool self.now.state.owners t s)
            → result ≡ owned_at self.now.state t subpool }
    {
        let (number, owner) = self.tasks.label(subpool)?;
        Some(OwnedSubpool {
            number,
            owner,
            bytes: self.store.held_bytes(subpool),
            pages: self.store.assigned_pages(subpool),
            had: had.contains(subpool),
        })
    }

    /// Returns a subpool if a task owns it, with whether another task has it.
    pub fn owned(&self, subpool: SubpoolId, task: &Name) -> Option<OwnedSubpool>
        ensures { result ≡ owned_at self.now.state task.now subpool }
    {
        self.owned_among(subpool, &self.subpools_of(task))
    }
}
