//! How many pages are assigned to each subpool, and how many doublewords it holds, counted as storage changes.

ghost use Rattle.std.specs.Prelude.{◌≡◌, ◌<◌, ◌==◌, ℕ, [], IfOk, length, if◌then◌else◌};
ghost use Rattle.mvs_model.specs.Storage.{is_one_of};
ghost use Rattle.subpool_store.specs.SubpoolCounts.{count_of, no_count};

use mvs_model::error::OutOfMemory;
use mvs_model::numbers::MOST_SUBPOOLS;
use mvs_model::subpool::SubpoolId;
use mvs_model::subpool_set::SubpoolSet;
use std::alloc::Global;
use std::marker::Model;

/// The number of pages that are assigned to a subpool, and of doublewords that it holds.
#[derive(Clone, Copy)]
pub struct SubpoolCount {
    pub pages: u32,
    pub held: u32,
}

// The count of a subpool without storage.
const NO_COUNT: SubpoolCount = SubpoolCount { pages: 0, held: 0 };

/// The count of each subpool, by its number. A subpool past the last entry has no storage: entries are added as subpools are used,
/// so that new counts need no clearing.
#[derive(Drop)]
pub struct SubpoolCounts {
    entries: Vec<SubpoolCount>,
}

impl Model for SubpoolCounts {
    ghost use Rattle.std.specs.Prelude.{◌≤◌, List, vec_capacity};
    ghost use Rattle.mvs_model.specs.Numbers.{most_subpools};
    ghost use Rattle.subpool_store.specs.declared.subpool_counts.SubpoolCount.{SubpoolCount as TheCount};
    ghost use Rattle.subpool_store.specs.SubpoolCounts.{counts_code};

    ghost Value = { List TheCount };

    ghost coded = { counts_code };

    ghost view = { λ c. c.entries.items };

    ghost invariant = { λ c. most_subpools ≤ vec_capacity c.entries };
}

impl SubpoolCounts {
    // Makes counts in which no subpool has storage, with memory for all subpools.
    pub fn new(alloc: Global) -> Result<SubpoolCounts, OutOfMemory>
        ensures { IfOk result (λ c. c ≡ []) }
    {
        let entries = Vec::with_capacity(alloc, MOST_SUBPOOLS).map_err(|_| OutOfMemory)?;
        Ok(SubpoolCounts { entries })
    }

    // Returns the count of a subpool.
    pub fn get(&self, subpool: SubpoolId) -> SubpoolCount
        ensures { result ≡ count_of self.now subpool }
    {
        let s = subpool.get() as usize;
        if s < self.entries.len() {
            self.entries[s]
        } else {
            NO_COUNT
        }
    }

    // Adds entries up to that of a subpool.
    fn extend(&mut self, subpool: SubpoolId)
        ensures counts { (s : ℕ) → count_of self.new s ≡ count_of self.old s }
        ensures reached { subpool < length self.new }
    {
        let s = subpool.get() as usize;
        'entries: while self.entries.len() <= s {
            self.entries.push_reserved(NO_COUNT);
        }
    }

    // Sets the count of a subpool.
    pub fn set(&mut self, subpool: SubpoolId, count: SubpoolCount)
        ensures { (s : ℕ)
            → count_of self.new s ≡ (if s == subpool then count else count_of self.old s) }
    {
        self.extend(subpool);
        self.entries[subpool.get() as usize] = count;
    }

    // Clears the count of a subpool.
    fn clear(&mut self, subpool: SubpoolId)
        ensures counts { (s : ℕ)
            → count_of self.new s ≡ (if s == subpool then no_count else count_of self.old s) }
        ensures len { length self.new ≡ length self.old }
    {
        let s = subpool.get() as usize;
        if s < self.entries.len() {
            self.entries[s] = NO_COUNT;
        }
    }

    // Clears the counts of the subpools of a set.
    pub fn clear_each(&mut self, subpools: &SubpoolSet)
        ensures { (s : ℕ)
            → count_of self.new s
            ≡ (if is_one_of subpools.now s then no_count else count_of self.old s) }
    {
        let mut from = 0;
        'subpools: while from < self.entries.len() {
            let Some(subpool) = subpools.first_from(from) else {
                return;
            };
            self.clear(subpool);
            from = subpool.get() as usize + 1;
        }
    }

    // Returns a copy. It fails if memory is exhausted.
    pub fn try_clone(&self) -> Result<SubpoolCounts, OutOfMemory>
        ensures { IfOk result (λ copy. copy ≡ self.now) }
    {
        let mut copy = SubpoolCounts::new(*self.entries.allocator())?;
        copy.entries
            .extend_from_slice(self.entries.as_slice())
            .map_err(|_| OutOfMemory)?;
        Ok(copy)
    }
}
