//! The subpools that tasks own, in a list whose memory is allocated once.

ghost use Rattle.std.specs.Prelude.{◌≡◌, ◌<◌, ◌++◌, ◌∷◌, [], IfOk, length};
ghost use Rattle.request_forms.specs.Facts.{owned_subpools};

use mvs_job::{Job, OwnedSubpool};
use mvs_model::error::OutOfMemory;
use mvs_model::name::Name;
use mvs_model::numbers::MOST_SUBPOOLS;
use std::alloc::Global;
use std::marker::Model;

/// Subpools that tasks own. It has memory for all of them.
#[derive(Drop)]
pub struct OwnedList {
    items: Vec<OwnedSubpool>,
}

impl Model for OwnedList {
    ghost use Rattle.std.specs.Prelude.{◌≤◌, List, vec_capacity};
    ghost use Rattle.mvs_model.specs.Numbers.{most_subpools};
    ghost use Rattle.request_forms.specs.declared.facts.OwnedSubpool.{OwnedSubpool as TheSubpool};
    ghost use Rattle.mvs_c.specs.OwnedCode.{owned_code};

    ghost Value = { List TheSubpool };

    ghost coded = { owned_code };

    ghost view = { λ l. l.items.items };

    ghost invariant = { λ l. most_subpools ≤ vec_capacity l.items };
}

impl OwnedList {
    /// Makes an empty list, with memory for all subpools.
    pub fn new(alloc: Global) -> Result<OwnedList, OutOfMemory>
        ensures { IfOk result (λ l. l ≡ []) }
    {
        let items = Vec::with_capacity(alloc, MOST_SUBPOOLS).map_err(|_| OutOfMemory)?;
        Ok(OwnedList { items })
    }

    // Removes all items.
    fn clear(&mut self)
        ensures { self.new ≡ [] }
    {
        self.items.clear();
    }

    // Appends a subpool.
    fn push(&mut self, subpool: OwnedSubpool)
        requires { length self.old < 4098 }
        ensures { self.new ≡ self.old ++ subpool ∷ [] }
    {
        self.items.push_reserved(subpool);
    }

    /// Returns the subpools.
    pub fn as_slice(&self) -> &[OwnedSubpool]
        ensures { result.now ≡ self.now }
    {
        self.items.as_slice()
    }

    /// Replaces them by all subpools that tasks own, each with whether a task has it.
    pub fn collect(&mut self, job: &Job, task: &Name)
        ensures { self.new ≡ owned_subpools job.now.state task.now }
    {
        let machine = job.step().machine();
        let had = machine.subpools_of(task);
        self.clear();
        let mut from = 0;
        while let Some(next) = machine.next_owned(from) {
            if let Some(subpool) = machine.owned_among(next, &had) {
                self.push(subpool);
            }
            from = next.get() + 1;
        }
    }

    /// Returns a copy. It fails if memory is exhausted.
    pub fn try_clone(&self) -> Result<OwnedList, OutOfMemory>
        ensures { IfOk result (λ copy. copy ≡ self.now) }
    {
        let mut copy = OwnedList::new(*self.items.allocator())?;
        copy.items
            .extend_from_slice(self.items.as_slice())
            .map_err(|_| OutOfMemory)?;
        Ok(copy)
    }
}
