//! Properties of a step that are reported after a granted request: the free pages, and the subpools of tasks.

ghost use Rattle.std.specs.Prelude.{◌≡◌, None, Some, MatchOption};
ghost use Rattle.std.specs.FinMap.{get};
ghost use Rattle.mvs_model.specs.LastPart.{IsNewest};
ghost use Rattle.mvs_model.specs.Pools.{Pool};
ghost use Rattle.request_forms.specs.SubpoolLabels.{free_above, free_below, entry_owner, resolved_owner};

use crate::machine::Machine;
use mvs_model::name::Name;
use mvs_model::report::LastPart;
use mvs_model::subpool::SubNo;

/// How many pages of each region hold nothing.
#[derive(Clone, Copy, Debug, PartialEq, Eq)]
pub struct FreePages {
    pub below: u16,
    pub above: u16,
}

impl Machine {
    /// Returns how many pages of each region hold nothing.
    pub fn free_pages(&self) -> FreePages
        ensures below { result.below ≡ free_below self.now.state }
        ensures above { result.above ≡ free_above self.now.state }
    {
        FreePages {
            below: self.store.free_below() as u16,
            above: self.store.free_above() as u16,
        }
    }

    /// Returns the subpool that an active task means by a number that a program may name: the number under which its owner has it, and
    /// the owner.
    pub fn resolved_owner(&self, name: &Name, number: u8) -> Option<(SubNo, Name)>
        ensures { result ≡ resolved_owner self.now.state.owners name.now number }
    {
        let number = SubNo::new(number)?;
        let t = self.tasks.find(name)?;
        let subpool = self.tasks.subpool(t, number)?;
        self.tasks.label(subpool)
    }

    /// Returns how many parts the pool of this name has, and which was put to it last. Returns None if no pool has the name.
    pub fn newest(&self, pool: &Name) -> Option<LastPart>
        ensures { MatchOption result (get self.now.state.pools pool.now ≡ None)
            (λ newest. (kept : Pool) × (get self.now.state.pools pool.now ≡ Some kept)
            × IsNewest kept newest) }
    {
        self.pools.newest(&self.store, pool)
    }

    /// Returns the subpool that an active task has for a number: its owner's number for it, and the owner.
    pub fn entry_owner(&self, name: &Name, number: SubNo) -> Option<(SubNo, Name)>
        ensures { result ≡ entry_owner self.now.state.owners name.now number }
    {
        let t = self.tasks.find(name)?;
        let subpool = self.tasks.entry(t, number)?;
        self.tasks.label(subpool)
    }
}
