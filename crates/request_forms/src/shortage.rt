//! Why a place is not granted.

ghost use Rattle.std.specs.Prelude.{◌≡◌, MatchOption, true};
ghost use Rattle.mvs_model.specs.Owners.{SubpoolOf, effective_task};
ghost use Rattle.mvs_model.specs.Place.{PlaceValue};
ghost use Rattle.mvs_model.specs.Pools.{part_want};
ghost use Rattle.mvs_model.specs.State as state;
ghost use Rattle.mvs_model.specs.Reasons.{IsLongest, IsRoom};
ghost use Rattle.mvs_model.specs.Storage.{Chosen, NoPlace, holder};
ghost use Rattle.mvs_model.specs.View.{IsBounded};
ghost use Rattle.request_forms.specs.Machine.{IsTask, task_name};
ghost use Rattle.request_forms.specs.Rooms.{LacksPlace};

use crate::machine::Machine;
use cell_pool::part_want;
use mvs_model::bounded::{CellCount, CellSize};
use mvs_model::reason::FreeSpace;
use mvs_model::subpool::{SubNo, SubpoolId};
use mvs_model::want::{Side, Want};
use subpool_store::Store;
use task_owner::TaskId;

// Returns the greatest length that fits, if the least requested length does not.
fn longest(store: &Store, subpool: SubpoolId, want: &Want) -> u32
    requires { NoPlace store.now.storage.regions (holder store.now.storage) subpool want.now }
    ensures { IsLongest store.now.storage.regions (holder store.now.storage) subpool want.now
        result }
{
    match store.find(subpool, &want.from_doubleword()) {
        Some(place) => place.len(),
        None => 0,
    }
}

// Returns the storage that a subpool can obtain, if a request does not fit.
pub(crate) fn room_in(store: &Store, subpool: SubpoolId, want: &Want) -> Option<FreeSpace>
    ensures { MatchOption result
        ((p : PlaceValue)
        × Chosen store.now.storage.regions (holder store.now.storage) subpool want.now p)
        (LacksPlace store.now.storage subpool want.now) }
{
    let runs = store.runs_without_place(subpool, want)?;
    Some(FreeSpace {
        longest: longest(store, subpool, want),
        runs,
        below: store.free_below(),
        above: store.free_above(),
    })
}

impl Machine {
    // Returns the storage that a subpool of the machine can obtain.
    pub(crate) fn room(&self, subpool: SubpoolId, want: &Want) -> Option<FreeSpace>
        ensures room { MatchOption result
            ((p : PlaceValue) × Chosen self.now.state.regions (state.holder self.now.state) subpool want.now p)
            (λ room. NoPlace self.now.state.regions (state.holder self.now.state) subpool want.now
            × IsRoom self.now.state subpool want.now room) }
        ensures bounded { IsBounded self.now.state.regions }
    {
        room_in(&self.store, subpool, want)
    }

    // Returns the storage that a subpool of the machine can obtain for a part of a pool.
    pub(crate) fn part_room(
        &self,
        subpool: SubpoolId,
        size: CellSize,
        cells: CellCount,
        side: Side,
    ) -> Option<FreeSpace>
        ensures { MatchOption result
            ((p : PlaceValue)
            × Chosen self.now.state.regions (state.holder self.now.state) subpool (part_want size cells side) p)
            (λ room. NoPlace self.now.state.regions (state.holder self.now.state) subpool
            (part_want size cells side)
            × IsRoom self.now.state subpool (part_want size cells side) room) }
    {
        self.room(subpool, &part_want(size, cells, side))
    }

    /// Returns the subpool that a task means by a number, or the one that it would get.
    pub(crate) fn subpool_for(&self, t: TaskId, number: SubNo) -> SubpoolId
        requires { IsTask self.now t }
        ensures { SubpoolOf self.now.state.owners (effective_task self.now.state.owners (task_name self.now t) number) number
            result }
    {
        match self.tasks.subpool(t, number) {
            Some(subpool) => subpool,
            None => self.tasks.spare(t, number),
        }
    }
}
