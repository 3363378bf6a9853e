//! What holds a doubleword, and the first one of a place that is not held as it should be.

ghost use Rattle.std.specs.Prelude.{◌≡◌, ◌≤◌, ◌<◌, ◌+◌, ◌/◌, ◌*◌, ℕ, None, MatchBool, MatchOption};
ghost use Rattle.std.specs.FinMap.{get};
ghost use Rattle.mvs_model.specs.Numbers.{most_pages_above, page_bytes};
ghost use Rattle.mvs_model.specs.Owners.{Owners};
ghost use Rattle.mvs_model.specs.Place.{place_at};
ghost use Rattle.mvs_model.specs.Storage.{InRegion, IsWhole};
ghost use Rattle.mvs_model.specs.Changes.{Granted, HeldPlain};
ghost use Rattle.mvs_model.specs.Reasons.{Holds, IsDeniedIn, IsUnheldIn};
ghost use Rattle.cell_pool.specs.Agree.{Agree};
ghost use Rattle.request_forms.specs.Machine.{machine_state};

use crate::access::may_access;
use crate::machine::Machine;
use crate::release::holds_plain;
use cell_pool::Pools;
use mvs_model::numbers::{ABOVE_BEGINS, BELOW_BEGINS, PAGE_BYTES};
use mvs_model::place::{Addr, Place};
use mvs_model::reason::Holder;
use mvs_model::subpool::SubpoolId;
use subpool_store::Store;

// Returns the address of the first doubleword of a place that the subpool does not hold outside of cell pools, where there is one.
pub(crate) fn first_unheld(
    store: &Store,
    pools: &Pools,
    subpool: SubpoolId,
    place: Place,
) -> Option<Addr>
    requires agree { Agree pools.now store.now.storage }
    requires whole { IsWhole place }
    ensures { (o : Owners) → MatchOption result
        (HeldPlain (machine_state pools.now store.now.storage o) subpool place)
        (λ a. (d : ℕ) × (a ≡ 8 * d)
        × IsUnheldIn (machine_state pools.now store.now.storage o) subpool place d) }
{
    if holds_plain(store, pools, subpool, place) {
        return None;
    }
    let mut held = 0;
    let mut end = place.len() / 8;
    'halves: while end - held > 1 {
        let middle = held + (end - held) / 2;
        if holds_plain(store, pools, subpool, Place::new(place.addr(), 8 * middle)) {
            held = middle;
        } else {
            end = middle;
        }
    }
    Some(Addr::new(place.addr().get() + 8 * held))
}

// Returns the address of the first byte of a place that may not be read and written, where there is one.
pub(crate) fn first_denied(store: &Store, pools: &Pools, place: Place) -> Option<Addr>
    requires { Agree pools.now store.now.storage }
    ensures { (o : Owners) → MatchOption result
        (Granted (machine_state pools.now store.now.storage o) place)
        (IsDeniedIn (machine_state pools.now store.now.storage o) place) }
{
    if may_access(store, pools, place) {
        return None;
    }
    let mut granted = 0;
    let mut end = place.len();
    'halves: while end - granted > 1 {
        let middle = granted + (end - granted) / 2;
        if may_access(store, pools, Place::new(place.addr(), middle)) {
            granted = middle;
        } else {
            end = middle;
        }
    }
    Some(Addr::new(place.addr().get() + granted))
}

// Returns whether an address is in the pages of a region that begins at another one.
fn is_between(addr: Addr, begins: u32, pages: u32) -> bool
    requires { pages ≤ most_pages_above }
    ensures { MatchBool result
        ((begins ≤ addr) × (addr < begins + page_bytes * pages))
        (begins ≤ addr → addr < begins + page_bytes * pages → ⊥) }
{
    begins <= addr.get() && addr.get() - begins < PAGE_BYTES * pages
}

impl Machine {
    // Returns whether the doubleword of an address is in a region.
    fn is_in_region(&self, addr: Addr) -> bool
        ensures { MatchBool result
            (InRegion self.now.state.regions (place_at (8 * (addr / 8)) 8))
            (InRegion self.now.state.regions (place_at (8 * (addr / 8)) 8) → ⊥) }
    {
        is_between(addr, BELOW_BEGINS, self.store.pages_below())
            || is_between(addr, ABOVE_BEGINS, self.store.pages_above())
    }

    // Returns why nothing holds the doubleword of an address: it is free, or in no region.
    fn unheld(&self, addr: Addr) -> Holder
        requires { get self.now.state.held (addr / 8) ≡ None }
        ensures { Holds self.now.state (addr / 8) result }
    {
        if self.is_in_region(addr) {
            Holder::Nobody
        } else {
            Holder::Outside
        }
    }

    /// Returns what holds the doubleword of an address.
    pub fn holder(&self, addr: Addr) -> Holder
        ensures { Holds self.now.state (addr / 8) result }
    {
        let Some(subpool) = self.store.held(addr) else {
            return self.unheld(addr);
        };
        let doubleword = Place::new(Addr::new(addr.get() / 8 * 8), 8);
        if let Some(pool) = self.pools.part_in(&self.store, subpool, doubleword) {
            return Holder::Part(pool);
        }
        match self.tasks.label(subpool) {
            Some((number, owner)) => Holder::Subpool(number, owner),
            None => Holder::Unowned,
        }
    }
}
