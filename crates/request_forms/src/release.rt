//! Requests that release.

ghost use Rattle.std.specs.Prelude.{◌≡◌, Ok, Err, ◌↔◌, ◌+◌, ◌/◌, ◌≤◌, true, false, IsTrue, MatchBool, map, [], ◌∷◌};
ghost use Rattle.std.specs.List.{AllByRecursion, list_all};
ghost use Rattle.mvs_model.specs.Changes.{Disjoint, HeldPlain, Misses};
ghost use Rattle.mvs_model.specs.declared.request.Reply.TheVariants.{Rc0};
ghost use Rattle.mvs_model.specs.Owners.{Owners};
ghost use Rattle.mvs_model.specs.Place.{round8};
ghost use Rattle.mvs_model.specs.Requests as step;
ghost use Rattle.mvs_model.specs.Steps.{Tries};
ghost use Rattle.mvs_model.specs.declared.code.Form.{Form as TheForm};
ghost use Rattle.mvs_model.specs.declared.request.Request.TheVariants as request;
ghost use Rattle.request_forms.specs.Places.{TriesPlaces};
ghost use Rattle.mvs_model.specs.Storage.{HeldBy, IsStorage, IsWhole, Release};
ghost use Rattle.cell_pool.specs.Agree.{Agree};
ghost use Rattle.cell_pool.specs.Cells.{Touches, TouchesNone};
ghost use Rattle.cell_pool.specs.Roots.{pools_of};
ghost use Rattle.request_forms.specs.Lists.{HoldsApart, ReleasesEach};
ghost use Rattle.request_forms.specs.Machine.{IsTask, machine_state, task_name};

use crate::machine::Machine;
use crate::obtain::subpool_number;
use cell_pool::Pools;
use mvs_model::place::Place;
use mvs_model::refusal::Refusal;
use mvs_model::request::Places;
use mvs_model::subpool::{SubNo, SubpoolId};
use std::ops::Range;
use subpool_store::Store;
use task_owner::TaskId;

// Returns the place with its length rounded up to doublewords.
pub(crate) fn whole(place: Place) -> Place
    ensures { result ≡ step.whole place }
{
    Place::new(place.addr(), place.len().div_ceil(8) * 8)
}

// Returns whether the place begins on a doubleword.
pub(crate) fn is_on_doubleword(place: Place) -> bool
    ensures { result ≡ step.on_doubleword place }
{
    place.addr().get() % 8 == 0
}

// Takes back a place that the subpool holds.
pub(crate) fn take_back(store: &mut Store, subpool: SubpoolId, place: Place)
    requires held { HeldBy store.old.storage subpool place }
    requires whole { IsWhole place }
    ensures released { Release store.old.storage subpool place store.new.storage }
    ensures storage { IsStorage store.new.storage }
{
    let Ok(()) = store.release(subpool, place) else {
        unreachable!();
    };
}

// Returns whether each place begins on a doubleword.
fn are_on_doublewords(places: &[Place]) -> bool
    ensures { result ≡ list_all step.on_doubleword places.now }
{
    places.iter().all(|place| is_on_doubleword(*place))
}

// Returns whether no part of a cell pool in the subpool has a doubleword of the place.
pub(crate) fn is_outside_pools(
    store: &Store,
    pools: &Pools,
    subpool: SubpoolId,
    place: Place,
) -> bool
    requires { Agree pools.now store.now.storage }
    ensures { MatchBool result
        (TouchesNone store.now.storage (pools_of pools.now store.now.storage) subpool place)
        (Touches store.now.storage (pools_of pools.now store.now.storage) subpool place) }
{
    !pools.touches_in(store, subpool, place)
}

// Returns whether the subpool holds a place outside of cell pools.
pub(crate) fn holds_plain(store: &Store, pools: &Pools, subpool: SubpoolId, place: Place) -> bool
    requires agree { Agree pools.now store.now.storage }
    requires whole { IsWhole place }
    ensures { (o : Owners)
        → IsTrue result ↔ HeldPlain (machine_state pools.now store.now.storage o) subpool place }
{
    if !store.holds(subpool, place) {
        return false;
    }
    is_outside_pools(store, pools, subpool, place)
}

// Returns whether the subpool holds each place outside of cell pools, its length rounded up to doublewords.
fn holds_each(store: &Store, pools: &Pools, subpool: SubpoolId, places: &[Place]) -> bool
    requires agree { Agree pools.now store.now.storage }
    requires on_doublewords { list_all step.on_doubleword places.now ≡ true }
    ensures { (o : Owners)
        → IsTrue result
        ↔ AllByRecursion (HeldPlain (machine_state pools.now store.now.storage o) subpool)
        (map step.whole places.now) }
{
    let [place, rest @ ..] = places else {
        return true;
    };
    if !holds_plain(store, pools, subpool, whole(*place)) {
        return false;
    }
    holds_each(store, pools, subpool, rest)
}

// Returns the doublewords that a place has a byte of, its length rounded up.
pub(crate) fn doublewords(place: Place) -> Range<u32>
    ensures first { result.start ≡ place.addr / 8 }
    ensures end { result.end ≡ (place.addr + round8 place.len + 7) / 8 }
    ensures some { 1 ≤ place.len }
{
    let addr = place.addr().get();
    addr / 8..(addr + whole(place).len()).div_ceil(8)
}

// Returns whether two places have no doubleword in common, their lengths rounded up.
fn are_apart(one: Place, other: Place) -> bool
    ensures { IsTrue result ↔ Misses (step.whole one) (step.whole other) }
{
    let one = doublewords(one);
    let other = doublewords(other);
    one.end <= other.start || other.end <= one.start
}

// Returns whether a place has no doubleword in common with any of the others.
fn misses_each(place: Place, others: &[Place]) -> bool
    ensures { IsTrue result
        ↔ AllByRecursion (Misses (step.whole place)) (map step.whole others.now) }
{
    let [other, rest @ ..] = others else {
        return true;
    };
    if !are_apart(place, *other) {
        return false;
    }
    misses_each(place, rest)
}

// Returns whether no two of the places overlap.
fn are_disjoint(places: &[Place]) -> bool
    ensures { IsTrue result ↔ Disjoint (map step.whole places.now) }
{
    let [place, rest @ ..] = places else {
        return true;
    };
    if !misses_each(*place, rest) {
        return false;
    }
    are_disjoint(rest)
}

// Takes back places that the subpool holds and that do not overlap.
fn take_back_each(store: &mut Store, subpool: SubpoolId, places: &[Place])
    requires placed { list_all step.on_doubleword places.now ≡ true }
    requires held { HoldsApart store.old.storage subpool (map step.whole places.now) }
    requires storage { IsStorage store.old.storage }
    ensures released { ReleasesEach store.old.storage subpool (map step.whole places.now)
        store.new.storage }
    ensures storage { IsStorage store.new.storage }
{
    let [place, rest @ ..] = places else {
        return;
    };
    take_back(store, subpool, whole(*place));
    take_back_each(store, subpool, rest);
}

impl Machine {
    // Releases a place of the subpool that a task has under a number, or refuses it.
    fn release_area(&mut self, subpool: Option<SubpoolId>, place: Place) -> Result<(), Refusal>
        requires { IsWhole place }
        ensures { TriesPlaces self.old.state subpool (place ∷ []) result self.new.state }
    {
        let subpool = subpool.ok_or(Refusal::NoSubpool)?;
        if !is_outside_pools(&self.store, &self.pools, subpool, place) {
            return Err(Refusal::NotHeld);
        }
        let Ok(()) = self.store.release(subpool, place) else {
            return Err(Refusal::NotHeld);
        };
        Ok(())
    }

    // Releases places of the subpool that a task has under a number: all of them, or none.
    fn release_areas(&mut self, subpool: Option<SubpoolId>, places: &[Place]) -> Result<(), Refusal>
        requires { list_all step.on_doubleword places.now ≡ true }
        ensures { TriesPlaces self.old.state subpool (map step.whole places.now) result self.new.state }
    {
        let subpool = subpool.ok_or(Refusal::NoSubpool)?;
        if !holds_each(&self.store, &self.pools, subpool, places) {
            return Err(Refusal::NotHeld);
        }
        if !are_disjoint(places) {
            return Err(Refusal::Overlap);
        }
        take_back_each(&mut self.store, subpool, places);
        Ok(())
    }

    /// Executes FREEMAIN for a list of places, all of which are released or none; the length of each is rounded up to doublewords (Assembler
    /// Services Reference, FREEMAIN). All or none, and the order of the refusals, are this project's choice.
    pub fn release_list(&mut self, t: TaskId, number: u8, places: &Places) -> Result<(), Refusal>
        requires { IsTask self.old t }
        ensures { (form : TheForm)
            → Tries (λ _. Rc0) self.old.state (task_name self.old t) (request.ReleaseList form number places.now) result
            self.new.state }
    {
        let number = subpool_number(number)?;
        let places = places.as_slice();
        if !are_on_doublewords(places) {
            return Err(Refusal::OffDoubleword);
        }
        let subpool = self.tasks.subpool(t, number);
        self.release_areas(subpool, places)
    }

    /// Executes FREEMAIN or STORAGE RELEASE of one place, whose length is rounded up to doublewords (Assembler Services
    /// Reference).
    pub fn release(&mut self, t: TaskId, number: u8, place: Place) -> Result<(), Refusal>
        requires { IsTask self.old t }
        ensures { (form : TheForm)
            → Tries (λ _. Rc0) self.old.state (task_name self.old t) (request.Release form number place) result self.new.state }
    {
        let number = subpool_number(number)?;
        if !is_on_doubleword(place) {
            return Err(Refusal::OffDoubleword);
        }
        let subpool = self.tasks.subpool(t, number);
        self.release_area(subpool, whole(place))
    }

    /// Executes FREEMAIN or STORAGE RELEASE of all that a subpool holds, its cell pools included (Assembler Services Reference,
    /// subpool release). A number that the task does not have releases nothing; subpool 0 is not released as a whole (both
    /// are this project's choice).
    pub fn release_whole(&mut self, t: TaskId, number: u8) -> Result<(), Refusal>
        requires { IsTask self.old t }
        ensures { (form : TheForm)
            → Tries (λ _. Rc0) self.old.state (task_name self.old t) (request.ReleaseWhole form number) result self.new.state }
    {
        let number = subpool_number(number)?;
        if number.get() == 0 {
            return Err(Refusal::WholeOfZero);
        }
        if let Some(subpool) = self.tasks.subpool(t, number) {
            self.pools.drop_subpool(subpool);
            self.store.release_all(subpool);
        }
        Ok(())
    }
}
