//! Why places may not be released.

ghost use Rattle.std.specs.Prelude.{◌≡◌, ◌*◌, ℕ, true, map, MatchOption};
ghost use Rattle.std.specs.List.{AllByRecursion, list_all};
ghost use Rattle.mvs_model.specs.Changes.{Disjoint, HeldPlain, Misses};
ghost use Rattle.mvs_model.specs.Owners.{Owners};
ghost use Rattle.mvs_model.specs.Requests as step;
ghost use Rattle.mvs_model.specs.Reasons.{IsCommon, IsFirstOff, IsOverlap, IsUnheld, Meets};
ghost use Rattle.cell_pool.specs.Agree.{Agree};
ghost use Rattle.request_forms.specs.Machine.{machine_state};

use crate::holder::first_unheld;
use crate::release::{doublewords, is_on_doubleword, whole};
use cell_pool::Pools;
use mvs_model::place::{Addr, Place};
use mvs_model::subpool::SubpoolId;
use subpool_store::Store;

// Returns the address of the first place that does not begin on a doubleword.
pub(crate) fn first_off(places: &[Place]) -> Option<Addr>
    ensures { MatchOption result (list_all step.on_doubleword places.now ≡ true)
        (IsFirstOff places.now) }
{
    let [place, rest @ ..] = places else {
        return None;
    };
    if !is_on_doubleword(*place) {
        return Some(place.addr());
    }
    first_off(rest)
}

// Returns the address of the first doubleword of the places, their lengths rounded up, that the subpool does not hold outside of cell
// pools.
pub(crate) fn unheld_in(
    store: &Store,
    pools: &Pools,
    subpool: SubpoolId,
    places: &[Place],
) -> Option<Addr>
    requires agree { Agree pools.now store.now.storage }
    requires on_doublewords { list_all step.on_doubleword places.now ≡ true }
    ensures { (o : Owners) → MatchOption result
        (AllByRecursion (HeldPlain (machine_state pools.now store.now.storage o) subpool)
        (map step.whole places.now))
        (λ a. (d : ℕ) × (a ≡ 8 * d)
        × IsUnheld (machine_state pools.now store.now.storage o) subpool
        (map step.whole places.now) d) }
{
    let [place, rest @ ..] = places else {
        return None;
    };
    let unheld = first_unheld(store, pools, subpool, whole(*place));
    if unheld.is_some() {
        return unheld;
    }
    unheld_in(store, pools, subpool, rest)
}

// Returns the address of the first doubleword that two places have in common, their lengths rounded up.
fn common(one: Place, other: Place) -> Option<Addr>
    ensures { MatchOption result (Misses (step.whole one) (step.whole other))
        (λ a. (d : ℕ) × (a ≡ 8 * d) × IsCommon (step.whole one) (step.whole other) d) }
{
    let one = doublewords(one);
    let other = doublewords(other);
    let first = one.start.max(other.start);
    if one.end <= first || other.end <= first {
        return None;
    }
    Some(Addr::new(8 * first))
}

// Two places that overlap, by their addresses, and that of the first doubleword that both have.
#[derive(Clone, Copy)]
pub(crate) struct Met {
    pub(crate) one: Addr,
    pub(crate) other: Addr,
    pub(crate) at: Addr,
}

// Returns the first of the other places with which the place has a doubleword in common.
fn meeting(place: Place, others: &[Place]) -> Option<Met>
    ensures { MatchOption result
        (AllByRecursion (Misses (step.whole place)) (map step.whole others.now))
        (λ v. (d : ℕ) × (v.one ≡ place.addr) × (v.at ≡ 8 * d)
        × Meets (step.whole place) (map step.whole others.now) v.other d) }
{
    let [other, rest @ ..] = others else {
        return None;
    };
    if let Some(at) = common(place, *other) {
        return Some(Met {
            one: place.addr(),
            other: other.addr(),
            at,
        });
    }
    meeting(place, rest)
}

// Returns the first place that has a doubleword in common with a later one, and the first such.
pub(crate) fn overlap(places: &[Place]) -> Option<Met>
    ensures { MatchOption result (Disjoint (map step.whole places.now))
        (λ v. (d : ℕ) × (v.at ≡ 8 * d)
        × IsOverlap (map step.whole places.now) v.one v.other d) }
{
    let [place, rest @ ..] = places else {
        return None;
    };
    let met = meeting(*place, rest);
    if met.is_some() {
        return met;
    }
    overlap(rest)
}
