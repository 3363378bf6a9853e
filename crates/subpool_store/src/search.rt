//! The search for a place in one region.

ghost use Rattle.std.specs.Prelude.{◌≡◌, ◌<◌, ◌≤◌, ◌+◌, ◌-◌, ◌*◌, ◌^◌, ◌⊎◌, ◌↔◌, ℕ, IfSome, IsTrue, false, length};
ghost use Rattle.mvs_model.specs.Numbers.{first_doubleword_above};
ghost use Rattle.mvs_model.specs.Place.{PlaceValue};
ghost use Rattle.mvs_model.specs.Storage.{IsLength, IsRun};
ghost use Rattle.mvs_model.specs.Want.{IsWant};
ghost use Rattle.subpool_store.specs.Region.{IsOpened};
ghost use Rattle.subpool_store.specs.Search.{
  may_take,
  Beats,
  IsCandidate,
  IsCounted,
  IsExact,
  IsOnlyLength,
  IsShorter,
  LongestIn,
};
ghost use Rattle.subpool_store.specs.PageWalk.{looked_at};

use crate::memory::Memory;
use crate::run::Run;
use crate::walk::PageWalk;
use boundary_loc::{first_in, last_in, longest_in};
use mvs_model::place::{Addr, Place};
use mvs_model::subpool::SubpoolId;
use mvs_model::want::{Placement, Want};
use page_map::PageMap;

/// What a search found, and how many page entries and free runs it looked at.
#[derive(Clone, Copy)]
pub struct SearchResult {
    pub place: Option<Place>,
    pub steps: u32,
}

impl SearchResult {
    /// Makes the result of a search.
    pub fn new(place: Option<Place>, steps: u32) -> SearchResult
        ensures place { result.place ≡ place }
        ensures steps { result.steps ≡ steps }
    {
        SearchResult { place, steps }
    }
}

// Returns the bytes of a run.
fn run_place(first: u32, run: Run) -> Place
    requires end { 8 * (first + run.end) ≤ 2 ^ 31 }
    requires some { run.start < run.end }
    ensures addr { result.addr ≡ 8 * (first + run.start) }
    ensures len { result.len ≡ 8 * (run.end - run.start) }
{
    Place::new(
        Addr::new(8 * (first + run.start as u32)),
        8 * (run.end - run.start) as u32,
    )
}

// Returns the requested length, if there is only one.
fn only_length(want: &Want) -> Option<u32>
    ensures only { IfSome result (IsOnlyLength want.now) }
    ensures wanted { IsWant want.now }
{
    if want.least() == want.most() {
        Some(want.least())
    } else {
        None
    }
}

// Returns the number of doublewords of the least requested length.
fn least_doublewords(want: &Want) -> usize
    ensures least { 8 * result ≡ want.now.least }
    ensures some { 1 ≤ result }
{
    (want.least() / 8) as usize
}

// Returns a longest place of a run: the lowest one, if only one length is requested.
fn lowest_in(run: Place, want: &Want, only: Option<u32>) -> Option<Place>
    requires run { IsRun run }
    requires wanted { IsWant want.now }
    requires only { IfSome only (IsOnlyLength want.now) }
    ensures { LongestIn run want.now result }
{
    match only {
        Some(len) => first_in(run, want, len),
        None => longest_in(run, want),
    }
}

// Returns the highest of the longest places of a run.
fn highest_in(run: Place, want: &Want, only: Option<u32>) -> Option<Place>
    requires run { IsRun run }
    requires wanted { IsWant want.now }
    requires only { IfSome only (IsOnlyLength want.now) }
    ensures { LongestIn run want.now result }
{
    match only {
        Some(len) => last_in(run, want, len),
        None => last_in(run, want, longest_in(run, want)?.len()),
    }
}

// Returns a longest place of a run, the one that the placement takes.
fn best_in(placement: Placement, run: Place, want: &Want, only: Option<u32>) -> Option<Place>
    requires run { IsRun run }
    requires wanted { IsWant want.now }
    requires only { IfSome only (IsOnlyLength want.now) }
    ensures { LongestIn run want.now result }
{
    match placement {
        Placement::Low => lowest_in(run, want, only),
        Placement::High => highest_in(run, want, only),
    }
}

// Returns the longer of two places, the first one if they are of one length.
pub fn longer(one: Option<Place>, other: Option<Place>) -> Option<Place>
    ensures either { (result ≡ one) ⊎ ((result ≡ other) × IsShorter one other) }
    ensures one { (n : ℕ) → Beats one n → Beats result n }
    ensures other { (n : ℕ) → Beats other n → Beats result n }
{
    match (one, other) {
        (Some(a), Some(b)) => { if a.len() < b.len() { Some(b) } else { Some(a) } }
        (Some(a), None) => Some(a),
        (None, b) => b,
    }
}

// Returns whether no requested length is greater than that of the place.
pub fn is_longest(place: &Option<Place>, want: &Want) -> bool
    ensures longest { IsTrue result → (n : ℕ) → IsLength want.now n → Beats place.now n }
    ensures wanted { IsWant want.now }
{
    let most = want.most();
    match place {
        Some(place) => most <= place.len(),
        None => false,
    }
}

// Returns the longer one of two places, or if they are equally long, the one that the placement selects.
fn preferred(placement: Placement, one: Option<Place>, other: Option<Place>) -> Option<Place>
    ensures either { (result ≡ one) ⊎ (result ≡ other) }
    ensures one { (n : ℕ) → Beats one n → Beats result n }
    ensures other { (n : ℕ) → Beats other n → Beats result n }
{
    match placement {
        Placement::Low => longer(one, other),
        Placement::High => longer(other, one),
    }
}

// Returns whether no later place can replace the best one.
fn is_final(placement: Placement, best: &Option<Place>, want: &Want) -> bool
    ensures longest { IsTrue result → (n : ℕ) → IsLength want.now n → Beats best.now n }
    ensures wanted { IsWant want.now }
{
    let is_longest = is_longest(best, want);
    match placement {
        Placement::Low => is_longest,
        Placement::High => false,
    }
}

// Returns a longest place that meets the request and whose doublewords the subpool may take. Of several equally long ones it is the
// lowest or the highest, by the placement.
pub fn find(
    placement: Placement,
    first: u32,
    memory: &Memory,
    pages: &PageMap,
    subpool: SubpoolId,
    want: &Want,
) -> SearchResult
    requires exact { IsExact memory.now.held pages.now }
    requires opened { IsOpened pages.now memory.now.bytes }
    requires end { 8 * (first + length memory.now.held) ≤ 2 ^ 31 }
    requires one_side { first < first_doubleword_above
        → first + length memory.now.held ≤ first_doubleword_above }
    ensures found { IfSome result.place
        (IsCandidate (may_take memory.now.held pages.now subpool) first want.now) }
    ensures longest { (q : PlaceValue)
        → IsCandidate (may_take memory.now.held pages.now subpool) first want.now q
        → Beats result.place q.len }
    ensures counted { IsCounted (looked_at memory.now pages.now subpool (length memory.now.held))
        result.place result.steps }
    ensures wanted { IsWant want.now }
{
    let only = only_length(want);
    let least = least_doublewords(want);
    let mut walk = PageWalk::new(memory, pages, subpool);
    let mut best = None;
    'runs: while let Some(run) = walk.next_run(memory, pages, subpool, least) {
        best = preferred(
            placement,
            best,
            best_in(placement, run_place(first, run), want, only),
        );
        if is_final(placement, &best, want) {
            return SearchResult::new(best, walk.counted.steps);
        }
    }
    SearchResult::new(best, walk.counted.steps)
}
