//! Storage of both regions.

ghost use Rattle.std.specs.Prelude.{◌≡◌, ◌<◌, ◌≤◌, ◌+◌, ◌*◌, ◌/◌, ◌%◌, ◌^◌, ◌↔◌, ◌⊎◌, Some, None, MatchBool, MatchOption, MatchResult, IfOk, IsTrue, List, ℕ, length, slice_get};
ghost use Rattle.std.specs.Borrow.{sem};
ghost use Rattle.std.specs.FinMap.{get, empty};
ghost use Rattle.mvs_model.specs.FreeRuns.{free_runs};
ghost use Rattle.mvs_model.specs.Numbers.{above_begins, first_page_above, first_page_below, most_pages_above, most_pages_below};
ghost use Rattle.mvs_model.specs.Storage.{
  AllHeld,
  Chosen,
  Covers,
  Grant,
  HeldBy,
  IsPageOwner,
  IsStorage,
  IsWhole,
  NoPlace,
  Open,
  Places,
  Places,
  Release,
  ReleaseAll,
  ReleaseEach,
  held_bytes,
  holder,
};
ghost use Rattle.mvs_model.specs.Place.{PlaceValue};
ghost use Rattle.mvs_model.specs.Want.{IsWant};
ghost use Rattle.subpool_store.specs.Bound.{IsBound, page_entries};
ghost use Rattle.subpool_store.specs.FreePages.{free_pages};
ghost use Rattle.subpool_store.specs.Joined.{
  BestAbove,
  CountedAbove,
  IsStore,
  Taken,
  regions_of,
  store_of,
};
ghost use Rattle.subpool_store.specs.SubpoolCounts.{assigned_pages};
ghost use Rattle.subpool_store.specs.BorrowsBytes.{BorrowsBytes};
ghost use Rattle.subpool_store.specs.WrittenBytes.{Puts, written};

use crate::region_store::RegionStore;
use crate::search::{SearchResult, is_longest, longer};
use crate::subpool_counts::{SubpoolCount, SubpoolCounts};
use boundary_loc::at_in;
use mvs_model::error::OutOfMemory;
use mvs_model::numbers::{
    ABOVE_BEGINS, FIRST_DOUBLEWORD_ABOVE, FIRST_DOUBLEWORD_BELOW, LAST_ADDRESS,
};
use mvs_model::place::{Addr, Place};
use mvs_model::subpool::SubpoolId;
use mvs_model::subpool_set::SubpoolSet;
use mvs_model::want::{Placement, Side, Want};
use std::alloc::Global;
use std::marker::Model;
use thiserror::Error;

/// The subpool does not hold each doubleword of the place.
#[derive(Clone, Copy, Debug, PartialEq, Eq, Error)]
#[error("storage is not held by the subpool")]
pub struct NotHeld;

/// The storage of a step: the subpool that holds each doubleword, and the byte at each address, in the region below 16 megabytes
/// and in the region above.
#[derive(Drop)]
pub struct Store {
    below: RegionStore,
    above: RegionStore,
    counts: SubpoolCounts,
    fill: u8,
    placement: Placement,
    steps: u32,
}

impl Model for Store {
    ghost use Rattle.std.specs.FinMap.{get};
    ghost use Rattle.subpool_store.specs.Joined.{IsStore, all_held, regions_of};
    ghost use Rattle.subpool_store.specs.SubpoolCounts.{AreCounts};
    ghost use Rattle.subpool_store.specs.Value.{StoreValue, store_code, value_of};

    ghost Value = { StoreValue };

    ghost coded = { store_code };

    ghost view = { λ s. value_of s.below s.above s.fill s.steps };

    ghost invariant = { λ s. IsStore s.below s.above × AreCounts (regions_of s.below s.above s.fill) (get (all_held s.below s.above)) s.counts };
}

// Returns whether the place is below 16 megabytes.
fn is_below(place: Place) -> bool
    ensures below { MatchBool result (place.addr + place.len ≤ above_begins)
        (above_begins < place.addr + place.len) }
    ensures some { 1 ≤ place.len }
{
    u64::from(place.addr().get()) + u64::from(place.len()) <= u64::from(ABOVE_BEGINS)
}

// Returns whether the place ends at the last address or before.
fn has_addresses(place: Place) -> bool
    ensures within { MatchBool result (place.addr + place.len ≤ 2 ^ 31)
        (2 ^ 31 < place.addr + place.len) }
    ensures some { 1 ≤ place.len }
{
    place.addr().get() + place.len() <= LAST_ADDRESS + 1
}

// Returns the doublewords that have a byte of the place, as a place.
fn whole_doublewords(place: Place) -> Place
    requires { place.addr + place.len ≤ 2 ^ 31 }
    ensures whole { IsWhole result }
    ensures same { (d : ℕ) → Covers result d ↔ Covers place d }
{
    let first = place.addr().get() / 8 * 8;
    let end = place.addr().get() + place.len();
    let len = (end - first).div_ceil(8) * 8;
    Place::new(Addr::new(first), len)
}

// Returns the best place in the region above, if a place may be there.
fn find_above(
    placement: Placement,
    above: &RegionStore,
    subpool: SubpoolId,
    want: &Want,
) -> SearchResult
    ensures best { BestAbove above.now subpool want.now result.place }
    ensures counted { CountedAbove above.now subpool want.now result.place result.steps }
{
    match want.side() {
        Side::Either => above.find(placement, subpool, want),
        Side::Below => SearchResult::new(None, 0),
    }
}

// Returns how many pages of both regions hold nothing.
fn free_pages(below: &RegionStore, above: &RegionStore) -> u32
    ensures free { (fill : ℕ) → IsStore below.now above.now
        → result
        ≡ free_pages (store_of below.now above.now fill) first_page_below below.now.pages
        + free_pages (store_of below.now above.now fill) first_page_above above.now.pages }
    ensures most { result ≤ 2 * most_pages_above }
{
    below.free_pages() + above.free_pages()
}

// Gives an open place in one of the regions to the subpool and fills it.
fn take_in(
    below: &mut RegionStore,
    above: &mut RegionStore,
    subpool: SubpoolId,
    place: Place,
    fill: u8,
)
    requires both { IsStore below.old above.old }
    requires open { Open (regions_of below.old above.old fill)
        (holder (store_of below.old above.old fill)) subpool place }
    requires whole { IsWhole place }
    requires some { 8 ≤ place.len }
    ensures both { IsStore below.new above.new }
    ensures taken { Taken (store_of below.old above.old fill) place (Some subpool) (Some fill)
        (store_of below.new above.new fill) }
{
    if is_below(place) {
        below.take(subpool, place, fill);
    } else {
        above.take(subpool, place, fill);
    }
}

// Takes back a place in one of the regions that the subpool holds.
fn give_in(below: &mut RegionStore, above: &mut RegionStore, subpool: SubpoolId, place: Place)
    requires both { IsStore below.old above.old }
    requires held { (fill : ℕ) → HeldBy (store_of below.old above.old fill) subpool place }
    requires whole { IsWhole place }
    ensures both { IsStore below.new above.new }
    ensures given { (fill : ℕ)
        → Taken (store_of below.old above.old fill) place None None
        (store_of below.new above.new fill) }
    ensures some { 1 ≤ place.len }
{
    if is_below(place) {
        below.give(subpool, place);
    } else {
        above.give(subpool, place);
    }
}

impl Store {
    /// Makes storage with a number of pages below and above, with nothing held. `fill` is the byte with which grants fill areas.
    pub fn new(
        alloc: Global,
        below: u32,
        above: u32,
        fill: u8,
        placement: Placement,
    ) -> Result<Store, OutOfMemory>
        requires some { 1 ≤ below }
        requires below { below ≤ most_pages_below }
        requires above { above ≤ most_pages_above }
        ensures empty { IfOk result
            (λ s. s ≡ record {
              storage = record {
                regions = record { below = below; above = above; fill = fill };
                held = empty;
                bytes = empty;
              };
              steps = 0;
            }) }
        ensures storage { IfOk result (λ s. IsStorage s.storage) }
    {
        Ok(Store {
            below: RegionStore::new(alloc, FIRST_DOUBLEWORD_BELOW, below as usize)?,
            above: RegionStore::new(alloc, FIRST_DOUBLEWORD_ABOVE, above as usize)?,
            counts: SubpoolCounts::new(alloc)?,
            fill,
            placement,
            steps: 0,
        })
    }

    // Returns the place to take for a request: the longest one, above if one of that length is above.
    fn search(&self, subpool: SubpoolId, want: &Want) -> SearchResult
        ensures chosen { MatchOption result.place
            (NoPlace self.now.storage.regions (holder self.now.storage) subpool want.now)
            (Chosen self.now.storage.regions (holder self.now.storage) subpool want.now) }
        ensures bound { IsBound self.now.storage subpool want.now.side result.place result.steps }
        ensures storage { IsStorage self.now.storage }
    {
        let above = find_above(self.placement, &self.above, subpool, want);
        if is_longest(&above.place, want) {
            return above;
        }
        let below = self.below.find(self.placement, subpool, want);
        SearchResult::new(longer(above.place, below.place), above.steps + below.steps)
    }

    /// Returns the place that an `obtain` takes, which is not made.
    pub fn find(&self, subpool: SubpoolId, want: &Want) -> Option<Place>
        ensures { MatchOption result
            (NoPlace self.now.storage.regions (holder self.now.storage) subpool want.now)
            (Chosen self.now.storage.regions (holder self.now.storage) subpool want.now) }
    {
        self.search(subpool, want).place
    }

    // Returns how many pages the regions have that a side allows.
    fn page_entries(&self, side: Side) -> u32
        ensures { result ≡ page_entries self.now.storage.regions side }
    {
        let below = self.below.page_count();
        match side {
            Side::Below => below,
            Side::Either => below + self.above.page_count(),
        }
    }

    /// Returns the number of free runs in the pages of the subpool, on the requested side, if the request does not fit; None if it
    /// does.
    pub fn runs_without_place(&self, subpool: SubpoolId, want: &Want) -> Option<u32>
        ensures { MatchOption result
            ((p : PlaceValue)
            × Chosen self.now.storage.regions (holder self.now.storage) subpool want.now p)
            (λ n. NoPlace self.now.storage.regions (holder self.now.storage) subpool want.now
            × (n ≡ free_runs self.now.storage.regions (holder self.now.storage) subpool want.now.side)) }
    {
        let found = self.search(subpool, want);
        match found.place {
            Some(_) => None,
            None => Some(found.steps - self.page_entries(want.side())),
        }
    }

    // Returns whether the place is open to the subpool.
    fn is_open(&self, subpool: SubpoolId, place: Place) -> bool
        requires whole { IsWhole place }
        requires some { 8 ≤ place.len }
        ensures { IsTrue result
            ↔ Open self.now.storage.regions (holder self.now.storage) subpool place }
    {
        if is_below(place) {
            self.below.is_open(subpool, place)
        } else {
            self.above.is_open(subpool, place)
        }
    }

    // Returns whether the subpool may take the place for the request, except for its lengths.
    fn serves(&self, subpool: SubpoolId, want: &Want, place: Place) -> bool
        requires whole { place.len % 8 ≡ 0 }
        requires some { 8 ≤ place.len }
        ensures { IsTrue result
            ↔ Places self.now.storage.regions (holder self.now.storage) subpool want.now place.len
            place.addr }
    {
        let _ = &self.fill;
        if place.addr().get() % 8 != 0 || !self.is_open(subpool, place) {
            return false;
        }
        at_in(place, want, place.len(), place.addr()).is_some()
    }

    // Returns the place at a hinted address if it is as good as the one that was found, which it then replaces.
    fn at_hint(&self, subpool: SubpoolId, want: &Want, found: Place, hint: Addr) -> Place
        requires { Chosen self.now.storage.regions (holder self.now.storage) subpool want.now found }
        ensures chosen { Chosen self.now.storage.regions (holder self.now.storage) subpool want.now
            result }
        ensures hint { (q : PlaceValue) → q.addr ≡ hint
            → Chosen self.now.storage.regions (holder self.now.storage) subpool want.now q
            → result ≡ q }
        ensures wanted { IsWant want.now }
    {
        let _ = want.least();
        let place = Place::new(hint, found.len());
        if ABOVE_BEGINS <= found.addr().get() && hint.get() < ABOVE_BEGINS {
            return found;
        }
        if self.serves(subpool, want, place) {
            place
        } else {
            found
        }
    }

    // Returns the place at the hinted address, if there is a hint.
    fn hint(&self, subpool: SubpoolId, want: &Want, found: Place, hint: Option<Addr>) -> Place
        requires { Chosen self.now.storage.regions (holder self.now.storage) subpool want.now found }
        ensures chosen { Chosen self.now.storage.regions (holder self.now.storage) subpool want.now
            result }
        ensures hint { (q : PlaceValue) → hint ≡ Some q.addr
            → Chosen self.now.storage.regions (holder self.now.storage) subpool want.now q
            → result ≡ q }
        ensures wanted { IsWant want.now }
    {
        let _ = want.least();
        match hint {
            None => found,
            Some(hint) => self.at_hint(subpool, want, found, hint),
        }
    }

    // Gives an open place to the subpool and fills it.
    fn take(&mut self, subpool: SubpoolId, place: Place)
        requires open { Open self.old.storage.regions (holder self.old.storage) subpool place }
        requires whole { IsWhole place }
        requires some { 8 ≤ place.len }
        ensures taken { Taken self.old.storage place (Some subpool)
            (Some self.old.storage.regions.fill) self.new.storage }
        ensures storage { IsStorage self.new.storage }
        ensures steps { self.new.steps ≡ self.old.steps }
    {
        let free = free_pages(&self.below, &self.above);
        take_in(&mut self.below, &mut self.above, subpool, place, self.fill);
        let count = self.counts.get(subpool);
        let pages = count.pages + free - free_pages(&self.below, &self.above);
        let held = count.held + place.len() / 8;
        self.counts.set(subpool, SubpoolCount { pages, held });
    }

    /// Obtains an area: the greatest requested length that fits, above 16 megabytes if that length fits above, else below. Of such
    /// places it is the one at the hinted address, and without a hint, or if there is none at it, the lowest or the highest, by the
    /// placement. Returns None if it fits nowhere, and then the storage does not change (Assembler Services Reference, GETMAIN; the
    /// choice of the place is this project's).
    pub fn obtain(&mut self, subpool: SubpoolId, want: &Want, hint: Option<Addr>) -> Option<Place>
        ensures grant { MatchOption result
            (NoPlace self.old.storage.regions (holder self.old.storage) subpool want.now
            × (self.new.storage ≡ self.old.storage))
            (λ p. Grant self.old.storage subpool want.now p self.new.storage) }
        ensures hint { (q : PlaceValue) → hint ≡ Some q.addr
            → Chosen self.old.storage.regions (holder self.old.storage) subpool want.now q
            → result ≡ Some q }
        ensures bound { IsBound self.old.storage subpool want.now.side result self.new.steps }
        ensures storage { IsStorage self.new.storage }
    {
        let _ = want.least();
        let found = self.search(subpool, want);
        self.steps = found.steps;
        let place = found.place?;
        let taken = self.hint(subpool, want, place, hint);
        self.take(subpool, taken);
        Some(taken)
    }

    /// Returns how many page entries and free runs the latest `obtain` counted; 0 before one.
    pub fn steps(&self) -> u32
        ensures { result ≡ self.now.steps }
    {
        self.steps
    }

    // Takes back a place that the subpool holds.
    fn give(&mut self, subpool: SubpoolId, place: Place)
        requires held { HeldBy self.old.storage subpool place }
        requires whole { IsWhole place }
        ensures given { Taken self.old.storage place None None self.new.storage }
        ensures storage { IsStorage self.new.storage }
        ensures steps { self.new.steps ≡ self.old.steps }
    {
        let free = free_pages(&self.below, &self.above);
        give_in(&mut self.below, &mut self.above, subpool, place);
        let count = self.counts.get(subpool);
        let pages = count.pages + free - free_pages(&self.below, &self.above);
        let held = count.held - place.len() / 8;
        self.counts.set(subpool, SubpoolCount { pages, held });
    }

    /// Releases a place of whole doublewords. It is refused where the subpool does not hold all of it, and then
    /// nothing changes (Assembler Services Reference, FREEMAIN).
    pub fn release(&mut self, subpool: SubpoolId, place: Place) -> Result<(), NotHeld>
        requires { IsWhole place }
        ensures released { MatchResult result
            (λ _. Release self.old.storage subpool place self.new.storage)
            (λ _. (HeldBy self.old.storage subpool place → ⊥)
            × (self.new.storage ≡ self.old.storage)) }
        ensures storage { IsStorage self.new.storage }
        ensures steps { self.new.steps ≡ self.old.steps }
    {
        if !self.holds_whole(subpool, place) {
            return Err(NotHeld);
        }
        self.give(subpool, place);
        Ok(())
    }

    /// Takes back all that the subpool holds (Assembler Services Reference, FREEMAIN, subpool release).
    pub fn release_all(&mut self, subpool: SubpoolId)
        ensures released { ReleaseAll self.old.storage subpool self.new.storage }
        ensures storage { IsStorage self.new.storage }
        ensures steps { self.new.steps ≡ self.old.steps }
    {
        let mut subpools = SubpoolSet::empty();
        subpools.insert(subpool);
        self.release_each(&subpools);
    }

    /// Takes back all that the subpools of a set hold, in one pass.
    pub fn release_each(&mut self, subpools: &SubpoolSet)
        ensures released { ReleaseEach self.old.storage subpools.now self.new.storage }
        ensures storage { IsStorage self.new.storage }
        ensures steps { self.new.steps ≡ self.old.steps }
    {
        self.below.release_each(subpools);
        self.above.release_each(subpools);
        self.counts.clear_each(subpools);
    }

    /// Returns whether the subpool holds each doubleword that has a byte of the place.
    pub fn holds(&self, subpool: SubpoolId, place: Place) -> bool
        ensures holds { IsTrue result ↔ HeldBy self.now.storage subpool place }
        ensures storage { IsStorage self.now.storage }
    {
        let _ = &self.fill;
        if !has_addresses(place) {
            return false;
        }
        self.holds_whole(subpool, whole_doublewords(place))
    }

    // Returns whether the subpool holds a place of whole doublewords.
    fn holds_whole(&self, subpool: SubpoolId, place: Place) -> bool
        requires { IsWhole place }
        ensures holds { IsTrue result ↔ HeldBy self.now.storage subpool place }
        ensures storage { IsStorage self.now.storage }
    {
        if is_below(place) {
            self.below.holds(subpool, place)
        } else {
            self.above.holds(subpool, place)
        }
    }

    /// Returns the subpool that holds the doubleword of an address.
    pub fn held(&self, addr: Addr) -> Option<SubpoolId>
        ensures held { result ≡ holder self.now.storage (addr / 8) }
        ensures storage { IsStorage self.now.storage }
    {
        if addr.get() < ABOVE_BEGINS {
            self.below.holder(addr)
        } else {
            self.above.holder(addr)
        }
    }

    /// Returns how many pages the region below has.
    pub fn pages_below(&self) -> u32
        ensures { result ≡ self.now.storage.regions.below }
    {
        self.below.page_count()
    }

    /// Returns how many pages the region above has.
    pub fn pages_above(&self) -> u32
        ensures { result ≡ self.now.storage.regions.above }
    {
        self.above.page_count()
    }

    /// Returns how many pages of the region below hold nothing.
    pub fn free_below(&self) -> u32
        ensures free { result
            ≡ free_pages self.now.storage first_page_below self.now.storage.regions.below }
        ensures most { result ≤ most_pages_above }
    {
        self.below.free_pages()
    }

    /// Returns how many pages of the region above hold nothing.
    pub fn free_above(&self) -> u32
        ensures free { result
            ≡ free_pages self.now.storage first_page_above self.now.storage.regions.above }
        ensures most { result ≤ most_pages_above }
    {
        self.above.free_pages()
    }

    /// Returns how many bytes the subpool holds.
    pub fn held_bytes(&self, subpool: SubpoolId) -> u32
        ensures { result ≡ held_bytes self.now.storage subpool }
    {
        8 * self.counts.get(subpool).held
    }

    /// Returns how many pages are assigned to the subpool.
    pub fn assigned_pages(&self, subpool: SubpoolId) -> u32
        ensures { result
            ≡ assigned_pages self.now.storage.regions (holder self.now.storage) subpool }
    {
        self.counts.get(subpool).pages
    }

    /// Returns the subpool that the page of an address is assigned to: the one that holds a doubleword of the page.
    pub fn page_owner(&self, addr: Addr) -> Option<SubpoolId>
        ensures { IsPageOwner self.now.storage addr result }
    {
        if addr.get() < ABOVE_BEGINS {
            self.below.page_owner(addr)
        } else {
            self.above.page_owner(addr)
        }
    }

    /// Returns the bytes of a place that is held.
    pub fn bytes(&self, place: Place) -> &[u8]
        requires { AllHeld self.now.storage place }
        ensures len { length result.now ≡ place.len }
        ensures bytes { (k : ℕ) → k < place.len
            → slice_get result.now k ≡ get self.now.storage.bytes (place.addr + k) }
    {
        if is_below(place) {
            self.below.part(place)
        } else {
            self.above.part(place)
        }
    }

    /// Borrows the bytes of a held place. What is written to them is stored, and nothing else changes.
    pub fn bytes_mut(&mut self, place: Place) -> &mut [u8]
        requires { AllHeld self.old.storage place }
        ensures* writes_back { sem 𝓛 (BorrowsBytes self.entry place result) }

        // The storage after the loan is over, if `w` was written to the result.
        ensures written { (w : List ℕ) → length w ≡ place.len
            → Puts self.old.storage place w (written self.old.storage place w) }
        ensures len { length result.now ≡ place.len }
        ensures bytes { (k : ℕ) → k < place.len
            → slice_get result.now k ≡ get self.old.storage.bytes (place.addr + k) }
    {
        if is_below(place) {
            self.below.part_mut(place)
        } else {
            self.above.part_mut(place)
        }
    }

    // Borrows the bytes of two places below.
    fn two_below(&mut self, from: Place, to: Place) -> (&[u8], &mut [u8])
        requires source { AllHeld self.old.storage from }
        requires target { AllHeld self.old.storage to }
        requires len { from.len ≡ to.len }
        requires from_below { from.addr < above_begins }
        requires to_below { to.addr < above_begins }
        requires apart { (from.addr + from.len ≤ to.addr) ⊎ (to.addr + to.len ≤ from.addr) }
        ensures* writes_back { sem 𝓛 (BorrowsBytes self.entry to result.1) }
        ensures written { (w : List ℕ) → length w ≡ to.len
            → Puts self.old.storage to w (written self.old.storage to w) }
        ensures len { (length result.0.now ≡ from.len) × (length result.1.now ≡ to.len) }
        ensures source_bytes { (k : ℕ) → k < from.len
            → slice_get result.0.now k ≡ get self.old.storage.bytes (from.addr + k) }
        ensures target_bytes { (k : ℕ) → k < to.len
            → slice_get result.1.now k ≡ get self.old.storage.bytes (to.addr + k) }
    {
        self.below.two(from, to)
    }

    // Borrows the bytes of two places above.
    fn two_above(&mut self, from: Place, to: Place) -> (&[u8], &mut [u8])
        requires source { AllHeld self.old.storage from }
        requires target { AllHeld self.old.storage to }
        requires len { from.len ≡ to.len }
        requires from_above { above_begins ≤ from.addr }
        requires to_above { above_begins ≤ to.addr }
        requires apart { (from.addr + from.len ≤ to.addr) ⊎ (to.addr + to.len ≤ from.addr) }
        ensures* writes_back { sem 𝓛 (BorrowsBytes self.entry to result.1) }
        ensures written { (w : List ℕ) → length w ≡ to.len
            → Puts self.old.storage to w (written self.old.storage to w) }
        ensures len { (length result.0.now ≡ from.len) × (length result.1.now ≡ to.len) }
        ensures source_bytes { (k : ℕ) → k < from.len
            → slice_get result.0.now k ≡ get self.old.storage.bytes (from.addr + k) }
        ensures target_bytes { (k : ℕ) → k < to.len
            → slice_get result.1.now k ≡ get self.old.storage.bytes (to.addr + k) }
    {
        self.above.two(from, to)
    }

    // Borrows bytes below for reading, and bytes above for writing.
    fn two_up(&mut self, from: Place, to: Place) -> (&[u8], &mut [u8])
        requires source { AllHeld self.old.storage from }
        requires target { AllHeld self.old.storage to }
        requires len { from.len ≡ to.len }
        requires from_below { from.addr < above_begins }
        requires to_above { above_begins ≤ to.addr }
        ensures* writes_back { sem 𝓛 (BorrowsBytes self.entry to result.1) }
        ensures written { (w : List ℕ) → length w ≡ to.len
            → Puts self.old.storage to w (written self.old.storage to w) }
        ensures len { (length result.0.now ≡ from.len) × (length result.1.now ≡ to.len) }
        ensures source_bytes { (k : ℕ) → k < from.len
            → slice_get result.0.now k ≡ get self.old.storage.bytes (from.addr + k) }
        ensures target_bytes { (k : ℕ) → k < to.len
            → slice_get result.1.now k ≡ get self.old.storage.bytes (to.addr + k) }
    {
        (self.below.part(from), self.above.part_mut(to))
    }

    // Borrows bytes above for reading, and bytes below for writing.
    fn two_down(&mut self, from: Place, to: Place) -> (&[u8], &mut [u8])
        requires source { AllHeld self.old.storage from }
        requires target { AllHeld self.old.storage to }
        requires len { from.len ≡ to.len }
        requires from_above { above_begins ≤ from.addr }
        requires to_below { to.addr < above_begins }
        ensures* writes_back { sem 𝓛 (BorrowsBytes self.entry to result.1) }
        ensures written { (w : List ℕ) → length w ≡ to.len
            → Puts self.old.storage to w (written self.old.storage to w) }
        ensures len { (length result.0.now ≡ from.len) × (length result.1.now ≡ to.len) }
        ensures source_bytes { (k : ℕ) → k < from.len
            → slice_get result.0.now k ≡ get self.old.storage.bytes (from.addr + k) }
        ensures target_bytes { (k : ℕ) → k < to.len
            → slice_get result.1.now k ≡ get self.old.storage.bytes (to.addr + k) }
    {
        (self.above.part(from), self.below.part_mut(to))
    }

    /// Borrows the bytes of one place for reading, and those of another one for writing. What is written to the second is stored,
    /// and nothing else changes. Both are held, have the same length and do not overlap.
    pub fn two(&mut self, from: Place, to: Place) -> (&[u8], &mut [u8])
        requires source { AllHeld self.old.storage from }
        requires target { AllHeld self.old.storage to }
        requires len { from.len ≡ to.len }
        requires apart { (from.addr + from.len ≤ to.addr) ⊎ (to.addr + to.len ≤ from.addr) }
        ensures* writes_back { sem 𝓛 (BorrowsBytes self.entry to result.1) }

        // The storage after the loan is over, if `w` was written to the second result.
        ensures written { (w : List ℕ) → length w ≡ to.len
            → Puts self.old.storage to w (written self.old.storage to w) }
        ensures len { (length result.0.now ≡ from.len) × (length result.1.now ≡ to.len) }
        ensures source_bytes { (k : ℕ) → k < from.len
            → slice_get result.0.now k ≡ get self.old.storage.bytes (from.addr + k) }
        ensures target_bytes { (k : ℕ) → k < to.len
            → slice_get result.1.now k ≡ get self.old.storage.bytes (to.addr + k) }
    {
        if from.addr().get() < ABOVE_BEGINS {
            if to.addr().get() < ABOVE_BEGINS {
                self.two_below(from, to)
            } else {
                self.two_up(from, to)
            }
        } else if to.addr().get() < ABOVE_BEGINS {
            self.two_down(from, to)
        } else {
            self.two_above(from, to)
        }
    }

    /// Returns a copy. It fails if memory is exhausted.
    pub fn try_clone(&self) -> Result<Store, OutOfMemory>
        ensures { IfOk result (λ copy. copy ≡ self.now) }
    {
        Ok(Store {
            below: self.below.try_clone()?,
            above: self.above.try_clone()?,
            counts: self.counts.try_clone()?,
            fill: self.fill,
            placement: self.placement,
            steps: self.steps,
        })
    }
}
