//! One region.

ghost use Rattle.std.specs.Prelude.{◌≡◌, ◌<◌, ◌≤◌, ◌+◌, ◌-◌, ◌*◌, ◌/◌, ◌%◌, ◌^◌, ◌↔◌, ◌⊎◌, Some, None, ℕ, length, true, false, IfOk, IsSome, IsTrue, slice_index, slice_index_or, slice_set};
ghost use Rattle.std.specs.Borrow.{sem};
ghost use Rattle.std.specs.FinMap.{get, empty};
ghost use Rattle.mvs_model.specs.Numbers.{first_doubleword_above, most_pages_above, page_bytes, page_doublewords};
ghost use Rattle.mvs_model.specs.Storage.{IsWhole, is_one_of};
ghost use Rattle.mvs_model.specs.Want.{IsWant};
ghost use Rattle.page_map.specs.Owners.{owner_of, is_usable};
ghost use Rattle.subpool_store.specs.Bound.{most_steps};
ghost use Rattle.subpool_store.specs.Edits.{HasNoBit, IsAssigned, IsGivenUp, IsMarked};
ghost use Rattle.subpool_store.specs.Region.{
  AreFree,
  AllHeldIn,
  BestIn,
  ChangedIn,
  DroppedIn,
  HeldIn,
  IsOpened,
  IsSound,
  OpenIn,
  OwnsPage,
  cell,
};
ghost use Rattle.subpool_store.specs.Memory.{IsFilled, Stays};
ghost use Rattle.subpool_store.specs.Search.{IsCounted};
ghost use Rattle.subpool_store.specs.BorrowsRegion.{BorrowsRegion};

use crate::dropping::drop_pages;
use crate::free_runs::{are_held, are_held_in};
use crate::hinted::may_take_run;
use crate::memory::Memory;
use crate::run::Run;
use crate::search::{SearchResult, find};
use mvs_model::error::OutOfMemory;
use mvs_model::numbers::{PAGE_BYTES, PAGE_DOUBLEWORDS};
use mvs_model::place::{Addr, Place};
use mvs_model::subpool::SubpoolId;
use mvs_model::subpool_set::SubpoolSet;
use mvs_model::want::{Placement, Want};
use page_map::PageMap;
use std::alloc::Global;
use std::marker::Model;

// Returns the indices of the doublewords of a place.
fn run_of(first: u32, place: Place) -> Run
    requires { first ≤ place.addr / 8 }
    ensures start { result.start ≡ place.addr / 8 - first }
    ensures end { result.end ≡ result.start + place.len / 8 }
{
    let start = (place.addr().get() / 8 - first) as usize;
    Run {
        start,
        end: start + (place.len() / 8) as usize,
    }
}

// Takes free doublewords of a page that the subpool may use, and fills them. A page that is not assigned is assigned to
// it, and opened.
fn take_part(
    pages: &mut PageMap,
    memory: &mut Memory,
    subpool: SubpoolId,
    page: usize,
    run: Run,
    fill: u8,
)
    requires within { page < length pages.old }
    requires few { length pages.old ≤ most_pages_above }
    requires usable { is_usable subpool (owner_of pages.old page) ≡ true }
    requires opened { IsOpened pages.old memory.old.bytes }
    requires some { run.start < run.end }
    requires first { page_doublewords * page ≤ run.start }
    requires last { run.end ≤ page_doublewords * page + page_doublewords }
    requires free { (i : ℕ) → run.start ≤ i → i < run.end
        → slice_index_or memory.old.held i false ≡ false }
    ensures assigned { pages.new ≡ slice_set pages.old page (Some subpool) }
    ensures opened { IsOpened pages.new memory.new.bytes }
    ensures marked { IsMarked memory.old.held run.start run.end true memory.new.held }
    ensures stays { Stays memory.old.held memory.old.bytes memory.new.bytes }
    ensures filled { IsFilled run.start run.end fill memory.new.bytes }
{
    if pages.owner(page).is_some() {
        memory.take(page, run.start, run.end, fill);
        return;
    }
    pages.assign(page, subpool);
    memory.open_page(page, run.start, run.end, fill);
}

// Checks the doublewords of a run, page by page.
fn take_run(pages: &mut PageMap, memory: &mut Memory, subpool: SubpoolId, run: Run, fill: u8)
    requires some { run.start < run.end }
    requires within { run.end ≤ page_doublewords * length pages.old }
    requires few { length pages.old ≤ most_pages_above }
    requires usable { (p : ℕ) → run.start / page_doublewords ≤ p
        → p < (run.end - 1) / page_doublewords + 1
        → is_usable subpool (owner_of pages.old p) ≡ true }
    requires opened { IsOpened pages.old memory.old.bytes }
    requires free { (i : ℕ) → run.start ≤ i → i < run.end
        → slice_index_or memory.old.held i false ≡ false }
    ensures assigned { IsAssigned pages.old (run.start / page_doublewords)
        ((run.end - 1) / page_doublewords + 1) subpool pages.new }
    ensures opened { IsOpened pages.new memory.new.bytes }
    ensures marked { IsMarked memory.old.held run.start run.end true memory.new.held }
    ensures stays { Stays memory.old.held memory.old.bytes memory.new.bytes }
    ensures filled { IsFilled run.start run.end fill memory.new.bytes }
{
    let mut at = run.start;
    let mut page = at / PAGE_DOUBLEWORDS;
    'pages: while at < run.end {
        let end = run.end.min(PAGE_DOUBLEWORDS * page + PAGE_DOUBLEWORDS);
        take_part(pages, memory, subpool, page, Run { start: at, end }, fill);
        at = end;
        page += 1;
    }
}

// Releases an assigned page and closes it: nothing in it is held then.
pub fn close_page(pages: &mut PageMap, memory: &mut Memory, page: usize)
    requires within { page < length pages.old }
    requires assigned { IsSome (owner_of pages.old page) }
    requires opened { IsOpened pages.old memory.old.bytes }
    ensures unassigned { pages.new ≡ slice_set pages.old page None }
    ensures opened { IsOpened pages.new memory.new.bytes }
    ensures marked { IsMarked memory.old.held (page_doublewords * page)
        (page_doublewords * page + page_doublewords) false memory.new.held }
    ensures stays { Stays memory.new.held memory.old.bytes memory.new.bytes }
{
    pages.unassign(page);
    memory.close_page(page);
}

// Releases a page in which nothing is held: what is held does not change.
fn close_free_page(pages: &mut PageMap, memory: &mut Memory, page: usize)
    requires within { page < length pages.old }
    requires assigned { IsSome (owner_of pages.old page) }
    requires opened { IsOpened pages.old memory.old.bytes }
    requires free { HasNoBit memory.old.held page }
    ensures unassigned { pages.new ≡ slice_set pages.old page None }
    ensures opened { IsOpened pages.new memory.new.bytes }
    ensures held { memory.new.held ≡ memory.old.held }
    ensures stays { Stays memory.old.held memory.old.bytes memory.new.bytes }
{
    close_page(pages, memory, page);
}

// Releases and closes a page if nothing in it is held.
#[tactic(auto, using(crate::proofs::Marked::given_one, crate::proofs::Marked::kept_one))]
fn give_up_page(pages: &mut PageMap, memory: &mut Memory, page: usize)
    requires within { page < length pages.old }
    requires assigned { IsSome (owner_of pages.old page) }
    requires opened { IsOpened pages.old memory.old.bytes }
    ensures given { IsGivenUp memory.old.held pages.old page (page + 1) pages.new }
    ensures opened { IsOpened pages.new memory.new.bytes }
    ensures held { memory.new.held ≡ memory.old.held }
    ensures stays { Stays memory.old.held memory.old.bytes memory.new.bytes }
{
    if memory.is_whole(page) {
        close_free_page(pages, memory, page);
    }
}

// Releases and closes the pages of a range in which nothing is held.
fn give_up_pages(pages: &mut PageMap, memory: &mut Memory, from: usize, to: usize)
    requires ordered { from ≤ to }
    requires within { to ≤ length pages.old }
    requires assigned { (p : ℕ) → from ≤ p → p < to → IsSome (owner_of pages.old p) }
    requires opened { IsOpened pages.old memory.old.bytes }
    ensures given { IsGivenUp memory.old.held pages.old from to pages.new }
    ensures opened { IsOpened pages.new memory.new.bytes }
    ensures held { memory.new.held ≡ memory.old.held }
    ensures stays { Stays memory.old.held memory.old.bytes memory.new.bytes }
{
    for page in from..to {
        give_up_page(pages, memory, page);
    }
}

// Returns whether the pages of a range are all the subpool's.
fn are_of(pages: &PageMap, subpool: SubpoolId, from: usize, to: usize) -> bool
    requires ordered { from ≤ to }
    requires within { to ≤ length pages.now }
    ensures { IsTrue result ↔ ((p : ℕ) → from ≤ p → p < to → owner_of pages.now p ≡ Some subpool) }
{
    for page in from..to {
        if pages.owner(page) != Some(subpool) {
            return false;
        }
    }
    true
}

// Returns whether the subpool holds each doubleword of a run.
fn holds_run(memory: &Memory, pages: &PageMap, subpool: SubpoolId, run: Run) -> bool
    requires some { run.start < run.end }
    requires within { run.end ≤ length memory.now.held }
    requires sizes { length memory.now.held ≡ page_doublewords * length pages.now }
    requires few { length pages.now ≤ most_pages_above }
    requires opened { IsOpened pages.now memory.now.bytes }
    ensures { IsTrue result
        ↔ ((i : ℕ) → run.start ≤ i → i < run.end
        → cell memory.now.held pages.now i ≡ Some subpool) }
{
    if !are_of(
        pages,
        subpool,
        run.start / PAGE_DOUBLEWORDS,
        (run.end - 1) / PAGE_DOUBLEWORDS + 1,
    ) {
        return false;
    }
    are_held(memory, run)
}

// Returns who holds a doubleword.
fn cell(memory: &Memory, pages: &PageMap, index: usize) -> Option<SubpoolId>
    requires within { index < page_doublewords * length pages.now }
    requires few { length pages.now ≤ most_pages_above }
    requires opened { IsOpened pages.now memory.now.bytes }
    ensures { result ≡ cell memory.now.held pages.now index }
{
    let owner = pages.owner(index / PAGE_DOUBLEWORDS)?;
    if are_held_in(memory, index / PAGE_DOUBLEWORDS, index, index + 1) {
        Some(owner)
    } else {
        None
    }
}

/// A region: the owners of its pages, what is held of them, and the bytes.
#[derive(Drop)]
pub struct RegionStore {
    first: u32,
    pages: PageMap,
    memory: Memory,
}

impl Model for RegionStore {
    ghost use Rattle.subpool_store.specs.Region.{RegionState, region_code, region_of, value_at, IsRegion, IsOpened};

    ghost Value = { RegionState };

    ghost coded = { region_code };

    ghost view = { λ h. region_of h.first h.memory.held h.pages (value_at h.memory.bytes) };

    ghost invariant = { λ h. IsRegion h.first h.memory.held h.pages × IsOpened h.pages h.memory.bytes };
}

impl RegionStore {
    // Makes a region with a number of pages, from its first doubleword on, with nothing held.
    pub fn new(alloc: Global, first: u32, pages: usize) -> Result<RegionStore, OutOfMemory>
        requires few { pages ≤ most_pages_above }
        requires aligned { first % page_doublewords ≡ 0 }
        requires end { 8 * (first + page_doublewords * pages) ≤ 2 ^ 31 }
        requires one_side { first < first_doubleword_above
            → first + page_doublewords * pages ≤ first_doubleword_above }
        ensures empty { IfOk result
            (λ h. h ≡ record { first = first; pages = pages; held = empty; bytes = empty }) }
        ensures sound { IfOk result IsSound }
    {
        Ok(RegionStore {
            first,
            pages: PageMap::new(alloc, pages)?,
            memory: Memory::new(alloc, pages)?,
        })
    }

    // Returns a longest open place that meets the request, the one that the placement selects.
    pub fn find(&self, placement: Placement, subpool: SubpoolId, want: &Want) -> SearchResult
        ensures best { BestIn self.now subpool want.now result.place }
        ensures counted { IsCounted (most_steps self.now subpool) result.place result.steps }
        ensures wanted { IsWant want.now }
    {
        find(
            placement,
            self.first,
            &self.memory,
            &self.pages,
            subpool,
            want,
        )
    }

    // Gives an open place to the subpool and fills it.
    pub fn take(&mut self, subpool: SubpoolId, place: Place, fill: u8)
        requires open { OpenIn self.old subpool place }
        requires whole { IsWhole place }
        requires some { 8 ≤ place.len }
        ensures taken { ChangedIn self.old place (Some subpool) (Some fill) self.new }
        ensures sound { IsSound self.new }
    {
        let run = run_of(self.first, place);
        take_run(&mut self.pages, &mut self.memory, subpool, run, fill);
    }

    // Returns whether the subpool holds each doubleword of the place.
    pub fn holds(&self, subpool: SubpoolId, place: Place) -> bool
        requires whole { IsWhole place }
        requires some { 8 ≤ place.len }
        ensures { IsTrue result ↔ HeldIn self.now subpool place }
    {
        if place.addr().get() / 8 < self.first {
            return false;
        }
        let run = run_of(self.first, place);
        if PAGE_DOUBLEWORDS * self.pages.pages() < run.end {
            return false;
        }
        holds_run(&self.memory, &self.pages, subpool, run)
    }

    // Returns whether the place is open: it is in the region, and the subpool may take each of its doublewords.
    pub fn is_open(&self, subpool: SubpoolId, place: Place) -> bool
        requires whole { IsWhole place }
        requires some { 8 ≤ place.len }
        ensures { IsTrue result ↔ OpenIn self.now subpool place }
    {
        if place.addr().get() / 8 < self.first {
            return false;
        }
        let run = run_of(self.first, place);
        if PAGE_DOUBLEWORDS * self.pages.pages() < run.end {
            return false;
        }
        may_take_run(&self.memory, &self.pages, subpool, run)
    }

    // Takes back a place that the subpool holds.
    pub fn give(&mut self, subpool: SubpoolId, place: Place)
        requires held { HeldIn self.old subpool place }
        requires whole { IsWhole place }
        requires some { 8 ≤ place.len }
        ensures given { ChangedIn self.old place None None self.new }
        ensures sound { IsSound self.new }
    {
        let run = run_of(self.first, place);
        self.memory.give(run);
        give_up_pages(
            &mut self.pages,
            &mut self.memory,
            run.start / PAGE_DOUBLEWORDS,
            (run.end - 1) / PAGE_DOUBLEWORDS + 1,
        );
    }

    // Takes back all that the subpools of a set hold.
    pub fn release_each(&mut self, subpools: &SubpoolSet)
        ensures dropped { DroppedIn self.old (is_one_of subpools.now) self.new }
        ensures sound { IsSound self.new }
    {
        drop_pages(&mut self.pages, &mut self.memory, subpools);
    }

    // Returns who holds the doubleword of an address.
    pub fn holder(&self, addr: Addr) -> Option<SubpoolId>
        ensures { result ≡ get self.now.held (addr / 8) }
    {
        let at = addr.get() / 8;
        if at < self.first || PAGE_DOUBLEWORDS * self.pages.pages() <= (at - self.first) as usize {
            return None;
        }
        cell(&self.memory, &self.pages, (at - self.first) as usize)
    }

    // Returns how many pages the region has.
    pub fn page_count(&self) -> u32
        ensures { result ≡ self.now.pages }
    {
        self.pages.pages() as u32
    }

    // Returns how many pages hold nothing.
    pub fn free_pages(&self) -> u32
        ensures free { AreFree self.now result }
        ensures most { result ≤ most_pages_above }
    {
        self.pages.free_pages() as u32
    }

    // Returns the subpool that the page of an address is assigned to.
    pub fn page_owner(&self, addr: Addr) -> Option<SubpoolId>
        ensures { OwnsPage self.now (addr / page_bytes) result }
    {
        let first = self.first / PAGE_DOUBLEWORDS as u32;
        let page = addr.get() / PAGE_BYTES;
        if page < first || self.pages.pages() <= (page - first) as usize {
            return None;
        }
        self.pages.owner((page - first) as usize)
    }

    // Returns the bytes of a place.
    pub fn part(&self, place: Place) -> &[u8]
        requires { AllHeldIn self.now place }
        ensures len { length result.now ≡ place.len }
        ensures each { (k : ℕ) → k < place.len
            → get self.now.bytes (place.addr + k) ≡ Some (slice_index result.now k) }
    {
        let len = place.len() as usize;
        let from = (place.addr().get() - 8 * self.first) as usize;
        self.memory.part(from, len)
    }

    // Borrows the bytes of a place.
    pub fn part_mut(&mut self, place: Place) -> &mut [u8]
        requires { AllHeldIn self.old place }
        ensures* writes_back { sem 𝓛 (BorrowsRegion self.entry place result) }
        ensures len { length result.now ≡ place.len }
        ensures each { (k : ℕ) → k < place.len
            → get self.old.bytes (place.addr + k) ≡ Some (slice_index result.now k) }
    {
        let len = place.len() as usize;
        let from = (place.addr().get() - 8 * self.first) as usize;
        self.memory.part_mut(from, len)
    }

    // Borrows the bytes of one place for reading, and those of another one for writing.
    pub fn two(&mut self, from: Place, to: Place) -> (&[u8], &mut [u8])
        requires source { AllHeldIn self.old from }
        requires target { AllHeldIn self.old to }
        requires len { from.len ≡ to.len }
        requires apart { (from.addr + from.len ≤ to.addr) ⊎ (to.addr + to.len ≤ from.addr) }
        ensures* writes_back { sem 𝓛 (BorrowsRegion self.entry to result.1) }
        ensures len { (length result.0.now ≡ from.len) × (length result.1.now ≡ to.len) }
        ensures source_bytes { (k : ℕ) → k < from.len
            → get self.old.bytes (from.addr + k) ≡ Some (slice_index result.0.now k) }
        ensures target_bytes { (k : ℕ) → k < to.len
            → get self.old.bytes (to.addr + k) ≡ Some (slice_index result.1.now k) }
    {
        let len = from.len() as usize;
        let source = (from.addr().get() - 8 * self.first) as usize;
        let target = (to.addr().get() - 8 * self.first) as usize;
        self.memory.two_parts(source, target, len)
    }

    // Returns a copy. It fails if memory is exhausted.
    pub fn try_clone(&self) -> Result<RegionStore, OutOfMemory>
        ensures { IfOk result (λ copy. copy ≡ self.now) }
    {
        Ok(RegionStore {
            first: self.first,
            pages: self.pages.try_clone()?,
            memory: self.memory.try_clone(&self.pages)?,
        })
    }
}
