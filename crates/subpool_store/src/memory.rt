//! The pages of a region in raw memory, with the queues of what is free in them.

ghost use Rattle.std.specs.Prelude.{◌≡◌, ◌<◌, ◌≤◌, ◌+◌, ◌*◌, ◌/◌, ◌↔◌, ℕ, IfOk, MatchOption, MatchBool, IsTrue, None, Some, List, false, true, length, replicate, slice_index, slice_index_or};
ghost use Rattle.std.specs.Borrow.{sem};
ghost use Rattle.mvs_model.specs.Numbers.{most_pages_above, page_doublewords};
ghost use Rattle.region_raw.specs.Pages.{IsBlank, Writes, byte_of, is_open, with_part};
ghost use Rattle.region_raw.specs.Rows.{IsApart};
ghost use Rattle.subpool_store.specs.Edits.{IsClear, IsMarked, IsFreeRun, HasNoBit, HasBit};
ghost use Rattle.subpool_store.specs.Memory.{IsCursor, IsFilled, IsHeldPart, KeepsHeld, Stays, Turns};
ghost use Rattle.subpool_store.specs.Region.{IsOpened};
ghost use Rattle.subpool_store.specs.Sizes.{most_doublewords};
ghost use Rattle.subpool_store.specs.PageWalk.{IsFoundRun};

use crate::copying::copy_pages;
use crate::run::Run;
use free_queue::queue::{self, Head};
use mvs_model::error::OutOfMemory;
use mvs_model::numbers::PAGE_DOUBLEWORDS;
use page_map::PageMap;
use region_raw::region::Region;
use std::alloc::Global;
use std::marker::Model;

/// The pages of a region, each blank or open, and the held doublewords of each open page. The others are free, and their queue is
/// in the page. Doublewords are addressed by their index in the region, 512 to a page.
#[derive(Drop)]
pub struct Memory {
    region: Region,
    heads: Vec<Head>,
}

impl Model for Memory {
    ghost use Rattle.subpool_store.specs.Memory.{IsMemory, MemoryState, memory_code, memory_of};

    ghost Value = { MemoryState };

    ghost coded = { memory_code };

    ghost view = { λ m. memory_of m.region m.heads.items };

    ghost invariant = { λ m. IsMemory m.region m.heads.items };
}

impl Memory {
    ghost use Rattle.subpool_store.specs.BorrowsMemory.{BorrowsPart, BorrowsSecond};

    // Makes a number of blank pages.
    pub fn new(alloc: Global, pages: usize) -> Result<Memory, OutOfMemory>
        requires { pages ≤ most_pages_above }
        ensures clear { IfOk result (λ m. IsClear (page_doublewords * pages) m.held) }
        ensures blank { IfOk result (λ m. m.bytes ≡ replicate pages None) }
    {
        let region = Region::new(alloc, pages)?;
        let heads = vec![in alloc; Head::none(); pages].map_err(|_| OutOfMemory)?;
        Ok(Memory { region, heads })
    }

    // Opens a blank page: some doublewords of it are held then, each byte of them the value, and the others are free.
    pub fn open_page(&mut self, page: usize, from: usize, to: usize, value: u8)
        requires blank { IsBlank self.old.bytes page }
        requires some { from < to }
        requires first { page_doublewords * page ≤ from }
        requires last { to ≤ page_doublewords * page + page_doublewords }
        ensures marked { IsMarked self.old.held from to true self.new.held }
        ensures opened { Turns self.old.bytes page true self.new.bytes }
        ensures stays { Stays self.old.held self.old.bytes self.new.bytes }
        ensures filled { IsFilled from to value self.new.bytes }
    {
        let at = 8 * (from - PAGE_DOUBLEWORDS * page) as u32;
        let len = 8 * (to - from) as u32;
        self.region.open_page(page, value);
        self.heads[page] = queue::start_around(&mut self.region, page, at, len);
    }

    // Makes an open page blank.
    pub fn close_page(&mut self, page: usize)
        requires { is_open self.old.bytes page ≡ true }
        ensures marked { IsMarked self.old.held (page_doublewords * page)
            (page_doublewords * page + page_doublewords) false self.new.held }
        ensures closed { Turns self.old.bytes page false self.new.bytes }
        ensures stays { Stays self.new.held self.old.bytes self.new.bytes }
    {
        self.region.close_page(page);
    }

    // Takes free doublewords of a page: they are held then.
    fn take_in(&mut self, page: usize, from: usize, to: usize)
        requires some { from < to }
        requires first { page_doublewords * page ≤ from }
        requires last { to ≤ page_doublewords * page + page_doublewords }
        requires there { is_open self.old.bytes page ≡ true }
        requires free { (i : ℕ) → from ≤ i → i < to → slice_index_or self.old.held i false ≡ false }
        ensures marked { IsMarked self.old.held from to true self.new.held }
        ensures keeps { KeepsHeld self.old.held self.old.bytes self.new.bytes }
    {
        let at = 8 * (from - PAGE_DOUBLEWORDS * page) as u32;
        let len = 8 * (to - from) as u32;
        self.heads[page] = queue::take(&mut self.region, page, self.heads[page], at, len);
    }

    // Takes free doublewords of a page, and sets each of their bytes to the value.
    pub fn take(&mut self, page: usize, from: usize, to: usize, value: u8)
        requires few { page < most_pages_above }
        requires some { from < to }
        requires first { page_doublewords * page ≤ from }
        requires last { to ≤ page_doublewords * page + page_doublewords }
        requires there { is_open self.old.bytes page ≡ true }
        requires free { (i : ℕ) → from ≤ i → i < to → slice_index_or self.old.held i false ≡ false }
        ensures marked { IsMarked self.old.held from to true self.new.held }
        ensures keeps { KeepsHeld self.old.held self.old.bytes self.new.bytes }
        ensures filled { IsFilled from to value self.new.bytes }
    {
        self.take_in(page, from, to);
        self.fill(8 * from, 8 * (to - from), value);
    }

    // Gives doublewords of a page back that are held: they are free then.
    fn give_in(&mut self, page: usize, from: usize, to: usize)
        requires some { from < to }
        requires first { page_doublewords * page ≤ from }
        requires last { to ≤ page_doublewords * page + page_doublewords }
        requires there { is_open self.old.bytes page ≡ true }
        requires held { (i : ℕ) → from ≤ i → i < to → slice_index_or self.old.held i false ≡ true }
        ensures marked { IsMarked self.old.held from to false self.new.held }
        ensures keeps { KeepsHeld self.new.held self.old.bytes self.new.bytes }
    {
        let at = 8 * (from - PAGE_DOUBLEWORDS * page) as u32;
        let len = 8 * (to - from) as u32;
        self.heads[page] = queue::give(&mut self.region, page, self.heads[page], at, len);
    }

    // Gives doublewords back that are held: they are free then.
    pub fn give(&mut self, run: Run)
        requires some { run.start ≤ run.end }
        requires few { run.end ≤ most_doublewords }
        requires there { (i : ℕ) → run.start ≤ i → i < run.end
            → is_open self.old.bytes (i / page_doublewords) ≡ true }
        requires held { (i : ℕ) → run.start ≤ i → i < run.end
            → slice_index_or self.old.held i false ≡ true }
        ensures marked { IsMarked self.old.held run.start run.end false self.new.held }
        ensures keeps { KeepsHeld self.new.held self.old.bytes self.new.bytes }
    {
        let mut at = run.start;
        'pages: while at < run.end {
            let page = at / PAGE_DOUBLEWORDS;
            let stop = run.end.min(PAGE_DOUBLEWORDS * page + PAGE_DOUBLEWORDS);
            self.give_in(page, at, stop);
            at = stop;
        }
    }

    // Returns whether all doublewords of an open page are free.
    pub fn is_whole(&self, page: usize) -> bool
        requires { is_open self.now.bytes page ≡ true }
        ensures { MatchBool result (HasNoBit self.now.held page) (HasBit self.now.held page) }
    {
        queue::is_whole(&self.region, page, self.heads[page])
    }

    // Returns whether all doublewords of an open page are held.
    pub fn is_full(&self, page: usize) -> bool
        requires { is_open self.now.bytes page ≡ true }
        ensures { IsTrue result
            ↔ ((i : ℕ) → i / page_doublewords ≡ page
            → slice_index_or self.now.held i false ≡ true) }
    {
        let _ = &self.region;
        self.heads[page].is_none()
    }

    // Returns the queue of what is free in an open page.
    pub fn first(&self, page: usize) -> Head
        requires { is_open self.now.bytes page ≡ true }
        ensures { IsCursor self.now page (page_doublewords * page) result }
    {
        let _ = &self.region;
        self.heads[page]
    }

    // Returns the first free run of a page, from a doubleword of the page on, and the queue after it.
    pub fn next_free(&self, page: usize, from: usize, queue: Head) -> Option<(Run, Head)>
        requires there { is_open self.now.bytes page ≡ true }
        requires from { page_doublewords * page ≤ from }
        requires queue { IsCursor self.now page from queue }
        ensures { MatchOption result
            ((i : ℕ) → from ≤ i → i < page_doublewords * page + page_doublewords
            → slice_index_or self.now.held i false ≡ true)
            (λ found. IsFreeRun self.now.held from (page_doublewords * page + page_doublewords)
            found.0.start found.0.end × IsCursor self.now page found.0.end found.1) }
    {
        let (at, len) = queue::next_free(&self.region, page, queue, 0)?;
        let start = PAGE_DOUBLEWORDS * page + (at / 8) as usize;
        let run = Run {
            start,
            end: start + (len / 8) as usize,
        };
        Some((run, queue::next_head(&self.region, page, queue)))
    }

    // Returns the same run as offsets in bytes: the first one, the one after the run, and the queue after it.
    pub fn free_run(&self, page: usize, from: usize, queue: Head) -> Option<(u32, u32, Head)>
        requires there { is_open self.now.bytes page ≡ true }
        requires from { page_doublewords * page ≤ from }
        requires queue { IsCursor self.now page from queue }
        ensures { MatchOption result
            ((i : ℕ) → from ≤ i → i < page_doublewords * page + page_doublewords
            → slice_index_or self.now.held i false ≡ true)
            (λ found. IsFoundRun self.now page from found.0 found.1 found.2) }
    {
        let (at, len) = queue::next_free(&self.region, page, queue, 0)?;
        Some((at, at + len, queue::next_head(&self.region, page, queue)))
    }

    // Gives each of some bytes that are held the value.
    fn fill(&mut self, at: usize, n: usize, value: u8)
        requires { IsHeldPart self.old.held at n }
        ensures held { self.new.held ≡ self.old.held }
        ensures writes { Writes self.old.bytes at (replicate n value) self.new.bytes }
    {
        self.region.fill(at, n, value);
    }

    // Returns some bytes that are held.
    pub fn part(&self, at: usize, n: usize) -> &[u8]
        requires { IsHeldPart self.now.held at n }
        ensures len { length result.now ≡ n }
        ensures bytes { (k : ℕ) → k < n
            → byte_of self.now.bytes (at + k) ≡ Some (slice_index result.now k) }
    {
        let _ = &self.heads;
        self.region.part(at, n)
    }

    // Borrows held bytes for writing.
    pub fn part_mut(&mut self, at: usize, n: usize) -> &mut [u8]
        requires { IsHeldPart self.old.held at n }
        ensures* writes_back { sem 𝓛 (BorrowsPart self.entry at n result) }
        ensures writes { (ws : List ℕ)
            → Writes self.old.bytes at ws (with_part self.old.bytes at ws) }
        ensures len { length result.now ≡ n }
        ensures bytes { (k : ℕ) → k < n
            → byte_of self.old.bytes (at + k) ≡ Some (slice_index result.now k) }
    {
        self.region.part_mut(at, n)
    }

    // Borrows `n` held bytes for reading, and `n` others for writing.
    pub fn two_parts(&mut self, from: usize, to: usize, n: usize) -> (&[u8], &mut [u8])
        requires apart { IsApart from to n }
        requires source { IsHeldPart self.old.held from n }
        requires target { IsHeldPart self.old.held to n }
        ensures* writes_back { sem 𝓛 (BorrowsSecond self.entry to n result) }
        ensures writes { (ws : List ℕ)
            → Writes self.old.bytes to ws (with_part self.old.bytes to ws) }
        ensures len { (length result.0.now ≡ n) × (length result.1.now ≡ n) }
        ensures source_bytes { (k : ℕ) → k < n
            → byte_of self.old.bytes (from + k) ≡ Some (slice_index result.0.now k) }
        ensures target_bytes { (k : ℕ) → k < n
            → byte_of self.old.bytes (to + k) ≡ Some (slice_index result.1.now k) }
    {
        self.region.two_parts(from, to, n)
    }

    // Returns a copy of the pages, each of which is open while it is assigned. It fails if memory is exhausted.
    pub fn try_clone(&self, pages: &PageMap) -> Result<Memory, OutOfMemory>
        requires { IsOpened pages.now self.now.bytes }
        ensures { IfOk result (λ copy. copy ≡ self.now) }
    {
        let region = copy_pages(*self.heads.allocator(), &self.region, pages)?;
        let heads = Vec::from_slice(*self.heads.allocator(), &self.heads).map_err(|_| OutOfMemory)?;
        Ok(Memory { region, heads })
    }
}
