//! One pass in rising order over the pages of a region and the free runs of the subpool's own pages.

ghost use Rattle.std.specs.Prelude.{◌≡◌, ◌<◌, ◌≤◌, ◌+◌, ◌-◌, ◌*◌, ◌/◌, ◌%◌, ◌⊎◌, ◌↔◌, ℕ, IsTrue, MatchOption, Some, None, false, true, length, slice_index_or};
ghost use Rattle.mvs_model.specs.Numbers.{most_pages_above, page_doublewords};
ghost use Rattle.page_map.specs.Owners.{owner_of, is_usable};
ghost use Rattle.subpool_store.specs.Edits.{IsFreeRun};
ghost use Rattle.subpool_store.specs.Region.{IsOpened};
ghost use Rattle.subpool_store.specs.Memory.{IsCursor};
ghost use Rattle.subpool_store.specs.Search.{may_take, IsExact, IsNextRun, NoneFits};
ghost use Rattle.subpool_store.specs.Sizes.{most_doublewords};
ghost use Rattle.subpool_store.specs.PageWalk.{entry_of, IsInside, IsNextPart, IsWalk, IsPassing};

use crate::counted::{Counted, PageUse};
use crate::memory::Memory;
use crate::run::Run;
use free_queue::queue::Head;
use mvs_model::numbers::{PAGE_BYTES, PAGE_DOUBLEWORDS};
use mvs_model::subpool::SubpoolId;
use page_map::PageMap;

/// The result of reading page entries or one free run: from the position of the pass to `start` the subpool may take no doubleword,
/// and from there to `end` each of them. The pass is then at `end`.
#[derive(Clone, Copy)]
struct ReadPart {
    start: usize,
    end: usize,
    entry: PageUse,
    queue: Head,
    counted: Counted,
}

/// A pass: the run that it has joined so far, which ends at its position; the entry of the page at its position, and, if the page
/// is the subpool's own, the queue of the runs that it has not read; and the number of steps.
#[derive(Clone, Copy)]
pub struct PageWalk {
    start: usize,
    end: usize,
    entry: PageUse,
    queue: Head,
    pub counted: Counted,
}

// Returns the queue of what is free in a page, where its entry is the subpool's own.
fn queue_of(
    memory: &Memory,
    pages: &PageMap,
    subpool: SubpoolId,
    entry: PageUse,
    page: usize,
) -> Head
    requires entry { entry ≡ entry_of pages.now subpool page }
    requires opened { IsOpened pages.now memory.now.bytes }
    ensures { IsPassing memory.now pages.now subpool (page_doublewords * page) entry result }
{
    let _ = pages;
    let _ = subpool;
    match entry {
        PageUse::Own => memory.first(page),
        PageUse::Free | PageUse::Other | PageUse::End => Head::none(),
    }
}

// Joins a free page with those after it, up to the first one that is assigned.
fn join_pages(
    counted: Counted,
    memory: &Memory,
    pages: &PageMap,
    subpool: SubpoolId,
    from: usize,
) -> ReadPart
    requires few { counted.steps ≤ 8 * most_doublewords }
    requires exact { IsExact memory.now.held pages.now }
    requires opened { IsOpened pages.now memory.now.bytes }
    requires within { from < length memory.now.held }
    requires page { from % page_doublewords ≡ 0 }
    requires free { owner_of pages.now (from / page_doublewords) ≡ None }
    ensures { IsNextPart memory.now pages.now subpool from counted.steps result }
{
    let mut counted = counted;
    let (page, entry) = counted.pass_free(pages, subpool, from / PAGE_DOUBLEWORDS + 1);
    ReadPart {
        start: from,
        end: PAGE_DOUBLEWORDS * page,
        entry,
        queue: queue_of(memory, pages, subpool, entry, page),
        counted,
    }
}

// Skips a page of another subpool, and those after it, up to the first one that is free or the subpool's own.
fn pass_pages(
    counted: Counted,
    memory: &Memory,
    pages: &PageMap,
    subpool: SubpoolId,
    from: usize,
) -> ReadPart
    requires few { counted.steps ≤ 8 * most_doublewords }
    requires exact { IsExact memory.now.held pages.now }
    requires opened { IsOpened pages.now memory.now.bytes }
    requires within { from < length memory.now.held }
    requires page { from % page_doublewords ≡ 0 }
    requires other { is_usable subpool (owner_of pages.now (from / page_doublewords)) ≡ false }
    ensures { IsNextPart memory.now pages.now subpool from counted.steps result }
{
    let mut counted = counted;
    let (page, entry) = counted.pass_others(pages, subpool, from / PAGE_DOUBLEWORDS + 1);
    let end = PAGE_DOUBLEWORDS * page;
    ReadPart {
        start: end,
        end,
        entry,
        queue: queue_of(memory, pages, subpool, entry, page),
        counted,
    }
}

// Leaves a page of the subpool's own without free doublewords from an index on, and skips those after it without free ones.
fn leave_page(
    counted: Counted,
    memory: &Memory,
    pages: &PageMap,
    subpool: SubpoolId,
    from: usize,
) -> ReadPart
    requires few { counted.steps ≤ 8 * most_doublewords }
    requires exact { IsExact memory.now.held pages.now }
    requires opened { IsOpened pages.now memory.now.bytes }
    requires within { from < length memory.now.held }
    requires rest { (i : ℕ) → from ≤ i
        → i < page_doublewords * (from / page_doublewords) + page_doublewords
        → slice_index_or memory.now.held i false ≡ true }
    ensures { IsNextPart memory.now pages.now subpool from counted.steps result }
{
    let mut counted = counted;
    let (page, entry) = counted.pass_full(memory, pages, subpool, from / PAGE_DOUBLEWORDS + 1);
    let end = PAGE_DOUBLEWORDS * page;
    ReadPart {
        start: end,
        end,
        entry,
        queue: queue_of(memory, pages, subpool, entry, page),
        counted,
    }
}

// Makes a free run that was looked at the next part. Where it ends with its page the next entry is looked at.
fn take_run(
    counted: Counted,
    memory: &Memory,
    pages: &PageMap,
    subpool: SubpoolId,
    from: usize,
    found: (Run, Head),
) -> ReadPart
    requires some { 1 ≤ counted.steps }
    requires few { counted.steps ≤ 8 * most_doublewords }
    requires exact { IsExact memory.now.held pages.now }
    requires opened { IsOpened pages.now memory.now.bytes }
    requires within { from < length memory.now.held }
    requires own { owner_of pages.now (from / page_doublewords) ≡ Some subpool }
    requires fresh { (from % page_doublewords ≡ 0)
        ⊎ (slice_index_or memory.now.held from false ≡ true) }
    requires run { IsFreeRun memory.now.held from
        (page_doublewords * (from / page_doublewords) + page_doublewords) found.0.start
        found.0.end }
    requires cursor { IsCursor memory.now (from / page_doublewords) found.0.end found.1 }
    ensures { IsNextPart memory.now pages.now subpool from (counted.steps - 1) result }
{
    let mut counted = counted;
    let (run, rest) = found;
    let next = from / PAGE_DOUBLEWORDS + 1;
    if run.end < PAGE_DOUBLEWORDS * next {
        return ReadPart {
            start: run.start,
            end: run.end,
            entry: PageUse::Own,
            queue: rest,
            counted,
        };
    }
    let entry = counted.entry(pages, subpool, next);
    ReadPart {
        start: run.start,
        end: run.end,
        entry,
        queue: queue_of(memory, pages, subpool, entry, next),
        counted,
    }
}

// Returns the doublewords of a run from one byte of a page to another.
fn run_at(page: usize, at: u32, end: u32) -> Run
    requires few { page < most_pages_above }
    ensures start { result.start ≡ page_doublewords * page + at / 8 }
    ensures end { result.end ≡ page_doublewords * page + end / 8 }
{
    let first = PAGE_DOUBLEWORDS * page;
    Run {
        start: first + (at / 8) as usize,
        end: first + (end / 8) as usize,
    }
}

// Looks at the next free run of a page of the subpool's own, and leaves the page where there is none.
fn examine_run(
    counted: Counted,
    memory: &Memory,
    pages: &PageMap,
    subpool: SubpoolId,
    from: usize,
    queue: Head,
) -> ReadPart
    requires few { counted.steps < 8 * most_doublewords }
    requires exact { IsExact memory.now.held pages.now }
    requires opened { IsOpened pages.now memory.now.bytes }
    requires within { from < length memory.now.held }
    requires own { owner_of pages.now (from / page_doublewords) ≡ Some subpool }
    requires fresh { (from % page_doublewords ≡ 0)
        ⊎ (slice_index_or memory.now.held from false ≡ true) }
    requires cursor { IsCursor memory.now (from / page_doublewords) from queue }
    ensures { IsNextPart memory.now pages.now subpool from counted.steps result }
{
    let mut counted = counted;
    let page = from / PAGE_DOUBLEWORDS;
    match counted.free_run(memory, page, from, queue) {
        None => leave_page(counted, memory, pages, subpool, from),
        Some((at, end, rest)) => {
            let run = run_at(page, at, end);
            take_run(counted, memory, pages, subpool, from, (run, rest))
        }
    }
}

// Returns whether what begins at an index continues what ends at another one.
fn continues(start: usize, end: usize) -> bool
    ensures { IsTrue result ↔ start ≡ end }
{
    start == end
}

impl PageWalk {
    // Makes a pass before the first page, whose entry it has looked at.
    pub fn new(memory: &Memory, pages: &PageMap, subpool: SubpoolId) -> PageWalk
        requires opened { IsOpened pages.now memory.now.bytes }
        ensures walk { IsWalk memory.now pages.now subpool result }
        ensures start { result.start ≡ 0 }
    {
        let mut counted = Counted { steps: 0 };
        let entry = counted.entry(pages, subpool, 0);
        PageWalk {
            start: 0,
            end: 0,
            entry,
            queue: queue_of(memory, pages, subpool, entry, 0),
            counted,
        }
    }

    // Moves the pass to an index, with nothing joined.
    fn stand(&mut self, at: usize)
        ensures { self.new ≡ record {
          start = at;
          end = at;
          entry = self.old.entry;
          queue = self.old.queue;
          counted = self.old.counted;
        } }
    {
        self.start = at;
        self.end = at;
    }

    // Skips free runs of a page of the subpool's own that are shorter than the least length and end before the page does. Returns
    // what follows them.
    fn pass_short(
        &mut self,
        memory: &Memory,
        pages: &PageMap,
        subpool: SubpoolId,
        least: usize,
    ) -> ReadPart
        requires exact { IsExact memory.now.held pages.now }
        requires opened { IsOpened pages.now memory.now.bytes }
        requires walk { IsWalk memory.now pages.now subpool self.old }
        requires own { IsInside pages.now subpool self.old }
        requires empty { self.old.start ≡ self.old.end }
        ensures walk { IsWalk memory.now pages.now subpool self.new }
        ensures after { self.old.start ≤ self.new.start }
        ensures on { self.old.end ≤ self.new.end }
        ensures none { NoneFits (may_take memory.now.held pages.now subpool) least self.old.start
            self.new.start }
        ensures part { IsNextPart memory.now pages.now subpool self.new.end self.new.counted.steps
            result }
    {
        let page = self.end / PAGE_DOUBLEWORDS;
        let first = PAGE_DOUBLEWORDS * page;
        let mut passed = 8 * (self.end - first) as u32;
        let mut counted = self.counted;
        'runs: while let Some((at, end, rest)) = counted.free_run(
            memory,
            page,
            first + (passed / 8) as usize,
            self.queue,
        ) {
            if least <= ((end - at) / 8) as usize || end == PAGE_BYTES {
                self.stand(first + (passed / 8) as usize);
                let run = run_at(page, at, end);
                return take_run(counted, memory, pages, subpool, self.end, (run, rest));
            }
            passed = end;
            self.queue = rest;
            self.counted = counted;
        }
        self.stand(first + (passed / 8) as usize);
        leave_page(counted, memory, pages, subpool, self.end)
    }

    // Returns whether the run that is joined so far is still of use: it may go on in the page that the pass has entered, or it is
    // no shorter than the least length.
    fn is_of_use(&self, least: usize) -> bool
        requires ordered { self.now.start ≤ self.now.end }
        requires least { 1 ≤ least }
        ensures { result ≡ false
            → self.now.end < self.now.start + least
            × ((self.now.start ≡ self.now.end) ⊎ (self.now.end % page_doublewords ≡ 0 → ⊥)) }
    {
        let len = self.end - self.start;
        0 < len && (least <= len || self.end % PAGE_DOUBLEWORDS == 0)
    }

    // Reads what comes next in a page of the subpool's own, after free runs that are too short.
    fn examine_own(
        &mut self,
        memory: &Memory,
        pages: &PageMap,
        subpool: SubpoolId,
        least: usize,
    ) -> ReadPart
        requires exact { IsExact memory.now.held pages.now }
        requires opened { IsOpened pages.now memory.now.bytes }
        requires walk { IsWalk memory.now pages.now subpool self.old }
        requires own { IsInside pages.now subpool self.old }
        requires least { 1 ≤ least }
        ensures walk { IsWalk memory.now pages.now subpool self.new }
        ensures after { self.old.start ≤ self.new.start }
        ensures on { self.old.end ≤ self.new.end }
        ensures none { NoneFits (may_take memory.now.held pages.now subpool) least self.old.start
            self.new.start }
        ensures part { IsNextPart memory.now pages.now subpool self.new.end self.new.counted.steps
            result }
    {
        if self.is_of_use(least) {
            return examine_run(self.counted, memory, pages, subpool, self.end, self.queue);
        }
        self.start = self.end;
        self.pass_short(memory, pages, subpool, least)
    }

    // Reads what comes next, after free runs that are too short.
    fn examine(
        &mut self,
        memory: &Memory,
        pages: &PageMap,
        subpool: SubpoolId,
        least: usize,
    ) -> ReadPart
        requires exact { IsExact memory.now.held pages.now }
        requires opened { IsOpened pages.now memory.now.bytes }
        requires walk { IsWalk memory.now pages.now subpool self.old }
        requires within { self.old.end < length memory.now.held }
        requires least { 1 ≤ least }
        ensures walk { IsWalk memory.now pages.now subpool self.new }
        ensures after { self.old.start ≤ self.new.start }
        ensures on { self.old.end ≤ self.new.end }
        ensures none { NoneFits (may_take memory.now.held pages.now subpool) least self.old.start
            self.new.start }
        ensures part { IsNextPart memory.now pages.now subpool self.new.end self.new.counted.steps
            result }
    {
        match self.entry {
            PageUse::Free => join_pages(self.counted, memory, pages, subpool, self.end),
            PageUse::Own => self.examine_own(memory, pages, subpool, least),
            PageUse::Other | PageUse::End => pass_pages(
                self.counted,
                memory,
                pages,
                subpool,
                self.end,
            ),
        }
    }

    // Returns the next run of doublewords that the subpool may take, joined across pages, which is no shorter than the least
    // length.
    pub fn next_run(
        &mut self,
        memory: &Memory,
        pages: &PageMap,
        subpool: SubpoolId,
        least: usize,
    ) -> Option<Run>
        requires exact { IsExact memory.now.held pages.now }
        requires opened { IsOpened pages.now memory.now.bytes }
        requires walk { IsWalk memory.now pages.now subpool self.old }
        requires least { 1 ≤ least }
        ensures walk { IsWalk memory.now pages.now subpool self.new }
        ensures run { MatchOption result
            ((to : ℕ)
            → NoneFits (may_take memory.now.held pages.now subpool) least self.old.start to)
            (λ run. IsNextRun (may_take memory.now.held pages.now subpool) least self.old.start
            run.start run.end self.new.start) }
        ensures all { result ≡ None → self.new.end ≡ length memory.now.held }
    {
        let total = PAGE_DOUBLEWORDS * pages.pages();
        'parts: while self.end < total {
            let part = self.examine(memory, pages, subpool, least);
            let run = Run {
                start: self.start,
                end: self.end,
            };
            self.end = part.end;
            self.entry = part.entry;
            self.queue = part.queue;
            self.counted = part.counted;
            if !continues(part.start, run.end) {
                self.start = part.start;
                if least <= run.end - run.start {
                    return Some(run);
                }
            }
        }
        let run = Run {
            start: self.start,
            end: self.end,
        };
        self.start = self.end;
        if least <= run.end - run.start {
            Some(run)
        } else {
            None
        }
    }
}
