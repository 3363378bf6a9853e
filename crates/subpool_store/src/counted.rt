//! What a search reads of a region. Only these methods read page entries and free runs in a search, and each counts what it reads:
//! no entry and no run is read twice.

ghost use Rattle.std.specs.Prelude.{◌≡◌, ◌<◌, ◌≤◌, ◌+◌, ◌-◌, ◌*◌, ◌/◌, ℕ, MatchOption, None, Some, false, true, length, nat_lt, slice_index_or};
ghost use Rattle.mvs_model.specs.Numbers.{most_pages_above, page_doublewords};
ghost use Rattle.page_map.specs.Owners.{is_usable, owner_of};
ghost use Rattle.region_raw.specs.Pages.{is_open};
ghost use Rattle.subpool_store.specs.Bits.{digit};
ghost use Rattle.subpool_store.specs.Memory.{IsCursor};
ghost use Rattle.subpool_store.specs.Region.{IsOpened};
ghost use Rattle.subpool_store.specs.Sizes.{most_doublewords};
ghost use Rattle.subpool_store.specs.PageWalk.{IsFoundRun, IsFull, IsOwn, entries_to, entry_by, entry_of};

use crate::memory::Memory;
use free_queue::queue::Head;
use mvs_model::subpool::SubpoolId;
use page_map::PageMap;

/// What a page entry is for the subpool of a search.
#[derive(Clone, Copy)]
pub enum PageUse {
    /// Of a page that no subpool has.
    Free,
    /// Of a page of the subpool's own.
    Own,
    /// Of a page of another subpool.
    Other,
    /// None: there is no such page.
    End,
}

// Returns what the entry of a page of this owner is.
fn entry_by(owner: Option<SubpoolId>, subpool: SubpoolId) -> PageUse
    ensures { result ≡ entry_by subpool owner }
{
    match owner {
        None => PageUse::Free,
        Some(owner) if owner == subpool => PageUse::Own,
        Some(_) => PageUse::Other,
    }
}

// Returns whether the page of an entry is the subpool's own and nothing of it is free: its queue is empty.
fn is_full(memory: &Memory, page: usize, entry: PageUse) -> bool
    requires { IsOwn entry → is_open memory.now.bytes page ≡ true }
    ensures full { result ≡ true
        → IsOwn entry
        × ((i : ℕ) → i / page_doublewords ≡ page
        → slice_index_or memory.now.held i false ≡ true) }
{
    match entry {
        PageUse::Own => memory.is_full(page),
        PageUse::Free | PageUse::Other | PageUse::End => false,
    }
}

/// How many page entries and free runs a search has looked at.
#[derive(Clone, Copy)]
pub struct Counted {
    pub steps: u32,
}

impl Counted {
    // Looks at the entry of a page, if there is such a page.
    pub fn entry(&mut self, pages: &PageMap, subpool: SubpoolId, page: usize) -> PageUse
        requires few { self.old.steps ≤ 8 * most_doublewords + most_pages_above }
        ensures entry { result ≡ entry_of pages.now subpool page }
        ensures counted { self.new.steps ≡ self.old.steps + digit (nat_lt page (length pages.now)) }
    {
        if pages.pages() <= page {
            return PageUse::End;
        }
        self.steps += 1;
        entry_by(pages.owner(page), subpool)
    }

    // Counts the entry of a page that was found to be of this owner, if there is such a page.
    fn stop(
        &mut self,
        pages: &PageMap,
        subpool: SubpoolId,
        page: usize,
        owner: Option<SubpoolId>,
    ) -> PageUse
        requires few { self.old.steps ≤ 8 * most_doublewords + most_pages_above }
        requires owner { owner ≡ owner_of pages.now page }
        ensures entry { result ≡ entry_of pages.now subpool page }
        ensures counted { self.new.steps ≡ self.old.steps + digit (nat_lt page (length pages.now)) }
    {
        if pages.pages() <= page {
            return PageUse::End;
        }
        self.steps += 1;
        entry_by(owner, subpool)
    }

    // Looks at the entries from a page on, up to the first one that is not free.
    pub fn pass_free(
        &mut self,
        pages: &PageMap,
        subpool: SubpoolId,
        from: usize,
    ) -> (usize, PageUse)
        requires few { self.old.steps ≤ 8 * most_doublewords }
        requires most { length pages.now ≤ most_pages_above }
        requires from { from ≤ length pages.now }
        ensures after { from ≤ result.0 }
        ensures within { result.0 ≤ length pages.now }
        ensures passed { (p : ℕ) → from ≤ p → p < result.0 → owner_of pages.now p ≡ None }
        ensures entry { result.1 ≡ entry_of pages.now subpool result.0 }
        ensures counted { self.new.steps + from ≡ self.old.steps + entries_to pages.now result.0 }
    {
        let (page, owner) = pages.first_assigned(from);
        self.steps += (page - from) as u32;
        (page, self.stop(pages, subpool, page, owner))
    }

    // Looks at the entries from a page on, up to the first one that is free or the subpool's own.
    pub fn pass_others(
        &mut self,
        pages: &PageMap,
        subpool: SubpoolId,
        from: usize,
    ) -> (usize, PageUse)
        requires few { self.old.steps ≤ 8 * most_doublewords }
        requires most { length pages.now ≤ most_pages_above }
        requires from { from ≤ length pages.now }
        ensures after { from ≤ result.0 }
        ensures within { result.0 ≤ length pages.now }
        ensures passed { (p : ℕ) → from ≤ p → p < result.0
            → is_usable subpool (owner_of pages.now p) ≡ false }
        ensures entry { result.1 ≡ entry_of pages.now subpool result.0 }
        ensures counted { self.new.steps + from ≡ self.old.steps + entries_to pages.now result.0 }
    {
        let (page, owner) = pages.first_usable(subpool, from);
        self.steps += (page - from) as u32;
        (page, self.stop(pages, subpool, page, owner))
    }

    // Looks at the entries from a page on, up to the first one that is not the subpool's own or of whose page something is
    // free.
    pub fn pass_full(
        &mut self,
        memory: &Memory,
        pages: &PageMap,
        subpool: SubpoolId,
        from: usize,
    ) -> (usize, PageUse)
        requires few { self.old.steps ≤ 8 * most_doublewords }
        requires opened { IsOpened pages.now memory.now.bytes }
        requires most { length pages.now ≤ most_pages_above }
        requires from { from ≤ length pages.now }
        ensures after { from ≤ result.0 }
        ensures within { result.0 ≤ length pages.now }
        ensures passed { (p : ℕ) → from ≤ p → p < result.0
            → IsFull memory.now.held pages.now subpool p }
        ensures entry { result.1 ≡ entry_of pages.now subpool result.0 }
        ensures counted { self.new.steps + from ≡ self.old.steps + entries_to pages.now result.0 }
    {
        let mut page = from;
        let mut entry = self.entry(pages, subpool, page);
        'pages: while is_full(memory, page, entry) {
            page += 1;
            entry = self.entry(pages, subpool, page);
        }
        (page, entry)
    }

    // Reads the first free run of a page from a doubleword of the page on: its first byte and the byte after it, as offsets in the
    // page, and the queue after it.
    pub fn free_run(
        &mut self,
        memory: &Memory,
        page: usize,
        from: usize,
        queue: Head,
    ) -> Option<(u32, u32, Head)>
        requires few { self.old.steps ≤ 8 * most_doublewords }
        requires there { is_open memory.now.bytes page ≡ true }
        requires from { page_doublewords * page ≤ from }
        requires queue { IsCursor memory.now page from queue }
        ensures run { MatchOption result
            ((i : ℕ) → from ≤ i → i < page_doublewords * page + page_doublewords
            → slice_index_or memory.now.held i false ≡ true)
            (λ found. IsFoundRun memory.now page from found.0 found.1 found.2) }
        ensures counted { MatchOption result (self.new.steps ≡ self.old.steps)
            (λ _. self.new.steps ≡ self.old.steps + 1) }
    {
        let found = memory.free_run(page, from, queue)?;
        self.steps += 1;
        Some(found)
    }
}
