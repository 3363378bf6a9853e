//! Which subpool each page of a region is assigned to.
#![tactic(auto)]

ghost use Rattle.std.specs.Prelude.{◌≡◌, ◌<◌, ◌≤◌, ◌↔◌, IsTrue, Some, None, IfOk, IsOk, length, count_by, is_some, not, slice_set, replicate};
ghost use Rattle.mvs_model.specs.Numbers.{most_pages_above};
ghost use Rattle.mvs_model.specs.Finite.{count_below, has};
ghost use Rattle.mvs_model.specs.Storage.{is_one_of};
ghost use Rattle.page_map.specs.Owners.{owner_of, is_of, is_usable, IsFirst};

use crate::codes::{FREE, first_assigned, first_of, first_usable, owner_at, subpool_of};
use mvs_model::error::OutOfMemory;
use mvs_model::subpool::SubpoolId;
use mvs_model::subpool_set::SubpoolSet;
use std::alloc::Global;
use std::marker::Model;

mod codes;

/// The subpool of each page of a region of at most 8,192 pages, by the page's index in the region.
#[derive(Drop)]
pub struct PageMap {
    owners: Vec<u16>,
    // How many of the pages have no subpool.
    free: usize,
}

impl Model for PageMap {
    ghost use Rattle.page_map.specs.Codes.{AreCodes, free_codes, page_owners};
    ghost use Rattle.std.specs.Prelude.{◌≡◌, ℕ, List, Option};

    ghost Value = { List (Option ℕ) };

    ghost view = { λ m. page_owners m.owners.items };

    ghost invariant = { λ m. AreCodes m.owners.items × (m.free ≡ free_codes m.owners.items) };
}

impl PageMap {
    /// Makes a map of a number of pages, none of them assigned. Without pages it allocates no memory.
    pub fn new(alloc: Global, pages: usize) -> Result<PageMap, OutOfMemory>
        requires { pages ≤ most_pages_above }
        ensures free { IfOk result (λ m. m ≡ replicate pages None) }
        ensures none { pages ≡ 0 → IsOk result }
    {
        if pages == 0 {
            return Ok(PageMap {
                owners: Vec::new(alloc),
                free: 0,
            });
        }
        let owners = vec![in alloc; FREE; pages].map_err(|_| OutOfMemory)?;
        Ok(PageMap {
            owners,
            free: pages,
        })
    }

    /// Returns how many pages there are.
    pub fn pages(&self) -> usize
        ensures pages { result ≡ length self.now }
        ensures most { result ≤ most_pages_above }
    {
        self.owners.len()
    }

    /// Returns how many pages are not assigned.
    pub fn free_pages(&self) -> usize
        ensures free { result
            ≡ count_below (length self.now) (λ p. not (is_some (owner_of self.now p))) }
        ensures most { result ≤ most_pages_above }
    {
        self.free
    }

    /// Returns the subpool that a page is assigned to.
    pub fn owner(&self, page: usize) -> Option<SubpoolId>
        requires { page < length self.now }
        ensures { result ≡ owner_of self.now page }
    {
        subpool_of(self.owners[page])
    }

    /// Returns whether a page is assigned to the subpool.
    pub fn is_of(&self, page: usize, subpool: SubpoolId) -> bool
        requires { page < length self.now }
        ensures { IsTrue result ↔ owner_of self.now page ≡ Some subpool }
    {
        self.owners[page] == subpool.get()
    }

    /// Returns whether the subpool may use the page: no other subpool has it (Assembler Services Guide, subpools).
    pub fn usable(&self, page: usize, subpool: SubpoolId) -> bool
        requires { page < length self.now }
        ensures { result ≡ is_usable subpool (owner_of self.now page) }
    {
        match self.owner(page) {
            None => true,
            Some(owner) => owner == subpool,
        }
    }

    /// Counts the pages that are assigned to the subpool.
    pub fn pages_of(&self, subpool: SubpoolId) -> u32
        ensures { result ≡ count_by (is_of subpool) self.now }
    {
        let mut count = 0u32;
        for code in &self.owners {
            if *code == subpool.get() {
                count += 1;
            }
        }
        count
    }

    /// Assigns a page that is not assigned.
    pub fn assign(&mut self, page: usize, subpool: SubpoolId)
        requires within { page < length self.old }
        requires free { owner_of self.old page ≡ None }
        ensures { self.new ≡ slice_set self.old page (Some subpool) }
    {
        self.owners[page] = subpool.get();
        self.free -= 1;
    }

    /// Gives a page up: it is not assigned then.
    pub fn unassign(&mut self, page: usize)
        requires { page < length self.old }
        ensures { self.new ≡ slice_set self.old page None }
    {
        let freed = usize::from(self.owners[page] != FREE);
        self.owners[page] = FREE;
        self.free += freed;
    }

    /// Returns the first page from one on that the subpool may use, or the number of pages; and the subpool that the page is
    /// assigned to.
    pub fn first_usable(&self, subpool: SubpoolId, from: usize) -> (usize, Option<SubpoolId>)
        requires { from ≤ length self.now }
        ensures first { IsFirst (is_usable subpool) self.now from result.0 }
        ensures owner { result.1 ≡ owner_of self.now result.0 }
    {
        let page = first_usable(&self.owners, subpool.get(), from);
        (page, owner_at(&self.owners, page))
    }

    /// Returns the first page from one on that is assigned, or the number of pages; and the subpool that the page is assigned to.
    pub fn first_assigned(&self, from: usize) -> (usize, Option<SubpoolId>)
        requires { from ≤ length self.now }
        ensures first { IsFirst is_some self.now from result.0 }
        ensures owner { result.1 ≡ owner_of self.now result.0 }
    {
        let page = first_assigned(&self.owners, from);
        (page, owner_at(&self.owners, page))
    }

    /// Returns the first page from one on that is assigned to a subpool of the set, or the number of pages.
    pub fn first_of(&self, subpools: &SubpoolSet, from: usize) -> usize
        requires { from ≤ length self.now }
        ensures { IsFirst (has (is_one_of subpools.now)) self.now from result }
    {
        first_of(&self.owners, subpools, from)
    }

    /// Returns a copy. It fails if memory is exhausted.
    pub fn try_clone(&self) -> Result<PageMap, OutOfMemory>
        ensures { IfOk result (λ copy. copy ≡ self.now) }
    {
        let owners = Vec::from_slice(*self.owners.allocator(), &self.owners).map_err(
            |_| OutOfMemory,
        )?;
        Ok(PageMap {
            owners,
            free: self.free,
        })
    }
}
