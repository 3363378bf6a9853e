//! Which pages are assigned to a subpool, as a session without bytes knew at the last call, and which of them changed since.

ghost use Rattle.std.specs.Prelude.{◌≡◌, ◌≢◌, ◌<◌, ◌≤◌, ℕ, false, true, None, IfOk, IfSome, IsSome, MatchBool, MatchOption, length, slice_set};
ghost use Rattle.mvs_model.specs.View.{IsBounded};
ghost use Rattle.mvs_c.specs.Pages.{AreFlags, FindsChanged, IsAssigned, IsChanged, IsFlagOf, flag_of, pages_bytes, pages_value};

use crate::held::END_PAGE;
use mvs_job::Walk;
use mvs_model::error::OutOfMemory;
use mvs_model::numbers::{FIRST_PAGE_BELOW, PAGE_BYTES};
use mvs_model::place::Addr;
use request_forms::Machine;
use std::alloc::Global;
use std::marker::Model;

/// The number of bytes of the pages that changed, for C.
const PAGES_BYTES: u32 = 12;

/// The first and the last of some pages.
#[derive(Clone, Copy)]
pub struct PageSpan {
    pub first: u32,
    pub last: u32,
}

/// The same as the C header lays it out: the addresses of the pages.
#[repr(C)]
#[derive(Clone, Copy)]
pub struct PagesFields {
    /// The number of bytes of this struct.
    pub size: u32,
    pub first: u32,
    pub last: u32,
}

impl PagesFields {
    /// Returns whether the size is that of such pages.
    pub fn is_sized(&self) -> bool
        ensures { MatchBool result (self.now.size ≡ pages_bytes) (self.now.size ≢ pages_bytes) }
    {
        self.size == PAGES_BYTES
    }
}

impl PageSpan {
    /// Returns the addresses of the pages, for C.
    pub fn value(self) -> PagesFields
        requires first { self.first < 12288 }
        requires last { self.last < 12288 }
        ensures { result ≡ pages_value self }
    {
        PagesFields {
            size: PAGES_BYTES,
            first: PAGE_BYTES * self.first,
            last: PAGE_BYTES * self.last,
        }
    }
}

/// For each page, whether it is assigned to a subpool.
#[derive(Drop)]
struct PageFlags {
    flags: Vec<bool>,
}

impl Model for PageFlags {
    ghost use Rattle.std.specs.Prelude.{◌≡◌, List, Bool, length};

    ghost Value = { List Bool };

    ghost view = { λ f. f.flags.items };

    ghost invariant = { λ f. length f.flags.items ≡ 12288 };
}

// Makes a number of flags that are not set.
fn unset_flags(alloc: Global, count: usize) -> Result<Vec<bool>, OutOfMemory>
    ensures len { IfOk result (λ flags. length flags.items ≡ count) }
    ensures unset { IfOk result (λ flags. (page : ℕ) → flag_of flags.items page ≡ false) }
{
    vec![in alloc; false; count].map_err(|_| OutOfMemory)
}

impl PageFlags {
    // Makes those of a session before its first step. It fails if memory is exhausted.
    fn new(alloc: Global) -> Result<PageFlags, OutOfMemory>
        ensures { IfOk result (λ flags. AreFlags None flags) }
    {
        let flags = unset_flags(alloc, END_PAGE as usize)?;
        Ok(PageFlags { flags })
    }

    // Returns the flag of a page.
    fn get(&self, page: u32) -> bool
        requires { page < 12288 }
        ensures { result ≡ flag_of self.now page }
    {
        self.flags[page as usize]
    }

    // Sets the flags of the pages from one up to another.
    fn set(&mut self, from: u32, to: u32, flag: bool)
        requires ordered { from ≤ to }
        requires low { to ≤ 12288 }
        ensures before { (page : ℕ) → page < from → flag_of self.new page ≡ flag_of self.old page }
        ensures set { (page : ℕ) → from ≤ page → page < to → flag_of self.new page ≡ flag }
    {
        for page in from..to {
            self.flags[page as usize] = flag;
        }
    }

    // Sets each flag by the map of a step.
    fn fill(&mut self, machine: &Machine)
        requires { IsBounded machine.now.state.regions }
        ensures { (page : ℕ) → page < 12288
            → IsFlagOf (IsAssigned machine.now.state page) (flag_of self.new page) }
    {
        let mut next = FIRST_PAGE_BELOW;
        self.set(0, FIRST_PAGE_BELOW, false);
        for i in 0..END_PAGE {
            let Some(pages) = machine.map_run(Addr::new(PAGE_BYTES * next)) else {
                self.set(next, END_PAGE, false);
                return;
            };
            let first = pages.addr.get() / PAGE_BYTES;
            let end = (pages.addr.get() + pages.len) / PAGE_BYTES;
            self.set(next, first, false);
            self.set(first, end, pages.holder.is_some());
            next = end;
        }
    }

    // Returns whether all flags are the same. It has no early return, so that many of them are compared at once.
    fn is_same(&self, other: &PageFlags) -> bool
        ensures { result ≡ true → (page : ℕ) → page < 12288 → flag_of self.now page ≡ flag_of other.now page }
    {
        let mut same = true;
        for page in 0..END_PAGE {
            if self.get(page) != other.get(page) {
                same = false;
            }
        }
        same
    }

    // Returns the first page whose flag is another one.
    fn first_changed(&self, other: &PageFlags) -> Option<u32>
        ensures { MatchOption result ((page : ℕ) → page < 12288 → flag_of self.now page ≡ flag_of other.now page)
            (λ first. (first < 12288) × IsChanged self.now other.now first
            × ((page : ℕ) → page < first → flag_of self.now page ≡ flag_of other.now page)) }
    {
        for page in 0..END_PAGE {
            if self.get(page) != other.get(page) {
                return Some(page);
            }
        }
        None
    }

    // Returns the last page whose flag is another one, where that of the first is.
    fn last_changed(&self, other: &PageFlags, first: u32) -> u32
        requires low { first < 12288 }
        requires changed { IsChanged self.now other.now first }
        ensures low { result < 12288 }
        ensures changed { IsChanged self.now other.now result }
        ensures last { (page : ℕ) → result < page → page < 12288
            → flag_of self.now page ≡ flag_of other.now page }
    {
        let mut last = first;
        for page in first..END_PAGE {
            if self.get(page) != other.get(page) {
                last = page;
            }
        }
        last
    }

    // Returns the first and the last page whose flag is another one.
    fn changed(&self, other: &PageFlags) -> Option<PageSpan>
        ensures found { FindsChanged self.now other.now result }
        ensures low { IfSome result (λ span. (span.first < 12288) × (span.last < 12288)) }
    {
        if self.is_same(other) {
            return None;
        }
        let first = self.first_changed(other)?;
        Some(PageSpan {
            first,
            last: self.last_changed(other, first),
        })
    }

    // Takes over the flags of another one.
    fn copy_from(&mut self, other: &PageFlags)
        ensures { self.new ≡ other.now }
    {
        self.flags.copy_from_slice(&other.flags);
    }

    // Returns a copy. It fails if memory is exhausted.
    fn try_clone(&self) -> Result<PageFlags, OutOfMemory>
        ensures { IfOk result (λ copy. copy ≡ self.now) }
    {
        let flags = Vec::from_slice(*self.flags.allocator(), &self.flags).map_err(|_| OutOfMemory)?;
        Ok(PageFlags { flags })
    }
}

/// For each page, whether it was assigned at the last call.
#[derive(Drop)]
pub struct KnownPages {
    known: PageFlags,
    // The present ones, while they are compared.
    present: PageFlags,
}

impl Model for KnownPages {
    ghost use Rattle.std.specs.Prelude.{List, Bool};

    ghost Value = { List Bool };

    ghost view = { λ p. p.known };
}

impl KnownPages {
    // Makes those of a session before its first step. It fails if memory is exhausted.
    fn new(alloc: Global) -> Result<KnownPages, OutOfMemory>
        ensures { IfOk result (λ pages. AreFlags None pages) }
    {
        Ok(KnownPages {
            known: PageFlags::new(alloc)?,
            present: PageFlags::new(alloc)?,
        })
    }

    /// Returns the first and the last page of those that are now assigned otherwise than at the call before.
    pub fn look(&mut self, walk: &Walk) -> Option<PageSpan>
        ensures known { AreFlags walk.now.step self.new }
        ensures found { FindsChanged self.old self.new result }
        ensures low { IfSome result (λ span. (span.first < 12288) × (span.last < 12288)) }
    {
        match walk.job() {
            Some(job) => self.present.fill(job.step().machine()),
            None => self.present.set(0, END_PAGE, false),
        }
        let changed = self.known.changed(&self.present);
        self.known.copy_from(&self.present);
        changed
    }

    /// Returns a copy. It fails if memory is exhausted.
    pub fn try_clone(&self) -> Result<KnownPages, OutOfMemory>
        ensures { IfOk result (λ copy. copy ≡ self.now) }
    {
        Ok(KnownPages {
            known: self.known.try_clone()?,
            present: self.present.try_clone()?,
        })
    }
}

/// Makes what a new session knows of the pages: nothing, if it has bytes. It fails if memory is exhausted.
pub fn pages_of_new(alloc: Global, keeps_bytes: bool) -> Result<Option<KnownPages>, OutOfMemory>
    ensures { IfOk result (λ pages. MatchOption pages (keeps_bytes ≡ true)
        (λ flags. (keeps_bytes ≡ false) × AreFlags None flags)) }
{
    if keeps_bytes {
        return Ok(None);
    }
    let pages = KnownPages::new(alloc)?;
    Ok(Some(pages))
}
