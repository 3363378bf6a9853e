//! The reports on subpools and pages, which are this project's own.

ghost use Rattle.std.specs.Prelude.{◌≡◌, ◌<◌, ◌≤◌, ◌+◌, ◌*◌, ◌/◌, Some, None, not, MatchBool, MatchOption};
ghost use Rattle.mvs_model.specs.Numbers.{first_page_above, most_pages_above, page_bytes, subpool_numbers};
ghost use Rattle.mvs_model.specs.Consistent.{OwnersConsistent};
ghost use Rattle.mvs_model.specs.Owners.{entry};
ghost use Rattle.mvs_model.specs.Reports.{page_subpool};
ghost use Rattle.mvs_model.specs.Storage.{IsStorage};
ghost use Rattle.task_owner.specs.Tasks.{IsTask, name_of};
ghost use Rattle.request_forms.specs.Reports.{Begins, EndsAt, ContinuesRun, HasNone, IsHolder, IsMapEnd, IsMapRun, IsPages, IsSubpoolLine, NoneBegins, page_holder};

use crate::machine::Machine;
use mvs_model::name::Name;
use mvs_model::numbers::{FIRST_PAGE_ABOVE, FIRST_PAGE_BELOW, PAGE_BYTES, SUBPOOL_NUMBERS};
use mvs_model::place::Addr;
use mvs_model::report::{MapRun, SubpoolLine};
use mvs_model::subpool::{SubNo, SubpoolId};
use subpool_store::Store;
use task_owner::{TaskId, Tasks, pass_none};

// Returns the first number at or after one that the task has, with its subpool.
fn first_entry(tasks: &Tasks, t: TaskId, from: u8) -> Option<(SubNo, SubpoolId)>
    requires task { IsTask tasks.now t }
    requires kept { OwnersConsistent tasks.now.owners }
    ensures { MatchOption result
        (HasNone tasks.now.owners (name_of tasks.now t) from subpool_numbers)
        (λ r. (from ≤ r.0) × (r.0 < subpool_numbers)
        × HasNone tasks.now.owners (name_of tasks.now t) from r.0
        × (entry tasks.now.owners (name_of tasks.now t) r.0 ≡ Some r.1)) }
{
    let entries = tasks.entries(t);
    let from = pass_none(entries, usize::from(from.min(SUBPOOL_NUMBERS))) as u8;
    for n in from..SUBPOOL_NUMBERS {
        if let Some(subpool) = entries[usize::from(n)] {
            return Some((SubNo::of(n), subpool));
        }
    }
    None
}

// Returns the subpool that a page is assigned to.
fn page_owner(store: &Store, page: u32) -> Option<SubpoolId>
    requires storage { IsStorage store.now.storage }
    requires low { page < first_page_above + most_pages_above }
    ensures { result ≡ page_holder store.now.storage page }
{
    store.page_owner(Addr::new(PAGE_BYTES * page))
}

// Returns whether a run begins at a page of a region: it is the region's first page, or is assigned otherwise than the one
// before it.
fn begins(store: &Store, first: u32, page: u32) -> bool
    requires storage { IsStorage store.now.storage }
    requires within { first ≤ page }
    requires low { page < first_page_above + most_pages_above }
    ensures { MatchBool result (Begins (page_holder store.now.storage) first page)
        (ContinuesRun (page_holder store.now.storage) first page) }
{
    if page == first {
        return true;
    }
    page_owner(store, page - 1) != page_owner(store, page)
}

// Returns the first page of a region at which a run begins, from a page on and before the end.
fn first_start(store: &Store, first: u32, from: u32, end: u32) -> Option<u32>
    requires storage { IsStorage store.now.storage }
    requires within { first ≤ from }
    requires ordered { from ≤ end }
    requires low { end ≤ first_page_above + most_pages_above }
    ensures { MatchOption result
        (NoneBegins (page_holder store.now.storage) first (page_bytes * from) end)
        (λ page. (from ≤ page) × (page < end) × Begins (page_holder store.now.storage) first page
        × NoneBegins (page_holder store.now.storage) first (page_bytes * from) page) }
{
    for page in from..end {
        if begins(store, first, page) {
            return Some(page);
        }
    }
    None
}

// Returns the page before which the run ends that begins at a page.
fn run_end(store: &Store, page: u32, end: u32) -> u32
    requires storage { IsStorage store.now.storage }
    requires within { page < end }
    requires low { end ≤ first_page_above + most_pages_above }
    ensures { EndsAt (page_holder store.now.storage) page end result }
{
    let owner = page_owner(store, page);
    for next in page + 1..end {
        if page_owner(store, next) != owner {
            return next;
        }
    }
    end
}

// Pages of one region that follow one another.
#[derive(Clone, Copy)]
struct Pages {
    page: u32,
    count: u32,
}

// Returns the first run of a region that begins at or after a page.
fn first_run(store: &Store, first: u32, end: u32, from: u32) -> Option<Pages>
    requires storage { IsStorage store.now.storage }
    requires ordered { first ≤ end }
    requires low { end ≤ first_page_above + most_pages_above }
    ensures { MatchOption result
        (NoneBegins (page_holder store.now.storage) first (page_bytes * from) end)
        (λ r. IsPages (page_holder store.now.storage) first end r.page r.count × (from ≤ r.page)
        × NoneBegins (page_holder store.now.storage) first (page_bytes * from) r.page) }
{
    let page = first_start(store, first, from.max(first).min(end), end)?;
    Some(Pages {
        page,
        count: run_end(store, page, end) - page,
    })
}

// Returns the number and the owner of a subpool that pages are assigned to.
fn holder(tasks: &Tasks, owner: Option<SubpoolId>) -> Option<(SubNo, Name)>
    ensures { IsHolder tasks.now.owners owner result }
{
    let subpool = owner?;
    tasks.label(subpool)
}

// Returns a line of the map.
fn map_line(store: &Store, tasks: &Tasks, pages: Pages) -> MapRun
    requires storage { IsStorage store.now.storage }
    requires low { pages.page + pages.count ≤ first_page_above + most_pages_above }
    requires some { 1 ≤ pages.count }
    ensures addr { result.addr ≡ page_bytes * pages.page }
    ensures len { result.len ≡ page_bytes * pages.count }
    ensures holder { IsHolder tasks.now.owners (page_holder store.now.storage pages.page)
        result.holder }
{
    MapRun {
        addr: Addr::new(PAGE_BYTES * pages.page),
        len: PAGE_BYTES * pages.count,
        holder: holder(tasks, page_owner(store, pages.page)),
    }
}

impl Machine {
    /// Returns the line of REPORT SP for the first number at or after `from` that the task has. None where it has none, as where
    /// it is not active.
    pub fn subpool_line(&self, name: &Name, from: u8) -> Option<SubpoolLine>
        ensures { MatchOption result
            (HasNone self.now.state.owners name.now from subpool_numbers)
            (IsSubpoolLine self.now.state name.now from) }
    {
        let t = self.tasks.find(name)?;
        let (number, subpool) = first_entry(&self.tasks, t, from)?;
        let pool = self.pools.pool_bytes(&self.store, subpool);
        Some(SubpoolLine {
            number,
            owned: self.tasks.owns(t, number),
            plain: self.store.held_bytes(subpool) - pool,
            pool,
        })
    }

    /// Returns the subpool that the page of an address is assigned to, by its number and its owner. None if the page is free or the
    /// address is in no region.
    pub fn page_subpool(&self, addr: Addr) -> Option<(SubNo, Name)>
        ensures { IsHolder self.now.state.owners
            (page_subpool self.now.state (addr / page_bytes)) result }
    {
        holder(&self.tasks, self.store.page_owner(addr))
    }

    /// Returns the first run of REPORT MAP that begins at or after an address. None where there is none.
    pub fn map_run(&self, from: Addr) -> Option<MapRun>
        ensures { MatchOption result (IsMapEnd self.now.state from) (IsMapRun self.now.state from) }
    {
        let page = (from.get() + (PAGE_BYTES - 1)) / PAGE_BYTES;
        if let Some(pages) = first_run(
            &self.store,
            FIRST_PAGE_BELOW,
            FIRST_PAGE_BELOW + self.store.pages_below(),
            page,
        ) {
            return Some(map_line(&self.store, &self.tasks, pages));
        }
        let pages = first_run(
            &self.store,
            FIRST_PAGE_ABOVE,
            FIRST_PAGE_ABOVE + self.store.pages_above(),
            page,
        )?;
        Some(map_line(&self.store, &self.tasks, pages))
    }
}
