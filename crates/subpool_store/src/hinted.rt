//! Whether a place at a hinted address may be taken.

ghost use Rattle.std.specs.Prelude.{◌≡◌, ◌<◌, ◌≤◌, ◌+◌, ◌*◌, ◌↔◌, ℕ, IsTrue, true, length};
ghost use Rattle.mvs_model.specs.Numbers.{page_doublewords};
ghost use Rattle.subpool_store.specs.Region.{IsOpened};
ghost use Rattle.subpool_store.specs.Search.{may_take, IsExact};

use crate::free_runs::are_free_in;
use crate::memory::Memory;
use crate::run::Run;
use mvs_model::numbers::PAGE_DOUBLEWORDS;
use mvs_model::subpool::SubpoolId;
use page_map::PageMap;

// Returns whether the subpool may take each of some doublewords of a page.
fn may_take_part(
    memory: &Memory,
    pages: &PageMap,
    subpool: SubpoolId,
    page: usize,
    from: usize,
    to: usize,
) -> bool
    requires exact { IsExact memory.now.held pages.now }
    requires opened { IsOpened pages.now memory.now.bytes }
    requires within { page < length pages.now }
    requires some { from < to }
    requires first { page_doublewords * page ≤ from }
    requires last { to ≤ page_doublewords * page + page_doublewords }
    ensures { IsTrue result ↔ ((i : ℕ) → from ≤ i → i < to → may_take memory.now.held pages.now subpool i ≡ true) }
{
    match pages.owner(page) {
        None => true,
        Some(owner) => owner == subpool && are_free_in(memory, page, from, to),
    }
}

// Checks the doublewords of a run, page by page.
pub fn may_take_run(memory: &Memory, pages: &PageMap, subpool: SubpoolId, run: Run) -> bool
    requires exact { IsExact memory.now.held pages.now }
    requires opened { IsOpened pages.now memory.now.bytes }
    requires some { run.start ≤ run.end }
    requires within { run.end ≤ length memory.now.held }
    ensures { IsTrue result ↔ ((i : ℕ) → run.start ≤ i → i < run.end → may_take memory.now.held pages.now subpool i ≡ true) }
{
    let mut at = run.start;
    'pages: while at < run.end {
        let page = at / PAGE_DOUBLEWORDS;
        let stop = run.end.min(PAGE_DOUBLEWORDS * page + PAGE_DOUBLEWORDS);
        if !may_take_part(memory, pages, subpool, page, at, stop) {
            return false;
        }
        at = stop;
    }
    true
}
