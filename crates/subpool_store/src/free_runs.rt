//! What is held, read off the free runs of the pages.

ghost use Rattle.std.specs.Prelude.{◌≡◌, ◌<◌, ◌≤◌, ◌+◌, ◌*◌, ◌/◌, ◌↔◌, ℕ, IsTrue, false, true, slice_index_or};
ghost use Rattle.mvs_model.specs.Numbers.{most_pages_above, page_doublewords};
ghost use Rattle.region_raw.specs.Pages.{is_open};
ghost use Rattle.subpool_store.specs.Sizes.{most_doublewords};

use crate::memory::Memory;
use crate::run::Run;
use mvs_model::numbers::PAGE_DOUBLEWORDS;

// Returns whether each of some doublewords of an open page is held: the first free run that ends after the first of them begins
// after the last.
pub fn are_held_in(memory: &Memory, page: usize, from: usize, to: usize) -> bool
    requires some { from < to }
    requires few { page < most_pages_above }
    requires first { page_doublewords * page ≤ from }
    requires last { to ≤ page_doublewords * page + page_doublewords }
    requires there { is_open memory.now.bytes page ≡ true }
    ensures { IsTrue result
        ↔ ((i : ℕ) → from ≤ i → i < to → slice_index_or memory.now.held i false ≡ true) }
{
    let mut at = PAGE_DOUBLEWORDS * page;
    let mut queue = memory.first(page);
    'runs: while let Some((run, rest)) = memory.next_free(page, at, queue) {
        if from < run.end {
            return to <= run.start;
        }
        at = run.end;
        queue = rest;
    }
    true
}

// Returns whether each of them is free: the first free run that ends after the first of them has them all.
pub fn are_free_in(memory: &Memory, page: usize, from: usize, to: usize) -> bool
    requires some { from < to }
    requires few { page < most_pages_above }
    requires first { page_doublewords * page ≤ from }
    requires last { to ≤ page_doublewords * page + page_doublewords }
    requires there { is_open memory.now.bytes page ≡ true }
    ensures { IsTrue result ↔ ((i : ℕ) → from ≤ i → i < to → slice_index_or memory.now.held i false ≡ false) }
{
    let mut at = PAGE_DOUBLEWORDS * page;
    let mut queue = memory.first(page);
    'runs: while let Some((run, rest)) = memory.next_free(page, at, queue) {
        if from < run.end {
            return run.start <= from && to <= run.end;
        }
        at = run.end;
        queue = rest;
    }
    false
}

// Returns whether each of some doublewords of open pages is held.
pub fn are_held(memory: &Memory, run: Run) -> bool
    requires some { run.start ≤ run.end }
    requires few { run.end ≤ most_doublewords }
    requires there { (i : ℕ) → run.start ≤ i → i < run.end
        → is_open memory.now.bytes (i / page_doublewords) ≡ true }
    ensures { IsTrue result
        ↔ ((i : ℕ) → run.start ≤ i → i < run.end → slice_index_or memory.now.held i false ≡ true) }
{
    let mut at = run.start;
    'pages: while at < run.end {
        let page = at / PAGE_DOUBLEWORDS;
        let stop = run.end.min(PAGE_DOUBLEWORDS * page + PAGE_DOUBLEWORDS);
        if !are_held_in(memory, page, at, stop) {
            return false;
        }
        at = stop;
    }
    true
}
