//! The calls of a page's queue of free runs. Offsets and lengths are bytes, multiples of 8, and `page` is an open page of
//! the region.

ghost use Rattle.std.specs.Prelude.{◌≡◌, ◌%◌, ℕ, ◌+◌, ◌<◌, ◌≤◌, ◌↔◌, List, [], ◌∷◌, IsTrue, true};
ghost use Rattle.mvs_model.specs.Numbers.{page_bytes, most_pages_above};
ghost use Rattle.region_raw.specs.Pages.{is_open};
ghost use Rattle.free_queue.specs.Runs.{
  Covers,
  Gives,
  IsFree,
  Keeps,
  NoneFree,
  Queue,
  Run,
  Same,
  Takes,
  Within,
  end,
  next_run,
  page_of,
  place_of,
  whole_page,
};

use region_raw::region::Region;
use std::marker::Model;

/// The offset of a page's first free run, or none where nothing of the page is free.
#[derive(Clone, Copy, Debug, PartialEq, Eq)]
pub struct Head {
    offset: u32,
}

impl Model for Head {
    ghost use Rattle.std.specs.Prelude.{ℕ};

    ghost Value = { ℕ };

    ghost view = { λ head. head.offset };

    ghost inverse = { λ n. record { offset = n } };
}

impl Head {
    /// Returns the head of a page without free bytes.
    pub fn none() -> Head
        ensures { result ≡ end }
    {
        Head { offset: crate::END }
    }

    /// Returns whether it is the head of a page without free bytes.
    pub fn is_none(self) -> bool
        ensures { IsTrue result ↔ self ≡ end }
    {
        self.offset == crate::END
    }
}

/// Makes all of a page free. What it holds is lost.
pub fn start(region: &mut Region, page: usize) -> Head
    requires few { page < most_pages_above }
    requires there { is_open region.old page ≡ true }
    ensures keeps { Keeps region.old page region.new }
    ensures queue { Queue 0 (page_of region.new page) result
        (record { from = 0; len = page_bytes } ∷ []) }
{
    let offset = crate::start(region, page);
    Head { offset }
}

/// Makes all of a page free but `n` bytes from an offset on, at least 8, which keep what they are. What all others hold
/// is lost.
pub fn start_around(region: &mut Region, page: usize, from: u32, n: u32) -> Head
    requires few { page < most_pages_above }
    requires there { is_open region.old page ≡ true }
    requires some { 0 < n }
    requires inside { from + n ≤ page_bytes }
    requires whole { (from % 8 ≡ 0) × (n % 8 ≡ 0) }
    ensures keeps { Keeps region.old page region.new }
    ensures same { (d : ℕ) → Within from n d
        → Same (page_of region.old page) (page_of region.new page) d }
    ensures queue { Takes 0 whole_page from n (page_of region.new page) result }
{
    let offset = crate::start_around(region, page, from, n);
    Head { offset }
}

/// Takes `n` bytes from an offset on, at least 8, all of them free: they are free no more. Doublewords that were not free
/// keep their bytes, and so do all other pages.
pub fn take(region: &mut Region, page: usize, head: Head, from: u32, n: u32) -> Head
    requires few { page < most_pages_above }
    requires there { is_open region.old page ≡ true }
    requires some { 0 < n }
    requires whole { (from % 8 ≡ 0) × (n % 8 ≡ 0) }
    requires queue { (rs : List Run) × Queue 0 (page_of region.old page) head rs
        × Covers rs from n }
    ensures keeps { Keeps region.old page region.new }
    ensures same { (rs : List Run) → Queue 0 (page_of region.old page) head rs → Covers rs from n
        → (d : ℕ) → (IsFree rs d → ⊥) → Same (page_of region.old page) (page_of region.new page) d }
    ensures queue { (rs : List Run) → Queue 0 (page_of region.old page) head rs → Covers rs from n
        → Takes 0 rs from n (page_of region.new page) result }
{
    let offset = crate::take(region, page, head.offset, from, n);
    Head { offset }
}

/// Gives `n` bytes from an offset on, at least 8, none of them free: they are free then. Doublewords that were not free
/// and are none of these keep their bytes, and so do all other pages.
pub fn give(region: &mut Region, page: usize, head: Head, from: u32, n: u32) -> Head
    requires few { page < most_pages_above }
    requires there { is_open region.old page ≡ true }
    requires some { 0 < n }
    requires inside { from + n ≤ page_bytes }
    requires whole { (from % 8 ≡ 0) × (n % 8 ≡ 0) }
    requires queue { (rs : List Run) × Queue 0 (page_of region.old page) head rs
        × NoneFree rs from n }
    ensures keeps { Keeps region.old page region.new }
    ensures same { (rs : List Run) → Queue 0 (page_of region.old page) head rs → NoneFree rs from n
        → (d : ℕ) → (IsFree rs d → ⊥) → (Within from n d → ⊥)
        → Same (page_of region.old page) (page_of region.new page) d }
    ensures queue { (rs : List Run) → Queue 0 (page_of region.old page) head rs → NoneFree rs from n
        → Gives 0 rs from n (page_of region.new page) result }
{
    let offset = crate::give(region, page, head.offset, from, n);
    Head { offset }
}

/// Returns the first free run that begins at or after an offset: where it begins, and its length.
pub fn next_free(region: &Region, page: usize, head: Head, from: u32) -> Option<(u32, u32)>
    requires few { page < most_pages_above }
    requires there { is_open region.now page ≡ true }
    requires inside { from ≤ page_bytes }
    requires queue { (rs : List Run) × Queue 0 (page_of region.now page) head rs }
    ensures { (rs : List Run) → Queue 0 (page_of region.now page) head rs
        → result ≡ place_of (next_run from rs) }
{
    crate::next_free(region, page, head.offset, from)
}

/// Returns the queue of the free runs after the first one.
pub fn next_head(region: &Region, page: usize, head: Head) -> Head
    requires few { page < most_pages_above }
    requires there { is_open region.now page ≡ true }
    requires queue { (lo : ℕ) × (r : Run) × (rs : List Run)
        × Queue lo (page_of region.now page) head (r ∷ rs) }
    ensures { (lo : ℕ) (r : Run) (rs : List Run) → Queue lo (page_of region.now page) head (r ∷ rs)
        → Queue (r.from + r.len + 1) (page_of region.now page) result rs }
{
    let offset = crate::link(region, page, head.offset);
    Head { offset }
}

/// Returns whether all of a page is free.
pub fn is_whole(region: &Region, page: usize, head: Head) -> bool
    requires few { page < most_pages_above }
    requires there { is_open region.now page ≡ true }
    ensures { (rs : List Run) → Queue 0 (page_of region.now page) head rs
        → IsTrue result ↔ ((d : ℕ) → d < page_bytes → IsFree rs d) }
{
    crate::is_whole(region, page, head.offset)
}
