//! The queue of the free runs of a page, which is stored in the free doublewords themselves. The first doubleword of a run has two
//! words, big-endian: the offset of the next run in the page, and the length of this one in bytes. The runs are sorted, and no two
//! are adjacent. Here a head is a plain word; `queue` has the calls.
#![tactic(auto)]

ghost use Rattle.std.specs.Prelude.{◌≡◌, ◌%◌, ℕ, ◌+◌, ◌*◌, ◌<◌, ◌≤◌, ◌⊎◌, ◌↔◌, List, [], ◌∷◌, IsTrue, false, true};
ghost use Rattle.mvs_model.specs.Numbers.{page_bytes, most_pages_above};
ghost use Rattle.region_raw.specs.Pages.{byte_of, is_open};
ghost use Rattle.free_queue.specs.Runs.{
  Adds,
  Covers,
  Gives,
  IsFree,
  Keeps,
  NoneFree,
  Queue,
  Run,
  Same,
  Takes,
  Within,
  end,
  next_run,
  page_of,
  place_of,
  whole_page,
  word,
};

use mvs_model::numbers::PAGE_BYTES;
use region_raw::region::Region;

pub mod queue;

// The word that ends the chain of runs.
const END: u32 = 0xFFFF_FFFF;

// Returns the offset in the region of an offset in a page.
fn index(page: usize, at: u32) -> usize
    requires few { page < most_pages_above }
    requires inside { at < page_bytes }
    ensures { result ≡ page_bytes * page + at }
{
    PAGE_BYTES as usize * page + at as usize
}

// Returns where the run after the one at an offset begins.
fn link(region: &Region, page: usize, at: u32) -> u32
    requires few { page < most_pages_above }
    requires inside { at + 8 ≤ page_bytes }
    requires there { is_open region.now page ≡ true }
    ensures { result ≡ word (page_of region.now page) at }
{
    region.word(index(page, at))
}

// Returns the length of the run at an offset.
fn len(region: &Region, page: usize, at: u32) -> u32
    requires few { page < most_pages_above }
    requires inside { at + 8 ≤ page_bytes }
    requires there { is_open region.now page ≡ true }
    ensures { result ≡ word (page_of region.now page) (at + 4) }
{
    region.word(index(page, at) + 4)
}

// Writes the two words of a run.
fn set(region: &mut Region, page: usize, at: u32, next: u32, n: u32)
    requires few { page < most_pages_above }
    requires inside { at + 8 ≤ page_bytes }
    requires whole { at % 8 ≡ 0 }
    requires there { is_open region.old page ≡ true }
    ensures next { word (page_of region.new page) at ≡ next }
    ensures len { word (page_of region.new page) (at + 4) ≡ n }
    ensures same { (d : ℕ) → (d ≡ at → ⊥)
        → Same (page_of region.old page) (page_of region.new page) d }
    ensures keeps { Keeps region.old page region.new }
{
    region.put_word(index(page, at), next);
    region.put_word(index(page, at + 4), n);
}

// Adds the bytes between two offsets, if there are any, before the queue at a third one.
fn put_run(region: &mut Region, page: usize, at: u32, stop: u32, next: u32) -> u32
    requires few { page < most_pages_above }
    requires there { is_open region.old page ≡ true }
    requires order { at ≤ stop }
    requires inside { stop ≤ page_bytes }
    requires whole { (at % 8 ≡ 0) × (stop % 8 ≡ 0) }
    ensures keeps { Keeps region.old page region.new }
    ensures same { (d : ℕ) → (d < at) ⊎ (stop ≤ d)
        → Same (page_of region.old page) (page_of region.new page) d }
    ensures queue { (rs : List Run) → Queue (stop + 1) (page_of region.old page) next rs
        → Adds at stop rs (page_of region.new page) result }
{
    if at < stop {
        set(region, page, at, next, stop - at);
        at
    } else {
        next
    }
}

// Makes all of an open page free, and gives its head.
fn start(region: &mut Region, page: usize) -> u32
    requires few { page < most_pages_above }
    requires there { is_open region.old page ≡ true }
    ensures keeps { Keeps region.old page region.new }
    ensures queue { Queue 0 (page_of region.new page) result
        (record { from = 0; len = page_bytes } ∷ []) }
{
    set(region, page, 0, END, PAGE_BYTES);
    0
}

// Makes all of an open page free but some bytes from an offset on, and gives its head.
fn start_around(region: &mut Region, page: usize, from: u32, n: u32) -> u32
    requires few { page < most_pages_above }
    requires there { is_open region.old page ≡ true }
    requires some { 0 < n }
    requires inside { from + n ≤ page_bytes }
    requires whole { (from % 8 ≡ 0) × (n % 8 ≡ 0) }
    ensures keeps { Keeps region.old page region.new }
    ensures same { (d : ℕ) → Within from n d
        → Same (page_of region.old page) (page_of region.new page) d }
    ensures queue { Takes 0 whole_page from n (page_of region.new page) result }
{
    let rest = put_run(region, page, from + n, PAGE_BYTES, END);
    put_run(region, page, 0, from, rest)
}

// Returns whether all of a page is free.
fn is_whole(region: &Region, page: usize, head: u32) -> bool
    requires few { page < most_pages_above }
    requires there { is_open region.now page ≡ true }
    ensures { (rs : List Run) → Queue 0 (page_of region.now page) head rs
        → IsTrue result ↔ ((d : ℕ) → d < page_bytes → IsFree rs d) }
{
    head == 0 && len(region, page, 0) == PAGE_BYTES
}

// Returns the first free run of a page that begins at or after an offset: where it begins, and its length.
fn next_free(region: &Region, page: usize, head: u32, from: u32) -> Option<(u32, u32)>
    requires few { page < most_pages_above }
    requires there { is_open region.now page ≡ true }
    requires inside { from ≤ page_bytes }
    requires queue { (rs : List Run) × Queue 0 (page_of region.now page) head rs }
    ensures { (rs : List Run) → Queue 0 (page_of region.now page) head rs
        → result ≡ place_of (next_run from rs) }
{
    let mut at = head;
    'runs: while at < from {
        at = link(region, page, at);
    }
    if at == END {
        None
    } else {
        Some((at, len(region, page, at)))
    }
}

// Removes bytes of the first free run from the queue: they are no longer free.
fn take_first(region: &mut Region, page: usize, head: u32, from: u32, n: u32) -> u32
    requires few { page < most_pages_above }
    requires there { is_open region.old page ≡ true }
    requires some { 0 < n }
    requires whole { (from % 8 ≡ 0) × (n % 8 ≡ 0) }
    requires queue { (lo : ℕ) × (rs : List Run) × Queue lo (page_of region.old page) head rs
        × Covers rs from n }
    requires near { from < head + word (page_of region.old page) (head + 4) }
    ensures keeps { Keeps region.old page region.new }
    ensures same { (lo : ℕ) (rs : List Run) → Queue lo (page_of region.old page) head rs
        → Covers rs from n → (d : ℕ) → (IsFree rs d → ⊥)
        → Same (page_of region.old page) (page_of region.new page) d }
    ensures queue { (lo : ℕ) (rs : List Run) → Queue lo (page_of region.old page) head rs
        → Covers rs from n → Takes lo rs from n (page_of region.new page) result }
{
    let next = link(region, page, head);
    let stop = head + len(region, page, head);
    let rest = put_run(region, page, from + n, stop, next);
    put_run(region, page, head, from, rest)
}

// Removes bytes of a later free run from the queue, which keeps its head. Of the runs before them only the last is written.
fn take_later(region: &mut Region, page: usize, head: u32, from: u32, n: u32)
    requires few { page < most_pages_above }
    requires there { is_open region.old page ≡ true }
    requires some { 0 < n }
    requires whole { (from % 8 ≡ 0) × (n % 8 ≡ 0) }
    requires queue { (lo : ℕ) × (rs : List Run) × Queue lo (page_of region.old page) head rs
        × Covers rs from n }
    requires far { head + word (page_of region.old page) (head + 4) ≤ from }
    ensures keeps { Keeps region.old page region.new }
    ensures same { (lo : ℕ) (rs : List Run) → Queue lo (page_of region.old page) head rs
        → Covers rs from n → (d : ℕ) → (IsFree rs d → ⊥)
        → Same (page_of region.old page) (page_of region.new page) d }
    ensures queue { (lo : ℕ) (rs : List Run) → Queue lo (page_of region.old page) head rs
        → Covers rs from n → Takes lo rs from n (page_of region.new page) head }
{
    let next = link(region, page, head);
    if next + len(region, page, next) <= from {
        take_later(region, page, next, from, n);
    } else {
        let rest = take_first(region, page, next, from, n);
        let own = len(region, page, head);
        set(region, page, head, rest, own);
    }
}

// Removes bytes of one free run from the queue: they are no longer free.
fn take(region: &mut Region, page: usize, head: u32, from: u32, n: u32) -> u32
    requires few { page < most_pages_above }
    requires there { is_open region.old page ≡ true }
    requires some { 0 < n }
    requires whole { (from % 8 ≡ 0) × (n % 8 ≡ 0) }
    requires queue { (lo : ℕ) × (rs : List Run) × Queue lo (page_of region.old page) head rs
        × Covers rs from n }
    ensures keeps { Keeps region.old page region.new }
    ensures same { (lo : ℕ) (rs : List Run) → Queue lo (page_of region.old page) head rs
        → Covers rs from n → (d : ℕ) → (IsFree rs d → ⊥)
        → Same (page_of region.old page) (page_of region.new page) d }
    ensures queue { (lo : ℕ) (rs : List Run) → Queue lo (page_of region.old page) head rs
        → Covers rs from n → Takes lo rs from n (page_of region.new page) result }
{
    if head + len(region, page, head) <= from {
        take_later(region, page, head, from, n);
        head
    } else {
        take_first(region, page, head, from, n)
    }
}

// Returns whether there is a first free run, and it ends before an offset and does not touch what begins there.
fn ends_before(region: &Region, page: usize, head: u32, from: u32) -> bool
    requires few { page < most_pages_above }
    requires there { is_open region.now page ≡ true }
    requires inside { from ≤ page_bytes }
    requires queue { (lo : ℕ) × (rs : List Run) × Queue lo (page_of region.now page) head rs }
    ensures run { IsTrue result → head + word (page_of region.now page) (head + 4) < from }
    ensures none { result ≡ false → head < from
        → from ≤ head + word (page_of region.now page) (head + 4) }
{
    head < from && head + len(region, page, head) < from
}

// Adds bytes that are not free before the first free run, or joins them with it: they are then free.
fn give_first(region: &mut Region, page: usize, head: u32, from: u32, n: u32) -> u32
    requires few { page < most_pages_above }
    requires there { is_open region.old page ≡ true }
    requires some { 0 < n }
    requires inside { from + n ≤ page_bytes }
    requires whole { (from % 8 ≡ 0) × (n % 8 ≡ 0) }
    requires queue { (lo : ℕ) × (rs : List Run) × (lo ≤ from)
        × Queue lo (page_of region.old page) head rs × NoneFree rs from n }
    requires near { head < from → from ≤ head + word (page_of region.old page) (head + 4) }
    ensures keeps { Keeps region.old page region.new }
    ensures same { (lo : ℕ) (rs : List Run) → lo ≤ from → Queue lo (page_of region.old page) head rs
        → NoneFree rs from n → (d : ℕ) → (IsFree rs d → ⊥) → (Within from n d → ⊥)
        → Same (page_of region.old page) (page_of region.new page) d }
    ensures queue { (lo : ℕ) (rs : List Run) → lo ≤ from
        → Queue lo (page_of region.old page) head rs → NoneFree rs from n
        → Gives lo rs from n (page_of region.new page) result }
{
    let stop = from + n;
    if stop < head {
        return put_run(region, page, from, stop, head);
    }
    let next = link(region, page, head);
    let end = head + len(region, page, head);
    if stop == head {
        return put_run(region, page, from, end, next);
    }
    give_first(region, page, next, head, stop - head)
}

// Adds bytes that are not free after the first free run, which is not adjacent: they are then free, and the queue keeps its head.
// Of the runs before them only the last is written.
fn give_later(region: &mut Region, page: usize, head: u32, from: u32, n: u32)
    requires few { page < most_pages_above }
    requires there { is_open region.old page ≡ true }
    requires some { 0 < n }
    requires inside { from + n ≤ page_bytes }
    requires whole { (from % 8 ≡ 0) × (n % 8 ≡ 0) }
    requires queue { (lo : ℕ) × (rs : List Run) × (lo ≤ from)
        × Queue lo (page_of region.old page) head rs × NoneFree rs from n }
    requires far { head + word (page_of region.old page) (head + 4) < from }
    ensures keeps { Keeps region.old page region.new }
    ensures same { (lo : ℕ) (rs : List Run) → lo ≤ from → Queue lo (page_of region.old page) head rs
        → NoneFree rs from n → (d : ℕ) → (IsFree rs d → ⊥) → (Within from n d → ⊥)
        → Same (page_of region.old page) (page_of region.new page) d }
    ensures queue { (lo : ℕ) (rs : List Run) → lo ≤ from
        → Queue lo (page_of region.old page) head rs → NoneFree rs from n
        → Gives lo rs from n (page_of region.new page) head }
{
    let next = link(region, page, head);
    if ends_before(region, page, next, from) {
        give_later(region, page, next, from, n);
    } else {
        let rest = give_first(region, page, next, from, n);
        let own = len(region, page, head);
        set(region, page, head, rest, own);
    }
}

// Adds bytes that are not free to the queue: they are then free, joined with adjacent free bytes.
fn give(region: &mut Region, page: usize, head: u32, from: u32, n: u32) -> u32
    requires few { page < most_pages_above }
    requires there { is_open region.old page ≡ true }
    requires some { 0 < n }
    requires inside { from + n ≤ page_bytes }
    requires whole { (from % 8 ≡ 0) × (n % 8 ≡ 0) }
    requires queue { (lo : ℕ) × (rs : List Run) × (lo ≤ from)
        × Queue lo (page_of region.old page) head rs × NoneFree rs from n }
    ensures keeps { Keeps region.old page region.new }
    ensures same { (lo : ℕ) (rs : List Run) → lo ≤ from → Queue lo (page_of region.old page) head rs
        → NoneFree rs from n → (d : ℕ) → (IsFree rs d → ⊥) → (Within from n d → ⊥)
        → Same (page_of region.old page) (page_of region.new page) d }
    ensures queue { (lo : ℕ) (rs : List Run) → lo ≤ from
        → Queue lo (page_of region.old page) head rs → NoneFree rs from n
        → Gives lo rs from n (page_of region.new page) result }
{
    if ends_before(region, page, head, from) {
        give_later(region, page, head, from, n);
        head
    } else {
        give_first(region, page, head, from, n)
    }
}
