//! Walks along the parts of a pool.

ghost use Rattle.std.specs.Prelude.{◌≡◌, ◌<◌, ◌≤◌, ◌+◌, ◌*◌, ◌^◌, ◌==◌, ◌||◌, ℕ, true, false, IfSome, MatchOption, MatchBool};
ghost use Rattle.std.specs.FinSet as set;
ghost use Rattle.mvs_model.specs.Storage.{AllHeld, has_address};
ghost use Rattle.mvs_model.specs.Place.{place_at};
ghost use Rattle.mvs_model.specs.Pools.{IsCell, IsFreeCell, in_taken, part_length};
ghost use Rattle.mvs_model.specs.Reasons.{IsSpot};
ghost use Rattle.cell_pool.specs.Agree.{IsCounted};
ghost use Rattle.cell_pool.specs.Layout.{byte_of, count_at, flag, head_length};
ghost use Rattle.cell_pool.specs.Roots.{is_taken, part_addr, part_of, pool_of, taken_of};
ghost use Rattle.cell_pool.specs.Walk.{IsChain, IsFreeAt, IsPartAt, IsTakenAt, Meets};

use crate::root::Root;
use crate::words::{flag, read_header};
use mvs_model::place::{Addr, Place};
use mvs_model::reason::CellPosition;
use subpool_store::Store;

// A part of a pool: its address, how many cells it has, how many of them are taken, and whether the open part is this one
// or one before it.
#[derive(Clone, Copy)]
struct FoundCell {
    part: u32,
    count: u32,
    taken: u32,
    past: bool,
}

// A taken cell: its part's address, its number, how many cells of the part are taken, and whether the open part is this part
// or one before it.
#[derive(Clone, Copy)]
pub(crate) struct TakenCell {
    pub(crate) part: u32,
    pub(crate) cell: u32,
    pub(crate) taken: u32,
    pub(crate) past: bool,
}

// A free cell: its part's address, its number, how many cells the part has, and how many of them are taken; and the address of a
// part before which all parts are full.
#[derive(Clone, Copy)]
pub(crate) struct FreeCell {
    pub(crate) part: u32,
    pub(crate) cell: u32,
    pub(crate) count: u32,
    pub(crate) taken: u32,
    pub(crate) open_part: u32,
}

// A cell: its part, as above, and its number.
#[derive(Clone, Copy)]
struct Begun {
    part: u32,
    cell: u32,
    count: u32,
    taken: u32,
    past: bool,
}

// Returns the number of bytes before the cells of a part.
pub(crate) fn bytes_before(count: u32) -> u32
    requires { count ≤ 65536 }
    ensures { result ≡ head_length count }
{
    16 + 8 * ((count + 63) / 64)
}

// Returns how long a part is.
pub(crate) fn length_of(size: u32, count: u32) -> u32
    requires few { count ≤ 65536 }
    requires short { part_length size count ≤ 0x3000000 }
    ensures { result ≡ part_length size count }
{
    bytes_before(count) + (count * size + 7) / 8 * 8
}

// Returns whether a number of bytes from an address on include another address.
fn is_in(from: u32, len: u32, addr: u32) -> bool
    ensures { result ≡ has_address (place_at from len) addr }
{
    from <= addr && addr - from < len
}

// Returns whether the open part is the one at the address, or was met before.
fn is_past(past: bool, part: u32, root: &Root) -> bool
    ensures { result ≡ ((part == root.now.open_part) || past) }
{
    part == root.open_part() || past
}

// Returns the part of the pool that has the address.
fn find_part(store: &Store, root: &Root, addr: u32) -> Option<FoundCell>
    requires { IsChain store.now.storage root.now }
    ensures { MatchOption result
        ((j : ℕ) → j < root.now.count
        → has_address (part_of (byte_of store.now.storage) root.now j).place addr ≡ false)
        (λ f. IsPartAt store.now.storage root.now f.part f.count f.taken f.past
        × (has_address (place_at f.part (part_length root.now.cell_size f.count)) addr
        ≡ true)) }
{
    let mut part = root.first();
    let mut past = false;
    'walk: for number in 0..root.count() {
        let header = read_header(store, part);
        past = is_past(past, part, root);
        if is_in(part, length_of(root.cell_size(), header.count), addr) {
            return Some(FoundCell {
                part,
                count: header.count,
                taken: header.taken,
                past,
            });
        }
        part = header.next;
    }
    None
}

// Returns the number of the cell of a part that begins at the address.
fn cell_number(first: u32, size: u32, count: u32, addr: u32) -> Option<u32>
    requires some { 1 ≤ size }
    ensures { MatchOption result
        ((i : ℕ) → i < count → addr ≡ first + i * size → ⊥)
        (λ i. (i < count) × (addr ≡ first + i * size)) }
{
    if addr < first {
        return None;
    }
    let cell = (addr - first) / size;
    if cell >= count {
        return None;
    }
    if (addr - first) % size != 0 {
        return None;
    }
    Some(cell)
}

// Returns the cell of the pool that begins at the address, taken or not.
fn find_begun(store: &Store, root: &Root, addr: u32) -> Option<Begun>
    requires { IsChain store.now.storage root.now }
    ensures { MatchOption result
        (IsCell (pool_of (byte_of store.now.storage) root.now) addr → ⊥)
        (λ b. IsPartAt store.now.storage root.now b.part b.count b.taken b.past
        × (has_address (place_at b.part (part_length root.now.cell_size b.count)) addr ≡ true)
        × (b.cell < b.count)
        × (addr ≡ b.part + head_length b.count + b.cell * root.now.cell_size)) }
{
    let found = find_part(store, root, addr)?;
    let first = found.part + bytes_before(found.count);
    let cell = cell_number(first, root.cell_size(), found.count, addr)?;
    Some(Begun {
        part: found.part,
        cell,
        count: found.count,
        taken: found.taken,
        past: found.past,
    })
}

// Returns the allocated cell of the pool that begins at the address.
pub(crate) fn find_taken(store: &Store, root: &Root, addr: u32) -> Option<TakenCell>
    requires { IsChain store.now.storage root.now }
    ensures { MatchOption result
        (is_taken (byte_of store.now.storage) root.now addr ≡ false)
        (λ s. IsTakenAt store.now.storage root.now s.part s.cell s.taken s.past addr) }
{
    let begun = find_begun(store, root, addr)?;
    if !flag(store, begun.part, begun.cell) {
        return None;
    }
    Some(TakenCell {
        part: begun.part,
        cell: begun.cell,
        taken: begun.taken,
        past: begun.past,
    })
}

// Returns the free cell of the pool that begins at the address.
pub(crate) fn find_untaken(store: &Store, root: &Root, addr: u32) -> Option<FreeCell>
    requires chain { IsChain store.now.storage root.now }
    requires counted { IsCounted (byte_of store.now.storage) root.now }
    ensures { MatchOption result
        (IsFreeCell (pool_of (byte_of store.now.storage) root.now) addr → ⊥)
        (λ s. IsFreeAt store.now.storage root.now s.part s.cell s.taken s.open_part
        × (s.count ≡ count_at (byte_of store.now.storage) s.part)
        × (addr ≡ s.part + head_length s.count + s.cell * root.now.cell_size)) }
{
    let begun = find_begun(store, root, addr)?;
    if flag(store, begun.part, begun.cell) {
        return None;
    }
    Some(FreeCell {
        part: begun.part,
        cell: begun.cell,
        count: begun.count,
        taken: begun.taken,
        open_part: root.open_part(),
    })
}

// Returns the number of the cell that has the address, if the part has that many.
fn cell_with(first: u32, size: u32, count: u32, addr: u32) -> Option<u32>
    requires some { 1 ≤ size }
    ensures { MatchOption result
        ((i : ℕ) → i < count → first + i * size ≤ addr → addr < first + i * size + size → ⊥)
        (λ i. (i < count) × (first + i * size ≤ addr) × (addr < first + i * size + size)) }
{
    if addr < first {
        return None;
    }
    let cell = (addr - first) / size;
    if cell >= count {
        return None;
    }
    Some(cell)
}

// Returns where the cell of the pool begins that has the address.
fn begin_of_cell(store: &Store, root: &Root, addr: u32) -> Option<u32>
    requires { IsChain store.now.storage root.now }
    ensures cell { MatchOption result
        ((first : ℕ) → IsCell (pool_of (byte_of store.now.storage) root.now) first → first ≤ addr
        → addr < first + root.now.cell_size → ⊥)
        (λ first. IsCell (pool_of (byte_of store.now.storage) root.now) first × (first ≤ addr)
        × (addr < first + root.now.cell_size)) }
    ensures low { IfSome result (λ first. first < 2 ^ 31) }
{
    let found = find_part(store, root, addr)?;
    let first = found.part + bytes_before(found.count);
    let size = root.cell_size();
    let cell = cell_with(first, size, found.count, addr)?;
    Some(first + cell * size)
}

// Returns where an address is, if no taken cell of the pool begins there.
pub(crate) fn spot_of(store: &Store, root: &Root, addr: Addr) -> CellPosition
    requires chain { IsChain store.now.storage root.now }
    requires untaken { set.contains (taken_of (byte_of store.now.storage) root.now) addr ≡ false }
    ensures { IsSpot (pool_of (byte_of store.now.storage) root.now) addr result }
{
    let Some(first) = begin_of_cell(store, root, addr.get()) else {
        return CellPosition::Elsewhere;
    };
    if first == addr.get() {
        return CellPosition::Untaken;
    }
    CellPosition::Inside(Addr::new(first))
}

// Returns the allocated cell of the pool that has the address.
pub(crate) fn cell_round(store: &Store, root: &Root, addr: u32) -> Option<Place>
    requires { IsChain store.now.storage root.now }
    ensures { MatchOption result
        (in_taken (pool_of (byte_of store.now.storage) root.now) addr ≡ false)
        (λ p. (set.contains (taken_of (byte_of store.now.storage) root.now) p.addr ≡ true)
        × (p.len ≡ root.now.cell_size) × (has_address p addr ≡ true)) }
{
    let found = find_part(store, root, addr)?;
    let first = found.part + bytes_before(found.count);
    let size = root.cell_size();
    let cell = cell_with(first, size, found.count, addr)?;
    if !flag(store, found.part, cell) {
        return None;
    }
    Some(Place::new(Addr::new(first + cell * size), size))
}

// Returns whether two ranges of bytes overlap.
fn overlaps(from: u32, len: u32, other: u32, other_len: u32) -> bool
    requires one { from + len < 2 ^ 32 }
    requires two { other + other_len < 2 ^ 32 }
    ensures { MatchBool result
        ((from < other + other_len) × (other < from + len))
        ((from < other + other_len) → (other < from + len) → ⊥) }
{
    from < other + other_len && other < from + len
}

// Returns whether a part of the pool has a doubleword of the place.
pub(crate) fn meets(store: &Store, root: &Root, place: Place) -> bool
    requires { IsChain store.now.storage root.now }
    ensures { MatchBool result (Meets store.now.storage root.now place)
        (Meets store.now.storage root.now place → ⊥) }
{
    let mut part = root.first();
    'walk: for number in 0..root.count() {
        let header = read_header(store, part);
        let len = length_of(root.cell_size(), header.count);
        if overlaps(part, len, place.addr().get(), place.len()) {
            return true;
        }
        part = header.next;
    }
    false
}
