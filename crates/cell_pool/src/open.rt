//! The search for a free cell.

ghost use Rattle.std.specs.Prelude.{◌≡◌, ◌<◌, ◌≤◌, ◌+◌, ◌-◌, ◌*◌, ◌/◌, ◌%◌, ◌^◌, ◌==◌, ℕ, true, false, Some, MatchOption, length, slice_index};
ghost use Rattle.std.specs.Int.{bit_at};
ghost use Rattle.mvs_model.specs.Finite.{count_below};
ghost use Rattle.mvs_model.specs.Storage.{AllHeld};
ghost use Rattle.mvs_model.specs.Place.{place_at};
ghost use Rattle.mvs_model.specs.Pools.{IsFreeCell};
ghost use Rattle.cell_pool.specs.Agree.{IsCounted};
ghost use Rattle.cell_pool.specs.Layout.{byte_of, count_at, flag, head_length, taken_at};
ghost use Rattle.cell_pool.specs.Roots.{pool_of};
ghost use Rattle.cell_pool.specs.Walk.{IsChain, IsFreeAt};

use crate::root::Root;
use crate::walk::{FreeCell, find_untaken};
use crate::words::{is_set, read_header};
use mvs_model::place::{Addr, Place};
use subpool_store::Store;

// Returns eight bytes from an index on as one number.
fn eight_bytes(bytes: &[u8], at: usize) -> u64
    requires { at + 8 ≤ length bytes.now }
    ensures { result ≡ 2 ^ 64 - 1 → (k : ℕ) → at ≤ k → k < at + 8 → slice_index bytes.now k ≡ 255 }
{
    u64::from_be_bytes([
        bytes[at],
        bytes[at + 1],
        bytes[at + 2],
        bytes[at + 3],
        bytes[at + 4],
        bytes[at + 5],
        bytes[at + 6],
        bytes[at + 7],
    ])
}

// Returns the number of bytes at the front with all bits set, found in whole words of eight bytes.
fn full_words(bytes: &[u8]) -> usize
    requires { length bytes.now ≤ 65536 / 8 }
    ensures within { result ≤ length bytes.now }
    ensures full { (k : ℕ) → k < result → slice_index bytes.now k ≡ 255 }
{
    let mut at = 0;
    'words: for _word in 0..bytes.len() / 8 {
        if eight_bytes(bytes, at) != u64::MAX {
            return at;
        }
        at += 8;
    }
    at
}

// Returns how many bytes at the front have all their bits set: whole words first, then single bytes.
fn full_front(bytes: &[u8]) -> usize
    requires { length bytes.now ≤ 65536 / 8 }
    ensures within { result ≤ length bytes.now }
    ensures full { (k : ℕ) → k < result → slice_index bytes.now k ≡ 255 }
{
    for index in full_words(bytes)..bytes.len() {
        if bytes[index] != 0xFF {
            return index;
        }
    }
    bytes.len()
}

// Returns the first bit of a byte, from the high one on, that is not set.
fn clear_bit(byte: u8) -> Option<u32>
    ensures { MatchOption result ((i : ℕ) → i < 8 → (bit_at byte (7 - i) == 1) ≡ true)
        (λ at. (at < 8) × ((bit_at byte (7 - at) == 1) ≡ false)
        × ((i : ℕ) → i < at → (bit_at byte (7 - i) == 1) ≡ true)) }
{
    for bit in 0..8u32 {
        if !is_set(byte, bit) {
            return Some(bit);
        }
    }
    None
}

// Returns the first bit of some bytes that is not set.
fn first_clear(bytes: &[u8]) -> Option<u32>
    requires { length bytes.now ≤ 65536 / 8 }
    ensures { MatchOption result
        ((i : ℕ) → i < 8 * length bytes.now
        → (bit_at (slice_index bytes.now (i / 8)) (7 - i % 8) == 1) ≡ true)
        (λ at. (at < 8 * length bytes.now)
        × ((bit_at (slice_index bytes.now (at / 8)) (7 - at % 8) == 1) ≡ false)
        × ((i : ℕ) → i < at
        → (bit_at (slice_index bytes.now (i / 8)) (7 - i % 8) == 1) ≡ true)) }
{
    for index in full_front(bytes)..bytes.len() {
        if let Some(bit) = clear_bit(bytes[index]) {
            return Some(8 * index as u32 + bit);
        }
    }
    None
}

// Returns the first free cell of a part that has one.
fn first_free(store: &Store, part: u32, count: u32) -> u32
    requires low { part + 16 < 2 ^ 31 }
    requires count { count ≡ count_at (byte_of store.now.storage) part }
    requires few { count ≤ 65536 }
    requires some { 1 ≤ count }
    requires held { AllHeld store.now.storage (place_at (part + 16) (8 * ((count + 63) / 64))) }
    requires free { count_below count (flag (byte_of store.now.storage) part) < count }
    ensures within { result < count }
    ensures clear { flag (byte_of store.now.storage) part result ≡ false }
{
    let flags = store.bytes(Place::new(Addr::new(part + 16), 8 * ((count + 63) / 64)));
    match first_clear(flags) {
        Some(cell) => cell,
        None => unreachable!(),
    }
}

// Returns the first free cell of the earliest part that has one, where some cell is free.
fn find_free(store: &Store, root: &Root) -> FreeCell
    requires chain { IsChain store.now.storage root.now }
    requires counted { IsCounted (byte_of store.now.storage) root.now }
    requires free { 1 ≤ root.now.free }
    ensures free { IsFreeAt store.now.storage root.now result.part result.cell result.taken
        result.open_part }
    ensures count { result.count ≡ count_at (byte_of store.now.storage) result.part }
{
    let mut part = root.open_part();
    'walk: for step in 0..root.count() {
        let header = read_header(store, part);
        if header.taken < header.count {
            return FreeCell {
                part,
                cell: first_free(store, part, header.count),
                count: header.count,
                taken: header.taken,
                open_part: part,
            };
        }
        part = header.next;
    }
    unreachable!()
}

// Returns a free cell of a pool that has one: the one at the hinted address if it is free, else the first of the earliest part that
// has one.
pub(crate) fn find_spot(store: &Store, root: &Root, hint: Option<Addr>) -> FreeCell
    requires chain { IsChain store.now.storage root.now }
    requires counted { IsCounted (byte_of store.now.storage) root.now }
    requires free { 1 ≤ root.now.free }
    ensures free { IsFreeAt store.now.storage root.now result.part result.cell result.taken
        result.open_part }
    ensures count { result.count ≡ count_at (byte_of store.now.storage) result.part }
    ensures hint { (a : ℕ) → hint ≡ Some a
        → IsFreeCell (pool_of (byte_of store.now.storage) root.now) a
        → a ≡ result.part + head_length result.count + result.cell * root.now.cell_size }
{
    let Some(hint) = hint else {
        return find_free(store, root);
    };
    match find_untaken(store, root, hint.get()) {
        Some(spot) => spot,
        None => find_free(store, root),
    }
}
