//! Laying out a part.

ghost use Rattle.std.specs.Prelude.{◌≡◌, ◌+◌, ◌<◌, ◌≤◌, ◌^◌, ℕ, Some, MatchOption};
ghost use Rattle.mvs_model.specs.Place.{PlaceValue, place_at};
ghost use Rattle.mvs_model.specs.Storage.{AllHeld, Chosen, Grant, IsStorage, NoPlace, holder};
ghost use Rattle.mvs_model.specs.Pools.{part_length, part_want};
ghost use Rattle.mvs_model.specs.View.{IsBounded};
ghost use Rattle.cell_pool.specs.Layout.{head_length};
ghost use Rattle.cell_pool.specs.Laying.{LaysOut, PutsWord, IsEquivalentWant};

use crate::walk::bytes_before;
use crate::words::{fill, put};
use mvs_model::bounded::{CellCount, CellSize, Exponent, Length};
use mvs_model::numbers::{LAST_ADDRESS, LEAST_EXPONENT};
use mvs_model::place::{Addr, Place};
use mvs_model::subpool::SubpoolId;
use mvs_model::want::{Side, Want};
use subpool_store::Store;

// Returns how long a part is.
fn part_bytes(size: u32, count: u32) -> u64
    requires size { size ≤ 65536 }
    requires count { count ≤ 65536 }
    ensures { result ≡ part_length size count }
{
    let cells = u64::from(count) * u64::from(size);
    16 + 8 * u64::from((count + 63) / 64) + (cells + 7) / 8 * 8
}

/// Returns the requirements for a part with a number of cells of a size. A length that no region has is replaced by a shorter one
/// that none has either.
pub fn part_want(size: CellSize, count: CellCount, side: Side) -> Want
    ensures { IsEquivalentWant (part_want size count side) result }
{
    let bytes = part_bytes(size.get(), count.get());
    let length = bytes.min(u64::from(LAST_ADDRESS / 8 * 8));
    Want::fixed(
        Length::new(length as u32),
        Exponent::new(LEAST_EXPONENT),
        side,
    )
}

// Returns where a part begins whose first cell is at the hinted address.
fn part_at_hint(hint: Option<Addr>, count: CellCount) -> Option<Addr>
    ensures { (a : ℕ) → hint ≡ Some (a + head_length count) → result ≡ Some a }
{
    let first = hint?;
    let before = bytes_before(count.get());
    if first.get() < before {
        return None;
    }
    Some(Addr::new(first.get() - before))
}

// Obtains storage for a part with its first cell at the hinted address, if the machine allows that.
pub(crate) fn obtain_part(
    store: &mut Store,
    subpool: SubpoolId,
    size: CellSize,
    count: CellCount,
    side: Side,
    hint: Option<Addr>,
) -> Option<Place>
    requires { IsBounded store.old.storage.regions }
    ensures obtained { MatchOption result
        (NoPlace store.old.storage.regions (holder store.old.storage) subpool
        (part_want size count side) × (store.new.storage ≡ store.old.storage))
        (λ p. Grant store.old.storage subpool (part_want size count side) p store.new.storage
        × IsStorage store.new.storage) }
    ensures hint { (q : PlaceValue) → hint ≡ Some (q.addr + head_length count)
        → Chosen store.old.storage.regions (holder store.old.storage) subpool
        (part_want size count side) q → result ≡ Some q }
{
    let bytes = part_bytes(size.get(), count.get());
    if bytes > u64::from(LAST_ADDRESS) {
        return None;
    }
    let want = Want::fixed(
        Length::new(bytes as u32),
        Exponent::new(LEAST_EXPONENT),
        side,
    );
    store.obtain(subpool, &want, part_at_hint(hint, count))
}

// Writes a word.
pub(crate) fn put_word(store: &mut Store, addr: u32, word: u32)
    requires low { addr < 2 ^ 31 }
    requires held { AllHeld store.old.storage (place_at addr 4) }
    ensures { PutsWord store.old.storage addr word store.new.storage }
{
    put(store, addr, &word.to_be_bytes());
}

// Lays out a last part with a number of cells of a size, none of them taken.
pub(crate) fn lay_out(store: &mut Store, part: u32, count: u32, size: u32)
    requires low { part + head_length count ≤ 2 ^ 31 }
    requires few { count ≤ 65536 }
    requires some { 1 ≤ count }
    requires held { AllHeld store.old.storage (place_at part (head_length count)) }
    ensures { LaysOut store.old.storage part count size store.new.storage }
{
    put_word(store, part, 0);
    put_word(store, part + 4, count);
    put_word(store, part + 8, 0);
    put_word(store, part + 12, size);
    fill(
        store,
        Place::new(Addr::new(part + 16), 8 * ((count + 63) / 64)),
        0,
    );
}
