//! How many bytes the parts of pools take.

ghost use Rattle.std.specs.Prelude.{◌≡◌, ◌≢◌, ◌<◌, ◌*◌, ℕ, Some, true};
ghost use Rattle.slab.specs.Slab.{get as slab_get};
ghost use Rattle.mvs_model.specs.Finite.{any_below, count_below};
ghost use Rattle.mvs_model.specs.Storage.{end_of};
ghost use Rattle.mvs_model.specs.View.{IsBounded};
ghost use Rattle.cell_pool.specs.Layout.{byte_of};
ghost use Rattle.cell_pool.specs.Release.{in_first};
ghost use Rattle.cell_pool.specs.Report.{is_in_entry, AreApart};
ghost use Rattle.cell_pool.specs.Walk.{IsChain};
ghost use Rattle.cell_pool.specs.declared.entry.PoolEntry.{PoolEntry as TheEntry};

use crate::entry::{PoolEntry, has_none};
use crate::root::Root;
use crate::walk::length_of;
use crate::words::read_header;
use mvs_model::subpool::SubpoolId;
use slab::Slab;
use subpool_store::Store;

// Returns how many bytes the parts of a pool take.
fn bytes_of(store: &Store, root: &Root) -> u32
    requires chain { IsChain store.now.storage root.now }
    requires bounded { IsBounded store.now.storage.regions }
    ensures { result
        ≡ 8 * count_below (end_of store.now.storage.regions)
        (in_first (byte_of store.now.storage) root.now root.now.count) }
{
    let mut part = root.first();
    let mut bytes = 0;
    'walk: for number in 0..root.count() {
        let header = read_header(store, part);
        bytes += length_of(root.cell_size(), header.count);
        part = header.next;
    }
    bytes
}

// Returns how many bytes the parts of the pool at a key take, where it is one of the subpool.
fn bytes_at(entries: &Slab<PoolEntry>, store: &Store, key: usize, subpool: SubpoolId) -> u32
    requires chains { (k : ℕ) (x : TheEntry) → slab_get entries.now k ≡ Some x
        → IsChain store.now.storage x.root }
    requires bounded { IsBounded store.now.storage.regions }
    ensures { result
        ≡ 8 * count_below (end_of store.now.storage.regions)
        (is_in_entry (byte_of store.now.storage) subpool (slab_get entries.now key)) }
{
    let Some(entry) = entries.get(key) else {
        return 0;
    };
    if !entry.root.is_of(subpool) {
        return 0;
    }
    bytes_of(store, &entry.root)
}

// Returns how many bytes the parts of the subpool's pools take.
pub(crate) fn bytes_in(entries: &Slab<PoolEntry>, store: &Store, subpool: SubpoolId) -> u32
    requires chains { (k : ℕ) (x : TheEntry) → slab_get entries.now k ≡ Some x
        → IsChain store.now.storage x.root }
    requires bounded { IsBounded store.now.storage.regions }
    requires apart { AreApart (byte_of store.now.storage) subpool (slab_get entries.now) }
    ensures bytes { result
        ≡ 8 * count_below (end_of store.now.storage.regions)
        (λ d. any_below
        (λ k. is_in_entry (byte_of store.now.storage) subpool (slab_get entries.now k) d)
        entries.now.capacity) }
    ensures low { (k : ℕ) (x : TheEntry) → slab_get entries.now k ≡ Some x
        → k < entries.now.capacity }
{
    if has_none(entries) {
        return 0;
    }
    let mut bytes = 0;
    for key in 0..entries.capacity() {
        bytes += bytes_at(entries, store, key, subpool);
    }
    bytes
}
