//! What is kept of the pools, by their names.

ghost use Rattle.std.specs.Prelude.{◌≡◌, ◌≢◌, ◌<◌, ◌≤◌, ℕ, not, true, false, Some, None, IsSome, MatchOption};
ghost use Rattle.std.specs.FinMap.{get};
ghost use Rattle.slab.specs.Slab.{get as slab_get, slab_len, Updates};
ghost use Rattle.mvs_model.specs.Finite.{has, kept};
ghost use Rattle.mvs_model.specs.NextName.{is_before, IsAfter};
ghost use Rattle.mvs_model.specs.Storage.{is_one_of};
ghost use Rattle.cell_pool.specs.declared.entry.PoolEntry.{PoolEntry};

use crate::root::Root;
use mvs_model::name::Name;
use mvs_model::next_name::first_of;
use mvs_model::subpool_set::SubpoolSet;
use slab::Slab;

// What is kept of a pool, with its name.
#[derive(Clone, Copy)]
pub(crate) struct PoolEntry {
    pub(crate) name: Name,
    pub(crate) root: Root,
}

// Returns whether no pool is kept.
pub(crate) fn has_none(entries: &Slab<PoolEntry>) -> bool
    ensures { result ≡ true → (k : ℕ) → slab_get entries.now k ≡ None }
{
    entries.is_empty()
}

// Returns the key of the pool of this name.
pub(crate) fn find_key(entries: &Slab<PoolEntry>, name: Name) -> Option<usize>
    ensures { MatchOption result
        ((k : ℕ) (x : PoolEntry) → slab_get entries.now k ≡ Some x → x.name ≢ name)
        (λ k. (x : PoolEntry) × (slab_get entries.now k ≡ Some x) × (x.name ≡ name)) }
{
    for key in 0..entries.capacity() {
        if let Some(entry) = entries.get(key) {
            if entry.name == name {
                return Some(key);
            }
        }
    }
    None
}

// Returns what is kept of the pool of this name.
pub(crate) fn find(entries: &Slab<PoolEntry>, name: Name) -> Option<Root>
    ensures { MatchOption result
        ((k : ℕ) (x : PoolEntry) → slab_get entries.now k ≡ Some x → x.name ≢ name)
        (λ r. (k : ℕ) × (x : PoolEntry) × (slab_get entries.now k ≡ Some x) × (x.name ≡ name)
        × (x.root ≡ r)) }
{
    for key in 0..entries.capacity() {
        if let Some(entry) = entries.get(key) {
            if entry.name == name {
                return Some(entry.root);
            }
        }
    }
    None
}

// Returns the first name of a pool in byte order after the given one.
pub(crate) fn find_next(entries: &Slab<PoolEntry>, given: &Option<Name>) -> Option<Name>
    ensures { MatchOption result
        ((k : ℕ) (x : PoolEntry) → slab_get entries.now k ≡ Some x → IsAfter x.name given.now → ⊥)
        (λ next. ((k : ℕ) × (x : PoolEntry) × (slab_get entries.now k ≡ Some x)
        × (x.name ≡ next) × IsAfter next given.now)
        × ((k : ℕ) (x : PoolEntry) → slab_get entries.now k ≡ Some x
        → IsAfter x.name given.now → is_before x.name next ≡ false)) }
{
    let mut next = None;
    for key in 0..entries.capacity() {
        if let Some(entry) = entries.get(key) {
            next = first_of(next, entry.name, given);
        }
    }
    next
}

// Keeps something else of the pool at a key.
pub(crate) fn set_root(entries: &mut Slab<PoolEntry>, key: usize, root: Root)
    requires there { IsSome (slab_get entries.old key) }
    ensures changed { (x : PoolEntry) → slab_get entries.old key ≡ Some x
        → slab_get entries.new key ≡ Some (record x { root = root }) }
    ensures others { (k : ℕ) → k ≢ key → slab_get entries.new k ≡ slab_get entries.old k }
    ensures len { slab_len entries.new ≡ slab_len entries.old }
    ensures capacity { entries.new.capacity ≡ entries.old.capacity }
{
    match entries.get_mut(key) {
        Some(entry) => entry.root = root,
        None => unreachable!(),
    }
}

// Removes the entry at a key.
pub(crate) fn remove(entries: &mut Slab<PoolEntry>, key: usize)
    ensures removed { Updates entries.old entries.new key None }
    ensures len { slab_len entries.new ≤ slab_len entries.old }
    ensures capacity { entries.new.capacity ≡ entries.old.capacity }
{
    let _ = entries.try_remove(key);
}

// Returns whether the pool at a key is of a subpool of the set.
pub(crate) fn is_of_one(entries: &Slab<PoolEntry>, key: usize, subpools: &SubpoolSet) -> bool
    ensures { result
        ≡ has (λ (x : PoolEntry). is_one_of subpools.now x.root.subpool) (slab_get entries.now key) }
{
    match entries.get(key) {
        Some(entry) => subpools.contains(entry.root.subpool),
        None => false,
    }
}

// Removes the entries of the pools of a set of subpools.
pub(crate) fn remove_each(entries: &mut Slab<PoolEntry>, subpools: &SubpoolSet)
    ensures kept { (k : ℕ)
        → slab_get entries.new k
        ≡ kept (λ (x : PoolEntry). not (is_one_of subpools.now x.root.subpool))
        (slab_get entries.old k) }
    ensures len { slab_len entries.new ≤ slab_len entries.old }
    ensures capacity { entries.new.capacity ≡ entries.old.capacity }
{
    if has_none(entries) {
        return;
    }
    for key in 0..entries.capacity() {
        if is_of_one(entries, key, subpools) {
            remove(entries, key);
        }
    }
}
