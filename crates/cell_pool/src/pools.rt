//! The cell pools of a step.

ghost use Rattle.std.specs.Prelude.{◌≡◌, ◌<◌, ◌≤◌, ◌+◌, ◌-◌, ◌*◌, ◌^◌, ◌==◌, ℕ, nat_le, not, Some, None, IsSome, true, false, IfOk, IfErr, OnOk, OnErr, MatchOption, MatchBool, if◌then◌else◌};
ghost use Rattle.slab.specs.Slab.{get as slab_get};
ghost use Rattle.mvs_model.specs.Pools.{Pool, in_taken};
ghost use Rattle.mvs_model.specs.Place.{place_at};
ghost use Rattle.cell_pool.specs.Layout.{byte_of, count_at, head_length};
ghost use Rattle.cell_pool.specs.Marks.{Marks};
ghost use Rattle.cell_pool.specs.Walk.{Fills, IsChain, IsFreeAt, IsTakenAt, Meets};
ghost use Rattle.cell_pool.specs.declared.entry.PoolEntry.{PoolEntry as TheEntry};
ghost use Rattle.std.specs.FinMap.{get, empty, len, contains_key};
ghost use Rattle.mvs_model.specs.Name.{same_name};
ghost use Rattle.mvs_model.specs.LastPart.{IsNewest};
ghost use Rattle.mvs_model.specs.NextName.{IsNextName};
ghost use Rattle.mvs_model.specs.Numbers.{most_pools};
ghost use Rattle.mvs_model.specs.Finite.{Keeps};
ghost use Rattle.cell_pool.specs.Building.{Builds, causes_of_build};
ghost use Rattle.mvs_model.specs.Causes.{Refused};
ghost use Rattle.mvs_model.specs.declared.name.Name.{Name as TheName};
ghost use Rattle.mvs_model.specs.declared.request.Reply.TheVariants.{Cell, Rc0};
ghost use Rattle.mvs_model.specs.declared.request.Request.TheVariants as request;
ghost use Rattle.mvs_model.specs.Owners.{Owners};
ghost use Rattle.mvs_model.specs.Reports.{bytes_held};
ghost use Rattle.mvs_model.specs.View.{state_of};
ghost use Rattle.mvs_model.specs.Storage.{Covers, Storage, has_address, is_one_of};
ghost use Rattle.cell_pool.specs.Cells.{HasPart, HasPartOf, IsSupply, IsTakenCell, Touches, TouchesNone};
ghost use Rattle.mvs_model.specs.Reasons.{IsSpot};
ghost use Rattle.std.specs.FinSet as set;
ghost use Rattle.mvs_model.specs.State.{in_cell};
ghost use Rattle.mvs_model.specs.Steps.{Tries};
ghost use Rattle.mvs_model.specs.Requests.{new_pool};
ghost use Rattle.cell_pool.specs.Roots.{extended, pool_of, pools_of, taken_of};
ghost use Rattle.cell_pool.specs.Agree.{Agree};
ghost use Rattle.cell_pool.specs.Entries.{IsAmong};
ghost use Rattle.cell_pool.specs.Extended.{Extended, MayAdd, NoRoom};
ghost use Rattle.cell_pool.specs.Hints.{CellFollowsHint, PartFollowsHint};
ghost use Rattle.mvs_model.specs.Place.{PlaceValue};

use crate::copying::copy_entries;
use crate::entry::{PoolEntry, find, find_key, find_next, has_none, remove, remove_each, set_root};
use crate::laying::{lay_out, obtain_part, put_word};
use crate::newest::newest_of;
use crate::open::find_spot;
use crate::plan::Plan;
use crate::release::release_parts;
use crate::report::bytes_in;
use crate::root::Root;
use crate::take::take;
use crate::walk::{FreeCell, TakenCell, cell_round, find_taken, meets, spot_of};
use crate::words::{byte, mark};
use mvs_model::bounded::{CellCount, CellSize};
use mvs_model::error::OutOfMemory;
use mvs_model::name::Name;
use mvs_model::numbers::MOST_POOLS;
use mvs_model::place::{Addr, Place};
use mvs_model::reason::CellPosition;
use mvs_model::refusal::Refusal;
use mvs_model::report::LastPart;
use mvs_model::subpool::SubpoolId;
use mvs_model::subpool_set::SubpoolSet;
use mvs_model::want::Side;
use slab::Slab;
use std::alloc::Global;
use std::marker::Model;
use subpool_store::Store;

/// What a pool has for a request for a cell: whether a cell is free, the subpool of a further part, the size and number of its
/// cells, and its side.
#[derive(Clone, Copy, Debug)]
pub struct Supply {
    pub has_free: bool,
    pub subpool: SubpoolId,
    pub cell_size: CellSize,
    pub secondary: CellCount,
    pub side: Side,
}

/// The cell pools of a step, at most 64. Their parts, and which cells are taken, are in storage.
#[derive(Drop)]
pub struct Pools {
    entries: Slab<PoolEntry>,
}

impl Model for Pools {
    ghost use Rattle.std.specs.Prelude.{◌≤◌};
    ghost use Rattle.std.specs.FinMap.{FinMap, code};
    ghost use Rattle.slab.specs.Slab.{slab_len};
    ghost use Rattle.mvs_model.specs.Name.{name_cmp, name_code};
    ghost use Rattle.mvs_model.specs.Numbers.{most_pools};
    ghost use Rattle.cell_pool.specs.Roots.{Root, root_code};
    ghost use Rattle.cell_pool.specs.Entries.{roots_of, IsDistinct};

    ghost Value = { FinMap name_cmp Root };

    ghost coded = { code name_code root_code };

    ghost view = { λ p. roots_of p.entries.slots };

    ghost invariant = { λ p. IsDistinct p.entries.slots × (slab_len p.entries ≤ most_pools) × (most_pools ≤ p.entries.capacity) };
}

// Returns the allocated cell of one of the subpool's pools that has the address.
fn cell_in(entries: &Slab<PoolEntry>, store: &Store, subpool: SubpoolId, addr: u32) -> Option<Place>
    requires { (k : ℕ) (x : TheEntry) → slab_get entries.now k ≡ Some x
        → IsChain store.now.storage x.root }
    ensures { MatchOption result
        ((k : ℕ) (x : TheEntry) → slab_get entries.now k ≡ Some x → x.root.subpool ≡ subpool
        → in_taken (pool_of (byte_of store.now.storage) x.root) addr ≡ false)
        (λ p. (k : ℕ) × (x : TheEntry) × (slab_get entries.now k ≡ Some x)
        × (set.contains (taken_of (byte_of store.now.storage) x.root) p.addr ≡ true)
        × (p.len ≡ x.root.cell_size) × (has_address p addr ≡ true)) }
{
    if has_none(entries) {
        return None;
    }
    for key in 0..entries.capacity() {
        let cell = cell_of(entries, store, key, subpool, addr);
        if cell.is_some() {
            return cell;
        }
    }
    None
}

// Returns the allocated cell of the pool at a key that has the address, where the pool is one of the subpool.
fn cell_of(
    entries: &Slab<PoolEntry>,
    store: &Store,
    key: usize,
    subpool: SubpoolId,
    addr: u32,
) -> Option<Place>
    requires { (k : ℕ) (x : TheEntry) → slab_get entries.now k ≡ Some x
        → IsChain store.now.storage x.root }
    ensures { MatchOption result
        ((x : TheEntry) → slab_get entries.now key ≡ Some x → x.root.subpool ≡ subpool
        → in_taken (pool_of (byte_of store.now.storage) x.root) addr ≡ false)
        (λ p. (x : TheEntry) × (slab_get entries.now key ≡ Some x)
        × (set.contains (taken_of (byte_of store.now.storage) x.root) p.addr ≡ true)
        × (p.len ≡ x.root.cell_size) × (has_address p addr ≡ true)) }
{
    let entry = entries.get(key)?;
    if !entry.root.is_of(subpool) {
        return None;
    }
    cell_round(store, &entry.root, addr)
}

// Returns whether a pool is one of the subpool, or of any where none is given.
fn is_among(root: &Root, subpool: &Option<SubpoolId>) -> bool
    ensures { MatchBool result (IsAmong subpool.now root.now.subpool)
        (IsAmong subpool.now root.now.subpool → ⊥) }
{
    match subpool {
        Some(subpool) => root.is_of(*subpool),
        None => true,
    }
}

// Returns the name of the pool at a key, where it is one of the subpool, or of any, and a part of it has a doubleword of the place.
fn entry_meets(
    entries: &Slab<PoolEntry>,
    store: &Store,
    key: usize,
    subpool: &Option<SubpoolId>,
    place: Place,
) -> Option<Name>
    requires { (k : ℕ) (x : TheEntry) → slab_get entries.now k ≡ Some x
        → IsChain store.now.storage x.root }
    ensures { MatchOption result
        ((x : TheEntry) → slab_get entries.now key ≡ Some x → IsAmong subpool.now x.root.subpool
        → Meets store.now.storage x.root place → ⊥)
        (λ name. (x : TheEntry) × (slab_get entries.now key ≡ Some x)
        × IsAmong subpool.now x.root.subpool × Meets store.now.storage x.root place
        × (x.name ≡ name)) }
{
    let entry = entries.get(key)?;
    if !is_among(&entry.root, subpool) {
        return None;
    }
    if !meets(store, &entry.root, place) {
        return None;
    }
    Some(entry.name)
}

// Returns the name of a pool of the subpool, or of any, with a part that has a doubleword of the place.
fn any_meets(
    entries: &Slab<PoolEntry>,
    store: &Store,
    subpool: &Option<SubpoolId>,
    place: Place,
) -> Option<Name>
    requires { (k : ℕ) (x : TheEntry) → slab_get entries.now k ≡ Some x
        → IsChain store.now.storage x.root }
    ensures { MatchOption result
        ((k : ℕ) (x : TheEntry) → slab_get entries.now k ≡ Some x
        → IsAmong subpool.now x.root.subpool → Meets store.now.storage x.root place → ⊥)
        (λ name. (k : ℕ) × (x : TheEntry) × (slab_get entries.now k ≡ Some x)
        × IsAmong subpool.now x.root.subpool × Meets store.now.storage x.root place
        × (x.name ≡ name)) }
{
    if has_none(entries) {
        return None;
    }
    for key in 0..entries.capacity() {
        let met = entry_meets(entries, store, key, subpool, place);
        if met.is_some() {
            return met;
        }
    }
    None
}

// Returns the part before which all parts are full once the cell is given back.
fn open_after(root: &Root, spot: &TakenCell) -> Addr
    requires { spot.now.part < 2 ^ 31 }
    ensures { result ≡ (if spot.now.past then root.now.open_part else spot.now.part) }
{
    if spot.past {
        root.open_part
    } else {
        Addr::new(spot.part)
    }
}

impl Pools {
    /// Makes an empty table of pools, with room for 64 (this project's choice). No later call allocates memory.
    pub fn new(alloc: Global) -> Result<Pools, OutOfMemory>
        ensures { IfOk result (λ p. p ≡ empty) }
    {
        let entries = Slab::with_capacity(alloc, MOST_POOLS).map_err(|_| OutOfMemory)?;
        Ok(Pools { entries })
    }

    // Returns what is kept of the pool of this name.
    fn find(&self, name: &Name) -> Option<Root>
        ensures { result ≡ get self.now name.now }
    {
        find(&self.entries, *name)
    }

    /// Gives back the taken cell of the pool that begins at the address (Assembler Services Reference, CPOOL FREE). Refused
    /// are a name that no pool has, and an address at which no taken cell of the pool begins.
    pub fn free(&mut self, store: &mut Store, name: &Name, cell: Addr) -> Result<(), Refusal>
        requires { Agree self.old store.old.storage }
        ensures answer { (o : Owners) (t : TheName)
            → let old = state_of store.old.storage o (pools_of self.old store.old.storage) in
            Tries (λ _. Rc0) old t (request.Free name.now cell) result
            (state_of store.new.storage o (pools_of self.new store.new.storage)) }
        ensures agree { Agree self.new store.new.storage }
        ensures unchanged { OnErr result (store.new.storage ≡ store.old.storage) }
        ensures pools_unchanged { OnErr result (self.new ≡ self.old) }
    {
        let Some(root) = self.find(name) else {
            return Err(Refusal::NoPool);
        };
        let Some(spot) = find_taken(store, &root, cell.get()) else {
            return Err(Refusal::NoTakenCell);
        };
        self.give_cell(store, name, &root, spot);
        Ok(())
    }

    // Gives back a taken cell of the pool.
    fn give_cell(&mut self, store: &mut Store, name: &Name, root: &Root, spot: TakenCell)
        requires agree { Agree self.old store.old.storage }
        requires root { get self.old name.now ≡ Some root.now }
        requires taken { (c : ℕ)
            × IsTakenAt store.old.storage root.now spot.part spot.cell spot.taken spot.past c }
        ensures marked { Marks store.old.storage spot.part spot.cell false (spot.taken - 1)
            store.new.storage }
        ensures pools { pools_of self.new store.new.storage ≡ pools_of self.old store.new.storage }
        ensures agree { Agree self.new store.new.storage }
    {
        mark(store, spot.part, spot.cell, false, spot.taken - 1);
        let open = open_after(root, &spot);
        self.replace(name, root.with_freed(open));
    }

    /// Creates a pool in the subpool with its first part, and the first cell at the hinted address if the machine allows that
    /// (Assembler Services Reference, CPOOL BUILD). Refused are, in this order, the name of a pool, a pool beyond 64, and a first
    /// part that does not fit.
    pub fn build(
        &mut self,
        store: &mut Store,
        name: &Name,
        subpool: SubpoolId,
        plan: &Plan,
        hint: Option<Addr>,
    ) -> Result<(), Refusal>
        requires { Agree self.old store.old.storage }
        ensures built { OnOk result
            (Builds self.old store.old.storage name.now subpool plan.now self.new
            store.new.storage) }
        ensures refused { IfErr result
            (Refused
            (causes_of_build self.old store.old.storage name.now subpool plan.now)) }
        ensures hint { (a : ℕ) → hint ≡ Some a
            → OnOk result (PartFollowsHint store.old.storage name.now (new_pool subpool plan.now)
            plan.now.primary a (pools_of self.new store.new.storage)) }
        ensures agree { Agree self.new store.new.storage }
        ensures unchanged { OnErr result (store.new.storage ≡ store.old.storage) }
        ensures pools_unchanged { OnErr result (self.new ≡ self.old) }
    {
        if self.find(name).is_some() {
            return Err(Refusal::PoolInUse);
        }
        if self.len() >= MOST_POOLS {
            return Err(Refusal::TooManyPools);
        }
        let primary = plan.primary;
        let Some(place) = obtain_part(store, subpool, plan.cell_size, primary, plan.side, hint)
        else {
            return Err(Refusal::NoPart);
        };
        let first = place.addr();
        let fill = byte(store, first.get());
        lay_out(store, first.get(), primary.get(), plan.cell_size.get());
        self.insert(
            name,
            Root {
                subpool,
                cell_size: plan.cell_size,
                primary,
                secondary: plan.secondary,
                side: plan.side,
                fill,
                count: 1,
                first,
                last: first,
                free: u64::from(primary.get()),
                open_part: first,
            },
        );
        Ok(())
    }

    // Enters what is kept of a new pool.
    fn insert(&mut self, name: &Name, root: Root)
        requires fresh { get self.old name.now ≡ None }
        requires room { len self.old < most_pools }
        ensures { (n : TheName)
            → get self.new n ≡ (if same_name n name.now then Some root else get self.old n) }
    {
        self.entries
            .insert_reserved(PoolEntry { name: *name, root });
    }

    // Returns how many pools there are.
    fn len(&self) -> usize
        ensures { result ≡ len self.now }
    {
        self.entries.len()
    }

    // Adds a further part to a pool whose parts are full, if it fits, with its first cell at the hinted address if the machine
    // allows that.
    fn extend(
        &mut self,
        store: &mut Store,
        name: &Name,
        root: &Root,
        hint: Option<Addr>,
    ) -> Option<Root>
        requires agree { Agree self.old store.old.storage }
        requires root { get self.old name.now ≡ Some root.now }
        requires full { root.now.free ≡ 0 }
        ensures extended { MatchOption result
            (NoRoom store.old.storage root.now × (store.new.storage ≡ store.old.storage)
            × (self.new ≡ self.old))
            (λ r. (a : ℕ) × (r ≡ extended root.now a)
            × Extended self.old store.old.storage name.now root.now a self.new
            store.new.storage) }
        ensures hint { (q : PlaceValue) → hint ≡ Some (q.addr + head_length root.now.secondary)
            → MayAdd store.old.storage root.now q → result ≡ Some (extended root.now q.addr) }
        ensures agree { Agree self.new store.new.storage }
    {
        let place = obtain_part(
            store,
            root.subpool,
            root.cell_size,
            root.secondary,
            root.side,
            hint,
        )?;
        let part = place.addr();
        lay_out(store, part.get(), root.secondary.get(), root.cell_size());
        put_word(store, root.last(), part.get());
        let extended = root.with_part(part);
        self.replace(name, extended);
        Some(extended)
    }

    // Keeps something else of a pool that there is.
    fn replace(&mut self, name: &Name, root: Root)
        requires { IsSome (get self.old name.now) }
        ensures { (n : TheName)
            → get self.new n ≡ (if same_name n name.now then Some root else get self.old n) }
    {
        match find_key(&self.entries, *name) {
            Some(key) => set_root(&mut self.entries, key, root),
            None => unreachable!(),
        }
    }

    /// Deletes the pool with all its parts (Assembler Services Reference, CPOOL DELETE). Refused is an unknown name.
    pub fn delete(&mut self, store: &mut Store, name: &Name) -> Result<(), Refusal>
        requires { Agree self.old store.old.storage }
        ensures answer { (o : Owners) (t : TheName)
            → let old = state_of store.old.storage o (pools_of self.old store.old.storage) in
            Tries (λ _. Rc0) old t (request.Delete name.now) result
            (state_of store.new.storage o (pools_of self.new store.new.storage)) }
        ensures agree { Agree self.new store.new.storage }
        ensures unchanged { OnErr result (store.new.storage ≡ store.old.storage) }
        ensures pools_unchanged { OnErr result (self.new ≡ self.old) }
    {
        let Some(root) = self.find(name) else {
            return Err(Refusal::NoPool);
        };
        release_parts(store, &root);
        self.forget(name);
        Ok(())
    }

    // Forgets a pool that there is.
    fn forget(&mut self, name: &Name)
        requires { IsSome (get self.old name.now) }
        ensures { (n : TheName)
            → get self.new n ≡ (if same_name n name.now then None else get self.old n) }
    {
        match find_key(&self.entries, *name) {
            Some(key) => remove(&mut self.entries, key),
            None => unreachable!(),
        }
    }

    /// Forgets the pools of a subpool, before all of its storage is released; the storage is left as it is.
    pub fn drop_subpool(&mut self, subpool: SubpoolId)
        ensures { Keeps (get self.old) (λ _ r. not (r.subpool == subpool)) (get self.new) }
    {
        let mut subpools = SubpoolSet::empty();
        subpools.insert(subpool);
        self.drop_subpools(&subpools);
    }

    /// Forgets the pools of a set of subpools, before all of their storage is released; the storage is left as it is.
    pub fn drop_subpools(&mut self, subpools: &SubpoolSet)
        ensures { Keeps (get self.old) (λ _ r. not (is_one_of subpools.now r.subpool))
            (get self.new) }
    {
        remove_each(&mut self.entries, subpools);
    }

    /// Allocates a free cell of the pool: the one at the hinted address, and without a hint, or if it is not free, the lowest one
    /// of the earliest part that has one (Assembler Services Reference, CPOOL GET; the choice is this project's). If no cell is
    /// free, a conditional request is refused. Another one gets a cell of a further part, with its first cell at the address
    /// `first` if the machine allows that. Refused are also an unknown name, and a further part that does not fit.
    pub fn get(
        &mut self,
        store: &mut Store,
        name: &Name,
        conditional: bool,
        hint: Option<Addr>,
        first: Option<Addr>,
    ) -> Result<Place, Refusal>
        requires { Agree self.old store.old.storage }
        ensures answer { (o : Owners) (t : TheName)
            → let old = state_of store.old.storage o (pools_of self.old store.old.storage) in
            Tries Cell old t (request.Get name.now conditional) result
            (state_of store.new.storage o (pools_of self.new store.new.storage)) }
        ensures hint { (o : Owners) (a : ℕ)
            → let old = state_of store.old.storage o (pools_of self.old store.old.storage) in
            hint ≡ Some a → IfOk result (CellFollowsHint old name.now a first) }
        ensures agree { Agree self.new store.new.storage }
        ensures unchanged { OnErr result (store.new.storage ≡ store.old.storage) }
        ensures pools_unchanged { OnErr result (self.new ≡ self.old) }
    {
        let Some(root) = self.find(name) else {
            return Err(Refusal::NoPool);
        };
        if root.has_free() {
            let spot = find_spot(store, &root, hint);
            return Ok(self.take_cell(store, name, &root, spot));
        }
        if conditional {
            return Err(Refusal::NoFreeCell);
        }
        let Some(extended) = self.extend(store, name, &root, first) else {
            return Err(Refusal::NoPart);
        };
        let spot = find_spot(store, &extended, hint);
        Ok(self.take_cell(store, name, &extended, spot))
    }

    // Takes a free cell of the pool.
    fn take_cell(&mut self, store: &mut Store, name: &Name, root: &Root, spot: FreeCell) -> Place
        requires agree { Agree self.old store.old.storage }
        requires root { get self.old name.now ≡ Some root.now }
        requires free { IsFreeAt store.old.storage root.now spot.part spot.cell spot.taken
            spot.open_part }
        requires count { spot.count ≡ count_at (byte_of store.old.storage) spot.part }
        ensures place { result
            ≡ place_at
            (spot.part + head_length (count_at (byte_of store.old.storage) spot.part)
            + spot.cell * root.now.cell_size) root.now.cell_size }
        ensures taken { (mid : Storage)
            × Marks store.old.storage spot.part spot.cell true (spot.taken + 1) mid
            × Fills mid result root.now.fill store.new.storage }
        ensures pools { pools_of self.new store.new.storage ≡ pools_of self.old store.new.storage }
        ensures agree { Agree self.new store.new.storage }
    {
        let place = take(store, root, spot);
        self.replace(name, root.with_taken(Addr::new(spot.open_part)));
        place
    }

    /// Returns the allocated cell, of any pool, that has the byte at an address.
    pub fn cell_at(&self, store: &Store, addr: Addr) -> Option<Place>
        requires { Agree self.now store.now.storage }
        ensures { MatchOption result
            ((o : Owners)
            → in_cell (state_of store.now.storage o (pools_of self.now store.now.storage)) addr
            ≡ false)
            (λ p. IsTakenCell (pools_of self.now store.now.storage) p
            × (has_address p addr ≡ true)) }
    {
        let subpool = store.held(addr)?;
        cell_in(&self.entries, store, subpool, addr.get())
    }

    /// Returns whether the byte at an address is in a taken cell of some pool.
    pub fn taken_cell(&self, store: &Store, addr: Addr) -> bool
        requires { Agree self.now store.now.storage }
        ensures { (o : Owners)
            → result
            ≡ in_cell (state_of store.now.storage o (pools_of self.now store.now.storage)) addr }
    {
        self.cell_at(store, addr).is_some()
    }

    /// Returns whether a part of a pool, in any subpool, has a doubleword of a place.
    pub fn touches(&self, store: &Store, place: Place) -> bool
        requires { Agree self.now store.now.storage }
        ensures { MatchBool result (HasPartOf (pools_of self.now store.now.storage) place)
            (HasPartOf (pools_of self.now store.now.storage) place → ⊥) }
    {
        any_meets(&self.entries, store, &None, place).is_some()
    }

    /// Returns whether the subpool holds some doubleword of a place as a part of a pool. Parts in other subpools do not count, so
    /// this is asked of a place that the subpool holds.
    pub fn touches_in(&self, store: &Store, subpool: SubpoolId, place: Place) -> bool
        requires { Agree self.now store.now.storage }
        ensures { MatchBool result
            (Touches store.now.storage (pools_of self.now store.now.storage) subpool place)
            (TouchesNone store.now.storage (pools_of self.now store.now.storage) subpool place) }
    {
        any_meets(&self.entries, store, &Some(subpool), place).is_some()
    }

    /// Returns the name of a pool of the subpool with a part that has a doubleword of the place, which the subpool holds.
    pub fn part_in(&self, store: &Store, subpool: SubpoolId, place: Place) -> Option<Name>
        requires { Agree self.now store.now.storage }
        ensures { MatchOption result
            (TouchesNone store.now.storage (pools_of self.now store.now.storage) subpool place)
            (λ name. (d : ℕ) × Covers place d
            × HasPart (pools_of self.now store.now.storage) name d) }
    {
        any_meets(&self.entries, store, &Some(subpool), place)
    }

    /// Returns whether a pool has the name.
    pub fn contains(&self, name: &Name) -> bool
        ensures { (st : Storage) → result ≡ contains_key (pools_of self.now st) name.now }
    {
        self.find(name).is_some()
    }

    /// Returns the name of the first pool in byte order after the given one, or of the first of all where none is given.
    pub fn next_pool(&self, given: &Option<Name>) -> Option<Name>
        ensures { (st : Storage) → IsNextName (get (pools_of self.now st)) given.now result }
    {
        find_next(&self.entries, given)
    }

    /// Returns whether no more pools can be there.
    pub fn is_full(&self) -> bool
        ensures { (st : Storage) → result ≡ nat_le most_pools (len (pools_of self.now st)) }
    {
        self.len() >= MOST_POOLS
    }

    /// Returns what the pool of this name has for a request for a cell. Returns None if no pool has the name.
    pub fn supply(&self, name: &Name) -> Option<Supply>
        ensures { (st : Storage) → Agree self.now st
            → MatchOption result (get (pools_of self.now st) name.now ≡ None)
            (λ supply. (pool : Pool) × (get (pools_of self.now st) name.now ≡ Some pool)
            × IsSupply pool supply) }
    {
        let root = self.find(name)?;
        Some(Supply {
            has_free: root.has_free(),
            subpool: root.subpool,
            cell_size: root.cell_size,
            secondary: root.secondary,
            side: root.side,
        })
    }

    /// Returns how many parts the pool of this name has, and which was put to it last. Returns None if no pool has the name.
    pub fn newest(&self, store: &Store, name: &Name) -> Option<LastPart>
        requires { Agree self.now store.now.storage }
        ensures { MatchOption result (get (pools_of self.now store.now.storage) name.now ≡ None)
            (λ newest. (pool : Pool)
            × (get (pools_of self.now store.now.storage) name.now ≡ Some pool)
            × IsNewest pool newest) }
    {
        let root = self.find(name)?;
        Some(newest_of(store, &root))
    }

    /// Returns whether a taken cell of the pool begins at the address. Returns None if no pool has the name.
    pub fn is_taken(&self, store: &Store, name: &Name, cell: Addr) -> Option<bool>
        requires { Agree self.now store.now.storage }
        ensures { MatchOption result (get (pools_of self.now store.now.storage) name.now ≡ None)
            (λ taken. (pool : Pool)
            × (get (pools_of self.now store.now.storage) name.now ≡ Some pool)
            × (taken ≡ set.contains pool.taken cell)) }
    {
        let root = self.find(name)?;
        Some(find_taken(store, &root, cell.get()).is_some())
    }

    /// Returns where an address is, if no taken cell of the pool begins there.
    pub fn spot(&self, store: &Store, name: &Name, cell: Addr) -> CellPosition
        requires agree { Agree self.now store.now.storage }
        requires untaken { (pool : Pool)
            × (get (pools_of self.now store.now.storage) name.now ≡ Some pool)
            × (set.contains pool.taken cell ≡ false) }
        ensures { (pool : Pool) → get (pools_of self.now store.now.storage) name.now ≡ Some pool
            → IsSpot pool cell result }
    {
        let Some(root) = self.find(name) else {
            unreachable!();
        };
        spot_of(store, &root, cell)
    }

    /// Returns how many bytes the subpool holds in parts of pools.
    pub fn pool_bytes(&self, store: &Store, subpool: SubpoolId) -> u32
        requires { Agree self.now store.now.storage }
        ensures { (o : Owners)
            → result
            ≡ bytes_held (state_of store.now.storage o (pools_of self.now store.now.storage))
            subpool true }
    {
        bytes_in(&self.entries, store, subpool)
    }

    /// Returns a copy. It fails if memory is exhausted.
    pub fn try_clone(&self) -> Result<Pools, OutOfMemory>
        ensures { IfOk result (λ copy. copy ≡ self.now) }
    {
        Ok(Pools {
            entries: copy_entries(&self.entries)?,
        })
    }
}
