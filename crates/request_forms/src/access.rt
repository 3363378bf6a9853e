//! Access to bytes: SHOW, PUT and MOVE, which are this project's own statements.

ghost use Rattle.std.specs.Prelude.{◌≡◌, ◌≢◌, ◌<◌, ◌≤◌, ◌+◌, ◌^◌, ◌↔◌, ◌⊎◌, Some, IfSome, IsSome, IsTrue, MatchBool, MatchOption, ℕ, true, false, length, slice_get};
ghost use Rattle.std.specs.FinMap.{get};
ghost use Rattle.mvs_model.specs.declared.name.Name.{Name};
ghost use Rattle.mvs_model.specs.declared.request.Request.TheVariants as request;
ghost use Rattle.mvs_model.specs.Place.{place_at};
ghost use Rattle.mvs_model.specs.Owners.{Owners};
ghost use Rattle.mvs_model.specs.State.{granted};
ghost use Rattle.mvs_model.specs.Storage.{AllHeld};
ghost use Rattle.cell_pool.specs.Agree.{Agree};
ghost use Rattle.mvs_model.specs.Changes.{Granted, Writes};
ghost use Rattle.mvs_model.specs.Steps.{Tries};
ghost use Rattle.mvs_model.specs.Requests.{bytes_from};
ghost use Rattle.subpool_store.specs.WrittenBytes.{Puts};
ghost use Rattle.mvs_model.specs.declared.request.Reply.TheVariants.{Done};
ghost use Rattle.request_forms.specs.Access.{Copied};
ghost use Rattle.request_forms.specs.Machine.{IsStepStorage, machine_state};

use crate::machine::Machine;
use crate::release::is_outside_pools;
use cell_pool::Pools;
use mvs_model::bounded::{MoveLength, ShowLength};
use mvs_model::numbers::LAST_ADDRESS;
use mvs_model::place::{Addr, Place};
use mvs_model::refusal::Refusal;
use mvs_model::request::Bytes;
use subpool_store::Store;

// Returns up to where bytes from an address on may be read and written, for one cause: up to the end of the taken cell round the
// address, or of its doubleword, where that is held outside of cell pools. None where the byte at the address may not be.
fn readable_end(store: &Store, pools: &Pools, addr: Addr) -> Option<u32>
    requires { Agree pools.now store.now.storage }
    ensures { (o : Owners)
        → MatchOption result (granted (machine_state pools.now store.now.storage o) addr ≡ false)
        (λ end. (addr < end)
        × ((a : ℕ) → addr ≤ a → a < end
        → granted (machine_state pools.now store.now.storage o) a ≡ true)) }
{
    if let Some(cell) = pools.cell_at(store, addr) {
        return Some(cell.addr().get() + cell.len());
    }
    let subpool = store.held(addr)?;
    let first = addr.get() / 8 * 8;
    if !is_outside_pools(store, pools, subpool, Place::new(Addr::new(first), 8)) {
        return None;
    }
    Some(first + 8)
}

// Returns whether the subpool that holds the first byte of a place holds all of it outside of cell pools.
fn is_plain(store: &Store, pools: &Pools, place: Place) -> bool
    requires { Agree pools.now store.now.storage }
    ensures { (o : Owners) → IsTrue result
        → Granted (machine_state pools.now store.now.storage o) place }
{
    let Some(subpool) = store.held(place.addr()) else {
        return false;
    };
    let first = place.addr().get() / 8 * 8;
    let end = place.addr().get() + place.len();
    if end > LAST_ADDRESS + 1 {
        return false;
    }
    let whole = Place::new(Addr::new(first), (end - first).div_ceil(8) * 8);
    if !store.holds(subpool, whole) {
        return false;
    }
    is_outside_pools(store, pools, subpool, whole)
}

// Returns whether each byte of a place may be read and written.
pub(crate) fn may_access(store: &Store, pools: &Pools, place: Place) -> bool
    requires { Agree pools.now store.now.storage }
    ensures granted { (o : Owners)
        → IsTrue result ↔ Granted (machine_state pools.now store.now.storage o) place }
    ensures some { 1 ≤ place.len }
{
    if is_plain(store, pools, place) {
        return true;
    }
    let end = place.addr().get() + place.len();
    let mut at = place.addr().get();
    'walk: while at < end {
        if at > LAST_ADDRESS {
            return false;
        }
        match readable_end(store, pools, Addr::new(at)) {
            Some(next) => at = next,
            None => return false,
        }
    }
    true
}

// Writes bytes over those of a place that is held.
fn write(store: &mut Store, place: Place, bytes: &[u8])
    requires held { AllHeld store.old.storage place }
    requires len { length bytes.now ≡ place.len }
    ensures { Puts store.old.storage place bytes.now store.new.storage }
{
    let part = store.bytes_mut(place);
    part.copy_from_slice(bytes);
}

// Writes bytes over those of a place where each of them may be written, and answers whether it did.
fn write_where_granted(store: &mut Store, pools: &Pools, place: Place, bytes: &[u8]) -> bool
    requires agree { Agree pools.now store.old.storage }
    requires len { length bytes.now ≡ place.len }
    ensures written { (o : Owners)
        → MatchBool result
        (Granted (machine_state pools.now store.old.storage o) place
        × Puts store.old.storage place bytes.now store.new.storage)
        ((Granted (machine_state pools.now store.old.storage o) place → ⊥)
        × (store.new.storage ≡ store.old.storage)) }
    ensures agree { Agree pools.now store.new.storage }
{
    if !may_access(store, pools, place) {
        return false;
    }
    write(store, place, bytes);
    true
}

// Returns the address a number of bytes after another one.
fn at_distance(addr: Addr, distance: u32) -> Addr
    requires { addr + distance < 2 ^ 31 }
    ensures { result ≡ addr + distance }
{
    Addr::new(addr.get() + distance)
}

// Copies bytes to a place that has none of them.
fn copy_apart(store: &mut Store, to: Addr, from: Addr, len: u32)
    requires some { 1 ≤ len }
    requires target { AllHeld store.old.storage (place_at to len) }
    requires source { AllHeld store.old.storage (place_at from len) }
    requires apart { (from + len ≤ to) ⊎ (to + len ≤ from) }
    ensures { Copied store.old.storage to from len store.new.storage }
{
    let (source, target) = store.two(Place::new(from, len), Place::new(to, len));
    target.copy_from_slice(source);
}

// Copies bytes, the first ones first, as many at a time as the two places are apart. At lower addresses they are those that the
// source held before.
fn copy_down(store: &mut Store, to: Addr, from: Addr, len: u32)
    requires storage { IsStepStorage store.old.storage }
    requires target { AllHeld store.old.storage (place_at to len) }
    requires source { AllHeld store.old.storage (place_at from len) }
    requires apart { to ≢ from }
    ensures { to < from → Copied store.old.storage to from len store.new.storage }
{
    let distance = from.get().abs_diff(to.get());
    let mut done = 0;
    'pieces: while done < len {
        let piece = distance.min(len - done);
        copy_apart(store, at_distance(to, done), at_distance(from, done), piece);
        done += piece;
    }
}

// Copies bytes to higher addresses, the last ones first, in pieces as long as the distance of the two places.
fn copy_up(store: &mut Store, to: Addr, from: Addr, len: u32)
    requires storage { IsStepStorage store.old.storage }
    requires target { AllHeld store.old.storage (place_at to len) }
    requires source { AllHeld store.old.storage (place_at from len) }
    requires higher { from < to }
    ensures { Copied store.old.storage to from len store.new.storage }
{
    let distance = to.get() - from.get();
    let mut left = len;
    'pieces: while left > 0 {
        let piece = distance.min(left);
        left -= piece;
        copy_apart(store, at_distance(to, left), at_distance(from, left), piece);
    }
}

// Copies bytes that are held: what is stored is what the source held before, also where the two places overlap.
fn copy(store: &mut Store, to: Addr, from: Addr, len: u32)
    requires storage { IsStepStorage store.old.storage }
    requires target { AllHeld store.old.storage (place_at to len) }
    requires source { AllHeld store.old.storage (place_at from len) }
    ensures { Copied store.old.storage to from len store.new.storage }
{
    if to.get() < from.get() {
        copy_down(store, to, from, len);
    } else if from.get() < to.get() {
        copy_up(store, to, from, len);
    }
}

impl Machine {
    /// Returns the bytes of a place, or None if one of them cannot be read: its doubleword is not held, or it is in a part of a
    /// cell pool and in no taken cell (this project's choice).
    pub fn bytes(&self, place: Place) -> Option<&[u8]>
        ensures granted { IsSome result ↔ Granted self.now.state place }
        ensures len { IfSome result (λ part. length part.now ≡ place.len) }
        ensures bytes { IfSome result
            (λ part. (k : ℕ) → k < place.len
            → slice_get part.now k ≡ get self.now.state.bytes (place.addr + k)) }
    {
        if !may_access(&self.store, &self.pools, place) {
            return None;
        }
        Some(self.store.bytes(place))
    }

    /// Executes SHOW: checks only whether the bytes may be read.
    pub fn show(&self, from: Addr, len: ShowLength) -> Result<(), Refusal>
        ensures { (t : Name)
            → Tries (λ _. Done) self.now.state t (request.Show from len) result self.now.state }
    {
        if !may_access(&self.store, &self.pools, Place::new(from, len.get())) {
            return Err(Refusal::NoAccess);
        }
        Ok(())
    }

    /// Writes bytes over those of a place where each of them may be written, and answers whether it did.
    pub fn write(&mut self, place: Place, bytes: &[u8]) -> bool
        requires { length bytes.now ≡ place.len }
        ensures { MatchBool result
            (Granted self.old.state place × Writes self.old.state place (bytes_from place.addr bytes.now) self.new.state)
            ((Granted self.old.state place → ⊥) × (self.new.state ≡ self.old.state)) }
    {
        write_where_granted(&mut self.store, &self.pools, place, bytes)
    }

    /// Executes PUT: stores the bytes from the address on.
    pub fn put(&mut self, to: Addr, bytes: &Bytes) -> Result<(), Refusal>
        ensures { (t : Name)
            → Tries (λ _. Done) self.old.state t (request.Put to bytes.now) result self.new.state }
    {
        let place = Place::new(to, bytes.len() as u32);
        let bytes = bytes.as_slice();
        let written = write_where_granted(&mut self.store, &self.pools, place, bytes);
        if !written {
            return Err(Refusal::NoAccess);
        }
        Ok(())
    }

    // Returns whether all bytes that a MOVE reads and writes may be.
    fn may_move(&self, to: Addr, from: Addr, len: MoveLength) -> bool
        ensures { IsTrue result
            ↔ (Granted self.now.state (place_at to len) × Granted self.now.state (place_at from len)) }
    {
        let len = len.get();
        if !may_access(&self.store, &self.pools, Place::new(to, len)) {
            return false;
        }
        may_access(&self.store, &self.pools, Place::new(from, len))
    }

    /// Executes MOVE: copies the bytes from one address to the other.
    pub fn move_bytes(&mut self, to: Addr, from: Addr, len: MoveLength) -> Result<(), Refusal>
        ensures { (t : Name)
            → Tries (λ _. Done) self.old.state t (request.Move to from len) result self.new.state }
    {
        if !self.may_move(to, from, len) {
            return Err(Refusal::NoAccess);
        }
        copy(&mut self.store, to, from, len.get());
        Ok(())
    }
}
