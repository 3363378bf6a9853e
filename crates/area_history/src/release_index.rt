//! An index of the changes of a step: which changes released a doubleword last, and which ones concern whole subpools.

ghost use Rattle.std.specs.Prelude.{◌≡◌, ◌<◌, ◌≤◌, ◌+◌, ◌^◌, ◌==◌, ◌⊎◌, ℕ, List, IfSome, Some, false, true, length, slice_get};
ghost use Rattle.mvs_model.specs.Storage.{covers};
ghost use Rattle.area_history.specs.Leaking.{HasRoom, has_doubleword, has_room};
ghost use Rattle.area_history.specs.ReleaseIndex.{IsReleaseIndex, NoneReleases, concerns, first_code, has_code, later_releases, no_releases, releases_at};
ghost use Rattle.area_history.specs.declared.events.StorageEvent.{StorageEvent as TheEvent};
ghost use Rattle.mvs_model.specs.declared.name.Name.{Name as TaskName};

use crate::by_doubleword::ByDoubleword;
use crate::events::{StorageChange, StorageEvent};
use crate::owner_index::OwnerIndex;
use mvs_model::name::Name;
use mvs_model::place::{Addr, Place};
use mvs_model::subpool::SubNo;
use std::alloc::Global;

/// The last three changes that released a doubleword, by their numbers from 1 on, or 0.
#[derive(Clone, Copy, Debug, PartialEq, Eq)]
pub(crate) struct LastReleases {
    latest: u32,
    previous: u32,
    earlier: u32,
}

/// For each doubleword, the last three changes that released it, and for each subpool the changes that concern it, of those that were
/// added.
#[derive(Drop)]
pub(crate) struct ReleaseIndex {
    releases: ByDoubleword<LastReleases>,
    // By their numbers, from 0 on.
    owners: OwnerIndex,
    // How many changes were added.
    count: u32,
}

// Returns the numbers of a doubleword that no change released.
fn no_releases() -> LastReleases
    ensures { result ≡ no_releases }
{
    LastReleases {
        latest: 0,
        previous: 0,
        earlier: 0,
    }
}

// Returns the doublewords that have a byte of a place, if they are a place themselves.
fn doublewords_of(place: Place) -> Option<Place>
    ensures { IfSome result (λ whole. (d : ℕ) → has_doubleword whole d ≡ covers place d) }
{
    let first = place.addr().get() / 8;
    let last = (place.addr().get() + (place.len() - 1)) / 8;
    let count = last - first + 1;
    if count > 0x1000_0000 {
        return None;
    }
    Some(Place::new(Addr::new(8 * first), 8 * count))
}

impl ReleaseIndex {
    /// Makes that of a step without changes. It allocates no memory.
    pub(crate) fn new(alloc: Global) -> ReleaseIndex
        ensures { (events : List TheEvent) → IsReleaseIndex result events }
    {
        ReleaseIndex {
            releases: ByDoubleword::new(alloc),
            owners: OwnerIndex::new(alloc),
            count: 0,
        }
    }

    /// Forgets all changes.
    pub(crate) fn clear(&mut self)
        ensures { (events : List TheEvent) → IsReleaseIndex self.new events }
    {
        self.releases.reset();
        self.owners.clear();
        self.count = 0;
    }

    // Makes a change the last one that released a doubleword.
    fn put_one(&mut self, doubleword: u32, number: u32)
        requires { has_room self.old.releases doubleword ≡ true }
        ensures at { releases_at self.new doubleword
            ≡ record { latest = number; previous = (releases_at self.old doubleword).latest; earlier = (releases_at self.old doubleword).previous } }
        ensures others { (d : ℕ) → (d == doubleword) ≡ false
            → releases_at self.new d ≡ releases_at self.old d }
        ensures room { (d : ℕ) → has_room self.new.releases d ≡ has_room self.old.releases d }
        ensures count { self.new.count ≡ self.old.count }
        ensures kept { self.new.owners ≡ self.old.owners }
    {
        let last = self.releases.get(doubleword, no_releases());
        self.releases.set(
            doubleword,
            LastReleases {
                latest: number,
                previous: last.latest,
                earlier: last.previous,
            },
        );
    }

    // Makes a change the last one that released the doublewords of a place.
    fn put(&mut self, place: Place, number: u32)
        requires { HasRoom self.old.releases place }
        ensures releases { (d : ℕ) → releases_at self.new d
            ≡ later_releases (has_doubleword place d) number (releases_at self.old d) }
        ensures count { self.new.count ≡ self.old.count }
        ensures kept { self.new.owners ≡ self.old.owners }
    {
        let (first, count) = (place.addr().get() / 8, place.len() / 8);
        for k in 0..count {
            self.put_one(first + k, number);
        }
    }

    // Adds the release of a place. Returns whether memory was enough.
    fn add_release(&mut self, place: Place) -> bool
        requires { self.old.count + 1 < 2 ^ 32 }
        ensures releases { result ≡ true → (d : ℕ) → releases_at self.new d
            ≡ later_releases (covers place d) (self.old.count + 1) (releases_at self.old d) }
        ensures count { result ≡ true → self.new.count ≡ self.old.count + 1 }
        ensures same { result ≡ false → (d : ℕ) → releases_at self.new d ≡ releases_at self.old d }
        ensures same_count { result ≡ false → self.new.count ≡ self.old.count }
        ensures kept { self.new.owners ≡ self.old.owners }
    {
        let Some(whole) = doublewords_of(place) else {
            return false;
        };
        let Ok(()) = self.releases.grow(whole, no_releases()) else {
            return false;
        };
        let number = self.count + 1;
        self.put(whole, number);
        self.count = number;
        true
    }

    // Adds a change that is no release of a place. Returns whether memory was enough.
    fn add_other(&mut self, event: &StorageEvent) -> bool
        requires { self.old.count + 1 < 2 ^ 32 }
        ensures releases { self.new.releases ≡ self.old.releases }
        ensures count { result ≡ true → self.new.count ≡ self.old.count + 1 }
        ensures added { result ≡ true → (owner : TaskName) (n : ℕ) → concerns owner n event.now ≡ true
            → (has_code self.new.owners (first_code owner n + self.old.count) ≡ true)
            ⊎ (has_code self.new.owners (first_code owner 255 + self.old.count) ≡ true) }
        ensures kept { (code : ℕ) → has_code self.old.owners code ≡ true
            → has_code self.new.owners code ≡ true }
        ensures same_count { result ≡ false → self.new.count ≡ self.old.count }
    {
        if !self.owners.add(event, self.count) {
            return false;
        }
        self.count += 1;
        true
    }

    // Adds the next change. Returns whether memory was enough.
    fn add(&mut self, events: &[StorageEvent]) -> bool
        requires index { IsReleaseIndex self.old events.now }
        requires next { self.old.count < length events.now }
        requires most { self.old.count + 1 < 2 ^ 32 }
        ensures index { IsReleaseIndex self.new events.now }
        ensures count { result ≡ true → self.new.count ≡ self.old.count + 1 }
    {
        let event = &events[self.count as usize];
        match &event.change {
            StorageChange::Released(place) => self.add_release(*place),
            StorageChange::Emptied(..) | StorageChange::Ended(_) | StorageChange::Attached { .. } =>
                { self.add_other(event) }
        }
    }

    /// Adds the changes that it does not have, until memory or its numbers are exhausted.
    pub(crate) fn add_rest(&mut self, events: &[StorageEvent])
        requires { IsReleaseIndex self.old events.now }
        ensures { IsReleaseIndex self.new events.now }
    {
        'events: while (self.count as usize) < events.len() && self.count < u32::MAX {
            if !self.add(events) {
                return;
            }
        }
    }

    /// Returns the number of the first change, from a number on, that may have released a doubleword.
    pub(crate) fn quiet_end(&self, doubleword: u32, from: usize) -> usize
        ensures from { from ≤ result }
        ensures most { (events : List TheEvent) → IsReleaseIndex self.now events
            → (i : ℕ) → from ≤ i → i < result → i < self.now.count }
        ensures within { (events : List TheEvent) → IsReleaseIndex self.now events
            → from ≤ length events → result ≤ length events }
        ensures quiet { (events : List TheEvent) → IsReleaseIndex self.now events
            → NoneReleases doubleword events from result }
    {
        let last = self.releases.get(doubleword, no_releases());
        if last.latest as usize <= from {
            from.max(self.count as usize)
        } else if last.previous as usize <= from {
            last.latest as usize - 1
        } else if last.earlier as usize <= from {
            last.previous as usize - 1
        } else {
            from
        }
    }

    /// Returns a number that is not before another one. No change between them concerns the subpool that an owner has under a number.
    pub(crate) fn next(&self, owner: &Name, number: SubNo, from: usize) -> usize
        ensures from { from ≤ result }
        ensures none { (events : List TheEvent) → IsReleaseIndex self.now events
            → (i : ℕ) (e : TheEvent) → slice_get events i ≡ Some e → from ≤ i → i < result
            → i < self.now.count → concerns owner.now number e ≡ false }
    {
        self.owners.next(owner, number.get(), from)
    }
}
