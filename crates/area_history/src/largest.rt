//! The largest leaks of a step.

ghost use Rattle.std.specs.Prelude.{◌≡◌, ◌<◌, ◌≤◌, ◌+◌, ◌*◌, ◌^◌, ◌↔◌, ◌∷◌, ◌++◌, [], IsTrue, List, length, nat_lt, take};
ghost use Rattle.area_history.specs.Leaking.{ahead, leak_of, ranked, total};
ghost use Rattle.area_history.specs.Totals.{AreWithin, added, by_subpool, by_task, group_of_subpool, group_of_task};
ghost use Rattle.area_history.specs.declared.grant.Leak.{Leak as TheLeak};

use crate::grant::{AreaGrant, Leak};
use crate::totals::{Group, Totals};
use mvs_model::name::Name;
use mvs_model::place::{Addr, Place};
use mvs_model::subpool::SubNo;
use std::marker::Model;
use std::mem::swap;

/// The most leaks that have a line of their own.
pub(crate) const MOST_LINES: usize = 10;

/// The largest leaks, in their order, in an array. Array elements after them are not part of the value.
#[derive(Drop)]
pub(crate) struct Largest {
    items: [Leak; MOST_LINES],
    len: usize,
}

impl Model for Largest {
    ghost use Rattle.std.specs.Prelude.{List, take, ◌≤◌};
    ghost use Rattle.area_history.specs.declared.grant.Leak.{Leak};

    ghost Value = { List Leak };

    ghost view = { λ l. take l.len l.items };

    ghost invariant = { λ l. l.len ≤ 10 };
}

/// What is left of areas: the ten largest, how many there are, how many bytes they have together, and their totals by subpool
/// and by task, the last area first.
#[derive(Drop)]
pub struct Leaks {
    pub(crate) largest: Largest,
    pub(crate) count: usize,
    // Each leak has less than 2 GB, so the sum for any number of them fits.
    pub(crate) bytes: u128,
    pub(crate) subpools: Totals,
    pub(crate) tasks: Totals,
}

// Puts a leak before the first of some. It becomes the last one, which has no place any more.
fn shift(leaks: &mut [Leak], leak: &mut Leak)
    ensures len { length leaks.new ≡ length leaks.old }
    ensures all { leaks.new ++ leak.new ∷ [] ≡ leak.old ∷ leaks.old }
{
    let Some((first, others)) = leaks.split_first_mut() else {
        return;
    };
    swap(first, leak);
    shift(others, leak);
}

// Puts a leak before the first that is not larger. It becomes the last one, which has no place any more.
fn put_ahead(leaks: &mut [Leak], leak: &mut Leak)
    ensures len { length leaks.new ≡ length leaks.old }
    ensures all { leaks.new ++ leak.new ∷ [] ≡ ahead leak.old leaks.old }
{
    let Some((first, others)) = leaks.split_first_mut() else {
        return;
    };
    if first.bytes > leak.bytes {
        put_ahead(others, leak);
        return;
    }
    swap(first, leak);
    shift(others, leak);
}

impl Largest {
    // Makes an empty list.
    fn none() -> Largest
        ensures { result ≡ [] }
    {
        let name = Name::of(b"NONE");
        let grant = AreaGrant {
            area: name,
            place: Place::new(Addr::new(0), 8),
            line: 0,
            task: name,
            subpool: SubNo::of(0),
            owner: name,
        };
        Largest {
            items: [Leak { grant, bytes: 0 }; MOST_LINES],
            len: 0,
        }
    }

    /// Returns the leaks.
    pub(crate) fn as_slice(&self) -> &[Leak]
        ensures items { result.now ≡ self.now }
        ensures most { length result.now ≤ 10 }
    {
        &self.items[..self.len]
    }

    // Removes all leaks.
    fn clear(&mut self)
        ensures { self.new ≡ [] }
    {
        self.len = 0;
    }

    // Returns whether there is no room for another leak.
    fn is_full(&self) -> bool
        ensures full { IsTrue result ↔ (length self.now ≡ 10) }
        ensures most { length self.now ≤ 10 }
    {
        self.as_slice().len() == MOST_LINES
    }

    // Appends a leak.
    fn put(&mut self, leak: Leak)
        requires { length self.old < 10 }
        ensures { self.new ≡ self.old ++ leak ∷ [] }
    {
        self.items[self.len] = leak;
        self.len += 1;
    }

    // Appends a leak, if there is room.
    fn push(&mut self, leak: Leak)
        ensures { self.new ≡ take 10 (self.old ++ leak ∷ []) }
    {
        if !self.is_full() {
            self.put(leak);
        }
    }

    // Puts a leak before the first that is not larger.
    fn insert(&mut self, leak: Leak)
        ensures { self.new ≡ take 10 (ahead leak self.old) }
    {
        let mut last = leak;
        put_ahead(&mut self.items[..self.len], &mut last);
        self.push(last);
    }
}

impl Leaks {
    /// Makes the leaks of a step that has none.
    pub(crate) fn none() -> Leaks
        ensures largest { result.largest ≡ [] }
        ensures count { result.count ≡ 0 }
        ensures bytes { result.bytes ≡ 0 }
        ensures subpools { result.subpools ≡ [] }
        ensures tasks { result.tasks ≡ [] }
    {
        Leaks {
            largest: Largest::none(),
            count: 0,
            bytes: 0,
            subpools: Totals::none(),
            tasks: Totals::none(),
        }
    }

    // Adds a leak to the totals.
    fn add_totals(&mut self, leak: &Leak)
        requires few { self.old.count + 1 < 2 ^ 64 }
        requires most { leak.now.bytes ≤ 2 ^ 31 }
        requires subpools { AreWithin self.old.count self.old.subpools }
        requires tasks { AreWithin self.old.count self.old.tasks }
        ensures largest { self.new.largest ≡ self.old.largest }
        ensures count { self.new.count ≡ self.old.count }
        ensures bytes { self.new.bytes ≡ self.old.bytes }
        ensures subpools { self.new.subpools
            ≡ take 10 (added (group_of_subpool leak.now.grant) leak.now.bytes self.old.subpools) }
        ensures tasks { self.new.tasks
            ≡ take 10 (added (group_of_task leak.now.grant) leak.now.bytes self.old.tasks) }
    {
        self.subpools
            .add(&Group::of_subpool(&leak.grant), leak.bytes);
        self.tasks.add(&Group::of_task(&leak.grant), leak.bytes);
    }

    // Adds a leak that is before the others.
    fn add_leak(&mut self, leak: &Leak)
        requires few { self.old.count + 1 < 2 ^ 64 }
        requires most { self.old.bytes + leak.now.bytes < 2 ^ 128 }
        requires one { leak.now.bytes ≤ 2 ^ 31 }
        requires subpools { AreWithin self.old.count self.old.subpools }
        requires tasks { AreWithin self.old.count self.old.tasks }
        ensures largest { self.new.largest ≡ take 10 (ahead leak.now self.old.largest) }
        ensures count { self.new.count ≡ self.old.count + 1 }
        ensures bytes { self.new.bytes ≡ self.old.bytes + leak.now.bytes }
        ensures subpools { self.new.subpools
            ≡ take 10 (added (group_of_subpool leak.now.grant) leak.now.bytes self.old.subpools) }
        ensures tasks { self.new.tasks
            ≡ take 10 (added (group_of_task leak.now.grant) leak.now.bytes self.old.tasks) }
    {
        self.add_totals(leak);
        self.largest.insert(*leak);
        self.count += 1;
        self.bytes += u128::from(leak.bytes);
    }

    /// Adds an area that was granted before those of the other leaks, if a doubleword of it is left.
    pub(crate) fn add(&mut self, grant: &AreaGrant, doublewords: u32)
        requires few { self.old.count + 1 < 2 ^ 64 }
        requires most { doublewords ≤ 2 ^ 28 }
        requires bytes { self.old.bytes ≤ 2 ^ 31 * self.old.count }
        requires subpools { AreWithin self.old.count self.old.subpools }
        requires tasks { AreWithin self.old.count self.old.tasks }
        ensures largest { (others : List TheLeak) → self.old.largest ≡ take 10 (ranked others)
            → self.new.largest ≡ take 10 (ranked (leak_of grant.now (8 * doublewords) ++ others)) }
        ensures count { self.new.count ≡ self.old.count + length (leak_of grant.now (8 * doublewords)) }
        ensures bytes { self.new.bytes ≡ self.old.bytes + total (leak_of grant.now (8 * doublewords)) }
        ensures most { self.new.bytes ≤ 2 ^ 31 * self.new.count }
        ensures subpools { (others : List TheLeak) → self.old.subpools ≡ take 10 (by_subpool others)
            → self.new.subpools ≡ take 10 (by_subpool (leak_of grant.now (8 * doublewords) ++ others)) }
        ensures tasks { (others : List TheLeak) → self.old.tasks ≡ take 10 (by_task others)
            → self.new.tasks ≡ take 10 (by_task (leak_of grant.now (8 * doublewords) ++ others)) }
        ensures within_subpools { AreWithin self.new.count self.new.subpools }
        ensures within_tasks { AreWithin self.new.count self.new.tasks }
    {
        if doublewords == 0 {
            return;
        }
        self.add_leak(&Leak {
            grant: *grant,
            bytes: 8 * doublewords,
        });
    }

    /// Returns whether there is a leak.
    pub(crate) fn is_some(&self) -> bool
        ensures { result ≡ nat_lt 0 self.now.count }
    {
        self.count > 0
    }

    /// Removes all leaks.
    pub(crate) fn clear(&mut self)
        ensures largest { self.new.largest ≡ [] }
        ensures count { self.new.count ≡ 0 }
        ensures bytes { self.new.bytes ≡ 0 }
        ensures subpools { self.new.subpools ≡ [] }
        ensures tasks { self.new.tasks ≡ [] }
    {
        self.largest.clear();
        self.count = 0;
        self.bytes = 0;
        self.subpools.clear();
        self.tasks.clear();
    }
}
