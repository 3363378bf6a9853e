//! The last two areas that have each doubleword, and what is left of areas by them.

ghost use Rattle.std.specs.Prelude.{◌≡◌, ◌<◌, ◌≤◌, ◌+◌, ◌/◌, ◌^◌, ◌++◌, ◌∷◌, ◌&&◌, ◌==◌, [], ℕ, List, cond, drop, false, not, true, length, take, if◌then◌else◌, IfOk, OnOk, ◌⊎◌};
ghost use Rattle.mvs_model.specs.Finite.{count_below};
ghost use Rattle.area_history.specs.Histories.{no_two, two_after};
ghost use Rattle.area_history.specs.LastAreas.{AreVisible, IsHidden, IsIndexOf, IsWhole, area_of, is_last, is_whole, later_numbers, no_numbers, numbers_at};
ghost use Rattle.area_history.specs.Leaking.{HasRoom, has_doubleword, has_room, leaks, ranked, selects, total};
ghost use Rattle.area_history.specs.Totals.{by_subpool, by_task};
ghost use Rattle.area_history.specs.declared.grant.AreaGrant.{AreaGrant as TheGrant};

use crate::by_doubleword::ByDoubleword;
use crate::findings::LastTwo;
use crate::grant::{AreaGrant, Holdings, Selection};
use crate::largest::Leaks;
use mvs_model::error::OutOfMemory;
use mvs_model::place::Place;
use std::alloc::Global;

/// The last two areas that have a doubleword, by their numbers from 1 on in the order in which they were granted, or 0.
#[derive(Clone, Copy, Debug, PartialEq, Eq)]
pub(crate) struct LastNumbers {
    latest: u32,
    previous: u32,
}

/// For each doubleword, the last two areas that have it, of those that were added.
#[derive(Drop)]
pub(crate) struct LastAreas {
    numbers: ByDoubleword<LastNumbers>,
    // How many areas were added.
    count: u32,
    // For each of them, whether no later one has a doubleword of it.
    whole: Vec<bool>,
    // The areas that later ones may not cover, by their numbers from 0 on.
    visible: Vec<u32>,
    alloc: Global,
}

// Returns the numbers of a doubleword that no area has.
fn no_numbers() -> LastNumbers
    ensures { result ≡ no_numbers }
{
    LastNumbers {
        latest: 0,
        previous: 0,
    }
}

// Returns the area with a number, if it is not 0.
fn area_of(grants: &[AreaGrant], number: u32) -> Option<AreaGrant>
    ensures { result ≡ area_of grants.now number }
{
    if number == 0 {
        return None;
    }
    grants.get(number as usize - 1).copied()
}

impl LastAreas {
    /// Makes those of a step in which no area was granted. It allocates no memory.
    pub(crate) fn new(alloc: Global) -> LastAreas
        ensures { (grants : List TheGrant) → IsIndexOf result grants }
    {
        LastAreas {
            numbers: ByDoubleword::new(alloc),
            count: 0,
            whole: Vec::new(alloc),
            visible: Vec::new(alloc),
            alloc,
        }
    }

    /// Forgets all areas.
    pub(crate) fn clear(&mut self)
        ensures { (grants : List TheGrant) → IsIndexOf self.new grants }
    {
        self.numbers.reset();
        self.count = 0;
        self.whole.clear();
        self.visible.clear();
    }

    // Notes that a later area has a doubleword of an area, by the number of that from 1 on, or 0 for none.
    fn cut(&mut self, number: u32)
        ensures whole { (n : ℕ) → is_whole self.new n ≡ (is_whole self.old n && not (n + 1 == number)) }
        ensures len { length self.new.whole.items ≡ length self.old.whole.items }
        ensures numbers { self.new.numbers ≡ self.old.numbers }
        ensures count { self.new.count ≡ self.old.count }
        ensures visible { self.new.visible ≡ self.old.visible }
    {
        if number > 0 && number as usize <= self.whole.len() {
            self.whole[number as usize - 1] = false;
        }
    }

    // Makes an area the last one that has a doubleword.
    fn put_one(&mut self, doubleword: u32, number: u32)
        requires { has_room self.old.numbers doubleword ≡ true }
        ensures at { numbers_at self.new doubleword
            ≡ record { latest = number; previous = (numbers_at self.old doubleword).latest } }
        ensures others { (d : ℕ) → (d == doubleword) ≡ false
            → numbers_at self.new d ≡ numbers_at self.old d }
        ensures whole { (n : ℕ) → is_whole self.new n
            ≡ (is_whole self.old n && not (n + 1 == (numbers_at self.old doubleword).latest)) }
        ensures room { (d : ℕ) → has_room self.new.numbers d ≡ has_room self.old.numbers d }
        ensures count { self.new.count ≡ self.old.count }
        ensures len { length self.new.whole.items ≡ length self.old.whole.items }
        ensures visible { self.new.visible ≡ self.old.visible }
    {
        let numbers = self.numbers.get(doubleword, no_numbers());
        self.cut(numbers.latest);
        self.numbers.set(
            doubleword,
            LastNumbers {
                latest: number,
                previous: numbers.latest,
            },
        );
    }

    // Makes an area the last one that has the doublewords of a place.
    fn put(&mut self, place: Place, number: u32)
        requires { HasRoom self.old.numbers place }
        ensures numbers { (d : ℕ) → numbers_at self.new d
            ≡ later_numbers d number (numbers_at self.old d) place }
        ensures whole { (n : ℕ) → is_whole self.new n ≡ true
            → (is_whole self.old n ≡ true)
            × ((d : ℕ) → has_doubleword place d ≡ true → is_last self.old n d ≡ false) }
        ensures count { self.new.count ≡ self.old.count }
        ensures len { length self.new.whole.items ≡ length self.old.whole.items }
        ensures visible { self.new.visible ≡ self.old.visible }
    {
        let (first, count) = (place.addr().get() / 8, place.len() / 8);
        for k in 0..count {
            self.put_one(first + k, number);
        }
    }

    // Adds a number to the lists of areas. Returns whether memory was enough.
    fn add_number(&mut self) -> bool
        ensures numbers { self.new.numbers ≡ self.old.numbers }
        ensures count { self.new.count ≡ self.old.count }
        ensures whole { result ≡ true → self.new.whole.items ≡ self.old.whole.items ++ true ∷ [] }
        ensures visible { result ≡ true → self.new.visible.items ≡ self.old.visible.items ++ self.old.count ∷ [] }
        ensures same_whole { result ≡ false → self.new.whole.items ≡ self.old.whole.items }
        ensures same_visible { result ≡ false → self.new.visible.items ≡ self.old.visible.items }
    {
        let Ok(()) = self.visible.push(self.count) else {
            return false;
        };
        let Ok(()) = self.whole.push(true) else {
            self.visible.pop();
            return false;
        };
        true
    }

    // Adds the next area. Returns whether memory was enough.
    fn add(&mut self, grants: &[AreaGrant]) -> bool
        requires index { IsIndexOf self.old grants.now }
        requires next { self.old.count < length grants.now }
        requires most { self.old.count + 1 < 2 ^ 32 }
        ensures index { IsIndexOf self.new grants.now }
        ensures count { result ≡ true → self.new.count ≡ self.old.count + 1 }
    {
        let place = grants[self.count as usize].place;
        let Ok(()) = self.numbers.grow(place, no_numbers()) else {
            return false;
        };
        let number = self.count + 1;
        if !self.add_number() {
            return false;
        }
        self.put(place, number);
        self.count = number;
        true
    }

    // Returns whether an area has a doubleword that no later one has.
    fn is_visible(&self, number: u32, place: Place) -> bool
        requires { number + 1 < 2 ^ 32 }
        ensures { result ≡ false → IsHidden self.now number place }
    {
        if self.is_whole(number) {
            return true;
        }
        let (first, count) = (place.addr().get() / 8, place.len() / 8);
        for k in 0..count {
            if self.is_last(number, first + k) {
                return true;
            }
        }
        false
    }

    // Appends the number of an area, if that has a doubleword which no later one has.
    fn keep_visible(
        &self,
        kept: &mut Vec<u32>,
        number: u32,
        place: Place,
    ) -> Result<(), OutOfMemory>
        requires { number + 1 < 2 ^ 32 }
        ensures { OnOk result
            ((kept.new.items ≡ kept.old.items ++ number ∷ [])
            ⊎ ((kept.new.items ≡ kept.old.items) × IsHidden self.now number place)) }
    {
        if !self.is_visible(number, place) {
            return Ok(());
        }
        kept.push(number).map_err(|_| OutOfMemory)
    }

    // Returns the numbers of the areas that have a doubleword which no later one has.
    fn visible_now(&self, grants: &[AreaGrant]) -> Result<Vec<u32>, OutOfMemory>
        requires { IsIndexOf self.now grants.now }
        ensures { IfOk result (λ kept. AreVisible self.now grants.now 0 kept.items self.now.count) }
    {
        let numbers = self.visible.as_slice();
        let mut kept = Vec::new(self.alloc);
        let mut done = 0;
        'areas: while done < numbers.len() {
            let number = numbers[done];
            self.keep_visible(&mut kept, number, grants[number as usize].place)?;
            done += 1;
        }
        Ok(kept)
    }

    // Forgets the numbers of the areas that later ones cover, if memory allows.
    fn prune(&mut self, grants: &[AreaGrant])
        requires { IsIndexOf self.old grants.now }
        ensures { IsIndexOf self.new grants.now }
    {
        let Ok(kept) = self.visible_now(grants) else {
            return;
        };
        self.visible = kept;
    }

    /// Adds the areas that it does not have, until memory or its numbers are exhausted.
    pub(crate) fn add_rest(&mut self, grants: &[AreaGrant])
        requires { IsIndexOf self.old grants.now }
        ensures { IsIndexOf self.new grants.now }
    {
        'grants: while (self.count as usize) < grants.len() && self.count < u32::MAX {
            if !self.add(grants) {
                return;
            }
        }
    }

    /// Adds the areas that it does not have, and then forgets which ones later areas cover.
    pub(crate) fn renew(&mut self, grants: &[AreaGrant])
        requires { IsIndexOf self.old grants.now }
        ensures { IsIndexOf self.new grants.now }
    {
        let count = self.count;
        self.add_rest(grants);
        if self.count > count {
            self.prune(grants);
        }
    }

    /// Returns how many areas were added.
    pub(crate) fn len(&self) -> usize
        ensures { result ≡ self.now.count }
    {
        self.count as usize
    }

    /// Returns the last two areas that have a doubleword, of those that were added.
    pub(crate) fn last_two(&self, doubleword: u32, grants: &[AreaGrant]) -> LastTwo
        requires { IsIndexOf self.now grants.now }
        ensures { result ≡ two_after doubleword no_two (take self.now.count grants.now) }
    {
        let numbers = self.numbers.get(doubleword, no_numbers());
        LastTwo {
            previous: area_of(grants, numbers.previous),
            latest: area_of(grants, numbers.latest),
        }
    }

    // Returns whether an area has a doubleword that no later one has.
    fn is_last(&self, number: u32, doubleword: u32) -> bool
        requires { number + 1 < 2 ^ 32 }
        ensures { result ≡ is_last self.now number doubleword }
    {
        self.numbers.get(doubleword, no_numbers()).latest == number + 1
    }

    // Returns 1 if an area has a doubleword that is held, and no later one has it, else 0.
    fn count_one<P: Holdings>(&self, number: u32, doubleword: u32, step: &P) -> u32
        requires { number + 1 < 2 ^ 32 }
        ensures count { result ≡ cond (P.plain step.now doubleword && is_last self.now number doubleword) 1 0 }
        ensures most { result ≤ 1 }
    {
        if !self.is_last(number, doubleword) {
            return 0;
        }
        u32::from(step.is_plain(doubleword))
    }

    // Counts the doublewords of an area that are held and are in no later area.
    fn count_each<P: Holdings>(&self, number: u32, place: Place, step: &P) -> u32
        requires { number + 1 < 2 ^ 32 }
        ensures count { result ≡ count_below (place.len / 8)
            (λ k. P.plain step.now (place.addr / 8 + k) && is_last self.now number (place.addr / 8 + k)) }
        ensures most { result ≤ 2 ^ 28 }
    {
        let (first, count) = (place.addr().get() / 8, place.len() / 8);
        let mut left = 0u32;
        for k in 0..count {
            left += self.count_one(number, first + k, step);
        }
        left
    }

    // Returns how many doublewords of an area are held and are in no later area. If all are held, and no later area has one, its
    // time does not depend on their number.
    fn count_left<P: Holdings>(&self, number: u32, place: Place, step: &P) -> u32
        requires few { number + 1 < 2 ^ 32 }
        requires whole { is_whole self.now number ≡ true → IsWhole self.now number place }
        ensures count { result ≡ count_below (place.len / 8)
            (λ k. P.plain step.now (place.addr / 8 + k) && is_last self.now number (place.addr / 8 + k)) }
        ensures most { result ≤ 2 ^ 28 }
    {
        if self.is_whole(number) && step.has_plain(place) {
            return place.len() / 8;
        }
        self.count_each(number, place, step)
    }

    // Returns whether no later area has a doubleword of an area.
    fn is_whole(&self, number: u32) -> bool
        ensures { result ≡ is_whole self.now number }
    {
        match self.whole.get(number as usize) {
            Some(whole) => *whole,
            None => false,
        }
    }

    // Counts the doublewords of an area that are held and are in no later area, if the area is selected.
    fn count_selected<P: Holdings>(
        &self,
        number: u32,
        grant: &AreaGrant,
        which: &Selection,
        step: &P,
    ) -> u32
        requires few { number + 1 < 2 ^ 32 }
        requires whole { is_whole self.now number ≡ true → IsWhole self.now number grant.now.place }
        ensures count { result ≡ (if selects which.now grant.now then count_below (grant.now.place.len / 8)
            (λ k. P.plain step.now (grant.now.place.addr / 8 + k) && is_last self.now number (grant.now.place.addr / 8 + k)) else 0) }
        ensures most { result ≤ 2 ^ 28 }
    {
        if !which.selects(grant) {
            return 0;
        }
        self.count_left(number, grant.place, step)
    }

    /// Returns what is left in a step of the selected areas from one of them on, if all areas are in the index. The last area comes
    /// first.
    pub(crate) fn tally_from<P: Holdings>(
        &self,
        first: usize,
        grants: &[AreaGrant],
        which: &Selection,
        step: &P,
    ) -> Leaks
        requires first { first ≤ length grants.now }
        requires index { IsIndexOf self.now grants.now }
        requires all { self.now.count ≡ length grants.now }
        ensures largest { result.largest
            ≡ take 10 (ranked (leaks (selects which.now) (P.plain step.now) (drop first grants.now))) }
        ensures count { result.count
            ≡ length (leaks (selects which.now) (P.plain step.now) (drop first grants.now)) }
        ensures bytes { result.bytes
            ≡ total (leaks (selects which.now) (P.plain step.now) (drop first grants.now)) }
        ensures subpools { result.subpools
            ≡ take 10 (by_subpool (leaks (selects which.now) (P.plain step.now) (drop first grants.now))) }
        ensures tasks { result.tasks
            ≡ take 10 (by_task (leaks (selects which.now) (P.plain step.now) (drop first grants.now))) }
    {
        let numbers = self.visible.as_slice();
        let mut found = Leaks::none();
        let mut rest = numbers.len();
        'areas: while rest > 0 {
            let number = numbers[rest - 1];
            if (number as usize) < first {
                return found;
            }
            let grant = &grants[number as usize];
            found.add(grant, self.count_selected(number, grant, which, step));
            rest -= 1;
        }
        found
    }
}
