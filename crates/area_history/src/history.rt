//! The areas that were granted in the step that runs.

ghost use Rattle.std.specs.Prelude.{◌≡◌, ◌≤◌, ◌+◌, ◌/◌, ◌++◌, ◌∷◌, [], drop, length, take, OnOk};
ghost use Rattle.area_history.specs.Histories.{later_two, no_two, two_after};
ghost use Rattle.area_history.specs.Leaking.{has_doubleword, leaks, ranked, selects, total};
ghost use Rattle.area_history.specs.Totals.{by_subpool, by_task};

use crate::findings::LastTwo;
use crate::grant::{AreaGrant, Holdings, Selection};
use crate::largest::Leaks;
use crate::last_areas::LastAreas;
use crate::marks::Marks;
use crate::tally::{tally, unmark};
use mvs_model::error::OutOfMemory;
use mvs_model::place::Place;
use std::alloc::Global;
use std::marker::Model;

/// The areas that were granted in a step, in their order. It has room to find what is left of them.
#[derive(Drop)]
pub struct AreaHistory {
    grants: Vec<AreaGrant>,
    // Between two calls nothing is marked.
    marks: Marks,
    // It has the areas that were granted before it was needed last.
    last_areas: LastAreas,
}

impl Model for AreaHistory {
    ghost use Rattle.std.specs.Prelude.{List};
    ghost use Rattle.area_history.specs.declared.grant.AreaGrant.{AreaGrant};
    ghost use Rattle.area_history.specs.LastAreas.{IsIndexOf};
    ghost use Rattle.area_history.specs.Leaking.{Fit, IsClear};

    ghost Value = { List AreaGrant };

    ghost view = { λ h. h.grants.items };

    ghost invariant = { λ h. IsClear h.marks × Fit h.marks h.grants.items × IsIndexOf h.last_areas h.grants.items };
}

// Returns whether a place has a doubleword.
fn has_doubleword(place: Place, doubleword: u32) -> bool
    ensures { result ≡ has_doubleword place doubleword }
{
    let first = place.addr().get() / 8;
    first <= doubleword && doubleword < first + place.len() / 8
}

// Returns the last two areas that have a doubleword, after one more.
fn later_two(doubleword: u32, two: LastTwo, grant: &AreaGrant) -> LastTwo
    ensures { result ≡ later_two doubleword two grant.now }
{
    if has_doubleword(grant.place, doubleword) {
        LastTwo {
            previous: two.latest,
            latest: Some(*grant),
        }
    } else {
        two
    }
}

// Returns the last two areas that have a doubleword, after more.
fn two_after(doubleword: u32, mut two: LastTwo, grants: &[AreaGrant]) -> LastTwo
    ensures { result ≡ two_after doubleword two grants.now }
{
    let mut done = 0;
    'grants: while done < grants.len() {
        two = later_two(doubleword, two, &grants[done]);
        done += 1;
    }
    two
}

impl AreaHistory {
    /// Makes the history of a step in which no area was granted. It allocates no memory.
    pub fn new(alloc: Global) -> AreaHistory
        ensures { result ≡ [] }
    {
        AreaHistory {
            grants: Vec::new(alloc),
            marks: Marks::new(alloc),
            last_areas: LastAreas::new(alloc),
        }
    }

    /// Forgets all areas.
    pub fn clear(&mut self)
        ensures { self.new ≡ [] }
    {
        self.grants.clear();
        self.last_areas.clear();
    }

    /// Adds an area.
    pub fn push(&mut self, grant: &AreaGrant) -> Result<(), OutOfMemory>
        ensures { OnOk result (self.new ≡ self.old ++ grant.now ∷ []) }
    {
        self.marks.grow(grant.place, false)?;
        self.grants.push(*grant).map_err(|_| OutOfMemory)?;
        Ok(())
    }

    /// Returns the last two areas that have a doubleword. Each area is looked at in one call only, if memory allows.
    pub(crate) fn last_two(&mut self, doubleword: u32) -> LastTwo
        ensures two { result ≡ two_after doubleword no_two self.old }
        ensures kept { self.new ≡ self.old }
    {
        let grants = self.grants.as_slice();
        self.last_areas.add_rest(grants);
        let two = self.last_areas.last_two(doubleword, grants);
        two_after(doubleword, two, &grants[self.last_areas.len()..])
    }

    /// Returns how many areas there are.
    pub(crate) fn len(&self) -> usize
        ensures { result ≡ length self.now }
    {
        self.grants.len()
    }

    // Returns what is left in a step of the selected areas from one of them on. It marks all their doublewords.
    fn mark_from<P: Holdings>(&mut self, first: usize, which: &Selection, step: &P) -> Leaks
        requires { first ≤ length self.old }
        ensures kept { self.new ≡ self.old }
        ensures largest { result.largest
            ≡ take 10 (ranked (leaks (selects which.now) (P.plain step.now) (drop first self.old))) }
        ensures count { result.count
            ≡ length (leaks (selects which.now) (P.plain step.now) (drop first self.old)) }
        ensures bytes { result.bytes
            ≡ total (leaks (selects which.now) (P.plain step.now) (drop first self.old)) }
        ensures subpools { result.subpools
            ≡ take 10 (by_subpool (leaks (selects which.now) (P.plain step.now) (drop first self.old))) }
        ensures tasks { result.tasks
            ≡ take 10 (by_task (leaks (selects which.now) (P.plain step.now) (drop first self.old))) }
    {
        let found = tally(&self.grants[first..], &mut self.marks, which, step);
        unmark(&self.grants[first..], &mut self.marks);
        found
    }

    /// Returns what is left in a step of the selected areas from one of them on. It takes one look at an area that is held and
    /// overlaps no later one, and none at an area that later ones cover. Each area is indexed in one call only. If memory is exhausted,
    /// it marks the doublewords of all of them.
    pub(crate) fn survey_from<P: Holdings>(
        &mut self,
        first: usize,
        which: &Selection,
        step: &P,
    ) -> Leaks
        ensures kept { self.new ≡ self.old }
        ensures largest { result.largest
            ≡ take 10 (ranked (leaks (selects which.now) (P.plain step.now) (drop first self.old))) }
        ensures count { result.count
            ≡ length (leaks (selects which.now) (P.plain step.now) (drop first self.old)) }
        ensures bytes { result.bytes
            ≡ total (leaks (selects which.now) (P.plain step.now) (drop first self.old)) }
        ensures subpools { result.subpools
            ≡ take 10 (by_subpool (leaks (selects which.now) (P.plain step.now) (drop first self.old))) }
        ensures tasks { result.tasks
            ≡ take 10 (by_task (leaks (selects which.now) (P.plain step.now) (drop first self.old))) }
    {
        if first > self.grants.len() {
            return Leaks::none();
        }
        let grants = self.grants.as_slice();
        self.last_areas.renew(grants);
        if self.last_areas.len() < grants.len() {
            return self.mark_from(first, which, step);
        }
        self.last_areas.tally_from(first, grants, which, step)
    }

    /// Returns what is left of selected areas in a step.
    pub fn survey<P: Holdings>(&mut self, which: &Selection, step: &P) -> Leaks
        ensures kept { self.new ≡ self.old }
        ensures largest { result.largest
            ≡ take 10 (ranked (leaks (selects which.now) (P.plain step.now) self.old)) }
        ensures count { result.count ≡ length (leaks (selects which.now) (P.plain step.now) self.old) }
        ensures bytes { result.bytes ≡ total (leaks (selects which.now) (P.plain step.now) self.old) }
        ensures subpools { result.subpools
            ≡ take 10 (by_subpool (leaks (selects which.now) (P.plain step.now) self.old)) }
        ensures tasks { result.tasks
            ≡ take 10 (by_task (leaks (selects which.now) (P.plain step.now) self.old)) }
    {
        self.survey_from(0, which, step)
    }
}
