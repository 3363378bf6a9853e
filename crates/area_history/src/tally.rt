//! What is left of the areas of a step.

ghost use Rattle.std.specs.Prelude.{◌≡◌, ◌≤◌, ◌+◌, ◌/◌, ◌∷◌, [], ℕ, length, take, true, if◌then◌else◌};
ghost use Rattle.area_history.specs.Leaking.{Fit, IsClear, has_room, is_covered, is_marked, leaks, ranked, selects, total};
ghost use Rattle.area_history.specs.Totals.{by_subpool, by_task};

use crate::grant::{AreaGrant, Holdings, Selection};
use crate::largest::Leaks;
use crate::marks::Marks;

// Returns the doublewords of an area, if it is selected.
fn selected(which: &Selection, grant: &AreaGrant, doublewords: u32) -> u32
    ensures { result ≡ (if selects which.now grant.now then doublewords else 0) }
{
    if which.selects(grant) { doublewords } else { 0 }
}

// Returns what is left of the selected areas, the last one first. It marks the doublewords of each area.
pub(crate) fn tally<P: Holdings>(
    grants: &[AreaGrant],
    marks: &mut Marks,
    which: &Selection,
    step: &P,
) -> Leaks
    requires clear { IsClear marks.old }
    requires fit { Fit marks.old grants.now }
    ensures largest { result.largest
        ≡ take 10 (ranked (leaks (selects which.now) (P.plain step.now) grants.now)) }
    ensures count { result.count ≡ length (leaks (selects which.now) (P.plain step.now) grants.now) }
    ensures bytes { result.bytes ≡ total (leaks (selects which.now) (P.plain step.now) grants.now) }
    ensures subpools { result.subpools
        ≡ take 10 (by_subpool (leaks (selects which.now) (P.plain step.now) grants.now)) }
    ensures tasks { result.tasks
        ≡ take 10 (by_task (leaks (selects which.now) (P.plain step.now) grants.now)) }
    ensures marks { (d : ℕ) → is_marked marks.new d ≡ is_covered grants.now d }
    ensures room { (d : ℕ) → has_room marks.new d ≡ has_room marks.old d }
{
    let mut found = Leaks::none();
    let mut rest = grants.len();
    'grants: while rest > 0 {
        rest -= 1;
        let grant = &grants[rest];
        let doublewords = marks.take(grant.place, step);
        found.add(grant, selected(which, grant, doublewords));
    }
    found
}

// Removes the marks of areas.
pub(crate) fn unmark(grants: &[AreaGrant], marks: &mut Marks)
    requires marked { (d : ℕ) → is_marked marks.old d ≡ true → is_covered grants.now d ≡ true }
    requires fit { Fit marks.old grants.now }
    ensures clear { IsClear marks.new }
    ensures room { (d : ℕ) → has_room marks.new d ≡ has_room marks.old d }
{
    let mut done = 0;
    'grants: while done < grants.len() {
        marks.clear(grants[done].place);
        done += 1;
    }
}
