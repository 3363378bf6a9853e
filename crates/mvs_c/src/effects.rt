//! What a granted request changed.

ghost use Rattle.std.specs.Prelude.{◌≡◌, ◌≤◌, ◌<◌, ◌+◌, ◌++◌, ◌∷◌, [], length};
ghost use Rattle.mvs_model.specs.Numbers.{task_numbers};
ghost use Rattle.mvs_model.specs.Reports.{each_below};
ghost use Rattle.mvs_job.specs.Granting.{free_in};
ghost use Rattle.request_forms.specs.Facts.{listed};
ghost use Rattle.mvs_c.specs.Effects.{area_effect, area_effects, attach_effects, cell_effect, created_effect, emptied_effect, freed_pages, grant_effects, greater_effect, obtained, part_effect, part_pages, part_value, place_in, places_in, subpool_effect, subtask_effect, taken_pages};

use crate::asked::Asked;
use crate::baseline::Baseline;
use crate::effect::{EffectFields, obtained_rule, of_kind, of_place, of_subpool};
use crate::recorder::Recorder;
use line_text::is_same_name;
use mvs_job::Job;
use mvs_model::bounded::Length;
use mvs_model::name::Name;
use mvs_model::numbers::TASK_NUMBERS;
use mvs_model::place::Place;
use mvs_model::report::LastPart;
use mvs_model::request::Reply;
use mvs_model::short_list::ShortList;
use mvs_model::subpool::SubNo;

const MOST_EFFECTS: usize = 260;

/// What a request changed.
pub type Effects = ShortList<EffectFields, 0, MOST_EFFECTS>;

// Returns the place of the area or the cell that a reply grants.
fn place_in(reply: &Reply) -> Option<Place>
    ensures { result ≡ place_in reply.now }
{
    match reply {
        Reply::Obtained(place) | Reply::Cell(place) => Some(*place),
        Reply::NotRun
        | Reply::Rc0
        | Reply::Rc4
        | Reply::Listed(_)
        | Reply::NoCell
        | Reply::Attached
        | Reply::Ended
        | Reply::Done
        | Reply::Abended(..) => None,
    }
}

// Returns the places that a reply grants to a list.
fn places_in(reply: &Reply) -> &[Place]
    ensures places { result.now ≡ places_in reply.now }
    ensures most { length result.now ≤ 16 }
{
    match reply {
        Reply::Listed(places) => places.as_slice(),
        Reply::NotRun
        | Reply::Rc0
        | Reply::Rc4
        | Reply::Obtained(_)
        | Reply::Cell(_)
        | Reply::NoCell
        | Reply::Attached
        | Reply::Ended
        | Reply::Done
        | Reply::Abended(..) => &[],
    }
}

// Makes the effect that an area was obtained from a subpool.
fn obtained(place: Place, least: u32, most: u32, number: SubNo, owner: &Name) -> EffectFields
    ensures { result ≡ obtained place least most (number, owner.now) }
{
    EffectFields {
        address: place.addr().get(),
        length: place.len(),
        least,
        most,
        ..of_subpool(1, obtained_rule(place.len(), least, most), number, owner)
    }
}

// Returns the effect of an area that was obtained from the subpool that a task means by a number.
fn area_effect(
    job: &Job,
    task: &Name,
    number: u8,
    place: Option<Place>,
    least: u32,
    most: u32,
) -> Option<EffectFields>
    ensures { result ≡ area_effect job.now task.now number place least most }
{
    let place = place?;
    let (number, owner) = job.step().machine().resolved_owner(task, number)?;
    Some(obtained(place, least, most, number, &owner))
}

// Returns the effect that no greater length had a place.
fn greater_effect(before: &Baseline, place: Option<Place>, most: u32) -> Option<EffectFields>
    ensures { result ≡ greater_effect before.now place most }
{
    let place = place?;
    if u64::from(place.len()) < u64::from(most).div_ceil(8) * 8 {
        return Some(EffectFields {
            pages: u32::from(before.below),
            pages_above: u32::from(before.above),
            ..of_kind(2, 20)
        });
    }
    None
}

// Returns the effect of a subpool that a task did not mean by the number before.
fn subpool_effect(before: &Baseline, job: &Job, task: &Name, number: u8) -> Option<EffectFields>
    ensures { result ≡ subpool_effect before.now job.now task.now number }
{
    if before.had {
        return None;
    }
    let (number, owner) = job.step().machine().resolved_owner(task, number)?;
    Some(of_subpool(3, 42, number, &owner))
}

// Returns the number of free pages in both regions.
fn sum(below: u16, above: u16) -> u32
    ensures { result ≡ below + above }
{
    u32::from(below) + u32::from(above)
}

// Returns how many pages hold nothing.
fn free_in(job: &Job) -> u32
    ensures { result ≡ free_in job.now }
{
    let free = job.step().machine().free_pages();
    sum(free.below, free.above)
}

// Returns the pages that were assigned.
fn taken_pages(before: &Baseline, job: &Job) -> EffectFields
    ensures { result ≡ taken_pages before.now job.now }
{
    let pages = sum(before.below, before.above).saturating_sub(free_in(job));
    let rule = if pages == 0 { 4 } else { 5 };
    EffectFields {
        pages,
        ..of_kind(4, rule)
    }
}

// Returns the pages that became free.
fn freed_pages(before: &Baseline, job: &Job) -> Option<EffectFields>
    ensures { result ≡ freed_pages before.now job.now }
{
    let pages = free_in(job).saturating_sub(sum(before.below, before.above));
    if pages == 0 {
        return None;
    }
    Some(EffectFields {
        pages,
        ..of_kind(5, 5)
    })
}

// Returns the effect on the subpool that a task means by a number, all of which was released.
fn emptied_effect(job: &Job, task: &Name, number: u8) -> Option<EffectFields>
    ensures { result ≡ emptied_effect job.now task.now number }
{
    let (number, owner) = job.step().machine().resolved_owner(task, number)?;
    Some(of_subpool(6, 34, number, &owner))
}

// Returns the effect of a cell that was allocated.
fn cell_effect(pool: &Name, place: Option<Place>) -> Option<EffectFields>
    ensures { result ≡ cell_effect pool.now place }
{
    let place = place?;
    Some(of_place(7, 60, pool, place))
}

// Makes the effect that a pool has a new part.
fn part_value(pool: &Name, part: &LastPart) -> EffectFields
    ensures { result ≡ part_value pool.now part.now.cells part.now.cell_size part.now.place }
{
    EffectFields {
        cells: part.cells,
        cell_size: part.cell_size,
        ..of_place(8, 57, pool, part.place)
    }
}

// Returns the effect of the last part of a pool, if its number of parts has changed.
fn part_effect(before: &Baseline, job: &Job, pool: &Name) -> Option<EffectFields>
    ensures { result ≡ part_effect before.now job.now pool.now }
{
    let newest = job.step().machine().newest(pool)?;
    if newest.parts == before.parts {
        return None;
    }
    Some(part_value(pool, &newest))
}

// Returns the pages that were assigned for it.
fn part_pages(before: &Baseline, job: &Job, pool: &Name) -> Option<EffectFields>
    ensures { result ≡ part_pages before.now job.now pool.now }
{
    part_effect(before, job, pool)?;
    Some(taken_pages(before, job))
}

// Returns the effect of a subpool that an attaching task has under a number, if it had none.
fn created_effect(before: &Baseline, job: &Job, task: &Name, number: SubNo) -> Option<EffectFields>
    ensures { result ≡ created_effect before.now job.now task.now number }
{
    let at = usize::from(number.get());
    if before.numbers.as_slice().get(at).copied().unwrap_or(false) {
        return None;
    }
    let (number, owner) = job.step().machine().entry_owner(task, number)?;
    Some(of_subpool(3, 42, number, &owner))
}

// Returns the effect that a subtask has a subpool under a number: it owns what it was given, and shares the rest.
fn subtask_effect(
    job: &Job,
    attaching: &Name,
    subtask: &Name,
    number: SubNo,
) -> Option<EffectFields>
    ensures { result ≡ subtask_effect job.now attaching.now subtask.now number }
{
    let (number, owner) = job.step().machine().entry_owner(subtask, number)?;
    let fields = if is_same_name(&owner, subtask) {
        of_subpool(9, 43, number, attaching)
    } else {
        of_subpool(10, 44, number, &owner)
    };
    Some(EffectFields {
        task: subtask.bytes(),
        ..fields
    })
}

// Appends an effect, if there is one.
fn push_some(effects: &mut Effects, effect: Option<EffectFields>)
    requires { length effects.old < 260 }
    ensures effects { effects.new ≡ effects.old ++ listed effect }
    ensures len { length effects.new ≤ length effects.old + 1 }
{
    if let Some(effect) = effect {
        effects.push(effect);
    }
}

// Appends the areas of a list.
fn push_areas(
    effects: &mut Effects,
    job: &Job,
    task: &Name,
    number: u8,
    places: &[Place],
    lengths: &[Length],
)
    requires { length effects.old + length places.now ≤ 100 }
    ensures effects { effects.new
        ≡ effects.old ++ area_effects job.now task.now number places.now lengths.now }
    ensures len { length effects.new ≤ length effects.old + length places.now }
{
    let Some((place, places)) = places.split_first() else {
        return;
    };
    let Some((length, lengths)) = lengths.split_first() else {
        return;
    };
    let most = length.get();
    push_some(
        effects,
        area_effect(job, task, number, Some(*place), most, most),
    );
    push_areas(effects, job, task, number, places, lengths);
}

// Appends what a subtask has of its attaching task, and the subpools that were created for that.
fn push_subtask(
    effects: &mut Effects,
    before: &Baseline,
    job: &Job,
    attaching: &Name,
    subtask: &Name,
)
    requires { effects.old ≡ [] }
    ensures { effects.new
        ≡ each_below task_numbers
        (λ n. attach_effects before.now job.now attaching.now subtask.now n) }
{
    for n in 0..TASK_NUMBERS {
        let number = SubNo::of(n);
        push_some(effects, created_effect(before, job, attaching, number));
        push_some(effects, subtask_effect(job, attaching, subtask, number));
    }
}

/// Appends what a granted request changed that was recorded.
pub fn push_effects(effects: &mut Effects, recorder: &Recorder, reply: &Reply, job: &Job)
    requires { effects.old ≡ [] }
    ensures { effects.new ≡ grant_effects recorder.now reply.now job.now }
{
    let (before, task) = (&recorder.baseline, &recorder.task);
    match &recorder.asked {
        Asked::Obtain {
            number,
            least,
            most,
        } => {
            let effect = area_effect(job, task, *number, place_in(reply), *least, *most);
            push_some(effects, effect);
            push_some(effects, greater_effect(before, place_in(reply), *most));
            push_some(effects, subpool_effect(before, job, task, *number));
            effects.push(taken_pages(before, job));
        }
        Asked::ObtainList { number, lengths } => {
            let (places, lengths) = (places_in(reply), lengths.as_slice());
            push_areas(effects, job, task, *number, places, lengths);
            push_some(effects, subpool_effect(before, job, task, *number));
            effects.push(taken_pages(before, job));
        }
        Asked::Release => push_some(effects, freed_pages(before, job)),
        Asked::ReleaseWhole { number } => {
            push_some(effects, emptied_effect(job, task, *number));
            push_some(effects, freed_pages(before, job));
        }
        Asked::Build { number, pool } => {
            push_some(effects, part_effect(before, job, pool));
            push_some(effects, subpool_effect(before, job, task, *number));
            push_some(effects, part_pages(before, job, pool));
        }
        Asked::Get { pool } => {
            push_some(effects, cell_effect(pool, place_in(reply)));
            push_some(effects, part_effect(before, job, pool));
            push_some(effects, part_pages(before, job, pool));
        }
        Asked::Attach { subtask } => push_subtask(effects, before, job, task, subtask),
        Asked::Other => {}
    }
}
