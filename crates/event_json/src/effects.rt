//! What a statement changed, as members of its object.

ghost use Rattle.std.specs.Prelude.{◌≡◌};

use crate::members::Members;
use crate::reasons::{put_reason, put_subpool};
use mvs_job::{EndedTasks, Explanation, Fate, OwnedSubpool};
use mvs_model::fact::Fact;
use mvs_model::name::Name;
use mvs_model::place::Place;
use std::alloc::AllocError;

// Returns what a change is called.
fn kind(fact: &Fact) -> &'static str {
    match fact {
        Fact::Obtained { .. } => "obtained",
        Fact::NoGreater { .. } => "no_greater",
        Fact::NewSubpool { .. } => "new_subpool",
        Fact::PagesTaken(_) => "pages_assigned",
        Fact::PagesFreed(_) => "pages_freed",
        Fact::Emptied { .. } => "emptied",
        Fact::CellTaken { .. } => "cell",
        Fact::PartAdded { .. } => "part",
        Fact::Given { .. } => "given",
        Fact::Shared { .. } => "shared",
    }
}

// Returns the number of the rule of the length that was obtained.
fn length_rule(place: &Place, least: u32, most: u32) -> u32 {
    if least != most {
        return 20;
    }
    if place.len() == most {
        return 24;
    }
    3
}

// Returns the number of the rule of a change.
fn rule(fact: &Fact) -> u32 {
    match fact {
        Fact::Obtained {
            place,
            least,
            most,
            ..
        } => length_rule(place, *least, *most),
        Fact::NoGreater { .. } => 20,
        Fact::NewSubpool { .. } => 42,
        Fact::PagesTaken(0) => 4,
        Fact::PagesTaken(_) | Fact::PagesFreed(_) => 5,
        Fact::Emptied { .. } => 34,
        Fact::CellTaken { .. } => 60,
        Fact::PartAdded { .. } => 57,
        Fact::Given { .. } => 43,
        Fact::Shared { .. } => 44,
    }
}

// Puts an address and a length into an object.
fn put_place(members: &mut Members, place: &Place) -> Result<(), AllocError>
    ensures { members.new ≡ members.old }
{
    members.number("address", place.addr().get())?;
    members.number("length", place.len())
}

// Puts an area into an object: its name, its place, and the lengths that were requested.
fn put_area(
    members: &mut Members,
    area: &Name,
    place: &Place,
    least: u32,
    most: u32,
) -> Result<(), AllocError>
    ensures { members.new ≡ members.old }
{
    members.name("name", area)?;
    put_place(members, place)?;
    members.number("least", least)?;
    members.number("most", most)
}

// Puts the members of a change into its object.
fn put_members(members: &mut Members, fact: &Fact) -> Result<(), AllocError>
    ensures { members.new ≡ members.old }
{
    match fact {
        Fact::Obtained {
            area,
            place,
            least,
            most,
            number,
            owner,
        } => {
            put_area(members, area, place, *least, *most)?;
            put_subpool(members, *number, owner)
        }
        Fact::NoGreater { below, above } => {
            members.number("free_pages_below", *below)?;
            members.number("free_pages_above", *above)
        }
        Fact::NewSubpool { number, owner } | Fact::Emptied { number, owner } => {
            put_subpool(members, *number, owner)
        }
        Fact::PagesTaken(pages) | Fact::PagesFreed(pages) => members.number("pages", *pages),
        Fact::CellTaken { cell, pool, place } => {
            members.name("name", cell)?;
            members.name("pool", pool)?;
            put_place(members, place)
        }
        Fact::PartAdded {
            pool,
            cells,
            size,
            place,
        } => {
            members.name("pool", pool)?;
            members.number("cells", *cells)?;
            members.number("cell_size", *size)?;
            put_place(members, place)
        }
        Fact::Given {
            subtask,
            number,
            mother,
        } => {
            members.name("task", subtask)?;
            members.number("subpool", u32::from(number.get()))?;
            members.name("given_by", mother)
        }
        Fact::Shared {
            subtask,
            number,
            owner,
        } => {
            members.name("task", subtask)?;
            put_subpool(members, *number, owner)
        }
    }
}

// Puts what a granted request changed into the object of its statement.
fn put_effects(members: &mut Members, effects: &[Fact]) -> Result<(), AllocError>
    ensures { members.new ≡ members.old }
{
    if effects.is_empty() {
        return Ok(());
    }
    members.begin_list("effects")?;
    for fact in effects {
        members.begin_item()?;
        members.text("kind", kind(fact))?;
        members.numbers("rules", &[rule(fact)])?;
        put_members(members, fact)?;
        members.end_object()?;
    }
    members.end_list()
}

// Puts a subpool that was freed, or that remains, into the open list.
fn put_fate(
    members: &mut Members,
    fate: &str,
    rule: u32,
    subpool: &OwnedSubpool,
) -> Result<(), AllocError>
    ensures { members.new ≡ members.old }
{
    members.begin_item()?;
    members.text("fate", fate)?;
    put_subpool(members, subpool.number, &subpool.owner)?;
    members.number("bytes", subpool.bytes)?;
    members.number("pages", subpool.pages)?;
    members.numbers("rules", &[rule])?;
    members.end_object()
}

// Puts what became of subpools at the end of tasks into the object of the statement.
fn put_fates(
    members: &mut Members,
    ended: &EndedTasks<'_>,
    subpools: &[OwnedSubpool],
) -> Result<(), AllocError>
    ensures { members.new ≡ members.old }
{
    members.begin_list("subpools_at_end")?;
    for subpool in subpools {
        match ended.fate(subpool) {
            Fate::Freed => put_fate(members, "freed", 52, subpool)?,
            Fate::Remains => put_fate(members, "remains", 53, subpool)?,
            Fate::Unaffected => {}
        }
    }
    members.end_list()
}

/// Puts the explanation of a statement into its object: why it was refused, what became of subpools if it ended a task, and what it changed.
pub fn put_explanation(
    members: &mut Members,
    explanation: &Explanation<'_>,
    ended: &Option<EndedTasks<'_>>,
) -> Result<(), AllocError>
    ensures { members.new ≡ members.old }
{
    if let Some(reason) = &explanation.reason {
        put_reason(members, reason, explanation)?;
    }
    if let Some(ended) = ended {
        put_fates(members, ended, explanation.subpools)?;
    }
    put_effects(members, explanation.effects)
}
