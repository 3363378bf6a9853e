//! Why a request is refused, as an object.

ghost use Rattle.std.specs.Prelude.{◌≡◌};

use crate::members::Members;
use mvs_job::{Explanation, NamedAddress};
use mvs_model::name::Name;
use mvs_model::place::Addr;
use mvs_model::reason::{CellPosition, FreeSpace, Holder, LineReason, Reason};
use mvs_model::subpool::SubNo;
use std::alloc::AllocError;

// Puts what holds a doubleword into an object.
fn put_holder(members: &mut Members, holder: &Holder) -> Result<(), AllocError>
    ensures { members.new ≡ members.old }
{
    match holder {
        Holder::Nobody | Holder::Unowned => Ok(()),
        Holder::Outside => members.boolean("outside", true),
        Holder::Subpool(number, owner) => put_subpool(members, *number, owner),
        Holder::Part(pool) => members.name("pool", pool),
    }
}

/// Puts a subpool into an object, by its number and its owner.
pub fn put_subpool(members: &mut Members, number: SubNo, owner: &Name) -> Result<(), AllocError>
    ensures { members.new ≡ members.old }
{
    members.number("subpool", u32::from(number.get()))?;
    members.name("owner", owner)
}

// Writes what room there is, if no place is long enough.
fn put_room(members: &mut Members, room: &FreeSpace) -> Result<(), AllocError>
    ensures { members.new ≡ members.old }
{
    members.number("longest", room.longest)?;
    members.number("free_runs", room.runs)?;
    members.number("free_pages_below", room.below)?;
    members.number("free_pages_above", room.above)
}

// Returns what the reason of a line is called.
fn kind(reason: &LineReason) -> &'static str {
    match reason {
        LineReason::NotSet(_) => "not_set",
        LineReason::Refused(reason) => refused_kind(reason),
    }
}

// Returns what the reason of a refused request is called.
fn refused_kind(reason: &Reason) -> &'static str {
    match reason {
        Reason::NotActive => "not_active",
        Reason::InvalidNumber => "invalid_number",
        Reason::Shortage(_) => "shortage",
        Reason::NoMember(..) => "no_member",
        Reason::NoPart(..) => "no_part",
        Reason::OffDoubleword(_) => "off_doubleword",
        Reason::NoSubpool(_) => "no_subpool",
        Reason::NotHeld(..) => "not_held",
        Reason::Overlap(..) => "overlap",
        Reason::WholeOfZero => "whole_of_zero",
        Reason::PoolInUse => "pool_in_use",
        Reason::TooManyPools => "too_many_pools",
        Reason::NoPool => "no_pool",
        Reason::NoFreeCell => "no_free_cell",
        Reason::NoTakenCell(_) => "no_taken_cell",
        Reason::TaskInUse => "task_in_use",
        Reason::TooManyTasks => "too_many_tasks",
        Reason::NotOwned(..) => "not_owned",
        Reason::ActiveSubtask(_) => "active_subtask",
        Reason::Asked => "asked",
        Reason::NoAccess(..) => "no_access",
    }
}

// Returns the numbers of the rules for which a request is refused.
fn refused_rules(reason: &Reason) -> &'static [u32] {
    match reason {
        Reason::NotActive => &[73],
        Reason::InvalidNumber => &[8],
        Reason::Shortage(_) => &[12],
        Reason::NoMember(..) => &[22],
        Reason::NoPart(..) => &[59, 61],
        Reason::OffDoubleword(_) => &[29],
        Reason::NoSubpool(_) => &[26],
        Reason::NotHeld(..) => &[26, 66],
        Reason::Overlap(..) => &[32],
        Reason::WholeOfZero => &[35],
        Reason::PoolInUse | Reason::TooManyPools => &[68],
        Reason::NoPool | Reason::NoTakenCell(_) => &[63],
        Reason::NoFreeCell => &[60],
        Reason::TaskInUse | Reason::TooManyTasks => &[51],
        Reason::NotOwned(..) => &[48],
        Reason::ActiveSubtask(_) => &[54],
        Reason::Asked => &[55],
        Reason::NoAccess(..) => &[38],
    }
}

// Returns the numbers of the rules of a reason.
fn rules(reason: &LineReason) -> &'static [u32] {
    match reason {
        LineReason::NotSet(_) => &[74],
        LineReason::Refused(reason) => refused_rules(reason),
    }
}

// Puts the members of a reason into its object, without its address.
fn put_members(members: &mut Members, reason: &Reason) -> Result<(), AllocError>
    ensures { members.new ≡ members.old }
{
    match reason {
        Reason::Shortage(room) => put_room(members, room),
        Reason::NoMember(member, short) => {
            members.number("member", *member)?;
            members.number("wanted", short.bytes)?;
            put_room(members, &short.room)
        }
        Reason::NoPart(cells, size, room) => {
            members.number("cells", *cells)?;
            members.number("cell_size", *size)?;
            put_room(members, room)
        }
        Reason::NoTakenCell(CellPosition::Untaken) => members.text("lies", "free_cell"),
        Reason::NoTakenCell(CellPosition::Inside(first)) => members.number("inside", first.get()),
        Reason::NoTakenCell(CellPosition::Elsewhere) => members.text("lies", "no_cell"),
        Reason::NoSubpool(task) => members.name("task", task),
        Reason::ActiveSubtask(task) => members.name("task", task),
        Reason::NotHeld(_, holder, _) => put_holder(members, holder),
        Reason::NoAccess(_, holder) => put_holder(members, holder),
        Reason::Overlap(one, other, _) => {
            members.number("one", one.get())?;
            members.number("other", other.get())
        }
        Reason::NotOwned(number, owner) => put_subpool(members, *number, owner),
        Reason::NotActive
        | Reason::InvalidNumber
        | Reason::OffDoubleword(_)
        | Reason::WholeOfZero
        | Reason::PoolInUse
        | Reason::TooManyPools
        | Reason::NoPool
        | Reason::NoFreeCell
        | Reason::TaskInUse
        | Reason::TooManyTasks
        | Reason::Asked => Ok(()),
    }
}

// Puts an address into an object, if there is one.
fn put_address(members: &mut Members, address: Option<Addr>) -> Result<(), AllocError>
    ensures { members.new ≡ members.old }
{
    match address {
        Some(address) => members.number("address", address.get()),
        None => Ok(()),
    }
}

// Puts the name that has an address into an object: how many bytes of its place are before the address, and which line set it.
fn put_named(members: &mut Members, named: &NamedAddress) -> Result<(), AllocError>
    ensures { members.new ≡ members.old }
{
    members.begin_object("named")?;
    members.name("name", &named.name)?;
    members.number(
        "offset",
        named.addr.get().saturating_sub(named.place.addr().get()),
    )?;
    members.number("length", named.place.len())?;
    members.number("line", named.number)?;
    members.numbers("rules", &[37])?;
    members.end_object()
}

/// Puts the reason of a statement into its object, with the address that it is about, and the name that has this address.
pub fn put_reason(
    members: &mut Members,
    reason: &LineReason,
    explanation: &Explanation<'_>,
) -> Result<(), AllocError>
    ensures { members.new ≡ members.old }
{
    members.begin_object("reason")?;
    members.text("kind", kind(reason))?;
    members.numbers("rules", rules(reason))?;
    put_address(members, explanation.address)?;
    match reason {
        LineReason::NotSet(name) => members.name("name", name)?,
        LineReason::Refused(reason) => put_members(members, reason)?,
    }
    if let Some(named) = &explanation.named {
        put_named(members, named)?;
    }
    members.end_object()
}
