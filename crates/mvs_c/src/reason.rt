//! Why a request was refused, as numbers. The numbers of the kinds, the holders and the positions are those of mvs.h, from 1 on.

ghost use Rattle.std.specs.Prelude.{◌≡◌, ◌≢◌, MatchBool};
ghost use Rattle.explanation.specs.ReasonTexts.{cell_of, least_of};
ghost use Rattle.mvs_model.specs.Reasons.{number_of};
ghost use Rattle.mvs_c.specs.Reasons.{name_or_blank, of_kind, of_rules, reason_bytes, reason_value, with_holder, with_position, with_room};

use explanation::subject_of;
use mvs_model::name::Name;
use mvs_model::place::Addr;
use mvs_model::reason::{CellPosition, FreeSpace, Holder, Reason};
use mvs_model::request::Request;

/// The number of bytes of a reason.
const REASON_BYTES: u32 = 100;

/// Why a request was refused: a kind, and the fields of that kind; all others are 0, and the names are blank.
#[repr(C)]
#[derive(Clone, Copy)]
pub struct ReasonFields {
    /// The number of bytes of this struct.
    pub size: u32,
    pub kind: u32,
    /// The rule that refuses the request, and a second one if there are two.
    pub rule: u32,
    pub second_rule: u32,
    /// The address that the reason is about.
    pub address: u32,
    /// A subpool number, as the request or the owner has it.
    pub number: u32,
    /// The bytes that found no place.
    pub length: u32,
    /// Which member of a list found no place, from 1 on.
    pub member: u32,
    /// The cells of a part of a pool that found no place, and the bytes of each.
    pub cells: u32,
    pub cell_size: u32,
    /// The greatest length that has a place, the free runs, and the free pages below and above.
    pub longest: u32,
    pub free_runs: u32,
    pub pages_below: u32,
    pub pages_above: u32,
    /// Two members of a list that overlap, or the cell that has the address.
    pub first_address: u32,
    pub second_address: u32,
    /// Where the address is, if it is not that of a taken cell.
    pub position: u32,
    /// What holds the address, and the number that the holder has for the subpool.
    pub holder: u32,
    pub holder_number: u32,
    /// The owner of the subpool or the cell pool that holds the address.
    pub holder_name: [u8; 8],
    /// The task that the reason is about.
    pub task: [u8; 8],
    /// The cell pool or the subtask that the request names.
    pub name: [u8; 8],
}

impl ReasonFields {
    /// Returns whether the size is that of a reason.
    pub fn is_sized(&self) -> bool
        ensures { MatchBool result (self.now.size ≡ reason_bytes) (self.now.size ≢ reason_bytes) }
    {
        self.size == REASON_BYTES
    }
}

// Makes a reason of a kind, with its rules and no other field.
fn of_rules(kind: u32, rule: u32, second_rule: u32) -> ReasonFields
    ensures { result ≡ of_rules kind rule second_rule }
{
    ReasonFields {
        size: REASON_BYTES,
        kind,
        rule,
        second_rule,
        address: 0,
        number: 0,
        length: 0,
        member: 0,
        cells: 0,
        cell_size: 0,
        longest: 0,
        free_runs: 0,
        pages_below: 0,
        pages_above: 0,
        first_address: 0,
        second_address: 0,
        position: 0,
        holder: 0,
        holder_number: 0,
        holder_name: [b' '; 8],
        task: [b' '; 8],
        name: [b' '; 8],
    }
}

// Returns the kind of a reason and its rules, with no other field.
fn of_kind(reason: &Reason) -> ReasonFields
    ensures { result ≡ of_kind reason.now }
{
    match reason {
        Reason::NotActive => of_rules(1, 73, 0),
        Reason::InvalidNumber => of_rules(2, 8, 0),
        Reason::Shortage(_) => of_rules(3, 12, 0),
        Reason::NoMember(..) => of_rules(4, 22, 0),
        Reason::NoPart(..) => of_rules(5, 59, 61),
        Reason::OffDoubleword(_) => of_rules(6, 29, 0),
        Reason::NoSubpool(_) => of_rules(7, 26, 0),
        Reason::NotHeld(..) => of_rules(8, 26, 66),
        Reason::Overlap(..) => of_rules(9, 32, 0),
        Reason::WholeOfZero => of_rules(10, 35, 0),
        Reason::PoolInUse => of_rules(11, 68, 0),
        Reason::TooManyPools => of_rules(12, 68, 0),
        Reason::NoPool => of_rules(13, 63, 0),
        Reason::NoFreeCell => of_rules(14, 60, 0),
        Reason::NoTakenCell(_) => of_rules(15, 63, 0),
        Reason::TaskInUse => of_rules(16, 51, 0),
        Reason::TooManyTasks => of_rules(17, 51, 0),
        Reason::NotOwned(..) => of_rules(18, 48, 0),
        Reason::ActiveSubtask(_) => of_rules(19, 54, 0),
        Reason::Asked => of_rules(20, 55, 0),
        Reason::NoAccess(..) => of_rules(21, 38, 0),
    }
}

// Returns a name, or blanks if there is none.
fn name_or_blank(name: Option<Name>) -> [u8; 8]
    ensures { result ≡ name_or_blank name }
{
    match name {
        Some(name) => name.bytes(),
        None => [b' '; 8],
    }
}

// Adds what room there is, if no place is long enough.
fn with_room(fields: ReasonFields, room: &FreeSpace) -> ReasonFields
    ensures { result ≡ with_room fields room.now }
{
    ReasonFields {
        longest: room.longest,
        free_runs: room.runs,
        pages_below: room.below,
        pages_above: room.above,
        ..fields
    }
}

// Adds what holds the address.
fn with_holder(fields: ReasonFields, holder: &Holder) -> ReasonFields
    ensures { result ≡ with_holder fields holder.now }
{
    match holder {
        Holder::Nobody => ReasonFields {
            holder: 1,
            ..fields
        },
        Holder::Outside => ReasonFields {
            holder: 2,
            ..fields
        },
        Holder::Subpool(number, owner) => ReasonFields {
            holder: 3,
            holder_number: u32::from(number.get()),
            holder_name: owner.bytes(),
            ..fields
        },
        Holder::Part(pool) => ReasonFields {
            holder: 4,
            holder_name: pool.bytes(),
            ..fields
        },
        Holder::Unowned => ReasonFields {
            holder: 5,
            ..fields
        },
    }
}

// Adds where the address is, if it is not that of a taken cell.
fn with_position(fields: ReasonFields, position: &CellPosition) -> ReasonFields
    ensures { result ≡ with_position fields position.now }
{
    match position {
        CellPosition::Untaken => ReasonFields {
            position: 1,
            ..fields
        },
        CellPosition::Inside(first) => ReasonFields {
            position: 2,
            first_address: first.get(),
            ..fields
        },
        CellPosition::Elsewhere => ReasonFields {
            position: 3,
            ..fields
        },
    }
}

// Adds a subpool number.
fn with_number(fields: ReasonFields, number: u32) -> ReasonFields
    ensures { result ≡ record fields { number = number } }
{
    ReasonFields { number, ..fields }
}

// Adds a subpool number, and the bytes that found no place in the subpool.
fn with_length(fields: ReasonFields, number: u32, length: u32) -> ReasonFields
    ensures { result ≡ record fields { number = number; length = length } }
{
    ReasonFields {
        number,
        length,
        ..fields
    }
}

// Adds an address.
fn with_address(fields: ReasonFields, addr: Addr) -> ReasonFields
    ensures { result ≡ record fields { address = addr } }
{
    ReasonFields {
        address: addr.get(),
        ..fields
    }
}

// Adds a task, or blanks.
fn with_task(fields: ReasonFields, task: [u8; 8]) -> ReasonFields
    ensures { result ≡ record fields { task = task } }
{
    ReasonFields { task, ..fields }
}

// Adds a cell pool or a subtask, or blanks.
fn with_name(fields: ReasonFields, name: [u8; 8]) -> ReasonFields
    ensures { result ≡ record fields { name = name } }
{
    ReasonFields { name, ..fields }
}

// Adds which member of a list found no place.
fn with_member(fields: ReasonFields, member: u32) -> ReasonFields
    ensures { result ≡ record fields { member = member } }
{
    ReasonFields { member, ..fields }
}

// Adds the cells of a part of a pool, and the bytes of each.
fn with_cells(fields: ReasonFields, cells: u32, cell_size: u32) -> ReasonFields
    ensures { result ≡ record fields { cells = cells; cell_size = cell_size } }
{
    ReasonFields {
        cells,
        cell_size,
        ..fields
    }
}

// Adds two members of a list that overlap.
fn with_members(fields: ReasonFields, one: Addr, other: Addr) -> ReasonFields
    ensures { result ≡ record fields { first_address = one; second_address = other } }
{
    ReasonFields {
        first_address: one.get(),
        second_address: other.get(),
        ..fields
    }
}

/// Returns why a task's request was refused, for C.
pub fn reason_fields(task: &Name, request: &Request, reason: &Reason) -> ReasonFields
    ensures { result ≡ reason_value task.now request.now reason.now }
{
    let fields = of_kind(reason);
    let subject = subject_of(request);
    let number = subject.number;
    let name = name_or_blank(subject.name);
    match reason {
        Reason::NotActive | Reason::Asked => with_task(fields, task.bytes()),
        Reason::InvalidNumber => with_number(fields, number),
        Reason::Shortage(room) => with_room(with_length(fields, number, subject.least), room),
        Reason::NoMember(member, short) => with_room(
            with_member(with_length(fields, number, short.bytes), *member),
            &short.room,
        ),
        Reason::NoPart(cells, size, room) => {
            with_room(with_cells(with_name(fields, name), *cells, *size), room)
        }
        Reason::OffDoubleword(addr) => with_address(fields, *addr),
        Reason::NoSubpool(owner) => with_task(with_number(fields, number), owner.bytes()),
        Reason::NotHeld(addr, holder, owner) => with_holder(
            with_task(
                with_number(with_address(fields, *addr), number),
                name_or_blank(*owner),
            ),
            holder,
        ),
        Reason::Overlap(one, other, addr) => with_members(
            with_address(fields, *addr),
            *one,
            *other,
        ),
        Reason::WholeOfZero | Reason::TooManyPools | Reason::TooManyTasks => fields,
        Reason::PoolInUse | Reason::NoPool | Reason::NoFreeCell | Reason::TaskInUse => {
            with_name(fields, name)
        }
        Reason::NoTakenCell(position) => {
            with_position(
                with_name(with_address(fields, subject.cell), name),
                position,
            )
        }
        Reason::NotOwned(number, owner) => {
            with_task(with_number(fields, u32::from(number.get())), owner.bytes())
        }
        Reason::ActiveSubtask(subtask) => with_task(fields, subtask.bytes()),
        Reason::NoAccess(addr, holder) => with_holder(with_address(fields, *addr), holder),
    }
}
