//! Why a request is refused.

use crate::name::Name;
use crate::place::Addr;
use crate::subpool::SubNo;

/// What holds a doubleword.
#[derive(Clone, Copy, Debug, PartialEq, Eq)]
pub enum Holder {
    /// It is free.
    Nobody,
    /// It is in no region, so no request is ever granted it.
    Outside,
    /// A subpool, outside of cell pools: the number under which its owner has it, and the owner.
    Subpool(SubNo, Name),
    /// A subpool without an owner, outside of cell pools. No run of a script comes to that.
    Unowned,
    /// A part of the cell pool of this name.
    Part(Name),
}

/// Where an address is, if no taken cell of a pool begins there.
#[derive(Clone, Copy, Debug, PartialEq, Eq)]
pub enum CellPosition {
    /// A cell of the pool begins there, and is free.
    Untaken,
    /// It is inside the cell of the pool that begins at this address.
    Inside(Addr),
    /// It is in no cell of the pool.
    Elsewhere,
}

/// What room there is where no place is long enough.
#[derive(Clone, Copy, Debug, PartialEq, Eq)]
pub struct FreeSpace {
    /// The greatest length that has a place on the same boundaries and side, 0 where none has.
    pub longest: u32,
    /// How many free runs the pages have that the subpool has on that side, each inside one page.
    pub runs: u32,
    /// How many pages of the region below hold nothing.
    pub below: u32,
    /// How many pages of the region above hold nothing.
    pub above: u32,
}

/// What a member of a list asked for and what was left for it, once those before it were granted.
#[derive(Clone, Copy, Debug, PartialEq, Eq)]
pub struct Shortfall {
    /// The length that it asked for, in bytes.
    pub bytes: u32,
    /// What room was left.
    pub room: FreeSpace,
}

/// Why a request is refused: the refusal, with what it is about in the state before the request. What the request itself has is
/// not repeated.
#[derive(Clone, Copy, Debug, PartialEq, Eq)]
pub enum Reason {
    /// The task is not active.
    NotActive,
    /// A program may not name the subpool number.
    InvalidNumber,
    /// The least length fits nowhere.
    Shortage(FreeSpace),
    /// A member of a list does not fit once the members before it are granted: its number in the list, from 1 on, and what it
    /// lacked.
    NoMember(u32, Shortfall),
    /// A part with this number of cells of this size in bytes does not fit: the first part of a pool, or a further one.
    NoPart(u32, u32, FreeSpace),
    /// A place begins at this address, which is not on a doubleword.
    OffDoubleword(Addr),
    /// The task whose subpool is meant has none under the number.
    NoSubpool(Name),
    /// The first address of the places that the subpool meant does not hold outside of cell pools, what holds it, and the owner
    /// of that subpool.
    NotHeld(Addr, Holder, Option<Name>),
    /// Two places of the list, by their addresses, and where the first doubleword begins that both have.
    Overlap(Addr, Addr, Addr),
    /// Subpool 0 is not released as a whole.
    WholeOfZero,
    /// A pool of the name is there.
    PoolInUse,
    /// No more pools can be there.
    TooManyPools,
    /// There is no pool of the name.
    NoPool,
    /// No cell of the pool is free, and the request is conditional.
    NoFreeCell,
    /// No taken cell of the pool begins at the address. This is where the address is.
    NoTakenCell(CellPosition),
    /// A task of the name is active.
    TaskInUse,
    /// No more tasks can be active.
    TooManyTasks,
    /// A number is given under which the mother has a subpool of another owner.
    NotOwned(SubNo, Name),
    /// A subtask of the task is active.
    ActiveSubtask(Name),
    /// The task asks for the abend.
    Asked,
    /// The first byte that may not be read and written, and what holds its doubleword.
    NoAccess(Addr, Holder),
}

/// Why a line is not executed as it asks.
#[derive(Clone, Copy, Debug, PartialEq, Eq)]
pub enum LineReason {
    /// A name that the line looks up is not set: the first one, from the left.
    NotSet(Name),
    /// Its request is refused, or its task is not active.
    Refused(Reason),
}
