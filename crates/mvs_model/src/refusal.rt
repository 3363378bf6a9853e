//! What a request is refused for, and what becomes of it.

use crate::code::Code;

/// What a request is refused for.
#[derive(Clone, Copy, Debug, PartialEq, Eq)]
pub enum Refusal {
    /// The task is not active.
    NotActive,
    /// A program may not name the subpool number.
    InvalidNumber,
    /// There is no place of the least length.
    Shortage,
    /// There is no place for this member of a list, from 1 on, once those before it are granted.
    Member(u32),
    /// There is no place for a part of a cell pool.
    NoPart,
    /// A place does not begin on a doubleword.
    OffDoubleword,
    /// The task has no subpool under the number.
    NoSubpool,
    /// The subpool does not hold the places outside of cell pools.
    NotHeld,
    /// Two places of a list overlap.
    Overlap,
    /// Subpool 0 is not released as a whole.
    WholeOfZero,
    /// A pool of the name is there.
    PoolInUse,
    /// No more pools can be there.
    TooManyPools,
    /// There is no pool of the name.
    NoPool,
    /// No cell of the pool is free, and the request is conditional.
    NoFreeCell,
    /// No taken cell of the pool begins at the address.
    NoTakenCell,
    /// A task of the name is active.
    TaskInUse,
    /// No more tasks can be active.
    TooManyTasks,
    /// A number is given whose subpool the mother does not own.
    NotOwned,
    /// A subtask of the task is active.
    ActiveSubtask,
    /// The task asks for an abend with this user code.
    Asked(u16),
    /// A byte may not be read and written.
    NoAccess,
}

/// What becomes of a request that is refused.
#[derive(Clone, Copy, Debug, PartialEq, Eq)]
pub enum Consequence {
    NotRun,
    Rc4,
    NoCell,
    Abend(Code),
}
