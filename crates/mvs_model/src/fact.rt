//! What a request did that was granted, beyond what it is answered.

use crate::name::Name;
use crate::place::Place;
use crate::subpool::SubNo;

/// What a request changed, computed from the states before and after it. A subpool is named by its number for its owner, and the
/// owner.
#[derive(Clone, Copy, Debug, PartialEq, Eq)]
pub enum Fact {
    /// An area was obtained.
    Obtained {
        /// The name that is now set to it.
        area: Name,
        place: Place,
        /// The least and the greatest length that were asked for, in bytes, as written.
        least: u32,
        most: u32,
        number: SubNo,
        owner: Name,
    },
    /// No greater length had a place, up to the greatest one that was asked for: how many pages of each region held nothing.
    NoGreater {
        below: u32,
        above: u32,
    },
    /// The subpool was made for the request.
    NewSubpool {
        number: SubNo,
        owner: Name,
    },
    /// The number of free pages that were assigned to the subpool. If it is 0, the place is in pages that the subpool already had.
    PagesTaken(u32),
    /// The number of pages that became free.
    PagesFreed(u32),
    /// All that the subpool held is free, and it stays.
    Emptied {
        number: SubNo,
        owner: Name,
    },
    /// A cell was allocated, and the name is set to it.
    CellTaken {
        cell: Name,
        pool: Name,
        place: Place,
    },
    /// The pool has a new part, with this number of cells of this size in bytes.
    PartAdded {
        pool: Name,
        cells: u32,
        size: u32,
        place: Place,
    },
    /// The subtask owns a subpool that its mother gave.
    Given {
        subtask: Name,
        number: SubNo,
        mother: Name,
    },
    /// The subtask shares a subpool of this owner.
    Shared {
        subtask: Name,
        number: SubNo,
        owner: Name,
    },
}
