//! What the reports say.

use crate::name::Name;
use crate::place::{Addr, Place};
use crate::subpool::SubNo;

/// A line of REPORT SP: a number that a task has, whether it owns the subpool, and the bytes that the subpool
/// holds outside and inside of cell pools. The report is this project's own.
#[derive(Clone, Copy, Debug, PartialEq, Eq)]
pub struct SubpoolLine {
    pub number: SubNo,
    pub owned: bool,
    pub plain: u32,
    pub pool: u32,
}

/// A line of REPORT MAP: pages of one region that follow one another and are assigned alike, from their first
/// address on, their length in bytes, and the number and the owner of the subpool that they are assigned to.
/// The report is this project's own.
#[derive(Clone, Copy, Debug, PartialEq, Eq)]
pub struct MapRun {
    pub addr: Addr,
    pub len: u32,
    pub holder: Option<(SubNo, Name)>,
}

/// How many parts a cell pool has, the place of the one that was put to it last and how many cells that has, and the bytes of a
/// cell.
#[derive(Clone, Copy, Debug, PartialEq, Eq)]
pub struct LastPart {
    pub parts: u32,
    pub place: Place,
    pub cells: u32,
    pub cell_size: u32,
}
