//! What a statement is answered.

use crate::code::Code;
use crate::place::{Addr, Place};

/// The answer to a statement of a task. The job owns the long data: the bytes of a place, the names of the tasks that ended too,
/// and the lines of the reports.
#[derive(Clone, Copy, Debug, PartialEq, Eq)]
pub enum Answer {
    /// The task is not active.
    NotRun,
    /// A name in the statement is not set.
    NoName,
    /// WHERE: the address.
    At(Addr),
    Rc0,
    /// A variable request was granted: the length in bytes.
    Granted(u32),
    Rc4,
    Cell,
    NoCell,
    Attached,
    Ended,
    /// Bytes were written.
    Done,
    /// SHOW: the bytes of a place.
    Data(Place),
    /// The task abended with this code, and other tasks may have ended with it.
    Abended(Code),
    /// REPORT SP: a line for each number that the task has.
    Subpools,
    /// REPORT MAP: a line for each run of pages that are assigned alike.
    Map,
}
