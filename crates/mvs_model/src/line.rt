//! The lines of a script.

use crate::bounded::{
    CellCount, CellSize, Exponent, Length, MoveLength, Offset, PagesAbove, PagesBelow, ShowLength,
    UserCode,
};
use crate::code::Form;
use crate::gifts::Gifts;
use crate::name::Name;
use crate::numbers::MOST_ITEMS;
use crate::place::Addr;
use crate::request::{Bytes, Lengths};
use crate::short_list::ShortList;
use crate::want::{AreaRequest, Loc, Residence};

/// An address as written: a number, or the name of an area or a cell with an offset in bytes.
#[derive(Clone, Copy, Debug, PartialEq, Eq)]
pub enum Location {
    Absolute(Addr),
    Named(Name, Offset),
}

/// The names that a list request sets.
pub type Names = ShortList<Name, 1, MOST_ITEMS>;

/// The addresses of a list request.
pub type Locations = ShortList<Location, 1, MOST_ITEMS>;

/// A request as written, with the names that it looks up and sets.
#[derive(Drop)]
pub enum SourceRequest {
    Obtain {
        form: Form,
        number: u8,
        ask: AreaRequest,
        /// Whether a largest and a smallest length were written.
        variable: bool,
        area: Name,
    },
    ObtainList {
        form: Form,
        number: u8,
        lengths: Lengths,
        start: Exponent,
        areas: Names,
    },
    Release {
        form: Form,
        number: u8,
        location: Location,
        len: Length,
    },
    /// A release of the place of an area, by its name.
    ReleaseArea {
        form: Form,
        number: u8,
        area: Name,
    },
    ReleaseList {
        form: Form,
        number: u8,
        locations: Locations,
        lengths: Lengths,
    },
    ReleaseWhole {
        form: Form,
        number: u8,
    },
    Build {
        pool: Name,
        number: u8,
        size: CellSize,
        primary: CellCount,
        secondary: CellCount,
        loc: Loc,
    },
    Get {
        pool: Name,
        conditional: bool,
        cell: Name,
    },
    Free {
        pool: Name,
        cell: Location,
    },
    Delete {
        pool: Name,
    },
    Attach {
        name: Name,
        gifts: Gifts,
        residence: Residence,
    },
    Return,
    Abend(UserCode),
    Show {
        from: Location,
        len: ShowLength,
    },
    Put {
        to: Location,
        bytes: Bytes,
    },
    Move {
        to: Location,
        from: Location,
        len: MoveLength,
    },
}

/// What a statement specifies after the name of its task.
#[derive(Drop)]
pub enum Statement {
    Region {
        below: PagesBelow,
        above: PagesAbove,
        fill: u8,
        residence: Residence,
    },
    Request(SourceRequest),
    Where(Name),
    ReportSubpools,
    ReportMap,
}

/// What a line says: nothing, where it is blank or a comment, or a statement of a task.
#[derive(Drop)]
pub enum Line {
    Nothing,
    Statement(Name, Statement),
}

/// What is wrong with a line, in the order in which it is looked for. The codes are this project's own.
#[derive(Clone, Copy, Debug, PartialEq, Eq)]
pub enum Fault {
    /// JS01: the line has more than 255 bytes.
    TooLong,
    /// JS02: a byte is not one of X'20' to X'7E'.
    InvalidByte,
    /// JS03: there is no task, no operation, or none that is known.
    UnknownOperation,
    /// JS04: an operand is malformed, or not one that the statement takes.
    InvalidOperand,
    /// JS05: a required operand is missing, or one of a pair.
    MissingOperand,
    /// JS06: a number is out of its range, or a list is too long.
    OutOfRange,
    /// JS07: a keyword, a name or a number is a duplicate.
    Repeated,
    /// JS08: two operands exclude each other.
    Conflicting,
    /// JS09: the first statement is not REGION, or there is no statement.
    OutOfPlace,
}
