//! Requests of a task and their replies.

ghost use Rattle.std.specs.Prelude.{◌≡◌, ◌≤◌, IsSorted, IsPermutation, length};
ghost use Rattle.mvs_model.specs.Name.{name_cmp};

use crate::bounded::{CellCount, CellSize, Exponent, Length, MoveLength, ShowLength, UserCode};
use crate::code::{Code, Form};
use crate::gifts::Gifts;
use crate::name::Name;
use crate::numbers::{MOST_FALLEN, MOST_ITEMS, MOST_PUT};
use crate::place::{Addr, Place};
use crate::short_list::ShortList;
use crate::want::{AreaRequest, Loc, Residence};
use std::marker::Model;

/// The lengths of a list request, in bytes.
pub type Lengths = ShortList<Length, 1, MOST_ITEMS>;

/// The places of a list request or its reply.
pub type Places = ShortList<Place, 1, MOST_ITEMS>;

/// The bytes of PUT.
pub type Bytes = ShortList<u8, 1, MOST_PUT>;

/// Names of tasks, as many as can end with one.
pub type TaskNames = ShortList<Name, 0, MOST_FALLEN>;

/// The descendants of a task that end with it, in byte order of their names.
#[derive(Drop)]
pub struct Fallen {
    names: TaskNames,
}

impl Model for Fallen {
    ghost use Rattle.std.specs.Prelude.{List, ℕ, IsSorted, ◌≤◌, length};
    ghost use Rattle.mvs_model.specs.Name.{name_cmp};

    ghost Value = { List (List ℕ) };

    ghost view = { λ f. f.names };

    ghost invariant = { λ f. IsSorted name_cmp f.names };
}

impl Fallen {
    /// Returns the names in byte order.
    pub fn new(mut names: TaskNames) -> Fallen
        ensures sorted { IsSorted name_cmp result }
        ensures same { IsPermutation names result }
    {
        names.sort();
        Fallen { names }
    }

    /// Returns the names in byte order.
    pub fn names(&self) -> &[Name]
        ensures names { result.now ≡ self.now }
        ensures sorted { IsSorted name_cmp result.now }
        ensures most { length result.now ≤ 31 }
    {
        self.names.as_slice()
    }
}

/// A request of a task. A subpool number is 0 to 255 as written; a length or an address is in bytes.
#[derive(Drop)]
pub enum Request {
    Obtain {
        form: Form,
        number: u8,
        ask: AreaRequest,
    },
    ObtainList {
        form: Form,
        number: u8,
        lengths: Lengths,
        start: Exponent,
    },
    /// A place as written: its length is rounded up to doublewords.
    Release {
        form: Form,
        number: u8,
        place: Place,
    },
    ReleaseList {
        form: Form,
        number: u8,
        places: Places,
    },
    ReleaseWhole {
        form: Form,
        number: u8,
    },
    Build {
        pool: Name,
        number: u8,
        size: CellSize,
        primary: CellCount,
        secondary: CellCount,
        loc: Loc,
    },
    Get {
        pool: Name,
        conditional: bool,
    },
    Free {
        pool: Name,
        cell: Addr,
    },
    Delete {
        pool: Name,
    },
    Attach {
        name: Name,
        gifts: Gifts,
        residence: Residence,
    },
    Return,
    Abend(UserCode),
    Show {
        from: Addr,
        len: ShowLength,
    },
    Put {
        to: Addr,
        bytes: Bytes,
    },
    Move {
        to: Addr,
        from: Addr,
        len: MoveLength,
    },
}

/// What a request is answered.
#[derive(Drop)]
pub enum Reply {
    /// The task is not active.
    NotRun,
    Rc0,
    Rc4,
    Obtained(Place),
    Listed(Places),
    Cell(Place),
    NoCell,
    Attached,
    Ended,
    /// The bytes were read or written.
    Done,
    /// The task abended with this code, and its descendants ended with it.
    Abended(Code, Fallen),
}
