//! The table of statements: what each operation takes, with its form where it has one. The operands of GETMAIN, FREEMAIN, STORAGE, CPOOL, ATTACH and
//! ABEND are those of the manual (Assembler Services Reference); that an area has a name and how an address is written, and the other statements,
//! are this project's choice.

ghost use Rattle.std.specs.Prelude.{◌≡◌, ◌≤◌, map, length};
ghost use Rattle.job_script.specs.Rows.{row_at, as_positional, as_keyword, as_rule};

use crate::keys::Key;
use crate::kinds::{Kind, Words};
use mvs_model::numbers::{LAST_ADDRESS, MOST_PAGES_ABOVE, MOST_PAGES_BELOW, MOST_SHOWN};

/// A keyword operand, and whether it is required.
#[derive(Clone, Copy)]
pub struct Keyword {
    pub key: Key,
    pub kind: Kind,
    pub required: bool,
}

/// A positional operand, and whether it is required.
#[derive(Clone, Copy)]
pub struct Positional {
    pub kind: Kind,
    pub required: bool,
}

/// What holds between operands.
#[derive(Clone, Copy)]
pub enum Rule {
    /// Both keywords or neither.
    Together(Key, Key),
    /// Not both keywords.
    Excludes(Key, Key),
    /// The two lists have as many items.
    SameLength(Key, Key),
    /// No number is given with one of the first two keywords and with one of the last two.
    Apart(Key, Key, Key, Key),
}

/// A row of the table: an operation, with forms that take the same operands.
#[derive(Clone, Copy)]
pub enum Row {
    Region,
    /// R, EC and EU.
    GetmainFixed,
    /// RC and RU.
    GetmainFixedPlaced,
    /// VC and VU.
    GetmainVariable,
    /// VRC and VRU.
    GetmainVariablePlaced,
    /// LC and LU.
    GetmainList,
    StorageObtain,
    /// R, RC and RU.
    FreemainOrWhole,
    /// EC and EU.
    FreemainPlace,
    /// VC and VU.
    FreemainArea,
    /// LC and LU.
    FreemainList,
    StorageRelease,
    CpoolBuild,
    CpoolGet,
    CpoolFree,
    CpoolDelete,
    Attach,
    Return,
    Abend,
    Put,
    Show,
    Move,
    Where,
    Report,
}

/// The greatest subpool number that a statement can have. A request with one that a program may not name is refused.
pub const MOST_NUMBER: u32 = 255;

const LV: Keyword = Keyword {
    key: Key::Lv,
    kind: Kind::Number(1, LAST_ADDRESS),
    required: true,
};

const LV_PAIR: Keyword = Keyword {
    key: Key::Lv,
    kind: Kind::Pair(1, LAST_ADDRESS),
    required: true,
};

const LV_OR_NONE: Keyword = Keyword {
    key: Key::Lv,
    kind: Kind::Number(1, LAST_ADDRESS),
    required: false,
};

const LENGTHS: Keyword = Keyword {
    key: Key::Length,
    kind: Kind::NumberOrPair(1, LAST_ADDRESS),
    required: true,
};

const LENGTH_OR_NONE: Keyword = Keyword {
    key: Key::Length,
    kind: Kind::Number(1, LAST_ADDRESS),
    required: false,
};

const LA: Keyword = Keyword {
    key: Key::La,
    kind: Kind::Numbers(16, 1, LAST_ADDRESS),
    required: true,
};

const A_NAME: Keyword = Keyword {
    key: Key::A,
    kind: Kind::Name,
    required: true,
};

const A_NAMES: Keyword = Keyword {
    key: Key::A,
    kind: Kind::DistinctNames(16),
    required: true,
};

const A_ADDRESS: Keyword = Keyword {
    key: Key::A,
    kind: Kind::Address,
    required: true,
};

const A_OR_NONE: Keyword = Keyword {
    key: Key::A,
    kind: Kind::Address,
    required: false,
};

const A_ADDRESSES: Keyword = Keyword {
    key: Key::A,
    kind: Kind::Addresses(16),
    required: true,
};

const ADDR_NAME: Keyword = Keyword {
    key: Key::Addr,
    kind: Kind::Name,
    required: true,
};

const ADDR_OR_NONE: Keyword = Keyword {
    key: Key::Addr,
    kind: Kind::Address,
    required: false,
};

const SP: Keyword = Keyword {
    key: Key::Sp,
    kind: Kind::Number(0, MOST_NUMBER),
    required: false,
};

const BNDRY: Keyword = Keyword {
    key: Key::Bndry,
    kind: Kind::Word(Words::Boundary),
    required: false,
};

const LOC: Keyword = Keyword {
    key: Key::Loc,
    kind: Kind::Word(Words::Location),
    required: false,
};

const STARTBDY: Keyword = Keyword {
    key: Key::Startbdy,
    kind: Kind::Number(3, 31),
    required: false,
};

const CONTBDY: Keyword = Keyword {
    key: Key::Contbdy,
    kind: Kind::Number(3, 31),
    required: false,
};

const COND: Keyword = Keyword {
    key: Key::Cond,
    kind: Kind::Word(Words::YesNo),
    required: false,
};

const RES: Keyword = Keyword {
    key: Key::Res,
    kind: Kind::Word(Words::Residence),
    required: false,
};

const CPID: Keyword = Keyword {
    key: Key::Cpid,
    kind: Kind::Name,
    required: true,
};

const REGION: [Keyword; 4] = [
    Keyword {
        key: Key::Below,
        kind: Kind::Number(1, MOST_PAGES_BELOW),
        required: true,
    },
    Keyword {
        key: Key::Above,
        kind: Kind::Number(0, MOST_PAGES_ABOVE),
        required: false,
    },
    Keyword {
        key: Key::Fill,
        kind: Kind::HexByte,
        required: false,
    },
    RES,
];

const GETMAIN_FIXED: [Keyword; 4] = [LV, A_NAME, SP, BNDRY];

const GETMAIN_FIXED_PLACED: [Keyword; 7] = [LV, A_NAME, SP, BNDRY, LOC, STARTBDY, CONTBDY];

const GETMAIN_VARIABLE: [Keyword; 4] = [LV_PAIR, A_NAME, SP, BNDRY];

const GETMAIN_VARIABLE_PLACED: [Keyword; 7] = [LV_PAIR, A_NAME, SP, BNDRY, LOC, STARTBDY, CONTBDY];

const GETMAIN_LIST: [Keyword; 4] = [LA, A_NAMES, SP, BNDRY];

const STORAGE_OBTAIN: [Keyword; 8] = [LENGTHS, ADDR_NAME, SP, BNDRY, LOC, STARTBDY, CONTBDY, COND];

const FREEMAIN_OR_WHOLE: [Keyword; 3] = [LV_OR_NONE, A_OR_NONE, SP];

const FREEMAIN_PLACE: [Keyword; 3] = [LV, A_ADDRESS, SP];

const FREEMAIN_AREA: [Keyword; 2] = [A_NAME, SP];

const FREEMAIN_LIST: [Keyword; 3] = [LA, A_ADDRESSES, SP];

const STORAGE_RELEASE: [Keyword; 4] = [LENGTH_OR_NONE, ADDR_OR_NONE, SP, COND];

const CPOOL_BUILD: [Keyword; 6] = [
    CPID,
    Keyword {
        key: Key::Csize,
        kind: Kind::Number(4, 65_536),
        required: true,
    },
    Keyword {
        key: Key::Pcellct,
        kind: Kind::Number(1, 65_536),
        required: true,
    },
    Keyword {
        key: Key::Scellct,
        kind: Kind::Number(1, 65_536),
        required: false,
    },
    SP,
    LOC,
];

const CPOOL_GET: [Keyword; 2] = [
    CPID,
    Keyword {
        key: Key::Cell,
        kind: Kind::Name,
        required: true,
    },
];

const CPOOL_FREE: [Keyword; 2] = [
    CPID,
    Keyword {
        key: Key::Cell,
        kind: Kind::Address,
        required: true,
    },
];

const CPOOL_DELETE: [Keyword; 1] = [CPID];

const ATTACH: [Keyword; 7] = [
    Keyword {
        key: Key::Task,
        kind: Kind::Name,
        required: true,
    },
    Keyword {
        key: Key::Gspv,
        kind: Kind::Number(1, 127),
        required: false,
    },
    Keyword {
        key: Key::Gspl,
        kind: Kind::DistinctNumbers(1, 127),
        required: false,
    },
    Keyword {
        key: Key::Shspv,
        kind: Kind::Number(1, 127),
        required: false,
    },
    Keyword {
        key: Key::Shspl,
        kind: Kind::DistinctNumbers(1, 127),
        required: false,
    },
    Keyword {
        key: Key::Szero,
        kind: Kind::Word(Words::YesNo),
        required: false,
    },
    RES,
];

const GET_FIRST: [Positional; 1] = [Positional {
    kind: Kind::Word(Words::Conditional),
    required: false,
}];

const ABEND_FIRST: [Positional; 1] = [Positional {
    kind: Kind::Number(0, 4_095),
    required: true,
}];

const PUT_FIRST: [Positional; 2] = [
    Positional {
        kind: Kind::Address,
        required: true,
    },
    Positional {
        kind: Kind::Bytes(100),
        required: true,
    },
];

const SHOW_FIRST: [Positional; 2] = [
    Positional {
        kind: Kind::Address,
        required: true,
    },
    Positional {
        kind: Kind::Number(1, MOST_SHOWN),
        required: true,
    },
];

const MOVE_FIRST: [Positional; 3] = [
    Positional {
        kind: Kind::Address,
        required: true,
    },
    Positional {
        kind: Kind::Address,
        required: true,
    },
    Positional {
        kind: Kind::Number(1, 65_536),
        required: true,
    },
];

const WHERE_FIRST: [Positional; 1] = [Positional {
    kind: Kind::Name,
    required: true,
}];

const BOUNDARIES: [Rule; 2] = [
    Rule::Excludes(Key::Bndry, Key::Startbdy),
    Rule::Excludes(Key::Bndry, Key::Contbdy),
];

const LISTS: [Rule; 1] = [Rule::SameLength(Key::La, Key::A)];

const LV_AND_A: [Rule; 1] = [Rule::Together(Key::Lv, Key::A)];

const LENGTH_AND_ADDR: [Rule; 1] = [Rule::Together(Key::Length, Key::Addr)];

const GIFTS: [Rule; 3] = [
    Rule::Excludes(Key::Gspv, Key::Gspl),
    Rule::Excludes(Key::Shspv, Key::Shspl),
    Rule::Apart(Key::Gspv, Key::Gspl, Key::Shspv, Key::Shspl),
];

impl Row {
    /// Returns the positional operands, at most three.
    pub fn positional(self) -> &'static [Positional]
        ensures row { map as_positional result.now ≡ (row_at self).positional }
        ensures few { length result.now ≤ 3 }
    {
        match self {
            Row::CpoolGet => &GET_FIRST,
            Row::Abend => &ABEND_FIRST,
            Row::Put => &PUT_FIRST,
            Row::Show => &SHOW_FIRST,
            Row::Move => &MOVE_FIRST,
            Row::Where => &WHERE_FIRST,
            Row::Region
            | Row::GetmainFixed
            | Row::GetmainFixedPlaced
            | Row::GetmainVariable
            | Row::GetmainVariablePlaced
            | Row::GetmainList
            | Row::StorageObtain
            | Row::FreemainOrWhole
            | Row::FreemainPlace
            | Row::FreemainArea
            | Row::FreemainList
            | Row::StorageRelease
            | Row::CpoolBuild
            | Row::CpoolFree
            | Row::CpoolDelete
            | Row::Attach
            | Row::Return
            | Row::Report => &[],
        }
    }

    /// Returns the keyword operands, at most eight.
    pub fn keywords(self) -> &'static [Keyword]
        ensures row { map as_keyword result.now ≡ (row_at self).keywords }
        ensures few { length result.now ≤ 8 }
    {
        match self {
            Row::Region => &REGION,
            Row::GetmainFixed => &GETMAIN_FIXED,
            Row::GetmainFixedPlaced => &GETMAIN_FIXED_PLACED,
            Row::GetmainVariable => &GETMAIN_VARIABLE,
            Row::GetmainVariablePlaced => &GETMAIN_VARIABLE_PLACED,
            Row::GetmainList => &GETMAIN_LIST,
            Row::StorageObtain => &STORAGE_OBTAIN,
            Row::FreemainOrWhole => &FREEMAIN_OR_WHOLE,
            Row::FreemainPlace => &FREEMAIN_PLACE,
            Row::FreemainArea => &FREEMAIN_AREA,
            Row::FreemainList => &FREEMAIN_LIST,
            Row::StorageRelease => &STORAGE_RELEASE,
            Row::CpoolBuild => &CPOOL_BUILD,
            Row::CpoolGet => &CPOOL_GET,
            Row::CpoolFree => &CPOOL_FREE,
            Row::CpoolDelete => &CPOOL_DELETE,
            Row::Attach => &ATTACH,
            Row::Return
            | Row::Abend
            | Row::Put
            | Row::Show
            | Row::Move
            | Row::Where
            | Row::Report => &[],
        }
    }

    /// Returns what holds between the operands.
    pub fn rules(self) -> &'static [Rule]
        ensures { map as_rule result.now ≡ (row_at self).rules }
    {
        match self {
            Row::GetmainFixedPlaced | Row::GetmainVariablePlaced | Row::StorageObtain => {
                &BOUNDARIES
            }
            Row::GetmainList | Row::FreemainList => &LISTS,
            Row::FreemainOrWhole => &LV_AND_A,
            Row::StorageRelease => &LENGTH_AND_ADDR,
            Row::Attach => &GIFTS,
            Row::Region
            | Row::GetmainFixed
            | Row::GetmainVariable
            | Row::FreemainPlace
            | Row::FreemainArea
            | Row::CpoolBuild
            | Row::CpoolGet
            | Row::CpoolFree
            | Row::CpoolDelete
            | Row::Return
            | Row::Abend
            | Row::Put
            | Row::Show
            | Row::Move
            | Row::Where
            | Row::Report => &[],
        }
    }
}
