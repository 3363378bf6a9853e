//! The forms of the storage requests, and the completion codes as the code uses them: each is the one of the definitions.

ghost use Rattle.std.specs.Prelude.{◌≡◌};
ghost use Rattle.mvs_model.specs.Codes as codes;
ghost use Rattle.mvs_model.specs.declared.code.Family.TheVariants.{Located};

/// The forms of GETMAIN and FREEMAIN, and those of STORAGE (Assembler Services Reference).
#[derive(Clone, Copy, Debug, PartialEq, Eq)]
pub enum Form {
    R,
    Rc,
    Ru,
    Vrc,
    Vru,
    Ec,
    Eu,
    Vc,
    Vu,
    Lc,
    Lu,
    /// STORAGE with COND=NO.
    Storage,
    /// STORAGE with COND=YES.
    StorageConditional,
}

/// The forms that have one set of completion codes: E, V and L; R; and those that take a location.
#[derive(Clone, Copy, Debug, PartialEq, Eq)]
pub enum Family {
    E,
    R,
    Located,
}

/// A completion code of a task that abended (System Codes).
#[derive(Clone, Copy, Debug, PartialEq, Eq)]
pub enum Code {
    /// Three hexadecimal digits, as X'80A'.
    System(u16),
    /// 0 to 4095.
    User(u16),
}

impl Code {
    /// Bytes are read or written that may not be (System Codes, 0C4).
    pub const NO_ACCESS: Code = Code::System(0x0C4);

    /// No place for a request with a location or for a part of a cell pool (System Codes, 878).
    pub const SHORTAGE: Code = Code::System(0x878);

    /// A task returns that has an active subtask (System Codes, A03).
    pub const ACTIVE_SUBTASK: Code = Code::System(0xA03);

    /// CPOOL FREE at an address where no taken cell of the pool begins. This project's choice, as those below are.
    pub const NO_SUCH_CELL: Code = Code::User(4_001);

    /// CPOOL names no pool that is there.
    pub const NO_SUCH_POOL: Code = Code::User(4_002);

    /// ATTACH gives a subpool that the mother shares and does not own.
    pub const NOT_OWNED: Code = Code::User(4_003);

    /// ATTACH beyond the most tasks.
    pub const TOO_MANY_TASKS: Code = Code::User(4_005);

    /// A release of the whole of subpool 0.
    pub const WHOLE_OF_ZERO: Code = Code::User(4_006);

    /// CPOOL BUILD beyond the most cell pools.
    pub const TOO_MANY_POOLS: Code = Code::User(4_007);

    /// CPOOL BUILD of a name that a pool has.
    pub const POOL_IN_USE: Code = Code::User(4_008);

    /// ATTACH of a name that an active task has.
    pub const TASK_IN_USE: Code = Code::User(4_009);
}

/// Shows that each code of a refusal that the code uses is the one of the definitions.
pub fn codes_agree()
    ensures system { (Code.NO_ACCESS ≡ codes.no_access) × (Code.SHORTAGE ≡ codes.short Located)
        × (Code.ACTIVE_SUBTASK ≡ codes.active_subtask) }
    ensures pools { (Code.NO_SUCH_CELL ≡ codes.no_such_cell)
        × (Code.NO_SUCH_POOL ≡ codes.no_such_pool) × (Code.TOO_MANY_POOLS ≡ codes.too_many_pools)
        × (Code.POOL_IN_USE ≡ codes.pool_in_use) }
    ensures tasks { (Code.NOT_OWNED ≡ codes.not_owned)
        × (Code.TOO_MANY_TASKS ≡ codes.too_many_tasks) × (Code.TASK_IN_USE ≡ codes.task_in_use) }
    ensures whole { Code.WHOLE_OF_ZERO ≡ codes.whole_of_zero }
{}
