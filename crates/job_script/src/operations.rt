//! Operations and their forms.

ghost use Rattle.std.specs.Prelude.{◌≡◌, [], option_map, bytes_eq, find, not, false, map, flat_map, IfSome, MatchOption};
ghost use Rattle.mvs_model.specs.Reading.{is_empty, rows_of, takes_form};
ghost use Rattle.job_script.specs.Rows.{row_at};
ghost use Rattle.job_script.specs.Operations.{operation_text, row_with};

use crate::rows::Row;

/// The operation of a statement.
#[derive(Clone, Copy)]
pub enum Operation {
    Region,
    Getmain,
    Freemain,
    Storage,
    Cpool,
    Attach,
    Return,
    Abend,
    Put,
    Show,
    Move,
    Where,
    Report,
}

/// All operations.
pub const OPERATIONS: [Operation; 13] = [
    Operation::Region,
    Operation::Getmain,
    Operation::Freemain,
    Operation::Storage,
    Operation::Cpool,
    Operation::Attach,
    Operation::Return,
    Operation::Abend,
    Operation::Put,
    Operation::Show,
    Operation::Move,
    Operation::Where,
    Operation::Report,
];

const GETMAIN_FORMS: [&str; 11] = [
    "R", "EC", "EU", "RC", "RU", "VC", "VU", "VRC", "VRU", "LC", "LU",
];

const FREEMAIN_FORMS: [&str; 9] = ["R", "RC", "RU", "EC", "EU", "VC", "VU", "LC", "LU"];

const STORAGE_FORMS: [&str; 2] = ["OBTAIN", "RELEASE"];

const CPOOL_FORMS: [&str; 4] = ["BUILD", "GET", "FREE", "DELETE"];

const REPORT_FORMS: [&str; 2] = ["SP", "MAP"];

// Returns the one operation that a word may name, by its first letters.
fn likely(word: &[u8]) -> Operation
    ensures { (operation : Operation) → word.now ≡ operation_text operation → result ≡ operation }
{
    match word {
        [b'G', ..] => Operation::Getmain,
        [b'F', ..] => Operation::Freemain,
        [b'S', b'T', ..] => Operation::Storage,
        [b'S', ..] => Operation::Show,
        [b'C', ..] => Operation::Cpool,
        [b'A', b'T', ..] => Operation::Attach,
        [b'A', ..] => Operation::Abend,
        [b'P', ..] => Operation::Put,
        [b'M', ..] => Operation::Move,
        [b'W', ..] => Operation::Where,
        [b'R', b'E', b'G', ..] => Operation::Region,
        [b'R', b'E', b'P', ..] => Operation::Report,
        _ => Operation::Return,
    }
}

/// Returns the operation that a word names.
pub fn read_operation(word: &[u8]) -> Option<Operation>
    ensures { MatchOption result (rows_of word.now ≡ [])
        (λ operation. word.now ≡ operation_text operation) }
{
    let operation = likely(word);
    if operation.is(word) {
        Some(operation)
    } else {
        None
    }
}

// Returns the row of GETMAIN with a form.
fn getmain(form: &[u8]) -> Option<Row>
    ensures row { row_with Operation.Getmain form.now ≡ option_map row_at result }
    ensures formed { IfSome result (λ row. is_empty (row_at row).forms ≡ false) }
{
    match form {
        b"R" | b"EC" | b"EU" => Some(Row::GetmainFixed),
        b"RC" | b"RU" => Some(Row::GetmainFixedPlaced),
        b"VC" | b"VU" => Some(Row::GetmainVariable),
        b"VRC" | b"VRU" => Some(Row::GetmainVariablePlaced),
        b"LC" | b"LU" => Some(Row::GetmainList),
        _ => None,
    }
}

// Returns the row of FREEMAIN with a form.
fn freemain(form: &[u8]) -> Option<Row>
    ensures row { row_with Operation.Freemain form.now ≡ option_map row_at result }
    ensures formed { IfSome result (λ row. is_empty (row_at row).forms ≡ false) }
{
    match form {
        b"R" | b"RC" | b"RU" => Some(Row::FreemainOrWhole),
        b"EC" | b"EU" => Some(Row::FreemainPlace),
        b"VC" | b"VU" => Some(Row::FreemainArea),
        b"LC" | b"LU" => Some(Row::FreemainList),
        _ => None,
    }
}

// Returns the row of STORAGE with a form.
fn storage(form: &[u8]) -> Option<Row>
    ensures row { row_with Operation.Storage form.now ≡ option_map row_at result }
    ensures formed { IfSome result (λ row. is_empty (row_at row).forms ≡ false) }
{
    if form == b"OBTAIN".as_slice() {
        Some(Row::StorageObtain)
    } else if form == b"RELEASE".as_slice() {
        Some(Row::StorageRelease)
    } else {
        None
    }
}

// Returns the row of CPOOL with a form.
fn cpool(form: &[u8]) -> Option<Row>
    ensures row { row_with Operation.Cpool form.now ≡ option_map row_at result }
    ensures formed { IfSome result (λ row. is_empty (row_at row).forms ≡ false) }
{
    if form == b"BUILD".as_slice() {
        Some(Row::CpoolBuild)
    } else if form == b"GET".as_slice() {
        Some(Row::CpoolGet)
    } else if form == b"FREE".as_slice() {
        Some(Row::CpoolFree)
    } else if form == b"DELETE".as_slice() {
        Some(Row::CpoolDelete)
    } else {
        None
    }
}

// Returns the row of REPORT with a form.
fn report(form: &[u8]) -> Option<Row>
    ensures row { row_with Operation.Report form.now ≡ option_map row_at result }
    ensures formed { IfSome result (λ row. is_empty (row_at row).forms ≡ false) }
{
    if form == b"SP".as_slice() || form == b"MAP".as_slice() {
        Some(Row::Report)
    } else {
        None
    }
}

impl Operation {
    // Returns whether a word names the operation.
    fn is(self, word: &[u8]) -> bool
        ensures { result ≡ bytes_eq (operation_text self) word.now }
    {
        match self {
            Operation::Region => word == b"REGION".as_slice(),
            Operation::Getmain => word == b"GETMAIN".as_slice(),
            Operation::Freemain => word == b"FREEMAIN".as_slice(),
            Operation::Storage => word == b"STORAGE".as_slice(),
            Operation::Cpool => word == b"CPOOL".as_slice(),
            Operation::Attach => word == b"ATTACH".as_slice(),
            Operation::Return => word == b"RETURN".as_slice(),
            Operation::Abend => word == b"ABEND".as_slice(),
            Operation::Put => word == b"PUT".as_slice(),
            Operation::Show => word == b"SHOW".as_slice(),
            Operation::Move => word == b"MOVE".as_slice(),
            Operation::Where => word == b"WHERE".as_slice(),
            Operation::Report => word == b"REPORT".as_slice(),
        }
    }

    /// Returns the operation as a script writes it.
    pub fn text(self) -> &'static str
        ensures { result.now ≡ operation_text self }
    {
        match self {
            Operation::Region => "REGION",
            Operation::Getmain => "GETMAIN",
            Operation::Freemain => "FREEMAIN",
            Operation::Storage => "STORAGE",
            Operation::Cpool => "CPOOL",
            Operation::Attach => "ATTACH",
            Operation::Return => "RETURN",
            Operation::Abend => "ABEND",
            Operation::Put => "PUT",
            Operation::Show => "SHOW",
            Operation::Move => "MOVE",
            Operation::Where => "WHERE",
            Operation::Report => "REPORT",
        }
    }

    /// Returns the forms that it takes.
    pub fn forms(self) -> &'static [&'static str]
        ensures { map (λ form. form.now) result.now
            ≡ flat_map (λ row. row.forms) (rows_of (operation_text self)) }
    {
        match self {
            Operation::Getmain => &GETMAIN_FORMS,
            Operation::Freemain => &FREEMAIN_FORMS,
            Operation::Storage => &STORAGE_FORMS,
            Operation::Cpool => &CPOOL_FORMS,
            Operation::Report => &REPORT_FORMS,
            Operation::Region
            | Operation::Attach
            | Operation::Return
            | Operation::Abend
            | Operation::Put
            | Operation::Show
            | Operation::Move
            | Operation::Where => &[],
        }
    }

    /// Returns whether the operation takes a form, which is its first operand.
    pub fn takes_form(self) -> bool
        ensures { result ≡ takes_form (operation_text self) }
    {
        matches!(
            self,
            Operation::Getmain
                | Operation::Freemain
                | Operation::Storage
                | Operation::Cpool
                | Operation::Report
        )
    }

    /// Returns the row of the operation with a form, which says nothing where the operation takes none.
    pub fn row(self, form: &[u8]) -> Option<Row>
        ensures row { row_with self form.now ≡ option_map row_at result }
        ensures formed { IfSome result
            (λ row. is_empty (row_at row).forms ≡ not (takes_form (operation_text self))) }
    {
        match self {
            Operation::Region => Some(Row::Region),
            Operation::Getmain => getmain(form),
            Operation::Freemain => freemain(form),
            Operation::Storage => storage(form),
            Operation::Cpool => cpool(form),
            Operation::Attach => Some(Row::Attach),
            Operation::Return => Some(Row::Return),
            Operation::Abend => Some(Row::Abend),
            Operation::Put => Some(Row::Put),
            Operation::Show => Some(Row::Show),
            Operation::Move => Some(Row::Move),
            Operation::Where => Some(Row::Where),
            Operation::Report => report(form),
        }
    }
}
