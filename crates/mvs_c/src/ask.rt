//! A request that C gives by values.

ghost use Rattle.std.specs.Prelude.{◌≡◌, ◌<◌, ◌≤◌, ◌+◌, ◌*◌, ◌^◌, ◌||◌, ◌==◌, IfSome, MatchOption, SomeIff, length};
ghost use Rattle.std.specs.List.{position_or_len};
ghost use Rattle.mvs_model.specs.Gifts.{IsGifts};
ghost use Rattle.mvs_model.specs.Numbers.{least_cell_bytes, most_cell_bytes, most_cells, most_shown, most_moved};
ghost use Rattle.mvs_model.specs.Place.{place_at};
ghost use Rattle.mvs_model.specs.Want.{IsExponent};
ghost use Rattle.mvs_c.specs.Asks as asks;
ghost use Rattle.mvs_c.specs.Asks.{Asks, AsksOf, IsCount, IsLeast, IsLength, IsLocation, IsNamed, IsStart, IsWithin, NamesTask, TakesForm, TaskAsks, answer_of, ends_name, form_numbered, form_value, gifts_value, kind_numbered, location_value, name_value, name_text, named_answer, or_else, within_value};
ghost use Rattle.mvs_c.specs.declared.ask.RequestKind.TheVariants as kind;

use crate::field::RequestField;
use job_script::addresses::{is_name, name};
use mvs_model::bounded::{CellCount, CellSize, Exponent, Length, MoveLength, ShowLength, UserCode};
use mvs_model::code::Form;
use mvs_model::gifts::Gifts;
use mvs_model::name::Name;
use mvs_model::place::{Addr, Place};
use mvs_model::request::Request;
use mvs_model::want::{self, Loc, Residence};

/// The number of bytes of a request by values.
const ASK_BYTES: u32 = 112;

/// The first address that is none.
const ADDRESSES: u32 = 1 << 31;

/// The kinds of requests.
#[derive(Clone, Copy)]
pub enum RequestKind {
    Obtain,
    Release,
    ReleaseWhole,
    Build,
    Get,
    Free,
    Delete,
    Attach,
    Return,
    Abend,
    Show,
    Move,
    SystemAbend,
}

/// The kinds by their numbers, from 1 on.
const KINDS: [Option<RequestKind>; 14] = [
    None,
    Some(RequestKind::Obtain),
    Some(RequestKind::Release),
    Some(RequestKind::ReleaseWhole),
    Some(RequestKind::Build),
    Some(RequestKind::Get),
    Some(RequestKind::Free),
    Some(RequestKind::Delete),
    Some(RequestKind::Attach),
    Some(RequestKind::Return),
    Some(RequestKind::Abend),
    Some(RequestKind::Show),
    Some(RequestKind::Move),
    Some(RequestKind::SystemAbend),
];

/// The forms by their numbers, from 1 on.
const FORMS: [Option<Form>; 14] = [
    None,
    Some(Form::R),
    Some(Form::Rc),
    Some(Form::Ru),
    Some(Form::Vrc),
    Some(Form::Vru),
    Some(Form::Ec),
    Some(Form::Eu),
    Some(Form::Vc),
    Some(Form::Vu),
    Some(Form::Storage),
    Some(Form::StorageConditional),
    Some(Form::Lc),
    Some(Form::Lu),
];

/// The locations.
const LOCATIONS: [Loc; 3] = [Loc::Res, Loc::Below, Loc::Any];

/// A request of a task. A field that a kind of request does not read is ignored.
#[repr(C)]
#[derive(Clone, Copy)]
pub struct RawRequest {
    /// The number of bytes of this struct.
    pub size: u32,
    pub kind: u32,
    pub form: u32,
    pub subpool: u32,
    /// In bytes; of a variable obtain the greatest, of a pool that of a cell.
    pub length: u32,
    /// The least length of a variable obtain; 0: the same.
    pub least: u32,
    /// The power of two of the boundary that an area begins on; 0: a doubleword.
    pub boundary: u32,
    /// The power of two of the boundary not to cross; 0: none.
    pub within: u32,
    pub location: u32,
    pub address: u32,
    /// Where MOVE reads.
    pub source: u32,
    /// How many cells the first part of a pool has, and each further one; 0: the same.
    pub primary: u32,
    pub secondary: u32,
    /// A completion code.
    pub code: u32,
    pub conditional: bool,
    /// A subtask does not share subpool 0.
    pub keeps_zero: bool,
    /// The program of a subtask resides above 16 megabytes.
    pub above: bool,
    /// The subpool numbers that a subtask is given and shares, a bit for each.
    pub given_low: u64,
    pub given_high: u64,
    pub shared_low: u64,
    pub shared_high: u64,
    pub task: [u8; 8],
    /// Of a pool or a subtask.
    pub name: [u8; 8],
}

// Returns a kind of request.
fn kind_of(number: u32) -> Option<RequestKind>
    ensures { result ≡ kind_numbered number }
{
    *KINDS.get(number as usize)?
}

/// Returns a form.
pub fn form_of(number: u32) -> Option<Form>
    ensures { result ≡ form_numbered number }
{
    *FORMS.get(number as usize)?
}

// Returns whether an obtain of this form can have a least length.
fn takes_least(form: Form) -> bool
    ensures { result ≡ asks.takes_least form }
{
    match form {
        Form::Vrc | Form::Vru | Form::Vc | Form::Vu | Form::Storage | Form::StorageConditional =>
            true,
        Form::R | Form::Rc | Form::Ru | Form::Ec | Form::Eu | Form::Lc | Form::Lu => false,
    }
}

// Returns whether an obtain of this form needs a least length.
fn needs_least(form: Form) -> bool
    ensures { result ≡ asks.needs_least form }
{
    match form {
        Form::Vrc | Form::Vru | Form::Vc | Form::Vu => true,
        Form::R
        | Form::Rc
        | Form::Ru
        | Form::Ec
        | Form::Eu
        | Form::Lc
        | Form::Lu
        | Form::Storage
        | Form::StorageConditional => false,
    }
}

/// Returns whether an obtain of this form takes a location, and boundaries other than a doubleword and a page.
pub fn is_located(form: Form) -> bool
    ensures { result ≡ asks.is_located form }
{
    match form {
        Form::Rc | Form::Ru | Form::Vrc | Form::Vru | Form::Storage | Form::StorageConditional =>
            true,
        Form::R | Form::Ec | Form::Eu | Form::Vc | Form::Vu | Form::Lc | Form::Lu => false,
    }
}

// Returns the form of an obtain.
fn obtaining(number: u32) -> Option<Form>
    ensures { SomeIff result (TakesForm asks.obtains_one number) (form_value number) }
{
    match form_of(number)? {
        Form::Lc | Form::Lu => None,
        form => Some(form),
    }
}

// Returns the form of a release of one area.
fn releasing(number: u32) -> Option<Form>
    ensures { SomeIff result (TakesForm asks.releases_one number) (form_value number) }
{
    match form_of(number)? {
        Form::Vrc | Form::Vru | Form::Lc | Form::Lu => None,
        form => Some(form),
    }
}

// Returns the form of a release of a whole subpool.
fn releasing_whole(number: u32) -> Option<Form>
    ensures { SomeIff result (TakesForm asks.releases_whole number) (form_value number) }
{
    match form_of(number)? {
        form @ (Form::R | Form::Rc | Form::Ru | Form::Storage | Form::StorageConditional) => {
            Some(form)
        }
        Form::Vrc | Form::Vru | Form::Ec | Form::Eu | Form::Vc | Form::Vu | Form::Lc | Form::Lu =>
            None,
    }
}

// Returns a location.
fn location_of(number: u32) -> Option<Loc>
    ensures { SomeIff result (number < 3) (location_value number) }
{
    LOCATIONS.get(number as usize).copied()
}

/// Returns a location, or that of a statement without one if the number is that of none.
pub fn location_or_res(number: u32) -> Loc
    ensures { result ≡ location_value number }
{
    match LOCATIONS.get(number as usize) {
        Some(loc) => *loc,
        None => Loc::Res,
    }
}

// Returns the location of an obtain of a form.
fn location_in(form: Form, number: u32) -> Option<Loc>
    ensures { SomeIff result (IsLocation form number) (location_value number) }
{
    if !is_located(form) && number != 0 {
        return None;
    }
    location_of(number)
}

// Returns a subpool number.
pub fn subpool_of(number: u32) -> Option<u8>
    ensures { SomeIff result (number < 256) number }
{
    u8::try_from(number).ok()
}

// Returns a number, or another one in the place of 0.
pub fn or_else(number: u32, other: u32) -> u32
    ensures { result ≡ or_else number other }
{
    if number == 0 { other } else { number }
}

// Returns a length of an area.
pub fn length_of(number: u32) -> Option<Length>
    ensures { SomeIff result (IsLength number) number }
{
    Length::checked(number)
}

// Returns the least length of an obtain of a form.
fn least_in(form: Form, number: u32, most: Length) -> Option<Length>
    ensures { SomeIff result (IsLeast form most number) (or_else number most) }
{
    if needs_least(form) && number == 0 {
        return None;
    }
    if !takes_least(form) && number != 0 {
        return None;
    }
    let least = or_else(number, most.get());
    if least > most.get() {
        return None;
    }
    length_of(least)
}

// Returns the power of two of a boundary.
pub fn exponent_of(number: u32) -> Option<Exponent>
    ensures { SomeIff result (IsExponent number) number }
{
    Exponent::checked(number)
}

// Returns the power of two of the boundary that an obtain of a form begins on.
fn start_in(form: Form, number: u32) -> Option<Exponent>
    ensures { SomeIff result (IsStart form number) (or_else number 3) }
{
    let start = exponent_of(or_else(number, 3))?;
    if is_located(form) || start.get() == 3 || start.get() == 12 {
        Some(start)
    } else {
        None
    }
}

// Returns the power of two of the boundary that an obtain of a form does not cross, if there is one.
fn within_in(form: Form, number: u32) -> Option<Option<Exponent>>
    ensures { SomeIff result (IsWithin form number) (within_value number) }
{
    if number == 0 {
        return Some(None);
    }
    if !is_located(form) {
        return None;
    }
    Some(Some(exponent_of(number)?))
}

// Returns an address.
fn address_of(number: u32) -> Option<Addr>
    ensures { SomeIff result (number < 2 ^ 31) number }
{
    if number < ADDRESSES {
        Some(Addr::new(number))
    } else {
        None
    }
}

// Returns a number of bytes from an address on.
pub fn place_of(addr: u32, len: u32) -> Option<Place>
    ensures { SomeIff result ((addr < 2 ^ 31) × IsLength len) (place_at addr len) }
{
    let addr = address_of(addr)?;
    let len = length_of(len)?;
    Some(Place::new(addr, len.get()))
}

// Returns how many cells a part of a pool has.
fn count_of(number: u32) -> Option<CellCount>
    ensures { SomeIff result (IsCount number) number }
{
    CellCount::checked(number)
}

// Returns the bytes of a cell.
fn cell_size(number: u32) -> Option<CellSize>
    ensures { SomeIff result ((least_cell_bytes ≤ number) × (number ≤ most_cell_bytes)) number }
{
    CellSize::checked(number)
}

// Returns whether a byte ends a name.
fn ends_name(byte: u8) -> bool
    ensures { result ≡ ends_name byte }
{
    byte == 0 || byte == b' '
}

// Returns the number of bytes before the first blank or zero byte.
pub fn text_len(bytes: &[u8]) -> usize
    ensures len { result ≡ position_or_len ends_name bytes.now }
    ensures within { result ≤ length bytes.now }
{
    for (i, byte) in bytes.iter().enumerate() {
        if ends_name(*byte) {
            return i;
        }
    }
    bytes.len()
}

// Returns a name of eight bytes, which ends before the first blank or zero byte.
pub fn name_of(bytes: &[u8; 8]) -> Option<Name>
    ensures { SomeIff result (IsNamed bytes.now) (name_value bytes.now) }
{
    let text = &bytes[..text_len(bytes)];
    if is_name(text) {
        Some(name(text))
    } else {
        None
    }
}

/// Returns a set of subpool numbers from its two halves.
pub fn set_of(low: u64, high: u64) -> u128
    ensures { result ≡ low + 2 ^ 64 * high }
{
    u128::from(low) + (u128::from(high) << 64)
}

impl RawRequest {
    // Returns what an attaching task gives and shares.
    fn gifts(&self) -> Option<Gifts>
        ensures { SomeIff result (IsGifts (gifts_value self.now)) (gifts_value self.now) }
    {
        let given = set_of(self.given_low, self.given_high);
        let shared = set_of(self.shared_low, self.shared_high);
        Gifts::new(given, shared, !self.keeps_zero)
    }

    #[inline(always)]
    fn obtain(&self, request: &mut Request) -> Option<RequestField>
        ensures { AsksOf kind.Obtain self.now (answer_of result request.new) }
    {
        let Some(form) = obtaining(self.form) else {
            return Some(RequestField::Form);
        };
        let Some(number) = subpool_of(self.subpool) else {
            return Some(RequestField::Subpool);
        };
        let Some(most) = length_of(self.length) else {
            return Some(RequestField::Length);
        };
        let Some(least) = least_in(form, self.least, most) else {
            return Some(RequestField::Least);
        };
        let Some(start) = start_in(form, self.boundary) else {
            return Some(RequestField::Boundary);
        };
        let Some(within) = within_in(form, self.within) else {
            return Some(RequestField::Within);
        };
        let Some(loc) = location_in(form, self.location) else {
            return Some(RequestField::Location);
        };
        let ask = want::AreaRequest::fixed(most, start, loc).at_least(least);
        let ask = match within {
            Some(within) => ask.within(within),
            None => ask,
        };
        *request = Request::Obtain { form, number, ask };
        None
    }

    #[inline(always)]
    fn release(&self, request: &mut Request) -> Option<RequestField>
        ensures { AsksOf kind.Release self.now (answer_of result request.new) }
    {
        let Some(form) = releasing(self.form) else {
            return Some(RequestField::Form);
        };
        let Some(number) = subpool_of(self.subpool) else {
            return Some(RequestField::Subpool);
        };
        let Some(len) = length_of(self.length) else {
            return Some(RequestField::Length);
        };
        let Some(addr) = address_of(self.address) else {
            return Some(RequestField::Address);
        };
        *request = Request::Release {
            form,
            number,
            place: Place::new(addr, len.get()),
        };
        None
    }

    fn release_whole(&self, request: &mut Request) -> Option<RequestField>
        ensures { AsksOf kind.ReleaseWhole self.now (answer_of result request.new) }
    {
        let Some(form) = releasing_whole(self.form) else {
            return Some(RequestField::Form);
        };
        let Some(number) = subpool_of(self.subpool) else {
            return Some(RequestField::Subpool);
        };
        *request = Request::ReleaseWhole { form, number };
        None
    }

    fn build(&self, request: &mut Request) -> Option<RequestField>
        ensures { AsksOf kind.Build self.now (answer_of result request.new) }
    {
        let Some(number) = subpool_of(self.subpool) else {
            return Some(RequestField::Subpool);
        };
        let Some(size) = cell_size(self.length) else {
            return Some(RequestField::Length);
        };
        let Some(loc) = location_of(self.location) else {
            return Some(RequestField::Location);
        };
        let Some(primary) = count_of(self.primary) else {
            return Some(RequestField::Primary);
        };
        let Some(secondary) = count_of(or_else(self.secondary, self.primary)) else {
            return Some(RequestField::Secondary);
        };
        let Some(pool) = name_of(&self.name) else {
            return Some(RequestField::Name);
        };
        *request = Request::Build {
            pool,
            number,
            size,
            primary,
            secondary,
            loc,
        };
        None
    }

    fn get(&self, request: &mut Request) -> Option<RequestField>
        ensures { AsksOf kind.Get self.now (answer_of result request.new) }
    {
        let Some(pool) = name_of(&self.name) else {
            return Some(RequestField::Name);
        };
        *request = Request::Get {
            pool,
            conditional: self.conditional,
        };
        None
    }

    fn free(&self, request: &mut Request) -> Option<RequestField>
        ensures { AsksOf kind.Free self.now (answer_of result request.new) }
    {
        let Some(cell) = address_of(self.address) else {
            return Some(RequestField::Address);
        };
        let Some(pool) = name_of(&self.name) else {
            return Some(RequestField::Name);
        };
        *request = Request::Free { pool, cell };
        None
    }

    fn delete(&self, request: &mut Request) -> Option<RequestField>
        ensures { AsksOf kind.Delete self.now (answer_of result request.new) }
    {
        let Some(pool) = name_of(&self.name) else {
            return Some(RequestField::Name);
        };
        *request = Request::Delete { pool };
        None
    }

    fn attach(&self, request: &mut Request) -> Option<RequestField>
        ensures { AsksOf kind.Attach self.now (answer_of result request.new) }
    {
        let Some(gifts) = self.gifts() else {
            return Some(RequestField::Subpools);
        };
        let Some(name) = name_of(&self.name) else {
            return Some(RequestField::Name);
        };
        *request = Request::Attach {
            name,
            gifts,
            residence: if self.above {
                Residence::Above
            } else {
                Residence::Below
            },
        };
        None
    }

    // An abend with a system code is one with the user code of the same number.
    fn abend(&self, request: &mut Request) -> Option<RequestField>
        ensures user { AsksOf kind.Abend self.now (answer_of result request.new) }
        ensures system { AsksOf kind.SystemAbend self.now (answer_of result request.new) }
    {
        if self.code >= 4_096 {
            return Some(RequestField::Code);
        }
        *request = Request::Abend(UserCode::new(self.code));
        None
    }

    fn show(&self, request: &mut Request) -> Option<RequestField>
        ensures { AsksOf kind.Show self.now (answer_of result request.new) }
    {
        let Some(len) = ShowLength::checked(self.length) else {
            return Some(RequestField::Length);
        };
        let Some(from) = address_of(self.address) else {
            return Some(RequestField::Address);
        };
        *request = Request::Show { from, len };
        None
    }

    fn copy(&self, request: &mut Request) -> Option<RequestField>
        ensures { AsksOf kind.Move self.now (answer_of result request.new) }
    {
        let Some(len) = MoveLength::checked(self.length) else {
            return Some(RequestField::Length);
        };
        let Some(to) = address_of(self.address) else {
            return Some(RequestField::Address);
        };
        let Some(from) = address_of(self.source) else {
            return Some(RequestField::Source);
        };
        *request = Request::Move { to, from, len };
        None
    }

    // Writes the request of a struct of this kind over another, or returns the first field that does not fit.
    #[inline(always)]
    fn request_of(&self, kind: RequestKind, request: &mut Request) -> Option<RequestField>
        ensures { AsksOf kind self.now (answer_of result request.new) }
    {
        match kind {
            RequestKind::Obtain => self.obtain(request),
            RequestKind::Release => self.release(request),
            RequestKind::ReleaseWhole => self.release_whole(request),
            RequestKind::Build => self.build(request),
            RequestKind::Get => self.get(request),
            RequestKind::Free => self.free(request),
            RequestKind::Delete => self.delete(request),
            RequestKind::Attach => self.attach(request),
            RequestKind::Return => {
                *request = Request::Return;
                None
            }
            RequestKind::Abend | RequestKind::SystemAbend => self.abend(request),
            RequestKind::Show => self.show(request),
            RequestKind::Move => self.copy(request),
        }
    }

    // Writes the request over another, or returns the first field that does not fit.
    #[inline(always)]
    fn request(&self, request: &mut Request) -> Option<RequestField>
        ensures { Asks self.now (answer_of result request.new) }
    {
        match self.kind() {
            Some(kind) => self.request_of(kind, request),
            None => Some(RequestField::Kind),
        }
    }

    /// Returns the kind of request, or None if the number is that of no kind.
    pub fn kind(&self) -> Option<RequestKind>
        ensures { result ≡ kind_numbered self.now.kind }
    {
        kind_of(self.kind)
    }

    /// Returns the task that makes the request, whose name has been read, or the field if the size or the name does not fit.
    pub fn named_task(&self, task: Option<Name>) -> Result<Name, RequestField>
        requires { SomeIff task (IsNamed self.now.task) (name_value self.now.task) }
        ensures { NamesTask self.now result }
    {
        if self.size == ASK_BYTES {
            task.ok_or(RequestField::Task)
        } else {
            Err(RequestField::Size)
        }
    }

    /// Writes the request over another, and returns the task that makes it, whose name has been read, or the first field that does not
    /// fit.
    #[inline(always)]
    pub fn task_request(
        &self,
        task: Option<Name>,
        request: &mut Request,
    ) -> Result<Name, RequestField>
        requires { SomeIff task (IsNamed self.now.task) (name_value self.now.task) }
        ensures { TaskAsks self.now (Asks self.now) (named_answer result request.new) }
    {
        let task = self.named_task(task)?;
        match self.request(request) {
            None => Ok(task),
            Some(field) => Err(field),
        }
    }
}
