//! What C reads of the step that runs: bytes, and the lines of the reports.

ghost use Rattle.std.specs.Prelude.{◌≡◌, ◌≢◌, ◌<◌, ◌≤◌, ◌^◌, Option, MatchBool, MatchOption, slice_get};
ghost use Rattle.mvs_model.specs.FullAnswers.{ended_with_in};
ghost use Rattle.mvs_model.specs.Place.{IsPlace, place_at};
ghost use Rattle.mvs_model.specs.declared.report.MapRun.{MapRun};
ghost use Rattle.mvs_c.specs.Access.{AnswersRead, AnswersSubpool, AnswersWrite, FindsRun, FindsSubpool, Reads, ReturnsOne, WritesAt, run_bytes, run_value, subpool_bytes};

use crate::ask::name_of;
use crate::open::Open;
use crate::status::{NO_ACCESS, NO_BYTES, NO_MORE, NO_TASK, OK, OVER};
use mvs_model::place::{Addr, Place};
use mvs_model::report::{MapRun, SubpoolLine};

/// The first address that is none.
pub const ADDRESSES: u32 = 1 << 31;

/// The number of bytes of a line of REPORT SP, and of REPORT MAP.
const SUBPOOL_BYTES: u32 = 20;

const RUN_BYTES: u32 = 28;

/// A line of REPORT SP.
#[repr(C)]
#[derive(Clone, Copy)]
pub struct Subpool {
    /// The number of bytes of this struct.
    pub size: u32,
    pub number: u32,
    pub owned: bool,
    /// The bytes outside and inside of cell pools.
    pub plain: u32,
    pub pool: u32,
}

/// A line of REPORT MAP.
#[repr(C)]
#[derive(Clone, Copy)]
pub struct RunFields {
    /// The number of bytes of this struct.
    pub size: u32,
    pub address: u32,
    pub length: u32,
    /// Whether the pages are assigned to a subpool.
    pub assigned: bool,
    pub number: u32,
    pub owner: [u8; 8],
}

impl Subpool {
    /// Returns whether the size is that of such a line.
    pub fn is_sized(&self) -> bool
        ensures { MatchBool result (self.now.size ≡ subpool_bytes) (self.now.size ≢ subpool_bytes) }
    {
        self.size == SUBPOOL_BYTES
    }
}

impl RunFields {
    /// Returns whether the size is that of such a line.
    pub fn is_sized(&self) -> bool
        ensures { MatchBool result (self.now.size ≡ run_bytes) (self.now.size ≢ run_bytes) }
    {
        self.size == RUN_BYTES
    }
}

/// Returns an address of 31 bits, or None if the number is none.
pub fn addr_of(number: u32) -> Option<Addr>
    ensures { MatchOption result (2 ^ 31 ≤ number) (λ addr. (number < 2 ^ 31) × (addr ≡ number)) }
{
    if number < ADDRESSES {
        Some(Addr::new(number))
    } else {
        None
    }
}

// Returns a number of bytes from an address on, or None if they are not a place.
fn place_of(address: u32, len: usize) -> Option<Place>
    ensures { MatchOption result (IsPlace (place_at address len) → ⊥)
        (λ place. IsPlace place × (place ≡ place_at address len)) }
{
    match u32::try_from(len) {
        Ok(len) if address < ADDRESSES && 1 <= len && len <= ADDRESSES => {
            Some(Place::new(Addr::new(address), len))
        }
        _ => None,
    }
}

// Copies the bytes from an address on.
fn copy_bytes(held: &Open, address: u32, out: &mut [u8]) -> u32
    ensures { Reads held.now address out.old out.new result }
{
    let Some(job) = held.job() else {
        return NO_ACCESS;
    };
    let Some(place) = place_of(address, out.len()) else {
        return NO_ACCESS;
    };
    match job.step().bytes(place) {
        Some(bytes) => {
            out.copy_from_slice(bytes);
            OK
        }
        None => NO_ACCESS,
    }
}

// Writes bytes from an address on.
fn write_bytes(held: &mut Open, address: u32, bytes: &[u8]) -> u32
    ensures { WritesAt held.old address bytes.now held.new result }
{
    if !held.continues() {
        return OVER;
    }
    let Some(place) = place_of(address, bytes.len()) else {
        return NO_ACCESS;
    };
    if held.write(place, bytes) {
        OK
    } else {
        NO_ACCESS
    }
}

/// Copies the bytes from an address on, if the session has them.
pub fn read(held: &Open, address: u32, out: &mut [u8]) -> u32
    ensures { AnswersRead held.now address out.old out.new result }
{
    if !held.keeps_bytes() {
        return NO_BYTES;
    }
    copy_bytes(held, address, out)
}

/// Writes bytes from an address on, if the session has them.
pub fn write(held: &mut Open, address: u32, bytes: &[u8]) -> u32
    ensures { AnswersWrite held.old address bytes.now held.new result }
{
    if held.keeps_bytes() {
        write_bytes(held, address, bytes)
    } else {
        NO_BYTES
    }
}

/// Copies the name of one of the tasks that ended with the one that abended last.
pub fn copy_ended_with(held: &Open, index: usize, name: &mut [u8; 8]) -> u32
    ensures { ReturnsOne (slice_get (ended_with_in held.now.session.walk.reply) index) (λ t. t) name.old name.new
        result }
{
    match held.fallen().get(index) {
        Some(task) => {
            *name = task.bytes();
            OK
        }
        None => NO_MORE,
    }
}

// Returns the line of a task's first subpool number at or after one, or a status.
fn find_subpool(held: &Open, name: &[u8; 8], from: u8) -> Result<SubpoolLine, u32>
    ensures { FindsSubpool held.now name.now from result }
{
    let Some(job) = held.job() else {
        return Err(NO_TASK);
    };
    let Some(task) = name_of(name) else {
        return Err(NO_TASK);
    };
    if !job.step().is_active(&task) {
        return Err(NO_TASK);
    }
    job.step().subpool_line(&task, from).ok_or(NO_MORE)
}

/// Returns the first subpool number of a task at or after one.
pub fn copy_subpool(held: &Open, name: &[u8; 8], from: u8, subpool: &mut Subpool) -> u32
    ensures { AnswersSubpool held.now name.now from subpool.old subpool.new result }
{
    match find_subpool(held, name, from) {
        Ok(line) => {
            *subpool = Subpool {
                size: SUBPOOL_BYTES,
                number: u32::from(line.number.get()),
                owned: line.owned,
                plain: line.plain,
                pool: line.pool,
            };
            OK
        }
        Err(status) => status,
    }
}

// Returns the first run of pages at or after an address.
fn find_run(held: &Open, from: u32) -> Option<MapRun>
    ensures { FindsRun held.now from result }
{
    let job = held.job()?;
    let from = addr_of(from)?;
    job.step().map_run(from)
}

// Returns a run of pages, for C.
fn run_value(run: &MapRun) -> RunFields
    ensures { result ≡ run_value run.now }
{
    let (assigned, number, owner) = match run.holder {
        Some((number, owner)) => (true, u32::from(number.get()), owner.bytes()),
        None => (false, 0, [b' '; 8]),
    };
    RunFields {
        size: RUN_BYTES,
        address: run.addr.get(),
        length: run.len,
        assigned,
        number,
        owner,
    }
}

/// Returns the first run of pages at or after an address.
pub fn copy_run(held: &Open, from: u32, fields: &mut RunFields) -> u32
    ensures { (found : Option MapRun) × FindsRun held.now from found
        × ReturnsOne found run_value fields.old fields.new result }
{
    match find_run(held, from) {
        Some(run) => {
            *fields = run_value(&run);
            OK
        }
        None => NO_MORE,
    }
}
