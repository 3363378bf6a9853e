//! Bytes that C reads in the memory of a session.

ghost use Rattle.std.specs.Prelude.{◌≡◌, ◌<◌, ◌≤◌, ◌^◌, ◌↔◌, IsTrue, false};
ghost use Rattle.std.specs.Borrow.{sem};
ghost use Rattle.mvs_model.specs.State.{granted};
ghost use Rattle.mvs_c.specs.Lending.{AllGranted, AnswersLend, IsLeft, IsReadableEnd, Lends, LendsAny, Stops};

use crate::access::ADDRESSES;
use crate::handle::Handle;
use crate::open::Open;
use crate::status::{NO_ACCESS, NO_BYTES, NO_SESSION, OK};
use mvs_job::Job;
use mvs_model::place::{Addr, Place};

/// Bytes in the memory of a session. C passes them as some bytes of its own, and reads what is there afterwards.
#[repr(C)]
#[derive(Drop)]
pub struct LentBytes<'a> {
    pub bytes: &'a [u8],
}

// Returns whether all bytes from one address up to another can be read.
fn can_read(job: &Job, from: u32, to: u32) -> bool
    requires some { from < to }
    requires low { to ≤ 2 ^ 31 }
    ensures { IsTrue result ↔ AllGranted job.now.state from to }
{
    let place = Place::new(Addr::new(from), to - from);
    job.step().bytes(place).is_some()
}

// Returns an address up to which the bytes from another one on can be read, and one up to which not all of those after it can be.
// These are the same if there is no further address.
fn extend(job: &Job, address: u32) -> (u32, u32)
    requires { address < 2 ^ 31 }
    ensures from { address ≤ result.0 }
    ensures low { result.1 ≤ 2 ^ 31 }
    ensures readable { AllGranted job.now.state address result.0 }
    ensures stops { Stops job.now.state result.0 result.1 }
{
    let mut end = address;
    'pieces: while end < ADDRESSES {
        let to = end + (end - address).max(1).min(ADDRESSES - end);
        if !can_read(job, end, to) {
            return (end, to);
        }
        end = to;
    }
    (ADDRESSES, ADDRESSES)
}

// Returns the first address whose byte cannot be read, of those from one up to another.
fn first_gap(job: &Job, from: u32, to: u32) -> u32
    requires some { from < to }
    requires low { to ≤ 2 ^ 31 }
    requires gap { AllGranted job.now.state from to → ⊥ }
    ensures from { from ≤ result }
    ensures to { result < to }
    ensures readable { AllGranted job.now.state from result }
    ensures gap { granted job.now.state result ≡ false }
{
    let mut end = from;
    let mut gap = to;
    'halves: while gap - end > 1 {
        let middle = end + (gap - end) / 2;
        if can_read(job, end, middle) {
            end = middle;
        } else {
            gap = middle;
        }
    }
    end
}

// Returns the address up to which the bytes from another one on can be read.
fn readable_end(job: &Job, address: u32) -> u32
    requires { address < 2 ^ 31 }
    ensures { IsReadableEnd job.now.state address result }
{
    let (end, gap) = extend(job, address);
    if end == gap {
        return end;
    }
    first_gap(job, end, gap)
}

// Returns where the bytes from an address on are, in a session that has bytes.
fn lend_bytes<'a>(held: &'a Open, address: u32, lent: &mut LentBytes<'a>) -> u32
    ensures { Lends held.now address lent.old.bytes.now lent.new.bytes.now result }
{
    let Some(job) = held.job() else {
        return NO_ACCESS;
    };
    if address >= ADDRESSES {
        return NO_ACCESS;
    }
    let end = readable_end(job, address);
    if end == address {
        return NO_ACCESS;
    }
    let Some(bytes) = job
        .step()
        .bytes(Place::new(Addr::new(address), end - address))
    else {
        return NO_ACCESS;
    };
    lent.bytes = bytes;
    OK
}

// Returns where the bytes from an address on are, if the session has bytes.
fn lend<'a>(held: &'a Open, address: u32, lent: &mut LentBytes<'a>) -> u32
    ensures { LendsAny held.now address lent.old.bytes.now lent.new.bytes.now result }
{
    if !held.keeps_bytes() {
        return NO_BYTES;
    }
    lend_bytes(held, address, lent)
}

/// Returns where the bytes from an address on are, as many as can be read. They are borrowed until the session is used again.
#[unsafe(no_mangle)]
pub extern "C" fn mvs_lend_bytes<'a>(
    session: &'a mut Handle,
    address: u32,
    lent: &mut LentBytes<'a>,
) -> u32
    ensures* left { sem 𝓛 (IsLeft session.entry) }
    ensures lent { AnswersLend session.old.open address lent.old.bytes.now lent.new.bytes.now result }
{
    let at = session.at;
    if at.is_null() {
        return NO_SESSION;
    }
    lend(unsafe { &*(at as *const Open) }, address, lent)
}
