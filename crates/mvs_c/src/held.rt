//! The runs of held doublewords: areas of subpools, and parts of cell pools.

ghost use Rattle.std.specs.Prelude.{◌≡◌, ◌≢◌, ◌<◌, ◌≤◌, ◌+◌, ◌*◌, ◌^◌, ℕ, Option, IfSome, IsSome, MatchBool, MatchOption};
ghost use Rattle.mvs_model.specs.Reasons.{Holds};
ghost use Rattle.mvs_model.specs.View.{IsBounded};
ghost use Rattle.mvs_c.specs.Access.{ReturnsOne};
ghost use Rattle.mvs_c.specs.Held.{BeginsNoRun, BeginsRun, EndsRun, FindsHeld, IsHeldEnd, IsHeldRun, IsMapped, NoRunBetween, held_bytes, held_value, is_nothing};

use crate::access::addr_of;
use crate::open::Open;
use crate::status::{NO_MORE, OK};
use mvs_model::numbers::{FIRST_PAGE_ABOVE, FIRST_PAGE_BELOW, MOST_PAGES_ABOVE, PAGE_BYTES};
use mvs_model::place::Addr;
use mvs_model::reason::Holder;
use mvs_model::report::MapRun;
use request_forms::Machine;

/// The number of doublewords that have an address.
const DOUBLEWORDS: u32 = 1 << 28;

/// The first page after the greatest region above.
pub const END_PAGE: u32 = FIRST_PAGE_ABOVE + MOST_PAGES_ABOVE;

/// The number of bytes of a run for C.
const HELD_BYTES: u32 = 36;

/// Adjacent doublewords that are held alike: the number of the first, how many there are, and what holds them.
#[derive(Clone, Copy)]
pub struct HeldRun {
    pub first: u32,
    pub count: u32,
    pub holder: Holder,
}

/// A run of held storage, as the C header lays it out: addresses and lengths in bytes.
#[repr(C)]
#[derive(Clone, Copy)]
pub struct HeldFields {
    /// The number of bytes of this struct.
    pub size: u32,
    pub address: u32,
    pub length: u32,
    /// Whether the doublewords are in parts of a cell pool.
    pub pooled: bool,
    /// The number and the owner of the subpool outside of cell pools.
    pub number: u32,
    pub owner: [u8; 8],
    /// The cell pool.
    pub pool: [u8; 8],
}

impl HeldFields {
    /// Returns whether the size is that of such a run.
    pub fn is_sized(&self) -> bool
        ensures { MatchBool result (self.now.size ≡ held_bytes) (self.now.size ≢ held_bytes) }
    {
        self.size == HELD_BYTES
    }
}

// Returns whether two doublewords are held alike.
fn is_same(one: &Holder, other: &Holder) -> bool
    ensures { MatchBool result (one.now ≡ other.now) (one.now ≢ other.now) }
{
    one == other
}

// Returns whether nothing holds a doubleword.
fn is_nothing(holder: &Holder) -> bool
    ensures { result ≡ is_nothing holder.now }
{
    match holder {
        Holder::Nobody | Holder::Outside => true,
        Holder::Subpool(..) | Holder::Unowned | Holder::Part(_) => false,
    }
}

// Returns what holds a doubleword.
fn holder_at(machine: &Machine, d: u32) -> Holder
    requires { d < 2 ^ 28 }
    ensures { Holds machine.now.state d result }
{
    machine.holder(Addr::new(8 * d))
}

// Returns what holds a doubleword, if a run begins there.
fn begins(machine: &Machine, d: u32) -> Option<Holder>
    requires some { 1 ≤ d }
    requires low { d < 2 ^ 28 }
    ensures { MatchOption result (BeginsNoRun machine.now.state d) (BeginsRun machine.now.state d) }
{
    let holder = holder_at(machine, d);
    if is_nothing(&holder) {
        return None;
    }
    if holder_at(machine, d - 1) == holder {
        return None;
    }
    Some(holder)
}

// Returns the first doubleword from one on, and before another, at which a run begins, and what holds it.
fn first_run(machine: &Machine, from: u32, end: u32) -> Option<(u32, Holder)>
    requires some { 1 ≤ from }
    requires ordered { from ≤ end }
    requires low { end ≤ 2 ^ 28 }
    ensures { MatchOption result
        ((d : ℕ) → from ≤ d → d < end → BeginsNoRun machine.now.state d)
        (λ r. (from ≤ r.0) × (r.0 < end) × BeginsRun machine.now.state r.0 r.1
        × ((d : ℕ) → from ≤ d → d < r.0 → BeginsNoRun machine.now.state d)) }
{
    for d in from..end {
        if let Some(holder) = begins(machine, d) {
            return Some((d, holder));
        }
    }
    None
}

// Returns the doubleword before which a run ends.
fn run_end(machine: &Machine, first: u32, holder: &Holder) -> u32
    requires held { Holds machine.now.state first holder.now }
    requires low { first < 2 ^ 28 }
    ensures run { EndsRun machine.now.state first result holder.now }
    ensures low { result ≤ 2 ^ 28 }
{
    for d in first + 1..DOUBLEWORDS {
        if !is_same(&holder_at(machine, d), holder) {
            return d;
        }
    }
    DOUBLEWORDS
}

// Returns the first doubleword from one on at which a run begins on adjacent pages, and what holds it; None if they are not assigned.
fn first_on_pages(machine: &Machine, pages: &MapRun, from: u32) -> Option<(u32, Holder)>
    requires some { 8 ≤ pages.now.addr }
    requires low { pages.now.addr + pages.now.len ≤ 0x3000000 }
    ensures { MatchOption result
        (IsSome pages.now.holder → (d : ℕ) → pages.now.addr ≤ 8 * d
        → 8 * d < pages.now.addr + pages.now.len → from ≤ d → BeginsNoRun machine.now.state d)
        (λ r. (from ≤ r.0) × (8 * r.0 < pages.now.addr + pages.now.len) × BeginsRun machine.now.state r.0 r.1
        × ((d : ℕ) → pages.now.addr ≤ 8 * d → from ≤ d → d < r.0 → BeginsNoRun machine.now.state d)) }
{
    if pages.holder.is_none() {
        return None;
    }
    let end = (pages.addr.get() + pages.len + 7) / 8;
    let first = from.max(pages.addr.get() / 8);
    if first >= end {
        return None;
    }
    first_run(machine, first, end)
}

// Returns the first doubleword from one on at which a run begins, and what holds it.
fn first_on_map(machine: &Machine, from: u32) -> Option<(u32, Holder)>
    requires { IsBounded machine.now.state.regions }
    ensures { MatchOption result
        ((d : ℕ) → IsMapped machine.now.state d → from ≤ d → BeginsNoRun machine.now.state d)
        (λ r. (from ≤ r.0) × (r.0 < 2 ^ 28) × BeginsRun machine.now.state r.0 r.1
        × NoRunBetween machine.now.state from r.0) }
{
    let mut page = FIRST_PAGE_BELOW;
    for i in 0..END_PAGE {
        let Some(pages) = machine.map_run(Addr::new(PAGE_BYTES * page)) else {
            return None;
        };
        if let Some(found) = first_on_pages(machine, &pages, from) {
            return Some(found);
        }
        page = (pages.addr.get() + pages.len) / PAGE_BYTES;
    }
    None
}

// Returns the first run that begins at or after an address.
fn held_run(machine: &Machine, from: Addr) -> Option<HeldRun>
    requires { IsBounded machine.now.state.regions }
    ensures { MatchOption result (IsHeldEnd machine.now.state from)
        (IsHeldRun machine.now.state from) }
{
    let Some((first, holder)) = first_on_map(machine, (from.get() + 7) / 8) else {
        return None;
    };
    let end = run_end(machine, first, &holder);
    Some(HeldRun {
        first,
        count: end - first,
        holder,
    })
}

// Returns the first run of the running step that begins at or after an address.
fn find_held(held: &Open, from: u32) -> Option<HeldRun>
    ensures found { FindsHeld held.now from result }
    ensures low { IfSome result (λ run. run.first + run.count ≤ 2 ^ 28) }
{
    let job = held.job()?;
    let from = addr_of(from)?;
    held_run(job.step().machine(), from)
}

// Returns a run for C.
fn held_value(run: &HeldRun) -> HeldFields
    requires { run.now.first + run.now.count ≤ 2 ^ 28 }
    ensures { result ≡ held_value run.now }
{
    let blank = [b' '; 8];
    let (pooled, number, owner, pool) = match &run.holder {
        Holder::Subpool(number, owner) => (false, u32::from(number.get()), owner.bytes(), blank),
        Holder::Part(pool) => (true, 0, blank, pool.bytes()),
        Holder::Unowned | Holder::Nobody | Holder::Outside => (false, 0, blank, blank),
    };
    HeldFields {
        size: HELD_BYTES,
        address: 8 * run.first,
        length: 8 * run.count,
        pooled,
        number,
        owner,
        pool,
    }
}

/// Returns the first run that begins at or after an address.
pub fn copy_held(held: &Open, from: u32, fields: &mut HeldFields) -> u32
    ensures { (found : Option HeldRun) × FindsHeld held.now from found
        × ReturnsOne found held_value fields.old fields.new result }
{
    match find_held(held, from) {
        Some(run) => {
            *fields = held_value(&run);
            OK
        }
        None => NO_MORE,
    }
}
