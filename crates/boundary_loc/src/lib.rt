//! Places inside one run of free doublewords.
#![tactic(auto)]

ghost use Rattle.std.specs.Prelude.{◌≡◌, ◌<◌, ◌≤◌, ◌+◌, ◌%◌, ◌^◌, ◌↔◌, ℕ, Option, Some, None, IfSome, MatchOption, IsTrue};
ghost use Rattle.mvs_model.specs.Place.{PlaceValue, place_at};
ghost use Rattle.mvs_model.specs.Storage.{Meets, IsLength, IsRun, InRun};
ghost use Rattle.boundary_loc.specs.Boundary.{IsWithin, Fits, IsLeastMultiple, IsGreatestMultiple, IsNextStart, IsLastStart, Allows};
ghost use Rattle.boundary_loc.specs.Starts.{IsStarts, Serves};
ghost use Rattle.mvs_model.specs.Want.{side_of};

use mvs_model::bounded::Exponent;
use mvs_model::numbers::ABOVE_BEGINS;
use mvs_model::place::{Addr, Place};
use mvs_model::want::{Loc, Residence, Side, Want};

// Returns a power of two.
fn power(exponent: Exponent) -> u64
    ensures is { result ≡ 2 ^ exponent }
    ensures some { 0 < result }
    ensures small { result ≤ 2 ^ 31 }
{
    1u64 << exponent.get()
}

// Returns the least multiple of the unit from a number on.
fn round_up(number: u64, unit: u64) -> u64
    requires some { 0 < unit }
    requires unit { unit ≤ 2 ^ 31 }
    requires small { number ≤ 2 ^ 34 }
    ensures least { IsLeastMultiple unit number result }
    ensures near { result < number + unit }
{
    (number + unit - 1) / unit * unit
}

// Returns the greatest multiple of the unit up to a number.
fn round_down(number: u64, unit: u64) -> u64
    requires some { 0 < unit }
    requires unit { unit ≤ 2 ^ 31 }
    ensures { IsGreatestMultiple unit number result }
{
    number / unit * unit
}

// Returns the bytes from an address up to the next containing boundary.
fn room_within(addr: u64, within: Exponent) -> u64
    ensures { (n : ℕ) → 0 < n → (n ≤ result) ↔ IsWithin (2 ^ within) n addr }
{
    let bound = power(within);
    bound - addr % bound
}

// Returns the bytes from an address up to an end, no further than to the containing boundary.
fn room(addr: u64, within: Option<Exponent>, end: u64) -> u64
    ensures { (n : ℕ) → 0 < n → (n ≤ result) ↔ Fits within end n addr }
{
    let left = end.saturating_sub(addr);
    match within {
        None => left,
        Some(within) => left.min(room_within(addr, within)),
    }
}

// Returns the first start after the next containing boundary, or the start itself if there is none.
fn next_start(first: u64, start: Exponent, within: Option<Exponent>) -> u64
    requires on_start { first % 2 ^ start ≡ 0 }
    requires small { first ≤ 2 ^ 33 }
    ensures next { IsNextStart start within first result }
    ensures near { result ≤ first + 2 ^ 32 }
{
    match within {
        None => first,
        Some(within) => round_up(round_up(first + 1, power(within)), power(start)),
    }
}

// Returns the last start for a length up to one: that one, or the last before the containing boundary that it would pass.
fn last_start(last: u64, start: Exponent, within: Option<Exponent>, len: u64) -> u64
    requires within { IfSome within (λ k. len ≤ 2 ^ k) }
    requires on_start { last % 2 ^ start ≡ 0 }
    requires small { last + len ≤ 2 ^ 33 }
    requires some { 0 < len }
    ensures { IsLastStart start within len last result }
{
    let Some(within) = within else {
        return last;
    };
    let passed = round_down(last + len - 1, power(within));
    if passed <= last {
        return last;
    }
    round_down(passed - len, power(start))
}

// Returns whether a length fits within a boundary.
fn is_short(len: u64, within: Option<Exponent>) -> bool
    ensures { IsTrue result ↔ IfSome within (λ k. len ≤ 2 ^ k) }
{
    match within {
        None => true,
        Some(within) => len <= power(within),
    }
}

// Returns whether an area on this side may begin at the address.
fn allows(side: Side, addr: u32) -> bool
    ensures { IsTrue result ↔ Allows side addr }
{
    match side {
        Side::Below => addr < ABOVE_BEGINS,
        Side::Either => true,
    }
}

// Two starts in a run, and the bytes from each that serve: whatever serves somewhere, serves at one of them.
#[derive(Clone, Copy)]
struct Starts {
    first: u64,
    first_room: u64,
    next: u64,
    next_room: u64,
}

// Returns None if no place in the run meets the request, of any length.
fn starts_in(run: Place, want: &Want) -> Option<Starts>
    requires { IsRun run }
    ensures { MatchOption result
        ((q : PlaceValue) → InRun run q → Meets want.now q → ⊥)
        (IsStarts run want.now) }
{
    let from = run.addr().get();
    if !allows(want.side(), from) {
        return None;
    }
    let from = u64::from(from);
    let end = from + u64::from(run.len());
    let first = round_up(from, power(want.start()));
    let next = next_start(first, want.start(), want.within());
    Some(Starts {
        first,
        first_room: room(first, want.within(), end),
        next,
        next_room: room(next, want.within(), end),
    })
}

// Returns the place of a number of bytes from an address on.
fn place(addr: u64, len: u64) -> Place
    requires addr { addr < 2 ^ 31 }
    requires some { 1 ≤ len }
    requires most { len ≤ 2 ^ 31 }
    ensures { result ≡ place_at addr len }
{
    Place::new(Addr::new(addr as u32), len as u32)
}

/// Returns the lowest place of a length in bytes in the run that meets the request except for its lengths; None if there is none.
pub fn first_in(run: Place, want: &Want, len: u32) -> Option<Place>
    requires run { IsRun run }
    requires whole { len % 8 ≡ 0 }
    requires some { 8 ≤ len }
    ensures { MatchOption result
        ((q : PlaceValue) → q.len ≡ len → InRun run q → Meets want.now q → ⊥)
        (λ p. (p.len ≡ len) × InRun run p × Meets want.now p
        × ((q : PlaceValue) → q.len ≡ len → InRun run q → Meets want.now q → p.addr ≤ q.addr)) }
{
    let starts = starts_in(run, want)?;
    let len = u64::from(len);
    if len <= starts.first_room {
        Some(place(starts.first, len))
    } else if len <= starts.next_room {
        Some(place(starts.next, len))
    } else {
        None
    }
}

/// Returns the highest place of a length in bytes in the run that meets the request except for its lengths; None if there is none.
pub fn last_in(run: Place, want: &Want, len: u32) -> Option<Place>
    requires run { IsRun run }
    requires whole { len % 8 ≡ 0 }
    requires some { 8 ≤ len }
    ensures { MatchOption result
        ((q : PlaceValue) → q.len ≡ len → InRun run q → Meets want.now q → ⊥)
        (λ p. (p.len ≡ len) × InRun run p × Meets want.now p
        × ((q : PlaceValue) → q.len ≡ len → InRun run q → Meets want.now q → q.addr ≤ p.addr)) }
{
    let from = u64::from(run.addr().get());
    let room = u64::from(run.len());
    let len = u64::from(len);
    if !allows(want.side(), run.addr().get()) {
        return None;
    }
    if !is_short(len, want.within()) {
        return None;
    }
    if room < len {
        return None;
    }
    let last = round_down(from + (room - len), power(want.start()));
    let at = last_start(last, want.start(), want.within(), len);
    if at < from {
        return None;
    }
    Some(place(at, len))
}

/// Returns a longest place in the run that meets the request; None if there is none.
pub fn longest_in(run: Place, want: &Want) -> Option<Place>
    requires { IsRun run }
    ensures { MatchOption result
        ((q : PlaceValue) → IsLength want.now q.len → InRun run q → Meets want.now q → ⊥)
        (λ p. IsLength want.now p.len × InRun run p × Meets want.now p
        × ((q : PlaceValue) → IsLength want.now q.len → InRun run q → Meets want.now q
        → q.len ≤ p.len)) }
{
    let starts = starts_in(run, want)?;
    let most = u64::from(want.most());
    let len = most.min(starts.first_room.max(starts.next_room)) / 8 * 8;
    if len < u64::from(want.least()) {
        None
    } else if len <= starts.first_room {
        Some(place(starts.first, len))
    } else {
        Some(place(starts.next, len))
    }
}

// Returns whether a number of bytes from an address on is in the run and meets the request.
fn serves_at(run: Place, want: &Want, addr: Addr, len: u32) -> bool
    requires run { IsRun run }
    requires some { 1 ≤ len }
    ensures { IsTrue result ↔ Serves run want.now (place_at addr len) }
{
    let from = run.addr().get();
    if !allows(want.side(), from) || addr.get() < from {
        return false;
    }
    let at = u64::from(addr.get());
    let end = u64::from(from) + u64::from(run.len());
    at % power(want.start()) == 0 && u64::from(len) <= room(at, want.within(), end)
}

/// Returns the place of a length in bytes at an address, if it is in the run and meets the request except for its lengths.
pub fn at_in(run: Place, want: &Want, len: u32, addr: Addr) -> Option<Place>
    requires run { IsRun run }
    requires some { 1 ≤ len }
    ensures { MatchOption result
        (Serves run want.now (place_at addr len) → ⊥)
        (λ p. (p ≡ place_at addr len) × Serves run want.now p) }
{
    if !serves_at(run, want, addr, len) {
        return None;
    }
    Some(Place::new(addr, len))
}

/// Returns the side of a location: BELOW is below, ANY is either, and RES follows the residence of the task (Assembler
/// Services Reference, GETMAIN, LOC).
pub fn side(loc: Loc, residence: Residence) -> Side
    ensures { result ≡ side_of loc residence }
{
    match (loc, residence) {
        (Loc::Any, _) | (Loc::Res, Residence::Above) => Side::Either,
        (Loc::Below, _) | (Loc::Res, Residence::Below) => Side::Below,
    }
}
