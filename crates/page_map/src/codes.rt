//! The subpools of pages as plain numbers, several of which are compared at once.

ghost use Rattle.std.specs.Prelude.{◌≡◌, ◌<◌, ◌≤◌, ◌+◌, ◌⊎◌, ℕ, length, map, false, true, is_some, MatchOption};
ghost use Rattle.mvs_model.specs.Finite.{has};
ghost use Rattle.mvs_model.specs.Numbers.{most_subpools};
ghost use Rattle.mvs_model.specs.Storage.{is_one_of};
ghost use Rattle.std.specs.Simd.Lanes.{mask_l};
ghost use Rattle.page_map.specs.Codes.{AreCodes, decoded, free_code, page_owners};
ghost use Rattle.page_map.specs.Owners.{is_usable, owner_of, IsFirst};
ghost use Rattle.page_map.specs.Several.{is_below_free, is_marked, HasNone, IsAt};

use mvs_model::subpool::SubpoolId;
use mvs_model::subpool_set::SubpoolSet;
use std::simd::prelude::*;

/// The number for a page without a subpool.
pub(crate) const FREE: u16 = u16::MAX;

// A number that is above those of subpools, and not above FREE: a comparison with it tests one bit.
const LEAST_FREE: u16 = 32768;

// How many pages are compared at once.
const SEVERAL: usize = 16;

// How many pages are compared at once in a long search.
const MANY: usize = 64;

// Returns the subpool of a number.
pub(crate) fn subpool_of(code: u16) -> Option<SubpoolId>
    requires { (code < most_subpools) ⊎ (code ≡ free_code) }
    ensures { result ≡ decoded code }
{
    if code == FREE {
        None
    } else {
        Some(SubpoolId::new(code))
    }
}

// Returns whether a page is free or the subpool's.
fn is_usable(code: u16, own: u16) -> bool
    requires code { (code < most_subpools) ⊎ (code ≡ free_code) }
    requires own { own < most_subpools }
    ensures { result ≡ is_usable own (decoded code) }
{
    code == FREE || code == own
}

// Returns which of some pages are free or the subpool's: bit n is set for page n.
fn usable_bits<const N: usize>(codes: Simd<u16, N>, own: u16) -> u64
    requires { N ≤ 64 }
    ensures { result ≡ mask_l (map (is_marked own) codes.entry) }
{
    (codes.simd_eq(Simd::splat(own)) | codes.simd_ge(Simd::splat(LEAST_FREE))).to_bitmask()
}

// Returns the first of N pages from one on that is free or the subpool's. All are compared at once.
fn usable_among<const N: usize>(codes: &[u16], own: u16, from: usize) -> Option<usize>
    requires few { N ≤ 64 }
    requires codes { AreCodes codes.now }
    requires own { own < most_subpools }
    requires within { from + N ≤ length codes.now }
    ensures { MatchOption result
        (HasNone (is_usable own) (page_owners codes.now) from (from + N))
        (IsAt (is_usable own) (page_owners codes.now) from) }
{
    let usable = usable_bits(Simd::<u16, N>::from_slice(&codes[from..]), own);
    if usable == 0 {
        None
    } else {
        Some(from + usable.trailing_zeros() as usize)
    }
}

// Returns the first page from one on that is free or the subpool's, or the number of pages. It compares them one by one.
fn next_usable(codes: &[u16], own: u16, from: usize) -> usize
    requires codes { AreCodes codes.now }
    requires own { own < most_subpools }
    requires from { from ≤ length codes.now }
    ensures { IsFirst (is_usable own) (page_owners codes.now) from result }
{
    let mut page = from;
    'pages: while page < codes.len() {
        if is_usable(codes[page], own) {
            return page;
        }
        page += 1;
    }
    page
}

// Returns the first page from one on that is free or the subpool's, or the number of pages. It compares SEVERAL pages at once.
fn near_usable(codes: &[u16], own: u16, from: usize) -> usize
    requires codes { AreCodes codes.now }
    requires own { own < most_subpools }
    requires from { from ≤ length codes.now }
    ensures { IsFirst (is_usable own) (page_owners codes.now) from result }
{
    let mut page = from;
    'several: while page + SEVERAL <= codes.len() {
        if let Some(found) = usable_among::<SEVERAL>(codes, own, page) {
            return found;
        }
        page += SEVERAL;
    }
    next_usable(codes, own, page)
}

// Returns the first page from one on that is free or the subpool's, or the number of pages. It compares MANY pages at once.
// It is not inlined, so that its loop keeps one counter.
#[inline(never)]
fn far_usable(codes: &[u16], own: u16, from: usize) -> usize
    requires codes { AreCodes codes.now }
    requires own { own < most_subpools }
    requires from { from ≤ length codes.now }
    ensures { IsFirst (is_usable own) (page_owners codes.now) from result }
{
    let mut page = from;
    'many: while page + MANY <= codes.len() {
        if let Some(found) = usable_among::<MANY>(codes, own, page) {
            return found;
        }
        page += MANY;
    }
    near_usable(codes, own, page)
}

// Returns the first page from one on that is free or the subpool's, or the number of pages. Often it is near.
pub(crate) fn first_usable(codes: &[u16], own: u16, from: usize) -> usize
    requires codes { AreCodes codes.now }
    requires own { own < most_subpools }
    requires from { from ≤ length codes.now }
    ensures { IsFirst (is_usable own) (page_owners codes.now) from result }
{
    if codes.len() < from + SEVERAL {
        return next_usable(codes, own, from);
    }
    match usable_among::<SEVERAL>(codes, own, from) {
        Some(page) => page,
        None => far_usable(codes, own, from + SEVERAL),
    }
}

// Returns which of some pages are assigned: bit n is set for page n.
fn assigned_bits(codes: u16x16) -> u64
    ensures { result ≡ mask_l (map is_below_free codes) }
{
    codes.simd_lt(u16x16::splat(LEAST_FREE)).to_bitmask()
}

// Returns the first of several pages from one on that is assigned. All are compared at once.
fn assigned_among(codes: &[u16], from: usize) -> Option<usize>
    requires codes { AreCodes codes.now }
    requires within { from + 16 ≤ length codes.now }
    ensures { MatchOption result
        (HasNone is_some (page_owners codes.now) from (from + 16))
        (IsAt is_some (page_owners codes.now) from) }
{
    let assigned = assigned_bits(u16x16::from_slice(&codes[from..]));
    if assigned == 0 {
        None
    } else {
        Some(from + assigned.trailing_zeros() as usize)
    }
}

// Returns the first page from one on that is assigned, or the number of pages. It compares them one by one.
fn next_assigned(codes: &[u16], from: usize) -> usize
    requires codes { AreCodes codes.now }
    requires from { from ≤ length codes.now }
    ensures { IsFirst is_some (page_owners codes.now) from result }
{
    let mut page = from;
    'pages: while page < codes.len() {
        if codes[page] != FREE {
            return page;
        }
        page += 1;
    }
    page
}

// Returns the first page from one on that is assigned, or the number of pages.
pub(crate) fn first_assigned(codes: &[u16], from: usize) -> usize
    requires codes { AreCodes codes.now }
    requires from { from ≤ length codes.now }
    ensures { IsFirst is_some (page_owners codes.now) from result }
{
    let mut page = from;
    'several: while page + SEVERAL <= codes.len() {
        if let Some(found) = assigned_among(codes, page) {
            return found;
        }
        page += SEVERAL;
    }
    next_assigned(codes, page)
}

// Returns the subpool of a page, if there is such a page.
pub(crate) fn owner_at(codes: &[u16], page: usize) -> Option<SubpoolId>
    requires { AreCodes codes.now }
    ensures { result ≡ owner_of (page_owners codes.now) page }
{
    if page < codes.len() {
        subpool_of(codes[page])
    } else {
        None
    }
}

// Returns whether the page's subpool is one of the set.
fn is_in(code: u16, subpools: &SubpoolSet) -> bool
    requires { (code < most_subpools) ⊎ (code ≡ free_code) }
    ensures { result ≡ has (is_one_of subpools.now) (decoded code) }
{
    match subpool_of(code) {
        Some(subpool) => subpools.contains(subpool),
        None => false,
    }
}

// Returns the page after one or, if that page is free, the first assigned page after it, or the number of pages.
fn after(codes: &[u16], page: usize) -> usize
    requires codes { AreCodes codes.now }
    requires within { page < length codes.now }
    ensures after { page < result }
    ensures most { result ≤ length codes.now }
    ensures passed { HasNone is_some (page_owners codes.now) (page + 1) result }
{
    if codes[page] == FREE {
        first_assigned(codes, page + 1)
    } else {
        page + 1
    }
}

// Returns the first page from one on whose subpool is one of the set.
pub(crate) fn first_of(codes: &[u16], subpools: &SubpoolSet, from: usize) -> usize
    requires codes { AreCodes codes.now }
    requires from { from ≤ length codes.now }
    ensures { IsFirst (has (is_one_of subpools.now)) (page_owners codes.now) from result }
{
    let mut page = from;
    'pages: while page < codes.len() {
        if is_in(codes[page], subpools) {
            return page;
        }
        page = after(codes, page);
    }
    page
}
