//! An effect of a request, as numbers. The numbers of the kinds are those of mvs.h, from 1 on.

ghost use Rattle.std.specs.Prelude.{◌≡◌, ◌≢◌, MatchBool};
ghost use Rattle.mvs_c.specs.Effects.{effect_bytes, effect_of_kind, effect_of_place, effect_of_subpool, obtained_rule};

use mvs_model::name::Name;
use mvs_model::place::Place;
use mvs_model::subpool::SubNo;

/// The number of bytes of an effect.
const EFFECT_BYTES: u32 = 72;

/// An effect of a request: a kind, and the fields of that kind; all others are 0, and the names are blank.
#[repr(C)]
#[derive(Clone, Copy)]
pub struct EffectFields {
    /// The number of bytes of this struct.
    pub size: u32,
    pub kind: u32,
    /// The rule by which it happened.
    pub rule: u32,
    /// An area, a cell, or a part of a cell pool. Of a subpool that is freed the length is that of all that it held.
    pub address: u32,
    pub length: u32,
    /// The least and the greatest length that were asked for.
    pub least: u32,
    pub most: u32,
    /// A number of pages; of those that were free, in the region below and above.
    pub pages: u32,
    pub pages_above: u32,
    /// The cells of a part, and the bytes of each.
    pub cells: u32,
    pub cell_size: u32,
    /// The number that the owner has for a subpool, and the owner.
    pub number: u32,
    pub owner: [u8; 8],
    /// A subtask that has a subpool, or the task that had it.
    pub task: [u8; 8],
    /// A cell pool.
    pub pool: [u8; 8],
}

impl EffectFields {
    /// Returns whether the size is that of an effect.
    pub fn is_sized(&self) -> bool
        ensures { MatchBool result (self.now.size ≡ effect_bytes) (self.now.size ≢ effect_bytes) }
    {
        self.size == EFFECT_BYTES
    }
}

/// Makes an effect of a kind, with its rule and no other field.
pub fn of_kind(kind: u32, rule: u32) -> EffectFields
    ensures { result ≡ effect_of_kind kind rule }
{
    EffectFields {
        size: EFFECT_BYTES,
        kind,
        rule,
        address: 0,
        length: 0,
        least: 0,
        most: 0,
        pages: 0,
        pages_above: 0,
        cells: 0,
        cell_size: 0,
        number: 0,
        owner: [b' '; 8],
        task: [b' '; 8],
        pool: [b' '; 8],
    }
}

/// Makes an effect on a subpool.
pub fn of_subpool(kind: u32, rule: u32, number: SubNo, owner: &Name) -> EffectFields
    ensures { result ≡ effect_of_subpool kind rule number owner.now }
{
    EffectFields {
        number: u32::from(number.get()),
        owner: owner.bytes(),
        ..of_kind(kind, rule)
    }
}

/// Makes an effect of a cell pool that has a place.
pub fn of_place(kind: u32, rule: u32, pool: &Name, place: Place) -> EffectFields
    ensures { result ≡ effect_of_place kind rule pool.now place }
{
    EffectFields {
        address: place.addr().get(),
        length: place.len(),
        pool: pool.bytes(),
        ..of_kind(kind, rule)
    }
}

/// Returns the rule by which an area has its length.
pub fn obtained_rule(len: u32, least: u32, most: u32) -> u32
    ensures { result ≡ obtained_rule len least most }
{
    if least != most {
        return 20;
    }
    if len == most { 24 } else { 3 }
}
