//! A value for each doubleword.

ghost use Rattle.std.specs.Prelude.{◌≡◌, ◌<◌, ◌≤◌, ◌+◌, ◌==◌, ℕ, [], true, false, length, slice_index_or, OnOk};
ghost use Rattle.area_history.specs.Leaking.{HasRoom, has_room, value_at};

use mvs_model::error::OutOfMemory;
use mvs_model::numbers::ABOVE_BEGINS;
use mvs_model::place::Place;
use std::alloc::Global;
use std::marker::Model;

/// The first doubleword above 16 megabytes.
const FIRST_ABOVE: u32 = ABOVE_BEGINS / 8;

/// A value for each number from 0 on. The numbers after its end have a filler.
#[derive(Drop)]
struct Values<T> {
    items: Vec<T>,
}

impl<T> Model for Values<T> {
    ghost use Rattle.std.specs.Prelude.{List};

    ghost Value = { List T };

    ghost view = { λ v. v.items.items };
}

/// A value for each doubleword. Doublewords above 16 megabytes have a separate list, so that a value there needs no room for all below it.
#[derive(Drop)]
pub(crate) struct ByDoubleword<T> {
    below: Values<T>,
    above: Values<T>,
}

impl<T: Copy> Values<T> {
    // Makes values for no number. It allocates no memory.
    fn new(alloc: Global) -> Values<T>
        ensures { result ≡ [] }
    {
        Values {
            items: Vec::new(alloc),
        }
    }

    // Removes all values.
    fn clear(&mut self)
        ensures { self.new ≡ [] }
    {
        self.items.clear();
    }

    // Adds numbers that have the filler, up to a number of them.
    fn grow(&mut self, len: usize, filler: T) -> Result<(), OutOfMemory>
        ensures values { (d : ℕ)
            → slice_index_or self.new d filler ≡ slice_index_or self.old d filler }
        ensures len { OnOk result (len ≤ length self.new) }
        ensures kept { length self.old ≤ length self.new }
    {
        if len <= self.items.len() {
            return Ok(());
        }
        self.items.resize(len, filler).map_err(|_| OutOfMemory)
    }

    // Returns the value of a number.
    fn get(&self, number: usize, filler: T) -> T
        ensures { result ≡ slice_index_or self.now number filler }
    {
        match self.items.get(number) {
            Some(value) => *value,
            None => filler,
        }
    }

    // Sets the value of a number.
    fn set(&mut self, number: usize, value: T)
        requires { number < length self.old }
        ensures at { (filler : T) → slice_index_or self.new number filler ≡ value }
        ensures others { (d : ℕ) (filler : T) → (d == number) ≡ false
            → slice_index_or self.new d filler ≡ slice_index_or self.old d filler }
        ensures len { length self.new ≡ length self.old }
    {
        self.items[number] = value;
    }
}

// Returns how many doublewords below 16 megabytes need room for a place: none, if it begins above.
fn end_below(first: u32, end: u32) -> u32
    ensures { (d : ℕ) → first ≤ d → d < end → d < 2097152 → d < result }
{
    if first < FIRST_ABOVE { end } else { 0 }
}

impl<T: Copy> ByDoubleword<T> {
    /// Makes an empty map. It allocates no memory.
    pub(crate) fn new(alloc: Global) -> ByDoubleword<T>
        ensures below { result.below ≡ [] }
        ensures above { result.above ≡ [] }
    {
        ByDoubleword {
            below: Values::new(alloc),
            above: Values::new(alloc),
        }
    }

    /// Forgets all values.
    pub(crate) fn reset(&mut self)
        ensures { (d : ℕ) (filler : T) → value_at self.new filler d ≡ filler }
    {
        self.below.clear();
        self.above.clear();
    }

    /// Makes room for the values of a place.
    pub(crate) fn grow(&mut self, place: Place, filler: T) -> Result<(), OutOfMemory>
        ensures values { (d : ℕ) → value_at self.new filler d ≡ value_at self.old filler d }
        ensures room { OnOk result (HasRoom self.new place) }
        ensures kept { (d : ℕ) → has_room self.old d ≡ true → has_room self.new d ≡ true }
    {
        let first = place.addr().get() / 8;
        let end = first + place.len() / 8;
        self.below.grow(end_below(first, end) as usize, filler)?;
        self.above
            .grow(end.saturating_sub(FIRST_ABOVE) as usize, filler)
    }

    /// Returns the value of a doubleword.
    pub(crate) fn get(&self, doubleword: u32, filler: T) -> T
        ensures { result ≡ value_at self.now filler doubleword }
    {
        if doubleword < FIRST_ABOVE {
            self.below.get(doubleword as usize, filler)
        } else {
            self.above.get((doubleword - FIRST_ABOVE) as usize, filler)
        }
    }

    /// Sets the value of a doubleword.
    pub(crate) fn set(&mut self, doubleword: u32, value: T)
        requires { has_room self.old doubleword ≡ true }
        ensures at { (filler : T) → value_at self.new filler doubleword ≡ value }
        ensures others { (d : ℕ) (filler : T) → (d == doubleword) ≡ false
            → value_at self.new filler d ≡ value_at self.old filler d }
        ensures room { (d : ℕ) → has_room self.new d ≡ has_room self.old d }
    {
        if doubleword < FIRST_ABOVE {
            self.below.set(doubleword as usize, value);
        } else {
            self.above.set((doubleword - FIRST_ABOVE) as usize, value);
        }
    }
}
