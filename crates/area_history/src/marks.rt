//! Marks on doublewords.

ghost use Rattle.std.specs.Prelude.{◌≡◌, ◌≤◌, ◌+◌, ◌/◌, ◌^◌, ◌&&◌, ◌||◌, ◌==◌, ℕ, cond, not, true, false, IsTrue};
ghost use Rattle.mvs_model.specs.Finite.{count_below};
ghost use Rattle.area_history.specs.Leaking.{HasRoom, has_doubleword, has_room, is_marked};

use crate::by_doubleword::ByDoubleword;
use crate::grant::Holdings;
use mvs_model::place::Place;

/// For each doubleword, whether it is marked.
pub(crate) type Marks = ByDoubleword<bool>;

impl ByDoubleword<bool> {
    // Marks a doubleword. Returns 1 if it is held and was not marked, else 0. It may be known that it is held.
    fn take_one<P: Holdings>(&mut self, doubleword: u32, is_held: bool, step: &P) -> u32
        requires room { has_room self.old doubleword ≡ true }
        requires held { IsTrue is_held → P.plain step.now doubleword ≡ true }
        ensures count { result
            ≡ cond (P.plain step.now doubleword && not (is_marked self.old doubleword)) 1 0 }
        ensures most { result ≤ 1 }
        ensures at { is_marked self.new doubleword ≡ true }
        ensures others { (d : ℕ) → (d == doubleword) ≡ false → is_marked self.new d ≡ is_marked self.old d }
        ensures room { (d : ℕ) → has_room self.new d ≡ has_room self.old d }
    {
        let marked = self.get(doubleword, false);
        self.set(doubleword, true);
        if marked {
            return 0;
        }
        u32::from(is_held || step.is_plain(doubleword))
    }

    /// Marks the doublewords of a place. Returns how many of them are held and were not marked.
    pub(crate) fn take<P: Holdings>(&mut self, place: Place, step: &P) -> u32
        requires { HasRoom self.old place }
        ensures count { result
            ≡ count_below (place.len / 8)
            (λ k. P.plain step.now (place.addr / 8 + k) && not (is_marked self.old (place.addr / 8 + k))) }
        ensures most { result ≤ 2 ^ 28 }
        ensures marks { (d : ℕ) → is_marked self.new d
            ≡ (has_doubleword place d || is_marked self.old d) }
        ensures room { (d : ℕ) → has_room self.new d ≡ has_room self.old d }
    {
        let (first, count) = (place.addr().get() / 8, place.len() / 8);
        let all_held = step.has_plain(place);
        let mut left = 0u32;
        for k in 0..count {
            left += self.take_one(first + k, all_held, step);
        }
        left
    }

    /// Removes the marks of the doublewords of a place.
    pub(crate) fn clear(&mut self, place: Place)
        requires { HasRoom self.old place }
        ensures marks { (d : ℕ) → is_marked self.new d
            ≡ (not (has_doubleword place d) && is_marked self.old d) }
        ensures room { (d : ℕ) → has_room self.new d ≡ has_room self.old d }
    {
        let (first, count) = (place.addr().get() / 8, place.len() / 8);
        for k in 0..count {
            self.set(first + k, false);
        }
    }
}
