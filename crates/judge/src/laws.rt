//! Laws of what places do not decide: each function has an empty body, and its contract is the law.

ghost use Rattle.judge.specs.Outline.{IsSettledAlike, StaysAlike};

/// States that two steps which differ only in places still do so after a statement that ends the same way in both.
pub fn stays_alike()
    ensures { StaysAlike }
{}

/// States that an answer which places do not decide is the same in two steps that differ only in places.
pub fn is_settled_alike()
    ensures { IsSettledAlike }
{}
