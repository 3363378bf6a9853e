//! The card of a step.

ghost use Rattle.std.specs.Prelude.{◌≡◌, ◌≤◌};
ghost use Rattle.mvs_model.specs.Numbers.{most_pages_below, most_pages_above};

use crate::bounded::{PagesAbove, PagesBelow};
use crate::name::Name;
use crate::want::Residence;
use std::marker::Model;

/// What a REGION statement says of its step: the name of the job step task and its residence, the pages of the
/// two regions, and the byte that a grant leaves in each place. The statement is this project's own.
#[derive(Clone, Copy, Debug, PartialEq, Eq)]
pub struct Card {
    name: Name,
    below: u32,
    above: u32,
    fill: u8,
    residence: Residence,
}

impl Model for Card {
    ghost use Rattle.mvs_model.specs.Name.{IsName};
    ghost use Rattle.mvs_model.specs.Card.{CardValue, IsCard};

    ghost Value = { CardValue };

    ghost view = { λ c. record { name = c.name; below = c.below; above = c.above; fill = c.fill; residence = c.residence } };

    ghost invariant = { λ c. IsCard (record { name = c.name; below = c.below; above = c.above; fill = c.fill; residence = c.residence }) };

    ghost inverse = { λ c. record { name = c.name; below = c.below; above = c.above; fill = c.fill; residence = c.residence } };
}

impl Card {
    /// Returns the card of a step.
    pub fn new(
        name: Name,
        below: PagesBelow,
        above: PagesAbove,
        fill: u8,
        residence: Residence,
    ) -> Card
        ensures { result
            ≡ record
            { name = name; below = below; above = above; fill = fill; residence = residence } }
    {
        Card {
            name,
            below: below.get(),
            above: above.get(),
            fill,
            residence,
        }
    }

    /// Returns the name of the job step task.
    pub fn name(&self) -> Name
        ensures { result ≡ self.now.name }
    {
        self.name
    }

    /// Returns the pages of the region below.
    pub fn below(&self) -> u32
        ensures pages { result ≡ self.now.below }
        ensures some { 1 ≤ result }
        ensures most { result ≤ most_pages_below }
    {
        self.below
    }

    /// Returns the pages of the region above.
    pub fn above(&self) -> u32
        ensures pages { result ≡ self.now.above }
        ensures most { result ≤ most_pages_above }
    {
        self.above
    }

    /// Returns the byte that a grant leaves in each place.
    pub fn fill(&self) -> u8
        ensures { result ≡ self.now.fill }
    {
        self.fill
    }

    /// Returns where the program of the job step task resides.
    pub fn residence(&self) -> Residence
        ensures { result ≡ self.now.residence }
    {
        self.residence
    }
}
