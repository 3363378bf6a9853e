//! DocumentPlaces of a text as positions of the protocol.

ghost use Rattle.std.specs.Prelude.{◌≡◌, ◌≤◌, ◌∷◌, ◌++◌, OnOk, length};
ghost use Rattle.json.specs.Token.{key};
ghost use Rattle.json.specs.Tree.{json_tokens};
ghost use Rattle.mvsjob_lsp.specs.Tokens.{AddsTokens};
ghost use Rattle.mvsjob_lsp.specs.Values.{place_value, position_value, range_value};

use crate::objects::Objects;
use editor_messages::Position;
use language_server::{Ruler, Span};
use std::alloc::AllocError;
use std::marker::Model;

/// Writes the positions of places of a text. Those of ranges in their order are found in two walks through the text.
#[derive(Drop)]
pub struct DocumentPlaces<'a> {
    near: Ruler<'a>,
    far: Ruler<'a>,
}

impl<'a> Model for DocumentPlaces<'a> {
    ghost use Rattle.std.specs.Prelude.{◌≡◌, List, ℕ};

    ghost Value = { List ℕ };

    ghost view = { λ p. p.near };

    ghost invariant = { λ p. p.far ≡ p.near };
}

// Writes a position.
fn write(objects: &mut Objects, name: &str, position: Position) -> Result<(), AllocError>
    ensures { OnOk result
        (AddsTokens objects.old objects.new (key name.now ∷ json_tokens (position_value position))) }
{
    objects.object(name)?;
    objects.number("line", position.line)?;
    objects.number("character", position.character)?;
    objects.end()
}

impl<'a> DocumentPlaces<'a> {
    /// Makes one for a text of at most 1,048,576 bytes.
    pub fn new(text: &'a [u8]) -> DocumentPlaces<'a>
        ensures { length text.now ≤ 1048576 → result ≡ text.now }
    {
        DocumentPlaces {
            near: Ruler::new(text),
            far: Ruler::new(text),
        }
    }

    /// Writes the position of a place.
    pub fn write_place(
        &mut self,
        objects: &mut Objects,
        name: &str,
        place: usize,
    ) -> Result<(), AllocError>
        ensures text { self.new ≡ self.old }
        ensures tokens { OnOk result
            (AddsTokens objects.old objects.new (key name.now ∷ json_tokens (place_value self.old place))) }
    {
        let position = self.near.position(place);
        write(objects, name, position)
    }

    // Writes the position of a place that may be much later.
    fn write_far_place(
        &mut self,
        objects: &mut Objects,
        name: &str,
        place: usize,
    ) -> Result<(), AllocError>
        ensures text { self.new ≡ self.old }
        ensures tokens { OnOk result
            (AddsTokens objects.old objects.new (key name.now ∷ json_tokens (place_value self.old place))) }
    {
        let position = self.far.position(place);
        write(objects, name, position)
    }

    /// Writes a range that is short.
    pub fn write_range(
        &mut self,
        objects: &mut Objects,
        name: &str,
        span: Span,
    ) -> Result<(), AllocError>
        ensures text { self.new ≡ self.old }
        ensures tokens { OnOk result
            (AddsTokens objects.old objects.new (key name.now ∷ json_tokens (range_value self.old span))) }
    {
        objects.object(name)?;
        self.write_place(objects, "start", span.start)?;
        self.write_place(objects, "end", span.end)?;
        objects.end()
    }

    /// Writes a range whose end may be much later.
    pub fn write_far(
        &mut self,
        objects: &mut Objects,
        name: &str,
        span: Span,
    ) -> Result<(), AllocError>
        ensures text { self.new ≡ self.old }
        ensures tokens { OnOk result
            (AddsTokens objects.old objects.new (key name.now ∷ json_tokens (range_value self.old span))) }
    {
        objects.object(name)?;
        self.write_place(objects, "start", span.start)?;
        self.write_far_place(objects, "end", span.end)?;
        objects.end()
    }
}
