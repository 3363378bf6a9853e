//! Where a name is used, and where it is set.

ghost use Rattle.std.specs.Prelude.{◌≡◌, ◌≤◌, IfOk, Some, find, length, option_map, reverse};
ghost use Rattle.language_server.specs.References.{definition_of, is_earlier_setting, is_in, is_same, is_setting, is_use, kind_number, name_at, or_else, references_of, setting_of, uses_of};

use crate::document::Document;
use crate::names::{NameKind, Occurrence, names_of};
use crate::span::Span;
use std::alloc::{AllocError, Global};

/// Returns a number for a kind.
pub(crate) fn kind_number(kind: NameKind) -> u8
    ensures { result ≡ kind_number kind }
{
    match kind {
        NameKind::Area => 0,
        NameKind::Task => 1,
        NameKind::Pool => 2,
    }
}

// Returns whether a span has bytes of a text.
fn is_in(text: &[u8], span: Span) -> bool
    ensures { result ≡ is_in text.now span }
{
    span.start <= span.end && span.end <= text.len()
}

// Returns whether a name is another one.
fn is_same(text: &[u8], name: &Occurrence, other: &Occurrence) -> bool
    ensures { result ≡ is_same text.now name.now other.now }
{
    is_in(text, other.span)
        && (kind_number(name.kind) == kind_number(other.kind)
            && (name.step == other.step && name.span.of(text) == other.span.of(text)))
}

// Returns whether a name is used at another one. Without `declares` a place that sets it is none.
fn is_use(text: &[u8], declares: bool, name: &Occurrence, other: &Occurrence) -> bool
    ensures { result ≡ is_use text.now declares name.now other.now }
{
    is_same(text, name, other) && (declares || !other.is_set)
}

// Returns whether a place sets a name.
fn is_setting(text: &[u8], name: &Occurrence, other: &Occurrence) -> bool
    ensures { result ≡ is_setting text.now name.now other.now }
{
    other.is_set && is_same(text, name, other)
}

// Returns whether a place sets a name in its line or before it.
fn is_earlier_setting(text: &[u8], name: &Occurrence, other: &Occurrence) -> bool
    ensures { result ≡ is_earlier_setting text.now name.now other.now }
{
    other.line <= name.line && is_setting(text, name, other)
}

// Returns the first name that is at a place, or right before it.
pub(crate) fn name_at(names: &[Occurrence], place: usize) -> Option<Occurrence>
    ensures { result ≡ name_at place names.now }
{
    names.iter().copied().find(|name| name.span.touches(place))
}

// Returns the places where a name is used in its step.
fn uses_of(
    alloc: Global,
    text: &[u8],
    declares: bool,
    names: &[Occurrence],
    name: &Occurrence,
) -> Result<Vec<Span>, AllocError>
    ensures { IfOk result
        (λ spans. spans.items ≡ uses_of text.now declares names.now (Some name.now)) }
{
    names
        .iter()
        .filter(|other| is_use(text, declares, name, other))
        .map(|other| other.span)
        .collect(alloc)
}

// Returns the places where a name that is at a place is used in its step. Without `declares`, those that set it are left out.
fn references_of(
    alloc: Global,
    text: &[u8],
    place: usize,
    declares: bool,
) -> Result<Vec<Span>, AllocError>
    requires { length text.now ≤ 1048576 }
    ensures { IfOk result
        (λ spans. spans.items ≡ references_of text.now place declares) }
{
    let names = names_of(alloc, text)?;
    match name_at(&names, place) {
        Some(name) => uses_of(alloc, text, declares, &names, &name),
        None => Ok(Vec::new(alloc)),
    }
}

// Returns the last place up to the line of a name that sets it.
fn earlier_setting(text: &[u8], names: &[Occurrence], name: &Occurrence) -> Option<Occurrence>
    ensures { result ≡ find (is_earlier_setting text.now name.now) (reverse names.now) }
{
    names
        .iter()
        .rev()
        .copied()
        .find(|other| is_earlier_setting(text, name, other))
}

// Returns the first place that sets a name.
fn first_setting(text: &[u8], names: &[Occurrence], name: &Occurrence) -> Option<Occurrence>
    ensures { result ≡ find (is_setting text.now name.now) names.now }
{
    names
        .iter()
        .copied()
        .find(|other| is_setting(text, name, other))
}

// Returns where a name is set.
fn setting_of(text: &[u8], names: &[Occurrence], name: &Occurrence) -> Option<Occurrence>
    ensures { result ≡ setting_of text.now names.now (Some name.now) }
{
    match earlier_setting(text, names, name) {
        Some(found) => Some(found),
        None => first_setting(text, names, name),
    }
}

// Returns where a name that is at a place is set: the last line up to it that sets it, or else the first one after it.
fn definition_of(alloc: Global, text: &[u8], place: usize) -> Result<Option<Span>, AllocError>
    requires { length text.now ≤ 1048576 }
    ensures { IfOk result (λ found. found ≡ definition_of text.now place) }
{
    let names = names_of(alloc, text)?;
    let Some(name) = name_at(&names, place) else {
        return Ok(None);
    };
    match setting_of(text, &names, &name) {
        Some(found) => Ok(Some(found.span)),
        None => Ok(None),
    }
}

impl Document {
    /// Returns the places where a name that is at a place is used in its step. Without `declares`, those that set it are left out.
    pub fn references(
        &self,
        alloc: Global,
        place: usize,
        declares: bool,
    ) -> Result<Vec<Span>, AllocError>
        ensures { IfOk result
            (λ spans. spans.items ≡ references_of self.now.text place declares) }
    {
        references_of(alloc, &self.text, place, declares)
    }

    /// Returns where a name that is at a place is set: the last line up to it that sets it, or else the first one after it.
    pub fn definition(&self, alloc: Global, place: usize) -> Result<Option<Span>, AllocError>
        ensures { IfOk result (λ found. found ≡ definition_of self.now.text place) }
    {
        definition_of(alloc, &self.text, place)
    }
}
