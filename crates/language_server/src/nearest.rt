//! The nearest name that is known before a line.

ghost use Rattle.std.specs.Prelude.{◌≡◌, IfOk, MatchOption, Some, false, option_map, true};
ghost use Rattle.std.specs.Str.{is_utf8};
ghost use Rattle.language_server.specs.Fixes.{is_candidate, is_near, most_edits, near, near_name, near_text, near_with, nearer, nearest_at, nearest_by, nearest_name};

use crate::document::Document;
use crate::names::{NameKind, Occurrence, names_of};
use crate::references::kind_number;
use crate::span::Span;
use crate::state::{Moment, moment_before};
use std::alloc::{AllocError, Global};
use std::marker::Model;
use strsim::osa_distance;

/// A name, and the number of the edits that lead to it from a word.
#[derive(Drop)]
pub struct NearName<'a> {
    pub edits: usize,
    pub text: &'a [u8],
}

impl<'a> Model for NearName<'a> {
    ghost use Rattle.language_server.specs.Fixes.{NearValue};

    ghost Value = { NearValue };

    ghost view = { λ n. record { edits = n.edits; text = n.text.now } };
}

// Names, and which of them may be meant by a word: those of a kind that are known at a moment.
#[derive(Clone, Copy)]
struct NameSearch<'a> {
    names: &'a [Occurrence],
    moment: Moment,
    kind: NameKind,
    word: &'a [u8],
}

// Returns bytes as a text, if they are one.
fn text_of(bytes: &[u8]) -> Option<&str>
    ensures { MatchOption result (is_utf8 bytes.now ≡ false)
        (λ text. (is_utf8 bytes.now ≡ true) × (text.now ≡ bytes.now)) }
{
    str::from_utf8(bytes).ok()
}

// Returns the most edits of a word after which it may still be meant.
fn most_edits(word: &[u8]) -> usize
    ensures { result ≡ most_edits word.now }
{
    if word.len() <= 3 { 1 } else { 2 }
}

// Returns whether a word with a number of edits may still be meant.
fn is_near(word: &[u8], edits: usize) -> bool
    ensures { result ≡ is_near word.now edits }
{
    edits <= most_edits(word) && edits < word.len()
}

// Returns a name to which a number of edits lead from a word, if it may be meant.
fn near_with<'a>(word: &[u8], other: &'a [u8], edits: usize) -> Option<NearName<'a>>
    ensures { result ≡ near_with word.now other.now edits }
{
    if is_near(word, edits) {
        Some(NearName { edits, text: other })
    } else {
        None
    }
}

// Returns a name, if it may be meant by a word.
fn near<'a>(alloc: Global, word: &[u8], other: &'a [u8]) -> Result<Option<NearName<'a>>, AllocError>
    ensures { IfOk result (λ name. name ≡ near word.now other.now) }
{
    let Some(from) = text_of(word) else {
        return Ok(None);
    };
    let Some(to) = text_of(other) else {
        return Ok(None);
    };
    let edits = osa_distance(alloc, from, to)?;
    Ok(near_with(word, other, edits))
}

// Returns the nearer of two names; the first, if both are as near.
fn nearer<'a>(best: Option<NearName<'a>>, next: Option<NearName<'a>>) -> Option<NearName<'a>>
    ensures { result ≡ nearer best.entry next.entry }
{
    let Some(next) = next else {
        return best;
    };
    match best {
        None => Some(next),
        Some(best) if next.edits < best.edits => Some(next),
        Some(best) => Some(best),
    }
}

// Returns the text of a name, if there is one.
fn near_text(name: Option<NearName<'_>>) -> Option<&[u8]>
    ensures { option_map (λ text. text.now) result ≡ near_text name.entry }
{
    name.map(|name| name.text)
}

impl Document {
    // Returns a name, if it may be meant by the word of a search.
    fn near_name(
        &self,
        alloc: Global,
        search: NameSearch<'_>,
        name: &Occurrence,
    ) -> Result<Option<NearName<'_>>, AllocError>
        ensures { IfOk result (λ found. found
            ≡ near_name self.now search.entry.names.now search.entry.moment search.entry.kind search.entry.word.now name.now) }
    {
        if kind_number(search.kind) == kind_number(name.kind)
            && self.is_known(search.names, search.moment, name)
        {
            near(alloc, search.word, name.span.of(&self.text))
        } else {
            Ok(None)
        }
    }

    // Returns the nearest of the names of a search.
    fn nearest_at(
        &self,
        alloc: Global,
        search: NameSearch<'_>,
    ) -> Result<Option<NearName<'_>>, AllocError>
        ensures { IfOk result (λ found. found
            ≡ nearest_at self.now search.entry.names.now search.entry.moment search.entry.kind search.entry.word.now) }
    {
        let mut best = None;
        for name in search.names {
            best = nearer(best, self.near_name(alloc, search, name)?);
        }
        Ok(best)
    }

    // Returns the nearest name of a kind that is known before a line.
    fn nearest_name(
        &self,
        alloc: Global,
        line: usize,
        kind: NameKind,
        word: &[u8],
    ) -> Result<Option<NearName<'_>>, AllocError>
        ensures { IfOk result (λ found. found ≡ nearest_name self.now line kind word.now) }
    {
        let names = names_of(alloc, &self.text)?;
        let moment = moment_before(&names, line);
        let found = self.nearest_at(
            alloc,
            NameSearch {
                names: &names,
                moment,
                kind,
                word,
            },
        )?;
        Ok(found)
    }

    /// Returns the nearest name to the bytes of a span, of those of a kind that are known before its line.
    pub(crate) fn nearest_to(
        &self,
        alloc: Global,
        span: Span,
        kind: NameKind,
    ) -> Result<Option<&[u8]>, AllocError>
        ensures { IfOk result (λ found. option_map (λ text. text.now) found
            ≡ nearest_by self.now span (Some kind)) }
    {
        let line = self.line_of(span.start);
        let name = self.nearest_name(alloc, line, kind, span.of(&self.text))?;
        Ok(near_text(name))
    }
}
