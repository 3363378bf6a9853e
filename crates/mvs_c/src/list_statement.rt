//! The statement of a list request by values.

ghost use Rattle.std.specs.Prelude.{◌≡◌, ◌<◌, ◌≤◌, ◌+◌, ◌++◌, codes, decimal, length, map, MatchBool, MatchOption};
ghost use Rattle.mvs_model.specs.Spelling.{absolute_text};
ghost use Rattle.mvs_c.specs.declared.ask.RequestKind.TheVariants as kind;
ghost use Rattle.mvs_c.specs.Asks.{form_value, name_text};
ghost use Rattle.mvs_c.specs.ListStatements.{IsBase, area_names, each_text, list_kind, list_statement_text, list_text_of, obtain_word, release_word};

use crate::ask::{RawRequest, name_of, or_else, text_len};
use crate::list::ListArea;
use crate::statement::{boundary_word, form_value, push_address, push_name};
use line_text::text::LineText;
use mvs_model::code::Form;

/// The most bytes before a further item of a list, and before what comes after the lists.
const ROOM: usize = 199;

/// The most bytes of a name, to which a letter is appended for each area.
const MOST_BASE: usize = 7;

// Returns what an obtain of a list begins with.
fn obtain_word(form: Form) -> &'static [u8]
    ensures text { result.now ≡ obtain_word form }
    ensures len { length result.now ≤ 16 }
{
    match form {
        Form::Lu => b"GETMAIN LU,LA=",
        Form::R
        | Form::Rc
        | Form::Ru
        | Form::Vrc
        | Form::Vru
        | Form::Ec
        | Form::Eu
        | Form::Vc
        | Form::Vu
        | Form::Lc
        | Form::Storage
        | Form::StorageConditional => b"GETMAIN LC,LA=",
    }
}

// Returns what a release of a list begins with.
fn release_word(form: Form) -> &'static [u8]
    ensures text { result.now ≡ release_word form }
    ensures len { length result.now ≤ 16 }
{
    match form {
        Form::Lu => b"FREEMAIN LU,LA=",
        Form::R
        | Form::Rc
        | Form::Ru
        | Form::Vrc
        | Form::Vru
        | Form::Ec
        | Form::Eu
        | Form::Vc
        | Form::Vu
        | Form::Lc
        | Form::Storage
        | Form::StorageConditional => b"FREEMAIN LC,LA=",
    }
}

// Appends the lengths of areas, each after a byte. Returns false if the text becomes too long.
fn push_lengths(text: &mut LineText, areas: &[ListArea], before: u8) -> bool
    requires { length text.old ≤ 215 }
    ensures text { MatchBool result
        (text.new ≡ text.old ++ each_text before (map decimal (map (λ a. a.length) areas.now)))
        (199 < length (text.old ++ each_text before (map decimal (map (λ a. a.length) areas.now)))) }
    ensures len { length text.new ≤ 215 }
{
    let Some((area, areas)) = areas.split_first() else {
        return true;
    };
    if text.len() > ROOM {
        return false;
    }
    text.push(before);
    text.push_decimal(area.length);
    push_lengths(text, areas, b',')
}

// Appends the addresses of areas, each after a byte. Returns false if the text becomes too long.
fn push_addresses(text: &mut LineText, areas: &[ListArea], before: u8) -> bool
    requires { length text.old ≤ 220 }
    ensures text { MatchBool result
        (text.new ≡ text.old ++ each_text before (map absolute_text (map (λ a. a.address) areas.now)))
        (199 < length (text.old ++ each_text before (map absolute_text (map (λ a. a.address) areas.now)))) }
    ensures len { length text.new ≤ 220 }
{
    let Some((area, areas)) = areas.split_first() else {
        return true;
    };
    if text.len() > ROOM {
        return false;
    }
    text.push(before);
    push_address(text, area.address);
    push_addresses(text, areas, b',')
}

// Appends the names of areas, each after a byte. Returns false if the text becomes too long.
fn push_names(
    text: &mut LineText,
    areas: &[ListArea],
    base: &[u8; 8],
    letter: u8,
    before: u8,
) -> bool
    requires old { length text.old ≤ 220 }
    requires letter { letter + length areas.now ≤ 91 }
    ensures text { MatchBool result
        (text.new ≡ text.old ++ each_text before (area_names (name_text base.now) letter areas.now))
        (199 < length (text.old ++ each_text before (area_names (name_text base.now) letter areas.now))) }
    ensures len { length text.new ≤ 220 }
{
    let Some((_, areas)) = areas.split_first() else {
        return true;
    };
    if text.len() > ROOM {
        return false;
    }
    text.push(before);
    push_name(text, base);
    text.push(letter);
    push_names(text, areas, base, letter + 1, b',')
}

// Appends an obtain of a list. Returns false if the text becomes too long.
fn push_obtain(text: &mut LineText, ask: &RawRequest, areas: &[ListArea], base: &[u8; 8]) -> bool
    requires old { length text.old ≤ 9 }
    requires few { length areas.now ≤ 16 }
    ensures { MatchBool result
        (text.new ≡ text.old ++ list_text_of kind.Obtain ask.now areas.now (name_text base.now))
        (199 < length (text.old ++ list_text_of kind.Obtain ask.now areas.now (name_text base.now))) }
{
    text.push_str(obtain_word(form_value(ask.form)));
    if !push_lengths(text, areas, b'(') {
        return false;
    }
    text.push_str(b"),A=");
    if !push_names(text, areas, base, b'A', b'(') {
        return false;
    }
    if text.len() > ROOM {
        return false;
    }
    text.push_str(b"),SP=");
    text.push_decimal(ask.subpool);
    text.push_str(b",BNDRY=");
    text.push_str(boundary_word(or_else(ask.boundary, 3)));
    true
}

// Appends a release of a list. Returns false if the text becomes too long.
fn push_release(text: &mut LineText, ask: &RawRequest, areas: &[ListArea], base: &[u8; 8]) -> bool
    requires { length text.old ≤ 9 }
    ensures { MatchBool result
        (text.new ≡ text.old ++ list_text_of kind.Release ask.now areas.now (name_text base.now))
        (199 < length (text.old ++ list_text_of kind.Release ask.now areas.now (name_text base.now))) }
{
    text.push_str(release_word(form_value(ask.form)));
    if !push_lengths(text, areas, b'(') {
        return false;
    }
    text.push_str(b"),A=");
    if !push_addresses(text, areas, b'(') {
        return false;
    }
    if text.len() > ROOM {
        return false;
    }
    text.push_str(b"),SP=");
    text.push_decimal(ask.subpool);
    true
}

/// Returns whether a letter can be appended to a name.
pub fn is_base(base: &[u8; 8]) -> bool
    ensures { MatchBool result (IsBase base.now) (IsBase base.now → ⊥) }
{
    name_of(base).is_some() && text_len(base) <= MOST_BASE
}

/// Returns the statement of a list request by values, or None if it is too long.
pub fn list_statement(
    obtains: bool,
    ask: &RawRequest,
    areas: &[ListArea],
    base: &[u8; 8],
) -> Option<LineText>
    requires { length areas.now ≤ 16 }
    ensures { MatchOption result
        (199 < length (list_statement_text (list_kind obtains) ask.now areas.now (name_text base.now)))
        (λ text. text ≡ list_statement_text (list_kind obtains) ask.now areas.now (name_text base.now)) }
{
    let mut text = LineText::new();
    push_name(&mut text, &ask.task);
    text.push_str(b" ");
    let fits = if obtains {
        push_obtain(&mut text, ask, areas, base)
    } else {
        push_release(&mut text, ask, areas, base)
    };
    if fits { Some(text) } else { None }
}
