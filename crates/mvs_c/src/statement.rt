//! The statement of a request by values.

ghost use Rattle.std.specs.Prelude.{◌≡◌, ◌<◌, ◌≤◌, ◌+◌, ◌++◌, ◌==◌, true, false, length, codes, decimal, MatchBool, MatchOption, [], if◌then◌else◌};
ghost use Rattle.mvs_model.specs.Gifts.{has_bit};
ghost use Rattle.mvs_model.specs.Spelling.{absolute_text};
ghost use Rattle.mvs_c.specs.declared.ask.RequestKind.TheVariants as kind;
ghost use Rattle.mvs_c.specs.Asks.{form_value, is_located, location_value, name_text, or_else, within_value};
ghost use Rattle.mvs_c.specs.Statements.{area_key, boundary_word, cond_text, free_text, length_key, lengths_text, loc_word, numbers_text, obtain_text, operation_text, set_text, statement_text, where_text, within_text};

use crate::ask::{
    RawRequest, RequestKind, form_of, is_located, location_or_res, or_else, set_of, text_len,
};
use line_text::text::LineText;
use mvs_model::code::Form;
use mvs_model::want::Loc;

/// The most bytes before a number of a list of subpools.
const ROOM: usize = 180;

/// Returns the form of a number, R if it is that of none.
pub fn form_value(number: u32) -> Form
    ensures { result ≡ form_value number }
{
    match form_of(number) {
        Some(form) => form,
        None => Form::R,
    }
}

// Returns the operation of an obtain, and the key of its length.
fn obtain_text(form: Form) -> &'static [u8]
    ensures text { result.now ≡ obtain_text form }
    ensures len { length result.now ≤ 22 }
{
    match form {
        Form::R => b"GETMAIN R,LV=",
        Form::Rc => b"GETMAIN RC,LV=",
        Form::Ru => b"GETMAIN RU,LV=",
        Form::Vrc => b"GETMAIN VRC,LV=",
        Form::Vru => b"GETMAIN VRU,LV=",
        Form::Ec => b"GETMAIN EC,LV=",
        Form::Eu => b"GETMAIN EU,LV=",
        Form::Vc => b"GETMAIN VC,LV=",
        Form::Vu => b"GETMAIN VU,LV=",
        Form::Lc => b"GETMAIN LC,LV=",
        Form::Lu => b"GETMAIN LU,LV=",
        Form::Storage | Form::StorageConditional => b"STORAGE OBTAIN,LENGTH=",
    }
}

// Returns the operation of a release.
fn free_text(form: Form) -> &'static [u8]
    ensures text { result.now ≡ free_text form }
    ensures len { length result.now ≤ 22 }
{
    match form {
        Form::R => b"FREEMAIN R,",
        Form::Rc => b"FREEMAIN RC,",
        Form::Ru => b"FREEMAIN RU,",
        Form::Vrc => b"FREEMAIN VRC,",
        Form::Vru => b"FREEMAIN VRU,",
        Form::Ec | Form::Vc => b"FREEMAIN EC,",
        Form::Eu | Form::Vu => b"FREEMAIN EU,",
        Form::Lc => b"FREEMAIN LC,",
        Form::Lu => b"FREEMAIN LU,",
        Form::Storage | Form::StorageConditional => b"STORAGE RELEASE,",
    }
}

// Returns whether a form is that of STORAGE.
fn is_storage(form: Form) -> bool
    ensures { MatchBool result
        ((length_key form ≡ codes "LENGTH=") × (area_key form ≡ codes ",ADDR="))
        ((length_key form ≡ codes "LV=") × (area_key form ≡ codes ",A=") × (cond_text form ≡ codes "")) }
{
    match form {
        Form::Storage | Form::StorageConditional => true,
        Form::R
        | Form::Rc
        | Form::Ru
        | Form::Vrc
        | Form::Vru
        | Form::Ec
        | Form::Eu
        | Form::Vc
        | Form::Vu
        | Form::Lc
        | Form::Lu => false,
    }
}

// Returns the key of a length in a release.
fn length_key(form: Form) -> &'static [u8]
    ensures text { result.now ≡ length_key form }
    ensures len { length result.now ≤ 7 }
{
    if is_storage(form) { b"LENGTH=" } else { b"LV=" }
}

// Returns the key of an area.
fn area_key(form: Form) -> &'static [u8]
    ensures text { result.now ≡ area_key form }
    ensures len { length result.now ≤ 6 }
{
    if is_storage(form) { b",ADDR=" } else { b",A=" }
}

// Returns COND of STORAGE.
fn cond_text(form: Form) -> &'static [u8]
    ensures text { result.now ≡ cond_text form }
    ensures len { length result.now ≤ 9 }
{
    match form {
        Form::Storage => b",COND=NO",
        Form::StorageConditional => b",COND=YES",
        Form::R
        | Form::Rc
        | Form::Ru
        | Form::Vrc
        | Form::Vru
        | Form::Ec
        | Form::Eu
        | Form::Vc
        | Form::Vu
        | Form::Lc
        | Form::Lu => b"",
    }
}

// Returns the word of a location.
fn loc_word(loc: Loc) -> &'static [u8]
    ensures text { result.now ≡ loc_word loc }
    ensures len { length result.now ≤ 5 }
{
    match loc {
        Loc::Res => b"RES",
        Loc::Below => b"BELOW",
        Loc::Any => b"ANY",
    }
}

/// Returns the word of a boundary.
pub fn boundary_word(boundary: u32) -> &'static [u8]
    ensures text { result.now ≡ boundary_word boundary }
    ensures len { length result.now ≤ 5 }
{
    if boundary == 12 { b"PAGE" } else { b"DBLWD" }
}

/// Appends a name of eight bytes without its padding.
pub fn push_name(text: &mut LineText, name: &[u8; 8])
    requires { length text.old ≤ 200 }
    ensures text { text.new ≡ text.old ++ name_text name.now }
    ensures len { length text.new ≤ length text.old + 8 }
{
    text.push_str(&name[..text_len(name)]);
}

/// Appends an address.
pub fn push_address(text: &mut LineText, address: u32)
    requires { length text.old ≤ 200 }
    ensures text { text.new ≡ text.old ++ absolute_text address }
    ensures len { length text.new ≡ length text.old + 11 }
{
    text.push_str(b"X'");
    text.push_word(address);
    text.push_str(b"'");
}

// Appends a key and a number.
fn push_number(text: &mut LineText, key: &[u8], number: u32)
    requires old { length text.old ≤ 200 }
    requires key { length key.now ≤ 11 }
    ensures text { text.new ≡ text.old ++ key.now ++ decimal number }
    ensures len { length text.new ≤ length text.old + length key.now + 10 }
{
    text.push_str(key);
    text.push_decimal(number);
}

// Appends one length, or the largest and the smallest one.
fn push_lengths(text: &mut LineText, most: u32, least: u32)
    requires { length text.old ≤ 200 }
    ensures text { text.new ≡ text.old ++ lengths_text most least }
    ensures len { length text.new ≤ length text.old + 23 }
{
    if least == 0 {
        text.push_decimal(most);
        return;
    }
    text.push_str(b"(");
    text.push_decimal(most);
    text.push_str(b",");
    text.push_decimal(least);
    text.push_str(b")");
}

// Appends the boundary that is not crossed, if there is one.
fn push_within(text: &mut LineText, within: u32)
    requires { length text.old ≤ 200 }
    ensures text { text.new ≡ text.old ++ within_text (within_value within) }
    ensures len { length text.new ≤ length text.old + 19 }
{
    if within != 0 {
        push_number(text, b",CONTBDY=", within);
    }
}

// Appends where an area of a form is.
fn push_where(text: &mut LineText, form: Form, ask: &RawRequest)
    requires { length text.old ≤ 130 }
    ensures text { text.new
        ≡ text.old ++ where_text form (is_located form) (location_value ask.now.location)
        (or_else ask.now.boundary 3) (within_value ask.now.within) }
    ensures len { length text.new ≤ length text.old + 70 }
{
    let start = or_else(ask.boundary, 3);
    if !is_located(form) {
        text.push_str(b",BNDRY=");
        text.push_str(boundary_word(start));
        return;
    }
    text.push_str(b",LOC=");
    text.push_str(loc_word(location_or_res(ask.location)));
    push_number(text, b",STARTBDY=", start);
    push_within(text, ask.within);
    text.push_str(cond_text(form));
}

// Appends an obtain.
fn push_obtain(text: &mut LineText, ask: &RawRequest, area: &[u8; 8])
    requires { length text.old ≤ 9 }
    ensures text { text.new ≡ text.old ++ operation_text kind.Obtain ask.now (name_text area.now) }
    ensures len { length text.new ≤ 240 }
{
    let form = form_value(ask.form);
    text.push_str(obtain_text(form));
    push_lengths(text, ask.length, ask.least);
    text.push_str(area_key(form));
    push_name(text, area);
    push_number(text, b",SP=", ask.subpool);
    push_where(text, form, ask);
}

// Appends a release of an area.
fn push_release(text: &mut LineText, ask: &RawRequest)
    requires { length text.old ≤ 9 }
    ensures text { text.new ≡ text.old ++ operation_text kind.Release ask.now [] }
    ensures len { length text.new ≤ 240 }
{
    let form = form_value(ask.form);
    text.push_str(free_text(form));
    push_number(text, length_key(form), ask.length);
    text.push_str(area_key(form));
    push_address(text, ask.address);
    push_number(text, b",SP=", ask.subpool);
    text.push_str(cond_text(form));
}

// Appends a release of a whole subpool.
fn push_release_whole(text: &mut LineText, ask: &RawRequest)
    requires { length text.old ≤ 9 }
    ensures text { text.new ≡ text.old ++ operation_text kind.ReleaseWhole ask.now [] }
    ensures len { length text.new ≤ 240 }
{
    let form = form_value(ask.form);
    text.push_str(free_text(form));
    push_number(text, b"SP=", ask.subpool);
    text.push_str(cond_text(form));
}

// Appends the making of a cell pool.
fn push_build(text: &mut LineText, ask: &RawRequest)
    requires { length text.old ≤ 9 }
    ensures text { text.new ≡ text.old ++ operation_text kind.Build ask.now [] }
    ensures len { length text.new ≤ 240 }
{
    text.push_str(b"CPOOL BUILD,CPID=");
    push_name(text, &ask.name);
    push_number(text, b",CSIZE=", ask.length);
    push_number(text, b",PCELLCT=", ask.primary);
    push_number(text, b",SCELLCT=", or_else(ask.secondary, ask.primary));
    push_number(text, b",SP=", ask.subpool);
    text.push_str(b",LOC=");
    text.push_str(loc_word(location_or_res(ask.location)));
}

// Appends a request for a cell.
fn push_get(text: &mut LineText, ask: &RawRequest, area: &[u8; 8])
    requires { length text.old ≤ 9 }
    ensures text { text.new ≡ text.old ++ operation_text kind.Get ask.now (name_text area.now) }
    ensures len { length text.new ≤ 240 }
{
    text.push_str(b"CPOOL GET,");
    if ask.conditional {
        text.push_str(b"COND");
    } else {
        text.push_str(b"UNCOND");
    }
    text.push_str(b",CPID=");
    push_name(text, &ask.name);
    text.push_str(b",CELL=");
    push_name(text, area);
}

// Returns whether a set has a number.
fn has_number(set: u128, number: u8) -> bool
    requires { number < 128 }
    ensures { result ≡ has_bit set number }
{
    (set >> number) & 1 == 1
}

// Appends the numbers of a set from 128 - count on. Returns false if the text becomes too long.
fn push_numbers(text: &mut LineText, set: u128, before: u8, count: u8) -> bool
    requires few { count ≤ 127 }
    requires old { length text.old ≤ 200 }
    ensures text { MatchBool result (text.new ≡ text.old ++ numbers_text set before count)
        (180 < length (text.old ++ numbers_text set before count)) }
    ensures len { length text.new ≤ 200 }
    ensures short { length text.old ≤ 191 → length text.new ≤ 191 }
{
    if count == 0 {
        return true;
    }
    let number = 128 - count;
    if !has_number(set, number) {
        return push_numbers(text, set, before, count - 1);
    }
    if text.len() > ROOM {
        return false;
    }
    text.push(before);
    text.push_decimal(u32::from(number));
    push_numbers(text, set, b',', count - 1)
}

// Appends a list of the numbers of a set, if there are some. Returns false if the text becomes too long.
fn push_set(text: &mut LineText, key: &[u8], set: u128) -> bool
    requires old { length text.old ≤ 193 }
    requires key { length key.now ≤ 7 }
    ensures text { MatchBool result (text.new ≡ text.old ++ set_text key.now set)
        (180 < length (text.old ++ set_text key.now set)) }
    ensures len { length text.new ≤ 201 }
    ensures short { length text.old ≤ 100 → length text.new ≤ 192 }
{
    if set == 0 {
        return true;
    }
    text.push_str(key);
    if !push_numbers(text, set, b'(', 127) {
        return false;
    }
    text.push_str(b")");
    true
}

// Appends that a cell is freed.
fn push_free(text: &mut LineText, ask: &RawRequest)
    requires { length text.old ≤ 9 }
    ensures text { text.new ≡ text.old ++ operation_text kind.Free ask.now [] }
    ensures len { length text.new ≤ 240 }
{
    text.push_str(b"CPOOL FREE,CPID=");
    push_name(text, &ask.name);
    text.push_str(b",CELL=");
    push_address(text, ask.address);
}

// Appends that a cell pool is deleted.
fn push_delete(text: &mut LineText, ask: &RawRequest)
    requires { length text.old ≤ 9 }
    ensures text { text.new ≡ text.old ++ operation_text kind.Delete ask.now [] }
    ensures len { length text.new ≤ 240 }
{
    text.push_str(b"CPOOL DELETE,CPID=");
    push_name(text, &ask.name);
}

// Appends SZERO and RES of a subtask.
fn push_residence(text: &mut LineText, ask: &RawRequest)
    requires { length text.old ≤ 210 }
    ensures { text.new
        ≡ text.old ++ (if ask.now.keeps_zero then codes ",SZERO=NO" else codes ",SZERO=YES")
        ++ (if ask.now.above then codes ",RES=ABOVE" else codes ",RES=BELOW") }
{
    if ask.keeps_zero {
        text.push_str(b",SZERO=NO");
    } else {
        text.push_str(b",SZERO=YES");
    }
    if ask.above {
        text.push_str(b",RES=ABOVE");
    } else {
        text.push_str(b",RES=BELOW");
    }
}

// Appends that a subtask is attached. Returns false if the text becomes too long.
fn push_attach(text: &mut LineText, ask: &RawRequest) -> bool
    requires { length text.old ≤ 9 }
    ensures { MatchBool result (text.new ≡ text.old ++ operation_text kind.Attach ask.now [])
        (180 < length (text.old ++ operation_text kind.Attach ask.now [])) }
{
    text.push_str(b"ATTACH TASK=");
    push_name(text, &ask.name);
    if !push_set(text, b",GSPL=", set_of(ask.given_low, ask.given_high)) {
        return false;
    }
    if !push_set(text, b",SHSPL=", set_of(ask.shared_low, ask.shared_high)) {
        return false;
    }
    push_residence(text, ask);
    true
}

// Appends that bytes are shown.
fn push_show(text: &mut LineText, ask: &RawRequest)
    requires { length text.old ≤ 9 }
    ensures text { text.new ≡ text.old ++ operation_text kind.Show ask.now [] }
    ensures len { length text.new ≤ 240 }
{
    text.push_str(b"SHOW ");
    push_address(text, ask.address);
    push_number(text, b",", ask.length);
}

// Appends that bytes are copied.
fn push_move(text: &mut LineText, ask: &RawRequest)
    requires { length text.old ≤ 9 }
    ensures text { text.new ≡ text.old ++ operation_text kind.Move ask.now [] }
    ensures len { length text.new ≤ 240 }
{
    text.push_str(b"MOVE ");
    push_address(text, ask.address);
    text.push_str(b",");
    push_address(text, ask.source);
    push_number(text, b",", ask.length);
}

// Appends the operation of a request and its operands. Returns false if the text becomes too long.
fn push_operation(text: &mut LineText, kind: RequestKind, ask: &RawRequest, area: &[u8; 8]) -> bool
    requires { length text.old ≤ 9 }
    ensures { MatchBool result (text.new ≡ text.old ++ operation_text kind ask.now (name_text area.now))
        (180 < length (text.old ++ operation_text kind ask.now (name_text area.now))) }
{
    match kind {
        RequestKind::Obtain => push_obtain(text, ask, area),
        RequestKind::Release => push_release(text, ask),
        RequestKind::ReleaseWhole => push_release_whole(text, ask),
        RequestKind::Build => push_build(text, ask),
        RequestKind::Get => push_get(text, ask, area),
        RequestKind::Free => push_free(text, ask),
        RequestKind::Delete => push_delete(text, ask),
        RequestKind::Attach => return push_attach(text, ask),
        RequestKind::Return => text.push_str(b"RETURN "),
        RequestKind::Abend | RequestKind::SystemAbend => push_number(text, b"ABEND ", ask.code),
        RequestKind::Show => push_show(text, ask),
        RequestKind::Move => push_move(text, ask),
    }
    true
}

/// Returns the statement of a request by values, or None if it has more than 180 bytes and is too long.
pub fn statement(kind: RequestKind, ask: &RawRequest, area: &[u8; 8]) -> Option<LineText>
    ensures { MatchOption result (180 < length (statement_text kind ask.now (name_text area.now)))
        (λ text. text ≡ statement_text kind ask.now (name_text area.now)) }
{
    let mut text = LineText::new();
    push_name(&mut text, &ask.task);
    text.push_str(b" ");
    if push_operation(&mut text, kind, ask, area) {
        Some(text)
    } else {
        None
    }
}
