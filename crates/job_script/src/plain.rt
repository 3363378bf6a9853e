//! The statements that a script repeats most, read in one pass where they are written plainly: one blank between the words, and the operands in the
//! order of the table. Every other line is read by the table. Both are proved against one definition, so that no line is read otherwise here than
//! there.

ghost use Rattle.std.specs.Prelude.{◌≡◌, ◌≢◌, ◌++◌, ◌∷◌, ℕ, List, Option, codes, true, false, IfSome};
ghost use Rattle.mvs_model.specs.Reading.{LineOf};
ghost use Rattle.job_script.specs.Fronts.{IsPooled, IsSized, IsSubpoolFront, SpellsAfter, form_word, get_text, is_single, loc_text, may_place};

use crate::MOST_LINE_BYTES;
use crate::addresses::name;
use crate::prefix::{
    address_in_front, bytes_in_front, is_remark, name_in_front, number_in_front, strip_prefix,
};
use crate::rows::MOST_NUMBER;
use crate::values::bytes;
use mvs_model::bounded::{Exponent, Length, Offset, ShowLength};
use mvs_model::code::Form;
use mvs_model::line::{Line, Location, SourceRequest, Statement};
use mvs_model::name::Name;
use mvs_model::numbers::LAST_ADDRESS;
use mvs_model::want::{AreaRequest, Loc};

// Returns the subpool number at the beginning of a text, or 0, and the text after it.
fn subpool_in_front(text: &[u8]) -> Option<(u8, &[u8])>
    ensures { IfSome result (λ r. (sp : Option (List ℕ)) × IsSubpoolFront text.now r.0 sp r.1.now) }
{
    let Some(digits) = strip_prefix(text, b",SP=") else {
        return Some((0, text));
    };
    let (number, rest) = number_in_front(0, MOST_NUMBER, digits)?;
    Some((number as u8, rest))
}

// Returns the location at the beginning of a text, if it is not that of the task, and the text after it.
fn loc_word_in_front(text: &[u8]) -> Option<(Loc, &[u8])>
    ensures { IfSome result
        (λ r. (codes ",LOC=" ++ text.now ≡ loc_text r.0 ++ r.1.now) × (r.0 ≢ Loc.Res)) }
{
    match text {
        [b'A', b'N', b'Y', rest @ ..] => Some((Loc::Any, rest)),
        [b'B', b'E', b'L', b'O', b'W', rest @ ..] => Some((Loc::Below, rest)),
        _ => None,
    }
}

// Returns the location at the beginning of a text, or that of the task, and the text after it. (GETMAIN R has no such operand.)
fn loc_in_front(form: Form, text: &[u8]) -> Option<(Loc, &[u8])>
    ensures { IfSome result
        (λ r. (text.now ≡ loc_text r.0 ++ r.1.now) × (may_place form r.0 ≡ true)) }
{
    let Some(word) = strip_prefix(text, b",LOC=") else {
        return Some((Loc::Res, text));
    };
    match form {
        Form::R => None,
        Form::Rc
        | Form::Ru
        | Form::Vrc
        | Form::Vru
        | Form::Ec
        | Form::Eu
        | Form::Vc
        | Form::Vu
        | Form::Lc
        | Form::Lu
        | Form::Storage
        | Form::StorageConditional => loc_word_in_front(word),
    }
}

// Returns the form of a request for one area, or of its release, at the beginning of a field, and the text after its comma.
fn form_in_front(field: &[u8]) -> Option<(Form, &[u8])>
    ensures { IfSome result
        (λ r. (is_single r.0 ≡ true) × (field.now ≡ form_word r.0 ++ 44 ∷ r.1.now)) }
{
    match field {
        [b'R', b',', rest @ ..] => Some((Form::R, rest)),
        [b'R', b'C', b',', rest @ ..] => Some((Form::Rc, rest)),
        [b'R', b'U', b',', rest @ ..] => Some((Form::Ru, rest)),
        _ => None,
    }
}

// Returns the form and the length at the beginning of operands, and the text after the next keyword.
#[inline(always)]
fn sized_in_front(field: &[u8]) -> Option<(Form, u32, &[u8])>
    ensures { IfSome result (λ r. (digits : List ℕ) × IsSized field.now r.0 r.1 digits r.2.now) }
{
    let (form, rest) = form_in_front(field)?;
    let digits = strip_prefix(rest, b"LV=")?;
    let (len, rest) = number_in_front(1, LAST_ADDRESS, digits)?;
    let rest = strip_prefix(rest, b",A=")?;
    Some((form, len, rest))
}

// Returns the cell pool at the beginning of operands, and the text after the keyword of its cell.
fn pool_in_front(field: &[u8]) -> Option<(&[u8], &[u8])>
    ensures { IfSome result (λ r. IsPooled field.now r.0.now r.1.now) }
{
    let rest = strip_prefix(field, b"CPID=")?;
    let (pool, rest) = name_in_front(rest)?;
    let rest = strip_prefix(rest, b",CELL=")?;
    Some((pool, rest))
}

// Reads GETMAIN of one area.
fn read_obtain(task: Name, field: &[u8], line: &mut Line) -> Option<()>
    ensures { IfSome result (λ _. SpellsAfter (codes " GETMAIN " ++ field.now) task line.new) }
{
    let (form, len, rest) = sized_in_front(field)?;
    let (area, rest) = name_in_front(rest)?;
    let (number, rest) = subpool_in_front(rest)?;
    let (loc, rest) = loc_in_front(form, rest)?;
    if !is_remark(rest) {
        return None;
    }
    *line = Line::Statement(
        task,
        Statement::Request(SourceRequest::Obtain {
            form,
            number,
            ask: AreaRequest::fixed(Length::new(len), Exponent::new(3), loc),
            variable: false,
            area: name(area),
        }),
    );
    Some(())
}

// Reads FREEMAIN of one area.
fn read_release(task: Name, field: &[u8], line: &mut Line) -> Option<()>
    ensures { IfSome result (λ _. SpellsAfter (codes " FREEMAIN " ++ field.now) task line.new) }
{
    let (form, len, rest) = sized_in_front(field)?;
    let (area, offset, rest) = address_in_front(rest)?;
    let (number, rest) = subpool_in_front(rest)?;
    if !is_remark(rest) {
        return None;
    }
    *line = Line::Statement(
        task,
        Statement::Request(SourceRequest::Release {
            form,
            number,
            location: Location::Named(name(area), Offset::new(offset)),
            len: Length::new(len),
        }),
    );
    Some(())
}

// Reads CPOOL GET.
fn read_get(task: Name, conditional: bool, field: &[u8], line: &mut Line) -> Option<()>
    ensures { IfSome result (λ _. SpellsAfter (get_text conditional ++ field.now) task line.new) }
{
    let (pool, rest) = pool_in_front(field)?;
    let (cell, rest) = name_in_front(rest)?;
    if !is_remark(rest) {
        return None;
    }
    *line = Line::Statement(
        task,
        Statement::Request(SourceRequest::Get {
            pool: name(pool),
            conditional,
            cell: name(cell),
        }),
    );
    Some(())
}

// Reads CPOOL FREE.
fn read_free(task: Name, field: &[u8], line: &mut Line) -> Option<()>
    ensures { IfSome result (λ _. SpellsAfter (codes " CPOOL FREE," ++ field.now) task line.new) }
{
    let (pool, rest) = pool_in_front(field)?;
    let (cell, offset, rest) = address_in_front(rest)?;
    if !is_remark(rest) {
        return None;
    }
    *line = Line::Statement(
        task,
        Statement::Request(SourceRequest::Free {
            pool: name(pool),
            cell: Location::Named(name(cell), Offset::new(offset)),
        }),
    );
    Some(())
}

// Reads CPOOL GET and FREE.
fn read_cell(task: Name, field: &[u8], line: &mut Line) -> Option<()>
    ensures { IfSome result (λ _. SpellsAfter (codes " CPOOL " ++ field.now) task line.new) }
{
    if let Some(rest) = strip_prefix(field, b"GET,C,") {
        return read_get(task, true, rest, line);
    }
    if let Some(rest) = strip_prefix(field, b"GET,") {
        return read_get(task, false, rest, line);
    }
    let rest = strip_prefix(field, b"FREE,")?;
    read_free(task, rest, line)
}

// Parses RETURN, with nothing after it.
fn read_return(task: Name, field: &[u8], line: &mut Line) -> Option<()>
    ensures { IfSome result (λ _. SpellsAfter (codes " RETURN" ++ field.now) task line.new) }
{
    if !field.is_empty() {
        return None;
    }
    *line = Line::Statement(task, Statement::Request(SourceRequest::Return));
    Some(())
}

// Reads PUT, to an area that has a name.
fn read_put(task: Name, field: &[u8], line: &mut Line) -> Option<()>
    ensures { IfSome result (λ _. SpellsAfter (codes " PUT " ++ field.now) task line.new) }
{
    let (area, offset, rest) = address_in_front(field)?;
    let rest = strip_prefix(rest, b",")?;
    let (quoted, rest) = bytes_in_front(rest)?;
    if !is_remark(rest) {
        return None;
    }
    *line = Line::Statement(
        task,
        Statement::Request(SourceRequest::Put {
            to: Location::Named(name(area), Offset::new(offset)),
            bytes: bytes(quoted),
        }),
    );
    Some(())
}

// Reads SHOW, of an area that has a name.
fn read_show(task: Name, field: &[u8], line: &mut Line) -> Option<()>
    ensures { IfSome result (λ _. SpellsAfter (codes " SHOW " ++ field.now) task line.new) }
{
    let (area, offset, rest) = address_in_front(field)?;
    let rest = strip_prefix(rest, b",")?;
    let (len, rest) = number_in_front(1, 4_096, rest)?;
    if !is_remark(rest) {
        return None;
    }
    *line = Line::Statement(
        task,
        Statement::Request(SourceRequest::Show {
            from: Location::Named(name(area), Offset::new(offset)),
            len: ShowLength::new(len),
        }),
    );
    Some(())
}

// Reads WHERE.
fn read_where(task: Name, field: &[u8], line: &mut Line) -> Option<()>
    ensures { IfSome result (λ _. SpellsAfter (codes " WHERE " ++ field.now) task line.new) }
{
    let (area, rest) = name_in_front(field)?;
    if !is_remark(rest) {
        return None;
    }
    *line = Line::Statement(task, Statement::Where(name(area)));
    Some(())
}

// Reads REPORT SP.
fn read_report(task: Name, field: &[u8], line: &mut Line) -> Option<()>
    ensures { IfSome result (λ _. SpellsAfter (codes " REPORT SP" ++ field.now) task line.new) }
{
    if !is_remark(field) {
        return None;
    }
    *line = Line::Statement(task, Statement::ReportSubpools);
    Some(())
}

// Parses what follows the name of a task. The first letters of an operation decide which it can be.
fn read_after_task(task: Name, text: &[u8], read: &mut Line) -> Option<()>
    ensures { IfSome result (λ _. SpellsAfter text.now task read.new) }
{
    match text {
        [_, b'G', ..] => read_obtain(task, strip_prefix(text, b" GETMAIN ")?, read),
        [_, b'F', ..] => read_release(task, strip_prefix(text, b" FREEMAIN ")?, read),
        [_, b'C', ..] => read_cell(task, strip_prefix(text, b" CPOOL ")?, read),
        [_, b'P', ..] => read_put(task, strip_prefix(text, b" PUT ")?, read),
        [_, b'S', ..] => read_show(task, strip_prefix(text, b" SHOW ")?, read),
        [_, b'W', ..] => read_where(task, strip_prefix(text, b" WHERE ")?, read),
        [_, b'R', b'E', b'P', ..] => read_report(task, strip_prefix(text, b" REPORT SP")?, read),
        _ => read_return(task, strip_prefix(text, b" RETURN")?, read),
    }
}

/// Returns what a line says that is written so, which is not the first statement of a script. It is None of every other line, which has to be read by the table.
pub fn read_plain(line: &[u8], read: &mut Line) -> Option<()>
    ensures { IfSome result (λ _. LineOf false line.now read.new) }
{
    if line.len() > MOST_LINE_BYTES {
        return None;
    }
    let (task, rest) = name_in_front(line)?;
    read_after_task(name(task), rest, read)
}
