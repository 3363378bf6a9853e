//! The completion codes of the storage requests (System Codes).

ghost use Rattle.std.specs.Prelude.{◌≡◌};
ghost use Rattle.mvs_model.specs.Codes as table;

use crate::code::{Code, Family, Form};
use crate::want::Side;

/// Returns the forms that have one set of codes. Which forms are in the third is this project's choice.
pub fn family(form: Form) -> Family
    ensures { result ≡ table.family form }
{
    match form {
        Form::R => Family::R,
        Form::Ec | Form::Eu | Form::Vc | Form::Vu | Form::Lc | Form::Lu => Family::E,
        Form::Rc | Form::Ru | Form::Vrc | Form::Vru | Form::Storage | Form::StorageConditional =>
            Family::Located,
    }
}

/// Returns whether a refusal of the form is answered 4 and no abend.
pub fn is_conditional(form: Form) -> bool
    ensures { result ≡ table.is_conditional form }
{
    match form {
        Form::Rc | Form::Vrc | Form::Ec | Form::Vc | Form::Lc | Form::StorageConditional => true,
        Form::R | Form::Ru | Form::Vru | Form::Eu | Form::Vu | Form::Lu | Form::Storage => false,
    }
}

/// Returns the side on which a form is served whose location would mean this one: only the third family is served above.
pub fn form_side(form: Form, side: Side) -> Side
    ensures { result ≡ table.form_side (table.family form) side }
{
    match family(form) {
        Family::E | Family::R => Side::Below,
        Family::Located => side,
    }
}

/// Returns the abend code for a shortage of storage.
pub fn short(form: Form) -> Code
    ensures { result ≡ table.short (table.family form) }
{
    match family(form) {
        Family::E => Code::System(0x804),
        Family::R => Code::System(0x80A),
        Family::Located => Code::SHORTAGE,
    }
}

/// Returns the abend code for a subpool number that a program may not name, in a request that obtains or in one that releases.
pub fn bad_subpool(form: Form, obtaining: bool) -> Code
    ensures { result ≡ table.bad_subpool (table.family form) obtaining }
{
    match (family(form), obtaining) {
        (Family::E, true) => Code::System(0xB04),
        (Family::E, false) => Code::System(0xB05),
        (Family::R, _) => Code::System(0xB0A),
        (Family::Located, _) => Code::System(0xB78),
    }
}

/// Returns the abend code for an address that is not on a doubleword.
pub fn bad_address(form: Form) -> Code
    ensures { result ≡ table.bad_address (table.family form) }
{
    match family(form) {
        Family::E => Code::System(0x905),
        Family::R => Code::System(0x90A),
        Family::Located => Code::System(0x978),
    }
}

/// Returns the abend code for storage that is not held by the subpool.
pub fn not_held(form: Form) -> Code
    ensures { result ≡ table.not_held (table.family form) }
{
    match family(form) {
        Family::E => Code::System(0xA05),
        Family::R => Code::System(0xA0A),
        Family::Located => Code::System(0xA78),
    }
}
