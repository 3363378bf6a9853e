//! What becomes of a request that is refused: one table.

ghost use Rattle.std.specs.Prelude.{◌≡◌};
ghost use Rattle.mvs_model.specs.Consequences as table;

use crate::code::{Code, Form};
use crate::codes::{bad_address, bad_subpool, is_conditional, not_held, short};
use crate::refusal::{Consequence, Refusal};
use crate::request::Request;

// Returns what a failure leads to: return code 4 in a conditional request, and an abend in another one.
fn failure(form: Form, code: Code) -> Consequence
    ensures { result ≡ table.failure form code }
{
    if is_conditional(form) {
        Consequence::Rc4
    } else {
        Consequence::Abend(code)
    }
}

// Returns what becomes of a request of the form that is refused.
fn by_form(form: Form, obtaining: bool, refusal: Refusal) -> Consequence
    ensures { result ≡ table.by_form form obtaining refusal }
{
    match refusal {
        Refusal::NotActive => Consequence::NotRun,
        Refusal::InvalidNumber => Consequence::Abend(bad_subpool(form, obtaining)),
        Refusal::Shortage | Refusal::Member(_) | Refusal::NoPart => failure(form, short(form)),
        Refusal::OffDoubleword => Consequence::Abend(bad_address(form)),
        Refusal::NoSubpool | Refusal::NotHeld | Refusal::Overlap => failure(form, not_held(form)),
        Refusal::WholeOfZero => Consequence::Abend(Code::WHOLE_OF_ZERO),
        Refusal::PoolInUse => Consequence::Abend(Code::POOL_IN_USE),
        Refusal::TooManyPools => Consequence::Abend(Code::TOO_MANY_POOLS),
        Refusal::NoPool => Consequence::Abend(Code::NO_SUCH_POOL),
        Refusal::NoFreeCell => Consequence::NoCell,
        Refusal::NoTakenCell => Consequence::Abend(Code::NO_SUCH_CELL),
        Refusal::TaskInUse => Consequence::Abend(Code::TASK_IN_USE),
        Refusal::TooManyTasks => Consequence::Abend(Code::TOO_MANY_TASKS),
        Refusal::NotOwned => Consequence::Abend(Code::NOT_OWNED),
        Refusal::ActiveSubtask => Consequence::Abend(Code::ACTIVE_SUBTASK),
        Refusal::Asked(code) => Consequence::Abend(Code::User(code)),
        Refusal::NoAccess => Consequence::Abend(Code::NO_ACCESS),
    }
}

// Returns the form of a request: those for cells and the others have the codes of STORAGE (this project's choice).
fn form_of(request: &Request) -> Form
    ensures { result ≡ table.form_of request.now }
{
    match request {
        Request::Obtain { form, .. }
        | Request::ObtainList { form, .. }
        | Request::Release { form, .. }
        | Request::ReleaseList { form, .. }
        | Request::ReleaseWhole { form, .. } => *form,
        Request::Build { .. }
        | Request::Get { .. }
        | Request::Free { .. }
        | Request::Delete { .. }
        | Request::Attach { .. }
        | Request::Return
        | Request::Abend(_)
        | Request::Show { .. }
        | Request::Put { .. }
        | Request::Move { .. } => Form::Storage,
    }
}

// Returns whether a request obtains storage.
fn obtains(request: &Request) -> bool
    ensures { result ≡ table.obtains request.now }
{
    match request {
        Request::Obtain { .. }
        | Request::ObtainList { .. }
        | Request::Build { .. }
        | Request::Get { .. } => true,
        Request::Release { .. }
        | Request::ReleaseList { .. }
        | Request::ReleaseWhole { .. }
        | Request::Free { .. }
        | Request::Delete { .. }
        | Request::Attach { .. }
        | Request::Return
        | Request::Abend(_)
        | Request::Show { .. }
        | Request::Put { .. }
        | Request::Move { .. } => false,
    }
}

/// Looks up what becomes of a request that is refused: it is not run, it is answered RC 4 or NO CELL, or its task abends with a
/// completion code (System Codes).
pub fn reply_to(request: &Request, refusal: Refusal) -> Consequence
    ensures { result ≡ table.reply_to request.now refusal }
{
    by_form(form_of(request), obtains(request), refusal)
}
