//! What a request for an area or a cell pool that lacks storage would obtain with LOC=ANY.

ghost use Rattle.std.specs.Prelude.{◌≡◌, None};
ghost use Rattle.mvs_model.specs.Causes.{IsRefused};
ghost use Rattle.mvs_model.specs.Reasons.{Explains};
ghost use Rattle.area_history.specs.Anywhere.{FitsAnywhere, IsAnywhere, fitting, too_long};

use crate::pools::part_len;
use mvs_job::Job;
use mvs_model::bounded::{Exponent, Length};
use mvs_model::code::Form;
use mvs_model::name::Name;
use mvs_model::reason::{FreeSpace, Reason, Shortfall};
use mvs_model::refusal::Refusal;
use mvs_model::request::Request;
use mvs_model::want::{AreaRequest, Loc, Side, Want};

// Returns a request for an area that is longer than any region, on the boundaries of another one and with LOC=ANY.
fn too_long(want: &Want) -> AreaRequest
    ensures { result ≡ too_long want.now }
{
    let ask = AreaRequest::fixed(Length::new(2_147_483_647), want.start(), Loc::Any);
    match want.within() {
        Some(within) => ask.within(within),
        None => ask,
    }
}

// Returns a length, if it is not less than another one.
fn fitting(least: u64, longest: u32) -> Option<u32>
    ensures { result ≡ fitting least longest }
{
    if least <= u64::from(longest) {
        Some(longest)
    } else {
        None
    }
}

// Returns the storage that a task can obtain for an area with LOC=ANY. A request that is too long for it is refused, and its
// reason says that.
fn room_anywhere(
    job: &Job,
    task: &Name,
    form: Form,
    number: u8,
    want: &Want,
    left: &Shortfall,
) -> FreeSpace
    requires { IsRefused job.now.state task.now (Request.Obtain form number (too_long want.now)) Refusal.Shortage }
    ensures { Explains job.now.state task.now (Request.Obtain form number (too_long want.now)) Refusal.Shortage (Reason.Shortage result) }
{
    let asked = Request::Obtain {
        form,
        number,
        ask: too_long(want),
    };
    let reason = job.step().details(task, &asked, Refusal::Shortage, left);
    let Reason::Shortage(room) = reason else {
        unreachable!();
    };
    room
}

// Returns the greatest length that fits with LOC=ANY for an area that lacks storage, if its own fits so.
fn area_fits_anywhere(job: &Job, task: &Name, request: &Request, left: &Shortfall) -> Option<u32>
    requires { IsRefused job.now.state task.now request.now Refusal.Shortage }
    ensures { FitsAnywhere job.now.state task.now request.now result }
{
    let _ = job.step();
    let Request::Obtain { form, number, ask } = request else {
        return None;
    };
    let want = ask.want(Side::Either);
    let room = room_anywhere(job, task, *form, *number, &want, left);
    fitting(u64::from(want.least()), room.longest)
}

// Returns the same for a cell pool whose first part lacks storage. A part begins on a doubleword.
fn pool_fits_anywhere(job: &Job, task: &Name, request: &Request, left: &Shortfall) -> Option<u32>
    requires { IsRefused job.now.state task.now request.now Refusal.NoPart }
    ensures { FitsAnywhere job.now.state task.now request.now result }
{
    let _ = job.step();
    let Request::Build {
        number,
        size,
        primary,
        ..
    } = request
    else {
        return None;
    };
    let want = Want::fixed(Length::new(8), Exponent::new(3), Side::Either);
    let room = room_anywhere(job, task, Form::Rc, *number, &want, left);
    fitting(part_len(size, primary), room.longest)
}

/// Returns the greatest length that fits with LOC=ANY, if a request is refused for this reason.
pub(crate) fn anywhere(
    job: &Job,
    task: &Name,
    request: &Request,
    refusal: Refusal,
    reason: &Reason,
    left: &Shortfall,
) -> Option<u32>
    requires refused { IsRefused job.now.state task.now request.now refusal }
    requires explains { Explains job.now.state task.now request.now refusal reason.now }
    ensures { IsAnywhere job.now.state task.now request.now reason.now result }
{
    let _ = refusal;
    match reason {
        Reason::Shortage(_) => area_fits_anywhere(job, task, request, left),
        Reason::NoPart(..) => pool_fits_anywhere(job, task, request, left),
        Reason::NotActive
        | Reason::InvalidNumber
        | Reason::NoMember(..)
        | Reason::OffDoubleword(_)
        | Reason::NoSubpool(_)
        | Reason::NotHeld(..)
        | Reason::Overlap(..)
        | Reason::WholeOfZero
        | Reason::PoolInUse
        | Reason::TooManyPools
        | Reason::NoPool
        | Reason::NoFreeCell
        | Reason::NoTakenCell(_)
        | Reason::TaskInUse
        | Reason::TooManyTasks
        | Reason::NotOwned(..)
        | Reason::ActiveSubtask(_)
        | Reason::Asked
        | Reason::NoAccess(..) => None,
    }
}
