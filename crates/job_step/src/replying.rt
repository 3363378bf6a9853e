//! The result of a call, written as its reply. A reply can have 31 names, so it overwrites another one and is never copied. Where the
//! other one is of the same kind, only what differs is written.

ghost use Rattle.std.specs.Prelude.{◌≡◌, false, OnOk};
ghost use Rattle.mvs_model.specs.declared.request.Reply.TheVariants.{Attached, Cell, Done, Ended, Listed, Obtained, Rc0};
ghost use Rattle.mvs_model.specs.Replies.{is_abend};
ghost use Rattle.job_step.specs.Replying.{RepliesWith};

use mvs_model::place::Place;
use mvs_model::refusal::Refusal;
use mvs_model::request::{Places, Reply};

/// Writes the place of an area.
pub fn reply_area(answer: Result<Place, Refusal>, reply: &mut Reply) -> Result<(), Refusal>
    ensures replies { RepliesWith Obtained answer reply.new result }
    ensures no_abend { OnOk result (is_abend reply.new ≡ false) }
{
    let place = answer?;
    if let Reply::Obtained(former) = reply {
        *former = place;
    } else {
        *reply = Reply::Obtained(place);
    }
    Ok(())
}

/// Writes the places of the areas of a list.
pub fn reply_areas(answer: Result<Places, Refusal>, reply: &mut Reply) -> Result<(), Refusal>
    ensures replies { RepliesWith Listed answer reply.new result }
    ensures no_abend { OnOk result (is_abend reply.new ≡ false) }
{
    *reply = Reply::Listed(answer?);
    Ok(())
}

/// Writes the place of a cell.
pub fn reply_cell(answer: Result<Place, Refusal>, reply: &mut Reply) -> Result<(), Refusal>
    ensures replies { RepliesWith Cell answer reply.new result }
    ensures no_abend { OnOk result (is_abend reply.new ≡ false) }
{
    let place = answer?;
    if let Reply::Cell(former) = reply {
        *former = place;
    } else {
        *reply = Reply::Cell(place);
    }
    Ok(())
}

/// Writes that a request was served which is answered 0.
pub fn reply_zero(answer: Result<(), Refusal>, reply: &mut Reply) -> Result<(), Refusal>
    ensures replies { RepliesWith (λ _. Rc0) answer reply.new result }
    ensures no_abend { OnOk result (is_abend reply.new ≡ false) }
{
    answer?;
    if !matches!(reply, Reply::Rc0) {
        *reply = Reply::Rc0;
    }
    Ok(())
}

/// Writes that a subtask was attached.
pub fn reply_attached(answer: Result<(), Refusal>, reply: &mut Reply) -> Result<(), Refusal>
    ensures replies { RepliesWith (λ _. Attached) answer reply.new result }
    ensures no_abend { OnOk result (is_abend reply.new ≡ false) }
{
    answer?;
    *reply = Reply::Attached;
    Ok(())
}

/// Writes that the task ended.
pub fn reply_ended(answer: Result<(), Refusal>, reply: &mut Reply) -> Result<(), Refusal>
    ensures replies { RepliesWith (λ _. Ended) answer reply.new result }
    ensures no_abend { OnOk result (is_abend reply.new ≡ false) }
{
    answer?;
    *reply = Reply::Ended;
    Ok(())
}

/// Writes that bytes were read or written.
pub fn reply_done(answer: Result<(), Refusal>, reply: &mut Reply) -> Result<(), Refusal>
    ensures replies { RepliesWith (λ _. Done) answer reply.new result }
    ensures no_abend { OnOk result (is_abend reply.new ≡ false) }
{
    answer?;
    if !matches!(reply, Reply::Done) {
        *reply = Reply::Done;
    }
    Ok(())
}
