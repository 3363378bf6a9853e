//! The effects of the last request, one by one.

ghost use Rattle.std.specs.Prelude.{◌≡◌, ◌≢◌, slice_get, flat_map, option_map};
ghost use Rattle.mvs_job.specs.Facts.{ended_pair};
ghost use Rattle.mvs_c.specs.Access.{ReturnsOne};
ghost use Rattle.mvs_c.specs.Effects.{ended_in, fate_effects, grant_effects, is_granted};
ghost use Rattle.mvs_c.specs.Opens.{effects_of};
ghost use Rattle.mvs_c.specs.Recording.{effects_after};
ghost use Rattle.request_forms.specs.Facts.{listed};

use crate::effect::{EffectFields, of_kind, of_subpool};
use crate::effects::{Effects, push_effects};
use crate::open::Open;
use crate::recorder::Recorder;
use crate::status::{NO_MORE, OK};
use mvs_job::{EndedTasks, Fate, Job, OwnedSubpool};
use mvs_model::name::Name;
use mvs_model::request::Reply;

// Returns whether a reply says that a request was granted.
fn is_granted(reply: &Reply) -> bool
    ensures { result ≡ is_granted reply.now }
{
    match reply {
        Reply::Rc0 | Reply::Obtained(_) | Reply::Listed(_) | Reply::Cell(_) | Reply::Attached =>
            true,
        Reply::NotRun
        | Reply::Rc4
        | Reply::NoCell
        | Reply::Ended
        | Reply::Done
        | Reply::Abended(..) => false,
    }
}

// Returns the task that a reply ends, and those that end with it.
fn ended_in<'a>(task: &'a Name, reply: &'a Reply) -> Option<EndedTasks<'a>>
    ensures { option_map ended_pair result ≡ ended_in task.now reply.now }
{
    match reply {
        Reply::Ended => Some(EndedTasks { task, others: &[] }),
        Reply::Abended(_, fallen) => Some(EndedTasks {
            task,
            others: fallen.names(),
        }),
        Reply::NotRun
        | Reply::Rc0
        | Reply::Rc4
        | Reply::Obtained(_)
        | Reply::Listed(_)
        | Reply::Cell(_)
        | Reply::NoCell
        | Reply::Attached
        | Reply::Done => None,
    }
}

// Returns what becomes of a subpool at an end, if anything does.
fn fate_effect(ended: &EndedTasks<'_>, subpool: &OwnedSubpool) -> Option<EffectFields>
    ensures { listed result ≡ fate_effects (ended_pair ended.now) subpool.now }
{
    match ended.fate(subpool) {
        Fate::Freed => Some(EffectFields {
            length: subpool.bytes,
            pages: subpool.pages,
            ..of_subpool(11, 52, subpool.number, &subpool.owner)
        }),
        Fate::Remains => Some(EffectFields {
            task: ended.task.bytes(),
            ..of_subpool(12, 53, subpool.number, &subpool.owner)
        }),
        Fate::Unaffected => None,
    }
}

// Returns one of the effects of an end, by its number from 0 on.
fn end_effect(
    ended: &EndedTasks<'_>,
    subpools: &[OwnedSubpool],
    index: usize,
) -> Option<EffectFields>
    ensures { result ≡ slice_get (flat_map (fate_effects (ended_pair ended.now)) subpools.now) index }
{
    let mut left = index;
    for subpool in subpools {
        if let Some(effect) = fate_effect(ended, subpool) {
            if left == 0 {
                return Some(effect);
            }
            left -= 1;
        }
    }
    None
}

// Returns one of the effects of a granted request.
fn grant_effect(recorder: &Recorder, reply: &Reply, job: &Job, index: usize) -> Option<EffectFields>
    ensures { result ≡ slice_get (grant_effects recorder.now reply.now job.now) index }
{
    let mut effects = Effects::empty(of_kind(0, 0));
    push_effects(&mut effects, recorder, reply, job);
    effects.as_slice().get(index).copied()
}

// Returns one of the effects of a request that was recorded.
fn effect_after(recorder: &Recorder, reply: &Reply, job: &Job, index: usize) -> Option<EffectFields>
    ensures { result ≡ slice_get (effects_after recorder.now reply.now job.now) index }
{
    if let Some(ended) = ended_in(&recorder.task, reply) {
        return end_effect(&ended, recorder.owned_subpools(), index);
    }
    if is_granted(reply) {
        return grant_effect(recorder, reply, job, index);
    }
    None
}

// Returns one of the effects of the last request.
fn find_effect(held: &Open, index: usize) -> Option<EffectFields>
    ensures { result ≡ slice_get (effects_of held.now) index }
{
    let job = held.job()?;
    let recorder = held.recorder();
    if !recorder.is_made {
        return None;
    }
    effect_after(recorder, held.reply(), job, index)
}

/// Returns one of the effects of the last request, by its number from 0 on.
pub fn copy_effect(held: &Open, index: usize, effect: &mut EffectFields) -> u32
    ensures { ReturnsOne (slice_get (effects_of held.now) index) (λ e. e) effect.old effect.new result }
{
    match find_effect(held, index) {
        Some(found) => {
            *effect = found;
            OK
        }
        None => NO_MORE,
    }
}
