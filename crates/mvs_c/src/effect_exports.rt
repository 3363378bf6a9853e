//! The functions that C calls for the effects of requests.

ghost use Rattle.std.specs.Prelude.{◌≡◌, ◌≢◌, None, IfSome, slice_get};
ghost use Rattle.mvs_c.specs.Access.{ReturnsOne};
ghost use Rattle.mvs_c.specs.Effects.{effect_bytes};
ghost use Rattle.mvs_c.specs.Exports.{StartsRecording, WithSession};
ghost use Rattle.mvs_c.specs.Opens.{effects_of};

use crate::effect::EffectFields;
use crate::effect_walk::copy_effect;
use crate::exports::{put, take_out};
use crate::handle::Handle;
use crate::open::Open;
use crate::status::{NO_MEMORY, NO_SESSION, OK, WRONG_SIZE};
use std::alloc::Global;

// Begins to record each request of a session.
fn record(alloc: Global, held: &mut Open) -> u32
    ensures { StartsRecording held.old held.new result }
{
    match held.start_recording(alloc) {
        Ok(()) => OK,
        Err(_) => NO_MEMORY,
    }
}

/// Begins to record what each request changes.
#[unsafe(no_mangle)]
pub extern "C" fn mvs_record(alloc: Global, session: &mut Handle) -> u32
    ensures { WithSession session.old.open session.new.open (result ≡ 20)
        (λ old new. StartsRecording old new result) }
{
    let Some(mut held) = take_out(alloc, session) else {
        return NO_SESSION;
    };
    let status = record(alloc, &mut held);
    put(alloc, session, held);
    status
}

/// Returns one of the effects of the last request, by its number from 0 on.
#[unsafe(no_mangle)]
pub extern "C" fn mvs_effect(
    alloc: Global,
    session: &mut Handle,
    index: usize,
    effect: &mut EffectFields,
) -> u32
    ensures session { session.new.open ≡ session.old.open }
    ensures size { effect.old.size ≢ effect_bytes → (result ≡ 64) × (effect.new ≡ effect.old) }
    ensures none { effect.old.size ≡ effect_bytes → session.old.open ≡ None
        → (result ≡ 20) × (effect.new ≡ effect.old) }
    ensures effect { effect.old.size ≡ effect_bytes
        → IfSome session.old.open
        (λ old. ReturnsOne (slice_get (effects_of old) index) (λ e. e) effect.old effect.new result) }
{
    if !effect.is_sized() {
        return WRONG_SIZE;
    }
    let Some(held) = take_out(alloc, session) else {
        return NO_SESSION;
    };
    let status = copy_effect(&held, index, effect);
    put(alloc, session, held);
    status
}
