//! A whole script in one call.

ghost use Rattle.std.specs.Prelude.{◌≡◌, ◌≢◌, ◌<◌, ◌≤◌, length, IfOk};
ghost use Rattle.mvs_model.specs.Numbers.{most_script_bytes};
ghost use Rattle.mvs_model.specs.Runs.{IsPrinting};
ghost use Rattle.mvs_c.specs.Exports.{IsPlaceNumber};
ghost use Rattle.mvs_c.specs.Whole.{Runs};

use crate::buffer::hand_over;
use crate::exports::{outcome_status, placement};
use crate::status::{NO_MEMORY, NO_PLACE, TOO_LONG};
use mvs_job::{Printer, Stop, run_lines};
use mvs_model::numbers::MOST_SCRIPT_BYTES;
use mvs_model::outcome::Outcome;
use mvs_model::want::Placement;
use mvs_model::watched::Watched;
use std::alloc::Global;

// Runs a script, and keeps what it prints.
fn printing_of(alloc: Global, place: Placement, script: &[u8]) -> (Result<Outcome, Stop>, Vec<u8>)
    requires { length script.now ≤ most_script_bytes }
    ensures { IfOk result.0 (λ outcome. IsPrinting script.now result.1.items outcome) }
{
    let mut writer = Watched::new(Vec::new(alloc));
    let ran = run_lines(alloc, script, &mut writer, place, &mut Printer);
    (ran, writer.into_inner())
}

/// Runs a whole script, and prints to a buffer.
#[unsafe(no_mangle)]
pub extern "C" fn mvs_run_into(
    alloc: Global,
    place: u32,
    script: &[u8],
    out: &mut [u8],
    wanted: &mut usize,
) -> u32
    ensures ran { result ≢ 16 → result ≢ 44 → result ≢ 60
        → Runs script.now out.old out.new wanted.new result }
    ensures memory { result ≡ 16 → (out.new ≡ out.old) × (wanted.new ≡ wanted.old) }
    ensures long { result ≡ 44
        → (most_script_bytes < length script.now) × (out.new ≡ out.old) × (wanted.new ≡ wanted.old) }
    ensures too_long { most_script_bytes < length script.now → IsPlaceNumber place → result ≡ 44 }
    ensures place { result ≡ 60
        → (IsPlaceNumber place → ⊥) × (out.new ≡ out.old) × (wanted.new ≡ wanted.old) }
    ensures no_place { (IsPlaceNumber place → ⊥) → result ≡ 60 }
{
    let Some(placement) = placement(place) else {
        return NO_PLACE;
    };
    if script.len() > MOST_SCRIPT_BYTES {
        return TOO_LONG;
    }
    let (ran, text) = printing_of(alloc, placement, script);
    match ran {
        Ok(outcome) => hand_over(&text, out, wanted, outcome_status(outcome)),
        Err(_) => NO_MEMORY,
    }
}
