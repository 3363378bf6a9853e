//! Runs the rest of a script along an output: hints come from the lines of the output that follow.

ghost use Rattle.std.specs.Prelude.{◌≡◌, ◌<◌, ◌≤◌, ◌+◌, ◌^◌, List, ℕ, IfOk, IfSome, Some, None, if◌then◌else◌, length, take};
ghost use Rattle.mvs_model.specs.Runs.{IsPrinting};
ghost use Rattle.judge.specs.Deciding.{HasReached};

use crate::deciding::{begins, emptied, print_next};
use crate::following::print_end;
use crate::foresight::Foresight;
use mvs_job::{LineEvent, Walk, line_end};
use mvs_model::error::OutOfMemory;
use mvs_model::outcome::Outcome;
use std::alloc::Global;

/// Runs the remaining lines of a job that has printed this many bytes of an output, up to the first line that prints something else. Returns
/// how the job ends if it prints the whole output.
pub fn run_along(
    alloc: Global,
    mut walk: Walk,
    script: &[u8],
    output: &[u8],
    front: usize,
) -> Result<Option<Outcome>, OutOfMemory>
    requires number { walk.number + length script.now + 1 < 2 ^ 32 }
    requires front { front ≤ length output.now }
    ensures { (whole : List ℕ) → HasReached whole (take front output.now) walk script.now
        → IfOk result (λ found. IfSome found (IsPrinting whole output.now)) }
{
    let mut foresight = Foresight::new(alloc);
    let mut empty = Vec::new(alloc);
    let mut at = 0;
    let mut done = front;
    'lines: while at < script.len() {
        let rest = &script[at..];
        let left = &output[done..];
        let end = line_end(rest);
        let line = &rest[..end];
        foresight.look(alloc, walk.number(), rest, line, left)?;
        let printed = print_next(&mut walk, line, foresight.hints(), empty)?;
        if let LineEvent::Faulted(_) = printed.line_event {
            let is_same = left == printed.text.as_slice();
            return Ok(ended_if(is_same, Outcome::ScriptFault));
        }
        if !begins(left, printed.text.as_slice()) {
            return Ok(None);
        }
        at += end + 1;
        done += printed.text.as_slice().len();
        empty = emptied(printed.text);
    }
    let (outcome, last) = print_end(alloc, &walk)?;
    let is_same = &output[done..] == last.as_slice();
    Ok(ended_if(is_same, outcome))
}

// Returns how a job ended, if it printed the rest of an output.
fn ended_if(is_same: bool, outcome: Outcome) -> Option<Outcome>
    ensures { result ≡ (if is_same then Some outcome else None) }
{
    if is_same { Some(outcome) } else { None }
}
