//! Runs the rest of a script.

ghost use Rattle.std.specs.Prelude.{◌≡◌, ◌<◌, ◌+◌, ◌^◌, ◌++◌, List, ℕ, IfOk, length};
ghost use Rattle.mvs_model.specs.Runs.{IsPrinting};
ghost use Rattle.judge.specs.Deciding.{HasReached};

use mvs_job::{AddressHints, Walk, line_end, print_closing, run_line};
use mvs_model::error::OutOfMemory;
use mvs_model::outcome::Outcome;
use mvs_model::watched::Watched;

/// How a job ended, and what it printed.
#[derive(Drop)]
pub struct RunResult {
    pub outcome: Outcome,
    pub text: Vec<u8>,
}

/// Runs the remaining lines of a job that has printed a text, with their hints.
pub fn run_rest(
    mut walk: Walk,
    script: &[u8],
    hints: &AddressHints,
    text: Vec<u8>,
) -> Result<RunResult, OutOfMemory>
    requires { walk.number + length script.now + 1 < 2 ^ 32 }
    ensures run { (whole : List ℕ) → HasReached whole text.items walk script.now
        → IfOk result (λ ran. IsPrinting whole ran.text.items ran.outcome) }
    ensures grown { IfOk result
        (λ ran. (more : List ℕ) × (ran.text.items ≡ text.items ++ more)) }
{
    let mut writer = Watched::new(text);
    let mut at = 0;
    'lines: while at < script.len() {
        let rest = &script[at..];
        let end = line_end(rest);
        let line_hints = hints.of(walk.number());
        let continues = run_line(&mut walk, &rest[..end], line_hints, &mut writer).map_err(
            |_| OutOfMemory,
        )?;
        if !continues {
            return Ok(RunResult {
                outcome: Outcome::ScriptFault,
                text: writer.into_inner(),
            });
        }
        at += end + 1;
    }
    let closing = walk.close();
    print_closing(&mut writer, walk.number(), closing.ended).map_err(|_| OutOfMemory)?;
    Ok(RunResult {
        outcome: closing.outcome,
        text: writer.into_inner(),
    })
}
