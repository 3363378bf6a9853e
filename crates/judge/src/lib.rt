//! Judges an output: whether it is the printing of a run of a script.
#![tactic(auto)]

ghost use Rattle.std.specs.Prelude.{◌≡◌, ◌≢◌, ◌<◌, ◌≤◌, ◌↔◌, ℕ, IfErr, IfOk, IfSome, IsErrOf, false, length, true};
ghost use Rattle.mvs_model.specs.Numbers.{most_script_bytes};
ghost use Rattle.mvs_model.specs.Lines.{lines_of};
ghost use Rattle.mvs_model.specs.Runs.{IsPrinting};
ghost use Rattle.judge.specs.Deciding.{finding_of};
ghost use Rattle.judge.specs.Excluding.{IsRuling, PartsAt};
ghost use Rattle.judge.specs.Judging.{GrantsAreShown, IsFound, IsListAt};

mod along;
mod answers;
mod certain;
mod deciding;
mod exclusion;
mod following;
mod foresight;
mod hearing;
mod kinds;
pub mod laws;
mod list_answers;
mod maps;
mod openings;
mod parts;
mod reports;
mod resting;
mod search;
mod shapes;
mod trials;

use crate::along::run_along;
use crate::deciding::begins;
use crate::exclusion::{Ruling, rule};
use crate::following::follow;
use crate::hearing::hear;
use crate::resting::run_rest;
use crate::search::{SearchEnd, SearchPlan, search};
use mvs_job::{AddressHints, RunFault, Walk};
use mvs_model::error::OutOfMemory;
use mvs_model::numbers::MOST_SCRIPT_BYTES;
use mvs_model::outcome::Outcome;
use mvs_model::want::Placement;
use std::alloc::Global;

/// What is found of an output.
#[derive(Clone, Copy, Debug, PartialEq, Eq)]
pub enum Finding {
    /// It is the printing of a run.
    Accepted,
    /// No run prints it.
    Refused,
    /// A run prints its beginning, up to the line with this number: the first that grants storage for which the next lines have no
    /// WHERE, or a list that one run may be granted and another one refused.
    Undecided(u32),
}

/// What an output was compared with, and the finding: the printing of a run of the script that uses the addresses in the output, if
/// the machine allows that.
#[derive(Drop)]
pub struct Judgement {
    pub outcome: Outcome,
    pub text: Vec<u8>,
    pub finding: Finding,
    /// Whether the output is left open since the search for a run that prints it stopped at its bound, with places left to try.
    pub has_stopped: bool,
}

// Returns the hints for the remaining lines, if they matter, and those for parts of pools from their cells, if that is requested.
fn hints_if(
    matters: bool,
    alloc: Global,
    first_number: u32,
    script: &[u8],
    output: &[u8],
    by_cells: bool,
) -> Result<AddressHints, OutOfMemory> {
    if matters {
        hear(alloc, first_number, script, output, by_cells)
    } else {
        Ok(AddressHints::nothing(alloc))
    }
}

// Returns what is found of an output from which the runs of a script part where the next line has this number.
fn finding_of(refused: bool, agrees: bool, line_number: u32) -> Finding
    ensures { result ≡ finding_of refused agrees line_number }
{
    if refused {
        Finding::Refused
    } else if agrees {
        Finding::Accepted
    } else {
        Finding::Undecided(line_number)
    }
}

// Judges an output with one run of the script, which uses the addresses in the output, and places the parts of pools by their cells
// or by the placement.
fn judge_run(
    alloc: Global,
    script: &[u8],
    output: &[u8],
    by_cells: bool,
) -> Result<Judgement, OutOfMemory>
    requires { length script.now ≤ most_script_bytes }
    ensures found { IfOk result
        (λ j. IsFound script.now output.now j.text.items j.outcome j.finding) }
    // Where the script asks for each area, and for each of a list, it is accepted or refused, or left open at a list.
    ensures decided { IfOk result
        (λ j. GrantsAreShown (lines_of script.now)
        → (n : ℕ) → j.finding ≡ Finding.Undecided n → IsListAt (lines_of script.now) n) }
    ensures run { IfOk result (λ j. IsPrinting script.now j.text.items j.outcome) }
    ensures agrees { IfOk result
        (λ j. j.finding ≡ Finding.Accepted ↔ j.text.items ≡ output.now) }
    ensures stopped { IfOk result (λ j. j.has_stopped ≡ false) }
{
    let mut walk = Walk::new(alloc, Placement::Low);
    let followed = follow(alloc, &mut walk, script, output)?;
    if let Some(outcome) = followed.ended {
        return Ok(Judgement {
            outcome,
            text: followed.text,
            finding: finding_of(!followed.passes, followed.passes, 0),
            has_stopped: false,
        });
    }
    let line_number = followed.open_line;
    let left = &script[followed.at..];
    let hints = hints_if(
        followed.passes,
        alloc,
        walk.number(),
        left,
        output,
        by_cells,
    )?;
    let ran = run_rest(walk, left, &hints, followed.text)?;
    let agrees = ran.text.as_slice() == output;
    Ok(Judgement {
        outcome: ran.outcome,
        text: ran.text,
        finding: finding_of(!followed.passes, agrees, line_number),
        has_stopped: false,
    })
}

// Judges an output with one run of the script, which uses the addresses in the lines of the output that come next. Returns None if that run
// does not decide it.
fn judge_along(
    alloc: Global,
    script: &[u8],
    output: &[u8],
) -> Result<Option<Judgement>, OutOfMemory>
    requires { length script.now ≤ most_script_bytes }
    ensures found { IfOk result (λ o. IfSome o
        (λ j. IsFound script.now output.now j.text.items j.outcome j.finding)) }
    ensures decided { IfOk result (λ o. IfSome o (λ j. (n : ℕ) → j.finding ≢ Finding.Undecided n)) }
    ensures run { IfOk result (λ o. IfSome o (λ j. IsPrinting script.now j.text.items j.outcome)) }
    ensures agrees { IfOk result (λ o. IfSome o
        (λ j. j.finding ≡ Finding.Accepted ↔ j.text.items ≡ output.now)) }
    ensures stopped { IfOk result (λ o. IfSome o (λ j. j.has_stopped ≡ false)) }
{
    let mut walk = Walk::new(alloc, Placement::Low);
    let followed = follow(alloc, &mut walk, script, output)?;
    if let Some(outcome) = followed.ended {
        return Ok(Some(Judgement {
            outcome,
            text: followed.text,
            finding: finding_of(!followed.passes, followed.passes, 0),
            has_stopped: false,
        }));
    }
    let front = followed.text.as_slice().len();
    if !followed.passes || !begins(output, followed.text.as_slice()) {
        return Ok(None);
    }
    let Some(outcome) = run_along(alloc, walk, &script[followed.at..], output, front)? else {
        return Ok(None);
    };
    Ok(Some(Judgement {
        outcome,
        text: copied(alloc, output)?,
        finding: Finding::Accepted,
        has_stopped: false,
    }))
}

// Compares an output with runs that use the addresses in it, and place the parts of pools by their cells or by the placement.
fn ruling_of(alloc: Global, script: &[u8], output: &[u8]) -> Result<Ruling, OutOfMemory>
    requires { length script.now ≤ most_script_bytes }
    ensures { IfOk result (IsRuling script.now output.now) }
{
    let hints = hear(alloc, 1, script, output, true)?;
    let ruling = rule(alloc, script, output, &hints, Placement::Low)?;
    if ruling != Ruling::Undecided {
        return Ok(ruling);
    }
    let placed = hear(alloc, 1, script, output, false)?;
    rule(alloc, script, output, &placed, Placement::Low)
}

// Returns a copy of a text.
fn copied(alloc: Global, text: &[u8]) -> Result<Vec<u8>, OutOfMemory>
    ensures { IfOk result (λ copy. copy.items ≡ text.now) }
{
    let mut copy = Vec::new(alloc);
    copy.extend_from_slice(text).map_err(|_| OutOfMemory)?;
    Ok(copy)
}

// Settles a judgement that is open by what is known of the output, once it was compared with a run: it is refused, if some line of it
// is printed by no run, wherever places are. The run may be one of a search that has stopped at its bound.
fn settle(
    alloc: Global,
    script: &[u8],
    output: &[u8],
    judgement: Judgement,
    ruling: Ruling,
    has_stopped: bool,
) -> Result<Judgement, OutOfMemory>
    requires found { IsFound script.now output.now judgement.text.items judgement.outcome
        judgement.finding }
    requires decided { GrantsAreShown (lines_of script.now)
        → (n : ℕ) → judgement.finding ≡ Finding.Undecided n
        → IsListAt (lines_of script.now) n }
    requires run { IsPrinting script.now judgement.text.items judgement.outcome }
    requires agrees { judgement.finding ≡ Finding.Accepted ↔ judgement.text.items ≡ output.now }
    requires open { (n : ℕ) × (judgement.finding ≡ Finding.Undecided n) }
    requires ruling { IsRuling script.now output.now ruling }
    ensures found { IfOk result
        (λ j. IsFound script.now output.now j.text.items j.outcome j.finding) }
    ensures decided { IfOk result
        (λ j. GrantsAreShown (lines_of script.now)
        → (n : ℕ) → j.finding ≡ Finding.Undecided n → IsListAt (lines_of script.now) n) }
    ensures run { IfOk result (λ j. IsPrinting script.now j.text.items j.outcome) }
    ensures agrees { IfOk result
        (λ j. j.finding ≡ Finding.Accepted ↔ j.text.items ≡ output.now) }
    ensures parts { IfOk result
        (λ j. (n : ℕ) → j.finding ≡ Finding.Undecided n → PartsAt script.now output.now) }
    ensures stopped { IfOk result
        (λ j. j.has_stopped ≡ true → (n : ℕ) × (j.finding ≡ Finding.Undecided n)) }
{
    match ruling {
        Ruling::Excluded => Ok(Judgement {
            outcome: judgement.outcome,
            text: judgement.text,
            finding: Finding::Refused,
            has_stopped: false,
        }),
        Ruling::Printed(outcome) => Ok(Judgement {
            outcome,
            text: copied(alloc, output)?,
            finding: Finding::Accepted,
            has_stopped: false,
        }),
        Ruling::Undecided => Ok(Judgement {
            outcome: judgement.outcome,
            text: judgement.text,
            finding: judgement.finding,
            has_stopped: judgement.has_stopped | has_stopped,
        }),
    }
}

// Settles a judgement that is open by a search for a run that prints the output. If none is found, the output is compared with the run that
// agrees with it furthest.
fn settle_by_search(
    alloc: Global,
    script: &[u8],
    output: &[u8],
    judgement: Judgement,
    plan: &SearchPlan,
) -> Result<Judgement, OutOfMemory>
    requires short { length script.now ≤ most_script_bytes }
    requires found { IsFound script.now output.now judgement.text.items judgement.outcome
        judgement.finding }
    requires decided { GrantsAreShown (lines_of script.now)
        → (n : ℕ) → judgement.finding ≡ Finding.Undecided n
        → IsListAt (lines_of script.now) n }
    requires run { IsPrinting script.now judgement.text.items judgement.outcome }
    requires agrees { judgement.finding ≡ Finding.Accepted ↔ judgement.text.items ≡ output.now }
    requires open { (n : ℕ) × (judgement.finding ≡ Finding.Undecided n) }
    ensures found { IfOk result
        (λ j. IsFound script.now output.now j.text.items j.outcome j.finding) }
    ensures decided { IfOk result
        (λ j. GrantsAreShown (lines_of script.now)
        → (n : ℕ) → j.finding ≡ Finding.Undecided n → IsListAt (lines_of script.now) n) }
    ensures run { IfOk result (λ j. IsPrinting script.now j.text.items j.outcome) }
    ensures agrees { IfOk result
        (λ j. j.finding ≡ Finding.Accepted ↔ j.text.items ≡ output.now) }
    ensures parts { IfOk result
        (λ j. (n : ℕ) → j.finding ≡ Finding.Undecided n → PartsAt script.now output.now) }
    ensures stopped { IfOk result
        (λ j. j.has_stopped ≡ true → (n : ℕ) × (j.finding ≡ Finding.Undecided n)) }
{
    match search(alloc, script, output, plan)? {
        SearchEnd::Printed(ran) => Ok(Judgement {
            outcome: ran.outcome,
            text: ran.text,
            finding: Finding::Accepted,
            has_stopped: false,
        }),
        SearchEnd::Missed(nearest) => {
            let ruling = rule(alloc, script, output, &nearest.hints, plan.placement)?;
            settle(
                alloc,
                script,
                output,
                judgement,
                ruling,
                nearest.has_stopped,
            )
        }
    }
}

// Settles a judgement that is open by searches: first for places of one line after the other, and then of several at once, if the first ones
// ended before their bound.
fn settle_by_searches(
    alloc: Global,
    script: &[u8],
    output: &[u8],
    judgement: Judgement,
    most_runs: usize,
) -> Result<Judgement, OutOfMemory>
    requires short { length script.now ≤ most_script_bytes }
    requires found { IsFound script.now output.now judgement.text.items judgement.outcome
        judgement.finding }
    requires decided { GrantsAreShown (lines_of script.now)
        → (n : ℕ) → judgement.finding ≡ Finding.Undecided n
        → IsListAt (lines_of script.now) n }
    requires run { IsPrinting script.now judgement.text.items judgement.outcome }
    requires agrees { judgement.finding ≡ Finding.Accepted ↔ judgement.text.items ≡ output.now }
    requires open { (n : ℕ) × (judgement.finding ≡ Finding.Undecided n) }
    ensures found { IfOk result
        (λ j. IsFound script.now output.now j.text.items j.outcome j.finding) }
    ensures decided { IfOk result
        (λ j. GrantsAreShown (lines_of script.now)
        → (n : ℕ) → j.finding ≡ Finding.Undecided n → IsListAt (lines_of script.now) n) }
    ensures run { IfOk result (λ j. IsPrinting script.now j.text.items j.outcome) }
    ensures agrees { IfOk result
        (λ j. j.finding ≡ Finding.Accepted ↔ j.text.items ≡ output.now) }
    ensures parts { IfOk result
        (λ j. (n : ℕ) → j.finding ≡ Finding.Undecided n → PartsAt script.now output.now) }
    ensures stopped { IfOk result
        (λ j. j.has_stopped ≡ true → (n : ℕ) × (j.finding ≡ Finding.Undecided n)) }
{
    let low = SearchPlan {
        placement: Placement::Low,
        most_runs,
        shakes: false,
    };
    let by_low = settle_by_search(alloc, script, output, judgement, &low)?;
    let Finding::Undecided(_) = by_low.finding else {
        return Ok(by_low);
    };
    let high = SearchPlan {
        placement: Placement::High,
        ..low
    };
    let by_high = settle_by_search(alloc, script, output, by_low, &high)?;
    let Finding::Undecided(_) = by_high.finding else {
        return Ok(by_high);
    };
    if by_high.has_stopped {
        return Ok(by_high);
    }
    let low_shaken = SearchPlan {
        shakes: true,
        ..low
    };
    let by_shaken = settle_by_search(alloc, script, output, by_high, &low_shaken)?;
    let Finding::Undecided(_) = by_shaken.finding else {
        return Ok(by_shaken);
    };
    let high_shaken = SearchPlan {
        shakes: true,
        ..high
    };
    settle_by_search(alloc, script, output, by_shaken, &high_shaken)
}

// Judges an output of a script that is not too long, as `judge_within` does.
fn judge_short(
    alloc: Global,
    script: &[u8],
    output: &[u8],
    most_runs: usize,
) -> Result<Judgement, OutOfMemory>
    requires { length script.now ≤ most_script_bytes }
    ensures found { IfOk result
        (λ j. IsFound script.now output.now j.text.items j.outcome j.finding) }
    ensures decided { IfOk result
        (λ j. GrantsAreShown (lines_of script.now)
        → (n : ℕ) → j.finding ≡ Finding.Undecided n → IsListAt (lines_of script.now) n) }
    ensures run { IfOk result (λ j. IsPrinting script.now j.text.items j.outcome) }
    ensures agrees { IfOk result
        (λ j. j.finding ≡ Finding.Accepted ↔ j.text.items ≡ output.now) }
    ensures parts { IfOk result
        (λ j. (n : ℕ) → j.finding ≡ Finding.Undecided n → PartsAt script.now output.now) }
    ensures stopped { IfOk result
        (λ j. j.has_stopped ≡ true → (n : ℕ) × (j.finding ≡ Finding.Undecided n)) }
{
    if let Some(judgement) = judge_along(alloc, script, output)? {
        return Ok(judgement);
    }
    let judgement = judge_run(alloc, script, output, true)?;
    let Finding::Undecided(_) = judgement.finding else {
        return Ok(judgement);
    };
    let other = judge_run(alloc, script, output, false)?;
    if other.finding == Finding::Accepted {
        return Ok(other);
    }
    let ruling = ruling_of(alloc, script, output)?;
    let settled = settle(alloc, script, output, judgement, ruling, false)?;
    let Finding::Undecided(_) = settled.finding else {
        return Ok(settled);
    };
    settle_by_searches(alloc, script, output, settled, most_runs)
}

/// Judges an output with runs of the script that use the addresses in the output. The first run takes each place from the next lines of the
/// output. If it prints something else, two runs with all addresses follow. No answer shows where the parts of a pool are: one of the two
/// places them by their cells, the other one by the placement. Then four searches try the places that the known cells allow, and places of the
/// areas of lists that the output refuses, with at most this many runs each. If none of the runs prints the output, it is refused if it differs
/// from those two, or from the run of a search that agrees with it furthest, at a line that places do not decide, or has no answer there that
/// the line can have.
pub fn judge_within(
    alloc: Global,
    script: &[u8],
    output: &[u8],
    most_runs: usize,
) -> Result<Judgement, RunFault>
    ensures found { IfOk result
        (λ j. IsFound script.now output.now j.text.items j.outcome j.finding) }
    // Where the script asks for each area, and for each of a list, it is accepted or refused, or left open at a list.
    ensures decided { IfOk result
        (λ j. GrantsAreShown (lines_of script.now)
        → (n : ℕ) → j.finding ≡ Finding.Undecided n → IsListAt (lines_of script.now) n) }
    ensures run { IfOk result (λ j. IsPrinting script.now j.text.items j.outcome) }
    ensures agrees { IfOk result
        (λ j. j.finding ≡ Finding.Accepted ↔ j.text.items ≡ output.now) }
    // It is left open only if a run prints what it begins with, up to a line whose answer places decide, and it has an answer
    // there that this line can have.
    ensures parts { IfOk result
        (λ j. (n : ℕ) → j.finding ≡ Finding.Undecided n → PartsAt script.now output.now) }
    // The search stops at its bound only if it is left open.
    ensures stopped { IfOk result
        (λ j. j.has_stopped ≡ true → (n : ℕ) × (j.finding ≡ Finding.Undecided n)) }
    // It stops with an error if the script is too long, and otherwise only if memory is exhausted. Each line needs some.
    ensures too_long { most_script_bytes < length script.now
        → IsErrOf result RunFault.ReadTooLong }
    ensures memory { IfErr result
        (λ fault. length script.now ≤ most_script_bytes → fault ≡ RunFault.Memory) }
{
    if script.len() > MOST_SCRIPT_BYTES {
        return Err(RunFault::ReadTooLong);
    }
    let judgement = judge_short(alloc, script, output, most_runs).map_err(|_| RunFault::Memory)?;
    Ok(judgement)
}

/// The most runs of a search of `judge`.
pub const MOST_RUNS: usize = 1000;

/// Judges an output as `judge_within` does, with at most `MOST_RUNS` runs.
pub fn judge(alloc: Global, script: &[u8], output: &[u8]) -> Result<Judgement, RunFault>
    ensures found { IfOk result
        (λ j. IsFound script.now output.now j.text.items j.outcome j.finding) }
    // Where the script asks for each area, and for each of a list, it is accepted or refused, or left open at a list.
    ensures decided { IfOk result
        (λ j. GrantsAreShown (lines_of script.now)
        → (n : ℕ) → j.finding ≡ Finding.Undecided n → IsListAt (lines_of script.now) n) }
    ensures run { IfOk result (λ j. IsPrinting script.now j.text.items j.outcome) }
    ensures agrees { IfOk result
        (λ j. j.finding ≡ Finding.Accepted ↔ j.text.items ≡ output.now) }
    // It is left open only if a run prints what it begins with, up to a line whose answer places decide, and it has an answer
    // there that this line can have.
    ensures parts { IfOk result
        (λ j. (n : ℕ) → j.finding ≡ Finding.Undecided n → PartsAt script.now output.now) }
    // The search stops at its bound only if it is left open.
    ensures stopped { IfOk result
        (λ j. j.has_stopped ≡ true → (n : ℕ) × (j.finding ≡ Finding.Undecided n)) }
    // It stops with an error if the script is too long, and otherwise only if memory is exhausted. Each line needs some.
    ensures too_long { most_script_bytes < length script.now
        → IsErrOf result RunFault.ReadTooLong }
    ensures memory { IfErr result
        (λ fault. length script.now ≤ most_script_bytes → fault ≡ RunFault.Memory) }
{
    judge_within(alloc, script, output, MOST_RUNS)
}
