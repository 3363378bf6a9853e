//! The schedules of a script.

ghost use Rattle.std.specs.Prelude.{◌≡◌, ◌≤◌, true, IfErr, IfOk, length};
ghost use Rattle.std.specs.List.{AllByRecursion};
ghost use Rattle.mvs_model.specs.Lines.{lines_of};
ghost use Rattle.mvs_model.specs.Numbers.{most_script_bytes};
ghost use Rattle.schedules.specs.Scripts.{AreStepLines, AreSteps, IsStopped};

use crate::script::{ScheduleError, before_region, read_statements};
use crate::search::{StepSchedules, search_step};
use crate::step_line::StepLine;
use mvs_model::want::Placement;
use std::alloc::Global;

/// The statements of a script, and the table of each of its steps.
#[derive(Drop)]
pub struct Explored {
    pub lines: Vec<StepLine>,
    pub steps: Vec<StepSchedules>,
}

/// Runs the schedules of each step of a script, up to a number of them for each step. The answers can be compared without the addresses
/// of WHERE and REPORT MAP.
pub fn explore(
    alloc: Global,
    script: &[u8],
    placement: Placement,
    ignores_addresses: bool,
    most: u32,
) -> Result<Explored, ScheduleError>
    requires { length script.now ≤ most_script_bytes }
    ensures lines { IfOk result
        (λ explored. AreStepLines true 1 (lines_of script.now) explored.lines.items) }
    ensures addresses { IfOk result
        (λ explored. AllByRecursion (λ l. l.ignores_addresses ≡ ignores_addresses) explored.lines.items) }
    ensures steps { IfOk result
        (λ explored. AreSteps most explored.lines.items explored.steps.items) }
    ensures stopped { IfErr result (IsStopped script.now) }
{
    let lines = read_statements(alloc, script, ignores_addresses)?;
    let mut steps = Vec::new(alloc);
    let mut at = 0;
    'steps: while at < lines.len() {
        let others = &lines[at + 1..];
        let end = before_region(others);
        let step = search_step(alloc, placement, &lines[at], &others[..end], most).map_err(
            |_| ScheduleError::Memory,
        )?;
        steps.push(step).map_err(|_| ScheduleError::Memory)?;
        at += end + 1;
    }
    Ok(Explored { lines, steps })
}
