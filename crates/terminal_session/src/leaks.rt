//! The report of `.leaks`: the areas of the step that were not released so far.

use crate::replay::replay;
use area_history::{Reporter, TextReport};
use mvs_job::{Printer, Stop, Walk, run_end};
use mvs_model::want::Placement;
use mvs_model::watched::Watched;
use shell::SessionScript;
use std::alloc::Global;
use std::io::sink;

// Returns a text after its first line.
fn after_first_line(text: &[u8]) -> &[u8] {
    match text.iter().position(|byte| *byte == b'\n') {
        Some(end) => &text[end + 1..],
        None => &[],
    }
}

/// Runs the lines of a job, and returns the report of leaks that is written if the step ends then. It is empty if there is none.
pub fn leak_report(
    alloc: Global,
    script: &SessionScript,
    placement: Placement,
) -> Result<Vec<u8>, Stop> {
    let mut walk = Walk::new(alloc, placement);
    let mut printer = Printer;
    let mut reporter = Reporter::new(alloc, &mut printer, TextReport);
    replay(
        &mut walk,
        script.lines(),
        &mut Watched::new(sink()),
        &mut reporter,
    )?;
    let mut text = Watched::new(Vec::new(alloc));
    run_end(&walk, &mut text, &mut reporter)?;
    let text = text.into_inner();
    let mut report = Vec::new(alloc);
    report
        .extend_from_slice(after_first_line(&text))
        .map_err(|_| Stop::Memory)?;
    Ok(report)
}
