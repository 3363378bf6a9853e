//! Follows an output along a script, as long as every run that prints it is in the same state.

ghost use Rattle.std.specs.Prelude.{◌≡◌, ◌≤◌, ◌+◌, ◌++◌, IfOk, drop, length};
ghost use Rattle.mvs_model.specs.Numbers.{most_script_bytes};
ghost use Rattle.mvs_job.specs.LineEvents.{new_walk};
ghost use Rattle.judge.specs.Deciding.{IsFollowed, PrintsEnd, end_at};

use crate::deciding::{DecidedLines, ServedLines, decide, emptied};
use mvs_job::{Walk, print_closing};
use mvs_model::error::OutOfMemory;
use mvs_model::outcome::Outcome;
use mvs_model::watched::Watched;
use std::alloc::Global;

/// How far an output was followed.
#[derive(Drop)]
pub struct Followed {
    /// How many bytes of the script were served.
    pub at: usize,
    /// What is printed of them.
    pub text: Vec<u8>,
    /// Whether a run may print the output. If the job has ended, the output is exactly this text.
    pub passes: bool,
    /// How the job has ended, if it has.
    pub ended: Option<Outcome>,
    /// The line that is open, where a run may print the output and the job has not ended.
    pub open_line: u32,
}

// Returns a text with another one after it.
fn joined(alloc: Global, front: &[u8], back: &[u8]) -> Result<Vec<u8>, OutOfMemory>
    ensures { IfOk result (λ all. all.items ≡ front.now ++ back.now) }
{
    let mut all = Vec::new(alloc);
    all.extend_from_slice(front).map_err(|_| OutOfMemory)?;
    all.extend_from_slice(back).map_err(|_| OutOfMemory)?;
    Ok(all)
}

// Prints the end of a job that has no more lines.
pub(crate) fn print_end(alloc: Global, walk: &Walk) -> Result<(Outcome, Vec<u8>), OutOfMemory>
    ensures { IfOk result (λ end. PrintsEnd walk.now end.1.items end.0) }
{
    let closing = walk.close();
    let mut writer = Watched::new(Vec::new(alloc));
    print_closing(&mut writer, walk.number(), closing.ended).map_err(|_| OutOfMemory)?;
    Ok((closing.outcome, writer.into_inner()))
}

// Returns a place in a script, or its end.
fn within(script: &[u8], at: usize) -> usize
    ensures rest { drop result script.now ≡ drop at script.now }
    ensures most { result ≤ length script.now }
    ensures least { at ≤ length script.now + 1 → at ≤ result + 1 }
{
    if at < script.len() { at } else { script.len() }
}

// Stops following. The last lines that were executed begin with this number, and this text was printed before them.
fn split_once(
    alloc: Global,
    at: usize,
    front: &[u8],
    served: &ServedLines,
    line_number: u32,
) -> Result<Followed, OutOfMemory>
    ensures { IfOk result
        (λ f. (f.at ≡ at) × (f.text.items ≡ front.now ++ served.now.text.items)
        × (f.passes ≡ served.now.passes) × (f.ended ≡ end_at served.now.continues)
        × (f.open_line ≡ line_number)) }
{
    let ended = if served.continues {
        None
    } else {
        Some(Outcome::ScriptFault)
    };
    Ok(Followed {
        at,
        text: joined(alloc, front, &served.text)?,
        passes: served.passes,
        ended,
        open_line: line_number,
    })
}

/// Follows an output along a script, up to lines that no run prints so, or to one that is open.
pub fn follow(
    alloc: Global,
    walk: &mut Walk,
    script: &[u8],
    output: &[u8],
) -> Result<Followed, OutOfMemory>
    requires first { walk.old ≡ new_walk }
    requires short { length script.now ≤ most_script_bytes }
    ensures { IfOk result
        (λ f. IsFollowed script.now output.now walk.new f.at f.text.items f.passes f.ended
        f.open_line) }
{
    let mut at = 0;
    let mut done = 0;
    let mut empty = Vec::new(alloc);
    'lines: while at < script.len() {
        let line_number = walk.number();
        let Some(decided) = decide(alloc, walk, &script[at..], &output[done..], empty)? else {
            return Ok(Followed {
                at,
                text: joined(alloc, &output[..done], &[])?,
                passes: true,
                ended: None,
                open_line: line_number,
            });
        };
        let follows = decided.follows();
        let DecidedLines { taken, served, .. } = decided;
        if !follows {
            let rest = within(script, at + taken);
            let followed = split_once(alloc, rest, &output[..done], &served, line_number)?;
            return Ok(followed);
        }
        at += taken;
        done += served.text.as_slice().len();
        empty = emptied(served.text);
    }
    let (outcome, last) = print_end(alloc, walk)?;
    Ok(Followed {
        at: script.len(),
        text: joined(alloc, &output[..done], &last)?,
        passes: &output[done..] == last.as_slice(),
        ended: Some(outcome),
        open_line: 0,
    })
}
