//! Judges the output of another program.

ghost use Rattle.std.specs.Prelude.{◌≡◌, ◌∷◌, ◌++◌, ℕ, List, IfOk};
ghost use Rattle.mvsjob.specs.ModeResult.{Judges, word_of};

use crate::difference::write_difference;
use crate::ending::{CliError, ExitReason};
use crate::served::ModeResult;
use judge::{Finding, Judgement, judge_within};
use line_text::write_all;
use mvs_model::watched::Watched;
use std::alloc::{AllocError, Global};
use std::io::Write;

// Returns the word for what was found.
fn word_for(finding: Finding) -> &'static str
    ensures { result.now ≡ word_of finding }
{
    match finding {
        Finding::Accepted => "ACCEPTED",
        Finding::Refused => "REFUSED",
        Finding::Undecided(_) => "UNDECIDED",
    }
}

// Writes which line of the script is left open, and whether a search stopped at its bound.
fn write_open_line<W: Write>(writer: &mut W, line: u32, has_stopped: bool) -> std::io::Result<()> {
    writeln!(
        writer,
        "line {line} of the script obtains storage whose address the output does not show, or is a list that may be refused"
    )?;
    if has_stopped {
        writeln!(
            writer,
            "a search for the places stopped at its bound, which --most raises"
        )?;
    }
    Ok(())
}

// Writes where an output differs from what a run prints.
fn write_details<W: Write>(
    writer: &mut W,
    judgement: &Judgement,
    output: &[u8],
) -> std::io::Result<()> {
    if judgement.finding == Finding::Accepted {
        return Ok(());
    }
    write_difference(writer, output, &judgement.text)?;
    match judgement.finding {
        Finding::Undecided(line) => write_open_line(writer, line, judgement.has_stopped),
        Finding::Accepted | Finding::Refused => Ok(()),
    }
}

// Returns what is printed of a judgement: the word, and then the details.
fn report_of(alloc: Global, judgement: &Judgement, output: &[u8]) -> Result<Vec<u8>, AllocError>
    ensures { IfOk result
        (λ report. (details : List ℕ) × (report.items
        ≡ word_of judgement.now.finding ++ 10 ∷ details)) }
{
    let mut details = Vec::new(alloc);
    write_details(&mut details, judgement, output).map_err(|_| AllocError)?;
    let mut report = Vec::new(alloc);
    report.extend_from_slice(word_for(judgement.finding).as_bytes())?;
    report.push(b'\n')?;
    report.extend_from_slice(&details)?;
    Ok(report)
}

/// Judges an output, and prints what was found in one write.
pub fn judge_output<'a, W: Write>(
    alloc: Global,
    script: &'a [u8],
    output: &[u8],
    most_runs: usize,
    writer: &mut Watched<W>,
) -> Result<ModeResult<'a>, CliError>
    ensures { Judges (W.contents writer.old.inner) (W.contents writer.new.inner) script.now
        output.now result }
{
    let judgement = judge_within(alloc, script, output, most_runs)?;
    let report = report_of(alloc, &judgement, output)?;
    write_all(writer, &report)?;
    Ok(ModeResult::of(ExitReason::Judged(judgement.finding)))
}
