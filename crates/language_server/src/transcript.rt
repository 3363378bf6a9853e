//! What a run of a script prints, with explanations.

ghost use Rattle.std.specs.Prelude.{◌≡◌, ◌≤◌, Err, IfOk, IsOk, Some, false, length, true};
ghost use Rattle.mvs_job.specs.Consuming.{LeavesText};
ghost use Rattle.mvs_job.specs.Explained.{explained};
ghost use Rattle.language_server.specs.Transcripts.{IsTranscript};

use crate::limited::Limited;
use mvs_job::{Explained, Stop, run_lines};
use mvs_model::outcome::Outcome;
use mvs_model::want::Placement;
use mvs_model::watched::Watched;
use std::alloc::{AllocError, Global};

/// The most bytes of what a run prints that are shown.
pub const MOST_PRINTED: usize = 4_194_304;

/// What a run printed, or a front of it, where that is long.
#[derive(Drop)]
pub struct Transcript {
    pub printed: Vec<u8>,
    pub is_whole: bool,
}

// Runs a script, and prints it with explanations.
fn print_explained(
    alloc: Global,
    script: &[u8],
    writer: &mut Watched<Limited>,
) -> Result<Outcome, Stop>
    requires { length script.now ≤ 16777215 }
    ensures { LeavesText explained (Some writer.old.inner.bytes.items)
        (Some writer.new.inner.bytes.items) script.now result }
{
    let mut explained = Explained::new(alloc);
    run_lines(alloc, script, writer, Placement::Low, &mut explained)
}

// Returns what a run printed that ended so.
fn transcript_of(
    printed: Vec<u8>,
    ended: Result<Outcome, Stop>,
    most: usize,
) -> Result<Transcript, AllocError>
    ensures whole { IfOk result
        (λ ran. ran.is_whole ≡ true → (ran.printed.items ≡ printed.items) × IsOk ended) }
    ensures front { IfOk result
        (λ ran. ran.is_whole ≡ false → (ran.printed.items ≡ printed.items)
        × (ended ≡ Err Stop.Write) × (length printed.items ≡ most)) }
{
    match ended {
        Ok(_) => Ok(Transcript {
            printed,
            is_whole: true,
        }),
        Err(Stop::Write) if printed.len() == most => Ok(Transcript {
            printed,
            is_whole: false,
        }),
        Err(Stop::Write | Stop::Memory) => Err(AllocError),
    }
}

/// Runs a script, and returns what it prints.
pub fn run(alloc: Global, script: &[u8]) -> Result<Transcript, AllocError>
    requires { length script.now ≤ 16777215 }
    ensures { IfOk result
        (λ ran. IsTranscript script.now ran.printed.items ran.is_whole) }
{
    let mut writer = Watched::new(Limited::new(alloc, MOST_PRINTED));
    let ended = print_explained(alloc, script, &mut writer);
    transcript_of(writer.into_inner().into_bytes(), ended, MOST_PRINTED)
}
