//! Runs a script with explanations: after the events of a line comes why its request was refused, and what was freed if it ended a
//! task.

ghost use Rattle.std.specs.Prelude.{◌≡◌, ◌≢◌, ◌≤◌, List, ℕ, Ok, Option, false, length, true, IfErr, IfOk, IsErrOf, OnOk};
ghost use Rattle.mvs_model.specs.Numbers.{most_script_bytes};
ghost use Rattle.mvs_model.specs.Runs.{IsPrinting};
ghost use Rattle.mvs_job.specs.Exchanging.{Exchanges};
ghost use Rattle.mvs_job.specs.Explained.{IsExplained, explained};
ghost use Rattle.mvs_job.specs.Explaining.{without_starred};
ghost use Rattle.mvs_job.specs.Streams.{StopsText};

use crate::explained::Explained;
use crate::hints::AddressHints;
use crate::laws::explained_are_printings;
use crate::run::{RunFault, run_source};
use crate::source::Source;
use mvs_model::outcome::Outcome;
use mvs_model::want::Placement;
use mvs_model::watched::Watched;
use std::alloc::Global;
use std::io::Write;

/// Runs a script as it comes from any source, and prints lines that begin with `*` after the events of each line: why its request
/// was refused, if there is a reason; the name that has the address of the reason, if there is one; one for each subpool that was
/// freed with a task; and what a granted request changed.
pub fn explain_from<S: Source, W: Write>(
    alloc: Global,
    reader: &mut S,
    writer: &mut Watched<W>,
    placement: Placement,
    hints: AddressHints,
) -> Result<Outcome, RunFault>
    requires reader { S.failed reader.old ≡ false }
    requires writer { writer.old.failed ≡ false }
    // Each reason comes after the events of its line, and is that of the step before the line; so are the names and the freed
    // subpools. The script is what was consumed and what the reader has left.
    ensures ok { IfOk result
        (λ outcome. Exchanges (S.left reader.old) (S.left reader.new)
        (W.contents writer.old.inner) (W.contents writer.new.inner)
        (λ consumed script written. (length consumed ≤ most_script_bytes)
        × IsExplained script written (Ok outcome))) }
    // Without the lines that begin with an asterisk it is the printing of a run.
    ensures run { IfOk result
        (λ outcome. Exchanges (S.left reader.old) (S.left reader.new)
        (W.contents writer.old.inner) (W.contents writer.new.inner)
        (λ consumed script written. IsPrinting script (without_starred written) outcome)) }
    // Otherwise it is the beginning of such a text; if memory is exhausted, all of it up to the answer that needed memory.
    ensures fault { IfErr result
        (λ fault. Exchanges (S.left reader.old) (S.left reader.new)
        (W.contents writer.old.inner) (W.contents writer.new.inner)
        (λ consumed script written. StopsText explained consumed script written fault)) }
    // All was read, or the script has a fault.
    ensures end { IfOk result
        (λ outcome. outcome ≢ Outcome.ScriptFault → S.is_at_end reader.new) }
    ensures healthy { OnOk result ((S.failed reader.new ≡ false) × (writer.new.failed ≡ false)) }
    ensures read { IsErrOf result RunFault.Read → S.failed reader.new ≡ true }
    ensures write { IsErrOf result RunFault.Write → writer.new.failed ≡ true }
    ensures since { (start : Option (List ℕ)) → S.since start reader.old → S.since start reader.new }
{
    explained_are_printings();
    let mut explained = Explained::new(alloc);
    run_source(alloc, reader, writer, placement, hints, &mut explained)
}
