//! Consumers, which receive the entries of a run and write an output.

ghost use Rattle.std.specs.Prelude.{◌≡◌, List, Option, true, OnOk, OnErr, IsErrOf};
ghost use Rattle.mvs_model.specs.declared.line.Line.{Line};
ghost use Rattle.mvs_model.specs.Job.{JobValue};
ghost use Rattle.mvs_job.specs.LineEvents.{IsAvailable};
ghost use Rattle.mvs_job.specs.Consuming.{AcceptsEnd, AcceptsLine, Known, Piece};
ghost use Rattle.mvs_job.specs.Trace.{Entry};

use crate::observer::Observer;
use crate::printing::Stop;
use crate::walk::{LineEvent, Walk};
use mvs_model::watched::{Failed, Watched};
use std::io::Write;

/// How a trace ends after its lines. In both cases: whether a step ended, and whether a task of it had abended.
#[derive(Clone, Copy, Debug, PartialEq, Eq)]
pub enum End {
    /// There are no more lines.
    Closed(Option<bool>),
    /// Memory was exhausted at the answer to a line.
    Exhausted(Option<bool>),
}

/// Writes an output of a run, entry by entry. It has three calls for each line: it looks at the line before the execution, it observes
/// the refusal of the line's request, if there is one, and it accepts the entry.
pub trait Consumer: Observer {
    // What it writes for an entry, by the entries before it.
    ghost piece: { Piece };

    // What is known of it since it was in a first state.
    ghost knows: { Self → Known Self };

    // It has looked at a line that says this, which comes next in this step, or before the first.
    ghost sees: { Self → Option JobValue → Line → Type 0 };

    /// Looks at the next line, which the walk has parsed, before it is executed.
    fn look(&mut self, walk: &Walk)
        ensures sees { sees self.new walk.now.step walk.now.read }
        ensures knows { (first : Self) (history : List Entry) → (knows first).has self.old history
            → (knows first).has self.new history };

    /// Accepts the entry of a line, by its number, its bytes and its result, and the state of the job after it, which still has what the
    /// line says.
    fn entry<W: Write>(
        &mut self,
        writer: &mut Watched<W>,
        line_number: u32,
        line: &[u8],
        walk: &Walk,
        line_event: &LineEvent,
    ) -> Result<(), Stop>
        requires { IsAvailable walk.now line_event.now }
        ensures accepted { (first : Self) → AcceptsLine piece Self.heard sees (knows first)
            (W.contents writer.old.inner) (W.contents writer.new.inner) self.old self.new line_number
            line.now walk.now line_event.now result }
        ensures ok { OnOk result (writer.new.failed ≡ writer.old.failed) }
        ensures write { IsErrOf result Stop.Write → writer.new.failed ≡ true };

    /// Accepts the last entry of a trace that ends after its lines. If it is closed, the job is still in the state after them.
    fn end<W: Write>(
        &mut self,
        writer: &mut Watched<W>,
        line_number: u32,
        walk: &Walk,
        end: End,
    ) -> Result<(), Failed>
        ensures accepted { (first : Self) → AcceptsEnd piece (knows first)
            (W.contents writer.old.inner) (W.contents writer.new.inner) self.old self.new line_number
            walk.now end result }
        ensures ok { OnOk result (writer.new.failed ≡ writer.old.failed) }
        ensures err { OnErr result (writer.new.failed ≡ true) };
}
