//! Executes lines, and returns why they were refused.

ghost use Rattle.std.specs.Prelude.{◌≡◌, ◌<◌, ◌+◌, ◌^◌, ◌∷◌, [], IfOk, MatchResult};
ghost use Rattle.mvs_model.specs.Memory.{StopsForMemory};
ghost use Rattle.mvs_job.specs.NamedAddress.{RecordsOrigins, no_lines};
ghost use Rattle.mvs_job.specs.LineEvents.{IsAvailable, ServesAs, ended, events_of_line};
ghost use Rattle.mvs_job.specs.Why.{OfNext};

use crate::explained::Explained;
use crate::walk::{LineEvent, OutOfMemoryAt, Walk};
use mvs_model::reason::LineReason;
use std::alloc::Global;
use std::marker::Model;

/// Buffers for the facts before a line, which are large, and the names that were set in the step, each with the number of the
/// line that set it last. It explains the lines of one job, from the first line on.
#[derive(Drop)]
pub struct Explainer {
    explained: Explained,
}

impl Model for Explainer {
    ghost use Rattle.std.specs.FinMap as map;
    ghost use Rattle.std.specs.Coded.{coded_ℕ};
    ghost use Rattle.std.specs.Prelude.{ℕ};
    ghost use Rattle.mvs_model.specs.Name.{name_cmp, name_code};

    ghost Value = { map.FinMap name_cmp ℕ };

    ghost coded = { map.code name_code coded_ℕ };

    ghost view = { λ e. e.explained.lines };
}

impl Explainer {
    /// Makes the record of a step in which no name was set. It allocates no memory.
    pub fn new(alloc: Global) -> Explainer
        ensures { result ≡ no_lines }
    {
        Explainer {
            explained: Explained::new(alloc),
        }
    }

    /// Executes one line, and returns its events, and the reason why it was refused. A line with a fault has no such reason,
    /// and neither has one before the first step.
    pub fn line(
        &mut self,
        walk: &mut Walk,
        line: &[u8],
    ) -> Result<(LineEvent, Option<LineReason>), OutOfMemoryAt>
        requires { walk.old.number + 1 < 2 ^ 32 }
        ensures executed { MatchResult result (λ r. ServesAs walk.old line.now r.0 walk.new)
            (λ stopped. StopsForMemory walk.old.number walk.old.step (line.now ∷ [])
            (ended stopped.ended)) }
        ensures reason { IfOk result
            (λ r. OfNext walk.old.step line.now (events_of_line walk.old.number walk.new r.0) r.1) }
        ensures lines { IfOk result
            (λ r. RecordsOrigins walk.old self.old line.now walk.new r.0 self.new) }
        ensures full_answer { IfOk result (λ r. IsAvailable walk.new r.0) }
        ensures number { walk.new.number ≡ walk.old.number + 1 }
    {
        let line_event = self.explained.serve(walk, line)?;
        Ok((line_event, self.explained.reason))
    }
}
