//! The states of a job that a search reaches.

ghost use Rattle.std.specs.Prelude.{◌+◌, ◌<◌, ◌^◌, length};

use crate::answered::Answered;
use mvs_job::Walk;

/// A state of the job: the answers of the statements that have run, and the positions of those that are left. A walk is large, so it
/// stays in place.
#[derive(Drop)]
pub(crate) struct Branch {
    pub(crate) walk: Box<Walk>,
    pub(crate) left: Vec<usize>,
    pub(crate) begun: Vec<Answered>,
    ghost room: { walk.value.number + length left.items + 1 < 2 ^ 32 },
}
