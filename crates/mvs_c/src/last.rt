//! The last events of a session.

ghost use Rattle.std.specs.Prelude.{◌≡◌};
ghost use Rattle.mvs_c.specs.declared.last.Last.TheVariants as last;

use mvs_job::LineEvent;

/// The last event. The session has its long data.
#[derive(Clone, Copy, Debug, PartialEq, Eq)]
pub enum Last {
    /// There was none yet, or it is forgotten.
    Nothing,
    /// The line of this number.
    Line { number: u32, line_event: LineEvent },
    /// A line for which memory was exhausted: the running step, if there was one, has ended, and whether a task of it had abended.
    OutOfMemoryAt(Option<bool>),
    /// The end of the job, at the number of a next line.
    Closed { number: u32, ended: Option<bool> },
}

impl Last {
    /// Forgets the event, if there is one.
    pub fn forget(&mut self)
        ensures { self.new ≡ last.Nothing }
    {
        match self {
            Last::Nothing => {}
            Last::Line { .. } | Last::OutOfMemoryAt(_) | Last::Closed { .. } => *self =
                Last::Nothing,
        }
    }
}
