//! The events of a run as lines of JSON.

ghost use Rattle.std.specs.Prelude.{◌≡◌, true, OnErr};
ghost use Rattle.mvs_job.specs.Consuming.{keeps_nothing};
ghost use Rattle.mvs_job.specs.Granting.{reports_grant};
ghost use Rattle.mvs_job.specs.LineEvents.{IsAvailable, events_of_line};
ghost use Rattle.event_json.specs.Lines.{event_lines};

use crate::{ScriptLine, write_end, write_ended, write_line};
use mvs_job::{Consumer, End, Explained, Explanation, Job, LineEvent, Observer, Stop, Walk};
use mvs_model::error::OutOfMemory;
use mvs_model::name::Name;
use mvs_model::reason::Shortfall;
use mvs_model::refusal::Refusal;
use mvs_model::request::Request;
use mvs_model::watched::{Failed, Watched};
use std::alloc::Global;
use std::io::Write;

/// Writes each event of a run as a line of JSON.
#[derive(Drop)]
pub struct EventLines {
    alloc: Global,
    /// Finds the explanations of the lines, if they are asked for.
    explained: Option<Explained>,
}

impl EventLines {
    /// Makes one that has looked at no line. With `explains` the line of a statement has its explanation. It allocates no memory.
    pub fn new(alloc: Global, explains: bool) -> EventLines {
        EventLines {
            alloc,
            explained: if explains {
                Some(Explained::new(alloc))
            } else {
                None
            },
        }
    }

    // Finds the explanation of a line, if it is asked for. Memory may be exhausted at a granted request.
    fn explain(
        &mut self,
        number: u32,
        walk: &Walk,
        line_event: &LineEvent,
    ) -> Result<(), OutOfMemory>
        requires { IsAvailable walk.now line_event.now }
        ensures { OnErr result (reports_grant (events_of_line number walk.now line_event.now) ≡ true) }
    {
        let Some(explained) = &mut self.explained else {
            return Ok(());
        };
        explained.keep(number, walk, line_event)?;
        explained.find_effects(walk, line_event);
        Ok(())
    }

    // Returns the explanation that was found.
    fn explanation(&self) -> Option<Explanation<'_>> {
        self.explained
            .as_ref()
            .map(|explained| explained.explanation())
    }
}

impl Observer for EventLines {
    ghost heard = { λ _ _ _ _ _ _ _. Unit {0} };

    fn refused(
        &mut self,
        job: &Job,
        task: &Name,
        request: &Request,
        refusal: Refusal,
        left: &Shortfall,
    ) {
        if let Some(explained) = &mut self.explained {
            explained.refused(job, task, request, refusal, left);
        }
    }
}

impl Consumer for EventLines {
    ghost piece = { event_lines };

    ghost knows = { keeps_nothing };

    ghost sees = { λ _ _ _. Unit {0} };

    fn look(&mut self, walk: &Walk) {
        if let Some(explained) = &mut self.explained {
            explained.look_at(walk);
        }
    }

    fn entry<W: Write>(
        &mut self,
        writer: &mut Watched<W>,
        line_number: u32,
        line: &[u8],
        walk: &Walk,
        line_event: &LineEvent,
    ) -> Result<(), Stop> {
        self.explain(line_number, walk, line_event)?;
        let explanation = self.explanation();
        let line = ScriptLine {
            number: line_number,
            bytes: line,
            explanation,
        };
        write_line(self.alloc, writer, &line, walk, line_event)
    }

    fn end<W: Write>(
        &mut self,
        writer: &mut Watched<W>,
        line_number: u32,
        _walk: &Walk,
        end: End,
    ) -> Result<(), Failed> {
        match end {
            End::Closed(ended) => write_end(writer, line_number, ended),
            End::Exhausted(ended) => write_ended(writer, ended),
        }
    }
}
