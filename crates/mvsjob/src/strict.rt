//! Runs a script, and reports each line that was not executed.

ghost use Rattle.std.specs.Prelude.{None};

use crate::clues::{Makers, NeededName, unset};
use diagnosis::{NotServed, PlainName, Suggestion};
use job_script::read_line;
use mvs_job::{Job, SkipObserver, SkipReason, Walk};
use mvs_model::line::Line;

/// Reports lines of a script on standard error that were not executed.
#[derive(Drop)]
pub struct Teller<'a> {
    rt: &'a HostRuntime,
    name: &'a str,
    script: &'a [u8],
    /// What the lines of the script make, from the first report on. Without memory for it no report has a clue.
    makers: Option<Makers>,
}

impl<'a> Teller<'a> {
    /// Makes an observer that reports skipped lines of a script.
    pub fn new(rt: &'a HostRuntime, name: &'a str, script: &'a [u8]) -> Teller<'a> {
        Teller {
            rt,
            name,
            script,
            makers: None,
        }
    }

    // Looks at what the lines of the script make, once for all reports.
    fn look(&mut self) {
        if self.makers.is_none() {
            self.makers = Makers::of(self.rt.alloc(), self.script).ok();
        }
    }

    // Returns what may help a line.
    fn clue(&self, job: &Job, line_number: u32, lacked: NeededName) -> Suggestion {
        match &self.makers {
            Some(makers) => makers.clue(self.rt.alloc(), job, line_number, lacked),
            None => Suggestion::Nothing,
        }
    }

    // Returns the report of a line that was not executed.
    fn report<'b>(
        &self,
        job: &Job,
        line_number: u32,
        line: &'b [u8],
        why: SkipReason,
    ) -> Option<NotServed<'b>> {
        let mut read = Line::Nothing;
        let Ok(()) = read_line(line, false, &mut read) else {
            return None;
        };
        let Line::Statement(task, statement) = &read else {
            return None;
        };
        match why {
            SkipReason::NotRun => {
                let lacked = NeededName::Task(*task);
                let clue = self.clue(job, line_number, lacked);
                Some(NotServed::without_task(line, *task, clue))
            }
            SkipReason::NoName => {
                let name = unset(job, statement)?;
                let lacked = NeededName::Name(name);
                let clue = self.clue(job, line_number, lacked);
                Some(NotServed::without_name(line, name, clue))
            }
        }
    }
}

impl SkipObserver for Teller<'_> {
    ghost heard = { λ _. None };

    // Reports a line that was not executed. A failure to report changes nothing.
    fn on_skipped(&mut self, walk: &Walk, line_number: u32, line: &[u8], why: SkipReason) {
        let Some(job) = walk.job() else {
            return;
        };
        self.look();
        if let Some(report) = self.report(job, line_number, line, why) {
            let rt = self.rt;
            let name = PlainName(self.name);
            let _ = eprint!(rt; "{name}:{line_number}:{report}");
        }
    }
}
