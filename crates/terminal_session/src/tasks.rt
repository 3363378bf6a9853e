//! The text of `.tasks`: the active tasks as a tree, with their subpools.

use crate::origins::{Origins, TaskOrigin};
use diagnosis::Plain;
use mvs_job::Job;
use mvs_model::name::Name;
use mvs_model::report::SubpoolLine;
use std::fmt;

/// The active tasks of a step.
#[derive(Clone, Copy)]
pub struct TaskTree<'a> {
    pub job: &'a Job,
    pub origins: &'a Origins,
}

// A subpool that a task has.
#[derive(Clone, Copy)]
struct SubpoolText(SubpoolLine);

impl fmt::Display for SubpoolText {
    fn fmt<W: fmt::Write>(&self, f: &mut fmt::Formatter<W>) -> fmt::Result {
        let SubpoolLine {
            number,
            owned,
            plain,
            pool,
        } = self.0;
        write!(f, "SP {}", number.get())?;
        if !owned {
            write!(f, " shared")?;
        }
        write!(f, ", {plain} bytes")?;
        if pool > 0 {
            write!(f, " and {pool} in pools")?;
        }
        Ok(())
    }
}

impl TaskTree<'_> {
    // Writes the subpools of a task.
    fn write_subpools<W: fmt::Write>(&self, f: &mut fmt::Formatter<W>, task: &Name) -> fmt::Result {
        let mut before = ": ";
        let mut from = 0;
        for _ in 0..=u8::MAX {
            let Some(line) = self.job.step().subpool_line(task, from) else {
                return writeln!(f);
            };
            write!(f, "{before}{}", SubpoolText(line))?;
            before = "; ";
            from = line.number.get() + 1;
        }
        writeln!(f)
    }

    // Writes a task.
    fn write_task<W: fmt::Write>(
        &self,
        f: &mut fmt::Formatter<W>,
        origin: &TaskOrigin,
    ) -> fmt::Result {
        for _ in 0..origin.depth {
            write!(f, "  ")?;
        }
        write!(f, "{}", Plain(origin.task.text()))?;
        self.write_subpools(f, &origin.task)
    }
}

impl fmt::Display for TaskTree<'_> {
    fn fmt<W: fmt::Write>(&self, f: &mut fmt::Formatter<W>) -> fmt::Result {
        let mut is_none = true;
        for origin in &self.origins.tasks {
            if self.job.step().is_active(&origin.task) {
                self.write_task(f, origin)?;
                is_none = false;
            }
        }
        if is_none {
            return writeln!(f, "no task is active");
        }
        Ok(())
    }
}
