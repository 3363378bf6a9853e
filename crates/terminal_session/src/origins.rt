//! Where the tasks and the names of a step come from, by the lines of the job.

use job_script::names_set;
use mvs_job::{LineEvent, Session};
use mvs_model::answer::Answer;
use mvs_model::error::OutOfMemory;
use mvs_model::line::{Line, SourceRequest, Statement};
use mvs_model::name::Name;
use mvs_model::want::Placement;
use shell::SessionScript;
use std::alloc::Global;

/// A task that was attached, and how many tasks are above it.
#[derive(Clone, Copy, Debug, PartialEq, Eq)]
pub struct TaskOrigin {
    pub task: Name,
    pub depth: usize,
}

/// A name that was set, and the line.
#[derive(Clone, Copy, Debug, PartialEq, Eq)]
pub struct NameOrigin {
    pub name: Name,
    pub line: u32,
}

/// What the lines of the step made.
#[derive(Drop)]
pub struct Origins {
    /// Each task comes before those that it attached.
    pub tasks: Vec<TaskOrigin>,
    pub names: Vec<NameOrigin>,
}

// Returns whether a request with this answer set its names.
fn is_grant(answer: &Answer) -> bool {
    matches!(answer, Answer::Rc0 | Answer::Granted(_) | Answer::Cell)
}

impl Origins {
    fn new(alloc: Global) -> Origins {
        Origins {
            tasks: Vec::new(alloc),
            names: Vec::new(alloc),
        }
    }

    /// Runs the lines of a job, and keeps what those of its last step made.
    pub fn of(
        alloc: Global,
        script: &SessionScript,
        placement: Placement,
    ) -> Result<Origins, OutOfMemory> {
        let mut origins = Origins::new(alloc);
        let mut session = Session::new(alloc, placement);
        for line in script.lines() {
            if !session.takes_line() {
                return Ok(origins);
            }
            let number = session.walk().number();
            let Ok(event) = session.line(line.bytes()) else {
                return Err(OutOfMemory);
            };
            origins.keep(number, session.walk().read(), &event)?;
        }
        Ok(origins)
    }

    // Keeps what a line made that says this.
    fn keep(&mut self, number: u32, read: &Line, event: &LineEvent) -> Result<(), OutOfMemory> {
        match event {
            LineEvent::StepBegan { card, .. } => self.begin(card.name()),
            LineEvent::Answered { task, answer } => self.keep_answer(number, read, *task, answer),
            LineEvent::Nothing | LineEvent::Faulted(_) => Ok(()),
        }
    }

    // Begins a step with its first task.
    fn begin(&mut self, task: Name) -> Result<(), OutOfMemory> {
        self.tasks.clear();
        self.names.clear();
        self.tasks
            .push(TaskOrigin { task, depth: 0 })
            .map_err(|_| OutOfMemory)
    }

    // Keeps what a statement of a task made, by its answer.
    fn keep_answer(
        &mut self,
        number: u32,
        read: &Line,
        task: Name,
        answer: &Answer,
    ) -> Result<(), OutOfMemory> {
        let Line::Statement(_, Statement::Request(request)) = read else {
            return Ok(());
        };
        if let (SourceRequest::Attach { name, .. }, Answer::Attached) = (request, answer) {
            return self.attach(*name, task);
        }
        if is_grant(answer) {
            self.set(names_set(request), number)?;
        }
        Ok(())
    }

    // Returns where a further subtask of a task comes, and its depth.
    fn place_below(&self, attaching_task: Name) -> (usize, usize) {
        let Some(at) = self
            .tasks
            .iter()
            .position(|other| other.task == attaching_task)
        else {
            return (self.tasks.len(), 1);
        };
        let depth = self.tasks[at].depth.saturating_add(1);
        let after = self.tasks[at + 1..]
            .iter()
            .position(|other| other.depth < depth);
        match after {
            Some(count) => (at + 1 + count, depth),
            None => (self.tasks.len(), depth),
        }
    }

    // Keeps a task after the one that attached it. It replaces a former task of the name.
    fn attach(&mut self, task: Name, attaching_task: Name) -> Result<(), OutOfMemory> {
        self.tasks.retain(|other| other.task != task);
        let (at, depth) = self.place_below(attaching_task);
        let origin = TaskOrigin { task, depth };
        if at < self.tasks.len() {
            self.tasks.insert(at, origin).map_err(|_| OutOfMemory)
        } else {
            self.tasks.push(origin).map_err(|_| OutOfMemory)
        }
    }

    // Keeps the line that set names. It replaces a former one.
    fn set(&mut self, names: &[Name], line: u32) -> Result<(), OutOfMemory> {
        for name in names {
            let name = *name;
            self.names.retain(|other| other.name != name);
            self.names
                .push(NameOrigin { name, line })
                .map_err(|_| OutOfMemory)?;
        }
        Ok(())
    }
}
