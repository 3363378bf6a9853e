//! What may help where a line of a script was not executed: the line that makes what is missing, or a name that is near.

use diagnosis::{Suggestion, edits_between};
use job_script::split_once::split_once;
use job_script::{names_set, read_line};
use mvs_job::Job;
use mvs_model::line::{Line, SourceRequest, Statement};
use mvs_model::name::Name;
use std::alloc::{AllocError, Global};

/// The most names that are compared with one that is missing.
const MOST_NEAR: usize = 64;

/// What a line lacks: an active task, or a name that is set.
#[derive(Clone, Copy)]
pub enum NeededName {
    Task(Name),
    Name(Name),
}

/// Names and the lines that are to make them.
#[derive(Drop)]
struct Made {
    /// In the order of the lines.
    by_line: Vec<(Name, u32)>,
    /// In the order of the names, and for each name of the lines.
    by_name: Vec<(Name, u32)>,
}

/// What the lines of a script are to make.
#[derive(Drop)]
pub struct Makers {
    tasks: Made,
    names: Made,
    /// The lines that begin a step.
    steps: Vec<u32>,
}

/// The lines of a step: the first, and the one after the last.
#[derive(Clone, Copy)]
struct StepLines {
    begin: u32,
    end: u32,
}

// Returns the task that a request is to attach.
fn attached(written: &SourceRequest) -> Option<Name> {
    match written {
        SourceRequest::Attach { name, .. } => Some(*name),
        SourceRequest::Obtain { .. }
        | SourceRequest::ObtainList { .. }
        | SourceRequest::Release { .. }
        | SourceRequest::ReleaseArea { .. }
        | SourceRequest::ReleaseList { .. }
        | SourceRequest::ReleaseWhole { .. }
        | SourceRequest::Build { .. }
        | SourceRequest::Get { .. }
        | SourceRequest::Free { .. }
        | SourceRequest::Delete { .. }
        | SourceRequest::Return
        | SourceRequest::Abend(_)
        | SourceRequest::Show { .. }
        | SourceRequest::Put { .. }
        | SourceRequest::Move { .. } => None,
    }
}

// Returns the task that a statement is to begin.
fn begun(task: &Name, statement: &Statement) -> Option<Name> {
    match statement {
        Statement::Region { .. } => Some(*task),
        Statement::Request(written) => attached(written),
        Statement::Where(_) | Statement::ReportSubpools | Statement::ReportMap => None,
    }
}

// Returns the names that a statement is to set.
fn set_by(statement: &Statement) -> &[Name] {
    match statement {
        Statement::Request(written) => names_set(written),
        Statement::Region { .. }
        | Statement::Where(_)
        | Statement::ReportSubpools
        | Statement::ReportMap => &[],
    }
}

impl Made {
    fn new(alloc: Global) -> Made {
        Made {
            by_line: Vec::new(alloc),
            by_name: Vec::new(alloc),
        }
    }

    // Puts the names in order, once all are there.
    fn sort(&mut self) -> Result<(), AllocError> {
        self.by_name.extend_from_slice(&self.by_line)?;
        self.by_name.sort_unstable();
        Ok(())
    }

    // Returns the line of an entry in the order of the names, if it makes a name in a step.
    fn line_in(&self, at: usize, name: Name, step: StepLines) -> Option<u32> {
        match self.by_name.get(at) {
            Some((other, line)) if *other == name && step.begin <= *line && *line < step.end => {
                Some(*line)
            }
            _ => None,
        }
    }

    // Returns the last line before a line of a step that makes a name, or else the first one after it.
    fn clue(&self, name: Name, line_number: u32, step: StepLines) -> Suggestion {
        let first = self
            .by_name
            .partition_point(|made| *made < (name, line_number));
        if let Some(before) = first.checked_sub(1) {
            if let Some(line) = self.line_in(before, name, step) {
                return Suggestion::Before(line);
            }
        }
        let after = self
            .by_name
            .partition_point(|made| *made <= (name, line_number));
        match self.line_in(after, name, step) {
            Some(line) => Suggestion::After(line),
            None => Suggestion::Nothing,
        }
    }

    // Returns the last names that the lines of a step before a line are to make.
    fn last_before(&self, line_number: u32, step: StepLines) -> &[(Name, u32)] {
        let from = self.by_line.partition_point(|made| made.1 < step.begin);
        let to = self.by_line.partition_point(|made| made.1 < line_number);
        let first = from.max(to.saturating_sub(MOST_NEAR));
        self.by_line.get(first..to).unwrap_or(&[])
    }
}

impl NeededName {
    fn name(&self) -> Name {
        match self {
            NeededName::Task(name) | NeededName::Name(name) => *name,
        }
    }

    // Returns whether a job has such a name.
    fn is_there(&self, job: &Job, name: &Name) -> bool {
        match self {
            NeededName::Task(_) => job.step().is_active(name),
            NeededName::Name(_) => job.place_of(name).is_some(),
        }
    }

    // Returns the nearest of some names that a job has.
    fn nearest(&self, alloc: Global, job: &Job, names: &[(Name, u32)]) -> Option<Name> {
        let mut nearest: Option<(usize, Name)> = None;
        for (name, _) in names {
            if !self.is_there(job, name) {
                continue;
            }
            match (
                edits_between(alloc, self.name().text(), name.text()),
                &nearest,
            ) {
                (Some(edits), Some((least, _))) if edits >= *least => {}
                (Some(edits), _) => nearest = Some((edits, *name)),
                (None, _) => {}
            }
        }
        nearest.map(|(_, name)| name)
    }
}

impl Makers {
    // Adds what the statement of a line is to make.
    fn add(
        &mut self,
        line_number: u32,
        task: &Name,
        statement: &Statement,
    ) -> Result<(), AllocError> {
        if matches!(statement, Statement::Region { .. }) {
            self.steps.push(line_number)?;
        }
        if let Some(name) = begun(task, statement) {
            self.tasks.by_line.push((name, line_number))?;
        }
        for name in set_by(statement) {
            self.names.by_line.push((*name, line_number))?;
        }
        Ok(())
    }

    /// Returns what the lines of a script are to make. Fails only if memory is exhausted.
    pub fn of(alloc: Global, script: &[u8]) -> Result<Makers, AllocError> {
        let mut makers = Makers {
            tasks: Made::new(alloc),
            names: Made::new(alloc),
            steps: Vec::new(alloc),
        };
        let mut read = Line::Nothing;
        let mut line_number = 0u32;
        for line in script.split(|byte| *byte == b'\n') {
            line_number = line_number.saturating_add(1);
            if read_line(line, false, &mut read).is_err() {
                continue;
            }
            if let Line::Statement(task, statement) = &read {
                makers.add(line_number, task, statement)?;
            }
        }
        makers.tasks.sort()?;
        makers.names.sort()?;
        Ok(makers)
    }

    // Returns the step of a line.
    fn step_of(&self, line_number: u32) -> StepLines {
        let next = self.steps.partition_point(|begin| *begin <= line_number);
        let begin = match next.checked_sub(1) {
            Some(at) => self.steps.get(at).copied().unwrap_or(0),
            None => 0,
        };
        StepLines {
            begin,
            end: self.steps.get(next).copied().unwrap_or(u32::MAX),
        }
    }

    /// Returns what may help a line that lacks a task or a name. Of the names that are near, the last 64 that its step makes are
    /// looked at; where memory is refused none is found.
    pub fn clue(
        &self,
        alloc: Global,
        job: &Job,
        line_number: u32,
        lacked: NeededName,
    ) -> Suggestion {
        let step = self.step_of(line_number);
        let made = match lacked {
            NeededName::Task(_) => &self.tasks,
            NeededName::Name(_) => &self.names,
        };
        let clue = made.clue(lacked.name(), line_number, step);
        if !matches!(clue, Suggestion::Nothing) {
            return clue;
        }
        match lacked.nearest(alloc, job, made.last_before(line_number, step)) {
            Some(name) => Suggestion::Meant(name),
            None => Suggestion::Nothing,
        }
    }
}

/// Returns the first name that a statement looks up and that is not set.
pub fn unset(job: &Job, statement: &Statement) -> Option<Name> {
    match statement {
        Statement::Request(written) => job.unset(written),
        Statement::Where(name) => Some(*name),
        Statement::Region { .. } | Statement::ReportSubpools | Statement::ReportMap => None,
    }
}
