//! The texts that dot commands print.

use crate::leaks::leak_report;
use crate::names::NameList;
use crate::origins::Origins;
use crate::picture::Picture;
use crate::tasks::TaskTree;
use diagnosis::Plain;
use job_script::split_once::split_once;
use mvs_job::{Job, Walk};
use mvs_model::want::Placement;
use reference::{code, rule};
use shell::{Command, Correction, Help, Misread, SessionScript};
use std::alloc::{AllocError, Global};
use version::VERSION;

/// What a command asks about: the job, its lines, and where areas are placed.
#[derive(Clone, Copy)]
pub struct View<'a> {
    pub walk: &'a Walk,
    pub script: &'a SessionScript,
    pub placement: Placement,
}

/// What is printed if no step has begun.
const NO_STEP: &str = "no step has begun: type a REGION statement, such as JOB REGION BELOW=4\n";

/// What is printed if each area was released.
const NO_LEAK: &str = "each area was released\n";

// Returns the number of the version, without what built it.
fn version_number() -> &'static [u8] {
    split_once(VERSION.as_bytes(), b' ').0
}

/// Returns the first line of a session.
pub fn banner(alloc: Global) -> Result<String, AllocError> {
    let version = Plain(version_number());
    format!(in alloc; "mvsjob {version}: type a statement, .help, or Ctrl-D to end\n")
}

// Returns the text of a code.
fn code_text(alloc: Global, name: &[u8]) -> Result<String, AllocError> {
    match str::from_utf8(name).ok().and_then(code) {
        Some(text) => String::from_str(alloc, text),
        None => format!(in alloc;
            "no text about {}: expected a code that a run prints, such as S878\n",
            Plain(name)
        ),
    }
}

// Returns the text of a rule.
fn rule_text(alloc: Global, number: u32) -> Result<String, AllocError> {
    match rule(number) {
        Some(text) => String::from_str(alloc, text),
        None => format!(in alloc; "no rule {number}: the rules have the numbers 1 to 74\n"),
    }
}

// Returns the text of the areas that were not released so far.
fn leak_text(alloc: Global, view: &View<'_>) -> Result<String, AllocError> {
    let report = leak_report(alloc, view.script, view.placement).map_err(|_| AllocError)?;
    match str::from_utf8(&report) {
        Ok("") | Err(_) => String::from_str(alloc, NO_LEAK),
        Ok(text) => String::from_str(alloc, text),
    }
}

// Returns the text of a command about a step.
fn step_text(
    alloc: Global,
    command: &Command<'_>,
    view: &View<'_>,
    job: &Job,
) -> Result<String, AllocError> {
    if let Command::Map = command {
        let picture = Picture::of(alloc, job)?;
        return format!(in alloc; "{picture}");
    }
    if let Command::Leaks = command {
        return leak_text(alloc, view);
    }
    let origins = Origins::of(alloc, view.script, view.placement).map_err(|_| AllocError)?;
    let origins = &origins;
    match command {
        Command::Tasks => format!(in alloc; "{}", TaskTree { job, origins }),
        _ => format!(in alloc; "{}", NameList { job, origins }),
    }
}

/// Returns the text that a command prints, which is empty for a command that changes the session or a file.
pub fn answer(alloc: Global, command: &Command<'_>, view: &View<'_>) -> Result<String, AllocError> {
    match command {
        Command::Help(argument) => format!(in alloc; "{}", Help::new(alloc, argument)),
        Command::Rule(number) => rule_text(alloc, *number),
        Command::Code(name) => code_text(alloc, name),
        Command::Map | Command::Tasks | Command::Names | Command::Leaks => match view.walk.job() {
            Some(job) => step_text(alloc, command, view, job),
            None => String::from_str(alloc, NO_STEP),
        },
        Command::Why(_)
        | Command::Undo(_)
        | Command::Open(_)
        | Command::Save(_)
        | Command::Page(_)
        | Command::Reset
        | Command::Quit => Ok(String::new(alloc)),
    }
}

/// Returns the message about a line that begins with a dot and is no command.
pub fn correction(alloc: Global, misread: Misread<'_>) -> Result<String, AllocError> {
    let correction = Correction::new(alloc, misread);
    format!(in alloc; "{correction}")
}
