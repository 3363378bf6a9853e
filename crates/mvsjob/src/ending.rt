//! How the program ends: its exit status, and what standard error has.

ghost use Rattle.std.specs.Prelude.{◌≡◌};
ghost use Rattle.std.specs.Option.{option_map};
ghost use Rattle.mvsjob.specs.Endings.{cause_of, gave_up, leak_ending, strict_ending, status_of, text_of};

use judge::Finding;
use mvs_job::{RunFault, Stop, StrictOutcome};
use mvs_model::outcome::Outcome;
use mvs_model::watched::Failed;
use random_script::RandomFault;
use schedules::{OrderError, Verdict};
use std::alloc::AllocError;
use std::io::ErrorKind;
use thiserror::Error;

/// Why a file cannot be read.
#[derive(Clone, Copy, Debug, PartialEq, Eq, Error)]
pub enum Cause {
    #[error("no such file")]
    Missing,
    #[error("permission denied")]
    Forbidden,
    #[error("is a directory")]
    Directory,
    /// Its name is not UTF-8.
    #[error("the name is not UTF-8")]
    Unnamed,
    /// It has more bytes than are read.
    #[error("more than 268,435,455 bytes")]
    TooLong,
    #[error("cannot be opened or read")]
    Other,
}

impl Cause {
    /// Returns the text of a cause, in lower case and without a full stop.
    pub fn text(self) -> &'static str
        ensures { result.now ≡ cause_of self }
    {
        match self {
            Cause::Missing => "no such file",
            Cause::Forbidden => "permission denied",
            Cause::Directory => "is a directory",
            Cause::Unnamed => "the name is not UTF-8",
            Cause::TooLong => "more than 268,435,455 bytes",
            Cause::Other => "cannot be opened or read",
        }
    }
}

impl From<ErrorKind> for Cause {
    fn from(kind: ErrorKind) -> Cause {
        match kind {
            ErrorKind::NotFound => Cause::Missing,
            ErrorKind::PermissionDenied => Cause::Forbidden,
            ErrorKind::IsADirectory => Cause::Directory,
            _ => Cause::Other,
        }
    }
}

/// Why the program stops before its work is done.
#[derive(Clone, Copy, Debug, PartialEq, Eq, Error)]
pub enum CliError {
    /// The script cannot be opened, or is a directory.
    #[error("cannot open script: {0}")]
    Script(Cause),
    /// The output to judge cannot be read.
    #[error("cannot read output: {0}")]
    Output(Cause),
    /// The script of a second run cannot be read.
    #[error("cannot read the second script: {0}")]
    Second(Cause),
    /// The file for a page cannot be created.
    #[error("cannot create a file for the page: {0}")]
    PageFile(Cause),
    /// The order of `--schedule` is no schedule of the script.
    #[error("--schedule: {0}")]
    Order(OrderError),
    /// The order of `--with-schedule` is no schedule of the second script.
    #[error("--with-schedule: {0}")]
    SecondOrder(OrderError),
    /// Nobody reads what is written.
    #[error("the pipe is closed")]
    Pipe,
    /// The job stopped, or a call around it failed as one of a job does.
    #[error("{0}")]
    Job(RunFault),
}

impl From<RunFault> for CliError {
    ghost use Rattle.mvsjob.specs.declared.ending.CliError.{CliError};

    ghost from_gives = { λ fault why. why ≡ CliError.Job fault };

    fn from(fault: RunFault) -> CliError {
        CliError::Job(fault)
    }
}

impl From<Stop> for CliError {
    ghost from_gives = { λ stop why. why ≡ gave_up stop };

    fn from(stop: Stop) -> CliError {
        match stop {
            Stop::Write => CliError::Job(RunFault::Write),
            Stop::Memory => CliError::Job(RunFault::Memory),
        }
    }
}

impl From<Failed> for CliError {
    ghost use Rattle.mvsjob.specs.declared.ending.CliError.{CliError};
    ghost use Rattle.mvs_job.specs.declared.run.RunFault.{RunFault};

    ghost from_gives = { λ _ why. why ≡ CliError.Job RunFault.Write };

    fn from(_: Failed) -> CliError {
        CliError::Job(RunFault::Write)
    }
}

impl From<AllocError> for CliError {
    ghost use Rattle.mvsjob.specs.declared.ending.CliError.{CliError};
    ghost use Rattle.mvs_job.specs.declared.run.RunFault.{RunFault};

    ghost from_gives = { λ _ why. why ≡ CliError.Job RunFault.Memory };

    fn from(_: AllocError) -> CliError {
        CliError::Job(RunFault::Memory)
    }
}

impl From<RandomFault> for CliError {
    fn from(fault: RandomFault) -> CliError {
        match fault {
            RandomFault::Memory => CliError::Job(RunFault::Memory),
            RandomFault::Write => CliError::Job(RunFault::Write),
        }
    }
}

impl CliError {
    /// Returns what a message about a file says of the cause.
    pub fn reason(self) -> &'static str {
        match self {
            CliError::Script(cause)
            | CliError::Output(cause)
            | CliError::Second(cause)
            | CliError::PageFile(cause) => cause.text(),
            CliError::Order(_) | CliError::SecondOrder(_) => "the order is no schedule",
            CliError::Pipe => "the pipe is closed",
            CliError::Job(fault) => fault.text(),
        }
    }

    /// Returns why the program stops at a write that failed: for want of memory, or since the writer failed.
    pub fn of_write(kind: ErrorKind) -> CliError {
        match kind {
            ErrorKind::OutOfMemory => CliError::Job(RunFault::Memory),
            _ => CliError::Job(RunFault::Write),
        }
    }
}

/// How the program ends.
#[derive(Clone, Copy, Debug, PartialEq, Eq)]
pub enum ExitReason {
    /// The job ended so.
    Ran(Outcome),
    /// With `--strict`: no task abended, and some line was not executed.
    NotServed,
    /// With `--leaks`: no task abended, and a step ended with a leak.
    Leaked,
    /// The help, the version or the script that was asked for was printed.
    Printed,
    /// The answers of a run were compared with those that the script expects: one differs, or there is none, or all are the same.
    Checked { differs: bool },
    /// An output was judged.
    Judged(Finding),
    /// The schedules of a script were run.
    Explored(Verdict),
    /// The options were refused, and standard error has why.
    Refused,
    /// The program stopped before its work was done.
    GaveUp(CliError),
}

impl ExitReason {
    /// Returns how a strict run ends.
    pub fn of_strict(end: StrictOutcome) -> ExitReason
        ensures { result ≡ strict_ending end.outcome end.all_served }
    {
        match end.outcome {
            Outcome::Clean if !end.all_served => ExitReason::NotServed,
            outcome => ExitReason::Ran(outcome),
        }
    }

    /// Returns how a run ends that has reported leaks, or none: from how it ends without a report.
    pub fn with_leaks(self, has_leaked: bool) -> ExitReason
        ensures { result ≡ leak_ending has_leaked self }
    {
        match self {
            ExitReason::Ran(Outcome::Clean) if has_leaked => ExitReason::Leaked,
            ending => ending,
        }
    }

    /// Returns the exit status. This project's choice.
    pub fn status(self) -> u8
        ensures { result ≡ status_of self }
    {
        match self {
            ExitReason::Ran(Outcome::Clean) | ExitReason::Printed => 0,
            ExitReason::Checked { differs } => differs as u8,
            ExitReason::Judged(Finding::Accepted) => 0,
            ExitReason::Judged(Finding::Refused) => 1,
            ExitReason::Judged(Finding::Undecided(_)) => 2,
            ExitReason::Explored(Verdict::Same) => 0,
            ExitReason::Explored(Verdict::Varies) => 1,
            ExitReason::Explored(Verdict::Stopped) => 2,
            ExitReason::NotServed | ExitReason::Leaked => 4,
            ExitReason::Ran(Outcome::SomeAbend) => 8,
            ExitReason::Ran(Outcome::ScriptFault) => 12,
            ExitReason::GaveUp(CliError::Pipe) => 141,
            ExitReason::Refused | ExitReason::GaveUp(_) => 16,
        }
    }

    /// Returns what standard error has after the name of the program, if the program stopped before its work was done. This
    /// project's choice.
    pub fn text(self) -> Option<&'static str>
        ensures { option_map (λ text. text.now) result ≡ text_of self }
    {
        match self {
            ExitReason::GaveUp(CliError::Script(Cause::Directory)) => Some(RunFault::Read.text()),
            ExitReason::GaveUp(CliError::Script(_)) => Some("cannot open script"),
            ExitReason::GaveUp(CliError::Output(_)) => Some("cannot read output"),
            ExitReason::GaveUp(CliError::Second(_)) => Some("cannot read the second script"),
            ExitReason::GaveUp(CliError::PageFile(_)) => Some("cannot create a file for the page"),
            ExitReason::GaveUp(CliError::Job(fault)) => Some(fault.text()),
            ExitReason::GaveUp(CliError::Pipe | CliError::Order(_) | CliError::SecondOrder(_))
            | ExitReason::Ran(_)
            | ExitReason::NotServed
            | ExitReason::Leaked
            | ExitReason::Printed
            | ExitReason::Checked { .. }
            | ExitReason::Judged(_)
            | ExitReason::Explored(_)
            | ExitReason::Refused => None,
        }
    }
}
