//! How a job ends.

/// How a job ended that was read and printed to its end.
#[derive(Clone, Copy, Debug, PartialEq, Eq)]
pub enum Outcome {
    Clean,
    /// Some task abended.
    SomeAbend,
    /// The script has a fault, which ended the job.
    ScriptFault,
}
