//! The report of the subpools of a task after a line: the lines up to it are run, with one more statement.

ghost use Rattle.std.specs.Prelude.{◌≡◌, ◌≤◌, ◌<◌, ◌+◌, ◌++◌, ◌∷◌, [], ◌==◌, IfOk, OnOk, codes, length, slice_get, string_bytes};
ghost use Rattle.expected_answers.specs.Reports.{shown};
ghost use Rattle.language_server.specs.Documents.{answer_of};
ghost use Rattle.language_server.specs.Reports.{IsAnswerOf, IsReport, front_of_script, has_fault, report_script, runnable_line, runnable_lines};

use crate::document::{Document, MOST_DOCUMENT};
use crate::hints::front;
use crate::line_outputs::{LineOutput, line_outputs};
use crate::plain_text::push_shown;
use crate::runnable::FaultAt;
use crate::transcript::run;
use std::alloc::{AllocError, Global};

// Returns whether a line has a fault.
fn has_fault(faults: &[FaultAt], line: usize) -> bool
    ensures { result ≡ has_fault faults.now line }
{
    faults.iter().any(|found| found.line == line)
}

// Returns what a run printed for a line.
fn answer_in(alloc: Global, outputs: &[LineOutput], line: usize) -> Result<Vec<u8>, AllocError>
    ensures { IfOk result (λ answer. answer.items ≡ answer_of (slice_get outputs.now line)) }
{
    match outputs.get(line) {
        Some(output) => Vec::from_slice(alloc, output.answer()),
        None => Ok(Vec::new(alloc)),
    }
}

// Returns what a run of a script prints for a line.
fn answer_of_run(alloc: Global, script: &[u8], line: usize) -> Result<Vec<u8>, AllocError>
    requires { length script.now ≤ 1048576 }
    ensures { IfOk result (λ answer. IsAnswerOf script.now line answer.items) }
{
    let ran = run(alloc, script)?;
    let outputs = line_outputs(alloc, script, &ran.printed)?;
    answer_in(alloc, &outputs, line)
}

// Returns the statement that reports the subpools of a task.
fn report_statement(alloc: Global, task: &[u8]) -> Result<String, AllocError>
    ensures { IfOk result
        (λ statement. string_bytes statement ≡ shown task.now ++ codes " REPORT SP\n") }
{
    let mut statement = String::new(alloc);
    push_shown(&mut statement, task)?;
    statement.push_str(" REPORT SP\n")?;
    Ok(statement)
}

impl Document {
    // Appends what is run of a line.
    fn push_runnable(&self, script: &mut Vec<u8>, line: usize) -> Result<(), AllocError>
        ensures { OnOk result
            (script.new.items ≡ script.old.items ++ runnable_line self.now line ++ 10 ∷ []) }
    {
        if !has_fault(&self.faults, line) {
            script.extend_from_slice(self.line(line))?;
        }
        script.push(b'\n')?;
        Ok(())
    }

    // Appends what is run of the lines up to one.
    fn push_runnables(&self, script: &mut Vec<u8>, last: usize) -> Result<(), AllocError>
        requires { last ≤ 1048576 }
        ensures { OnOk result
            (script.new.items ≡ script.old.items ++ runnable_lines self.now 0 (last + 1)) }
    {
        for line in 0..last + 1 {
            self.push_runnable(script, line)?;
        }
        Ok(())
    }

    // Returns the lines up to one, and a statement that reports the subpools of a task.
    fn report_script(&self, alloc: Global, line: usize, task: &[u8]) -> Result<Vec<u8>, AllocError>
        requires { line ≤ 1048576 }
        ensures { IfOk result
            (λ script. script.items ≡ report_script self.now line task.now) }
    {
        let mut script = Vec::new(alloc);
        self.push_runnables(&mut script, line)?;
        let statement = report_statement(alloc, task)?;
        script.extend_from_slice(statement.as_bytes())?;
        Ok(script)
    }

    /// Returns the report of the subpools of a task after a line.
    pub(crate) fn report(
        &self,
        alloc: Global,
        line: usize,
        task: &[u8],
    ) -> Result<Vec<u8>, AllocError>
        requires { line ≤ 1048576 }
        ensures { IfOk result (λ answer. IsReport self.now line task.now answer.items) }
    {
        let script = self.report_script(alloc, line, task)?;
        answer_of_run(alloc, front(&script, MOST_DOCUMENT), line + 1)
    }
}
