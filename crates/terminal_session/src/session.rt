//! A session: the lines that are typed are run as they come, in a job that can be run again without the last of them.

ghost use Rattle.std.specs.Prelude.{◌≡◌, ◌≢◌, ◌<◌, ◌≤◌, ◌+◌, ◌⊎◌, [], List, Option, Ok, ℕ, false, true, IfErr, IfOk, IsErrOf, OnOk, length};
ghost use Rattle.std.specs.Io.KnownBytes.{Consumes, IsAtEnd, Keeps};
ghost use Rattle.mvs_model.specs.Numbers.{most_script_bytes};
ghost use Rattle.shell.specs.Edits.{edit_of};
ghost use Rattle.terminal_session.specs.Sessions.{Fails, IsUnderWay, Stops, without_keys};
ghost use Rattle.terminal_session.specs.Steps.{Accepts, Awaits, EndsJob, FailsFrom, Obeys, StepsFrom, StopsFrom, read_fault};

use crate::answers::View;
use crate::keeping::{append, next_number, script_of};
use crate::replay::replay;
use crate::running::run_parsed;
use job_script::LineBuffer;
use mvs_job::{Consumer, RunFault, Walk, run_end};
use mvs_model::line::Fault;
use mvs_model::outcome::Outcome;
use mvs_model::want::Placement;
use mvs_model::watched::Watched;
use shell::{
    Command, LineInput, Misread, ScriptEdit, SessionScript, clean, edit_of, is_command,
    read_command,
};
use std::alloc::Global;
use std::io::{Read, Write};
use std::marker::Model;

/// Who types the lines, and sees what becomes of them.
pub trait Host {
    /// Is called when a line is awaited, which has this number if it has no fault.
    fn on_prompt(&mut self, number: u32);

    /// Is called when a line has this fault, and is skipped. If it is too long, these are its first 256 bytes.
    fn on_fault(&mut self, number: u32, line: &[u8], fault: Fault);

    /// Is called when the sequence of a key was removed from a line.
    fn on_key(&mut self);

    /// Is called at the end of input.
    fn on_end(&mut self);

    /// Is called for a line that is a command that changes nothing in the job, or that begins with a dot and is no command.
    fn on_command(&mut self, view: &View<'_>, command: Result<Command<'_>, Misread<'_>>);

    /// Is called when the job changes, and runs again from its first line, with this number of lines.
    fn on_restart(&mut self, lines: usize);

    /// Returns the text of a file; None, after a message, if it cannot be read.
    fn open(&mut self, alloc: Global, name: &[u8]) -> Option<Vec<u8>>;

    /// Is called when the lines of the file cannot be those of the job.
    fn on_unopened(&mut self, name: &[u8], fault: RunFault);
}

/// How the run of a job ends.
#[derive(Clone, Copy, Debug, PartialEq, Eq)]
pub enum JobStop {
    /// There are no more lines.
    Ended(Outcome),
    /// The lines of the job have changed, and it runs again.
    Again,
}

/// What a line does to a job.
#[derive(Clone, Copy, Debug, PartialEq, Eq)]
enum Step {
    /// The next line is awaited.
    Next,
    /// The lines of the job have changed.
    Again,
    /// There are no more lines.
    Quit,
}

/// A session.
#[derive(Drop)]
pub struct TerminalSession<R, H> {
    alloc: Global,
    input: LineInput<R>,
    host: H,
    script: SessionScript,
    placement: Placement,
    /// Whether sequences of keys and control bytes are removed from lines.
    cleans: bool,
}

impl<R, H> Model for TerminalSession<R, H> {
    ghost use Rattle.terminal_session.specs.Sessions.{SessionValue};

    ghost Value = { SessionValue R };

    ghost view = { λ s. record { input = s.input; script = s.script; cleans = s.cleans } };
}

impl<R, H> TerminalSession<R, H> {
    /// Makes a session before its first line. It allocates no memory.
    pub fn new(
        alloc: Global,
        reader: R,
        host: H,
        placement: Placement,
        cleans: bool,
    ) -> TerminalSession<R, H>
        ensures reader { result.input.inner.inner ≡ reader }
        ensures failed { result.input.inner.failed ≡ false }
        ensures count { (result.input.count ≡ 0) × (result.input.ended ≡ false) }
        ensures script { result.script ≡ [] }
        ensures cleans { result.cleans ≡ cleans }
    {
        TerminalSession {
            alloc,
            input: LineInput::new(reader),
            host,
            script: SessionScript::new(alloc),
            placement,
            cleans,
        }
    }

    /// Returns the number of the line after the last one of the job.
    pub fn next_number(&self) -> u32
        ensures { result ≡ length self.now.script + 1 }
    {
        next_number(&self.script)
    }

    /// Returns the reader, which knows whether a read failed.
    pub fn into_reader(self) -> Watched<R>
    where
        H: Drop,
        ensures { result ≡ self.input.inner }
    {
        self.input.into_inner()
    }
}

// Ends a job that has no more lines.
fn end_job<W: Write, C: Consumer>(
    walk: &Walk,
    writer: &mut Watched<W>,
    consumer: &mut C,
) -> Result<JobStop, RunFault>
    ensures ran { (first : C) → EndsJob C.piece (C.knows first) (W.contents writer.old.inner)
        (W.contents writer.new.inner) walk.now consumer.old consumer.new result }
    ensures ok { OnOk result (writer.new.failed ≡ writer.old.failed) }
    ensures write { IsErrOf result RunFault.Write → writer.new.failed ≡ true }
    ensures read { ¬ IsErrOf result RunFault.Read }
{
    let outcome = run_end(walk, writer, consumer)?;
    Ok(JobStop::Ended(outcome))
}

// Passes on what was written before a read that may wait.
fn pass_on<W: Write>(writer: &mut Watched<W>) -> Result<(), RunFault>
    ensures bytes { Keeps (W.contents writer.old.inner) (W.contents writer.new.inner) }
    ensures ok { OnOk result (writer.new.failed ≡ writer.old.failed) }
    ensures err { IfErr result (λ fault. (fault ≡ RunFault.Write) × (writer.new.failed ≡ true)) }
{
    writer.flush().map_err(|_| RunFault::Write)
}

impl<R: Read, H: Host> TerminalSession<R, H> {
    // Removes the sequences of keys from a typed line, and reports that.
    fn clean_line(&mut self, line: &mut LineBuffer)
        ensures text { line.new ≡ without_keys self.old.cleans line.old }
        ensures same { (self.new.input ≡ self.old.input) × (self.new.script ≡ self.old.script)
            × (self.new.cleans ≡ self.old.cleans) }
    {
        if !self.cleans || line.bytes().len() >= 256 {
            return;
        }
        let mut text = LineBuffer::new();
        if clean(line.bytes(), &mut text) {
            self.host.on_key();
        }
        *line = text;
    }

    // Returns why a line could not be read.
    fn read_fault(&self) -> RunFault
        ensures { result ≡ read_fault self.now.input.count }
    {
        if self.input.is_long() {
            RunFault::ReadTooLong
        } else {
            RunFault::Read
        }
    }

    // Reads a line, and writes its text over `line`. Returns false if there is none.
    fn await_line(&mut self, line: &mut LineBuffer) -> Result<bool, RunFault>
        ensures awaits { Awaits self.old.cleans (R.remaining self.old.input.inner.inner)
            (R.remaining self.new.input.inner.inner) self.old.input self.new.input line.new result }
        ensures at_end { (self.old.input.ended ≡ true
            → IsAtEnd (R.remaining self.old.input.inner.inner))
            → self.new.input.ended ≡ true → IsAtEnd (R.remaining self.new.input.inner.inner) }
        ensures same { (self.new.script ≡ self.old.script) × (self.new.cleans ≡ self.old.cleans) }
        ensures ok { OnOk result (self.new.input.inner.failed ≡ self.old.input.inner.failed) }
        ensures read { IsErrOf result RunFault.Read → self.new.input.inner.failed ≡ true }
    {
        self.host.on_prompt(next_number(&self.script));
        let read = self.input.read_line(line);
        let has_line = read.map_err(|_| self.read_fault())?;
        if has_line {
            self.clean_line(line);
        } else {
            self.host.on_end();
        }
        Ok(has_line)
    }

    // Keeps a line and runs it, or reports its fault.
    fn accept<W: Write, C: Consumer>(
        &mut self,
        walk: &mut Walk,
        line: &[u8],
        writer: &mut Watched<W>,
        consumer: &mut C,
    ) -> Result<Step, RunFault>
        requires { walk.old.number ≡ 1 + length self.old.script }
        ensures ran { (first : C) (before : Option (List ℕ)) → Accepts C.piece (C.knows first) before
            (W.contents writer.old.inner) (W.contents writer.new.inner) self.old.input.count
            self.old.script line.now walk.old consumer.old self.new.script walk.new consumer.new
            result }
        ensures same { (self.new.input ≡ self.old.input) × (self.new.cleans ≡ self.old.cleans) }
        ensures ok { OnOk result (writer.new.failed ≡ writer.old.failed) }
        ensures write { IsErrOf result RunFault.Write → writer.new.failed ≡ true }
        ensures read { ¬ IsErrOf result RunFault.Read }
    {
        if let Err(fault) = walk.parse(line) {
            self.host.on_fault(next_number(&self.script), line, fault);
            return Ok(Step::Next);
        }
        append(&mut self.script, line)?;
        run_parsed(walk, line, writer, consumer)?;
        Ok(Step::Next)
    }

    // Replaces the lines of the job by those of the file that a command names, if it can be read.
    fn open(&mut self, line: &[u8]) -> Step
        ensures opened { Obeys ScriptEdit.Open self.old.script self.new.script result }
        ensures same { (self.new.input ≡ self.old.input) × (self.new.cleans ≡ self.old.cleans) }
    {
        let Ok(Command::Open(name)) = read_command(line) else {
            return Step::Next;
        };
        let Some(text) = self.host.open(self.alloc, name) else {
            return Step::Next;
        };
        match script_of(self.alloc, &mut self.host, &text) {
            Ok(script) => {
                self.script = script;
                Step::Again
            }
            Err(fault) => {
                self.host.on_unopened(name, fault);
                Step::Next
            }
        }
    }

    // Does what a command asks for that changes no line.
    fn answer(&mut self, walk: &Walk, line: &[u8])
        ensures { (self.new.input ≡ self.old.input) × (self.new.script ≡ self.old.script)
            × (self.new.cleans ≡ self.old.cleans) }
    {
        let view = View {
            walk,
            script: &self.script,
            placement: self.placement,
        };
        self.host.on_command(&view, read_command(line));
    }

    // Does what a command asks for.
    fn obey(&mut self, walk: &Walk, line: &[u8]) -> Step
        ensures obeyed { Obeys (edit_of line.now) self.old.script self.new.script result }
        ensures same { (self.new.input ≡ self.old.input) × (self.new.cleans ≡ self.old.cleans) }
    {
        match edit_of(line) {
            ScriptEdit::Undo(count) => {
                self.script.undo(count);
                Step::Again
            }
            ScriptEdit::Reset => {
                self.script.clear();
                Step::Again
            }
            ScriptEdit::Open => self.open(line),
            ScriptEdit::Quit => Step::Quit,
            ScriptEdit::Stays => {
                self.answer(walk, line);
                Step::Next
            }
        }
    }

    // Reads the next line into `line`, and runs it, or does what it asks for.
    fn step<W: Write, C: Consumer>(
        &mut self,
        walk: &mut Walk,
        line: &mut LineBuffer,
        writer: &mut Watched<W>,
        consumer: &mut C,
    ) -> Result<Step, RunFault>
        requires { walk.old.number ≡ 1 + length self.old.script }
        ensures steps { (first : C) → StepsFrom R.remaining C.piece (C.knows first) self.old self.new
            (W.contents writer.old.inner) (W.contents writer.new.inner) walk.old walk.new
            consumer.old consumer.new result }
        ensures at_end { (self.old.input.ended ≡ true
            → IsAtEnd (R.remaining self.old.input.inner.inner))
            → self.new.input.ended ≡ true → IsAtEnd (R.remaining self.new.input.inner.inner) }
        ensures more { result ≡ Ok Step.Next → (self.old.input.count < self.new.input.count)
            × (self.new.input.count ≤ most_script_bytes + 1) }
        ensures cleans { self.new.cleans ≡ self.old.cleans }
        ensures ok { OnOk result ((self.new.input.inner.failed ≡ self.old.input.inner.failed)
            × (writer.new.failed ≡ writer.old.failed)) }
        ensures read { IsErrOf result RunFault.Read → self.new.input.inner.failed ≡ true }
        ensures write { IsErrOf result RunFault.Write → writer.new.failed ≡ true }
    {
        pass_on(writer)?;
        let has_line = self.await_line(line)?;
        if !has_line {
            return Ok(Step::Quit);
        }
        if is_command(line.bytes()) {
            Ok(self.obey(walk, line.bytes()))
        } else {
            self.accept(walk, line.bytes(), writer, consumer)
        }
    }

    // Reports that the job runs again.
    fn report_restart(&mut self)
        ensures { self.new ≡ self.old }
    {
        self.host.on_restart(self.script.count());
    }

    // Runs each line that is typed as soon as it arrives, until there is no more or the lines of the job change.
    fn run_typed<W: Write, C: Consumer>(
        &mut self,
        walk: &mut Walk,
        writer: &mut Watched<W>,
        consumer: &mut C,
    ) -> Result<JobStop, RunFault>
        requires { (first : C) × (unread : Option (List ℕ)) × (before : Option (List ℕ))
            × (lines : List (List ℕ)) × IsUnderWay C.piece (C.knows first) self.old.cleans unread
            (R.remaining self.old.input.inner.inner) before (W.contents writer.old.inner)
            self.old.input.ended lines self.old.script walk.old consumer.old }
        ensures stops { (first : C) → StopsFrom R.remaining C.piece (C.knows first) self.old self.new
            (W.contents writer.old.inner) (W.contents writer.new.inner) walk.old consumer.old
            consumer.new result }
        ensures fails { (first : C) → FailsFrom R.remaining C.piece (C.knows first) self.old self.new
            (W.contents writer.old.inner) (W.contents writer.new.inner) walk.old consumer.old
            consumer.new result }
        ensures at_end { (self.old.input.ended ≡ true
            → IsAtEnd (R.remaining self.old.input.inner.inner))
            → self.new.input.ended ≡ true → IsAtEnd (R.remaining self.new.input.inner.inner) }
        ensures cleans { self.new.cleans ≡ self.old.cleans }
        ensures ok { OnOk result ((self.new.input.inner.failed ≡ self.old.input.inner.failed)
            × (writer.new.failed ≡ writer.old.failed)) }
        ensures read { IsErrOf result RunFault.Read → self.new.input.inner.failed ≡ true }
        ensures write { IsErrOf result RunFault.Write → writer.new.failed ≡ true }
    {
        let mut line = LineBuffer::new();
        'typed: loop {
            match self.step(walk, &mut line, writer, consumer)? {
                Step::Next => {}
                Step::Again => {
                    self.report_restart();
                    return Ok(JobStop::Again);
                }
                Step::Quit => return end_job(walk, writer, consumer),
            }
        }
    }

    /// Runs the lines of the job, and then each line that is typed as soon as it arrives, until there is no more or the lines of
    /// the job change.
    pub fn run_job<W: Write, C: Consumer>(
        &mut self,
        writer: &mut Watched<W>,
        consumer: &mut C,
    ) -> Result<JobStop, RunFault>
        requires knows { (C.knows consumer.old).has consumer.old [] }
        // What is written is what the consumer writes for a run of the lines of the job, to which those are added that are typed and
        // have no fault. If they change otherwise, it is what it writes for those before.
        ensures stops { IfOk result (Stops C.piece (C.knows consumer.old) self.old.cleans
            (R.remaining self.old.input.inner.inner) (R.remaining self.new.input.inner.inner)
            (W.contents writer.old.inner) (W.contents writer.new.inner) self.new.input.ended
            self.old.script self.new.script consumer.new) }
        ensures fails { IfErr result (Fails C.piece (C.knows consumer.old) self.old.cleans
            (R.remaining self.old.input.inner.inner) (R.remaining self.new.input.inner.inner)
            (W.contents writer.old.inner) (W.contents writer.new.inner) self.new.input.count
            self.old.script consumer.new) }
        ensures at_end { (self.old.input.ended ≡ true
            → IsAtEnd (R.remaining self.old.input.inner.inner))
            → self.new.input.ended ≡ true → IsAtEnd (R.remaining self.new.input.inner.inner) }
        ensures cleans { self.new.cleans ≡ self.old.cleans }
        ensures ok { OnOk result ((self.new.input.inner.failed ≡ self.old.input.inner.failed)
            × (writer.new.failed ≡ writer.old.failed)) }
        ensures read { IsErrOf result RunFault.Read → self.new.input.inner.failed ≡ true }
        ensures write { IsErrOf result RunFault.Write → writer.new.failed ≡ true }
    {
        let mut walk = Walk::new(self.alloc, self.placement);
        let former = self.script.lines();
        let continues = replay(&mut walk, former, writer, consumer)?;
        if !continues {
            return Ok(JobStop::Ended(Outcome::ScriptFault));
        }
        self.run_typed(&mut walk, writer, consumer)
    }
}
