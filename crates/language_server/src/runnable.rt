//! The script that is run of a text: its lines, those with a fault empty.

ghost use Rattle.std.specs.Prelude.{◌≡◌, ◌<◌, ◌+◌, ◌&&◌, ◌++◌, ◌∷◌, ◌^◌, [], IfOk, OnOk, Some, length, true};
ghost use Rattle.mvs_model.specs.Lines.{lines_of};
ghost use Rattle.language_server.specs.Runnable.{faults_from, is_first_after, executed_text, line_fault, onto_faults, is_blank, without_faults};

use job_script::read_line;
use job_script::split_once::split_once;
use mvs_model::line::{Fault, Line};
use std::alloc::{AllocError, Global};

/// A line with a fault, by the number of the lines before it.
#[derive(Clone, Copy, Debug, PartialEq, Eq)]
pub struct FaultAt {
    pub line: usize,
    pub fault: Fault,
}

/// The script that is run of a text, and the faults of the text.
#[derive(Drop)]
pub struct Runnable {
    pub script: Vec<u8>,
    pub faults: Vec<FaultAt>,
}

// Returns whether a line is blank or a comment.
fn is_blank(said: &Line) -> bool
    ensures { result ≡ is_blank (Some said.now) }
{
    match said {
        Line::Nothing => true,
        Line::Statement(..) => false,
    }
}

// Returns whether no statement came before the next line, after a line without a fault.
fn stays_first(first: bool, said: &Line) -> bool
    ensures { result ≡ first && is_blank (Some said.now) }
{
    first && is_blank(said)
}

// Reads a line, and returns its fault, if it has one. `first` is whether no statement came before it, and then before the next line.
fn read(line: &[u8], first: &mut bool, said: &mut Line) -> Option<Fault>
    ensures fault { result ≡ line_fault first.old line.now }
    ensures first { first.new ≡ is_first_after first.old line.now }
{
    match read_line(line, *first, said) {
        Ok(()) => {
            *first = stays_first(*first, said);
            None
        }
        Err(fault) => Some(fault),
    }
}

impl Runnable {
    // Adds a line with its number, and its fault, if it has one.
    fn add(&mut self, line: &[u8], number: usize, fault: Option<Fault>) -> Result<(), AllocError>
        ensures script { OnOk result
            (self.new.script.items ≡ self.old.script.items ++ executed_text fault line.now ++ 10 ∷ []) }
        ensures faults { OnOk result
            (self.new.faults.items ≡ self.old.faults.items ++ onto_faults number fault []) }
    {
        match fault {
            None => self.script.extend_from_slice(line)?,
            Some(fault) => self.faults.push(FaultAt {
                line: number,
                fault,
            })?,
        }
        self.script.push(b'\n')?;
        Ok(())
    }
}

/// Returns the script that is run of a text.
pub fn without_faults(alloc: Global, text: &[u8]) -> Result<Runnable, AllocError>
    requires { length text.now < 2 ^ 32 }
    ensures script { IfOk result (λ run. run.script.items ≡ without_faults text.now) }
    ensures faults { IfOk result
        (λ run. run.faults.items ≡ faults_from 0 true (lines_of text.now)) }
{
    let mut run = Runnable {
        script: Vec::new(alloc),
        faults: Vec::new(alloc),
    };
    let mut said = Line::Nothing;
    let mut first = true;
    let mut number = 0;
    let mut rest = text;
    'lines: while !rest.is_empty() {
        let (line, more) = split_once(rest, b'\n');
        let fault = read(line, &mut first, &mut said);
        run.add(line, number, fault)?;
        number += 1;
        rest = more.unwrap_or(&[]);
    }
    Ok(run)
}
