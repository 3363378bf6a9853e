//! The line whose fault ends a job.

ghost use Rattle.std.specs.Prelude.{◌≡◌, ◌≤◌, ◌<◌, ◌+◌, ◌^◌, [], ℕ, Bool, List, length};
ghost use Rattle.mvs_model.specs.Answers.{Event};
ghost use Rattle.mvs_model.specs.Lines.{lines_of};
ghost use Rattle.mvs_model.specs.Numbers.{most_script_bytes};
ghost use Rattle.mvs_model.specs.Reading.{LineOf, is_blank_or_comment};
ghost use Rattle.mvs_model.specs.Runs.{IsRun};
ghost use Rattle.mvsjob.specs.FaultyLine.{EndsAt, IsFirstFault, IsLineOf};

use job_script::read_line;
use mvs_job::line_end;
use mvs_laws::laws::same_fault;
use mvs_model::line::{Fault, Line};
use mvs_model::outcome::Outcome;

/// A line with a fault, and its number. For a script without a statement the line is empty, and its number is the one after the
/// last.
#[derive(Clone, Copy)]
pub struct FaultyLine<'a> {
    pub number: u32,
    pub line: &'a [u8],
    pub fault: Fault,
}

impl FaultyLine<'_> {
    /// Returns the fault of a script without a statement, if the line after the last has this number.
    pub fn after(number: u32) -> FaultyLine<'static>
        ensures number { result.number ≡ number }
        ensures line { result.line.now ≡ [] }
        ensures fault { result.fault ≡ Fault.OutOfPlace }
    {
        FaultyLine {
            number,
            line: &[],
            fault: Fault::OutOfPlace,
        }
    }
}

/// Returns whether a line says nothing that says this.
pub fn is_blank_or_comment(read: &Line) -> bool
    ensures { (first : Bool) (bytes : List ℕ) → LineOf first bytes read.now
        → result ≡ is_blank_or_comment bytes }
{
    match read {
        Line::Nothing => true,
        Line::Statement(..) => false,
    }
}

// Returns the number of the line after n lines, from the number of the first.
fn number_after(number: u32, passed: usize) -> u32
    ensures { number + passed < 2 ^ 32 → result ≡ number + passed }
{
    if passed <= (u32::MAX - number) as usize {
        number + passed as u32
    } else {
        u32::MAX
    }
}

/// Returns the first line of a text with a fault. The first line of the text has this number, and `first` is true if no statement
/// comes before it.
pub fn first_faulty(text: &[u8], number: u32, first: bool) -> FaultyLine<'_>
    ensures fault { number + length text.now + 1 < 2 ^ 32
        → IsFirstFault number first (lines_of text.now) result.number result.fault }
    ensures line { number + length text.now + 1 < 2 ^ 32
        → IsLineOf number (lines_of text.now) result.number result.line.now }
{
    let mut read = Line::Nothing;
    let mut at = 0;
    let mut passed = 0;
    let mut is_first = first;
    'lines: while at < text.len() {
        let rest = &text[at..];
        let end = line_end(rest);
        let line = &rest[..end];
        if let Err(fault) = read_line(line, is_first, &mut read) {
            return FaultyLine {
                number: number_after(number, passed),
                line,
                fault,
            };
        }
        is_first &= is_blank_or_comment(&read);
        passed += 1;
        at += end + 1;
    }
    FaultyLine {
        number: number_after(number, passed),
        line: &[],
        fault: Fault::OutOfPlace,
    }
}

/// Returns the line whose fault ends the runs of a script that end with one.
pub fn faulty_in(script: &[u8]) -> FaultyLine<'_>
    requires { length script.now ≤ most_script_bytes }
    // If a run of the script ends with a fault, that is its last event.
    ensures ended { (events : List Event) → IsRun script.now events Outcome.ScriptFault
        → EndsAt result.number result.fault events }
    ensures line { IsLineOf 1 (lines_of script.now) result.number result.line.now }
{
    same_fault();
    first_faulty(script, 1, true)
}
