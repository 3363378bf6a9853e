//! Whether an output goes on as a REPORT SP does, whatever the numbers are.

ghost use Rattle.std.specs.Prelude.{◌≡◌, ◌++◌, List, ℕ, true};
ghost use Rattle.mvs_model.specs.Reading.{is_digit};
ghost use Rattle.judge.specs.Reporting.{DiffersInReport, undigited};

use mvs_model::line::{Line, Statement};

// Returns whether a byte is a decimal digit.
fn is_digit(byte: u8) -> bool
    ensures { result ≡ is_digit byte }
{
    byte.is_ascii_digit()
}

// Returns whether a text does not begin as another one does, where digits do not count.
fn differs(text: &[u8], front: &[u8]) -> bool
    ensures { result ≡ true
        → (rest : List ℕ) → undigited text.now ≡ undigited front.now ++ rest → ⊥ }
{
    let mut at = 0;
    let mut done = 0;
    'bytes: while at < text.len() && done < front.len() {
        if is_digit(text[at]) {
            at += 1;
        } else if is_digit(front[done]) {
            done += 1;
        } else if text[at] == front[done] {
            at += 1;
            done += 1;
        } else {
            return true;
        }
    }
    false
}

/// Returns whether a line is a REPORT SP, and an output does not go on as what it prints in a run, whatever the numbers are.
pub fn differs_in_report(read: &Line, printed: &[u8], left: &[u8]) -> bool
    ensures { result ≡ true → DiffersInReport read.now printed.now left.now }
{
    match read {
        Line::Statement(_, Statement::ReportSubpools) => differs(left, printed),
        Line::Statement(
            _,
            Statement::Request(_)
            | Statement::Where(_)
            | Statement::ReportMap
            | Statement::Region { .. },
        ) => false,
        Line::Nothing => false,
    }
}
