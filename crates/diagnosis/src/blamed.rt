//! The operand of a line that is to blame.

ghost use Rattle.std.specs.Prelude.{◌≡◌, ◌≤◌, Some, flat_map, length, IfSome, MatchOption};
ghost use Rattle.mvs_model.specs.declared.line.Fault.{Fault as LineFault};
ghost use Rattle.mvs_model.specs.Grammar as grammar;
ghost use Rattle.mvs_model.specs.Reading.{operands_after_form, first_of, operand_checks, operands_of, operation_in, row_of, with_left};
ghost use Rattle.job_script.specs.Rows.{row_at};
ghost use Rattle.diagnosis.specs.Blame.{AreWithin, IsOperandBlamed};

use crate::columns::Columns;
use crate::operands::operands_in;
use crate::refused::{first_refused, part_of};
use job_script::kinds::Kind;
use job_script::rows::Row;
use mvs_model::line::Fault;

/// An operand that its row does not take, where it begins in its line, what is wrong with it, and the columns that are to blame.
#[derive(Clone, Copy)]
pub struct OperandError<'a> {
    pub row: Row,
    pub at: usize,
    pub operand: &'a [u8],
    pub fault: Fault,
    /// Returns the kind of a positional operand at this position.
    pub expected: Option<Kind>,
    pub columns: Columns,
}

/// Returns the first operand of a line that its row does not take.
pub fn blamed_operand(line: &[u8]) -> Option<OperandError<'_>>
    ensures blamed { (row : grammar.Row) (fault : LineFault)
        → row_of (operation_in line.now) (operands_of line.now) ≡ Some row
        → first_of
        (flat_map (operand_checks row) (with_left (operands_after_form row (operands_of line.now))))
        ≡ Some fault
        → MatchOption result ⊥
        (λ b. (row_at b.row ≡ row) × (b.fault ≡ fault)
        × IsOperandBlamed row line.now fault b.columns) }
    ensures within { IfSome result (λ b. 1 ≤ length line.now → AreWithin line.now b.columns) }
{
    let Some(operands) = operands_in(line) else {
        return None;
    };
    let Some(refused) = first_refused(operands.row, operands.text) else {
        return None;
    };
    let (from, count) = part_of(operands.row, refused.fault, refused.operand);
    let at = operands.at + refused.at;
    Some(OperandError {
        row: operands.row,
        at,
        operand: refused.operand,
        fault: refused.fault,
        expected: refused.expected,
        columns: Columns::of(line, at + from, count),
    })
}
