//! What a pool is made by.

use mvs_model::bounded::{CellCount, CellSize};
use mvs_model::want::Side;
use std::marker::Model;

/// The operands of CPOOL BUILD: the size of a cell in bytes, the numbers of cells of the first part and of each further one, and
/// the side of the parts (Assembler Services Reference, CPOOL).
#[derive(Clone, Copy, Debug, PartialEq, Eq)]
pub struct Plan {
    pub cell_size: CellSize,
    pub primary: CellCount,
    pub secondary: CellCount,
    pub side: Side,
}

impl Model for Plan {
    ghost use Rattle.mvs_model.specs.Requests.{Plan as PlanValue};

    ghost Value = { PlanValue };

    ghost view = { λ p. record { cell_size = p.cell_size; primary = p.primary; secondary = p.secondary; side = p.side } };

    ghost inverse = { λ v. record { cell_size = v.cell_size; primary = v.primary; secondary = v.secondary; side = v.side } };
}
