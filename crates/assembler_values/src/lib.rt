//! What is known where a statement of a source is: what registers and words hold, and what the operands of a macro are there.
#![tactic(auto)]

mod effects;
mod held;
mod known;
mod list_forms;
mod loss;
mod macros;
mod values;

pub use crate::effects::{execute, execute_branch};
pub use crate::held::{Comes, Content, Held, Registers};
pub use crate::known::KnownValues;
pub use crate::list_forms::{MacroForm, how_written, operands_of};
pub use crate::macros::{Macro, macro_of};
pub use crate::values::{put_number, put_numbers};
