//! Reads assembler source, or a listing of it, as statements: label, operation and operands, with the lines that continue them.
#![tactic(auto)]

mod lines;
mod listing;
mod quotes;
mod statements;

pub use crate::quotes::is_of_symbol;
pub use crate::statements::{
    CopyMember, SourceStatement, copied_members, read_statements, separated,
};
