//! What is known where a statement is.

use crate::held::Held;
use assembler_statements::SourceStatement;
use assembler_symbols::Symbols;
use std::alloc::Global;

/// What is known where a statement is.
#[derive(Clone, Copy)]
pub struct KnownValues<'a> {
    pub alloc: Global,
    pub symbols: &'a Symbols,
    pub held: &'a Held,
    /// The statement.
    pub statement: &'a SourceStatement,
    /// How often the statement was executed, this time among them.
    pub time: u32,
    /// The statements after it.
    pub following: &'a [SourceStatement],
}
