//! The list forms of macros, MF=L and SF=L, which the execute forms name by their labels.

use crate::held::Content;
use crate::known::KnownValues;
use assembler_operands::{MacroOperands, OpenCause, Unsaid};
use assembler_statements::SourceStatement;
use assembler_symbols::{in_register, inside};
use std::alloc::{AllocError, Global};

/// How a macro is written.
#[derive(Clone, Copy)]
pub enum MacroForm<'a> {
    /// As it is executed.
    Standard,
    /// As a list, which is executed elsewhere.
    List,
    /// As it is executed with the list of a label, or with one that a register points to which is not known.
    Execute(Option<&'a str>),
}

// Returns the label of the list that an execute form names: (E,label) or (E,(register)).
fn label_of<'a>(known: KnownValues<'a>, named: &'a str) -> Result<Option<&'a str>, AllocError> {
    if let Some(register) = in_register(known.alloc, known.symbols, named)? {
        return Ok(match known.held.register(register) {
            Some(Content::Place(symbol)) => Some(symbol.as_str()),
            _ => None,
        });
    }
    Ok(match named.split_once(',') {
        Some((label, _)) => Some(label),
        None => Some(named),
    })
}

// Returns what a form of a macro says: L or (L,..) a list, (E,..) a list that is executed.
fn form_of<'a>(known: KnownValues<'a>, form: &'a str) -> Result<MacroForm<'a>, AllocError> {
    if form == "L" || form.starts_with("(L,") {
        return Ok(MacroForm::List);
    }
    let Some(parts) = inside(form) else {
        return Ok(MacroForm::Standard);
    };
    match parts.strip_prefix("E,") {
        Some(named) => Ok(MacroForm::Execute(label_of(known, named)?)),
        None => Ok(MacroForm::Standard),
    }
}

/// Returns how a macro is written: what ATTACH says by SF, others say by MF. It fails if memory is exhausted.
pub fn how_written<'a>(
    known: KnownValues<'a>,
    statement: &'a SourceStatement,
) -> Result<MacroForm<'a>, AllocError> {
    let key = if statement.operation.starts_with("ATTACH") {
        "SF="
    } else {
        "MF="
    };
    for operand in statement.operands.iter() {
        if let Some(form) = operand.strip_prefix(key) {
            return form_of(known, form);
        }
    }
    Ok(MacroForm::Standard)
}

// Returns the list form of a macro that has a label.
fn list_form<'a>(
    statements: &'a [SourceStatement],
    operation: &str,
    label: &str,
) -> Option<&'a SourceStatement> {
    let family = operation.strip_suffix("X").unwrap_or(operation);
    for statement in statements {
        if statement.label.as_str() == label && statement.operation.starts_with(family) {
            return Some(statement);
        }
    }
    None
}

/// Returns the operands of a macro, over those of the list form that it executes, or why there are none.
pub fn operands_of(
    alloc: Global,
    statements: &[SourceStatement],
    statement: &SourceStatement,
    how: MacroForm<'_>,
) -> Result<MacroOperands, Unsaid> {
    let mut operands = MacroOperands::new(alloc);
    if let MacroForm::Execute(Some(label)) = how {
        match list_form(statements, &statement.operation, label) {
            Some(list) => operands.put(list)?,
            None if statement.operands.len() < 2 => {
                return Err(Unsaid::of(alloc, OpenCause::NoListForm, label));
            }
            None => {}
        }
    }
    operands.put(statement)?;
    Ok(operands)
}
