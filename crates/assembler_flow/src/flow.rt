//! How a program continues after a statement.

use crate::layout::Layout;
use crate::operations::{BranchKind, operation_of};
use assembler_statements::SourceStatement;
use assembler_symbols::{Symbols, is_symbol, number_of, register_of};
use std::alloc::{AllocError, Global};

/// The target of a branch.
#[derive(Clone, Copy)]
pub struct Target<'a> {
    /// The place among the statements.
    pub place: usize,
    /// The label there, or the operation of a structured macro.
    pub label: &'a str,
}

/// How a program continues after a statement.
#[derive(Clone, Copy)]
pub enum Flow<'a> {
    /// With the next statement.
    On,
    /// At another one, or also with the next one.
    Branch {
        to: Target<'a>,
        is_conditional: bool,
    },
    /// At a label that the source does not have, or also with the next one.
    Away {
        label: &'a str,
        is_conditional: bool,
    },
    /// At an address that is not known, or also with the next one.
    Unknown {
        is_conditional: bool,
    },
    /// In a routine, which returns by a register to the next statement.
    Call {
        to: Target<'a>,
        link: u8,
    },
    /// In a routine whose address is in a register.
    CallRegister {
        register: u8,
        link: u8,
    },
    /// At the address in a register, or also with the next statement.
    BranchRegister {
        register: u8,
        is_conditional: bool,
    },
    /// Where the routine was called, or nowhere if the statement is in none.
    Return,
    /// Nowhere: the task ends.
    End,
}

/// The register with the return address of a program.
pub const RETURN_ADDRESS: u8 = 14;

/// The register with the address of a program where it begins.
pub const ENTRY_ADDRESS: u8 = 15;

// Where the operands of a branch are: the symbols of its source, the places of labels, and its own place and statement.
#[derive(Clone, Copy)]
struct Branch<'a> {
    alloc: Global,
    symbols: &'a Symbols,
    layout: &'a Layout,
    place: usize,
    statement: &'a SourceStatement,
}

// Returns the register of an address that is nothing but an offset and a register, as `4(,14)`, `0(14)` or `START-PROG(,15)`.
fn based(operand: &str) -> Option<&str> {
    let (offset, rest) = operand.split_once('(')?;
    let is_number = offset.chars().all(|letter| letter.is_ascii_digit());
    if !is_number && !offset.contains('-') {
        return None;
    }
    let inside = rest.strip_suffix(")")?;
    Some(inside.strip_prefix(",").unwrap_or(inside))
}

impl<'a> Branch<'a> {
    // Returns an operand, an empty text if there is none.
    fn operand(self, place: usize) -> &'a str {
        match self.statement.operands.get(place) {
            Some(operand) => operand.as_str(),
            None => "",
        }
    }

    // Returns the register that an operand is.
    fn register(self, operand: &str) -> Result<Option<u8>, AllocError> {
        register_of(self.alloc, self.symbols, operand)
    }

    // Returns the flow of a branch to the address in a register.
    fn to_register(self, operand: &str, is_conditional: bool) -> Result<Flow<'a>, AllocError> {
        Ok(match self.register(operand)? {
            Some(register) if register > 0 => Flow::BranchRegister {
                register,
                is_conditional,
            },
            _ => Flow::On,
        })
    }

    // Returns the flow of a branch to a place.
    fn to_place(self, operand: &'a str, is_conditional: bool) -> Result<Flow<'a>, AllocError> {
        if let Some(to) = self.layout.target(operand) {
            return Ok(Flow::Branch { to, is_conditional });
        }
        if is_symbol(operand) {
            return Ok(Flow::Away {
                label: operand,
                is_conditional,
            });
        }
        if let Some(to) = self.layout.relative(self.place, operand) {
            return Ok(Flow::Branch { to, is_conditional });
        }
        match based(operand) {
            Some(register) => self.to_register(register, is_conditional),
            None => Ok(Flow::Unknown { is_conditional }),
        }
    }

    // Returns whether a mask is one, and if so whether it is conditional; None if the branch is never taken.
    fn mask(self) -> Result<Option<bool>, AllocError> {
        Ok(
            match number_of(self.alloc, self.symbols, self.operand(0))? {
                Some(0) => None,
                Some(15) => Some(false),
                _ => Some(true),
            },
        )
    }

    // Returns the flow of a branch under a mask.
    fn masked(self, is_register: bool) -> Result<Flow<'a>, AllocError> {
        let Some(is_conditional) = self.mask()? else {
            return Ok(Flow::On);
        };
        if is_register {
            self.to_register(self.operand(1), is_conditional)
        } else {
            self.to_place(self.operand(1), is_conditional)
        }
    }

    // Returns the flow of a call of a routine by its label.
    fn call(self, label: &'a str, link: Option<u8>) -> Flow<'a> {
        match (self.layout.target(label), link) {
            (Some(to), Some(link)) => Flow::Call { to, link },
            _ => Flow::On,
        }
    }

    // Returns the flow of a call of a routine whose address is in a register.
    fn call_register(self) -> Result<Flow<'a>, AllocError> {
        let link = self.register(self.operand(0))?;
        let register = self.register(self.operand(1))?;
        Ok(match (link, register) {
            (Some(link), Some(register)) if register > 0 => Flow::CallRegister { register, link },
            _ => Flow::On,
        })
    }

    // Returns whether the statement is the system call that ends a program.
    fn is_exit(self) -> Result<bool, AllocError> {
        Ok(number_of(self.alloc, self.symbols, self.operand(0))? == Some(3))
    }

    fn flow(self) -> Result<Flow<'a>, AllocError> {
        let last = match self.statement.operands.last() {
            Some(operand) => operand.as_str(),
            None => "",
        };
        match operation_of(&self.statement.operation) {
            BranchKind::Branch { is_conditional } => self.to_place(last, is_conditional),
            BranchKind::BranchRegister { is_conditional } => self.to_register(last, is_conditional),
            BranchKind::Masked => self.masked(false),
            BranchKind::MaskedRegister => self.masked(true),
            BranchKind::Call => Ok(self.call(self.operand(1), self.register(self.operand(0))?)),
            BranchKind::CallRegister => self.call_register(),
            BranchKind::CallMacro => Ok(self.call(self.operand(0), Some(RETURN_ADDRESS))),
            BranchKind::Return => Ok(Flow::Return),
            BranchKind::Abend => Ok(Flow::End),
            BranchKind::Svc if self.is_exit()? => Ok(Flow::End),
            BranchKind::Svc | BranchKind::Other => Ok(Flow::On),
        }
    }
}

/// Returns how a program continues after the statement at a place. It fails if memory is exhausted.
pub fn flow_of<'a>(
    alloc: Global,
    symbols: &'a Symbols,
    layout: &'a Layout,
    place: usize,
    statement: &'a SourceStatement,
) -> Result<Flow<'a>, AllocError> {
    if let Some(flow) = layout.structured(place) {
        return Ok(flow);
    }
    let branch = Branch {
        alloc,
        symbols,
        layout,
        place,
        statement,
    };
    branch.flow()
}
