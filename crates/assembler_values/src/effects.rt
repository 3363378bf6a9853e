//! What an instruction does to what registers and words hold.

use crate::held::{Content, Held};
use assembler_statements::{SourceStatement, is_of_symbol};
use assembler_symbols::{Symbols, inside, is_symbol, literal_number, number_of, register_of};
use std::alloc::{AllocError, Global};

// What an instruction does.
#[derive(Clone, Copy, PartialEq, Eq)]
enum Does {
    LoadsWord,
    LoadsAddress,
    Copies,
    Clears,
    Stores,
    LoadsSeveral,
    Calls,
    Compares,
    Other,
}

// Instructions by what they do.
const EFFECTS: &[(Does, &[&str])] = &[
    (Does::LoadsWord, &["L", "LY", "LH", "LRL"]),
    (
        Does::LoadsAddress,
        &["LA", "LAY", "LARL", "LHI", "LGHI", "LGFI", "IILF", "LLILF"],
    ),
    (Does::Copies, &["LR", "LTR", "LGR", "LTGR"]),
    (Does::Clears, &["SR", "XR", "SLR", "SGR", "XGR"]),
    (Does::Stores, &["ST", "STY"]),
    (Does::LoadsSeveral, &["LM", "LMG", "LMY"]),
    (Does::Calls, CALLS),
    (Does::Compares, LEAVES),
];

// Instructions and macros after which registers hold what another program left.
const CALLS: &[&str] = &[
    "BAL", "BALR", "BAS", "BASR", "BRAS", "BRASL", "JAS", "JASL", "BASSM", "SVC", "PC", "CALL",
    "LINK", "LINKX", "LOAD", "WAIT", "POST", "WTO", "WTOR", "ENQ", "DEQ", "OPEN", "CLOSE", "GET",
    "PUT", "READ", "WRITE", "CHECK", "TIME", "ESTAE", "CHAP",
];

// Those that leave registers and words as they are.
const LEAVES: &[&str] = &[
    "C", "CR", "CH", "CL", "CLR", "CHI", "CFI", "CLFI", "CG", "CGR", "TM", "CLI", "CLC", "CLM",
    "CLCL", "STM", "STMG", "STH", "STC", "STCM", "STG", "NOP", "NOPR", "BC", "BCR", "BR", "USING",
    "DROP", "EQU", "DC", "DS", "TMLL",
];

// With what a branch begins that counts.
const COUNTING: &[&str] = &["BCT", "BRCT", "JCT", "BX", "BRX", "JX"];

fn effect_of(operation: &str) -> Does {
    for (effect, operations) in EFFECTS {
        if operations.contains(&operation) {
            return *effect;
        }
    }
    Does::Other
}

// Returns the symbol with which an operand begins.
fn first_symbol(operand: &str) -> &str {
    let rest = operand.trim_start_matches(|letter: char| is_of_symbol(letter));
    operand.strip_suffix(rest).unwrap_or("")
}

// An instruction where it is executed: the symbols of its source, and its statement.
#[derive(Clone, Copy)]
struct Instruction<'a> {
    alloc: Global,
    symbols: &'a Symbols,
    statement: &'a SourceStatement,
}

// Returns the symbol whose address a literal is: `A(symbol)` or `V(symbol)`.
fn addressed(literal: &str) -> Option<&str> {
    let kind = literal.strip_prefix("A").or(literal.strip_prefix("V"))?;
    let symbol = inside(kind)?;
    if is_symbol(symbol) {
        Some(symbol)
    } else {
        None
    }
}

impl Instruction<'_> {
    fn register_of(self, operand: &str) -> Result<Option<u8>, AllocError> {
        register_of(self.alloc, self.symbols, operand)
    }

    // Loads a register with the address of a symbol.
    fn load_place(self, held: &mut Held, register: u8, symbol: &str) -> Result<(), AllocError> {
        let symbol = String::from_str(self.alloc, symbol)?;
        held.set(register, Content::Place(symbol))
    }

    // Loads a register with a literal.
    fn load_literal(self, held: &mut Held, register: u8, literal: &str) -> Result<(), AllocError> {
        if let Some(value) = literal_number(self.alloc, self.symbols, literal)? {
            if let Some(number) = value.number() {
                return held.set(register, Content::Number(number));
            }
        }
        match addressed(literal) {
            Some(symbol) => self.load_place(held, register, symbol),
            None => held.lose(register, self.statement),
        }
    }

    // Loads a register with what an operand holds.
    fn load_word(self, held: &mut Held, register: u8, operand: &str) -> Result<(), AllocError> {
        if let Some(literal) = operand.strip_prefix("=") {
            return self.load_literal(held, register, literal);
        }
        if is_symbol(operand) {
            return held.load(register, operand);
        }
        held.lose(register, self.statement)
    }

    // Loads a register with a number or with the address of a symbol.
    fn load_address(self, held: &mut Held, register: u8, operand: &str) -> Result<(), AllocError> {
        if let Some(literal) = operand.strip_prefix("=") {
            return self.load_literal(held, register, literal);
        }
        if let Some(number) = number_of(self.alloc, self.symbols, operand)? {
            return held.set(register, Content::Number(number));
        }
        if is_symbol(operand) {
            return self.load_place(held, register, operand);
        }
        held.lose(register, self.statement)
    }

    // Loads a register with what another one holds.
    fn copy(self, held: &mut Held, register: u8, operand: &str) -> Result<(), AllocError> {
        match self.register_of(operand)? {
            Some(from) => held.copy(register, from),
            None => held.lose(register, self.statement),
        }
    }

    // Subtracts an operand from a register: from itself, that is 0.
    fn clear(self, held: &mut Held, register: u8, operand: &str) -> Result<(), AllocError> {
        if self.register_of(operand)? == Some(register) {
            return held.set(register, Content::Number(0));
        }
        held.lose(register, self.statement)
    }

    // Stores a register in a word.
    fn store(self, held: &mut Held, register: u8, operand: &str) -> Result<(), AllocError> {
        if is_symbol(operand) {
            return held.store(operand, register, self.statement);
        }
        Ok(())
    }

    // Executes an instruction with a register and something else.
    fn execute_pair(
        self,
        held: &mut Held,
        what: Does,
        register: u8,
        operand: &str,
    ) -> Result<(), AllocError> {
        match what {
            Does::LoadsWord => self.load_word(held, register, operand),
            Does::LoadsAddress => self.load_address(held, register, operand),
            Does::Stores => self.store(held, register, operand),
            Does::Compares => Ok(()),
            Does::Copies => self.copy(held, register, operand),
            Does::Clears => self.clear(held, register, operand),
            Does::LoadsSeveral | Does::Calls | Does::Other => held.lose(register, self.statement),
        }
    }

    // Executes an instruction whose first operand is no register.
    fn execute_storing(self, held: &mut Held, what: Does, first: &str) -> Result<(), AllocError> {
        let symbol = first_symbol(first);
        if what == Does::Other && !symbol.is_empty() {
            return held.change(symbol, self.statement);
        }
        Ok(())
    }

    // Executes an instruction whose first operand is written to.
    fn execute_other(self, held: &mut Held, what: Does) -> Result<(), AllocError> {
        let [first, rest @ ..] = self.statement.operands.as_slice() else {
            return Ok(());
        };
        let Some(register) = self.register_of(first)? else {
            return self.execute_storing(held, what, first);
        };
        match rest {
            [second] => self.execute_pair(held, what, register, second),
            _ if what == Does::Compares => Ok(()),
            _ => held.lose(register, self.statement),
        }
    }

    // Loads the registers from one on to another, as LM does.
    fn load_several(self, held: &mut Held) -> Result<(), AllocError> {
        let [from, to, ..] = self.statement.operands.as_slice() else {
            return Ok(());
        };
        if let (Some(from), Some(to)) = (self.register_of(from)?, self.register_of(to)?) {
            held.lose_between(from, to, self.statement)?;
        }
        Ok(())
    }
}

/// Executes a statement that is neither a request nor a branch. It fails if memory is exhausted.
pub fn execute(
    alloc: Global,
    symbols: &Symbols,
    held: &mut Held,
    statement: &SourceStatement,
) -> Result<(), AllocError> {
    let instruction = Instruction {
        alloc,
        symbols,
        statement,
    };
    let what = effect_of(&statement.operation);
    if what == Does::Calls || what == Does::Other && statement.operation.len() > 5 {
        held.call(statement)?;
    }
    match what {
        Does::LoadsSeveral => instruction.load_several(held),
        Does::Calls => Ok(()),
        Does::LoadsWord
        | Does::LoadsAddress
        | Does::Copies
        | Does::Clears
        | Does::Stores
        | Does::Compares
        | Does::Other => instruction.execute_other(held, what),
    }
}

/// Executes a branch: those that count set the register that is their first operand. It fails if memory is exhausted.
pub fn execute_branch(
    alloc: Global,
    symbols: &Symbols,
    held: &mut Held,
    statement: &SourceStatement,
) -> Result<(), AllocError> {
    let is_counting = COUNTING
        .iter()
        .any(|count| statement.operation.starts_with(*count));
    match statement.operands.first() {
        Some(operand) if is_counting => match register_of(alloc, symbols, operand)? {
            Some(register) => held.lose(register, statement),
            None => Ok(()),
        },
        _ => Ok(()),
    }
}
