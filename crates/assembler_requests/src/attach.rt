//! ATTACH and ATTACHX.

use crate::request::MacroRequest;
use assembler_operands::{Keys, NoName, OpenCause, SymbolNames, Unsaid};
use assembler_symbols::is_symbol;
use std::alloc::{AllocError, Global};
use std::collections::BTreeSet;
use std::fmt::Write;

const KEYS: Keys = Keys {
    said: &[
        "EP", "EPLOC", "DE", "GSPV", "GSPL", "SHSPV", "SHSPL", "SZERO",
    ],
    left: &[
        "MF",
        "SF",
        "RELATED",
        "DCB",
        "PARAM",
        "VL",
        "ECB",
        "ETXR",
        "LPMOD",
        "DPMOD",
        "ALCOPY",
        "TASKLIB",
        "STAI",
        "ESTAI",
        "PURGE",
        "ASYNCH",
        "TERM",
        "HIARCHY",
        "ROUND",
        "SDWALOC31",
        "PLIST4",
        "PLIST8",
        "PLIST8ARALETS",
    ],
    authorized: &[
        "JSTCB", "SM", "SVAREA", "KEY", "DISP", "TID", "NSHSPV", "NSHSPL", "GIVEJPQ", "RSAPF",
    ],
};

/// A task that a request attaches, and its program.
#[derive(Drop)]
pub struct Attached {
    pub task: String,
    pub program: String,
}

/// The names that were given, and the programs that have been attached, the first one among them.
#[derive(Drop)]
pub struct GivenNames {
    pub names: SymbolNames,
    attached: BTreeSet<String>,
}

impl GivenNames {
    /// Returns what is given where the first program begins. It fails if memory is exhausted.
    pub fn new(alloc: Global, first: &str) -> Result<GivenNames, AllocError> {
        let mut attached = BTreeSet::new(alloc);
        attached.insert(String::from_str(alloc, first)?)?;
        Ok(GivenNames {
            names: SymbolNames::new(alloc),
            attached,
        })
    }

    // Returns the task of a program that is attached: called as the program the first time, and else with a number.
    fn task(&mut self, alloc: Global, program: &str) -> Result<String, NoName> {
        if self.attached.insert(String::from_str(alloc, program)?)? {
            self.names.of_task(program)
        } else {
            self.names.new_name(program)
        }
    }
}

// Appends a keyword with a list of numbers. It fails if memory is exhausted.
fn put_bytes(text: &mut String, key: &str, numbers: &[u8]) -> Result<(), AllocError> {
    write!(text, ",{key}=(")?;
    for (place, number) in numbers.iter().enumerate() {
        let comma = if place > 0 { "," } else { "" };
        write!(text, "{comma}{number}")?;
    }
    write!(text, ")")
}

impl<'a> MacroRequest<'a> {
    // Returns the name that is at a symbol, if it is one of a program.
    fn name_at(self, symbol: &str) -> Option<&'a str> {
        let name = self
            .known
            .symbols
            .get(symbol)?
            .characters
            .as_ref()?
            .as_str();
        if is_symbol(name) { Some(name) } else { None }
    }

    // Returns the name of the program at the address of a key.
    fn program_at(self, key: &str, address: &'a str) -> Result<&'a str, Unsaid> {
        let symbol = self.known.symbol_at(key, address)?;
        self.name_at(symbol)
            .ok_or_else(|| self.refusal(OpenCause::NoWord, key, address))
    }

    /// Returns the name of the program that an operand means, which is written or is at an address.
    pub fn program(self) -> Result<&'a str, Unsaid> {
        if let Some(name) = self.operands.get("EP") {
            if is_symbol(name) {
                return Ok(name);
            }
            return Err(self.refusal(OpenCause::NoWord, "EP", name));
        }
        for key in ["EPLOC", "DE"] {
            if let Some(address) = self.operands.get(key) {
                return self.program_at(key, address);
            }
        }
        Err(Unsaid::of(self.known.alloc, OpenCause::Missing, "EP"))
    }

    // Appends the subpools of a list, if the key is written.
    fn put_list_of_subpools(self, text: &mut String, key: &str) -> Result<(), Unsaid> {
        if let Some(address) = self.operands.get(key) {
            put_bytes(text, key, self.known.byte_list(key, address)?)?;
        }
        Ok(())
    }

    // Appends the subpools that are given and shared.
    fn put_presents(self, text: &mut String) -> Result<(), Unsaid> {
        self.put_number(text, "GSPV")?;
        self.put_list_of_subpools(text, "GSPL")?;
        self.put_number(text, "SHSPV")?;
        self.put_list_of_subpools(text, "SHSPL")?;
        Ok(self.put_written(text, "SZERO")?)
    }

    /// Converts ATTACH and ATTACHX to a statement, and returns the task that is attached.
    pub fn attach(self, given: &mut GivenNames, text: &mut String) -> Result<Attached, Unsaid> {
        self.operands.check(&KEYS)?;
        let program = self.program()?;
        let mut rest = String::new(self.known.alloc);
        self.put_presents(&mut rest)?;
        let task = given.task(self.known.alloc, program)?;
        write!(text, "ATTACH TASK={task}{rest}")?;
        Ok(Attached {
            task,
            program: String::from_str(self.known.alloc, program)?,
        })
    }
}
