//! The symbols that a source defines by EQU, DC, DS and labels.

use crate::calculation::{Value, value_of};
use crate::constant::Constant;
use assembler_statements::SourceStatement;
use std::alloc::{AllocError, Global};
use std::collections::BTreeMap;

/// What is known of a symbol.
#[derive(Drop)]
pub struct Symbol {
    pub value: Option<Value>,
    pub length: u32,
    /// The bytes that are there, as far as they are plain.
    pub bytes: Vec<u8>,
    /// The characters that are there, if they are some.
    pub characters: Option<String>,
}

/// The symbols of a source, and the place up to which it was read.
#[derive(Drop)]
pub struct Symbols {
    table: BTreeMap<String, Symbol>,
    /// The run of data of the place, and the bytes before it.
    run: u32,
    offset: i64,
    /// The symbol to whose bytes further ones belong.
    growing: Option<String>,
}

// What an operation does to the place.
#[derive(Clone, Copy)]
enum Effect {
    Equates,
    Defines,
    Nothing,
    Breaks,
}

// Statements that leave the place where it is.
const LEAVES: &[&str] = &[
    "TITLE", "EJECT", "SPACE", "PRINT", "USING", "DROP", "PUSH", "POP", "AMODE", "RMODE", "ENTRY",
    "EXTRN", "WXTRN", "MNOTE",
];

// Statements that begin a section, at the run of data that they begin.
const SECTIONS: &[&str] = &["CSECT", "DSECT", "RSECT", "START"];

fn effect_of(operation: &str) -> Effect {
    match operation {
        "EQU" => Effect::Equates,
        "DC" | "DS" => Effect::Defines,
        _ if LEAVES.contains(&operation) => Effect::Nothing,
        _ => Effect::Breaks,
    }
}

impl Symbols {
    fn new(alloc: Global) -> Symbols {
        Symbols {
            table: BTreeMap::new(alloc),
            run: 1,
            offset: 0,
            growing: None,
        }
    }

    /// Returns what is known of a symbol, if the source defines it.
    pub fn get(&self, name: &str) -> Option<&Symbol> {
        self.table.get(name)
    }

    // Returns the place up to which the source was read.
    fn here(&self) -> Value {
        Value {
            run: self.run,
            number: self.offset,
        }
    }

    // Begins a run of data.
    fn break_off(&mut self) {
        self.run = self.run.saturating_add(1);
        self.offset = 0;
        self.growing = None;
    }

    // Defines a symbol without data, if there is a label.
    fn define(
        &mut self,
        alloc: Global,
        label: &str,
        value: Option<Value>,
        length: u32,
    ) -> Result<(), AllocError> {
        if label.is_empty() {
            return Ok(());
        }
        let symbol = Symbol {
            value,
            length,
            bytes: Vec::new(alloc),
            characters: None,
        };
        self.table.insert(String::from_str(alloc, label)?, symbol)?;
        Ok(())
    }

    fn equate(&mut self, alloc: Global, statement: &SourceStatement) -> Result<(), AllocError> {
        let text = match statement.operands.first() {
            Some(operand) => operand.as_str(),
            None => "",
        };
        let value = value_of(alloc, self, Some(self.here()), text)?;
        self.define(alloc, &statement.label, value, 1)
    }

    // Continues to a boundary.
    fn align(&mut self, boundary: u32) {
        let boundary = i64::from(boundary.max(1));
        let over = self.offset.checked_rem(boundary).unwrap_or(0);
        if over > 0 {
            self.offset = self.offset.saturating_add(boundary.saturating_sub(over));
        }
    }

    // Adds the bytes of a constant to the symbol to which they belong, or ends its bytes.
    fn grow(
        &mut self,
        alloc: Global,
        constant: &Constant<'_>,
        is_set: bool,
    ) -> Result<(), AllocError> {
        let Some(name) = self.growing.take() else {
            return Ok(());
        };
        let mut bytes = Vec::new(alloc);
        let known = is_set && constant.put(alloc, self, &mut bytes)?;
        if let Some(symbol) = self.table.get_mut(name.as_str()) {
            if known {
                symbol.bytes.extend_from_slice(&bytes)?;
            }
            if let (true, None, Some(characters)) = (
                is_set,
                &symbol.characters,
                constant.characters(),
            ) {
                symbol.characters = Some(String::from_str(alloc, characters)?);
            }
        }
        if known {
            self.growing = Some(name);
        }
        Ok(())
    }

    // Takes an operand of DC or DS, the first one with the label.
    fn take_constant(
        &mut self,
        alloc: Global,
        label: &str,
        text: &str,
        is_set: bool,
    ) -> Result<(), AllocError> {
        let Some(constant) = Constant::read(alloc, self, text)? else {
            self.define(alloc, label, None, 1)?;
            self.break_off();
            return Ok(());
        };
        self.align(constant.boundary());
        if !label.is_empty() {
            let length = constant.length().unwrap_or(1);
            self.define(alloc, label, Some(self.here()), length)?;
            self.growing = Some(String::from_str(alloc, label)?);
        }
        self.grow(alloc, &constant, is_set)?;
        match constant.size(alloc)? {
            Some(size) => self.offset = self.offset.saturating_add(size),
            None => self.break_off(),
        }
        Ok(())
    }

    fn take_constants(
        &mut self,
        alloc: Global,
        statement: &SourceStatement,
    ) -> Result<(), AllocError> {
        let is_set = statement.operation.as_str() == "DC";
        let mut label = statement.label.as_str();
        for operand in statement.operands.iter() {
            self.take_constant(alloc, label, operand, is_set)?;
            label = "";
        }
        Ok(())
    }

    // Takes the next statement.
    fn take(&mut self, alloc: Global, statement: &SourceStatement) -> Result<(), AllocError> {
        match effect_of(&statement.operation) {
            Effect::Equates => self.equate(alloc, statement),
            Effect::Defines => self.take_constants(alloc, statement),
            Effect::Nothing => Ok(()),
            Effect::Breaks => {
                self.break_off();
                self.define(alloc, &statement.label, Some(self.here()), 1)?;
                if !SECTIONS.contains(&statement.operation.as_str()) {
                    self.break_off();
                }
                Ok(())
            }
        }
    }
}

/// Returns the symbols of a source. It is read twice, so that a symbol may be used before its definition. It fails if memory is exhausted.
pub fn symbols_of(alloc: Global, statements: &[SourceStatement]) -> Result<Symbols, AllocError> {
    let mut symbols = Symbols::new(alloc);
    for _ in 0..2 {
        symbols.run = 1;
        symbols.offset = 0;
        symbols.growing = None;
        for statement in statements {
            symbols.take(alloc, statement)?;
        }
    }
    Ok(symbols)
}
