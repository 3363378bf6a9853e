//! What the registers and the words of a program hold where a statement is executed.

use crate::loss::Loss;
use assembler_statements::SourceStatement;
use std::alloc::{AllocError, Global};
use std::collections::BTreeMap;
use std::mem;

/// What a register or a word holds.
#[derive(Drop)]
pub enum Content {
    Number(i64),
    /// What the word of a symbol holds.
    Word(String),
    /// The address of a symbol.
    Place(String),
    /// Something that is not known.
    Lost(Loss),
}

impl Content {
    fn copied(&self) -> Result<Content, AllocError> {
        Ok(match self {
            Content::Number(number) => Content::Number(*number),
            Content::Word(symbol) => Content::Word(symbol.clone()?),
            Content::Place(symbol) => Content::Place(symbol.clone()?),
            Content::Lost(loss) => Content::Lost(loss.copied()?),
        })
    }
}

/// What the registers hold that are set.
#[derive(Drop)]
pub struct Registers {
    contents: BTreeMap<u8, Content>,
}

/// The registers that are set, and the words that were stored.
#[derive(Drop)]
pub struct Held {
    alloc: Global,
    registers: Registers,
    words: BTreeMap<String, Content>,
}

/// Where a request leaves the address of an area or the identifier of a pool, and the symbol by which that is called.
#[derive(Drop)]
pub enum Comes {
    InRegister { register: u8, symbol: String },
    InWord { word: String, symbol: String },
}

/// The registers that a call leaves with something else.
const VOLATILE: [u8; 4] = [0, 1, 14, 15];

impl Comes {
    /// Returns the symbol by which the area or the pool is called.
    pub fn symbol(&self) -> &str {
        match self {
            Comes::InRegister { symbol, .. } | Comes::InWord { symbol, .. } => symbol.as_str(),
        }
    }
}

// Returns whether a register is one of those from one on to another; after register 15 comes register 0.
fn is_between(register: u8, from: u8, to: u8) -> bool {
    if from <= to {
        from <= register && register <= to
    } else {
        from <= register || register <= to
    }
}

impl Held {
    /// Returns that nothing is set.
    pub fn new(alloc: Global) -> Held {
        Held {
            alloc,
            registers: Registers {
                contents: BTreeMap::new(alloc),
            },
            words: BTreeMap::new(alloc),
        }
    }

    /// Returns what a register holds, if it was set.
    pub fn register(&self, register: u8) -> Option<&Content> {
        self.registers.contents.get(&register)
    }

    /// Returns what a word holds, if it was stored earlier.
    pub fn stored(&self, symbol: &str) -> Option<&Content> {
        self.words.get(symbol)
    }

    /// Sets what a register holds. It fails if memory is exhausted.
    pub fn set(&mut self, register: u8, content: Content) -> Result<(), AllocError> {
        self.registers.contents.insert(register, content)?;
        Ok(())
    }

    /// Sets a register to something that is not known. It fails if memory is exhausted.
    pub fn lose(&mut self, register: u8, statement: &SourceStatement) -> Result<(), AllocError> {
        let loss = Loss::set(statement)?;
        self.set(register, Content::Lost(loss))
    }

    /// Copies a register to another one. It fails if memory is exhausted.
    pub fn copy(&mut self, to: u8, from: u8) -> Result<(), AllocError> {
        let content = match self.register(from) {
            Some(content) => content.copied()?,
            None => {
                self.registers.contents.remove(&to);
                return Ok(());
            }
        };
        self.set(to, content)
    }

    /// Loads a register with what a word holds. It fails if memory is exhausted.
    pub fn load(&mut self, register: u8, symbol: &str) -> Result<(), AllocError> {
        let content = match self.words.get(symbol) {
            Some(Content::Lost(loss)) => Content::Lost(loss.from_word(self.alloc, symbol)?),
            Some(content) => content.copied()?,
            None => Content::Word(String::from_str(self.alloc, symbol)?),
        };
        self.set(register, content)
    }

    /// Stores a register in a word. It fails if memory is exhausted.
    pub fn store(
        &mut self,
        symbol: &str,
        register: u8,
        statement: &SourceStatement,
    ) -> Result<(), AllocError> {
        let content = match self.register(register) {
            Some(Content::Lost(_)) | None => Content::Lost(Loss::set(statement)?),
            Some(content) => content.copied()?,
        };
        self.put(symbol, content)
    }

    // Sets what a word holds.
    fn put(&mut self, symbol: &str, content: Content) -> Result<(), AllocError> {
        self.words
            .insert(String::from_str(self.alloc, symbol)?, content)?;
        Ok(())
    }

    /// Sets a word to something that is not known. It fails if memory is exhausted.
    pub fn change(&mut self, symbol: &str, statement: &SourceStatement) -> Result<(), AllocError> {
        let loss = Loss::set(statement)?;
        self.put(symbol, Content::Lost(loss))
    }

    /// Takes what a request leaves. It fails if memory is exhausted.
    pub fn take(&mut self, comes: Comes) -> Result<(), AllocError> {
        match comes {
            Comes::InRegister { register, symbol } => self.set(register, Content::Word(symbol)),
            Comes::InWord { word, symbol } => {
                self.words.insert(word, Content::Word(symbol))?;
                Ok(())
            }
        }
    }

    /// Sets the registers that a call may change to what the statement of the call leaves. It fails if memory is exhausted.
    pub fn call(&mut self, statement: &SourceStatement) -> Result<(), AllocError> {
        for register in VOLATILE {
            let loss = Loss::left(statement)?;
            self.set(register, Content::Lost(loss))?;
        }
        Ok(())
    }

    /// Sets the registers from one on to another to something that is not known. It fails if memory is exhausted.
    pub fn lose_between(
        &mut self,
        from: u8,
        to: u8,
        statement: &SourceStatement,
    ) -> Result<(), AllocError> {
        for register in 0..16u8 {
            if is_between(register, from, to) {
                self.lose(register, statement)?;
            }
        }
        Ok(())
    }

    /// Takes the registers away, and leaves them as they are where a task begins: not set.
    pub fn leave_registers(&mut self) -> Registers {
        let fresh = Registers {
            contents: BTreeMap::new(self.alloc),
        };
        mem::replace(&mut self.registers, fresh)
    }

    /// Puts registers back that were taken away.
    pub fn restore(&mut self, registers: Registers) {
        self.registers = registers;
    }
}
