//! Names of a script for the symbols of a source.

use std::alloc::{AllocError, AllocFailed, Global};
use std::collections::{BTreeMap, BTreeSet};
use std::fmt::Write;
use thiserror::Error;

/// The most characters of a name.
const LONGEST: usize = 8;

/// The numbers with some count of digits that a name may end in.
#[derive(Clone, Copy)]
struct NameNumbers {
    digits: usize,
    least: u32,
    end: u32,
}

/// All numbers that a name may end in. The plain name counts as the first.
const NUMBERS: [NameNumbers; 7] = [
    NameNumbers {
        digits: 1,
        least: 2,
        end: 10,
    },
    NameNumbers {
        digits: 2,
        least: 10,
        end: 100,
    },
    NameNumbers {
        digits: 3,
        least: 100,
        end: 1_000,
    },
    NameNumbers {
        digits: 4,
        least: 1_000,
        end: 10_000,
    },
    NameNumbers {
        digits: 5,
        least: 10_000,
        end: 100_000,
    },
    NameNumbers {
        digits: 6,
        least: 100_000,
        end: 1_000_000,
    },
    NameNumbers {
        digits: 7,
        least: 1_000_000,
        end: 10_000_000,
    },
];

/// The front of a name for a symbol that has no byte which a name may have.
const UNNAMED: &str = "X";

/// Why a symbol gets no name.
#[derive(Clone, Copy, Debug, Error)]
pub enum NoName {
    #[error("out of memory")]
    Memory,
    /// Each name that could be made of the symbol is in use.
    #[error("no name is left for a symbol")]
    AllUsed,
}

impl From<AllocError> for NoName {
    fn from(_: AllocError) -> NoName {
        NoName::Memory
    }
}

impl<T: Drop> From<AllocFailed<T>> for NoName {
    fn from(_: AllocFailed<T>) -> NoName {
        NoName::Memory
    }
}

/// The names that symbols were given.
#[derive(Drop)]
pub struct SymbolNames {
    alloc: Global,
    of: BTreeMap<String, String>,
    used: BTreeSet<String>,
    /// By the front of a name and the count of its digits, the next number to try: all smaller ones are in use.
    next: BTreeMap<String, u32>,
    /// By its symbol, how often a list got names, if more than once.
    times: BTreeMap<String, u32>,
}

// Returns whether a name may have a character.
fn is_of_name(letter: char) -> bool {
    matches!(letter, 'A'..='Z' | '0'..='9' | '@' | '#' | '$')
}

// Returns the characters of a symbol that a name may have, from the first that is no digit on, up to a number.
fn shortened(alloc: Global, symbol: &str, most: usize) -> Result<String, AllocError> {
    let name: String = symbol
        .chars()
        .filter(|letter| is_of_name(*letter))
        .skip_while(|letter| letter.is_ascii_digit())
        .take(most)
        .collect(alloc)?;
    if name.is_empty() {
        return String::from_str(alloc, UNNAMED);
    }
    Ok(name)
}

impl SymbolNames {
    /// Returns the names where no symbol has one yet.
    pub fn new(alloc: Global) -> SymbolNames {
        SymbolNames {
            alloc,
            of: BTreeMap::new(alloc),
            used: BTreeSet::new(alloc),
            next: BTreeMap::new(alloc),
            times: BTreeMap::new(alloc),
        }
    }

    // Finds an unused name that ends in one of these numbers; None if all are in use.
    fn numbered(
        &mut self,
        symbol: &str,
        numbers: NameNumbers,
    ) -> Result<Option<String>, AllocError> {
        let front = shortened(self.alloc, symbol, LONGEST.saturating_sub(numbers.digits))?;
        let key = format!(in self.alloc; "{front} {}", numbers.digits)?;
        let first = match self.next.get(key.as_str()) {
            Some(next) => *next,
            None => numbers.least,
        };
        for number in first.min(numbers.end)..numbers.end {
            let name = format!(in self.alloc; "{front}{number}")?;
            if !self.used.contains(name.as_str()) {
                self.next.insert(key, number.saturating_add(1))?;
                return Ok(Some(name));
            }
        }
        self.next.insert(key, numbers.end)?;
        Ok(None)
    }

    // Finds a name that no other symbol has: the front of the symbol, or a shorter one with a number.
    fn unused(&mut self, symbol: &str) -> Result<String, NoName> {
        let name = shortened(self.alloc, symbol, LONGEST)?;
        if !self.used.contains(name.as_str()) {
            return Ok(name);
        }
        for numbers in NUMBERS {
            if let Some(name) = self.numbered(symbol, numbers)? {
                return Ok(name);
            }
        }
        Err(NoName::AllUsed)
    }

    /// Returns a new name for something that is called by a symbol and has none yet. It fails if no name is left.
    pub fn new_name(&mut self, symbol: &str) -> Result<String, NoName> {
        let name = self.unused(symbol)?;
        self.used.insert(name.clone()?)?;
        Ok(name)
    }

    // Returns the name of something, which is made of a text if it has none yet.
    fn called(&mut self, called: &str, text: &str) -> Result<String, NoName> {
        if let Some(name) = self.of.get(called) {
            return Ok(name.clone()?);
        }
        let name = self.new_name(text)?;
        self.of
            .insert(String::from_str(self.alloc, called)?, name.clone()?)?;
        Ok(name)
    }

    /// Returns the name of a symbol, a new one if it has none yet. It fails if no name is left.
    pub fn of(&mut self, symbol: &str) -> Result<String, NoName> {
        self.called(symbol, symbol)
    }

    /// Gives the items of a list new names from now on, if they get names for the second time or later. It fails if memory is exhausted.
    pub fn renew_list(&mut self, list: &str, time: u32) -> Result<(), AllocError> {
        if time > 1 {
            self.times
                .insert(String::from_str(self.alloc, list)?, time)?;
        }
        Ok(())
    }

    /// Returns what an item of a list is called. It fails if memory is exhausted.
    pub fn item_called(&self, list: &str, place: usize) -> Result<String, AllocError> {
        match self.times.get(list) {
            Some(time) => format!(in self.alloc; "{list}'{time} {place}"),
            None => format!(in self.alloc; "{list} {place}"),
        }
    }

    /// Returns whether the items of a list have names. It fails if memory is exhausted.
    pub fn has_items(&self, list: &str) -> Result<bool, AllocError> {
        let called = self.item_called(list, 1)?;
        Ok(self.of.contains_key(called.as_str()))
    }

    /// Returns the name of an item of a list: that of the list with the place of the item. It fails if no name is left.
    pub fn of_item(&mut self, list: &str, place: usize) -> Result<String, NoName> {
        let digits = format!(in self.alloc; "{place}")?;
        let mut text = shortened(self.alloc, list, LONGEST.saturating_sub(digits.len()))?;
        text.push_str(&digits)?;
        let called = self.item_called(list, place)?;
        self.called(&called, &text)
    }

    /// Returns the name of the task of a program. It fails if no name is left.
    pub fn of_task(&mut self, program: &str) -> Result<String, NoName> {
        let called = format!(in self.alloc; "task {program}")?;
        self.called(&called, program)
    }
}

/// Appends a keyword with the name of a symbol. It fails if no name is left.
pub fn put_name(
    names: &mut SymbolNames,
    text: &mut String,
    key: &str,
    symbol: &str,
) -> Result<(), NoName> {
    let name = names.of(symbol)?;
    write!(text, ",{key}={name}")?;
    Ok(())
}
