//! The operands of a macro, by their keys.

use crate::reason::{OpenCause, Unsaid};
use assembler_statements::SourceStatement;
use std::alloc::{AllocError, Global};
use std::collections::BTreeMap;

/// The operands of a macro: those without a key, and those with one.
#[derive(Drop)]
pub struct MacroOperands {
    alloc: Global,
    positional: Vec<String>,
    keyed: BTreeMap<String, String>,
}

/// Which keys a macro may have: those that a statement says, those that are of no account here, and those of authorized programs.
pub struct Keys {
    pub said: &'static [&'static str],
    pub left: &'static [&'static str],
    pub authorized: &'static [&'static str],
}

// Returns the key and the value of an operand that has one.
fn keyed(operand: &str) -> Option<(&str, &str)> {
    let (key, value) = operand.split_once('=')?;
    if !key.is_empty() && key.chars().all(|letter| letter.is_ascii_alphanumeric()) {
        Some((key, value))
    } else {
        None
    }
}

impl MacroOperands {
    /// Returns no operands.
    pub fn new(alloc: Global) -> MacroOperands {
        MacroOperands {
            alloc,
            positional: Vec::new(alloc),
            keyed: BTreeMap::new(alloc),
        }
    }

    // Puts an operand at a place of those without a key, over the one that is there.
    fn place(&mut self, place: usize, operand: &str) -> Result<(), AllocError> {
        let operand = String::from_str(self.alloc, operand)?;
        if let Some(held) = self.positional.get_mut(place) {
            if !operand.is_empty() {
                *held = operand;
            }
            return Ok(());
        }
        self.positional.push(operand)?;
        Ok(())
    }

    /// Puts the operands of a statement over those that there are. An operand without a value is none. It fails if memory is exhausted.
    pub fn put(&mut self, statement: &SourceStatement) -> Result<(), AllocError> {
        let mut place = 0usize;
        for operand in statement.operands.iter() {
            match keyed(operand) {
                Some((_, "")) => {}
                Some((key, value)) => {
                    let key = String::from_str(self.alloc, key)?;
                    self.keyed
                        .insert(key, String::from_str(self.alloc, value)?)?;
                }
                None => {
                    self.place(place, operand)?;
                    place = place.saturating_add(1);
                }
            }
        }
        Ok(())
    }

    /// Returns the operand of a key, if there is one.
    pub fn get(&self, key: &str) -> Option<&str> {
        self.keyed.get(key).map(|value| value.as_str())
    }

    /// Returns the operand of a key, or why the request is not converted if there is none.
    pub fn required(&self, key: &str) -> Result<&str, Unsaid> {
        self.get(key)
            .ok_or_else(|| Unsaid::of(self.alloc, OpenCause::Missing, key))
    }

    /// Returns the operand at a place of those without a key, an empty text if there is none.
    pub fn at(&self, place: usize) -> &str {
        match self.positional.get(place) {
            Some(operand) => operand.as_str(),
            None => "",
        }
    }

    /// Returns `Ok` if a macro may have all the keys, and else why the request is not converted.
    pub fn check(&self, keys: &Keys) -> Result<(), Unsaid> {
        for (key, value) in self.keyed.iter() {
            if keys.authorized.contains(&key.as_str()) {
                return Err(Unsaid::of_operand(self.alloc, OpenCause::Authorized, key, value));
            }
        }
        for (key, value) in self.keyed.iter() {
            if !keys.said.contains(&key.as_str()) && !keys.left.contains(&key.as_str()) {
                return Err(Unsaid::of_operand(self.alloc, OpenCause::NotModelled, key, value));
            }
        }
        Ok(())
    }
}
