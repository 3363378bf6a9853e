//! The value of an expression: numbers, symbols, lengths of symbols, the place of the statement, and the four kinds of arithmetic.

use crate::symbols::Symbols;
use assembler_statements::is_of_symbol;
use std::alloc::{AllocError, AllocFailed, Global};
use thiserror::Error;

/// A number, or a place: so many bytes after the begin of a run of data. The run of a number is 0.
#[derive(Clone, Copy)]
pub struct Value {
    pub run: u32,
    pub number: i64,
}

impl Value {
    /// Returns the value that is a number.
    pub fn of(number: i64) -> Value {
        Value { run: 0, number }
    }

    /// Returns the number, or `None` for a place.
    pub fn number(self) -> Option<i64> {
        if self.run == 0 {
            Some(self.number)
        } else {
            None
        }
    }
}

#[derive(Clone, Copy, PartialEq, Eq)]
enum Operator {
    Open,
    Plus,
    Minus,
    Times,
    Over,
}

impl Operator {
    // Returns whether it is applied before another one that follows it.
    fn is_before(self, next: Operator) -> bool {
        match (self, next) {
            (Operator::Open, _) => false,
            (Operator::Times | Operator::Over, _) => true,
            (_, Operator::Times | Operator::Over) => false,
            _ => true,
        }
    }

    // Returns what it makes of two values.
    fn apply(self, left: Value, right: Value) -> Option<Value> {
        match self {
            Operator::Open => None,
            Operator::Plus if left.run == 0 || right.run == 0 => Some(Value {
                run: left.run.max(right.run),
                number: left.number.checked_add(right.number)?,
            }),
            Operator::Minus if left.run == right.run => {
                Some(Value::of(left.number.checked_sub(right.number)?))
            }
            Operator::Minus if right.run == 0 => Some(Value {
                run: left.run,
                number: left.number.checked_sub(right.number)?,
            }),
            Operator::Times => Some(Value::of(left.number()?.checked_mul(right.number()?)?)),
            Operator::Over => Some(Value::of(left.number()?.checked_div(right.number()?)?)),
            _ => None,
        }
    }
}

// What the letters of a term are.
#[derive(Clone, Copy, PartialEq, Eq)]
enum Term {
    /// A number or a symbol.
    Word,
    /// A symbol whose length is wanted.
    Length,
    Hexadecimal,
    Binary,
}

/// Why there is no value: the expression has none that is known.
#[derive(Clone, Copy, Debug, Error)]
enum NoValue {
    #[error("the value is not known")]
    Unknown,
    #[error("out of memory")]
    Memory,
}

impl From<AllocError> for NoValue {
    fn from(_: AllocError) -> NoValue {
        NoValue::Memory
    }
}

impl<T: Drop> From<AllocFailed<T>> for NoValue {
    fn from(_: AllocFailed<T>) -> NoValue {
        NoValue::Memory
    }
}

// An expression whose front was read.
#[derive(Drop)]
struct Calculation<'a> {
    symbols: &'a Symbols,
    here: Option<Value>,
    values: Vec<Value>,
    operators: Vec<Operator>,
    word: String,
    term: Term,
    /// Whether a value comes next.
    wants_value: bool,
}

impl Calculation<'_> {
    fn push(&mut self, value: Option<Value>) -> Result<(), NoValue> {
        match value {
            Some(value) if self.wants_value => {
                self.values.push(value)?;
                self.wants_value = false;
                Ok(())
            }
            _ => Err(NoValue::Unknown),
        }
    }

    // Returns the value of the last word.
    fn word_value(&self) -> Option<Value> {
        let word = self.word.as_str();
        match self.term {
            Term::Hexadecimal => Some(Value::of(i64::from(u32::from_str_radix(word, 16).ok()?))),
            Term::Binary => Some(Value::of(i64::from(u32::from_str_radix(word, 2).ok()?))),
            Term::Length => Some(Value::of(i64::from(self.symbols.get(word)?.length))),
            Term::Word if word.starts_with(|letter: char| letter.is_ascii_digit()) => {
                Some(Value::of(i64::from(word.parse::<u32>().ok()?)))
            }
            Term::Word => self.symbols.get(word)?.value,
        }
    }

    // Ends the word that was read, if there is one.
    fn end_word(&mut self) -> Result<(), NoValue> {
        if self.word.is_empty() && self.term == Term::Word {
            return Ok(());
        }
        let value = self.word_value();
        self.word.clear();
        self.term = Term::Word;
        self.push(value)
    }

    // Applies the last operator.
    fn apply_last(&mut self) -> Result<(), NoValue> {
        match (self.operators.pop(), self.values.pop(), self.values.pop()) {
            (Some(operator), Some(right), Some(left)) => {
                let Some(value) = operator.apply(left, right) else {
                    return Err(NoValue::Unknown);
                };
                self.values.push(value)?;
                Ok(())
            }
            _ => Err(NoValue::Unknown),
        }
    }

    // Applies the operators that come before another one.
    fn apply_before(&mut self, next: Operator) -> Result<(), NoValue> {
        for _ in 0..self.operators.len() {
            match self.operators.last() {
                Some(last) if last.is_before(next) => self.apply_last()?,
                _ => return Ok(()),
            }
        }
        Ok(())
    }

    // Takes an operator. A `*` where a value is wanted is the place of the statement, and a sign has 0 on its left.
    fn operator(&mut self, operator: Operator) -> Result<(), NoValue> {
        self.end_word()?;
        if self.wants_value {
            return match operator {
                Operator::Times => self.push(self.here),
                Operator::Plus | Operator::Minus => {
                    self.push(Some(Value::of(0)))?;
                    self.next_operator(operator)
                }
                _ => Err(NoValue::Unknown),
            };
        }
        self.next_operator(operator)
    }

    // Takes an operator after a value.
    fn next_operator(&mut self, operator: Operator) -> Result<(), NoValue> {
        self.apply_before(operator)?;
        self.operators.push(operator)?;
        self.wants_value = true;
        Ok(())
    }

    // Closes the last parenthesis that is open.
    fn close(&mut self) -> Result<(), NoValue> {
        self.end_word()?;
        for _ in 0..self.operators.len() {
            if self.operators.last() == Some(&Operator::Open) {
                break;
            }
            self.apply_last()?;
        }
        match self.operators.pop() {
            Some(Operator::Open) if !self.wants_value => Ok(()),
            _ => Err(NoValue::Unknown),
        }
    }

    // Takes a quote: what is before it says of what kind the term is, or it ends the term.
    fn quote(&mut self) -> Result<(), NoValue> {
        if self.term == Term::Hexadecimal || self.term == Term::Binary {
            return self.end_word();
        }
        self.term = match self.word.as_str() {
            "L" => Term::Length,
            "X" => Term::Hexadecimal,
            "B" => Term::Binary,
            _ => return Err(NoValue::Unknown),
        };
        self.word.clear();
        Ok(())
    }

    // Takes a character.
    fn take(&mut self, letter: char) -> Result<(), NoValue> {
        match letter {
            '\'' => self.quote(),
            '+' => self.operator(Operator::Plus),
            '-' => self.operator(Operator::Minus),
            '*' => self.operator(Operator::Times),
            '/' => self.operator(Operator::Over),
            '(' if self.wants_value && self.word.is_empty() => {
                self.operators.push(Operator::Open)?;
                Ok(())
            }
            ')' => self.close(),
            _ if is_of_symbol(letter) => Ok(self.word.push(letter)?),
            _ => Err(NoValue::Unknown),
        }
    }

    // Returns the value of the whole expression.
    fn end(&mut self) -> Result<Value, NoValue> {
        self.end_word()?;
        for _ in 0..self.operators.len() {
            self.apply_last()?;
        }
        match (self.values.pop(), self.values.pop()) {
            (Some(value), None) => Ok(value),
            _ => Err(NoValue::Unknown),
        }
    }

    fn calculate(&mut self, text: &str) -> Result<Value, NoValue> {
        for letter in text.chars() {
            self.take(letter)?;
        }
        self.end()
    }
}

/// Returns the value of an expression, if it is known. `here` is the place of its statement. It fails if memory is exhausted.
pub fn value_of(
    alloc: Global,
    symbols: &Symbols,
    here: Option<Value>,
    text: &str,
) -> Result<Option<Value>, AllocError> {
    let mut calculation = Calculation {
        symbols,
        here,
        values: Vec::new(alloc),
        operators: Vec::new(alloc),
        word: String::new(alloc),
        term: Term::Word,
        wants_value: true,
    };
    match calculation.calculate(text) {
        Ok(value) => Ok(Some(value)),
        Err(NoValue::Unknown) => Ok(None),
        Err(NoValue::Memory) => Err(AllocError),
    }
}

/// Returns the number that an expression is, if it is one that is known. It fails if memory is exhausted.
pub fn number_of(alloc: Global, symbols: &Symbols, text: &str) -> Result<Option<i64>, AllocError> {
    let value = value_of(alloc, symbols, None, text)?;
    Ok(value.and_then(|value| value.number()))
}
