//! Symbols: the steps of a document, and their tasks.

ghost use Rattle.std.specs.Prelude.{◌≡◌, ◌++◌, ◌∷◌, [], IfOk, OnOk};
ghost use Rattle.language_server.specs.Symbols.{begins_task, later_step, step_end, symbol_of, symbols_from, symbols_of, whole_of};

use crate::document::Document;
use crate::names::{Occurrence, names_of};
use crate::references::kind_number;
use crate::span::Span;
use std::alloc::{AllocError, Global};
use std::marker::Model;

/// A step or a task.
#[derive(Drop)]
pub struct DocumentSymbol {
    name: Vec<u8>,
    span: Span,
    whole: Span,
    is_step: bool,
}

impl Model for DocumentSymbol {
    ghost use Rattle.language_server.specs.Symbols.{SymbolValue};

    ghost Value = { SymbolValue };

    ghost view = { λ s. record {
      name = s.name.items;
      span = s.span;
      whole = s.whole;
      is_step = s.is_step;
    } };
}

impl DocumentSymbol {
    /// Returns its name.
    pub fn name(&self) -> &[u8]
        ensures { result.now ≡ self.now.name }
    {
        &self.name
    }

    /// Returns where its name is in the text.
    pub fn span(&self) -> Span
        ensures { result ≡ self.now.span }
    {
        self.span
    }

    /// Returns all of its lines.
    pub fn whole(&self) -> Span
        ensures { result ≡ self.now.whole }
    {
        self.whole
    }

    /// Returns whether it is a step.
    pub fn is_step(&self) -> bool
        ensures { result ≡ self.now.is_step }
    {
        self.is_step
    }
}

// Returns whether a name begins a step or a task.
fn begins_task(name: &Occurrence) -> bool
    ensures { result ≡ begins_task name.now }
{
    name.is_set && kind_number(name.kind) == 1
}

// Returns the first name of a step after that of a name.
fn later_step(names: &[Occurrence], name: &Occurrence) -> Option<Occurrence>
    ensures { result ≡ later_step names.now name.now }
{
    names.iter().copied().find(|other| name.step < other.step)
}

impl Document {
    // Returns where a step ends, by the first name of a later step.
    fn step_end(&self, later: Option<Occurrence>) -> usize
        ensures { result ≡ step_end self.now.text later }
    {
        match later {
            Some(later) => self.start(later.line).saturating_sub(1),
            None => self.text.len(),
        }
    }

    // Returns the lines of a step, or the line of a task.
    fn whole_of(&self, names: &[Occurrence], name: &Occurrence) -> Span
        ensures { result ≡ whole_of name.now.is_step self.now.text names.now name.now }
    {
        let start = self.start(name.line);
        if name.is_step {
            Span {
                start,
                end: self.step_end(later_step(names, name)),
            }
        } else {
            Span {
                start,
                end: self.end(name.line),
            }
        }
    }

    // Returns the symbol of a name.
    fn symbol_of(
        &self,
        alloc: Global,
        names: &[Occurrence],
        name: &Occurrence,
    ) -> Result<DocumentSymbol, AllocError>
        ensures { IfOk result (λ symbol. symbol ≡ symbol_of self.now.text names.now name.now) }
    {
        Ok(DocumentSymbol {
            name: Vec::from_slice(alloc, name.span.of(&self.text))?,
            span: self.within(name.span),
            whole: self.within(self.whole_of(names, name)),
            is_step: name.is_step,
        })
    }

    // Adds the symbol of a name, if it begins a step or a task.
    fn push_symbol(
        &self,
        alloc: Global,
        symbols: &mut Vec<DocumentSymbol>,
        names: &[Occurrence],
        name: &Occurrence,
    ) -> Result<(), AllocError>
        ensures { OnOk result (symbols.new.items ≡ symbols.old.items
            ++ symbols_from self.now.text names.now (name.now ∷ [])) }
    {
        if begins_task(name) {
            symbols.push(self.symbol_of(alloc, names, name)?)?;
        }
        Ok(())
    }

    // Returns the symbols of these names.
    fn symbols_among(
        &self,
        alloc: Global,
        names: &[Occurrence],
    ) -> Result<Vec<DocumentSymbol>, AllocError>
        ensures { IfOk result
            (λ symbols. symbols.items ≡ symbols_from self.now.text names.now names.now) }
    {
        let mut symbols = Vec::new(alloc);
        for name in names {
            self.push_symbol(alloc, &mut symbols, names, name)?;
        }
        Ok(symbols)
    }

    /// Returns the steps of the document, each before its tasks.
    pub fn symbols(&self, alloc: Global) -> Result<Vec<DocumentSymbol>, AllocError>
        ensures { IfOk result (λ symbols. symbols.items ≡ symbols_of self.now.text) }
    {
        let names = names_of(alloc, &self.text)?;
        self.symbols_among(alloc, &names)
    }
}
