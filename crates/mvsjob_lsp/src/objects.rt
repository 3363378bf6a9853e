//! JSON, written member by member.

ghost use Rattle.std.specs.Prelude.{◌≡◌, ◌∷◌, [], OnOk, decimal};
ghost use Rattle.std.specs.Fmt.{signed_decimal};
ghost use Rattle.json.specs.Print.{print};
ghost use Rattle.mvsjob_lsp.specs.Tokens.{AddsTokens};
ghost use Rattle.json.specs.Token.{begin_array, begin_object, boolean, end_array, end_object, key, null, number, string};

use json::Writer;
use std::alloc::{AllocError, Global};
use std::marker::Model;

/// An object or a list that is written. Contracts refer to its tokens.
#[derive(Drop)]
pub struct Objects {
    writer: Writer<Global>,
}

impl Model for Objects {
    ghost use Rattle.std.specs.Prelude.{◌≡◌, [], List};
    ghost use Rattle.json.specs.Token.{Token, tokens_code};

    ghost Value = { List Token };

    ghost coded = { tokens_code };

    ghost view = { λ o. o.writer.tokens };

    ghost invariant = { λ o. o.writer.before ≡ [] };
}

impl Objects {
    /// Makes one without bytes.
    pub fn new(alloc: Global) -> Objects
        ensures { result ≡ [] }
    {
        Objects {
            writer: Writer::new(Vec::new(alloc)),
        }
    }

    /// Returns the bytes of the value that was written.
    pub fn into_bytes(self) -> Vec<u8>
        ensures { result.items ≡ print self }
    {
        let Objects { writer } = self;
        writer.into_inner()
    }

    /// Writes the name of a member.
    pub fn key(&mut self, name: &str) -> Result<(), AllocError>
        ensures { OnOk result (AddsTokens self.old self.new (key name.now ∷ [])) }
    {
        self.writer.key(name)
    }

    /// Opens an object that is a value.
    pub fn begin(&mut self) -> Result<(), AllocError>
        ensures { OnOk result (AddsTokens self.old self.new (begin_object ∷ [])) }
    {
        self.writer.begin_object()
    }

    /// Ends an object.
    pub fn end(&mut self) -> Result<(), AllocError>
        ensures { OnOk result (AddsTokens self.old self.new (end_object ∷ [])) }
    {
        self.writer.end_object()
    }

    /// Begins a list.
    pub fn begin_list(&mut self) -> Result<(), AllocError>
        ensures { OnOk result (AddsTokens self.old self.new (begin_array ∷ [])) }
    {
        self.writer.begin_array()
    }

    /// Ends a list.
    pub fn end_list(&mut self) -> Result<(), AllocError>
        ensures { OnOk result (AddsTokens self.old self.new (end_array ∷ [])) }
    {
        self.writer.end_array()
    }

    /// Opens an object that is a member.
    pub fn object(&mut self, name: &str) -> Result<(), AllocError>
        ensures { OnOk result (AddsTokens self.old self.new (key name.now ∷ begin_object ∷ [])) }
    {
        self.writer.key(name)?;
        self.writer.begin_object()
    }

    /// Opens a list that is a member.
    pub fn list(&mut self, name: &str) -> Result<(), AllocError>
        ensures { OnOk result (AddsTokens self.old self.new (key name.now ∷ begin_array ∷ [])) }
    {
        self.writer.key(name)?;
        self.writer.begin_array()
    }

    /// Writes a member that is a string.
    pub fn text(&mut self, name: &str, text: &str) -> Result<(), AllocError>
        ensures { OnOk result (AddsTokens self.old self.new (key name.now ∷ string text.now ∷ [])) }
    {
        self.writer.key(name)?;
        self.writer.string(text)
    }

    /// Writes a member that is a number.
    pub fn number(&mut self, name: &str, value: usize) -> Result<(), AllocError>
        ensures { OnOk result (AddsTokens self.old self.new (key name.now ∷ number (decimal value) ∷ [])) }
    {
        self.writer.key(name)?;
        self.writer.u64(value as u64)
    }

    /// Writes an integer that is a member.
    pub fn integer(&mut self, name: &str, value: i64) -> Result<(), AllocError>
        ensures { OnOk result
            (AddsTokens self.old self.new (key name.now ∷ number (signed_decimal value) ∷ [])) }
    {
        self.writer.key(name)?;
        self.writer.i64(value)
    }

    /// Writes a member that is true or false.
    pub fn boolean(&mut self, name: &str, holds: bool) -> Result<(), AllocError>
        ensures { OnOk result (AddsTokens self.old self.new (key name.now ∷ boolean holds ∷ [])) }
    {
        self.writer.key(name)?;
        self.writer.boolean(holds)
    }

    /// Writes null, which is a value.
    pub fn null(&mut self) -> Result<(), AllocError>
        ensures { OnOk result (AddsTokens self.old self.new (null ∷ [])) }
    {
        self.writer.null()
    }
}
