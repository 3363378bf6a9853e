//! An object of JSON, written member by member.

ghost use Rattle.std.specs.Prelude.{◌≡◌, ◌∷◌, ◌++◌, [], ℕ, List, IfOk};

use json::Writer;
use mvs_model::name::Name;
use std::alloc::{AllocError, Global};
use std::marker::Model;
use std::str;

/// An object that is open, with the members written so far. Contracts refer to these.
#[derive(Drop)]
pub struct Members {
    writer: Writer<Global>,
}

impl Model for Members {
    ghost use Rattle.std.specs.Prelude.{ℕ, List};

    ghost Value = { List ℕ };

    ghost view = { λ members. members.writer.before };
}

impl Members {
    /// Opens an object after these members, and a comma, were written.
    pub fn after(head: Vec<u8>) -> Members
        ensures { result ≡ head.items }
    {
        Members {
            writer: Writer::new(head),
        }
    }

    /// Writes a member that is a number.
    pub fn number(&mut self, key: &str, number: u32) -> Result<(), AllocError>
        ensures { self.new ≡ self.old }
    {
        self.writer.key(key)?;
        self.writer.u64(u64::from(number))
    }

    /// Writes a member that is true or false.
    pub fn boolean(&mut self, key: &str, holds: bool) -> Result<(), AllocError>
        ensures { self.new ≡ self.old }
    {
        self.writer.key(key)?;
        self.writer.boolean(holds)
    }

    /// Writes a member that is a string.
    pub fn text(&mut self, key: &str, text: &str) -> Result<(), AllocError>
        ensures { self.new ≡ self.old }
    {
        self.writer.key(key)?;
        self.writer.string(text)
    }

    /// Writes a member that is a name, without its padding.
    pub fn name(&mut self, key: &str, name: &Name) -> Result<(), AllocError>
        ensures { self.new ≡ self.old }
    {
        self.text(key, str::from_utf8(name.text()).unwrap_or(""))
    }

    /// Opens an object that is a member; what is written next are its members.
    pub fn begin_object(&mut self, key: &str) -> Result<(), AllocError>
        ensures { self.new ≡ self.old }
    {
        self.writer.key(key)?;
        self.writer.begin_object()
    }

    /// Opens an object that is an item of the open list.
    pub fn begin_item(&mut self) -> Result<(), AllocError>
        ensures { self.new ≡ self.old }
    {
        self.writer.begin_object()
    }

    /// Ends an object.
    pub fn end_object(&mut self) -> Result<(), AllocError>
        ensures { self.new ≡ self.old }
    {
        self.writer.end_object()
    }

    /// Opens a list that is a member.
    pub fn begin_list(&mut self, key: &str) -> Result<(), AllocError>
        ensures { self.new ≡ self.old }
    {
        self.writer.key(key)?;
        self.writer.begin_array()
    }

    /// Ends a list.
    pub fn end_list(&mut self) -> Result<(), AllocError>
        ensures { self.new ≡ self.old }
    {
        self.writer.end_array()
    }

    /// Writes a member that is a list of numbers.
    pub fn numbers(&mut self, key: &str, numbers: &[u32]) -> Result<(), AllocError>
        ensures { self.new ≡ self.old }
    {
        self.begin_list(key)?;
        for number in numbers {
            self.item(*number)?;
        }
        self.end_list()
    }

    /// Appends a number to the open list.
    pub fn item(&mut self, number: u32) -> Result<(), AllocError>
        ensures { self.new ≡ self.old }
    {
        self.writer.u64(u64::from(number))
    }

    /// Closes the object, and returns the line.
    pub fn into_line(self) -> Result<Vec<u8>, AllocError>
        ensures { IfOk result
            (λ line. (members : List ℕ) × (line.items ≡ self ++ members ++ 10 ∷ [])) }
    {
        let Members { mut writer } = self;
        writer.end_object()?;
        let mut line = writer.into_inner();
        line.push(b'\n')?;
        Ok(line)
    }
}
