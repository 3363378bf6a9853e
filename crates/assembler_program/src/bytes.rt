//! Requests that touch bytes, and WHERE.

use crate::cards::ProgramFault;
use crate::step::{StepEntry, Writing};
use mvs_model::line::{Location, SourceRequest};
use mvs_model::name::Name;
use std::alloc::{AllocError, Global};
use std::io::Write;

/// How many bytes a card of a constant has.
const OF_A_CARD: usize = 16;

// Returns a constant of some bytes.
fn hexadecimal(alloc: Global, bytes: &[u8]) -> Result<String, AllocError> {
    let mut text = String::from_str(alloc, "X'")?;
    for byte in bytes {
        text.push_str(&format!(in alloc; "{byte:02X}")?)?;
    }
    text.push('\'')?;
    Ok(text)
}

impl<W: Write> Writing<W> {
    fn put(&mut self, entry: &StepEntry, to: &Location, bytes: &[u8]) -> Result<(), ProgramFault> {
        let alloc = self.cards.alloc();
        let label = format!(in alloc; "X{}", entry.number)?;
        self.locate(2, to)?;
        let operands = format!(in alloc; "0({},2),{label}", bytes.len())?;
        self.cards.code("MVC", &operands)?;
        self.cards.go("OKAY")?;
        self.put_constant(&label, bytes)
    }

    // Constants that are some bytes, with their label.
    fn put_constant(&mut self, label: &str, bytes: &[u8]) -> Result<(), ProgramFault> {
        let alloc = self.cards.alloc();
        let count = format!(in alloc; "0XL{}", bytes.len())?;
        self.cards.statement(label, "DS", &count)?;
        for chunk in bytes.chunks(OF_A_CARD) {
            self.cards.statement("", "DC", &hexadecimal(alloc, chunk)?)?;
        }
        self.cards.statement("", "DS", "0H")
    }

    // Copies bytes from where register 2 points into the buffer; their number is in register 3.
    fn to_buffer(&mut self) -> Result<(), ProgramFault> {
        self.point(4, "BUFFER")?;
        self.cards.code("LR", "5,3")?;
        self.cards.code("MVCL", "4,2")
    }

    fn show(&mut self, from: &Location, length: u32) -> Result<(), ProgramFault> {
        self.locate(2, from)?;
        self.load(3, length)?;
        self.to_buffer()?;
        self.load(0, length)?;
        self.cards.go("SHOWN")
    }

    fn copy(&mut self, to: &Location, from: &Location, length: u32) -> Result<(), ProgramFault> {
        self.locate(6, to)?;
        self.locate(2, from)?;
        self.load(3, length)?;
        self.to_buffer()?;
        self.point(2, "BUFFER")?;
        self.load(3, length)?;
        self.cards.code("LR", "4,6")?;
        self.cards.code("LR", "5,3")?;
        self.cards.code("MVCL", "4,2")?;
        self.cards.go("OKAY")
    }

    /// Writes a request that touches bytes.
    pub fn of_bytes(
        &mut self,
        entry: &StepEntry,
        written: &SourceRequest,
    ) -> Result<(), ProgramFault> {
        match written {
            SourceRequest::Put { to, bytes } => self.put(entry, to, bytes.as_slice()),
            SourceRequest::Show { from, len } => self.show(from, len.get()),
            SourceRequest::Move { to, from, len } => self.copy(to, from, len.get()),
            _ => Ok(()),
        }
    }

    /// Writes a WHERE: the place of an area.
    pub fn of_where(&mut self, name: &Name) -> Result<(), ProgramFault> {
        self.point_to_name(2, name)?;
        self.cards.code("L", "0,0(,2)")?;
        self.cards.go("AT")
    }
}
