//! STORAGE OBTAIN and STORAGE RELEASE.

use crate::request::MacroRequest;
use assembler_operands::{Keys, OpenCause, SymbolNames, Unsaid, put_name};
use assembler_values::{Comes, put_number};
use std::fmt::Write;

const OBTAINING: Keys = Keys {
    said: &[
        "LENGTH", "ADDR", "SP", "BNDRY", "STARTBDY", "CONTBDY", "LOC", "COND",
    ],
    left: &[
        "MF",
        "RELATED",
        "RTCD",
        "CHECKZERO",
        "KEY",
        "CALLRKY",
        "EXECUTABLE",
        "BACK",
        "LINKAGE",
    ],
    authorized: &["TCBADDR", "OWNER", "ALET"],
};

const RELEASING: Keys = Keys {
    said: &["LENGTH", "ADDR", "SP", "COND"],
    left: &["MF", "RELATED", "RTCD", "KEY", "CALLRKY", "LINKAGE"],
    authorized: &["TCBADDR", "ALET"],
};

impl MacroRequest<'_> {
    // Appends the length, or the greatest and the least one.
    fn put_lengths(self, text: &mut String) -> Result<(), Unsaid> {
        let lengths = self.operands.required("LENGTH")?;
        if let Some((most, least)) = self.known.pair("LENGTH", lengths)? {
            return Ok(write!(text, ",LENGTH=({most},{least})")?);
        }
        Ok(put_number(text, "LENGTH", self.known.number("LENGTH", lengths)?)?)
    }

    // Appends what is written after the length and the name.
    fn put_obtained(self, text: &mut String) -> Result<(), Unsaid> {
        self.put_subpool(text)?;
        self.put_boundaries(text)?;
        self.put_location(text)?;
        Ok(self.put_written(text, "COND")?)
    }

    // Converts STORAGE OBTAIN, and returns where it leaves an address.
    fn storage_obtain(self, names: &mut SymbolNames, text: &mut String) -> Result<Comes, Unsaid> {
        self.operands.check(&OBTAINING)?;
        text.push_str("STORAGE OBTAIN")?;
        self.put_lengths(text)?;
        let mut rest = String::new(self.known.alloc);
        self.put_obtained(&mut rest)?;
        let comes = self.comes("ADDR", "(1)", "AREA")?;
        put_name(names, text, "ADDR", comes.symbol())?;
        text.push_str(&rest)?;
        Ok(comes)
    }

    // Appends the length and the name of an area that is released, if they are written.
    fn put_area(self, names: &mut SymbolNames, text: &mut String) -> Result<(), Unsaid> {
        if let Some(lengths) = self.operands.get("LENGTH") {
            put_number(text, "LENGTH", self.known.number("LENGTH", lengths)?)?;
            return Ok(put_name(names, text, "ADDR", self.area_or("ADDR", "(1)")?)?);
        }
        if self.operands.get("ADDR").is_some() {
            return Err(Unsaid::of(self.known.alloc, OpenCause::Missing, "LENGTH"));
        }
        Ok(())
    }

    // Converts STORAGE RELEASE.
    fn storage_release(self, names: &mut SymbolNames, text: &mut String) -> Result<(), Unsaid> {
        self.operands.check(&RELEASING)?;
        text.push_str("STORAGE RELEASE")?;
        self.put_area(names, text)?;
        self.put_subpool(text)?;
        Ok(self.put_written(text, "COND")?)
    }

    /// Converts STORAGE to a statement, and returns where it leaves an address.
    pub fn storage(
        self,
        names: &mut SymbolNames,
        text: &mut String,
    ) -> Result<Option<Comes>, Unsaid> {
        if self.operands.get("LINKAGE") == Some("BRANCH") {
            return Err(self.refusal(OpenCause::Authorized, "LINKAGE", "BRANCH"));
        }
        match self.operands.at(0) {
            "OBTAIN" => Ok(Some(self.storage_obtain(names, text)?)),
            "RELEASE" => {
                self.storage_release(names, text)?;
                Ok(None)
            }
            form => Err(self.no_form(form)),
        }
    }
}
