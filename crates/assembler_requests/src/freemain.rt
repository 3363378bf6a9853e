//! FREEMAIN.

use crate::getmain::put_list_names;
use crate::request::MacroRequest;
use assembler_operands::{Keys, OpenCause, SymbolNames, Unsaid, put_name};
use assembler_values::{put_number, put_numbers};
use std::fmt::Write;

const KEYS: Keys = Keys {
    said: &["LV", "LA", "A", "SP"],
    left: &["MF", "RELATED", "KEY"],
    authorized: &["BRANCH", "TCBADDR"],
};

/// The greatest length that register 0 holds without a subpool number.
const MOST_IN_REGISTER: u32 = 0xFF_FFFF;

// Returns a form as the script has it: those of one letter are unconditional.
fn form_of(form: &str) -> &str {
    match form {
        "E" => "EU",
        "V" => "VU",
        "L" => "LU",
        _ => form,
    }
}

impl<'a> MacroRequest<'a> {
    // Returns the length of LV, which register 0 holds together with a subpool number.
    fn length_in_register(self) -> Result<u32, Unsaid> {
        let lv = self.operands.required("LV")?;
        let length = self.known.number("LV", lv)?;
        if lv == "(0)" && length > MOST_IN_REGISTER {
            return Err(self.refusal(OpenCause::NotModelled, "LV", lv));
        }
        Ok(length)
    }

    // Converts a release of an area whose address an operand or a register holds, or of a whole subpool.
    fn free_in_register(self, names: &mut SymbolNames, text: &mut String) -> Result<(), Unsaid> {
        if self.operands.get("LV").is_none() && self.operands.get("A").is_none() {
            return Ok(());
        }
        put_number(text, "LV", self.length_in_register()?)?;
        Ok(put_name(names, text, "A", self.area("A")?)?)
    }

    // Returns the area whose address is in a word that is at an address.
    fn area_of_word(self) -> Result<&'a str, Unsaid> {
        self.known.area("A", self.symbol_at("A")?)
    }

    // Converts a release of an area of one length.
    fn free_in_word(self, names: &mut SymbolNames, text: &mut String) -> Result<(), Unsaid> {
        put_number(text, "LV", self.number("LV")?)?;
        self.free_some_in_words(names, text)
    }

    // Converts a release of an area whose length is in a word.
    fn free_some_in_words(self, names: &mut SymbolNames, text: &mut String) -> Result<(), Unsaid> {
        Ok(put_name(names, text, "A", self.area_of_word()?)?)
    }

    // Returns the symbol of a list of words into which GETMAIN has put addresses.
    fn list_of_areas(self, names: &SymbolNames) -> Result<&'a str, Unsaid> {
        let addresses = self.operands.required("A")?;
        let symbol = self.known.symbol_at("A", addresses)?;
        if !names.has_items(symbol)? {
            return Err(self.refusal(OpenCause::NoList, "A", addresses));
        }
        Ok(symbol)
    }

    // Converts a release of a list of areas.
    fn free_list(self, names: &mut SymbolNames, text: &mut String) -> Result<(), Unsaid> {
        let lengths = self.known.word_list("LA", self.operands.required("LA")?)?;
        let symbol = self.list_of_areas(names)?;
        put_numbers(text, "LA", &lengths)?;
        Ok(put_list_names(names, text, symbol, lengths.len())?)
    }

    // Converts what the form releases.
    fn free_by_form(
        self,
        names: &mut SymbolNames,
        text: &mut String,
        form: &str,
    ) -> Result<(), Unsaid> {
        match form {
            "R" | "RC" | "RU" => self.free_in_register(names, text),
            "EC" | "EU" => self.free_in_word(names, text),
            "VC" | "VU" => self.free_some_in_words(names, text),
            "LC" | "LU" => self.free_list(names, text),
            _ => Err(self.no_form(form)),
        }
    }

    /// Converts FREEMAIN to a statement.
    pub fn freemain(self, names: &mut SymbolNames, text: &mut String) -> Result<(), Unsaid> {
        self.operands.check(&KEYS)?;
        let form = form_of(self.operands.at(0));
        write!(text, "FREEMAIN {form}")?;
        self.free_by_form(names, text, form)?;
        self.put_subpool(text)
    }
}
