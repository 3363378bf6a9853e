//! GETMAIN.

use crate::request::MacroRequest;
use assembler_operands::{Keys, NoName, OpenCause, SymbolNames, Unsaid, put_name};
use assembler_values::{Comes, put_number, put_numbers};
use std::fmt::Write;

const KEYS: Keys = Keys {
    said: &["LV", "LA", "A", "SP", "BNDRY", "STARTBDY", "CONTBDY", "LOC"],
    left: &["MF", "RELATED", "CHECKZERO", "KEY", "EXECUTABLE", "BACK"],
    authorized: &["BRANCH", "TCBADDR", "OWNER"],
};

/// What a form asks for.
#[derive(Clone, Copy)]
enum Asks {
    /// One area, whose address comes in register 1.
    InRegister,
    /// One area of some length, whose address comes in register 1 and whose length in register 0.
    SomeInRegister,
    /// One area, whose address is put into a word.
    InWord,
    /// One area of some length, whose address and length are put into two words.
    SomeInWords,
    /// A list of areas.
    List,
}

// What each form asks for.
const FORMS: &[(Asks, &[&str])] = &[
    (Asks::InRegister, &["R", "RC", "RU"]),
    (Asks::SomeInRegister, &["VRC", "VRU"]),
    (Asks::InWord, &["EC", "EU"]),
    (Asks::SomeInWords, &["VC", "VU"]),
    (Asks::List, &["LC", "LU"]),
];

fn asks_of(form: &str) -> Option<Asks> {
    for (asks, forms) in FORMS {
        if forms.contains(&form) {
            return Some(*asks);
        }
    }
    None
}

/// Appends the names of the areas whose addresses are in the words of a list. It fails if no name is left.
pub fn put_list_names(
    names: &mut SymbolNames,
    text: &mut String,
    symbol: &str,
    count: usize,
) -> Result<(), NoName> {
    for place in 1..=count {
        let name = names.of_item(symbol, place)?;
        let before = if place > 1 { "," } else { ",A=(" };
        write!(text, "{before}{name}")?;
    }
    text.push_str(")")?;
    Ok(())
}

// Appends the lengths and the name of an area of some length.
fn put_some(
    names: &mut SymbolNames,
    text: &mut String,
    lengths: (u32, u32),
    symbol: &str,
) -> Result<(), NoName> {
    let (most, least) = lengths;
    write!(text, ",LV=({most},{least})")?;
    put_name(names, text, "A", symbol)
}

impl<'a> MacroRequest<'a> {
    // Appends what is written after the lengths and the names.
    fn put_rest(self, text: &mut String) -> Result<(), Unsaid> {
        self.put_subpool(text)?;
        self.put_boundaries(text)?;
        self.put_location(text)
    }

    // Converts a request for an area whose address comes in register 1.
    fn get_in_register(self, names: &mut SymbolNames, text: &mut String) -> Result<Comes, Unsaid> {
        put_number(text, "LV", self.number("LV")?)?;
        let symbol = self.known.symbol_for(1, "AREA")?;
        put_name(names, text, "A", &symbol)?;
        self.put_rest(text)?;
        Ok(Comes::InRegister {
            register: 1,
            symbol,
        })
    }

    // Returns the greatest and the least length of LV.
    fn lengths(self) -> Result<(u32, u32), Unsaid> {
        let lengths = self.operands.required("LV")?;
        self.known
            .pair("LV", lengths)?
            .ok_or_else(|| self.refusal(OpenCause::NoNumber, "LV", lengths))
    }

    // Converts a request for an area of some length whose address comes in register 1.
    fn get_some_in_register(
        self,
        names: &mut SymbolNames,
        text: &mut String,
    ) -> Result<Comes, Unsaid> {
        let lengths = self.lengths()?;
        let symbol = self.known.symbol_for(1, "AREA")?;
        put_some(names, text, lengths, &symbol)?;
        self.put_rest(text)?;
        Ok(Comes::InRegister {
            register: 1,
            symbol,
        })
    }

    // Converts a request for an area whose address is put into a word.
    fn get_in_word(self, names: &mut SymbolNames, text: &mut String) -> Result<Comes, Unsaid> {
        put_number(text, "LV", self.number("LV")?)?;
        let comes = self.known.comes_in_word(self.symbol_at("A")?)?;
        put_name(names, text, "A", comes.symbol())?;
        self.put_rest(text)?;
        Ok(comes)
    }

    // Converts a request for an area of some length: its least length is in the first word of the list, its greatest in the second.
    fn get_some_in_words(
        self,
        names: &mut SymbolNames,
        text: &mut String,
    ) -> Result<Comes, Unsaid> {
        let (least, most) = self.known.two_words("LA", self.operands.required("LA")?)?;
        let comes = self.known.comes_in_word(self.symbol_at("A")?)?;
        put_some(names, text, (most, least), comes.symbol())?;
        self.put_rest(text)?;
        Ok(comes)
    }

    // Appends the lengths and the names of a list of areas, whose addresses are put into words from a symbol on.
    fn put_list(self, names: &mut SymbolNames, text: &mut String) -> Result<&'a str, Unsaid> {
        let lengths = self.known.word_list("LA", self.operands.required("LA")?)?;
        let symbol = self.symbol_at("A")?;
        names.renew_list(symbol, self.known.time)?;
        put_numbers(text, "LA", &lengths)?;
        put_list_names(names, text, symbol, lengths.len())?;
        Ok(symbol)
    }

    // Converts a request for a list of areas.
    fn get_list(self, names: &mut SymbolNames, text: &mut String) -> Result<Comes, Unsaid> {
        let word = self.put_list(names, text)?;
        self.put_rest(text)?;
        Ok(Comes::InWord {
            word: String::from_str(self.known.alloc, word)?,
            symbol: names.item_called(word, 1)?,
        })
    }

    /// Converts GETMAIN to a statement, and returns where it leaves an address.
    pub fn getmain(self, names: &mut SymbolNames, text: &mut String) -> Result<Comes, Unsaid> {
        self.operands.check(&KEYS)?;
        let form = self.operands.at(0);
        let Some(wanted) = asks_of(form) else {
            return Err(self.no_form(form));
        };
        write!(text, "GETMAIN {form}")?;
        match wanted {
            Asks::InRegister => self.get_in_register(names, text),
            Asks::SomeInRegister => self.get_some_in_register(names, text),
            Asks::InWord => self.get_in_word(names, text),
            Asks::SomeInWords => self.get_some_in_words(names, text),
            Asks::List => self.get_list(names, text),
        }
    }
}
