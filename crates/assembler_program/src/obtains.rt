//! Requests for storage.

use crate::cards::ProgramFault;
use crate::step::{StepEntry, Writing};
use mvs_model::bounded::Exponent;
use mvs_model::code::Form;
use mvs_model::codes::is_conditional;
use mvs_model::line::{Names, SourceRequest};
use mvs_model::name::Name;
use mvs_model::request::Lengths;
use mvs_model::want::{AreaRequest, Loc, Residence, Side};
use std::alloc::{AllocError, Global};
use std::fmt;
use std::io::Write;

/// A doubleword and a page, as powers of two.
const DOUBLEWORD: u32 = 3;

const PAGE: u32 = 12;

/// The bit that ends a list of lengths.
const END_OF_LIST: u32 = 0x8000_0000;

/// Returns the word for a form of GETMAIN and FREEMAIN.
pub fn word_for(form: Form) -> &'static str {
    match form {
        Form::R => "R",
        Form::Rc | Form::StorageConditional => "RC",
        Form::Ru | Form::Storage => "RU",
        Form::Vrc => "VRC",
        Form::Vru => "VRU",
        Form::Ec => "EC",
        Form::Eu => "EU",
        Form::Vc => "VC",
        Form::Vu => "VU",
        Form::Lc => "LC",
        Form::Lu => "LU",
    }
}

/// Returns a length rounded up to doublewords.
pub fn rounded(length: u32) -> u32 {
    length.div_ceil(8).saturating_mul(8)
}

// Returns a constant that is a list of lengths.
fn length_list(alloc: Global, lengths: &Lengths) -> Result<String, AllocError> {
    let mut text = String::new(alloc);
    let count = lengths.len();
    for (place, length) in lengths.as_slice().iter().enumerate() {
        let is_last = place.saturating_add(1) >= count;
        let word = length.get() | if is_last { END_OF_LIST } else { 0 };
        let comma = if place > 0 { "," } else { "" };
        text.push_str(&format!(in alloc; "{comma}XL4'{word:08X}'")?)?;
    }
    Ok(text)
}

// The boundaries of a request, as operands.
#[derive(Clone, Copy)]
struct Boundaries {
    start: u32,
    within: Option<Exponent>,
}

impl fmt::Display for Boundaries {
    fn fmt<W: fmt::Write>(&self, f: &mut fmt::Formatter<W>) -> fmt::Result {
        let start = self.start;
        match self.within {
            None if start == DOUBLEWORD => Ok(()),
            None if start == PAGE => write!(f, ",BNDRY=PAGE"),
            None => write!(f, ",STARTBDY={start}"),
            Some(within) if start == DOUBLEWORD => write!(f, ",CONTBDY={}", within.get()),
            Some(within) => write!(f, ",STARTBDY={start},CONTBDY={}", within.get()),
        }
    }
}

/// Returns the operand LOC of a request, by where the program resides.
pub fn location(loc: Loc, residence: Residence) -> &'static str {
    match (loc, residence) {
        (Loc::Below, _) | (Loc::Res, Residence::Below) => "24",
        (Loc::Any, _) | (Loc::Res, Residence::Above) => "31",
    }
}

// Returns whether a form takes a location.
fn takes_location(form: Form) -> bool {
    matches!(
        form,
        Form::Rc | Form::Ru | Form::Vrc | Form::Vru | Form::Storage | Form::StorageConditional
    )
}

impl<W: Write> Writing<W> {
    // Returns what follows the lengths of a request.
    fn rest(
        &self,
        entry: &StepEntry,
        form: Form,
        number: u8,
        ask: &AreaRequest,
    ) -> Result<String, AllocError> {
        let alloc = self.cards.alloc();
        let want = ask.want(Side::Below);
        let boundaries = Boundaries {
            start: want.start().get(),
            within: want.within(),
        };
        let mut text = format!(in alloc; ",SP={number}{boundaries}")?;
        if takes_location(form) {
            let loc = location(ask.loc(), self.names.residence(&entry.task));
            text.push_str(&format!(in alloc; ",LOC={loc}")?)?;
        }
        Ok(text)
    }

    /// Answers RC 4 where register 15 is not zero, if the request is conditional.
    pub fn test_code(&mut self, form: Form) -> Result<(), ProgramFault> {
        if is_conditional(form) {
            self.cards.code("LTR", "15,15")?;
            self.cards.branch("7", "RC4")?;
        }
        Ok(())
    }

    // Writes a request whose area comes in register 1, and its length in register 0 where it is variable.
    fn obtain_in_register(
        &mut self,
        entry: &StepEntry,
        form: Form,
        lengths: &str,
        rest: &str,
    ) -> Result<(), ProgramFault> {
        let alloc = self.cards.alloc();
        if entry.is_storage {
            let condition = if is_conditional(form) { "YES" } else { "NO" };
            let operands = format!(in alloc;
                "OBTAIN,LENGTH={lengths},ADDR=(1){rest},COND={condition}"
            )?;
            self.cards.code("STORAGE", &operands)
        } else {
            let word = word_for(form);
            self.cards.code("GETMAIN", &format!(in alloc; "{word},LV={lengths}{rest}")?)
        }
    }

    // Writes a request whose area comes in words.
    fn obtain_in_words(
        &mut self,
        entry: &StepEntry,
        form: Form,
        length: Option<u32>,
        rest: &str,
    ) -> Result<(), ProgramFault> {
        let alloc = self.cards.alloc();
        let word = word_for(form);
        self.point(3, "WORDS")?;
        let lengths = match length {
            Some(length) => format!(in alloc; "LV={length}")?,
            None => {
                let list = format!(in alloc; "X{}", entry.number)?;
                self.point(4, &list)?;
                String::from_str(alloc, "LA=(4)")?
            }
        };
        self.cards.code(
            "GETMAIN",
            &format!(in alloc; "{word},{lengths},A=(3){rest}")?,
        )?;
        self.test_code(form)?;
        self.point(3, "WORDS")
    }

    // Writes a request for one area of a length.
    fn obtain_fixed(
        &mut self,
        entry: &StepEntry,
        form: Form,
        ask: &AreaRequest,
        rest: &str,
        area: &Name,
    ) -> Result<(), ProgramFault> {
        if matches!(form, Form::Ec | Form::Eu) {
            self.obtain_in_words(entry, form, Some(ask.most()), rest)?;
            self.cards.code("L", "1,0(,3)")?;
        } else {
            let length = format!(in self.cards.alloc(); "{}", ask.most())?;
            self.obtain_in_register(entry, form, &length, rest)?;
            self.test_code(form)?;
        }
        self.load(0, rounded(ask.most()))?;
        self.set_area(area)?;
        self.cards.go("RC0")
    }

    // Writes a request for one area of some length.
    fn obtain_variable(
        &mut self,
        entry: &StepEntry,
        form: Form,
        ask: &AreaRequest,
        rest: &str,
        area: &Name,
    ) -> Result<(), ProgramFault> {
        if matches!(form, Form::Vc | Form::Vu) {
            self.obtain_some_in_words(entry, form, rest)?;
            self.set_area(area)?;
            self.cards.go("RCLEN")?;
            return self.put_bounds(entry, ask);
        }
        let (most, least) = (ask.most(), ask.least());
        let lengths = format!(in self.cards.alloc(); "({most},{least})")?;
        self.obtain_in_register(entry, form, &lengths, rest)?;
        self.test_code(form)?;
        self.set_area(area)?;
        self.cards.go("RCLEN")
    }

    // Writes a request for one area of some length that comes in words: loads the address in register 1 and the length in register 0.
    fn obtain_some_in_words(
        &mut self,
        entry: &StepEntry,
        form: Form,
        rest: &str,
    ) -> Result<(), ProgramFault> {
        self.obtain_in_words(entry, form, None, rest)?;
        self.cards.code("L", "1,0(,3)")?;
        self.cards.code("L", "0,4(,3)")
    }

    // Writes the least and the greatest length of a request, with their label.
    fn put_bounds(&mut self, entry: &StepEntry, ask: &AreaRequest) -> Result<(), ProgramFault> {
        let alloc = self.cards.alloc();
        let label = format!(in alloc; "X{}", entry.number)?;
        let bounds = format!(in alloc; "F'{}',F'{}'", ask.least(), ask.most())?;
        self.cards.statement(&label, "DC", &bounds)
    }

    // Writes a request for a list of areas.
    fn obtain_list(
        &mut self,
        entry: &StepEntry,
        form: Form,
        rest: &str,
        lengths: &Lengths,
        areas: &Names,
    ) -> Result<(), ProgramFault> {
        self.obtain_in_words(entry, form, None, rest)?;
        let mut offset = 0u32;
        for (length, area) in lengths.as_slice().iter().zip(areas.as_slice().iter()) {
            self.set_item(offset, length.get(), area)?;
            offset = offset.saturating_add(4);
        }
        self.cards.go("RC0")?;
        let label = format!(in self.cards.alloc(); "X{}", entry.number)?;
        self.put_length_list(&label, lengths)
    }

    // Sets a name to the area whose address is in a word, a number of bytes after the one that register 3 points to.
    fn set_item(&mut self, offset: u32, length: u32, area: &Name) -> Result<(), ProgramFault> {
        let operands = format!(in self.cards.alloc(); "1,{offset}(,3)")?;
        self.cards.code("L", &operands)?;
        self.load(0, rounded(length))?;
        self.set_area(area)
    }

    /// Writes a list of lengths with its label.
    pub fn put_length_list(&mut self, label: &str, lengths: &Lengths) -> Result<(), ProgramFault> {
        let list = length_list(self.cards.alloc(), lengths)?;
        self.cards.statement("", "DS", "0F")?;
        self.cards.statement(label, "DC", &list)
    }

    /// Writes a request for one area or for a list of them.
    pub fn obtain(
        &mut self,
        entry: &StepEntry,
        written: &SourceRequest,
    ) -> Result<(), ProgramFault> {
        match written {
            SourceRequest::Obtain {
                form,
                number,
                ask,
                variable,
                area,
            } => {
                let rest = self.rest(entry, *form, *number, ask)?;
                if *variable {
                    self.obtain_variable(entry, *form, ask, &rest, area)
                } else {
                    self.obtain_fixed(entry, *form, ask, &rest, area)
                }
            }
            SourceRequest::ObtainList {
                form,
                number,
                lengths,
                start,
                areas,
            } => {
                let boundaries = Boundaries {
                    start: start.get(),
                    within: None,
                };
                let rest = format!(in self.cards.alloc(); ",SP={number}{boundaries}")?;
                self.obtain_list(entry, *form, &rest, lengths, areas)
            }
            _ => Ok(()),
        }
    }
}
