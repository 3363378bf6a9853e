//! Releases of storage.

use crate::cards::ProgramFault;
use crate::obtains::word_for;
use crate::step::{StepEntry, Writing};
use mvs_model::code::Form;
use mvs_model::codes::is_conditional;
use mvs_model::line::{Location, Locations, SourceRequest};
use mvs_model::name::Name;
use mvs_model::request::Lengths;
use std::io::Write;

impl<W: Write> Writing<W> {
    // Writes a release of one area.
    fn release_area(
        &mut self,
        entry: &StepEntry,
        form: Form,
        number: u8,
        location: &Location,
        length: u32,
    ) -> Result<(), ProgramFault> {
        self.locate(2, location)?;
        if entry.is_storage {
            self.storage_release(form, number, length)?;
        } else {
            self.freemain(form, number, length)?;
        }
        self.test_code(form)?;
        self.cards.go("RC0")
    }

    // Writes STORAGE RELEASE of the area to which register 2 points.
    fn storage_release(&mut self, form: Form, number: u8, length: u32) -> Result<(), ProgramFault> {
        let condition = if is_conditional(form) { "YES" } else { "NO" };
        let operands = format!(in self.cards.alloc();
            "RELEASE,LENGTH={length},ADDR=(2),SP={number},COND={condition}"
        )?;
        self.cards.code("STORAGE", &operands)
    }

    // Writes FREEMAIN of the area to which register 2 points: in the E forms the address is in a word, to which register 3 points.
    fn freemain(&mut self, form: Form, number: u8, length: u32) -> Result<(), ProgramFault> {
        let is_in_word = matches!(form, Form::Ec | Form::Eu);
        if is_in_word {
            self.point(3, "WORDS")?;
            self.cards.code("ST", "2,0(,3)")?;
        }
        let word = word_for(form);
        let register = if is_in_word { 3 } else { 2 };
        let operands = format!(in self.cards.alloc();
            "{word},LV={length},A=({register}),SP={number}"
        )?;
        self.cards.code("FREEMAIN", &operands)
    }

    // Writes a release of an area by the two words that its name has.
    fn release_named(&mut self, form: Form, number: u8, area: &Name) -> Result<(), ProgramFault> {
        self.point_to_name(3, area)?;
        let word = word_for(form);
        let operands = format!(in self.cards.alloc(); "{word},A=(3),SP={number}")?;
        self.cards.code("FREEMAIN", &operands)?;
        self.test_code(form)?;
        self.cards.go("RC0")
    }

    // Writes a release of a list of areas.
    fn release_list(
        &mut self,
        entry: &StepEntry,
        form: Form,
        number: u8,
        locations: &Locations,
        lengths: &Lengths,
    ) -> Result<(), ProgramFault> {
        self.store_locations(locations)?;
        let list = format!(in self.cards.alloc(); "X{}", entry.number)?;
        self.point(4, &list)?;
        self.freemain_list(form, number)?;
        self.put_length_list(&list, lengths)
    }

    // Stores the addresses of some locations in words, to which register 3 points.
    fn store_locations(&mut self, locations: &Locations) -> Result<(), ProgramFault> {
        self.point(3, "WORDS")?;
        let mut offset = 0u32;
        for location in locations.as_slice() {
            self.locate(2, location)?;
            let operands = format!(in self.cards.alloc(); "2,{offset}(,3)")?;
            self.cards.code("ST", &operands)?;
            offset = offset.saturating_add(4);
        }
        Ok(())
    }

    // Writes FREEMAIN of the list to which registers 3 and 4 point.
    fn freemain_list(&mut self, form: Form, number: u8) -> Result<(), ProgramFault> {
        let word = word_for(form);
        let operands = format!(in self.cards.alloc(); "{word},LA=(4),A=(3),SP={number}")?;
        self.cards.code("FREEMAIN", &operands)?;
        self.test_code(form)?;
        self.cards.go("RC0")
    }

    // Writes a release of a whole subpool.
    fn release_whole(
        &mut self,
        entry: &StepEntry,
        form: Form,
        number: u8,
    ) -> Result<(), ProgramFault> {
        let alloc = self.cards.alloc();
        if entry.is_storage {
            let condition = if is_conditional(form) { "YES" } else { "NO" };
            let operands = format!(in alloc; "RELEASE,SP={number},COND={condition}")?;
            self.cards.code("STORAGE", &operands)?;
        } else {
            let word = word_for(form);
            self.cards
                .code("FREEMAIN", &format!(in alloc; "{word},SP={number}")?)?;
        }
        self.test_code(form)?;
        self.cards.go("RC0")
    }

    /// Writes a release of any kind.
    pub fn release(
        &mut self,
        entry: &StepEntry,
        written: &SourceRequest,
    ) -> Result<(), ProgramFault> {
        match written {
            SourceRequest::Release {
                form,
                number,
                location,
                len,
            } => self.release_area(entry, *form, *number, location, len.get()),
            SourceRequest::ReleaseArea { form, number, area } => {
                self.release_named(*form, *number, area)
            }
            SourceRequest::ReleaseList {
                form,
                number,
                locations,
                lengths,
            } => self.release_list(entry, *form, *number, locations, lengths),
            SourceRequest::ReleaseWhole { form, number } => self.release_whole(
                entry, *form, *number,
            ),
            _ => Ok(()),
        }
    }
}
