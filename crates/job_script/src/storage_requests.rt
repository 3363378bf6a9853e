//! The statements REGION, GETMAIN, FREEMAIN and STORAGE, made of their operands; and the operands that other statements have too: SP, LOC, RES.

ghost use Rattle.std.specs.Prelude.{◌≡◌, [], codes, if◌then◌else◌};
ghost use Rattle.mvs_model.specs.Grammar.{IsRegion, Obtains, ObtainsList, Releases, ReleasesArea, ReleasesList};
ghost use Rattle.mvs_model.specs.Numbers.{most_pages_above, most_pages_below};
ghost use Rattle.mvs_model.specs.Reading.{number_or, is_word, subpool, start_of, loc_of, residence_of, ask_for, form_of, statement_of};
ghost use Rattle.job_script.specs.Rows.{key_text};
ghost use Rattle.job_script.specs.GivenOperands.{IsRead, by_place};
ghost use Rattle.job_script.specs.Values.{IsExtent, IsNumbers, IsNames, IsLocations};
ghost use Rattle.job_script.specs.LineMeaning.{filled, line_of_task, loc_named, Holds, IsRanged, IsNamed, IsLocated, IsByte};

use crate::addresses::{location, name};
use crate::digits::bounded;
use crate::given::GivenOperands;
use crate::items::inside;
use crate::keys::Key;
use crate::rows::MOST_NUMBER;
use crate::values::{byte, extent, lengths, locations, names};
use mvs_model::bounded::{Bounded, Exponent, PagesAbove};
use mvs_model::code::Form;
use mvs_model::line::{Fault, Line, SourceRequest, Statement};
use mvs_model::name::Name;
use mvs_model::want::{AreaRequest, Loc, Residence};

// Returns the location that a word names (Assembler Services Reference, GETMAIN, LOC).
fn loc_named(text: &[u8]) -> Loc
    ensures { result ≡ loc_named text.now }
{
    if text == b"BELOW".as_slice() || text == b"24".as_slice() {
        Loc::Below
    } else if text == b"ANY".as_slice() || text == b"31".as_slice() {
        Loc::Any
    } else {
        Loc::Res
    }
}

impl GivenOperands<'_> {
    // Returns the number under a key, or another.
    pub fn number_or<const LEAST: u32, const MOST: u32>(
        &self,
        key: Key,
        other: Bounded<LEAST, MOST>,
    ) -> Bounded<LEAST, MOST>
        requires read { IsRead self.now }
        requires ranged { Holds (IsRanged LEAST MOST) ((by_place self.now).under (key_text key)) }
        ensures { result ≡ number_or other.entry (key_text key) (by_place self.now) }
    {
        match self.text(key) {
            None => other,
            Some(text) => bounded(text),
        }
    }

    // Returns whether a key has this word.
    pub fn is_word(&self, key: Key, word: &[u8]) -> bool
        requires { IsRead self.now }
        ensures { result ≡ is_word (key_text key) word.now (by_place self.now) }
    {
        match self.text(key) {
            None => false,
            Some(text) => text == word,
        }
    }

    // Returns the number of the subpool, or 0 (Assembler Services Reference, GETMAIN, SP).
    pub fn subpool(&self) -> u8
        requires { IsRead self.now }
        ensures { result ≡ subpool (by_place self.now) }
    {
        match self.text(Key::Sp) {
            None => 0,
            Some(text) => bounded::<0, MOST_NUMBER>(text).get() as u8,
        }
    }

    // Returns the power of two of the boundary that BNDRY says, or that of a doubleword (Assembler Services Reference, GETMAIN).
    fn boundary(&self) -> Exponent
        requires { IsRead self.now }
        ensures { result
            ≡ (if is_word (codes "BNDRY") (codes "PAGE") (by_place self.now) then 12 else 3) }
    {
        if self.is_word(Key::Bndry, b"PAGE") {
            Exponent::new(12)
        } else {
            Exponent::new(3)
        }
    }

    // Returns the power of two of the boundary that an area begins on: STARTBDY, or that of BNDRY (Assembler Services Reference, GETMAIN).
    fn start(&self) -> Exponent
        requires { IsRead self.now }
        ensures { result ≡ start_of (by_place self.now) }
    {
        match self.text(Key::Startbdy) {
            None => self.boundary(),
            Some(text) => bounded(text),
        }
    }

    // Returns the location of an area.
    pub fn loc(&self) -> Loc
        requires { IsRead self.now }
        ensures { result ≡ loc_of (by_place self.now) }
    {
        match self.text(Key::Loc) {
            None => Loc::Res,
            Some(text) => loc_named(text),
        }
    }

    // Returns where the program of a task resides.
    pub fn residence(&self) -> Residence
        requires { IsRead self.now }
        ensures { result ≡ residence_of (by_place self.now) }
    {
        if self.is_word(Key::Res, b"ABOVE") {
            Residence::Above
        } else {
            Residence::Below
        }
    }

    // Returns the form that a word names, or that of STORAGE by COND (Assembler Services Reference, GETMAIN, FREEMAIN and STORAGE).
    fn form(&self, word: &[u8]) -> Form
        requires { IsRead self.now }
        ensures { result ≡ form_of word.now (by_place self.now) }
    {
        match word {
            b"R" => Form::R,
            b"RC" => Form::Rc,
            b"RU" => Form::Ru,
            b"VRC" => Form::Vrc,
            b"VRU" => Form::Vru,
            b"EC" => Form::Ec,
            b"EU" => Form::Eu,
            b"VC" => Form::Vc,
            b"VU" => Form::Vu,
            b"LC" => Form::Lc,
            b"LU" => Form::Lu,
            _ => {
                if self.is_word(Key::Cond, b"YES") {
                    Form::StorageConditional
                } else {
                    Form::Storage
                }
            }
        }
    }

    // Returns what is asked for with these lengths.
    fn ask(&self, lengths: &[u8]) -> AreaRequest
        requires read { IsRead self.now }
        requires extent { IsExtent lengths.now }
        ensures { result ≡ ask_for lengths.now (by_place self.now) }
    {
        let (largest, smallest) = extent(lengths);
        let ask = AreaRequest::fixed(largest, self.start(), self.loc()).at_least(smallest);
        match self.text(Key::Contbdy) {
            None => ask,
            Some(within) => ask.within(bounded(within)),
        }
    }

    // Reads REGION.
    pub fn region(&self, task: Name, line: &mut Line) -> Result<(), Fault>
        requires read { IsRead self.now }
        requires below { Holds (IsRanged 1 most_pages_below)
            ((by_place self.now).under (codes "BELOW")) }
        requires above { Holds (IsRanged 0 most_pages_above)
            ((by_place self.now).under (codes "ABOVE")) }
        requires fill { Holds (IsByte) ((by_place self.now).under (codes "FILL")) }
        ensures { filled line.new result
            ≡ line_of_task task (statement_of IsRegion [] (by_place self.now)) }
    {
        let below = self.required(Key::Below)?;
        let fill = match self.text(Key::Fill) {
            None => 0,
            Some(digits) => byte(digits),
        };
        *line = Line::Statement(
            task,
            Statement::Region {
                below: bounded(below),
                above: self.number_or(Key::Above, PagesAbove::new(0)),
                fill,
                residence: self.residence(),
            },
        );
        Ok(())
    }

    // Reads a request for an area, its lengths under one key and its name under another.
    pub fn obtain(
        &self,
        task: Name,
        form: &[u8],
        lengths: Key,
        area: Key,
        line: &mut Line,
    ) -> Result<(), Fault>
        requires read { IsRead self.now }
        requires lengths { Holds IsExtent ((by_place self.now).under (key_text lengths)) }
        requires area { Holds IsNamed ((by_place self.now).under (key_text area)) }
        ensures { filled line.new result
            ≡ line_of_task task
            (statement_of (Obtains (key_text lengths) (key_text area)) form.now
            (by_place self.now)) }
    {
        let lengths = self.required(lengths)?;
        let area = self.required(area)?;
        *line = Line::Statement(
            task,
            Statement::Request(SourceRequest::Obtain {
                form: self.form(form),
                number: self.subpool(),
                ask: self.ask(lengths),
                variable: inside(lengths).is_some(),
                area: name(area),
            }),
        );
        Ok(())
    }

    // Reads a request for a list of areas.
    pub fn obtain_list(&self, task: Name, form: &[u8], line: &mut Line) -> Result<(), Fault>
        requires read { IsRead self.now }
        requires lengths { Holds (IsNumbers) ((by_place self.now).under (codes "LA")) }
        requires areas { Holds (IsNames) ((by_place self.now).under (codes "A")) }
        ensures { filled line.new result
            ≡ line_of_task task (statement_of ObtainsList form.now (by_place self.now)) }
    {
        let list = self.required(Key::La)?;
        let areas = self.required(Key::A)?;
        *line = Line::Statement(
            task,
            Statement::Request(SourceRequest::ObtainList {
                form: self.form(form),
                number: self.subpool(),
                lengths: lengths(list),
                start: self.start(),
                areas: names(areas),
            }),
        );
        Ok(())
    }

    // Reads a release of the place under two keys, or of the whole subpool where neither is there.
    pub fn release(
        &self,
        task: Name,
        form: &[u8],
        len: Key,
        address: Key,
        line: &mut Line,
    ) -> Result<(), Fault>
        requires read { IsRead self.now }
        requires len { Holds (IsRanged 1 2147483647) ((by_place self.now).under (key_text len)) }
        requires address { Holds IsLocated ((by_place self.now).under (key_text address)) }
        ensures { filled line.new result
            ≡ line_of_task task
            (statement_of (Releases (key_text len) (key_text address)) form.now
            (by_place self.now)) }
    {
        let number = self.subpool();
        let form = self.form(form);
        match (self.text(len), self.text(address)) {
            (Some(len), Some(address)) => {
                *line = Line::Statement(
                    task,
                    Statement::Request(SourceRequest::Release {
                        form,
                        number,
                        location: location(address),
                        len: bounded(len),
                    }),
                );
                Ok(())
            }
            (None, None) => {
                *line = Line::Statement(
                    task,
                    Statement::Request(SourceRequest::ReleaseWhole { form, number }),
                );
                Ok(())
            }
            _ => Err(Fault::MissingOperand),
        }
    }

    // Reads a release of the place of an area.
    pub fn release_area(&self, task: Name, form: &[u8], line: &mut Line) -> Result<(), Fault>
        requires read { IsRead self.now }
        requires area { Holds (IsNamed) ((by_place self.now).under (codes "A")) }
        ensures { filled line.new result
            ≡ line_of_task task (statement_of ReleasesArea form.now (by_place self.now)) }
    {
        let area = self.required(Key::A)?;
        *line = Line::Statement(
            task,
            Statement::Request(SourceRequest::ReleaseArea {
                form: self.form(form),
                number: self.subpool(),
                area: name(area),
            }),
        );
        Ok(())
    }

    // Reads a release of a list of places.
    pub fn release_list(&self, task: Name, form: &[u8], line: &mut Line) -> Result<(), Fault>
        requires read { IsRead self.now }
        requires lengths { Holds (IsNumbers) ((by_place self.now).under (codes "LA")) }
        requires addresses { Holds (IsLocations) ((by_place self.now).under (codes "A")) }
        ensures { filled line.new result
            ≡ line_of_task task (statement_of ReleasesList form.now (by_place self.now)) }
    {
        let list = self.required(Key::La)?;
        let addresses = self.required(Key::A)?;
        *line = Line::Statement(
            task,
            Statement::Request(SourceRequest::ReleaseList {
                form: self.form(form),
                number: self.subpool(),
                locations: locations(addresses),
                lengths: lengths(list),
            }),
        );
        Ok(())
    }
}
