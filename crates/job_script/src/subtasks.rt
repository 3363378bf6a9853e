//! ATTACH and ABEND (Assembler Services Reference). Which operands they take, and how, is this project's choice.

ghost use Rattle.std.specs.Prelude.{◌≡◌, ◌<◌, ◌^◌, ◌&&◌, [], codes, map, is_some, false, Some};
ghost use Rattle.mvs_model.specs.Gifts.{IsGifts};
ghost use Rattle.mvs_model.specs.Grammar.{Attaches, Abends};
ghost use Rattle.mvs_model.specs.Numbers.{task_numbers};
ghost use Rattle.mvs_model.specs.Reading.{presents, statement_of, set_of, numbers_in, numbers_under, number};
ghost use Rattle.job_script.specs.Rows.{key_text};
ghost use Rattle.job_script.specs.GivenOperands.{IsRead, by_place};
ghost use Rattle.job_script.specs.Items.{items_in};
ghost use Rattle.job_script.specs.LineMeaning.{filled, line_of_task, Holds, IsRanged, IsNamed, AreGifts, AreGiven};

use crate::addresses::name;
use crate::digits::{bounded, number};
use crate::given::GivenOperands;
use crate::items::inside;
use crate::keys::Key;
use crate::split_once::split_once;
use mvs_model::gifts::Gifts;
use mvs_model::line::{Fault, Line, SourceRequest, Statement};
use mvs_model::name::Name;

// Returns the set of one number.
fn bit(number: u64) -> u128
    requires { number < task_numbers }
    ensures { result ≡ 2 ^ number }
{
    1u128 << number
}

// Returns the set of the numbers of a list from 1 to 127, a bit for each.
fn set(items: &[u8]) -> u128
    requires { AreGifts (items_in items.now) }
    ensures { result ≡ set_of (map number (items_in items.now)) }
{
    let (first, rest) = split_once(items, b',');
    match rest {
        None => bit(number(first)),
        Some(rest) => bit(number(first)) | set(rest),
    }
}

// Returns the set of a number or of a list of numbers.
fn set_in(text: &[u8]) -> u128
    requires { AreGiven (Some text.now) }
    ensures { result ≡ set_of (numbers_in (Some text.now)) }
{
    match inside(text) {
        None => set(text),
        Some(items) => set(items),
    }
}

impl GivenOperands<'_> {
    // Returns the set of the numbers under one of two keys.
    fn set_under(&self, one: Key, list: Key) -> u128
        requires read { IsRead self.now }
        requires one { AreGiven ((by_place self.now).under (key_text one)) }
        requires list { AreGiven ((by_place self.now).under (key_text list)) }
        requires alone { (is_some ((by_place self.now).under (key_text one))
            && is_some ((by_place self.now).under (key_text list))) ≡ false }
        ensures { result
            ≡ set_of (numbers_under (key_text one) (key_text list) (by_place self.now)) }
    {
        match self.text(one) {
            Some(text) => set_in(text),
            None => match self.text(list) {
                None => 0,
                Some(text) => set_in(text),
            },
        }
    }

    /// Reads ATTACH (Assembler Services Reference).
    pub fn attach(&self, task: Name, line: &mut Line) -> Result<(), Fault>
        requires read { IsRead self.now }
        requires name { Holds (IsNamed) ((by_place self.now).under (codes "TASK")) }
        requires given { AreGiven ((by_place self.now).under (codes "GSPV"))
            × AreGiven ((by_place self.now).under (codes "GSPL")) }
        requires shared { AreGiven ((by_place self.now).under (codes "SHSPV"))
            × AreGiven ((by_place self.now).under (codes "SHSPL")) }
        requires one_given { (is_some ((by_place self.now).under (codes "GSPV"))
            && is_some ((by_place self.now).under (codes "GSPL"))) ≡ false }
        requires one_shared { (is_some ((by_place self.now).under (codes "SHSPV"))
            && is_some ((by_place self.now).under (codes "SHSPL"))) ≡ false }
        requires apart { IsGifts (presents (by_place self.now)) }
        ensures { filled line.new result
            ≡ line_of_task task (statement_of Attaches [] (by_place self.now)) }
    {
        let subtask = self.required(Key::Task)?;
        let given = self.set_under(Key::Gspv, Key::Gspl);
        let shared = self.set_under(Key::Shspv, Key::Shspl);
        let zero = !self.is_word(Key::Szero, b"NO");
        let Some(gifts) = Gifts::new(given, shared, zero) else {
            unreachable!();
        };
        *line = Line::Statement(
            task,
            Statement::Request(SourceRequest::Attach {
                name: name(subtask),
                gifts,
                residence: self.residence(),
            }),
        );
        Ok(())
    }

    /// Reads ABEND (Assembler Services Reference).
    pub fn abend(&self, task: Name, line: &mut Line) -> Result<(), Fault>
        requires read { IsRead self.now }
        requires code { Holds (IsRanged 0 4095) ((by_place self.now).at 0) }
        ensures { filled line.new result
            ≡ line_of_task task (statement_of Abends [] (by_place self.now)) }
    {
        let code = self.required_at(0)?;
        *line = Line::Statement(
            task,
            Statement::Request(SourceRequest::Abend(bounded(code))),
        );
        Ok(())
    }
}
