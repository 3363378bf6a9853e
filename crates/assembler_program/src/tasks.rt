//! Requests that begin and end tasks.

use crate::cards::ProgramFault;
use crate::step::{StepEntry, Writing};
use mvs_model::gifts::Gifts;
use mvs_model::line::SourceRequest;
use mvs_model::name::Name;
use mvs_model::want::Residence;
use std::alloc::{AllocError, Global};
use std::io::Write;

/// The numbers that a task may have under subpools of its own.
const NUMBERS: u8 = 128;

// Returns the numbers that are given, or shared, from 1 on.
fn numbers(alloc: Global, gifts: &Gifts, is_given: bool) -> Result<Vec<u8>, AllocError> {
    let mut numbers = Vec::new(alloc);
    for number in 1..NUMBERS {
        let has = if is_given {
            gifts.gives(number)
        } else {
            gifts.shares(number)
        };
        if has {
            numbers.push(number)?;
        }
    }
    Ok(numbers)
}

// Returns a constant that is a list of numbers, with its length first.
fn number_list(alloc: Global, numbers: &[u8]) -> Result<String, AllocError> {
    let mut text = format!(in alloc; "AL1({})", numbers.len())?;
    for number in numbers {
        text.push_str(&format!(in alloc; ",AL1({number})")?)?;
    }
    Ok(text)
}

impl<W: Write> Writing<W> {
    // Returns the operand of ATTACH for some numbers: one as it is, several by a list.
    fn presents(
        &self,
        entry: &StepEntry,
        numbers: &[u8],
        letter: &str,
        key: &str,
    ) -> Result<String, AllocError> {
        let alloc = self.cards.alloc();
        match numbers {
            [] => Ok(String::new(alloc)),
            [number] => format!(in alloc; ",{key}V={number}"),
            _ => format!(in alloc; ",{key}L={letter}{}", entry.number),
        }
    }

    // Writes the list of some numbers, if there are several.
    fn put_list(
        &mut self,
        entry: &StepEntry,
        numbers: &[u8],
        letter: &str,
    ) -> Result<(), ProgramFault> {
        if numbers.len() < 2 {
            return Ok(());
        }
        let alloc = self.cards.alloc();
        let label = format!(in alloc; "{letter}{}", entry.number)?;
        self.cards
            .statement(&label, "DC", &number_list(alloc, numbers)?)?;
        self.cards.statement("", "DS", "0H")
    }

    fn attach(
        &mut self,
        entry: &StepEntry,
        name: &Name,
        gifts: &Gifts,
    ) -> Result<(), ProgramFault> {
        let alloc = self.cards.alloc();
        let task = self.task(name)?;
        let given = numbers(alloc, gifts, true)?;
        let shared = numbers(alloc, gifts, false)?;
        self.begin_slot(&task)?;
        let gives = self.presents(entry, &given, "G", "GSP")?;
        let shares = self.presents(entry, &shared, "H", "SHSP")?;
        self.attachx(&task, &gives, &shares, gifts.shares(0))?;
        self.put_list(entry, &given, "G")?;
        self.put_list(entry, &shared, "H")
    }

    // Points register 2 to the slot of a task that is not active, and begins it.
    fn begin_slot(&mut self, task: &str) -> Result<(), ProgramFault> {
        self.point(2, task)?;
        self.cards.code("TM", "SLFLAGS-SLOT(2),SLACTIVE")?;
        self.cards.branch("1", "TASKUSED")?;
        self.cards.code("BRASL", "14,NEWSLOT")
    }

    // Writes ATTACHX of a task with what it is given and shares.
    fn attachx(
        &mut self,
        task: &str,
        gives: &str,
        shares: &str,
        shares_zero: bool,
    ) -> Result<(), ProgramFault> {
        let zero = if shares_zero { "YES" } else { "NO" };
        let operands = format!(in self.cards.alloc();
            "EP=MVSTASK,PARAM=({task}),VL=1,ECB={task}+8{gives}{shares},SZERO={zero}"
        )?;
        self.cards.code("ATTACHX", &operands)?;
        self.point(2, task)?;
        self.cards.go("ATTD")
    }

    /// Writes a request that begins or ends a task.
    pub fn of_task(
        &mut self,
        entry: &StepEntry,
        written: &SourceRequest,
    ) -> Result<(), ProgramFault> {
        match written {
            SourceRequest::Attach {
                name,
                gifts,
                residence,
            } => {
                self.attach(entry, name, gifts)?;
                Ok(self.names.reside(name, *residence)?)
            }
            SourceRequest::Return => self.cards.go("TASKRETN"),
            SourceRequest::Abend(code) => {
                let operands = format!(in self.cards.alloc(); "{}", code.get())?;
                self.cards.code("ABEND", &operands)
            }
            _ => Ok(()),
        }
    }

    /// Begins the task of a step.
    pub fn begin(&mut self, task: &Name, residence: Residence) -> Result<(), ProgramFault> {
        Ok(self.names.reside(task, residence)?)
    }
}
