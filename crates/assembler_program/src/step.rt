//! The statements of a step, and how one is written as a routine.

use crate::cards::{Cards, ProgramFault};
use crate::names::{StepNames, text_of};
use mvs_model::line::{Location, SourceRequest, Statement};
use mvs_model::name::Name;
use std::alloc::AllocError;
use std::io::Write;

/// A statement of a script: its line, its task, and what it says.
#[derive(Drop)]
pub struct StepEntry {
    pub number: u32,
    pub task: Name,
    pub text: String,
    pub statement: Statement,
    /// Whether it is one of STORAGE.
    pub is_storage: bool,
}

/// Returns whether a statement is written as a routine.
pub fn is_written(statement: &Statement) -> bool {
    matches!(statement, Statement::Request(_) | Statement::Where(_))
}

/// A program that is being written.
#[derive(Drop)]
pub struct Writing<W> {
    pub cards: Cards<W>,
    pub names: StepNames,
}

impl<W: Write> Writing<W> {
    /// Returns the label of an area or a cell.
    pub fn area(&mut self, name: &Name) -> Result<String, AllocError> {
        let number = self.names.areas.number(name)?;
        format!(in self.cards.alloc(); "N{number}")
    }

    /// Returns the label of a pool.
    pub fn pool(&mut self, name: &Name) -> Result<String, AllocError> {
        let number = self.names.pools.number(name)?;
        format!(in self.cards.alloc(); "P{number}")
    }

    /// Returns the label of a task.
    pub fn task(&mut self, name: &Name) -> Result<String, AllocError> {
        let number = self.names.tasks.number(name)?;
        format!(in self.cards.alloc(); "T{number}")
    }

    /// Loads a register with the address of a label.
    pub fn point(&mut self, register: u8, label: &str) -> Result<(), ProgramFault> {
        let operands = format!(in self.cards.alloc(); "{register},{label}")?;
        self.cards.code("LARL", &operands)
    }

    /// Loads a register with a number.
    pub fn load(&mut self, register: u8, number: u32) -> Result<(), ProgramFault> {
        let operands = format!(in self.cards.alloc(); "{register},{number}")?;
        self.cards.code("LGFI", &operands)
    }

    /// Points a register to the words of a name, or answers that the name is not set.
    pub fn point_to_name(&mut self, register: u8, name: &Name) -> Result<(), ProgramFault> {
        let label = self.area(name)?;
        self.point(register, &label)?;
        let operands = format!(in self.cards.alloc(); "8({register}),1")?;
        self.cards.code("CLI", &operands)?;
        self.cards.branch("7", "NONAME")
    }

    // Loads a register with the address in the first of the words that it points to.
    fn follow(&mut self, register: u8) -> Result<(), ProgramFault> {
        let operands = format!(in self.cards.alloc(); "{register},0(,{register})")?;
        self.cards.code("L", &operands)
    }

    // Adds bytes to a register.
    fn add(&mut self, register: u8, bytes: u32) -> Result<(), ProgramFault> {
        if bytes == 0 {
            return Ok(());
        }
        let operands = format!(in self.cards.alloc(); "{register},{bytes}")?;
        self.cards.code("AFI", &operands)
    }

    // Loads a register with an address.
    fn load_address(&mut self, register: u8, address: u32) -> Result<(), ProgramFault> {
        let operands = format!(in self.cards.alloc(); "{register},X'{address:08X}'")?;
        self.cards.code("LGFI", &operands)
    }

    /// Loads a register with the address of a location, or answers that its name is not set.
    pub fn locate(&mut self, register: u8, location: &Location) -> Result<(), ProgramFault> {
        match location {
            Location::Absolute(addr) => self.load_address(register, addr.get()),
            Location::Named(name, offset) => {
                self.point_to_name(register, name)?;
                self.follow(register)?;
                self.add(register, offset.get())
            }
        }
    }

    /// Sets a name to the address in register 1 and the length in register 0.
    pub fn set_area(&mut self, name: &Name) -> Result<(), ProgramFault> {
        let label = self.area(name)?;
        self.point(2, &label)?;
        self.cards.code("BRASL", "14,SETAREA")
    }

    // Writes a request.
    fn request(&mut self, entry: &StepEntry, written: &SourceRequest) -> Result<(), ProgramFault> {
        match written {
            SourceRequest::Obtain { .. } | SourceRequest::ObtainList { .. } => self.obtain(
                entry, written,
            ),
            SourceRequest::Release { .. }
            | SourceRequest::ReleaseArea { .. }
            | SourceRequest::ReleaseList { .. }
            | SourceRequest::ReleaseWhole { .. } => self.release(entry, written),
            SourceRequest::Build { .. }
            | SourceRequest::Get { .. }
            | SourceRequest::Free { .. }
            | SourceRequest::Delete { .. } => self.of_pool(entry, written),
            SourceRequest::Attach { .. } | SourceRequest::Return | SourceRequest::Abend(_) => {
                self.of_task(entry, written)
            }
            SourceRequest::Show { .. } | SourceRequest::Put { .. } | SourceRequest::Move { .. } => {
                self.of_bytes(entry, written)
            }
        }
    }

    // Writes the beginning of a routine: a comment, its label and its base register.
    fn begin_routine(&mut self, entry: &StepEntry) -> Result<(), ProgramFault> {
        let alloc = self.cards.alloc();
        let number = entry.number;
        let task = text_of(&entry.task);
        let text = entry.text.as_str();
        self.cards
            .comment(&format!(in alloc; "{number} {task} {text}")?)?;
        let label = format!(in alloc; "L{number}")?;
        self.cards.statement(&label, "BASR", "12,0")?;
        self.cards.code("USING", "*,12")
    }

    // Writes the end of a routine.
    fn end_routine(&mut self) -> Result<(), ProgramFault> {
        self.cards.code("LTORG", "")?;
        self.cards.code("DROP", "12")
    }

    // Writes that a statement has no routine.
    fn no_routine(&mut self, entry: &StepEntry) -> Result<(), ProgramFault> {
        let number = entry.number;
        let task = text_of(&entry.task);
        let text = entry.text.as_str();
        let comment = format!(in self.cards.alloc(); "? {number} {task} {text}: not asked")?;
        self.cards.comment(&comment)
    }

    /// Writes the routine of a statement; of a report, that there is none.
    pub fn routine(&mut self, entry: &StepEntry) -> Result<(), ProgramFault> {
        match &entry.statement {
            Statement::Request(written) => {
                self.begin_routine(entry)?;
                self.request(entry, written)?;
                self.end_routine()
            }
            Statement::Where(name) => {
                self.begin_routine(entry)?;
                self.of_where(name)?;
                self.end_routine()
            }
            _ => self.no_routine(entry),
        }
    }
}
