//! The programs of a script: a job with a step for each step of the script.

use crate::cards::{Cards, ProgramFault};
use crate::names::{StepNames, text_of};
use crate::step::{StepEntry, Writing, is_written};
use crate::texts::{DRIVER, JOB, LAYOUTS, TASK};
use job_script::read_line;
use mvs_model::line::{Fault, Line, SourceRequest, Statement};
use mvs_model::name::Name;
use std::alloc::{AllocError, Global};
use std::io::Write;

// What a script is read to: the statements of the step that was begun last.
#[derive(Drop)]
struct ProgramReading {
    entries: Vec<StepEntry>,
    steps: u32,
}

// Returns the statement of a line, without its task.
fn statement_text(line: &str) -> &str {
    match line.split_once(' ') {
        Some((_, text)) => text.trim(),
        None => "",
    }
}

// Returns whether a statement of a line is one of STORAGE.
fn is_of_storage(line: &str) -> bool {
    statement_text(line).starts_with("STORAGE")
}

// Puts the tasks of a step into its names, in byte order.
fn name_tasks(names: &mut StepNames, entries: &[StepEntry]) -> Result<(), AllocError> {
    for entry in entries {
        names.tasks.number(&entry.task)?;
        if let Statement::Request(SourceRequest::Attach { name, .. }) = &entry.statement {
            names.tasks.number(name)?;
        }
    }
    names.tasks.sort();
    Ok(())
}

impl<W: Write> Writing<W> {
    // Writes what the first line of the step prints, and which slot is that of its task.
    fn put_region(&mut self, entry: &StepEntry) -> Result<(), ProgramFault> {
        let Statement::Region {
            below,
            above,
            residence,
            ..
        } = &entry.statement
        else {
            return Ok(());
        };
        self.begin(&entry.task, *residence)?;
        let alloc = self.cards.alloc();
        let text = format!(in alloc; "REGION BELOW {} ABOVE {}", below.get(), above.get())?;
        let length = text.len();
        self.cards.statement("", "DS", "0H")?;
        self.cards.statement(
            "TREGION",
            "DC",
            &format!(in alloc; "H'{length}',C'{text}'")?,
        )?;
        self.cards.statement("", "DS", "0H")?;
        let task = self.task(&entry.task)?;
        self.cards.statement("FIRST", "EQU", &task)
    }

    // Writes the line of a statement, as the first task looks it up.
    fn put_line(&mut self, entry: &StepEntry) -> Result<(), ProgramFault> {
        let alloc = self.cards.alloc();
        let task = self.task(&entry.task)?;
        let number = format!(in alloc; "{}", entry.number)?;
        let digits = number.len();
        let routine = if is_written(&entry.statement) {
            number.as_str()
        } else {
            ""
        };
        let label = if routine.is_empty() { "0" } else { "L" };
        let operands = format!(in alloc;
            "A({task}),A({label}{routine}),AL1({digits}),CL11'{number}'"
        )?;
        self.cards.statement("", "DC", &operands)
    }

    // Writes the lines of a step, but for reports.
    fn put_lines(&mut self, entries: &[StepEntry]) -> Result<(), ProgramFault> {
        self.cards.statement("LINES", "DS", "0F")?;
        for (place, entry) in entries.iter().enumerate() {
            if place == 0 || is_written(&entry.statement) {
                self.put_line(entry)?;
            }
        }
        self.cards.statement("", "DC", "A(0)")
    }

    // Writes the slot of a task.
    fn put_slot(&mut self, label: &str, name: &Name) -> Result<(), ProgramFault> {
        let alloc = self.cards.alloc();
        let text = text_of(name);
        let length = text.len();
        let operands = format!(in alloc;
            "3F'0',A({label}+4),A({label}+8+X'80000000'),4A(0),X'00',H'{length}',CL8'{text}',18F'0'"
        )?;
        self.cards.statement("", "DS", "0F")?;
        self.cards.statement(label, "DC", &operands)
    }

    // Writes the slots of the tasks, and the list of them in byte order.
    fn put_slots(&mut self) -> Result<(), ProgramFault> {
        let alloc = self.cards.alloc();
        let mut tasks = Vec::new(alloc);
        for name in self.names.tasks.names() {
            tasks.push(*name).map_err(|_| ProgramFault::Memory)?;
        }
        self.cards.statement("TASKS", "DS", "0F")?;
        for place in 1..=tasks.len() {
            self.cards
                .statement("", "DC", &format!(in alloc; "A(T{place})")?)?;
        }
        self.cards.statement("", "DC", "A(0)")?;
        for (place, name) in tasks.iter().enumerate() {
            let label = format!(in alloc; "T{}", place.saturating_add(1))?;
            self.put_slot(&label, name)?;
        }
        Ok(())
    }

    // Writes three words for each of a number of names of areas or pools: address, length, and whether it is set.
    fn put_places(&mut self, letter: &str, count: usize) -> Result<(), ProgramFault> {
        let alloc = self.cards.alloc();
        for number in 1..=count {
            self.cards
                .statement(&format!(in alloc; "{letter}{number}")?, "DC", "3F'0'")?;
        }
        Ok(())
    }

    // Writes the program of a step.
    fn put_step(&mut self, entries: &[StepEntry]) -> Result<(), ProgramFault> {
        name_tasks(&mut self.names, entries)?;
        self.cards.cards(DRIVER)?;
        if let Some(region) = entries.first() {
            self.put_region(region)?;
        }
        self.cards.cards(TASK)?;
        for entry in entries.iter().skip(1) {
            self.routine(entry)?;
        }
        self.put_lines(entries)?;
        self.put_slots()?;
        let (areas, pools) = (
            self.names.areas.names().len(),
            self.names.pools.names().len(),
        );
        self.put_places("N", areas)?;
        self.put_places("P", pools)?;
        self.cards.statement("BUFFER", "DS", "0D,XL65536")?;
        self.cards.cards(LAYOUTS)
    }
}

// Writes the step that was read, if there is one.
fn end_step<W: Write + Drop>(
    alloc: Global,
    writing: &mut Writing<W>,
    read: &mut ProgramReading,
) -> Result<(), ProgramFault> {
    if read.entries.is_empty() {
        return Ok(());
    }
    read.steps = read.steps.saturating_add(1);
    let step = read.steps;
    let cards = &mut writing.cards;
    cards.card(&format!(in alloc; "//S{step} EXEC ASMACLG")?)?;
    cards.card("//C.SYSIN DD *")?;
    writing.names = StepNames::new(alloc);
    writing.put_step(&read.entries)?;
    writing.cards.card("/*")?;
    read.entries.clear();
    Ok(())
}

// Returns the statement of a line, if it has one.
fn entry_of(
    alloc: Global,
    line: &str,
    number: u32,
    is_first: bool,
) -> Result<Result<Option<StepEntry>, Fault>, AllocError> {
    let mut read = Line::Nothing;
    if let Err(fault) = read_line(line.as_bytes(), is_first, &mut read) {
        return Ok(Err(fault));
    }
    match read {
        Line::Nothing => Ok(Ok(None)),
        Line::Statement(task, statement) => Ok(Ok(Some(StepEntry {
            number,
            task,
            text: String::from_str(alloc, statement_text(line))?,
            statement,
            is_storage: is_of_storage(line),
        }))),
    }
}

/// Writes the programs of a script, and answers whether no line of it has a fault; what is before the first that has one is
/// written. Reports are left out.
pub fn write_program<W: Write + Drop>(
    alloc: Global,
    writer: W,
    script: &str,
) -> Result<bool, ProgramFault> {
    let mut writing = Writing {
        cards: Cards::new(alloc, writer),
        names: StepNames::new(alloc),
    };
    let mut read = ProgramReading {
        entries: Vec::new(alloc),
        steps: 0,
    };
    let mut is_whole = true;
    let mut number = 0u32;
    let mut is_first = true;
    writing.cards.cards(JOB)?;
    for line in script.lines() {
        number = number.saturating_add(1);
        match entry_of(alloc, line, number, is_first)? {
            Ok(None) => {}
            Ok(Some(entry)) => {
                is_first = false;
                if matches!(entry.statement, Statement::Region { .. }) {
                    end_step(alloc, &mut writing, &mut read)?;
                }
                read.entries.push(entry).map_err(|_| ProgramFault::Memory)?;
            }
            Err(_) => {
                is_whole = false;
                break;
            }
        }
    }
    end_step(alloc, &mut writing, &mut read)?;
    Ok(is_whole)
}
