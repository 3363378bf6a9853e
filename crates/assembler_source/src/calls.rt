//! Routines and tasks in which a path continues, and from which it comes back.

use crate::frames::Inside;
use crate::walk::SourceWalk;
use assembler_flow::{ENTRY_ADDRESS, RETURN_ADDRESS};
use assembler_requests::Attached;
use assembler_script::return_mark;
use assembler_statements::SourceStatement;
use assembler_values::{Content, execute};
use std::alloc::AllocError;
use std::mem;

/// What a register holds in which a routine gets its return address.
const RETURN: &str = "*";

/// The mark of a branch whose target is not known.
pub const UNKNOWN: &str = "a branch to an address that is not known";

impl SourceWalk<'_> {
    /// Continues with the statements of a task that was attached, and comes back after them. It fails if memory is exhausted.
    pub fn enter_task(&mut self, attached: Attached, start: usize) -> Result<(), AllocError> {
        let inside = Inside::Task {
            task: mem::replace(&mut self.task, attached.task),
            program: mem::replace(&mut self.program, attached.program),
            registers: self.held.leave_registers(),
        };
        self.frames.enter(self.at, inside)?;
        self.at = start;
        Ok(())
    }

    /// Calls the routine at a place. It fails if memory is exhausted.
    pub fn call(
        &mut self,
        place: usize,
        statement: &SourceStatement,
        entry: usize,
        link: u8,
    ) -> Result<(), AllocError> {
        if self.frames.is_full() || self.frames.is_in(entry) {
            self.held.call(statement)?;
            return self.mark(statement, "a routine that calls itself is not followed");
        }
        let address = String::from_str(self.source.alloc, RETURN)?;
        self.held.set(link, Content::Place(address))?;
        let inside = Inside::Routine {
            link,
            entry,
            farthest: entry,
            in_loop: self.loop_at(place)?,
        };
        self.frames.enter(self.at, inside)?;
        self.at = entry;
        Ok(())
    }

    // Returns the place of the label whose address a register holds.
    fn place_in(&self, register: u8) -> Option<usize> {
        match self.held.register(register)? {
            Content::Place(label) => Some(self.source.layout.target(label)?.place),
            Content::Number(_) | Content::Word(_) | Content::Lost(_) => None,
        }
    }

    /// Calls the routine whose address is in a register, if it is known. It fails if memory is exhausted.
    pub fn call_register(
        &mut self,
        place: usize,
        statement: &SourceStatement,
        register: u8,
        link: u8,
    ) -> Result<(), AllocError> {
        match self.place_in(register) {
            Some(entry) => self.call(place, statement, entry, link),
            None => execute(
                self.source.alloc,
                self.source.symbols,
                &mut self.held,
                statement,
            ),
        }
    }

    /// Continues where the routine was called that the path is in.
    pub fn leave_routine(&mut self) -> Result<(), AllocError> {
        if let Some(frame) = self.frames.leave() {
            self.at = frame.back;
        }
        Ok(())
    }

    // Returns whether a register has the return address of the routine that the path is in.
    fn returns_by(&self, register: u8) -> bool {
        let Some(link) = self.frames.link() else {
            return false;
        };
        let is_kept = match self.held.register(register) {
            Some(Content::Place(address)) => address.as_str() == RETURN,
            _ => false,
        };
        is_kept || register == link
    }

    // Returns from the routine that the path is in, or continues with what is left of it.
    fn return_from(&mut self, place: usize, statement: &SourceStatement) -> Result<(), AllocError> {
        if self.way.is_path() || self.frames.farthest() <= place {
            return self.leave_routine();
        }
        let mark = String::from_str(self.source.alloc, "a return of the routine, or on")?;
        self.script.put_mark(statement, mark)
    }

    /// Returns from a routine, or ends the task. It fails if memory is exhausted.
    pub fn return_or_end(
        &mut self,
        place: usize,
        statement: &SourceStatement,
    ) -> Result<(), AllocError> {
        if self.frames.link().is_some() {
            return self.return_from(place, statement);
        }
        self.end_task(place, statement, "RETURN")
    }

    // Returns whether a register has the address of the program since that began. A branch by it continues after constants.
    fn is_entry(&self, register: u8) -> bool {
        register == ENTRY_ADDRESS && self.held.register(register).is_none()
    }

    /// Branches to the address in a register. It fails if memory is exhausted.
    pub fn branch_register(
        &mut self,
        place: usize,
        statement: &SourceStatement,
        register: u8,
        is_conditional: bool,
    ) -> Result<(), AllocError> {
        if is_conditional {
            return self.may_branch(place, statement, register);
        }
        if self.returns_by(register) {
            return self.return_from(place, statement);
        }
        match self.place_in(register) {
            Some(to) if self.way.is_path() => {
                self.at = to;
                Ok(())
            }
            Some(_) => Ok(()),
            None if register == RETURN_ADDRESS => self.end_task(place, statement, "RETURN"),
            None if self.is_entry(register) => Ok(()),
            None => self.branch_unknown(statement),
        }
    }

    // Branches to the address in a register that is not known: the path ends there.
    fn branch_unknown(&mut self, statement: &SourceStatement) -> Result<(), AllocError> {
        if self.way.is_path() {
            self.mark(statement, UNKNOWN)?;
            self.leave_task();
            return Ok(());
        }
        let mark = String::from_str(self.source.alloc, UNKNOWN)?;
        self.script.put_mark(statement, mark)
    }

    // Returns whether a register has the return address of the task that runs, if that is known.
    fn ends_task_by(&self, register: u8) -> bool {
        register == RETURN_ADDRESS
            && self.frames.link().is_none()
            && self.place_in(register).is_none()
    }

    // Processes a conditional branch to the address in a register. A path takes it if its target is the next point of the path.
    fn may_branch(
        &mut self,
        place: usize,
        statement: &SourceStatement,
        register: u8,
    ) -> Result<(), AllocError> {
        if !self.way.is_path() {
            let mark = return_mark(self.source.alloc, self.source.statements, place)?;
            return self.script.put_mark(statement, mark);
        }
        if self.ends_task_by(register) && self.way.takes_end() {
            return self.end_task(place, statement, "RETURN");
        }
        let Some(next) = self.way.next() else {
            return Ok(());
        };
        if self.returns_by(register) {
            if self.frames.back() == Some(next) {
                return self.leave_routine();
            }
        } else if self.place_in(register) == Some(next) {
            self.at = next;
        }
        Ok(())
    }
}
