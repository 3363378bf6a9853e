//! Branches, and the ends of paths.

use crate::calls::UNKNOWN;
use crate::walk::SourceWalk;
use assembler_flow::{Flow, Target};
use assembler_operands::OpenReason;
use assembler_script::{away_mark, branch_mark, loop_mark};
use assembler_statements::SourceStatement;
use assembler_values::{execute, execute_branch};
use std::alloc::AllocError;

impl SourceWalk<'_> {
    /// Leaves the routines of the task that runs, and its program.
    pub fn leave_task(&mut self) {
        self.frames.leave_routines();
        self.at = self.source.statements.len();
    }

    // Returns whether a place is in the program of the task that runs, and not in a routine that is a section of its own.
    fn is_of_program(&self, place: usize) -> bool {
        let source = self.source;
        let Some(start) = source.layout.section_start(place) else {
            return true;
        };
        match source.statements.get(start) {
            Some(section) => {
                section.label.is_empty() || section.label.as_str() == self.program.as_str()
            }
            None => true,
        }
    }

    /// Ends the task with a statement, or one of its paths. It fails if memory is exhausted.
    pub fn end_task(
        &mut self,
        place: usize,
        statement: &SourceStatement,
        text: &str,
    ) -> Result<(), AllocError> {
        if self.way.is_path() || self.is_of_program(place) {
            self.script.put_end(statement, &self.task, text)?;
        }
        if self.way.is_path() {
            self.leave_task();
        }
        Ok(())
    }

    // Ends the task with ABEND or with the system call that ends it.
    fn end_at_once(&mut self, place: usize, statement: &SourceStatement) -> Result<(), AllocError> {
        if statement.operation.as_str() != "ABEND" {
            return self.end_task(place, statement, "RETURN");
        }
        let code = match statement.operands.first() {
            Some(code) => code.as_str(),
            None => "",
        };
        let text = format!(in self.source.alloc; "ABEND {code}")?;
        self.end_task(place, statement, &text)
    }

    // Continues at the next label of the path, or ends the path with a mark.
    fn go_on(&mut self, statement: &SourceStatement, why: &str) -> Result<(), AllocError> {
        match self.way.next() {
            Some(next) => {
                self.at = next;
                Ok(())
            }
            None => {
                self.mark(statement, why)?;
                self.leave_task();
                Ok(())
            }
        }
    }

    // Takes a branch on a path: one that is conditional only to the next label of the path.
    fn branch_on_path(
        &mut self,
        place: usize,
        statement: &SourceStatement,
        to: Target<'_>,
        is_conditional: bool,
    ) -> Result<(), AllocError> {
        if self.way.next() == Some(to.place) {
            self.at = to.place;
            return Ok(());
        }
        if is_conditional {
            return Ok(());
        }
        if to.place <= place && self.loops_back(place, to.place)? {
            return self.go_on(statement, "a loop without an end on this path");
        }
        self.at = to.place;
        Ok(())
    }

    // Marks a branch, where all statements are taken in their order.
    fn branch_in_order(
        &mut self,
        place: usize,
        statement: &SourceStatement,
        to: Target<'_>,
        is_conditional: bool,
    ) -> Result<(), AllocError> {
        let source = self.source;
        let next = place.saturating_add(1);
        if to.place > place {
            if !source.loops.has_routine(next, to.place.saturating_add(1)) {
                self.frames.see(to.place);
            }
            if !is_conditional && !source.loops.has_request(next, to.place) {
                return Ok(());
            }
        } else if is_conditional && !source.loops.has_request(to.place, place) {
            return Ok(());
        }
        let mark = branch_mark(source.alloc, source.statements, place, to, is_conditional)?;
        self.script.put_mark(statement, mark)
    }

    // Marks the branch that closes a loop; false if the branch closes none.
    fn mark_loop(
        &mut self,
        place: usize,
        statement: &SourceStatement,
        to: Target<'_>,
    ) -> Result<bool, AllocError> {
        let source = self.source;
        let Some(closed) = source.loops.from(to.place) else {
            return Ok(false);
        };
        if closed.end != place {
            return Ok(false);
        }
        let mark = loop_mark(source.alloc, source.statements, place, closed)?;
        self.script.put_open(statement, OpenReason::choice(mark))?;
        Ok(true)
    }

    // Processes a branch to a label.
    fn branch(
        &mut self,
        place: usize,
        statement: &SourceStatement,
        to: Target<'_>,
        is_conditional: bool,
    ) -> Result<(), AllocError> {
        let source = self.source;
        execute_branch(source.alloc, source.symbols, &mut self.held, statement)?;
        if self.way.repeats(place) {
            if self.way.jumps_back(place) {
                self.at = to.place;
                return Ok(());
            }
            if !self.way.is_path() || is_conditional || self.way.next().is_none() {
                return Ok(());
            }
        }
        if self.way.is_path() {
            return self.branch_on_path(place, statement, to, is_conditional);
        }
        if self.mark_loop(place, statement, to)? {
            return Ok(());
        }
        self.branch_in_order(place, statement, to, is_conditional)
    }

    // Processes a branch to a label that the source does not have.
    fn branch_away(
        &mut self,
        place: usize,
        statement: &SourceStatement,
        label: &str,
        is_conditional: bool,
    ) -> Result<(), AllocError> {
        let source = self.source;
        if self.way.is_path() && is_conditional {
            return Ok(());
        }
        let mark = away_mark(
            source.alloc,
            source.statements,
            place,
            label,
            is_conditional,
        )?;
        if self.way.is_path() {
            self.mark(statement, &mark)?;
            self.leave_task();
            return Ok(());
        }
        self.script.put_mark(statement, mark)
    }

    // Processes a branch to an address that is not known: a path continues at its next label.
    fn branch_elsewhere(
        &mut self,
        statement: &SourceStatement,
        is_conditional: bool,
    ) -> Result<(), AllocError> {
        let source = self.source;
        execute_branch(source.alloc, source.symbols, &mut self.held, statement)?;
        if !self.way.is_path() {
            let mark = String::from_str(source.alloc, UNKNOWN)?;
            return self.script.put_mark(statement, mark);
        }
        if is_conditional {
            return Ok(());
        }
        self.go_on(statement, UNKNOWN)
    }

    /// Continues after a statement that is no request. It fails if memory is exhausted.
    pub fn go(
        &mut self,
        place: usize,
        statement: &SourceStatement,
        flow: Flow<'_>,
    ) -> Result<(), AllocError> {
        let source = self.source;
        match flow {
            Flow::On => execute(source.alloc, source.symbols, &mut self.held, statement),
            Flow::Branch { to, is_conditional } => {
                self.branch(place, statement, to, is_conditional)
            }
            Flow::Away {
                label,
                is_conditional,
            } => self.branch_away(place, statement, label, is_conditional),
            Flow::Unknown { is_conditional } => { self.branch_elsewhere(statement, is_conditional) }
            Flow::Call { to, link } => self.call(place, statement, to.place, link),
            Flow::CallRegister { register, link } => {
                self.call_register(place, statement, register, link)
            }
            Flow::BranchRegister {
                register,
                is_conditional,
            } => self.branch_register(place, statement, register, is_conditional),
            Flow::Return => self.return_or_end(place, statement),
            Flow::End => self.end_at_once(place, statement),
        }
    }
}
