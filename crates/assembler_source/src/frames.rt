//! Where a path continues when a routine or a task ends.

use assembler_values::Registers;
use std::alloc::{AllocError, Global};

/// What the path is inside of.
#[derive(Drop)]
pub enum Inside {
    /// A routine: the register with its return address, where it begins, the farthest place in it to which a branch was seen, and the label
    /// of the loop in which it is called, if that is written once.
    Routine {
        link: u8,
        entry: usize,
        farthest: usize,
        in_loop: Option<String>,
    },
    /// A task that another one has attached: what that one was, and what its registers held.
    Task {
        task: String,
        program: String,
        registers: Registers,
    },
}

/// A routine or task in which the path is, and where it continues after it.
#[derive(Drop)]
pub struct CallFrame {
    pub back: usize,
    pub inside: Inside,
}

/// The routines and tasks in which a path is, the innermost last.
#[derive(Drop)]
pub struct Frames {
    frames: Vec<CallFrame>,
}

/// The most routines and tasks in which a path may be.
const DEEPEST: usize = 16;

impl Frames {
    /// Returns that the path is in the first task, and in no routine.
    pub fn new(alloc: Global) -> Frames {
        Frames {
            frames: Vec::new(alloc),
        }
    }

    /// Returns whether the path is in the first task, and in no routine.
    pub fn is_empty(&self) -> bool {
        self.frames.is_empty()
    }

    /// Returns whether no more routines or tasks may be entered.
    pub fn is_full(&self) -> bool {
        self.frames.len() >= DEEPEST
    }

    /// Returns whether the path is in the routine that begins at a place.
    pub fn is_in(&self, place: usize) -> bool {
        self.frames.iter().any(|frame| match &frame.inside {
            Inside::Routine { entry, .. } => *entry == place,
            Inside::Task { .. } => false,
        })
    }

    /// Returns whether a task of a program is among those whose subtasks' subtask runs.
    pub fn has_program(&self, name: &str) -> bool {
        self.frames.iter().any(|frame| match &frame.inside {
            Inside::Routine { .. } => false,
            Inside::Task { program, .. } => program.as_str() == name,
        })
    }

    /// Enters a routine or a task. It fails if memory is exhausted.
    pub fn enter(&mut self, back: usize, inside: Inside) -> Result<(), AllocError> {
        self.frames.push(CallFrame { back, inside })?;
        Ok(())
    }

    /// Returns where the routine begins that the path is in, if it is in one.
    pub fn routine(&self) -> Option<usize> {
        match &self.frames.last()?.inside {
            Inside::Routine { entry, .. } => Some(*entry),
            Inside::Task { .. } => None,
        }
    }

    /// Returns the register with the return address of the routine that the path is in.
    pub fn link(&self) -> Option<u8> {
        match &self.frames.last()?.inside {
            Inside::Routine { link, .. } => Some(*link),
            Inside::Task { .. } => None,
        }
    }

    /// Returns where the path continues after the routine that it is in.
    pub fn back(&self) -> Option<usize> {
        let frame = self.frames.last()?;
        match &frame.inside {
            Inside::Routine { .. } => Some(frame.back),
            Inside::Task { .. } => None,
        }
    }

    /// Returns the label of the loop in which the routine is called that the path is in, if that is written once.
    pub fn in_loop(&self) -> Option<&str> {
        match &self.frames.last()?.inside {
            Inside::Routine { in_loop, .. } => Some(in_loop.as_ref()?.as_str()),
            Inside::Task { .. } => None,
        }
    }

    /// Returns the farthest place in the routine to which a branch was seen.
    pub fn farthest(&self) -> usize {
        match self.frames.last() {
            Some(frame) => match &frame.inside {
                Inside::Routine { farthest, .. } => *farthest,
                Inside::Task { .. } => 0,
            },
            None => 0,
        }
    }

    /// Notes that a branch jumps to a place in the routine.
    pub fn see(&mut self, place: usize) {
        if let Some(frame) = self.frames.last_mut() {
            match &mut frame.inside {
                Inside::Routine { farthest, .. } => *farthest = (*farthest).max(place),
                Inside::Task { .. } => {}
            }
        }
    }

    /// Leaves the innermost routine or task.
    pub fn leave(&mut self) -> Option<CallFrame> {
        self.frames.pop()
    }

    /// Leaves the routines of the task that runs.
    pub fn leave_routines(&mut self) {
        for _ in 0..self.frames.len() {
            if self.link().is_none() {
                return;
            }
            self.frames.pop();
        }
    }
}
