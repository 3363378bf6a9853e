//! What a random script knows of its step: the tasks that are active, and the areas, cells and pools that were granted.

ghost use Rattle.std.specs.Prelude.{◌<◌};

use crate::dice::Dice;
use std::fmt;

/// How many tasks, areas, cells and pools a script names.
pub const TASKS: usize = 6;

pub const AREAS: usize = 16;

pub const CELLS: usize = 8;

pub const POOLS: usize = 3;

/// A task by its place: the job step task, or a subtask.
#[derive(Clone, Copy, Debug, PartialEq, Eq)]
pub struct Task(pub usize);

impl fmt::Display for Task {
    fn fmt<W: fmt::Write>(&self, f: &mut fmt::Formatter<W>) -> fmt::Result {
        match self.0 {
            0 => write!(f, "JOB"),
            place => write!(f, "T{place}"),
        }
    }
}

/// An area: the task that obtained it, the subpool number that it named, the bytes that it has or asked for, and its address, or
/// 0 where that is not known.
#[derive(Clone, Copy, Debug)]
pub struct KnownArea {
    pub task: Task,
    pub number: u8,
    pub len: u32,
    pub addr: u32,
}

/// A cell: the place of its pool, and its address, or 0 where that is not known.
#[derive(Clone, Copy, Debug)]
pub struct Cell {
    pub pool: usize,
    pub addr: u32,
}

/// What is known of a step: also a subpool number that a task shares, or 0, and how many tasks and pools of new names it has.
#[derive(Drop)]
pub struct KnownStep {
    pub active: [bool; TASKS],
    pub shares: [u8; TASKS],
    pub more: u32,
    pub areas: [Option<KnownArea>; AREAS],
    pub cells: [Option<Cell>; CELLS],
    pub pools: [bool; POOLS],
}

impl KnownStep {
    /// Makes a step at its start.
    pub fn new() -> KnownStep {
        let mut active = [false; TASKS];
        active[0] = true;
        KnownStep {
            active,
            shares: [0; TASKS],
            more: 0,
            areas: [None; AREAS],
            cells: [None; CELLS],
            pools: [false; POOLS],
        }
    }

    /// Returns an active task, most often the job step task.
    pub fn task(&self, dice: &mut Dice) -> Task
        ensures { result.0 < 6 }
    {
        let place = dice.below(TASKS as u32) as usize;
        if self.active[place] {
            Task(place)
        } else {
            Task(0)
        }
    }

    /// Returns a task that is not active, if one comes up.
    pub fn new_task(&self, dice: &mut Dice) -> Option<Task> {
        let place = dice.below(TASKS as u32) as usize;
        if self.active[place] {
            None
        } else {
            Some(Task(place))
        }
    }

    /// Returns an area that was obtained, if one comes up, and its place.
    pub fn area(&self, dice: &mut Dice) -> Option<(usize, KnownArea)> {
        let place = dice.below(AREAS as u32) as usize;
        self.areas[place].map(|area| (place, area))
    }

    /// Returns an area whose task is active, if there is one, and its place.
    pub fn live_area(&self, dice: &mut Dice) -> Option<(usize, KnownArea)> {
        let first = dice.below(AREAS as u32) as usize;
        for offset in 0..AREAS {
            let place = (first + offset) % AREAS;
            if let Some(area) = self.areas[place] {
                if self.is_active(area.task) {
                    return Some((place, area));
                }
            }
        }
        None
    }

    // Returns whether a task is active.
    fn is_active(&self, task: Task) -> bool {
        match self.active.get(task.0) {
            Some(is_active) => *is_active,
            None => false,
        }
    }

    /// Returns a cell that was allocated, if one comes up, and its place.
    pub fn cell(&self, dice: &mut Dice) -> Option<(usize, Cell)> {
        let place = dice.below(CELLS as u32) as usize;
        self.cells[place].map(|cell| (place, cell))
    }

    /// Returns a task that shares a subpool number, if one comes up, and the number.
    pub fn sharing(&self, dice: &mut Dice) -> Option<(Task, u8)> {
        let place = dice.below(TASKS as u32) as usize;
        if self.active[place] && self.shares[place] > 0 {
            Some((Task(place), self.shares[place]))
        } else {
            None
        }
    }

    /// Forgets the areas of a task's subpool.
    pub fn forget(&mut self, task: Task, number: u8) {
        for place in 0..AREAS {
            let is_of_it = match self.areas[place] {
                Some(area) => area.task == task && area.number == number,
                None => false,
            };
            if is_of_it {
                self.areas[place] = None;
            }
        }
    }
}
