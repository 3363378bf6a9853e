//! The choices of a reader, as places of a source.

use crate::options::{Choices, Schedule};
use assembler_flow::{Layout, Loops};
use assembler_operands::NoName;
use std::alloc::{AllocError, AllocFailed, Global};
use std::collections::BTreeMap;
use thiserror::Error;

/// Why a source is not converted.
#[derive(Debug, Drop, Error)]
pub enum ConversionRefusal {
    #[error("out of memory")]
    Memory,
    #[error("no name is left for a program")]
    NoName,
    /// The path has a label that the source does not have.
    #[error("--path: no statement has the label or number {0}")]
    NoLabel(String),
    /// A loop is repeated that the source does not have.
    #[error("--repeat: no loop with requests begins at {0}")]
    NoLoop(String),
}

impl From<AllocError> for ConversionRefusal {
    fn from(_: AllocError) -> ConversionRefusal {
        ConversionRefusal::Memory
    }
}

impl<T: Drop> From<AllocFailed<T>> for ConversionRefusal {
    fn from(_: AllocFailed<T>) -> ConversionRefusal {
        ConversionRefusal::Memory
    }
}

impl From<NoName> for ConversionRefusal {
    fn from(why: NoName) -> ConversionRefusal {
        match why {
            NoName::Memory => ConversionRefusal::Memory,
            NoName::AllUsed => ConversionRefusal::NoName,
        }
    }
}

/// The word in a path for the end of a task, if no statement has that label.
const END: &str = "END";

/// What a path comes to next.
#[derive(Clone, Copy, Debug, PartialEq, Eq)]
pub enum Waypoint {
    /// The statement at a place.
    Place(usize),
    /// The end of the task that runs, by a conditional return.
    End,
}

// How often a loop is written, and how often its branch has gone back.
#[derive(Clone, Copy)]
struct Round {
    count: u32,
    done: u32,
}

/// The choices of a reader, as places of a source.
#[derive(Drop)]
pub struct Way {
    path: Option<Vec<Waypoint>>,
    /// How many points of the path were reached.
    reached: usize,
    /// By the place of the branch that closes a loop, how often the loop is written.
    rounds: BTreeMap<usize, Round>,
    pub schedule: Schedule,
}

// Returns the point of a path that a label names.
fn waypoint_of(alloc: Global, layout: &Layout, label: &str) -> Result<Waypoint, ConversionRefusal> {
    match layout.place_of(label) {
        Some(place) => Ok(Waypoint::Place(place)),
        None if label == END => Ok(Waypoint::End),
        None => Err(ConversionRefusal::NoLabel(String::from_str(alloc, label)?)),
    }
}

// Returns the points of a path that its labels name.
fn waypoints_of(
    alloc: Global,
    layout: &Layout,
    labels: &[String],
) -> Result<Vec<Waypoint>, ConversionRefusal> {
    let mut points = Vec::new(alloc);
    for label in labels {
        points.push(waypoint_of(alloc, layout, label)?)?;
    }
    Ok(points)
}

// Returns the place of the branch that closes the loop from a label.
fn end_of_loop(
    alloc: Global,
    layout: &Layout,
    loops: &Loops,
    label: &str,
) -> Result<usize, ConversionRefusal> {
    if let Some(start) = layout.place_of(label) {
        if let Some(found) = loops.from(start) {
            return Ok(found.end);
        }
    }
    Err(ConversionRefusal::NoLoop(String::from_str(alloc, label)?))
}

impl Way {
    /// Returns the choices as places, or why a source has no such place.
    pub fn find(
        alloc: Global,
        layout: &Layout,
        loops: &Loops,
        choices: &Choices,
    ) -> Result<Way, ConversionRefusal> {
        let path = choices
            .path
            .as_ref()
            .map(|labels| waypoints_of(alloc, layout, labels))
            .transpose()?;
        let mut rounds = BTreeMap::new(alloc);
        for repeat in choices.repeats.iter() {
            let end = end_of_loop(alloc, layout, loops, &repeat.label)?;
            let round = Round {
                count: repeat.count,
                done: 0,
            };
            rounds.insert(end, round)?;
        }
        Ok(Way {
            path,
            reached: 0,
            rounds,
            schedule: choices.schedule,
        })
    }

    /// Returns whether branches are followed.
    pub fn is_path(&self) -> bool {
        self.path.is_some()
    }

    /// Returns the next point of the path, if one is left.
    pub fn waypoint(&self) -> Option<Waypoint> {
        self.path.as_ref()?.get(self.reached).copied()
    }

    /// Returns the place to which the path comes next, if that is a statement.
    pub fn next(&self) -> Option<usize> {
        match self.waypoint()? {
            Waypoint::Place(place) => Some(place),
            Waypoint::End => None,
        }
    }

    /// Returns whether the path comes next to the end of the task, and counts that it does.
    pub fn takes_end(&mut self) -> bool {
        if self.waypoint() != Some(Waypoint::End) {
            return false;
        }
        self.reached = self.reached.saturating_add(1);
        true
    }

    /// Notes that a place is reached.
    pub fn reach(&mut self, place: usize) {
        if self.next() == Some(place) {
            self.reached = self.reached.saturating_add(1);
        }
    }

    /// Returns whether the loop is written several times that the branch at a place closes.
    pub fn repeats(&self, end: usize) -> bool {
        self.rounds.contains_key(&end)
    }

    /// Returns whether the branch at a place jumps back once more, and counts that it does.
    pub fn jumps_back(&mut self, end: usize) -> bool {
        let Some(round) = self.rounds.get_mut(&end) else {
            return false;
        };
        round.done = round.done.saturating_add(1);
        let again = round.done < round.count;
        if !again {
            round.done = 0;
        }
        again
    }
}
