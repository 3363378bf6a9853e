//! The names of a step: its tasks, areas and pools, each by a number.

use mvs_model::name::Name;
use mvs_model::want::Residence;
use std::alloc::{AllocError, Global};
use std::str;

/// Names in the order in which they come.
#[derive(Drop)]
pub struct Table {
    names: Vec<Name>,
}

/// Returns the text of a name.
pub fn text_of(name: &Name) -> &str {
    str::from_utf8(name.text()).unwrap_or("")
}

impl Table {
    /// Makes an empty table.
    pub fn new(alloc: Global) -> Table {
        Table {
            names: Vec::new(alloc),
        }
    }

    /// Returns the number of a name, which is new or not.
    pub fn number(&mut self, name: &Name) -> Result<usize, AllocError> {
        let place = self.names.iter().position(|other| *other == *name);
        match place {
            Some(place) => Ok(place.saturating_add(1)),
            None => {
                self.names.push(*name)?;
                Ok(self.names.len())
            }
        }
    }

    /// Returns the names, in the order of their numbers.
    pub fn names(&self) -> &[Name] {
        &self.names
    }

    /// Puts the names in byte order.
    pub fn sort(&mut self) {
        self.names.sort_unstable();
    }
}

/// The names of a step, and where the programs of its tasks reside.
#[derive(Drop)]
pub struct StepNames {
    pub tasks: Table,
    pub areas: Table,
    pub pools: Table,
    residences: Vec<(Name, Residence)>,
}

impl StepNames {
    /// Makes an empty table.
    pub fn new(alloc: Global) -> StepNames {
        StepNames {
            tasks: Table::new(alloc),
            areas: Table::new(alloc),
            pools: Table::new(alloc),
            residences: Vec::new(alloc),
        }
    }

    /// Keeps where the program of a task resides from now on. That of the first one stays where it is: its name is in use as long as the
    /// step lasts.
    pub fn reside(&mut self, task: &Name, residence: Residence) -> Result<(), AllocError> {
        match self.residences.first() {
            Some((first, _)) if *first == *task => {}
            _ => self.residences.push((*task, residence))?,
        }
        Ok(())
    }

    /// Returns where the program of a task resides.
    pub fn residence(&self, task: &Name) -> Residence {
        let mut found = Residence::Below;
        for (name, residence) in self.residences.iter() {
            if *name == *task {
                found = *residence;
            }
        }
        found
    }
}
