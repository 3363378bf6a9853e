//! The text of `.names`: the names that are set.

use crate::origins::{NameOrigin, Origins};
use diagnosis::Plain;
use mvs_job::Job;
use mvs_model::place::Place;
use std::fmt;

/// The names that are set in a step.
#[derive(Clone, Copy)]
pub struct NameList<'a> {
    pub job: &'a Job,
    pub origins: &'a Origins,
}

// Writes a name that is set to a place.
fn write_name<W: fmt::Write>(
    f: &mut fmt::Formatter<W>,
    origin: &NameOrigin,
    place: Place,
) -> fmt::Result {
    writeln!(
        f,
        "{} is {} bytes at {:08X}, set in line {}",
        Plain(origin.name.text()),
        place.len(),
        place.addr().get(),
        origin.line
    )
}

impl fmt::Display for NameList<'_> {
    fn fmt<W: fmt::Write>(&self, f: &mut fmt::Formatter<W>) -> fmt::Result {
        if self.origins.names.is_empty() {
            return writeln!(f, "no name is set");
        }
        for origin in &self.origins.names {
            if let Some(place) = self.job.place_of(&origin.name) {
                write_name(f, origin, place)?;
            }
        }
        Ok(())
    }
}
