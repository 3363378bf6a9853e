//! Matches the addresses in an output with the grants of the script, areas and cells: WHERE shows the place of the grant that set
//! the name last.

use crate::answers::{OutputAnswers, PrintedAnswer};
use crate::parts::PoolParts;
use crate::trials::{PlaceTrial, RefusedList, StepPages, TrialPlaces};
use job_script::read_line;
use mvs_job::AddressHints;
use mvs_model::error::OutOfMemory;
use mvs_model::line::{Line, SourceRequest, Statement};
use mvs_model::name::Name;
use mvs_model::place::Addr;
use std::alloc::Global;
use std::collections::HashMap;
use std::str;

// A member of a grant: its line, and its position in the list; a single area or a cell has position 0.
#[derive(Clone, Copy, Debug, PartialEq, Eq, PartialOrd, Ord)]
struct ListMember {
    line: u32,
    place: usize,
}

// The place of a member, and how many places were shown before.
#[derive(Clone, Copy, Debug, PartialEq, Eq, PartialOrd, Ord)]
struct CellPlace {
    member: ListMember,
    earlier: usize,
    addr: u32,
}

// What is known of the lines so far: the grants that set the names, the members whose places are shown, and the parts of the pools.
#[derive(Drop)]
struct Hearing {
    names: HashMap<Name, ListMember>,
    places: Vec<CellPlace>,
    parts: PoolParts,
    lists: Vec<PlaceTrial>,
    pages: StepPages,
}

impl Hearing {
    fn new(alloc: Global) -> Hearing {
        Hearing {
            names: HashMap::new(alloc),
            places: Vec::new(alloc),
            parts: PoolParts::new(alloc),
            lists: Vec::new(alloc),
            pages: StepPages { below: 0, above: 0 },
        }
    }

    // Keeps the member of a list or the area to which a grant sets a name.
    fn set(&mut self, area: Name, member: ListMember) -> Result<(), OutOfMemory> {
        self.names.insert(area, member).map_err(|_| OutOfMemory)?;
        Ok(())
    }

    // Records the names of a list.
    fn set_each(&mut self, areas: &[Name], line: u32) -> Result<(), OutOfMemory> {
        for (place, area) in areas.iter().enumerate() {
            self.set(*area, ListMember { line, place })?;
        }
        Ok(())
    }

    // Takes a request that was answered 0, or with a cell.
    fn take_request(&mut self, written: &SourceRequest, line: u32) -> Result<(), OutOfMemory> {
        self.parts.take(written, line)?;
        match written {
            SourceRequest::Obtain { area, .. } => self.set(*area, ListMember { line, place: 0 }),
            SourceRequest::ObtainList { areas, .. } => self.set_each(areas.as_slice(), line),
            SourceRequest::Get { cell, .. } => self.set(*cell, ListMember { line, place: 0 }),
            SourceRequest::Release { .. }
            | SourceRequest::ReleaseArea { .. }
            | SourceRequest::ReleaseList { .. }
            | SourceRequest::ReleaseWhole { .. }
            | SourceRequest::Build { .. }
            | SourceRequest::Free { .. }
            | SourceRequest::Delete { .. }
            | SourceRequest::Attach { .. }
            | SourceRequest::Return
            | SourceRequest::Abend(_)
            | SourceRequest::Show { .. }
            | SourceRequest::Put { .. }
            | SourceRequest::Move { .. } => Ok(()),
        }
    }

    // Records a list that is refused: its areas may have been placed before the one that did not fit.
    fn take_refused(&mut self, written: &SourceRequest, line: u32) -> Result<(), OutOfMemory> {
        let SourceRequest::ObtainList { areas, .. } = written else {
            return Ok(());
        };
        let list = RefusedList {
            areas: areas.as_slice().len() as u32,
            pages: self.pages.below,
        };
        let trial = PlaceTrial {
            line,
            places: TrialPlaces::List(list),
        };
        self.lists.push(trial).map_err(|_| OutOfMemory)
    }

    // Records the place of a name.
    fn add_hint(&mut self, name: &Name, addr: u32) -> Result<(), OutOfMemory> {
        let Some(member) = self.names.get(name).copied() else {
            return Ok(());
        };
        let earlier = self.places.len();
        let place = CellPlace {
            member,
            earlier,
            addr,
        };
        self.places.push(place).map_err(|_| OutOfMemory)
    }

    // Records a statement and its printed answer.
    fn take(
        &mut self,
        statement: &Statement,
        line: u32,
        said: Option<PrintedAnswer>,
    ) -> Result<(), OutOfMemory> {
        match statement {
            Statement::Region { below, above, .. } => {
                self.names.clear();
                self.pages = StepPages {
                    below: below.get(),
                    above: above.get(),
                };
                self.parts.begin_step(self.pages);
            }
            Statement::Request(written) => {
                if said == Some(PrintedAnswer::Granted) {
                    return self.take_request(written, line);
                }
                return self.take_refused(written, line);
            }
            Statement::Where(name) => {
                if let Some(PrintedAnswer::At(addr)) = said {
                    return self.add_hint(name, addr);
                }
            }
            Statement::ReportSubpools | Statement::ReportMap => {}
        }
        Ok(())
    }
}

// Returns the addresses of each line, of its cell or in the order of its areas, up to the first that is not shown.
fn by_lines(alloc: Global, spots: &[CellPlace]) -> Result<AddressHints, OutOfMemory> {
    let mut hints = AddressHints::nothing(alloc);
    for spot in spots {
        let line = spot.member.line;
        if hints.of(line).len() == spot.member.place && spot.addr < 0x8000_0000 {
            hints.add(alloc, line, Addr::new(spot.addr))?;
        }
    }
    Ok(hints)
}

// Returns what is known after the last line. The first has this number.
fn hear_lines(
    alloc: Global,
    first_number: u32,
    script: &str,
    answers: &OutputAnswers,
) -> Result<Hearing, OutOfMemory> {
    let mut hearing = Hearing::new(alloc);
    let mut read = Line::Nothing;
    let mut number = first_number;
    for line in script.lines() {
        if read_line(line.as_bytes(), false, &mut read).is_ok() {
            if let Line::Statement(_, statement) = &read {
                hearing.take(statement, number, answers.of(number))?;
            }
        }
        number = number.saturating_add(1);
    }
    Ok(hearing)
}

// Returns the places that an output shows, and what is tried beside them, in the order of the lines.
fn hear_trials(alloc: Global, script: &str, output: &str) -> Result<Trials, OutOfMemory> {
    let answers = OutputAnswers::read(alloc, 1, output)?;
    let mut hearing = hear_lines(alloc, 1, script, &answers)?;
    hearing.places.sort().map_err(|_| OutOfMemory)?;
    let hints = by_lines(alloc, &hearing.places)?;
    let mut tried = hearing.parts.trials(alloc, &hints)?;
    for list in hearing.lists {
        tried.push(list).map_err(|_| OutOfMemory)?;
    }
    Ok(Trials {
        places: hearing.places,
        tried,
    })
}

/// The places of the areas and cells of a script that an output shows, and the lines whose places are tried.
#[derive(Drop)]
pub struct Trials {
    places: Vec<CellPlace>,
    pub tried: Vec<PlaceTrial>,
}

impl Trials {
    /// Reads a script and an output. Nothing is tried if one of them is not text.
    pub fn read(alloc: Global, script: &[u8], output: &[u8]) -> Result<Trials, OutOfMemory> {
        match (str::from_utf8(script), str::from_utf8(output)) {
            (Ok(script), Ok(output)) => hear_trials(alloc, script, output),
            _ => Ok(Trials {
                places: Vec::new(alloc),
                tried: Vec::new(alloc),
            }),
        }
    }

    /// Returns the hints for the places that the output shows.
    pub fn shown(&self, alloc: Global) -> Result<AddressHints, OutOfMemory> {
        by_lines(alloc, &self.places)
    }
}

// Records the texts.
fn hear_text(
    alloc: Global,
    first_number: u32,
    script: &str,
    output: &str,
    by_cells: bool,
) -> Result<AddressHints, OutOfMemory> {
    if !output.contains(" AT ") {
        return Ok(AddressHints::nothing(alloc));
    }
    let answers = OutputAnswers::read(alloc, first_number, output)?;
    let mut hearing = hear_lines(alloc, first_number, script, &answers)?;
    hearing.places.sort().map_err(|_| OutOfMemory)?;
    let mut hints = by_lines(alloc, &hearing.places)?;
    if by_cells {
        hearing.parts.add_hints(alloc, &mut hints)?;
    } else {
        hearing.parts.leave(alloc, &mut hints)?;
    }
    Ok(hints)
}

/// Returns the addresses in an output for the rest of a script, which begins with the line with this number, after its first
/// statement; nothing if one of them is not text. Where the parts of pools begin follows from their cells, if that is requested,
/// and otherwise from the placement.
pub fn hear(
    alloc: Global,
    first_number: u32,
    script: &[u8],
    output: &[u8],
    by_cells: bool,
) -> Result<AddressHints, OutOfMemory> {
    match (str::from_utf8(script), str::from_utf8(output)) {
        (Ok(script), Ok(output)) => hear_text(alloc, first_number, script, output, by_cells),
        _ => Ok(AddressHints::nothing(alloc)),
    }
}
