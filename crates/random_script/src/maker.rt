//! Makes a random script line by line.

use crate::dice::Dice;
use crate::faults::write_fault;
use crate::known::{Cell, KnownArea, KnownStep};
use crate::lists::{ListAreas, place_of};
use crate::requests::{ExpectedChange, attach, obtain, obtain_some, pool, release, touch};
use crate::statements::{statement, write_region};
use crate::theme::Theme;
use crate::{Profile, RandomFault};
use mvs_job::{LineEvent, Session};
use mvs_model::answer::Answer;
use mvs_model::name::Name;
use mvs_model::place::Place;
use mvs_model::want::Placement;
use std::alloc::{AllocError, Global};
use std::fmt::Write;

/// A script that is being made: the job that answers it, what is known of the step and what it is about, and the last line.
#[derive(Drop)]
pub struct ScriptMaker {
    dice: Dice,
    profile: Profile,
    theme: Theme,
    session: Session,
    known: KnownStep,
    begun: bool,
    line: String,
}

// Returns the subtask of a name, if it is one.
fn subtask(name: &[u8]) -> Option<usize> {
    match name {
        [b'T', digit] if *digit >= b'1' && *digit <= b'5' => Some((*digit - b'0') as usize),
        _ => None,
    }
}

// Returns the name of an area or a cell: a letter and its place, which has at most two digits.
fn name_of(letter: u8, place: usize) -> Option<Name> {
    let (tens, ones) = (b'0' + (place / 10 % 10) as u8, b'0' + (place % 10) as u8);
    if place < 10 {
        Name::new(&[letter, ones])
    } else {
        Name::new(&[letter, tens, ones])
    }
}

impl ScriptMaker {
    /// Makes a script without a line.
    pub fn new(alloc: Global, seed: u64, profile: Profile) -> ScriptMaker {
        ScriptMaker {
            dice: Dice::new(seed),
            profile,
            theme: Theme::Storage,
            session: Session::new(alloc, Placement::Low),
            known: KnownStep::new(),
            begun: false,
            line: String::new(alloc),
        }
    }

    /// Returns the last line that was made, without its end.
    pub fn line(&self) -> &str {
        &self.line
    }

    // Writes the next statement of one of the first five profiles, and answers what it changes where it is served.
    fn choose_usual(&mut self) -> Result<ExpectedChange, AllocError> {
        let (line, dice, known) = (&mut self.line, &mut self.dice, &self.known);
        let task = known.task(dice);
        let kind = dice.below(10);
        match (self.profile, kind) {
            (Profile::Tasks, 0 | 1) | (_, 0) => match known.new_task(dice) {
                Some(subtask) => attach(line, dice, task, subtask),
                None if task.0 > 0 && dice.is_one_of(2) => {
                    write!(line, "{task} RETURN")?;
                    Ok(ExpectedChange::Nothing)
                }
                None => obtain(line, dice, task),
            },
            (Profile::Pools, 1..=6) | (Profile::Faults, 1) => pool(line, dice, known, task),
            (Profile::Tidy, _) | (_, 1..=4) => match known.area(dice) {
                Some(found) if dice.is_one_of(3) => release(line, dice, known, found),
                Some(found) => touch(line, dice, task, found),
                None => obtain(line, dice, task),
            },
            (_, 5) => {
                write!(line, "{task} REPORT SP")?;
                Ok(ExpectedChange::Nothing)
            }
            (_, 6) => obtain_some(line, dice, task),
            _ => obtain(line, dice, task),
        }
    }

    // Writes the next statement by the theme of the step, and returns what it changes where it is granted.
    fn choose_of_theme(&mut self) -> Result<ExpectedChange, AllocError> {
        let (line, dice, known) = (&mut self.line, &mut self.dice, &self.known);
        let theme = if self.profile == Profile::All && dice.is_one_of(8) {
            Theme::any(dice)
        } else {
            self.theme
        };
        let kind = theme.kind(dice);
        let change = statement(line, dice, known, kind)?;
        if dice.is_one_of(24) {
            line.push_str("  A REMARK")?;
        }
        Ok(change)
    }

    // Writes the next statement, and returns what it changes where it is granted.
    fn choose(&mut self) -> Result<ExpectedChange, AllocError> {
        match self.profile {
            Profile::Storage | Profile::Tasks | Profile::Pools | Profile::Tidy | Profile::Faults =>
                { self.choose_usual() }
            Profile::Lists | Profile::Boundaries | Profile::Whole | Profile::All => {
                self.choose_of_theme()
            }
        }
    }

    // Returns the address and the length of an area or a cell.
    fn found(&self, letter: u8, place: usize) -> Option<Place> {
        let name = name_of(letter, place)?;
        self.session.walk().job()?.place_of(&name)
    }

    // Records that an area was obtained, with the address and the length that it has.
    fn grant(&mut self, place: usize, area: KnownArea) {
        let granted = match self.found(b'A', place) {
            Some(found) => KnownArea {
                addr: found.addr().get(),
                len: found.len(),
                ..area
            },
            None => area,
        };
        set(&mut self.known.areas, place, Some(granted));
    }

    // Records that the areas of a list were obtained.
    fn grant_all(&mut self, members: ListAreas) {
        for member in 0..members.count {
            self.grant(place_of(members.first, member), members.area);
        }
    }

    // Records that the areas of a list were released.
    fn release_all(&mut self, members: ListAreas) {
        for member in 0..members.count {
            set(&mut self.known.areas, place_of(members.first, member), None);
        }
    }

    // Records that a cell was taken.
    fn take_cell(&mut self, place: usize, cell: Cell) {
        let addr = match self.found(b'C', place) {
            Some(found) => found.addr().get(),
            None => 0,
        };
        set(&mut self.known.cells, place, Some(Cell { addr, ..cell }));
    }

    // Keeps what the answer to a statement of a task changes.
    fn take(&mut self, change: ExpectedChange) {
        match change {
            ExpectedChange::Nothing => {}
            ExpectedChange::Obtains(place, area) => set(&mut self.known.areas, place, Some(area)),
            ExpectedChange::Releases(place) => set(&mut self.known.areas, place, None),
            ExpectedChange::Builds(pool) => set(&mut self.known.pools, pool, true),
            ExpectedChange::Deletes(pool) => set(&mut self.known.pools, pool, false),
            ExpectedChange::Takes(place, cell) => self.take_cell(place, cell),
            ExpectedChange::Gives(place) => set(&mut self.known.cells, place, None),
            ExpectedChange::Attaches(task) => set(&mut self.known.active, task.0, true),
            ExpectedChange::Grants(place, area) => self.grant(place, area),
            ExpectedChange::GrantsAll(members) => self.grant_all(members),
            ExpectedChange::ReleasesAll(members) => self.release_all(members),
            ExpectedChange::Empties(task, number) => self.known.forget(task, number),
            ExpectedChange::Shares(task, number) => {
                set(&mut self.known.active, task.0, true);
                set(&mut self.known.shares, task.0, number);
            }
            ExpectedChange::OneMore => self.known.more = self.known.more.saturating_add(1),
        }
    }

    // Removes a task that ended, with those that ended with it.
    fn end(&mut self, task: &Name) {
        match subtask(task.text()) {
            Some(place) => set(&mut self.known.active, place, false),
            None => self.begun = false,
        }
        for name in self.session.walk().fallen() {
            if let Some(place) = subtask(name.text()) {
                set(&mut self.known.active, place, false);
            }
        }
    }

    // Records the changes of a line.
    fn hear(&mut self, line_event: &LineEvent, change: ExpectedChange) {
        match line_event {
            LineEvent::Answered { task, answer } => match answer {
                Answer::NotRun | Answer::NoName | Answer::Rc4 | Answer::NoCell => {}
                Answer::Ended | Answer::Abended(_) => self.end(task),
                Answer::At(_)
                | Answer::Rc0
                | Answer::Granted(_)
                | Answer::Cell
                | Answer::Attached
                | Answer::Done
                | Answer::Data(_)
                | Answer::Subpools
                | Answer::Map => self.take(change),
            },
            LineEvent::Nothing | LineEvent::StepBegan { .. } | LineEvent::Faulted(_) => {}
        }
    }

    // Writes the statement that begins a step, and chooses what the step is about.
    fn begin(&mut self) -> Result<(), AllocError> {
        self.begun = true;
        self.known = KnownStep::new();
        let theme = match self.profile {
            Profile::Storage | Profile::Tasks | Profile::Pools | Profile::Tidy | Profile::Faults =>
                {
                    let pages = 2 + self.dice.below(5);
                    return write!(self.line, "JOB REGION BELOW={pages},ABOVE=2");
                }
            Profile::Lists => Theme::Lists,
            Profile::Boundaries => Theme::Boundaries,
            Profile::Whole => Theme::Whole,
            Profile::All => Theme::any(&mut self.dice),
        };
        self.theme = theme;
        write_region(&mut self.line, &mut self.dice)
    }

    // Returns whether the next line is to have a comma at its end, which is a fault.
    fn ends_with_comma(&mut self, is_last: bool) -> bool {
        self.profile == Profile::Faults && (self.dice.is_one_of(40) || is_last)
    }

    // Returns whether the next line gets a fault: the last one, or the first one, which is then no REGION statement.
    fn is_to_be_faulty(&mut self, is_last: bool) -> bool {
        self.profile == Profile::All
            && (is_last && self.dice.is_one_of(2)
                || self.session.walk().job().is_none() && self.dice.is_one_of(16))
    }

    // Writes the next line, and answers what it changes where it is served.
    fn write_line(&mut self, is_last: bool) -> Result<ExpectedChange, AllocError> {
        self.line.clear();
        if self.is_to_be_faulty(is_last) {
            write_fault(&mut self.line, &mut self.dice)?;
            return Ok(ExpectedChange::Nothing);
        }
        let change = if self.begun {
            self.choose()?
        } else {
            self.begin()?;
            ExpectedChange::Nothing
        };
        if self.ends_with_comma(is_last) {
            self.line.push_str(",")?;
        }
        Ok(change)
    }

    /// Makes the next line, and returns whether there is one: after a fault there is none.
    pub fn makes_line(&mut self, is_last: bool) -> Result<bool, RandomFault> {
        let change = self.write_line(is_last)?;
        if !self.session.takes_line() {
            return Ok(false);
        }
        let Ok(line_event) = self.session.line(self.line.as_bytes()) else {
            return Err(RandomFault::Memory);
        };
        self.hear(&line_event, change);
        Ok(true)
    }
}

// Sets a member of a list that has it.
fn set<T: Copy, const N: usize>(list: &mut [T; N], place: usize, value: T) {
    if let Some(member) = list.get_mut(place) {
        *member = value;
    }
}
