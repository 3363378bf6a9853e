//! Looks for places of the parts of pools, and of the areas of lists that are refused, with which a run prints an output.

ghost use Rattle.std.specs.Prelude.{◌≡◌, ◌≤◌, List, ℕ, IfOk, length};
ghost use Rattle.mvs_model.specs.Numbers.{most_script_bytes};
ghost use Rattle.mvs_model.specs.Runs.{IsPrinting};
ghost use Rattle.judge.specs.Excluding.{IsSearchEnd};

use crate::hearing::Trials;
use crate::resting::{RunResult, run_rest};
use mvs_job::{AddressHints, Walk};
use mvs_model::error::OutOfMemory;
use mvs_model::want::Placement;
use std::alloc::Global;
use std::str;

/// How a search goes on.
#[derive(Clone, Copy)]
pub struct SearchPlan {
    /// Where the runs place what has no hint.
    pub placement: Placement,
    /// The most runs.
    pub most_runs: usize,
    /// Whether places of several lines are changed at once, once each place of a single line was tried.
    pub shakes: bool,
}

// A script with more bytes than this gets fewer runs.
const FULL_BYTES: usize = 32_768;

/// How a search ended.
#[derive(Drop)]
pub enum SearchEnd {
    /// This run prints the output.
    Printed(RunResult),
    /// No run that was made prints it.
    Missed(NearestRun),
}

/// The run that agrees furthest with an output which none of the runs prints.
#[derive(Drop)]
pub struct NearestRun {
    /// Its hints.
    pub hints: AddressHints,
    /// Whether the search stopped at its bound, with places left to try.
    pub has_stopped: bool,
}

// How far a run agrees with an output: the bytes up to the first difference, the number of the line of the script there, and the address that
// the output shows in that line.
#[derive(Clone, Copy, Debug, PartialEq, Eq)]
struct Agreement {
    bytes: usize,
    line_number: u32,
    addr: Option<u32>,
}

// Another place for one of the lines that are tried, by its number in the list of the line's places.
#[derive(Clone, Copy, Debug, PartialEq, Eq)]
struct PlaceChange {
    line: usize,
    place: usize,
}

// A source of numbers that look random, and are the same each time.
#[derive(Clone, Copy, Debug, PartialEq, Eq)]
struct Dice {
    state: u32,
}

// The places of the next run, by their numbers in the lists of places, and those of the best run so far. Then what may be changed in that, the
// likeliest first, and how much of it was tried; and how many lines before the first difference have several places.
#[derive(Drop)]
struct PlaceSearch {
    trials: Trials,
    choices: Vec<usize>,
    best_choices: Vec<usize>,
    best: Option<Agreement>,
    changes: Vec<PlaceChange>,
    at: usize,
    movable: usize,
    dice: Dice,
}

// Returns the number at the beginning of a printed line.
fn number_of(line: &str) -> Option<u32> {
    let (digits, _) = line.split_once(' ')?;
    digits.parse().ok()
}

// Returns the address that a printed line shows: that of a name, or of pages.
fn address_of(line: &str) -> Option<u32> {
    let (_, digits) = line.split_once(" AT ").or(line.split_once(" MAP "))?;
    let first = digits.split(' ').next()?;
    u32::from_str_radix(first, 16).ok()
}

// Returns how far a text agrees with an output.
fn compared(text: &str, output: &str) -> Agreement {
    let mut bytes = 0usize;
    for (printed, shown) in text.lines().zip(output.lines()) {
        if printed != shown {
            return Agreement {
                bytes,
                line_number: number_of(printed).unwrap_or(u32::MAX),
                addr: address_of(shown),
            };
        }
        bytes = bytes.saturating_add(printed.len()).saturating_add(1);
    }
    Agreement {
        bytes,
        line_number: u32::MAX,
        addr: None,
    }
}

impl Dice {
    // Returns the next number below this one.
    fn roll(&mut self, below: usize) -> usize {
        self.state = self
            .state
            .wrapping_mul(1_664_525)
            .wrapping_add(1_013_904_223);
        (self.state >> 8) as usize % below.max(1)
    }
}

// Makes a list the same as another one.
fn copy_onto(copy: &mut Vec<usize>, list: &[usize]) -> Result<(), OutOfMemory> {
    copy.clear();
    copy.extend_from_slice(list).map_err(|_| OutOfMemory)?;
    Ok(())
}

impl PlaceSearch {
    // Begins with the likeliest place of each line.
    fn new(alloc: Global, script: &[u8], output: &[u8]) -> Result<PlaceSearch, OutOfMemory> {
        let trials = Trials::read(alloc, script, output)?;
        let mut choices = Vec::new(alloc);
        for _ in 0..trials.tried.len() {
            choices.push(0).map_err(|_| OutOfMemory)?;
        }
        let mut best_choices = Vec::new(alloc);
        copy_onto(&mut best_choices, &choices)?;
        Ok(PlaceSearch {
            trials,
            choices,
            best_choices,
            best: None,
            changes: Vec::new(alloc),
            at: 0,
            movable: 0,
            dice: Dice { state: 1 },
        })
    }

    // Returns the hints for a run with these places.
    fn hints(&self, alloc: Global, choices: &[usize]) -> Result<AddressHints, OutOfMemory> {
        let mut hints = self.trials.shown(alloc)?;
        for (trial, choice) in self.trials.tried.iter().zip(choices) {
            trial.add_hints(alloc, &mut hints, *choice)?;
        }
        Ok(hints)
    }

    // Adds each other place of a line, where that comes before a difference, and its place is, or is not, where the output shows something else.
    fn add_changes(
        &mut self,
        line: usize,
        found: &Agreement,
        is_near: bool,
    ) -> Result<(), OutOfMemory> {
        let (Some(trial), Some(choice)) = (self.trials.tried.get(line), self.best_choices.get(line))
        else {
            return Ok(());
        };
        let near = found.addr.is_some_and(|addr| trial.is_near(*choice, addr));
        if trial.line > found.line_number || near != is_near {
            return Ok(());
        }
        for place in 0..trial.count() {
            if place != *choice {
                let change = PlaceChange { line, place };
                self.changes.push(change).map_err(|_| OutOfMemory)?;
            }
        }
        Ok(())
    }

    // Returns how many lines up to this one have several places.
    fn count_movable(&self, last: u32) -> usize {
        let mut count = 0usize;
        for trial in &self.trials.tried {
            if trial.line <= last && trial.count() > 1 {
                count = count.saturating_add(1);
            }
        }
        count
    }

    // Keeps a run that agrees further than those before. Next the places of the lines before the difference are tried, the last line first, and
    // before all those that are where the output shows something else.
    fn keep(&mut self, found: Agreement) -> Result<(), OutOfMemory> {
        copy_onto(&mut self.best_choices, &self.choices)?;
        self.best = Some(found);
        self.changes.clear();
        self.at = 0;
        self.movable = self.count_movable(found.line_number);
        let count = self.choices.len();
        for number in 0..count.saturating_mul(2) {
            let line = count
                .saturating_sub(1)
                .saturating_sub(number % count.max(1));
            self.add_changes(line, &found, number < count)?;
        }
        Ok(())
    }

    // Puts some lines of the next run at places at random, if they come before the first difference of the best one.
    fn shake(&mut self) {
        let last = match self.best {
            Some(best) => best.line_number,
            None => 0,
        };
        for (trial, choice) in self.trials.tried.iter().zip(self.choices.iter_mut()) {
            if trial.line <= last && self.dice.roll(3) == 0 {
                *choice = self.dice.roll(trial.count());
            }
        }
    }

    // Chooses the places of the next run. Returns whether there are some.
    fn advance(&mut self, shakes: bool) -> Result<bool, OutOfMemory> {
        copy_onto(&mut self.choices, &self.best_choices)?;
        if let Some(change) = self.changes.get(self.at) {
            if let Some(choice) = self.choices.get_mut(change.line) {
                *choice = change.place;
            }
            self.at = self.at.saturating_add(1);
            return Ok(true);
        }
        if shakes && self.movable > 1 {
            self.shake();
            return Ok(true);
        }
        Ok(false)
    }

    // Takes what a run has printed. Returns whether there are other places to try.
    fn take(&mut self, text: &[u8], output: &[u8], shakes: bool) -> Result<bool, OutOfMemory> {
        let (Ok(text), Ok(output)) = (str::from_utf8(text), str::from_utf8(output)) else {
            return Ok(false);
        };
        let found = compared(text, output);
        let is_better = match self.best {
            Some(best) => best.bytes < found.bytes,
            None => true,
        };
        if is_better {
            self.keep(found)?;
        }
        self.advance(shakes)
    }
}

// Runs a script with hints.
fn run_with(
    alloc: Global,
    script: &[u8],
    hints: &AddressHints,
    placement: Placement,
) -> Result<RunResult, OutOfMemory>
    requires { length script.now ≤ most_script_bytes }
    ensures { IfOk result (λ ran. IsPrinting script.now ran.text.items ran.outcome) }
{
    run_rest(Walk::new(alloc, placement), script, hints, Vec::new(alloc))
}

// Returns how many runs are made of a script of some bytes.
fn runs_of(len: usize, most_runs: usize) -> usize {
    most_runs.saturating_mul(FULL_BYTES) / len.max(FULL_BYTES)
}

// Returns that no run prints an output.
fn missed(alloc: Global, places: &PlaceSearch, has_stopped: bool) -> Result<SearchEnd, OutOfMemory>
    ensures { IfOk result (λ end. (script : List ℕ) (output : List ℕ) → IsSearchEnd script output end) }
{
    let hints = places.hints(alloc, &places.best_choices)?;
    Ok(SearchEnd::Missed(NearestRun { hints, has_stopped }))
}

/// Looks for a run that prints an output, among those whose parts are where the known cells allow it. The runs place other areas as the plan
/// says. It makes at most as many runs as that allows, and fewer of a long script.
pub fn search(
    alloc: Global,
    script: &[u8],
    output: &[u8],
    plan: &SearchPlan,
) -> Result<SearchEnd, OutOfMemory>
    requires { length script.now ≤ most_script_bytes }
    ensures { IfOk result (IsSearchEnd script.now output.now) }
{
    let mut places = PlaceSearch::new(alloc, script, output)?;
    'runs: for _ in 0..runs_of(script.len(), plan.most_runs) {
        let hints = places.hints(alloc, &places.choices)?;
        let ran = run_with(alloc, script, &hints, plan.placement)?;
        if ran.text.as_slice() == output {
            return Ok(SearchEnd::Printed(ran));
        }
        if !places.take(&ran.text, output, plan.shakes)? {
            return missed(alloc, &places, false);
        }
    }
    missed(alloc, &places, true)
}
