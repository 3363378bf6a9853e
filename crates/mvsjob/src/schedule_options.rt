//! The options for the schedules of a script.

ghost use Rattle.std.specs.Prelude.{◌≡◌, ◌≤◌, IfOk, codes};
ghost use Rattle.clap.specs.Words.{app_of, first_value, found_of};
ghost use Rattle.mvsjob.specs.CommandLine.{IsMost, schedules_app};

use crate::command_line::{number_of, with_flag, with_option};
use clap::builder::ValueParser;
use clap::{ArgMatches, Command};
use judge::MOST_RUNS;
use std::alloc::{AllocError, Global};

/// Adds the options for the schedules of a script.
pub fn with_schedules<'a>(command: Command<'a>, alloc: Global) -> Result<Command<'a>, AllocError>
    ensures { IfOk result (λ c. app_of c ≡ schedules_app (app_of command.entry)) }
{
    let exploring = with_flag(
        command,
        alloc,
        "schedules",
        "Run the statements of each step in every order that keeps the order of each task, and count the answers",
    )?;
    let ordering = with_option(
        exploring,
        alloc,
        "schedule",
        "ORDER",
        ValueParser::NonEmptyString,
        "Run the statements of a step in this order: the numbers of their lines, with commas, REGION first",
    )?;
    let seconding = with_option(
        ordering,
        alloc,
        "with-schedule",
        "ORDER",
        ValueParser::NonEmptyString,
        "With --with, run the statements of a step of OTHER in this order",
    )?;
    let limiting = with_option(
        seconding,
        alloc,
        "most",
        "N",
        ValueParser::Unsigned(1, 1_000_000_000),
        "With --schedules, run at most N schedules of each step [default: 1000000]; with --judge, make at most N runs in each search [default: 1000]",
    )?;
    with_flag(
        limiting,
        alloc,
        "ignore-addresses",
        "With --schedules, compare answers without the addresses that WHERE and REPORT MAP print",
    )
}

// Returns a number of schedules; the most that there may be where it is larger.
fn schedules_of(number: u64) -> u32
    ensures { number ≤ 1000000000 → result ≡ number }
{
    if number <= 1_000_000_000 {
        number as u32
    } else {
        1_000_000_000
    }
}

/// Returns the most schedules of a step that are run.
pub fn most_schedules(matches: &ArgMatches<'_>) -> u32
    ensures { IsMost (first_value (found_of matches.now) (codes "most")) result }
{
    schedules_of(number_of(matches, "most", 1_000_000))
}

/// Returns the most runs that a search of the judge makes.
pub fn most_runs(matches: &ArgMatches<'_>) -> usize {
    schedules_of(number_of(matches, "most", MOST_RUNS as u64)) as usize
}
