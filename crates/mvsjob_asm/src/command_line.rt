//! The command line.

use assembler_output::{RegionPages, ScriptForm, region_of};
use assembler_source::{Choices, Repeat, Schedule};
use clap::builder::ValueParser;
use clap::error::ErrorKind;
use clap::{Arg, ArgAction, ArgMatches, Command};
use std::alloc::{AllocError, Global};
use version::VERSION;

const ABOUT: &str =
    "Converts assembler source, or a listing of it, to a script of mvsjob: one statement for each GETMAIN, FREEMAIN, STORAGE, CPOOL and ATTACH.";

const HELP: &str =
    "A line that begins with *? needs your attention: it says what is not known or what you have to choose, and shows the source.
Without --path the statements come in the order of the source, with a *? line at each branch and each loop.

Exit status: 0 some statement was written, 1 none was, 2 an error.
mvsjob-asm(1) describes the conversion, and docs/FROM-ASSEMBLER.md goes through an example.";

/// Where the statements of a subtask may be.
const SCHEDULES: &[&str] = &["attach", "end"];

/// What a command line asks for.
#[derive(Drop)]
pub struct Options<'a> {
    pub file: &'a str,
    /// Where the members are that COPY names.
    pub folders: Vec<&'a str>,
    pub form: ScriptForm<'a>,
    pub choices: Choices,
}

// Makes an option with a value.
fn valued<'a>(alloc: Global, name: &'a str, value: &'a str, help: &'a str) -> Arg<'a> {
    Arg::new(alloc, name)
        .long(name)
        .value_name(value)
        .help(help)
}

// Returns the options that choose the path.
fn with_paths<'a>(command: Command<'a>, alloc: Global) -> Result<Command<'a>, AllocError> {
    let path = valued(
        alloc,
        "path",
        "LABELS",
        "Follows one path: a conditional branch is taken if it goes to the next of these labels (A,B,C) or lines",
    );
    let repeat = valued(
        alloc,
        "repeat",
        "LABEL=N",
        "Writes the loop that begins at a label N times; may be given for several loops",
    )
    .action(ArgAction::Append);
    let schedule = valued(
        alloc,
        "schedule",
        "WHEN",
        "Where the statements of a subtask are: right after its ATTACH, or after those of the attaching task",
    )
    .value_parser(ValueParser::Names(SCHEDULES));
    command.arg(path)?.arg(repeat)?.arg(schedule)
}

// Returns the options for what is read and how it is written.
fn with_files<'a>(command: Command<'a>, alloc: Global) -> Result<Command<'a>, AllocError> {
    let folder = Arg::new(alloc, "include")
        .short('I')
        .long("include")
        .value_name("DIR")
        .action(ArgAction::Append)
        .help(
            "Reads the members that COPY names from this folder; may be given for several folders",
        );
    let json = Arg::new(alloc, "json")
        .long("json")
        .action(ArgAction::SetTrue)
        .help("Writes an object of JSON for each line of the script, and one with their numbers");
    command.arg(folder)?.arg(json)
}

// Returns the command.
fn command<'a>(alloc: Global) -> Result<Command<'a>, AllocError> {
    let file = Arg::new(alloc, "FILE").help("The source; standard input if it is left out or -");
    let region = valued(
        alloc,
        "region",
        "SIZE",
        "The region of the step, as REGION= of JCL: 4M, or 640K,4M for below and above 16 megabytes",
    );
    let command = Command::new(alloc, "mvsjob-asm")
        .version(VERSION)
        .about(ABOUT)
        .after_help(HELP)
        .arg(file)?
        .arg(region)?;
    with_files(with_paths(command, alloc)?, alloc)
}

// Returns the labels of a path.
fn labels(alloc: Global, text: &str) -> Result<Vec<String>, AllocError> {
    let mut labels = Vec::new(alloc);
    for label in text.split(',') {
        labels.push(upper(alloc, label)?)?;
    }
    Ok(labels)
}

// Returns a label in upper case.
fn upper(alloc: Global, label: &str) -> Result<String, AllocError> {
    label
        .chars()
        .map(|letter| letter.to_ascii_uppercase())
        .collect(alloc)
}

// Reads a loop that is repeated.
fn repeat(alloc: Global, text: &str) -> Result<Option<Repeat>, AllocError> {
    let Some((label, count)) = text.split_once('=') else {
        return Ok(None);
    };
    match count.parse::<u32>() {
        Ok(count) if count > 0 => Ok(Some(Repeat {
            label: upper(alloc, label)?,
            count,
        })),
        _ => Ok(None),
    }
}

// Returns why a value of an option is refused.
fn refusal(
    command: &mut Command<'_>,
    alloc: Global,
    option: &str,
    value: &str,
    expected: &str,
) -> Result<clap::Error, AllocError> {
    let text = format!(in alloc; "invalid value '{value}' for '--{option}': {expected}")?;
    command.error(ErrorKind::ValueValidation, &text)
}

// Returns the loops that are repeated.
fn repeats(
    command: &mut Command<'_>,
    alloc: Global,
    matches: &ArgMatches<'_>,
) -> Result<Vec<Repeat>, clap::Error> {
    let mut repeats = Vec::new(alloc);
    let Some(values) = matches.get_strs("repeat") else {
        return Ok(repeats);
    };
    for value in values {
        match repeat(alloc, value)? {
            Some(one) => repeats.push(one).map_err(AllocError::from)?,
            None => {
                let expected = "expected LABEL=N, with a number from 1 on";
                return Err(refusal(command, alloc, "repeat", value, expected)?);
            }
        }
    }
    Ok(repeats)
}

// Returns the region, if it is written.
fn region(
    command: &mut Command<'_>,
    alloc: Global,
    text: Option<&str>,
) -> Result<Option<RegionPages>, clap::Error> {
    let Some(text) = text else {
        return Ok(None);
    };
    match region_of(text) {
        Some(region) => Ok(Some(region)),
        None => {
            let expected =
                "expected a size such as 640K or 4M, or two for below and above 16 megabytes; a script has at most 8M,32M";
            Err(refusal(command, alloc, "region", text, expected)?)
        }
    }
}

// Returns what is chosen of the paths.
fn choices(
    command: &mut Command<'_>,
    alloc: Global,
    matches: &ArgMatches<'_>,
) -> Result<Choices, clap::Error> {
    let path = matches
        .get_str("path")
        .map(|text| labels(alloc, text))
        .transpose()?;
    let schedule = match matches.get_str("schedule") {
        Some("attach") => Schedule::AtAttach,
        Some(_) => Schedule::AtEnd,
        None => Schedule::Marked,
    };
    Ok(Choices {
        path,
        repeats: repeats(command, alloc, matches)?,
        schedule,
    })
}

// Returns the folders of members.
fn folders<'a>(alloc: Global, matches: &ArgMatches<'a>) -> Result<Vec<&'a str>, AllocError> {
    let mut folders = Vec::new(alloc);
    if let Some(values) = matches.get_strs("include") {
        for value in values {
            folders.push(*value)?;
        }
    }
    Ok(folders)
}

/// Returns what the words of a command line ask for, or what `clap` prints of them.
pub fn options_of<'a>(alloc: Global, words: &'a [String]) -> Result<Options<'a>, clap::Error> {
    let mut command = command(alloc)?;
    let matches = command.try_get_matches_from_mut(words)?;
    let written = matches.get_str("region");
    let form = ScriptForm {
        region: region(&mut command, alloc, written)?,
        written: written.unwrap_or(""),
        is_json: matches.get_flag("json"),
    };
    Ok(Options {
        file: matches.get_str("FILE").unwrap_or("-"),
        folders: folders(alloc, &matches)?,
        form,
        choices: choices(&mut command, alloc, &matches)?,
    })
}
