//! The words of the command line, which `clap` reads.

ghost use Rattle.std.specs.Prelude.{◌≡◌, ◌↔◌, ◌⊎◌, ◌<◌, ◌≤◌, ◌^◌, ℕ, [], None, Some, IfOk, IfErr, IsTrue, codes, map, string_bytes};
ghost use Rattle.std.specs.Option.{option_map, unwrap_or};
ghost use Rattle.clap.specs.Words.{IsAmong, Kinds, Text, app_of, first_value, found_of, kind_of, new_app, new_rule, with_rule};
ghost use Rattle.clap.specs.declared.error.kind.ErrorKind.TheVariants.{OutOfMemory};
ghost use Rattle.clap.specs.declared.builder.value_parser.ValueParser.{ValueParser as Parser};
ghost use Rattle.mvsjob.specs.CommandLine.{AreParsers, AreSettings, FindsWrong, IsColor, IsFormat, IsMode, IsNumber, IsOneOf, IsOutput, IsProfile, IsRecipe, IsScriptMode, IsTaken, Parsers, answers_app, assigned, checking_app, colors, command, formats, flag_rule, judging_app, places, profiles, random_app, rule_app, output_app, second_app, value_rule, versioned};
ghost use Rattle.reference.specs.Texts.{names};

use crate::exclusions::apart;
use crate::options::{Color, Mode, Recipe, RunOutput, Settings};
use crate::schedule_options::{most_runs, most_schedules, with_schedules};
use clap::builder::ValueParser;
use clap::{Arg, ArgAction, ArgMatches, Command};
use expected_answers::{Format, ReportForm};
use mvs_model::want::Placement;
use random_script::Profile;
use std::alloc::{AllocError, Global};
use version::VERSION;

const ABOUT: &str =
    "Simulates the virtual storage services of z/OS: runs a script of requests, and prints the reply to each.";

const SHORT: &str = "--help also shows examples and exit statuses.
mvsjob-script(5) describes the script language.";

const LONG: &str = "Examples:
  mvsjob leak.job                    run a script
  mvsjob --explain leak.job          show why requests are refused, and what is freed
  mvsjob --leaks leak.job            show which areas were never released
  mvsjob --strict leak.job           report lines that were not executed
  mvsjob                             run lines as you type them; .help lists commands, Ctrl-D ends
  mvsjob --page a.job > a.html       show storage and tasks after each statement
  mvsjob --check homework.job        compare the answers after => with those of a run
  mvsjob --check --hide homework.job
                                     the same, without what would be right
  mvsjob --assemble leak.job         print an HLASM program that makes the same requests
  mvsjob --code S878                 print what a code means, and what to try
  mvsjob --schedules race.job        run every order of the tasks, and count the answers
  mvsjob --random 7 --lines 50 | mvsjob --place high
                                     run a random script, its areas at the highest addresses

Exit status:
  0   the script ran to its end, and no task abended
  1   --check: an answer is wrong or missing; --judge: no run of the script prints OUTPUT;
      --schedules: a statement has several answers
  2   --judge: not decided; --schedules: not all schedules were run
  4   no task abended, but with --strict a line was not executed (NOT RUN or NO NAME),
      or with --leaks an area was never released
  8   the script ran to its end, and a task abended
  12  a line has a fault, and no later line was run; in a terminal, where such lines
      are skipped, 12 means that there was no REGION statement
  16  an error, described on standard error

mvsjob-script(5) describes the script language.";

/// The options that have a value, where it is a word of its own.
static VALUED: [&str; 13] = [
    "--with",
    "--schedule",
    "--with-schedule",
    "--most",
    "--place",
    "--format",
    "--judge",
    "--random",
    "--lines",
    "--profile",
    "--color",
    "--code",
    "--rule",
];

/// The values of the option `--color`.
static COLORS: [&str; 3] = ["auto", "always", "never"];

/// The values of the option `--format`.
static FORMATS: [&str; 3] = ["text", "tap", "junit"];

/// The values of the option `--place`.
static PLACES: [&str; 2] = ["low", "high"];

/// The values of the option `--profile`.
static PROFILES: [&str; 9] = [
    "storage",
    "tasks",
    "pools",
    "tidy",
    "faults",
    "lists",
    "boundaries",
    "whole",
    "all",
];

/// The values of the option `--code`: what a run can print that has a text of its own.
static CODES: [&str; 36] = [
    "S804", "S80A", "S878", "SB04", "SB05", "SB0A", "SB78", "S905", "S90A", "S978", "SA05", "SA0A",
    "SA78", "S0C4", "SA03", "U4001", "U4002", "U4003", "U4005", "U4006", "U4007", "U4008", "U4009",
    "JS01", "JS02", "JS03", "JS04", "JS05", "JS06", "JS07", "JS08", "JS09", "RC 4", "NO CELL",
    "NOT RUN", "NO NAME",
];

// Returns the command without its words: its name, its version, and what the help says around them.
fn titled<'a>(alloc: Global) -> Command<'a>
    ensures { app_of result ≡ versioned (new_app (codes "mvsjob")) }
{
    Command::new(alloc, "mvsjob")
        .version(VERSION)
        .about(ABOUT)
        .after_help(SHORT)
        .after_long_help(LONG)
}

/// Adds an option without a value.
pub fn with_flag<'a>(
    command: Command<'a>,
    alloc: Global,
    name: &'a str,
    help: &'a str,
) -> Result<Command<'a>, AllocError>
    ensures { IfOk result (λ c. app_of c ≡ with_rule (app_of command.entry) (flag_rule name.now)) }
{
    let flag = Arg::new(alloc, name)
        .long(name)
        .action(ArgAction::SetTrue)
        .help(help);
    command.arg(flag)
}

/// Adds an option with a value, which the help calls by a name.
pub fn with_option<'a>(
    command: Command<'a>,
    alloc: Global,
    name: &'a str,
    value: &'a str,
    parser: ValueParser<'a>,
    help: &'a str,
) -> Result<Command<'a>, AllocError>
    ensures { IfOk result
        (λ c. app_of c ≡ with_rule (app_of command.entry) (value_rule name.now parser.entry)) }
{
    let option = Arg::new(alloc, name)
        .long(name)
        .value_name(value)
        .value_parser(parser)
        .help(help);
    command.arg(option)
}

// Returns the command with the script.
fn with_script<'a>(alloc: Global) -> Result<Command<'a>, AllocError>
    ensures { IfOk result
        (λ c. app_of c ≡ with_rule (versioned (new_app (codes "mvsjob"))) (new_rule (codes "FILE"))) }
{
    let file = Arg::new(alloc, "FILE").help("Script to run [default: standard input]");
    titled(alloc).arg(file)
}

// Adds the option for the placement.
fn with_place<'a>(command: Command<'a>, alloc: Global) -> Result<Command<'a>, AllocError>
    ensures { IfOk result
        (λ c. (place : Parser) × IsOneOf places place
        × (app_of c ≡ with_rule (app_of command.entry) (value_rule (codes "place") place))) }
{
    with_option(
        command,
        alloc,
        "place",
        "PLACE",
        ValueParser::Names(PLACES.as_slice()),
        "Place each area at the lowest or the highest address that fits [default: low]",
    )
}

// Adds the options that compare the answers of a script with those of a run.
fn with_checking<'a>(command: Command<'a>, alloc: Global) -> Result<Command<'a>, AllocError>
    ensures { IfOk result (λ c. app_of c ≡ checking_app (app_of command.entry)) }
{
    let checking = with_flag(
        command,
        alloc,
        "check",
        "Compare the answers after => in the script with those of a run, and count those that are right",
    )?;
    with_flag(
        checking,
        alloc,
        "hide",
        "With --check, print which answers are wrong, but not what would be right",
    )
}

// Adds the option for the form of the report.
fn with_format<'a>(command: Command<'a>, alloc: Global) -> Result<Command<'a>, AllocError>
    ensures { IfOk result
        (λ c. (format : Parser) × IsOneOf formats format
        × (app_of c ≡ with_rule (app_of command.entry) (value_rule (codes "format") format))) }
{
    with_option(
        command,
        alloc,
        "format",
        "FORMAT",
        ValueParser::Names(FORMATS.as_slice()),
        "With --check, print the report as text, as TAP, or as JUnit's XML [default: text]",
    )
}

// Adds the other options for what is done with the script.
fn with_answers<'a>(command: Command<'a>, alloc: Global) -> Result<Command<'a>, AllocError>
    ensures { IfOk result (λ c. app_of c ≡ answers_app (app_of command.entry)) }
{
    let blanking = with_flag(
        command,
        alloc,
        "blank",
        "Print the script with ? in place of the answers after =>",
    )?;
    with_flag(
        blanking,
        alloc,
        "assemble",
        "Print the script as an HLASM program with JCL that makes the same requests",
    )
}

// Returns the command with what is asked of the output of another program.
fn with_judging<'a>(command: Command<'a>, alloc: Global) -> Result<Command<'a>, AllocError>
    ensures { IfOk result (λ c. app_of c ≡ judging_app (app_of command.entry)) }
{
    let judging = with_option(
        command,
        alloc,
        "judge",
        "OUTPUT",
        ValueParser::NonEmptyString,
        "Decide whether a run of the script can print the file OUTPUT, wherever its areas are placed",
    )?;
    with_flag(
        judging,
        alloc,
        "ask",
        "Print the script with a WHERE after each request for areas or a cell",
    )
}

// Returns the command with a random script.
fn with_random<'a>(command: Command<'a>, alloc: Global) -> Result<Command<'a>, AllocError>
    ensures { IfOk result (λ c. app_of c ≡ random_app (app_of command.entry)) }
{
    let seeded = with_option(
        command,
        alloc,
        "random",
        "SEED",
        ValueParser::Unsigned(0, u64::MAX),
        "Print a random script, in which most requests are granted",
    )?;
    with_option(
        seeded,
        alloc,
        "lines",
        "N",
        ValueParser::Unsigned(1, 1_000_000),
        "Number of lines of a random script [default: 100]",
    )
}

// Returns the command with what a random script is made of.
fn with_profile<'a>(command: Command<'a>, alloc: Global) -> Result<Command<'a>, AllocError>
    ensures { IfOk result
        (λ c. (profile : Parser) × IsOneOf profiles profile
        × (app_of c ≡ with_rule (app_of command.entry) (value_rule (codes "profile") profile))) }
{
    with_option(
        command,
        alloc,
        "profile",
        "NAME",
        ValueParser::Names(PROFILES.as_slice()),
        "Contents of a random script [default: storage]",
    )
}

// Adds the options for the output of a run.
fn with_outputs<'a>(command: Command<'a>, alloc: Global) -> Result<Command<'a>, AllocError>
    ensures { IfOk result (λ c. app_of c ≡ output_app (app_of command.entry)) }
{
    let explaining = with_flag(
        command,
        alloc,
        "explain",
        "Also print, in lines that begin with *, why a request was refused, what it changed, and what a task's end freed",
    )?;
    let reporting = with_flag(
        explaining,
        alloc,
        "leaks",
        "Report at the end of each step, in lines that begin with *, the areas that were never released",
    )?;
    let printing = with_flag(
        reporting,
        alloc,
        "json",
        "Print each event of the run as a line of JSON; with --explain, include the reasons",
    )?;
    let paging = with_flag(
        printing,
        alloc,
        "page",
        "Print the run as an HTML page that shows storage and tasks after each statement",
    )?;
    let opening = with_flag(
        paging,
        alloc,
        "open",
        "With --page, write the page to a new file in the folder for temporary files, and print the name of the file",
    )?;
    let strict = with_flag(
        opening,
        alloc,
        "strict",
        "Report lines that were not executed (NOT RUN, NO NAME) on standard error, with a hint",
    )?;
    with_flag(
        strict,
        alloc,
        "interactive",
        "Prompt for each line, and report and skip lines with a fault, as in a terminal; .help lists commands",
    )
}

// Returns the command with the colours of answers.
fn with_color<'a>(command: Command<'a>, alloc: Global) -> Result<Command<'a>, AllocError>
    ensures { IfOk result
        (λ c. (color : Parser) × IsOneOf colors color
        × (app_of c ≡ with_rule (app_of command.entry) (value_rule (codes "color") color))) }
{
    with_option(
        command,
        alloc,
        "color",
        "WHEN",
        ValueParser::Names(COLORS.as_slice()),
        "Color lines with ABEND or RC 4 [default: auto, which colors in a terminal unless NO_COLOR is set]",
    )
}

// Adds the option for the text of a code.
fn with_code<'a>(command: Command<'a>, alloc: Global) -> Result<Command<'a>, AllocError>
    ensures { IfOk result
        (λ c. (code : Parser) × IsOneOf names code
        × (app_of c ≡ with_rule (app_of command.entry) (value_rule (codes "code") code))) }
{
    with_option(
        command,
        alloc,
        "code",
        "CODE",
        ValueParser::Names(CODES.as_slice()),
        "Print what CODE means, its usual causes and an example",
    )
}

// Adds the option for the text of a rule.
fn with_rule_text<'a>(command: Command<'a>, alloc: Global) -> Result<Command<'a>, AllocError>
    ensures { IfOk result (λ c. app_of c ≡ rule_app (app_of command.entry)) }
{
    with_option(
        command,
        alloc,
        "rule",
        "N",
        ValueParser::Unsigned(1, 74),
        "Print rule N of the machine, with its source and an example",
    )
}

// Adds the option for the script of a second run.
fn with_second<'a>(command: Command<'a>, alloc: Global) -> Result<Command<'a>, AllocError>
    ensures { IfOk result (λ c. app_of c ≡ second_app (app_of command.entry)) }
{
    with_option(
        command,
        alloc,
        "with",
        "OTHER",
        ValueParser::NonEmptyString,
        "With --page, also run the script OTHER, and show what differs; with FILE itself, place its areas at the other end",
    )
}

// Makes the command: a file and twenty-seven options, all optional.
fn command<'a>(alloc: Global) -> Result<Command<'a>, AllocError>
    ensures { IfOk result (λ c. (ps : Parsers) × AreParsers ps × (app_of c ≡ command ps)) }
{
    let scripted = with_script(alloc)?;
    let placed = with_place(scripted, alloc)?;
    let checking = with_checking(placed, alloc)?;
    let formatted = with_format(checking, alloc)?;
    let answered = with_answers(formatted, alloc)?;
    let judged = with_judging(answered, alloc)?;
    let random = with_random(judged, alloc)?;
    let profiled = with_profile(random, alloc)?;
    let telling = with_outputs(profiled, alloc)?;
    let colored = with_color(telling, alloc)?;
    let coded = with_code(colored, alloc)?;
    let ruled = with_rule_text(coded, alloc)?;
    let seconded = with_second(ruled, alloc)?;
    with_schedules(seconded, alloc)
}

// Returns the word for the script.
fn file<'a>(matches: &ArgMatches<'a>) -> &'a str
    ensures { result.now
        ≡ unwrap_or (first_value (found_of matches.now) (codes "FILE")) (codes "-") }
{
    match matches.get_str("FILE") {
        Some(file) => file,
        None => "-",
    }
}

// Returns the word for the output that is judged.
fn judged<'a>(matches: &ArgMatches<'a>) -> &'a str
    ensures { result.now ≡ unwrap_or (first_value (found_of matches.now) (codes "judge")) [] }
{
    matches.get_str("judge").unwrap_or("")
}

// Returns which place is taken.
fn placement(matches: &ArgMatches<'_>) -> Placement
    ensures { result ≡ Placement.High
        ↔ first_value (found_of matches.now) (codes "place") ≡ Some (codes "high") }
{
    match matches.get_str("place") {
        Some(place) if place == "high" => Placement::High,
        _ => Placement::Low,
    }
}

// Returns whether a flag is set.
fn is_set(matches: &ArgMatches<'_>, name: &str) -> bool
    ensures { IsTrue result ↔ first_value (found_of matches.now) name.now ≡ Some (codes "true") }
{
    match matches.get_str(name) {
        Some(value) => value == "true",
        None => false,
    }
}

// Returns whether an option has this value.
fn has_value(matches: &ArgMatches<'_>, name: &str, value: &str) -> bool
    ensures { IsTrue result ↔ first_value (found_of matches.now) name.now ≡ Some value.now }
{
    match matches.get_str(name) {
        Some(said) => said == value,
        None => false,
    }
}

// Returns whether answers are coloured.
fn color(matches: &ArgMatches<'_>) -> Color
    ensures { IsColor (first_value (found_of matches.now) (codes "color")) result }
{
    if has_value(matches, "color", "always") {
        Color::Always
    } else if has_value(matches, "color", "never") {
        Color::Never
    } else {
        Color::Auto
    }
}

// Returns the form of the report of a check.
fn format(matches: &ArgMatches<'_>) -> Format
    ensures { IsFormat (first_value (found_of matches.now) (codes "format")) result }
{
    if has_value(matches, "format", "tap") {
        Format::Tap
    } else if has_value(matches, "format", "junit") {
        Format::Junit
    } else {
        Format::Text
    }
}

// Returns what a random script is made of.
fn profile(matches: &ArgMatches<'_>) -> Profile
    ensures { IsProfile (first_value (found_of matches.now) (codes "profile")) result }
{
    if has_value(matches, "profile", "tasks") {
        Profile::Tasks
    } else if has_value(matches, "profile", "pools") {
        Profile::Pools
    } else if has_value(matches, "profile", "tidy") {
        Profile::Tidy
    } else if has_value(matches, "profile", "faults") {
        Profile::Faults
    } else if has_value(matches, "profile", "lists") {
        Profile::Lists
    } else if has_value(matches, "profile", "boundaries") {
        Profile::Boundaries
    } else if has_value(matches, "profile", "whole") {
        Profile::Whole
    } else if has_value(matches, "profile", "all") {
        Profile::All
    } else {
        Profile::Storage
    }
}

/// Returns the number of an option, or another number where it has none.
pub fn number_of(matches: &ArgMatches<'_>, name: &str, usual: u64) -> u64
    ensures number { (text : Text) (n : ℕ) → first_value (found_of matches.now) name.now ≡ Some text
        → IsNumber text n → n < 2 ^ 64 → result ≡ n }
    ensures usual { first_value (found_of matches.now) name.now ≡ None → result ≡ usual }
{
    match matches.get_str(name) {
        Some(text) => text.parse::<u64>().unwrap_or(usual),
        None => usual,
    }
}

// Returns a number of lines; the most that there may be where it is larger.
fn lines_of(number: u64) -> u32
    ensures { number ≤ 1000000 → result ≡ number }
{
    if number <= 1_000_000 {
        number as u32
    } else {
        1_000_000
    }
}

// Returns the random script that is asked for.
fn recipe(matches: &ArgMatches<'_>) -> Recipe
    ensures { IsRecipe (first_value (found_of matches.now)) result }
{
    Recipe {
        seed: number_of(matches, "random", 0),
        lines: lines_of(number_of(matches, "lines", 100)),
        profile: profile(matches),
    }
}

// Returns the code whose text is requested.
fn coded<'a>(matches: &ArgMatches<'a>) -> &'a str
    ensures { result.now ≡ unwrap_or (first_value (found_of matches.now) (codes "code")) [] }
{
    matches.get_str("code").unwrap_or("")
}

// Returns the number of the rule whose text is requested.
fn rule_number(matches: &ArgMatches<'_>) -> u32
    ensures { (text : Text) (n : ℕ) → first_value (found_of matches.now) (codes "rule") ≡ Some text
        → IsNumber text n → n ≤ 74 → result ≡ n }
{
    u32::try_from(number_of(matches, "rule", 0)).unwrap_or(0)
}

// Returns what to do with a script.
fn script_mode(matches: &ArgMatches<'_>) -> Mode
    ensures { IsScriptMode (first_value (found_of matches.now)) result }
{
    match matches.get_str("random") {
        Some(_) => Mode::Random(recipe(matches)),
        None if matches.get_str("judge").is_some() => Mode::Judge,
        None if is_set(matches, "check") => Mode::Check,
        None if is_set(matches, "blank") => Mode::Blank,
        None if is_set(matches, "ask") => Mode::Ask,
        None if is_set(matches, "assemble") => Mode::Assemble,
        None if is_set(matches, "schedules") => Mode::Schedules,
        None => Mode::Run,
    }
}

// Returns what to do.
fn mode(matches: &ArgMatches<'_>) -> Mode
    ensures { IsMode (first_value (found_of matches.now)) result }
{
    if matches.get_str("code").is_some() {
        Mode::Code
    } else if matches.get_str("rule").is_some() {
        Mode::Rule(rule_number(matches))
    } else {
        script_mode(matches)
    }
}

// Returns what a run writes.
fn output(matches: &ArgMatches<'_>) -> RunOutput
    ensures { IsOutput (first_value (found_of matches.now)) result }
{
    if is_set(matches, "page") {
        if is_set(matches, "open") {
            RunOutput::PageFile
        } else {
            RunOutput::Page
        }
    } else if is_set(matches, "json") {
        RunOutput::Json
    } else {
        RunOutput::Replies
    }
}

/// Returns whether several words of a command line, the program's name first, name files.
pub fn names_files(words: &[String]) -> bool {
    let mut files = 0usize;
    let mut takes_value = true;
    for word in words {
        let word = word.as_str();
        if !takes_value && (word == "-" || !word.starts_with("-")) {
            files = files.saturating_add(1);
        }
        takes_value = VALUED.iter().any(|option| *option == word);
    }
    files > 1
}

/// Reads the words of a command line, the program's name first. An error is what `clap` has to say of them, a text for the user
/// (where it is the help that the words ask for, `use_stderr` is false), or memory is exhausted.
pub fn settings<'a>(alloc: Global, words: &'a [String]) -> Result<Settings<'a>, clap::Error>
    // What clap assigns the words to.
    ensures ok { IfOk result
        (λ s. (ps : Parsers) × AreParsers ps
        × AreSettings (assigned ps (map string_bytes words.entry.now)) s) }
    // Clap finds nothing wrong with valid words; an error is of a kind that it finds, or memory is exhausted.
    ensures valid { IfOk result (λ _. FindsWrong (map string_bytes words.entry.now) []) }
    ensures kinds { IfErr result
        (λ error. (kind_of error ≡ OutOfMemory)
        ⊎ ((kinds : Kinds) × FindsWrong (map string_bytes words.entry.now) kinds
        × IsAmong (kind_of error) kinds)) }
    // Options that clap accepts are refused only if memory is exhausted.
    ensures refused { IfErr result
        (λ error. IsTaken (map string_bytes words.entry.now) → kind_of error ≡ OutOfMemory) }
{
    let matches = command(alloc)?.try_get_matches_from(words)?;
    Ok(Settings {
        file: file(&matches),
        placement: placement(&matches),
        judged: judged(&matches),
        second: matches.get_str("with"),
        code: coded(&matches),
        mode: mode(&matches),
        output: output(&matches),
        explains: is_set(&matches, "explain"),
        leaks: is_set(&matches, "leaks"),
        strict: is_set(&matches, "strict"),
        interactive: is_set(&matches, "interactive"),
        color: color(&matches),
        form: ReportForm {
            format: format(&matches),
            is_hidden: is_set(&matches, "hide"),
        },
        schedule: matches.get_str("schedule"),
        second_schedule: matches.get_str("with-schedule"),
        most: most_schedules(&matches),
        most_runs: most_runs(&matches),
        ignores_addresses: is_set(&matches, "ignore-addresses"),
        apart: apart(&matches),
    })
}
