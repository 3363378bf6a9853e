//! What the words of the command line ask for.

ghost use Rattle.std.specs.Prelude.{◌≡◌};
ghost use Rattle.mvsjob.specs.CommandLine.{is_page};

use expected_answers::ReportForm;
use mvs_model::want::Placement;
use random_script::Profile;

/// A random script: its seed, how many lines it has, and what it is made of.
#[derive(Clone, Copy, Debug, PartialEq, Eq)]
pub struct Recipe {
    pub seed: u64,
    pub lines: u32,
    pub profile: Profile,
}

/// Whether answers are coloured.
#[derive(Clone, Copy, Debug, PartialEq, Eq)]
pub enum Color {
    /// Where they are seen at a terminal, unless the environment has a NO_COLOR.
    Auto,
    Always,
    Never,
}

/// Why two options have no meaning together.
#[derive(Clone, Copy, Debug, PartialEq, Eq)]
pub enum Apart {
    /// The first cannot be used with the second.
    Excludes(&'static str, &'static str),
    /// The first can be used with the second only.
    Needs(&'static str, &'static str),
}

/// What a run writes.
#[derive(Clone, Copy, Debug, PartialEq, Eq)]
pub enum RunOutput {
    /// The replies to the statements.
    Replies,
    /// A line of JSON for each event.
    Json,
    /// A page of HTML.
    Page,
    /// The name of a new file, which has the page.
    PageFile,
}

impl RunOutput {
    /// Returns whether a page is written.
    pub fn is_page(self) -> bool
        ensures { result ≡ is_page self }
    {
        match self {
            RunOutput::Page | RunOutput::PageFile => true,
            RunOutput::Replies | RunOutput::Json => false,
        }
    }
}

/// What to do.
#[derive(Clone, Copy, Debug, PartialEq, Eq)]
pub enum Mode {
    /// The script is run.
    Run,
    /// The script is run, and what it says of its answers is compared with them.
    Check,
    /// An output is judged by the runs of the script.
    Judge,
    /// The script is written without its answers.
    Blank,
    /// The script is written with a WHERE for each of its areas.
    Ask,
    /// The script is written as a program for the assembler.
    Assemble,
    /// The script is run in every order of its tasks.
    Schedules,
    /// A random script is written.
    Random(Recipe),
    /// The text of a code is written.
    Code,
    /// The text of the rule with a number is written.
    Rule(u32),
}

/// The script, the placement, and what to do.
#[derive(Drop)]
pub struct Settings<'a> {
    /// The name of a file, `-` for standard input.
    pub file: &'a str,
    /// Which of the places that serve is taken.
    pub placement: Placement,
    /// The name of the file with the output that is judged; empty where none is.
    pub judged: &'a str,
    /// The name of the file with the script of a second run, which a page compares with the first, if there is one.
    pub second: Option<&'a str>,
    /// The code whose text is written; empty if there is none.
    pub code: &'a str,
    pub mode: Mode,
    /// How answers that were compared are reported.
    pub form: ReportForm,
    /// Whether a run says why requests are refused.
    pub explains: bool,
    /// Whether a run reports leaks at the end of each step.
    pub leaks: bool,
    pub output: RunOutput,
    /// Whether a run reports each line that was not executed.
    pub strict: bool,
    /// Whether a run prompts for its lines, and skips those with a fault.
    pub interactive: bool,
    pub color: Color,
    /// The order in which the statements of a step run, as the numbers of their lines, if one is given.
    pub schedule: Option<&'a str>,
    /// The same for the script of a second run.
    pub second_schedule: Option<&'a str>,
    /// The most schedules of a step that are run.
    pub most: u32,
    /// The most runs that a search of the judge makes.
    pub most_runs: usize,
    /// Whether the answers of schedules are compared without addresses.
    pub ignores_addresses: bool,
    /// Two options that have no meaning together, if there are such.
    pub apart: Option<Apart>,
}

impl Settings<'_> {
    /// Returns whether answers of a run are printed, and not lines of JSON, a page or what other modes print.
    pub fn is_answers(&self) -> bool {
        self.mode == Mode::Run && self.output == RunOutput::Replies
    }

    /// Returns whether no script is read.
    pub fn is_without_script(&self) -> bool {
        matches!(self.mode, Mode::Random(_) | Mode::Code | Mode::Rule(_))
    }

    /// Returns whether a run writes of each line before the next one is read, if the lines are not those of a script that is searched
    /// for hints.
    pub fn is_as_it_comes(&self) -> bool {
        self.mode == Mode::Run && !self.output.is_page()
    }
}
