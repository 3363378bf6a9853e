//! Serves a script that was read whole: what each mode does with it.

ghost use Rattle.std.specs.Prelude.{◌≡◌, ◌≤◌, ◌⊎◌, [], ℕ, Contains, IfOk, IfSome, IsSome, IsTrue, None, Some, false, length, true};
ghost use Rattle.area_history.specs.JsonHistories.{json_findings};
ghost use Rattle.area_history.specs.JsonReports.{json_report};
ghost use Rattle.area_history.specs.Histories.{with_history};
ghost use Rattle.area_history.specs.HistoryTexts.{findings_text};
ghost use Rattle.area_history.specs.LeakTexts.{report_text};
ghost use Rattle.event_json.specs.Lines.{event_lines};
ghost use Rattle.mvs_model.specs.Numbers.{most_script_bytes};
ghost use Rattle.mvs_job.specs.Explained.{explained};
ghost use Rattle.mvs_job.specs.Printed.{printed};
ghost use Rattle.mvsjob.specs.declared.options.Recipe.{Recipe};
ghost use Rattle.mvsjob.specs.Checking.{Checks};
ghost use Rattle.mvsjob.specs.CommandLine.{is_page};
ghost use Rattle.mvsjob.specs.Endings.{strict_ending};
ghost use Rattle.mvsjob.specs.ModeResult.{Asks, Blanks, ConsumesStrictly, EndsAtFault, HasNoForeign, IsFaultOf, IsPrinted, Judges, ReportsLeaks, RunsStrictly, WritesAbout, WritesText};
ghost use Rattle.mvsjob.specs.Tabulating.{Tabulates};
ghost use Rattle.reference.specs.Texts.{IsRule, names, rule_name};

use crate::answers::{check_answers, write_blanks, write_questions};
use crate::assembled::write_assembled;
use crate::ending::{CliError, ExitReason};
use crate::faulty::{FaultyLine, faulty_in};
use crate::judging::judge_output;
use crate::options::{Mode, Recipe, RunOutput, Settings};
use crate::tabulated::write_schedules;
use crate::through::Through;
use area_history::{
    Historian, JsonReport, ReportFormat, TextReport, run_strictly_with_report, run_with_report,
};
use event_json::EventLines;
use line_text::write_all;
use mvs_job::{
    Consumer, Explained, Printer, RunFault, SkipObserver, Strict, StrictOutcome, run_observed,
    run_strictly,
};
use mvs_model::outcome::Outcome;
use mvs_model::want::Placement;
use mvs_model::watched::Watched;
use random_script::write_script;
use reference::{code, rule};
use std::alloc::Global;
use std::io::Write;

/// What a mode did with a script: how the program ends, and the line to report, if one has a fault.
#[derive(Drop)]
pub struct ModeResult<'a> {
    pub ending: ExitReason,
    pub faulty: Option<FaultyLine<'a>>,
}

impl<'a> ModeResult<'a> {
    /// Returns what a mode did that has no line to report.
    pub fn of(ending: ExitReason) -> ModeResult<'a>
        ensures ending { result.ending ≡ ending }
        ensures faulty { result.faulty ≡ None }
    {
        ModeResult {
            ending,
            faulty: None,
        }
    }

    /// Returns what a mode did that a fault ended.
    pub fn of_fault(faulty: FaultyLine<'a>) -> ModeResult<'a>
        ensures ending { result.ending ≡ ExitReason.Ran Outcome.ScriptFault }
        ensures faulty { result.faulty ≡ Some faulty.entry }
    {
        ModeResult {
            ending: ExitReason::Ran(Outcome::ScriptFault),
            faulty: Some(faulty),
        }
    }

    /// Returns what a mode did that wrote the front of a script up to a line, if that one has a fault.
    pub fn of_front(faulty: Option<FaultyLine<'a>>) -> ModeResult<'a>
        ensures { faulty.entry ≡ None → IsPrinted result }
    {
        match faulty {
            Some(faulty) => ModeResult::of_fault(faulty),
            None => ModeResult::of(ExitReason::Printed),
        }
    }
}

/// Returns the line whose fault ended a run of a script, if one did.
pub fn fault_of(script: &[u8], outcome: Outcome) -> Option<FaultyLine<'_>>
    requires { length script.now ≤ most_script_bytes }
    ensures { IsFaultOf script.now outcome result }
{
    match outcome {
        Outcome::Clean | Outcome::SomeAbend => None,
        Outcome::ScriptFault => Some(faulty_in(script)),
    }
}

// Returns what a run did whose lines were observed.
fn of_strict(script: &[u8], end: StrictOutcome) -> ModeResult<'_>
    requires { length script.now ≤ most_script_bytes }
    ensures ending { result.ending ≡ strict_ending end.outcome end.all_served }
    ensures faulty { IsFaultOf script.now end.outcome result.faulty }
{
    ModeResult {
        ending: ExitReason::of_strict(end),
        faulty: fault_of(script, end.outcome),
    }
}

// Runs a script, and reports each line that was not executed to an observer.
fn run_strict<'a, W: Write, H: SkipObserver>(
    alloc: Global,
    script: &'a [u8],
    writer: &mut Watched<W>,
    placement: Placement,
    hearer: &mut H,
) -> Result<ModeResult<'a>, CliError>
    requires { length script.now ≤ most_script_bytes }
    ensures { RunsStrictly (W.contents writer.old.inner) (W.contents writer.new.inner)
        (H.heard hearer.old) (H.heard hearer.new) script.now result }
{
    let end = run_strictly(alloc, script, writer, placement, hearer)?;
    Ok(of_strict(script, end))
}

/// Runs a script, gives each entry of the run to a consumer, and reports each line that was not executed to an observer.
pub fn consume_strict<'a, W: Write, C: Consumer, H: SkipObserver>(
    alloc: Global,
    script: &'a [u8],
    writer: &mut Watched<W>,
    placement: Placement,
    consumer: &mut C,
    hearer: &mut H,
) -> Result<ModeResult<'a>, CliError>
    requires script { length script.now ≤ most_script_bytes }
    requires new { (C.knows consumer.old).has consumer.old [] }
    ensures { ConsumesStrictly C.piece (W.contents writer.old.inner) (W.contents writer.new.inner)
        (H.heard hearer.old) (H.heard hearer.new) script.now result }
{
    let end = run_observed(alloc, script, writer, placement, consumer, hearer)?;
    Ok(of_strict(script, end))
}

/// A script that was read whole, and how it is run.
#[derive(Clone, Copy)]
pub struct WholeScript<'a> {
    pub alloc: Global,
    pub script: &'a [u8],
    pub placement: Placement,
}

// Runs a script with a report of leaks at the end of each step.
fn report_leaks<'a, W: Write, C: Consumer, F: ReportFormat + Drop>(
    whole: WholeScript<'a>,
    writer: &mut Watched<W>,
    consumer: &mut C,
    format: F,
) -> Result<ModeResult<'a>, CliError>
    requires script { length whole.script.now ≤ most_script_bytes }
    requires new { (C.knows consumer.old).has consumer.old [] }
    ensures { ReportsLeaks F.report false C.piece (W.contents writer.old.inner)
        (W.contents writer.new.inner) whole.entry.script.now result }
{
    let WholeScript {
        alloc,
        script,
        placement,
    } = whole;
    let end = run_with_report(alloc, script, writer, placement, consumer, format)?;
    Ok(ModeResult {
        ending: ExitReason::Ran(end.outcome).with_leaks(end.has_leaked),
        faulty: fault_of(script, end.outcome),
    })
}

// Runs a script in that way, and reports each line that was not executed to an observer.
fn report_leaks_strictly<'a, W: Write, C: Consumer, F: ReportFormat + Drop, H: SkipObserver>(
    whole: WholeScript<'a>,
    writer: &mut Watched<W>,
    consumer: &mut C,
    format: F,
    hearer: &mut H,
) -> Result<ModeResult<'a>, CliError>
    requires script { length whole.script.now ≤ most_script_bytes }
    requires new { (C.knows consumer.old).has consumer.old [] }
    ensures { ReportsLeaks F.report true C.piece (W.contents writer.old.inner)
        (W.contents writer.new.inner) whole.entry.script.now result }
{
    let WholeScript {
        alloc,
        script,
        placement,
    } = whole;
    let mut strict = Strict::new(consumer, hearer);
    let end = run_strictly_with_report(alloc, script, writer, placement, &mut strict, format)?;
    let ran = StrictOutcome {
        outcome: end.outcome,
        all_served: end.all_served,
    };
    Ok(ModeResult {
        ending: ExitReason::of_strict(ran).with_leaks(end.has_leaked),
        faulty: fault_of(script, end.outcome),
    })
}

/// Runs a script with a report of leaks at the end of each step. If it is strict, each line that was not executed is reported to an
/// observer.
pub fn report_leaks_as<'a, W: Write, C: Consumer, F: ReportFormat + Drop, H: SkipObserver>(
    whole: WholeScript<'a>,
    strict: bool,
    writer: &mut Watched<W>,
    consumer: &mut C,
    format: F,
    hearer: &mut H,
) -> Result<ModeResult<'a>, CliError>
    requires script { length whole.script.now ≤ most_script_bytes }
    requires new { (C.knows consumer.old).has consumer.old [] }
    ensures { ReportsLeaks F.report strict C.piece (W.contents writer.old.inner)
        (W.contents writer.new.inner) whole.entry.script.now result }
{
    if strict {
        report_leaks_strictly(whole, writer, consumer, format, hearer)
    } else {
        report_leaks(whole, writer, consumer, format)
    }
}

// Runs a script with reports of leaks as the settings have it.
fn run_with_leaks<'a, W: Write, H: SkipObserver>(
    alloc: Global,
    settings: &Settings<'_>,
    script: &'a [u8],
    writer: &mut Watched<W>,
    hearer: &mut H,
) -> Result<ModeResult<'a>, CliError>
    requires { length script.now ≤ most_script_bytes }
    ensures json { settings.now.output ≡ RunOutput.Json → settings.now.explains ≡ false
        → ReportsLeaks json_report settings.now.strict event_lines (W.contents writer.old.inner)
        (W.contents writer.new.inner) script.now result }
    ensures explained_json { settings.now.output ≡ RunOutput.Json → IsTrue settings.now.explains
        → ReportsLeaks json_report settings.now.strict (with_history json_findings event_lines) (W.contents writer.old.inner)
        (W.contents writer.new.inner) script.now result }
    ensures explain { settings.now.output ≡ RunOutput.Replies → IsTrue settings.now.explains
        → ReportsLeaks report_text settings.now.strict (with_history findings_text explained) (W.contents writer.old.inner)
        (W.contents writer.new.inner) script.now result }
    ensures plain { settings.now.output ≡ RunOutput.Replies → settings.now.explains ≡ false
        → ReportsLeaks report_text settings.now.strict printed (W.contents writer.old.inner)
        (W.contents writer.new.inner) script.now result }
{
    let whole = WholeScript {
        alloc,
        script,
        placement: settings.placement,
    };
    let strict = settings.strict;
    let is_json = settings.output == RunOutput::Json;
    if is_json && settings.explains {
        let mut lines = EventLines::new(alloc, true);
        let mut historian = Historian::new(alloc, &mut lines, JsonReport);
        report_leaks_as(whole, strict, writer, &mut historian, JsonReport, hearer)
    } else if is_json {
        let mut lines = EventLines::new(alloc, false);
        report_leaks_as(whole, strict, writer, &mut lines, JsonReport, hearer)
    } else if settings.explains {
        let mut explained = Explained::new(alloc);
        let mut historian = Historian::new(alloc, &mut explained, TextReport);
        report_leaks_as(whole, strict, writer, &mut historian, TextReport, hearer)
    } else {
        report_leaks_as(whole, strict, writer, &mut Printer, TextReport, hearer)
    }
}

// Runs a script, writes its events as lines of JSON, and reports each line that was not executed to an observer.
fn run_as_json<'a, W: Write, H: SkipObserver>(
    alloc: Global,
    settings: &Settings<'_>,
    script: &'a [u8],
    writer: &mut Watched<W>,
    hearer: &mut H,
) -> Result<ModeResult<'a>, CliError>
    requires { length script.now ≤ most_script_bytes }
    ensures plain { settings.now.explains ≡ false
        → ConsumesStrictly event_lines (W.contents writer.old.inner) (W.contents writer.new.inner)
        (H.heard hearer.old) (H.heard hearer.new) script.now result }
    ensures explained { IsTrue settings.now.explains
        → ConsumesStrictly (with_history json_findings event_lines) (W.contents writer.old.inner) (W.contents writer.new.inner)
        (H.heard hearer.old) (H.heard hearer.new) script.now result }
{
    let placement = settings.placement;
    if settings.explains {
        let mut lines = EventLines::new(alloc, true);
        let mut explained = Historian::new(alloc, &mut lines, JsonReport);
        consume_strict(alloc, script, writer, placement, &mut explained, hearer)
    } else {
        let mut lines = EventLines::new(alloc, false);
        consume_strict(alloc, script, writer, placement, &mut lines, hearer)
    }
}

// Writes a random script.
fn write_random<W: Write>(
    alloc: Global,
    writer: &mut Watched<W>,
    recipe: Recipe,
) -> Result<ModeResult<'static>, CliError>
    ensures { IfOk result IsPrinted }
{
    let mut writer = Through::new(writer);
    let Recipe {
        seed,
        lines,
        profile,
    } = recipe;
    write_script(alloc, &mut writer, seed, lines, profile)?;
    Ok(ModeResult::of(ExitReason::Printed))
}

// Writes a text of the reference, if there is one.
fn write_text<W: Write>(
    writer: &mut Watched<W>,
    text: Option<&'static str>,
) -> Result<ModeResult<'static>, CliError>
    ensures { IfSome text.entry (λ t. WritesText (W.contents writer.old.inner)
        (W.contents writer.new.inner) t.now result) }
{
    if let Some(text) = text {
        write_all(writer, text.as_bytes())?;
    }
    Ok(ModeResult::of(ExitReason::Printed))
}

// Runs a script as the settings have it.
fn run<'a, W: Write, H: SkipObserver>(
    alloc: Global,
    settings: &Settings<'_>,
    script: &'a [u8],
    writer: &mut Watched<W>,
    hearer: &mut H,
) -> Result<ModeResult<'a>, CliError>
    requires script { length script.now ≤ most_script_bytes }
    requires page { is_page settings.now.output ≡ false }
    ensures json { settings.now.output ≡ RunOutput.Json → settings.now.leaks ≡ false
        → settings.now.explains ≡ false
        → ConsumesStrictly event_lines (W.contents writer.old.inner) (W.contents writer.new.inner)
        (H.heard hearer.old) (H.heard hearer.new) script.now result }
    ensures explained_json { settings.now.output ≡ RunOutput.Json → settings.now.leaks ≡ false
        → IsTrue settings.now.explains
        → ConsumesStrictly (with_history json_findings event_lines) (W.contents writer.old.inner) (W.contents writer.new.inner)
        (H.heard hearer.old) (H.heard hearer.new) script.now result }
    ensures json_leaks { settings.now.output ≡ RunOutput.Json → IsTrue settings.now.leaks
        → settings.now.explains ≡ false
        → ReportsLeaks json_report settings.now.strict event_lines (W.contents writer.old.inner)
        (W.contents writer.new.inner) script.now result }
    ensures explained_json_leaks { settings.now.output ≡ RunOutput.Json → IsTrue settings.now.leaks
        → IsTrue settings.now.explains
        → ReportsLeaks json_report settings.now.strict (with_history json_findings event_lines) (W.contents writer.old.inner)
        (W.contents writer.new.inner) script.now result }
    ensures leaks { settings.now.output ≡ RunOutput.Replies
        → IsTrue settings.now.leaks → settings.now.explains ≡ false
        → ReportsLeaks report_text settings.now.strict printed (W.contents writer.old.inner)
        (W.contents writer.new.inner) script.now result }
    ensures explained_leaks { settings.now.output ≡ RunOutput.Replies
        → IsTrue settings.now.leaks → IsTrue settings.now.explains
        → ReportsLeaks report_text settings.now.strict (with_history findings_text explained) (W.contents writer.old.inner)
        (W.contents writer.new.inner) script.now result }
    ensures explain { settings.now.output ≡ RunOutput.Replies
        → settings.now.leaks ≡ false → IsTrue settings.now.explains
        → ConsumesStrictly (with_history findings_text explained) (W.contents writer.old.inner) (W.contents writer.new.inner)
        (H.heard hearer.old) (H.heard hearer.new) script.now result }
    ensures strict { settings.now.output ≡ RunOutput.Replies
        → settings.now.leaks ≡ false → settings.now.explains ≡ false
        → RunsStrictly (W.contents writer.old.inner) (W.contents writer.new.inner)
        (H.heard hearer.old) (H.heard hearer.new) script.now result }
{
    let placement = settings.placement;
    match settings.output {
        RunOutput::Page | RunOutput::PageFile => unreachable!(),
        RunOutput::Replies | RunOutput::Json if settings.leaks => {
            run_with_leaks(alloc, settings, script, writer, hearer)
        }
        RunOutput::Json => run_as_json(alloc, settings, script, writer, hearer),
        RunOutput::Replies if settings.explains => {
            let mut explained = Explained::new(alloc);
            let mut historian = Historian::new(alloc, &mut explained, TextReport);
            consume_strict(alloc, script, writer, placement, &mut historian, hearer)
        }
        RunOutput::Replies => run_strict(alloc, script, writer, placement, hearer),
    }
}

/// Serves a script that was read whole, and with it the output that is judged, as the settings have it. A run of which a page is
/// written is not among the modes: its script is not read whole.
pub fn serve_script<'a, W: Write, H: SkipObserver>(
    alloc: Global,
    settings: &Settings<'_>,
    script: &'a [u8],
    other: &[u8],
    writer: &mut Watched<W>,
    hearer: &mut H,
) -> Result<ModeResult<'a>, CliError>
    requires script { length script.now ≤ most_script_bytes }
    requires page { settings.now.mode ≡ Mode.Run → is_page settings.now.output ≡ false }
    ensures json_leaks { settings.now.mode ≡ Mode.Run → settings.now.output ≡ RunOutput.Json
        → IsTrue settings.now.leaks → settings.now.explains ≡ false
        → ReportsLeaks json_report settings.now.strict event_lines (W.contents writer.old.inner)
        (W.contents writer.new.inner) script.now result }
    ensures explained_json_leaks { settings.now.mode ≡ Mode.Run → settings.now.output ≡ RunOutput.Json
        → IsTrue settings.now.leaks → IsTrue settings.now.explains
        → ReportsLeaks json_report settings.now.strict (with_history json_findings event_lines) (W.contents writer.old.inner)
        (W.contents writer.new.inner) script.now result }
    ensures leaks { settings.now.mode ≡ Mode.Run → settings.now.output ≡ RunOutput.Replies → IsTrue settings.now.leaks → settings.now.explains ≡ false
        → ReportsLeaks report_text settings.now.strict printed (W.contents writer.old.inner)
        (W.contents writer.new.inner) script.now result }
    ensures explained_leaks { settings.now.mode ≡ Mode.Run → settings.now.output ≡ RunOutput.Replies → IsTrue settings.now.leaks → IsTrue settings.now.explains
        → ReportsLeaks report_text settings.now.strict (with_history findings_text explained) (W.contents writer.old.inner)
        (W.contents writer.new.inner) script.now result }
    ensures explain { settings.now.mode ≡ Mode.Run → settings.now.output ≡ RunOutput.Replies → settings.now.leaks ≡ false → IsTrue settings.now.explains
        → ConsumesStrictly (with_history findings_text explained) (W.contents writer.old.inner) (W.contents writer.new.inner)
        (H.heard hearer.old) (H.heard hearer.new) script.now result }
    ensures strict { settings.now.mode ≡ Mode.Run → settings.now.output ≡ RunOutput.Replies → settings.now.leaks ≡ false → settings.now.explains ≡ false
        → RunsStrictly (W.contents writer.old.inner) (W.contents writer.new.inner)
        (H.heard hearer.old) (H.heard hearer.new) script.now result }
    ensures json { settings.now.mode ≡ Mode.Run → settings.now.output ≡ RunOutput.Json
        → settings.now.leaks ≡ false → settings.now.explains ≡ false
        → ConsumesStrictly event_lines (W.contents writer.old.inner) (W.contents writer.new.inner)
        (H.heard hearer.old) (H.heard hearer.new) script.now result }
    ensures explained_json { settings.now.mode ≡ Mode.Run → settings.now.output ≡ RunOutput.Json
        → settings.now.leaks ≡ false → IsTrue settings.now.explains
        → ConsumesStrictly (with_history json_findings event_lines) (W.contents writer.old.inner) (W.contents writer.new.inner)
        (H.heard hearer.old) (H.heard hearer.new) script.now result }
    ensures check { settings.now.mode ≡ Mode.Check
        → Checks (W.contents writer.old.inner) (W.contents writer.new.inner) settings.now.form settings.now.file.now script.now result }
    ensures blank { settings.now.mode ≡ Mode.Blank → HasNoForeign script.now
        → Blanks (W.contents writer.old.inner) (W.contents writer.new.inner) script.now result }
    ensures ask { settings.now.mode ≡ Mode.Ask → HasNoForeign script.now
        → Asks (W.contents writer.old.inner) (W.contents writer.new.inner) script.now result }
    ensures assemble { settings.now.mode ≡ Mode.Assemble
        → IfOk result (λ served. IsPrinted served ⊎ EndsAtFault script.now served) }
    ensures schedules { settings.now.mode ≡ Mode.Schedules
        → Tabulates settings.now.output settings.now.ignores_addresses settings.now.most
        (W.contents writer.old.inner) (W.contents writer.new.inner) script.now result }
    ensures random { (recipe : Recipe) → settings.now.mode ≡ Mode.Random recipe
        → IfOk result IsPrinted }
    ensures code { settings.now.mode ≡ Mode.Code → Contains names settings.now.code.now
        → WritesAbout (W.contents writer.old.inner) (W.contents writer.new.inner)
        settings.now.code.now result }
    ensures rule { (n : ℕ) → settings.now.mode ≡ Mode.Rule n → IsRule n
        → WritesAbout (W.contents writer.old.inner) (W.contents writer.new.inner) (rule_name n)
        result }
    ensures judge { settings.now.mode ≡ Mode.Judge
        → Judges (W.contents writer.old.inner) (W.contents writer.new.inner) script.now other.now
        result }
{
    match settings.mode {
        Mode::Run => run(alloc, settings, script, writer, hearer),
        Mode::Check => check_answers(alloc, settings, script, writer),
        Mode::Judge => judge_output(alloc, script, other, settings.most_runs, writer),
        Mode::Blank => write_blanks(script, writer),
        Mode::Ask => write_questions(script, writer),
        Mode::Assemble => write_assembled(alloc, script, writer),
        Mode::Schedules => write_schedules(alloc, settings, script, writer),
        Mode::Random(recipe) => write_random(alloc, writer, recipe),
        Mode::Code => write_text(writer, code(settings.code)),
        Mode::Rule(number) => write_text(writer, rule(number)),
    }
}
