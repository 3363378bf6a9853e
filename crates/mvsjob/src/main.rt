//! Simulates the virtual storage services that an unauthorized program of MVS uses in its own region.
#![tactic(auto)]

ghost use Rattle.std.specs.Prelude.{◌≡◌, ◌≢◌, Err, IfOk, Ok, false};
ghost use Rattle.std.specs.Process.{exit_status};
ghost use Rattle.mvsjob.specs.Endings.{status_of};

mod answers;
mod assembled;
mod clues;
mod coloured;
mod command_line;
mod desk;
mod difference;
mod ending;
mod exclusions;
mod faulty;
mod front;
mod judging;
mod kept_memory;
mod opened;
mod options;
mod page_file;
mod pages;
mod piped;
mod queries;
mod recorder;
mod schedule_options;
mod scheduled;
mod script;
mod second_run;
mod served;
mod streamed;
mod strict;
mod tabulated;
mod terminal;
mod through;
mod whole_page;

use area_history::{Historian, JsonReport, TextReport};
use coloured::{Coloured, is_coloured};
use command_line::{names_files, settings};
use diagnosis::{PlainName, diagnose};
use ending::{Cause, CliError, ExitReason};
use event_json::EventLines;
use faulty::FaultyLine;
use kept_memory::keep_freed_memory;
use mvs_job::{Explained, RunFault};
use mvs_model::outcome::Outcome;
use mvs_model::watched::Watched;
use opened::OpenReader;
use options::{Apart, Mode, RunOutput, Settings};
use pages::write_page_of;
use piped::Piped;
use recorder::LineRecorder;
use scheduled::run_scheduled;
use script::{read_output, read_script};
use served::{ModeResult, serve_script};
use shell::ByteReader;
use std::env;
use std::fs::File;
use std::io::{self, BufWriter, ErrorKind, IsTerminal, Read, Write};
use std::process::ExitCode;
use streamed::{run_streamed, stream_to};
use strict::Teller;
use terminal::{is_at_terminal, run_at_terminal};

// Reports a faulty line on standard error. A failure to do so changes nothing.
pub(crate) fn report_fault(rt: &HostRuntime, name: &str, faulty: &FaultyLine<'_>) {
    let diagnosis = diagnose(rt.alloc(), faulty.line, faulty.fault);
    let name = PlainName(name);
    let _ = eprint!(rt; "{name}:{}:{diagnosis}", faulty.number);
}

/// The destination of everything that a mode prints.
pub(crate) type Output<'a> = Coloured<BufWriter<Piped<io::Printer<'a, HostRuntime>>>>;

// Opens standard output.
fn standard_output<'a>(
    rt: &'a HostRuntime,
    settings: &Settings<'_>,
) -> Result<Watched<Output<'a>>, CliError>
    ensures { IfOk result (λ writer. writer.failed ≡ false) }
{
    let writer = BufWriter::new(rt.alloc(), Piped::new(io::writer(rt))).map_err(|_| CliError::Job(
        RunFault::Memory,
    ))?;
    Ok(Watched::new(Coloured::new(
        writer,
        settings.is_answers() && is_coloured(rt, settings.color),
    )))
}

// Flushes what a mode printed that ended so. A flush that fails is a write that failed, and one that failed since nobody reads
// any more ends the program in silence.
fn finish_output(
    ended: Result<ExitReason, CliError>,
    writer: Watched<Output<'_>>,
) -> Result<ExitReason, CliError> {
    let mut writer = writer.into_inner();
    let flushed = writer.flush();
    match ended {
        Ok(ending) if flushed.is_ok() => Ok(ending),
        Ok(_) | Err(CliError::Job(RunFault::Write)) if writer.get_ref().get_ref().is_closed() => {
            Err(CliError::Pipe)
        }
        Ok(_) => Err(CliError::Job(RunFault::Write)),
        Err(why) => Err(why),
    }
}

// Passes on how a job ended, or why a read of it failed, and reports the line that ended it, if one did.
pub(crate) fn passed_on<W: Write>(
    rt: &HostRuntime,
    settings: &Settings<'_>,
    writer: &mut Watched<W>,
    ended: Result<Outcome, RunFault>,
    read_failure: CliError,
    faulty: &FaultyLine<'_>,
) -> Result<ExitReason, CliError>
    ensures ok { (outcome : Outcome) → ended ≡ Ok outcome → result ≢ Err (CliError.Job RunFault.Write)
        → result ≡ Ok (ExitReason.Ran outcome) }
    ensures read { ended ≡ Err RunFault.Read → result ≡ Err read_failure }
    ensures fault { (fault : RunFault) → ended ≡ Err fault → fault ≢ RunFault.Read
        → result ≡ Err (CliError.Job fault) }
{
    match ended {
        Ok(Outcome::ScriptFault) => {
            writer.flush().map_err(|_| RunFault::Write)?;
            report_fault(rt, settings.file, faulty);
            Ok(ExitReason::Ran(Outcome::ScriptFault))
        }
        Ok(outcome) => Ok(ExitReason::Ran(outcome)),
        Err(RunFault::Read) => Err(read_failure),
        Err(fault) => Err(CliError::Job(fault)),
    }
}

// Returns how a mode ended, and reports the line that ended it, if one did.
pub(crate) fn ended_as<W: Write>(
    rt: &HostRuntime,
    settings: &Settings<'_>,
    writer: &mut Watched<W>,
    served: &ModeResult<'_>,
) -> Result<ExitReason, CliError>
    ensures { IfOk result (λ ending. ending ≡ served.now.ending) }
{
    if let Some(faulty) = &served.faulty {
        writer.flush().map_err(|_| RunFault::Write)?;
        report_fault(rt, settings.file, faulty);
    }
    Ok(served.ending)
}

// Runs the script that a reader has as it comes.
fn run_lines<R: Read + Drop>(
    rt: &HostRuntime,
    reader: OpenReader<R>,
    settings: &Settings<'_>,
    writer: &mut Watched<Output<'_>>,
) -> Result<ExitReason, CliError>
    requires { writer.old.failed ≡ false }
{
    let kept = LineRecorder::new(rt.alloc(), reader)?;
    let (alloc, placement) = (rt.alloc(), settings.placement);
    let is_json = settings.output == RunOutput::Json;
    let ran = if is_json && settings.explains {
        let mut lines = EventLines::new(alloc, true);
        let mut historian = Historian::new(alloc, &mut lines, JsonReport);
        stream_to(alloc, kept, writer, placement, &mut historian)
    } else if is_json {
        let mut lines = EventLines::new(alloc, false);
        stream_to(alloc, kept, writer, placement, &mut lines)
    } else if settings.explains {
        let mut explained = Explained::new(alloc);
        let mut historian = Historian::new(alloc, &mut explained, TextReport);
        stream_to(alloc, kept, writer, placement, &mut historian)
    } else {
        run_streamed(alloc, kept, writer, placement)
    };
    let kept = ran.reader.into_inner();
    passed_on(
        rt,
        settings,
        writer,
        ran.ended,
        kept.get_ref().failure(),
        &kept.faulty(),
    )
}

// Serves the script that a reader has.
fn serve_reader<R: Read + Drop>(
    rt: &HostRuntime,
    reader: R,
    settings: &Settings<'_>,
    writer: &mut Watched<Output<'_>>,
) -> Result<ExitReason, CliError>
    requires { writer.old.failed ≡ false }
{
    if settings.mode == Mode::Run && settings.output.is_page() {
        return write_page_of(rt, reader, settings, writer);
    }
    if let Some(order) = settings.schedule {
        return run_scheduled(rt, reader, settings, order, writer);
    }
    if settings.is_as_it_comes() && is_at_terminal(rt, settings) {
        let reader = OpenReader::new(ByteReader::new(reader));
        return run_at_terminal(rt, reader, settings, writer);
    }
    if settings.is_as_it_comes() && !settings.strict && !settings.leaks {
        return run_lines(rt, OpenReader::new(reader), settings, writer);
    }
    let script = read_script(rt.alloc(), reader)?;
    let output = judged_output(rt, settings)?;
    let mut teller = Teller::new(rt, settings.file, &script);
    let served = serve_script(rt.alloc(), settings, &script, &output, writer, &mut teller)?;
    ended_as(rt, settings, writer, &served)
}

// Reads the output that is judged; it is empty without `--judge`.
fn judged_output(rt: &HostRuntime, settings: &Settings<'_>) -> Result<Vec<u8>, CliError> {
    if settings.mode != Mode::Judge {
        return Ok(Vec::new(rt.alloc()));
    }
    let output = File::open(rt, settings.judged).map_err(|error| CliError::Output(Cause::from(
        error.kind(),
    )))?;
    read_output(rt.alloc(), output)
}

// Opens the script, and does what the settings ask for.
fn serve(
    rt: &HostRuntime,
    settings: &Settings<'_>,
    writer: &mut Watched<Output<'_>>,
) -> Result<ExitReason, CliError>
    requires { writer.old.failed ≡ false }
{
    if settings.is_without_script() {
        return serve_reader(rt, io::empty(), settings, writer);
    }
    if settings.file == "-" {
        return serve_reader(rt, rt.stdin(), settings, writer);
    }
    let script = File::open(rt, settings.file).map_err(|error| CliError::Script(Cause::from(
        error.kind(),
    )))?;
    serve_reader(rt, script, settings, writer)
}

// Does what the settings ask for, and ends standard output.
fn serve_and_flush(rt: &HostRuntime, settings: &Settings<'_>) -> Result<ExitReason, CliError> {
    let mut writer = standard_output(rt, settings)?;
    let ended = serve(rt, settings, &mut writer);
    finish_output(ended, writer)
}

// Prints the message of `clap`, and that only one FILE is allowed if there are several.
fn explain(
    rt: &HostRuntime,
    words: &[String],
    error: &clap::Error,
) -> Result<ExitReason, CliError> {
    let kind = error.kind();
    if kind == clap::error::ErrorKind::OutOfMemory {
        return Err(CliError::Job(RunFault::Memory));
    }
    if kind == clap::error::ErrorKind::UnknownArgument && names_files(words) {
        let _ = eprintln!(rt; "mvsjob: expected one FILE, found several: run mvsjob once for each");
    }
    match error.print(rt) {
        Ok(()) if error.use_stderr() => Ok(ExitReason::Refused),
        Ok(()) => Ok(ExitReason::Printed),
        Err(error) if error.kind() == ErrorKind::BrokenPipe => Err(CliError::Pipe),
        Err(error) => Err(CliError::of_write(error.kind())),
    }
}

// Returns the words of the command line, the program's name first. A word that is not UTF-8 names no file that can be opened.
fn words(rt: &HostRuntime) -> Result<Vec<String>, CliError> {
    let mut words = Vec::new(rt.alloc());
    match env::args(rt) {
        Ok(args) => {
            for word in args {
                words.push(word).map_err(|_| RunFault::Memory)?;
            }
            Ok(words)
        }
        Err(error) if error.kind() == ErrorKind::OutOfMemory => Err(CliError::Job(
            RunFault::Memory,
        )),
        Err(_) => Err(CliError::Script(Cause::Unnamed)),
    }
}

// Says why the program stopped before its work was done, if it did. A failure to say so changes nothing.
fn finish(rt: &HostRuntime, file: &str, other: &str, ending: ExitReason) -> ExitCode
    ensures { exit_status result ≡ status_of ending }
{
    if let Some(text) = ending.text() {
        let _ = eprintln!(rt; "mvsjob: {text}");
    }
    if let ExitReason::GaveUp(CliError::Script(cause)) = ending {
        let file = PlainName(if file == "-" { "standard input" } else { file });
        let _ = eprintln!(rt; "    {file}: {}", cause.text());
    }
    if let ExitReason::GaveUp(CliError::Output(cause) | CliError::Second(cause)) = ending {
        let _ = eprintln!(rt; "    {}: {}", PlainName(other), cause.text());
    }
    if let ExitReason::GaveUp(CliError::Order(error)) = ending {
        let _ = eprintln!(rt; "mvsjob: --schedule: {error}");
    }
    if let ExitReason::GaveUp(CliError::SecondOrder(error)) = ending {
        let _ = eprintln!(rt; "mvsjob: --with-schedule: {error}");
    }
    if let ExitReason::GaveUp(CliError::PageFile(cause)) = ending {
        let _ = eprintln!(rt; "    folder for temporary files: {}", cause.text());
    }
    ExitCode::from(ending.status())
}

// Returns how an option is written, which may be FILE.
fn written<'a>(rt: &HostRuntime, option: &'a str) -> Result<String, CliError> {
    let dashes = if option == "FILE" { "" } else { "--" };
    format!(in rt.alloc(); "{dashes}{option}").map_err(|_| CliError::Job(RunFault::Memory))
}

// Refuses options that have no meaning together, as `clap` refuses others. A failure to say so changes nothing.
fn refuse(rt: &HostRuntime, apart: Apart) -> Result<ExitReason, CliError> {
    let _ = match apart {
        Apart::Excludes(one, other) => {
            let (one, other) = (written(rt, one)?, written(rt, other)?);
            eprintln!(rt; "error: the argument '{one}' cannot be used with '{other}'")
        }
        Apart::Needs(one, other) => {
            let (one, other) = (written(rt, one)?, written(rt, other)?);
            eprintln!(rt; "error: the argument '{one}' can only be used with '{other}'")
        }
    };
    let _ = eprintln!(rt; "\nFor more information, try '--help'.");
    Ok(ExitReason::Refused)
}

// Refuses to print a page at a terminal. A failure to say so changes nothing.
fn refuse_page(rt: &HostRuntime) -> ExitReason {
    let _ = eprintln!(rt;
        "mvsjob: --page prints HTML, which a terminal does not show: use `mvsjob --page FILE > page.html`, or --open"
    );
    ExitReason::Refused
}

// Does what the words ask for, and ends.
fn serve_words(rt: &HostRuntime, words: &[String]) -> ExitCode {
    match settings(rt.alloc(), words) {
        Ok(settings) => {
            let ended = match settings.apart {
                Some(apart) => refuse(rt, apart),
                None if settings.output == RunOutput::Page && rt.stdout().is_terminal() => {
                    Ok(refuse_page(rt))
                }
                None => serve_and_flush(rt, &settings),
            };
            finish(
                rt,
                settings.file,
                settings.second.unwrap_or(settings.judged),
                ended.unwrap_or_else(|why| ExitReason::GaveUp(why)),
            )
        }
        Err(error) => finish(
            rt,
            "-",
            "-",
            explain(rt, words, &error).unwrap_or_else(|why| ExitReason::GaveUp(why)),
        ),
    }
}

// Reads the words, then opens the script, then runs it; the first failure ends the program.
fn main(rt: HostRuntime) -> ExitCode {
    keep_freed_memory(rt.alloc());
    match words(&rt) {
        Ok(words) => serve_words(&rt, &words),
        Err(why) => finish(&rt, "FILE", "-", ExitReason::GaveUp(why)),
    }
}
