//! Writes the script of assembler source: a statement for each request for storage that a script can say.
#![tactic(auto)]

mod command_line;
mod give_up;
mod members;

use crate::command_line::{Options, options_of};
use crate::give_up::ConversionError;
use crate::members::{members_of, source_of};
use assembler_output::{ScriptStop, Sum, write_script};
use assembler_source::find_requests;
use diagnosis::PlainName;
use std::env;
use std::io::{self, BufWriter, Write};
use std::process::ExitCode;

// Writes the script of a source.
fn convert(rt: &HostRuntime, options: &Options<'_>) -> Result<Sum, ConversionError> {
    let source = source_of(rt, options.file)?;
    let members = members_of(rt, &options.folders, &source)?;
    let requests = find_requests(rt.alloc(), &source, &members, &options.choices)?;
    let mut writer = BufWriter::new(rt.alloc(), io::writer(rt)).map_err(
        |_| ConversionError::Memory,
    )?;
    let sum = write_script(rt.alloc(), &mut writer, &requests, options.form)?;
    writer
        .flush()
        .map_err(|error| ScriptStop::from(error.kind()))?;
    Ok(sum)
}

// Returns the words of the command line, the program's name first.
fn words(rt: &HostRuntime) -> Result<Vec<String>, ConversionError> {
    let mut words = Vec::new(rt.alloc());
    let args = env::args(rt).map_err(|_| ConversionError::Read)?;
    for word in args {
        words.push(word).map_err(|_| ConversionError::Memory)?;
    }
    Ok(words)
}

// Says what `clap` has to say.
fn refuse(rt: &HostRuntime, error: &clap::Error) -> ConversionError {
    match error.print(rt) {
        Ok(()) if error.use_stderr() => ConversionError::Words(2),
        Ok(()) => ConversionError::Words(0),
        Err(error) => ConversionError::from(ScriptStop::from(error.kind())),
    }
}

// Says how it went. A failure to say so changes nothing.
fn finish(rt: &HostRuntime, name: &str, ended: Result<Sum, ConversionError>) -> ExitCode {
    match ended {
        Ok(Sum { statements, open }) => {
            let name = PlainName(name);
            let _ = eprintln!(rt;
                "mvsjob-asm: {name}: {statements} statements written, {open} lines need attention"
            );
            ExitCode::from(if statements > 0 { 0 } else { 1 })
        }
        Err(why) => {
            if why.is_reported() {
                let _ = eprintln!(rt; "mvsjob-asm: {}: {why}", PlainName(name));
            }
            ExitCode::from(why.status())
        }
    }
}

// Reads the words, then the source, then writes the script.
fn main(rt: HostRuntime) -> ExitCode {
    let words = match words(&rt) {
        Ok(words) => words,
        Err(why) => return finish(&rt, "-", Err(why)),
    };
    match options_of(rt.alloc(), &words) {
        Ok(options) => {
            let ended = convert(&rt, &options);
            finish(&rt, options.file, ended)
        }
        Err(error) => {
            let why = refuse(&rt, &error);
            finish(&rt, "-", Err(why))
        }
    }
}
