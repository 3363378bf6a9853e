//! Answers an editor about scripts: a server of the Language Server Protocol on standard input and output.
#![tactic(auto)]

mod answers;
mod command_line;
mod objects;
mod places;
mod replies;
mod session;

use crate::command_line::{Arguments, read_words};
use crate::session::EditorSession;
use editor_messages::{Ending, serve};
use mvs_model::watched::Watched;
use std::process::ExitCode;
use std::{env, io};

// Returns the words of the command line, the program's name first.
fn words(rt: &HostRuntime) -> Option<Vec<String>> {
    let mut words = Vec::new(rt.alloc());
    let Ok(args) = env::args(rt) else {
        return None;
    };
    for word in args {
        words.push(word).ok()?;
    }
    Some(words)
}

// Serves an editor on standard input and output, and returns the exit status.
fn run(rt: &HostRuntime) -> u8 {
    let mut reader = Watched::new(rt.stdin());
    let mut writer = Watched::new(io::writer(rt));
    let ending = serve(
        rt.alloc(),
        &mut reader,
        &mut writer,
        EditorSession::new(rt.alloc()),
    );
    let reason = match ending {
        Ending::Exit(status) | Ending::End(status) => return status,
        Ending::Read => "read failed",
        Ending::Write => "write failed",
        Ending::Memory => "out of memory",
        Ending::Steps => "too many messages",
    };
    let _ = eprintln!(rt; "mvsjob-lsp: {reason}");
    1
}

// Reads the words of the command line, then serves.
fn main(rt: HostRuntime) -> ExitCode {
    let Some(words) = words(&rt) else {
        let _ = eprintln!(rt; "mvsjob-lsp: cannot read the command line");
        return ExitCode::from(2);
    };
    match read_words(&rt, &words) {
        Arguments::Serve => ExitCode::from(run(&rt)),
        Arguments::Answered(status) => ExitCode::from(status),
    }
}
