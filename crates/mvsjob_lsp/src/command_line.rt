//! The command line.

use clap::{Arg, ArgAction, Command};
use std::alloc::{AllocError, Global};
use version::VERSION;

const ABOUT: &str =
    "Answers an editor about scripts of mvsjob, by the Language Server Protocol on standard input and output.";

const HELP: &str =
    "An editor starts it: docs/EDITORS.md has the lines for Neovim, Vim, Emacs, Visual Studio Code, Kate and Helix.

Exit status: 0 after the requests shutdown and exit, 1 if the session ended otherwise, 2 for a wrong command line.";

/// What a command line asks for.
#[derive(Clone, Copy, Debug, PartialEq, Eq)]
pub enum Arguments {
    Serve,
    /// The help was printed, or the words were refused: with this status.
    Answered(u8),
}

// Returns the command.
fn command<'a>(alloc: Global) -> Result<Command<'a>, AllocError> {
    let stdio = Arg::new(alloc, "stdio")
        .long("stdio")
        .action(ArgAction::SetTrue)
        .help("Uses standard input and output, which it always does; some editors pass it");
    Command::new(alloc, "mvsjob-lsp")
        .version(VERSION)
        .about(ABOUT)
        .after_help(HELP)
        .arg(stdio)
}

// Prints what `clap` has to say.
fn answered(rt: &HostRuntime, error: &clap::Error) -> Arguments {
    match error.print(rt) {
        Ok(()) if error.use_stderr() => Arguments::Answered(2),
        Ok(()) => Arguments::Answered(0),
        Err(_) => Arguments::Answered(2),
    }
}

/// Reads the words of a command line, and answers those that ask for the help or that are wrong.
pub fn read_words(rt: &HostRuntime, words: &[String]) -> Arguments {
    let Ok(mut command) = command(rt.alloc()) else {
        let _ = eprintln!(rt; "mvsjob-lsp: out of memory");
        return Arguments::Answered(2);
    };
    match command.try_get_matches_from_mut(words) {
        Ok(_) => Arguments::Serve,
        Err(error) => answered(rt, &error),
    }
}
