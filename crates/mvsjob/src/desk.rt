//! What a session at a terminal shows and asks for: prompts, messages, the texts of dot commands, and their files.

use crate::ending::{Cause, CliError};
use crate::faulty::FaultyLine;
use crate::options::{RunOutput, Settings};
use crate::report_fault;
use crate::script::read_script;
use diagnosis::{Plain, PlainName};
use line_text::text::LineText;
use mvs_job::RunFault;
use mvs_model::line::Fault;
use mvs_model::numbers::MOST_SCRIPT_BYTES;
use mvs_model::watched::Watched;
use page::{FRAME, write_page};
use shell::{Command, Misread, command_meant};
use std::alloc::Global;
use std::cell::Cell;
use std::fs::{self, File};
use std::io::{IsTerminal, Write};
use terminal_session::{Host, View, answer, banner, correction};

/// Shows what a session says beside the answers: on standard output if that is a terminal, and otherwise on standard error.
#[derive(Drop)]
pub struct Desk<'a> {
    rt: &'a HostRuntime,
    name: &'a str,
    json: bool,
    is_out: bool,
    /// Whether somebody types the lines. Otherwise commands open no file, so that a script does nothing but run.
    is_typed: bool,
    reasons: &'a Cell<bool>,
    /// Whether the hint about keys was shown.
    hinted: bool,
}

/// Returns whether somebody types the script.
pub fn is_typed(rt: &HostRuntime, settings: &Settings<'_>) -> bool {
    settings.file == "-" && rt.stdin().is_terminal()
}

// Returns the word for a number of lines.
fn lines_word(count: usize) -> &'static str {
    if count == 1 { "line" } else { "lines" }
}

impl<'a> Desk<'a> {
    /// Makes a host for a session at the terminal.
    pub fn new(
        rt: &'a HostRuntime,
        settings: &'a Settings<'_>,
        reasons: &'a Cell<bool>,
    ) -> Desk<'a> {
        Desk {
            rt,
            name: settings.file,
            json: settings.output == RunOutput::Json,
            is_out: rt.stdout().is_terminal(),
            is_typed: is_typed(rt, settings),
            reasons,
            hinted: false,
        }
    }

    // Shows a text. A failure to do so changes nothing.
    fn show(&self, text: &str) {
        let rt = self.rt;
        let _ = if self.is_out {
            print!(rt; "{text}")
        } else {
            eprint!(rt; "{text}")
        };
    }

    // Shows a text for which there may be no memory.
    fn show_some<E: Drop>(&self, text: Result<String, E>) {
        match text {
            Ok(text) => self.show(&text),
            Err(_) => self.show("out of memory\n"),
        }
    }

    /// Shows the first line of a session, if somebody types it.
    pub fn greet(&self) {
        if self.is_typed {
            self.show_some(banner(self.rt.alloc()));
        }
    }

    // Reports that a file could not be used.
    fn report_file(&self, verb: &str, name: &[u8], why: &str) {
        self.show_some(format!(in self.rt.alloc(); "cannot {verb} {}: {why}\n", Plain(name)));
    }

    // Returns the name of a file as a path, if somebody types the lines and it is one; or reports why not.
    fn path<'b>(&self, verb: &str, name: &'b [u8]) -> Option<&'b str> {
        let path = str::from_utf8(name).ok();
        if !self.is_typed {
            self.report_file(verb, name, "files are used only if the lines are typed");
            return None;
        }
        if path.is_none() {
            self.report_file(verb, name, Cause::Unnamed.text());
        }
        path
    }

    // Switches the reasons.
    fn switch(&self, on: bool) {
        if self.json {
            return self.show("with --json, give --explain when you start mvsjob\n");
        }
        self.reasons.set(on);
        self.show(if on {
            "reasons are on\n"
        } else {
            "reasons are off\n"
        });
    }

    // Writes the lines of the job to a file.
    fn save(&self, view: &View<'_>, name: &[u8]) {
        let Some(path) = self.path("write", name) else {
            return;
        };
        let Ok(text) = view.script.text(self.rt.alloc()) else {
            return self.show("out of memory\n");
        };
        match fs::write(self.rt, path, text.as_slice()) {
            Ok(()) => self.report_written(view, name),
            Err(error) => self.report_file("write", name, Cause::from(error.kind()).text()),
        }
    }

    // Reports that a file was written.
    fn report_written(&self, view: &View<'_>, name: &[u8]) {
        let count = view.script.count();
        self.show_some(format!(in self.rt.alloc();
            "{}: {count} {}\n",
            Plain(name),
            lines_word(count)
        ));
    }

    // Writes the page of the job to a file.
    fn write_page(&self, view: &View<'_>, name: &[u8]) {
        let Some(path) = self.path("write", name) else {
            return;
        };
        let file = match File::create(self.rt, path) {
            Ok(file) => file,
            Err(error) => {
                return self.report_file("write", name, Cause::from(error.kind()).text());
            }
        };
        let mut writer = Watched::new(file);
        let alloc = self.rt.alloc();
        let Ok(text) = view.script.text(alloc) else {
            return self.show("out of memory\n");
        };
        if text.len() > MOST_SCRIPT_BYTES {
            return self.report_file("write", name, RunFault::ReadTooLong.text());
        }
        match write_page(alloc, FRAME.as_bytes(), &text, &mut writer, view.placement) {
            Ok(_) => self.report_written(view, name),
            Err(stop) => self.report_file("write", name, CliError::from(stop).reason()),
        }
    }
}

impl Host for Desk<'_> {
    fn on_prompt(&mut self, number: u32) {
        let mut prompt = LineText::new();
        prompt.push_decimal(number);
        prompt.push_str(b"> ");
        let _ = if self.is_out {
            self.rt.stdout().write_all(prompt.as_slice())
        } else {
            self.rt.stderr().write_all(prompt.as_slice())
        };
    }

    fn on_fault(&mut self, number: u32, line: &[u8], fault: Fault) {
        let faulty = FaultyLine {
            number,
            line,
            fault,
        };
        report_fault(self.rt, self.name, &faulty);
        if let Some(keyword) = command_meant(line) {
            self.show_some(format!(in self.rt.alloc();
                "(a command begins with a dot: {})\n",
                keyword.syntax()
            ));
        }
    }

    fn on_key(&mut self) {
        if !self.hinted {
            self.hinted = true;
            self.show(
                "(keys such as the arrows do nothing here: mvsjob-shell has history and editing)\n",
            );
        }
    }

    // Leaves the line of the prompt.
    fn on_end(&mut self) {
        self.show("\n");
    }

    fn on_command(&mut self, view: &View<'_>, command: Result<Command<'_>, Misread<'_>>) {
        match command {
            Ok(Command::Why(on)) => self.switch(on),
            Ok(Command::Save(name)) => self.save(view, name),
            Ok(Command::Page(name)) => self.write_page(view, name),
            Ok(command) => self.show_some(answer(self.rt.alloc(), &command, view)),
            Err(misread) => self.show_some(correction(self.rt.alloc(), misread)),
        }
    }

    fn on_restart(&mut self, lines: usize) {
        if lines == 0 {
            return self.show("a new job\n");
        }
        self.show_some(format!(in self.rt.alloc();
            "a new job, with {lines} {}:\n",
            lines_word(lines)
        ));
    }

    fn open(&mut self, alloc: Global, name: &[u8]) -> Option<Vec<u8>> {
        let path = self.path("open", name)?;
        let opened = File::open(self.rt, path)
            .map_err(|error| CliError::Script(Cause::from(error.kind())))
            .and_then(|file| read_script(alloc, file));
        match opened {
            Ok(text) => Some(text),
            Err(why) => {
                self.report_file("open", name, why.reason());
                None
            }
        }
    }

    fn on_unopened(&mut self, name: &[u8], fault: RunFault) {
        self.report_file("open", name, fault.text());
    }
}
