//! The file that `--page --open` writes.

use crate::ending::{Cause, CliError};
use mvs_job::RunFault;
use std::fs::{File, OpenOptions};
use std::io::{self, ErrorKind};
use std::{env, process};

/// How many names are tried. This project's choice.
const MOST_TRIES: u32 = 100;

/// A new file, and its name.
#[derive(Drop)]
pub struct PageFile {
    pub file: File,
    pub name: String,
}

// Returns why the program stops if a file for a page cannot be created.
fn page_fault(error: &io::Error) -> CliError {
    CliError::PageFile(Cause::from(error.kind()))
}

// Returns the name of a file in the folder for temporary files.
fn name_of(rt: &HostRuntime, number: u32) -> Result<String, CliError> {
    let folder = env::temp_dir(rt).map_err(|error| page_fault(&error))?;
    let folder = folder.as_str();
    format!(in rt.alloc(); "{folder}/mvsjob-{number}.html").map_err(|_| CliError::Job(
        RunFault::Memory,
    ))
}

// Creates a new file. Returns None if there is one of that name.
fn create(rt: &HostRuntime, name: &str) -> Result<Option<File>, CliError> {
    let mut options = OpenOptions::new();
    options.write(true).create_new(true);
    match options.open(rt, name) {
        Err(error) if error.kind() == ErrorKind::AlreadyExists => Ok(None),
        opened => opened.map(Some).map_err(|error| page_fault(&error)),
    }
}

/// Creates a new file for a page in the folder for temporary files. A file that is there stays as it is.
pub fn new_page_file(rt: &HostRuntime) -> Result<PageFile, CliError> {
    let first = process::id(rt.process());
    for try_number in 0..MOST_TRIES {
        let name = name_of(rt, first.wrapping_add(try_number))?;
        if let Some(file) = create(rt, name.as_str())? {
            return Ok(PageFile { file, name });
        }
    }
    Err(CliError::PageFile(Cause::Other))
}
