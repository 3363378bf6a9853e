//! The sources of a name, and the members that COPY names in them.

use crate::give_up::ConversionError;
use assembler_source::{CopyMember, copied_members};
use std::collections::BTreeSet;
use std::fs::File;
use std::io::Read;

/// The most bytes of a source.
const MOST_BYTES: u64 = 1 << 26;

/// The most members that are read.
const MOST_MEMBERS: u32 = 1000;

/// What the name of the file of a member may end in.
const ENDINGS: [&str; 6] = ["", ".asm", ".mac", ".cpy", ".copy", ".hlasm"];

// Returns the bytes that a reader gives.
fn bytes_of<R: Read + Drop>(rt: &HostRuntime, reader: R) -> Result<Vec<u8>, ConversionError> {
    let mut bytes = Vec::new(rt.alloc());
    reader.take(MOST_BYTES).read_to_end(&mut bytes)?;
    if bytes.len() as u64 >= MOST_BYTES {
        return Err(ConversionError::TooLong);
    }
    Ok(bytes)
}

/// Returns the bytes of a file, or of standard input.
pub fn source_of(rt: &HostRuntime, name: &str) -> Result<Vec<u8>, ConversionError> {
    if name == "-" {
        return bytes_of(rt, rt.stdin());
    }
    bytes_of(rt, File::open(rt, name)?)
}

// Returns whether a name is one of a member.
fn is_name(name: &str) -> bool {
    let is_of_name = |letter: char| letter.is_ascii_alphanumeric()
        || matches!(letter, '@' | '#' | '$' | '_');
    !name.is_empty() && name.chars().all(|letter| is_of_name(letter))
}

// Returns what is in a file, if there is one of this name.
fn read_if_there(rt: &HostRuntime, path: &str) -> Result<Option<Vec<u8>>, ConversionError> {
    match File::open(rt, path) {
        Ok(file) => Ok(Some(bytes_of(rt, file)?)),
        Err(_) => Ok(None),
    }
}

// Returns what is in the file of a member in a folder, if there is one.
fn find_in(rt: &HostRuntime, folder: &str, name: &str) -> Result<Option<Vec<u8>>, ConversionError> {
    for ending in ENDINGS {
        let path = format!(in rt.alloc(); "{folder}/{name}{ending}")?;
        if let Some(source) = read_if_there(rt, &path)? {
            return Ok(Some(source));
        }
    }
    Ok(None)
}

// Returns the member of a name from the first folder that has it, its file in upper or lower case.
fn find(
    rt: &HostRuntime,
    folders: &[&str],
    name: &str,
) -> Result<Option<Vec<u8>>, ConversionError> {
    let lower: String = name
        .chars()
        .map(|letter| letter.to_ascii_lowercase())
        .collect(rt.alloc())?;
    for folder in folders {
        if let Some(source) = find_in(rt, folder, name)? {
            return Ok(Some(source));
        }
        if let Some(source) = find_in(rt, folder, &lower)? {
            return Ok(Some(source));
        }
    }
    Ok(None)
}

/// Returns the members that a source copies, and those that these copy, if they are in one of some folders.
pub fn members_of(
    rt: &HostRuntime,
    folders: &[&str],
    source: &[u8],
) -> Result<Vec<CopyMember>, ConversionError> {
    let mut members = Vec::new(rt.alloc());
    let mut known = BTreeSet::new(rt.alloc());
    let mut names = copied_members(rt.alloc(), source)?;
    for _ in 0..MOST_MEMBERS {
        let Some(name) = names.pop() else {
            break;
        };
        if !is_name(&name) || !known.insert(name.clone()?)? {
            continue;
        }
        if let Some(source) = find(rt, folders, &name)? {
            for other in copied_members(rt.alloc(), &source)? {
                names.push(other)?;
            }
            members.push(CopyMember { name, source })?;
        }
    }
    Ok(members)
}
