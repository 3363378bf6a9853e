//! What the requests of a source are converted to, in the order of the script.

use assembler_operands::OpenReason;
use assembler_statements::SourceStatement;
use std::alloc::{AllocError, Global};
use std::collections::{BTreeMap, BTreeSet};
use std::mem;

/// What a line of the script is: the statement of a task, or what is open.
#[derive(Drop)]
pub enum Saying {
    Statement { task: String, text: String },
    Open(OpenReason),
}

/// A line of the script: the number of its statement in the source or in a member, what is written there, the loop that it is in, and what
/// the line is.
#[derive(Drop)]
pub struct FoundLine {
    pub number: u32,
    pub member: String,
    pub source: String,
    pub in_loop: Option<String>,
    pub saying: Saying,
}

/// The requests of a source: the task of its first program, whether that resides above 16 megabytes, and the lines of the script.
#[derive(Drop)]
pub struct Requests {
    pub task: String,
    pub is_above: bool,
    pub found: Vec<FoundLine>,
}

// A line of the script, which may be the end of a path of a task.
#[derive(Drop)]
struct ScriptItem {
    found: FoundLine,
    is_end: bool,
}

// What becomes of an item.
#[derive(Clone, Copy)]
enum ItemKind {
    Line,
    /// A line that comes after all others.
    LateLine,
    /// The end of a path of a task before a later statement of the task.
    EarlyEnd,
    /// The end of one more path, which the script leaves out.
    OtherEnd,
}

/// The lines of the script that were found so far.
#[derive(Drop)]
pub struct Script {
    alloc: Global,
    items: Vec<ScriptItem>,
    /// Marks and ends that become lines if a request of the same section follows.
    pending: Vec<ScriptItem>,
    /// By its task, how many items there are up to its last statement.
    last: BTreeMap<String, usize>,
    /// The tasks that have attached others.
    attaching: BTreeSet<String>,
    /// The tasks whose end is a line.
    ended: BTreeSet<String>,
}

// Returns a statement of a source as it is shown: its label, operation and operands.
fn shown(alloc: Global, statement: &SourceStatement) -> Result<String, AllocError> {
    let mut text = String::new(alloc);
    for part in [&statement.label, &statement.operation, &statement.field] {
        if !text.is_empty() && !part.is_empty() {
            text.push(' ')?;
        }
        text.push_str(part)?;
    }
    Ok(text)
}

// Returns a line for a statement of a source.
fn found_at(
    alloc: Global,
    statement: &SourceStatement,
    saying: Saying,
) -> Result<FoundLine, AllocError> {
    Ok(FoundLine {
        number: statement.number,
        member: statement.member.clone()?,
        source: shown(alloc, statement)?,
        in_loop: None,
        saying,
    })
}

// Makes the end of a path of a task a line that is open.
fn early_end(alloc: Global, mut found: FoundLine) -> Result<FoundLine, AllocError> {
    let why = String::from_str(alloc, "a path of the task ends here")?;
    found.saying = Saying::Open(OpenReason::choice(why));
    Ok(found)
}

// Returns lines with others after them, the last of those first.
fn joined(mut lines: Vec<FoundLine>, others: Vec<FoundLine>) -> Result<Vec<FoundLine>, AllocError> {
    for found in others.into_iter().rev() {
        lines.push(found)?;
    }
    Ok(lines)
}

impl Script {
    /// Returns that nothing is found.
    pub fn new(alloc: Global) -> Script {
        Script {
            alloc,
            items: Vec::new(alloc),
            pending: Vec::new(alloc),
            last: BTreeMap::new(alloc),
            attaching: BTreeSet::new(alloc),
            ended: BTreeSet::new(alloc),
        }
    }

    // Makes items of the ends that are pending, and with `with_marks` of the marks too.
    fn take_pending(&mut self, with_marks: bool) -> Result<(), AllocError> {
        let pending = mem::replace(&mut self.pending, Vec::new(self.alloc));
        for item in pending {
            if item.is_end || with_marks {
                self.items.push(item)?;
            }
        }
        Ok(())
    }

    // Appends a line after what is pending.
    fn put_line(&mut self, found: FoundLine) -> Result<(), AllocError> {
        self.take_pending(true)?;
        self.items.push(ScriptItem {
            found,
            is_end: false,
        })?;
        Ok(())
    }

    /// Appends what is open at a statement. It fails if memory is exhausted.
    pub fn put_open(
        &mut self,
        statement: &SourceStatement,
        reason: OpenReason,
    ) -> Result<(), AllocError> {
        let found = found_at(self.alloc, statement, Saying::Open(reason))?;
        self.put_line(found)
    }

    /// Appends a mark that becomes a line if a request of the same section follows. It fails if memory is exhausted.
    pub fn put_mark(
        &mut self,
        statement: &SourceStatement,
        text: String,
    ) -> Result<(), AllocError> {
        let reason = Saying::Open(OpenReason::choice(text));
        let found = found_at(self.alloc, statement, reason)?;
        self.pending.push(ScriptItem {
            found,
            is_end: false,
        })?;
        Ok(())
    }

    /// Appends the statement of a task. It fails if memory is exhausted.
    pub fn put_statement(
        &mut self,
        statement: &SourceStatement,
        task: &str,
        text: String,
        in_loop: Option<String>,
    ) -> Result<(), AllocError> {
        let task = String::from_str(self.alloc, task)?;
        let key = task.clone()?;
        let mut found = found_at(self.alloc, statement, Saying::Statement { task, text })?;
        found.in_loop = in_loop;
        self.put_line(found)?;
        self.last.insert(key, self.items.len())?;
        Ok(())
    }

    /// Notes that a task attaches another one. It fails if memory is exhausted.
    pub fn attaches(&mut self, task: &str) -> Result<(), AllocError> {
        self.attaching.insert(String::from_str(self.alloc, task)?)?;
        Ok(())
    }

    /// Appends the end of a path of a task. It fails if memory is exhausted.
    pub fn put_end(
        &mut self,
        statement: &SourceStatement,
        task: &str,
        text: &str,
    ) -> Result<(), AllocError> {
        let saying = Saying::Statement {
            task: String::from_str(self.alloc, task)?,
            text: String::from_str(self.alloc, text)?,
        };
        let found = found_at(self.alloc, statement, saying)?;
        self.pending.push(ScriptItem {
            found,
            is_end: true,
        })?;
        Ok(())
    }

    /// Ends a section: marks with no request after them are left out. It fails if memory is exhausted.
    pub fn end_section(&mut self) -> Result<(), AllocError> {
        self.take_pending(false)
    }

    // Returns whether a statement of a task is at a place or after it.
    fn has_later(&self, task: &str, place: usize) -> bool {
        match self.last.get(task) {
            Some(count) => place < *count,
            None => false,
        }
    }

    // Returns what becomes of the end of a path of a task at a place.
    fn kind_of_end(
        &mut self,
        task: &str,
        place: usize,
        is_late: bool,
    ) -> Result<ItemKind, AllocError> {
        if self.has_later(task, place) {
            return Ok(ItemKind::EarlyEnd);
        }
        if !self.ended.insert(String::from_str(self.alloc, task)?)? {
            return Ok(ItemKind::OtherEnd);
        }
        if is_late && self.attaching.contains(task) {
            return Ok(ItemKind::LateLine);
        }
        Ok(ItemKind::Line)
    }

    // Returns what becomes of the item at a place.
    fn kind(
        &mut self,
        item: &ScriptItem,
        place: usize,
        is_late: bool,
    ) -> Result<ItemKind, AllocError> {
        match &item.found.saying {
            Saying::Statement { task, .. } if item.is_end => self.kind_of_end(task, place, is_late),
            Saying::Statement { .. } | Saying::Open(_) => Ok(ItemKind::Line),
        }
    }

    /// Returns the lines of the script. With `is_late` a task that has attached others ends after all their lines. It fails if memory is
    /// exhausted.
    pub fn lines(mut self, is_late: bool) -> Result<Vec<FoundLine>, AllocError> {
        let alloc = self.alloc;
        let items = mem::replace(&mut self.items, Vec::new(alloc));
        let (mut lines, mut late) = (Vec::new(alloc), Vec::new(alloc));
        for (place, item) in items.into_iter().enumerate() {
            match self.kind(&item, place, is_late)? {
                ItemKind::Line => lines.push(item.found)?,
                ItemKind::LateLine => late.push(item.found)?,
                ItemKind::EarlyEnd => lines.push(early_end(alloc, item.found)?)?,
                ItemKind::OtherEnd => {}
            }
        }
        joined(lines, late)
    }
}
