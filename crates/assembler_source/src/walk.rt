//! Processes a source along its paths and converts each request for storage.

use crate::frames::{Frames, Inside};
use crate::options::{Choices, Schedule};
use crate::way::{ConversionRefusal, Way, Waypoint};
use assembler_flow::{Layout, Loop, Loops, Sections, begins_section, flow_of};
use assembler_operands::{OpenCause, OpenReason, Unsaid};
use assembler_requests::{Attached, Converted, GivenNames, convert};
use assembler_script::{Requests, Script, attach_mark};
use assembler_statements::{CopyMember, SourceStatement, read_statements};
use assembler_symbols::{Symbols, symbols_of};
use assembler_values::{Held, KnownValues, Macro, MacroForm, how_written, macro_of, operands_of};
use std::alloc::{AllocError, Global};
use std::collections::{BTreeMap, BTreeSet, VecDeque};

/// The most statements that a path may have beyond those of its source.
const MOST_STEPS: usize = 500_000;

/// How often a path may go back to a statement where no loop is known.
const MOST_BACKS: u32 = 100;

/// A source that was read.
#[derive(Clone, Copy)]
pub struct SourceText<'a> {
    pub alloc: Global,
    pub statements: &'a [SourceStatement],
    pub symbols: &'a Symbols,
    pub sections: &'a Sections,
    pub layout: &'a Layout,
    pub loops: &'a Loops,
}

/// The part of a source that was processed so far.
#[derive(Drop)]
pub struct SourceWalk<'a> {
    pub source: SourceText<'a>,
    pub way: Way,
    pub held: Held,
    pub script: Script,
    pub frames: Frames,
    /// The place of the next statement.
    pub at: usize,
    /// The task that runs, and its program.
    pub task: String,
    pub program: String,
    given: GivenNames,
    /// The places in routines that were called: their requests are converted where they are called.
    called: BTreeSet<usize>,
    /// By its place, how often a request was converted.
    times: BTreeMap<usize, u32>,
    /// By its place, how often a path went back to a statement.
    backs: BTreeMap<usize, u32>,
    /// Tasks whose statements come later.
    waiting: VecDeque<Attached>,
    /// The programs that were gone through, or will be.
    entered: BTreeSet<String>,
}

impl<'a> SourceWalk<'a> {
    // Begins before the first statement.
    fn begin(source: SourceText<'a>, way: Way) -> Result<SourceWalk<'a>, ConversionRefusal> {
        let alloc = source.alloc;
        let mut given = GivenNames::new(alloc, &source.sections.first)?;
        let task = given.names.of_task(&source.sections.first)?;
        Ok(SourceWalk {
            source,
            way,
            held: Held::new(alloc),
            script: Script::new(alloc),
            frames: Frames::new(alloc),
            at: 0,
            task,
            program: source.sections.first.clone()?,
            given,
            called: BTreeSet::new(alloc),
            times: BTreeMap::new(alloc),
            backs: BTreeMap::new(alloc),
            waiting: VecDeque::new(alloc),
            entered: BTreeSet::new(alloc),
        })
    }

    /// Appends a mark at a statement that is open. It fails if memory is exhausted.
    pub fn mark(&mut self, statement: &SourceStatement, text: &str) -> Result<(), AllocError> {
        let text = String::from_str(self.source.alloc, text)?;
        self.script.put_open(statement, OpenReason::choice(text))
    }

    // Counts the request at a place, and returns how often it was converted, this time among them.
    fn count(&mut self, place: usize) -> Result<u32, AllocError> {
        let time = self
            .times
            .get(&place)
            .map_or(1, |time| time.saturating_add(1));
        self.times.insert(place, time)?;
        Ok(time)
    }

    // Returns the innermost loop around a place that is written once.
    fn single_loop(&self, place: usize) -> Option<&'a Loop> {
        let mut found: Option<&'a Loop> = None;
        for one in self.source.loops.all() {
            let is_inner = match found {
                Some(other) => other.start < one.start,
                None => true,
            };
            if one.has(place) && is_inner && !self.way.repeats(one.end) {
                found = Some(one);
            }
        }
        found
    }

    /// Returns the label of the loop in which a request or a call is, or its routine is called, if that is written once.
    pub fn loop_at(&self, place: usize) -> Result<Option<String>, AllocError> {
        if self.way.is_path() {
            return Ok(None);
        }
        let label = match self.single_loop(place) {
            Some(around) => Some(around.label.as_str()),
            None => self.frames.in_loop(),
        };
        label
            .map(|label| String::from_str(self.source.alloc, label))
            .transpose()
    }

    // Appends a task that was attached, whose statements come later, or continues with it.
    fn attach(
        &mut self,
        statement: &SourceStatement,
        attached: Attached,
    ) -> Result<(), AllocError> {
        self.script.attaches(&self.task)?;
        let start = self.source.sections.start_of(&attached.program);
        if self.way.schedule == Schedule::Marked {
            let source = self.source;
            let mark = attach_mark(source.alloc, source.statements, &attached.task, start)?;
            self.script.put_open(statement, OpenReason::choice(mark))?;
        }
        let Some(start) = start else {
            return Ok(());
        };
        if self.is_running(&attached.program) {
            return self.mark(statement, "a program that attaches itself is not followed");
        }
        self.entered.insert(attached.program.clone()?)?;
        if self.way.schedule == Schedule::AtAttach {
            return self.enter_task(attached, start);
        }
        self.waiting.push_back(attached)?;
        Ok(())
    }

    // Returns whether a program is the first one, that of the task that runs, or one of those above it.
    fn is_running(&self, program: &str) -> bool {
        self.source.sections.first.as_str() == program
            || self.program.as_str() == program
            || self.frames.has_program(program)
            || self.frames.is_full()
    }

    // Appends a request that is converted.
    fn put_converted(
        &mut self,
        place: usize,
        statement: &SourceStatement,
        request: Converted,
    ) -> Result<(), AllocError> {
        let Converted {
            mut text,
            comes,
            attached,
        } = request;
        if let Some(comes) = comes {
            self.held.take(comes)?;
        }
        if let Some(attached) = &attached {
            if self.source.sections.is_above(&attached.program) {
                text.push_str(",RES=ABOVE")?;
            }
        }
        let in_loop = self.loop_at(place)?;
        self.script
            .put_statement(statement, &self.task, text, in_loop)?;
        match attached {
            Some(attached) => self.attach(statement, attached),
            None => Ok(()),
        }
    }

    // Appends why a request is not converted.
    fn put_refusal(&mut self, statement: &SourceStatement, why: Unsaid) -> Result<(), AllocError> {
        match why {
            Unsaid::For(reason) => self.script.put_open(statement, reason),
            Unsaid::NoName => {
                let reason = OpenReason::alone(self.source.alloc, OpenCause::NoName);
                self.script.put_open(statement, reason)
            }
            Unsaid::Memory => Err(AllocError),
        }
    }

    // Converts the request at a place; None if it is a list form, which is no request.
    fn convert(
        &mut self,
        wanted: Macro,
        place: usize,
        statement: &'a SourceStatement,
    ) -> Result<Option<Converted>, Unsaid> {
        let source = self.source;
        let time = self.count(place)?;
        let known = KnownValues {
            alloc: source.alloc,
            symbols: source.symbols,
            held: &self.held,
            statement,
            time,
            following: source
                .statements
                .get(place.saturating_add(1)..)
                .unwrap_or(&[]),
        };
        let how = how_written(known, statement)?;
        if matches!(how, MacroForm::List) {
            return Ok(None);
        }
        let operands = operands_of(source.alloc, source.statements, statement, how)?;
        Ok(Some(convert(known, &mut self.given, &operands, wanted)?))
    }

    // Processes a request.
    fn pass_request(
        &mut self,
        wanted: Macro,
        place: usize,
        statement: &'a SourceStatement,
    ) -> Result<(), AllocError> {
        match self.convert(wanted, place, statement) {
            Ok(Some(request)) => {
                self.held.call(statement)?;
                self.put_converted(place, statement, request)
            }
            Ok(None) => Ok(()),
            Err(why) => {
                self.held.call(statement)?;
                self.put_refusal(statement, why)
            }
        }
    }

    // Processes the beginning of a section: one of another program's is left out, and a routine ends there.
    fn pass_section(
        &mut self,
        place: usize,
        statement: &SourceStatement,
    ) -> Result<(), AllocError> {
        match self.frames.routine() {
            Some(entry) if entry == place => return Ok(()),
            Some(_) => return self.leave_routine(),
            None => {}
        }
        if self.source.sections.program_of(&statement.label) != self.program.as_str() {
            self.at = match self.source.layout.next_section(place) {
                Some(next) => next,
                None => self.source.statements.len(),
            };
            return Ok(());
        }
        self.held.leave_registers();
        self.script.end_section()
    }

    // Returns whether the statement at a place was converted where its routine is called.
    fn is_converted(&self, place: usize) -> bool {
        !self.way.is_path() && self.frames.link().is_none() && self.called.contains(&place)
    }

    // Notes that a place is passed.
    fn note(&mut self, place: usize) -> Result<(), AllocError> {
        if self.frames.link().is_some() {
            self.called.insert(place)?;
        }
        if self.way.is_path() {
            self.way.reach(place);
        }
        Ok(())
    }

    /// Returns whether a branch that is always taken loops, and counts that it jumps back. It fails if memory is exhausted.
    pub fn loops_back(&mut self, from: usize, to: usize) -> Result<bool, AllocError> {
        if let Some(around) = self.source.loops.from(to) {
            if from <= around.end {
                return Ok(true);
            }
        }
        let times = self
            .backs
            .get(&to)
            .map_or(1, |times| times.saturating_add(1));
        self.backs.insert(to, times)?;
        Ok(times > MOST_BACKS)
    }

    // Processes the statement at a place.
    fn pass(&mut self, place: usize, statement: &'a SourceStatement) -> Result<(), AllocError> {
        if begins_section(statement) {
            self.note(place)?;
            return self.pass_section(place, statement);
        }
        if self.is_converted(place) {
            return Ok(());
        }
        self.note(place)?;
        if let Some(wanted) = macro_of(&statement.operation) {
            return self.pass_request(wanted, place, statement);
        }
        if statement.operation.as_str() == "COPY" {
            return self.mark(statement, "the member is not there (-I DIR)");
        }
        let source = self.source;
        let flow = flow_of(
            source.alloc,
            source.symbols,
            source.layout,
            place,
            statement,
        )?;
        self.go(place, statement, flow)
    }

    // Begins the next task that waits, and returns whether there is one.
    fn begin_waiting(&mut self) -> Result<bool, AllocError> {
        self.script.end_section()?;
        let Some(Attached { task, program }) = self.waiting.pop_front() else {
            return Ok(false);
        };
        let end = self.source.statements.len();
        self.at = self.source.sections.start_of(&program).unwrap_or(end);
        self.task = task;
        self.program = program;
        self.held.leave_registers();
        Ok(true)
    }

    // Continues where the routine or task ends that the path is in; false if the path ends.
    fn leave(&mut self) -> Result<bool, AllocError> {
        let Some(frame) = self.frames.leave() else {
            return self.begin_waiting();
        };
        self.at = frame.back;
        match frame.inside {
            Inside::Routine {
                in_loop: _in_loop,
                ..
            } => {}
            Inside::Task {
                task,
                program,
                registers,
            } => {
                self.script.end_section()?;
                self.task = task;
                self.program = program;
                self.held.restore(registers);
            }
        }
        Ok(true)
    }

    // Processes the next statement; false if there is none.
    fn step(&mut self) -> Result<bool, AllocError> {
        let place = self.at;
        match self.source.statements.get(place) {
            Some(statement) => {
                self.at = place.saturating_add(1);
                self.pass(place, statement)?;
                Ok(true)
            }
            None => self.leave(),
        }
    }

    // Lets the tasks wait whose programs nothing has attached, though an ATTACH names them.
    fn wait_for_others(&mut self) -> Result<(), ConversionRefusal> {
        let source = self.source;
        for start in source.layout.starts() {
            let Some(statement) = source.statements.get(*start) else {
                continue;
            };
            let label = statement.label.as_str();
            let program = source.sections.program_of(label);
            let is_own = program == label && program != source.sections.first.as_str();
            if is_own
                && self
                    .entered
                    .insert(String::from_str(source.alloc, program)?)?
            {
                let attached = Attached {
                    task: self.given.names.of_task(program)?,
                    program: String::from_str(source.alloc, program)?,
                };
                self.waiting.push_back(attached)?;
            }
        }
        Ok(())
    }

    // Processes the source, and returns whether the path ended.
    fn run(&mut self) -> Result<bool, AllocError> {
        let most = self.source.statements.len().saturating_add(MOST_STEPS);
        for _ in 0..most {
            if !self.step()? {
                return Ok(true);
            }
        }
        Ok(false)
    }

    // Processes the whole source.
    fn run_all(&mut self) -> Result<(), ConversionRefusal> {
        if self.run()? && !self.way.is_path() {
            self.wait_for_others()?;
            self.run()?;
        }
        if let Some(statement) = self.source.statements.get(self.at) {
            self.mark(
                statement,
                "the path has too many statements, and stops here",
            )?;
        }
        Ok(self.mark_rest()?)
    }

    // Marks the next point of the path, if one is left.
    fn mark_rest(&mut self) -> Result<(), AllocError> {
        let source = self.source;
        let (statement, mark) = match self.way.waypoint() {
            Some(Waypoint::Place(place)) => {
                (source.statements.get(place), "the path does not come here")
            }
            Some(Waypoint::End) => (
                source.statements.last(),
                "the path does not come to a conditional return of the task",
            ),
            None => return Ok(()),
        };
        let Some(statement) = statement else {
            return Ok(());
        };
        self.mark(statement, mark)
    }
}

// Processes a source that was read.
fn walked(source: SourceText<'_>, way: Way) -> Result<Requests, ConversionRefusal> {
    let mut walk = SourceWalk::begin(source, way)?;
    let task = walk.task.clone()?;
    walk.run_all()?;
    let is_late = walk.way.schedule != Schedule::AtAttach;
    let SourceWalk { script, .. } = walk;
    Ok(Requests {
        task,
        is_above: source.sections.is_above(&source.sections.first),
        found: script.lines(is_late)?,
    })
}

/// Returns the lines of the script of a source, or of a listing of it: what each request is converted to on the paths that are chosen, and what
/// is open. It fails if memory is exhausted, if no name is left for a program, or if a choice names a label that the source does not have.
pub fn find_requests(
    alloc: Global,
    source: &[u8],
    members: &[CopyMember],
    choices: &Choices,
) -> Result<Requests, ConversionRefusal> {
    let statements = read_statements(alloc, source, members)?;
    let symbols = symbols_of(alloc, &statements)?;
    let sections = Sections::find(alloc, &symbols, &statements)?;
    let layout = Layout::find(alloc, &statements)?;
    let loops = Loops::find(alloc, &symbols, &layout, &statements)?;
    let way = Way::find(alloc, &layout, &loops, choices)?;
    let source = SourceText {
        alloc,
        statements: &statements,
        symbols: &symbols,
        sections: &sections,
        layout: &layout,
        loops: &loops,
    };
    walked(source, way)
}
