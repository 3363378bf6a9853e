//! What a reporter keeps of the step that runs.

ghost use Rattle.std.specs.Prelude.{◌≡◌, ◌≢◌, ◌+◌, ◌++◌, ◌||◌, [], ℕ, List, None, Some, false, length, nat_lt, true, OnErr, OnOk};
ghost use Rattle.mvs_model.specs.declared.name.Name.{Name as TaskName};
ghost use Rattle.mvs_model.specs.Finite.{has};
ghost use Rattle.mvs_model.specs.FullAnswers.{full_answer};
ghost use Rattle.mvs_model.specs.Name.{same_name};
ghost use Rattle.mvs_model.specs.State.{State};
ghost use Rattle.mvs_job.specs.LineEvents.{IsAvailable, WalkValue, events_of_line};
ghost use Rattle.mvs_job.specs.Observing.{is_end};
ghost use Rattle.area_history.specs.Accounts.{IsKept, IsLedger, IsLooked, IsObserved, IsSettled, KeepsAccount, may_end, summary_of};
ghost use Rattle.area_history.specs.Ledgers.{ends_task, granted_by, no_step, nothing_left, parts_in, plain_in};

use crate::grant::{Holdings, Selection};
use crate::history::AreaHistory;
use crate::largest::Leaks;
use crate::obtained::{keep_built, push_granted};
use crate::pools::{BuiltPools, LeftPools, no_pools, none_left, push_pools_left};
use line_text::is_same_name;
use mvs_job::{Job, LineEvent, Walk};
use mvs_model::answer::Answer;
use mvs_model::error::OutOfMemory;
use mvs_model::line::{Line, SourceRequest, Statement};
use mvs_model::name::Name;
use mvs_model::place::{Addr, Place};
use mvs_model::reason::Holder;
use mvs_model::refusal::{Consequence, Refusal};
use mvs_model::request::Request;
use mvs_model::table::reply_to;
use std::alloc::Global;

impl Holdings for Job {
    ghost plain = { plain_in };

    ghost parts = { parts_in };

    fn is_plain(&self, doubleword: u32) -> bool {
        let step = self.step();
        if doubleword >= 0x1000_0000 {
            return false;
        }
        match step.machine().holder(Addr::new(8 * doubleword)) {
            Holder::Subpool(..) | Holder::Unowned => true,
            Holder::Nobody | Holder::Outside | Holder::Part(_) => false,
        }
    }

    fn has_plain(&self, place: Place) -> bool {
        let (first, count) = (place.addr().get() / 8, place.len() / 8);
        if count == 0 {
            return true;
        }
        if !self.is_plain(first) {
            return false;
        }
        let whole = Place::new(Addr::new(8 * first), 8 * count);
        self.step().bytes(whole).is_some()
    }

    fn parts(&self, pool: &Name) -> u32 {
        match self.step().machine().newest(pool) {
            Some(newest) => newest.parts,
            None => 0,
        }
    }
}

/// What is left in a step: areas, and cell pools.
#[derive(Drop)]
pub struct Leftovers {
    pub(crate) areas: Leaks,
    pub(crate) pools: LeftPools,
}

impl Leftovers {
    /// Returns the leftovers of a step in which nothing is left.
    pub(crate) fn none() -> Leftovers {
        Leftovers {
            areas: Leaks::none(),
            pools: none_left(),
        }
    }

    // Removes all.
    fn clear(&mut self)
        ensures { self.new ≡ summary_of nothing_left }
    {
        self.areas.clear();
        self.pools.clear();
    }

    /// Returns whether something is left.
    pub(crate) fn is_some(&self) -> bool
        ensures { result ≡ (nat_lt 0 self.now.areas.count || nat_lt 0 (length self.now.pools)) }
    {
        self.areas.is_some() || self.pools.len() > 0
    }
}

/// The account of the step that runs.
#[derive(Drop)]
pub struct Account {
    /// The job step task; None before the first step.
    pub(crate) root: Option<Name>,
    /// The areas that were granted.
    pub(crate) history: AreaHistory,
    /// The cell pools that were built.
    pub(crate) pools: BuiltPools,
    /// Whether the job step task has ended.
    pub(crate) is_over: bool,
    /// What was left when the job step task ended; if it runs, what is left before a line that may end it or the step.
    pub(crate) found: Leftovers,
}

/// Returns whether an answer ends its task.
pub(crate) fn is_end(answer: &Answer) -> bool
    ensures { (st : State) (fallen : List TaskName) (t : TaskName)
        → result ≡ is_end (full_answer st fallen t answer.now) }
{
    match answer {
        Answer::Ended | Answer::Abended(_) => true,
        Answer::NotRun
        | Answer::NoName
        | Answer::At(_)
        | Answer::Rc0
        | Answer::Granted(_)
        | Answer::Rc4
        | Answer::Cell
        | Answer::NoCell
        | Answer::Attached
        | Answer::Done
        | Answer::Data(_)
        | Answer::Subpools
        | Answer::Map => false,
    }
}

// Returns whether a task is the job step task.
fn is_root(root: &Option<Name>, task: &Name) -> bool
    ensures { result ≡ has (same_name task.now) root.now }
{
    match root {
        Some(name) => is_same_name(task, name),
        None => false,
    }
}

// Returns whether a line ends the job step task.
fn ends_root(root: &Option<Name>, line_event: &LineEvent) -> bool
    ensures { (number : ℕ) (walk : WalkValue) → IsAvailable walk line_event.now
        → result ≡ ends_task root.now (events_of_line number walk line_event.now) }
{
    match line_event {
        LineEvent::Answered { task, answer } => is_end(answer) && is_root(root, task),
        LineEvent::Nothing | LineEvent::StepBegan { .. } | LineEvent::Faulted(_) => false,
    }
}

// Returns whether a line can end the step or its job step task without a refusal.
fn may_end(root: &Option<Name>, read: &Line) -> bool
    ensures { result ≡ may_end root.now read.now }
{
    match read {
        Line::Statement(_, Statement::Region { .. }) => true,
        Line::Statement(task, Statement::Request(SourceRequest::Return)) => is_root(root, task),
        Line::Statement(
            _,
            Statement::Request(_)
            | Statement::Where(_)
            | Statement::ReportSubpools
            | Statement::ReportMap,
        )
        | Line::Nothing => false,
    }
}

impl Account {
    /// Makes the account before the first step. It allocates no memory.
    pub(crate) fn new(alloc: Global) -> Account
        ensures { IsLedger result no_step }
    {
        Account {
            root: None,
            history: AreaHistory::new(alloc),
            pools: no_pools(),
            is_over: false,
            found: Leftovers::none(),
        }
    }

    // Finds what is left in a step, if the job step task runs.
    fn settle_step(&mut self, job: &Job)
        ensures kept { KeepsAccount self.old self.new }
        ensures found { IsSettled self.new (Some job.now) }
    {
        if self.is_over {
            return;
        }
        self.found.areas = self.history.survey(&Selection::All, job);
        self.found.pools.clear();
        push_pools_left(&mut self.found.pools, self.pools.as_slice(), job);
    }

    /// Finds what is left in the step that runs, if its job step task does.
    pub(crate) fn settle(&mut self, walk: &Walk)
        ensures kept { KeepsAccount self.old self.new }
        ensures found { IsSettled self.new walk.now.step }
    {
        match walk.job() {
            Some(job) => self.settle_step(job),
            None if !self.is_over => self.found.clear(),
            None => {}
        }
    }

    /// Looks at the next line, which is parsed.
    pub(crate) fn look(&mut self, walk: &Walk)
        ensures { IsLooked self.old walk.now.step walk.now.read self.new }
    {
        if may_end(&self.root, walk.read()) {
            self.settle(walk);
        }
    }

    /// Observes that a request is refused.
    pub(crate) fn refused(&mut self, job: &Job, task: &Name, request: &Request, refusal: Refusal)
        ensures { IsObserved self.old job.now task.now request.now refusal self.new }
    {
        if !is_root(&self.root, task) {
            return;
        }
        if let Consequence::Abend(_) = reply_to(request, refusal) {
            self.settle_step(job);
        }
    }

    // Begins a step.
    fn begin(&mut self, task: Name)
        ensures root { self.new.root ≡ Some task }
        ensures history { self.new.history ≡ [] }
        ensures pools { self.new.pools ≡ [] }
        ensures is_over { self.new.is_over ≡ false }
        ensures found { self.new.found ≡ self.old.found }
    {
        self.root = Some(task);
        self.history.clear();
        self.pools.clear();
        self.is_over = false;
    }

    /// Records what a line did: the areas that it was granted, the pool that it built, and whether it ends the job step task or
    /// begins a step.
    pub(crate) fn keep(
        &mut self,
        number: u32,
        walk: &Walk,
        line_event: &LineEvent,
    ) -> Result<(), OutOfMemory>
        requires { IsAvailable walk.now line_event.now }
        ensures ok { OnOk result
            (IsKept self.old number walk.now.read (events_of_line number walk.now line_event.now)
            walk.now.step self.new) }
        ensures err { OnErr result
            (granted_by number walk.now.read (events_of_line number walk.now line_event.now)
            walk.now.step ≢ []) }
    {
        if let LineEvent::StepBegan { card, .. } = line_event {
            self.begin(card.name());
            return Ok(());
        }
        push_granted(&mut self.history, number, walk.read(), walk, line_event)?;
        keep_built(&mut self.pools, number, walk.read(), walk, line_event);
        self.is_over = self.is_over || ends_root(&self.root, line_event);
        Ok(())
    }
}
