//! Which line set a name last, and which name has an address in its place.

ghost use Rattle.std.specs.Prelude.{◌≡◌, ◌≢◌, ◌<◌, ℕ, [], None, Some, true, OnErr, OnOk};
ghost use Rattle.std.specs.FinMap.{insert};
ghost use Rattle.std.specs.Option.{option_and_then};
ghost use Rattle.mvs_model.specs.Resolving.{names_set};
ghost use Rattle.mvs_model.specs.Storage.{has_address};
ghost use Rattle.line_text.specs.Writing.{Prints};
ghost use Rattle.mvs_job.specs.Granting.{reports_grant};
ghost use Rattle.mvs_job.specs.NameOrder.{said_by};
ghost use Rattle.mvs_job.specs.NamedAddress.{HasLengths, IsNaming, SetsSome, reason_address, lines_before, naming_at, naming_text, no_lines, names_after, set_by};
ghost use Rattle.mvs_job.specs.LineEvents.{IsAvailable, WalkValue, events_of_line};

use crate::job::Job;
use crate::name_order::{drop_former, has_many_former, put_in_order};
use crate::walk::{LineEvent, Walk};
use crate::why::reports_grant;
use explanation::{print_naming, subject_of};
use job_script::names_set;
use mvs_model::error::OutOfMemory;
use mvs_model::line::{Line, SourceRequest, Statement};
use mvs_model::name::Name;
use mvs_model::place::{Addr, Place};
use mvs_model::reason::Reason;
use mvs_model::request::Request;
use mvs_model::watched::{Failed, Watched};
use std::alloc::Global;
use std::collections::HashMap;
use std::io::Write;
use std::marker::Model;

/// A name that has an address in its place, and the number of the line that set it last.
#[derive(Clone, Copy, Debug, PartialEq, Eq)]
pub struct NamedAddress {
    pub addr: Addr,
    pub name: Name,
    /// The place that the name has.
    pub place: Place,
    /// The number of the line.
    pub number: u32,
}

/// The names that were set in a step, each with the number of the line that set it last.
#[derive(Drop)]
pub(crate) struct NameOrigins {
    numbers: HashMap<Name, u32>,
    /// These names and numbers in the order of the numbers, among others that a later line replaced.
    order: Vec<(Name, u32)>,
}

impl Model for NameOrigins {
    ghost use Rattle.std.specs.FinMap as map;
    ghost use Rattle.std.specs.Coded.{coded_ℕ};
    ghost use Rattle.std.specs.Prelude.{ℕ};
    ghost use Rattle.mvs_model.specs.Name.{name_cmp, name_code};
    ghost use Rattle.mvs_job.specs.NameOrder.{HasLatest, IsInOrder};

    ghost Value = { map.FinMap name_cmp ℕ };

    ghost coded = { map.code name_code coded_ℕ };

    ghost view = { λ l. map.from_entries l.numbers.entries };

    ghost invariant = { λ l. IsInOrder l.order.items × HasLatest (map.from_entries l.numbers.entries) l.order.items };
}

/// Returns the address in the reason of a request.
pub(crate) fn reason_address(request: &Request, reason: &Reason) -> Option<Addr>
    ensures { result ≡ reason_address request.now reason.now }
{
    match reason {
        Reason::OffDoubleword(addr)
        | Reason::NotHeld(addr, _, _)
        | Reason::Overlap(_, _, addr)
        | Reason::NoAccess(addr, _) => Some(*addr),
        Reason::NoTakenCell(_) => Some(subject_of(request).cell),
        Reason::NotActive
        | Reason::InvalidNumber
        | Reason::Shortage(_)
        | Reason::NoMember(..)
        | Reason::NoPart(..)
        | Reason::NoSubpool(_)
        | Reason::WholeOfZero
        | Reason::PoolInUse
        | Reason::TooManyPools
        | Reason::NoPool
        | Reason::NoFreeCell
        | Reason::TaskInUse
        | Reason::TooManyTasks
        | Reason::NotOwned(..)
        | Reason::ActiveSubtask(_)
        | Reason::Asked => None,
    }
}

// Returns whether an address is in a place.
fn has_address(place: Place, addr: Addr) -> bool
    ensures { result ≡ has_address place addr }
{
    let (first, addr) = (u64::from(place.addr().get()), u64::from(addr.get()));
    first <= addr && addr < first + u64::from(place.len())
}

// Returns what a name says of an address, if it has it in its place.
fn naming_at(job: &Job, addr: Addr, name: &Name, number: u32) -> Option<NamedAddress>
    ensures { result ≡ naming_at job.now addr (name.now, number) }
{
    let place = job.place_of(name)?;
    if has_address(place, addr) {
        return Some(NamedAddress {
            addr,
            name: *name,
            place,
            number,
        });
    }
    None
}

// Shows that a requested list has a length, as its type says.
fn has_lengths(written: &SourceRequest)
    ensures { HasLengths written.now }
{
    if let SourceRequest::ObtainList { lengths, .. } = written {
        let _ = lengths.as_slice();
    }
}

impl NameOrigins {
    /// Makes the record of a step in which no name was set. It allocates no memory.
    pub(crate) fn new(alloc: Global) -> NameOrigins
        ensures { result ≡ no_lines }
    {
        NameOrigins {
            numbers: HashMap::new(alloc),
            order: Vec::new(alloc),
        }
    }

    // Forgets all names.
    fn clear(&mut self)
        ensures { self.new ≡ no_lines }
    {
        self.numbers.clear();
        self.order.clear();
    }

    /// Forgets all names before the first step of a job.
    pub(crate) fn begin(&mut self, walk: &Walk)
        ensures { self.new ≡ lines_before walk.now.step self.old }
    {
        match walk.job() {
            Some(_) => {}
            None => self.clear(),
        }
    }

    // Forgets the lines of names that a later line set again, if they are many.
    fn forget_former(&mut self)
        ensures { self.new ≡ self.old }
    {
        if !has_many_former(self.order.len(), self.numbers.len()) {
            return;
        }
        drop_former(&mut self.order, &self.numbers);
    }

    // Sets a name by the line of a number.
    fn put(&mut self, name: Name, number: u32) -> Result<(), OutOfMemory>
        ensures { OnOk result (self.new ≡ insert self.old name number) }
    {
        self.forget_former();
        put_in_order(&mut self.order, name, number)?;
        self.numbers.insert(name, number).map_err(|_| OutOfMemory)?;
        Ok(())
    }

    // Sets names by the line of a number, from the left.
    fn put_all(&mut self, names: &[Name], number: u32) -> Result<(), OutOfMemory>
        ensures ok { OnOk result (self.new ≡ set_by number self.old names.now) }
        ensures err { OnErr result (names.now ≢ []) }
    {
        let Some((name, names)) = names.split_first() else {
            return Ok(());
        };
        self.put(*name, number)?;
        self.put_all(names, number)
    }

    /// Records the names that a line with this number, this meaning and these events sets. It allocates memory if the line is a
    /// granted request that sets a name.
    pub(crate) fn keep(
        &mut self,
        number: u32,
        read: &Line,
        line_event: &LineEvent,
    ) -> Result<(), OutOfMemory>
        ensures ok { OnOk result ((walk : WalkValue) → IsAvailable walk line_event.now
            → self.new ≡ names_after number self.old read.now (events_of_line number walk line_event.now)) }
        ensures err { OnErr result (SetsSome read.now
            × ((walk : WalkValue) → IsAvailable walk line_event.now
            → reports_grant (events_of_line number walk line_event.now) ≡ true)) }
    {
        match read {
            Line::Statement(_, Statement::Region { .. }) => {
                self.clear();
                Ok(())
            }
            Line::Statement(_, Statement::Request(written)) => {
                if !reports_grant(line_event) {
                    return Ok(());
                }
                has_lengths(written);
                self.put_all(names_set(written), number)
            }
            Line::Statement(
                _,
                Statement::Where(_) | Statement::ReportSubpools | Statement::ReportMap,
            )
            | Line::Nothing => Ok(()),
        }
    }

    // Returns what a name says of an address, if this line set it last and it has the address in its place.
    fn said_by(&self, job: &Job, addr: Addr, name: &Name, number: u32) -> Option<NamedAddress>
        ensures { result ≡ said_by job.now self.now addr (name.now, number) }
    {
        let latest = *self.numbers.get(name)?;
        if latest == number {
            return naming_at(job, addr, name, number);
        }
        None
    }

    /// Returns the name that was set last, of those in whose places an address is. It looks at the names from the latest one on, up to
    /// that name.
    pub(crate) fn naming(&self, job: &Job, addr: Addr) -> Option<NamedAddress>
        ensures { IsNaming job.now self.now addr result }
    {
        let mut at = self.order.len();
        'names: while at > 0 {
            at -= 1;
            let (name, number) = self.order[at];
            let naming = self.said_by(job, addr, &name, number);
            if naming.is_some() {
                return naming;
            }
        }
        None
    }
}

/// Prints which name has an address in its place, if one has.
pub(crate) fn print_named<W: Write>(
    writer: &mut Watched<W>,
    naming: &Option<NamedAddress>,
) -> Result<(), Failed>
    ensures { Prints W.contents writer.old writer.new result (naming_text naming.now) }
{
    match naming {
        Some(naming) => print_naming(
            writer,
            naming.addr,
            &naming.name,
            naming.place,
            naming.number,
        ),
        None => Ok(()),
    }
}
