//! What the history of a step says of a line.

ghost use Rattle.std.specs.Prelude.{◌≡◌, ◌/◌, [], option_map};
ghost use Rattle.area_history.specs.Histories.{address_history, address_of, area_fate, found_in, is_short, later_two, nothing_found, side_of, sought};
ghost use Rattle.area_history.specs.Leaking.{summary};

use crate::events::{StorageEvent, StorageEvents};
use crate::grant::{AreaGrant, Selection};
use crate::history::AreaHistory;
use crate::largest::Leaks;
use mvs_model::place::Addr;
use mvs_model::reason::Reason;
use mvs_model::request::Request;
use mvs_model::want::Loc;

/// The last two areas that have a doubleword.
#[derive(Clone, Copy, Debug, PartialEq, Eq)]
pub struct LastTwo {
    pub previous: Option<AreaGrant>,
    pub latest: Option<AreaGrant>,
}

/// An area, and what freed a doubleword of it, if something did.
#[derive(Clone, Copy, Debug, PartialEq, Eq)]
pub struct AreaFate {
    pub grant: AreaGrant,
    pub freed: Option<StorageEvent>,
}

/// The history of an address: the last area that had it, and the one before.
#[derive(Clone, Copy, Debug, PartialEq, Eq)]
pub struct AddressHistory {
    pub addr: Addr,
    pub latest: Option<AreaFate>,
    pub previous: Option<AreaFate>,
}

/// What the history says of a line.
#[derive(Drop)]
pub struct Findings {
    /// The history of the address for which its request is refused.
    pub(crate) address: Option<AddressHistory>,
    /// The greatest length that fits with LOC=ANY, if its request lacks storage and its own length fits so.
    pub(crate) anywhere: Option<u32>,
    /// If storage is short: the side on which it is, and the areas there.
    pub(crate) side: Selection,
    pub(crate) held: Leaks,
    /// What stays of the areas of a task that ended.
    pub(crate) stays: Leaks,
}

// Returns an area and what freed a doubleword of it.
fn fate_of(events: &mut StorageEvents, doubleword: u32, grant: &AreaGrant) -> AreaFate
    ensures fate { result ≡ area_fate doubleword events.old grant.now }
    ensures kept { events.new ≡ events.old }
{
    AreaFate {
        grant: *grant,
        freed: events.fate(doubleword, grant),
    }
}

// Returns this of an area, if there is one.
fn fate_of_some(
    events: &mut StorageEvents,
    doubleword: u32,
    grant: &Option<AreaGrant>,
) -> Option<AreaFate>
    ensures fate { result ≡ option_map (area_fate doubleword events.old) grant.now }
    ensures kept { events.new ≡ events.old }
{
    match grant {
        Some(grant) => Some(fate_of(events, doubleword, grant)),
        None => None,
    }
}

/// Returns the history of an address.
pub(crate) fn address_history(
    areas: &mut AreaHistory,
    events: &mut StorageEvents,
    addr: Addr,
) -> AddressHistory
    ensures history { result
        ≡ address_history (record { grants = areas.old; events = events.old }) addr }
    ensures kept { areas.new ≡ areas.old }
    ensures events { events.new ≡ events.old }
{
    let doubleword = addr.get() / 8;
    let two = areas.last_two(doubleword);
    AddressHistory {
        addr,
        latest: fate_of_some(events, doubleword, &two.latest),
        previous: fate_of_some(events, doubleword, &two.previous),
    }
}

/// Returns the address of a reason that is not held, or not as it should be.
pub(crate) fn address_of(reason: &Reason) -> Option<Addr>
    ensures { result ≡ address_of reason.now }
{
    match reason {
        Reason::NotHeld(addr, ..) | Reason::NoAccess(addr, _) => Some(*addr),
        Reason::NotActive
        | Reason::InvalidNumber
        | Reason::Shortage(_)
        | Reason::NoMember(..)
        | Reason::NoPart(..)
        | Reason::OffDoubleword(_)
        | Reason::NoSubpool(_)
        | Reason::Overlap(..)
        | Reason::WholeOfZero
        | Reason::PoolInUse
        | Reason::TooManyPools
        | Reason::NoPool
        | Reason::NoFreeCell
        | Reason::NoTakenCell(_)
        | Reason::TaskInUse
        | Reason::TooManyTasks
        | Reason::NotOwned(..)
        | Reason::ActiveSubtask(_)
        | Reason::Asked => None,
    }
}

/// Returns whether storage is short.
pub(crate) fn is_short(reason: &Reason) -> bool
    ensures { result ≡ is_short reason.now }
{
    match reason {
        Reason::Shortage(_) | Reason::NoMember(..) | Reason::NoPart(..) => true,
        Reason::NotActive
        | Reason::InvalidNumber
        | Reason::OffDoubleword(_)
        | Reason::NoSubpool(_)
        | Reason::NotHeld(..)
        | Reason::Overlap(..)
        | Reason::WholeOfZero
        | Reason::PoolInUse
        | Reason::TooManyPools
        | Reason::NoPool
        | Reason::NoFreeCell
        | Reason::NoTakenCell(_)
        | Reason::TaskInUse
        | Reason::TooManyTasks
        | Reason::NotOwned(..)
        | Reason::ActiveSubtask(_)
        | Reason::Asked
        | Reason::NoAccess(..) => false,
    }
}

// Returns the areas on the side where a location finds storage.
fn side_of(loc: Loc) -> Selection
    ensures { result ≡ side_of loc }
{
    match loc {
        Loc::Below => Selection::Below,
        Loc::Any | Loc::Res => Selection::All,
    }
}

/// Returns the areas on the side where a request finds storage.
pub(crate) fn sought(request: &Request) -> Selection
    ensures { result ≡ sought request.now }
{
    match request {
        Request::Obtain { ask, .. } => side_of(ask.loc()),
        Request::ObtainList { .. } => Selection::Below,
        Request::Build { loc, .. } => side_of(*loc),
        Request::Release { .. }
        | Request::ReleaseList { .. }
        | Request::ReleaseWhole { .. }
        | Request::Get { .. }
        | Request::Free { .. }
        | Request::Delete { .. }
        | Request::Attach { .. }
        | Request::Return
        | Request::Abend(_)
        | Request::Show { .. }
        | Request::Put { .. }
        | Request::Move { .. } => Selection::All,
    }
}

impl Findings {
    /// Makes empty findings: the history shows nothing about the line.
    pub(crate) fn none() -> Findings
        ensures found { found_in result ≡ nothing_found }
        ensures stays { result.stays ≡ summary [] }
    {
        Findings {
            address: None,
            anywhere: None,
            side: Selection::All,
            held: Leaks::none(),
            stays: Leaks::none(),
        }
    }

    /// Forgets what was found of a refusal. If nothing was, it writes little: an address and a side are long.
    pub(crate) fn clear(&mut self)
        ensures { found_in self.new ≡ nothing_found }
    {
        if self.address.is_some() {
            self.address = None;
        }
        self.anywhere = None;
        if !self.side.is_all() {
            self.side = Selection::All;
        }
        self.held.clear();
    }
}
