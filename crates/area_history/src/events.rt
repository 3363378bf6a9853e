//! What lines of a step did to storage that was obtained before.

ghost use Rattle.std.specs.Prelude.{◌≡◌, ◌≢◌, ◌<◌, ◌≤◌, ◌+◌, ◌++◌, ◌∷◌, [], ℕ, Some, true, length, slice_get, OnErr, OnOk};
ghost use Rattle.mvs_model.specs.Storage.{covers};
ghost use Rattle.area_history.specs.Histories.{all_ended, all_released, attach_of, event_of, fate, ended_at, frees, frees_area, owner_since, owner_after, start_of};
ghost use Rattle.area_history.specs.ReleaseIndex.{AreEarlier, IsAmong, IsAscending, IsReleaseIndex};
ghost use Rattle.area_history.specs.declared.events.StorageEvent.{StorageEvent as TheEvent};

use crate::grant::{AreaGrant, EndedTask, TaskStart};
use crate::release_index::ReleaseIndex;
use line_text::is_same_name;
use mvs_model::error::OutOfMemory;
use mvs_model::gifts::Gifts;
use mvs_model::name::Name;
use mvs_model::place::Place;
use mvs_model::subpool::SubNo;
use std::alloc::Global;
use std::marker::Model;

/// What a line did to storage that was obtained before, or to its subpool.
#[derive(Clone, Copy, Debug, PartialEq, Eq)]
pub enum StorageChange {
    /// A place was released.
    Released(Place),
    /// A subpool was released as a whole: its owner's number for it, and the owner.
    Emptied(SubNo, Name),
    /// A task ended.
    Ended(Name),
    /// A subtask was attached, and given subpools; the number of areas that had been obtained before.
    Attached {
        name: Name,
        gifts: Gifts,
        areas: usize,
    },
}

/// A change, with the line and its task.
#[derive(Clone, Copy, Debug, PartialEq, Eq)]
pub struct StorageEvent {
    pub line: u32,
    pub task: Name,
    pub change: StorageChange,
}

/// The changes of a step, in their order.
#[derive(Drop)]
pub struct StorageEvents {
    events: Vec<StorageEvent>,
    // Whether their lines ascend.
    is_ascending: bool,
    // It has the changes that were made before it was needed last.
    index: ReleaseIndex,
}

impl Model for StorageEvents {
    ghost use Rattle.std.specs.Prelude.{List};
    ghost use Rattle.area_history.specs.declared.events.StorageEvent.{StorageEvent};

    ghost Value = { List StorageEvent };

    ghost use Rattle.std.specs.Prelude.{◌≡◌, true};
    ghost use Rattle.area_history.specs.ReleaseIndex.{IsAscending, IsReleaseIndex};

    ghost view = { λ e. e.events.items };

    ghost invariant = { λ e. (e.is_ascending ≡ true → IsAscending e.events.items) × IsReleaseIndex e.index e.events.items };
}

// Returns whether a place has a byte of a doubleword.
fn covers(place: Place, doubleword: u32) -> bool
    ensures { result ≡ covers place doubleword }
{
    let (first, doubleword) = (u64::from(place.addr().get()), u64::from(doubleword));
    first < 8 * doubleword + 8 && 8 * doubleword < first + u64::from(place.len())
}

impl StorageEvent {
    /// Returns whether it frees a doubleword of an area in a subpool.
    fn frees(&self, doubleword: u32, number: SubNo, owner: &Name) -> bool
        ensures { result ≡ frees doubleword number owner.now self.now }
    {
        match &self.change {
            StorageChange::Released(place) => covers(*place, doubleword),
            StorageChange::Emptied(emptied, other) => {
                emptied.get() == number.get() && is_same_name(other, owner)
            }
            StorageChange::Ended(task) => is_same_name(task, owner),
            StorageChange::Attached { .. } => false,
        }
    }

    /// Returns the owner of a subpool after it.
    fn owner_after(&self, number: SubNo, owner: Name) -> Name
        ensures { result ≡ owner_after number owner self.now }
    {
        match &self.change {
            StorageChange::Attached { name, gifts, .. } => {
                if is_same_name(&self.task, &owner) && gifts.gives(number.get()) {
                    *name
                } else {
                    owner
                }
            }
            StorageChange::Released(_) | StorageChange::Emptied(..) | StorageChange::Ended(_) =>
                owner,
        }
    }

    // Returns whether it is after the line of an area, and frees a doubleword of it.
    fn frees_area(&self, doubleword: u32, grant: &AreaGrant, owner: &Name) -> bool
        ensures { result ≡ frees_area doubleword grant.now owner.now self.now }
    {
        self.line > grant.line && self.frees(doubleword, grant.subpool, owner)
    }

    // Returns the owner of the subpool of an area after it.
    fn owner_since(&self, grant: &AreaGrant, owner: Name) -> Name
        ensures { result ≡ owner_since grant.now owner self.now }
    {
        if self.line > grant.line {
            self.owner_after(grant.subpool, owner)
        } else {
            owner
        }
    }

    // Returns when a task was attached, if it attached that.
    fn attach_of(&self, task: &Name) -> Option<TaskStart>
        ensures { result ≡ attach_of task.now self.now }
    {
        match &self.change {
            StorageChange::Attached { name, areas, .. } => {
                if is_same_name(name, task) {
                    Some(TaskStart {
                        line: self.line,
                        areas: *areas,
                    })
                } else {
                    None
                }
            }
            StorageChange::Released(_) | StorageChange::Emptied(..) | StorageChange::Ended(_) =>
                None,
        }
    }
}

// Returns whether the last change is of a line, or of one before it.
fn ends_by(events: &[StorageEvent], line: u32) -> bool
    ensures { result ≡ true → (i : ℕ) (e : TheEvent) → slice_get events.now i ≡ Some e
        → length events.now ≤ i + 1 → e.line ≤ line }
{
    match events.last() {
        Some(event) => event.line <= line,
        None => true,
    }
}

// Returns whether the lines of changes still ascend with one more, if they do without it.
fn stays_ascending(events: &[StorageEvent], is_ascending: bool, event: &StorageEvent) -> bool
    requires { is_ascending ≡ true → IsAscending events.now }
    ensures { result ≡ true → IsAscending (events.now ++ event.now ∷ []) }
{
    if !is_ascending {
        return false;
    }
    ends_by(events, event.line)
}

// Returns a number before which all changes are of a line, or of lines before it. If lines ascend, no later one is.
fn first_after(events: &[StorageEvent], is_ascending: bool, line: u32) -> usize
    requires { is_ascending ≡ true → IsAscending events.now }
    ensures early { AreEarlier line events.now result }
    ensures within { result ≤ length events.now }
{
    if !is_ascending {
        return 0;
    }
    let mut start = 0;
    let mut end = events.len();
    'halves: while start < end {
        let middle = start + (end - start) / 2;
        if events[middle].line <= line {
            start = middle + 1;
        } else {
            end = middle;
        }
    }
    start
}

// Returns what of some changes frees a doubleword of an area first, if its subpool has this owner.
fn fate_from(
    events: &[StorageEvent],
    doubleword: u32,
    grant: &AreaGrant,
    mut owner: Name,
) -> Option<StorageEvent>
    ensures { result ≡ fate doubleword grant.now owner events.now }
{
    let mut done = 0;
    'events: while done < events.len() {
        let event = &events[done];
        if event.frees_area(doubleword, grant, &owner) {
            return Some(*event);
        }
        owner = event.owner_since(grant, owner);
        done += 1;
    }
    None
}

// Returns what frees a doubleword of an area: one of the changes that concern its subpool, or one at or after an end.
fn fate_among(
    events: &[StorageEvent],
    index: &ReleaseIndex,
    first: usize,
    end: usize,
    doubleword: u32,
    grant: &AreaGrant,
) -> Option<StorageEvent>
    requires index { IsReleaseIndex index.now events.now }
    requires known { (i : ℕ) → first ≤ i → i < end → i < index.now.count }
    requires within { end ≤ length events.now }
    requires among { IsAmong doubleword grant.now grant.now.owner events.now first end }
    ensures { result ≡ fate doubleword grant.now grant.now.owner events.now }
{
    let mut owner = grant.owner;
    let mut from = first;
    'changes: while from < end {
        let number = index.next(&owner, grant.subpool, from);
        if end <= number {
            return fate_from(&events[end..], doubleword, grant, owner);
        }
        let event = &events[number];
        if event.frees_area(doubleword, grant, &owner) {
            return Some(*event);
        }
        owner = event.owner_since(grant, owner);
        from = number + 1;
    }
    fate_from(&events[end..], doubleword, grant, owner)
}

impl StorageEvents {
    /// Makes an empty list of changes. It allocates no memory.
    pub(crate) fn new(alloc: Global) -> StorageEvents
        ensures { result ≡ [] }
    {
        StorageEvents {
            events: Vec::new(alloc),
            is_ascending: true,
            index: ReleaseIndex::new(alloc),
        }
    }

    /// Forgets all.
    pub(crate) fn clear(&mut self)
        ensures { self.new ≡ [] }
    {
        self.events.clear();
        self.is_ascending = true;
        self.index.clear();
    }

    /// Adds a change by a line of a task.
    pub(crate) fn push(
        &mut self,
        line: u32,
        task: &Name,
        change: StorageChange,
    ) -> Result<(), OutOfMemory>
        ensures { OnOk result (self.new ≡ self.old ++ event_of line task.now change ∷ []) }
    {
        let event = StorageEvent {
            line,
            task: *task,
            change,
        };
        let stays = stays_ascending(self.events.as_slice(), self.is_ascending, &event);
        let Ok(()) = self.events.push(event) else {
            return Err(OutOfMemory);
        };
        self.is_ascending = stays;
        Ok(())
    }

    /// Adds the releases of places.
    pub(crate) fn push_released(
        &mut self,
        line: u32,
        task: &Name,
        places: &[Place],
    ) -> Result<(), OutOfMemory>
        ensures ok { OnOk result (self.new ≡ self.old ++ all_released line task.now places.now) }
        ensures err { OnErr result (all_released line task.now places.now ≢ []) }
    {
        let Some((place, places)) = places.split_first() else {
            return Ok(());
        };
        self.push(line, task, StorageChange::Released(*place))?;
        self.push_released(line, task, places)
    }

    /// Adds the ends of tasks.
    pub(crate) fn push_ended(
        &mut self,
        line: u32,
        task: &Name,
        ended: &[Name],
    ) -> Result<(), OutOfMemory>
        ensures ok { OnOk result (self.new ≡ self.old ++ all_ended line task.now ended.now) }
        ensures err { OnErr result (all_ended line task.now ended.now ≢ []) }
    {
        let Some((name, ended)) = ended.split_first() else {
            return Ok(());
        };
        self.push(line, task, StorageChange::Ended(*name))?;
        self.push_ended(line, task, ended)
    }

    /// Returns what freed a doubleword of an area after it was obtained, if something did. It looks at the changes that concern the
    /// subpool of the area. Each change is indexed in one call only, if memory allows.
    pub(crate) fn fate(&mut self, doubleword: u32, grant: &AreaGrant) -> Option<StorageEvent>
        ensures fate { result
            ≡ fate doubleword grant.now grant.now.owner self.old }
        ensures kept { self.new ≡ self.old }
    {
        let events = self.events.as_slice();
        self.index.add_rest(events);
        let first = first_after(events, self.is_ascending, grant.line);
        let end = self.index.quiet_end(doubleword, first);
        fate_among(events, &self.index, first, end, doubleword, grant)
    }

    // Returns when a task was attached last.
    fn start_of(&self, task: &Name) -> TaskStart
        ensures { result ≡ start_of task.now self.now }
    {
        let mut rest = self.events.len();
        'events: while rest > 0 {
            rest -= 1;
            if let Some(start) = self.events[rest].attach_of(task) {
                return start;
            }
        }
        TaskStart { line: 0, areas: 0 }
    }

    /// Returns a task that ended, with when it was attached last.
    pub(crate) fn ended_at(&self, task: &Name) -> EndedTask
        ensures { result ≡ ended_at self.now task.now }
    {
        EndedTask {
            task: *task,
            start: self.start_of(task),
        }
    }
}
