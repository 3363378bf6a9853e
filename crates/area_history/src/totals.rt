//! Totals of areas by subpool, and by task.

ghost use Rattle.std.specs.Prelude.{◌≡◌, ◌<◌, ◌≤◌, ◌+◌, ◌^◌, ◌↔◌, ◌++◌, ◌∷◌, [], IsTrue, false, length, take, true};
ghost use Rattle.area_history.specs.Totals.{HaveRoom, added, group_of_subpool, group_of_task, grown, new_total, same_group};

use crate::grant::AreaGrant;
use crate::largest::MOST_LINES;
use line_text::is_same_name;
use mvs_model::name::Name;
use mvs_model::subpool::SubNo;
use std::marker::Model;

/// What areas have in common: their subpool, or the task that obtained them.
#[derive(Clone, Copy, Debug, PartialEq, Eq)]
pub enum Group {
    /// The number under which its owner had the subpool, and the owner.
    Subpool(SubNo, Name),
    Task(Name),
}

/// The areas of a group: how many there are, and how many bytes of them are left.
#[derive(Clone, Copy, Debug, PartialEq, Eq)]
pub struct Total {
    pub group: Group,
    pub count: usize,
    pub bytes: u128,
}

/// The totals of the first ten groups, in an array. Array elements after them are not part of the value.
#[derive(Drop)]
pub(crate) struct Totals {
    items: [Total; MOST_LINES],
    len: usize,
}

impl Model for Totals {
    ghost use Rattle.std.specs.Prelude.{List, take, ◌≤◌};
    ghost use Rattle.area_history.specs.declared.totals.Total.{Total};

    ghost Value = { List Total };

    ghost view = { λ t. take t.len t.items };

    ghost invariant = { λ t. t.len ≤ 10 };
}

impl Group {
    /// Returns the subpool of an area.
    pub(crate) fn of_subpool(grant: &AreaGrant) -> Group
        ensures { result ≡ group_of_subpool grant.now }
    {
        Group::Subpool(grant.subpool, grant.owner)
    }

    /// Returns the task that obtained an area.
    pub(crate) fn of_task(grant: &AreaGrant) -> Group
        ensures { result ≡ group_of_task grant.now }
    {
        Group::Task(grant.task)
    }

    // Returns whether two groups are the same.
    fn is_same(&self, other: &Group) -> bool
        ensures { result ≡ same_group self.now other.now }
    {
        match self {
            Group::Subpool(number, owner) => match other {
                Group::Subpool(of_other, other) => {
                    number.get() == of_other.get() && is_same_name(owner, other)
                }
                Group::Task(_) => false,
            },
            Group::Task(task) => match other {
                Group::Subpool(..) => false,
                Group::Task(other) => is_same_name(task, other),
            },
        }
    }
}

impl Total {
    // Adds an area.
    fn grow(&mut self, bytes: u32)
        requires few { self.old.count + 1 < 2 ^ 64 }
        requires most { self.old.bytes + bytes < 2 ^ 128 }
        ensures { self.new ≡ grown self.old bytes }
    {
        self.count += 1;
        self.bytes += u128::from(bytes);
    }
}

// Returns the total of one area.
fn new_total(group: &Group, bytes: u32) -> Total
    ensures { result ≡ new_total group.now bytes }
{
    Total {
        group: *group,
        count: 1,
        bytes: u128::from(bytes),
    }
}

// Adds an area to the total of its group, if there is one. Returns whether there is.
fn add_to(totals: &mut [Total], group: &Group, bytes: u32) -> bool
    requires { HaveRoom bytes totals.old }
    ensures len { length totals.new ≡ length totals.old }
    ensures added { result ≡ true → totals.new ≡ added group.now bytes totals.old }
    ensures same { result ≡ false → totals.new ≡ totals.old }
    ensures none { result ≡ false
        → added group.now bytes totals.old ≡ totals.old ++ new_total group.now bytes ∷ [] }
{
    let Some((first, others)) = totals.split_first_mut() else {
        return false;
    };
    if group.is_same(&first.group) {
        first.grow(bytes);
        return true;
    }
    add_to(others, group, bytes)
}

impl Totals {
    /// Makes an empty list of totals.
    pub(crate) fn none() -> Totals
        ensures { result ≡ [] }
    {
        Totals {
            items: [new_total(&Group::Task(Name::of(b"NONE")), 0); MOST_LINES],
            len: 0,
        }
    }

    /// Returns the totals.
    pub(crate) fn as_slice(&self) -> &[Total]
        ensures items { result.now ≡ self.now }
        ensures most { length result.now ≤ 10 }
    {
        &self.items[..self.len]
    }

    /// Removes all totals.
    pub(crate) fn clear(&mut self)
        ensures { self.new ≡ [] }
    {
        self.len = 0;
    }

    // Returns whether there is no room for another total.
    fn is_full(&self) -> bool
        ensures full { IsTrue result ↔ (length self.now ≡ 10) }
        ensures most { length self.now ≤ 10 }
    {
        self.as_slice().len() == MOST_LINES
    }

    // Appends a total.
    fn put(&mut self, total: Total)
        requires { length self.old < 10 }
        ensures { self.new ≡ self.old ++ total ∷ [] }
    {
        self.items[self.len] = total;
        self.len += 1;
    }

    // Appends a total, if there is room.
    fn push(&mut self, total: Total)
        ensures { self.new ≡ take 10 (self.old ++ total ∷ []) }
    {
        if !self.is_full() {
            self.put(total);
        }
    }

    /// Adds an area to the total of its group. A new group gets a total if there is room.
    pub(crate) fn add(&mut self, group: &Group, bytes: u32)
        requires { HaveRoom bytes self.old }
        ensures { self.new ≡ take 10 (added group.now bytes self.old) }
    {
        if !add_to(&mut self.items[..self.len], group, bytes) {
            self.push(new_total(group, bytes));
        }
    }
}
