//! The active tasks and their subpools.

ghost use Rattle.std.specs.Prelude.{◌≡◌, ◌≢◌, ◌<◌, ◌≤◌, ◌↔◌, ℕ, nat_le, true, false, not, is_some, IfSome, IfOk, IfErr, OnOk, OnErr, MatchOption, Some, None, [], length, slice_index_or};
ghost use Rattle.std.specs.List.{Contains};
ghost use Rattle.std.specs.List.Sorted.{IsStrictlySortedBy};
ghost use Rattle.std.specs.Ordering.{nat_cmp};
ghost use Rattle.std.specs.FinMap.{get, len};
ghost use Rattle.mvs_model.specs.Finite.{has, kept};
ghost use Rattle.mvs_model.specs.Gifts.{gives};
ghost use Rattle.mvs_model.specs.Consistent.{OwnersConsistent};
ghost use Rattle.mvs_model.specs.Numbers.{most_subpools, most_tasks, subpool_numbers, task_numbers};
ghost use Rattle.mvs_model.specs.Owners.{entry, effective_task, subpool_meant, is_active, has_subtask, owns, IsMother, IsSpare, Binds, AreDescendants, is_among_ended, ends_with, Ends, Attach, gives_shared};
ghost use Rattle.mvs_model.specs.Causes.{Passed, Refused, attach_causes};
ghost use Rattle.mvs_model.specs.declared.name.Name.{Name as TheName};
ghost use Rattle.mvs_model.specs.Start.{first_owners};
ghost use Rattle.task_owner.specs.Handing.{GetsEntry, SharesBelow, Admits};
ghost use Rattle.mvs_model.specs.NextName.{IsNextName};
ghost use Rattle.mvs_model.specs.NextOwned.{IsNextOwned};
ghost use Rattle.task_owner.specs.Tasks.{name_at, IsTask, mother_of, name_of, residence_of};

use crate::copying::copy_active;
use crate::family::{remove_alone, remove_family};
use crate::freed::free_subpools;
use crate::handing::{hand_over, pass_on};
use crate::task_slot::{
    Owned, SLOTS, TaskSlot, enter, find_child, find_first, find_key, find_next, first_owned,
    first_spare, no_owners, seat_at,
};
use mvs_model::error::OutOfMemory;
use mvs_model::gifts::Gifts;
use mvs_model::name::Name;
use mvs_model::numbers::{MOST_SUBPOOLS, MOST_TASKS};
use mvs_model::refusal::Refusal;
use mvs_model::request::Fallen;
use mvs_model::subpool::{SubNo, SubpoolId};
use mvs_model::subpool_set::SubpoolSet;
use mvs_model::want::Residence;
use slab::Slab;
use std::alloc::Global;
use std::marker::Model;

/// An active task. It refers to the same task until that task ends.
#[derive(Clone, Copy, Debug, PartialEq, Eq)]
pub struct TaskId {
    key: usize,
}

impl Model for TaskId {
    ghost use Rattle.std.specs.Prelude.{ℕ};

    ghost Value = { ℕ };

    ghost view = { λ t. t.key };

    ghost inverse = { λ n. record { key = n } };
}

/// The active tasks, at most 32, and their subpools.
#[derive(Drop)]
pub struct Tasks {
    active: Slab<TaskSlot>,
    owned: Vec<Option<Owned>>,
}

impl Model for Tasks {
    ghost use Rattle.std.specs.Prelude.{◌≡◌, ◌≤◌, length};
    ghost use Rattle.mvs_model.specs.Numbers.{most_subpools, most_tasks};
    ghost use Rattle.slab.specs.Slab.{slab_len};
    ghost use Rattle.task_owner.specs.Tasks.{TasksValue, tasks_code};

    ghost Value = { TasksValue };

    ghost coded = { tasks_code };

    ghost use Rattle.task_owner.specs.Seats.{directory, IsSound};

    ghost view = { λ t. directory t.active.slots t.owned.items };

    ghost invariant = { λ t. IsSound t.active.slots t.owned.items × (length t.owned.items ≡ most_subpools) × (slab_len t.active ≤ most_tasks) × (most_tasks ≤ t.active.capacity) };
}

/// What is removed with a task that ends.
#[derive(Drop)]
pub struct Gone {
    /// Its descendants, in byte order of their names (the order is this project's choice).
    pub fallen: Fallen,
    /// The subpools that it and its descendants owned.
    pub freed: SubpoolSet,
}

impl Tasks {
    /// Makes the job step task, which has no subpool yet, with space for 32 tasks (this limit is this project's choice). No later
    /// call allocates memory.
    pub fn new(alloc: Global, name: Name, residence: Residence) -> Result<Tasks, OutOfMemory>
        ensures { IfOk result (λ d. d.owners ≡ first_owners name residence) }
    {
        let mut active = Slab::with_capacity(alloc, MOST_TASKS).map_err(|_| OutOfMemory)?;
        let owned = no_owners(alloc).map_err(|_| OutOfMemory)?;
        active.insert_reserved(TaskSlot {
            name,
            mother: None,
            residence,
            numbers: [None; SLOTS],
        });
        Ok(Tasks { active, owned })
    }

    /// Returns the active task of this name.
    pub fn find(&self, name: &Name) -> Option<TaskId>
        ensures active { is_some result ≡ is_active self.now.owners name.now }
        ensures named { IfSome result (λ id. name_at self.now id ≡ Some name.now) }
        ensures kept { OwnersConsistent self.now.owners }
    {
        let key = find_key(&self.active, *name)?;
        Some(TaskId { key })
    }

    /// Returns the active task of a name.
    pub fn task_of(&self, name: Name) -> TaskId
        requires { is_active self.now.owners name ≡ true }
        ensures { name_at self.now result ≡ Some name }
    {
        let Some(t) = self.find(&name) else {
            unreachable!();
        };
        t
    }

    /// Returns whether the task has a subtask that is active.
    pub fn has_active_subtasks(&self, t: TaskId) -> bool
        requires { IsTask self.now t }
        ensures { result ≡ has_subtask self.now.owners (name_of self.now t) }
    {
        self.subtask(t).is_some()
    }

    /// Returns an active subtask of the task.
    pub fn subtask(&self, t: TaskId) -> Option<Name>
        requires { IsTask self.now t }
        ensures active { is_some result ≡ has_subtask self.now.owners (name_of self.now t) }
        ensures subtask { IfSome result
            (λ x. IsMother self.now.owners (name_of self.now t) x) }
    {
        find_child(&self.active, t.key)
    }

    /// Returns where the task's program resides (Assembler Services Reference, GETMAIN, LOC=RES).
    pub fn residence(&self, t: TaskId) -> Residence
        requires { IsTask self.now t }
        ensures { residence_of self.now.owners (name_of self.now t) ≡ Some result }
    {
        seat_at(&self.active, t.key).residence
    }

    /// Returns the name of the task that attached the task. The job step task has none.
    pub fn mother(&self, t: TaskId) -> Option<Name>
        requires { IsTask self.now t }
        ensures { mother_of self.now.owners (name_of self.now t) ≡ Some result }
    {
        let mother = seat_at(&self.active, t.key).mother?;
        Some(seat_at(&self.active, mother).name)
    }

    // Returns the task whose subpool a task means by a number: the job step task for 131 and 132, and else the task itself.
    fn effective_task(&self, t: TaskId, number: SubNo) -> TaskId
        requires { IsTask self.now t }
        ensures { name_at self.now result
            ≡ Some (effective_task self.now.owners (name_of self.now t) number) }
    {
        match self.common_keeper(number) {
            Some(first) => first,
            None => t,
        }
    }

    /// Returns the name of the task whose subpool a task means by a number.
    pub fn keeper_name(&self, t: TaskId, number: SubNo) -> Name
        requires { IsTask self.now t }
        ensures { result ≡ effective_task self.now.owners (name_of self.now t) number }
    {
        seat_at(&self.active, self.effective_task(t, number).key).name
    }

    // Returns the job step task, where each task means its subpool by the number.
    fn common_keeper(&self, number: SubNo) -> Option<TaskId>
        ensures { MatchOption result ((t : TheName) → effective_task self.now.owners t number ≡ t)
            (λ id. (t : TheName) → name_at self.now id ≡ Some (effective_task self.now.owners t number)) }
    {
        if !number.is_of_step() {
            return None;
        }
        let key = find_first(&self.active)?;
        Some(TaskId { key })
    }

    /// Returns the subpool that the task has under the number, its own or one that it shares (Assembler Services Guide, owning and
    /// sharing subpools).
    pub fn entry(&self, t: TaskId, number: SubNo) -> Option<SubpoolId>
        requires { IsTask self.now t }
        ensures { result ≡ entry self.now.owners (name_of self.now t) number }
    {
        seat_at(&self.active, t.key).numbers[number.get() as usize]
    }

    /// Returns the subpools that the task has, its own and those that it shares, each at the place of its number.
    pub fn entries(&self, t: TaskId) -> &[Option<SubpoolId>]
        requires { IsTask self.now t }
        ensures len { length result.now ≡ subpool_numbers }
        ensures entries { (n : ℕ) → n < subpool_numbers
            → slice_index_or result.now n None ≡ entry self.now.owners (name_of self.now t) n }
    {
        &seat_at(&self.active, t.key).numbers
    }

    /// Returns the subpool that the task means by the number: that of the job step task for 131 and 132, and else its own (this
    /// project's choice).
    pub fn subpool(&self, t: TaskId, number: SubNo) -> Option<SubpoolId>
        requires { IsTask self.now t }
        ensures { result ≡ subpool_meant self.now.owners (name_of self.now t) number }
    {
        self.entry(self.effective_task(t, number), number)
    }

    /// Returns whether the task has a subpool under the number and owns it.
    pub fn owns(&self, t: TaskId, number: SubNo) -> bool
        requires { IsTask self.now t }
        ensures { result
            ≡ has (owns self.now.owners (name_of self.now t))
            (entry self.now.owners (name_of self.now t) number) }
    {
        match self.entry(t, number) {
            Some(subpool) => self.is_owner(t, subpool),
            None => false,
        }
    }

    // Returns whether the task owns the subpool.
    fn is_owner(&self, t: TaskId, subpool: SubpoolId) -> bool
        requires { IsTask self.now t }
        ensures { result ≡ owns self.now.owners (name_of self.now t) subpool }
    {
        match self.owned[subpool.get() as usize] {
            Some(owned) => owned.owner == t.key,
            None => false,
        }
    }

    /// Returns the lowest subpool that no task owns, for a number by which the task means none. That it is the lowest is this
    /// project's choice.
    pub fn spare(&self, t: TaskId, number: SubNo) -> SubpoolId
        requires active { IsTask self.now t }
        requires none { subpool_meant self.now.owners (name_of self.now t) number ≡ None }
        ensures { IsSpare self.now.owners result }
    {
        let _number = number.get();
        // Where the length is known the compiler unrolls the loop.
        SubpoolId::new(first_spare(&self.owned.as_slice()[..MOST_SUBPOOLS]) as u16)
    }

    /// Enters a subpool that no task owns under a number by which the task means none; the number's keeper then has it
    /// and owns it.
    pub fn bind(&mut self, t: TaskId, number: SubNo, subpool: SubpoolId)
        requires active { IsTask self.old t }
        requires none { subpool_meant self.old.owners (name_of self.old t) number ≡ None }
        requires spare { get self.old.owners.owner subpool ≡ None }
        ensures binds { Binds self.old.owners (effective_task self.old.owners (name_of self.old t) number)
            number subpool self.new.owners }
        ensures names { (id : ℕ) → name_at self.new id ≡ name_at self.old id }
    {
        let effective_task = self.effective_task(t, number);
        let number = number.get();
        enter(
            &mut self.active,
            effective_task.key,
            number as usize,
            subpool,
        );
        self.owned[subpool.get() as usize] = Some(Owned {
            owner: effective_task.key,
            number,
        });
    }

    /// Attaches a subtask (Assembler Services Reference, ATTACH, GSPV and SHSPV). The mother first gets a subpool under
    /// each number that she shares and does not have; a number that she gives and does not have is passed over. Refused
    /// are, in this order, a name that is active, a task beyond 32, and the gift of a subpool that the mother does not own.
    /// The refusals and what becomes of missing numbers are this project's choice.
    pub fn attach(
        &mut self,
        mother: TaskId,
        name: &Name,
        gifts: &Gifts,
        residence: Residence,
    ) -> Result<TaskId, Refusal>
        requires { IsTask self.old mother }
        ensures attached { OnOk result
            (Attach self.old.owners (name_of self.old mother) name.now gifts.now residence
            self.new.owners) }
        ensures passed { OnOk result
            (Passed
            (attach_causes self.old.owners (name_of self.old mother) name.now gifts.now)) }
        ensures named { IfOk result (λ id. name_at self.new id ≡ Some name.now) }
        ensures fresh { IfOk result (λ id. name_at self.old id ≡ None) }
        ensures others { IfOk result
            (λ id. (k : ℕ) → k ≢ id → name_at self.new k ≡ name_at self.old k) }

        ensures refused { IfErr result
            (Refused
            (attach_causes self.old.owners (name_of self.old mother) name.now gifts.now)) }
        ensures unchanged { OnErr result (self.new ≡ self.old) }
    {
        if let Some(refusal) = self.refusal(mother, name, gifts) {
            return Err(refusal);
        }
        self.enter_shared(mother, gifts);
        Ok(self.admit(mother, name, gifts, residence))
    }

    // Returns why an ATTACH is refused, if it is.
    fn refusal(&self, mother: TaskId, name: &Name, gifts: &Gifts) -> Option<Refusal>
        requires { IsTask self.now mother }
        ensures { let causes = attach_causes self.now.owners (name_of self.now mother) name.now
            gifts.now in
            MatchOption result (Passed causes) (Refused causes) }
    {
        if self.find(name).is_some() {
            return Some(Refusal::TaskInUse);
        }
        if self.is_full() {
            return Some(Refusal::TooManyTasks);
        }
        if self.shared_gift(mother, gifts).is_some() {
            return Some(Refusal::NotOwned);
        }
        None
    }

    /// Returns whether no more tasks can be active.
    pub fn is_full(&self) -> bool
        ensures { result ≡ nat_le most_tasks (len self.now.owners.tasks) }
    {
        self.active.len() >= MOST_TASKS
    }

    /// Returns a number that the task gives, under which it has a subpool that it does not own.
    pub fn shared_gift(&self, mother: TaskId, gifts: &Gifts) -> Option<SubNo>
        requires { IsTask self.now mother }
        ensures given { is_some result
            ≡ gives_shared self.now.owners (name_of self.now mother) gifts.now }
        ensures gift { IfSome result
            (λ n. (gives gifts.now n ≡ true)
            × (has (λ s. not (owns self.now.owners (name_of self.now mother) s))
            (entry self.now.owners (name_of self.now mother) n)
            ≡ true)) }
    {
        let mut from = 0;
        'given: while let Some(number) = gifts.first_given(from) {
            let shared = SubNo::of(number);
            if self.is_shared(mother, shared) {
                return Some(shared);
            }
            from = number + 1;
        }
        None
    }

    // Returns whether the task has a subpool under the number and does not own it.
    fn is_shared(&self, t: TaskId, number: SubNo) -> bool
        requires { IsTask self.now t }
        ensures { result
            ≡ has (λ s. not (owns self.now.owners (name_of self.now t) s))
            (entry self.now.owners (name_of self.now t) number) }
    {
        match self.entry(t, number) {
            Some(subpool) => !self.is_owner(t, subpool),
            None => false,
        }
    }

    // Gives the task a subpool under a number that each task has for itself, if it has none.
    fn enter_one(&mut self, t: TaskId, number: SubNo)
        requires active { IsTask self.old t }
        requires low { number < task_numbers }
        ensures entered { GetsEntry self.old.owners (name_of self.old t) number self.new.owners }
        ensures names { (id : ℕ) → name_at self.new id ≡ name_at self.old id }
    {
        match self.subpool(t, number) {
            Some(_) => {}
            None => {
                let subpool = self.spare(t, number);
                self.bind(t, number, subpool);
            }
        }
    }

    // Gives the mother a subpool under each number that she shares and does not have, in rising order.
    fn enter_shared(&mut self, mother: TaskId, gifts: &Gifts)
        requires { IsTask self.old mother }
        ensures { SharesBelow self.old mother gifts.now task_numbers self.new }
    {
        let mut from = 0;
        'shared: while let Some(number) = gifts.first_shared(from) {
            self.enter_one(mother, SubNo::of(number));
            from = number + 1;
        }
    }

    // Makes the name that of an active task, and hands over what the mother gives and shares.
    fn admit(&mut self, mother: TaskId, name: &Name, gifts: &Gifts, residence: Residence) -> TaskId
        requires active { IsTask self.old mother }
        requires new { is_active self.old.owners name.now ≡ false }
        requires room { len self.old.owners.tasks < most_tasks }
        requires owned { gives_shared self.old.owners (name_of self.old mother) gifts.now ≡ false }
        ensures admits { Admits self.old.owners (name_of self.old mother) name.now gifts.now
            residence self.new.owners }
        ensures named { name_at self.new result ≡ Some name.now }
        ensures fresh { name_at self.old result ≡ None }
        ensures others { (k : ℕ) → k ≢ result → name_at self.new k ≡ name_at self.old k }
    {
        let subtask = TaskSlot {
            name: *name,
            mother: Some(mother.key),
            residence,
            numbers: hand_over(&mut self.active, mother.key, gifts),
        };
        let key = self.active.vacant_key();
        pass_on(&mut self.owned, &subtask.numbers, mother.key, key, gifts);
        let key = self.active.insert_reserved(subtask);
        TaskId { key }
    }

    /// Ends the task and its descendants: the subpools that they own fall free, and no task has one of these any more
    /// (Assembler Services Guide, owning and sharing subpools).
    pub fn end(&mut self, t: TaskId) -> Gone
        requires { IsTask self.old t }
        ensures fallen { AreDescendants self.old.owners (name_of self.old t) result.fallen }
        ensures ends { Ends self.old.owners (name_of self.old t) result.fallen self.new.owners }
        ensures freed { (s : ℕ)
            → Contains result.freed s
            ↔ (ends_with self.old.owners (name_of self.old t) result.fallen s ≡ true) }
        ensures rising { IsStrictlySortedBy nat_cmp result.freed }
        ensures names { (id : ℕ)
            → name_at self.new id
            ≡ kept (λ x. not (is_among_ended (name_of self.old t) result.fallen x))
            (name_at self.old id) }
    {
        let mut freed = SubpoolSet::empty();
        let names = remove_family(&mut self.active, self.owned.as_slice(), t.key, &mut freed);
        free_subpools(&mut self.active, &mut self.owned, &freed);
        Gone {
            fallen: Fallen::new(names),
            freed,
        }
    }

    /// Ends a task that has no active subtask: the subpools that it owns fall free, and no task has one of these any more. The
    /// result is these subpools.
    pub fn end_alone(&mut self, t: TaskId) -> SubpoolSet
        requires active { IsTask self.old t }
        requires alone { has_subtask self.old.owners (name_of self.old t) ≡ false }
        ensures fallen { AreDescendants self.old.owners (name_of self.old t) [] }
        ensures ends { Ends self.old.owners (name_of self.old t) [] self.new.owners }
        ensures freed { (s : ℕ)
            → Contains result s ↔ (ends_with self.old.owners (name_of self.old t) [] s ≡ true) }
    {
        let mut freed = SubpoolSet::empty();
        remove_alone(&mut self.active, self.owned.as_slice(), t.key, &mut freed);
        free_subpools(&mut self.active, &mut self.owned, &freed);
        freed
    }

    /// Returns the number of the subpool, and the name of its owner.
    pub fn label(&self, subpool: SubpoolId) -> Option<(SubNo, Name)>
        ensures label { MatchOption result (get self.now.owners.owner subpool ≡ None)
            (λ r. (get self.now.owners.owner subpool ≡ Some r.1)
            × (entry self.now.owners r.1 r.0 ≡ Some subpool)) }
        ensures kept { OwnersConsistent self.now.owners }
    {
        let owned = self.owned[subpool.get() as usize]?;
        Some((
            SubNo::of(owned.number),
            seat_at(&self.active, owned.owner).name,
        ))
    }

    /// Returns the name of the first task in byte order after the given one, or of the first of all where none is given.
    pub fn next_task(&self, given: &Option<Name>) -> Option<Name>
        ensures { IsNextName (get self.now.owners.tasks) given.now result }
    {
        find_next(&self.active, given)
    }

    /// Returns the first subpool from a number on that a task owns.
    pub fn next_owned(&self, from: u16) -> Option<SubpoolId>
        requires { from ≤ most_subpools }
        ensures { IsNextOwned self.now.owners from result }
    {
        let first = first_owned(&self.owned, usize::from(from))?;
        Some(SubpoolId::new(first as u16))
    }

    /// Returns a copy, in which each `TaskId` refers to the same task. It fails if memory is exhausted.
    pub fn try_clone(&self) -> Result<Tasks, OutOfMemory>
        ensures { IfOk result (λ copy. copy ≡ self.now) }
    {
        let active = copy_active(&self.active)?;
        let owned = Vec::from_slice(*self.owned.allocator(), &self.owned).map_err(|_| OutOfMemory)?;
        Ok(Tasks { active, owned })
    }
}
