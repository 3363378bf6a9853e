//! What a refusal is about, read from the state: a refused request leaves that as it was.

ghost use Rattle.std.specs.Prelude.{◌≡◌, ℕ, true, false, map, MatchOption};
ghost use Rattle.std.specs.List.{list_all};
ghost use Rattle.std.specs.FinMap.{get};
ghost use Rattle.mvs_model.specs.Causes.{IsRefused};
ghost use Rattle.mvs_model.specs.Changes.{Disjoint, Granted};
ghost use Rattle.mvs_model.specs.Reasons.{Explains, FirstDenied, IsDeniedIn, MemberLacks, accessed, number_of, released};
ghost use Rattle.mvs_model.specs.Requests.{all_granted, on_doubleword, whole};
ghost use Rattle.mvs_model.specs.State.{State};
ghost use Rattle.mvs_model.specs.declared.name.Name.{Name as TaskName};
ghost use Rattle.mvs_model.specs.declared.refusal.Refusal.TheVariants.{ActiveSubtask, Member, NoAccess, NoPart, NoSubpool, NoTakenCell, NotHeld, NotOwned, OffDoubleword, Overlap, Shortage};
ghost use Rattle.request_forms.specs.Machine.{IsTask, task_name};
ghost use Rattle.request_forms.specs.Refused.{Concerns, IsFurther};

use crate::holder::first_denied;
use crate::machine::Machine;
use crate::unreleased::{first_off, overlap, unheld_in};
use boundary_loc::side;
use mvs_model::codes::form_side;
use mvs_model::name::Name;
use mvs_model::place::{Addr, Place};
use mvs_model::reason::{Reason, Shortfall};
use mvs_model::refusal::Refusal;
use mvs_model::request::Request;
use mvs_model::subpool::{SubNo, SubpoolId};
use std::slice;
use task_owner::TaskId;

// Returns the number of the subpool that a request names.
fn number_of(request: &Request) -> u8
    ensures { result ≡ number_of request.now }
{
    match request {
        Request::Obtain { number, .. }
        | Request::ObtainList { number, .. }
        | Request::Release { number, .. }
        | Request::ReleaseList { number, .. }
        | Request::ReleaseWhole { number, .. }
        | Request::Build { number, .. } => *number,
        Request::Get { .. }
        | Request::Free { .. }
        | Request::Delete { .. }
        | Request::Attach { .. }
        | Request::Return
        | Request::Abend(_)
        | Request::Show { .. }
        | Request::Put { .. }
        | Request::Move { .. } => 0,
    }
}

// Returns the places that a request releases.
fn released(request: &Request) -> &[Place]
    ensures { result.now ≡ released request.now }
{
    match request {
        Request::Release { place, .. } => slice::from_ref(place),
        Request::ReleaseList { places, .. } => places.as_slice(),
        Request::Obtain { .. }
        | Request::ObtainList { .. }
        | Request::ReleaseWhole { .. }
        | Request::Build { .. }
        | Request::Get { .. }
        | Request::Free { .. }
        | Request::Delete { .. }
        | Request::Attach { .. }
        | Request::Return
        | Request::Abend(_)
        | Request::Show { .. }
        | Request::Put { .. }
        | Request::Move { .. } => &[],
    }
}

// Returns the details of a place that does not begin on a doubleword.
fn off_details(request: &Request) -> Reason
    requires { list_all on_doubleword (released request.now) ≡ false }
    ensures { (st : State) (t : TaskName)
        → Explains st t request.now OffDoubleword result }
{
    match first_off(released(request)) {
        Some(at) => Reason::OffDoubleword(at),
        None => unreachable!(),
    }
}

// Returns the details of two places that overlap.
fn overlap_details(request: &Request) -> Reason
    requires { Disjoint (map whole (released request.now)) → ⊥ }
    ensures { (st : State) (t : TaskName) → Explains st t request.now Overlap result }
{
    match overlap(released(request)) {
        Some(met) => Reason::Overlap(met.one, met.other, met.at),
        None => unreachable!(),
    }
}

impl Machine {
    // Returns the details of an area that has no place.
    fn area_details(&self, t: TaskId, request: &Request) -> Reason
        requires task { IsTask self.now t }
        requires short { Concerns self.now.state (task_name self.now t) request.now Shortage }
        ensures { Explains self.now.state (task_name self.now t) request.now Shortage result }
    {
        let Request::Obtain { form, number, ask } = request else {
            unreachable!();
        };
        let Some(number) = SubNo::new(*number) else {
            unreachable!();
        };
        let residence = self.tasks.residence(t);
        let want = ask.want(form_side(*form, side(ask.loc(), residence)));
        match self.room(self.subpool_for(t, number), &want) {
            Some(room) => Reason::Shortage(room),
            None => unreachable!(),
        }
    }

    // Returns the details of a part of a pool that has no place.
    fn part_details(&self, t: TaskId, request: &Request) -> Reason
        requires task { IsTask self.now t }
        requires short { Concerns self.now.state (task_name self.now t) request.now NoPart }
        ensures { Explains self.now.state (task_name self.now t) request.now NoPart result }
    {
        let Request::Build {
            number,
            size,
            primary,
            loc,
            ..
        } = request
        else {
            return self.further_details(t, request);
        };
        let Some(number) = SubNo::new(*number) else {
            unreachable!();
        };
        let side = side(*loc, self.tasks.residence(t));
        match self.part_room(self.subpool_for(t, number), *size, *primary, side) {
            Some(room) => Reason::NoPart(primary.get(), size.get(), room),
            None => unreachable!(),
        }
    }

    // Returns the details of a further part of a pool.
    fn further_details(&self, t: TaskId, request: &Request) -> Reason
        requires task { IsTask self.now t }
        requires short { Concerns self.now.state (task_name self.now t) request.now NoPart }
        requires further { IsFurther request.now }
        ensures { Explains self.now.state (task_name self.now t) request.now NoPart result }
    {
        let Request::Get { pool, .. } = request else {
            unreachable!();
        };
        let Some(supply) = self.pools.supply(pool) else {
            unreachable!();
        };
        let (cells, size) = (supply.secondary, supply.cell_size);
        match self.part_room(supply.subpool, size, cells, supply.side) {
            Some(room) => Reason::NoPart(cells.get(), size.get(), room),
            None => unreachable!(),
        }
    }

    // Returns the details of a number under which no subpool is meant.
    fn subpool_details(&self, t: TaskId, request: &Request) -> Reason
        requires task { IsTask self.now t }
        requires short { Concerns self.now.state (task_name self.now t) request.now NoSubpool }
        ensures { Explains self.now.state (task_name self.now t) request.now NoSubpool result }
    {
        let Some(number) = SubNo::new(number_of(request)) else {
            unreachable!();
        };
        Reason::NoSubpool(self.tasks.keeper_name(t, number))
    }

    // Returns the name of a subpool's owner.
    fn owner_name(&self, subpool: SubpoolId) -> Option<Name>
        ensures { result ≡ get self.now.state.owners.owner subpool }
    {
        let (_, owner) = self.tasks.label(subpool)?;
        Some(owner)
    }

    // Returns the details of places that the subpool does not hold.
    fn unheld_details(&self, t: TaskId, request: &Request) -> Reason
        requires task { IsTask self.now t }
        requires short { Concerns self.now.state (task_name self.now t) request.now NotHeld }
        ensures { Explains self.now.state (task_name self.now t) request.now NotHeld result }
    {
        let Some(number) = SubNo::new(number_of(request)) else {
            unreachable!();
        };
        let Some(subpool) = self.tasks.subpool(t, number) else {
            unreachable!();
        };
        match unheld_in(&self.store, &self.pools, subpool, released(request)) {
            Some(at) => Reason::NotHeld(at, self.holder(at), self.owner_name(subpool)),
            None => unreachable!(),
        }
    }

    // Returns the details of an address at which no taken cell begins.
    fn cell_details(&self, t: TaskId, request: &Request) -> Reason
        requires task { IsTask self.now t }
        requires short { Concerns self.now.state (task_name self.now t) request.now NoTakenCell }
        ensures { Explains self.now.state (task_name self.now t) request.now NoTakenCell result }
    {
        let Request::Free { pool, cell } = request else {
            unreachable!();
        };
        Reason::NoTakenCell(self.pools.spot(&self.store, pool, *cell))
    }

    // Returns the details of a number that is given whose subpool another task owns.
    fn gift_details(&self, t: TaskId, request: &Request) -> Reason
        requires task { IsTask self.now t }
        requires short { Concerns self.now.state (task_name self.now t) request.now NotOwned }
        ensures { Explains self.now.state (task_name self.now t) request.now NotOwned result }
    {
        let Request::Attach { gifts, .. } = request else {
            unreachable!();
        };
        let Some(number) = self.tasks.shared_gift(t, gifts) else {
            unreachable!();
        };
        let Some(subpool) = self.tasks.entry(t, number) else {
            unreachable!();
        };
        match self.tasks.label(subpool) {
            Some((_, owner)) => Reason::NotOwned(number, owner),
            None => unreachable!(),
        }
    }

    // Returns the details of a subtask that is active.
    fn subtask_details(&self, t: TaskId, request: &Request) -> Reason
        requires task { IsTask self.now t }
        requires short { Concerns self.now.state (task_name self.now t) request.now ActiveSubtask }
        ensures { Explains self.now.state (task_name self.now t) request.now ActiveSubtask result }
    {
        match self.tasks.subtask(t) {
            Some(subtask) => Reason::ActiveSubtask(subtask),
            None => unreachable!(),
        }
    }

    // Returns the address of the first byte that a request may not read or write, in the order in which its places are looked at.
    fn denied(&self, request: &Request) -> Option<Addr>
        ensures { MatchOption result (list_all (all_granted self.now.state) (accessed request.now) ≡ true)
            (FirstDenied self.now.state (accessed request.now)) }
    {
        match request {
            Request::Show { from, len } => self.denied_in(Place::new(*from, len.get())),
            Request::Put { to, bytes } => self.denied_in(Place::new(*to, bytes.len() as u32)),
            Request::Move { to, from, len } => {
                let denied = self.denied_in(Place::new(*to, len.get()));
                if denied.is_some() {
                    return denied;
                }
                self.denied_in(Place::new(*from, len.get()))
            }
            Request::Obtain { .. }
            | Request::ObtainList { .. }
            | Request::Release { .. }
            | Request::ReleaseList { .. }
            | Request::ReleaseWhole { .. }
            | Request::Build { .. }
            | Request::Get { .. }
            | Request::Free { .. }
            | Request::Delete { .. }
            | Request::Attach { .. }
            | Request::Return
            | Request::Abend(_) => None,
        }
    }

    // Returns the address of the first byte of a place that may not be read and written.
    fn denied_in(&self, place: Place) -> Option<Addr>
        ensures { MatchOption result (Granted self.now.state place) (IsDeniedIn self.now.state place) }
    {
        first_denied(&self.store, &self.pools, place)
    }

    // Returns the details of a byte that may not be read and written.
    fn access_details(&self, t: TaskId, request: &Request) -> Reason
        requires task { IsTask self.now t }
        requires short { Concerns self.now.state (task_name self.now t) request.now NoAccess }
        ensures { Explains self.now.state (task_name self.now t) request.now NoAccess result }
    {
        match self.denied(request) {
            Some(at) => Reason::NoAccess(at, self.holder(at)),
            None => unreachable!(),
        }
    }

    /// Says what the refusal of a task's request is about: the address, the task, the pool or the room that it concerns. For a member
    /// of a list this is what was left for it when it was refused.
    pub fn details(
        &self,
        t: TaskId,
        request: &Request,
        refusal: Refusal,
        left: &Shortfall,
    ) -> Reason
        requires task { IsTask self.now t }
        requires refused { IsRefused self.now.state (task_name self.now t) request.now refusal }
        requires left { (k : ℕ) → refusal ≡ Member k
            → MemberLacks self.now.state (task_name self.now t) request.now k left.now }
        ensures { Explains self.now.state (task_name self.now t) request.now refusal result }
    {
        match refusal {
            Refusal::NotActive => Reason::NotActive,
            Refusal::InvalidNumber => Reason::InvalidNumber,
            Refusal::Shortage => self.area_details(t, request),
            Refusal::Member(member) => Reason::NoMember(member, *left),
            Refusal::NoPart => self.part_details(t, request),
            Refusal::OffDoubleword => off_details(request),
            Refusal::NoSubpool => self.subpool_details(t, request),
            Refusal::NotHeld => self.unheld_details(t, request),
            Refusal::Overlap => overlap_details(request),
            Refusal::WholeOfZero => Reason::WholeOfZero,
            Refusal::PoolInUse => Reason::PoolInUse,
            Refusal::TooManyPools => Reason::TooManyPools,
            Refusal::NoPool => Reason::NoPool,
            Refusal::NoFreeCell => Reason::NoFreeCell,
            Refusal::NoTakenCell => self.cell_details(t, request),
            Refusal::TaskInUse => Reason::TaskInUse,
            Refusal::TooManyTasks => Reason::TooManyTasks,
            Refusal::NotOwned => self.gift_details(t, request),
            Refusal::ActiveSubtask => self.subtask_details(t, request),
            Refusal::Asked(_) => Reason::Asked,
            Refusal::NoAccess => self.access_details(t, request),
        }
    }
}
