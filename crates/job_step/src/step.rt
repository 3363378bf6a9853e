//! Serves the requests of a step's tasks: an attempt does a request or refuses it, and what is refused is settled by the table
//! of consequences.

ghost use Rattle.std.specs.Prelude.{◌≡◌, ◌<◌, ◌≤◌, ◌+◌, ◌||◌, ◌↔◌, ℕ, Err, true, false, IfOk, IfSome, OnOk, IsSome, MatchBool, MatchOption, length, slice_get, None, Some};
ghost use Rattle.std.specs.FinMap.{get};
ghost use Rattle.mvs_model.specs.Determined.{is_list};
ghost use Rattle.mvs_model.specs.Numbers.{subpool_numbers};
ghost use Rattle.mvs_model.specs.Owners.{is_active};
ghost use Rattle.mvs_model.specs.Start.{start};
ghost use Rattle.mvs_model.specs.Causes.{IsRefused};
ghost use Rattle.mvs_model.specs.Changes.{Granted, Writes};
ghost use Rattle.mvs_model.specs.Consequences.{Abends, Settles, reply_to};
ghost use Rattle.mvs_model.specs.Requests.{bytes_from};
ghost use Rattle.mvs_model.specs.Steps.{Attempts, Step as MachineStep, Tries};
ghost use Rattle.mvs_model.specs.Reasons.{Explains, MemberLacks};
ghost use Rattle.mvs_model.specs.declared.refusal.Refusal.TheVariants.{Member};
ghost use Rattle.mvs_model.specs.Replies.{is_abend};
ghost use Rattle.job_step.specs.Replying.{IsLeft};
ghost use Rattle.request_forms.specs.Machine.{IsTask, task_name};
ghost use Rattle.request_forms.specs.Taking.{Takes};
ghost use Rattle.request_forms.specs.Reports.{HasNone, IsMapEnd, IsMapRun, IsSubpoolLine};

use crate::replying::{
    reply_area, reply_areas, reply_attached, reply_cell, reply_done, reply_ended, reply_zero,
};
use mvs_model::card::Card;
use mvs_model::code::Code;
use mvs_model::error::OutOfMemory;
use mvs_model::name::Name;
use mvs_model::place::{Addr, Place};
use mvs_model::reason::{Reason, Shortfall};
use mvs_model::refusal::{Consequence, Refusal};
use mvs_model::report::{MapRun, SubpoolLine};
use mvs_model::request::{Reply, Request};
use mvs_model::table::reply_to;
use mvs_model::want::Placement;
use request_forms::{Machine, first_hint, no_shortfall};
use std::alloc::Global;
use std::marker::Model;
use task_owner::TaskId;

/// The machine of a step, and whether a task has abended.
#[derive(Drop)]
pub struct Step {
    machine: Machine,
    abended: bool,
}

impl Model for Step {
    ghost use Rattle.job_step.specs.Step.{StepValue, step_code};

    ghost Value = { StepValue };

    ghost coded = { step_code };

    ghost view = { λ s. record { state = s.machine.state; abended = s.abended } };
}

// Obtains the areas of a list for an active task, as `act` does. It is a separate function because the compiler clears the space
// of the places in the function that needs it.
#[inline(never)]
fn act_on_list(
    machine: &mut Machine,
    t: TaskId,
    request: &Request,
    hints: &[Addr],
    reply: &mut Reply,
    left: &mut Shortfall,
) -> Result<(), Refusal>
    requires active { IsTask machine.old t }
    requires list { is_list request.now ≡ true }
    ensures answer { Tries (λ _. reply.new) machine.old.state (task_name machine.old t) request.now
        result machine.new.state }
    ensures no_abend { OnOk result (is_abend reply.new ≡ false) }
    ensures hints { OnOk result
        (Takes hints.now machine.old.state (task_name machine.old t) request.now reply.new
        machine.new.state) }
    ensures left { IsLeft machine.old.state (task_name machine.old t) request.now result left.new }
{
    let Request::ObtainList {
        number,
        lengths,
        start,
        ..
    } = request
    else {
        unreachable!();
    };
    reply_areas(
        machine.obtain_list(t, *number, lengths, *start, hints, left),
        reply,
    )
}

// Does an active task's request, and writes what it is answered over another reply; or refuses it, and changes nothing. What a member
// of a list lacks is written to `left`.
fn act(
    machine: &mut Machine,
    t: TaskId,
    request: &Request,
    hints: &[Addr],
    reply: &mut Reply,
    left: &mut Shortfall,
) -> Result<(), Refusal>
    requires { IsTask machine.old t }
    ensures answer { Tries (λ _. reply.new) machine.old.state (task_name machine.old t) request.now
        result machine.new.state }
    ensures no_abend { OnOk result (is_abend reply.new ≡ false) }
    ensures hints { OnOk result
        (Takes hints.now machine.old.state (task_name machine.old t) request.now reply.new
        machine.new.state) }
    ensures left { IsLeft machine.old.state (task_name machine.old t) request.now result left.new }
{
    match request {
        Request::Obtain { form, number, ask } => reply_area(
            machine.obtain(t, *form, *number, ask, first_hint(hints)),
            reply,
        ),
        Request::ObtainList { .. } => act_on_list(machine, t, request, hints, reply, left),
        Request::Release { number, place, .. } => {
            reply_zero(machine.release(t, *number, *place), reply)
        }
        Request::ReleaseList { number, places, .. } => {
            reply_zero(machine.release_list(t, *number, places), reply)
        }
        Request::ReleaseWhole { number, .. } => {
            reply_zero(machine.release_whole(t, *number), reply)
        }
        Request::Build {
            pool,
            number,
            size,
            primary,
            secondary,
            loc,
        } => {
            let plan = machine.plan(t, *size, *primary, *secondary, *loc);
            reply_zero(
                machine.build(t, *number, pool, &plan, first_hint(hints)),
                reply,
            )
        }
        Request::Get { pool, conditional } => {
            reply_cell(machine.get(pool, *conditional, hints), reply)
        }
        Request::Free { pool, cell } => reply_zero(machine.free(pool, *cell), reply),
        Request::Delete { pool } => reply_zero(machine.delete(pool), reply),
        Request::Attach {
            name: subtask,
            gifts,
            residence,
        } => reply_attached(machine.attach(t, subtask, gifts, *residence), reply),
        Request::Return => reply_ended(machine.finish(t), reply),
        Request::Abend(code) => Err(Refusal::Asked(code.get() as u16)),
        Request::Show { from, len } => reply_done(machine.show(*from, *len), reply),
        Request::Put { to, bytes } => reply_done(machine.put(*to, bytes), reply),
        Request::Move { to, from, len } => reply_done(machine.move_bytes(*to, *from, *len), reply),
    }
}

impl Step {
    /// Makes the step at its start: only the job step task is active, and nothing is held.
    pub fn new(alloc: Global, card: &Card, placement: Placement) -> Result<Step, OutOfMemory>
        ensures { IfOk result (λ s. s ≡ record { state = start card.now; abended = false }) }
    {
        let machine = Machine::new(alloc, card, placement)?;
        Ok(Step {
            machine,
            abended: false,
        })
    }

    /// Returns whether the task is active.
    pub fn is_active(&self, name: &Name) -> bool
        ensures { result ≡ is_active self.now.state.owners name.now }
    {
        self.machine.find(name).is_some()
    }

    /// Returns whether a task has abended so far.
    pub fn abended(&self) -> bool
        ensures { result ≡ self.now.abended }
    {
        self.abended
    }

    /// Returns the bytes of a place, or None if one of them cannot be read: its doubleword is not held, or it is in a part of a
    /// cell pool and in no taken cell (this project's choice).
    pub fn bytes(&self, place: Place) -> Option<&[u8]>
        ensures granted { IsSome result ↔ Granted self.now.state place }
        ensures len { IfSome result (λ part. length part.now ≡ place.len) }
        ensures bytes { IfSome result
            (λ part. (k : ℕ) → k < place.len
            → slice_get part.now k ≡ get self.now.state.bytes (place.addr + k)) }
    {
        self.machine.bytes(place)
    }

    /// Writes bytes over those of a place, and answers whether it did: where one of them may not be written, all stay.
    pub fn write(&mut self, place: Place, bytes: &[u8]) -> bool
        requires { length bytes.now ≡ place.len }
        ensures written { MatchBool result
            (Granted self.old.state place
            × Writes self.old.state place (bytes_from place.addr bytes.now) self.new.state)
            ((Granted self.old.state place → ⊥) × (self.new.state ≡ self.old.state)) }
        ensures abended { self.new.abended ≡ self.old.abended }
    {
        self.machine.write(place, bytes)
    }

    /// Returns the line of REPORT SP for the first number at or after `from` that the task has. None where it has none, as where
    /// it is not active.
    pub fn subpool_line(&self, name: &Name, from: u8) -> Option<SubpoolLine>
        ensures { MatchOption result
            (HasNone self.now.state.owners name.now from subpool_numbers)
            (IsSubpoolLine self.now.state name.now from) }
    {
        self.machine.subpool_line(name, from)
    }

    /// Returns the first run of REPORT MAP that begins at or after an address. None where there is none.
    pub fn map_run(&self, from: Addr) -> Option<MapRun>
        ensures { MatchOption result (IsMapEnd self.now.state from) (IsMapRun self.now.state from) }
    {
        self.machine.map_run(from)
    }

    /// Returns the machine of the step, which answers further questions: the subpools that tasks own, the free pages, the newest
    /// part of a pool.
    pub fn machine(&self) -> &Machine
        ensures { result.now.state ≡ self.now.state }
    {
        &self.machine
    }

    /// Says what the refusal of a task's request is about, in the state that the refusal has left as it was: an address, a task, a
    /// pool or the room for an area. `left` is what the attempt has left there.
    pub fn details(
        &self,
        name: &Name,
        request: &Request,
        refusal: Refusal,
        left: &Shortfall,
    ) -> Reason
        requires refused { IsRefused self.now.state name.now request.now refusal }
        requires left { (k : ℕ) → refusal ≡ Member k
            → MemberLacks self.now.state name.now request.now k left.now }
        ensures { Explains self.now.state name.now request.now refusal result }
    {
        match self.machine.find(name) {
            Some(t) => self.machine.details(t, request, refusal, left),
            None => Reason::NotActive,
        }
    }

    // Ends a task that abends, and writes the reply. It is a separate function because the compiler clears the space of the names
    // in the function that needs it.
    #[inline(never)]
    fn abend(&mut self, name: &Name, code: Code, reply: &mut Reply)
        requires { is_active self.old.state.owners name.now ≡ true }
        ensures abends { Abends self.old.state name.now code reply.new self.new.state }
        ensures abended { self.new.abended ≡ true }
        ensures is_abend { is_abend reply.new ≡ true }
    {
        let Some(t) = self.machine.find(name) else {
            unreachable!();
        };
        self.abended = true;
        *reply = Reply::Abended(code, self.machine.abend(t));
    }

    /// Attempts a request of a task: executes it and writes the reply over another one, or refuses it and changes nothing. An area
    /// is placed at the hinted address if the machine allows that, and each area of a list at its own; so is a cell. The first cell
    /// of a new pool is at the hinted address, and that of a further part at the hint after that of the cell. Where a member of a
    /// list has no place, what it lacks is written to `left`.
    pub fn attempt(
        &mut self,
        name: &Name,
        request: &Request,
        hints: &[Addr],
        reply: &mut Reply,
        left: &mut Shortfall,
    ) -> Result<(), Refusal>
        ensures attempt { Attempts (λ _. reply.new) self.old.state name.now request.now result
            self.new.state }
        ensures abended { self.new.abended ≡ self.old.abended }
        ensures no_abend { OnOk result (is_abend reply.new ≡ false) }
        ensures hints { OnOk result
            (Takes hints.now self.old.state name.now request.now reply.new self.new.state) }
        ensures left { (k : ℕ) → result ≡ Err (Member k)
            → MemberLacks self.old.state name.now request.now k left.new }
    {
        let t = self.machine.find(name).ok_or(Refusal::NotActive)?;
        act(&mut self.machine, t, request, hints, reply, left)
    }

    /// Settles a request that is refused as the table of consequences says, and writes what it is answered over another reply: an
    /// abend ends the task and its descendants, and any other answer changes nothing.
    pub fn settle(&mut self, name: &Name, request: &Request, refusal: Refusal, reply: &mut Reply)
        requires { IsRefused self.old.state name.now request.now refusal }
        ensures settled { Settles self.old.state name.now (reply_to request.now refusal) reply.new
            self.new.state }
        ensures abended { self.new.abended ≡ (self.old.abended || is_abend reply.new) }
    {
        match reply_to(request, refusal) {
            Consequence::NotRun => *reply = Reply::NotRun,
            Consequence::Rc4 => *reply = Reply::Rc4,
            Consequence::NoCell => *reply = Reply::NoCell,
            Consequence::Abend(code) => self.abend(name, code, reply),
        }
    }

    /// Serves a request of any task: attempts it, and settles it where it is refused.
    pub fn request(&mut self, name: &Name, request: &Request, hints: &[Addr], reply: &mut Reply)
        ensures step { MachineStep self.old.state name.now request.now reply.new self.new.state }
        ensures abended { self.new.abended ≡ (self.old.abended || is_abend reply.new) }
        ensures hints { Takes hints.now self.old.state name.now request.now reply.new self.new.state }
    {
        let mut left = no_shortfall();
        match self.attempt(name, request, hints, reply, &mut left) {
            Ok(()) => {}
            Err(refusal) => self.settle(name, request, refusal, reply),
        }
    }

    /// Returns a copy. It fails if memory is exhausted.
    pub fn try_clone(&self) -> Result<Step, OutOfMemory>
        ensures { IfOk result (λ copy. copy ≡ self.now) }
    {
        Ok(Step {
            machine: self.machine.try_clone()?,
            abended: self.abended,
        })
    }
}
