//! Requests that obtain.

ghost use Rattle.std.specs.Prelude.{◌≡◌, ◌≤◌, IfOk, IfSome, MatchOption, MatchResult};
ghost use Rattle.mvs_model.specs.Want.{want_of};
ghost use Rattle.mvs_model.specs.Changes.{GrantTo, ShortOf};
ghost use Rattle.mvs_model.specs.Steps.{Tries};
ghost use Rattle.mvs_model.specs.Subpool.{IsSubpoolNumber};
ghost use Rattle.mvs_model.specs.declared.refusal.Refusal.TheVariants.{InvalidNumber};
ghost use Rattle.mvs_model.specs.declared.request.Reply.TheVariants.{Obtained};
ghost use Rattle.mvs_model.specs.declared.request.Request.TheVariants as request;
ghost use Rattle.mvs_model.specs.Requests.{side_for};
ghost use Rattle.mvs_model.specs.Owners.{effective_task};
ghost use Rattle.request_forms.specs.Machine.{IsTask, task_name};
ghost use Rattle.request_forms.specs.Taking.{TakesArea};

use crate::machine::Machine;
use boundary_loc::side;
use mvs_model::code::Form;
use mvs_model::codes::form_side;
use mvs_model::place::{Addr, Place};
use mvs_model::refusal::Refusal;
use mvs_model::subpool::SubNo;
use mvs_model::want::AreaRequest;
use task_owner::TaskId;

// Returns the subpool number of a request, or refuses one that a program may not name.
pub(crate) fn subpool_number(number: u8) -> Result<SubNo, Refusal>
    ensures { MatchResult result (λ n. IsSubpoolNumber number × (n ≡ number))
        (λ refusal. (refusal ≡ InvalidNumber) × (IsSubpoolNumber number → ⊥)) }
{
    SubNo::new(number).ok_or(Refusal::InvalidNumber)
}

impl Machine {
    // Obtains an area in the subpool for a task's number. If there is no such subpool, it is made, but only if the area is
    // granted.
    fn obtain_area(
        &mut self,
        t: TaskId,
        form: Form,
        number: SubNo,
        ask: &AreaRequest,
        hints: Option<Addr>,
    ) -> Option<Place>
        requires { IsTask self.old t }
        ensures granted { let want = want_of ask.now (side_for self.old.state (task_name self.old t) form ask.now.loc) in
            let k = effective_task self.old.state.owners (task_name self.old t) number in
            MatchOption result
            (ShortOf self.old.state k number want × (self.new.state ≡ self.old.state))
            (λ p. GrantTo self.old.state k number want p self.new.state) }
        ensures hints { IfSome result (TakesArea self.old.state (task_name self.old t) form number ask.now hints) }
        ensures some { 1 ≤ ask.now.least }
    {
        let want = ask.want(form_side(form, side(ask.loc(), self.tasks.residence(t))));
        match self.tasks.subpool(t, number) {
            Some(subpool) => self.store.obtain(subpool, &want, hints),
            None => {
                let subpool = self.tasks.spare(t, number);
                let place = self.store.obtain(subpool, &want, hints)?;
                self.tasks.bind(t, number, subpool);
                Some(place)
            }
        }
    }

    /// Executes GETMAIN or STORAGE OBTAIN for one area (Assembler Services Reference): returns its place, at the hinted address if the
    /// machine allows that. The subpool number is checked first (this project's choice).
    pub fn obtain(
        &mut self,
        t: TaskId,
        form: Form,
        number: u8,
        ask: &AreaRequest,
        hints: Option<Addr>,
    ) -> Result<Place, Refusal>
        requires { IsTask self.old t }
        ensures answer { Tries Obtained self.old.state (task_name self.old t) (request.Obtain form number ask.now) result
            self.new.state }
        ensures hints { IfOk result (TakesArea self.old.state (task_name self.old t) form number ask.now hints) }
    {
        let number = subpool_number(number)?;
        match self.obtain_area(t, form, number, ask, hints) {
            Some(place) => Ok(place),
            None => Err(Refusal::Shortage),
        }
    }
}
