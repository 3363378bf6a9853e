//! Requests that obtain a list of areas.

ghost use Rattle.std.specs.Prelude.{◌≡◌, true, ◌+◌, ◌≤◌, ◌<◌, Err, IfErr, IfOk, MatchResult, None, List, ℕ, [], ◌∷◌, ◌++◌, length};
ghost use Rattle.mvs_model.specs.Changes.{ListGrant};
ghost use Rattle.mvs_model.specs.Owners.{effective_task};
ghost use Rattle.request_forms.specs.Machine.{IsTask, task_name};
ghost use Rattle.mvs_model.specs.Place.{PlaceValue};
ghost use Rattle.mvs_model.specs.Steps.{Tries};
ghost use Rattle.mvs_model.specs.declared.code.Form.{Form as TheForm};
ghost use Rattle.mvs_model.specs.declared.request.Reply.TheVariants.{Listed};
ghost use Rattle.mvs_model.specs.declared.request.Request.TheVariants as request;
ghost use Rattle.mvs_model.specs.declared.refusal.Refusal.TheVariants.{Member};
ghost use Rattle.mvs_model.specs.Reasons.{MemberLacks};
ghost use Rattle.mvs_model.specs.Storage.{IsStorage, NoPlace, holder};
ghost use Rattle.request_forms.specs.Lists.{GrantsEach, IsMemberShort, LacksAt, LacksIn, first_of, later_of, list_wants, so_far};
ghost use Rattle.request_forms.specs.Taking.{TakesAreas};

use crate::machine::Machine;
use crate::obtain::subpool_number;
use crate::release::take_back;
use crate::shortage::room_in;
use mvs_model::bounded::{Exponent, Length};
use mvs_model::place::{Addr, Place};
use mvs_model::reason::{FreeSpace, Shortfall};
use mvs_model::refusal::Refusal;
use mvs_model::request::{Lengths, Places};
use mvs_model::subpool::{SubNo, SubpoolId};
use mvs_model::want::{Side, Want};
use subpool_store::Store;
use task_owner::TaskId;

// Appends a place to those that are granted so far.
fn with_place(granted: Option<Places>, place: Place) -> Places
    requires { length (so_far granted) < 16 }
    ensures { result ≡ so_far granted ++ place ∷ [] }
{
    match granted {
        Some(mut places) => {
            places.push(place);
            places
        }
        None => Places::one(place),
    }
}

/// Returns the first hint, if there is one.
pub fn first_hint(hints: &[Addr]) -> Option<Addr>
    ensures { result ≡ first_of hints.now }
{
    match hints {
        [first, ..] => Some(*first),
        [] => None,
    }
}

// Returns the hints for the later members.
fn later_hints(hints: &[Addr]) -> &[Addr]
    ensures { result.now ≡ later_of hints.now }
{
    match hints {
        [_, later @ ..] => later,
        [] => hints,
    }
}

// The member of a list that has no place, from 1 on, and what it lacks.
#[derive(Clone, Copy)]
pub(crate) struct Lack {
    pub(crate) member: u32,
    pub(crate) short: Shortfall,
}

/// Makes room for what a member of a list lacks, before anything does.
pub fn no_shortfall() -> Shortfall {
    Shortfall {
        bytes: 0,
        room: FreeSpace {
            longest: 0,
            runs: 0,
            below: 0,
            above: 0,
        },
    }
}

// Returns what something lacks that has no place.
fn shortfall(store: &Store, subpool: SubpoolId, want: &Want) -> Shortfall
    requires { NoPlace store.now.storage.regions (holder store.now.storage) subpool want.now }
    ensures { LacksIn store.now.storage subpool want.now result }
{
    let bytes = want.least();
    match room_in(store, subpool, want) {
        Some(room) => Shortfall { bytes, room },
        None => unreachable!(),
    }
}

// Grants a place for each length, one after another, after those that are granted so far; or none of them, if one does not fit. The
// error has its number among these, from 1 on.
fn grant_each(
    store: &mut Store,
    subpool: SubpoolId,
    lengths: &[Length],
    start: Exponent,
    hints: &[Addr],
    granted: Option<Places>,
) -> Result<Places, Lack>
    requires room { length (so_far granted) + length lengths.now ≤ 16 }
    requires some { granted ≡ None → 1 ≤ length lengths.now }
    requires storage { IsStorage store.old.storage }
    ensures places { MatchResult result
        (λ ps. (more : List PlaceValue) × (ps ≡ so_far granted ++ more)
        × GrantsEach store.old.storage subpool (list_wants lengths.now start) hints.now more
        store.new.storage)
        (λ lack. LacksAt store.old.storage subpool (list_wants lengths.now start) lack.member
        lack.short
        × (store.new.storage ≡ store.old.storage)) }
    ensures few { IfErr result (λ lack. lack.member ≤ length lengths.now) }
    ensures storage { IsStorage store.new.storage }
    ensures regions { store.new.storage.regions ≡ store.old.storage.regions }
{
    let [length, rest @ ..] = lengths else {
        return match granted {
            Some(places) => Ok(places),
            None => unreachable!(),
        };
    };
    let want = Want::fixed(*length, start, Side::Below);
    let Some(place) = store.obtain(subpool, &want, first_hint(hints)) else {
        return Err(Lack {
            member: 1,
            short: shortfall(store, subpool, &want),
        });
    };
    match grant_each(
        store,
        subpool,
        rest,
        start,
        later_hints(hints),
        Some(with_place(granted, place)),
    ) {
        Ok(places) => Ok(places),
        Err(lack) => {
            take_back(store, subpool, place);
            Err(Lack {
                member: lack.member + 1,
                short: lack.short,
            })
        }
    }
}

impl Machine {
    // Obtains areas in the subpool for a task's number. If there is no such subpool, it is made, but only if all areas are
    // granted. The error has the member that has no place.
    fn obtain_areas(
        &mut self,
        t: TaskId,
        number: SubNo,
        lengths: &Lengths,
        start: Exponent,
        hints: &[Addr],
    ) -> Result<Places, Lack>
        requires { IsTask self.old t }
        ensures granted { MatchResult result
            (λ ps. ListGrant self.old.state (effective_task self.old.state.owners (task_name self.old t) number) number
            (list_wants lengths.now start) ps self.new.state)
            (λ lack. IsMemberShort self.old.state (effective_task self.old.state.owners (task_name self.old t) number) number
            (list_wants lengths.now start) lack.member lack.short
            × (self.new.state ≡ self.old.state)) }
        ensures hints { IfOk result
            (λ ps. TakesAreas self.old.state (task_name self.old t) number lengths.now start hints.now ps self.new.state) }
    {
        match self.tasks.subpool(t, number) {
            Some(subpool) => grant_each(
                &mut self.store,
                subpool,
                lengths.as_slice(),
                start,
                hints,
                None,
            ),
            None => {
                let subpool = self.tasks.spare(t, number);
                let places = grant_each(
                    &mut self.store,
                    subpool,
                    lengths.as_slice(),
                    start,
                    hints,
                    None,
                )?;
                self.tasks.bind(t, number, subpool);
                Ok(places)
            }
        }
    }

    /// Executes GETMAIN for a list of areas, all of which are granted or none (Assembler Services Reference, GETMAIN; all or none is this
    /// project's choice): returns their places. `start` is the power of two of the boundary of each. Each is at its hinted address
    /// if the machine allows that. Where a member has no place, what it lacks is written to `left`.
    pub fn obtain_list(
        &mut self,
        t: TaskId,
        number: u8,
        lengths: &Lengths,
        start: Exponent,
        hints: &[Addr],
        left: &mut Shortfall,
    ) -> Result<Places, Refusal>
        requires { IsTask self.old t }
        ensures answer { (form : TheForm)
            → Tries Listed self.old.state (task_name self.old t) (request.ObtainList form number lengths.now start) result
            self.new.state }
        ensures hints { IfOk result
            (λ ps. TakesAreas self.old.state (task_name self.old t) number lengths.now start hints.now ps self.new.state) }
        ensures left { (form : TheForm) (k : ℕ) → result ≡ Err (Member k)
            → MemberLacks self.old.state (task_name self.old t) (request.ObtainList form number lengths.now start) k
            left.new }
    {
        let number = subpool_number(number)?;
        match self.obtain_areas(t, number, lengths, start, hints) {
            Ok(places) => Ok(places),
            Err(lack) => {
                *left = lack.short;
                Err(Refusal::Member(lack.member))
            }
        }
    }
}
