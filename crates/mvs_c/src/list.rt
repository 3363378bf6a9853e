//! A list request that C gives by a struct and its areas.

ghost use Rattle.std.specs.Prelude.{◌≡◌, ◌<◌, ◌≤◌, ◌+◌, ◌^◌, ◌++◌, MatchBool, SomeIff, length, map};
ghost use Rattle.mvs_model.specs.Place.{place_at};
ghost use Rattle.mvs_c.specs.Asks.{IsNamed, TakesForm, TaskAsks, answer_of, form_value, name_value, named_answer, or_else};
ghost use Rattle.mvs_c.specs.Lists.{AreLengths, ArePlaces, AsksList, IsListLength, IsListStart, ObtainsList, ReleasesList, area_values, is_list_form, listed};

use crate::ask::{
    RawRequest, RequestKind, exponent_of, form_of, length_of, or_else, place_of, subpool_of,
};
use crate::field::RequestField;
use mvs_model::bounded::Exponent;
use mvs_model::code::Form;
use mvs_model::name::Name;
use mvs_model::numbers::MOST_ITEMS;
use mvs_model::place::Place;
use mvs_model::request::{Lengths, Places, Reply, Request};

/// An area of a list: its length, and its address if it is released; after a request that obtains, what was granted.
#[repr(C)]
#[derive(Clone, Copy)]
pub struct ListArea {
    pub address: u32,
    pub length: u32,
}

// Returns the form of a list.
fn list_form(number: u32) -> Option<Form>
    ensures { SomeIff result (TakesForm is_list_form number) (form_value number) }
{
    match form_of(number)? {
        form @ (Form::Lc | Form::Lu) => Some(form),
        Form::R
        | Form::Rc
        | Form::Ru
        | Form::Vrc
        | Form::Vru
        | Form::Ec
        | Form::Eu
        | Form::Vc
        | Form::Vu
        | Form::Storage
        | Form::StorageConditional => None,
    }
}

// Returns the power of two of the boundary that each area begins on.
fn list_start(number: u32) -> Option<Exponent>
    ensures { SomeIff result (IsListStart number) (or_else number 3) }
{
    match or_else(number, 3) {
        start @ (3 | 12) => exponent_of(start),
        _ => None,
    }
}

// Appends the lengths of areas, if all are in range.
fn push_lengths(lengths: &mut Lengths, areas: &[ListArea]) -> bool
    requires { length lengths.old + length areas.now ≤ 16 }
    ensures { MatchBool result
        (AreLengths areas.now × (lengths.new ≡ lengths.old ++ map (λ a. a.length) areas.now))
        (AreLengths areas.now → ⊥) }
{
    let Some((area, areas)) = areas.split_first() else {
        return true;
    };
    let Some(len) = length_of(area.length) else {
        return false;
    };
    lengths.push(len);
    push_lengths(lengths, areas)
}

// Returns the lengths of areas.
fn lengths_of(areas: &[ListArea]) -> Option<Lengths>
    ensures { SomeIff result (IsListLength (length areas.now) × AreLengths areas.now) (map (λ a. a.length) areas.now) }
{
    if areas.len() > MOST_ITEMS {
        return None;
    }
    let (area, areas) = areas.split_first()?;
    let mut lengths = Lengths::one(length_of(area.length)?);
    if push_lengths(&mut lengths, areas) {
        Some(lengths)
    } else {
        None
    }
}

// Appends the places of areas, if all are in range.
fn push_places(places: &mut Places, areas: &[ListArea]) -> bool
    requires { length places.old + length areas.now ≤ 16 }
    ensures { MatchBool result
        (ArePlaces areas.now × (places.new ≡ places.old ++ map (λ a. place_at a.address a.length) areas.now))
        (ArePlaces areas.now → ⊥) }
{
    let Some((area, areas)) = areas.split_first() else {
        return true;
    };
    let Some(place) = place_of(area.address, area.length) else {
        return false;
    };
    places.push(place);
    push_places(places, areas)
}

// Returns the places of areas.
fn places_of(areas: &[ListArea]) -> Option<Places>
    ensures { SomeIff result (IsListLength (length areas.now) × ArePlaces areas.now)
        (map (λ a. place_at a.address a.length) areas.now) }
{
    if areas.len() > MOST_ITEMS {
        return None;
    }
    let (area, areas) = areas.split_first()?;
    let mut places = Places::one(place_of(area.address, area.length)?);
    if push_places(&mut places, areas) {
        Some(places)
    } else {
        None
    }
}

impl RawRequest {
    fn obtain_list(&self, areas: &[ListArea], request: &mut Request) -> Option<RequestField>
        ensures { ObtainsList self.now areas.now (answer_of result request.new) }
    {
        let Some(form) = list_form(self.form) else {
            return Some(RequestField::Form);
        };
        let Some(number) = subpool_of(self.subpool) else {
            return Some(RequestField::Subpool);
        };
        let Some(start) = list_start(self.boundary) else {
            return Some(RequestField::Boundary);
        };
        let Some(lengths) = lengths_of(areas) else {
            return Some(RequestField::Areas);
        };
        *request = Request::ObtainList {
            form,
            number,
            lengths,
            start,
        };
        None
    }

    fn release_list(&self, areas: &[ListArea], request: &mut Request) -> Option<RequestField>
        ensures { ReleasesList self.now areas.now (answer_of result request.new) }
    {
        let Some(form) = list_form(self.form) else {
            return Some(RequestField::Form);
        };
        let Some(number) = subpool_of(self.subpool) else {
            return Some(RequestField::Subpool);
        };
        let Some(places) = places_of(areas) else {
            return Some(RequestField::Areas);
        };
        *request = Request::ReleaseList {
            form,
            number,
            places,
        };
        None
    }

    fn list_request(&self, areas: &[ListArea], request: &mut Request) -> Option<RequestField>
        ensures { AsksList self.now areas.now (answer_of result request.new) }
    {
        let Some(kind) = self.kind() else {
            return Some(RequestField::Kind);
        };
        match kind {
            RequestKind::Obtain => self.obtain_list(areas, request),
            RequestKind::Release => self.release_list(areas, request),
            RequestKind::ReleaseWhole
            | RequestKind::Build
            | RequestKind::Get
            | RequestKind::Free
            | RequestKind::Delete
            | RequestKind::Attach
            | RequestKind::Return
            | RequestKind::Abend
            | RequestKind::SystemAbend
            | RequestKind::Show
            | RequestKind::Move => Some(RequestField::Kind),
        }
    }

    /// Writes the list request over another, and returns the task that makes it, or the first field that does not fit.
    pub fn task_list_request(
        &self,
        task: Option<Name>,
        areas: &[ListArea],
        request: &mut Request,
    ) -> Result<Name, RequestField>
        requires { SomeIff task (IsNamed self.now.task) (name_value self.now.task) }
        ensures { TaskAsks self.now (AsksList self.now areas.now) (named_answer result request.new) }
    {
        let task = self.named_task(task)?;
        match self.list_request(areas, request) {
            None => Ok(task),
            Some(field) => Err(field),
        }
    }
}

// Writes places over the first areas.
fn write_places(places: &[Place], areas: &mut [ListArea])
    ensures { areas.new ≡ area_values places.now areas.old }
{
    let Some((place, places)) = places.split_first() else {
        return;
    };
    let Some((area, areas)) = areas.split_first_mut() else {
        return;
    };
    *area = ListArea {
        address: place.addr().get(),
        length: place.len(),
    };
    write_places(places, areas);
}

/// Writes the places that a reply grants to a list.
pub fn write_listed(reply: &Reply, areas: &mut [ListArea])
    ensures { areas.new ≡ area_values (listed reply.now) areas.old }
{
    if let Reply::Listed(places) = reply {
        write_places(places.as_slice(), areas);
    }
}
