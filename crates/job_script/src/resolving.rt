//! Requests as they are written: the addresses of their names, and the names that they set.

ghost use Rattle.std.specs.Prelude.{◌≢◌, [], ◌∷◌, OnErr, ◌≡◌, ◌+◌, ◌≤◌, ◌++◌, None, Some, length, OnOk, MatchBool, MatchOption};
ghost use Rattle.std.specs.List.{flat_map};
ghost use Rattle.std.specs.Option.{option_map};
ghost use Rattle.std.specs.FinMap.{FinMap};
ghost use Rattle.mvs_model.specs.Name.{name_cmp};
ghost use Rattle.mvs_model.specs.Place.{PlaceValue};
ghost use Rattle.mvs_model.specs.Resolving.{address_of, all_set, first_unset, looked_up, name_in, names_set, places_in, places_of, resolved};
ghost use Rattle.job_script.specs.Areas.{Fit};
ghost use Rattle.job_script.specs.Resolving.{IsAccess, IsObtain, IsOfPool, IsOfTask, IsRelease};

use crate::names::NamePlaces;
use mvs_model::bounded::Length;
use mvs_model::error::OutOfMemory;
use mvs_model::line::{Location, Locations, SourceRequest};
use mvs_model::name::Name;
use mvs_model::place::{Addr, Place};
use mvs_model::request::{Lengths, Places, Reply, Request};
use std::slice;

// Returns the address that is written, where its name is set.
fn address(names: &NamePlaces, location: &Location) -> Option<Addr>
    ensures { result ≡ address_of names.now location.now }
{
    match location {
        Location::Absolute(addr) => Some(*addr),
        Location::Named(name, offset) => {
            let place = names.get(name)?;
            Some(Addr::new(place.addr().get() + offset.get()))
        }
    }
}

// Returns the place that is written, where its name is set.
fn place(names: &NamePlaces, location: &Location, len: Length) -> Option<Place>
    ensures { result
        ≡ option_map (λ a. record { addr = a; len = len }) (address_of names.now location.now) }
{
    let addr = address(names, location)?;
    Some(Place::new(addr, len.get()))
}

// Appends the places of a list, if their names are set.
fn push_places(
    names: &NamePlaces,
    places: &mut Places,
    locations: &[Location],
    lengths: &[Length],
) -> bool
    requires { length places.old + length locations.now ≤ 16 }
    ensures { MatchBool result
        (option_map (λ ps. places.old ++ ps) (places_of names.now locations.now lengths.now)
        ≡ Some places.new) (places_of names.now locations.now lengths.now ≡ None) }
{
    let Some((location, locations)) = locations.split_first() else {
        return true;
    };
    let Some((len, lengths)) = lengths.split_first() else {
        return true;
    };
    let Some(place) = place(names, location, *len) else {
        return false;
    };
    places.push(place);
    push_places(names, places, locations, lengths)
}

// Returns the places that are written, where their names are set.
fn places(names: &NamePlaces, locations: &Locations, lengths: &Lengths) -> Option<Places>
    ensures { result ≡ places_of names.now locations.now lengths.now }
{
    let Some((location, locations)) = locations.as_slice().split_first() else {
        unreachable!()
    };
    let Some((len, lengths)) = lengths.as_slice().split_first() else {
        unreachable!()
    };
    let first = place(names, location, *len)?;
    let mut places = Places::one(first);
    if push_places(names, &mut places, locations, lengths) {
        Some(places)
    } else {
        None
    }
}

// Returns the name, where it is not set.
fn unset_name(names: &NamePlaces, name: &Name) -> Option<Name>
    ensures { result ≡ first_unset names.now (name.now ∷ []) }
{
    match names.get(name) {
        Some(_) => None,
        None => Some(*name),
    }
}

// Returns the name that an address is written by, where it is not set.
fn unset_in(names: &NamePlaces, location: &Location) -> Option<Name>
    ensures { result ≡ first_unset names.now (name_in location.now) }
{
    match location {
        Location::Absolute(_) => None,
        Location::Named(name, _) => unset_name(names, name),
    }
}

// Returns the first name of some addresses that is not set.
fn unset_among(names: &NamePlaces, locations: &[Location]) -> Option<Name>
    ensures { result ≡ first_unset names.now (flat_map name_in locations.now) }
{
    let (location, rest) = locations.split_first()?;
    let unset = unset_in(names, location);
    if unset.is_some() {
        return unset;
    }
    unset_among(names, rest)
}

/// Returns the first name that a request looks up and that is not set.
pub fn unset(names: &NamePlaces, written: &SourceRequest) -> Option<Name>
    ensures { result ≡ first_unset names.now (looked_up written.now) }
{
    match written {
        SourceRequest::Release { location, .. } => unset_in(names, location),
        SourceRequest::ReleaseArea { area, .. } => unset_name(names, area),
        SourceRequest::ReleaseList { locations, .. } => unset_among(names, locations.as_slice()),
        SourceRequest::Free { cell, .. } => unset_in(names, cell),
        SourceRequest::Show { from, .. } => unset_in(names, from),
        SourceRequest::Put { to, .. } => unset_in(names, to),
        SourceRequest::Move { to, from, .. } => unset_among(names, &[*to, *from]),
        SourceRequest::Obtain { .. }
        | SourceRequest::ObtainList { .. }
        | SourceRequest::ReleaseWhole { .. }
        | SourceRequest::Build { .. }
        | SourceRequest::Get { .. }
        | SourceRequest::Delete { .. }
        | SourceRequest::Attach { .. }
        | SourceRequest::Return
        | SourceRequest::Abend(_) => None,
    }
}

/// Returns the names that a request sets.
pub fn names_set(written: &SourceRequest) -> &[Name]
    ensures { result.now ≡ names_set written.now }
{
    match written {
        SourceRequest::Obtain { area, .. } => slice::from_ref(area),
        SourceRequest::ObtainList { areas, .. } => areas.as_slice(),
        SourceRequest::Get { cell, .. } => slice::from_ref(cell),
        SourceRequest::Release { .. }
        | SourceRequest::ReleaseArea { .. }
        | SourceRequest::ReleaseList { .. }
        | SourceRequest::ReleaseWhole { .. }
        | SourceRequest::Build { .. }
        | SourceRequest::Free { .. }
        | SourceRequest::Delete { .. }
        | SourceRequest::Attach { .. }
        | SourceRequest::Return
        | SourceRequest::Abend(_)
        | SourceRequest::Show { .. }
        | SourceRequest::Put { .. }
        | SourceRequest::Move { .. } => &[],
    }
}

// Returns the places that a reply gives to names.
fn places_in(reply: &Reply) -> &[Place]
    ensures { result.now ≡ places_in reply.now }
{
    match reply {
        Reply::Obtained(place) | Reply::Cell(place) => slice::from_ref(place),
        Reply::Listed(places) => places.as_slice(),
        Reply::NotRun
        | Reply::Rc0
        | Reply::Rc4
        | Reply::NoCell
        | Reply::Attached
        | Reply::Ended
        | Reply::Done
        | Reply::Abended(..) => &[],
    }
}

// Sets names to places, from the left.
fn set_all(names: &mut NamePlaces, areas: &[Name], places: &[Place]) -> Result<(), OutOfMemory>
    requires { Fit areas.now places.now }
    ensures ok { OnOk result (names.new ≡ all_set names.old areas.now places.now) }
    ensures err { OnErr result ((areas.now ≢ []) × (places.now ≢ [])) }
{
    let Some((area, areas)) = areas.split_first() else {
        return Ok(());
    };
    let Some((place, places)) = places.split_first() else {
        return Ok(());
    };
    names.set(*area, *place)?;
    set_all(names, areas, places)
}

/// Sets the names of a request to the places that its reply gives.
pub fn set_names(
    names: &mut NamePlaces,
    written: &SourceRequest,
    reply: &Reply,
) -> Result<(), OutOfMemory>
    requires { Fit (names_set written.now) (places_in reply.now) }
    ensures ok { OnOk result
        (names.new ≡ all_set names.old (names_set written.now) (places_in reply.now)) }
    ensures err { OnErr result ((names_set written.now ≢ []) × (places_in reply.now ≢ [])) }
{
    set_all(names, names_set(written), places_in(reply))
}

// Makes a request that releases, where each name that it looks up is set.
fn release_request(names: &NamePlaces, written: &SourceRequest, request: &mut Request) -> Option<()>
    requires { IsRelease written.now }
    ensures { MatchOption result (resolved names.now written.now ≡ None)
        (λ _. resolved names.now written.now ≡ Some request.new) }
{
    match written {
        SourceRequest::Release {
            form,
            number,
            location,
            len,
        } => {
            let place = place(names, location, *len)?;
            *request = Request::Release {
                form: *form,
                number: *number,
                place,
            };
        }
        SourceRequest::ReleaseArea { form, number, area } => {
            let place = names.get(area)?;
            *request = Request::Release {
                form: *form,
                number: *number,
                place,
            };
        }
        SourceRequest::ReleaseList {
            form,
            number,
            locations,
            lengths,
        } => {
            let places = places(names, locations, lengths)?;
            *request = Request::ReleaseList {
                form: *form,
                number: *number,
                places,
            };
        }
        SourceRequest::ReleaseWhole { form, number } => {
            *request = Request::ReleaseWhole {
                form: *form,
                number: *number,
            };
        }
        SourceRequest::Obtain { .. }
        | SourceRequest::ObtainList { .. }
        | SourceRequest::Build { .. }
        | SourceRequest::Get { .. }
        | SourceRequest::Free { .. }
        | SourceRequest::Delete { .. }
        | SourceRequest::Attach { .. }
        | SourceRequest::Return
        | SourceRequest::Abend(_)
        | SourceRequest::Show { .. }
        | SourceRequest::Put { .. }
        | SourceRequest::Move { .. } => unreachable!(),
    }
    Some(())
}

// Makes a request that reads or writes bytes, where each name that it looks up is set.
fn access_request(names: &NamePlaces, written: &SourceRequest, request: &mut Request) -> Option<()>
    requires { IsAccess written.now }
    ensures { MatchOption result (resolved names.now written.now ≡ None)
        (λ _. resolved names.now written.now ≡ Some request.new) }
{
    match written {
        SourceRequest::Show { from, len } => {
            let from = address(names, from)?;
            *request = Request::Show { from, len: *len };
        }
        SourceRequest::Put { to, bytes } => {
            let to = address(names, to)?;
            *request = Request::Put {
                to,
                bytes: bytes.copied(),
            };
        }
        SourceRequest::Move { to, from, len } => {
            let to = address(names, to)?;
            let from = address(names, from)?;
            *request = Request::Move {
                to,
                from,
                len: *len,
            };
        }
        SourceRequest::Obtain { .. }
        | SourceRequest::ObtainList { .. }
        | SourceRequest::Release { .. }
        | SourceRequest::ReleaseArea { .. }
        | SourceRequest::ReleaseList { .. }
        | SourceRequest::ReleaseWhole { .. }
        | SourceRequest::Build { .. }
        | SourceRequest::Get { .. }
        | SourceRequest::Free { .. }
        | SourceRequest::Delete { .. }
        | SourceRequest::Attach { .. }
        | SourceRequest::Return
        | SourceRequest::Abend(_) => unreachable!(),
    }
    Some(())
}

// Makes a request that begins or ends a task.
fn task_request(written: &SourceRequest, request: &mut Request)
    requires { IsOfTask written.now }
    ensures { (names : FinMap name_cmp PlaceValue) → resolved names written.now ≡ Some request.new }
{
    match written {
        SourceRequest::Attach {
            name,
            gifts,
            residence,
        } => {
            *request = Request::Attach {
                name: *name,
                gifts: *gifts,
                residence: *residence,
            };
        }
        SourceRequest::Return => *request = Request::Return,
        SourceRequest::Abend(code) => *request = Request::Abend(*code),
        SourceRequest::Obtain { .. }
        | SourceRequest::ObtainList { .. }
        | SourceRequest::Release { .. }
        | SourceRequest::ReleaseArea { .. }
        | SourceRequest::ReleaseList { .. }
        | SourceRequest::ReleaseWhole { .. }
        | SourceRequest::Build { .. }
        | SourceRequest::Get { .. }
        | SourceRequest::Free { .. }
        | SourceRequest::Delete { .. }
        | SourceRequest::Show { .. }
        | SourceRequest::Put { .. }
        | SourceRequest::Move { .. } => unreachable!(),
    }
}

// Makes a request that obtains storage.
fn obtain_request(written: &SourceRequest, request: &mut Request)
    requires { IsObtain written.now }
    ensures { (names : FinMap name_cmp PlaceValue) → resolved names written.now ≡ Some request.new }
{
    match written {
        SourceRequest::Obtain {
            form,
            number,
            ask,
            ..
        } => {
            *request = Request::Obtain {
                form: *form,
                number: *number,
                ask: *ask,
            };
        }
        SourceRequest::ObtainList {
            form,
            number,
            lengths,
            start,
            ..
        } => {
            *request = Request::ObtainList {
                form: *form,
                number: *number,
                lengths: lengths.copied(),
                start: *start,
            };
        }
        SourceRequest::Release { .. }
        | SourceRequest::ReleaseArea { .. }
        | SourceRequest::ReleaseList { .. }
        | SourceRequest::ReleaseWhole { .. }
        | SourceRequest::Build { .. }
        | SourceRequest::Get { .. }
        | SourceRequest::Free { .. }
        | SourceRequest::Delete { .. }
        | SourceRequest::Attach { .. }
        | SourceRequest::Return
        | SourceRequest::Abend(_)
        | SourceRequest::Show { .. }
        | SourceRequest::Put { .. }
        | SourceRequest::Move { .. } => unreachable!(),
    }
}

// Makes a request for a cell pool, where the name that it looks up is set.
fn pool_request(names: &NamePlaces, written: &SourceRequest, request: &mut Request) -> Option<()>
    requires { IsOfPool written.now }
    ensures { MatchOption result (resolved names.now written.now ≡ None)
        (λ _. resolved names.now written.now ≡ Some request.new) }
{
    match written {
        SourceRequest::Build {
            pool,
            number,
            size,
            primary,
            secondary,
            loc,
        } => {
            *request = Request::Build {
                pool: *pool,
                number: *number,
                size: *size,
                primary: *primary,
                secondary: *secondary,
                loc: *loc,
            };
        }
        SourceRequest::Get {
            pool,
            conditional,
            ..
        } => {
            *request = Request::Get {
                pool: *pool,
                conditional: *conditional,
            };
        }
        SourceRequest::Free { pool, cell } => {
            let cell = address(names, cell)?;
            *request = Request::Free { pool: *pool, cell };
        }
        SourceRequest::Delete { pool } => *request = Request::Delete { pool: *pool },
        SourceRequest::Obtain { .. }
        | SourceRequest::ObtainList { .. }
        | SourceRequest::Release { .. }
        | SourceRequest::ReleaseArea { .. }
        | SourceRequest::ReleaseList { .. }
        | SourceRequest::ReleaseWhole { .. }
        | SourceRequest::Attach { .. }
        | SourceRequest::Return
        | SourceRequest::Abend(_)
        | SourceRequest::Show { .. }
        | SourceRequest::Put { .. }
        | SourceRequest::Move { .. } => unreachable!(),
    }
    Some(())
}

/// Returns whether each name that a request looks up is set: then `request` is what is asked for, written over another, so that nothing of it is copied.
/// Where one is not set, what `request` holds is asked for by nobody.
pub fn resolve(names: &NamePlaces, written: &SourceRequest, request: &mut Request) -> Option<()>
    ensures { MatchOption result (resolved names.now written.now ≡ None)
        (λ _. resolved names.now written.now ≡ Some request.new) }
{
    match written {
        SourceRequest::Obtain { .. } | SourceRequest::ObtainList { .. } => {
            obtain_request(written, request);
            Some(())
        }
        SourceRequest::Release { .. }
        | SourceRequest::ReleaseArea { .. }
        | SourceRequest::ReleaseList { .. }
        | SourceRequest::ReleaseWhole { .. } => release_request(names, written, request),
        SourceRequest::Show { .. } | SourceRequest::Put { .. } | SourceRequest::Move { .. } => {
            access_request(names, written, request)
        }
        SourceRequest::Build { .. }
        | SourceRequest::Get { .. }
        | SourceRequest::Free { .. }
        | SourceRequest::Delete { .. } => pool_request(names, written, request),
        SourceRequest::Attach { .. } | SourceRequest::Return | SourceRequest::Abend(_) => {
            task_request(written, request);
            Some(())
        }
    }
}
