//! The names of areas and cells.

ghost use Rattle.std.specs.Prelude.{◌≡◌, OnOk, OnErr, IfOk, IfSome};
ghost use Rattle.std.specs.FinMap as map;
ghost use Rattle.mvs_model.specs.Name.{name_cmp, same_name};
ghost use Rattle.job_script.specs.Areas.{IsArea};

use mvs_model::error::OutOfMemory;
use mvs_model::name::Name;
use mvs_model::place::Place;
use std::alloc::Global;
use std::collections::HashMap;
use std::marker::Model;

/// The places of the names that a step has set.
#[derive(Drop)]
pub struct NamePlaces {
    places: HashMap<Name, Place>,
}

impl Model for NamePlaces {
    ghost use Rattle.std.specs.FinMap as map;
    ghost use Rattle.std.specs.Coded.{coded_ℕ};
    ghost use Rattle.mvs_model.specs.Place.{PlaceValue, place_code};
    ghost use Rattle.mvs_model.specs.Name.{name_cmp, name_code};
    ghost use Rattle.job_script.specs.Areas.{AreAreas};

    ghost Value = { map.FinMap name_cmp PlaceValue };

    ghost coded = { map.code name_code place_code };

    ghost view = { λ n. map.from_entries n.places.entries };

    ghost invariant = { λ n. AreAreas (map.from_entries n.places.entries) };
}

impl NamePlaces {
    /// Makes a table without names. It allocates no memory.
    pub fn new(alloc: Global) -> NamePlaces
        ensures { result ≡ map.empty }
    {
        NamePlaces {
            places: HashMap::new(alloc),
        }
    }

    /// Sets a name to a place of the step, anew where it was set.
    pub fn set(&mut self, name: Name, place: Place) -> Result<(), OutOfMemory>
        requires { IsArea place }
        ensures ok { OnOk result (self.new ≡ map.insert self.old name place) }
        ensures err { OnErr result (self.new ≡ self.old) }
    {
        self.places.insert(name, place).map_err(|_| OutOfMemory)?;
        Ok(())
    }

    /// Returns the place that a name was last set to.
    pub fn get(&self, name: &Name) -> Option<Place>
        ensures place { result ≡ map.get self.now name.now }
        ensures area { IfSome result IsArea }
    {
        self.places.get(name).copied()
    }

    /// Returns a copy. It fails if memory is exhausted.
    pub fn try_clone(&self) -> Result<NamePlaces, OutOfMemory>
        ensures { IfOk result (λ copy. copy ≡ self.now) }
    {
        let places = self.places.clone().map_err(|_| OutOfMemory)?;
        Ok(NamePlaces { places })
    }
}
