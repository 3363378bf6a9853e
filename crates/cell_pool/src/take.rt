//! Taking a free cell.

ghost use Rattle.std.specs.Prelude.{◌≡◌, ◌+◌, ◌*◌, true};
ghost use Rattle.mvs_model.specs.Place.{place_at};
ghost use Rattle.mvs_model.specs.Storage.{Storage};
ghost use Rattle.cell_pool.specs.Layout.{byte_of, count_at, head_length};
ghost use Rattle.cell_pool.specs.Marks.{Marks};
ghost use Rattle.cell_pool.specs.Walk.{Fills, IsChain, IsFreeAt};

use crate::root::Root;
use crate::walk::{FreeCell, bytes_before};
use crate::words::{fill, mark};
use mvs_model::place::{Addr, Place};
use subpool_store::Store;

// Takes a free cell of the pool, and gives each of its bytes the fill byte.
pub(crate) fn take(store: &mut Store, root: &Root, spot: FreeCell) -> Place
    requires chain { IsChain store.old.storage root.now }
    requires free { IsFreeAt store.old.storage root.now spot.part spot.cell spot.taken
        spot.open_part }
    requires count { spot.count ≡ count_at (byte_of store.old.storage) spot.part }
    ensures place { result
        ≡ place_at
        (spot.part + head_length (count_at (byte_of store.old.storage) spot.part)
        + spot.cell * root.now.cell_size) root.now.cell_size }
    ensures taken { (mid : Storage)
        × Marks store.old.storage spot.part spot.cell true (spot.taken + 1) mid
        × Fills mid result root.now.fill store.new.storage }
{
    let first = spot.part + bytes_before(spot.count);
    mark(store, spot.part, spot.cell, true, spot.taken + 1);
    let place = Place::new(
        Addr::new(first + spot.cell * root.cell_size()),
        root.cell_size(),
    );
    fill(store, place, root.fill);
    place
}
