//! The part that was put to a pool last.

ghost use Rattle.std.specs.Prelude.{◌≡◌, ◌-◌};
ghost use Rattle.cell_pool.specs.Layout.{byte_of};
ghost use Rattle.cell_pool.specs.Roots.{part_addr, part_of};
ghost use Rattle.cell_pool.specs.Walk.{IsChain};

use crate::root::Root;
use crate::walk::length_of;
use crate::words::read_header;
use mvs_model::place::{Addr, Place};
use mvs_model::report::LastPart;
use subpool_store::Store;

// Returns the last part of a pool with this record.
pub(crate) fn newest_of(store: &Store, root: &Root) -> LastPart
    requires chain { IsChain store.now.storage root.now }
    requires last { root.now.last
        ≡ part_addr (byte_of store.now.storage) root.now.first (root.now.count - 1) }
    ensures parts { result.parts ≡ root.now.count }
    ensures part { part_of (byte_of store.now.storage) root.now (root.now.count - 1)
        ≡ record { place = result.place; count = result.cells } }
    ensures size { result.cell_size ≡ root.now.cell_size }
{
    let part = root.last();
    let cells = read_header(store, part).count;
    let cell_size = root.cell_size();
    LastPart {
        parts: root.count(),
        place: Place::new(Addr::new(part), length_of(cell_size, cells)),
        cells,
        cell_size,
    }
}
