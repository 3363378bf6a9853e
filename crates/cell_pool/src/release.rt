//! Giving back the parts of a pool.

ghost use Rattle.std.specs.Prelude.{◌≡◌};
ghost use Rattle.mvs_model.specs.Storage.{IsStorage, Release};
ghost use Rattle.cell_pool.specs.Layout.{byte_of, next_at};
ghost use Rattle.cell_pool.specs.Release.{DropsParts, HoldsPart};
ghost use Rattle.cell_pool.specs.Roots.{part_at};
ghost use Rattle.cell_pool.specs.Walk.{IsChain};

use crate::root::Root;
use crate::walk::length_of;
use crate::words::read_header;
use mvs_model::place::{Addr, Place};
use subpool_store::Store;

// Gives back the part at an address, and says where the next one is.
fn release_part(store: &mut Store, root: &Root, part: u32) -> u32
    requires { HoldsPart store.old.storage root.now part }
    ensures released { Release store.old.storage root.now.subpool
        (part_at (byte_of store.old.storage) root.now.cell_size part).place store.new.storage }
    ensures storage { IsStorage store.new.storage }
    ensures next { result ≡ next_at (byte_of store.old.storage) part }
{
    let header = read_header(store, part);
    let length = length_of(root.cell_size(), header.count);
    let place = Place::new(Addr::new(part), length);
    let Ok(()) = store.release(root.subpool, place) else {
        unreachable!();
    };
    header.next
}

// Gives back all parts of a pool.
pub(crate) fn release_parts(store: &mut Store, root: &Root)
    requires storage { IsStorage store.old.storage }
    requires chain { IsChain store.old.storage root.now }
    ensures { DropsParts store.old.storage root.now root.now.count store.new.storage }
{
    let mut part = root.first();
    'walk: for number in 0..root.count() {
        part = release_part(store, root, part);
    }
}
