//! The cell pools of the step that runs.

ghost use Rattle.std.specs.Prelude.{◌≡◌, ◌≢◌, MatchBool, Option};
ghost use Rattle.mvs_model.specs.View.{IsBounded};
ghost use Rattle.mvs_c.specs.Access.{ReturnsOne};
ghost use Rattle.mvs_c.specs.Pools.{FindsPool, IsPageLabel, pool_bytes, pool_value};
ghost use Rattle.mvs_c.specs.declared.pool.PoolFields.{PoolFields};

use crate::ask::name_of;
use crate::held::END_PAGE;
use crate::open::Open;
use crate::status::{NO_MORE, OK};
use mvs_model::name::Name;
use mvs_model::numbers::{FIRST_PAGE_BELOW, PAGE_BYTES};
use mvs_model::place::Addr;
use mvs_model::report::LastPart;
use mvs_model::subpool::SubNo;
use request_forms::Machine;

/// The number of bytes of a cell pool for C.
const POOL_BYTES: u32 = 36;

/// A cell pool: its cells, its parts, and the part that was added last.
#[repr(C)]
#[derive(Clone, Copy)]
pub struct PoolFields {
    /// The number of bytes of this struct.
    pub size: u32,
    /// The bytes of a cell.
    pub cell_size: u32,
    pub parts: u32,
    /// Where the last part is, and how many cells it has.
    pub address: u32,
    pub length: u32,
    pub cells: u32,
    /// The number and the owner of the subpool that its first page is assigned to.
    pub number: u32,
    pub owner: [u8; 8],
}

impl PoolFields {
    /// Returns whether the size is that of a pool.
    pub fn is_sized(&self) -> bool
        ensures { MatchBool result (self.now.size ≡ pool_bytes) (self.now.size ≢ pool_bytes) }
    {
        self.size == POOL_BYTES
    }
}

// Returns the number and the owner of the subpool that a page is assigned to.
fn page_label(machine: &Machine, page: u32) -> Option<(SubNo, Name)>
    requires { IsBounded machine.now.state.regions }
    ensures { IsPageLabel machine.now.state page result }
{
    let mut next = FIRST_PAGE_BELOW;
    for i in 0..END_PAGE {
        let Some(pages) = machine.map_run(Addr::new(PAGE_BYTES * next)) else {
            return None;
        };
        let first = pages.addr.get() / PAGE_BYTES;
        next = (pages.addr.get() + pages.len) / PAGE_BYTES;
        if page < first {
            return None;
        }
        if page < next {
            return pages.holder;
        }
    }
    None
}

// Returns a pool for C.
fn pool_value(part: &LastPart, label: Option<(SubNo, Name)>) -> PoolFields
    ensures { result ≡ pool_value part.now label }
{
    let (number, owner) = match label {
        Some((number, owner)) => (u32::from(number.get()), owner.bytes()),
        None => (0, [b' '; 8]),
    };
    PoolFields {
        size: POOL_BYTES,
        cell_size: part.cell_size,
        parts: part.parts,
        address: part.place.addr().get(),
        length: part.place.len(),
        cells: part.cells,
        number,
        owner,
    }
}

// Returns the pool of a name.
fn find_pool(held: &Open, name: &[u8; 8]) -> Option<PoolFields>
    ensures { FindsPool held.now name.now result }
{
    let job = held.job()?;
    let name = name_of(name)?;
    let machine = job.step().machine();
    let part = machine.newest(&name)?;
    let label = page_label(machine, part.place.addr().get() / PAGE_BYTES);
    Some(pool_value(&part, label))
}

/// Returns the pool of a name.
pub fn copy_pool(held: &Open, name: &[u8; 8], pool: &mut PoolFields) -> u32
    ensures { (found : Option PoolFields) × FindsPool held.now name.now found
        × ReturnsOne found (λ p. p) pool.old pool.new result }
{
    match find_pool(held, name) {
        Some(found) => {
            *pool = found;
            OK
        }
        None => NO_MORE,
    }
}
