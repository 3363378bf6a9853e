//! What is kept of a pool outside storage.

ghost use Rattle.std.specs.Prelude.{◌≡◌, ◌<◌, ◌≤◌, ◌+◌, ◌-◌, ◌^◌, ◌==◌, MatchBool};
ghost use Rattle.cell_pool.specs.Roots.{extended};

use mvs_model::bounded::{CellCount, CellSize};
use mvs_model::place::Addr;
use mvs_model::subpool::SubpoolId;
use mvs_model::want::Side;
use std::marker::Model;

// The record of a pool outside storage: its subpool, the size of a cell, the numbers of cells of the first part and of further
// ones, their side, the fill byte of a cell, the number of parts, the addresses of the first and the last part, the number of free
// cells, and a part before which all parts are full.
#[derive(Clone, Copy)]
pub(crate) struct Root {
    pub(crate) subpool: SubpoolId,
    pub(crate) cell_size: CellSize,
    pub(crate) primary: CellCount,
    pub(crate) secondary: CellCount,
    pub(crate) side: Side,
    pub(crate) fill: u8,
    pub(crate) count: u32,
    pub(crate) first: Addr,
    pub(crate) last: Addr,
    pub(crate) free: u64,
    pub(crate) open_part: Addr,
}

impl Model for Root {
    ghost use Rattle.cell_pool.specs.Roots.{Root, root_code};

    ghost Value = { Root };

    ghost coded = { root_code };

    ghost view = { λ r. record { subpool = r.subpool; cell_size = r.cell_size; primary = r.primary; secondary = r.secondary; side = r.side; fill = r.fill; count = r.count; first = r.first; last = r.last; free = r.free; open_part = r.open_part } };

    ghost inverse = { λ v. record { subpool = v.subpool; cell_size = v.cell_size; primary = v.primary; secondary = v.secondary; side = v.side; fill = v.fill; count = v.count; first = v.first; last = v.last; free = v.free; open_part = v.open_part } };
}

impl Root {
    // Returns where the first part is.
    pub(crate) fn first(&self) -> u32
        ensures first { result ≡ self.now.first }
        ensures low { result < 2 ^ 31 }
    {
        self.first.get()
    }

    // Returns whether the pool is of the subpool.
    pub(crate) fn is_of(&self, subpool: SubpoolId) -> bool
        ensures { result ≡ (self.now.subpool == subpool) }
    {
        self.subpool.get() == subpool.get()
    }

    // Returns how many parts there are.
    pub(crate) fn count(&self) -> u32
        ensures { result ≡ self.now.count }
    {
        self.count
    }

    // Returns the bytes of a cell.
    pub(crate) fn cell_size(&self) -> u32
        ensures size { result ≡ self.now.cell_size }
        ensures some { 4 ≤ result }
        ensures few { result ≤ 65536 }
    {
        self.cell_size.get()
    }

    // Returns where the last part is.
    pub(crate) fn last(&self) -> u32
        ensures last { result ≡ self.now.last }
        ensures low { result < 2 ^ 31 }
    {
        self.last.get()
    }

    // Returns where a part is before which all parts are full.
    pub(crate) fn open_part(&self) -> u32
        ensures { result ≡ self.now.open_part }
    {
        self.open_part.get()
    }

    // Returns whether a cell is free.
    pub(crate) fn has_free(&self) -> bool
        ensures { MatchBool result (1 ≤ self.now.free) (self.now.free ≡ 0) }
    {
        self.free > 0
    }

    // Returns the record with a further part after the others, which are full.
    pub(crate) fn with_part(&self, part: Addr) -> Root
        requires { self.now.count < 0x1000_0000 }
        ensures { result ≡ extended self.now part }
    {
        Root {
            count: self.count + 1,
            last: part,
            free: u64::from(self.secondary.get()),
            open_part: part,
            ..*self
        }
    }

    // Returns the root after one cell was taken in this part, before which all parts are full.
    pub(crate) fn with_taken(&self, part: Addr) -> Root
        requires { 1 ≤ self.now.free }
        ensures { result ≡ record self.now { free = self.now.free - 1; open_part = part } }
    {
        Root {
            free: self.free - 1,
            open_part: part,
            ..*self
        }
    }

    // Returns the root after one cell was given back; before `open_part` all parts are full.
    pub(crate) fn with_freed(&self, open_part: Addr) -> Root
        requires { self.now.free < 2 ^ 63 }
        ensures { result ≡ record self.now { free = self.now.free + 1; open_part = open_part } }
    {
        Root {
            free: self.free + 1,
            open_part,
            ..*self
        }
    }
}
