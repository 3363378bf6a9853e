//! Finds where the parts of cell pools begin, from the cells that an output shows.

use crate::trials::{PartPlaces, PlaceTrial, StepPages, TrialPlaces, push_by_pages};
use mvs_job::AddressHints;
use mvs_model::error::OutOfMemory;
use mvs_model::line::SourceRequest;
use mvs_model::name::Name;
use mvs_model::place::Addr;
use std::alloc::Global;
use std::collections::HashMap;

// The most places that are tried for a part.
const MOST_PLACES: u32 = 4096;

// The known cells of a part: the first one that was taken, the lowest and the highest.
#[derive(Clone, Copy)]
struct Cells {
    first: u32,
    lowest: u32,
    highest: u32,
}

// A part: the line that added it to its pool, the line that built the pool, the size of a cell, the number of cells, the known ones, and
// the pages of the step.
#[derive(Clone, Copy)]
struct PoolPart {
    line: u32,
    pool_line: u32,
    cell_size: u32,
    count: u32,
    cells: Option<Cells>,
    pages: StepPages,
}

// A pool: the line at which it was made, how long a cell is, how many cells a further part has, how many cells are free, and the part
// that was put last.
#[derive(Clone, Copy)]
struct Pool {
    line: u32,
    cell_size: u32,
    secondary: u32,
    free: u32,
    part: usize,
}

// A cell that was taken: the line, and the part that was put last then.
#[derive(Clone, Copy)]
struct PartCells {
    line: u32,
    part: usize,
}

/// The parts and the cells of the lines so far.
#[derive(Drop)]
pub struct PoolParts {
    pools: HashMap<Name, Pool>,
    parts: Vec<PoolPart>,
    taken: Vec<PartCells>,
    pages: StepPages,
}

impl Cells {
    // Returns whether several are known, and the first one that was taken is the highest.
    fn go_down(&self) -> bool {
        self.lowest < self.highest && self.first == self.highest
    }

    // Returns whether the first one that was taken is the lowest.
    fn go_up(&self) -> bool {
        self.lowest < self.highest && self.first == self.lowest
    }
}

impl PoolPart {
    // Returns whether the known cells are cells of a part whose first cell is there.
    fn has_cells(&self, cells: &Cells, first: u32) -> bool {
        let Some(above) = cells.highest.checked_sub(first) else {
            return false;
        };
        first % 8 == 0 && above / self.cell_size.max(1) < self.count
    }

    // Returns the bytes before the cells: four words, and a bit for each cell in whole doublewords.
    fn head_len(&self) -> u32 {
        (self.count.saturating_add(63) / 64)
            .saturating_mul(8)
            .saturating_add(16)
    }

    // Returns the bytes of the cells.
    fn cells_len(&self) -> u32 {
        self.count.saturating_mul(self.cell_size)
    }

    // Returns the bytes of the part.
    fn len(&self) -> u32 {
        let len = self.head_len().saturating_add(self.cells_len());
        len.saturating_add(7) / 8 * 8
    }

    // Returns where the first cell may be: the likeliest place, and then each one from which the known cells are whole cells away. Where no cell
    // is known it is tried where the placement puts it, which is the hint 0, and then in each page.
    fn first_cells(&self, alloc: Global, go_down: bool) -> Result<Vec<u32>, OutOfMemory> {
        let mut places = Vec::new(alloc);
        let Some(cells) = self.cells else {
            places.push(0).map_err(|_| OutOfMemory)?;
            push_by_pages(&mut places, &self.pages, self.len(), self.head_len())?;
            return Ok(places);
        };
        let likeliest = self.first_cell(go_down);
        if let Some(first) = likeliest {
            places.push(first).map_err(|_| OutOfMemory)?;
        }
        let mut next = Some(cells.lowest);
        for _ in 0..self.count.min(MOST_PLACES) {
            let Some(first) = next else {
                break;
            };
            if Some(first) != likeliest && self.has_cells(&cells, first) {
                places.push(first).map_err(|_| OutOfMemory)?;
            }
            next = first.checked_sub(self.cell_size);
        }
        Ok(places)
    }

    // Returns the part after one of its cells is known.
    fn with_cell(&self, addr: u32) -> PoolPart {
        let cells = match self.cells {
            Some(cells) => Cells {
                first: cells.first,
                lowest: cells.lowest.min(addr),
                highest: cells.highest.max(addr),
            },
            None => Cells {
                first: addr,
                lowest: addr,
                highest: addr,
            },
        };
        PoolPart {
            cells: Some(cells),
            ..*self
        }
    }

    // Returns where the first cell is, if the highest one is the last.
    fn below_highest(&self, cells: &Cells) -> Option<u32> {
        let before = self.count.saturating_sub(1).saturating_mul(self.cell_size);
        let first = cells.highest.checked_sub(before)?;
        if first % 8 == 0 { Some(first) } else { None }
    }

    // Returns where the first cell is, if the lowest one is as near to it as it can be: the cells begin on a doubleword.
    fn from_lowest(&self, cells: &Cells) -> Option<u32> {
        let mut first = cells.lowest;
        for _ in 0..8 {
            if first % 8 == 0 {
                return Some(first);
            }
            first = first.checked_sub(self.cell_size)?;
        }
        None
    }

    // Returns where the first cell may be: cells are taken upwards, or downwards where several are, or where one is and so are those of
    // other parts.
    fn first_cell(&self, others_go_down: bool) -> Option<u32> {
        let cells = self.cells?;
        let is_one = cells.lowest == cells.highest;
        if cells.go_down() || is_one && others_go_down {
            if let Some(first) = self.below_highest(&cells) {
                return Some(first);
            }
        }
        self.from_lowest(&cells)
    }
}

/// Returns where the first cell of a part may be, by the size and the number of its cells, and the one that was taken first.
pub fn likely_first(cell_size: u32, count: u32, cell: u32) -> Option<u32> {
    let part = PoolPart {
        line: 0,
        pool_line: 0,
        cell_size,
        count,
        cells: None,
        pages: StepPages { below: 0, above: 0 },
    };
    part.with_cell(cell).first_cell(false)
}

impl PoolParts {
    /// Makes the parts of a job in which there is no pool.
    pub fn new(alloc: Global) -> PoolParts {
        PoolParts {
            pools: HashMap::new(alloc),
            parts: Vec::new(alloc),
            taken: Vec::new(alloc),
            pages: StepPages { below: 0, above: 0 },
        }
    }

    /// Forgets all pools, since a step with these pages begins.
    pub fn begin_step(&mut self, pages: StepPages) {
        self.pools.clear();
        self.pages = pages;
    }

    // Keeps a pool.
    fn keep(&mut self, name: &Name, pool: Pool) -> Result<(), OutOfMemory> {
        self.pools.insert(*name, pool).map_err(|_| OutOfMemory)?;
        Ok(())
    }

    // Adds a part, and returns its place in the list.
    fn put(&mut self, part: PoolPart) -> Result<usize, OutOfMemory> {
        let place = self.parts.len();
        self.parts.push(part).map_err(|_| OutOfMemory)?;
        Ok(place)
    }

    // Keeps a pool that was built.
    fn build(
        &mut self,
        name: &Name,
        line: u32,
        cell_size: u32,
        primary: u32,
        secondary: u32,
    ) -> Result<(), OutOfMemory> {
        let part = self.put(PoolPart {
            line,
            pool_line: line,
            cell_size,
            count: primary,
            cells: None,
            pages: self.pages,
        })?;
        let pool = Pool {
            line,
            cell_size,
            secondary,
            free: primary,
            part,
        };
        self.keep(name, pool)
    }

    // Takes a cell, of a further part if none is free.
    fn get(&mut self, name: &Name, line: u32) -> Result<(), OutOfMemory> {
        let Some(mut pool) = self.pools.get(name).copied() else {
            return Ok(());
        };
        if pool.free == 0 {
            pool.part = self.put(PoolPart {
                line,
                pool_line: pool.line,
                cell_size: pool.cell_size,
                count: pool.secondary,
                cells: None,
                pages: self.pages,
            })?;
            pool.free = pool.secondary;
        }
        pool.free = pool.free.saturating_sub(1);
        let taken = PartCells {
            line,
            part: pool.part,
        };
        self.taken.push(taken).map_err(|_| OutOfMemory)?;
        self.keep(name, pool)
    }

    // Gives a cell back.
    fn free(&mut self, name: &Name) -> Result<(), OutOfMemory> {
        let Some(mut pool) = self.pools.get(name).copied() else {
            return Ok(());
        };
        pool.free = pool.free.saturating_add(1);
        self.keep(name, pool)
    }

    /// Takes a request that was granted.
    pub fn take(&mut self, written: &SourceRequest, line: u32) -> Result<(), OutOfMemory> {
        match written {
            SourceRequest::Build {
                pool,
                size,
                primary,
                secondary,
                ..
            } => self.build(pool, line, size.get(), primary.get(), secondary.get()),
            SourceRequest::Get { pool, .. } => self.get(pool, line),
            SourceRequest::Free { pool, .. } => self.free(pool),
            SourceRequest::Delete { pool } => {
                self.pools.remove(pool);
                Ok(())
            }
            SourceRequest::Obtain { .. }
            | SourceRequest::ObtainList { .. }
            | SourceRequest::Release { .. }
            | SourceRequest::ReleaseArea { .. }
            | SourceRequest::ReleaseList { .. }
            | SourceRequest::ReleaseWhole { .. }
            | SourceRequest::Attach { .. }
            | SourceRequest::Return
            | SourceRequest::Abend(_)
            | SourceRequest::Show { .. }
            | SourceRequest::Put { .. }
            | SourceRequest::Move { .. } => Ok(()),
        }
    }

    // Records a cell that was taken when this part was the last. It is in the part, unless it was taken before the part was added.
    fn see(
        &mut self,
        place: usize,
        addr: u32,
        seen: &mut HashMap<u32, PoolPart>,
    ) -> Result<(), OutOfMemory> {
        let Some(part) = self.parts.get(place).copied() else {
            return Ok(());
        };
        if let Some(before) = seen.get(&addr) {
            if before.pool_line == part.pool_line && before.line != part.line {
                return Ok(());
            }
        }
        let part = part.with_cell(addr);
        if let Some(kept) = self.parts.get_mut(place) {
            *kept = part;
        }
        seen.insert(addr, part).map_err(|_| OutOfMemory)?;
        Ok(())
    }

    // Records each known cell.
    fn see_each(&mut self, alloc: Global, hints: &AddressHints) -> Result<(), OutOfMemory> {
        let mut seen = HashMap::new(alloc);
        for number in 0..self.taken.len() {
            if let Some(taken) = self.taken.get(number).copied() {
                if let Some(addr) = hints.of(taken.line).first() {
                    self.see(taken.part, addr.get(), &mut seen)?;
                }
            }
        }
        Ok(())
    }

    // Returns whether the cells of some part are taken downwards, and those of none upwards.
    fn go_down(&self) -> bool {
        let mut some_down = false;
        for part in &self.parts {
            if let Some(cells) = part.cells {
                if cells.go_up() {
                    return false;
                }
                some_down = some_down || cells.go_down();
            }
        }
        some_down
    }

    /// Returns the hint for the first cell of each part: of the first part of a pool for the line of its BUILD, and of a further
    /// one after the cell of the line that added it.
    pub fn add_hints(
        &mut self,
        alloc: Global,
        hints: &mut AddressHints,
    ) -> Result<(), OutOfMemory> {
        self.see_each(alloc, hints)?;
        let go_down = self.go_down();
        for part in &self.parts {
            let is_further = part.line != part.pool_line;
            if is_further && hints.of(part.line).is_empty() {
                continue;
            }
            if let Some(first) = part.first_cell(go_down) {
                hints.add(alloc, part.line, Addr::new(first.min(0x7FFF_FFFF)))?;
            }
        }
        Ok(())
    }

    /// Returns the places that each part may have by its known cells, in the order of the parts.
    pub fn trials(
        &mut self,
        alloc: Global,
        hints: &AddressHints,
    ) -> Result<Vec<PlaceTrial>, OutOfMemory> {
        self.see_each(alloc, hints)?;
        let go_down = self.go_down();
        let mut all = Vec::new(alloc);
        for part in &self.parts {
            let places = PartPlaces {
                is_further: part.line != part.pool_line,
                first_cells: part.first_cells(alloc, go_down)?,
                head_len: part.head_len(),
                cells_len: part.cells_len(),
            };
            let trial = PlaceTrial {
                line: part.line,
                places: TrialPlaces::Part(places),
            };
            all.push(trial).map_err(|_| OutOfMemory)?;
        }
        Ok(all)
    }

    /// Leaves each part to the placement: the hint for a further one is an address where no cell begins.
    pub fn leave(&self, alloc: Global, hints: &mut AddressHints) -> Result<(), OutOfMemory> {
        for part in &self.parts {
            if part.line != part.pool_line && !hints.of(part.line).is_empty() {
                hints.add(alloc, part.line, Addr::new(0))?;
            }
        }
        Ok(())
    }
}
