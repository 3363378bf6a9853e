//! Places that are tried one after the other: of the parts of pools, and of the areas of a list that an output refuses.

use mvs_job::AddressHints;
use mvs_model::error::OutOfMemory;
use mvs_model::place::Addr;
use std::alloc::Global;

// The bytes of a page, and where the pages of a step begin.
const PAGE_BYTES: u32 = 4096;

const BELOW_BEGINS: u32 = 0x6000;

const ABOVE_BEGINS: u32 = 0x100_0000;

// The most pages of each region in which something is tried that could be anywhere.
const MOST_PAGES: u32 = 32;

// The ways at random to place the areas of a list.
const RANDOM_WAYS: u32 = 64;

/// The pages of a step, below 16 megabytes and above.
#[derive(Clone, Copy)]
pub struct StepPages {
    pub below: u32,
    pub above: u32,
}

/// Where storage is in a page: at its beginning, at its end, in its middle, or half of it in the next page.
#[derive(Clone, Copy, Debug, PartialEq, Eq)]
enum PagePlace {
    Begin,
    End,
    Middle,
    Across,
}

const PAGE_PLACES: [PagePlace; 4] = [
    PagePlace::Begin,
    PagePlace::End,
    PagePlace::Across,
    PagePlace::Middle,
];

/// The places that a part of a pool may have.
#[derive(Drop)]
pub struct PartPlaces {
    /// Whether its pool had other parts before.
    pub is_further: bool,
    /// Where its first cell may be, the likeliest place first.
    pub first_cells: Vec<u32>,
    /// The bytes before its cells, and those of its cells.
    pub head_len: u32,
    pub cells_len: u32,
}

/// The areas of a list that is refused: how many there are, and the pages below 16 megabytes.
#[derive(Clone, Copy)]
pub struct RefusedList {
    pub areas: u32,
    pub pages: u32,
}

/// What has places that are tried.
#[derive(Drop)]
pub enum TrialPlaces {
    Part(PartPlaces),
    List(RefusedList),
}

/// A line of the script whose places are tried.
#[derive(Drop)]
pub struct PlaceTrial {
    pub line: u32,
    pub places: TrialPlaces,
}

impl PagePlace {
    // Returns where storage of a length begins that is so in the page that begins at an address.
    fn start(self, page: u32, len: u32) -> u32 {
        let end = page.saturating_add(PAGE_BYTES);
        let start = match self {
            PagePlace::Begin => page,
            PagePlace::End => end.saturating_sub(len),
            PagePlace::Middle => page.saturating_add(PAGE_BYTES / 2).saturating_sub(len / 2),
            PagePlace::Across => end.saturating_sub(len / 2),
        };
        start / 8 * 8
    }
}

// Adds a place of the first pages of a region.
fn push_in_region(
    places: &mut Vec<u32>,
    begins: u32,
    pages: u32,
    len: u32,
    front: u32,
) -> Result<(), OutOfMemory> {
    for place in PAGE_PLACES {
        for page in 0..pages.min(MOST_PAGES) {
            let begin = begins.saturating_add(page.saturating_mul(PAGE_BYTES));
            places
                .push(place.start(begin, len).saturating_add(front))
                .map_err(|_| OutOfMemory)?;
        }
    }
    Ok(())
}

/// Adds addresses that are a number of bytes behind the start of storage of a length, in each of the first pages.
pub fn push_by_pages(
    places: &mut Vec<u32>,
    pages: &StepPages,
    len: u32,
    front: u32,
) -> Result<(), OutOfMemory> {
    push_in_region(places, BELOW_BEGINS, pages.below, len, front)?;
    push_in_region(places, ABOVE_BEGINS, pages.above, len, front)
}

impl PartPlaces {
    // Returns whether one of its places has storage in the page of an address.
    fn is_near(&self, choice: usize, addr: u32) -> bool {
        let Some(first) = self.first_cells.get(choice) else {
            return false;
        };
        let page = addr / PAGE_BYTES;
        let begin = first.saturating_sub(self.head_len) / PAGE_BYTES;
        let end = first.saturating_add(self.cells_len) / PAGE_BYTES;
        begin <= page && page <= end
    }

    // Adds the hint for one of its places. A part without places is left to the placement.
    fn add_hint(
        &self,
        alloc: Global,
        hints: &mut AddressHints,
        line: u32,
        choice: usize,
    ) -> Result<(), OutOfMemory> {
        if self.is_further && hints.of(line).is_empty() {
            return Ok(());
        }
        let first = self.first_cells.get(choice).copied().unwrap_or(0);
        hints.add(alloc, line, Addr::new(first.min(0x7FFF_FFFF)))
    }
}

impl RefusedList {
    // Returns how many ways there are in which its areas are in the middles of pages one after the other, or each is in two pages: each way begins in
    // another page.
    fn even_ways(&self) -> u32 {
        self.pages.min(MOST_PAGES).saturating_mul(3)
    }

    // Returns how many ways there are to place its areas: these, and some at random.
    fn ways(&self) -> u32 {
        self.even_ways().saturating_add(RANDOM_WAYS)
    }

    // Returns the page and the offset of an area in one of the ways.
    fn page_and_offset(&self, way: u32, area: u32) -> (u32, u32) {
        if way >= self.even_ways() {
            let dice = way
                .wrapping_mul(0x9E37_79B1)
                .wrapping_add(area.wrapping_mul(0x85EB_CA77));
            return (dice >> 18, dice >> 6 & 0xFF8);
        }
        let (step, offset) = match way % 3 {
            0 => (1, PAGE_BYTES / 2),
            1 => (2, PAGE_BYTES - 8),
            _ => (1, PAGE_BYTES - 8),
        };
        ((way / 3).saturating_add(area.saturating_mul(step)), offset)
    }

    // Returns the address of an area in one of the ways.
    fn addr(&self, way: u32, area: u32) -> u32 {
        let (number, offset) = self.page_and_offset(way, area);
        let page = number % self.pages.max(1);
        BELOW_BEGINS
            .saturating_add(page.saturating_mul(PAGE_BYTES))
            .saturating_add(offset)
    }

    // Adds the hints for one of the ways; the first is left to the placement.
    fn add_hints(
        &self,
        alloc: Global,
        hints: &mut AddressHints,
        line: u32,
        choice: usize,
    ) -> Result<(), OutOfMemory> {
        let Some(way) = choice.checked_sub(1) else {
            return Ok(());
        };
        for area in 0..self.areas {
            let addr = self.addr(u32::try_from(way).unwrap_or(0), area);
            hints.add(alloc, line, Addr::new(addr.min(0x7FFF_FFFF)))?;
        }
        Ok(())
    }
}

impl PlaceTrial {
    /// Returns how many places are tried.
    pub fn count(&self) -> usize {
        match &self.places {
            TrialPlaces::Part(part) => part.first_cells.len(),
            TrialPlaces::List(list) => list.ways() as usize + 1,
        }
    }

    /// Returns whether one of the places has storage in the page of an address.
    pub fn is_near(&self, choice: usize, addr: u32) -> bool {
        match &self.places {
            TrialPlaces::Part(part) => part.is_near(choice, addr),
            TrialPlaces::List(_) => false,
        }
    }

    /// Adds the hints for one of the places.
    pub fn add_hints(
        &self,
        alloc: Global,
        hints: &mut AddressHints,
        choice: usize,
    ) -> Result<(), OutOfMemory> {
        match &self.places {
            TrialPlaces::Part(part) => part.add_hint(alloc, hints, self.line, choice),
            TrialPlaces::List(list) => list.add_hints(alloc, hints, self.line, choice),
        }
    }
}
