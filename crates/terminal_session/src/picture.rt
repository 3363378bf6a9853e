//! A picture of the pages of a step: a line for each page, with one sign for 64 bytes.

use job_step::Step;
use mvs_job::Job;
use mvs_model::name::Name;
use mvs_model::numbers::{BELOW_BEGINS, PAGE_BYTES};
use mvs_model::place::Addr;
use mvs_model::reason::Holder;
use mvs_model::report::MapRun;
use mvs_model::subpool::SubNo;
use std::alloc::{AllocError, Global};
use std::fmt;

/// The signs of a page.
const WIDTH: usize = 64;

/// How many doublewords a sign shows.
const DOUBLEWORDS: u32 = 8;

/// The last address.
const LAST_ADDRESS: u32 = 0x7FFF_FFFF;

/// The letters of subpools, in the order in which the subpools appear.
const LETTERS: &[u8; 52] = b"ABCDEFGHIJKLMNOPQRSTUVWXYZabcdefghijklmnopqrstuvwxyz";

/// The sign of bytes that are free, and that of a subpool after the 52nd.
const FREE: u8 = b'.';

const OTHER: u8 = b'#';

// A page of a subpool, or free pages that follow one another.
#[derive(Clone, Copy)]
enum PageRow {
    Assigned { addr: u32, signs: [u8; WIDTH] },
    Free { addr: u32, pages: u32 },
}

/// The pages of a step.
#[derive(Drop)]
pub struct Picture {
    rows: Vec<PageRow>,
    subpools: Vec<(SubNo, Name)>,
}

// Some signs.
#[derive(Clone, Copy)]
struct Signs<'a>(&'a [u8]);

// Returns the address after a number of bytes, or the last address if there is none.
fn address_after(addr: u32, bytes: u32) -> Addr {
    Addr::new(addr.saturating_add(bytes).min(LAST_ADDRESS))
}

// Returns whether a doubleword of the 64 bytes from an address on is held.
fn is_held(step: &Step, addr: u32) -> bool {
    for doubleword in 0..DOUBLEWORDS {
        match step.machine().holder(address_after(addr, 8 * doubleword)) {
            Holder::Subpool(..) | Holder::Unowned | Holder::Part(_) => return true,
            Holder::Nobody | Holder::Outside => {}
        }
    }
    false
}

// Returns the signs of a page, by the letter of its subpool.
fn signs_of(step: &Step, addr: u32, letter: u8) -> [u8; WIDTH] {
    let mut signs = [FREE; WIDTH];
    for place in 0..WIDTH {
        if is_held(step, addr.saturating_add(64 * place as u32)) {
            signs[place] = letter;
        }
    }
    signs
}

impl Picture {
    /// Makes the picture of a step.
    pub fn of(alloc: Global, job: &Job) -> Result<Picture, AllocError> {
        let mut picture = Picture {
            rows: Vec::new(alloc),
            subpools: Vec::new(alloc),
        };
        let mut from = Addr::new(BELOW_BEGINS);
        for _ in 0..u32::MAX {
            let Some(run) = job.step().map_run(from) else {
                return Ok(picture);
            };
            picture.push_run(job.step(), &run)?;
            from = address_after(run.addr.get(), run.len);
        }
        Ok(picture)
    }

    // Returns the letter of a subpool.
    fn letter(&mut self, subpool: (SubNo, Name)) -> Result<u8, AllocError> {
        let known = self.subpools.iter().position(|other| *other == subpool);
        let place = match known {
            Some(place) => place,
            None => {
                self.subpools.push(subpool)?;
                self.subpools.len() - 1
            }
        };
        Ok(LETTERS.get(place).copied().unwrap_or(OTHER))
    }

    // Appends the pages of a run.
    fn push_run(&mut self, step: &Step, run: &MapRun) -> Result<(), AllocError> {
        let (first, pages) = (run.addr.get(), run.len / PAGE_BYTES);
        let Some(subpool) = run.holder else {
            self.rows.push(PageRow::Free { addr: first, pages })?;
            return Ok(());
        };
        let letter = self.letter(subpool)?;
        for page in 0..pages {
            let addr = first.saturating_add(page.saturating_mul(PAGE_BYTES));
            let signs = signs_of(step, addr, letter);
            self.rows.push(PageRow::Assigned { addr, signs })?;
        }
        Ok(())
    }
}

impl fmt::Display for Signs<'_> {
    fn fmt<W: fmt::Write>(&self, f: &mut fmt::Formatter<W>) -> fmt::Result {
        for sign in self.0 {
            write!(f, "{}", char::from(*sign))?;
        }
        Ok(())
    }
}

impl fmt::Display for PageRow {
    fn fmt<W: fmt::Write>(&self, f: &mut fmt::Formatter<W>) -> fmt::Result {
        match self {
            PageRow::Assigned { addr, signs } => writeln!(f, "{addr:08X} {}", Signs(signs)),
            PageRow::Free { addr, pages: 1 } => writeln!(f, "{addr:08X} 1 free page"),
            PageRow::Free { addr, pages } => writeln!(f, "{addr:08X} {pages} free pages"),
        }
    }
}

// Writes the legend.
fn write_legend<W: fmt::Write>(
    f: &mut fmt::Formatter<W>,
    subpools: &[(SubNo, Name)],
) -> fmt::Result {
    writeln!(f, "         each sign is 64 bytes; . is free")?;
    for (place, (number, owner)) in subpools.iter().enumerate() {
        let sign = LETTERS.get(place).copied().unwrap_or(OTHER);
        writeln!(
            f,
            "         {} is SP {} of {}",
            char::from(sign),
            number.get(),
            Signs(owner.text())
        )?;
    }
    Ok(())
}

impl fmt::Display for Picture {
    fn fmt<W: fmt::Write>(&self, f: &mut fmt::Formatter<W>) -> fmt::Result {
        for row in &self.rows {
            write!(f, "{row}")?;
        }
        write_legend(f, &self.subpools)
    }
}
