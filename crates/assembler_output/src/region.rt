//! The region of the step, as REGION= of JCL says it.

/// The pages of the regions below and above 16 megabytes.
#[derive(Clone, Copy)]
pub struct RegionPages {
    pub below: u32,
    pub above: u32,
}

/// The largest region that a script may have.
pub const LARGEST: RegionPages = RegionPages {
    below: 2048,
    above: 8192,
};

/// The pages below 16 megabytes.
const BELOW: u32 = 4096;

// Returns the pages of a size: a number with K or M.
fn pages_of(text: &str) -> Option<u32> {
    if let Some(number) = text.strip_suffix(['K', 'k']) {
        return Some(number.parse::<u32>().ok()?.div_ceil(4));
    }
    let number = text.strip_suffix(['M', 'm'])?;
    number.parse::<u32>().ok()?.checked_mul(256)
}

// Returns the region of a single size. One of 0 is all; one above 16 megabytes is all below, and so much above.
fn single(pages: u32) -> Option<RegionPages> {
    match pages {
        0 => Some(LARGEST),
        _ if pages <= LARGEST.below => Some(RegionPages {
            below: pages,
            above: LARGEST.above,
        }),
        _ if pages > BELOW && pages <= LARGEST.above => Some(LARGEST),
        _ => None,
    }
}

/// Returns the region that a text is: one size, or two for below and above 16 megabytes; None if it is none that a script may have.
pub fn region_of(text: &str) -> Option<RegionPages> {
    let Some((below, above)) = text.split_once(',') else {
        return single(pages_of(text)?);
    };
    let (below, above) = (pages_of(below)?, pages_of(above)?);
    if below == 0 || below > LARGEST.below || above > LARGEST.above {
        return None;
    }
    Some(RegionPages { below, above })
}
