//! Doublewords of a region that follow one another.

/// The index of the first doubleword in its region, and the index after the last.
#[derive(Clone, Copy)]
pub struct Run {
    pub start: usize,
    pub end: usize,
}
