//! Columns of a line.

ghost use Rattle.std.specs.Prelude.{◌≡◌, ◌≤◌, length};
ghost use Rattle.diagnosis.specs.Blame.{AreWithin, columns_of};

/// The first and the last of some columns; the first column of a line is 1.
#[derive(Clone, Copy, Debug, PartialEq, Eq)]
pub struct Columns {
    pub first: usize,
    pub last: usize,
}

impl Columns {
    /// Returns the columns of a number of bytes of a line, from a place on. If there are none, it is the byte there, or the last
    /// one of the line.
    pub fn of(line: &[u8], at: usize, count: usize) -> Columns
        ensures exact { result ≡ columns_of (length line.now) at count }
        ensures within { 1 ≤ length line.now → AreWithin line.now result }
    {
        let size = line.len();
        if at < size {
            Columns {
                first: at + 1,
                last: at + count.max(1).min(size - at),
            }
        } else {
            Columns {
                first: size,
                last: size,
            }
        }
    }
}
