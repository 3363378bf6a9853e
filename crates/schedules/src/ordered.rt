//! The lines of a script in the order of a schedule.

ghost use Rattle.std.specs.Prelude.{◌≢◌, ◌+◌, ◌<◌, ◌^◌, [], ℕ, get_or, length, map};

/// The lines of a script, and the numbers of those that run, in the order in which they run.
#[derive(Drop)]
pub struct Ordered<'a> {
    pub lines: Vec<&'a [u8]>,
    pub numbers: Vec<u32>,
    ghost unended: { (i k : ℕ) → get_or (get_or (map (λ l. l.now) lines.items) i []) k 0 ≢ 10 },
    ghost few: { length numbers.items + 3 < 2 ^ 32 },
}
