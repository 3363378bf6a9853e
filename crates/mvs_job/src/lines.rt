//! The first line of a script in memory.

ghost use Rattle.std.specs.Prelude.{◌≡◌, ◌≢◌, ◌<◌, ◌≤◌, ◌+◌, ◌∷◌, ℕ, length, take, drop, slice_index, MatchOption};
ghost use Rattle.mvs_model.specs.Lines.{lines_of};

use memchr::memchr;

// Returns where the first line of a script ends, where it ends in it.
fn line_feed(script: &[u8]) -> Option<usize>
    ensures { MatchOption result
        ((k : ℕ) → k < length script.now → slice_index script.now k ≢ 10)
        (λ end. (end < length script.now) × (slice_index script.now end ≡ 10)
        × ((k : ℕ) → k < end → slice_index script.now k ≢ 10)) }
{
    memchr(b'\n', script)
}

/// Returns how many bytes the first line has of a script that has some.
pub fn line_end(script: &[u8]) -> usize
    requires { 0 < length script.now }
    ensures within { result ≤ length script.now }
    ensures lines { lines_of script.now
        ≡ take result script.now ∷ lines_of (drop (result + 1) script.now) }
{
    match line_feed(script) {
        Some(end) => end,
        None => script.len(),
    }
}
