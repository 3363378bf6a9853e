//! Empty entries, several of which are skipped at once.

ghost use Rattle.std.specs.Prelude.{◌≡◌, ◌<◌, ◌≤◌, ℕ, None, not, is_some, length, slice_index_or};
ghost use Rattle.std.specs.List.{list_all};

// Returns whether none of some entries holds something.
fn are_none<T: Copy>(entries: &[Option<T>]) -> bool
    ensures { result ≡ list_all (λ s. not (is_some s)) entries.now }
{
    let mut none = true;
    for entry in entries {
        none &= entry.is_none();
    }
    none
}

/// Skips empty entries from one on, sixteen at a time, and returns where it stopped.
pub fn pass_none<T: Copy>(entries: &[Option<T>], from: usize) -> usize
    requires { from ≤ length entries.now }
    ensures ordered { from ≤ result }
    ensures within { result ≤ length entries.now }
    ensures none { (n : ℕ) → from ≤ n → n < result → slice_index_or entries.now n None ≡ None }
{
    let mut at = from;
    while entries.len() - at >= 16 && are_none(&entries[at..at + 16]) {
        at += 16;
    }
    at
}
