//! Names in the order of the lines that set them.

ghost use Rattle.std.specs.Prelude.{◌≡◌, ◌<◌, ◌≤◌, ℕ, ◌∷◌, length, OnErr, OnOk};
ghost use Rattle.std.specs.List.{filter, slice_index_or};
ghost use Rattle.std.specs.List.Sorted.{IsPermutation};
ghost use Rattle.std.specs.FinMap as map;
ghost use Rattle.mvs_model.specs.Name.{name_cmp};
ghost use Rattle.mvs_job.specs.NameOrder.{IsInOrder, is_latest};

use mvs_model::error::OutOfMemory;
use mvs_model::name::Name;
use std::collections::HashMap;

// Up to this number of replaced names, names are not put in order again.
const FEW: usize = 64;

/// Returns whether most of a number of names in order are not among those that are set, and they are many.
pub(crate) fn has_many_former(in_order: usize, set: usize) -> bool {
    in_order / 2 > set.saturating_add(FEW)
}

// Returns whether a line set a name last.
fn is_latest(numbers: &HashMap<Name, u32>, name: &Name, number: u32) -> bool
    ensures { result ≡ is_latest (map.from_entries numbers.now.entries) (name.now, number) }
{
    match numbers.get(name) {
        Some(latest) => *latest == number,
        None => false,
    }
}

/// Keeps only the names with the lines that set them last.
pub(crate) fn drop_former(order: &mut Vec<(Name, u32)>, numbers: &HashMap<Name, u32>)
    ensures { order.new.items ≡ filter (is_latest (map.from_entries numbers.now.entries)) order.old.items }
{
    let mut kept = 0;
    'names: for at in 0..order.len() {
        let (name, number) = order[at];
        if is_latest(numbers, &name, number) {
            order.swap(kept, at);
            kept += 1;
        }
    }
    order.truncate(kept);
}

// Returns how many names were set by lines up to this one.
fn count_up_to(order: &[(Name, u32)], number: u32) -> usize
    requires { IsInOrder order.now }
    ensures bound { result ≤ length order.now }
    ensures before { (k : ℕ) (d : _) → k < result → (slice_index_or order.now k d).1 ≤ number }
    ensures after { (k : ℕ) (d : _) → result ≤ k → k < length order.now
        → number < (slice_index_or order.now k d).1 }
{
    let mut at = order.len();
    'names: while at > 0 {
        if order[at - 1].1 <= number {
            return at;
        }
        at -= 1;
    }
    at
}

/// Puts a name after those that this line or earlier ones set.
pub(crate) fn put_in_order(
    order: &mut Vec<(Name, u32)>,
    name: Name,
    number: u32,
) -> Result<(), OutOfMemory>
    requires { IsInOrder order.old.items }
    ensures sorted { IsInOrder order.new.items }
    ensures ok { OnOk result (IsPermutation ((name, number) ∷ order.old.items) order.new.items) }
    ensures err { OnErr result (order.new.items ≡ order.old.items) }
{
    let at = count_up_to(order, number);
    order.insert(at, (name, number)).map_err(|_| OutOfMemory)?;
    Ok(())
}
