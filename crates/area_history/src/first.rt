//! Lists of the first items.

ghost use Rattle.std.specs.Prelude.{◌≡◌, ◌++◌, ◌∷◌, [], take};

use mvs_model::short_list::ShortList;

/// Appends an item, if there is room.
pub(crate) fn push<T: Copy, const MOST: usize>(list: &mut ShortList<T, 0, MOST>, item: &T)
    ensures { list.new ≡ take MOST (list.old ++ item.now ∷ []) }
{
    if !list.is_full() {
        list.push(*item);
    }
}
