//! Laws of pages: each function does nothing, and its contract is the law.

ghost use Rattle.std.specs.Prelude.{◌≡◌, ℕ, List, true};
ghost use Rattle.page.specs.Markup.{escaped, is_plain};
ghost use Rattle.page.specs.Picture.{ChangesDraw, EachIsDrawn};

use mvs_laws::laws::well_formed;

/// No tag and no attribute begins or ends in a text that is written between tags.
pub fn escaped_is_plain()
    ensures { (text : List ℕ) → is_plain (escaped text) ≡ true }
{}

/// After each line of a run, the lines of change so far, applied to a blank picture, show the step: its regions, its held
/// doublewords, the bytes that may be read, the tasks with what they have, the names and the pools.
pub fn changes_draw_the_step()
    ensures drawn { EachIsDrawn }
    ensures shown { ChangesDraw }
{
    well_formed();
}
