//! The first name after a given one.

ghost use Rattle.mvs_model.specs.NextName.{IsFirstOf};

use crate::name::Name;

/// Returns the one of two names that comes first in byte order after the given one: the name, or what was found before it. Where
/// none is given, each name is after it.
pub fn first_of(found: Option<Name>, name: Name, given: &Option<Name>) -> Option<Name>
    ensures { IsFirstOf found name given.now result }
{
    let is_after = match given {
        Some(given) => *given < name,
        None => true,
    };
    let is_first = match found {
        Some(found) => name < found,
        None => true,
    };
    if is_after && is_first {
        Some(name)
    } else {
        found
    }
}
