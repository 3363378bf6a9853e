//! Names that are compared.

ghost use Rattle.std.specs.Prelude.{◌≡◌};
ghost use Rattle.mvs_model.specs.Name.{same_name};

use mvs_model::name::Name;

/// Returns whether two names are equal.
pub fn is_same_name(one: &Name, other: &Name) -> bool
    ensures { result ≡ same_name one.now other.now }
{
    *one == *other
}
