//! Texts before and after a separator.

ghost use Rattle.std.specs.Prelude.{◌≡◌, is_some, option_map};
ghost use Rattle.std.specs.List.{after_first, before_first};
ghost use Rattle.expected_answers.specs.Blank.{place_of, up_to};
ghost use Rattle.expected_answers.specs.ExpectedAnswers.{after_place};

use expected_answers::parted_at;

/// Returns a text up to the first of these separators; all of it, if it has none.
pub fn before<'a>(text: &'a [u8], separator: &[u8]) -> &'a [u8]
    ensures { result.now ≡ up_to (place_of separator.now text.now) text.now }
{
    let (first, _) = parted_at(text, separator);
    first
}

/// Returns what is after the first of these separators, if there is one.
pub fn after<'a>(text: &'a [u8], separator: &[u8]) -> Option<&'a [u8]>
    ensures { option_map (λ rest. rest.now) result ≡ after_place separator.now text.now }
{
    let (_, rest) = parted_at(text, separator);
    rest
}

/// Returns whether a text has such a part.
pub fn has(text: &[u8], part: &[u8]) -> bool
    ensures { result ≡ is_some (place_of part.now text.now) }
{
    after(text, part).is_some()
}
