//! Texts, parted at bytes.

ghost use Rattle.std.specs.Prelude.{◌≡◌, ◌≤◌, ◌<◌, ◌+◌, ◌^◌, ◌==◌, ◌∷◌, ◌++◌, [], true, false, length, drop, position, slice_get, unwrap_or, MatchOption, IfSome};
ghost use Rattle.std.specs.List.{before_first, after_first, list_any, slice_split};
ghost use Rattle.mvs_model.specs.Reading.{words, parts_within};
ghost use Rattle.job_script.specs.Parted.{IsEnd, starts_word, field_in, ends_at, opened_after, end_from};

// Returns the index of the first of these bytes.
fn place(text: &[u8], byte: u8) -> Option<usize>
    ensures { result ≡ position (λ b. b == byte) text.now }
{
    text.iter().position(|other| *other == byte)
}

/// Returns the text before the first of these bytes, and the text after it, if there is one.
pub fn split_once(text: &[u8], byte: u8) -> (&[u8], Option<&[u8]>)
    ensures before { result.0.now ≡ before_first (λ b. b == byte) text.now }
    ensures after { MatchOption result.1
        ((list_any (λ b. b == byte) text.now ≡ false)
        × (after_first (λ b. b == byte) text.now ≡ []))
        (λ rest. (list_any (λ b. b == byte) text.now ≡ true)
        × (rest.now ≡ after_first (λ b. b == byte) text.now)) }
    ensures parts { MatchOption result.1 (slice_split (λ b. b == byte) text.now ≡ result.0.now ∷ [])
        (λ rest. slice_split (λ b. b == byte) text.now
        ≡ result.0.now ∷ slice_split (λ b. b == byte) rest.now) }
    ensures less { IfSome result.1 (λ rest. length rest.now < length text.now) }
{
    match place(text, byte) {
        None => (text, None),
        Some(end) => (&text[..end], Some(&text[end + 1..])),
    }
}

/// Returns the text from its first byte on that is no blank.
pub fn skip_blanks(text: &[u8]) -> &[u8]
    ensures words { words result.now ≡ words text.now }
    ensures end { IsEnd text.now result.now }
    ensures start { starts_word result.now ≡ true }
{
    for (i, byte) in text.iter().enumerate() {
        if *byte != b' ' {
            return &text[i..];
        }
    }
    &[]
}

/// Returns the first word of a text, which is empty if there is none, and the text after it.
pub fn next_word(text: &[u8]) -> (&[u8], &[u8])
    ensures word { result.0.now ≡ unwrap_or (slice_get (words text.now) 0) [] }
    ensures rest { words result.1.now ≡ drop 1 (words text.now) }
    ensures end { IsEnd text.now result.1.now }
{
    let (word, rest) = split_once(skip_blanks(text), b' ');
    match rest {
        None => (word, &[]),
        Some(rest) => (word, rest),
    }
}

// Returns whether a byte ends an operand with a number of open parentheses: a blank, or a comma outside them.
fn ends(opened: usize, byte: u8) -> bool
    ensures { result ≡ ends_at opened byte }
{
    byte == b' ' || byte == b',' && opened == 0
}

// Returns the number of open parentheses after a byte. An unmatched one is ignored.
fn next_opened(opened: usize, byte: u8) -> usize
    requires { opened + 1 < 2 ^ 64 }
    ensures value { result ≡ opened_after opened byte }
    ensures small { result ≤ opened + 1 }
{
    match byte {
        b'(' => opened + 1,
        b')' => opened.saturating_sub(1),
        _ => opened,
    }
}

// Returns where the first operand ends: at a comma outside parentheses, at a blank, or at the end.
#[tactic(auto, using(crate::proofs::Parts::end_more, crate::proofs::Parts::end_here))]
fn operand_end(text: &[u8]) -> usize
    ensures end { result ≡ end_from 0 text.now }
    ensures within { result ≤ length text.now }
{
    let mut opened = 0usize;
    for (i, byte) in text.iter().enumerate() {
        if *byte <= b',' {
            if ends(opened, *byte) {
                return i;
            }
            opened = next_opened(opened, *byte);
        }
    }
    text.len()
}

/// Returns the first operand of the field at the beginning of a text, and the text after its comma, if there is one.
pub fn next_operand(text: &[u8]) -> (&[u8], Option<&[u8]>)
    ensures parts { MatchOption result.1 (parts_within 0 (field_in text.now) ≡ result.0.now ∷ [])
        (λ rest.
        (parts_within 0 (field_in text.now)
        ≡ result.0.now ∷ parts_within 0 (field_in rest.now))) }
    ensures cut { IfSome result.1 (λ rest. text.now ≡ result.0.now ++ 44 ∷ rest.now) }
    ensures less { IfSome result.1 (λ rest. length rest.now < length text.now) }
{
    let end = operand_end(text);
    if end < text.len() && text[end] == b',' {
        (&text[..end], Some(&text[end + 1..]))
    } else {
        (&text[..end], None)
    }
}
