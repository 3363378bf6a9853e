//! The lines of a script, and what they are made of.

ghost use Rattle.std.specs.Prelude.{◌≡◌, ◌++◌, ◌==◌, ◌&&◌, ◌-◌, ◌<◌, ◌≤◌, nat_le, nat_lt, slice_index, true, ◌||◌, is_some, length, position, reverse, codes};
ghost use Rattle.std.specs.List.{after_first, before_first};
ghost use Rattle.std.specs.Option.{option_map};
ghost use Rattle.expected_answers.specs.ExpectedAnswers.{after_blanks, after_prefix, end_in, is_end, statement_of, trimmed};
ghost use Rattle.expected_answers.specs.Blank.{IsPartedAt, arrow};
ghost use Rattle.memchr.specs.Find.{FindsNeedle};

use memchr::{memchr, memmem};

/// What begins the answers of a line.
pub const ARROW: &[u8] = b" =>";

/// Returns the first line of a text, and the text after it.
pub fn next_line(text: &[u8]) -> (&[u8], &[u8])
    ensures line { result.0.now ≡ before_first (λ b. b == 10) text.now }
    ensures rest { result.1.now ≡ after_first (λ b. b == 10) text.now }
    ensures less { 0 < length text.now → length result.1.now < length text.now }
{
    match memchr(b'\n', text) {
        None => (text, &[]),
        Some(end) => (&text[..end], &text[end + 1..]),
    }
}

/// Returns what is before the first of these separators, and what is after it, if there is one.
pub fn parted_at<'a>(text: &'a [u8], separator: &[u8]) -> (&'a [u8], Option<&'a [u8]>)
    ensures { IsPartedAt separator.now text.now result.0.now
        (option_map (λ after. after.now) result.1) }
{
    match memmem::find(text, separator) {
        None => (text, None),
        Some(at) => (&text[..at], Some(&text[at + separator.len()..])),
    }
}

// Returns whether the bytes before this one make it the last of an arrow.
fn ends_arrow(line: &[u8], head: usize) -> bool
    requires { head ≤ length line.now }
    ensures value { result ≡ (nat_le 2 head && ((slice_index line.now (head - 2) == 32)
        && (slice_index line.now (head - 1) == 61))) }
    ensures front { result ≡ true → 2 ≤ head }
{
    head >= 2 && line[head - 2] == b' ' && line[head - 1] == b'='
}

// Returns where the first arrow of a line begins. It looks for the last byte of an arrow, which other texts of a line seldom have.
fn arrow_in(line: &[u8]) -> Option<usize>
    ensures { FindsNeedle line.now arrow 0 result }
{
    let mut from = 0;
    'heads: while let Some(place) = memchr(b'>', &line[from..]) {
        let head = from + place;
        if ends_arrow(line, head) {
            return Some(head - 2);
        }
        from = head + 1;
    }
    None
}

/// Returns what is before the arrow of a line, and what is after it, if it has one.
pub fn parted_line(line: &[u8]) -> (&[u8], Option<&[u8]>)
    ensures { IsPartedAt arrow line.now result.0.now
        (option_map (λ after. after.now) result.1) }
{
    match arrow_in(line) {
        None => (line, None),
        Some(at) => (&line[..at], Some(&line[at + ARROW.len()..])),
    }
}

// Returns whether a line has a byte that no line may have. It looks at each of them, which takes fewer steps than to stop at one.
fn has_foreign(line: &[u8]) -> bool
    ensures { result ≡ is_some (position (λ b. nat_lt b 32 || nat_lt 126 b) line.now) }
{
    let mut found = false;
    for byte in line {
        found |= *byte < b' ' || *byte > b'~';
    }
    found
}

/// Returns the statement of a line, without the answers after it. A line with a byte that no script may have is returned whole.
pub fn statement_of(line: &[u8]) -> &[u8]
    ensures { result.now ≡ statement_of line.now }
{
    if has_foreign(line) {
        return line;
    }
    let (statement, _) = parted_line(line);
    statement
}

// Returns a text without the blanks before it.
fn after_blanks(text: &[u8]) -> &[u8]
    ensures { result.now ≡ after_blanks text.now }
{
    for (i, byte) in text.iter().enumerate() {
        if *byte != b' ' {
            return &text[i..];
        }
    }
    &[]
}

// Returns a text without the blanks after it.
fn before_blanks(text: &[u8]) -> &[u8]
    ensures { result.now ≡ reverse (after_blanks (reverse text.now)) }
{
    let mut end = text.len();
    'blanks: while end > 0 && text[end - 1] == b' ' {
        end -= 1;
    }
    &text[..end]
}

/// Returns a text without the blanks around it.
pub fn trimmed(text: &[u8]) -> &[u8]
    ensures { result.now ≡ trimmed text.now }
{
    before_blanks(after_blanks(text))
}

/// Returns what is after a prefix of a text, if it begins with it.
pub fn after_prefix<'a>(text: &'a [u8], prefix: &[u8]) -> Option<&'a [u8]>
    ensures { option_map (λ rest. rest.now) result ≡ after_prefix prefix.now text.now }
{
    text.strip_prefix(prefix)
}

// Returns whether a comment has the last line of a run.
fn is_end(text: &[u8]) -> bool
    ensures { result ≡ is_end text.now }
{
    after_prefix(text, b"STEP ENDED ").is_some() || after_prefix(text, b"JOB FAULT ").is_some()
}

/// Returns the last line that a script expects of its run, if this line is such a comment.
pub fn end_in(line: &[u8]) -> Option<&[u8]>
    ensures { option_map (λ text. text.now) result ≡ end_in line.now }
{
    after_prefix(line, b"* ").filter(|text| is_end(text))
}
