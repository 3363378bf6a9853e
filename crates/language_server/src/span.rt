//! Spans of a text.

ghost use Rattle.std.specs.Prelude.{◌≡◌, nat_le};
ghost use Rattle.language_server.specs.Spans.{bytes_of, touches};

/// Some bytes of a text: the first, and the one after the last.
#[derive(Clone, Copy, Debug, PartialEq, Eq)]
pub struct Span {
    pub start: usize,
    pub end: usize,
}

impl Span {
    /// Returns the bytes of the span in a text; none if it has no such bytes.
    pub fn of<'a>(&self, text: &'a [u8]) -> &'a [u8]
        ensures { result.now ≡ bytes_of text.now self.now }
    {
        if self.start <= self.end && self.end <= text.len() {
            &text[self.start..self.end]
        } else {
            &[]
        }
    }

    /// Returns whether a place is in the span, or right after it.
    pub fn touches(&self, place: usize) -> bool
        ensures { result ≡ touches self.now place }
    {
        self.start <= place && place <= self.end
    }

    /// Returns whether it has no bytes.
    pub fn is_empty(&self) -> bool
        ensures { result ≡ nat_le self.now.end self.now.start }
    {
        self.end <= self.start
    }
}
