//! Where a text is inside quotes or parentheses.

/// What the characters of a text before a place have opened.
#[derive(Clone, Copy)]
pub struct OpenQuotes {
    in_quotes: bool,
    parentheses: u32,
    last: char,
    before: char,
}

/// Returns whether a symbol may contain a character.
pub fn is_of_symbol(letter: char) -> bool {
    letter.is_ascii_alphanumeric()
        || letter == '@'
        || letter == '#'
        || letter == '$'
        || letter == '_'
}

impl OpenQuotes {
    /// Returns what is open where a text begins: nothing.
    pub fn new() -> OpenQuotes {
        OpenQuotes {
            in_quotes: false,
            parentheses: 0,
            last: ' ',
            before: ' ',
        }
    }

    // Returns whether a quote after the last character asks for the length of a symbol.
    fn asks_for_length(&self) -> bool {
        (self.last == 'L' || self.last == 'l') && !is_of_symbol(self.before)
    }

    /// Processes a character.
    pub fn pass(&mut self, letter: char) {
        match letter {
            '\'' if self.in_quotes => self.in_quotes = false,
            '\'' if !self.asks_for_length() => self.in_quotes = true,
            '(' if !self.in_quotes => self.parentheses = self.parentheses.saturating_add(1),
            ')' if !self.in_quotes => self.parentheses = self.parentheses.saturating_sub(1),
            _ => {}
        }
        self.before = self.last;
        self.last = letter;
    }

    /// Returns whether a character ends the operands here.
    pub fn ends_operands(&self, letter: char) -> bool {
        letter == ' ' && !self.in_quotes
    }

    /// Returns a character as a statement keeps it: in upper case outside of quotes.
    pub fn stored(&self, letter: char) -> char {
        if self.in_quotes {
            letter
        } else {
            letter.to_ascii_uppercase()
        }
    }

    /// Returns whether a character separates operands here.
    pub fn separates(&self, letter: char) -> bool {
        letter == ',' && !self.in_quotes && self.parentheses == 0
    }
}
