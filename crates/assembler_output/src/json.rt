//! An object of JSON whose values are texts.

use std::alloc::{AllocError, Global};

/// An object of JSON whose values are texts.
#[derive(Drop)]
pub struct Json {
    text: String,
}

impl Json {
    /// Returns an object without keys.
    pub fn new(alloc: Global) -> Json {
        Json {
            text: String::new(alloc),
        }
    }

    // Appends a text in quotes.
    fn put_quoted(&mut self, text: &str) -> Result<(), AllocError> {
        self.text.push('"')?;
        for letter in text.chars() {
            if letter == '"' || letter == '\\' {
                self.text.push('\\')?;
            }
            self.text.push(letter)?;
        }
        self.text.push('"')?;
        Ok(())
    }

    /// Appends a key with a text, which has no control characters. It fails if memory is exhausted.
    pub fn put(&mut self, key: &str, text: &str) -> Result<(), AllocError> {
        let before = if self.text.is_empty() { "{" } else { "," };
        self.text.push_str(before)?;
        self.put_quoted(key)?;
        self.text.push(':')?;
        self.put_quoted(text)
    }

    /// Returns the text of the object. It fails if memory is exhausted.
    pub fn end(self) -> Result<String, AllocError> {
        let mut text = self.text;
        text.push('}')?;
        Ok(text)
    }
}
