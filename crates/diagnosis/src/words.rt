//! Texts of a line, lists of words, and the operands that a statement takes, as they are printed.

use job_script::kinds::Kind;
use job_script::operations::Operation;
use job_script::rows::Row;
use std::fmt;

/// Bytes as a text, with a point for each that is no plain one.
#[derive(Clone, Copy)]
pub struct Plain<'a>(pub &'a [u8]);

impl fmt::Display for Plain<'_> {
    fn fmt<W: fmt::Write>(&self, f: &mut fmt::Formatter<W>) -> fmt::Result {
        for byte in self.0 {
            let plain = *byte >= b' ' && *byte <= b'~';
            let shown = if plain { *byte } else { b'.' };
            write!(f, "{}", char::from(shown))?;
        }
        Ok(())
    }
}

/// The name of a file, with a point for each control character.
#[derive(Clone, Copy)]
pub struct PlainName<'a>(pub &'a str);

impl fmt::Display for PlainName<'_> {
    fn fmt<W: fmt::Write>(&self, f: &mut fmt::Formatter<W>) -> fmt::Result {
        for character in self.0.chars() {
            let shown = if character.is_control() {
                '.'
            } else {
                character
            };
            write!(f, "{shown}")?;
        }
        Ok(())
    }
}

/// Some words, with another word before the last one.
#[derive(Clone, Copy)]
pub struct Among<'a>(pub &'a [&'a str], pub &'a str);

impl fmt::Display for Among<'_> {
    fn fmt<W: fmt::Write>(&self, f: &mut fmt::Formatter<W>) -> fmt::Result {
        let count = self.0.len();
        for (place, word) in self.0.iter().enumerate() {
            if place > 0 && place + 1 == count {
                write!(f, " {} ", self.1)?;
            } else if place > 0 {
                write!(f, ", ")?;
            }
            write!(f, "{word}")?;
        }
        Ok(())
    }
}

/// What an operand of a kind is, as a message says it.
#[derive(Clone, Copy)]
pub struct Described(pub Kind);

impl fmt::Display for Described {
    fn fmt<W: fmt::Write>(&self, f: &mut fmt::Formatter<W>) -> fmt::Result {
        match self.0 {
            Kind::Number(least, most) => write!(f, "a decimal number from {least} to {most}"),
            Kind::HexByte => write!(f, "two hexadecimal digits"),
            Kind::Word(words) => write!(f, "{}", Among(words.texts(), "or")),
            Kind::Name => write!(
                f,
                "a name: 1 to 8 of A-Z 0-9 @ # $, not beginning with a digit"
            ),
            Kind::Address => write!(f, "an address: NAME, NAME+n or X'h..h'"),
            Kind::Bytes(most) => write!(f, "1 to {most} bytes: X'h..h', two digits for each"),
            Kind::Pair(least, most) => {
                write!(
                    f,
                    "(l,s), the largest and the smallest number from {least} to {most}"
                )
            }
            Kind::NumberOrPair(least, most) => {
                write!(f, "a decimal number from {least} to {most}, or (l,s)")
            }
            Kind::Numbers(count, least, most) => {
                write!(
                    f,
                    "a list (n,..) of 1 to {count} numbers from {least} to {most}"
                )
            }
            Kind::DistinctNumbers(least, most) => {
                write!(
                    f,
                    "a list (n,..) of numbers from {least} to {most}, without duplicates"
                )
            }
            Kind::DistinctNames(count) => {
                write!(
                    f,
                    "a list (name,..) of 1 to {count} names, without duplicates"
                )
            }
            Kind::Addresses(count) => write!(f, "a list (address,..) of 1 to {count} addresses"),
        }
    }
}

// A positional operand of a kind, in a list of operands.
#[derive(Clone, Copy)]
struct Short(Kind);

impl fmt::Display for Short {
    fn fmt<W: fmt::Write>(&self, f: &mut fmt::Formatter<W>) -> fmt::Result {
        match self.0 {
            Kind::Word(words) => write!(f, "{}", Among(words.texts(), "or")),
            Kind::Name => write!(f, "a name"),
            Kind::Address => write!(f, "an address"),
            Kind::Bytes(_) => write!(f, "bytes"),
            Kind::Number(..)
            | Kind::HexByte
            | Kind::Pair(..)
            | Kind::NumberOrPair(..)
            | Kind::Numbers(..)
            | Kind::DistinctNumbers(..)
            | Kind::DistinctNames(..)
            | Kind::Addresses(..) => write!(f, "a number"),
        }
    }
}

/// The operands that a row takes.
#[derive(Clone, Copy)]
pub struct AcceptedOperands(pub Row);

impl fmt::Display for AcceptedOperands {
    fn fmt<W: fmt::Write>(&self, f: &mut fmt::Formatter<W>) -> fmt::Result {
        let mut between = "";
        for operand in self.0.positional() {
            write!(f, "{between}{}", Short(operand.kind))?;
            between = ", ";
        }
        for keyword in self.0.keywords() {
            write!(f, "{between}{}", keyword.key.text())?;
            between = ", ";
        }
        if between.is_empty() {
            write!(f, "no operand")?;
        }
        Ok(())
    }
}

/// A statement by its operation and its form, which is empty where there is none.
#[derive(Clone, Copy)]
pub struct StatementName<'a> {
    pub operation: Operation,
    pub form: &'a [u8],
}

impl fmt::Display for StatementName<'_> {
    fn fmt<W: fmt::Write>(&self, f: &mut fmt::Formatter<W>) -> fmt::Result {
        write!(f, "{}", self.operation.text())?;
        if !self.form.is_empty() {
            write!(f, " {}", Plain(self.form))?;
        }
        Ok(())
    }
}
