//! The line that says which name has an address in its place, and which line obtained that.

ghost use Rattle.std.specs.Prelude.{◌≡◌, ◌≤◌, ◌+◌, ◌-◌, ◌++◌, length};
ghost use Rattle.explanation.specs.NamingTexts.{by_line_text, first_text, inside_text, into_text, naming_line, naming_words};
ghost use Rattle.line_text.specs.Writing.{Prints};

use crate::fact_lines::push_place;
use crate::reasons::end_line;
use line_text::text::LineText;
use line_text::write_all;
use mvs_model::name::Name;
use mvs_model::place::{Addr, Place};
use mvs_model::watched::{Failed, Watched};
use std::io::Write;

// Appends the line that obtained a place.
fn push_by_line(text: &mut LineText, number: u32)
    requires { length text.old ≤ 100 }
    ensures text { text.new ≡ text.old ++ by_line_text number }
    ensures len { length text.new ≤ length text.old + 45 }
{
    text.push_str(b" obtained in line ");
    text.push_decimal(number);
    text.push_str(b". (rule 37)");
}

// Appends that the place of a name begins at its address.
fn push_first(text: &mut LineText, name: &Name, place: Place, number: u32)
    requires { length text.old ≤ 2 }
    ensures text { text.new ≡ text.old ++ first_text name.now place number }
    ensures len { length text.new ≤ length text.old + 150 }
{
    text.push_word(place.addr().get());
    text.push_str(b" is ");
    text.push_name(name);
    text.push_str(b", ");
    text.push_decimal(place.len());
    text.push_str(b" bytes");
    push_by_line(text, number);
}

// Appends the distance of an address in a place.
fn push_into(text: &mut LineText, bytes: u32)
    requires { length text.old ≤ 20 }
    ensures text { text.new ≡ text.old ++ into_text bytes }
    ensures len { length text.new ≤ length text.old + 30 }
{
    text.push_decimal(bytes);
    if bytes == 1 {
        text.push_str(b" byte into ");
    } else {
        text.push_str(b" bytes into ");
    }
}

// Returns the distance of an address from another one.
fn distance(addr: Addr, from: Addr) -> u32
    ensures { result ≡ addr - from }
{
    addr.get().saturating_sub(from.get())
}

// Appends that an address is in the place of a name.
fn push_inside(text: &mut LineText, addr: Addr, name: &Name, place: Place, number: u32)
    requires { length text.old ≤ 2 }
    ensures text { text.new ≡ text.old ++ inside_text addr name.now place number }
    ensures len { length text.new ≤ length text.old + 150 }
{
    text.push_word(addr.get());
    text.push_str(b" is ");
    push_into(text, distance(addr, place.addr()));
    text.push_name(name);
    text.push_str(b", ");
    push_place(text, place);
    push_by_line(text, number);
}

// Appends the name that has an address in its place.
fn push_naming(text: &mut LineText, addr: Addr, name: &Name, place: Place, number: u32)
    requires { length text.old ≤ 2 }
    ensures text { text.new ≡ text.old ++ naming_words addr name.now place number }
    ensures len { length text.new ≤ length text.old + 150 }
{
    if addr.get() == place.addr().get() {
        push_first(text, name, place, number);
    } else {
        push_inside(text, addr, name, place, number);
    }
}

/// Prints the line that says that a name has an address in its place, which the line of a number obtained.
pub fn print_naming<W: Write>(
    writer: &mut Watched<W>,
    addr: Addr,
    name: &Name,
    place: Place,
    number: u32,
) -> Result<(), Failed>
    ensures { Prints W.contents writer.old writer.new result
        (naming_line addr name.now place number) }
{
    let mut text = LineText::new();
    text.push_str(b"* ");
    push_naming(&mut text, addr, name, place, number);
    end_line(&mut text);
    write_all(writer, text.as_slice())
}
