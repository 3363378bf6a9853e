//! The line that says what a request did.

ghost use Rattle.std.specs.Prelude.{◌≡◌, ◌≤◌, ◌+◌, ◌++◌, decimal, length};
ghost use Rattle.explanation.specs.FactTexts.{added_text, requested_text, between_text, cell_text, cells_text, fact_line, fact_text, given_text, no_greater_text, obtained_text, pages_do, part_text, place_text, rounded_text, shared_text, subpool_words, pages_taken_text};
ghost use Rattle.line_text.specs.Writing.{Prints};

use crate::freed::push_pages;
use crate::reasons::end_line;
use line_text::text::LineText;
use line_text::write_all;
use mvs_model::fact::Fact;
use mvs_model::name::Name;
use mvs_model::place::Place;
use mvs_model::subpool::SubNo;
use mvs_model::watched::{Failed, Watched};
use std::io::Write;

// Appends the number of a subpool.
fn push_number(text: &mut LineText, number: SubNo)
    requires { length text.old ≤ 140 }
    ensures text { text.new ≡ text.old ++ decimal number }
    ensures len { length text.new ≤ length text.old + 10 }
{
    text.push_decimal(u32::from(number.get()));
}

// Appends a subpool: its owner's number for it, and the owner.
fn push_subpool(text: &mut LineText, number: SubNo, owner: &Name)
    requires { length text.old ≤ 100 }
    ensures text { text.new ≡ text.old ++ subpool_words number owner.now }
    ensures len { length text.new ≤ length text.old + 26 }
{
    text.push_str(b"SP ");
    push_number(text, number);
    text.push_str(b" of ");
    text.push_name(owner);
}

// Appends a place.
pub(crate) fn push_place(text: &mut LineText, place: Place)
    requires { length text.old ≤ 100 }
    ensures text { text.new ≡ text.old ++ place_text place }
    ensures len { length text.new ≤ length text.old + 28 }
{
    text.push_decimal(place.len());
    text.push_str(b" bytes at ");
    text.push_word(place.addr().get());
}

// Appends the number of bytes that were added.
fn push_added(text: &mut LineText, added: u32)
    requires { length text.old ≤ 80 }
    ensures text { text.new ≡ text.old ++ added_text added }
    ensures len { length text.new ≤ length text.old + 50 }
{
    text.push_str(b", ");
    text.push_decimal(added);
    text.push_str(b" of them added by rounding. (rule 3)");
}

// Appends how much of a length was added by rounding.
fn push_rounded(text: &mut LineText, len: u32, asked: u32)
    requires { length text.old ≤ 80 }
    ensures text { text.new ≡ text.old ++ rounded_text len asked }
    ensures len { length text.new ≤ length text.old + 50 }
{
    if len == asked {
        text.push_str(b". (rule 24)");
    } else {
        push_added(text, len.saturating_sub(asked));
    }
}

// Appends the range of lengths that was requested.
fn push_between(text: &mut LineText, least: u32, most: u32)
    requires { length text.old ≤ 80 }
    ensures text { text.new ≡ text.old ++ between_text least most }
    ensures len { length text.new ≤ length text.old + 50 }
{
    text.push_str(b", ");
    text.push_decimal(least);
    text.push_str(b" to ");
    text.push_decimal(most);
    text.push_str(b" requested. (rule 20)");
}

// Appends how a length compares with the requested one.
fn push_requested(text: &mut LineText, len: u32, least: u32, most: u32)
    requires { length text.old ≤ 80 }
    ensures text { text.new ≡ text.old ++ requested_text len least most }
    ensures len { length text.new ≤ length text.old + 50 }
{
    if least == most {
        push_rounded(text, len, most);
    } else {
        push_between(text, least, most);
    }
}

// Appends a number of pages with the verb for one of them or for several.
fn push_pages_do(text: &mut LineText, pages: u32, one: &[u8], more: &[u8])
    requires old { length text.old ≤ 2 }
    requires one { length one.now ≤ 40 }
    requires more { length more.now ≤ 40 }
    ensures text { text.new ≡ text.old ++ pages_do pages one.now more.now }
    ensures len { length text.new ≤ length text.old + 56 }
{
    push_pages(text, pages);
    text.push_str(if pages == 1 { one } else { more });
}

// Appends the number of pages that were assigned.
fn push_taken(text: &mut LineText, pages: u32)
    requires { length text.old ≤ 2 }
    ensures text { text.new ≡ text.old ++ pages_taken_text pages }
    ensures len { length text.new ≤ length text.old + 56 }
{
    if pages == 0 {
        text.push_str(b"No page was newly assigned. (rule 4)");
    } else {
        push_pages_do(
            text,
            pages,
            b" was newly assigned. (rule 5)",
            b" were newly assigned. (rule 5)",
        );
    }
}

// Appends a number of cells.
fn push_cells(text: &mut LineText, cells: u32)
    requires { length text.old ≤ 100 }
    ensures text { text.new ≡ text.old ++ cells_text cells }
    ensures len { length text.new ≤ length text.old + 16 }
{
    text.push_decimal(cells);
    if cells == 1 {
        text.push_str(b" cell");
    } else {
        text.push_str(b" cells");
    }
}

// Appends an area that was obtained.
fn push_obtained(text: &mut LineText, area: &Name, place: Place, number: SubNo, owner: &Name)
    requires { length text.old ≤ 2 }
    ensures text { text.new ≡ text.old ++ obtained_text area.now place number owner.now }
    ensures len { length text.new ≤ length text.old + 70 }
{
    text.push_name(area);
    text.push_str(b" is ");
    push_place(text, place);
    text.push_str(b" in ");
    push_subpool(text, number, owner);
}

// Appends a cell that was allocated.
fn push_cell(text: &mut LineText, cell: &Name, pool: &Name, place: Place)
    requires { length text.old ≤ 2 }
    ensures text { text.new ≡ text.old ++ cell_text cell.now pool.now place }
    ensures len { length text.new ≤ length text.old + 100 }
{
    text.push_name(cell);
    text.push_str(b" is a cell of pool ");
    text.push_name(pool);
    text.push_str(b": ");
    push_place(text, place);
    text.push_str(b". (rule 60)");
}

// Appends a new part of a pool.
fn push_part(text: &mut LineText, pool: &Name, cells: u32, size: u32, place: Place)
    requires { length text.old ≤ 2 }
    ensures text { text.new ≡ text.old ++ part_text pool.now cells size place }
    ensures len { length text.new ≤ length text.old + 120 }
{
    text.push_str(b"Pool ");
    text.push_name(pool);
    text.push_str(b" has a new part for ");
    push_cells(text, cells);
    text.push_str(b" of ");
    text.push_decimal(size);
    text.push_str(b" bytes: ");
    push_place(text, place);
    text.push_str(b". (rule 57)");
}

// Appends that a subtask owns what its attaching task gave.
fn push_given(text: &mut LineText, subtask: &Name, number: SubNo, mother: &Name)
    requires { length text.old ≤ 2 }
    ensures text { text.new ≡ text.old ++ given_text subtask.now number mother.now }
    ensures len { length text.new ≤ length text.old + 80 }
{
    text.push_name(subtask);
    text.push_str(b" now owns SP ");
    push_number(text, number);
    text.push_str(b", given by ");
    text.push_name(mother);
    text.push_str(b". (rule 43)");
}

// Appends that no greater length fits.
fn push_no_greater(text: &mut LineText, below: u32, above: u32)
    requires { length text.old ≤ 2 }
    ensures text { text.new ≡ text.old ++ no_greater_text below above }
    ensures len { length text.new ≤ length text.old + 120 }
{
    text.push_str(b"No greater length fits; free pages before: ");
    text.push_decimal(below);
    text.push_str(b" below, ");
    text.push_decimal(above);
    text.push_str(b" above. (rule 20)");
}

// Appends a subpool and a text about it.
fn push_subpool_is(text: &mut LineText, number: SubNo, owner: &Name, is: &[u8])
    requires old { length text.old ≤ 20 }
    requires is { length is.now ≤ 60 }
    ensures text { text.new ≡ text.old ++ (subpool_words number owner.now ++ is.now) }
    ensures len { length text.new ≤ length text.old + 86 }
{
    push_subpool(text, number, owner);
    text.push_str(is);
}

// Appends that a subtask shares a subpool.
fn push_shared(text: &mut LineText, subtask: &Name, number: SubNo, owner: &Name)
    requires { length text.old ≤ 2 }
    ensures text { text.new ≡ text.old ++ shared_text subtask.now number owner.now }
    ensures len { length text.new ≤ length text.old + 120 }
{
    text.push_name(subtask);
    text.push_str(b" shares ");
    push_subpool(text, number, owner);
    text.push_str(b". (rule 44)");
}

// Appends a fact.
fn push_fact(text: &mut LineText, fact: &Fact)
    requires { length text.old ≤ 2 }
    ensures text { text.new ≡ text.old ++ fact_text fact.now }
    ensures len { length text.new ≤ length text.old + 157 }
{
    match fact {
        Fact::Obtained {
            area,
            place,
            least,
            most,
            number,
            owner,
        } => {
            push_obtained(text, area, *place, *number, owner);
            push_requested(text, place.len(), *least, *most);
        }
        Fact::NoGreater { below, above } => push_no_greater(text, *below, *above),
        Fact::NewSubpool { number, owner } => {
            push_subpool_is(text, *number, owner, b" is new. (rule 42)");
        }
        Fact::PagesTaken(pages) => push_taken(text, *pages),
        Fact::PagesFreed(pages) => push_pages_do(
            text,
            *pages,
            b" became free. (rule 5)",
            b" became free. (rule 5)",
        ),
        Fact::Emptied { number, owner } => push_subpool_is(
            text,
            *number,
            owner,
            b" is now empty. (rule 34)",
        ),
        Fact::CellTaken { cell, pool, place } => push_cell(text, cell, pool, *place),
        Fact::PartAdded {
            pool,
            cells,
            size,
            place,
        } => push_part(text, pool, *cells, *size, *place),
        Fact::Given {
            subtask,
            number,
            mother,
        } => push_given(text, subtask, *number, mother),
        Fact::Shared {
            subtask,
            number,
            owner,
        } => push_shared(text, subtask, *number, owner),
    }
}

/// Prints the line that says what a request did.
pub fn print_fact<W: Write>(writer: &mut Watched<W>, fact: &Fact) -> Result<(), Failed>
    ensures { Prints W.contents writer.old writer.new result (fact_line fact.now) }
{
    let mut text = LineText::new();
    text.push_str(b"* ");
    push_fact(&mut text, fact);
    end_line(&mut text);
    write_all(writer, text.as_slice())
}
