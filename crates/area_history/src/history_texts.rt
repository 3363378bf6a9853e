//! The lines about what the history of a step says.

ghost use Rattle.std.specs.Prelude.{◌≡◌, ◌≤◌, ◌+◌, ◌-◌, ◌++◌, List, length, take};
ghost use Rattle.std.specs.List.{flat_map};
ghost use Rattle.line_text.specs.Writing.{Prints};
ghost use Rattle.area_history.specs.HistoryTexts.{address_text, anywhere_line, anywhere_text, anywhere_words, area_text, earlier, event_text, fate_line, fate_text, findings_text, freed_text, held_heading, held_text, history_text, is_text, number_line, side_text, some_fate_text, some_held, stay_line, stay_text, stays_text};
ghost use Rattle.area_history.specs.declared.grant.Leak.{Leak as TheLeak};
ghost use Rattle.area_history.specs.LeakTexts.{leak_line, more_line, starred, totals_text};

use crate::events::{StorageChange, StorageEvent};
use crate::findings::{AddressHistory, AreaFate, Findings};
use crate::grant::{AreaGrant, Leak, Selection};
use crate::largest::{Leaks, MOST_LINES};
use crate::texts::{
    end_line, print_each, print_more, print_totals, push_areas, push_left, push_number,
    push_origin, push_subpool,
};
use line_text::text::LineText;
use line_text::write_all;
use mvs_model::place::Addr;
use mvs_model::watched::{Failed, Watched};
use std::io::Write;

/// The most areas that are printed of those that hold storage.
const MOST_HELD: usize = 3;

// Appends a line number, and the end of a sentence.
fn push_line(text: &mut LineText, line: u32)
    requires { length text.old ≤ 220 }
    ensures text { text.new ≡ text.old ++ number_line line }
    ensures len { length text.new ≤ length text.old + 20 }
{
    text.push_str(b" in line ");
    text.push_decimal(line);
    text.push_str(b".");
}

// Appends what freed a doubleword.
fn push_event(text: &mut LineText, event: &StorageEvent)
    requires { length text.old ≤ 150 }
    ensures text { text.new ≡ text.old ++ event_text event.now }
    ensures len { length text.new ≤ length text.old + 85 }
{
    match &event.change {
        StorageChange::Released(_) => {
            text.push_str(b", released by ");
            text.push_name(&event.task);
            push_line(text, event.line);
        }
        StorageChange::Emptied(number, owner) => {
            text.push_str(b", released with all of ");
            push_subpool(text, *number, owner);
            push_line(text, event.line);
        }
        StorageChange::Ended(task) => {
            text.push_str(b", freed by the end of ");
            text.push_name(task);
            push_line(text, event.line);
        }
        StorageChange::Attached { .. } => text.push_str(b"."),
    }
}

// Appends this, if something freed it.
fn push_freed(text: &mut LineText, freed: &Option<StorageEvent>)
    requires { length text.old ≤ 150 }
    ensures text { text.new ≡ text.old ++ freed_text freed.now }
    ensures len { length text.new ≤ length text.old + 85 }
{
    match freed {
        Some(event) => push_event(text, event),
        None => text.push_str(b"."),
    }
}

// Appends whether an address is still in an area.
fn push_is(text: &mut LineText, freed: &Option<StorageEvent>)
    requires { length text.old ≤ 20 }
    ensures text { text.new ≡ text.old ++ is_text freed.now }
    ensures len { length text.new ≤ length text.old + 8 }
{
    match freed {
        Some(_) => text.push_str(b" was in "),
        None => text.push_str(b" is in "),
    }
}

// Appends an area.
fn push_area(text: &mut LineText, grant: &AreaGrant)
    requires { length text.old ≤ 20 }
    ensures text { text.new ≡ text.old ++ area_text grant.now }
    ensures len { length text.new ≤ length text.old + 130 }
{
    text.push_name(&grant.area);
    text.push_str(b": ");
    text.push_decimal(grant.place.len());
    text.push_str(b" bytes at ");
    text.push_word(grant.place.addr().get());
    text.push_str(b" in ");
    push_subpool(text, grant.subpool, &grant.owner);
    text.push_str(b", obtained by ");
    text.push_name(&grant.task);
    text.push_str(b" in line ");
    text.push_decimal(grant.line);
}

// Appends that an address is or was in an area, and what freed it.
fn push_fate(text: &mut LineText, addr: Addr, fate: &AreaFate)
    requires { length text.old ≤ 2 }
    ensures text { text.new ≡ text.old ++ fate_text addr fate.now }
    ensures len { length text.new ≤ length text.old + 235 }
{
    text.push_word(addr.get());
    push_is(text, &fate.freed);
    push_area(text, &fate.grant);
    push_freed(text, &fate.freed);
}

// Prints that an address is or was in an area.
fn print_fate<W: Write>(writer: &mut Watched<W>, addr: Addr, fate: &AreaFate) -> Result<(), Failed>
    ensures { Prints W.contents writer.old writer.new result (fate_line addr fate.now) }
{
    let mut text = LineText::new();
    text.push_str(b"* ");
    push_fate(&mut text, addr, fate);
    end_line(&mut text);
    write_all(writer, text.as_slice())
}

// Prints this, if there is such an area.
fn print_some_fate<W: Write>(
    writer: &mut Watched<W>,
    addr: Addr,
    fate: &Option<AreaFate>,
) -> Result<(), Failed>
    ensures { Prints W.contents writer.old writer.new result (some_fate_text addr fate.now) }
{
    match fate {
        Some(fate) => print_fate(writer, addr, fate),
        None => Ok(()),
    }
}

/// Returns the area that had an address before, if it is in another one now.
pub(crate) fn earlier(history: &AddressHistory) -> Option<AreaFate>
    ensures { result ≡ earlier history.now }
{
    match &history.latest {
        Some(latest) => match &latest.freed {
            Some(_) => None,
            None => history.previous,
        },
        None => None,
    }
}

// Prints the history of an address.
fn print_history<W: Write>(writer: &mut Watched<W>, history: &AddressHistory) -> Result<(), Failed>
    ensures { Prints W.contents writer.old writer.new result (history_text history.now) }
{
    print_some_fate(writer, history.addr, &earlier(history))?;
    print_some_fate(writer, history.addr, &history.latest)
}

// Prints this, if there is an address.
fn print_address<W: Write>(
    writer: &mut Watched<W>,
    address: &Option<AddressHistory>,
) -> Result<(), Failed>
    ensures { Prints W.contents writer.old writer.new result (address_text address.now) }
{
    match address {
        Some(history) => print_history(writer, history),
        None => Ok(()),
    }
}

// Appends the length that fits with LOC=ANY.
fn push_anywhere(text: &mut LineText, longest: u32)
    requires { length text.old ≤ 2 }
    ensures text { text.new ≡ text.old ++ anywhere_words longest }
    ensures len { length text.new ≤ length text.old + 90 }
{
    text.push_str(b"With LOC=ANY it would fit: the largest area then has ");
    text.push_decimal(longest);
    text.push_str(b" bytes. (rule 14)");
}

// Prints the length that fits with LOC=ANY.
fn print_anywhere_line<W: Write>(writer: &mut Watched<W>, longest: u32) -> Result<(), Failed>
    ensures { Prints W.contents writer.old writer.new result (anywhere_line longest) }
{
    let mut text = LineText::new();
    text.push_str(b"* ");
    push_anywhere(&mut text, longest);
    end_line(&mut text);
    write_all(writer, text.as_slice())
}

// Prints it, if one does.
fn print_anywhere<W: Write>(writer: &mut Watched<W>, anywhere: Option<u32>) -> Result<(), Failed>
    ensures { Prints W.contents writer.old writer.new result (anywhere_text anywhere) }
{
    match anywhere {
        Some(longest) => print_anywhere_line(writer, longest),
        None => Ok(()),
    }
}

// Returns the words for a side.
fn side_words(side: &Selection) -> &'static [u8]
    ensures words { result.now ≡ side_text side.now }
    ensures len { length result.now ≤ 20 }
{
    match side {
        Selection::Below => b"Held below 16 MB: ",
        Selection::All | Selection::EndedWith(_) => b"Held: ",
    }
}

// Prints how many areas hold storage, and how many bytes.
fn print_held_heading<W: Write>(
    writer: &mut Watched<W>,
    side: &Selection,
    held: &Leaks,
) -> Result<(), Failed>
    ensures { Prints W.contents writer.old writer.new result
        (starred (held_heading side.now held.now)) }
{
    let mut text = LineText::new();
    text.push_str(b"* ");
    text.push_str(side_words(side));
    push_areas(&mut text, held.count);
    text.push_str(b", ");
    push_number(&mut text, held.bytes);
    text.push_str(b" bytes.");
    end_line(&mut text);
    write_all(writer, text.as_slice())
}

/// Returns how many of some areas are printed.
pub(crate) fn held_lines(len: usize) -> usize
    ensures within { result ≤ len }
    ensures first { (leaks : List TheLeak) → length leaks ≡ len → take result leaks ≡ take 3 leaks }
{
    if len < MOST_HELD { len } else { MOST_HELD }
}

// Prints the three largest areas that hold storage.
fn print_largest<W: Write>(writer: &mut Watched<W>, leaks: &[Leak]) -> Result<(), Failed>
    ensures { Prints W.contents writer.old writer.new result (flat_map leak_line (take 3 leaks.now)) }
{
    let count = held_lines(leaks.len());
    print_each(writer, &leaks[..count])
}

// Prints the three largest areas that hold storage, and the totals by subpool.
fn print_held_lines<W: Write>(writer: &mut Watched<W>, held: &Leaks) -> Result<(), Failed>
    ensures { Prints W.contents writer.old writer.new result
        (flat_map leak_line (take 3 held.now.largest) ++ totals_text held.now.subpools) }
{
    print_largest(writer, held.largest.as_slice())?;
    print_totals(writer, held.subpools.as_slice())
}

// Prints the areas that hold storage.
fn print_some_held<W: Write>(
    writer: &mut Watched<W>,
    side: &Selection,
    held: &Leaks,
) -> Result<(), Failed>
    ensures { Prints W.contents writer.old writer.new result (some_held side.now held.now) }
{
    print_held_heading(writer, side, held)?;
    print_held_lines(writer, held)
}

// Prints them, if there are some.
fn print_held<W: Write>(
    writer: &mut Watched<W>,
    side: &Selection,
    held: &Leaks,
) -> Result<(), Failed>
    ensures { Prints W.contents writer.old writer.new result (held_text side.now held.now) }
{
    if held.count == 0 {
        return Ok(());
    }
    print_some_held(writer, side, held)
}

// Appends an area that stays.
fn push_stay(text: &mut LineText, leak: &Leak)
    requires { length text.old ≤ 2 }
    ensures text { text.new ≡ text.old ++ stay_text leak.now }
    ensures len { length text.new ≤ length text.old + 200 }
{
    text.push_name(&leak.grant.area);
    text.push_str(b": ");
    push_left(text, leak.bytes, leak.grant.place.len());
    text.push_str(b" bytes at ");
    text.push_word(leak.grant.place.addr().get());
    text.push_str(b" stay in ");
    push_subpool(text, leak.grant.subpool, &leak.grant.owner);
    push_origin(text, &leak.grant);
}

// Prints an area that stays.
fn print_stay<W: Write>(writer: &mut Watched<W>, leak: &Leak) -> Result<(), Failed>
    ensures { Prints W.contents writer.old writer.new result (stay_line leak.now) }
{
    let mut text = LineText::new();
    text.push_str(b"* ");
    push_stay(&mut text, leak);
    end_line(&mut text);
    write_all(writer, text.as_slice())
}

// Prints the areas that stay and have a line of their own.
fn print_each_stay<W: Write>(writer: &mut Watched<W>, leaks: &[Leak]) -> Result<(), Failed>
    ensures { Prints W.contents writer.old writer.new result (flat_map stay_line leaks.now) }
{
    for leak in leaks {
        print_stay(writer, leak)?;
    }
    Ok(())
}

// Prints what stays of the areas of a task.
fn print_stays<W: Write>(writer: &mut Watched<W>, stays: &Leaks) -> Result<(), Failed>
    ensures { Prints W.contents writer.old writer.new result (stays_text stays.now) }
{
    print_each_stay(writer, stays.largest.as_slice())?;
    print_more(writer, stays.count.saturating_sub(MOST_LINES))
}

// Prints who has the storage that is short, and what stays.
fn print_held_and_stays<W: Write>(writer: &mut Watched<W>, found: &Findings) -> Result<(), Failed>
    ensures { Prints W.contents writer.old writer.new result
        (held_text found.now.side found.now.held ++ stays_text found.now.stays) }
{
    print_held(writer, &found.side, &found.held)?;
    print_stays(writer, &found.stays)
}

// Prints the findings about storage: what fits with LOC=ANY, who has it, and what stays.
fn print_storage<W: Write>(writer: &mut Watched<W>, found: &Findings) -> Result<(), Failed>
    ensures { Prints W.contents writer.old writer.new result
        (anywhere_text found.now.anywhere ++ (held_text found.now.side found.now.held ++ stays_text found.now.stays)) }
{
    print_anywhere(writer, found.anywhere)?;
    print_held_and_stays(writer, found)
}

/// Prints what the history says of a line.
pub(crate) fn print_findings<W: Write>(
    writer: &mut Watched<W>,
    found: &Findings,
) -> Result<(), Failed>
    ensures { Prints W.contents writer.old writer.new result (findings_text found.now) }
{
    print_address(writer, &found.address)?;
    print_storage(writer, found)
}
