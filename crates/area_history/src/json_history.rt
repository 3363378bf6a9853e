//! What the history of a step says, as lines of JSON.

ghost use Rattle.std.specs.Prelude.{◌≡◌, ◌≤◌, ◌+◌, ◌++◌, length, take};
ghost use Rattle.std.specs.List.{flat_map};
ghost use Rattle.line_text.specs.Writing.{Prints};
ghost use Rattle.area_history.specs.JsonHistories.{address_objects, anywhere_object, anywhere_objects, area_members, by_members, change_members, counts_members, end_members, fate_members, fate_object, freed_members, held_object, held_objects, held_total_head, history_objects, holder_head, json_findings, side_word, some_fate_object, some_held_objects, some_stays_objects, stay_head, stays_object, stays_objects, whole_members};
ghost use Rattle.area_history.specs.JsonReports.{area_object, total_object};

use crate::events::{StorageChange, StorageEvent};
use crate::findings::{AddressHistory, AreaFate, Findings};
use crate::grant::{AreaGrant, Selection};
use crate::history_texts::{earlier, held_lines};
use crate::json::{print_each, print_totals, push_capped, push_origin, push_place, push_subpool};
use crate::largest::Leaks;
use line_text::text::LineText;
use line_text::write_all;
use mvs_model::name::Name;
use mvs_model::place::Addr;
use mvs_model::subpool::SubNo;
use mvs_model::watched::{Failed, Watched};
use std::io::Write;

// Appends an area.
fn push_area(text: &mut LineText, grant: &AreaGrant)
    requires { length text.old ≤ 50 }
    ensures text { text.new ≡ text.old ++ area_members grant.now }
    ensures len { length text.new ≤ length text.old + 160 }
{
    text.push_str(b",\"area\":{\"name\":\"");
    text.push_name(&grant.area);
    text.push_str(b"\"");
    push_place(text, grant.place);
    push_subpool(text, grant.subpool, &grant.owner);
    push_origin(text, &grant.task, grant.line);
    text.push_str(b"}");
}

// Appends an address, and an area that has or had it.
fn push_fate_members(text: &mut LineText, addr: Addr, grant: &AreaGrant)
    requires { length text.old ≤ 2 }
    ensures text { text.new ≡ text.old ++ fate_members addr grant.now }
    ensures len { length text.new ≤ length text.old + 210 }
{
    text.push_str(b"{\"event\":\"address_history\",\"address\":");
    text.push_decimal(addr.get());
    push_area(text, grant);
}

// Prints an address, and an area that has or had it, without the end of the line.
fn print_fate_members<W: Write>(
    writer: &mut Watched<W>,
    addr: Addr,
    grant: &AreaGrant,
) -> Result<(), Failed>
    ensures { Prints W.contents writer.old writer.new result (fate_members addr grant.now) }
{
    let mut text = LineText::new();
    push_fate_members(&mut text, addr, grant);
    write_all(writer, text.as_slice())
}

// Appends the task and the line of a change.
fn push_by(text: &mut LineText, event: &StorageEvent)
    requires { length text.old ≤ 60 }
    ensures text { text.new ≡ text.old ++ by_members event.now }
    ensures len { length text.new ≤ length text.old + 40 }
{
    text.push_str(b",\"task\":\"");
    text.push_name(&event.task);
    text.push_str(b"\",\"line\":");
    text.push_decimal(event.line);
}

// Appends a release of a whole subpool.
fn push_whole(text: &mut LineText, event: &StorageEvent, number: SubNo, owner: &Name)
    requires { length text.old ≤ 20 }
    ensures text { text.new ≡ text.old ++ whole_members event.now number owner.now }
    ensures len { length text.new ≤ length text.old + 120 }
{
    text.push_str(b"\"by\":\"whole_release\"");
    push_by(text, event);
    push_subpool(text, number, owner);
    text.push_str(b"\"");
}

// Appends the end of a task.
fn push_end(text: &mut LineText, event: &StorageEvent, task: &Name)
    requires { length text.old ≤ 20 }
    ensures text { text.new ≡ text.old ++ end_members event.now task.now }
    ensures len { length text.new ≤ length text.old + 120 }
{
    text.push_str(b"\"by\":\"end\",\"task\":\"");
    text.push_name(task);
    text.push_str(b"\",\"line\":");
    text.push_decimal(event.line);
}

// Appends what freed an address.
fn push_change(text: &mut LineText, event: &StorageEvent)
    requires { length text.old ≤ 20 }
    ensures text { text.new ≡ text.old ++ change_members event.now event.now.change }
    ensures len { length text.new ≤ length text.old + 130 }
{
    match &event.change {
        StorageChange::Released(_) => {
            text.push_str(b"\"by\":\"release\"");
            push_by(text, event);
        }
        StorageChange::Emptied(number, owner) => push_whole(text, event, *number, owner),
        StorageChange::Ended(task) => push_end(text, event, task),
        StorageChange::Attached { .. } => text.push_str(b"\"by\":\"attach\""),
    }
}

// Appends this, if something freed it, and the end of the line.
fn push_freed(text: &mut LineText, freed: &Option<StorageEvent>)
    requires { length text.old ≤ 2 }
    ensures text { text.new ≡ text.old ++ freed_members freed.now }
    ensures len { length text.new ≤ length text.old + 150 }
{
    match freed {
        Some(event) => {
            text.push_str(b",\"freed\":{");
            push_change(text, event);
            text.push_str(b"}}\n");
        }
        None => text.push_str(b"}\n"),
    }
}

// Prints what freed an area, if something did, and the end of the line.
fn print_freed<W: Write>(
    writer: &mut Watched<W>,
    freed: &Option<StorageEvent>,
) -> Result<(), Failed>
    ensures { Prints W.contents writer.old writer.new result (freed_members freed.now) }
{
    let mut text = LineText::new();
    push_freed(&mut text, freed);
    write_all(writer, text.as_slice())
}

// Prints the line of an area that has or had an address.
fn print_fate<W: Write>(writer: &mut Watched<W>, addr: Addr, fate: &AreaFate) -> Result<(), Failed>
    ensures { Prints W.contents writer.old writer.new result (fate_object addr fate.now) }
{
    print_fate_members(writer, addr, &fate.grant)?;
    print_freed(writer, &fate.freed)
}

// Prints this, if there is such an area.
fn print_some_fate<W: Write>(
    writer: &mut Watched<W>,
    addr: Addr,
    fate: &Option<AreaFate>,
) -> Result<(), Failed>
    ensures { Prints W.contents writer.old writer.new result (some_fate_object addr fate.now) }
{
    match fate {
        Some(fate) => print_fate(writer, addr, fate),
        None => Ok(()),
    }
}

// Prints the history of an address.
fn print_history<W: Write>(writer: &mut Watched<W>, history: &AddressHistory) -> Result<(), Failed>
    ensures { Prints W.contents writer.old writer.new result (history_objects history.now) }
{
    print_some_fate(writer, history.addr, &earlier(history))?;
    print_some_fate(writer, history.addr, &history.latest)
}

// Prints this, if there is an address.
fn print_address<W: Write>(
    writer: &mut Watched<W>,
    address: &Option<AddressHistory>,
) -> Result<(), Failed>
    ensures { Prints W.contents writer.old writer.new result (address_objects address.now) }
{
    match address {
        Some(history) => print_history(writer, history),
        None => Ok(()),
    }
}

// Appends the length that fits with LOC=ANY.
fn push_anywhere(text: &mut LineText, longest: u32)
    requires { length text.old ≤ 2 }
    ensures text { text.new ≡ text.old ++ anywhere_object longest }
    ensures len { length text.new ≤ length text.old + 80 }
{
    text.push_str(b"{\"event\":\"with_loc_any\",\"longest\":");
    text.push_decimal(longest);
    text.push_str(b",\"rules\":[14]}\n");
}

// Prints the length that fits with LOC=ANY.
fn print_anywhere_object<W: Write>(writer: &mut Watched<W>, longest: u32) -> Result<(), Failed>
    ensures { Prints W.contents writer.old writer.new result (anywhere_object longest) }
{
    let mut text = LineText::new();
    push_anywhere(&mut text, longest);
    write_all(writer, text.as_slice())
}

// Prints it, if one does.
fn print_anywhere<W: Write>(writer: &mut Watched<W>, anywhere: Option<u32>) -> Result<(), Failed>
    ensures { Prints W.contents writer.old writer.new result (anywhere_objects anywhere) }
{
    match anywhere {
        Some(longest) => print_anywhere_object(writer, longest),
        None => Ok(()),
    }
}

// Returns the word for a side.
fn side_word(side: &Selection) -> &'static [u8]
    ensures word { result.now ≡ side_word side.now }
    ensures len { length result.now ≤ 10 }
{
    match side {
        Selection::Below => b"below",
        Selection::All | Selection::EndedWith(_) => b"any",
    }
}

// Appends how many areas there are, and how many bytes they have.
fn push_counts(text: &mut LineText, leaks: &Leaks)
    requires { length text.old ≤ 60 }
    ensures text { text.new ≡ text.old ++ counts_members leaks.now }
    ensures len { length text.new ≤ length text.old + 50 }
{
    text.push_str(b",\"areas\":");
    push_capped(text, leaks.count as u128);
    text.push_str(b",\"bytes\":");
    push_capped(text, leaks.bytes);
    text.push_str(b"}\n");
}

// Appends how many areas hold storage on a side, and how many bytes.
fn push_held(text: &mut LineText, side: &Selection, held: &Leaks)
    requires { length text.old ≤ 2 }
    ensures text { text.new ≡ text.old ++ held_object side.now held.now }
    ensures len { length text.new ≤ length text.old + 100 }
{
    text.push_str(b"{\"event\":\"held\",\"side\":\"");
    text.push_str(side_word(side));
    text.push_str(b"\"");
    push_counts(text, held);
}

// Prints how many areas hold storage on a side, and how many bytes.
fn print_held_counts<W: Write>(
    writer: &mut Watched<W>,
    side: &Selection,
    held: &Leaks,
) -> Result<(), Failed>
    ensures { Prints W.contents writer.old writer.new result (held_object side.now held.now) }
{
    let mut text = LineText::new();
    push_held(&mut text, side, held);
    write_all(writer, text.as_slice())
}

// Prints the three largest areas that hold storage.
fn print_holders<W: Write>(writer: &mut Watched<W>, held: &Leaks) -> Result<(), Failed>
    ensures { Prints W.contents writer.old writer.new result
        (flat_map (area_object holder_head) (take 3 held.now.largest)) }
{
    let leaks = held.largest.as_slice();
    let count = held_lines(leaks.len());
    print_each(
        writer,
        b"{\"event\":\"holder\",\"name\":\"",
        &leaks[..count],
    )
}

// Prints the totals of the areas that hold storage by their subpools.
fn print_held_totals<W: Write>(writer: &mut Watched<W>, held: &Leaks) -> Result<(), Failed>
    ensures { Prints W.contents writer.old writer.new result
        (flat_map (total_object held_total_head) held.now.subpools) }
{
    print_totals(
        writer,
        b"{\"event\":\"held_total\",",
        held.subpools.as_slice(),
    )
}

// Prints the three largest areas, and the totals.
fn print_held_lines<W: Write>(writer: &mut Watched<W>, held: &Leaks) -> Result<(), Failed>
    ensures { Prints W.contents writer.old writer.new result
        (flat_map (area_object holder_head) (take 3 held.now.largest)
        ++ flat_map (total_object held_total_head) held.now.subpools) }
{
    print_holders(writer, held)?;
    print_held_totals(writer, held)
}

// Prints the areas that hold storage.
fn print_some_held<W: Write>(
    writer: &mut Watched<W>,
    side: &Selection,
    held: &Leaks,
) -> Result<(), Failed>
    ensures { Prints W.contents writer.old writer.new result (some_held_objects side.now held.now) }
{
    print_held_counts(writer, side, held)?;
    print_held_lines(writer, held)
}

// Prints them, if there are some.
fn print_held<W: Write>(
    writer: &mut Watched<W>,
    side: &Selection,
    held: &Leaks,
) -> Result<(), Failed>
    ensures { Prints W.contents writer.old writer.new result (held_objects side.now held.now) }
{
    if held.count == 0 {
        return Ok(());
    }
    print_some_held(writer, side, held)
}

// Appends how many areas stay, and how many bytes.
fn push_stays(text: &mut LineText, stays: &Leaks)
    requires { length text.old ≤ 2 }
    ensures text { text.new ≡ text.old ++ stays_object stays.now }
    ensures len { length text.new ≤ length text.old + 80 }
{
    text.push_str(b"{\"event\":\"stays\"");
    push_counts(text, stays);
}

// Prints how many areas stay, and how many bytes.
fn print_stays_counts<W: Write>(writer: &mut Watched<W>, stays: &Leaks) -> Result<(), Failed>
    ensures { Prints W.contents writer.old writer.new result (stays_object stays.now) }
{
    let mut text = LineText::new();
    push_stays(&mut text, stays);
    write_all(writer, text.as_slice())
}

// Prints the ten largest areas that stay.
fn print_stay_lines<W: Write>(writer: &mut Watched<W>, stays: &Leaks) -> Result<(), Failed>
    ensures { Prints W.contents writer.old writer.new result
        (flat_map (area_object stay_head) stays.now.largest) }
{
    print_each(
        writer,
        b"{\"event\":\"stay\",\"name\":\"",
        stays.largest.as_slice(),
    )
}

// Prints the areas that stay.
fn print_some_stays<W: Write>(writer: &mut Watched<W>, stays: &Leaks) -> Result<(), Failed>
    ensures { Prints W.contents writer.old writer.new result (some_stays_objects stays.now) }
{
    print_stays_counts(writer, stays)?;
    print_stay_lines(writer, stays)
}

// Prints them, if there are some.
fn print_stays<W: Write>(writer: &mut Watched<W>, stays: &Leaks) -> Result<(), Failed>
    ensures { Prints W.contents writer.old writer.new result (stays_objects stays.now) }
{
    if stays.count == 0 {
        return Ok(());
    }
    print_some_stays(writer, stays)
}

// Prints who has the storage that is short, and what stays.
fn print_held_and_stays<W: Write>(writer: &mut Watched<W>, found: &Findings) -> Result<(), Failed>
    ensures { Prints W.contents writer.old writer.new result
        (held_objects found.now.side found.now.held ++ stays_objects found.now.stays) }
{
    print_held(writer, &found.side, &found.held)?;
    print_stays(writer, &found.stays)
}

// Prints the findings about storage: what fits with LOC=ANY, who has it, and what stays.
fn print_storage<W: Write>(writer: &mut Watched<W>, found: &Findings) -> Result<(), Failed>
    ensures { Prints W.contents writer.old writer.new result
        (anywhere_objects found.now.anywhere ++ (held_objects found.now.side found.now.held ++ stays_objects found.now.stays)) }
{
    print_anywhere(writer, found.anywhere)?;
    print_held_and_stays(writer, found)
}

/// Prints what the history says of a line.
pub(crate) fn print_json_findings<W: Write>(
    writer: &mut Watched<W>,
    found: &Findings,
) -> Result<(), Failed>
    ensures { Prints W.contents writer.old writer.new result (json_findings found.now) }
{
    print_address(writer, &found.address)?;
    print_storage(writer, found)
}
