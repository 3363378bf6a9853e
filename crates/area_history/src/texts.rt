//! The lines about areas that were never released, and about pools that were never deleted.

ghost use Rattle.std.specs.Prelude.{◌≡◌, ◌≤◌, ◌<◌, ◌+◌, ◌-◌, ◌++◌, ◌==◌, length};
ghost use Rattle.std.specs.List.{flat_map, position_or_len};
ghost use Rattle.explanation.specs.FactTexts.{subpool_words};
ghost use Rattle.explanation.specs.ReasonTexts.{one_line};
ghost use Rattle.line_text.specs.Writing.{Prints};
ghost use Rattle.area_history.specs.LeakTexts.{areas_report, areas_text, group_text, heading_text, leak_line, leak_text, left_text, more_line, built_text, number_text, origin_text, parts_text, pool_line, pool_text, pools_heading, pools_report, pools_text, report_text, some_areas, some_pools, starred, total_line, total_text, totals_text};

use crate::account::Leftovers;
use crate::grant::{AreaGrant, Leak};
use crate::largest::{Leaks, MOST_LINES};
use crate::pools::PoolLeft;
use crate::totals::{Group, Total};
use line_text::text::LineText;
use line_text::write_all;
use mvs_model::name::Name;
use mvs_model::subpool::SubNo;
use mvs_model::watched::{Failed, Watched};
use std::io::Write;

/// Returns the number of bytes before the first newline.
pub(crate) fn line_len(bytes: &[u8]) -> usize
    ensures len { result ≡ position_or_len (λ b. b == 10) bytes.now }
    ensures within { result ≤ length bytes.now }
{
    for (i, byte) in bytes.iter().enumerate() {
        if *byte == b'\n' {
            return i;
        }
    }
    bytes.len()
}

/// Makes one line of a text.
pub(crate) fn end_line(text: &mut LineText)
    requires { length text.old < 240 }
    ensures { text.new ≡ one_line text.old }
{
    let len = line_len(text.as_slice());
    text.cut(len);
    text.push(b'\n');
}

/// Appends a number.
pub(crate) fn push_number(text: &mut LineText, number: u128)
    requires { length text.old ≤ 100 }
    ensures text { text.new ≡ text.old ++ number_text number }
    ensures len { length text.new ≤ length text.old + 20 }
{
    if number < 4_294_967_296 {
        text.push_decimal(number as u32);
    } else {
        text.push_str(b"over 4294967295");
    }
}

/// Appends a number of areas.
pub(crate) fn push_areas(text: &mut LineText, count: usize)
    requires { length text.old ≤ 80 }
    ensures text { text.new ≡ text.old ++ areas_text count }
    ensures len { length text.new ≤ length text.old + 30 }
{
    push_number(text, count as u128);
    if count == 1 {
        text.push_str(b" area");
    } else {
        text.push_str(b" areas");
    }
}

// Appends how many areas were never released, and how many bytes they have.
fn push_heading(text: &mut LineText, leaks: &Leaks)
    requires { length text.old ≤ 2 }
    ensures text { text.new ≡ text.old ++ heading_text leaks.now.count leaks.now.bytes }
    ensures len { length text.new ≤ length text.old + 100 }
{
    text.push_str(b"Never released: ");
    push_areas(text, leaks.count);
    text.push_str(b", ");
    push_number(text, leaks.bytes);
    text.push_str(b" bytes.");
}

// Prints how many areas were never released, and how many bytes they have.
fn print_heading<W: Write>(writer: &mut Watched<W>, leaks: &Leaks) -> Result<(), Failed>
    ensures { Prints W.contents writer.old writer.new result (starred (heading_text leaks.now.count leaks.now.bytes)) }
{
    let mut text = LineText::new();
    text.push_str(b"* ");
    push_heading(&mut text, leaks);
    end_line(&mut text);
    write_all(writer, text.as_slice())
}

/// Appends a subpool: its owner's number for it, and the owner.
pub(crate) fn push_subpool(text: &mut LineText, number: SubNo, owner: &Name)
    requires { length text.old ≤ 200 }
    ensures text { text.new ≡ text.old ++ subpool_words number owner.now }
    ensures len { length text.new ≤ length text.old + 26 }
{
    text.push_str(b"SP ");
    text.push_decimal(u32::from(number.get()));
    text.push_str(b" of ");
    text.push_name(owner);
}

/// Appends how many bytes are left of an area.
pub(crate) fn push_left(text: &mut LineText, bytes: u32, len: u32)
    requires { length text.old ≤ 20 }
    ensures text { text.new ≡ text.old ++ left_text bytes len }
    ensures len { length text.new ≤ length text.old + 24 }
{
    text.push_decimal(bytes);
    if bytes != len {
        text.push_str(b" of ");
        text.push_decimal(len);
    }
}

/// Appends which line obtained an area.
pub(crate) fn push_origin(text: &mut LineText, grant: &AreaGrant)
    requires { length text.old ≤ 140 }
    ensures text { text.new ≡ text.old ++ origin_text grant.now }
    ensures len { length text.new ≤ length text.old + 60 }
{
    text.push_str(b", obtained by ");
    text.push_name(&grant.task);
    text.push_str(b" in line ");
    text.push_decimal(grant.line);
    text.push_str(b".");
}

// Appends what is left of an area.
fn push_leak(text: &mut LineText, leak: &Leak)
    requires { length text.old ≤ 2 }
    ensures text { text.new ≡ text.old ++ leak_text leak.now }
    ensures len { length text.new ≤ length text.old + 200 }
{
    text.push_name(&leak.grant.area);
    text.push_str(b": ");
    push_left(text, leak.bytes, leak.grant.place.len());
    text.push_str(b" bytes at ");
    text.push_word(leak.grant.place.addr().get());
    text.push_str(b" in ");
    push_subpool(text, leak.grant.subpool, &leak.grant.owner);
    push_origin(text, &leak.grant);
}

// Prints what is left of an area.
fn print_leak<W: Write>(writer: &mut Watched<W>, leak: &Leak) -> Result<(), Failed>
    ensures { Prints W.contents writer.old writer.new result (leak_line leak.now) }
{
    let mut text = LineText::new();
    text.push_str(b"* ");
    push_leak(&mut text, leak);
    end_line(&mut text);
    write_all(writer, text.as_slice())
}

/// Prints how many areas have no line of their own, if there are some.
pub(crate) fn print_more<W: Write>(writer: &mut Watched<W>, count: usize) -> Result<(), Failed>
    ensures { Prints W.contents writer.old writer.new result (more_line count) }
{
    if count == 0 {
        return Ok(());
    }
    let mut text = LineText::new();
    text.push_str(b"* And ");
    push_number(&mut text, count as u128);
    text.push_str(b" more.");
    end_line(&mut text);
    write_all(writer, text.as_slice())
}

/// Prints the areas that have a line of their own.
pub(crate) fn print_each<W: Write>(writer: &mut Watched<W>, leaks: &[Leak]) -> Result<(), Failed>
    ensures { Prints W.contents writer.old writer.new result (flat_map leak_line leaks.now) }
{
    for leak in leaks {
        print_leak(writer, leak)?;
    }
    Ok(())
}

// Appends which areas a total is of.
fn push_group(text: &mut LineText, group: &Group)
    requires { length text.old ≤ 10 }
    ensures text { text.new ≡ text.old ++ group_text group.now }
    ensures len { length text.new ≤ length text.old + 30 }
{
    match group {
        Group::Subpool(number, owner) => {
            text.push_str(b"In ");
            push_subpool(text, *number, owner);
        }
        Group::Task(task) => {
            text.push_str(b"Obtained by ");
            text.push_name(task);
        }
    }
}

// Appends a total.
fn push_total(text: &mut LineText, total: &Total)
    requires { length text.old ≤ 2 }
    ensures text { text.new ≡ text.old ++ total_text total.now }
    ensures len { length text.new ≤ length text.old + 100 }
{
    push_group(text, &total.group);
    text.push_str(b": ");
    push_areas(text, total.count);
    text.push_str(b", ");
    push_number(text, total.bytes);
    text.push_str(b" bytes.");
}

// Prints a total.
fn print_total<W: Write>(writer: &mut Watched<W>, total: &Total) -> Result<(), Failed>
    ensures { Prints W.contents writer.old writer.new result (total_line total.now) }
{
    let mut text = LineText::new();
    text.push_str(b"* ");
    push_total(&mut text, total);
    end_line(&mut text);
    write_all(writer, text.as_slice())
}

// Prints some totals.
fn print_each_total<W: Write>(writer: &mut Watched<W>, totals: &[Total]) -> Result<(), Failed>
    ensures { Prints W.contents writer.old writer.new result (flat_map total_line totals.now) }
{
    for total in totals {
        print_total(writer, total)?;
    }
    Ok(())
}

/// Prints the totals of several groups.
pub(crate) fn print_totals<W: Write>(
    writer: &mut Watched<W>,
    totals: &[Total],
) -> Result<(), Failed>
    ensures { Prints W.contents writer.old writer.new result (totals_text totals.now) }
{
    if totals.len() <= 1 {
        return Ok(());
    }
    print_each_total(writer, totals)
}

// Prints the totals by subpool and by task.
fn print_both_totals<W: Write>(writer: &mut Watched<W>, leaks: &Leaks) -> Result<(), Failed>
    ensures { Prints W.contents writer.old writer.new result
        (totals_text leaks.now.subpools ++ totals_text leaks.now.tasks) }
{
    print_totals(writer, leaks.subpools.as_slice())?;
    print_totals(writer, leaks.tasks.as_slice())
}

// Prints how many areas have no line of their own, and the totals.
fn print_rest<W: Write>(writer: &mut Watched<W>, leaks: &Leaks) -> Result<(), Failed>
    ensures { Prints W.contents writer.old writer.new result
        (more_line (leaks.now.count - 10)
        ++ (totals_text leaks.now.subpools ++ totals_text leaks.now.tasks)) }
{
    print_more(writer, leaks.count.saturating_sub(MOST_LINES))?;
    print_both_totals(writer, leaks)
}

// Prints the ten largest areas, how many more there are, and the totals.
fn print_areas<W: Write>(writer: &mut Watched<W>, leaks: &Leaks) -> Result<(), Failed>
    ensures { Prints W.contents writer.old writer.new result
        (flat_map leak_line leaks.now.largest
        ++ (more_line (leaks.now.count - 10)
        ++ (totals_text leaks.now.subpools ++ totals_text leaks.now.tasks))) }
{
    print_each(writer, leaks.largest.as_slice())?;
    print_rest(writer, leaks)
}

// Prints the areas that were never released.
fn print_some_areas<W: Write>(writer: &mut Watched<W>, leaks: &Leaks) -> Result<(), Failed>
    ensures { Prints W.contents writer.old writer.new result (some_areas leaks.now) }
{
    print_heading(writer, leaks)?;
    print_areas(writer, leaks)
}

// Prints them, if there are some.
fn print_areas_report<W: Write>(writer: &mut Watched<W>, leaks: &Leaks) -> Result<(), Failed>
    ensures { Prints W.contents writer.old writer.new result (areas_report leaks.now) }
{
    if leaks.count == 0 {
        return Ok(());
    }
    print_some_areas(writer, leaks)
}

// Appends a number of parts.
fn push_parts(text: &mut LineText, count: u32)
    requires { length text.old ≤ 80 }
    ensures text { text.new ≡ text.old ++ parts_text count }
    ensures len { length text.new ≤ length text.old + 16 }
{
    text.push_decimal(count);
    if count == 1 {
        text.push_str(b" part");
    } else {
        text.push_str(b" parts");
    }
}

// Appends the line that built a pool.
fn push_built(text: &mut LineText, pool: &PoolLeft)
    requires { length text.old ≤ 140 }
    ensures text { text.new ≡ text.old ++ built_text pool.now }
    ensures len { length text.new ≤ length text.old + 50 }
{
    text.push_str(b", built by ");
    text.push_name(&pool.built.task);
    text.push_str(b" in line ");
    text.push_decimal(pool.built.line);
    text.push_str(b".");
}

// Appends a pool.
fn push_pool(text: &mut LineText, pool: &PoolLeft)
    requires { length text.old ≤ 2 }
    ensures text { text.new ≡ text.old ++ pool_text pool.now }
    ensures len { length text.new ≤ length text.old + 180 }
{
    text.push_str(b"Pool ");
    text.push_name(&pool.built.pool);
    text.push_str(b": ");
    push_number(text, pool.bytes());
    text.push_str(b" bytes in ");
    push_parts(text, pool.parts);
    text.push_str(b" in ");
    push_subpool(text, pool.built.subpool, &pool.built.owner);
    push_built(text, pool);
}

// Prints a pool.
fn print_pool<W: Write>(writer: &mut Watched<W>, pool: &PoolLeft) -> Result<(), Failed>
    ensures { Prints W.contents writer.old writer.new result (pool_line pool.now) }
{
    let mut text = LineText::new();
    text.push_str(b"* ");
    push_pool(&mut text, pool);
    end_line(&mut text);
    write_all(writer, text.as_slice())
}

// Prints some pools.
fn print_each_pool<W: Write>(writer: &mut Watched<W>, pools: &[PoolLeft]) -> Result<(), Failed>
    ensures { Prints W.contents writer.old writer.new result (flat_map pool_line pools.now) }
{
    for pool in pools {
        print_pool(writer, pool)?;
    }
    Ok(())
}

// Appends a number of pools.
fn push_pools(text: &mut LineText, count: usize)
    requires { length text.old ≤ 80 }
    ensures text { text.new ≡ text.old ++ pools_text count }
    ensures len { length text.new ≤ length text.old + 30 }
{
    push_number(text, count as u128);
    if count == 1 {
        text.push_str(b" pool");
    } else {
        text.push_str(b" pools");
    }
}

// Prints how many pools were never deleted.
fn print_pools_heading<W: Write>(writer: &mut Watched<W>, count: usize) -> Result<(), Failed>
    ensures { Prints W.contents writer.old writer.new result (starred (pools_heading count)) }
{
    let mut text = LineText::new();
    text.push_str(b"* Never deleted: ");
    push_pools(&mut text, count);
    text.push_str(b".");
    end_line(&mut text);
    write_all(writer, text.as_slice())
}

// Prints the pools that were never deleted.
fn print_some_pools<W: Write>(writer: &mut Watched<W>, pools: &[PoolLeft]) -> Result<(), Failed>
    ensures { Prints W.contents writer.old writer.new result (some_pools pools.now) }
{
    print_pools_heading(writer, pools.len())?;
    print_each_pool(writer, pools)
}

// Prints them, if there are some.
fn print_pools_report<W: Write>(writer: &mut Watched<W>, pools: &[PoolLeft]) -> Result<(), Failed>
    ensures { Prints W.contents writer.old writer.new result (pools_report pools.now) }
{
    if pools.len() == 0 {
        return Ok(());
    }
    print_some_pools(writer, pools)
}

/// Prints what is left in a step: the areas that were never released, and the pools that were never deleted.
pub(crate) fn print_leftovers<W: Write>(
    writer: &mut Watched<W>,
    left: &Leftovers,
) -> Result<(), Failed>
    ensures { Prints W.contents writer.old writer.new result (report_text left.now) }
{
    print_areas_report(writer, &left.areas)?;
    print_pools_report(writer, left.pools.as_slice())
}
