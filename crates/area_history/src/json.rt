//! A report of what is left in a step as lines of JSON.

ghost use Rattle.std.specs.Prelude.{◌≡◌, ◌≤◌, ◌+◌, ◌++◌, length};
ghost use Rattle.std.specs.List.{flat_map};
ghost use Rattle.line_text.specs.Writing.{Prints};
ghost use Rattle.area_history.specs.JsonReports.{area_object, bytes_member, capped, group_members, json_report, leak_head, leaks_line, origin_members, place_members, pool_object, subpool_members, total_head, total_object};

use crate::account::Leftovers;
use crate::grant::Leak;
use crate::largest::Leaks;
use crate::pools::PoolLeft;
use crate::totals::{Group, Total};
use line_text::text::LineText;
use line_text::write_all;
use mvs_model::name::Name;
use mvs_model::place::Place;
use mvs_model::subpool::SubNo;
use mvs_model::watched::{Failed, Watched};
use std::io::Write;

/// Appends a number, at most 2 ^ 32 - 1.
pub(crate) fn push_capped(text: &mut LineText, number: u128)
    requires { length text.old ≤ 100 }
    ensures text { text.new ≡ text.old ++ capped number }
    ensures len { length text.new ≤ length text.old + 10 }
{
    if number < 4_294_967_296 {
        text.push_decimal(number as u32);
    } else {
        text.push_str(b"4294967295");
    }
}

// Appends the line that counts the areas, their bytes, and the pools.
fn push_counts(text: &mut LineText, leaks: &Leaks, pools: usize)
    requires { length text.old ≤ 2 }
    ensures text { text.new ≡ text.old ++ leaks_line leaks.now.count leaks.now.bytes pools }
    ensures len { length text.new ≤ length text.old + 90 }
{
    text.push_str(b"{\"event\":\"leaks\",\"areas\":");
    push_capped(text, leaks.count as u128);
    text.push_str(b",\"bytes\":");
    push_capped(text, leaks.bytes);
    text.push_str(b",\"pools\":");
    push_capped(text, pools as u128);
    text.push_str(b"}\n");
}

// Prints the line that counts the areas, their bytes, and the pools.
fn print_counts<W: Write>(
    writer: &mut Watched<W>,
    leaks: &Leaks,
    pools: usize,
) -> Result<(), Failed>
    ensures { Prints W.contents writer.old writer.new result
        (leaks_line leaks.now.count leaks.now.bytes pools) }
{
    let mut text = LineText::new();
    push_counts(&mut text, leaks, pools);
    write_all(writer, text.as_slice())
}

/// Appends where an area is.
pub(crate) fn push_place(text: &mut LineText, place: Place)
    requires { length text.old ≤ 90 }
    ensures text { text.new ≡ text.old ++ place_members place }
    ensures len { length text.new ≤ length text.old + 42 }
{
    text.push_str(b",\"address\":");
    text.push_decimal(place.addr().get());
    text.push_str(b",\"length\":");
    text.push_decimal(place.len());
}

// Appends what is left of an area.
fn push_bytes(text: &mut LineText, bytes: u32)
    requires { length text.old ≤ 90 }
    ensures text { text.new ≡ text.old ++ bytes_member bytes }
    ensures len { length text.new ≤ length text.old + 20 }
{
    text.push_str(b",\"bytes\":");
    text.push_decimal(bytes);
}

/// Appends a subpool: the number that its owner has for it, and the owner.
pub(crate) fn push_subpool(text: &mut LineText, number: SubNo, owner: &Name)
    requires { length text.old ≤ 150 }
    ensures text { text.new ≡ text.old ++ subpool_members number owner.now }
    ensures len { length text.new ≤ length text.old + 42 }
{
    text.push_str(b",\"subpool\":");
    text.push_decimal(u32::from(number.get()));
    text.push_str(b",\"owner\":\"");
    text.push_name(owner);
}

/// Appends the task and the line that obtained an area.
pub(crate) fn push_origin(text: &mut LineText, task: &Name, line: u32)
    requires { length text.old ≤ 200 }
    ensures text { text.new ≡ text.old ++ origin_members task.now line }
    ensures len { length text.new ≤ length text.old + 38 }
{
    text.push_str(b"\",\"task\":\"");
    text.push_name(task);
    text.push_str(b"\",\"line\":");
    text.push_decimal(line);
}

// Appends the line of an area, which begins so.
fn push_leak(text: &mut LineText, head: &[u8], leak: &Leak)
    requires start { length text.old ≤ 2 }
    requires head { length head.now ≤ 28 }
    ensures text { text.new ≡ text.old ++ area_object head.now leak.now }
    ensures len { length text.new ≤ length text.old + 200 }
{
    text.push_str(head);
    text.push_name(&leak.grant.area);
    text.push_str(b"\"");
    push_place(text, leak.grant.place);
    push_bytes(text, leak.bytes);
    push_subpool(text, leak.grant.subpool, &leak.grant.owner);
    push_origin(text, &leak.grant.task, leak.grant.line);
    text.push_str(b"}\n");
}

// Prints the line of an area, which begins so.
fn print_leak<W: Write>(writer: &mut Watched<W>, head: &[u8], leak: &Leak) -> Result<(), Failed>
    requires { length head.now ≤ 28 }
    ensures { Prints W.contents writer.old writer.new result (area_object head.now leak.now) }
{
    let mut text = LineText::new();
    push_leak(&mut text, head, leak);
    write_all(writer, text.as_slice())
}

/// Prints the lines of areas. Each begins with this text.
pub(crate) fn print_each<W: Write>(
    writer: &mut Watched<W>,
    head: &[u8],
    leaks: &[Leak],
) -> Result<(), Failed>
    requires { length head.now ≤ 28 }
    ensures { Prints W.contents writer.old writer.new result
        (flat_map (area_object head.now) leaks.now) }
{
    for leak in leaks {
        print_leak(writer, head, leak)?;
    }
    Ok(())
}

// Appends which areas a total is of.
fn push_group(text: &mut LineText, group: &Group)
    requires { length text.old ≤ 40 }
    ensures text { text.new ≡ text.old ++ group_members group.now }
    ensures len { length text.new ≤ length text.old + 40 }
{
    match group {
        Group::Subpool(number, owner) => {
            text.push_str(b"\"subpool\":");
            text.push_decimal(u32::from(number.get()));
            text.push_str(b",\"owner\":\"");
            text.push_name(owner);
        }
        Group::Task(task) => {
            text.push_str(b"\"task\":\"");
            text.push_name(task);
        }
    }
    text.push_str(b"\"");
}

// Appends the line of a total, which begins so.
fn push_total(text: &mut LineText, head: &[u8], total: &Total)
    requires start { length text.old ≤ 2 }
    requires head { length head.now ≤ 28 }
    ensures text { text.new ≡ text.old ++ total_object head.now total.now }
    ensures len { length text.new ≤ length text.old + 150 }
{
    text.push_str(head);
    push_group(text, &total.group);
    text.push_str(b",\"areas\":");
    push_capped(text, total.count as u128);
    text.push_str(b",\"bytes\":");
    push_capped(text, total.bytes);
    text.push_str(b"}\n");
}

// Prints the line of a total, which begins so.
fn print_total<W: Write>(writer: &mut Watched<W>, head: &[u8], total: &Total) -> Result<(), Failed>
    requires { length head.now ≤ 28 }
    ensures { Prints W.contents writer.old writer.new result (total_object head.now total.now) }
{
    let mut text = LineText::new();
    push_total(&mut text, head, total);
    write_all(writer, text.as_slice())
}

/// Prints the lines of totals. Each begins with this text.
pub(crate) fn print_totals<W: Write>(
    writer: &mut Watched<W>,
    head: &[u8],
    totals: &[Total],
) -> Result<(), Failed>
    requires { length head.now ≤ 28 }
    ensures { Prints W.contents writer.old writer.new result
        (flat_map (total_object head.now) totals.now) }
{
    for total in totals {
        print_total(writer, head, total)?;
    }
    Ok(())
}

// Appends the line of a pool.
fn push_pool(text: &mut LineText, pool: &PoolLeft)
    requires { length text.old ≤ 2 }
    ensures text { text.new ≡ text.old ++ pool_object pool.now }
    ensures len { length text.new ≤ length text.old + 190 }
{
    text.push_str(b"{\"event\":\"pool_left\",\"name\":\"");
    text.push_name(&pool.built.pool);
    text.push_str(b"\",\"bytes\":");
    push_capped(text, pool.bytes());
    text.push_str(b",\"parts\":");
    text.push_decimal(pool.parts);
    push_subpool(text, pool.built.subpool, &pool.built.owner);
    push_origin(text, &pool.built.task, pool.built.line);
    text.push_str(b"}\n");
}

// Prints the line of a pool.
fn print_pool<W: Write>(writer: &mut Watched<W>, pool: &PoolLeft) -> Result<(), Failed>
    ensures { Prints W.contents writer.old writer.new result (pool_object pool.now) }
{
    let mut text = LineText::new();
    push_pool(&mut text, pool);
    write_all(writer, text.as_slice())
}

// Prints the lines of pools.
fn print_pools<W: Write>(writer: &mut Watched<W>, pools: &[PoolLeft]) -> Result<(), Failed>
    ensures { Prints W.contents writer.old writer.new result (flat_map pool_object pools.now) }
{
    for pool in pools {
        print_pool(writer, pool)?;
    }
    Ok(())
}

// Prints the totals by task, and the pools.
fn print_tasks_and_pools<W: Write>(writer: &mut Watched<W>, left: &Leftovers) -> Result<(), Failed>
    ensures { Prints W.contents writer.old writer.new result
        (flat_map (total_object total_head) left.now.areas.tasks ++ flat_map pool_object left.now.pools) }
{
    print_totals(
        writer,
        b"{\"event\":\"leak_total\",",
        left.areas.tasks.as_slice(),
    )?;
    print_pools(writer, left.pools.as_slice())
}

// Prints the totals, and the pools.
fn print_totals_and_pools<W: Write>(writer: &mut Watched<W>, left: &Leftovers) -> Result<(), Failed>
    ensures { Prints W.contents writer.old writer.new result
        (flat_map (total_object total_head) left.now.areas.subpools
        ++ (flat_map (total_object total_head) left.now.areas.tasks ++ flat_map pool_object left.now.pools)) }
{
    print_totals(
        writer,
        b"{\"event\":\"leak_total\",",
        left.areas.subpools.as_slice(),
    )?;
    print_tasks_and_pools(writer, left)
}

// Prints the lines after the counts.
fn print_details<W: Write>(writer: &mut Watched<W>, left: &Leftovers) -> Result<(), Failed>
    ensures { Prints W.contents writer.old writer.new result
        (flat_map (area_object leak_head) left.now.areas.largest
        ++ (flat_map (total_object total_head) left.now.areas.subpools
        ++ (flat_map (total_object total_head) left.now.areas.tasks ++ flat_map pool_object left.now.pools))) }
{
    print_each(
        writer,
        b"{\"event\":\"leak\",\"name\":\"",
        left.areas.largest.as_slice(),
    )?;
    print_totals_and_pools(writer, left)
}

/// Prints what is left in a step: a line with counts, one for each of the ten largest areas, the totals, and one for each pool.
pub(crate) fn print_json_leftovers<W: Write>(
    writer: &mut Watched<W>,
    left: &Leftovers,
) -> Result<(), Failed>
    ensures { Prints W.contents writer.old writer.new result (json_report left.now) }
{
    print_counts(writer, &left.areas, left.pools.len())?;
    print_details(writer, left)
}
