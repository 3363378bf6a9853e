//! Lists in parentheses.

ghost use Rattle.std.specs.Prelude.{◌≡◌, ◌∷◌, [], true, false, length, MatchOption};
ghost use Rattle.std.specs.List.{list_all, list_any};
ghost use Rattle.mvs_model.specs.Reading.{is_list, is_of, is_within, is_twice};
ghost use Rattle.job_script.specs.Items.{inner, items_in, item_kind, is_same_item};

use crate::addresses::{is_address, is_address_in_range, is_name};
use crate::digits::{is_in_range, is_number, is_same_number};
use crate::split_once::split_once;

/// What an item of a list may be.
#[derive(Clone, Copy)]
pub enum Item {
    /// A number from the first to the second.
    Number(u32, u32),
    Name,
    Address,
}

/// Returns the text between the parentheses of a list.
pub fn inside(text: &[u8]) -> Option<&[u8]>
    ensures { MatchOption result (is_list text.now ≡ false)
        (λ items. (is_list text.now ≡ true) × (items.now ≡ inner text.now)) }
{
    if text.len() < 2 || text[0] != b'(' || text[text.len() - 1] != b')' {
        return None;
    }
    Some(&text[1..text.len() - 1])
}

/// Returns the text between the first byte and the last.
pub fn between(text: &[u8]) -> &[u8]
    ensures { result.now ≡ inner text.now }
{
    if text.len() < 2 {
        &[]
    } else {
        &text[1..text.len() - 1]
    }
}

/// Returns the items, where there are two.
pub fn two(inner: &[u8]) -> (&[u8], &[u8])
    requires { length (items_in inner.now) ≡ 2 }
    ensures { items_in inner.now ≡ result.0.now ∷ result.1.now ∷ [] }
{
    let (first, second) = split_once(inner, b',');
    match second {
        Some(second) => (first, second),
        None => unreachable!(),
    }
}

// Returns whether a text is such an item.
fn is_item(item: Item, text: &[u8]) -> bool
    ensures { result ≡ is_of (item_kind item) text.now }
{
    match item {
        Item::Number(_, _) => is_number(text),
        Item::Name => is_name(text),
        Item::Address => is_address(text),
    }
}

// Returns whether an item is in its range.
fn is_item_in_range(item: Item, text: &[u8]) -> bool
    requires { is_of (item_kind item) text.now ≡ true }
    ensures { result ≡ is_within (item_kind item) text.now }
{
    match item {
        Item::Number(least, most) => is_in_range(least, most, text),
        Item::Name => true,
        Item::Address => is_address_in_range(text),
    }
}

/// Returns whether each item is such a one.
pub fn are_items(item: Item, inner: &[u8]) -> bool
    ensures { result ≡ list_all (is_of (item_kind item)) (items_in inner.now) }
{
    let mut rest = inner;
    'items: loop {
        let (text, more) = split_once(rest, b',');
        if !is_item(item, text) {
            return false;
        }
        match more {
            None => return true,
            Some(next) => rest = next,
        }
    }
}

/// Returns whether each item is in its range.
pub fn are_in_range(item: Item, inner: &[u8]) -> bool
    requires { list_all (is_of (item_kind item)) (items_in inner.now) ≡ true }
    ensures { result ≡ list_all (is_within (item_kind item)) (items_in inner.now) }
{
    let mut rest = inner;
    'items: loop {
        let (text, more) = split_once(rest, b',');
        if !is_item_in_range(item, text) {
            return false;
        }
        match more {
            None => return true,
            Some(next) => rest = next,
        }
    }
}

/// Returns how many items there are.
pub fn count(inner: &[u8]) -> usize
    ensures { result ≡ length (items_in inner.now) }
{
    let mut rest = inner;
    let mut count = 1;
    'items: loop {
        let (_, more) = split_once(rest, b',');
        match more {
            None => return count,
            Some(next) => rest = next,
        }
        count += 1;
    }
}

// Returns whether two items are the same: numbers by value.
fn is_same_item(item: Item, one: &[u8], other: &[u8]) -> bool
    requires one { is_of (item_kind item) one.now ≡ true }
    requires other { is_of (item_kind item) other.now ≡ true }
    ensures { result ≡ is_same_item item one.now other.now }
{
    match item {
        Item::Number(_, _) => is_same_number(one, other),
        Item::Name | Item::Address => one == other,
    }
}

// Returns whether an item is one of a list.
fn has_item(item: Item, inner: &[u8], one: &[u8]) -> bool
    requires items { list_all (is_of (item_kind item)) (items_in inner.now) ≡ true }
    requires one { is_of (item_kind item) one.now ≡ true }
    ensures { result ≡ list_any (is_same_item item one.now) (items_in inner.now) }
{
    let mut rest = inner;
    'items: loop {
        let (text, more) = split_once(rest, b',');
        if is_same_item(item, one, text) {
            return true;
        }
        match more {
            None => return false,
            Some(next) => rest = next,
        }
    }
}

/// Returns whether an item is a duplicate.
pub fn is_twice(item: Item, inner: &[u8]) -> bool
    requires { list_all (is_of (item_kind item)) (items_in inner.now) ≡ true }
    ensures { result ≡ is_twice (is_same_item item) (items_in inner.now) }
{
    let mut rest = inner;
    'items: loop {
        let (text, more) = split_once(rest, b',');
        match more {
            None => return false,
            Some(next) => {
                if has_item(item, next, text) {
                    return true;
                }
                rest = next;
            }
        }
    }
}

/// Returns whether an item of one list is one of another.
pub fn is_shared(item: Item, one: &[u8], other: &[u8]) -> bool
    requires one { list_all (is_of (item_kind item)) (items_in one.now) ≡ true }
    requires other { list_all (is_of (item_kind item)) (items_in other.now) ≡ true }
    ensures { result
        ≡ list_any (λ x. list_any (is_same_item item x) (items_in other.now)) (items_in one.now) }
{
    let mut rest = one;
    'items: loop {
        let (text, more) = split_once(rest, b',');
        if has_item(item, other, text) {
            return true;
        }
        match more {
            None => return false,
            Some(next) => rest = next,
        }
    }
}
