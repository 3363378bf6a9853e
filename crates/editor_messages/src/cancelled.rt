//! Requests that a later message cancels.

ghost use Rattle.std.specs.Prelude.{◌≡◌, Some, option_map, true};
ghost use Rattle.json.specs.Value.{value_view};
ghost use Rattle.editor_messages.specs.Messages.{json_of};
ghost use Rattle.editor_messages.specs.Serving.{Cancels, HasCancellation};

use crate::frames::{Frame, after, read_frame};
use crate::message::{ClientMessage, Id, message_of};
use json::{Scratch, Value};
use std::alloc::Global;
use std::str;

/// The most messages that are searched for the cancellation of a request, and the most bytes of one.
const MOST_AHEAD: usize = 64;

const MOST_CANCELLATION: usize = 300;

// Returns whether a value is an identifier.
fn is_id(value: Option<&Value<'_>>, id: &Id<'_>) -> bool
    ensures { result ≡ true
        → option_map (λ v. value_view v.now) value.entry ≡ Some (json_of id.now) }
{
    match (value, id) {
        (Some(Value::Number(number)), Id::Number(other)) => *number == *other,
        (Some(Value::String(text)), Id::Text(other)) => *text == *other,
        _ => false,
    }
}

// Returns whether a message cancels a request.
fn cancels(alloc: Global, content: &[u8], id: &Id<'_>) -> bool
    ensures { result ≡ true → Cancels (json_of id.now) content.now }
{
    let Ok(text) = str::from_utf8(content) else {
        return false;
    };
    let mut scratch = Scratch::new(alloc);
    let Ok(value) = Value::parse(alloc, text, &mut scratch) else {
        return false;
    };
    match message_of(&value) {
        ClientMessage::Notification(name, Some(params)) => {
            name == "$/cancelRequest" && is_id(params.get("id"), id)
        }
        _ => false,
    }
}

/// Returns whether one of the next messages that have arrived cancels a request.
pub fn is_cancelled(alloc: Global, arrived: &[u8], id: &Id<'_>) -> bool
    ensures { result ≡ true → HasCancellation (json_of id.now) arrived.now }
{
    let mut rest = arrived;
    for _ in 0..MOST_AHEAD {
        let Frame::Content(start, end) = read_frame(rest) else {
            return false;
        };
        let content = &rest[start..end];
        if content.len() <= MOST_CANCELLATION && cancels(alloc, content, id) {
            return true;
        }
        rest = after(rest, end);
    }
    false
}
