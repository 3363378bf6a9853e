//! The function that C calls for the statement of a list request.

ghost use Rattle.std.specs.Prelude.{◌≡◌, ◌≢◌, ◌<◌, ◌≤◌, length};
ghost use Rattle.mvs_c.specs.ListStatements.{StatesList};

use crate::ask::{RawRequest, RequestKind, name_of};
use crate::buffer::hand_over;
use crate::list::ListArea;
use crate::list_statement::{is_base, list_statement};
use crate::status::{NO_REQUEST, OK, TOO_LONG};
use mvs_model::request::Request;

/// Writes the statement of a list request by values to the front of a buffer. The areas get this name with a letter appended.
#[unsafe(no_mangle)]
pub extern "C" fn mvs_list_statement_into(
    ask: &RawRequest,
    areas: &[ListArea],
    base: &[u8; 8],
    out: &mut [u8],
    wanted: &mut usize,
) -> u32
    ensures { StatesList ask.now areas.now base.now out.old out.new wanted.old wanted.new result }
{
    let Ok(_) = ask.task_list_request(name_of(&ask.task), areas, &mut Request::Return) else {
        return NO_REQUEST;
    };
    if !is_base(base) {
        return NO_REQUEST;
    }
    let Some(kind) = ask.kind() else {
        return NO_REQUEST;
    };
    let obtains = matches!(kind, RequestKind::Obtain);
    match list_statement(obtains, ask, areas, base) {
        Some(text) => hand_over(text.as_slice(), out, wanted, OK),
        None => TOO_LONG,
    }
}
