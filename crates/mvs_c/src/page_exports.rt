//! The function that C calls for the pages that changed.

ghost use Rattle.std.specs.Prelude.{◌≡◌, ◌≢◌};
ghost use Rattle.mvs_c.specs.Exports.{WithSession};
ghost use Rattle.mvs_c.specs.Pages.{AnswersPages, pages_bytes};

use crate::exports::{put, take_out};
use crate::handle::Handle;
use crate::open::Open;
use crate::pages::PagesFields;
use crate::status::{NO_MORE, NO_SESSION, OK, WRONG_SIZE};
use std::alloc::Global;

// Returns the first and the last page that changed since the call before.
fn copy_changed(held: &mut Open, pages: &mut PagesFields) -> u32
    ensures { AnswersPages held.old held.new pages.old pages.new result }
{
    match held.changed_pages() {
        Some(span) => {
            *pages = span.value();
            OK
        }
        None => NO_MORE,
    }
}

/// Returns the first and the last page of a session without bytes that changed since the call before.
#[unsafe(no_mangle)]
pub extern "C" fn mvs_changed_pages(
    alloc: Global,
    session: &mut Handle,
    pages: &mut PagesFields,
) -> u32
    ensures size { pages.old.size ≢ pages_bytes
        → (result ≡ 64) × (session.new.open ≡ session.old.open) × (pages.new ≡ pages.old) }
    ensures answer { pages.old.size ≡ pages_bytes
        → WithSession session.old.open session.new.open
        ((result ≡ 20) × (pages.new ≡ pages.old))
        (λ old new. AnswersPages old new pages.old pages.new result) }
{
    if !pages.is_sized() {
        return WRONG_SIZE;
    }
    let Some(mut held) = take_out(alloc, session) else {
        return NO_SESSION;
    };
    let status = copy_changed(&mut held, pages);
    put(alloc, session, held);
    status
}
