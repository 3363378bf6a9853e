//! Writes the page of a script that was read whole: its lines that were not executed are reported, or its leaks set the exit status.

ghost use Rattle.std.specs.Prelude.{◌≡◌, ◌≤◌, [], List, Option, ℕ, IfOk, false, length, refl};
ghost use Rattle.std.specs.Io.KnownBytes.{Appends};
ghost use Rattle.line_text.specs.Writing.{Prints};
ghost use Rattle.mvs_model.specs.Numbers.{most_script_bytes};
ghost use Rattle.mvsjob.specs.ModeResult.{ConsumesStrictly, ReportsLeaks};
ghost use Rattle.page.specs.Pages.{paged};

use crate::ended_as;
use crate::ending::{CliError, ExitReason};
use crate::options::Settings;
use crate::script::read_script;
use crate::served::{ModeResult, WholeScript, consume_strict, report_leaks_as};
use crate::strict::Teller;
use area_history::{Findings, Leftovers, ReportFormat};
use line_text::write_all;
use mvs_job::SkipObserver;
use mvs_model::watched::{Failed, Watched};
use page::{FRAME, PageItems};
use std::io::{Read, Write};

/// A report of leaks without a text: a page shows by itself what leaked.
#[derive(Clone, Copy, Debug, PartialEq, Eq)]
pub struct NoText;

impl ReportFormat for NoText {
    ghost report = { λ _. [] };

    ghost findings = { λ _. [] };

    ghost quiet = { refl };

    fn print<W: Write>(&self, _writer: &mut Watched<W>, _left: &Leftovers) -> Result<(), Failed> {
        Ok(())
    }

    fn print_findings<W: Write>(
        &self,
        _writer: &mut Watched<W>,
        _found: &Findings,
    ) -> Result<(), Failed> {
        Ok(())
    }
}

// Writes the page of a script.
fn serve_page<'a, W: Write, H: SkipObserver>(
    whole: WholeScript<'a>,
    settings: &Settings<'_>,
    writer: &mut Watched<W>,
    hearer: &mut H,
) -> Result<ModeResult<'a>, CliError>
    requires { length whole.script.now ≤ most_script_bytes }
    ensures strict { IfOk result (λ served. settings.now.leaks ≡ false
        → (mid : Option (List ℕ)) × Appends (W.contents writer.old.inner) mid FRAME.now
        × ConsumesStrictly paged mid (W.contents writer.new.inner) (H.heard hearer.old)
        (H.heard hearer.new) whole.entry.script.now result) }
{
    write_all(writer, FRAME.as_bytes())?;
    let mut items = PageItems::new(whole.alloc);
    if settings.leaks {
        report_leaks_as(whole, settings.strict, writer, &mut items, NoText, hearer)
    } else {
        consume_strict(
            whole.alloc,
            whole.script,
            writer,
            whole.placement,
            &mut items,
            hearer,
        )
    }
}

/// Writes the page of the script that a reader has, and reports the lines that were not executed, if the settings ask for that.
pub fn write_whole_page<R: Read + Drop, W: Write>(
    rt: &HostRuntime,
    reader: R,
    settings: &Settings<'_>,
    writer: &mut Watched<W>,
) -> Result<ExitReason, CliError> {
    let script = read_script(rt.alloc(), reader)?;
    let whole = WholeScript {
        alloc: rt.alloc(),
        script: &script,
        placement: settings.placement,
    };
    let mut teller = Teller::new(rt, settings.file, &script);
    let served = serve_page(whole, settings, writer, &mut teller)?;
    ended_as(rt, settings, writer, &served)
}
