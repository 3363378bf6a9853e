//! How a report of leaks is written, and what the history says of a line.

ghost use Rattle.std.specs.Prelude.{◌≡◌, [], List, ℕ, refl};
ghost use Rattle.line_text.specs.Writing.{Prints};
ghost use Rattle.area_history.specs.Histories.{findings_of, nothing_found};
ghost use Rattle.area_history.specs.HistoryTexts.{findings_text};
ghost use Rattle.area_history.specs.JsonHistories.{json_findings};
ghost use Rattle.area_history.specs.JsonReports.{json_report};
ghost use Rattle.area_history.specs.Leaking.{summary};
ghost use Rattle.area_history.specs.LeakTexts.{report_text};
ghost use Rattle.area_history.specs.declared.account.Leftovers.{Leftovers as TheLeftovers};
ghost use Rattle.area_history.specs.declared.findings.Findings.{Findings as TheFindings};

use crate::account::Leftovers;
use crate::findings::Findings;
use crate::history_texts::print_findings;
use crate::json::print_json_leftovers;
use crate::json_history::print_json_findings;
use crate::texts::print_leftovers;
use mvs_model::watched::{Failed, Watched};
use std::io::Write;

/// The format of a report of leaks, and of what the history shows about a line.
pub trait ReportFormat {
    // The text of a report.
    ghost report: { TheLeftovers → List ℕ };

    // The text of what the history says of a line.
    ghost findings: { TheFindings → List ℕ };

    /// Writes the report of what is left in a step.
    fn print<W: Write>(&self, writer: &mut Watched<W>, left: &Leftovers) -> Result<(), Failed>
        ensures { Prints W.contents writer.old writer.new result (report left.now) };

    /// Writes what the history says of a line.
    fn print_findings<W: Write>(
        &self,
        writer: &mut Watched<W>,
        found: &Findings,
    ) -> Result<(), Failed>
        ensures { Prints W.contents writer.old writer.new result (findings found.now) };

    // A line without facts prints nothing.
    ghost quiet: { findings (findings_of nothing_found (summary [])) ≡ [] };
}

/// Lines of text that begin with an asterisk.
#[derive(Clone, Copy, Debug, PartialEq, Eq)]
pub struct TextReport;

impl ReportFormat for TextReport {
    ghost report = { report_text };

    ghost findings = { findings_text };

    ghost quiet = { refl };

    fn print<W: Write>(&self, writer: &mut Watched<W>, left: &Leftovers) -> Result<(), Failed> {
        print_leftovers(writer, left)
    }

    fn print_findings<W: Write>(
        &self,
        writer: &mut Watched<W>,
        found: &Findings,
    ) -> Result<(), Failed> {
        print_findings(writer, found)
    }
}

/// Lines of JSON: an object for the counts, for each area that has a line in the text, for each total, and for each pool.
#[derive(Clone, Copy, Debug, PartialEq, Eq)]
pub struct JsonReport;

impl ReportFormat for JsonReport {
    ghost report = { json_report };

    ghost findings = { json_findings };

    ghost quiet = { refl };

    fn print<W: Write>(&self, writer: &mut Watched<W>, left: &Leftovers) -> Result<(), Failed> {
        print_json_leftovers(writer, left)
    }

    fn print_findings<W: Write>(
        &self,
        writer: &mut Watched<W>,
        found: &Findings,
    ) -> Result<(), Failed> {
        print_json_findings(writer, found)
    }
}
