//! Writes the page of a script.

ghost use Rattle.std.specs.Prelude.{◌≡◌, ◌≢◌, ◌≤◌, [], Ok, ℕ, false, length, true, IfErr, IfOk, OnOk, IsErrOf};
ghost use Rattle.mvs_model.specs.Numbers.{most_script_bytes};
ghost use Rattle.mvs_model.specs.Texts.{printing};
ghost use Rattle.mvs_job.specs.Exchanging.{Exchanges};
ghost use Rattle.mvs_job.specs.Looking.{IsLooking, KeepsExplained};
ghost use Rattle.mvs_job.specs.NamedAddress.{no_lines};
ghost use Rattle.mvs_job.specs.LineEvents.{HasRequest, IsAvailable, events_of_line};
ghost use Rattle.area_history.specs.Chronicles.{HearsHistory, IsHistory};
ghost use Rattle.area_history.specs.Histories.{found_in, no_history, nothing_found};
ghost use Rattle.page.specs.Items.{item_of_event};
ghost use Rattle.page.specs.Pages.{IsPage, IsShown, StopsPage, WritesItem, WritesPage, WritesShown, knows_items, paged, words_of_line};

use crate::changes::{Changes, no_changes};
use crate::item::{ItemTexts, Numbered, put_item};
use crate::markup::{print_end, print_note};
use area_history::{Chronicle, ReportFormat, TextReport};
use line_text::write_all;
use mvs_job::{
    AddressHints, Consumer, End, Explained, Job, LineEvent, Observer, RunFault, Source, Stop, Walk,
    print_line, run_lines, run_source,
};
use mvs_model::name::Name;
use mvs_model::outcome::Outcome;
use mvs_model::reason::Shortfall;
use mvs_model::refusal::Refusal;
use mvs_model::request::Request;
use mvs_model::want::Placement;
use mvs_model::watched::{Failed, Watched};
use std::alloc::{AllocError, Global};
use std::io::Write;
use std::mem;

/// Writes an item of the page for each line of a run, and one for its end. It keeps what it has seen of a line, in large buffers, which
/// lines have set the names of the step, and the history of the step's storage.
#[derive(Drop)]
pub struct PageItems {
    alloc: Global,
    explained: Explained,
    chronicle: Chronicle,
    texts: ItemTexts,
    changes: Changes,
}

impl Observer for PageItems {
    ghost heard = { λ old job t request refusal left new.
        KeepsExplained old.explained job t request refusal new.explained
        × HearsHistory old.chronicle job t request refusal new.chronicle };

    fn refused(
        &mut self,
        job: &Job,
        task: &Name,
        request: &Request,
        refusal: Refusal,
        left: &Shortfall,
    ) {
        self.explained.refused(job, task, request, refusal, left);
        self.chronicle.refused(job, task, request, refusal, left);
    }
}

impl Consumer for PageItems {
    ghost piece = { paged };

    ghost knows = { knows_items };

    ghost sees = { λ s step read. IsLooking step s.explained.lines read s.explained
        × (found_in s.chronicle.found ≡ nothing_found) };

    fn look(&mut self, walk: &Walk) {
        self.explained.look_at(walk);
        self.chronicle.begin_line();
    }

    fn entry<W: Write>(
        &mut self,
        writer: &mut Watched<W>,
        line_number: u32,
        line: &[u8],
        walk: &Walk,
        line_event: &LineEvent,
    ) -> Result<(), Stop> {
        self.chronicle.settle(walk, line_event);
        self.explained.keep(line_number, walk, line_event)?;
        self.chronicle.keep(line_number, walk, line_event)?;
        let numbered = Numbered {
            number: line_number,
            line,
        };
        self.write_item(writer, &numbered, walk, line_event)
    }

    fn end<W: Write>(
        &mut self,
        writer: &mut Watched<W>,
        line_number: u32,
        _walk: &Walk,
        end: End,
    ) -> Result<(), Failed> {
        match end {
            End::Closed(ended) => print_end(writer, line_number, ended),
            End::Exhausted(_) => Ok(()),
        }
    }
}

// Takes the room of a text, for another text.
fn room_of(text: &mut Vec<u8>, alloc: Global) -> Vec<u8>
    ensures { result.items ≡ [] }
{
    let mut room = mem::replace(text, Vec::new(alloc));
    room.clear();
    room
}

impl PageItems {
    /// Makes a writer that has seen no line. It allocates no memory.
    pub fn new(alloc: Global) -> PageItems
        ensures names { result.explained.lines ≡ no_lines }
        ensures history { IsHistory result.chronicle no_history }
    {
        PageItems {
            alloc,
            explained: Explained::new(alloc),
            chronicle: Chronicle::new(alloc),
            texts: ItemTexts::new(alloc),
            changes: no_changes(),
        }
    }

    // Puts what a line prints.
    fn put_printed(
        &mut self,
        number: u32,
        walk: &Walk,
        line_event: &LineEvent,
    ) -> Result<(), Failed>
        requires { IsAvailable walk.now line_event.now }
        ensures printed { OnOk result
            (self.new.texts.printed.items ≡ printing (events_of_line number walk.now line_event.now)) }
        ensures explained { self.new.explained ≡ self.old.explained }
        ensures chronicle { self.new.chronicle ≡ self.old.chronicle }
    {
        let mut printed = Watched::new(room_of(&mut self.texts.printed, self.alloc));
        print_line(&mut printed, number, walk, line_event)?;
        self.texts.printed = printed.into_inner();
        Ok(())
    }

    // Puts the explanations of a line, and behind them what the history of the storage shows about it.
    fn put_explanation(&mut self, walk: &Walk, line_event: &LineEvent) -> Result<(), Failed>
        requires { IsAvailable walk.now line_event.now }
        ensures explanation { (number : ℕ) → OnOk result
            (self.new.texts.explanation.items ≡ words_of_line self.old number walk.now line_event.now) }
        ensures printed { self.new.texts.printed ≡ self.old.texts.printed }
        ensures lines { self.new.explained.lines ≡ self.old.explained.lines }
        ensures chronicle { self.new.chronicle ≡ self.old.chronicle }
    {
        let mut words = Watched::new(room_of(&mut self.texts.explanation, self.alloc));
        self.explained
            .print_explanation(walk, line_event, &mut words)?;
        TextReport.print_findings(&mut words, self.chronicle.found())?;
        self.texts.explanation = words.into_inner();
        Ok(())
    }

    // Puts what a line prints, and its explanations.
    fn put_texts(&mut self, number: u32, walk: &Walk, line_event: &LineEvent) -> Result<(), Failed>
        requires { IsAvailable walk.now line_event.now }
        ensures printed { OnOk result
            (self.new.texts.printed.items ≡ printing (events_of_line number walk.now line_event.now)) }
        ensures explanation { OnOk result
            (self.new.texts.explanation.items ≡ words_of_line self.old number walk.now line_event.now) }
        ensures lines { self.new.explained.lines ≡ self.old.explained.lines }
        ensures chronicle { self.new.chronicle ≡ self.old.chronicle }
    {
        self.put_printed(number, walk, line_event)?;
        self.put_explanation(walk, line_event)?;
        Ok(())
    }

    // Puts the item of a line that is answered or has a fault.
    fn put_item(
        &mut self,
        numbered: &Numbered<'_>,
        walk: &Walk,
        line_event: &LineEvent,
    ) -> Result<(), AllocError>
        requires full_answer { IsAvailable walk.now line_event.now }
        requires answered { line_event.now ≢ LineEvent.Nothing }
        ensures item { OnOk result (HasRequest walk.now line_event.now
            → self.new.texts.item.items
            ≡ item_of_event numbered.now.number numbered.now.line.now walk.now.read walk.now line_event.now
            (words_of_line self.old numbered.now.number walk.now line_event.now)) }
        ensures lines { self.new.explained.lines ≡ self.old.explained.lines }
        ensures history { self.new.chronicle ≡ self.old.chronicle }
    {
        self.put_texts(numbered.number, walk, line_event)
            .map_err(|_| AllocError)?;
        put_item(
            &mut self.texts,
            numbered,
            walk,
            line_event,
            &mut self.changes,
        )
    }

    // Writes the item of a line. It needs no memory for a line that is blank or a comment.
    fn write_item<W: Write>(
        &mut self,
        writer: &mut Watched<W>,
        numbered: &Numbered<'_>,
        walk: &Walk,
        line_event: &LineEvent,
    ) -> Result<(), Stop>
        requires { IsAvailable walk.now line_event.now }
        ensures item { HasRequest walk.now line_event.now
            → WritesItem (W.contents writer.old.inner) (W.contents writer.new.inner) line_event.now
            (item_of_event numbered.now.number numbered.now.line.now walk.now.read walk.now line_event.now
            (words_of_line self.old numbered.now.number walk.now line_event.now)) result }
        ensures lines { self.new.explained.lines ≡ self.old.explained.lines }
        ensures history { self.new.chronicle ≡ self.old.chronicle }
        ensures ok { OnOk result (writer.new.failed ≡ writer.old.failed) }
        ensures write { IsErrOf result Stop.Write → writer.new.failed ≡ true }
    {
        if let LineEvent::Nothing = line_event {
            print_note(writer, numbered.number, numbered.line)?;
            return Ok(());
        }
        self.put_item(numbered, walk, line_event)
            .map_err(|_| Stop::Memory)?;
        write_all(writer, &self.texts.item)?;
        Ok(())
    }
}

/// Writes the page of a script: a fixed part, which is given, and an item for each line. The script has at most 16,777,215 bytes.
pub fn write_page<W: Write>(
    alloc: Global,
    frame: &[u8],
    script: &[u8],
    writer: &mut Watched<W>,
    placement: Placement,
) -> Result<Outcome, Stop>
    requires { length script.now ≤ most_script_bytes }
    // What is written is the page of a run of the script, or the beginning of one if the job stops. Memory is exhausted only where a run
    // needs it, and at a line that is answered or has a fault.
    ensures page { WritesPage (W.contents writer.old.inner) (W.contents writer.new.inner)
        frame.now script.now result }
    // The texts of its `<pre>` without a class are the printing of a run.
    ensures shown { IfOk result
        (WritesShown (W.contents writer.old.inner) (W.contents writer.new.inner) frame.now
        script.now) }
    ensures ok { OnOk result (writer.new.failed ≡ writer.old.failed) }
    ensures write { IsErrOf result Stop.Write → writer.new.failed ≡ true }
{
    write_all(writer, frame)?;
    let mut items = PageItems::new(alloc);
    run_lines(alloc, script, writer, placement, &mut items)
}

/// Writes the page of a script that comes from a source: a fixed part, which is given, and the item of each line before the next one is
/// read. It reads at most 16,777,215 bytes, and one more to see that there are too many.
pub fn write_page_from<S: Source, W: Write>(
    alloc: Global,
    frame: &[u8],
    reader: &mut S,
    writer: &mut Watched<W>,
    placement: Placement,
) -> Result<Outcome, RunFault>
    requires reader { S.failed reader.old ≡ false }
    requires writer { writer.old.failed ≡ false }
    // What is written is the page of a run of the script: of what was consumed and what the reader has left.
    ensures page { IfOk result
        (λ outcome. Exchanges (S.left reader.old) (S.left reader.new)
        (W.contents writer.old.inner) (W.contents writer.new.inner)
        (λ consumed script text. (length consumed ≤ most_script_bytes)
        × IsPage frame.now script text (Ok outcome))) }
    // The texts of its `<pre>` without a class are the printing of a run.
    ensures shown { IfOk result
        (λ outcome. Exchanges (S.left reader.old) (S.left reader.new)
        (W.contents writer.old.inner) (W.contents writer.new.inner)
        (λ consumed script text. IsShown frame.now script text outcome)) }
    // Otherwise it is the beginning of such a page; if memory is exhausted, it ends with a whole item.
    ensures fault { IfErr result
        (λ fault. Exchanges (S.left reader.old) (S.left reader.new)
        (W.contents writer.old.inner) (W.contents writer.new.inner)
        (λ consumed script text. StopsPage frame.now consumed script text fault)) }
    // All was read, or the script has a fault.
    ensures end { IfOk result
        (λ outcome. outcome ≢ Outcome.ScriptFault → S.is_at_end reader.new) }
    ensures healthy { OnOk result ((S.failed reader.new ≡ false) × (writer.new.failed ≡ false)) }
    ensures read { IsErrOf result RunFault.Read → S.failed reader.new ≡ true }
    ensures write { IsErrOf result RunFault.Write → writer.new.failed ≡ true }
{
    write_all(writer, frame).map_err(|_| RunFault::Write)?;
    let hints = AddressHints::nothing(alloc);
    let mut items = PageItems::new(alloc);
    run_source(alloc, reader, writer, placement, hints, &mut items)
}
