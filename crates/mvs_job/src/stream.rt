//! A job that reads its script as it arrives, and keeps at most a line of it.

ghost use Rattle.std.specs.Prelude.{◌≡◌, ◌≢◌, ◌<◌, ◌≤◌, ◌+◌, ◌^◌, ◌++◌, ◌∷◌, [], List, ℕ, Option, length, take, slice_index, true, IfOk, IfSome, OnOk, IsErrOf, MatchResult};
ghost use Rattle.std.specs.Io.KnownBytes.{Consumes, IsAtEnd, Keeps};
ghost use Rattle.mvs_job.specs.Consuming.{RunsNext};
ghost use Rattle.mvs_job.specs.LineEvents.{new_walk};
ghost use Rattle.mvs_job.specs.Streams.{Feeds, FeedsSome, Finishes, ReadsLast, ReadsOnce, fault_of};

use crate::consumer::Consumer;
use crate::driver::{run_end, run_entry};
use crate::hints::AddressHints;
use crate::printing::Stop;
use crate::run::RunFault;
use crate::source::Source;
use crate::walk::Walk;
use job_script::{LineBuffer, Pushed};
use memchr::memchr;
use mvs_model::outcome::Outcome;
use mvs_model::want::Placement;
use mvs_model::watched::Watched;
use std::alloc::Global;
use std::io::Write;

/// What one read did.
#[derive(Clone, Copy, Debug, PartialEq, Eq)]
pub enum Progress {
    /// This number of bytes was consumed, and the job continues.
    On(usize),
    /// The job has ended.
    Ended(Outcome),
}

/// A job between two reads of its script.
#[derive(Drop)]
pub struct Stream {
    walk: Walk,
    /// The consumed bytes of an incomplete line.
    line: LineBuffer,
    hints: AddressHints,
}

// Passes on what is written before a read that may wait.
fn read<S: Source, W: Write>(
    reader: &mut S,
    writer: &mut Watched<W>,
    chunk: &mut [u8],
) -> Result<usize, RunFault>
    ensures room { length chunk.new ≡ length chunk.old }
    ensures bound { IfOk result (λ count. count ≤ length chunk.new) }
    ensures bytes { MatchResult result
        (λ count. Consumes (S.left reader.old) (S.left reader.new)
        (take count chunk.new))
        (λ _. Keeps (S.left reader.old) (S.left reader.new)) }
    ensures end { IfOk result
        (λ count. count ≡ 0 → 0 < length chunk.new → IsAtEnd (S.left reader.new)) }
    ensures reached { IfOk result
        (λ count. count ≡ 0 → 0 < length chunk.new → S.is_at_end reader.new) }
    ensures since { (start : Option (List ℕ)) → S.since start reader.old → S.since start reader.new }
    ensures unwritten { Keeps (W.contents writer.old.inner) (W.contents writer.new.inner) }
    ensures healthy { OnOk result
        ((S.failed reader.new ≡ S.failed reader.old) × (writer.new.failed ≡ writer.old.failed)) }
    ensures read { IsErrOf result RunFault.Read → S.failed reader.new ≡ true }
    ensures write { IsErrOf result RunFault.Write → writer.new.failed ≡ true }
    ensures not_long { ¬ IsErrOf result RunFault.ReadTooLong }
    ensures not_memory { ¬ IsErrOf result RunFault.Memory }
{
    writer.flush().map_err(|_| RunFault::Write)?;
    reader.read(chunk).map_err(|_| RunFault::Read)
}

impl Stream {
    /// Makes a job before its first line.
    pub fn new(alloc: Global, placement: Placement, hints: AddressHints) -> Stream
        ensures walk { result.walk ≡ new_walk }
        ensures line { result.line ≡ [] }
    {
        Stream {
            walk: Walk::new(alloc, placement),
            line: LineBuffer::new(),
            hints,
        }
    }

    // Runs the pending line.
    fn end_line<W: Write, C: Consumer>(
        &mut self,
        writer: &mut Watched<W>,
        consumer: &mut C,
    ) -> Result<bool, Stop>
        requires { self.old.walk.number + 1 < 2 ^ 32 }
        ensures ran { (first : C) → RunsNext C.piece (C.knows first) (W.contents writer.old.inner)
            (W.contents writer.new.inner) self.old.walk self.old.line self.new.walk consumer.old
            consumer.new result }
        ensures line { self.new.line ≡ [] }
        ensures number { self.new.walk.number ≡ self.old.walk.number + 1 }
        ensures ok { OnOk result (writer.new.failed ≡ writer.old.failed) }
        ensures write { IsErrOf result Stop.Write → writer.new.failed ≡ true }
    {
        let hints = self.hints.of(self.walk.number());
        let continues = run_entry(&mut self.walk, self.line.bytes(), hints, writer, consumer);
        self.line.clear();
        continues
    }

    // Consumes the next byte, and returns whether the job continues.
    fn feed<W: Write, C: Consumer>(
        &mut self,
        byte: u8,
        writer: &mut Watched<W>,
        consumer: &mut C,
    ) -> Result<bool, Stop>
        requires room { length self.old.line < 256 }
        requires number { self.old.walk.number + 1 < 2 ^ 32 }
        ensures bytes { (first : C) → Feeds C.piece (C.knows first) (W.contents writer.old.inner)
            (W.contents writer.new.inner) (byte ∷ []) self.old.walk self.old.line consumer.old
            self.new.walk self.new.line consumer.new result }
        ensures room { length self.new.line < 256 }
        ensures number { self.new.walk.number ≤ self.old.walk.number + 1 }
        ensures ok { OnOk result (writer.new.failed ≡ writer.old.failed) }
        ensures write { IsErrOf result Stop.Write → writer.new.failed ≡ true }
    {
        match self.line.push(byte) {
            Pushed::More => Ok(true),
            Pushed::Line => self.end_line(writer, consumer),
            Pushed::Full => self.end_line(writer, consumer),
        }
    }

    // Returns where the first line of some bytes ends, if no bytes of it are pending and it ends in them.
    fn whole_line(&self, bytes: &[u8]) -> Option<usize>
        ensures pending { IfSome result (λ end. self.now.line ≡ []) }
        ensures end { IfSome result
            (λ end. (end < length bytes.now) × (slice_index bytes.now end ≡ 10)
            × ((k : ℕ) → k < end → slice_index bytes.now k ≢ 10)) }
    {
        if self.line.bytes().is_empty() {
            memchr(b'\n', bytes)
        } else {
            None
        }
    }

    // Consumes the first line of some bytes. Returns the number of bytes consumed, or None if the job has ended.
    fn feed_whole<W: Write, C: Consumer>(
        &mut self,
        bytes: &[u8],
        end: usize,
        writer: &mut Watched<W>,
        consumer: &mut C,
    ) -> Result<Option<usize>, Stop>
        requires pending { self.old.line ≡ [] }
        requires end { (end < length bytes.now) × (slice_index bytes.now end ≡ 10)
            × ((k : ℕ) → k < end → slice_index bytes.now k ≢ 10) }
        requires number { self.old.walk.number + 1 < 2 ^ 32 }
        ensures bytes { (first : C) → FeedsSome C.piece (C.knows first) (W.contents writer.old.inner)
            (W.contents writer.new.inner) bytes.now self.old.walk self.old.line consumer.old
            self.new.walk self.new.line consumer.new result }
        ensures consumed { IfOk result (λ consumed. IfSome consumed (λ n. n ≡ end + 1)) }
        ensures line { self.new.line ≡ [] }
        ensures number { self.new.walk.number ≡ self.old.walk.number + 1 }
        ensures ok { OnOk result (writer.new.failed ≡ writer.old.failed) }
        ensures write { IsErrOf result Stop.Write → writer.new.failed ≡ true }
    {
        let hints = self.hints.of(self.walk.number());
        let continues = run_entry(&mut self.walk, &bytes[..end], hints, writer, consumer)?;
        Ok(if continues { Some(end + 1) } else { None })
    }

    // Takes the first of some bytes, and answers that it took one, or none where the job has ended.
    fn feed_first<W: Write, C: Consumer>(
        &mut self,
        bytes: &[u8],
        writer: &mut Watched<W>,
        consumer: &mut C,
    ) -> Result<Option<usize>, Stop>
        requires some { 0 < length bytes.now }
        requires room { length self.old.line < 256 }
        requires number { self.old.walk.number + 1 < 2 ^ 32 }
        ensures bytes { (first : C) → FeedsSome C.piece (C.knows first) (W.contents writer.old.inner)
            (W.contents writer.new.inner) bytes.now self.old.walk self.old.line consumer.old
            self.new.walk self.new.line consumer.new result }
        ensures consumed { IfOk result (λ consumed. IfSome consumed (λ n. n ≡ 1)) }
        ensures room { length self.new.line < 256 }
        ensures number { self.new.walk.number ≤ self.old.walk.number + 1 }
        ensures ok { OnOk result (writer.new.failed ≡ writer.old.failed) }
        ensures write { IsErrOf result Stop.Write → writer.new.failed ≡ true }
    {
        let continues = self.feed(bytes[0], writer, consumer)?;
        Ok(if continues { Some(1) } else { None })
    }

    // Consumes the first line of some bytes, or the first byte. Returns the number of bytes consumed, or None if the job has ended.
    fn feed_some<W: Write, C: Consumer>(
        &mut self,
        bytes: &[u8],
        writer: &mut Watched<W>,
        consumer: &mut C,
    ) -> Result<Option<usize>, Stop>
        requires some { 0 < length bytes.now }
        requires room { length self.old.line < 256 }
        requires number { self.old.walk.number + 1 < 2 ^ 32 }
        ensures bytes { (first : C) → FeedsSome C.piece (C.knows first) (W.contents writer.old.inner)
            (W.contents writer.new.inner) bytes.now self.old.walk self.old.line consumer.old
            self.new.walk self.new.line consumer.new result }
        ensures consumed { IfOk result
            (λ consumed. IfSome consumed (λ n. (0 < n) × (n ≤ length bytes.now))) }
        ensures room { length self.new.line < 256 }
        ensures number { self.new.walk.number ≤ self.old.walk.number + 1 }
        ensures ok { OnOk result (writer.new.failed ≡ writer.old.failed) }
        ensures write { IsErrOf result Stop.Write → writer.new.failed ≡ true }
    {
        match self.whole_line(bytes) {
            Some(end) => self.feed_whole(bytes, end, writer, consumer),
            None => self.feed_first(bytes, writer, consumer),
        }
    }

    // Consumes the next bytes, and returns whether the job continues.
    fn feed_all<W: Write, C: Consumer>(
        &mut self,
        bytes: &[u8],
        writer: &mut Watched<W>,
        consumer: &mut C,
    ) -> Result<bool, Stop>
        requires room { length self.old.line < 256 }
        requires number { self.old.walk.number + length bytes.now < 2 ^ 32 }
        ensures bytes { (first : C) → Feeds C.piece (C.knows first) (W.contents writer.old.inner)
            (W.contents writer.new.inner) bytes.now self.old.walk self.old.line consumer.old
            self.new.walk self.new.line consumer.new result }
        ensures room { length self.new.line < 256 }
        ensures number { self.new.walk.number ≤ self.old.walk.number + length bytes.now }
        ensures ok { OnOk result (writer.new.failed ≡ writer.old.failed) }
        ensures write { IsErrOf result Stop.Write → writer.new.failed ≡ true }
    {
        let mut at = 0;
        while at < bytes.len() {
            match self.feed_some(&bytes[at..], writer, consumer)? {
                Some(consumed) => at += consumed,
                None => return Ok(false),
            }
        }
        Ok(true)
    }

    // Ends the job, after the last byte of the script.
    fn finish<W: Write, C: Consumer>(
        &mut self,
        writer: &mut Watched<W>,
        consumer: &mut C,
    ) -> Result<Outcome, Stop>
        requires { self.old.walk.number + 1 < 2 ^ 32 }
        ensures bytes { (first : C) → Finishes C.piece (C.knows first) (W.contents writer.old.inner)
            (W.contents writer.new.inner) self.old.walk self.old.line consumer.old consumer.new
            result }
        ensures ok { OnOk result (writer.new.failed ≡ writer.old.failed) }
        ensures write { IsErrOf result Stop.Write → writer.new.failed ≡ true }
    {
        if self.line.bytes().is_empty() {
            return run_end(&self.walk, writer, consumer);
        }
        let continues = self.end_line(writer, consumer)?;
        if !continues {
            return Ok(Outcome::ScriptFault);
        }
        run_end(&self.walk, writer, consumer)
    }

    /// Reads into the chunk once, and consumes the bytes.
    pub fn pump<S: Source, W: Write, C: Consumer>(
        &mut self,
        reader: &mut S,
        writer: &mut Watched<W>,
        consumer: &mut C,
        chunk: &mut [u8],
    ) -> Result<Progress, RunFault>
        requires room { length self.old.line < 256 }
        requires number { self.old.walk.number + length chunk.old + 1 < 2 ^ 32 }
        requires chunk { 0 < length chunk.old }
        ensures pump { (first : C) → ReadsOnce C.piece (C.knows first) (S.left reader.old)
            (S.left reader.new) (W.contents writer.old.inner) (W.contents writer.new.inner)
            (length chunk.old) self.old.walk self.old.line consumer.old self.new.walk self.new.line
            consumer.new result }
        ensures on { (n : ℕ) → result ≡ Ok (Progress.On n)
            → (0 < n) × (n ≤ length chunk.old) × (self.new.walk.number ≤ self.old.walk.number + n)
            × (length self.new.line < 256) }
        ensures end { (outcome : Outcome) → result ≡ Ok (Progress.Ended outcome)
            → (outcome ≢ Outcome.ScriptFault) → S.is_at_end reader.new }
        ensures since { (start : Option (List ℕ)) → S.since start reader.old → S.since start reader.new }
        ensures healthy { OnOk result
            ((S.failed reader.new ≡ S.failed reader.old) × (writer.new.failed ≡ writer.old.failed)) }
        ensures read { IsErrOf result RunFault.Read → S.failed reader.new ≡ true }
        ensures write { IsErrOf result RunFault.Write → writer.new.failed ≡ true }
        ensures not_long { ¬ IsErrOf result RunFault.ReadTooLong }
    {
        let count = read(reader, writer, chunk)?;
        if count == 0 {
            return Ok(Progress::Ended(self.finish(writer, consumer)?));
        }
        let continues = self.feed_all(&chunk[..count], writer, consumer)?;
        if !continues {
            return Ok(Progress::Ended(Outcome::ScriptFault));
        }
        Ok(Progress::On(count))
    }

    /// Makes the last read, of one byte: there is none, or the script is too long.
    pub fn finish_stream<S: Source, W: Write, C: Consumer>(
        &mut self,
        reader: &mut S,
        writer: &mut Watched<W>,
        consumer: &mut C,
    ) -> Result<Outcome, RunFault>
        requires { self.old.walk.number + 1 < 2 ^ 32 }
        ensures pump { (first : C) → ReadsLast C.piece (C.knows first) (S.left reader.old)
            (S.left reader.new) (W.contents writer.old.inner) (W.contents writer.new.inner)
            self.old.walk self.old.line consumer.old consumer.new result }
        ensures end { OnOk result (S.is_at_end reader.new) }
        ensures since { (start : Option (List ℕ)) → S.since start reader.old → S.since start reader.new }
        ensures healthy { OnOk result
            ((S.failed reader.new ≡ S.failed reader.old) × (writer.new.failed ≡ writer.old.failed)) }
        ensures read { IsErrOf result RunFault.Read → S.failed reader.new ≡ true }
        ensures write { IsErrOf result RunFault.Write → writer.new.failed ≡ true }
    {
        let mut last = [0u8; 1];
        let count = read(reader, writer, &mut last)?;
        if count > 0 {
            return Err(RunFault::ReadTooLong);
        }
        Ok(self.finish(writer, consumer)?)
    }
}
