//! The loop of a server: it reads until the session or the input ends.

ghost use Rattle.std.specs.Prelude.{◌≡◌, ◌≤◌, MatchResult, length, true};
ghost use Rattle.std.specs.Io.KnownBytes.{Appends};
ghost use Rattle.line_text.specs.Writing.{AppendsFront};
ghost use Rattle.editor_messages.specs.Frames.{IsWithin, frame_of};
ghost use Rattle.editor_messages.specs.Serving.{HasRead, HasRun, HasSent, HasTaken, RunsOn};

use crate::frames::{Frame, read_frame};
use crate::input::{CHUNK, Input};
use crate::server::{Answers, Server, Turn};
use line_text::write_all;
use mvs_model::watched::Watched;
use std::alloc::Global;
use std::io::{Read, Write};

/// How a server has ended.
#[derive(Clone, Copy, Debug, PartialEq, Eq)]
pub enum Ending {
    /// By the notification `exit`, with this status.
    Exit(u8),
    /// At the end of the input, with this status.
    End(u8),
    /// A read failed.
    Read,
    /// A write failed.
    Write,
    /// Memory is exhausted.
    Memory,
    /// After 18,446,744,073,709,551,615 steps.
    Steps,
}

// Reads more bytes, if there are some. The server ends at the end of the input, with this status.
fn read<R: Read>(
    input: &mut Input,
    reader: &mut Watched<R>,
    chunk: &mut [u8],
    status: u8,
) -> Result<(), Ending>
    requires chunk { length chunk.old ≡ 65536 }
    requires short { length input.old.rest ≤ 33558528 }
    ensures { HasRead R.remaining reader.old reader.new input.old input.new status result }
{
    let count = reader.read(chunk).map_err(|_| Ending::Read)?;
    if count == 0 {
        return Err(Ending::End(status));
    }
    input.add(&chunk[..count]).map_err(|_| Ending::Memory)
}

// Writes what a turn sends, and passes it on.
fn write<W: Write>(writer: &mut Watched<W>, sent: &[u8]) -> Result<(), Ending>
    ensures { MatchResult result
        (λ _. Appends (W.contents writer.old.inner) (W.contents writer.new.inner) sent.now)
        (λ e. (e ≡ Ending.Write) × (writer.new.failed ≡ true)
        × AppendsFront (W.contents writer.old.inner) (W.contents writer.new.inner) sent.now) }
{
    if sent.is_empty() {
        return Ok(());
    }
    write_all(writer, sent).map_err(|_| Ending::Write)?;
    writer.flush().map_err(|_| Ending::Write)
}

// Writes what the turn of a frame sends, and leaves the frame out.
fn send<W: Write>(
    input: &mut Input,
    writer: &mut Watched<W>,
    frame: Frame,
    sent: &[u8],
) -> Result<(), Ending>
    ensures { HasSent W.contents writer.old writer.new input.old input.new frame sent.now result }
{
    write(writer, sent)?;
    input.pass(frame);
    Ok(())
}

impl<A: Answers> Server<A> {
    // Takes the turn of the frame with which the bytes begin that have arrived.
    fn take_turn<W: Write>(
        &mut self,
        input: &mut Input,
        writer: &mut Watched<W>,
        frame: Frame,
    ) -> Result<(), Ending>
        requires frame { frame ≡ frame_of input.old.rest }
        requires within { IsWithin frame (length input.old.rest) }
        ensures { HasTaken A.may_answer A.may_lack A.may_notice W.contents writer.old writer.new input.old
            input.new self.old self.new result }
    {
        match self.turn(input.rest(), frame).map_err(|_| Ending::Memory)? {
            Turn::Sent(sent) => send(input, writer, frame, &sent),
            Turn::Exit(status) => Err(Ending::Exit(status)),
        }
    }

    // Takes one step: it reads more bytes, or takes the turn of a message that has arrived.
    fn step<R: Read, W: Write>(
        &mut self,
        input: &mut Input,
        reader: &mut Watched<R>,
        writer: &mut Watched<W>,
        chunk: &mut [u8],
    ) -> Result<(), Ending>
        requires { length chunk.old ≡ 65536 }
        ensures { RunsOn A.may_answer A.may_lack A.may_notice R.remaining W.contents reader.old reader.new writer.old
            writer.new input.old input.new self.old self.new result }
    {
        match read_frame(input.rest()) {
            Frame::Incomplete => read(input, reader, chunk, self.status()),
            frame => self.take_turn(input, writer, frame),
        }
    }
}

/// Serves an editor until the session or the input ends, or a read or a write fails, or memory is exhausted.
pub fn serve<R: Read, W: Write, A: Answers + Drop>(
    alloc: Global,
    reader: &mut Watched<R>,
    writer: &mut Watched<W>,
    answers: A,
) -> Ending
    ensures { HasRun A.may_answer A.may_lack A.may_notice R.remaining W.contents reader.old writer.old
        reader.new writer.new answers result }
{
    let mut server = Server::new(alloc, answers);
    let mut input = Input::new(alloc);
    let mut chunk = [0u8; CHUNK];
    'steps: for _step in 0..u64::MAX {
        if let Err(ending) = server.step(&mut input, reader, writer, &mut chunk) {
            return ending;
        }
    }
    Ending::Steps
}
