//! Tests of `Session`. The scripts and their answers are those of docs/SCRIPT.md.

ghost use Rattle.std.specs.Prelude.{◌≡◌};

use crate::streams::{Narrow, WriterEnd};
use mvs_job::{Session, Unobserved, print_closing, print_line};
use mvs_model::name::Name;
use mvs_model::outcome::Outcome;
use mvs_model::place::{Addr, Place};
use mvs_model::request::{Reply, Request};
use mvs_model::want::Placement;
use mvs_model::watched::Watched;
use std::process::Abort;
use std::test::Fail;

const REGION: &[u8] = b"DEBUG REGION BELOW=1";

const OBTAIN: &[u8] = b"DEBUG GETMAIN R,LV=8,A=X";

const SHOW: &[u8] = b"DEBUG SHOW X,4";

static STEPS: [&[u8]; 8] = [
    REGION,
    OBTAIN,
    SHOW,
    b"PROD REGION BELOW=1,FILL=FF",
    b"PROD WHERE X",
    b"PROD GETMAIN R,LV=8,A=X",
    b"PROD SHOW X,4",
    b"DEBUG SHOW X,4",
];

const STEPS_PRINTED: &[u8] =
    b"1 DEBUG REGION BELOW 1 ABOVE 0\n2 DEBUG RC 0\n3 DEBUG DATA +0000 00000000\nSTEP ENDED RC 0\n4 PROD REGION BELOW 1 ABOVE 0\n5 PROD NO NAME\n6 PROD RC 0\n7 PROD DATA +0000 FFFFFFFF\n8 DEBUG NOT RUN\nSTEP ENDED RC 0\n";

// Executes a line of a session, and returns whether all its events were printed.
fn prints(
    rt: &impl Abort,
    session: &mut Session,
    line: &[u8],
    writer: &mut Watched<Narrow>,
) -> Result<bool, Fail> {
    assert!(rt; session.takes_line());
    let number = session.walk().number();
    let line_event = session.line(line)?;
    Ok(print_line(writer, number, session.walk(), &line_event).is_ok())
}

// Executes a line of a session, and prints its events.
fn serve(
    rt: &impl Abort,
    session: &mut Session,
    line: &[u8],
    writer: &mut Watched<Narrow>,
) -> Result<(), Fail> {
    assert!(rt; prints(rt, session, line, writer)?);
    Ok(())
}

// Executes lines of a session, and prints their events.
fn serve_all(
    rt: &impl Abort,
    session: &mut Session,
    lines: &[&[u8]],
    writer: &mut Watched<Narrow>,
) -> Result<(), Fail> {
    for line in lines {
        serve(rt, session, line, writer)?;
    }
    Ok(())
}

// Ends the job of a session before a line with this number, and prints the end of its step. Returns how the job ends.
fn close(
    rt: &impl Abort,
    session: &mut Session,
    number: u32,
    writer: &mut Watched<Narrow>,
) -> Result<Outcome, Fail> {
    assert!(rt; session.continues());
    let closing = session.close();
    print_closing(writer, number, closing.ended)?;
    assert!(rt; !session.takes_line());
    Ok(closing.outcome)
}

// Writes two bytes at a place, and returns whether they were written.
fn writes(rt: &impl Abort, session: &mut Session, place: Place) -> bool
    requires { place.len ≡ 2 }
{
    assert!(rt; session.continues());
    session.write(place, &[0xab, 0xcd])
}

// Ends the task of the first step by a request.
fn end_task(rt: &impl Abort, session: &mut Session) {
    assert!(rt; session.continues());
    assert!(rt; session.request(&Name::of(b"DEBUG"), &Request::Return, &mut Unobserved));
    assert!(rt; matches!(session.walk().reply(), Reply::Ended));
}

// Returns whether a session accepts a line.
fn takes_line(session: &Session) -> bool {
    session.takes_line()
}

// Returns whether this was written.
fn is_written(writer: Watched<Narrow>, text: &[u8]) -> bool {
    writer.into_inner().bytes.as_slice() == text
}

// Makes a writer with room for a number of bytes.
fn writer_of(rt: &HostRuntime, most: usize) -> Watched<Narrow> {
    Watched::new(Narrow {
        bytes: Vec::new(rt.alloc()),
        most,
        refusal: WriterEnd::Fails,
    })
}

#[test]
fn serves_the_lines_of_two_steps(rt: HostRuntime) -> Result<(), Fail> {
    let mut session = Session::new(rt.alloc(), Placement::Low);
    let mut writer = writer_of(&rt, 1_000);
    serve_all(&rt, &mut session, STEPS.as_slice(), &mut writer)?;
    assert_eq!(rt; close(&rt, &mut session, 9, &mut writer)?, Outcome::Clean);
    assert!(rt; is_written(writer, STEPS_PRINTED));
    Ok(())
}

#[test]
fn ends_at_a_fault(rt: HostRuntime) -> Result<(), Fail> {
    let mut session = Session::new(rt.alloc(), Placement::Low);
    let mut writer = writer_of(&rt, 1_000);
    serve(&rt, &mut session, b"JOB WHERE X", &mut writer)?;
    assert!(rt; !session.continues());
    assert!(rt; is_written(writer, b"1 JS09\nJOB FAULT RC 12\n"));
    Ok(())
}

// Bytes that are written are shown; those of a place that may not be written are refused.
#[test]
fn writes_bytes_and_serves_a_request(rt: HostRuntime) -> Result<(), Fail> {
    let mut session = Session::new(rt.alloc(), Placement::Low);
    let mut writer = writer_of(&rt, 1_000);
    serve(&rt, &mut session, REGION, &mut writer)?;
    serve(&rt, &mut session, OBTAIN, &mut writer)?;
    assert!(rt; writes(&rt, &mut session, Place::new(Addr::new(0x6001), 2)));
    assert!(rt; !writes(&rt, &mut session, Place::new(Addr::new(0x6007), 2)));
    serve(&rt, &mut session, SHOW, &mut writer)?;
    assert!(rt;
        writer
            .into_inner()
            .bytes
            .as_slice()
            .ends_with(b"3 DEBUG DATA +0000 00ABCD00\n")
    );
    end_task(&rt, &mut session);
    Ok(())
}

// A session continues after a writer failed: it was the writer's failure.
#[test]
fn reports_a_failed_write(rt: HostRuntime) -> Result<(), Fail> {
    let mut session = Session::new(rt.alloc(), Placement::Low);
    let mut writer = writer_of(&rt, 5);
    assert!(rt; !prints(&rt, &mut session, REGION, &mut writer)?);
    assert!(rt; writer.failed());
    assert!(rt; takes_line(&session));
    assert!(rt; is_written(writer, b"1 DEB"));
    Ok(())
}
