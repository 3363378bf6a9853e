//! Tests of `run_job`. The scripts and their answers are those of docs/SCRIPT.md.

use crate::streams::{Narrow, Trickle, WriterEnd};
use mvs_job::{AddressHints, RunFault, run_job};
use mvs_model::outcome::Outcome;
use mvs_model::want::Placement;
use mvs_model::watched::Watched;
use std::io::{Read, Write};
use std::test::Fail;

const FIRST: &[u8] = b"JOB REGION BELOW=1\nJOB GETMAIN R,LV=4096,A=X\nJOB WHERE X\n";

const FIRST_PRINTED: &[u8] =
    b"1 JOB REGION BELOW 1 ABOVE 0\n2 JOB RC 0\n3 JOB AT 00006000\nSTEP ENDED RC 0\n";

const SHORTAGE: &[u8] =
    b"JOB REGION BELOW=1\nJOB GETMAIN RC,LV=4097,A=X\nJOB GETMAIN R,LV=4097,A=X\nJOB WHERE X";

const SHORTAGE_PRINTED: &[u8] =
    b"1 JOB REGION BELOW 1 ABOVE 0\n2 JOB RC 4\n3 JOB ABEND S80A\n4 JOB NOT RUN\nSTEP ENDED RC 8\n";

// Runs a script. Returns how the run ends, and its reader and its writer.
fn run<R: Read, W: Write>(
    rt: &HostRuntime,
    reader: R,
    writer: W,
) -> (Result<Outcome, RunFault>, Watched<R>, Watched<W>) {
    let mut reader = Watched::new(reader);
    let mut writer = Watched::new(writer);
    let hints = AddressHints::nothing(rt.alloc());
    let ended = run_job(rt.alloc(), &mut reader, &mut writer, Placement::Low, hints);
    (ended, reader, writer)
}

// A body that always reports that memory is exhausted meets the contract. With enough memory the job runs.
#[test]
fn runs_scripts_a_byte_a_call(rt: HostRuntime) -> Result<(), Fail> {
    for (script, printed, ends) in [
        (FIRST, FIRST_PRINTED, Outcome::Clean),
        (SHORTAGE, SHORTAGE_PRINTED, Outcome::SomeAbend),
        (
            b"".as_slice(),
            b"1 JS09\nJOB FAULT RC 12\n".as_slice(),
            Outcome::ScriptFault,
        ),
    ] {
        let reader = Trickle {
            rest: script,
            calls: 1_000,
        };
        let writer = Narrow {
            bytes: Vec::new(rt.alloc()),
            most: 1_000,
            refusal: WriterEnd::Fails,
        };
        let (outcome, _, writer) = run(&rt, reader, writer);
        assert_eq!(rt; outcome?, ends);
        assert!(rt; writer.into_inner().bytes.as_slice() == printed);
    }
    Ok(())
}

// Returns how many lines have ended in a text.
fn ended_lines(text: &[u8]) -> usize {
    text.iter().filter(|byte| **byte == b'\n').count()
}

// The reader fails at each of its calls in turn: the lines that had ended are answered, each by one line.
#[test]
fn reports_each_failed_read(rt: HostRuntime) -> Result<(), Fail> {
    for calls in 0..FIRST.len() + 1 {
        let reader = Trickle { rest: FIRST, calls };
        let (ended, reader, writer) = run(&rt, reader, Vec::new(rt.alloc()));
        assert_eq!(rt; ended, Err(RunFault::Read), "after {calls} calls");
        assert!(rt; reader.failed());
        let written = writer.into_inner();
        assert!(rt; FIRST_PRINTED.starts_with(written.as_slice()));
        assert_eq!(rt;
            ended_lines(written.as_slice()),
            ended_lines(&FIRST[..calls])
        );
    }
    Ok(())
}

// The writer refuses each byte in turn, by a failure and by taking none: all bytes before it are written.
#[test]
fn reports_each_failed_write(rt: HostRuntime) -> Result<(), Fail> {
    for refusal in [WriterEnd::Fails, WriterEnd::TakesNone] {
        for most in 0..FIRST_PRINTED.len() {
            let writer = Narrow {
                bytes: Vec::new(rt.alloc()),
                most,
                refusal,
            };
            let (ended, _, writer) = run(&rt, FIRST, writer);
            assert_eq!(rt; ended, Err(RunFault::Write), "after {most} bytes");
            assert!(rt; writer.failed());
            assert!(rt; writer.into_inner().bytes.as_slice() == &FIRST_PRINTED[..most]);
        }
    }
    Ok(())
}
