//! How an emulator uses the library: each supervisor call of its program is a line, and the answer comes back as a value.
#![tactic(auto)]

use mvs_job::{Explainer, LineEvent, Session};
use mvs_model::answer::Answer;
use mvs_model::code::Code;
use mvs_model::want::Placement;
use std::io;

/// What the emulated program asks for.
const CALLS: [&str; 7] = [
    "JOB REGION BELOW=1",
    "JOB GETMAIN RC,LV=16,A=X",
    "JOB PUT X,X'C1C2'",
    "JOB SHOW X,2",
    "JOB WHERE X",
    "JOB FREEMAIN RC,LV=32,A=X",
    "JOB GETMAIN R,LV=4096,A=Y",
];

// Does what an answer means for the emulated program. The job has the bytes of SHOW, the tasks that ended with an abend, and the
// lines of reports.
fn take_answer(rt: &HostRuntime, session: &Session, answer: &Answer) -> io::Result<()> {
    match answer {
        Answer::At(addr) => println!(rt; "register 1 is {:08X}", addr.get()),
        Answer::Data(place) => match session.walk().job() {
            Some(job) => println!(rt; "the bytes are {:?}", job.step().bytes(*place)),
            None => Ok(()),
        },
        Answer::Abended(Code::System(code)) => {
            println!(rt;
                "abend S{code:03X}, and {} tasks more",
                session.walk().fallen().len()
            )
        }
        Answer::Rc0 => println!(rt; "register 15 is 0"),
        Answer::Rc4 => println!(rt; "register 15 is 4"),
        other => println!(rt; "{other:?}"),
    }
}

// Handles the events of a line.
fn take(rt: &HostRuntime, session: &Session, line_event: &LineEvent) -> io::Result<()> {
    match line_event {
        LineEvent::Nothing => Ok(()),
        LineEvent::StepBegan { .. } => println!(rt; "a step begins"),
        LineEvent::Answered { answer, .. } => take_answer(rt, session, answer),
        LineEvent::Faulted(fault) => println!(rt; "the call is no statement: {fault:?}"),
    }
}

fn main(rt: HostRuntime) -> io::Result<()> {
    let mut session = Session::new(rt.alloc(), Placement::Low);
    let mut explainer = Explainer::new(rt.alloc());
    for call in CALLS {
        if !session.takes_line() {
            break;
        }
        match session.explain(&mut explainer, call.as_bytes()) {
            Ok((line_event, reason)) => {
                take(&rt, &session, &line_event)?;
                if let Some(reason) = reason {
                    println!(rt; "because of {reason:?}")?;
                }
            }
            Err(_) => println!(rt; "out of memory")?,
        }
    }
    Ok(())
}
