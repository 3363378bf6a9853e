//! The printing of a run.

ghost use Rattle.mvs_job.specs.Consuming.{keeps_nothing};
ghost use Rattle.mvs_job.specs.Printed.{printed};

use crate::consumer::{Consumer, End};
use crate::job::Job;
use crate::observer::Observer;
use crate::printing::{Stop, print_closing, print_ended, print_line};
use crate::walk::{LineEvent, Walk};
use mvs_model::name::Name;
use mvs_model::reason::Shortfall;
use mvs_model::refusal::Refusal;
use mvs_model::request::Request;
use mvs_model::watched::{Failed, Watched};
use std::io::Write;

/// Prints the events of a run.
#[derive(Clone, Copy, Debug, PartialEq, Eq)]
pub struct Printer;

impl Observer for Printer {
    ghost heard = { λ _ _ _ _ _ _ _. Unit {0} };

    fn refused(
        &mut self,
        _job: &Job,
        _task: &Name,
        _request: &Request,
        _refusal: Refusal,
        _left: &Shortfall,
    ) {}
}

impl Consumer for Printer {
    ghost piece = { printed };

    ghost knows = { keeps_nothing };

    ghost sees = { λ _ _ _. Unit {0} };

    fn look(&mut self, _walk: &Walk) {}

    fn entry<W: Write>(
        &mut self,
        writer: &mut Watched<W>,
        line_number: u32,
        line: &[u8],
        walk: &Walk,
        line_event: &LineEvent,
    ) -> Result<(), Stop> {
        print_line(writer, line_number, walk, line_event)?;
        Ok(())
    }

    fn end<W: Write>(
        &mut self,
        writer: &mut Watched<W>,
        line_number: u32,
        _walk: &Walk,
        end: End,
    ) -> Result<(), Failed> {
        match end {
            End::Closed(ended) => print_closing(writer, line_number, ended),
            End::Exhausted(ended) => print_ended(writer, ended),
        }
    }
}
