//! Prints the reports on subpools and pages, which are this project's own.

ghost use Rattle.std.specs.Prelude.{◌≡◌, ◌<◌, ◌≤◌, ◌+◌, ◌++◌, length};
ghost use Rattle.std.specs.List.{flat_map};
ghost use Rattle.mvs_model.specs.Answers.{Map, Subpools};
ghost use Rattle.mvs_model.specs.Reports.{page_map, subpool_lines_of};
ghost use Rattle.mvs_model.specs.Texts.{answer_text, reply_line, subpool_text};
ghost use Rattle.request_forms.specs.Reports.{IsSubpoolLine};
ghost use Rattle.line_text.specs.Writing.{Prints};

use crate::job::Job;
use job_script::{print_map_run, print_no_subpool, print_subpool_line};
use mvs_model::name::Name;
use mvs_model::numbers::BELOW_BEGINS;
use mvs_model::place::Addr;
use mvs_model::report::SubpoolLine;
use mvs_model::watched::{Failed, Watched};
use std::io::Write;

// Prints a line for each number that the task has, beginning with a given one.
fn print_numbers<W: Write>(
    writer: &mut Watched<W>,
    line_number: u32,
    task: &Name,
    job: &Job,
    first: SubpoolLine,
) -> Result<(), Failed>
    requires { IsSubpoolLine job.now.state task.now 0 first }
    ensures { Prints W.contents writer.old writer.new result
        (flat_map (λ l. reply_line line_number task.now (subpool_text l))
        (subpool_lines_of job.now.state task.now)) }
{
    let mut from = 0u8;
    let mut next = Some(first);
    'lines: while let Some(line) = next {
        print_subpool_line(writer, line_number, task, &line)?;
        from = line.number.get() + 1;
        next = job.step().subpool_line(task, from);
    }
    Ok(())
}

/// Prints REPORT SP: a line for each number that the task has, in rising order, or one that says that there is none.
pub fn print_subpools<W: Write>(
    writer: &mut Watched<W>,
    line_number: u32,
    task: &Name,
    job: &Job,
) -> Result<(), Failed>
    ensures { Prints W.contents writer.old writer.new result
        (answer_text line_number task.now (Subpools (subpool_lines_of job.now.state task.now))) }
{
    match job.step().subpool_line(task, 0) {
        Some(first) => print_numbers(writer, line_number, task, job, first),
        None => print_no_subpool(writer, line_number, task),
    }
}

/// Prints REPORT MAP: a line for each run of pages of one region that are assigned alike, in rising order.
pub fn print_map<W: Write>(
    writer: &mut Watched<W>,
    line_number: u32,
    task: &Name,
    job: &Job,
) -> Result<(), Failed>
    ensures { Prints W.contents writer.old writer.new result
        (answer_text line_number task.now (Map (page_map job.now.state))) }
{
    let mut from = Addr::new(BELOW_BEGINS);
    'runs: while let Some(run) = job.step().map_run(from) {
        print_map_run(writer, line_number, task, &run)?;
        from = Addr::new(run.addr.get() + run.len);
    }
    Ok(())
}
