//! Copies of what a job has between two lines.

ghost use Rattle.std.specs.Prelude.{◌≡◌, ◌≤◌, IfOk, IsSorted, length};
ghost use Rattle.mvs_model.specs.Name.{name_cmp};

use crate::job::Job;
use mvs_model::error::OutOfMemory;
use mvs_model::name::Name;
use mvs_model::request::{Fallen, Reply, TaskNames};

// Returns the names of a list, in a list of its own.
fn copy_names(names: &[Name]) -> TaskNames
    requires { length names.now ≤ 31 }
    ensures { result ≡ names.now }
{
    let mut copy = TaskNames::empty(Name::of(b"A"));
    for name in names {
        copy.push(*name);
    }
    copy
}

// Returns a copy of the tasks that ended with one.
fn copy_fallen(fallen: &Fallen) -> Fallen
    ensures { result ≡ fallen.now }
{
    Fallen::new(copy_names(fallen.names()))
}

// Returns a copy of a reply.
pub(crate) fn copy_reply(reply: &Reply) -> Reply
    ensures { result ≡ reply.now }
{
    match reply {
        Reply::NotRun => Reply::NotRun,
        Reply::Rc0 => Reply::Rc0,
        Reply::Rc4 => Reply::Rc4,
        Reply::Obtained(place) => Reply::Obtained(*place),
        Reply::Listed(places) => Reply::Listed(places.copied()),
        Reply::Cell(place) => Reply::Cell(*place),
        Reply::NoCell => Reply::NoCell,
        Reply::Attached => Reply::Attached,
        Reply::Ended => Reply::Ended,
        Reply::Done => Reply::Done,
        Reply::Abended(code, fallen) => Reply::Abended(*code, copy_fallen(fallen)),
    }
}

// Returns a copy of the step that runs, if one does. It fails if memory is exhausted.
pub(crate) fn copy_job(job: &Option<Job>) -> Result<Option<Job>, OutOfMemory>
    ensures { IfOk result (λ copy. copy ≡ job.now) }
{
    match job {
        Some(job) => Ok(Some(job.try_clone()?)),
        None => Ok(None),
    }
}
