//! Observers of requests that are refused: they see a refusal before it is settled, since an abend changes the job.

ghost use Rattle.std.specs.Prelude.{◌≡◌};
ghost use Rattle.mvs_model.specs.Causes.{IsRefused};
ghost use Rattle.mvs_job.specs.Observing.{LeftFor};

use crate::job::Job;
use mvs_model::name::Name;
use mvs_model::reason::Shortfall;
use mvs_model::refusal::Refusal;
use mvs_model::request::Request;

/// An observer of requests that are refused.
pub trait Observer {
    ghost use Rattle.mvs_job.specs.Observing.{Hearing};

    // What it is after it has seen a refusal, from what it was before.
    ghost heard: { Hearing Self };

    /// Is called when a task's request is refused, before that is settled: the job is as before the request. `left` is what a member
    /// of a list lacks, if one has no place.
    fn refused(
        &mut self,
        job: &Job,
        task: &Name,
        request: &Request,
        refusal: Refusal,
        left: &Shortfall,
    )
        requires refused { IsRefused job.now.state task.now request.now refusal }
        requires left { LeftFor job.now task.now request.now refusal left.now }
        ensures { heard self.old job.now task.now request.now refusal left.now self.new };
}

/// Observes nothing.
#[derive(Drop)]
pub struct Unobserved;

impl Observer for Unobserved {
    ghost heard = { λ _ _ _ _ _ _ _. Unit {0} };

    fn refused(
        &mut self,
        _job: &Job,
        _task: &Name,
        _request: &Request,
        _refusal: Refusal,
        _left: &Shortfall,
    ) {}
}
