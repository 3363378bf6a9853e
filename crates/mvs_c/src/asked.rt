//! What a request asks, as far as its effects depend on it.

ghost use Rattle.std.specs.Prelude.{◌≡◌};
ghost use Rattle.mvs_c.specs.Effects.{asked_in, asked_of};

use mvs_model::line::SourceRequest;
use mvs_model::name::Name;
use mvs_model::request::{Lengths, Request};

/// What a request asks, as far as its effects depend on it.
#[derive(Drop)]
pub enum Asked {
    Obtain { number: u8, least: u32, most: u32 },
    ObtainList { number: u8, lengths: Lengths },
    /// A release of areas, or of the parts of a cell pool.
    Release,
    ReleaseWhole { number: u8 },
    Build { number: u8, pool: Name },
    Get { pool: Name },
    Attach { subtask: Name },
    /// One that has no effects, except that its task may end.
    Other,
}

/// Returns what a request by values asks.
pub fn asked_of(request: &Request) -> Asked
    ensures { result ≡ asked_of request.now }
{
    match request {
        Request::Obtain { number, ask, .. } => Asked::Obtain {
            number: *number,
            least: ask.least(),
            most: ask.most(),
        },
        Request::ObtainList {
            number,
            lengths,
            ..
        } => Asked::ObtainList {
            number: *number,
            lengths: lengths.copied(),
        },
        Request::Release { .. } | Request::ReleaseList { .. } | Request::Delete { .. } => {
            Asked::Release
        }
        Request::ReleaseWhole { number, .. } => Asked::ReleaseWhole { number: *number },
        Request::Build { pool, number, .. } => Asked::Build {
            number: *number,
            pool: *pool,
        },
        Request::Get { pool, .. } => Asked::Get { pool: *pool },
        Request::Attach { name, .. } => Asked::Attach { subtask: *name },
        Request::Free { .. }
        | Request::Return
        | Request::Abend(_)
        | Request::Show { .. }
        | Request::Put { .. }
        | Request::Move { .. } => Asked::Other,
    }
}

/// Returns what the request of a statement asks.
pub fn asked_in(written: &SourceRequest) -> Asked
    ensures { result ≡ asked_in written.now }
{
    match written {
        SourceRequest::Obtain { number, ask, .. } => Asked::Obtain {
            number: *number,
            least: ask.least(),
            most: ask.most(),
        },
        SourceRequest::ObtainList {
            number,
            lengths,
            ..
        } => Asked::ObtainList {
            number: *number,
            lengths: lengths.copied(),
        },
        SourceRequest::Release { .. }
        | SourceRequest::ReleaseArea { .. }
        | SourceRequest::ReleaseList { .. }
        | SourceRequest::Delete { .. } => Asked::Release,
        SourceRequest::ReleaseWhole { number, .. } => Asked::ReleaseWhole { number: *number },
        SourceRequest::Build { pool, number, .. } => Asked::Build {
            number: *number,
            pool: *pool,
        },
        SourceRequest::Get { pool, .. } => Asked::Get { pool: *pool },
        SourceRequest::Attach { name, .. } => Asked::Attach { subtask: *name },
        SourceRequest::Free { .. }
        | SourceRequest::Return
        | SourceRequest::Abend(_)
        | SourceRequest::Show { .. }
        | SourceRequest::Put { .. }
        | SourceRequest::Move { .. } => Asked::Other,
    }
}

impl Asked {
    /// Returns a copy.
    pub fn copied(&self) -> Asked
        ensures { result ≡ self.now }
    {
        match self {
            Asked::Obtain {
                number,
                least,
                most,
            } => Asked::Obtain {
                number: *number,
                least: *least,
                most: *most,
            },
            Asked::ObtainList { number, lengths } => Asked::ObtainList {
                number: *number,
                lengths: lengths.copied(),
            },
            Asked::Release => Asked::Release,
            Asked::ReleaseWhole { number } => Asked::ReleaseWhole { number: *number },
            Asked::Build { number, pool } => Asked::Build {
                number: *number,
                pool: *pool,
            },
            Asked::Get { pool } => Asked::Get { pool: *pool },
            Asked::Attach { subtask } => Asked::Attach { subtask: *subtask },
            Asked::Other => Asked::Other,
        }
    }
}
