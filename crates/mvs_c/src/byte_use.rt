//! Which sessions have bytes of storage, and which requests read or write them.

ghost use Rattle.std.specs.Prelude.{◌≡◌, MatchBool, MatchOption};
ghost use Rattle.mvs_c.specs.Exports.{IsNewPlace, IsPlaceNumber};
ghost use Rattle.mvs_c.specs.ByteUse.{line_uses_bytes, source_uses_bytes, uses_bytes};

use mvs_model::line::{Line, SourceRequest, Statement};
use mvs_model::request::Request;
use mvs_model::want::Placement;

/// Returns the placement of the number of a new session, and whether that has bytes: a bit says that it has none.
pub fn new_place(number: u32) -> Option<(Placement, bool)>
    ensures { MatchOption result (IsNewPlace number → ⊥) (λ p. IsNewPlace number
        × MatchBool p.1 (IsPlaceNumber number) (IsPlaceNumber number → ⊥)) }
{
    match number {
        0x001 => Some((Placement::Low, true)),
        0x002 => Some((Placement::High, true)),
        0x101 => Some((Placement::Low, false)),
        0x102 => Some((Placement::High, false)),
        _ => None,
    }
}

/// Returns whether a request by values reads or writes bytes. SHOW by values returns none.
pub fn uses_bytes(request: &Request) -> bool
    ensures { result ≡ uses_bytes request.now }
{
    match request {
        Request::Put { .. } | Request::Move { .. } => true,
        Request::Obtain { .. }
        | Request::ObtainList { .. }
        | Request::Release { .. }
        | Request::ReleaseList { .. }
        | Request::ReleaseWhole { .. }
        | Request::Build { .. }
        | Request::Get { .. }
        | Request::Free { .. }
        | Request::Delete { .. }
        | Request::Attach { .. }
        | Request::Return
        | Request::Abend(_)
        | Request::Show { .. } => false,
    }
}

// Returns whether a request of a statement reads or writes bytes. SHOW prints them.
fn source_uses_bytes(written: &SourceRequest) -> bool
    ensures { result ≡ source_uses_bytes written.now }
{
    match written {
        SourceRequest::Show { .. } | SourceRequest::Put { .. } | SourceRequest::Move { .. } => true,
        SourceRequest::Obtain { .. }
        | SourceRequest::ObtainList { .. }
        | SourceRequest::Release { .. }
        | SourceRequest::ReleaseArea { .. }
        | SourceRequest::ReleaseList { .. }
        | SourceRequest::ReleaseWhole { .. }
        | SourceRequest::Build { .. }
        | SourceRequest::Get { .. }
        | SourceRequest::Free { .. }
        | SourceRequest::Delete { .. }
        | SourceRequest::Attach { .. }
        | SourceRequest::Return
        | SourceRequest::Abend(_) => false,
    }
}

/// Returns whether a line reads or writes bytes.
pub fn line_uses_bytes(read: &Line) -> bool
    ensures { result ≡ line_uses_bytes read.now }
{
    match read {
        Line::Statement(_, Statement::Request(written)) => source_uses_bytes(written),
        Line::Statement(
            _,
            Statement::Region { .. }
            | Statement::Where(_)
            | Statement::ReportSubpools
            | Statement::ReportMap,
        )
        | Line::Nothing => false,
    }
}
