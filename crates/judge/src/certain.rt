//! Which answers places do not decide.

ghost use Rattle.std.specs.Prelude.{◌≡◌, List};
ghost use Rattle.mvs_model.specs.declared.name.Name.{Name as TaskName};
ghost use Rattle.mvs_model.specs.FullAnswers.{full_answer};
ghost use Rattle.mvs_model.specs.Requests.{is_invalid};
ghost use Rattle.mvs_model.specs.State.{State};
ghost use Rattle.judge.specs.Outline.{is_settled, is_user, request_settled};

use mvs_model::answer::Answer;
use mvs_model::code::Code;
use mvs_model::line::{SourceRequest, Statement};
use mvs_model::subpool::SubNo;

// Returns whether an answer is the abend with a user code.
fn is_user(number: u16, answer: &Answer) -> bool
    ensures { (st : State) (fallen : List TaskName) (task : TaskName)
        → result ≡ is_user number (full_answer st fallen task answer.now) }
{
    match answer {
        Answer::Abended(Code::User(code)) => *code == number,
        Answer::Abended(Code::System(_))
        | Answer::NotRun
        | Answer::NoName
        | Answer::At(_)
        | Answer::Rc0
        | Answer::Granted(_)
        | Answer::Rc4
        | Answer::Cell
        | Answer::NoCell
        | Answer::Attached
        | Answer::Ended
        | Answer::Done
        | Answer::Data(_)
        | Answer::Subpools
        | Answer::Map => false,
    }
}

// Returns whether a request may not name a subpool number.
fn is_invalid(number: u8) -> bool
    ensures { result ≡ is_invalid number }
{
    SubNo::new(number).is_none()
}

// Returns whether places do not decide that a request has an answer.
fn request_settled(written: &SourceRequest, answer: &Answer) -> bool
    ensures { (st : State) (fallen : List TaskName) (task : TaskName)
        → result ≡ request_settled written.now (full_answer st fallen task answer.now) }
{
    match written {
        SourceRequest::Obtain { number, .. }
        | SourceRequest::ObtainList { number, .. }
        | SourceRequest::Release { number, .. }
        | SourceRequest::ReleaseArea { number, .. }
        | SourceRequest::ReleaseList { number, .. } => is_invalid(*number),
        SourceRequest::Build { number, .. } => is_invalid(*number) || is_user(4008, answer),
        SourceRequest::Get { .. } | SourceRequest::Free { .. } => is_user(4002, answer),
        SourceRequest::ReleaseWhole { .. }
        | SourceRequest::Delete { .. }
        | SourceRequest::Attach { .. }
        | SourceRequest::Return
        | SourceRequest::Abend(_) => true,
        SourceRequest::Show { .. } | SourceRequest::Put { .. } | SourceRequest::Move { .. } =>
            false,
    }
}

/// Returns whether it does not depend on places that a statement has an answer.
pub fn is_settled(statement: &Statement, answer: &Answer) -> bool
    ensures { (st : State) (fallen : List TaskName) (task : TaskName)
        → result ≡ is_settled statement.now (full_answer st fallen task answer.now) }
{
    match answer {
        Answer::NotRun | Answer::NoName => true,
        Answer::At(_)
        | Answer::Rc0
        | Answer::Granted(_)
        | Answer::Rc4
        | Answer::Cell
        | Answer::NoCell
        | Answer::Attached
        | Answer::Ended
        | Answer::Done
        | Answer::Data(_)
        | Answer::Abended(_)
        | Answer::Subpools
        | Answer::Map => match statement {
            Statement::Request(written) => request_settled(written, answer),
            Statement::Region { .. }
            | Statement::Where(_)
            | Statement::ReportSubpools
            | Statement::ReportMap => false,
        },
    }
}
