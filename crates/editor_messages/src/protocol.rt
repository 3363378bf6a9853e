//! The states of a server, and what it does with a message in each.

ghost use Rattle.std.specs.Prelude.{◌≡◌};
ghost use Rattle.editor_messages.specs.Protocol.{code_of, is_notice, kind_of, message_of, of_notification, of_request, phase_after, status_of, used};

use crate::method::Method;

/// An error of the protocol.
#[derive(Clone, Copy, Debug, PartialEq, Eq)]
pub enum ErrorCode {
    ParseError,
    InvalidRequest,
    MethodNotFound,
    InvalidParams,
    InternalError,
    ServerNotInitialized,
    RequestCancelled,
}

impl ErrorCode {
    /// Returns its number, which is negative, without the sign.
    pub fn code(self) -> u32
        ensures { result ≡ code_of self }
    {
        match self {
            ErrorCode::ParseError => 32_700,
            ErrorCode::InvalidRequest => 32_600,
            ErrorCode::MethodNotFound => 32_601,
            ErrorCode::InvalidParams => 32_602,
            ErrorCode::InternalError => 32_603,
            ErrorCode::ServerNotInitialized => 32_002,
            ErrorCode::RequestCancelled => 32_800,
        }
    }

    /// Returns its message.
    pub fn message(self) -> &'static [u8]
        ensures { result.now ≡ message_of self }
    {
        match self {
            ErrorCode::ParseError => b"the message is not JSON",
            ErrorCode::InvalidRequest => b"the message is not a valid request here",
            ErrorCode::MethodNotFound => b"no such method",
            ErrorCode::InvalidParams => b"the parameters are not those of the method",
            ErrorCode::InternalError => b"out of memory",
            ErrorCode::ServerNotInitialized => b"the server is not initialized",
            ErrorCode::RequestCancelled => b"the request was cancelled",
        }
    }
}

/// How far a session is.
#[derive(Clone, Copy, Debug, PartialEq, Eq)]
pub enum Phase {
    /// Before the request `initialize`.
    Waiting,
    Running,
    /// After the request `shutdown`.
    ShutDown,
}

/// What a method is for the states of a server.
#[derive(Clone, Copy, Debug, PartialEq, Eq)]
pub enum MethodKind {
    Initialize,
    Shutdown,
    Exit,
    /// Another method that the server has.
    Known,
    Unknown,
}

/// What a server does with a notification, which it never answers.
#[derive(Clone, Copy, Debug, PartialEq, Eq)]
pub enum NoticeStep {
    /// It does what the method asks.
    Serve,
    /// It does nothing.
    Drop,
    /// It ends with a status.
    Exit(u8),
}

impl Phase {
    /// Returns the error with which a server answers a request, if it does not serve it.
    pub fn request(self, method: MethodKind) -> Result<(), ErrorCode>
        ensures { result ≡ of_request self method }
    {
        match (self, method) {
            (Phase::Waiting, MethodKind::Initialize) => Ok(()),
            (Phase::Waiting, _) => Err(ErrorCode::ServerNotInitialized),
            (Phase::Running, MethodKind::Initialize) => Err(ErrorCode::InvalidRequest),
            (Phase::Running, MethodKind::Shutdown | MethodKind::Known) => Ok(()),
            (Phase::Running, MethodKind::Exit | MethodKind::Unknown) => {
                Err(ErrorCode::MethodNotFound)
            }
            (Phase::ShutDown, _) => Err(ErrorCode::InvalidRequest),
        }
    }

    /// Returns what a server does with a notification.
    pub fn notification(self, method: MethodKind) -> NoticeStep
        ensures { result ≡ of_notification self method }
    {
        match (self, method) {
            (Phase::ShutDown, MethodKind::Exit) => NoticeStep::Exit(0),
            (_, MethodKind::Exit) => NoticeStep::Exit(1),
            (Phase::Running, MethodKind::Known) => NoticeStep::Serve,
            _ => NoticeStep::Drop,
        }
    }

    /// Returns the phase after a request that was served.
    pub fn after(self, method: MethodKind) -> Phase
        ensures { result ≡ phase_after self method }
    {
        match method {
            MethodKind::Initialize => Phase::Running,
            MethodKind::Shutdown => Phase::ShutDown,
            MethodKind::Exit | MethodKind::Known | MethodKind::Unknown => self,
        }
    }

    /// Returns the exit status of a server whose input or session ends.
    pub fn status(self) -> u8
        ensures { result ≡ status_of self }
    {
        match self {
            Phase::ShutDown => 0,
            Phase::Waiting | Phase::Running => 1,
        }
    }
}

// Returns the kind of a method, which is used correctly or not.
fn used(is_right: bool) -> MethodKind
    ensures { result ≡ used is_right }
{
    if is_right {
        MethodKind::Known
    } else {
        MethodKind::Unknown
    }
}

impl Method {
    // Returns whether it is a notification.
    fn is_notice(self) -> bool
        ensures { result ≡ is_notice self }
    {
        match self {
            Method::Initialized
            | Method::Exit
            | Method::DidOpen
            | Method::DidChange
            | Method::DidClose => true,
            Method::Initialize
            | Method::Shutdown
            | Method::InlayHint
            | Method::Hover
            | Method::Completion
            | Method::DocumentSymbol
            | Method::Definition
            | Method::References
            | Method::CodeAction
            | Method::Unknown => false,
        }
    }

    /// Returns what it is for the states of a server, in a request or in a notification.
    pub fn kind(self, is_request: bool) -> MethodKind
        ensures { result ≡ kind_of is_request self }
    {
        match self {
            Method::Initialize => MethodKind::Initialize,
            Method::Shutdown => MethodKind::Shutdown,
            Method::Exit => MethodKind::Exit,
            Method::Unknown => MethodKind::Unknown,
            Method::Initialized
            | Method::DidOpen
            | Method::DidChange
            | Method::DidClose
            | Method::InlayHint
            | Method::Hover
            | Method::Completion
            | Method::DocumentSymbol
            | Method::Definition
            | Method::References
            | Method::CodeAction => used(self.is_notice() != is_request),
        }
    }
}
