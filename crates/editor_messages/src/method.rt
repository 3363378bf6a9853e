//! The methods of the server.

ghost use Rattle.std.specs.Prelude.{◌≡◌};
ghost use Rattle.editor_messages.specs.Messages.{method_named};

/// A method that the server has.
#[derive(Clone, Copy, Debug, PartialEq, Eq)]
pub enum Method {
    Initialize,
    Initialized,
    Shutdown,
    Exit,
    DidOpen,
    DidChange,
    DidClose,
    InlayHint,
    Hover,
    Completion,
    DocumentSymbol,
    Definition,
    References,
    CodeAction,
    Unknown,
}

impl Method {
    /// Returns the method of a name.
    pub fn named(name: &str) -> Method
        ensures { result ≡ method_named name.now }
    {
        match name {
            "initialize" => Method::Initialize,
            "initialized" => Method::Initialized,
            "shutdown" => Method::Shutdown,
            "exit" => Method::Exit,
            "textDocument/didOpen" => Method::DidOpen,
            "textDocument/didChange" => Method::DidChange,
            "textDocument/didClose" => Method::DidClose,
            "textDocument/inlayHint" => Method::InlayHint,
            "textDocument/hover" => Method::Hover,
            "textDocument/completion" => Method::Completion,
            "textDocument/documentSymbol" => Method::DocumentSymbol,
            "textDocument/definition" => Method::Definition,
            "textDocument/references" => Method::References,
            "textDocument/codeAction" => Method::CodeAction,
            _ => Method::Unknown,
        }
    }
}
