//! The messages that a server sends, as bytes.

ghost use Rattle.std.specs.Prelude.{◌≡◌, ◌++◌, IfOk, OnOk, decimal};
ghost use Rattle.json.specs.Print.{print};
ghost use Rattle.json.specs.Tree.{HasNumbers, json_tokens};
ghost use Rattle.editor_messages.specs.Messages.{json_of};
ghost use Rattle.editor_messages.specs.Sent.{error_text, framed, notice_text, response_head, result_text};

use crate::message::Id;
use crate::protocol::ErrorCode;
use json::Writer;
use std::alloc::{AllocError, Global};

// Appends a number in decimal.
fn push_number(text: &mut Vec<u8>, number: u64) -> Result<(), AllocError>
    ensures { OnOk result (text.new.items ≡ text.old.items ++ decimal number) }
{
    let mut buffer = itoa::Buffer::new();
    text.extend_from_slice(buffer.format(number).as_bytes())
}

/// Returns the frame of a message.
#[tactic(auto, unfolding(crate::specs::Sent::framed))]
pub fn framed(alloc: Global, content: &[u8]) -> Result<Vec<u8>, AllocError>
    ensures { IfOk result (λ frame. frame.items ≡ framed content.now) }
{
    let mut frame = Vec::from_slice(alloc, b"Content-Length: ")?;
    push_number(&mut frame, content.len() as u64)?;
    frame.extend_from_slice(b"\r\n\r\n")?;
    frame.extend_from_slice(content)?;
    Ok(frame)
}

// Appends an identifier as JSON.
fn with_id(text: Vec<u8>, id: &Id<'_>) -> Result<Vec<u8>, AllocError>
    requires { HasNumbers (json_of id.now) }
    ensures { IfOk result
        (λ all. all.items ≡ text.items ++ print (json_tokens (json_of id.now))) }
{
    let mut writer = Writer::new(text);
    match id {
        Id::Number(number) => writer.number(*number)?,
        Id::Text(text) => writer.string(*text)?,
        Id::Null => writer.null()?,
    }
    Ok(writer.into_inner())
}

// Returns a response up to its identifier.
#[tactic(auto, unfolding(crate::specs::Sent::response_head))]
fn response_head(alloc: Global, id: &Id<'_>) -> Result<Vec<u8>, AllocError>
    requires { HasNumbers (json_of id.now) }
    ensures { IfOk result (λ text. text.items ≡ response_head (json_of id.now)) }
{
    let text = Vec::from_slice(alloc, b"{\"jsonrpc\":\"2.0\",\"id\":")?;
    with_id(text, id)
}

// Returns the response with an error.
#[tactic(auto, unfolding(crate::specs::Sent::error_text))]
fn error_text(alloc: Global, id: &Id<'_>, error: ErrorCode) -> Result<Vec<u8>, AllocError>
    requires { HasNumbers (json_of id.now) }
    ensures { IfOk result (λ text. text.items ≡ error_text (json_of id.now) error) }
{
    let mut text = response_head(alloc, id)?;
    text.extend_from_slice(b",\"error\":{\"code\":-")?;
    push_number(&mut text, u64::from(error.code()))?;
    text.extend_from_slice(b",\"message\":\"")?;
    text.extend_from_slice(error.message())?;
    text.extend_from_slice(b"\"}}")?;
    Ok(text)
}

/// Returns the frame of the response with an error.
pub fn error_frame(alloc: Global, id: &Id<'_>, error: ErrorCode) -> Result<Vec<u8>, AllocError>
    requires { HasNumbers (json_of id.now) }
    ensures { IfOk result (λ sent. sent.items ≡ framed (error_text (json_of id.now) error)) }
{
    let text = error_text(alloc, id, error)?;
    framed(alloc, &text)
}

// Returns the response with a result.
#[tactic(auto, unfolding(crate::specs::Sent::result_text))]
fn result_text(alloc: Global, id: &Id<'_>, body: &[u8]) -> Result<Vec<u8>, AllocError>
    requires { HasNumbers (json_of id.now) }
    ensures { IfOk result (λ text. text.items ≡ result_text (json_of id.now) body.now) }
{
    let mut text = response_head(alloc, id)?;
    text.extend_from_slice(b",\"result\":")?;
    text.extend_from_slice(body)?;
    text.extend_from_slice(b"}")?;
    Ok(text)
}

/// Returns the frame of the response with a result.
pub fn result_frame(alloc: Global, id: &Id<'_>, body: &[u8]) -> Result<Vec<u8>, AllocError>
    requires { HasNumbers (json_of id.now) }
    ensures { IfOk result (λ sent. sent.items ≡ framed (result_text (json_of id.now) body.now)) }
{
    let text = result_text(alloc, id, body)?;
    framed(alloc, &text)
}

// Returns the notification with diagnostics.
#[tactic(auto, unfolding(crate::specs::Sent::notice_text))]
fn notice_text(alloc: Global, params: &[u8]) -> Result<Vec<u8>, AllocError>
    ensures { IfOk result (λ text. text.items ≡ notice_text params.now) }
{
    let head = b"{\"jsonrpc\":\"2.0\",\"method\":\"textDocument/publishDiagnostics\",\"params\":";
    let mut text = Vec::from_slice(alloc, head)?;
    text.extend_from_slice(params)?;
    text.extend_from_slice(b"}")?;
    Ok(text)
}

/// Returns the frame of the notification with diagnostics.
pub fn notice_frame(alloc: Global, params: &[u8]) -> Result<Vec<u8>, AllocError>
    ensures { IfOk result (λ sent. sent.items ≡ framed (notice_text params.now)) }
{
    let text = notice_text(alloc, params)?;
    framed(alloc, &text)
}
