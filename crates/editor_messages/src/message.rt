//! Messages of JSON-RPC.

ghost use Rattle.std.specs.Prelude.{◌≡◌, option_map};
ghost use Rattle.json.specs.Tree.{HasNumbers};
ghost use Rattle.json.specs.Value.{value_view};
ghost use Rattle.editor_messages.specs.Messages.{are_params, identified, called, id_of, is_call, is_response, is_version, json_of, known_id, meaning_of, meant, text_of};

use json::Value;

/// The identifier of a request, as it is written.
#[derive(Clone, Copy, Debug)]
pub enum Id<'a> {
    Number(&'a str),
    Text(&'a str),
    /// It is not known.
    Null,
}

/// What a message is.
#[derive(Clone, Copy)]
pub enum ClientMessage<'v, 'a> {
    /// A request, with its identifier, its method and its parameters.
    Request(Id<'a>, &'a str, Option<&'v Value<'a>>),
    /// A notification, with its method and its parameters.
    Notification(&'a str, Option<&'v Value<'a>>),
    /// The answer to a request of the server, which makes none.
    Response,
    /// It is none of the protocol. Its identifier is null if it has none.
    Malformed(Id<'a>),
}

// Returns an identifier, if a value is one.
fn id_of<'a>(value: &Value<'a>) -> Option<Id<'a>>
    ensures { option_map json_of result ≡ id_of (value_view value.now) }
{
    match value {
        Value::Number(text) => Some(Id::Number(*text)),
        Value::String(text) => Some(Id::Text(*text)),
        Value::Null | Value::Bool(_) | Value::Array(_) | Value::Object(_) => None,
    }
}

// Returns an identifier, which is null if a message has none.
fn known_id<'a>(value: Option<&Value<'a>>) -> Id<'a>
    ensures { json_of result ≡ known_id (option_map (λ v. value_view v.now) value.entry) }
{
    match value {
        Some(value) => match id_of(value) {
            Some(id) => id,
            None => Id::Null,
        },
        None => Id::Null,
    }
}

/// Returns the text that a value is, if it is one.
pub fn text_of<'a>(value: Option<&Value<'a>>) -> Option<&'a str>
    ensures { option_map (λ t. t.now) result
        ≡ text_of (option_map (λ v. value_view v.now) value.entry) }
{
    value?.as_str()
}

// Returns whether parameters are an object or an array, as those of a call.
fn are_params(value: Option<&Value<'_>>) -> bool
    ensures { result ≡ are_params (option_map (λ v. value_view v.now) value.entry) }
{
    match value {
        Some(Value::Object(_) | Value::Array(_) | Value::Null) | None => true,
        Some(Value::Bool(_) | Value::Number(_) | Value::String(_)) => false,
    }
}

// Returns whether a text is the version of JSON-RPC.
fn is_version(text: Option<&str>) -> bool
    ensures { result ≡ is_version (option_map (λ t. t.now) text.entry) }
{
    match text {
        Some(text) => text == "2.0",
        None => false,
    }
}

// Returns what a call with an identifier is, if that is one.
fn identified<'v, 'a>(
    id: Option<Id<'a>>,
    name: &'a str,
    params: Option<&'v Value<'a>>,
) -> ClientMessage<'v, 'a>
    ensures { meant result ≡ identified (option_map json_of id.entry) name.now
        (option_map (λ v. value_view v.now) params.entry) }
{
    match id {
        Some(id) => ClientMessage::Request(id, name, params),
        None => ClientMessage::Malformed(Id::Null),
    }
}

// Returns what a message of the right version with the right kind of parameters is.
fn called<'v, 'a>(
    id: Option<&Value<'a>>,
    name: Option<&'a str>,
    params: Option<&'v Value<'a>>,
) -> ClientMessage<'v, 'a>
    ensures { meant result ≡ called (option_map (λ v. value_view v.now) id.entry)
        (option_map (λ t. t.now) name.entry) (option_map (λ v. value_view v.now) params.entry) }
{
    let Some(name) = name else {
        return ClientMessage::Malformed(known_id(id));
    };
    match id {
        Some(id) => identified(id_of(id), name, params),
        None => ClientMessage::Notification(name, params),
    }
}

// Returns whether a message is the answer to a request.
fn is_response(value: &Value<'_>) -> bool
    ensures { result ≡ is_response (value_view value.now) }
{
    if value.get("method").is_some() {
        false
    } else {
        value.get("result").is_some() || value.get("error").is_some()
    }
}

// Returns whether a message has the version of a call, and the right kind of parameters.
fn is_call(value: &Value<'_>) -> bool
    ensures { result ≡ is_call (value_view value.now) }
{
    is_version(text_of(value.get("jsonrpc"))) && are_params(value.get("params"))
}

/// Returns what a message is.
pub fn message_of<'v, 'a>(value: &'v Value<'a>) -> ClientMessage<'v, 'a>
    ensures meant { meant result ≡ meaning_of (value_view value.now) }
{
    if is_response(value) {
        return ClientMessage::Response;
    }
    if is_call(value) {
        called(
            value.get("id"),
            text_of(value.get("method")),
            value.get("params"),
        )
    } else {
        ClientMessage::Malformed(known_id(value.get("id")))
    }
}
