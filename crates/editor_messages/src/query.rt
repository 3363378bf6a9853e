//! What a request or a notification asks, by its method and its parameters.

ghost use Rattle.std.specs.Prelude.{◌≡◌, List, codes, option_and_then, option_map, ℕ};
ghost use Rattle.json.specs.Value.{items_view, value_view};
ghost use Rattle.editor_messages.specs.Queries.{QueryValue, query_value, changed_text, flag_in, last_item, last_of, member, notice_of, notice_value, number_from, number_in, of_place, of_range, position_of, query_of, uri_of, with_text};
ghost use Rattle.editor_messages.specs.Messages.{text_of};

use crate::message::text_of;
use crate::method::Method;
use job_script::digits::read_number;
use json::Value;

/// A position of the protocol: a line, and a number of UTF-16 code units in it; both count from 0.
#[derive(Clone, Copy, Debug, PartialEq, Eq)]
pub struct Position {
    pub line: usize,
    pub character: usize,
}

/// What a request asks; most requests are about a document, by its name.
#[derive(Clone, Copy, Debug)]
pub enum Query<'a> {
    Initialize,
    Shutdown,
    Symbols(&'a str),
    /// The hints from a position to another.
    Hints(&'a str, Position, Position),
    /// The actions from a position to another.
    Actions(&'a str, Position, Position),
    Hover(&'a str, Position),
    Completion(&'a str, Position),
    Definition(&'a str, Position),
    /// The references of the name at a position, with those that set it or without.
    References(&'a str, Position, bool),
}

/// What a notification says of a document.
#[derive(Clone, Copy, Debug)]
pub enum Notice<'a> {
    /// It has this text, and this version if it has one.
    Text(&'a str, Option<i64>, &'a str),
    /// It is closed.
    Closed(&'a str),
}

// Returns a member.
fn member<'v, 'a>(value: Option<&'v Value<'a>>, name: &str) -> Option<&'v Value<'a>>
    ensures { option_map (λ v. value_view v.now) result
        ≡ member name.now (option_map (λ v. value_view v.now) value.entry) }
{
    value?.get(name)
}

// Returns the number that at most ten digits mean.
fn number_from(digits: &str) -> Option<usize>
    ensures { result ≡ number_from digits.now }
{
    if digits.len() > 10 {
        return None;
    }
    read_number(digits.as_bytes()).map(|number| number as usize)
}

// Returns the number that a value is.
fn number_in(value: Option<&Value<'_>>) -> Option<usize>
    ensures { result ≡ number_in (option_map (λ v. value_view v.now) value.entry) }
{
    number_from(value?.as_number()?)
}

// Returns whether a flag holds, as one that is missing.
fn flag_in(value: Option<&Value<'_>>) -> bool
    ensures { result ≡ flag_in (option_map (λ v. value_view v.now) value.entry) }
{
    match value {
        Some(value) => value.as_bool().unwrap_or(true),
        None => true,
    }
}

// Returns the position that a value is.
fn position_of(value: Option<&Value<'_>>) -> Option<Position>
    ensures { result ≡ position_of (option_map (λ v. value_view v.now) value.entry) }
{
    let line = number_in(member(value, "line"))?;
    let character = number_in(member(value, "character"))?;
    Some(Position { line, character })
}

// Returns the name of the document that parameters are about.
fn uri_of<'a>(params: Option<&Value<'a>>) -> Option<&'a str>
    ensures { option_map (λ t. t.now) result
        ≡ uri_of (option_map (λ v. value_view v.now) params.entry) }
{
    text_of(member(member(params, "textDocument"), "uri"))
}

// A document and a position in it.
#[derive(Clone, Copy)]
struct Place<'a> {
    uri: &'a str,
    position: Position,
}

// A document and two positions in it.
#[derive(Clone, Copy)]
struct Range<'a> {
    uri: &'a str,
    start: Position,
    end: Position,
}

// Returns the place in parameters.
fn place_of<'a>(params: Option<&Value<'a>>) -> Option<Place<'a>>
    ensures { (ask : List ℕ → Position → QueryValue)
        → option_map (λ place. ask place.uri.now place.position) result
        ≡ of_place ask (option_map (λ v. value_view v.now) params.entry) }
{
    let uri = uri_of(params)?;
    let position = position_of(member(params, "position"))?;
    Some(Place { uri, position })
}

// Returns the range in parameters.
fn range_of<'a>(params: Option<&Value<'a>>) -> Option<Range<'a>>
    ensures { (ask : List ℕ → Position → Position → QueryValue)
        → option_map (λ range. ask range.uri.now range.start range.end) result
        ≡ of_range ask (option_map (λ v. value_view v.now) params.entry) }
{
    let uri = uri_of(params)?;
    let range = member(params, "range");
    let start = position_of(member(range, "start"))?;
    let end = position_of(member(range, "end"))?;
    Some(Range { uri, start, end })
}

// Returns whether references that set a name are requested too.
fn declares(params: Option<&Value<'_>>) -> bool
    ensures { result ≡ flag_in (member (codes "includeDeclaration") (member (codes "context") (option_map (λ v. value_view v.now) params.entry))) }
{
    flag_in(member(member(params, "context"), "includeDeclaration"))
}

impl Method {
    /// Returns what a request asks, or nothing if its parameters are not those of the method.
    pub fn query<'a>(self, params: Option<&Value<'a>>) -> Option<Query<'a>>
        ensures { option_map query_value result
            ≡ query_of self (option_map (λ v. value_view v.now) params.entry) }
    {
        match self {
            Method::Initialize => Some(Query::Initialize),
            Method::Shutdown => Some(Query::Shutdown),
            Method::DocumentSymbol => uri_of(params).map(Query::Symbols),
            Method::InlayHint => {
                range_of(params).map(|range| Query::Hints(range.uri, range.start, range.end))
            }
            Method::CodeAction => {
                range_of(params).map(|range| Query::Actions(range.uri, range.start, range.end))
            }
            Method::Hover => place_of(params).map(|place| Query::Hover(place.uri, place.position)),
            Method::Completion => {
                place_of(params).map(|place| Query::Completion(place.uri, place.position))
            }
            Method::Definition => {
                place_of(params).map(|place| Query::Definition(place.uri, place.position))
            }
            Method::References => {
                let place = place_of(params)?;
                Some(Query::References(place.uri, place.position, declares(params)))
            }
            Method::Initialized
            | Method::Exit
            | Method::DidOpen
            | Method::DidChange
            | Method::DidClose
            | Method::Unknown => None,
        }
    }
}

// Returns the last item of a list.
fn last_item<'v, 'a>(items: &'v [Value<'a>]) -> Option<&'v Value<'a>>
    ensures { option_map (λ v. value_view v.now) result ≡ last_item (items_view items.now) }
{
    items.last()
}

// Returns the last item of a value that is a list.
fn last_of<'v, 'a>(value: Option<&'v Value<'a>>) -> Option<&'v Value<'a>>
    ensures { option_map (λ v. value_view v.now) result
        ≡ option_and_then last_of (option_map (λ v. value_view v.now) value.entry) }
{
    match value {
        Some(Value::Array(items)) => last_item(items),
        _ => None,
    }
}

// Returns the text of the last change, if it has no range.
fn changed_text<'a>(params: Option<&Value<'a>>) -> Option<&'a str>
    ensures { option_map (λ t. t.now) result
        ≡ changed_text (option_map (λ v. value_view v.now) params.entry) }
{
    let change = last_of(member(params, "contentChanges"));
    if member(change, "range").is_some() {
        None
    } else {
        text_of(member(change, "text"))
    }
}

// Returns the version of a document.
fn version_of(params: Option<&Value<'_>>) -> Option<i64> {
    member(member(params, "textDocument"), "version")?.as_i64()
}

// Returns the notice of a document with a text.
fn with_text<'a>(
    uri: Option<&'a str>,
    version: Option<i64>,
    text: Option<&'a str>,
) -> Option<Notice<'a>>
    ensures { option_map notice_value result
        ≡ with_text (option_map (λ t. t.now) uri.entry) (option_map (λ t. t.now) text.entry) }
{
    match (uri, text) {
        (Some(uri), Some(text)) => Some(Notice::Text(uri, version, text)),
        _ => None,
    }
}

impl Method {
    /// Returns what a notification says of a document, or nothing if its parameters are not those of the method.
    pub fn notice<'a>(self, params: Option<&Value<'a>>) -> Option<Notice<'a>>
        ensures { option_map notice_value result
            ≡ notice_of self (option_map (λ v. value_view v.now) params.entry) }
    {
        let uri = uri_of(params);
        let version = version_of(params);
        match self {
            Method::DidOpen => with_text(
                uri,
                version,
                text_of(member(member(params, "textDocument"), "text")),
            ),
            Method::DidChange => with_text(uri, version, changed_text(params)),
            Method::DidClose => uri.map(Notice::Closed),
            Method::Initialize
            | Method::Initialized
            | Method::Shutdown
            | Method::Exit
            | Method::InlayHint
            | Method::Hover
            | Method::Completion
            | Method::DocumentSymbol
            | Method::Definition
            | Method::References
            | Method::CodeAction
            | Method::Unknown => None,
        }
    }
}
