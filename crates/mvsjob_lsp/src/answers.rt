//! The answers of the server, as JSON.

ghost use Rattle.std.specs.Prelude.{◌≡◌, ◌∷◌, ◌++◌, IfOk, OnOk, codes};
ghost use Rattle.json.specs.Json.{Items, Json, Members, array, null};
ghost use Rattle.json.specs.Token.{key};
ghost use Rattle.json.specs.Tree.{json_tokens, members_tokens};
ghost use Rattle.editor_messages.specs.Queries.{notice_value, query_value};
ghost use Rattle.mvsjob_lsp.specs.Answering.{Answers as IsAnswer, AreItems, HasActions, HasDefinition, HasHints, HasHover, HasProposals, HasReferences, HasSymbols, MayAnswer, MayNotice, Publishes, Writes, capabilities};
ghost use Rattle.mvsjob_lsp.specs.Sessions.{document_of};
ghost use Rattle.mvsjob_lsp.specs.Tokens.{AddsTokens};
ghost use Rattle.mvsjob_lsp.specs.Values.{value_text, with_version};

use crate::objects::Objects;
use crate::replies::{
    write_actions, write_completion, write_hints, write_hover, write_locations, write_no_notes,
    write_notes, write_symbols, write_unanswered,
};
use crate::session::{EditorSession, Unanswered};
use editor_messages::{Answers, Notice, Position, Query};
use language_server::{Document, Span};
use std::alloc::{AllocError, Global};
use version::VERSION;

// What the server can do, up to its version.
const CAPABILITIES: &str =
    "{\"capabilities\":{\"positionEncoding\":\"utf-16\",\"textDocumentSync\":{\"openClose\":true,\"change\":1},\"hoverProvider\":true,\"definitionProvider\":true,\"referencesProvider\":true,\"documentSymbolProvider\":true,\"inlayHintProvider\":true,\"completionProvider\":{\"triggerCharacters\":[\" \",\",\",\"=\",\"(\"]},\"codeActionProvider\":{\"codeActionKinds\":[\"quickfix\",\"refactor.rewrite\"]}},\"serverInfo\":{\"name\":\"mvsjob-lsp\",\"version\":\"";

// Returns what the server can do.
#[tactic(auto, unfolding(crate::specs::Answering::capabilities))]
fn capabilities(alloc: Global, version: &str) -> Result<Vec<u8>, AllocError>
    ensures { IfOk result (λ text. text.items ≡ capabilities version.now) }
{
    let mut text = Vec::from_slice(alloc, CAPABILITIES.as_bytes())?;
    text.extend_from_slice(version.as_bytes())?;
    text.extend_from_slice(b"\"}}")?;
    Ok(text)
}

// Returns the text of null.
fn null(alloc: Global) -> Result<Vec<u8>, AllocError>
    ensures { IfOk result (λ text. text.items ≡ value_text null) }
{
    let mut objects = Objects::new(alloc);
    objects.null()?;
    Ok(objects.into_bytes())
}

// Writes null.
fn write_null(objects: &mut Objects) -> Result<(), AllocError>
    ensures { OnOk result ((j : Json) × (j ≡ null)
        × AddsTokens objects.old objects.new (json_tokens j)) }
{
    objects.null()
}

// Writes the symbols of a document.
fn symbols(alloc: Global, objects: &mut Objects, document: &Document) -> Result<(), AllocError>
    ensures { OnOk result ((j : Json) × HasSymbols document.now j
        × (AddsTokens objects.old objects.new (json_tokens j))) }
{
    let found = document.symbols(alloc)?;
    write_symbols(objects, document, &found)
}

// Writes the hints of the lines from a position to another.
fn hints(
    alloc: Global,
    objects: &mut Objects,
    document: &Document,
    start: Position,
    end: Position,
) -> Result<(), AllocError>
    ensures { OnOk result ((j : Json) × HasHints start end document.now j
        × (AddsTokens objects.old objects.new (json_tokens j))) }
{
    let first = document.place(start);
    let last = document.place(end);
    let hints = document.hints(alloc, document.line_of(first), document.line_of(last))?;
    write_hints(objects, document, &hints)
}

// Writes the actions from a position to another.
fn actions(
    alloc: Global,
    objects: &mut Objects,
    document: &Document,
    uri: &str,
    start: Position,
    end: Position,
) -> Result<(), AllocError>
    ensures { OnOk result ((j : Json) × HasActions uri.now start end document.now j
        × (AddsTokens objects.old objects.new (json_tokens j))) }
{
    let span = Span {
        start: document.place(start),
        end: document.place(end),
    };
    let actions = document.actions(alloc, span)?;
    write_actions(objects, document, uri, &actions)
}

// Writes what is shown at a position.
fn hover(
    alloc: Global,
    objects: &mut Objects,
    document: &Document,
    position: Position,
) -> Result<(), AllocError>
    ensures { OnOk result ((j : Json) × HasHover position document.now j
        × (AddsTokens objects.old objects.new (json_tokens j))) }
{
    match document.hover(alloc, document.place(position))? {
        Some(hover) => write_hover(objects, document, &hover),
        None => objects.null(),
    }
}

// Writes what may be written at a position.
fn proposals(
    alloc: Global,
    objects: &mut Objects,
    document: &Document,
    position: Position,
) -> Result<(), AllocError>
    ensures { OnOk result ((j : Json) × HasProposals position document.now j
        × (AddsTokens objects.old objects.new (json_tokens j))) }
{
    let completion = document.completion(alloc, document.place(position))?;
    write_completion(objects, document, &completion)
}

// Writes where the name at a position is set.
fn definition(
    alloc: Global,
    objects: &mut Objects,
    document: &Document,
    uri: &str,
    position: Position,
) -> Result<(), AllocError>
    ensures { OnOk result ((j : Json) × HasDefinition uri.now position document.now j
        × (AddsTokens objects.old objects.new (json_tokens j))) }
{
    match document.definition(alloc, document.place(position))? {
        Some(span) => write_locations(objects, document, uri, &[span]),
        None => objects.null(),
    }
}

// Writes where the name at a position is used.
fn references(
    alloc: Global,
    objects: &mut Objects,
    document: &Document,
    uri: &str,
    position: Position,
    declares: bool,
) -> Result<(), AllocError>
    ensures { OnOk result ((j : Json) × HasReferences uri.now position declares document.now j
        × (AddsTokens objects.old objects.new (json_tokens j))) }
{
    let spans = document.references(alloc, document.place(position), declares)?;
    write_locations(objects, document, uri, &spans)
}

// Writes the answer to a request about a document.
fn write_about(
    alloc: Global,
    objects: &mut Objects,
    document: &Document,
    query: &Query<'_>,
) -> Result<(), AllocError>
    ensures { OnOk result ((j : Json) × IsAnswer (query_value query.now) document.now j
        × (AddsTokens objects.old objects.new (json_tokens j))) }
{
    match query {
        Query::Initialize => write_null(objects),
        Query::Shutdown => write_null(objects),
        Query::Symbols(_) => symbols(alloc, objects, document),
        Query::Hints(_, start, end) => hints(alloc, objects, document, *start, *end),
        Query::Actions(uri, start, end) => actions(alloc, objects, document, uri, *start, *end),
        Query::Hover(_, position) => hover(alloc, objects, document, *position),
        Query::Completion(_, position) => proposals(alloc, objects, document, *position),
        Query::Definition(uri, position) => definition(alloc, objects, document, uri, *position),
        Query::References(uri, position, declares) => {
            references(alloc, objects, document, uri, *position, *declares)
        }
    }
}

// Returns the answer to a request about a document.
fn about(alloc: Global, document: &Document, query: &Query<'_>) -> Result<Vec<u8>, AllocError>
    ensures { IfOk result (λ body. (j : Json) × IsAnswer (query_value query.now) document.now j
        × (body.items ≡ value_text j)) }
{
    let mut objects = Objects::new(alloc);
    write_about(alloc, &mut objects, document, query)?;
    Ok(objects.into_bytes())
}

// Writes a version, if there is one, as a member.
fn write_version(objects: &mut Objects, version: Option<i64>) -> Result<(), AllocError>
    ensures { OnOk result ((rest : Members)
        → objects.new ++ members_tokens rest
        ≡ objects.old ++ members_tokens (with_version version rest)) }
{
    match version {
        Some(version) => objects.integer("version", version),
        None => Ok(()),
    }
}

impl EditorSession {
    // Returns the answer to a request about the document of a name. It is null if the document is not open.
    fn about(&self, uri: &str, query: &Query<'_>) -> Result<Vec<u8>, AllocError>
        ensures { IfOk result
            (λ body. Writes self.now uri.now (query_value query.now) body.items) }
    {
        match self.document(uri) {
            Some(document) => about(self.alloc(), document, query),
            None => {
                let text = null(self.alloc())?;
                Ok(text)
            }
        }
    }

    // Writes the diagnostics of the document of a name, as a member; none, if it is not open.
    fn write_analysed(&self, objects: &mut Objects, uri: &str) -> Result<(), AllocError>
        ensures { OnOk result ((items : Items)
            × AreItems (Ok tt) (document_of uri.now self.now.documents) items
            × AddsTokens objects.old objects.new
            (key (codes "diagnostics") ∷ json_tokens (array items))) }
    {
        match self.document(uri) {
            Some(document) => {
                let notes = document.notes(self.alloc())?;
                write_notes(objects, document, &notes)
            }
            None => write_no_notes(objects),
        }
    }

    // Writes the diagnostics of the document of a name, as a member; or why it is not analysed.
    fn write_diagnostics(
        &self,
        objects: &mut Objects,
        uri: &str,
        analysed: Result<(), Unanswered>,
    ) -> Result<(), AllocError>
        ensures { OnOk result ((items : Items)
            × AreItems analysed (document_of uri.now self.now.documents) items
            × AddsTokens objects.old objects.new
            (key (codes "diagnostics") ∷ json_tokens (array items))) }
    {
        match analysed {
            Ok(()) => self.write_analysed(objects, uri),
            Err(why) => write_unanswered(objects, why),
        }
    }

    // Returns the parameters of the diagnostics of the document of a name.
    fn diagnostics(
        &self,
        uri: &str,
        version: Option<i64>,
        analysed: Result<(), Unanswered>,
    ) -> Result<Vec<u8>, AllocError>
        ensures { IfOk result
            (λ params. Publishes self.now uri.now analysed params.items) }
    {
        let mut objects = Objects::new(self.alloc());
        objects.begin()?;
        objects.text("uri", uri)?;
        write_version(&mut objects, version)?;
        self.write_diagnostics(&mut objects, uri, analysed)?;
        objects.end()?;
        Ok(objects.into_bytes())
    }
}

impl Answers for EditorSession {
    ghost may_answer = { λ session asked body. MayAnswer session asked body };

    ghost may_lack = { λ session asked. Unit {0} };

    ghost may_notice = { λ session noticed now params. MayNotice session noticed now params };

    fn answer(&self, query: &Query<'_>) -> Result<Vec<u8>, AllocError> {
        match query {
            Query::Initialize => capabilities(self.alloc(), VERSION),
            Query::Shutdown => null(self.alloc()),
            Query::Symbols(uri) => self.about(uri, query),
            Query::Hints(uri, _, _) => self.about(uri, query),
            Query::Actions(uri, _, _) => self.about(uri, query),
            Query::Hover(uri, _) => self.about(uri, query),
            Query::Completion(uri, _) => self.about(uri, query),
            Query::Definition(uri, _) => self.about(uri, query),
            Query::References(uri, _, _) => self.about(uri, query),
        }
    }

    fn notice(&mut self, notice: &Notice<'_>) -> Result<Vec<u8>, AllocError> {
        match notice {
            Notice::Text(uri, version, text) => {
                let analysed = self.set(uri, text.as_bytes());
                self.diagnostics(uri, *version, analysed)
            }
            Notice::Closed(uri) => {
                self.close(uri);
                self.diagnostics(uri, None, Ok(()))
            }
        }
    }
}
