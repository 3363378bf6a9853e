//! The results of requests, as JSON.

ghost use Rattle.std.specs.Prelude.{◌≡◌, ◌&&◌, ◌∷◌, ◌++◌, [], OnOk, codes, false};
ghost use Rattle.json.specs.Json.{array, no_items};
ghost use Rattle.json.specs.Token.{end_array, key};
ghost use Rattle.json.specs.Tree.{items_tokens, json_tokens};
ghost use Rattle.mvsjob_lsp.specs.Tokens.{AddsTokens, each, symbol_end, symbol_head, symbol_tokens, symbols_from};
ghost use Rattle.mvsjob_lsp.specs.Values.{action_kind, action_value, changes_value, completion_value, edit_value, hint_value, hover_value, kind_number, list_of, location_value, markdown_value, message_value, note_value, notes_items, proposal_value, rest_not_shown, severity_number, shown, symbol_number, symbol_word, symbols_value, unanswered_items};

use crate::objects::Objects;
use crate::places::DocumentPlaces;
use crate::session::Unanswered;
use language_server::{
    Action, Completion, Document, DocumentSymbol, Hover, InlayHint, Note, Proposal, ProposalKind,
    Severity, Span,
};
use std::alloc::AllocError;

// Returns the number of a severity.
fn severity_of(severity: Severity) -> usize
    ensures { result ≡ severity_number severity }
{
    match severity {
        Severity::Error => 1,
        Severity::Warning => 2,
        Severity::Information => 3,
    }
}

// Returns bytes as a text; those that are none are left out.
fn shown(bytes: &[u8]) -> &str
    ensures { result.now ≡ shown bytes.now }
{
    match str::from_utf8(bytes) {
        Ok(text) => text,
        Err(_) => "",
    }
}

// Writes a diagnostic.
fn write_note(
    objects: &mut Objects,
    places: &mut DocumentPlaces<'_>,
    note: &Note,
) -> Result<(), AllocError>
    ensures text { places.new ≡ places.old }
    ensures tokens { OnOk result
        (AddsTokens objects.old objects.new (json_tokens (note_value places.old note.now))) }
{
    objects.begin()?;
    places.write_range(objects, "range", note.span)?;
    objects.number("severity", severity_of(note.severity))?;
    objects.text("code", &note.code)?;
    objects.text("source", "mvsjob")?;
    objects.text("message", &note.message)?;
    objects.end()
}

// Writes diagnostics.
fn write_each_note(
    objects: &mut Objects,
    places: &mut DocumentPlaces<'_>,
    notes: &[Note],
) -> Result<(), AllocError>
    ensures { OnOk result
        (AddsTokens objects.old objects.new (each (note_value places.old) notes.now)) }
{
    for note in notes {
        write_note(objects, places, note)?;
    }
    Ok(())
}

// Writes a diagnostic of the first byte.
fn write_message(objects: &mut Objects, severity: Severity, message: &str) -> Result<(), AllocError>
    ensures { OnOk result
        (AddsTokens objects.old objects.new (json_tokens (message_value severity message.now))) }
{
    let mut places = DocumentPlaces::new(&[]);
    objects.begin()?;
    places.write_range(objects, "range", Span { start: 0, end: 0 })?;
    objects.number("severity", severity_of(severity))?;
    objects.text("source", "mvsjob")?;
    objects.text("message", message)?;
    objects.end()
}

// Writes a diagnostic, if the run is not shown whole.
fn write_rest(objects: &mut Objects, is_whole: bool) -> Result<(), AllocError>
    ensures { OnOk result
        (objects.new ++ end_array ∷ [] ≡ objects.old ++ items_tokens (rest_not_shown is_whole)) }
{
    if is_whole {
        return Ok(());
    }
    write_message(
        objects,
        Severity::Information,
        "the run prints more than 4,194,304 bytes: later answers are not shown",
    )
}

/// Writes the diagnostics of a document, as a member.
pub fn write_notes(
    objects: &mut Objects,
    document: &Document,
    notes: &[Note],
) -> Result<(), AllocError>
    ensures { OnOk result
        (AddsTokens objects.old objects.new (key (codes "diagnostics") ∷ json_tokens (array (notes_items document.now notes.now)))) }
{
    let mut places = DocumentPlaces::new(document.text());
    objects.list("diagnostics")?;
    write_each_note(objects, &mut places, notes)?;
    write_rest(objects, document.is_whole())?;
    objects.end_list()
}

/// Writes that there are no diagnostics, as a member.
pub fn write_no_notes(objects: &mut Objects) -> Result<(), AllocError>
    ensures { OnOk result (AddsTokens objects.old objects.new
        (key (codes "diagnostics") ∷ json_tokens (array no_items))) }
{
    objects.list("diagnostics")?;
    objects.end_list()
}

/// Writes the diagnostics of a document that is not analysed, as a member.
pub fn write_unanswered(objects: &mut Objects, why: Unanswered) -> Result<(), AllocError>
    ensures { OnOk result
        (AddsTokens objects.old objects.new (key (codes "diagnostics") ∷ json_tokens (array (unanswered_items why)))) }
{
    objects.list("diagnostics")?;
    write_message(objects, Severity::Warning, why.text())?;
    objects.end_list()
}

// Writes a hint.
fn write_hint(
    objects: &mut Objects,
    places: &mut DocumentPlaces<'_>,
    hint: &InlayHint,
) -> Result<(), AllocError>
    ensures text { places.new ≡ places.old }
    ensures tokens { OnOk result
        (AddsTokens objects.old objects.new (json_tokens (hint_value places.old hint.now))) }
{
    objects.begin()?;
    places.write_place(objects, "position", hint.place)?;
    objects.text("label", shown(&hint.label))?;
    objects.boolean("paddingLeft", true)?;
    objects.end()
}

// Writes each of some hints.
fn write_each_hint(
    objects: &mut Objects,
    places: &mut DocumentPlaces<'_>,
    hints: &[InlayHint],
) -> Result<(), AllocError>
    ensures { OnOk result
        (AddsTokens objects.old objects.new (each (hint_value places.old) hints.now)) }
{
    for hint in hints {
        write_hint(objects, places, hint)?;
    }
    Ok(())
}

/// Writes hints.
pub fn write_hints(
    objects: &mut Objects,
    document: &Document,
    hints: &[InlayHint],
) -> Result<(), AllocError>
    ensures { OnOk result (AddsTokens objects.old objects.new (json_tokens (list_of (hint_value document.now.text) hints.now))) }
{
    let mut places = DocumentPlaces::new(document.text());
    objects.begin_list()?;
    write_each_hint(objects, &mut places, hints)?;
    objects.end_list()
}

// Writes a text in Markdown.
fn write_markdown(objects: &mut Objects, text: &str) -> Result<(), AllocError>
    ensures { OnOk result
        (AddsTokens objects.old objects.new (key (codes "contents") ∷ json_tokens (markdown_value text.now))) }
{
    objects.object("contents")?;
    objects.text("kind", "markdown")?;
    objects.text("value", text)?;
    objects.end()
}

/// Writes what is shown at a place.
pub fn write_hover(
    objects: &mut Objects,
    document: &Document,
    hover: &Hover,
) -> Result<(), AllocError>
    ensures { OnOk result
        (AddsTokens objects.old objects.new (json_tokens (hover_value document.now.text hover.now))) }
{
    let mut places = DocumentPlaces::new(document.text());
    objects.begin()?;
    write_markdown(objects, hover.text())?;
    places.write_range(objects, "range", hover.span())?;
    objects.end()
}

// Returns the number of a kind of proposals.
fn kind_of(kind: ProposalKind) -> usize
    ensures { result ≡ kind_number kind }
{
    match kind {
        ProposalKind::Operation => 3,
        ProposalKind::Form => 20,
        ProposalKind::Keyword => 5,
        ProposalKind::Value => 12,
        ProposalKind::Name => 6,
    }
}

// Writes a change: the text that replaces the bytes of a span.
fn write_edit(
    objects: &mut Objects,
    places: &mut DocumentPlaces<'_>,
    span: Span,
    text: &str,
) -> Result<(), AllocError>
    ensures text { places.new ≡ places.old }
    ensures tokens { OnOk result
        (AddsTokens objects.old objects.new (json_tokens (edit_value places.old span text.now))) }
{
    objects.begin()?;
    places.write_range(objects, "range", span)?;
    objects.text("newText", text)?;
    objects.end()
}

// Writes a word that can replace some bytes.
fn write_proposal(
    objects: &mut Objects,
    places: &mut DocumentPlaces<'_>,
    span: Span,
    proposal: &Proposal,
) -> Result<(), AllocError>
    ensures text { places.new ≡ places.old }
    ensures tokens { OnOk result
        (AddsTokens objects.old objects.new (json_tokens (proposal_value places.old span proposal.now))) }
{
    objects.begin()?;
    objects.text("label", proposal.text())?;
    objects.number("kind", kind_of(proposal.kind()))?;
    objects.text("detail", proposal.detail())?;
    objects.key("textEdit")?;
    write_edit(objects, places, span, proposal.text())?;
    objects.end()
}

// Writes some words that can each replace the same bytes.
fn write_each_proposal(
    objects: &mut Objects,
    places: &mut DocumentPlaces<'_>,
    span: Span,
    proposals: &[Proposal],
) -> Result<(), AllocError>
    ensures { OnOk result
        (AddsTokens objects.old objects.new (each (proposal_value places.old span) proposals.now)) }
{
    for proposal in proposals {
        write_proposal(objects, places, span, proposal)?;
    }
    Ok(())
}

/// Writes what may be written at a place.
pub fn write_completion(
    objects: &mut Objects,
    document: &Document,
    completion: &Completion,
) -> Result<(), AllocError>
    ensures { OnOk result
        (AddsTokens objects.old objects.new (json_tokens (completion_value document.now.text completion.now))) }
{
    let mut places = DocumentPlaces::new(document.text());
    objects.begin_list()?;
    write_each_proposal(
        objects,
        &mut places,
        completion.span(),
        completion.proposals(),
    )?;
    objects.end_list()
}

// Writes the place of a name.
fn write_location(
    objects: &mut Objects,
    places: &mut DocumentPlaces<'_>,
    uri: &str,
    span: Span,
) -> Result<(), AllocError>
    ensures text { places.new ≡ places.old }
    ensures tokens { OnOk result
        (AddsTokens objects.old objects.new (json_tokens (location_value places.old uri.now span))) }
{
    objects.begin()?;
    objects.text("uri", uri)?;
    places.write_range(objects, "range", span)?;
    objects.end()
}

// Writes each of some places of names.
fn write_each_location(
    objects: &mut Objects,
    places: &mut DocumentPlaces<'_>,
    uri: &str,
    spans: &[Span],
) -> Result<(), AllocError>
    ensures { OnOk result
        (AddsTokens objects.old objects.new (each (location_value places.old uri.now) spans.now)) }
{
    for span in spans {
        write_location(objects, places, uri, *span)?;
    }
    Ok(())
}

/// Writes the places of names.
pub fn write_locations(
    objects: &mut Objects,
    document: &Document,
    uri: &str,
    spans: &[Span],
) -> Result<(), AllocError>
    ensures { OnOk result (AddsTokens objects.old objects.new (json_tokens (list_of (location_value document.now.text uri.now) spans.now))) }
{
    let mut places = DocumentPlaces::new(document.text());
    objects.begin_list()?;
    write_each_location(objects, &mut places, uri, spans)?;
    objects.end_list()
}

// Returns the word for a symbol.
fn symbol_word(is_step: bool) -> &'static str
    ensures { result.now ≡ symbol_word is_step }
{
    if is_step { "step" } else { "task" }
}

// Returns the number of a kind of symbols.
fn symbol_number(is_step: bool) -> usize
    ensures { result ≡ symbol_number is_step }
{
    if is_step { 2 } else { 12 }
}

// Writes the members of a symbol, and opens its list of symbols.
fn begin_symbol(
    objects: &mut Objects,
    places: &mut DocumentPlaces<'_>,
    symbol: &DocumentSymbol,
) -> Result<(), AllocError>
    ensures text { places.new ≡ places.old }
    ensures tokens { OnOk result (AddsTokens objects.old objects.new (symbol_head places.old symbol.now)) }
{
    objects.begin()?;
    let is_step = symbol.is_step();
    objects.text("name", shown(symbol.name()))?;
    objects.text("detail", symbol_word(is_step))?;
    objects.number("kind", symbol_number(is_step))?;
    places.write_far(objects, "range", symbol.whole())?;
    places.write_range(objects, "selectionRange", symbol.span())?;
    objects.list("children")
}

// Closes a symbol, if it is open.
fn end_symbol(objects: &mut Objects, is_open: bool) -> Result<(), AllocError>
    ensures { OnOk result (AddsTokens objects.old objects.new (symbol_end is_open)) }
{
    if !is_open {
        return Ok(());
    }
    objects.end_list()?;
    objects.end()
}

// Returns whether a symbol ends the step before it, which is open or not.
fn ends_step(symbol: &DocumentSymbol, is_open: bool) -> bool
    ensures { result ≡ symbol.now.is_step && is_open }
{
    symbol.is_step() && is_open
}

// Writes a symbol. A step stays open; it closes the step before it.
fn write_symbol(
    objects: &mut Objects,
    places: &mut DocumentPlaces<'_>,
    symbol: &DocumentSymbol,
    is_open: bool,
) -> Result<(), AllocError>
    ensures text { places.new ≡ places.old }
    ensures tokens { OnOk result
        (AddsTokens objects.old objects.new (symbol_tokens is_open places.old symbol.now)) }
{
    end_symbol(objects, ends_step(symbol, is_open))?;
    begin_symbol(objects, places, symbol)?;
    end_symbol(objects, !symbol.is_step())
}

// Writes the steps, and in each its tasks.
fn write_each_symbol(
    objects: &mut Objects,
    places: &mut DocumentPlaces<'_>,
    symbols: &[DocumentSymbol],
) -> Result<(), AllocError>
    ensures { OnOk result
        (AddsTokens objects.old objects.new (symbols_from places.old false symbols.now)) }
{
    let mut is_open = false;
    for symbol in symbols {
        write_symbol(objects, places, symbol, is_open)?;
        is_open = is_open || symbol.is_step();
    }
    end_symbol(objects, is_open)
}

/// Writes the steps, and in each its tasks.
pub fn write_symbols(
    objects: &mut Objects,
    document: &Document,
    symbols: &[DocumentSymbol],
) -> Result<(), AllocError>
    ensures { OnOk result (AddsTokens objects.old objects.new (json_tokens (symbols_value document.now.text symbols.now))) }
{
    let mut places = DocumentPlaces::new(document.text());
    objects.begin_list()?;
    write_each_symbol(objects, &mut places, symbols)?;
    objects.end_list()
}

// Writes the changes that an action makes.
fn write_changes(
    objects: &mut Objects,
    places: &mut DocumentPlaces<'_>,
    uri: &str,
    action: &Action,
) -> Result<(), AllocError>
    ensures text { places.new ≡ places.old }
    ensures tokens { OnOk result (AddsTokens objects.old objects.new (key (codes "edit") ∷ json_tokens (changes_value places.old uri.now action.now))) }
{
    objects.object("edit")?;
    objects.object("changes")?;
    objects.list(uri)?;
    write_edit(objects, places, action.span(), action.new_text())?;
    objects.end_list()?;
    objects.end()?;
    objects.end()
}

// Returns the kind of an action.
fn action_kind(is_fix: bool) -> &'static str
    ensures { result.now ≡ action_kind is_fix }
{
    if is_fix {
        "quickfix"
    } else {
        "refactor.rewrite"
    }
}

// Writes an action.
fn write_action(
    objects: &mut Objects,
    places: &mut DocumentPlaces<'_>,
    uri: &str,
    action: &Action,
) -> Result<(), AllocError>
    ensures text { places.new ≡ places.old }
    ensures tokens { OnOk result
        (AddsTokens objects.old objects.new (json_tokens (action_value places.old uri.now action.now))) }
{
    objects.begin()?;
    objects.text("title", action.title())?;
    objects.text("kind", action_kind(action.is_fix()))?;
    write_changes(objects, places, uri, action)?;
    objects.end()
}

// Writes each of some actions.
fn write_each_action(
    objects: &mut Objects,
    places: &mut DocumentPlaces<'_>,
    uri: &str,
    actions: &[Action],
) -> Result<(), AllocError>
    ensures { OnOk result
        (AddsTokens objects.old objects.new (each (action_value places.old uri.now) actions.now)) }
{
    for action in actions {
        write_action(objects, places, uri, action)?;
    }
    Ok(())
}

/// Writes actions.
pub fn write_actions(
    objects: &mut Objects,
    document: &Document,
    uri: &str,
    actions: &[Action],
) -> Result<(), AllocError>
    ensures { OnOk result (AddsTokens objects.old objects.new (json_tokens (list_of (action_value document.now.text uri.now) actions.now))) }
{
    let mut places = DocumentPlaces::new(document.text());
    objects.begin_list()?;
    write_each_action(objects, &mut places, uri, actions)?;
    objects.end_list()
}
