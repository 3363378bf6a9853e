//! The documents that are open.

ghost use Rattle.std.specs.Prelude.{◌≡◌, ◌⊎◌, ◌+◌, ◌<◌, ◌≤◌, [], IfErr, IfOk, IfSome, false, length, option_map, true};
ghost use Rattle.language_server.specs.Documents.{IsAnalysed};
ghost use Rattle.mvsjob_lsp.specs.Answering.{HasSet, IsReason, why_of};
ghost use Rattle.mvsjob_lsp.specs.Sessions.{bytes_open, document_of, others_than};
ghost use Rattle.mvsjob_lsp.specs.Values.{why_text};

use language_server::{Document, DocumentError, MOST_DOCUMENT};
use std::alloc::Global;
use std::marker::Model;

/// The most documents that are open.
const MOST_OPEN: usize = 100;

/// The most bytes of all documents.
const MOST_TEXT: usize = 8 * MOST_DOCUMENT;

/// Why there are no answers for a document.
#[derive(Clone, Copy, Debug, PartialEq, Eq)]
pub enum Unanswered {
    TooLong,
    TooMany,
    Memory,
}

impl Unanswered {
    /// Returns the message of a diagnostic.
    pub fn text(self) -> &'static str
        ensures { result.now ≡ why_text self }
    {
        match self {
            Unanswered::TooLong => "the document has more than 1,048,576 bytes: it is not analysed",
            Unanswered::TooMany => {
                "100 documents are open, or 8,388,608 bytes: this one is not analysed"
            }
            Unanswered::Memory => "out of memory: the document is not analysed",
        }
    }
}

impl From<DocumentError> for Unanswered {
    ghost from_gives = { λ error why. why ≡ why_of error };

    fn from(error: DocumentError) -> Unanswered {
        match error {
            DocumentError::TooLong => Unanswered::TooLong,
            DocumentError::Memory => Unanswered::Memory,
        }
    }
}

/// An open document.
#[derive(Drop)]
pub struct OpenDocument {
    uri: String,
    document: Document,
}

impl Model for OpenDocument {
    ghost use Rattle.std.specs.Prelude.{string_bytes};
    ghost use Rattle.mvsjob_lsp.specs.Sessions.{OpenValue};

    ghost Value = { OpenValue };

    ghost view = { λ o. record { uri = string_bytes o.uri; document = o.document } };
}

impl OpenDocument {
    // Returns its name.
    fn uri(&self) -> &str
        ensures { result.now ≡ self.now.uri }
    {
        &self.uri
    }

    // Returns the document.
    fn document(&self) -> &Document
        ensures { result.now ≡ self.now.document }
    {
        &self.document
    }

    // Returns the number of the bytes of its text.
    fn len(&self) -> usize
        ensures { result ≡ length self.now.document.text }
    {
        self.document.text().len()
    }
}

/// The documents that are open: at most 100, with 8,388,608 bytes.
#[derive(Drop)]
pub struct EditorSession {
    alloc: Global,
    documents: Vec<OpenDocument>,
}

impl Model for EditorSession {
    ghost use Rattle.mvsjob_lsp.specs.Sessions.{IsSession, SessionValue};

    ghost Value = { SessionValue };

    ghost view = { λ s. record { documents = s.documents.items } };

    ghost invariant = { λ s. IsSession s.documents.items };
}

impl EditorSession {
    /// Makes one without documents.
    pub fn new(alloc: Global) -> EditorSession
        ensures { result.documents ≡ [] }
    {
        EditorSession {
            alloc,
            documents: Vec::new(alloc),
        }
    }

    /// Returns its allocator.
    pub fn alloc(&self) -> Global {
        self.alloc
    }

    /// Returns the document of a name, which is analysed.
    pub fn document(&self, uri: &str) -> Option<&Document>
        ensures found { option_map (λ d. d.now) result ≡ document_of uri.now self.now.documents }
        ensures analysed { IfSome result (λ d. IsAnalysed d.now.text d.now) }
    {
        for entry in &self.documents {
            if entry.uri() == uri {
                return Some(entry.document());
            }
        }
        None
    }

    /// Closes the document of a name.
    pub fn close(&mut self, uri: &str)
        ensures { self.new.documents ≡ others_than uri.now self.old.documents }
    {
        self.documents.retain(|entry| entry.uri() != uri);
    }

    // Returns the number of the bytes of all texts.
    fn bytes(&self) -> usize
        ensures { result ≡ bytes_open self.now.documents }
    {
        self.documents.iter().map(|entry| entry.len()).sum()
    }

    // Returns whether a document of a number of bytes can be opened too.
    fn has_room(&self, len: usize) -> bool
        ensures count { result ≡ true → length self.now.documents < 100 }
        ensures bytes { result ≡ true → len + bytes_open self.now.documents ≤ 8388608 }
        ensures full { result ≡ false
            → (100 ≤ length self.now.documents)
            ⊎ (8388608 < len + bytes_open self.now.documents) }
    {
        len <= MOST_TEXT && self.bytes() <= MOST_TEXT - len && self.documents.len() < MOST_OPEN
    }

    // Analyses a text, if there is room for it too.
    fn analysed(&self, text: &[u8]) -> Result<Document, Unanswered>
        ensures analysed { IfOk result (λ document. IsAnalysed text.now document) }
        ensures count { IfOk result (λ _. length self.now.documents < 100) }
        ensures bytes { IfOk result
            (λ _. length text.now + bytes_open self.now.documents ≤ 8388608) }
        ensures short { IfOk result (λ _. length text.now ≤ 1048576) }
        ensures reason { IfErr result (λ why. IsReason self.now.documents text.now why) }
    {
        if !self.has_room(text.len()) {
            return Err(Unanswered::TooMany);
        }
        if text.len() > MOST_DOCUMENT {
            return Err(Unanswered::TooLong);
        }
        let text = Vec::from_slice(self.alloc, text).map_err(|_| Unanswered::Memory)?;
        Ok(Document::new(self.alloc, text)?)
    }

    /// Opens a document with a text, or gives an open one another text.
    pub fn set(&mut self, uri: &str, text: &[u8]) -> Result<(), Unanswered>
        ensures { HasSet self.old uri.now text.now self.new result }
    {
        self.close(uri);
        let document = self.analysed(text)?;
        let uri = String::from_str(self.alloc, uri).map_err(|_| Unanswered::Memory)?;
        self.documents
            .push(OpenDocument { uri, document })
            .map_err(|_| Unanswered::Memory)?;
        Ok(())
    }
}
