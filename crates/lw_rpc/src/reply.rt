// What is answered.
use crate::Id;
use lw_base::{Items, Name};
use lw_text::{Pos, Shown};

/// A part of a document: its address, where the part starts, and the place behind its end (Language Server
/// Protocol 3.17, "Location"). Lines and characters are counted from zero, characters in UTF-16 units.
#[derive(Debug, PartialEq, Eq, Drop)]
pub struct Location {
    pub uri: Name,
    pub start: Pos,
    pub end: Pos,
}

/// A change that is asked of an editor: its text, in place of what stands from the start up to the end
/// (Language Server Protocol 3.17, "TextEdit"). Lines and characters are counted from zero, characters in
/// UTF-16 units.
#[derive(Debug, PartialEq, Eq, Drop)]
pub struct TextEdit {
    pub start: Pos,
    pub end: Pos,
    pub text: Name,
}

/// The changes of one document, by its address (Language Server Protocol 3.17, "WorkspaceEdit"). All of them
/// speak of the text that the document has before the first of them.
#[derive(Debug, Drop)]
pub struct FileEdits {
    pub uri: Name,
    pub edits: Items<TextEdit>,
}

/// A text that may be put in at a place (Language Server Protocol 3.17, "CompletionItem"): the label, which is
/// what an editor shows and what it puts in; the kind, as the protocol numbers kinds ("CompletionItemKind");
/// and the part of the document whose place it takes, from the start up to the end. Lines and characters are
/// counted from zero, characters in UTF-16 units.
#[derive(Debug, PartialEq, Eq, Drop)]
pub struct CompletionItem {
    pub label: Name,
    pub kind: u8,
    pub start: Pos,
    pub end: Pos,
}

/// The result of a request.
#[derive(Debug, Drop)]
pub enum Outcome {
    /// `null`.
    Nothing,
    /// What the server can do, as `initialize` is answered.
    Hello,
    /// One place, as `textDocument/definition` is answered.
    Spot(Location),
    /// Places, of which there may be none, as `textDocument/references` is answered.
    Spots(Items<Location>),
    /// What is to be changed, document by document, as `textDocument/rename` is answered. The addresses are
    /// in byte order, each once.
    Edits(Items<FileEdits>),
    /// What may be put in, of which there may be nothing, as `textDocument/completion` is answered (Language
    /// Server Protocol 3.17, "Completion Request").
    Offers(Items<CompletionItem>),
}

/// A message to the editor.
#[derive(Debug, Drop)]
pub enum Reply {
    /// The result of the request with this id.
    Done(Id, Outcome),
    /// A request was refused: its id where it is known, the code and the message.
    Error(Option<Id>, i32, Name),
    /// The diagnostics of the document at this address, and its version where it has one.
    Publish(Name, Option<i64>, Items<Shown>),
    /// A line for the editor's log.
    Log(Name),
}
