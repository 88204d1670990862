// What an editor says of its documents.
use lw_base::{Items, Name};
use lw_rpc::Id;
use lw_text::{Change, Pos};

/// The address and the version of a document (Language Server Protocol 3.17,
/// "VersionedTextDocumentIdentifier").
#[derive(Drop)]
pub(crate) struct Identifier {
    pub address: Name,
    pub version: i64,
}

/// What an editor says of a document that it opens.
#[derive(Drop)]
pub(crate) struct Opened {
    pub id: Identifier,
    pub text: Name,
}

/// What an editor says of a document that it changes.
#[derive(Drop)]
pub(crate) struct Edited {
    pub id: Identifier,
    pub changes: Items<Change>,
}

/// What an editor asks about a place of a document.
#[derive(Drop)]
pub(crate) struct Asked {
    pub id: Id,
    pub address: Name,
    pub at: Pos,
    pub question: Question,
}

/// What is asked.
#[derive(Drop)]
pub(crate) enum Question {
    /// Where the name stands of what is meant.
    Definition,
    /// Where it is mentioned, with its own name or without.
    References(bool),
    /// Which edits give it this name.
    Rename(Name),
    /// What may be written there.
    Completion,
}
