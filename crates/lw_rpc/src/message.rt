// What a body says.
use crate::FileChange;
use lw_base::{Items, Name};
use lw_text::{Change, Pos};

/// The id of a request (JSON-RPC 2.0, "Request object").
#[derive(Debug, PartialEq, Eq, Drop)]
pub enum Id {
    /// A whole number from -2^63 to 2^63-1.
    Whole(i64),
    /// A text.
    Words(Name),
}

/// What a message body says.
#[derive(Debug, Drop)]
pub enum Message {
    /// It has no JSON reading.
    BadJson,
    /// It is no request, notification or response of JSON-RPC 2.0.
    BadRequest,
    /// A response. Nothing is asked of an editor, so there is nothing in it to look at.
    Response,
    /// A request (with an id) or a notification whose method is not known.
    Unknown {
        id: Option<Id>,
        method: Name,
    },
    /// A request (with an id) or a notification whose method is known, and whose parameters are not of the
    /// shape that the method asks for.
    BadParams {
        id: Option<Id>,
        method: Name,
    },
    /// The request `initialize`.
    Initialize {
        id: Id,
    },
    /// The request `shutdown`.
    Shutdown {
        id: Id,
    },
    /// The request `textDocument/definition`: the document's address, and the place in it that is asked
    /// about, whose line and character are counted from zero, the character in UTF-16 units.
    Definition {
        id: Id,
        uri: Name,
        position: Pos,
    },
    /// The request `textDocument/references`: the document's address, the place in it that is asked about,
    /// and whether the declaration is to be among what is found.
    References {
        id: Id,
        uri: Name,
        position: Pos,
        include_declaration: bool,
    },
    /// The request `textDocument/rename`: the document's address, the place in it whose name is to be
    /// another, and that name.
    Rename {
        id: Id,
        uri: Name,
        position: Pos,
        new_name: Name,
    },
    /// The request `textDocument/completion` (Language Server Protocol 3.17, "Completion Request"): the
    /// document's address, and the place in it at which it is asked what may be put in, whose line and
    /// character are counted from zero, the character in UTF-16 units.
    Completion {
        id: Id,
        uri: Name,
        position: Pos,
    },
    /// The notification `exit`.
    Exit,
    /// The notification `textDocument/didOpen`: the document's address, its version and its text.
    DidOpen {
        uri: Name,
        version: i64,
        text: Name,
    },
    /// The notification `textDocument/didChange`: the document's address, the version that it has behind the
    /// changes, and the changes in their order, of which there may be none.
    DidChange {
        uri: Name,
        version: i64,
        changes: Items<Change>,
    },
    /// The notification `textDocument/didClose`: the document's address.
    DidClose {
        uri: Name,
    },
    /// The notification `workspace/didChangeWatchedFiles`: what was done to files that the editor watches, in
    /// the order in which it is told, of which there may be nothing.
    DidChangeWatchedFiles {
        changes: Items<FileChange>,
    },
}
