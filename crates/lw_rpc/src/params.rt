// Parameters, by the shape that each method asks for.
ghost use Rattle.std.specs.Prelude.{◌≡◌, Some, IfOk, option_map};
ghost use Rattle.serde_json.specs.Data.{object};
ghost use Rattle.serde_json.specs.View.{view, members_view};
ghost use Rattle.lw_rpc.specs.Params as shape;

use crate::Message;
use crate::listed::taken_list;
use crate::members::{member_at, taken_text, taken_value};
use lw_base::{Items, NoMemory};
use lw_text::Change;
use serde_json::{Map, Value};
use std::alloc::Global;

/// What `textDocument/didOpen` says, or None where its parameters are not of its shape.
pub fn did_open(params: Option<Value>) -> Option<Message>
    ensures { result ≡ shape.did_open (option_map view params) }
{
    match member_at(params, "textDocument")? {
        Value::Object(document) => opened(document),
        _ => None,
    }
}

/// The document of these members is opened.
fn opened(mut document: Map<String, Value>) -> Option<Message>
    ensures { result ≡ shape.opened_document (Some (object (members_view document.entries))) }
{
    let uri = taken_text(taken_value(&mut document, "uri")?)?;
    let version = taken_value(&mut document, "version")?.as_i64()?;
    let text = taken_text(taken_value(&mut document, "text")?)?;
    Some(Message::DidOpen { uri, version, text })
}

/// What `textDocument/didChange` says, or None where its parameters are not of its shape.
pub fn did_change(alloc: Global, params: Option<Value>) -> Result<Option<Message>, NoMemory>
    ensures { IfOk result (λ message. message ≡ shape.did_change (option_map view params)) }
{
    match params {
        Some(params) => edited(alloc, params),
        None => Ok(None),
    }
}

/// The document that the parameters speak of is changed as they say.
fn edited(alloc: Global, params: Value) -> Result<Option<Message>, NoMemory>
    ensures { IfOk result (λ message. message ≡ shape.did_change (Some (view params))) }
{
    let Value::Object(mut members) = params else {
        return Ok(None);
    };
    let document = taken_value(&mut members, "textDocument");
    let changes = taken_value(&mut members, "contentChanges");
    match taken_list(alloc, changes)? {
        Some(changes) => Ok(edited_document(document, changes)),
        None => Ok(None),
    }
}

/// The document that the value names is changed so.
fn edited_document(document: Option<Value>, changes: Items<Change>) -> Option<Message>
    ensures { result ≡ shape.document_edit (option_map view document) (Some changes) }
{
    match document? {
        Value::Object(identifier) => edited_by(identifier, changes),
        _ => None,
    }
}

/// The document of these members is changed so.
fn edited_by(mut identifier: Map<String, Value>, changes: Items<Change>) -> Option<Message>
    ensures { result ≡ shape.document_edit (Some (object (members_view identifier.entries))) (Some changes) }
{
    let uri = taken_text(taken_value(&mut identifier, "uri")?)?;
    let version = taken_value(&mut identifier, "version")?.as_i64()?;
    Some(Message::DidChange {
        uri,
        version,
        changes,
    })
}

/// What `textDocument/didClose` says, or None where its parameters are not of its shape.
pub fn did_close(params: Option<Value>) -> Option<Message>
    ensures { result ≡ shape.did_close (option_map view params) }
{
    let document = member_at(params, "textDocument");
    let uri = taken_text(member_at(document, "uri")?)?;
    Some(Message::DidClose { uri })
}

/// What `workspace/didChangeWatchedFiles` says, or None where its parameters are not of its shape.
pub fn did_change_watched_files(
    alloc: Global,
    params: Option<Value>,
) -> Result<Option<Message>, NoMemory>
    ensures { IfOk result (λ message. message ≡ shape.did_change_watched_files (option_map view params)) }
{
    match taken_list(alloc, member_at(params, "changes"))? {
        Some(changes) => Ok(Some(Message::DidChangeWatchedFiles { changes })),
        None => Ok(None),
    }
}
