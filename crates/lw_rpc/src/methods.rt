// The methods: one case for each, in the order of `specs/Messages.antt`.
ghost use Rattle.std.specs.Prelude.{◌≡◌, None, IfOk, option_map, unwrap_or};
ghost use Rattle.serde_json.specs.View.{view};
ghost use Rattle.lw_rpc.specs.Messages.{request_message, notification_message};

use crate::asked::{completion, definition, references, rename};
use crate::params::{did_change, did_change_watched_files, did_close, did_open};
use crate::{Id, Message};
use lw_base::{Name, NoMemory};
use serde_json::Value;
use std::alloc::Global;

/// The message of a request.
pub fn request(id: Id, method: Name, params: Option<Value>) -> Message
    ensures { result ≡ request_message id method (option_map view params) }
{
    match method.text() {
        "initialize" => Message::Initialize { id },
        "shutdown" => Message::Shutdown { id },
        "textDocument/definition" => definition(id, method, params),
        "textDocument/references" => references(id, method, params),
        "textDocument/rename" => rename(id, method, params),
        "textDocument/completion" => completion(id, method, params),
        _ => Message::Unknown {
            id: Some(id),
            method,
        },
    }
}

/// The message of a notification.
pub fn notification(alloc: Global, method: Name, params: Option<Value>) -> Result<Message, NoMemory>
    ensures { IfOk result (λ message. message ≡ notification_message method (option_map view params)) }
{
    match method.text() {
        "exit" => Ok(Message::Exit),
        "textDocument/didOpen" => Ok(or_bad_params(did_open(params), method)),
        "textDocument/didChange" => Ok(or_bad_params(did_change(alloc, params)?, method)),
        "textDocument/didClose" => Ok(or_bad_params(did_close(params), method)),
        "workspace/didChangeWatchedFiles" => {
            Ok(or_bad_params(did_change_watched_files(alloc, params)?, method))
        }
        _ => Ok(Message::Unknown { id: None, method }),
    }
}

/// What a notification says, where its parameters are of the shape that its method asks for.
fn or_bad_params(message: Option<Message>, method: Name) -> Message
    ensures { result ≡ unwrap_or message (Message.BadParams None method) }
{
    message.unwrap_or(Message::BadParams { id: None, method })
}
