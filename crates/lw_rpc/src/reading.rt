// A body as a message: its bytes, its text, its JSON value, the kind that the value has by JSON-RPC.
ghost use Rattle.std.specs.Prelude.{◌≡◌, codes, Some, None, IfOk, option_map, option_and_then};
ghost use Rattle.serde_json.specs.Data.{object};
ghost use Rattle.serde_json.specs.Find.{get, as_str};
ghost use Rattle.serde_json.specs.Read.{read};
ghost use Rattle.serde_json.specs.View.{view, members_view};
ghost use Rattle.lw_rpc.specs.Calls as call;
ghost use Rattle.lw_rpc.specs.Causes.{IsMessage};
ghost use Rattle.lw_rpc.specs.Messages.{call_message, message_of, read_value_message, value_message};
ghost use Rattle.lw_rpc.specs.declared.message.Message.{Message};

use crate::members::{taken_text, taken_value};
use crate::methods::{notification, request};
use crate::{Id, Message};
use lw_base::NoMemory;
use serde_json::{Map, Value};
use std::alloc::Global;

/// The message that a body is (JSON-RPC 2.0; Language Server Protocol 3.17).
///
/// Every body is some message; a faulty one is [`Message::BadJson`], [`Message::BadRequest`],
/// [`Message::Unknown`] or [`Message::BadParams`], in this order where several would do. The message has
/// texts of its own: each is made once, out of the body, and then taken over. Memory is taken in proportion
/// to the body, and time too, but for keeping the keys of each object in order.
pub fn read_message(alloc: Global, body: &[u8]) -> Result<Message, NoMemory>
    ensures message { IfOk result (λ message. message ≡ message_of body.now) }
    ensures rule { IfOk result (λ message. IsMessage body.now message) }
    ensures only { (other : Message) → IsMessage body.now other → IfOk result (λ message. message ≡ other) }
{
    match str::from_utf8(body) {
        Ok(text) => text_message(alloc, text),
        Err(_) => Ok(Message::BadJson),
    }
}

fn text_message(alloc: Global, text: &str) -> Result<Message, NoMemory>
    ensures { IfOk result (λ message. message ≡ read_value_message (read text.now)) }
{
    match Value::from_str(alloc, text) {
        Ok(value) => json_message(alloc, value),
        Err(fault) => {
            if fault.is_memory() {
                return Err(NoMemory);
            }
            Ok(Message::BadJson)
        }
    }
}

fn json_message(alloc: Global, value: Value) -> Result<Message, NoMemory>
    ensures { IfOk result (λ message. message ≡ value_message (view value)) }
{
    match value {
        Value::Object(members) => object_message(alloc, members),
        // A value that is no object has no members.
        _ => Ok(Message::BadRequest),
    }
}

fn object_message(alloc: Global, mut members: Map<String, Value>) -> Result<Message, NoMemory>
    ensures { IfOk result (λ message. message ≡ value_message (object (members_view members.entries))) }
{
    let version = taken_value(&mut members, "jsonrpc");
    let id = taken_value(&mut members, "id");
    let params = taken_value(&mut members, "params");
    match taken_value(&mut members, "method") {
        Some(method) => with_method(alloc, version, id, method, params),
        None => Ok(without_method(version, id)),
    }
}

fn without_method(version: Option<Value>, id: Option<Value>) -> Message
    ensures { result ≡ call_message (call.without_method (option_map view version) (option_map view id)) None }
{
    if version.is_some() && id.is_some() {
        Message::Response
    } else {
        Message::BadRequest
    }
}

fn with_method(
    alloc: Global,
    version: Option<Value>,
    id: Option<Value>,
    method: Value,
    params: Option<Value>,
) -> Result<Message, NoMemory>
    ensures { IfOk result (λ message. message ≡ call_message (call.call_from (option_map view version) (option_map view id) (Some (view method))) (option_map view params)) }
{
    let Some(method) = taken_text(method) else {
        return Ok(Message::BadRequest);
    };
    if !is_version(version) {
        return Ok(Message::BadRequest);
    }
    let Some(id) = id else {
        return notification(alloc, method, params);
    };
    match read_id(id) {
        Some(id) => Ok(request(id, method, params)),
        None => Ok(Message::BadRequest),
    }
}

/// Whether it says that this is a message of JSON-RPC 2.0.
fn is_version(version: Option<Value>) -> bool
    ensures { result ≡ call.is_version (option_and_then as_str (option_map view version)) }
{
    match version.and_then(taken_text) {
        Some(version) => version.text() == "2.0",
        None => false,
    }
}

/// The id that the value is, if it is a text or a whole number from -2^63 to 2^63-1.
fn read_id(value: Value) -> Option<Id>
    ensures { result ≡ call.id_of (view value) }
{
    if let Some(number) = value.as_i64() {
        return Some(Id::Whole(number));
    }
    taken_text(value).map(Id::Words)
}
