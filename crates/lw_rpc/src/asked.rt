// What requests ask about a place in a document, by the shape that each method asks of its parameters.
ghost use Rattle.std.specs.Prelude.{◌≡◌, Some, option_map, unwrap_or};
ghost use Rattle.serde_json.specs.Data.{object};
ghost use Rattle.serde_json.specs.View.{view, members_view};
ghost use Rattle.lw_rpc.specs.Params as shape;
ghost use Rattle.lw_rpc.specs.declared.message.Message.TheVariants.{BadParams};

use crate::changes::position;
use crate::members::{member_at, taken_text, taken_value};
use crate::{Id, Message};
use lw_base::Name;
use lw_text::Pos;
use serde_json::{Map, Value};

/// The message of a request `textDocument/definition`.
pub fn definition(id: Id, method: Name, params: Option<Value>) -> Message
    ensures { result ≡ unwrap_or (shape.definition_asked id (option_map view params)) (BadParams (Some id) method) }
{
    match point(params) {
        Some((uri, position)) => Message::Definition { id, uri, position },
        None => bad_params(id, method),
    }
}

/// The message of a request `textDocument/references`.
pub fn references(id: Id, method: Name, params: Option<Value>) -> Message
    ensures { result ≡ unwrap_or (shape.references_asked id (option_map view params)) (BadParams (Some id) method) }
{
    match point_and_flag(params) {
        Some((uri, position, include_declaration)) => Message::References {
            id,
            uri,
            position,
            include_declaration,
        },
        None => bad_params(id, method),
    }
}

/// The message of a request `textDocument/rename`.
pub fn rename(id: Id, method: Name, params: Option<Value>) -> Message
    ensures { result ≡ unwrap_or (shape.rename_asked id (option_map view params)) (BadParams (Some id) method) }
{
    match point_and_name(params) {
        Some((uri, position, new_name)) => Message::Rename {
            id,
            uri,
            position,
            new_name,
        },
        None => bad_params(id, method),
    }
}

/// The message of a request `textDocument/completion`.
pub fn completion(id: Id, method: Name, params: Option<Value>) -> Message
    ensures { result ≡ unwrap_or (shape.completion_asked id (option_map view params)) (BadParams (Some id) method) }
{
    match point(params) {
        Some((uri, position)) => Message::Completion { id, uri, position },
        None => bad_params(id, method),
    }
}

/// The parameters of a request are not of the shape that its method asks for.
fn bad_params(id: Id, method: Name) -> Message
    ensures { result ≡ BadParams (Some id) method }
{
    Message::BadParams {
        id: Some(id),
        method,
    }
}

/// The place that the parameters name, and whether the declaration is wanted too.
fn point_and_flag(params: Option<Value>) -> Option<(Name, Pos, bool)>
    ensures { result ≡ shape.point_and_flag (option_map view params) }
{
    let Value::Object(mut members) = params? else {
        return None;
    };
    let context = taken_value(&mut members, "context");
    let (uri, position) = point_in(members)?;
    let include_declaration = member_at(context, "includeDeclaration")?.as_bool()?;
    Some((uri, position, include_declaration))
}

/// The place that the parameters name, and the name that it is to have.
fn point_and_name(params: Option<Value>) -> Option<(Name, Pos, Name)>
    ensures { result ≡ shape.point_and_name (option_map view params) }
{
    let Value::Object(mut members) = params? else {
        return None;
    };
    let new_name = taken_text(taken_value(&mut members, "newName")?)?;
    let (uri, position) = point_in(members)?;
    Some((uri, position, new_name))
}

/// The place that the parameters name.
fn point(params: Option<Value>) -> Option<(Name, Pos)>
    ensures { result ≡ shape.point_of (option_map view params) }
{
    match params? {
        Value::Object(members) => point_in(members),
        _ => None,
    }
}

/// The place that an object of these members names: the address of its document and its position.
fn point_in(mut members: Map<String, Value>) -> Option<(Name, Pos)>
    ensures { result ≡ shape.point_of (Some (object (members_view members.entries))) }
{
    let document = taken_value(&mut members, "textDocument");
    let uri = taken_text(member_at(document, "uri")?)?;
    let position = position(taken_value(&mut members, "position")?)?;
    Some((uri, position))
}
