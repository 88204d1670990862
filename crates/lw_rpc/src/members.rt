// What a JSON value holds, taken out of it: its members and its texts are given away as they are.
ghost use Rattle.std.specs.Prelude.{◌≡◌, ℕ, List, option_map, option_and_then};
ghost use Rattle.serde_json.specs.Find.{as_number, as_i64, as_str, get_member};
ghost use Rattle.serde_json.specs.View.{view, members_view};
ghost use Rattle.lw_rpc.specs.Params as shape;

use lw_base::Name;
use serde_json::{Map, Value};

/// The value under the key, which is taken out of the object. The other members stay.
pub fn taken_value(members: &mut Map<String, Value>, key: &str) -> Option<Value>
    ensures value { option_map view result ≡ get_member key.now (members_view members.old.entries) }
    ensures others { (other : List ℕ) → ¬ (other ≡ key.now) →
        get_member other (members_view members.new.entries) ≡ get_member other (members_view members.old.entries) }
{
    members.remove(key)
}

/// The member of a value under the key, where the value is an object that has one.
pub fn member_at(value: Option<Value>, key: &str) -> Option<Value>
    ensures { option_map view result ≡ shape.member_at key.now (option_map view value) }
{
    match value {
        Some(Value::Object(mut members)) => taken_value(&mut members, key),
        _ => None,
    }
}

/// The text that a value is.
pub fn taken_text(value: Value) -> Option<Name>
    ensures { result ≡ as_str (view value) }
{
    match value {
        Value::String(text) => Some(Name::from_string(text)),
        _ => None,
    }
}
