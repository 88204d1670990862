// A change of a text, out of the value that says it.
ghost use Rattle.std.specs.Prelude.{◌≡◌};
ghost use Rattle.serde_json.specs.Data.{object};
ghost use Rattle.serde_json.specs.View.{view, members_view};
ghost use Rattle.lw_rpc.specs.ChangeParams as shape;

use crate::listed::Listed;
use crate::members::{taken_text, taken_value};
use lw_text::{Change, Pos};
use serde_json::{Map, Value};

impl Listed for Change {
    ghost shape = { shape.change_of };

    fn out_of(value: Value) -> Option<Change> {
        match value {
            Value::Object(members) => change_of(members),
            _ => None,
        }
    }
}

/// The change that an object of these members is.
fn change_of(mut members: Map<String, Value>) -> Option<Change>
    ensures { result ≡ shape.change_of (object (members_view members.entries)) }
{
    let range = match taken_value(&mut members, "range") {
        Some(range) => Some(range_of(range)?),
        None => None,
    };
    let text = taken_text(taken_value(&mut members, "text")?)?;
    Some(Change { range, text })
}

fn range_of(value: Value) -> Option<(Pos, Pos)>
    ensures { result ≡ shape.range_of (view value) }
{
    let Value::Object(mut members) = value else {
        return None;
    };
    let start = position(taken_value(&mut members, "start")?)?;
    let end = position(taken_value(&mut members, "end")?)?;
    Some((start, end))
}

/// The position that the value is.
pub fn position(value: Value) -> Option<Pos>
    ensures { result ≡ shape.position_of (view value) }
{
    let Value::Object(mut members) = value else {
        return None;
    };
    let line = count(taken_value(&mut members, "line")?)?;
    let character = count(taken_value(&mut members, "character")?)?;
    Some(Pos { line, character })
}

/// The whole number of 32 bits that the value is.
fn count(value: Value) -> Option<u32>
    ensures { result ≡ shape.u32_of (view value) }
{
    u32::try_from(value.as_u64()?).ok()
}
