// Lists, out of the values that say what stands in them.
ghost use Rattle.std.specs.Prelude.{◌≡◌, IfOk, Option, option_map, option_and_then};
ghost use Rattle.serde_json.specs.Data.{Data};
ghost use Rattle.serde_json.specs.Find.{as_array};
ghost use Rattle.serde_json.specs.View.{view, items_view};
ghost use Rattle.lw_rpc.specs.Listed.{items_by};

use lw_base::{Items, NoMemory};
use serde_json::Value;
use std::alloc::Global;

/// What stands in a list.
pub trait Listed: Drop {
    /// What a value says, by the shape that it must have.
    ghost shape: { Data → Option Self };

    /// What the value says.
    fn out_of(value: Value) -> Option<Self>
        ensures { result ≡ shape (view value) };
}

/// What a value lists, or None where it is no list or has an item of another shape.
pub fn taken_list<T: Listed>(
    alloc: Global,
    value: Option<Value>,
) -> Result<Option<Items<T>>, NoMemory>
    ensures { IfOk result (λ list. list ≡ option_and_then (items_by T.shape) (option_and_then as_array (option_map view value))) }
{
    match value {
        Some(Value::Array(values)) => items(alloc, values),
        _ => Ok(None),
    }
}

fn items<T: Listed>(alloc: Global, values: Vec<Value>) -> Result<Option<Items<T>>, NoMemory>
    ensures { IfOk result (λ list. list ≡ items_by T.shape (items_view values.items)) }
{
    let mut items = Items::new(alloc);
    'values: for value in values {
        let Some(item) = T::out_of(value) else {
            return Ok(None);
        };
        items.push(item)?;
    }
    Ok(Some(items))
}
