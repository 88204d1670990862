// The shapes of values.
ghost use Rattle.std.specs.Prelude.{◌≡◌, ◌↔◌, IsTrue, map};
ghost use Rattle.lw_places.specs.Shapes.{shape_of_value};
ghost use Rattle.lw_tree.specs.Keyed.{values_of};
ghost use Rattle.lw_rename.specs.Told.{told_shape};

use lw_base::{NodeId, PropId, RefId};
use lw_tree::Value;

/// A value without its text, its number and its place.
#[derive(Clone, Copy, PartialEq, Eq)]
pub(crate) enum Shape {
    Text,
    Number,
    Huge,
    Raw,
    Truth,
    Child(NodeId),
    Refers(RefId),
}

fn shape_of(value: &Value) -> Shape
    ensures { told_shape result ≡ shape_of_value value.now }
{
    match value {
        Value::Text(_, _) => Shape::Text,
        Value::Number(_, _) => Shape::Number,
        Value::Huge(_) => Shape::Huge,
        Value::Raw(_, _) => Shape::Raw,
        Value::Truth(_) => Shape::Truth,
        Value::Child(node) => Shape::Child(*node),
        Value::Refers(reference) => Shape::Refers(*reference),
    }
}

/// The one value has the shape of the other.
fn has_shape_of(one: &Value, other: &Value) -> bool
    ensures { IsTrue result ↔ (shape_of_value one.now ≡ shape_of_value other.now) }
{
    shape_of(one) == shape_of(other)
}

/// The values of a property have the shapes of others, in their order.
pub(crate) fn have_shapes_of(
    entries: &[(NodeId, PropId, Value)],
    others: &[(NodeId, PropId, Value)],
) -> bool
    ensures { IsTrue result ↔ (map shape_of_value (values_of entries.now) ≡ map shape_of_value (values_of others.now)) }
{
    if entries.len() != others.len() {
        return false;
    }
    'comparing: for i in 0..entries.len() {
        if !has_shape_of(&entries[i].2, &others[i].2) {
            return false;
        }
    }
    true
}
