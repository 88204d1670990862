// Values whose nodes are named by number.
ghost use Rattle.std.specs.Prelude.{◌≡◌, ◌<◌, length, map, All};
ghost use Rattle.lw_builder.specs.Finishing.{IsPlaceWithin};
ghost use Rattle.lw_builder.specs.Renaming.{HasPlaces, value_by_number as value_with_number, entry_by_number};

use lw_base::{NodeId, PropId};
use lw_tree::Value;

/// A node's number in place of its place. Every other value stays.
fn name_by_number(numbers: &[u32], value: &mut Value)
    requires { IsPlaceWithin (length numbers.now) value.old }
    ensures { value.new ≡ value_with_number numbers.now value.old }
{
    if let Value::Child(place) = value {
        *place = NodeId(numbers[place.0 as usize]);
    }
}

/// These values, with the nodes that hold them and the nodes among them named by number. The order stays.
pub fn values_by_number(
    numbers: &[u32],
    mut values: Vec<(NodeId, PropId, Value)>,
) -> Vec<(NodeId, PropId, Value)>
    requires { All (HasPlaces (length numbers.now)) values.items }
    ensures { result.items ≡ map (entry_by_number numbers.now) values.items }
{
    for (own, _, value) in values.iter_mut() {
        *own = NodeId(numbers[own.0 as usize]);
        name_by_number(numbers, value);
    }
    values
}
