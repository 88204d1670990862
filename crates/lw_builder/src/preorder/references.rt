// References whose nodes are named by number.
ghost use Rattle.std.specs.Prelude.{◌≡◌, ◌<◌, length, map, All};
ghost use Rattle.lw_builder.specs.Renaming.{reference_by_number};

use lw_base::NodeId;
use lw_tree::Reference;

/// These references, with the nodes that they stand in named by number. The order stays.
pub fn references_by_number(numbers: &[u32], mut refs: Vec<Reference>) -> Vec<Reference>
    requires { All (λ r. r.owner.0 < length numbers.now) refs.items }
    ensures { result.items ≡ map (reference_by_number numbers.now) refs.items }
{
    for reference in refs.iter_mut() {
        reference.owner = NodeId(numbers[reference.owner.0 as usize]);
    }
    refs
}
