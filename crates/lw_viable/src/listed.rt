// The items of a list that shares its end with others.
ghost use Rattle.std.specs.Prelude.{◌≡◌, IfOk};
ghost use Rattle.lw_viable.specs.Chains.{chain};

use crate::chains::{Chains, Link};
use lw_base::NoMemory;
use std::alloc::Global;

/// The items of a list, the first first.
pub(crate) fn listed<T: Copy>(
    alloc: Global,
    chains: &Chains<T>,
    list: Link,
) -> Result<Vec<T>, NoMemory>
    ensures { IfOk result (λ items. items.items ≡ chain chains.now list.0) }
{
    let mut items = Vec::new(alloc);
    let mut rest = list;
    'cells: while let Some((item, below)) = chains.first(rest) {
        items.push(item)?;
        rest = below;
    }
    Ok(items)
}
