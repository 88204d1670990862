// Where the names of all nodes stand, by node.
ghost use Rattle.std.specs.Prelude.{◌≡◌, ◌<◌, ◌^◌, ℕ, IfOk, None, length, slice_index, slice_index_or};
ghost use Rattle.lw_tree.specs.Keyed.{keys_of};
ghost use Rattle.lw_tree.specs.LastPlaces.{last_place, name_places, place_before};

use crate::Value;
use lw_base::{NoMemory, NodeId, PropId};
use std::alloc::Global;
use std::marker::Model;

/// Where the names of nodes stand among the values, seen as a place or none for each node. Where the grammar has no property `name`,
/// it is empty.
#[derive(Drop)]
pub(crate) struct NameTable {
    /// The place behind the name of each node, which is zero where it has none.
    behind: Vec<u32>,
}

impl Model for NameTable {
    ghost use Rattle.std.specs.Prelude.{map};
    ghost use Rattle.lw_tree.specs.LastPlaces.{Places, place_before};

    ghost Value = { Places };

    ghost view = { λ t. map place_before t.behind.items };
}

/// The place behind the last value of this property of each of so many nodes, which is zero where it has none.
fn behind_last(
    alloc: Global,
    entries: &[(NodeId, PropId, Value)],
    prop: PropId,
    count: usize,
) -> Result<Vec<u32>, NoMemory>
    requires { length entries.now < 2 ^ 32 }
    ensures count { IfOk result (λ behind. length behind.items ≡ count) }
    ensures places { IfOk result (λ behind. (n : ℕ) → n < count →
        place_before (slice_index behind.items n) ≡ last_place (n, prop.0) (keys_of entries.now)) }
{
    let mut behind = vec![in alloc; 0u32; count]?;
    for (place, entry) in entries.iter().enumerate() {
        let node = entry.0.0 as usize;
        if entry.1.0 == prop.0 && node < count {
            behind[node] = place as u32 + 1;
        }
    }
    Ok(behind)
}

impl NameTable {
    /// The places of the names of so many nodes, by all values in their order, in one piece of memory. Linear in both. Where a place has
    /// no number, memory is wanting.
    pub(crate) fn new(
        alloc: Global,
        entries: &[(NodeId, PropId, Value)],
        name: Option<PropId>,
        count: usize,
    ) -> Result<NameTable, NoMemory>
        ensures { IfOk result (λ table. table ≡ name_places name count (keys_of entries.now)) }
    {
        let behind = match name {
            None => Vec::new(alloc),
            Some(_) if entries.len() > u32::MAX as usize => return Err(NoMemory),
            Some(prop) => behind_last(alloc, entries, prop, count)?,
        };
        Ok(NameTable { behind })
    }

    /// Where the name of this node stands. Constant time.
    pub(crate) fn at(&self, node: NodeId) -> Option<usize>
        ensures { result ≡ slice_index_or self.now node.0 None }
    {
        match self.behind.get(node.0 as usize) {
            None | Some(0) => None,
            Some(behind) => Some(*behind as usize - 1),
        }
    }
}
