// Which documents lead into which, and the references that lead to a node.
ghost use Rattle.std.specs.Prelude.{◌≡◌, ◌↔◌, ℕ, List, Contains, AllPairs, IfOk};
ghost use Rattle.std.specs.BTreeMap.{BTreeMap};
ghost use Rattle.lw_index.specs.declared.refs.slot.SlotId.{SlotId};
ghost use Rattle.lw_index.specs.Pairs.{ArePaired, IsHeldUser};
ghost use Rattle.lw_index.specs.Users.{SlotPrecedes};

use crate::Target;
use crate::refs::leads::Leads;
use crate::refs::slot::SlotId;
use lw_base::{DocId, NoMemory};
use std::alloc::Global;
use std::collections::{BTreeMap, BTreeSet};

/// Documents that are led into, each with a document that leads there.
pub(crate) type Pairs = BTreeSet<(u32, u32)>;

/// Takes out the pairs of a document that what is gone of it led to, but those that it has by what is held of it. The time is that of a
/// look-up or two for each document that was led into.
pub(crate) fn sweep(
    pairs: &mut Pairs,
    documents: &BTreeMap<u32, Leads>,
    user: DocId,
    gone: Option<Leads>,
)
    requires { ArePaired documents.now pairs.old }
    ensures { ArePaired documents.now pairs.new }
{
    let Some(leads) = gone else {
        return;
    };
    leads.leave(user, documents.get(&user.0), pairs);
}

/// The references that lead to a node, by document and number. The time is that of a look-up for each document with references into the
/// document of the node, and of a step for each that leads to the node.
pub(crate) fn gather(
    alloc: Global,
    documents: &BTreeMap<u32, Leads>,
    pairs: &Pairs,
    target: Target,
) -> Result<Vec<SlotId>, NoMemory>
    requires { ArePaired documents.now pairs.now }
    ensures exact { IfOk result (λ slots. (slot : SlotId) → Contains slots.items slot ↔ IsHeldUser documents.now target slot) }
    ensures ordered { IfOk result (λ slots. AllPairs SlotPrecedes slots.items) }
{
    let mut slots = Vec::new(alloc);
    for pair in pairs.range((target.doc.0, 0)..) {
        if pair.0 != target.doc.0 {
            return Ok(slots);
        }
        if let Some(leads) = documents.get(&pair.1) {
            leads.add_users(DocId(pair.1), target, &mut slots)?;
        }
    }
    Ok(slots)
}
