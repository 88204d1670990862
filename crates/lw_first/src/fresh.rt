// Heads that are put into a set, all of them, and which of them are new.
ghost use Rattle.std.specs.Prelude.{IfOk, OnOk};
ghost use Rattle.lw_first.specs.Sets.{AddsHeads, IsAmongHeads};
ghost use Rattle.lw_first.specs.New.{AreNew};

use crate::heads::{Head, HeadSet};
use lw_base::NoMemory;
use std::alloc::Global;

/// Puts these heads in.
pub(crate) fn put_all(heads: &[Head], into: &mut HeadSet) -> Result<(), NoMemory>
    ensures { OnOk result (AddsHeads (IsAmongHeads heads.now) into.old into.new) }
{
    into.insert_all(heads)?;
    Ok(())
}

/// Puts these heads in, and gives those that were not there.
pub(crate) fn put_new(
    alloc: Global,
    heads: &[Head],
    into: &mut HeadSet,
) -> Result<Vec<Head>, NoMemory>
    ensures adds { OnOk result (AddsHeads (IsAmongHeads heads.now) into.old into.new) }
    ensures fresh { IfOk result (λ fresh. AreNew fresh.items into.old into.new) }
{
    let mut fresh = Vec::new(alloc);
    for head in heads {
        if into.insert(*head)? {
            fresh.push(*head)?;
        }
    }
    Ok(fresh)
}
