// All that is found without a look at what rules read.
ghost use Rattle.std.specs.Prelude.{OnOk};
ghost use Rattle.lw_faults.specs.Finding.{Finds};
ghost use Rattle.lw_gramcheck.specs.Knowing.{Knows};
ghost use Rattle.lw_gramcheck.specs.Plain.{IsPlainFault};

use crate::parts::assignments::find_bad_assignments;
use crate::parts::bad_calls::find_bad_calls;
use crate::parts::checker::Checker;
use crate::parts::data_types::find_mixed_data_types;
use crate::parts::entries::{
    find_entry_without_node, find_no_entry, find_second_entries, find_too_many_rules,
};
use lw_base::NoMemory;
use lw_faults::findings::Findings;
use std::alloc::Global;

/// Faults 1 to 3, 13 and 21 to 23, which need no look at what rules read, in time linear in the
/// grammar.
pub fn find_plain_faults(
    alloc: Global,
    checker: &Checker<'_>,
    found: &mut Findings,
) -> Result<(), NoMemory>
    requires { Knows checker.now }
    ensures { OnOk result (Finds (IsPlainFault checker.now.g.now) found.old found.new) }
{
    find_no_entry(alloc, checker.g, found)?;
    find_second_entries(alloc, checker.g, found)?;
    find_entry_without_node(alloc, checker, found)?;
    find_mixed_data_types(alloc, checker, found)?;
    find_bad_calls(alloc, checker, found)?;
    find_bad_assignments(alloc, checker, found)?;
    find_too_many_rules(alloc, checker.g, found)?;
    Ok(())
}
