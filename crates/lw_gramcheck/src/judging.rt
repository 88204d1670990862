// Whether anything is wrong with a grammar.
ghost use Rattle.std.specs.Prelude.{◌≡◌, ◌≢◌, ◌≤◌, [], IfErr, IfOk, OnOk};
ghost use Rattle.lw_gramcheck.specs.declared.fault.JudgeFault.TheVariants.{Faults};
ghost use Rattle.lw_grammar.specs.Size.{size};
ghost use Rattle.lw_types.specs.Inferred.{AreTypesOf, HasNoTypeFault};
ghost use Rattle.lw_gramcheck.specs.Judging.{IsFaultless, CausesNoUse};

use crate::checking::check;
use crate::fault::JudgeFault;
use lw_base::Items;
use lw_grammar::{Grammar, GrammarFault};
use lw_types::{TypeFaults, Types, infer};
use std::alloc::Global;

/// The types of a grammar in which nothing is wrong, or all faults of the first phase that has any.
pub fn judge(alloc: Global, g: &Grammar) -> Result<Types, JudgeFault>
    requires { size g.now ≤ 65535 }
    ensures types { IfOk result (AreTypesOf g.now) }
    ensures faultless { OnOk result (IsFaultless g.now) }
    ensures faults { IfErr result (CausesNoUse g.now) }
{
    match infer(alloc, g) {
        Ok(types) => checked(alloc, g, types),
        Err(TypeFaults::Faults(found)) => Err(JudgeFault::Faults(found)),
        Err(TypeFaults::NoMemory) => Err(JudgeFault::NoMemory),
    }
}

/// That these are none.
fn none_of(found: Items<GrammarFault>) -> Result<(), JudgeFault>
    ensures none { OnOk result (found ≡ []) }
    ensures some { IfErr result (λ fault. (fault ≡ Faults found) × (found ≢ [])) }
{
    if found.is_empty() {
        return Ok(());
    }
    Err(JudgeFault::Faults(found))
}

/// The types, where the second phase has no fault either, else all of its faults.
fn checked(alloc: Global, g: &Grammar, types: Types) -> Result<Types, JudgeFault>
    requires types { AreTypesOf g.now types }
    requires none { HasNoTypeFault g.now }
    ensures types { IfOk result (AreTypesOf g.now) }
    ensures faultless { OnOk result (IsFaultless g.now) }
    ensures faults { IfErr result (CausesNoUse g.now) }
{
    match passes(alloc, g, &types) {
        Ok(()) => Ok(types),
        Err(fault) => Err(fault),
    }
}

/// That the second phase has no fault, where the first has none.
fn passes(alloc: Global, g: &Grammar, types: &Types) -> Result<(), JudgeFault>
    requires types { AreTypesOf g.now types.now }
    requires none { HasNoTypeFault g.now }
    ensures faultless { OnOk result (IsFaultless g.now) }
    ensures faults { IfErr result (CausesNoUse g.now) }
{
    let found = check(alloc, g, types)?;
    none_of(found)
}
