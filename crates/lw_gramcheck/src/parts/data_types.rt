// Data type rules and what they say of their type.
ghost use Rattle.std.specs.Prelude.{◌≡◌, ◌↔◌, IsTrue, OnOk, All, Some, slice_get};
ghost use Rattle.lw_faults.specs.DataTypes.{MixedDataTypeRule, IsPlainMember, IsPlainUnion};
ghost use Rattle.lw_faults.specs.Finding.{Finds, IsFaultOf};
ghost use Rattle.lw_gramcheck.specs.Knowing.{Knows};
ghost use Rattle.lw_gramcheck.specs.Parts.{IsMixed, MixedHere};

use crate::parts::checker::Checker;
use lw_base::{Name, NoMemory};
use lw_faults::FaultKind;
use lw_faults::findings::Findings;
use lw_grammar::{Member, Rule, RuleResult};
use lw_numbers::Declares;
use std::alloc::Global;

/// Fault 13: a rule returns a primitive type and is no data type rule; or a data type rule infers a
/// type, or returns one that is no union of primitive types and texts.
pub(crate) fn find_mixed_data_types(
    alloc: Global,
    checker: &Checker<'_>,
    found: &mut Findings,
) -> Result<(), NoMemory>
    requires { Knows checker.now }
    ensures { OnOk result (Finds (IsFaultOf 13 (MixedDataTypeRule checker.now.g.now)) found.old found.new) }
{
    for (r, rule) in checker.g.rules.as_slice().iter().enumerate() {
        find_mixed(alloc, checker, r, rule, found)?;
    }
    Ok(())
}

fn find_mixed(
    alloc: Global,
    checker: &Checker<'_>,
    r: usize,
    rule: &Rule,
    found: &mut Findings,
) -> Result<(), NoMemory>
    requires knows { Knows checker.now }
    requires rule { slice_get checker.now.g.now.rules r ≡ Some rule.now }
    ensures { OnOk result (Finds (MixedHere checker.now.g.now r rule.now) found.old found.new) }
{
    if !is_mixed(checker, r, rule) {
        return Ok(());
    }
    found.add(
        alloc,
        FaultKind::MixedDataType,
        rule.file,
        rule.span,
        &rule.name,
    )?;
    Ok(())
}

/// Whether what the rule says of its type is not what its body gives.
fn is_mixed(checker: &Checker<'_>, r: usize, rule: &Rule) -> bool
    requires knows { Knows checker.now }
    requires rule { slice_get checker.now.g.now.rules r ≡ Some rule.now }
    ensures { IsTrue result ↔ IsMixed checker.now.g.now rule.now rule.now.result }
{
    match &rule.result {
        RuleResult::Own => false,
        RuleResult::Gives(_) => !checker.is_data_type(r, rule),
        RuleResult::Infers(..) => checker.is_data_type(r, rule),
        RuleResult::Returns(name, _) => {
            checker.is_data_type(r, rule) && !is_plain_union(checker, name)
        }
    }
}

/// Whether the name means a union of primitive types and texts alone.
fn is_plain_union(checker: &Checker<'_>, name: &Name) -> bool
    requires { Knows checker.now }
    ensures { IsTrue result ↔ IsPlainUnion checker.now.g.now name.now }
{
    match checker.numbers.declared(checker.g, name) {
        Declares::Union(_, union) => are_plain(union.members.as_slice()),
        Declares::Interface(..) => false,
        Declares::Nothing => false,
    }
}

fn are_plain(members: &[Member]) -> bool
    ensures { IsTrue result ↔ All IsPlainMember members.now }
{
    members.iter().all(is_plain)
}

fn is_plain(member: &Member) -> bool
    ensures { IsTrue result ↔ IsPlainMember member.now }
{
    match member {
        Member::Plain(_) => true,
        Member::Literal(_) => true,
        Member::Named(..) | Member::Refers(..) => false,
    }
}
