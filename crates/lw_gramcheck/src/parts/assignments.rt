// Assignments of what may not be assigned so.
ghost use Rattle.std.specs.Prelude.{◌≡◌, ◌↔◌, IsTrue, OnOk, Some, slice_get};
ghost use Rattle.lw_faults.specs.BadCalls.{BadAssignment};
ghost use Rattle.lw_faults.specs.Finding.{Finds, IsFaultOf};
ghost use Rattle.lw_gramcheck.specs.Knowing.{Knows};
ghost use Rattle.lw_gramcheck.specs.Sites.{site_of};
ghost use Rattle.lw_gramcheck.specs.BadSites.{IsMisused, PutsBadly, BadPut, HasBadPut};

use crate::parts::checker::Checker;
use crate::parts::sites::{CallSite, Manner, call_sites};
use lw_base::{Name, NoMemory};
use lw_faults::FaultKind;
use lw_faults::findings::Findings;
use lw_grammar::{Op, Rule};
use lw_numbers::Called;
use std::alloc::Global;

/// Fault 22: `?=` with a rule that makes nodes, or any assignment of a fragment.
pub(crate) fn find_bad_assignments(
    alloc: Global,
    checker: &Checker<'_>,
    found: &mut Findings,
) -> Result<(), NoMemory>
    requires { Knows checker.now }
    ensures { OnOk result (Finds (IsFaultOf 22 (BadAssignment checker.now.g.now)) found.old found.new) }
{
    for rule in checker.g.rules.as_slice() {
        find_bad_puts(alloc, checker, rule, found)?;
    }
    Ok(())
}

fn find_bad_puts(
    alloc: Global,
    checker: &Checker<'_>,
    rule: &Rule,
    found: &mut Findings,
) -> Result<(), NoMemory>
    requires { Knows checker.now }
    ensures { OnOk result (Finds (HasBadPut checker.now.g.now rule.now) found.old found.new) }
{
    let sites = call_sites(alloc, rule, checker.name_rules)?;
    for site in &sites {
        find_bad_put(alloc, checker, rule, site, found)?;
    }
    Ok(())
}

fn find_bad_put(
    alloc: Global,
    checker: &Checker<'_>,
    rule: &Rule,
    site: &CallSite<'_>,
    found: &mut Findings,
) -> Result<(), NoMemory>
    requires { Knows checker.now }
    ensures { OnOk result (Finds (BadPut checker.now.g.now rule.now (site_of site.now)) found.old found.new) }
{
    let Manner::Assigned(property, op, span) = site.manner else {
        return Ok(());
    };
    if !puts_badly(checker, op, site.name) {
        return Ok(());
    }
    found.add(alloc, FaultKind::BadAssignment, rule.file, span, property)?;
    Ok(())
}

/// Whether what the name means may not be assigned by this operator.
fn puts_badly(checker: &Checker<'_>, op: Op, name: &Name) -> bool
    requires { Knows checker.now }
    ensures { IsTrue result ↔ PutsBadly checker.now.g.now op name.now }
{
    match checker.called(name) {
        Called::Rule(r, rule) => is_misused(checker, op, r, rule),
        Called::Terminal(..) => false,
        Called::Nothing => false,
    }
}

/// Whether a property may not take this rule by this operator.
fn is_misused(checker: &Checker<'_>, op: Op, r: usize, rule: &Rule) -> bool
    requires knows { Knows checker.now }
    requires rule { slice_get checker.now.g.now.rules r ≡ Some rule.now }
    ensures { IsTrue result ↔ IsMisused checker.now.g.now op rule.now }
{
    rule.is_fragment || (op == Op::Flag && checker.makes_nodes(r, rule))
}
