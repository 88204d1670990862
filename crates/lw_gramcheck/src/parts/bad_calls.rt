// Calls of what may not be called there.
ghost use Rattle.std.specs.Prelude.{◌≡◌, ◌↔◌, IsTrue, OnOk, Some, true, slice_get};
ghost use Rattle.lw_grammar.specs.Nodes.{IsDataType};
ghost use Rattle.lw_faults.specs.BadCalls.{BadCall};
ghost use Rattle.lw_grammar.specs.Written.{term_calls, term_ranges};
ghost use Rattle.lw_numbers.specs.Parts.{term_call_of, term_range_of};
ghost use Rattle.lw_faults.specs.Finding.{Finds, IsFaultOf, OfSome};
ghost use Rattle.lw_gramcheck.specs.Knowing.{Knows};
ghost use Rattle.lw_gramcheck.specs.Sites.{site_of, how_of};
ghost use Rattle.lw_gramcheck.specs.BadSites.{is_cross, IsUncallable, IsBadSite, BadSite, HasBadSite, CallsRule, BadRange, HasBadPart};

use crate::parts::checker::Checker;
use crate::parts::range_ends::is_in_order;
use crate::parts::sites::{CallSite, Manner, call_sites};
use lw_base::{Name, NoMemory, Span};
use lw_faults::FaultKind;
use lw_faults::findings::Findings;
use lw_grammar::{Rule, Terminal};
use lw_numbers::Called;
use lw_numbers::leaves::{TermRange, term_calls, term_ranges};
use std::alloc::Global;

/// Fault 21: a rule calls a hidden terminal or a fragment of terminals, or a cross-reference reads by
/// one; a terminal calls a rule; a range has other ends than two characters in order; or a
/// cross-reference reads by a rule that makes nodes, or by a fragment.
pub(crate) fn find_bad_calls(
    alloc: Global,
    checker: &Checker<'_>,
    found: &mut Findings,
) -> Result<(), NoMemory>
    requires { Knows checker.now }
    ensures { OnOk result (Finds (IsFaultOf 21 (BadCall checker.now.g.now)) found.old found.new) }
{
    find_in_rules(alloc, checker, found)?;
    find_in_terminals(alloc, checker, found)?;
    Ok(())
}

fn find_in_rules(alloc: Global, checker: &Checker<'_>, found: &mut Findings) -> Result<(), NoMemory>
    requires { Knows checker.now }
    ensures { OnOk result (Finds (OfSome (HasBadSite checker.now.g.now) checker.now.g.now.rules) found.old found.new) }
{
    for rule in checker.g.rules.as_slice() {
        find_bad_sites(alloc, checker, rule, found)?;
    }
    Ok(())
}

fn find_bad_sites(
    alloc: Global,
    checker: &Checker<'_>,
    rule: &Rule,
    found: &mut Findings,
) -> Result<(), NoMemory>
    requires { Knows checker.now }
    ensures { OnOk result (Finds (HasBadSite checker.now.g.now rule.now) found.old found.new) }
{
    let sites = call_sites(alloc, rule, checker.name_rules)?;
    for site in &sites {
        find_bad_site(alloc, checker, rule, site, found)?;
    }
    Ok(())
}

fn find_bad_site(
    alloc: Global,
    checker: &Checker<'_>,
    rule: &Rule,
    site: &CallSite<'_>,
    found: &mut Findings,
) -> Result<(), NoMemory>
    requires { Knows checker.now }
    ensures { OnOk result (Finds (BadSite checker.now.g.now rule.now (site_of site.now)) found.old found.new) }
{
    if !is_bad_site(checker, site) {
        return Ok(());
    }
    found.add(alloc, FaultKind::BadCall, rule.file, site.span, site.name)?;
    Ok(())
}

/// Whether the call is one that a rule may not write.
fn is_bad_site(checker: &Checker<'_>, site: &CallSite<'_>) -> bool
    requires { Knows checker.now }
    ensures { IsTrue result ↔ IsBadSite checker.now.g.now (site_of site.now) }
{
    match checker.called(site.name) {
        Called::Rule(r, rule) => crosses_wrongly(checker, &site.manner, r, rule),
        Called::Terminal(_, terminal) => is_uncallable(terminal),
        Called::Nothing => false,
    }
}

/// Whether a cross-reference reads by this rule, which is no data type rule.
fn crosses_wrongly(checker: &Checker<'_>, manner: &Manner<'_>, r: usize, rule: &Rule) -> bool
    requires knows { Knows checker.now }
    requires rule { slice_get checker.now.g.now.rules r ≡ Some rule.now }
    ensures { IsTrue result ↔ ((is_cross (how_of manner.now) ≡ true) × ¬ IsDataType checker.now.g.now rule.now) }
{
    is_cross(manner) && !checker.is_data_type(r, rule)
}

/// Whether no rule may call this terminal.
fn is_uncallable(terminal: &Terminal) -> bool
    ensures { IsTrue result ↔ IsUncallable terminal.now }
{
    terminal.is_hidden || terminal.is_fragment
}

/// Whether a cross-reference reads by the name.
fn is_cross(manner: &Manner<'_>) -> bool
    ensures { result ≡ is_cross (how_of manner.now) }
{
    match manner {
        Manner::Plain | Manner::Assigned(..) => false,
        Manner::Crossed | Manner::ByName => true,
    }
}

fn find_in_terminals(
    alloc: Global,
    checker: &Checker<'_>,
    found: &mut Findings,
) -> Result<(), NoMemory>
    requires { Knows checker.now }
    ensures { OnOk result (Finds (OfSome (HasBadPart checker.now.g.now) checker.now.g.now.terminals) found.old found.new) }
{
    for terminal in checker.g.terminals.as_slice() {
        find_in_terminal(alloc, checker, terminal, found)?;
    }
    Ok(())
}

fn find_in_terminal(
    alloc: Global,
    checker: &Checker<'_>,
    terminal: &Terminal,
    found: &mut Findings,
) -> Result<(), NoMemory>
    requires { Knows checker.now }
    ensures { OnOk result (Finds (HasBadPart checker.now.g.now terminal.now) found.old found.new) }
{
    find_called_rules(alloc, checker, terminal, found)?;
    find_bad_ranges(alloc, terminal, found)?;
    Ok(())
}

fn find_called_rules(
    alloc: Global,
    checker: &Checker<'_>,
    terminal: &Terminal,
    found: &mut Findings,
) -> Result<(), NoMemory>
    requires { Knows checker.now }
    ensures { OnOk result (Finds (OfSome (CallsRule checker.now.g.now terminal.now) (term_calls terminal.now.body)) found.old found.new) }
{
    let calls = term_calls(alloc, &terminal.body)?;
    for call in &calls {
        find_called_rule(alloc, checker, terminal, call, found)?;
    }
    Ok(())
}

fn find_called_rule(
    alloc: Global,
    checker: &Checker<'_>,
    terminal: &Terminal,
    call: &(&Name, Span),
    found: &mut Findings,
) -> Result<(), NoMemory>
    requires { Knows checker.now }
    ensures { OnOk result (Finds (CallsRule checker.now.g.now terminal.now (term_call_of call.now)) found.old found.new) }
{
    match checker.called(call.0) {
        Called::Rule(..) => found.add(alloc, FaultKind::BadCall, terminal.file, call.1, call.0),
        Called::Terminal(..) => Ok(()),
        Called::Nothing => Ok(()),
    }
}

fn find_bad_ranges(alloc: Global, terminal: &Terminal, found: &mut Findings) -> Result<(), NoMemory>
    ensures { OnOk result (Finds (OfSome (BadRange terminal.now) (term_ranges terminal.now.body)) found.old found.new) }
{
    let ranges = term_ranges(alloc, &terminal.body)?;
    for range in &ranges {
        find_bad_range(alloc, terminal, range, found)?;
    }
    Ok(())
}

fn find_bad_range(
    alloc: Global,
    terminal: &Terminal,
    range: &TermRange<'_>,
    found: &mut Findings,
) -> Result<(), NoMemory>
    ensures { OnOk result (Finds (BadRange terminal.now (term_range_of range.now)) found.old found.new) }
{
    if is_in_order(range.first, range.last) {
        return Ok(());
    }
    found.add(
        alloc,
        FaultKind::BadCall,
        terminal.file,
        range.span,
        &terminal.name,
    )?;
    Ok(())
}
