// Fragments and terminals that call themselves.
ghost use Rattle.std.specs.Prelude.{OnOk};
ghost use Rattle.lw_faults.specs.Circles.{CircularCall};
ghost use Rattle.lw_faults.specs.Finding.{Finds, IsFaultOf, AtSome};
ghost use Rattle.lw_gramcheck.specs.Knowing.{Knows};
ghost use Rattle.lw_gramcheck.specs.Edges.{CircularFragment, CircularTerminal, RuleIn, TerminalIn};

use crate::parts::call_graphs::{fragment_edges, graph_of, terminal_edges};
use crate::parts::checker::Checker;
use lw_base::NoMemory;
use lw_faults::FaultKind;
use lw_faults::findings::Findings;
use lw_grammar::{Rule, Terminal};
use lw_graph::NodeSet;
use std::alloc::Global;

/// Fault 20: a fragment calls itself, over one call or more through fragments alone, or a terminal
/// through terminals. It takes time linear in the grammar, but where there are circles: then each
/// fragment and terminal that may lie on one is walked from.
pub fn find_circular_calls(
    alloc: Global,
    checker: &Checker<'_>,
    found: &mut Findings,
) -> Result<(), NoMemory>
    requires { Knows checker.now }
    ensures { OnOk result (Finds (IsFaultOf 20 (CircularCall checker.now.g.now)) found.old found.new) }
{
    find_circular_fragments(alloc, checker, found)?;
    find_circular_terminals(alloc, checker, found)?;
    Ok(())
}

fn find_circular_fragments(
    alloc: Global,
    checker: &Checker<'_>,
    found: &mut Findings,
) -> Result<(), NoMemory>
    requires { Knows checker.now }
    ensures { OnOk result (Finds (AtSome (CircularFragment checker.now.g.now) checker.now.g.now.rules) found.old found.new) }
{
    let rules = checker.g.rules.as_slice();
    let edges = fragment_edges(alloc, checker)?;
    let graph = graph_of(alloc, rules.len(), edges.as_slice())?;
    let round = graph.circles(alloc)?;
    find_rules_in(alloc, rules, &round, found)?;
    Ok(())
}

/// Finds each rule whose number is in the set.
fn find_rules_in(
    alloc: Global,
    rules: &[Rule],
    round: &NodeSet,
    found: &mut Findings,
) -> Result<(), NoMemory>
    ensures { OnOk result (Finds (AtSome (RuleIn round.now) rules.now) found.old found.new) }
{
    for (r, rule) in rules.iter().enumerate() {
        find_rule_in(alloc, r, rule, round, found)?;
    }
    Ok(())
}

fn find_rule_in(
    alloc: Global,
    r: usize,
    rule: &Rule,
    round: &NodeSet,
    found: &mut Findings,
) -> Result<(), NoMemory>
    ensures { OnOk result (Finds (RuleIn round.now r rule.now) found.old found.new) }
{
    if !round.holds(r) {
        return Ok(());
    }
    found.add(
        alloc,
        FaultKind::CircularCall,
        rule.file,
        rule.span,
        &rule.name,
    )?;
    Ok(())
}

fn find_circular_terminals(
    alloc: Global,
    checker: &Checker<'_>,
    found: &mut Findings,
) -> Result<(), NoMemory>
    requires { Knows checker.now }
    ensures { OnOk result (Finds (AtSome (CircularTerminal checker.now.g.now) checker.now.g.now.terminals) found.old found.new) }
{
    let terminals = checker.g.terminals.as_slice();
    let edges = terminal_edges(alloc, checker)?;
    let graph = graph_of(alloc, terminals.len(), edges.as_slice())?;
    let round = graph.circles(alloc)?;
    find_terminals_in(alloc, terminals, &round, found)?;
    Ok(())
}

/// Finds each terminal whose place is in the set.
fn find_terminals_in(
    alloc: Global,
    terminals: &[Terminal],
    round: &NodeSet,
    found: &mut Findings,
) -> Result<(), NoMemory>
    ensures { OnOk result (Finds (AtSome (TerminalIn round.now) terminals.now) found.old found.new) }
{
    for (t, terminal) in terminals.iter().enumerate() {
        find_terminal_in(alloc, t, terminal, round, found)?;
    }
    Ok(())
}

fn find_terminal_in(
    alloc: Global,
    t: usize,
    terminal: &Terminal,
    round: &NodeSet,
    found: &mut Findings,
) -> Result<(), NoMemory>
    ensures { OnOk result (Finds (TerminalIn round.now t terminal.now) found.old found.new) }
{
    if !round.holds(t) {
        return Ok(());
    }
    found.add(
        alloc,
        FaultKind::CircularCall,
        terminal.file,
        terminal.span,
        &terminal.name,
    )?;
    Ok(())
}
