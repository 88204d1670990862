// Graphs of what fragments and terminals call.
ghost use Rattle.std.specs.Prelude.{ℕ, ◌↔◌, [], OnOk, IfOk, MatchOption, Contains};
ghost use Rattle.lw_grammar.specs.Written.{term_calls};
ghost use Rattle.lw_numbers.specs.Parts.{term_call_of};
ghost use Rattle.lw_graph.specs.Walks.{HasEdge};
ghost use Rattle.lw_faults.specs.Finding.{Finds};
ghost use Rattle.lw_gramcheck.specs.Knowing.{Knows};
ghost use Rattle.lw_gramcheck.specs.Sites.{site_of};
ghost use Rattle.lw_gramcheck.specs.Edges.{StayBelow, MeansFragment, MeansTerminal, CallsFragment, CallsFragments, IsFragmentEdge, CallsTerminal, CallsTerminals, IsTerminalEdge};

use crate::parts::checker::Checker;
use crate::parts::sites::{CallSite, call_sites};
use lw_base::{Name, NoMemory, Span};
use lw_grammar::{Rule, Terminal};
use lw_graph::Graph;
use lw_numbers::Called;
use lw_numbers::leaves::term_calls;
use std::alloc::Global;

/// A call, from the number of the caller to that of what it calls.
type Edge = (usize, usize);

/// The fragments that each fragment calls, by their numbers, in linear time.
pub(crate) fn fragment_edges(alloc: Global, checker: &Checker<'_>) -> Result<Vec<Edge>, NoMemory>
    requires { Knows checker.now }
    ensures { IfOk result (λ edges. Finds (IsFragmentEdge checker.now.g.now) [] edges.items) }
{
    let mut edges = Vec::new(alloc);
    for (q, rule) in checker.g.rules.as_slice().iter().enumerate() {
        put_fragment(alloc, checker, q, rule, &mut edges)?;
    }
    Ok(edges)
}

fn put_fragment(
    alloc: Global,
    checker: &Checker<'_>,
    q: usize,
    rule: &Rule,
    edges: &mut Vec<Edge>,
) -> Result<(), NoMemory>
    requires { Knows checker.now }
    ensures { OnOk result (Finds (CallsFragments checker.now.g.now q rule.now) edges.old.items edges.new.items) }
{
    if !rule.is_fragment {
        return Ok(());
    }
    let sites = call_sites(alloc, rule, checker.name_rules)?;
    for site in &sites {
        put_fragment_call(checker, q, site, edges)?;
    }
    Ok(())
}

fn put_fragment_call(
    checker: &Checker<'_>,
    q: usize,
    site: &CallSite<'_>,
    edges: &mut Vec<Edge>,
) -> Result<(), NoMemory>
    requires { Knows checker.now }
    ensures { OnOk result (Finds (CallsFragment checker.now.g.now q (site_of site.now)) edges.old.items edges.new.items) }
{
    match fragment_named(checker, site.name) {
        Some(r) => edges.push((q, r))?,
        None => {}
    }
    Ok(())
}

/// The number of the fragment that the name means.
fn fragment_named(checker: &Checker<'_>, name: &Name) -> Option<usize>
    requires { Knows checker.now }
    ensures { MatchOption result ((r : ℕ) → ¬ MeansFragment checker.now.g.now name.now r) (MeansFragment checker.now.g.now name.now) }
{
    match checker.called(name) {
        Called::Rule(r, rule) => { if rule.is_fragment { Some(r) } else { None } }
        Called::Terminal(..) => None,
        Called::Nothing => None,
    }
}

/// The terminals that each terminal calls, by their places, in linear time.
pub(crate) fn terminal_edges(alloc: Global, checker: &Checker<'_>) -> Result<Vec<Edge>, NoMemory>
    requires { Knows checker.now }
    ensures { IfOk result (λ edges. Finds (IsTerminalEdge checker.now.g.now) [] edges.items) }
{
    let mut edges = Vec::new(alloc);
    for (t, terminal) in checker.g.terminals.as_slice().iter().enumerate() {
        put_terminal(alloc, checker, t, terminal, &mut edges)?;
    }
    Ok(edges)
}

fn put_terminal(
    alloc: Global,
    checker: &Checker<'_>,
    t: usize,
    terminal: &Terminal,
    edges: &mut Vec<Edge>,
) -> Result<(), NoMemory>
    requires { Knows checker.now }
    ensures { OnOk result (Finds (CallsTerminals checker.now.g.now t terminal.now) edges.old.items edges.new.items) }
{
    let calls = term_calls(alloc, &terminal.body)?;
    for call in &calls {
        put_terminal_call(checker, t, call, edges)?;
    }
    Ok(())
}

fn put_terminal_call(
    checker: &Checker<'_>,
    t: usize,
    call: &(&Name, Span),
    edges: &mut Vec<Edge>,
) -> Result<(), NoMemory>
    requires { Knows checker.now }
    ensures { OnOk result (Finds (CallsTerminal checker.now.g.now t (term_call_of call.now)) edges.old.items edges.new.items) }
{
    match terminal_named(checker, call.0) {
        Some(u) => edges.push((t, u))?,
        None => {}
    }
    Ok(())
}

/// The place of the terminal that the name means.
fn terminal_named(checker: &Checker<'_>, name: &Name) -> Option<usize>
    requires { Knows checker.now }
    ensures { MatchOption result ((t : ℕ) → ¬ MeansTerminal checker.now.g.now name.now t) (MeansTerminal checker.now.g.now name.now) }
{
    match checker.called(name) {
        Called::Terminal(t, _) => Some(t),
        Called::Rule(..) => None,
        Called::Nothing => None,
    }
}

/// The graph of so many nodes with these edges.
pub(crate) fn graph_of(alloc: Global, nodes: usize, edges: &[Edge]) -> Result<Graph, NoMemory>
    requires { StayBelow nodes edges.now }
    ensures { IfOk result (λ graph. (a b : ℕ) → HasEdge graph a b ↔ Contains edges.now (a, b)) }
{
    let mut graph = Graph::new(alloc, nodes)?;
    for edge in edges {
        graph.add(edge.0, edge.1)?;
    }
    Ok(graph)
}
