// Which rules can be reached.
ghost use Rattle.std.specs.Prelude.{ℕ, ◌≡◌, ◌↔◌, IfOk, IsTrue, MatchOption, true};
ghost use Rattle.lw_grammar.specs.declared.rule.Rule.{Rule};
ghost use Rattle.lw_grammar.specs.Named.{IsEntry};
ghost use Rattle.lw_grammar.specs.Reached.{IsReached, RuleCalls};
ghost use Rattle.lw_graph.specs.Walks.{HasNode};
ghost use Rattle.lw_kinds.specs.Edges.{AreEdges};

use lw_base::NoMemory;
use lw_grammar::{Grammar, Rule};
use lw_graph::{Graph, NodeSet};
use std::alloc::Global;

/// The number of the entry rule, if there is one.
pub fn entry(g: &Grammar) -> Option<usize>
    ensures { MatchOption result ((r : ℕ) (rule : Rule) → ¬ IsEntry g.now r rule) (λ r. (rule : Rule) × IsEntry g.now r rule) }
{
    for (number, rule) in g.rules.as_slice().iter().enumerate() {
        if is_root_entry(rule) {
            return Some(number);
        }
    }
    None
}

fn is_root_entry(rule: &Rule) -> bool
    ensures { IsTrue result ↔ ((rule.now.is_entry ≡ true) × (rule.now.file ≡ 0)) }
{
    rule.is_entry && rule.file == 0
}

/// The rules that can be reached from the entry rule, by the graph of calls.
pub(crate) fn reached(alloc: Global, g: &Grammar, calls: &Graph) -> Result<NodeSet, NoMemory>
    requires { AreEdges g.now (RuleCalls g.now) calls.now }
    ensures { IfOk result (λ met. (r : ℕ) → HasNode met r ↔ IsReached g.now r) }
{
    match entry(g) {
        Some(rule) => calls.reached(alloc, &[rule]),
        None => calls.reached(alloc, &[]),
    }
}
