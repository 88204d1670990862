// Faults of the order of actions and calls.
ghost use Rattle.std.specs.Prelude.{◌≡◌, ◌↔◌, ◌⊎◌, IsTrue, OnOk, Some, slice_get};
ghost use Rattle.lw_base.specs.declared.token.Span.{Span};
ghost use Rattle.lw_grammar.specs.declared.grammar.Grammar.{Grammar};
ghost use Rattle.lw_grammar.specs.Leaves as leaf;
ghost use Rattle.lw_faults.specs.Misplaced.{MisplacedAction, MisplacedCall};
ghost use Rattle.lw_faults.specs.Steps.{IsNodeCall};
ghost use Rattle.lw_numbers.specs.Tables.{AreNumbersOf};
ghost use Rattle.lw_numbers.specs.Kinship.{AreNodeRules};
ghost use Rattle.lw_numbers.specs.Parts.{leaf_of};
ghost use Rattle.lw_faults.specs.Finding.{Finds, IsFaultOf};
ghost use Rattle.lw_flow.specs.Recorded.{AreWaysOf};
ghost use Rattle.lw_gramcheck.specs.Found.{IsToldAt, ToldByRule};

use lw_base::{Name, NoMemory};
use lw_faults::FaultKind;
use lw_faults::findings::Findings;
use lw_flow::{Before, Ways};
use lw_grammar::{Action, Grammar, Rule};
use lw_numbers::leaves::{BodyLeaf, body_leaves};
use lw_numbers::{Called, Numbers};
use std::alloc::Global;

/// A grammar with what its names mean, and which of its rules make nodes.
#[derive(Clone, Copy, Drop)]
struct Names<'g> {
    g: &'g Grammar,
    numbers: &'g Numbers,
    nodes: &'g [bool],
}

/// Puts in the faults of the order of actions and calls: misplaced action, misplaced call. It is linear in
/// the grammar, but for look-ups.
pub fn find_order_faults(
    alloc: Global,
    g: &Grammar,
    numbers: &Numbers,
    nodes: &[bool],
    ways: &Ways,
    found: &mut Findings,
) -> Result<(), NoMemory>
    requires numbers { AreNumbersOf g.now numbers.now }
    requires nodes { AreNodeRules g.now nodes.now }
    requires ways { AreWaysOf g.now ways.now }
    ensures { OnOk result (Finds (λ f. IsFaultOf 11 (MisplacedAction g.now) f ⊎ IsFaultOf 12 (MisplacedCall g.now) f) found.old found.new) }
{
    let names = Names { g, numbers, nodes };
    for (number, rule) in g.rules.as_slice().iter().enumerate() {
        find_in_rule(alloc, names, rule, number, ways, found)?;
    }
    Ok(())
}

/// Those in a rule's body.
fn find_in_rule(
    alloc: Global,
    names: Names<'_>,
    rule: &Rule,
    number: usize,
    ways: &Ways,
    found: &mut Findings,
) -> Result<(), NoMemory>
    requires numbers { AreNumbersOf names.g.now names.numbers.now }
    requires nodes { AreNodeRules names.g.now names.nodes.now }
    requires ways { AreWaysOf names.g.now ways.now }
    requires rule { slice_get names.g.now.rules number ≡ Some rule.now }
    ensures { OnOk result (Finds (ToldByRule names.entry.g.now ways.now number) found.old found.new) }
{
    let leaves = body_leaves(alloc, &rule.body)?;
    for (i, leaf) in leaves.iter().enumerate() {
        find_at(alloc, names, rule, leaf, ways.before(number, i), found)?;
    }
    Ok(())
}

/// What is told at a leaf.
fn find_at(
    alloc: Global,
    names: Names<'_>,
    rule: &Rule,
    leaf: &BodyLeaf<'_>,
    entry: &Before,
    found: &mut Findings,
) -> Result<(), NoMemory>
    requires numbers { AreNumbersOf names.g.now names.numbers.now }
    requires nodes { AreNodeRules names.g.now names.nodes.now }
    ensures { OnOk result (Finds (IsToldAt names.entry.g.now rule.now entry.now (leaf_of leaf.now)) found.old found.new) }
{
    match leaf {
        BodyLeaf::Act(action) => find_at_action(alloc, rule, action, entry, found),
        BodyLeaf::Call(name, span) => {
            if entry.filled && calls_node(names, name) {
                return found.add(alloc, FaultKind::MisplacedCall, rule.file, *span, name);
            }
            Ok(())
        }
        BodyLeaf::Keyword(..) | BodyLeaf::Assign(..) => Ok(()),
    }
}

/// What is told at an action: it comes too late, or takes the node so far where there is none.
fn find_at_action(
    alloc: Global,
    rule: &Rule,
    action: &Action,
    entry: &Before,
    found: &mut Findings,
) -> Result<(), NoMemory>
    ensures { (g : Grammar) → OnOk result (Finds (IsToldAt g rule.now entry.now (leaf.Act action.now)) found.old found.new) }
{
    let misplaced = match &action.put {
        None => entry.behind,
        Some(_) => entry.first,
    };
    if misplaced {
        return found.add(
            alloc,
            FaultKind::MisplacedAction,
            rule.file,
            action.span,
            &rule.name,
        );
    }
    Ok(())
}

/// Whether the name means a rule that makes nodes and is no fragment.
fn calls_node(names: Names<'_>, name: &Name) -> bool
    requires numbers { AreNumbersOf names.g.now names.numbers.now }
    requires nodes { AreNodeRules names.g.now names.nodes.now }
    ensures { (s : Span) → IsTrue result ↔ IsNodeCall names.entry.g.now (leaf.Call name.now s) }
{
    match names.numbers.called(names.g, name) {
        Called::Rule(r, rule) => !rule.is_fragment && names.nodes[r],
        Called::Terminal(..) | Called::Nothing => false,
    }
}
