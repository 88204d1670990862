// What leaves put into the bodies that they stand in.
ghost use Rattle.std.specs.Prelude.{◌≡◌, ◌↔◌, MatchOption};
ghost use Rattle.lw_grammar.specs.declared.grammar.Grammar.{Grammar};
ghost use Rattle.lw_numbers.specs.Parts.{leaf_of};
ghost use Rattle.lw_numbers.specs.Tables.{AreNumbersOf};
ghost use Rattle.lw_numbers.specs.Kin.{PutsUp, RulePutsUp, Kin as ANode};
ghost use Rattle.lw_numbers.specs.KinOf.{kin_of};

use crate::Numbers;
use crate::leaves::BodyLeaf;
use crate::subtypes::called::called_rule;
use crate::subtypes::types::type_of;
use lw_base::Name;
use lw_grammar::{Grammar, Rule};

/// A node of the graph of types: a type, or the body of the rule of this number.
#[derive(Clone, Copy, Drop)]
pub(crate) enum Kin<'g> {
    Type(&'g Name),
    Body(usize),
}

/// What the leaf puts into the body that it stands in.
pub(crate) fn put_up<'g>(g: &'g Grammar, numbers: &Numbers, leaf: &BodyLeaf<'g>) -> Option<Kin<'g>>
    requires { AreNumbersOf g.now numbers.now }
    ensures { MatchOption result ((from : ANode) → ¬ PutsUp g.now (leaf_of leaf.now) from)
        (λ kin. (from : ANode) → PutsUp g.now (leaf_of leaf.now) from ↔ (from ≡ kin_of kin)) }
{
    match *leaf {
        BodyLeaf::Act(action) => Some(Kin::Type(&action.type_name)),
        BodyLeaf::Call(name, _) => match called_rule(g, numbers, name) {
            Some((number, rule)) => put_up_by_rule(number, rule),
            None => None,
        },
        BodyLeaf::Keyword(..) | BodyLeaf::Assign(..) => None,
    }
}

/// What a call of the rule of this number puts up.
fn put_up_by_rule(number: usize, rule: &Rule) -> Option<Kin<'_>>
    ensures { (g : Grammar) → MatchOption result ((from : ANode) → ¬ RulePutsUp g number rule.now from)
        (λ kin. (from : ANode) → RulePutsUp g number rule.now from ↔ (from ≡ kin_of kin)) }
{
    if rule.is_fragment {
        return Some(Kin::Body(number));
    }
    match type_of(rule) {
        Some(name) => Some(Kin::Type(name)),
        None => None,
    }
}
