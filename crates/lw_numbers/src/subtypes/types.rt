// The types of rules.
ghost use Rattle.std.specs.Prelude.{◌≡◌, ◌↔◌, ℕ, List, MatchOption};
ghost use Rattle.lw_grammar.specs.declared.grammar.Grammar.{Grammar};
ghost use Rattle.lw_grammar.specs.Subtypes.{HasType, InfersType};
ghost use Rattle.lw_numbers.specs.Tables.{AreNumbersOf};

use crate::Numbers;
use crate::subtypes::declared::is_declared;
use lw_base::Name;
use lw_grammar::{Grammar, Rule, RuleResult};

/// The name of the type of a rule.
pub(crate) fn type_of(rule: &Rule) -> Option<&Name>
    ensures { (g : Grammar) → MatchOption result ((name : List ℕ) → ¬ HasType g rule.now name)
        (λ own. (name : List ℕ) → HasType g rule.now name ↔ (name ≡ own.now)) }
{
    if rule.is_fragment {
        return None;
    }
    match &rule.result {
        RuleResult::Own => Some(&rule.name),
        RuleResult::Returns(name, _) | RuleResult::Infers(name, _) => Some(name),
        RuleResult::Gives(_) => None,
    }
}

/// The name of the type of a rule, where it is inferred from the rule's body.
pub(crate) fn inferred_type<'r>(g: &Grammar, numbers: &Numbers, rule: &'r Rule) -> Option<&'r Name>
    requires { AreNumbersOf g.now numbers.now }
    ensures { MatchOption result ((name : List ℕ) → ¬ InfersType g.now rule.now name)
        (λ own. (name : List ℕ) → InfersType g.now rule.now name ↔ (name ≡ own.now)) }
{
    match &rule.result {
        RuleResult::Returns(name, _) if is_declared(g, numbers, name) => None,
        _ => type_of(rule),
    }
}
