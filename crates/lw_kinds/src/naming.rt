// The rule that a cross-reference is read by, by number.
ghost use Rattle.std.specs.Prelude.{ℕ, MatchOption};
ghost use Rattle.lw_grammar.specs.declared.grammar.Grammar.{Grammar};
ghost use Rattle.lw_numbers.specs.Tables.{AreNumbersOf};
ghost use Rattle.lw_numbers.specs.NameTable.{AreNameRulesOf};
ghost use Rattle.lw_kinds.specs.NameRuleNumbers.{IsNameRuleNumber};

use lw_base::{Name, RuleId};
use lw_numbers::Numbers;
use lw_numbers::name_rules::NameRules;

/// The number of the rule or terminal that reads a cross-reference to this type where none is written. Rules and terminals are counted
/// together, rules first. Both look-ups take constant time, as expected.
pub fn name_rule(numbers: &Numbers, name_rules: &NameRules, wanted: &Name) -> Option<RuleId>
    ensures { (g : Grammar) → AreNumbersOf g numbers.now → AreNameRulesOf g name_rules.now →
        MatchOption result ((n : ℕ) → ¬ IsNameRuleNumber g wanted.now n) (λ id. IsNameRuleNumber g wanted.now id.0) }
{
    let name = name_rules.rule_of(wanted)?;
    numbers.rule(name)
}
