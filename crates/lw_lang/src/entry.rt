// The entry rule.
ghost use Rattle.std.specs.Prelude.{ℕ, ◌≤◌, MatchOption, length};
ghost use Rattle.lw_grammar.specs.declared.rule.Rule.{Rule};
ghost use Rattle.lw_grammar.specs.Named.{IsEntry};

use lw_base::RuleId;
use lw_grammar::Grammar;

/// The number of the entry rule, if there is one.
pub(crate) fn entry(g: &Grammar) -> Option<RuleId>
    requires { length g.now.rules ≤ 65535 }
    ensures { MatchOption result ((r : ℕ) (rule : Rule) → ¬ IsEntry g.now r rule) (λ r. (rule : Rule) × IsEntry g.now r.0 rule) }
{
    match lw_kinds::derivations::entry(g) {
        Some(number) => Some(RuleId(number as u16)),
        None => None,
    }
}
