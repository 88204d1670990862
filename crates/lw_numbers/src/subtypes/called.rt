// The rule that a name means.
ghost use Rattle.std.specs.Prelude.{ℕ, MatchOption};
ghost use Rattle.lw_grammar.specs.declared.rule.Rule.{Rule as ARule};
ghost use Rattle.lw_grammar.specs.Named.{IsRule};
ghost use Rattle.lw_numbers.specs.Tables.{AreNumbersOf};

use crate::{Called, Numbers};
use lw_base::Name;
use lw_grammar::{Grammar, Rule};

/// The rule that the name means, with its number.
pub(crate) fn called_rule<'g>(
    g: &'g Grammar,
    numbers: &Numbers,
    name: &Name,
) -> Option<(usize, &'g Rule)>
    requires { AreNumbersOf g.now numbers.now }
    ensures { MatchOption result ((r : ℕ) (rule : ARule) → ¬ IsRule g.now name.now r rule) (λ found. IsRule g.now name.now found.0 found.1.now) }
{
    match numbers.called(g, name) {
        Called::Rule(number, rule) => Some((number, rule)),
        Called::Terminal(..) | Called::Nothing => None,
    }
}
