// What a reader may expect of sets of tokens, whatever the grammar.
ghost use Rattle.std.specs.Prelude.{◌≡◌, List, [], Option, ℕ};
ghost use Rattle.lw_grammar.specs.declared.grammar.Grammar.{Grammar};
ghost use Rattle.lw_kinds.specs.Rows.{KindRow, AreKindRowOf};
ghost use Rattle.lw_terminals.specs.declared.fault.TermFault.{TermFault};
ghost use Rattle.lw_terminals.specs.TokenSets.{HasTokens, IsOfKindsAndPatterns, CausesNoTokens};

use crate::fault::{MOST_KINDS, MOST_TERMINALS};
use crate::patterns::LONGEST_PATTERN;

/// A grammar that has a set of tokens has none of the faults that its kinds and patterns decide.
pub fn one_answer()
    ensures { (g : Grammar) (listed : List (List ℕ)) (row : KindRow) (refused : Option (List ℕ)) (fault : TermFault) →
        HasTokens g [] → AreKindRowOf g row → IsOfKindsAndPatterns fault → ¬ CausesNoTokens g listed row refused fault }
{}

/// What a maker takes that lists some patterns, one takes that lists none.
pub fn listed_or_not()
    ensures tokens { (g : Grammar) (listed : List (List ℕ)) → HasTokens g listed → HasTokens g [] }
    ensures faults { (g : Grammar) (listed : List (List ℕ)) (row : KindRow) (refused : Option (List ℕ)) (fault : TermFault) →
        CausesNoTokens g listed row refused fault → CausesNoTokens g [] row refused fault }
{}

/// The limits of a set of tokens are these numbers: kinds, the terminals among them, and the bytes of a pattern. Definitions go by
/// the names of the constants.
pub fn limits_of_tokens()
    ensures kinds { MOST_KINDS ≡ 256 }
    ensures terminals { MOST_TERMINALS ≡ 32 }
    ensures pattern { LONGEST_PATTERN ≡ 1_000 }
{}
