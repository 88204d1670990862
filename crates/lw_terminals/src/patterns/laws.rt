// What a reader may expect of patterns, whatever the grammar.
ghost use Rattle.std.specs.Prelude.{◌≡◌, ℕ, List, Contains};
ghost use Rattle.lw_grammar.specs.declared.fault.GrammarFault.{GrammarFault};
ghost use Rattle.lw_grammar.specs.declared.grammar.Grammar.{Grammar};
ghost use Rattle.lw_grammar.specs.declared.terminal.Terminal.{Terminal};
ghost use Rattle.lw_faults.specs.Faults.{IsTypeFault, IsCheckFault};
ghost use Rattle.lw_tokens.specs.Patterns.{TerminalPattern};
ghost use Rattle.lw_grammar.specs.WellFormed.{IsWellFormed};

/// A terminal has at most one pattern.
pub fn one_pattern()
    ensures { (g : Grammar) (t : Terminal) (p q : List ℕ) → TerminalPattern g t p → TerminalPattern g t q → p ≡ q }
{}

/// In a grammar without faults each terminal has a pattern, if each choice in a terminal has a part and no
/// rule stands where a terminal stands.
pub fn each_has_a_pattern()
    ensures { (g : Grammar) → IsWellFormed g → ((f : GrammarFault) → ¬ IsTypeFault g f) → ((f : GrammarFault) → ¬ IsCheckFault g f) →
        (t : Terminal) → Contains g.terminals t → (p : List ℕ) × TerminalPattern g t p }
{}
