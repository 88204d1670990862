// What a reader may expect of grammars whose ways the next kinds tell apart.
ghost use Rattle.std.specs.Prelude.{ℕ, ◌≡◌, List};
ghost use Rattle.lw_grammar.specs.declared.grammar.Grammar.{Grammar};
ghost use Rattle.lw_grammar.specs.Kinds.{AreKinds, Kinds};
ghost use Rattle.lw_look.specs.Looks.{IsLL};
ghost use Rattle.lw_grammar.specs.Marks.{Mark, kinds_of};
ghost use Rattle.lw_grammar.specs.Sentences.{IsSentence};

/// In a grammar that is strong LL(k) two sentences with the same kinds are one.
pub fn one_sentence()
    ensures { (g : Grammar) (kinds : Kinds) (k : ℕ) (m n : List Mark) → AreKinds g kinds → IsLL g kinds k → IsSentence g kinds m →
        IsSentence g kinds n → kinds_of m ≡ kinds_of n → m ≡ n }
{}
