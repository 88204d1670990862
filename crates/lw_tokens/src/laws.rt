// What a reader may expect of tokens, whatever the grammar and the text.
ghost use Rattle.std.specs.Prelude.{◌≡◌, ℕ, List};
ghost use Rattle.lw_base.specs.declared.token.Token.{Token};
ghost use Rattle.lw_grammar.specs.Kinds.{Kinds};
ghost use Rattle.lw_grammar.specs.declared.grammar.Grammar.{Grammar};
ghost use Rattle.lw_tokens.specs.Cut.{HasNoTokenAt, IsCut};
ghost use Rattle.lw_tokens.specs.Keywords.{AreKeywords};
ghost use Rattle.lw_tokens.specs.Lexicon.{IsLexicon, Lexicon};

/// A grammar with its kinds has one lexicon.
pub fn one_lexicon()
    ensures { (g : Grammar) (kinds : Kinds) (a b : Lexicon) → IsLexicon g kinds a → IsLexicon g kinds b → a ≡ b }
{}

/// Where the keywords can be told apart, a text has at most one cut into tokens and at most one place where no token stands,
/// and never both.
pub fn one_cut()
    ensures tokens { (lexicon : Lexicon) → AreKeywords lexicon.keywords → (text : List ℕ) (tokens others : List Token) →
        IsCut lexicon text tokens → IsCut lexicon text others → others ≡ tokens }
    ensures place { (lexicon : Lexicon) → AreKeywords lexicon.keywords → (text : List ℕ) (place other : ℕ) →
        HasNoTokenAt lexicon text place → HasNoTokenAt lexicon text other → place ≡ other }
    ensures never_both { (lexicon : Lexicon) → AreKeywords lexicon.keywords → (text : List ℕ) (place : ℕ) (tokens : List Token) →
        HasNoTokenAt lexicon text place → ¬ IsCut lexicon text tokens }
{}
