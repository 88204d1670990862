// What a reader may expect of names that are offered, whatever the grammar and the texts.
ghost use Rattle.std.specs.Prelude.{ℕ, List};
ghost use Rattle.lw_base.specs.declared.token.Token.{Token};
ghost use Rattle.lw_faults.specs.Faults.{IsCheckFault, IsTypeFault};
ghost use Rattle.lw_grammar.specs.declared.fault.GrammarFault.{GrammarFault};
ghost use Rattle.lw_grammar.specs.declared.grammar.Grammar.{Grammar};
ghost use Rattle.lw_grammar.specs.Kinds.{AreKinds, Kinds};
ghost use Rattle.lw_places.specs.Offers.{IsFoundNext, IsMeantThere, LeadsSomewhere, ReadsAsReference};
ghost use Rattle.lw_places.specs.Starting.{ComesNext, ReferenceNext};
ghost use Rattle.lw_reading.specs.Laws.{IsReadOneWay};
ghost use Rattle.lw_scoping.specs.Links.{Trees};
ghost use Rattle.lw_tokens.specs.Cut.{IsCut};
ghost use Rattle.lw_tokens.specs.Lexicon.{IsLexicon, Lexicon};

/// By a grammar without faults a name that is read as a cross-reference and leads somewhere is found without it, where the text with it means
/// the name by its bytes. So of such a name nothing more is asked.
pub fn a_name_that_is_meant_is_found()
    ensures { (g : Grammar) (of : Kinds) (lexicon : Lexicon) (trees : Trees) (address front name rest : List ℕ) (tokens : List Token) (next : ReferenceNext) →
        ((f : GrammarFault) → ¬ IsTypeFault g f) → ((f : GrammarFault) → ¬ IsCheckFault g f) → IsReadOneWay g → AreKinds g of → IsLexicon g of lexicon →
        IsCut lexicon front tokens → ComesNext g of tokens next → (read : ReadsAsReference g of lexicon front tokens next name) →
        LeadsSomewhere g of lexicon trees address front rest tokens next name →
        IsMeantThere g of lexicon trees address front rest tokens read.added name → IsFoundNext g of lexicon trees address front rest tokens name }
{}
