// What a reader may expect of the trees of sentences.
ghost use Rattle.std.specs.Prelude.{ℕ, ◌≡◌, ◌≢◌, ◌<◌, List, [], ◌∷◌, ◌++◌, length, All, codes};
ghost use Rattle.lw_base.specs.declared.token.Token.{Token};
ghost use Rattle.lw_grammar.specs.declared.grammar.Grammar.{Grammar};
ghost use Rattle.lw_grammar.specs.declared.fault.GrammarFault.{GrammarFault};
ghost use Rattle.lw_grammar.specs.Kinds.{Kinds};
ghost use Rattle.lw_faults.specs.Faults.{IsCheckFault, IsTypeFault};
ghost use Rattle.lw_grammar.specs.Marks.{Mark};
ghost use Rattle.lw_grammar.specs.Sentences.{IsSentence};
ghost use Rattle.lw_reading.specs.Brackets.{Bracket};
ghost use Rattle.lw_reading.specs.Follows.{Closes, FollowsMarks};
ghost use Rattle.lw_reading.specs.Grown.{Grown};
ghost use Rattle.lw_reading.specs.Trees.{IsTree, IsOpenedTree};
ghost use Rattle.lw_reading.specs.Worked.{state_text, state_tokens, state_tree, word_token};
ghost use Rattle.lw_tree.specs.Parts.{Parts};
ghost use Rattle.lw_reading.specs.Growing.{GrowsOpen, GrowsRoot, ReadMarks};
ghost use Rattle.lw_reading.specs.Within.{StandInRow, StandsInText};

/// Marks that are followed leave one list of open brackets, and that is closed in one way: there is at most one tree of them.
pub fn marks_have_one_tree()
    ensures follows { (g : Grammar) (text : List ℕ) (m : List Mark) (ts : List Token) (bs other : List Bracket) → FollowsMarks g text m ts bs →
        FollowsMarks g text m ts other → bs ≡ other }
    ensures closes { (g : Grammar) (text : List ℕ) (ts : List Token) (bs : List Bracket) (x y : Grown) → Closes g text ts bs x →
        Closes g text ts bs y → x ≡ y }
{}

/// In a grammar without faults each sentence, read with tokens of its kinds, has a tree: its marks leave a root. Each beginning of its marks that
/// is not empty, read so, leaves brackets that can be closed.
pub fn each_sentence_has_a_tree()
    ensures whole { (g : Grammar) (kinds : Kinds) (text : List ℕ) (m : List Mark) (ts : List Token) →
        ((f : GrammarFault) → ¬ IsTypeFault g f) → ((f : GrammarFault) → ¬ IsCheckFault g f) → IsSentence g kinds m →
        ReadMarks ts m → GrowsRoot g text m ts }
    ensures begun { (g : Grammar) (kinds : Kinds) (text : List ℕ) (m others : List Mark) (ts : List Token) →
        ((f : GrammarFault) → ¬ IsTypeFault g f) → ((f : GrammarFault) → ¬ IsCheckFault g f) → IsSentence g kinds (m ++ others) →
        m ≢ [] → ReadMarks ts m → GrowsOpen g text m ts }
{}

/// Where marks are read with tokens of the text that stand one behind the other, each node, value and reference of their tree stands in the text,
/// and so does each one of the tree that is opened by marks which a sentence begins with.
pub fn spans_stand_in_the_text()
    ensures whole { (g : Grammar) (text : List ℕ) (m : List Mark) (seen tokens : List Token) (tree : Parts) → StandInRow text 0 seen →
        IsTree g text m seen tokens tree → StandsInText text tree }
    ensures begun { (g : Grammar) (text : List ℕ) (m : List Mark) (seen tokens : List Token) (tree : Parts) → StandInRow text 0 seen →
        IsOpenedTree g text m seen tokens tree → StandsInText text tree }
{}

/// Each reference of a tree, and of one that is opened, stands in one of its nodes.
pub fn references_stand_in_nodes()
    ensures whole { (g : Grammar) (text : List ℕ) (m : List Mark) (seen tokens : List Token) (tree : Parts) → IsTree g text m seen tokens tree →
        All (λ r. r.owner.0 < length tree.nodes) tree.refs }
    ensures begun { (g : Grammar) (text : List ℕ) (m : List Mark) (seen tokens : List Token) (tree : Parts) → IsOpenedTree g text m seen tokens tree →
        All (λ r. r.owner.0 < length tree.nodes) tree.refs }
{}

/// The tokens of `model m state x to x end` stand in a row in it, and its tree stands in it, but not in the empty text. A token that begins
/// before the end of the one before it, and one that ends behind the end of the text, do not stand in a row.
pub fn tokens_stand_in_a_row()
    ensures row { StandInRow state_text 0 state_tokens }
    ensures tree { StandsInText state_text state_tree }
    ensures nothing { ¬ StandsInText [] state_tree }
    ensures overlap { ¬ StandInRow (codes "ab") 0 (word_token 0 0 2 ∷ word_token 0 1 2 ∷ []) }
    ensures outside { ¬ StandInRow (codes "a") 0 (word_token 0 0 2 ∷ []) }
{}
