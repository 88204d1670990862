// What the definition of readings says.
ghost use Rattle.std.specs.Prelude.{ℕ, ◌≡◌, List, [], ◌∷◌};
ghost use Rattle.lw_grammar.specs.declared.grammar.Grammar.{Grammar};
ghost use Rattle.lw_grammar.specs.Kinds.{Kinds};
ghost use Rattle.lw_grammar.specs.Marks.{Mark, Open, kinds_of};
ghost use Rattle.lw_parse.specs.Readings.{IsReading};

/// Of no kinds there is one reading, the opening of the entry rule, and the tokens of each reading have its kinds.
pub fn readings_have_their_kinds()
    ensures none { (g : Grammar) (of : Kinds) (entry : ℕ) (m : List Mark) → IsReading g of entry [] m → m ≡ Open entry ∷ [] }
    ensures kinds { (g : Grammar) (of : Kinds) (entry : ℕ) (ks : List ℕ) (m : List Mark) → IsReading g of entry ks m → kinds_of m ≡ ks }
{}
