// What a reader may expect of readings, whatever the grammar and the text.
ghost use Rattle.std.specs.Prelude.{◌≡◌, ℕ, List};
ghost use Rattle.lw_grammar.specs.declared.grammar.Grammar.{Grammar};
ghost use Rattle.lw_grammar.specs.KindTexts.{IsKindText};
ghost use Rattle.lw_reading.specs.Laws.{HasNoEmptyKeyword, IsReadOneWay, IsSameReading, WritesNoEmptyKeyword};
ghost use Rattle.lw_reading.specs.Reading.{Reads};
ghost use Rattle.lw_reading.specs.declared.parsed.Parsed.{Parsed};

/// A text has at most one reading by a grammar that has no empty keyword and in which no two sentences have one list of kinds. Of two
/// trees each reader gives the same.
pub fn one_reading()
    ensures { (g : Grammar) → IsReadOneWay g → (text : List ℕ) (p q : Parsed) → Reads g text p → Reads g text q → IsSameReading p q }
{}

/// A kind of a grammar is told by one text.
pub fn one_kind_text()
    ensures { (g : Grammar) (k : ℕ) (text other : List ℕ) → IsKindText g k text → IsKindText g k other → text ≡ other }
{}

/// A grammar of which no rule writes an empty keyword has no empty keyword.
pub fn filled_rules()
    ensures { (g : Grammar) → WritesNoEmptyKeyword g → HasNoEmptyKeyword g }
{}
