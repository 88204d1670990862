// What a reader may expect of grammars that are compiled.
ghost use Rattle.std.specs.Prelude.{ℕ};
ghost use Rattle.lw_grammar.specs.declared.grammar.Grammar.{Grammar};
ghost use Rattle.lw_reading.specs.Laws.{IsReadOneWay};
ghost use Rattle.lw_lang.specs.Compiled.{IsClear};

/// A grammar that is compiled has no empty keyword, and no two of its sentences have one list of kinds: a text is read by it in one way.
pub fn compiled_grammars_are_read_in_one_way()
    ensures { (g : Grammar) (k : ℕ) → IsClear g k → IsReadOneWay g }
{}
