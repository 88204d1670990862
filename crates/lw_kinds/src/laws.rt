// What a reader may expect of the kinds of a grammar, whatever the grammar, and what they are of one that is written out.
ghost use Rattle.std.specs.Prelude.{ℕ, ◌≡◌, codes};
ghost use Rattle.lw_grammar.specs.declared.grammar.Grammar.{Grammar};
ghost use Rattle.lw_grammar.specs.Kinds.{Kinds, AreKinds, IsTerminalKind};
ghost use Rattle.lw_kinds.specs.Rows.{KindRow, AreKindRowOf};
ghost use Rattle.lw_kinds.specs.Uses.{IsFirstUse};
ghost use Rattle.lw_kinds.specs.Worked.{unused_first, unused_first_row, use_at};

/// A grammar has one row of kinds.
pub fn one_row()
    ensures { (g : Grammar) (one other : KindRow) → AreKindRowOf g one → AreKindRowOf g other → one ≡ other }
{}

/// What a rule uses that is not reached makes no kind, and is no first use; a hidden terminal is a kind that nothing calls.
pub fn reached_alone()
    ensures row { AreKindRowOf unused_first unused_first_row }
    ensures not_there { ¬ IsFirstUse unused_first (use_at (codes "k") 18) }
    ensures no_kind { (kinds : Kinds) (k : ℕ) → AreKinds unused_first kinds → ¬ IsTerminalKind unused_first kinds (codes "INT") k }
{}
