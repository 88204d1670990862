// What reads a keyword, a call or the text of a cross-reference.
ghost use Rattle.std.specs.Prelude.{ℕ, List};
ghost use Rattle.lw_grammar.specs.Kinds.{Kinds, AreKinds, IsKeywordKind};
ghost use Rattle.lw_grammar.specs.Marks.{Mark};
ghost use Rattle.lw_grammar.specs.Yields.{Calls};
ghost use Rattle.lw_kinds.specs.Crossing.{IsReadBy};
ghost use Rattle.lw_kinds.specs.LexiconKnown.{IsKnownLexicon};
ghost use Rattle.lw_program.specs.Reach.{IsComplete};
ghost use Rattle.lw_program.specs.Says.{CallsBy};

use crate::Instr;
use lw_base::{KindId, Name};
use lw_kinds::lexicon::{Callee, Lexicon};

/// The kind of a keyword.
pub(crate) fn kind_of(lexicon: Lexicon<'_>, text: &Name) -> KindId
    requires known { IsKnownLexicon lexicon }
    requires has { (kinds : Kinds) → AreKinds lexicon.g.now kinds → (k : ℕ) × IsKeywordKind kinds text.now k }
    ensures { (kinds : Kinds) → AreKinds lexicon.entry.g.now kinds → IsKeywordKind kinds text.now result.0 }
{
    match lexicon.keyword(text) {
        Some(kind) => kind,
        None => unreachable!(),
    }
}

/// What a call of this name does.
pub(crate) fn call_of(lexicon: Lexicon<'_>, name: &Name) -> Instr
    requires known { IsKnownLexicon lexicon }
    requires complete { IsComplete lexicon.g.now }
    requires gives { (kinds : Kinds) → AreKinds lexicon.g.now kinds → (m : List Mark) × Calls lexicon.g.now kinds name.now m }
    ensures { (kinds : Kinds) → AreKinds lexicon.entry.g.now kinds → CallsBy lexicon.entry.g.now kinds name.now result }
{
    match lexicon.callee(name) {
        Callee::Token(kind) => Instr::Token(kind),
        Callee::Rule(number) => Instr::Call {
            rule: number as u16,
        },
        Callee::Nothing => unreachable!(),
    }
}

/// What reads the text of a cross-reference to this type, where this rule is written or none.
pub(crate) fn cross_of(lexicon: Lexicon<'_>, wanted: &Name, written: &Option<Name>) -> Instr
    requires known { IsKnownLexicon lexicon }
    requires complete { IsComplete lexicon.g.now }
    requires has { (name : List ℕ) × IsReadBy lexicon.g.now wanted.now written.now name }
    requires gives { (name : List ℕ) → IsReadBy lexicon.g.now wanted.now written.now name → (kinds : Kinds) → AreKinds lexicon.g.now kinds →
        (m : List Mark) × Calls lexicon.g.now kinds name m }
    ensures { (kinds : Kinds) → AreKinds lexicon.entry.g.now kinds →
        (name : List ℕ) × IsReadBy lexicon.entry.g.now wanted.now written.now name × CallsBy lexicon.entry.g.now kinds name result }
{
    match lexicon.read_by(wanted, written) {
        Some(name) => call_of(lexicon, name),
        None => unreachable!(),
    }
}
