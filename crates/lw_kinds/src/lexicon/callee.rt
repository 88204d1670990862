// What a call reads.
ghost use Rattle.std.specs.Prelude.{ℕ, List, MatchOption};
ghost use Rattle.lw_grammar.specs.Kinds.{Kinds, AreKinds, IsKeywordKind};
ghost use Rattle.lw_kinds.specs.Crossing.{IsReadBy};
ghost use Rattle.lw_kinds.specs.Callees.{IsCalleeNamed};
ghost use Rattle.lw_kinds.specs.LexiconKnown.{IsKnownLexicon};

use crate::lexicon::Lexicon;
use lw_base::{KindId, Name};
use lw_numbers::Called;

/// What a call by name reads: one token, or what a rule reads.
#[derive(Clone, Copy, Debug, PartialEq, Eq)]
pub enum Callee {
    /// One token of this kind.
    Token(KindId),
    /// The rule of this number.
    Rule(usize),
    /// No rule and no terminal that is a kind has the name.
    Nothing,
}

impl Lexicon<'_> {
    /// The kind of a keyword, in expected constant time.
    pub fn keyword(&self, text: &Name) -> Option<KindId>
        requires { IsKnownLexicon self.now }
        ensures { (kinds : Kinds) → AreKinds self.now.g.now kinds →
            MatchOption result ((k : ℕ) → ¬ IsKeywordKind kinds text.now k) (λ kind. IsKeywordKind kinds text.now kind.0) }
    {
        self.kinds.keyword(text)
    }

    /// What a call of this name reads, in expected constant time for rules.
    pub fn callee(&self, name: &Name) -> Callee
        requires { IsKnownLexicon self.now }
        ensures { (kinds : Kinds) → AreKinds self.now.g.now kinds → IsCalleeNamed self.now.g.now kinds name.now result }
    {
        match self.numbers.called(self.g, name) {
            Called::Rule(number, _) => Callee::Rule(number),
            Called::Terminal(..) => match self.kinds.terminal(self.g, self.numbers, name) {
                Some(kind) => Callee::Token(kind),
                None => Callee::Nothing,
            },
            Called::Nothing => Callee::Nothing,
        }
    }

    /// The name of the rule or terminal that reads a cross-reference to this type, where this rule is written or none.
    pub fn read_by<'a>(&'a self, wanted: &Name, written: &'a Option<Name>) -> Option<&'a Name>
        requires { IsKnownLexicon self.now }
        ensures { MatchOption result ((name : List ℕ) → ¬ IsReadBy self.now.g.now wanted.now written.now name)
            (λ name. IsReadBy self.now.g.now wanted.now written.now name.now) }
    {
        match written {
            Some(name) => Some(name),
            None => self.name_rules.rule_of(wanted),
        }
    }
}
