// The kinds of a grammar.
ghost use Rattle.std.specs.Prelude.{ℕ, ◌≡◌, ◌+◌, ◌≤◌, ◌<◌, IfOk, IfSome, MatchOption, Contains, Some, length, slice_get};
ghost use Rattle.lw_grammar.specs.declared.grammar.Grammar.{Grammar};
ghost use Rattle.lw_grammar.specs.Kinds.{Kinds, AreKinds, IsKeywordKind, IsTerminalKind};
ghost use Rattle.lw_grammar.specs.Size.{size};
ghost use Rattle.lw_numbers.specs.Tables.{AreNumbersOf};
ghost use Rattle.lw_numbers.specs.NameTable.{AreNameRulesOf};
ghost use Rattle.lw_kinds.specs.Reading.{IsReadingOf};
ghost use Rattle.lw_kinds.specs.Rows.{AreKindRowOf};
ghost use Rattle.lw_kinds.specs.Uses.{IsFirstUse};

use crate::derivations::Reading;
use crate::gathering::Gathered;
use crate::names::{Names, terminal_place};
use crate::terminals::kind_places;
use indexmap::IndexMap;
use lw_base::{KindId, Name, NoMemory, Span};
use lw_grammar::Grammar;
use lw_numbers::Numbers;
use lw_numbers::name_rules::NameRules;
use std::alloc::Global;
use std::marker::Model;

/// Where a keyword is first used: the file, by its place in load order, and the place there.
#[derive(Clone, Copy, Debug, PartialEq, Eq)]
pub struct FirstUse {
    pub file: u16,
    pub span: Span,
}

/// The kinds of tokens of a grammar, in their order: keywords, then terminals.
#[derive(Drop)]
pub struct KindTable {
    keywords: IndexMap<Name, FirstUse>,
    terminals: Vec<u16>,
}

impl Model for KindTable {
    ghost use Rattle.std.specs.Prelude.{◌+◌, ◌≤◌, length};
    ghost use Rattle.lw_kinds.specs.Rows.{KindRow};

    ghost Value = { KindRow };

    ghost view = { λ a. record { keywords = a.keywords.entries; terminals = a.terminals.items } };

    ghost invariant = { λ a. length a.keywords.entries + length a.terminals.items ≤ 65535 };
}

impl KindTable {
    /// Those of a grammar, in one walk over its rules.
    pub fn of(
        alloc: Global,
        g: &Grammar,
        numbers: &Numbers,
        name_rules: &NameRules,
        reading: &Reading,
    ) -> Result<KindTable, NoMemory>
        requires numbered { AreNumbersOf g.now numbers.now }
        requires related { AreNameRulesOf g.now name_rules.now }
        requires read { IsReadingOf g.now reading.now }
        requires small { size g.now ≤ 65535 }
        ensures { IfOk result (AreKindRowOf g.now) }
    {
        let names = Names {
            g,
            numbers,
            name_rules,
        };
        let Gathered { keywords, called } = names.gather(alloc, reading)?;
        let terminals = kind_places(alloc, g.terminals.as_slice(), called.as_slice())?;
        Ok(KindTable {
            keywords,
            terminals,
        })
    }

    /// The number of the kind of a keyword.
    pub fn keyword(&self, text: &Name) -> Option<KindId>
        ensures { (g : Grammar) (kinds : Kinds) → AreKindRowOf g self.now → AreKinds g kinds →
            MatchOption result ((k : ℕ) → ¬ IsKeywordKind kinds text.now k) (λ id. IsKeywordKind kinds text.now id.0) }
    {
        let number = self.keywords.get_index_of(text)?;
        Some(KindId(number as u16))
    }

    /// The number of the kind of the terminal that the name means.
    pub fn terminal(&self, g: &Grammar, numbers: &Numbers, name: &Name) -> Option<KindId>
        requires numbered { AreNumbersOf g.now numbers.now }
        requires kinds { AreKindRowOf g.now self.now }
        ensures { (kinds : Kinds) → AreKinds g.now kinds →
            MatchOption result ((k : ℕ) → ¬ IsTerminalKind g.now kinds name.now k) (λ id. IsTerminalKind g.now kinds name.now id.0) }
    {
        let place = terminal_place(g, numbers, name)?;
        let number = self.number_of(place)?;
        Some(KindId((self.keywords.len() + number) as u16))
    }

    /// Where the place stands among those of the terminals that are kinds.
    fn number_of(&self, place: usize) -> Option<usize>
        ensures within { IfSome result (λ number. number < length self.now.terminals) }
        ensures place { (g : Grammar) → AreKindRowOf g self.now →
            MatchOption result (¬ Contains self.now.terminals place) (λ number. slice_get self.now.terminals number ≡ Some place) }
    {
        self.terminals
            .as_slice()
            .binary_search_by_key(&place, |other| usize::from(*other))
            .ok()
    }

    /// How many keywords there are. Their kinds have the numbers below.
    pub fn keyword_count(&self) -> usize
        ensures count { result ≡ length self.now.keywords }
        ensures small { result + length self.now.terminals ≤ 65535 }
    {
        self.keywords.len()
    }

    /// How many terminals are kinds. Their numbers come after those of the keywords.
    pub fn terminal_count(&self) -> usize
        ensures count { result ≡ length self.now.terminals }
        ensures small { length self.now.keywords + result ≤ 65535 }
    {
        self.terminals.len()
    }

    /// The keyword whose kind has this number.
    pub fn keyword_at(&self, k: usize) -> &Name
        requires { k < length self.now.keywords }
        ensures text { IfSome (slice_get self.now.keywords k) (λ word. word.0 ≡ result.now) }
        ensures kind { (g : Grammar) (kinds : Kinds) → AreKindRowOf g self.now → AreKinds g kinds → IsKeywordKind kinds result.now k }
    {
        let (text, _) = self.entry(k);
        text
    }

    /// Where the keyword whose kind has this number is first used.
    pub fn first_use(&self, k: usize) -> FirstUse
        requires { k < length self.now.keywords }
        ensures place { IfSome (slice_get self.now.keywords k) (λ word. word.1 ≡ result) }
        ensures first { (g : Grammar) → AreKindRowOf g self.now → IfSome (slice_get self.now.keywords k) (λ word. IsFirstUse g (word.0, result)) }
    {
        let (_, first) = self.entry(k);
        *first
    }

    fn entry(&self, k: usize) -> (&Name, &FirstUse)
        requires { k < length self.now.keywords }
        ensures { slice_get self.now.keywords k ≡ Some (result.0.now, result.1.now) }
    {
        match self.keywords.get_index(k) {
            Some(entry) => entry,
            None => unreachable!(),
        }
    }

    /// The place among the grammar's terminals of the one of this number among those that are kinds.
    pub fn terminal_at(&self, i: usize) -> usize
        requires { i < length self.now.terminals }
        ensures place { slice_get self.now.terminals i ≡ Some result }
        ensures within { (g : Grammar) → AreKindRowOf g self.now → result < length g.terminals }
        ensures terminal { (g : Grammar) (kinds : Kinds) → AreKindRowOf g self.now → AreKinds g kinds → slice_get g.terminals result ≡ slice_get kinds.terminals i }
    {
        self.terminals[i] as usize
    }
}
