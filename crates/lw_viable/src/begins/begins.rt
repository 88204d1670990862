// What is told of the places of a program and of its rules.
ghost use Rattle.std.specs.Prelude.{◌≡◌, ◌↔◌, Some, IsTrue, IfOk, true, slice_get};
ghost use Rattle.lw_grammar.specs.Kinds.{Kinds, AreKinds};
ghost use Rattle.lw_viable.specs.Told.{BeginsParts, IsMet, TellsBegins};
ghost use Rattle.lw_kinds.specs.LexiconKnown.{IsKnownLexicon};
ghost use Rattle.lw_program.specs.ProgramOf.{IsProgramOf};
ghost use Rattle.lw_numbers.specs.Kinship.{AreNodeRules};

use crate::begins::empty_places::empty_places;
use crate::begins::rules::{empty_rules, met_kinds, opening_rules};
use lw_base::{KindId, NoMemory};
use lw_first::rule_heads;
use lw_kinds::lexicon::Lexicon;
use lw_program::Program;
use std::alloc::Global;
use std::marker::Model;

/// Which places of a program may read nothing, which kinds may come next at a call of a rule, and which rules make nodes.
pub struct Begins {
    empty: Vec<bool>,
    meets: Vec<Vec<bool>>,
    nodes: Vec<bool>,
}

impl Drop for Begins {
    // In one place, so that whoever drops such a value sees one call and not the drops of all its parts.
    fn drop(self) {
        let Begins {
            empty: _,
            meets: _,
            nodes: _,
        } = self;
    }
}

impl Model for Begins {
    ghost use Rattle.std.specs.Prelude.{map};
    ghost use Rattle.lw_viable.specs.Told.{BeginsParts};

    ghost Value = { BeginsParts };

    ghost view = { λ a. record { empty = a.empty.items; meets = map (λ row. row.items) a.meets.items; nodes = a.nodes.items } };
}

impl Begins {
    /// What is told of a program of the grammar. A flag for each rule says whether it makes nodes. An error is want of memory.
    pub fn of(
        alloc: Global,
        lexicon: Lexicon<'_>,
        program: &Program,
        nodes: &[bool],
    ) -> Result<Begins, NoMemory>
        requires known { IsKnownLexicon lexicon }
        requires told { AreNodeRules lexicon.g.now nodes.now }
        ensures { (kinds : Kinds) (is : IsProgramOf lexicon.entry.g.now kinds program.now) → AreKinds lexicon.entry.g.now kinds →
            IfOk result (λ begins. TellsBegins lexicon.entry.g.now kinds is.tasks begins) }
    {
        let heads = rule_heads(alloc, lexicon, 1)?;
        let calls = empty_rules(alloc, heads.as_slice())?;
        let kinds = lexicon.kinds.keyword_count() + lexicon.kinds.terminal_count();
        Ok(Begins {
            empty: empty_places(alloc, calls.as_slice(), program.code())?,
            meets: met_kinds(alloc, heads.as_slice(), kinds)?,
            nodes: opening_rules(alloc, lexicon.g.rules.as_slice(), nodes)?,
        })
    }

    /// Whether the place may read nothing. Constant time.
    pub fn may_be_empty(&self, place: usize) -> bool
        ensures { IsTrue result ↔ (slice_get self.now.empty place ≡ Some true) }
    {
        self.empty.get(place) == Some(&true)
    }

    /// Whether a token of this kind may come next where the rule is called: what it reads begins with one, or it may read none.
    pub fn may_meet(&self, rule: usize, kind: KindId) -> bool
        ensures { IsTrue result ↔ IsMet self.now.meets rule kind.0 }
    {
        match self.meets.get(rule) {
            None => false,
            Some(row) => row.get(kind.0 as usize) == Some(&true),
        }
    }

    /// Whether a call of the rule is a node of its own.
    pub fn makes_node(&self, rule: usize) -> bool
        ensures { IsTrue result ↔ (slice_get self.now.nodes rule ≡ Some true) }
    {
        self.nodes.get(rule) == Some(&true)
    }
}
