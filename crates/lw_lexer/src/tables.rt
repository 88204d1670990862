// A set of tokens, with what is known of it before any text is cut.
ghost use Rattle.std.specs.Prelude.{◌≡◌, IfOk, IfSome, Some};
ghost use Rattle.lw_tokens.specs.NextToken.{IsNextToken};
ghost use Rattle.lw_lexer.specs.Place.{next_of};

use crate::front::{Front, known_next};
use crate::fronts::fronts_of;
use crate::next::Next;
use lw_base::{Items, NoMemory};
use lw_matchers::TokenSet;
use regex_nfa::Nfa;
use std::alloc::Global;
use std::marker::Model;

/// A set of tokens by which texts are cut, with what is found out about it once, so that texts are cut with fewer searches. Seen as
/// that set.
pub struct LexerTables {
    set: TokenSet,
    // for each byte the fronts that begin with it
    fronts: Vec<Items<Front>>,
    // the automata of the terminals, or none
    nfas: Vec<Nfa>,
}

impl Drop for LexerTables {
    // In one place, so that whoever drops such a value sees one call and not the drops of all its parts.
    fn drop(self) {
        let LexerTables {
            set: _,
            fronts: _,
            nfas: _,
        } = self;
    }
}

impl Model for LexerTables {
    ghost use Rattle.lw_matchers.specs.TokenKinds.{TokenKinds};
    ghost use Rattle.lw_lexer.specs.Fronts.{AreFronts};
    ghost use Rattle.lw_lexer.specs.Known.{AreInTurn};

    ghost Value = { TokenKinds };

    ghost view = { λ t. t.set };

    ghost invariant = { λ t. AreFronts t.set.lexicon t.fronts.items
        × AreInTurn t.set.lexicon.terminals t.nfas.items };
}

impl LexerTables {
    ghost use Rattle.lw_lexer.specs.Fronts.{AreFronts};
    ghost use Rattle.lw_lexer.specs.Known.{AreInTurn};

    /// The tables of a set. It takes a walk over each keyword and each blank for each byte that may come behind it and each terminal,
    /// and a bounded number of steps in all.
    pub fn of(alloc: Global, set: TokenSet) -> Result<LexerTables, NoMemory>
        ensures { IfOk result (λ tables. tables ≡ set) }
    {
        let Some(nfas) = set.nfas(alloc)? else {
            return Ok(LexerTables {
                set,
                fronts: Vec::new(alloc),
                nfas: Vec::new(alloc),
            });
        };
        let fronts = fronts_of(alloc, &set, nfas.as_slice())?;
        Ok(LexerTables { set, fronts, nfas })
    }

    /// The set.
    pub fn set(&self) -> &TokenSet
        ensures { result.now ≡ self.now }
    {
        &self.set
    }

    /// The fronts that are known, in lists by their first byte.
    pub(crate) fn fronts(&self) -> &[Items<Front>]
        ensures { AreFronts self.now.lexicon result.now }
    {
        self.fronts.as_slice()
    }

    /// The next token of a text where it is known without a search, else none. Only tests ask: that anything is known is promised nowhere.
    pub fn known_next(&self, text: &str) -> Option<Next>
        ensures { IfSome result (λ next. IsNextToken self.now.lexicon text.now (Some (next_of next))) }
    {
        known_next(self.fronts(), text)
    }

    /// The automata of the terminals, in order, or none.
    pub(crate) fn nfas(&self) -> &[Nfa]
        ensures { AreInTurn self.now.lexicon.terminals result.now }
    {
        self.nfas.as_slice()
    }
}
