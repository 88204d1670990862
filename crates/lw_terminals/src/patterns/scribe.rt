// What is known where a terminal's body is written.
ghost use Rattle.std.specs.Prelude.{ℕ, ◌↔◌, IsTrue, MatchOption};
ghost use Rattle.lw_grammar.specs.declared.terminal.Terminal.{Terminal};
ghost use Rattle.lw_grammar.specs.Named.{IsTerminal};
ghost use Rattle.lw_terminals.specs.Readiness.{CallsKnown};
ghost use Rattle.lw_terminals.specs.Writing.{IsFoundAt, KnowsPatterns};

use crate::patterns::written::Written;
use lw_base::Name;
use lw_grammar::Grammar;
use lw_numbers::{Called, Numbers};

/// A grammar with what its names mean, and what is known of its terminals' patterns, by place.
#[derive(Clone, Copy)]
pub(crate) struct Scribe<'a> {
    pub(crate) g: &'a Grammar,
    pub(crate) numbers: &'a Numbers,
    pub(crate) written: &'a [Written],
}

impl Scribe<'_> {
    /// The place of the terminal that the name means.
    pub(crate) fn called(&self, name: &Name) -> Option<usize>
        requires { KnowsPatterns self.now }
        ensures { MatchOption result ((t : ℕ) (x : Terminal) → ¬ IsTerminal self.now.g.now name.now t x)
            (λ t. (x : Terminal) × IsTerminal self.now.g.now name.now t x) }
    {
        match self.numbers.called(self.g, name) {
            Called::Terminal(place, _) => Some(place),
            Called::Rule(..) => None,
            Called::Nothing => None,
        }
    }

    /// Whether the pattern of the terminal at this place is known.
    fn is_found(&self, place: usize) -> bool
        ensures { IsTrue result ↔ IsFoundAt self.now.written.now place }
    {
        place < self.written.len() && self.written[place].is_found()
    }

    /// Whether the name means a terminal whose pattern is known.
    pub(crate) fn calls_known(&self, name: &Name) -> bool
        requires { KnowsPatterns self.now }
        ensures { IsTrue result ↔ CallsKnown self.now.g.now (IsFoundAt self.now.written.now) name.now }
    {
        match self.called(name) {
            Some(place) => self.is_found(place),
            None => false,
        }
    }
}
