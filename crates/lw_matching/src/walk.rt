// Walks of NFAs over texts.
ghost use Rattle.std.specs.Prelude.{◌≡◌, ◌≤◌, List, ℕ, IfSome};
ghost use Rattle.regex_hir.specs.Re.{Re};
ghost use Rattle.regex_compile.specs.Implements.{Implements};
ghost use Rattle.lw_matching.specs.Nfas.{IsNfaOf, IsForeseen};
ghost use Rattle.lw_matching.specs.Walk.{EndStays, MatchStays};

use crate::step::{Onward, step};
use regex_nfa::{Nfa, StateId};
use std::alloc::Global;
use std::marker::Model;

/// A state and a position that are still to be tried.
#[derive(Clone, Copy, Debug, PartialEq, Eq)]
pub(crate) struct Way {
    pub(crate) state: StateId,
    pub(crate) at: usize,
}

/// What walks over the NFAs of patterns, seen as how many steps it may still take.
#[derive(Drop)]
pub struct Walker {
    steps: u32,
    ways: Vec<Way>,
}

impl Model for Walker {
    ghost use Rattle.std.specs.Prelude.{ℕ};

    ghost Value = { ℕ };

    ghost view = { λ w. w.steps };
}

impl Walker {
    /// A walker that takes at most so many steps in all.
    pub fn new(alloc: Global, steps: u32) -> Walker
        ensures { result ≡ steps }
    {
        Walker {
            steps,
            ways: Vec::new(alloc),
        }
    }

    /// How many bytes the pattern of the NFA matches at the start of the text, or that it matches none, if that is so
    /// whatever follows the text. Nothing is told where what follows may decide, and where steps or memory do not suffice.
    pub fn foreseen_length(&mut self, nfa: &Nfa, text: &str) -> Option<Option<usize>>
        ensures foreseen { IfSome result (λ bytes. (pattern : List ℕ) → IsNfaOf pattern nfa.now → IsForeseen pattern text.now bytes) }
        ensures left { self.new ≤ self.old }
    {
        self.foreseen_match(nfa, text)
    }

    // The same of every pattern that the NFA implements.
    fn foreseen_match(&mut self, nfa: &Nfa, text: &str) -> Option<Option<usize>>
        ensures foreseen { IfSome result (λ bytes. (re : Re) → Implements nfa.now re → MatchStays re text.now bytes) }
        ensures left { self.new ≤ self.old }
    {
        if text.is_empty() {
            return None;
        }
        self.foreseen_end(nfa, text.as_bytes())
    }

    // Where the NFA's match at the start of the text ends, or that there is none, if that is so whatever follows the text.
    fn foreseen_end(&mut self, nfa: &Nfa, text: &[u8]) -> Option<Option<usize>>
        ensures foreseen { IfSome result (EndStays nfa.now text.now) }
        ensures left { self.new ≤ self.old }
    {
        self.ways.clear();
        let mut state = nfa.start;
        let mut at = 0;
        'walk: while self.steps > 0 {
            self.steps -= 1;
            match step(nfa, text, state, at) {
                Onward::Go(next, place) => {
                    state = next;
                    at = place;
                }
                Onward::Both(first, second) => {
                    let way = Way { state: second, at };
                    match self.ways.push(way) {
                        Ok(()) => state = first,
                        Err(_) => return None,
                    }
                }
                Onward::Back => match self.ways.pop() {
                    Some(way) => {
                        state = way.state;
                        at = way.at;
                    }
                    None => return Some(None),
                },
                Onward::Ends => return Some(Some(at)),
                Onward::Unknown => return None,
            }
        }
        None
    }
}
