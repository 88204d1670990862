// What is known of a pattern's matches in one text.
ghost use Rattle.std.specs.Prelude.{◌≡◌, ◌≤◌, IfSome, IsCharBoundary, drop, length};
ghost use Rattle.lw_base.specs.declared.limits.TheConstants.{LONGEST_TEXT};
ghost use Rattle.lw_matching.specs.Nfas.{IsNfaOf};
ghost use Rattle.lw_tokens.specs.Matching.{match_length};

use crate::lengths::match_lengths;
use crate::{FirstBytes, Walker};
use lw_base::{LONGEST_TEXT, Name};
use regex_nfa::Nfa;
use std::alloc::Global;
use std::marker::Model;

/// How many steps a walk may take to decide what a search has found, and how many more for each byte of the match.
const NEAR_STEPS: u32 = 64;

const STEPS_OF_A_BYTE: u32 = 16;

/// Of searches that find a match, one in so many is looked at, and stands for all of them. It is a prime, so that where every so many searches
/// of a text read far, some of those are looked at.
const LOOKED_AT: usize = 61;

/// What is known of a pattern's matches in one text, seen as the pattern and the text.
#[derive(Drop)]
pub struct KnownLengths<'t> {
    alloc: Global,
    pattern: &'t Name,
    nfa: &'t Nfa,
    first_bytes: &'t FirstBytes,
    text: &'t str,
    // how many searches have found a match
    matches: usize,
    // how many searches have read far
    far: usize,
    lengths: Option<Vec<Option<u32>>>,
}

impl<'t> Model for KnownLengths<'t> {
    ghost use Rattle.std.specs.Prelude.{◌≤◌, IfSome, length};
    ghost use Rattle.lw_base.specs.declared.limits.TheConstants.{LONGEST_TEXT};
    ghost use Rattle.lw_matching.specs.Nfas.{IsNfaOf};
    ghost use Rattle.lw_matching.specs.Known.{Tried};
    ghost use Rattle.lw_matching.specs.Lengths.{AreMatchLengths};

    ghost Value = { Tried };

    ghost view = { λ k. record { pattern = k.pattern.now; text = k.text.now } };

    ghost invariant = { λ k. IsNfaOf k.pattern.now k.nfa.now × (length k.text.now ≤ LONGEST_TEXT)
        × IfSome k.lengths (λ lengths. AreMatchLengths k.pattern.now k.text.now lengths.items) };
}

impl<'t> KnownLengths<'t> {
    /// Nothing is known yet of the matches of this pattern, which has this automaton, in this text. With a byte whose flag is off no match
    /// begins, so that a search which finds nothing there counts for none that has read far.
    pub fn new(
        alloc: Global,
        pattern: &'t Name,
        nfa: &'t Nfa,
        first_bytes: &'t FirstBytes,
        text: &'t str,
    ) -> KnownLengths<'t>
        requires nfa { IsNfaOf pattern.now nfa.now }
        requires fits { length text.now ≤ LONGEST_TEXT }
        ensures { result ≡ record { pattern = pattern.now; text = text.now } }
    {
        KnownLengths {
            alloc,
            pattern,
            nfa,
            first_bytes,
            text,
            matches: 0,
            far: 0,
            lengths: None,
        }
    }

    /// How many bytes the pattern matches at this place of the text, or that it does not match there, where that is known.
    pub fn length_at(&self, at: usize) -> Option<Option<usize>>
        requires { IsCharBoundary self.now.text at }
        ensures known { IfSome result (λ bytes. bytes ≡ match_length self.now.pattern (drop at self.now.text)) }
        ensures boundary { IfSome result (λ bytes. IfSome bytes (IsCharBoundary (drop at self.now.text))) }
    {
        let Some(lengths) = &self.lengths else {
            return None;
        };
        match lengths[at] {
            None => Some(None),
            Some(bytes) if self.text[at..].is_char_boundary(bytes as usize) => {
                Some(Some(bytes as usize))
            }
            Some(_) => None,
        }
    }

    /// Takes note that a search at this place has found a match of so many bytes, or none. Once as many searches have read far as the automaton
    /// has states, the lengths at all places of the text are found.
    pub fn note_search(&mut self, at: usize, bytes: Option<usize>)
        requires { IsCharBoundary self.old.text at }
        ensures { self.new ≡ self.old }
    {
        let most = self.nfa.states.len();
        let stands_for = self.stands_for(at, bytes);
        if 0 < stands_for && self.far < most && self.reads_far(at, bytes) {
            self.far = self.far.saturating_add(stands_for);
            if most <= self.far {
                self.find_lengths();
            }
        }
    }

    // For how many searches this one is looked at: each that has found nothing is, unless one byte told that, and some of the others.
    fn stands_for(&mut self, at: usize, bytes: Option<usize>) -> usize
        ensures { self.new ≡ self.old }
    {
        if bytes.is_none() {
            return if self.is_ruled_out(at) { 0 } else { 1 };
        }
        self.matches = self.matches.wrapping_add(1);
        if self.matches % LOOKED_AT == 0 {
            LOOKED_AT
        } else {
            0
        }
    }

    // Whether the byte at the place is one with which no match begins.
    fn is_ruled_out(&self, at: usize) -> bool {
        match self.text.as_bytes().get(at) {
            Some(byte) => !self.first_bytes[*byte as usize],
            None => false,
        }
    }

    // Whether a walk of some steps does not decide what the search has found.
    fn reads_far(&self, at: usize, bytes: Option<usize>) -> bool
        requires { IsCharBoundary self.now.text at }
    {
        let bytes = bytes.unwrap_or(0).min(LONGEST_TEXT) as u32;
        let mut walker = Walker::new(self.alloc, NEAR_STEPS + STEPS_OF_A_BYTE * bytes);
        walker.foreseen_length(self.nfa, &self.text[at..]).is_none()
    }

    // Finds the lengths at all places. Where there is no memory for that, nothing is known, as before.
    fn find_lengths(&mut self)
        ensures { self.new ≡ self.old }
    {
        if let Ok(Some(lengths)) = match_lengths(self.alloc, self.nfa, self.text) {
            self.lengths = Some(lengths);
        }
    }
}
