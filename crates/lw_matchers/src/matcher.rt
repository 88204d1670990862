// What finds the matches of a terminal.
use lw_base::{Name, NoMemory};
use lw_matching::FirstBytes;
use regex::{Matcher, Regex};
use std::alloc::Global;
use std::marker::Model;

/// What finds the matches of a terminal, seen as the text of its pattern and whether its tokens are
/// hidden. Its caches grow as it is used, and no search fails.
#[derive(Drop)]
pub struct TerminalMatcher<'t> {
    pattern: &'t Name,
    matcher: Matcher<'t>,
    first_bytes: &'t FirstBytes,
    hidden: bool,
}

impl<'t> Model for TerminalMatcher<'t> {
    ghost use Rattle.lw_tokens.specs.Lexicon.{TerminalForm};
    ghost use Rattle.regex.specs.Strings.{matcher_pattern};
    ghost use Rattle.lw_matching.specs.FirstBytes.{AreFirstBytes};
    ghost use Rattle.lw_matchers.specs.Compiled.{MatchesAs};

    ghost Value = { TerminalForm };

    ghost view = { λ m. record { pattern = m.pattern.now; hidden = m.hidden } };

    ghost invariant = { λ m. MatchesAs m.pattern.now (matcher_pattern m.matcher)
        × AreFirstBytes m.pattern.now m.first_bytes.now };
}

impl<'t> TerminalMatcher<'t> {
    ghost use Rattle.std.specs.Prelude.{◌≡◌, None, IfOk, IfSome, IsCharBoundary, IsTrue};
    ghost use Rattle.lw_tokens.specs.Matching.{match_length};
    ghost use Rattle.lw_matching.specs.FirstBytes.{AreFirstBytes};
    ghost use Rattle.lw_matchers.specs.Compiled.{IsCompiled};

    pub(crate) fn new(
        alloc: Global,
        pattern: &'t Name,
        regex: &'t Regex,
        first_bytes: &'t FirstBytes,
        hidden: bool,
    ) -> Result<TerminalMatcher<'t>, NoMemory>
        requires compiled { IsCompiled pattern.now regex.now }
        requires first { AreFirstBytes pattern.now first_bytes.now }
        ensures { IfOk result (λ matcher. matcher ≡ record { pattern = pattern.now; hidden = hidden }) }
    {
        let matcher = regex.matcher(alloc)?;
        Ok(TerminalMatcher {
            pattern,
            matcher,
            first_bytes,
            hidden,
        })
    }

    /// Whether the parser skips the terminal's tokens.
    pub fn is_hidden(&self) -> bool
        ensures { result ≡ self.now.hidden }
    {
        self.hidden
    }

    /// How many bytes at the start of the text the terminal matches.
    pub fn match_length(&mut self, text: &str) -> Option<usize>
        ensures length { result ≡ match_length self.old.pattern text.now }
        ensures boundary { IfSome result (IsCharBoundary text.now) }
        ensures same { self.new ≡ self.old }
    {
        if self.is_ruled_out(text) {
            return None;
        }
        match self.matcher.find(text) {
            Some(found) if found.start() == 0 => Some(found.end()),
            _ => None,
        }
    }

    // Whether the text's first byte tells that the terminal does not match: one look into a table.
    #[tactic(auto, using(crate::proofs::FirstByteLemmas::ruled_out))]
    fn is_ruled_out(&self, text: &str) -> bool
        ensures { IsTrue result → match_length self.now.pattern text.now ≡ None }
    {
        match text.as_bytes() {
            [first, ..] => !self.first_bytes[*first as usize],
            [] => false,
        }
    }
}
