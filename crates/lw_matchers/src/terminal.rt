// A terminal with its compiled pattern.
use crate::TerminalMatcher;
use lw_base::{Name, NoMemory};
use lw_matching::FirstBytes;
use regex::Regex;
use std::alloc::Global;
use std::marker::Model;

/// A terminal with its compiled pattern, seen as the text of the pattern and whether its tokens are
/// hidden.
#[derive(Drop)]
pub struct Terminal {
    pattern: Name,
    regex: Regex,
    first_bytes: FirstBytes,
    hidden: bool,
}

impl Model for Terminal {
    ghost use Rattle.lw_tokens.specs.Lexicon.{TerminalForm};
    ghost use Rattle.lw_matching.specs.FirstBytes.{AreFirstBytes};
    ghost use Rattle.lw_matchers.specs.Compiled.{IsCompiled};

    ghost Value = { TerminalForm };

    ghost view = { λ t. record { pattern = t.pattern; hidden = t.hidden } };

    ghost invariant = { λ t. IsCompiled t.pattern t.regex × AreFirstBytes t.pattern t.first_bytes };
}

impl Terminal {
    ghost use Rattle.std.specs.Prelude.{◌≡◌, ◌↔◌, [], IfOk, IsTrue, IsSome, Some};
    ghost use Rattle.lw_io.specs.Patterns.{anchored};
    ghost use Rattle.lw_tokens.specs.Matching.{pattern_of, match_length};
    ghost use Rattle.lw_matching.specs.FirstBytes.{AreFirstBytes};
    ghost use Rattle.lw_matchers.specs.Compiled.{IsCompiled};

    /// The terminal of a pattern that is compiled, and whose first bytes are known.
    pub fn new(pattern: Name, regex: Regex, first_bytes: FirstBytes, hidden: bool) -> Terminal
        requires compiled { IsCompiled pattern regex }
        requires first { AreFirstBytes pattern first_bytes }
        ensures value { result ≡ record { pattern = pattern; hidden = hidden } }
        ensures readable { IsSome (pattern_of (anchored pattern)) }
    {
        Terminal {
            pattern,
            regex,
            first_bytes,
            hidden,
        }
    }

    /// The text of the pattern.
    pub fn pattern(&self) -> &Name
        ensures { result.now ≡ self.now.pattern }
    {
        &self.pattern
    }

    /// For each byte whether a match may begin with it.
    pub fn first_bytes(&self) -> &FirstBytes
        ensures { AreFirstBytes self.now.pattern result.now }
    {
        &self.first_bytes
    }

    /// What finds the terminal's matches.
    pub fn matcher(&self, alloc: Global) -> Result<TerminalMatcher<'_>, NoMemory>
        ensures { IfOk result (λ matcher. matcher ≡ self.now) }
    {
        TerminalMatcher::new(
            alloc,
            &self.pattern,
            &self.regex,
            &self.first_bytes,
            self.hidden,
        )
    }

    /// Whether the pattern matches the empty text.
    pub fn matches_empty(&self, alloc: Global) -> Result<bool, NoMemory>
        ensures { IfOk result (λ empty. IsTrue empty ↔ (match_length self.now.pattern [] ≡ Some 0)) }
    {
        let mut matcher = self.matcher(alloc)?;
        Ok(matcher.match_length("") == Some(0))
    }
}
