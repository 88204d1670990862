// What makes regular expressions.
ghost use Rattle.std.specs.Prelude.{◌≡◌, ◌⊎◌, List, ℕ, Option, IfOk, Err, Contains, option_map};
ghost use Rattle.regex.specs.Patterns.{default_config};
ghost use Rattle.regex.specs.Strings.{regex_source, regex_config, IsReadFromSource};
ghost use Rattle.lw_io.specs.Patterns.{anchored, CountsMake, RegexRefuses, Remembers};

use lw_base::Name;
use regex::Regex;
use std::alloc::Global;

/// Why a pattern was not made.
#[derive(Clone, Copy, Debug, PartialEq, Eq)]
pub enum MakeFault {
    /// The text is refused, as no pattern or as one that is too large. The fault is counted, and the text
    /// is kept.
    Refused,
    /// There was no memory for the pattern. Nothing has changed.
    NoMemory,
}

/// What makes regular expressions, and remembers the text that it refused last.
pub trait Patterns {
    /// The texts that are refused whatever `regex` says of them.
    ghost listed: { Self → List (List ℕ) };

    /// The text of the last call that was refused, None before the first.
    ghost last_refused: { Self → Option (List ℕ) };

    /// How many calls were refused.
    ghost count: { Self → ℕ };

    /// How many calls were refused: a refusal raises the count by one, and it stands still at 2^64 - 1.
    /// It never falls.
    fn faults(&self) -> u64
        ensures { result ≡ count self.now };

    /// The text of the last call that was refused, None before the first.
    fn refused(&self) -> Option<&Name>
        ensures { option_map (λ text. text.now) result ≡ last_refused self.now };

    /// Makes the pattern `\A(?:text)` under the default options of `regex`, which matches at the start of
    /// what it is tried on alone. A listed text is refused, and of the others those whose pattern `regex`
    /// refuses for another cause than memory: its grammar does not read it, or it is too big.
    fn make(&mut self, alloc: Global, text: Name) -> Result<Regex, MakeFault>
        ensures source { IfOk result (λ pattern. regex_source pattern ≡ anchored text) }
        ensures config { IfOk result (λ pattern. regex_config pattern ≡ default_config) }
        ensures read { IfOk result IsReadFromSource }
        ensures why { result ≡ Err MakeFault.Refused
            → Contains (listed self.old) text ⊎ RegexRefuses (anchored text) }
        ensures listed { Contains (listed self.old) text → result ≡ Err MakeFault.Refused }
        ensures same_list { listed self.new ≡ listed self.old }
        ensures refused { Remembers (last_refused self.old) (last_refused self.new) text result }
        ensures cause { CountsMake (count self.old) (count self.new) result };
}
