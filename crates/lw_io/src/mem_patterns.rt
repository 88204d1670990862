// Patterns of which some are refused by choice.
use crate::refusals::{Refusals, compile};
use crate::{MakeFault, Patterns};
use lw_base::Name;
use regex::Regex;
use std::alloc::Global;

/// Makes patterns by `regex`, but refuses the texts that it was given.
#[derive(Drop)]
pub struct MemPatterns {
    listed: Vec<Name>,
    refusals: Refusals,
}

impl MemPatterns {
    ghost use Rattle.std.specs.Prelude.{◌≡◌, None};
    ghost use Rattle.lw_io.specs.MemPatterns.{patterns_listed, patterns_last, patterns_faults};

    /// Refuses these texts, and otherwise what `regex` refuses for another cause than memory.
    pub fn new(refused: Vec<Name>) -> MemPatterns
        ensures listed { patterns_listed result ≡ refused.items }
        ensures last { patterns_last result ≡ None }
        ensures faults { patterns_faults result ≡ 0 }
    {
        MemPatterns {
            listed: refused,
            refusals: Refusals::new(),
        }
    }
}

impl Patterns for MemPatterns {
    ghost use Rattle.std.specs.Prelude.{◌≡◌, ◌⊎◌, IfOk, Err, Contains};
    ghost use Rattle.regex.specs.Patterns.{default_config};
    ghost use Rattle.regex.specs.Strings.{regex_source, regex_config, IsReadFromSource};
    ghost use Rattle.lw_io.specs.MemPatterns.{patterns_listed, patterns_last, patterns_faults};
    ghost use Rattle.lw_io.specs.Patterns.{anchored, CountsMake, RegexRefuses, Remembers};

    ghost listed = { patterns_listed };

    ghost last_refused = { patterns_last };

    ghost count = { patterns_faults };

    fn faults(&self) -> u64 {
        self.refusals.count()
    }

    fn refused(&self) -> Option<&Name> {
        self.refusals.last()
    }

    fn make(&mut self, alloc: Global, text: Name) -> Result<Regex, MakeFault>
        ensures source { IfOk result (λ pattern. regex_source pattern ≡ anchored text) }
        ensures config { IfOk result (λ pattern. regex_config pattern ≡ default_config) }
        ensures read { IfOk result IsReadFromSource }
        ensures why { result ≡ Err MakeFault.Refused
            → Contains (patterns_listed self.old) text ⊎ RegexRefuses (anchored text) }
        ensures listed { Contains (patterns_listed self.old) text → result ≡ Err MakeFault.Refused }
        ensures same_list { patterns_listed self.new ≡ patterns_listed self.old }
        ensures refused { Remembers (patterns_last self.old) (patterns_last self.new) text result }
        ensures cause { CountsMake (patterns_faults self.old) (patterns_faults self.new) result }
    {
        let made = if self.listed.contains(&text) {
            Err(MakeFault::Refused)
        } else {
            compile(alloc, &text)
        };
        if let Err(MakeFault::Refused) = &made {
            self.refusals.add(text);
        }
        made
    }
}
