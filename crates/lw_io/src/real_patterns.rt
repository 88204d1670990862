// Patterns made by `regex`.
ghost use Rattle.std.specs.Prelude.{◌≡◌, [], None};

use crate::refusals::{Refusals, compile};
use crate::{MakeFault, Patterns};
use lw_base::Name;
use regex::Regex;
use std::alloc::Global;

/// Patterns made by `regex`. Whatever it refuses for another cause than memory is a fault.
#[derive(Drop)]
pub struct RealPatterns {
    refusals: Refusals,
}

impl RealPatterns {
    /// Nothing was refused yet.
    pub fn new() -> RealPatterns
        ensures last { ⟦<RealPatterns as Patterns>⟧.last_refused result ≡ None }
        ensures faults { ⟦<RealPatterns as Patterns>⟧.count result ≡ 0 }
    {
        RealPatterns {
            refusals: Refusals::new(),
        }
    }
}

impl Patterns for RealPatterns {
    ghost listed = { λ _. [] };

    ghost last_refused = { λ p. p.refusals.last };

    ghost count = { λ p. p.refusals.count };

    fn faults(&self) -> u64 {
        self.refusals.count()
    }

    fn refused(&self) -> Option<&Name> {
        self.refusals.last()
    }

    fn make(&mut self, alloc: Global, text: Name) -> Result<Regex, MakeFault> {
        let made = compile(alloc, &text);
        if let Err(MakeFault::Refused) = &made {
            self.refusals.add(text);
        }
        made
    }
}
