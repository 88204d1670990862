// The bytes with which the texts begin that a pattern matches at their start.
ghost use Rattle.std.specs.Prelude.{List, ℕ, IfOk};
ghost use Rattle.lw_matching.specs.FirstBytes.{AreFirstBytes};

use crate::nfa_of;
use lw_base::{Name, NoMemory};
use regex_levels::first_level;
use std::alloc::Global;

/// A flag for each byte: where it is off, no text that begins with the byte is matched at its start.
pub type FirstBytes = [bool; 256];

/// The flags of a terminal's pattern. They are all on where nothing is known.
#[tactic(auto, using(crate::proofs::FirstByteLemmas::first_of_nfa))]
pub fn first_bytes_of(alloc: Global, pattern: &Name) -> Result<FirstBytes, NoMemory>
    ensures { IfOk result (AreFirstBytes pattern.now) }
{
    let Some(nfa) = nfa_of(alloc, pattern)? else {
        return Ok(every_byte());
    };
    match first_level(alloc, &nfa)? {
        Some(flags) => Ok(flags),
        None => Ok(every_byte()),
    }
}

// Flags that rule nothing out.
#[tactic(auto, using(crate::proofs::FirstByteLemmas::all_on))]
fn every_byte() -> FirstBytes
    ensures { (pattern : List ℕ) → AreFirstBytes pattern result }
{
    [true; 256]
}
