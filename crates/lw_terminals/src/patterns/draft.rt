// A text that is written piece by piece, and held only as long as it is short.
ghost use Rattle.std.specs.Prelude.{ℕ, ◌≡◌, List, [], OnOk, length, min};
ghost use Rattle.lw_terminals.specs.WrittenPatterns.{Says};
ghost use Rattle.lw_terminals.specs.Drafts.{IsDraftOf, PutsText};

use crate::patterns::written::{LONGEST_PATTERN, Written};
use lw_base::{Name, NoMemory};
use std::alloc::Global;

/// A text that grows. Once it is too long only its length is known.
#[derive(Drop)]
pub(crate) struct Draft {
    text: String,
    bytes: u32,
}

impl Draft {
    /// Nothing.
    pub(crate) fn new(alloc: Global) -> Draft
        ensures { IsDraftOf result [] }
    {
        Draft {
            text: String::new(alloc),
            bytes: 0,
        }
    }

    /// Puts the text in behind what stands there.
    pub(crate) fn put(&mut self, text: &str) -> Result<(), NoMemory>
        ensures { OnOk result (PutsText text.now self.old self.new) }
    {
        self.bytes = self.bytes.saturating_add(measured(text));
        if self.bytes as usize <= LONGEST_PATTERN {
            self.text.push_str(text)?;
        }
        Ok(())
    }

    /// Puts in the pattern that this is said of.
    pub(crate) fn put_written(&mut self, written: &Written) -> Result<(), NoMemory>
        ensures { (p : List ℕ) → Says written.now p → OnOk result (PutsText p self.old self.new) }
    {
        match written {
            Written::Short(text) => self.put(text.text())?,
            Written::Long(bytes) => self.bytes = self.bytes.saturating_add(*bytes),
            Written::Unwritten => {}
        }
        Ok(())
    }

    /// What was written.
    pub(crate) fn finish(self) -> Written
        ensures { (p : List ℕ) → IsDraftOf self p → Says result p }
    {
        let Draft { text, bytes } = self;
        if bytes as usize <= LONGEST_PATTERN {
            Written::Short(Name::from_string(text))
        } else {
            Written::Long(bytes)
        }
    }
}

/// How long the text is, in bytes, or the greatest number if it is longer.
fn measured(text: &str) -> u32
    ensures { result ≡ min (length text.now) 4294967295 }
{
    text.len().min(u32::MAX as usize) as u32
}
