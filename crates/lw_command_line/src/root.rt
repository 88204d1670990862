// A grammar as the words name it.
ghost use Rattle.std.specs.Prelude.{◌≤◌};

use lw_base::Name;

/// The path of a grammar, and how many kinds a reader may look ahead.
#[derive(Clone, Copy)]
pub struct Root<'a> {
    /// The path of its root file.
    pub path: &'a Name,
    /// How many kinds of tokens tell the ways of a choice apart: from 1 to 3.
    pub k: u8,
    ghost least: { 1 ≤ k },
    ghost most: { k ≤ 3 },
}
