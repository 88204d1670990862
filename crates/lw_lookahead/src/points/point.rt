// A choice with what may come next at its ways.
ghost use Rattle.std.specs.Prelude.{◌≡◌};
ghost use Rattle.lw_lookahead.specs.declared.points.point.PointsFault.TheVariants.{NoMemory as no_memory};

use lw_base::{NoMemory, Span};
use lw_first::heads::HeadSet;

/// How many look-ahead strings a grammar may have.
pub const MOST_STRINGS: usize = 200_000;

/// A choice: the file that it is written in, by its place in load order, its place there, and of each way the heads that may
/// come next.
#[derive(Drop)]
pub struct Point {
    pub file: u16,
    pub span: Span,
    pub ways: Vec<HeadSet>,
}

/// Why the choices of a grammar are not gathered.
#[derive(Clone, Copy, Debug, PartialEq, Eq)]
pub enum PointsFault {
    /// Their ways have more heads than [`MOST_STRINGS`].
    TooMany,
    /// There was no memory.
    NoMemory,
}

impl From<NoMemory> for PointsFault {
    ghost from_gives = { λ _ fault. fault ≡ no_memory };

    fn from(_: NoMemory) -> Self {
        PointsFault::NoMemory
    }
}
