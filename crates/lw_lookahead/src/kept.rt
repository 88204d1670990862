// What is kept of the choices of a grammar.
ghost use Rattle.std.specs.Prelude.{◌≤◌};
ghost use Rattle.std.specs.List.{All};
ghost use Rattle.lw_lookahead.specs.Entries.{AreEntries};

use indexmap::IndexMap;
use lw_first::heads::Head;

/// For each choice of a grammar, by its number, which way to take by the kinds that come next.
#[derive(Drop)]
pub struct Tables {
    pub(crate) k: usize,
    pub(crate) points: Vec<IndexMap<Head, u16>>,
    ghost most: { k ≤ 3 },
    ghost entries: { All (λ point. AreEntries k point.entries) points.items },
}
