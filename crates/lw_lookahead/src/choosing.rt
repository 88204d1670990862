// Which way to take by what comes next.
ghost use Rattle.std.specs.Prelude.{ℕ, ◌≡◌, ◌↔◌, Some, slice_get};
ghost use Rattle.lw_grammar.specs.declared.grammar.Grammar.{Grammar};
ghost use Rattle.lw_grammar.specs.Kinds.{Kinds};
ghost use Rattle.lw_look.specs.Choices.{choice_sites};
ghost use Rattle.lw_look.specs.Looks.{Look};
ghost use Rattle.lw_look.specs.Sites.{PartSite};
ghost use Rattle.lw_first.specs.Heads.{seen_in};
ghost use Rattle.lw_lookahead.specs.Tables.{AreTables};

use crate::Tables;
use lw_base::{KindId, PointId};
use lw_first::heads::Head;

impl Tables {
    /// The way, counted from one, that this window comes next at. It takes no memory and expected constant time.
    pub fn choose(&self, point: PointId, window: &[Option<KindId>]) -> Option<u16>
        ensures { (g : Grammar) (kinds : Kinds) (k : ℕ) (s : PartSite) (way : ℕ) → AreTables g kinds k self.now → slice_get (choice_sites g) point.0 ≡ Some s →
            (result ≡ Some way) ↔ Look g kinds k s way (seen_in window.now) }
    {
        let entries = self.points.get(point.0 as usize)?;
        let head = Head::of_window(window, self.k)?;
        entries.get(&head).copied()
    }
}
