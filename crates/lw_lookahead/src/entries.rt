// The heads of the ways of a choice.
ghost use Rattle.std.specs.Prelude.{ℕ, ◌≡◌, ◌+◌, ◌<◌, ◌≤◌, ◌⊎◌, List, [], ◌∷◌, ◌++◌, Some, IfSome, IfOk, OnOk, length, slice_get};
ghost use Rattle.lw_first.specs.declared.heads.head.Head.{Head as the_head};
ghost use Rattle.lw_lookahead.specs.Entries.{AreUpTo, IsNoLaterPair, of_way, of_ways};
ghost use Rattle.lw_lookahead.specs.Gathered.{AreGatheredWays};

use indexmap::IndexMap;
use lw_base::NoMemory;
use lw_first::heads::{Head, HeadSet};
use std::alloc::Global;

/// The heads of the ways of a choice, each with the first way that has it, and the least pair of ways that have one in common.
#[derive(Drop)]
pub(crate) struct Entries {
    pub(crate) ways: IndexMap<Head, u16>,
    pub(crate) pair: Option<(u16, u16)>,
}

impl Entries {
    /// Those of ways, which are counted from one.
    pub(crate) fn of(alloc: Global, ways: &[HeadSet]) -> Result<Entries, NoMemory>
        requires { (i : ℕ) (heads : List the_head) → slice_get ways.now i ≡ Some heads → 0 < length heads → i < 65535 }
        ensures { IfOk result (AreGatheredWays (of_ways 1 ways.now)) }
    {
        let mut entries = Entries {
            ways: IndexMap::new(alloc),
            pair: None,
        };
        for (place, heads) in ways.iter().enumerate() {
            entries.put_way(heads.as_slice(), place + 1)?;
        }
        Ok(entries)
    }

    /// Puts in the heads of a way. Those of earlier ways are there.
    fn put_way(&mut self, heads: &[Head], way: usize) -> Result<(), NoMemory>
        requires { 0 < length heads.now → way ≤ 65535 }
        ensures { OnOk result ((pairs : List (the_head × ℕ)) → AreGatheredWays pairs self.old → AreUpTo way pairs → AreGatheredWays (pairs ++ of_way way heads.now) self.new) }
    {
        for head in heads {
            self.put(*head, way as u16)?;
        }
        Ok(())
    }

    /// Puts in a head of a way. No later way is there.
    fn put(&mut self, head: Head, way: u16) -> Result<(), NoMemory>
        ensures { OnOk result ((pairs : List (the_head × ℕ)) → AreGatheredWays pairs self.old → AreUpTo way pairs → AreGatheredWays (pairs ++ (head, way) ∷ []) self.new) }
    {
        match self.ways.get(&head).copied() {
            None => {
                self.ways.insert(head, way)?;
            }
            Some(first) if first < way => self.pair = Some(least(self.pair, (first, way))),
            Some(_) => {}
        }
        Ok(())
    }
}

/// The one of two pairs that comes first.
fn least(pair: Option<(u16, u16)>, other: (u16, u16)) -> (u16, u16)
    ensures one { (result ≡ other) ⊎ (pair ≡ Some result) }
    ensures here { IsNoLaterPair result other.0 other.1 }
    ensures there { IfSome pair (λ pair. IsNoLaterPair result pair.0 pair.1) }
{
    match pair {
        Some(pair) => pair.min(other),
        None => other,
    }
}
