// A set of heads.
ghost use Rattle.std.specs.Prelude.{◌≡◌, ◌+◌, ◌<◌, ◌≤◌, [], ◌∷◌, IfOk, OnOk, length, replicate, if◌then◌else◌, true, false};
ghost use Rattle.lw_first.specs.Heads.{kinds_in};
ghost use Rattle.lw_first.specs.Sets.{AddsHeads, AreDistinctHeads, IsAmongHeads, most_heads};

use crate::heads::Head;
use indexmap::IndexSet;
use lw_base::NoMemory;
use std::alloc::Global;
use std::marker::Model;

/// A set of heads, which keeps the order in which they were put in.
#[derive(Drop)]
pub struct HeadSet {
    heads: IndexSet<Head>,
}

impl Model for HeadSet {
    ghost use Rattle.std.specs.Prelude.{List};
    ghost use Rattle.lw_first.specs.declared.heads.head.Head.{Head};
    ghost use Rattle.lw_first.specs.Sets.{AreDistinctHeads, HasSmallKinds};
    ghost use Rattle.std.specs.List.{AllByRecursion};

    ghost Value = { List Head };

    ghost view = { λ a. a.heads.keys };

    ghost invariant = { λ a. AreDistinctHeads a.heads.keys × AllByRecursion HasSmallKinds a.heads.keys };
}

impl HeadSet {
    /// No head. It takes no memory.
    pub fn new(alloc: Global) -> HeadSet
        ensures { result ≡ [] }
    {
        HeadSet {
            heads: IndexSet::new(alloc),
        }
    }

    /// So many sets without a head. Only the list of them takes memory.
    pub fn empty_sets(alloc: Global, count: usize) -> Result<Vec<HeadSet>, NoMemory>
        ensures { IfOk result (λ sets. sets.items ≡ replicate count []) }
    {
        let mut sets = Vec::with_capacity(alloc, count)?;
        for _ in 0..count {
            sets.push(HeadSet::new(alloc))?;
        }
        Ok(sets)
    }

    /// How many heads there are.
    pub fn len(&self) -> usize
        ensures count { result ≡ length self.now }
        ensures few { length self.now ≤ most_heads }
        ensures distinct { AreDistinctHeads self.now }
    {
        self.heads.len()
    }

    /// The heads in the order in which they were put in. None stands twice.
    pub fn as_slice(&self) -> &[Head]
        ensures { result.now ≡ self.now }
    {
        self.heads.as_slice()
    }

    /// Puts a head in, and says whether it is new, in expected constant time. Where it is not, or where memory is refused, the set is as
    /// it was.
    pub fn insert(&mut self, head: Head) -> Result<bool, NoMemory>
        ensures adds { OnOk result (AddsHeads (λ h. h ≡ kinds_in head) self.old self.new) }
        ensures count { IfOk result (λ is_new. length self.new ≡ length self.old + (if is_new then 1 else 0)) }
        ensures same { IfOk result (λ is_new. is_new ≡ false → self.new ≡ self.old) }
    {
        head.has_small_kinds();
        Ok(self.heads.insert(head)?)
    }

    /// Puts all of these in, and says whether one of them is new.
    pub fn insert_all(&mut self, heads: &[Head]) -> Result<bool, NoMemory>
        ensures adds { OnOk result (AddsHeads (IsAmongHeads heads.now) self.old self.new) }
        ensures grows { IfOk result (λ has_new. has_new ≡ true → length self.old < length self.new) }
        ensures same { IfOk result (λ has_new. has_new ≡ false → self.new ≡ self.old) }
    {
        let before = self.len();
        for head in heads {
            self.insert(*head)?;
        }
        Ok(self.len() > before)
    }
}
