// A set of types.
ghost use Rattle.std.specs.Prelude.{◌≡◌, OnOk, OnErr};
ghost use Rattle.std.specs.FinSet as set;

use crate::{NoMemory, TypeId};
use std::alloc::Global;
use std::collections::BTreeSet;
use std::marker::Model;

/// A set of types, seen as the finite set of its members' numbers.
#[derive(Drop)]
pub struct TypeSet {
    members: BTreeSet<u16>,
}

impl Model for TypeSet {
    ghost use Rattle.std.specs.Coded.{coded_ℕ};
    ghost use Rattle.std.specs.FinSet as set;
    ghost use Rattle.std.specs.Ordering.{nat_cmp};

    ghost Value = { set.FinSet nat_cmp };

    ghost coded = { set.code coded_ℕ };

    ghost view = { λ a. set.from_list a.members.keys };
}

impl TypeSet {
    /// The empty set. It takes no memory.
    pub fn new(alloc: Global) -> TypeSet
        ensures { result ≡ set.empty }
    {
        TypeSet {
            members: BTreeSet::new(alloc),
        }
    }

    /// Puts a type in. Where memory is refused the set stays as it was.
    pub fn add(&mut self, t: TypeId) -> Result<(), NoMemory>
        ensures ok { OnOk result (self.new ≡ set.insert self.old t.0) }
        ensures err { OnErr result (self.new ≡ self.old) }
    {
        self.members.insert(t.0)?;
        Ok(())
    }

    /// Whether the type is a member. A look-up takes logarithmic time.
    pub fn holds(&self, t: TypeId) -> bool
        ensures { result ≡ set.contains self.now t.0 }
    {
        self.members.contains(&t.0)
    }
}
