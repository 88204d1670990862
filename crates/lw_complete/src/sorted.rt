// Names in order.
ghost use Rattle.std.specs.Prelude.{ℕ, ◌≡◌, ◌↔◌, List, Contains, IsTrue};

use lw_base::Name;
use std::marker::Model;

/// Names in the order of their bytes, each once, seen as the list of them.
#[derive(Drop)]
pub(crate) struct SortedNames {
    names: Vec<Name>,
}

impl Model for SortedNames {
    ghost use Rattle.std.specs.Prelude.{ℕ, ◌≡◌, List, AllPairs};
    ghost use Rattle.std.specs.Cmp.Lexicographic.{slice_cmp};
    ghost use Rattle.std.specs.Ordering.{nat_cmp};
    ghost use Rattle.std.specs.declared.cmp.Ordering.TheVariants.{Less};

    ghost Value = { List (List ℕ) };

    ghost view = { λ s. s.names.items };

    ghost invariant = { λ s. AllPairs (λ one other. slice_cmp nat_cmp one other ≡ Less) s.names.items };
}

impl SortedNames {
    /// These, put in order.
    pub(crate) fn of(mut names: Vec<Name>) -> SortedNames
        ensures { (name : List ℕ) → Contains result name ↔ Contains names.items name }
    {
        names.sort_unstable();
        names.dedup();
        SortedNames { names }
    }

    pub(crate) fn as_slice(&self) -> &[Name]
        ensures { result.now ≡ self.now }
    {
        self.names.as_slice()
    }

    /// Whether the name is one of them. Takes the time of a search by halves.
    pub(crate) fn has(&self, name: &Name) -> bool
        ensures { IsTrue result ↔ Contains self.now name.now }
    {
        self.names.as_slice().binary_search(name).is_ok()
    }
}
