// What the names of types mean.
ghost use Rattle.std.specs.Prelude.{ℕ, ◌↔◌, IsTrue, MatchOption};
ghost use Rattle.lw_grammar.specs.Named.{IsInterface, IsUnion};
ghost use Rattle.lw_grammar.specs.Subtypes.{IsDeclared};
ghost use Rattle.lw_grammar.specs.declared.declared_types.Interface.{Interface};
ghost use Rattle.lw_grammar.specs.declared.declared_types.UnionDef.{UnionDef};
ghost use Rattle.lw_numbers.specs.Tables.{AreNumbersOf};

use lw_base::Name;
use lw_grammar::{Grammar, Interface, UnionDef};
use lw_numbers::{Declares, Numbers};

/// The interface that a name means, and its number, in expected constant time.
pub(crate) fn interface_of<'g>(
    g: &'g Grammar,
    numbers: &Numbers,
    name: &Name,
) -> Option<(usize, &'g Interface)>
    requires { AreNumbersOf g.now numbers.now }
    ensures { MatchOption result ((i : ℕ) (own : Interface) → ¬ IsInterface g.now name.now i own) (λ found. IsInterface g.now name.now found.0 found.1.now) }
{
    match numbers.declared(g, name) {
        Declares::Interface(number, own) => Some((number, own)),
        Declares::Union(..) | Declares::Nothing => None,
    }
}

/// The union that a name means, and its number, in expected constant time.
pub fn union_of<'g>(g: &'g Grammar, numbers: &Numbers, name: &Name) -> Option<(usize, &'g UnionDef)>
    requires { AreNumbersOf g.now numbers.now }
    ensures { MatchOption result ((u : ℕ) (union : UnionDef) → ¬ IsUnion g.now name.now u union) (λ found. IsUnion g.now name.now found.0 found.1.now) }
{
    match numbers.declared(g, name) {
        Declares::Union(number, union) => Some((number, union)),
        Declares::Interface(..) | Declares::Nothing => None,
    }
}

/// Whether an interface or a union declares the type, in expected constant time.
pub fn is_declared(g: &Grammar, numbers: &Numbers, name: &Name) -> bool
    requires { AreNumbersOf g.now numbers.now }
    ensures { IsTrue result ↔ IsDeclared g.now name.now }
{
    match numbers.declared(g, name) {
        Declares::Interface(..) | Declares::Union(..) => true,
        Declares::Nothing => false,
    }
}
