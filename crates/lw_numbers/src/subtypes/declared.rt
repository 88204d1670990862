// What the names of declared types mean.
ghost use Rattle.std.specs.Prelude.{◌≡◌, ◌↔◌, IsTrue, Some, slice_get};
ghost use Rattle.lw_grammar.specs.Named.{IsInterface, IsUnion};
ghost use Rattle.lw_grammar.specs.Subtypes.{IsDeclared};
ghost use Rattle.lw_numbers.specs.Tables.{AreNumbersOf};

use crate::{Declares, Numbers};
use lw_base::Name;
use lw_grammar::{Grammar, Interface, UnionDef};

/// Whether the name means an interface or a union.
pub(crate) fn is_declared(g: &Grammar, numbers: &Numbers, name: &Name) -> bool
    requires { AreNumbersOf g.now numbers.now }
    ensures { IsTrue result ↔ IsDeclared g.now name.now }
{
    match numbers.declared(g, name) {
        Declares::Interface(..) => true,
        Declares::Union(..) => true,
        Declares::Nothing => false,
    }
}

/// Whether this interface, at this place, is the one that its name means.
pub(crate) fn is_meant_interface(
    g: &Grammar,
    numbers: &Numbers,
    number: usize,
    interface: &Interface,
) -> bool
    requires numbers { AreNumbersOf g.now numbers.now }
    requires at { slice_get g.now.interfaces number ≡ Some interface.now }
    ensures { IsTrue result ↔ IsInterface g.now interface.now.name number interface.now }
{
    match numbers.declared(g, &interface.name) {
        Declares::Interface(place, _) => place == number,
        Declares::Union(..) => false,
        Declares::Nothing => false,
    }
}

/// Whether this union, at this place, is the one that its name means.
pub(crate) fn is_meant_union(
    g: &Grammar,
    numbers: &Numbers,
    number: usize,
    union: &UnionDef,
) -> bool
    requires numbers { AreNumbersOf g.now numbers.now }
    requires at { slice_get g.now.unions number ≡ Some union.now }
    ensures { IsTrue result ↔ IsUnion g.now union.now.name number union.now }
{
    match numbers.declared(g, &union.name) {
        Declares::Union(place, _) => place == number,
        Declares::Interface(..) => false,
        Declares::Nothing => false,
    }
}
