// The names of types that are spoken of.
ghost use Rattle.std.specs.Prelude.{◌≡◌, ◌≤◌, Contains, IfOk, OnOk};
ghost use Rattle.lw_grammar.specs.declared.grammar.Grammar.{Grammar};
ghost use Rattle.lw_numbers.specs.Numbering.{type_names};
ghost use Rattle.lw_numbers.specs.Tables.{AreNumbersOf};
ghost use Rattle.lw_numbers.specs.Lists.{SomeAt};
ghost use Rattle.lw_numbers.specs.Spoken.{AreNames, ExtendsBy, InterfaceSpeaks, UnionSpeaks};

use crate::Numbers;
use indexmap::IndexSet;
use lw_base::{Name, NoMemory, TypeId};
use lw_grammar::{Grammar, Interface, Member, UnionDef};
use std::alloc::Global;

/// Names of types, each once.
pub(crate) struct TypeNames {
    pub(crate) set: IndexSet<Name>,
}

impl Drop for TypeNames {
    // In one place, so that whoever drops such a value sees one call and not the drops of all its parts.
    fn drop(self) {
        let TypeNames { set: _ } = self;
    }
}

impl TypeNames {
    /// The set itself.
    pub(crate) fn into_set(self) -> IndexSet<Name>
        ensures { result ≡ self.set }
    {
        let TypeNames { set } = self;
        set
    }
}

/// The names of a grammar's types: first those that have numbers, in their order, then those that only
/// stand behind `extends` or in unions.
pub(crate) fn names(alloc: Global, g: &Grammar, numbers: &Numbers) -> Result<TypeNames, NoMemory>
    requires { AreNumbersOf g.now numbers.now }
    ensures { IfOk result (λ names. AreNames g.now names.set.keys) }
{
    let mut names = numbered(alloc, numbers)?;
    put_interfaces(alloc, &mut names.set, g.interfaces.as_slice())?;
    put_unions(alloc, &mut names.set, g.unions.as_slice())?;
    Ok(names)
}

/// The names of the types that have numbers, in their order.
fn numbered(alloc: Global, numbers: &Numbers) -> Result<TypeNames, NoMemory>
    ensures { IfOk result (λ names. (g : Grammar) → AreNumbersOf g numbers.now → names.set.keys ≡ type_names g) }
{
    let mut names = TypeNames {
        set: IndexSet::new(alloc),
    };
    for number in 0..numbers.type_count() {
        names
            .set
            .insert(numbers.type_name(TypeId(number as u16)).copy(alloc)?)?;
    }
    Ok(names)
}

fn put_interfaces(
    alloc: Global,
    names: &mut IndexSet<Name>,
    interfaces: &[Interface],
) -> Result<(), NoMemory>
    ensures { OnOk result (ExtendsBy (λ name. SomeAt interfaces.now (λ k interface. InterfaceSpeaks interface name)) names.old.keys names.new.keys) }
{
    for interface in interfaces {
        put_above(alloc, names, interface)?;
    }
    Ok(())
}

/// Puts in what the interface extends.
fn put_above(
    alloc: Global,
    names: &mut IndexSet<Name>,
    interface: &Interface,
) -> Result<(), NoMemory>
    ensures { OnOk result (ExtendsBy (InterfaceSpeaks interface.now) names.old.keys names.new.keys) }
{
    for (name, _) in interface.above.as_slice() {
        put(alloc, names, name)?;
    }
    Ok(())
}

fn put_unions(
    alloc: Global,
    names: &mut IndexSet<Name>,
    unions: &[UnionDef],
) -> Result<(), NoMemory>
    ensures { OnOk result (ExtendsBy (λ name. SomeAt unions.now (λ k union. UnionSpeaks union name)) names.old.keys names.new.keys) }
{
    for union in unions {
        put_members(alloc, names, union)?;
    }
    Ok(())
}

fn put_members(alloc: Global, names: &mut IndexSet<Name>, union: &UnionDef) -> Result<(), NoMemory>
    ensures { OnOk result (ExtendsBy (UnionSpeaks union.now) names.old.keys names.new.keys) }
{
    for member in union.members.as_slice() {
        if let Member::Named(name, _) = member {
            put(alloc, names, name)?;
        }
    }
    Ok(())
}

/// Puts the name behind the others, unless it is one of them.
fn put(alloc: Global, names: &mut IndexSet<Name>, name: &Name) -> Result<(), NoMemory>
    ensures { OnOk result (ExtendsBy (λ n. n ≡ name.now) names.old.keys names.new.keys) }
{
    if !names.contains(name) {
        names.insert(name.copy(alloc)?)?;
    }
    Ok(())
}
