// What is put into properties of types that are inferred.
ghost use Rattle.std.specs.Prelude.{◌≡◌, ◌↔◌, List, ℕ, IsTrue, OnOk, Contains, map};
ghost use Rattle.lw_faults.specs.Finding.{Finds, OfSome};
ghost use Rattle.lw_faults.specs.Properties.{is_list};
ghost use Rattle.lw_grammar.specs.Written.{IsInferredType};
ghost use Rattle.lw_numbers.specs.Parts.{leaf_of};
ghost use Rattle.lw_properties.specs.Asked.{IsKnownIn};
ghost use Rattle.lw_properties.specs.Places.{spot_of, IsComeTo};
ghost use Rattle.lw_properties.specs.Mixing.{putting_of, IsFree, PutAt, PutBy, PutHere, PutsIn};

use crate::declarations::is_declared;
use crate::known::Known;
use crate::places::{Place, is_come_to};
use crate::questions::type_named;
use indexmap::IndexSet;
use lw_base::{Name, NoMemory, Span};
use lw_flow::Before;
use lw_grammar::{Action, Op};
use lw_numbers::leaves::BodyLeaf;

/// Something is put into this property of the type here, at the end of a list or not.
#[derive(Clone, Copy, Drop)]
pub(crate) struct Put<'g> {
    pub(crate) type_name: &'g Name,
    pub(crate) property: &'g Name,
    pub(crate) list: bool,
    pub(crate) file: u16,
    pub(crate) span: Span,
}

/// Puts in all that is put into properties of types that are inferred and not declared.
pub(crate) fn put_puts<'g>(
    known: &Known<'g>,
    inferred: &IndexSet<Name>,
    places: &[Place<'g>],
    puts: &mut Vec<Put<'g>>,
) -> Result<(), NoMemory>
    requires known { IsKnownIn known.now }
    requires inferred { (name : List ℕ) → Contains inferred.now.keys name ↔ IsInferredType known.now.g.now name }
    ensures { OnOk result (Finds (OfSome (PutAt known.now.g.now) (map spot_of places.now)) (map putting_of puts.old.items) (map putting_of puts.new.items)) }
{
    for place in places {
        put_at(known, inferred, place, puts)?;
    }
    Ok(())
}

fn put_at<'g>(
    known: &Known<'g>,
    inferred: &IndexSet<Name>,
    place: &Place<'g>,
    puts: &mut Vec<Put<'g>>,
) -> Result<(), NoMemory>
    requires known { IsKnownIn known.now }
    requires inferred { (name : List ℕ) → Contains inferred.now.keys name ↔ IsInferredType known.now.g.now name }
    ensures { OnOk result (Finds (PutAt known.now.g.now (spot_of place.now)) (map putting_of puts.old.items) (map putting_of puts.new.items)) }
{
    match place.leaf {
        BodyLeaf::Assign(property, op, _, span) => {
            let into = Into {
                property,
                list: is_list(op),
                file: place.rule.file,
                span,
            };
            put_into_all(
                known,
                inferred,
                &into,
                place.before.current.as_slice(),
                puts,
            )
        }
        BodyLeaf::Act(action) => put_action(known, inferred, place, action, puts),
        BodyLeaf::Call(_, _) => Ok(()),
        BodyLeaf::Keyword(_, _) => Ok(()),
    }
}

/// A property that is put into here, at the end of a list or not.
#[derive(Clone, Copy, Drop)]
struct Into<'g> {
    property: &'g Name,
    list: bool,
    file: u16,
    span: Span,
}

fn put_into_all<'g>(
    known: &Known<'g>,
    inferred: &IndexSet<Name>,
    into: &Into<'g>,
    types: &[u16],
    puts: &mut Vec<Put<'g>>,
) -> Result<(), NoMemory>
    requires known { IsKnownIn known.now }
    requires inferred { (name : List ℕ) → Contains inferred.now.keys name ↔ IsInferredType known.now.g.now name }
    ensures { OnOk result (Finds (OfSome (PutsIn known.now.g.now into.now.property.now into.now.list into.now.file into.now.span) types.now)
        (map putting_of puts.old.items) (map putting_of puts.new.items)) }
{
    for number in types {
        put_into(known, inferred, into, *number, puts)?;
    }
    Ok(())
}

fn put_into<'g>(
    known: &Known<'g>,
    inferred: &IndexSet<Name>,
    into: &Into<'g>,
    number: u16,
    puts: &mut Vec<Put<'g>>,
) -> Result<(), NoMemory>
    requires known { IsKnownIn known.now }
    requires inferred { (name : List ℕ) → Contains inferred.now.keys name ↔ IsInferredType known.now.g.now name }
    ensures { OnOk result (Finds (PutsIn known.now.g.now into.now.property.now into.now.list into.now.file into.now.span number)
        (map putting_of puts.old.items) (map putting_of puts.new.items)) }
{
    match type_named(known.numbers, number) {
        Some(type_name) => {
            if is_free(known, inferred, type_name) {
                puts.push(Put {
                    type_name,
                    property: into.property,
                    list: into.list,
                    file: into.file,
                    span: into.span,
                })?;
            }
            Ok(())
        }
        None => Ok(()),
    }
}

fn put_action<'g>(
    known: &Known<'g>,
    inferred: &IndexSet<Name>,
    place: &Place<'g>,
    action: &'g Action,
    puts: &mut Vec<Put<'g>>,
) -> Result<(), NoMemory>
    requires known { IsKnownIn known.now }
    requires inferred { (name : List ℕ) → Contains inferred.now.keys name ↔ IsInferredType known.now.g.now name }
    ensures { OnOk result (Finds (PutBy known.now.g.now place.now.rule.now place.now.before.now action.now action.now.put)
        (map putting_of puts.old.items) (map putting_of puts.new.items)) }
{
    match &action.put {
        Some((property, list)) => {
            if is_come_to_free(known, inferred, place.before, &action.type_name) {
                puts.push(Put {
                    type_name: &action.type_name,
                    property,
                    list: *list,
                    file: place.rule.file,
                    span: action.span,
                })?;
            }
            Ok(())
        }
        None => Ok(()),
    }
}

/// Whether some way comes there, and the type is inferred and not declared.
fn is_come_to_free(
    known: &Known<'_>,
    inferred: &IndexSet<Name>,
    before: &Before,
    name: &Name,
) -> bool
    requires known { IsKnownIn known.now }
    requires inferred { (name : List ℕ) → Contains inferred.now.keys name ↔ IsInferredType known.now.g.now name }
    ensures { IsTrue result ↔ (IsComeTo before.now × IsFree known.now.g.now name.now) }
{
    is_come_to(before) && is_free(known, inferred, name)
}

/// Whether the type is inferred and not declared.
fn is_free(known: &Known<'_>, inferred: &IndexSet<Name>, name: &Name) -> bool
    requires known { IsKnownIn known.now }
    requires inferred { (name : List ℕ) → Contains inferred.now.keys name ↔ IsInferredType known.now.g.now name }
    ensures { IsTrue result ↔ IsFree known.now.g.now name.now }
{
    inferred.contains(name) && !is_declared(known.g, known.numbers, name)
}

fn is_list(op: Op) -> bool
    ensures { result ≡ is_list op }
{
    match op {
        Op::Add => true,
        Op::One => false,
        Op::Flag => false,
    }
}
