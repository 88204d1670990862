// Nodes that a rule makes of types which are not below its own.
ghost use Rattle.std.specs.Prelude.{ℕ, ◌≡◌, ◌↔◌, List, Some, OnOk, map};
ghost use Rattle.std.specs.Option.{option_copied};
ghost use Rattle.lw_base.specs.declared.token.Span.{Span};
ghost use Rattle.lw_faults.specs.Properties.{NotASubtype};
ghost use Rattle.lw_faults.specs.Finding.{Finds, IsFaultOf};
ghost use Rattle.lw_properties.specs.Asked.{IsKnownIn};
ghost use Rattle.lw_properties.specs.Places.{spot_of, ArePlacesOf};
ghost use Rattle.lw_properties.specs.Told.{NotBelowAt, CallsNodeOf};

use crate::kinds::type_of;
use crate::known::Known;
use crate::places::Place;
use crate::questions::{Question, holds_of_some};
use crate::telling::{Spoken, tell_if};
use lw_base::{Name, NoMemory};
use lw_faults::FaultKind;
use lw_faults::findings::Findings;
use lw_numbers::Called;
use lw_numbers::leaves::BodyLeaf;
use std::alloc::Global;

/// Finds where a rule of a declared type makes a node of a type that is not below it.
pub(crate) fn find_not_below(
    alloc: Global,
    known: &Known<'_>,
    places: &[Place<'_>],
    found: &mut Findings,
) -> Result<(), NoMemory>
    requires known { IsKnownIn known.now }
    requires places { ArePlacesOf known.now.g.now (map spot_of places.now) }
    ensures { OnOk result (Finds (IsFaultOf 17 (NotASubtype known.now.g.now)) found.old found.new) }
{
    for place in places {
        not_below_at(alloc, known, place, found)?;
    }
    Ok(())
}

fn not_below_at(
    alloc: Global,
    known: &Known<'_>,
    place: &Place<'_>,
    found: &mut Findings,
) -> Result<(), NoMemory>
    requires { IsKnownIn known.now }
    ensures { OnOk result (Finds (NotBelowAt known.now.g.now (spot_of place.now)) found.old found.new) }
{
    let file = place.rule.file;
    let types = place.before.of.as_slice();
    match place.leaf {
        BodyLeaf::Act(action) => {
            let (span, name) = (action.span, &action.type_name);
            let so = holds_of_some(alloc, known, Question::IsNotAbove(name), types)?;
            tell_if(
                alloc,
                found,
                so,
                FaultKind::NotSubtype,
                &Spoken { file, span, name },
            )
        }
        BodyLeaf::Call(name, span) => match node_type(known, name) {
            Some(below) => {
                let so = holds_of_some(alloc, known, Question::IsNotAbove(below), types)?;
                tell_if(
                    alloc,
                    found,
                    so,
                    FaultKind::NotSubtype,
                    &Spoken { file, span, name },
                )
            }
            None => Ok(()),
        },
        BodyLeaf::Assign(_, _, _, _) => Ok(()),
        BodyLeaf::Keyword(_, _) => Ok(()),
    }
}

/// The type of the nodes that a call of this name makes, where it makes nodes.
fn node_type<'g>(known: &Known<'g>, name: &Name) -> Option<&'g Name>
    requires { IsKnownIn known.now }
    ensures { (s : Span) (below : List ℕ) → CallsNodeOf known.now.g.now name.now s below ↔ (option_copied result ≡ Some below) }
{
    match known.numbers.called(known.g, name) {
        Called::Rule(number, rule) => {
            if known.nodes[number] {
                type_of(rule)
            } else {
                None
            }
        }
        Called::Terminal(_, _) => None,
        Called::Nothing => None,
    }
}
