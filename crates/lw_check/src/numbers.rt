// Numbers that are out of range.
ghost use Rattle.std.specs.Prelude.{◌≡◌, IfOk, OnOk};
ghost use Rattle.lw_faults.specs.Finding.{Finds, OfSome};
ghost use Rattle.lw_link_rules.specs.TreeDiagnostics.{out_of_range};
ghost use Rattle.lw_tree.specs.Keyed.{values_of};
ghost use Rattle.lw_check.specs.Sorting.{diagnostic_of, diagnostics_of};
ghost use Rattle.lw_check.specs.Telling.{TellsValue};

use crate::code::Code;
use crate::sorting::{KeyedDiagnostic, keyed};
use lw_base::{Name, NoMemory, Span};
use lw_tree::{Tree, Value};
use std::alloc::Global;

/// Tells each number of a tree that is out of range. Time is linear in the values of the tree.
pub(crate) fn tell_numbers(
    alloc: Global,
    tree: &Tree,
    diagnostics: &mut Vec<KeyedDiagnostic>,
) -> Result<(), NoMemory>
    ensures { OnOk result (Finds (OfSome TellsValue (values_of tree.now.values)) (diagnostics_of diagnostics.old.items) (diagnostics_of diagnostics.new.items)) }
{
    for entry in tree.all_values() {
        tell_value(alloc, &entry.2, diagnostics)?;
    }
    Ok(())
}

/// Tells a value that is such a number.
fn tell_value(
    alloc: Global,
    value: &Value,
    diagnostics: &mut Vec<KeyedDiagnostic>,
) -> Result<(), NoMemory>
    ensures { OnOk result (Finds (TellsValue value.now) (diagnostics_of diagnostics.old.items) (diagnostics_of diagnostics.new.items)) }
{
    match value {
        Value::Huge(span) => Ok(diagnostics.push(out_of_range(alloc, *span)?)?),
        _ => Ok(()),
    }
}

/// That a number is out of range.
fn out_of_range(alloc: Global, span: Span) -> Result<KeyedDiagnostic, NoMemory>
    ensures { IfOk result (λ diagnostic. diagnostic_of diagnostic ≡ out_of_range span) }
{
    let message = Name::from_text(alloc, "Number is out of range.")?;
    Ok(keyed(span, Code::OutOfRange, message))
}
