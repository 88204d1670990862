// References that lead nowhere.
ghost use Rattle.std.specs.Prelude.{◌≡◌, ◌<◌, IfOk, OnOk, length};
ghost use Rattle.lw_faults.specs.Finding.{AtSome, Finds};
ghost use Rattle.lw_grammar.specs.declared.grammar.Grammar.{Grammar};
ghost use Rattle.lw_reading.specs.Known.{HasKnownTypes};
ghost use Rattle.lw_link_rules.specs.TreeDiagnostics.{unresolved_at};
ghost use Rattle.lw_types.specs.Inferred.{AreTypesOf};
ghost use Rattle.lw_check.specs.Sorting.{diagnostic_of, diagnostics_of};
ghost use Rattle.lw_check.specs.Telling.{TellsAnswer, TellsAnswerAt};

use crate::code::Code;
use crate::sorting::{KeyedDiagnostic, keyed};
use lw_base::{Name, NoMemory, Span};
use lw_index::Answer;
use lw_tree::{Reference, Tree};
use lw_types::Types;
use std::alloc::Global;

/// Tells each reference of a tree whose answer is that nothing fits. Time is linear in the references.
pub(crate) fn tell_unresolved(
    alloc: Global,
    tree: &Tree,
    answers: &[Answer],
    types: &Types,
    diagnostics: &mut Vec<KeyedDiagnostic>,
) -> Result<(), NoMemory>
    requires count { length answers.now ≡ length tree.now.refs }
    requires known { (g : Grammar) × AreTypesOf g types.now × HasKnownTypes g tree.now }
    ensures { (g : Grammar) → AreTypesOf g types.now →
        OnOk result (Finds (AtSome (TellsAnswerAt g answers.now) tree.now.refs) (diagnostics_of diagnostics.old.items) (diagnostics_of diagnostics.new.items)) }
{
    for (place, reference) in tree.refs().iter().enumerate() {
        tell_answer(alloc, reference, answers[place], types, diagnostics)?;
    }
    Ok(())
}

/// Tells a reference, where its answer is that nothing fits.
fn tell_answer(
    alloc: Global,
    reference: &Reference,
    answer: Answer,
    types: &Types,
    diagnostics: &mut Vec<KeyedDiagnostic>,
) -> Result<(), NoMemory>
    requires { reference.now.want.0 < length types.now.rules.numbers.types }
    ensures { (g : Grammar) → AreTypesOf g types.now →
        OnOk result (Finds (TellsAnswer g answer reference.now) (diagnostics_of diagnostics.old.items) (diagnostics_of diagnostics.new.items)) }
{
    match answer {
        Answer::Found(_) => Ok(()),
        Answer::Missing => {
            let wanted = types.type_name(reference.want);
            let diagnostic = unresolved_at(alloc, reference.span, wanted, &reference.name)?;
            Ok(diagnostics.push(diagnostic)?)
        }
    }
}

/// That a reference to a node of this type leads nowhere.
fn unresolved_at(
    alloc: Global,
    span: Span,
    wanted: &Name,
    name: &Name,
) -> Result<KeyedDiagnostic, NoMemory>
    ensures { IfOk result (λ diagnostic. diagnostic_of diagnostic ≡ unresolved_at span wanted.now name.now) }
{
    let message = format!(in alloc; "Could not resolve reference to {wanted} named '{name}'.")?;
    Ok(keyed(span, Code::Unresolved, Name::from_string(message)))
}
