// What is told of a document, before it is shown.
ghost use Rattle.std.specs.Prelude.{◌≡◌, ◌<◌, [], IfOk, false, length};
ghost use Rattle.std.specs.FinMap as map;
ghost use Rattle.lw_faults.specs.Finding.{Finds};
ghost use Rattle.lw_grammar.specs.declared.grammar.Grammar.{Grammar};
ghost use Rattle.lw_reading.specs.Known.{HasKnownTypes};
ghost use Rattle.lw_symbols.specs.Locals.{AreLocalsOf};
ghost use Rattle.lw_types.specs.Inferred.{AreTypesOf};
ghost use Rattle.lw_check.specs.Codes.{code_number};
ghost use Rattle.lw_check.specs.Sorting.{diagnostic_of, diagnostics_of};
ghost use Rattle.lw_check.specs.Telling.{AreTold, IsTold};

use crate::code::Code;
use crate::duplicates::tell_duplicates;
use crate::numbers::tell_numbers;
use crate::rivals::tell_rivals;
use crate::unresolved::tell_unresolved;
use lw_base::{DocId, Name, NoMemory, Span};
use lw_index::{Answer, Index};
use lw_symbols::Locals;
use lw_tree::Tree;
use lw_types::Types;
use std::alloc::Global;

/// A diagnostic of a document, its parts in the order in which they are compared. Places are byte offsets.
#[derive(Drop, PartialEq, Eq, PartialOrd, Ord)]
pub(crate) struct KeyedDiagnostic {
    pub(crate) start: u32,
    pub(crate) code: u8,
    pub(crate) end: u32,
    pub(crate) message: Name,
}

/// The diagnostic of this code and message at a place.
pub(crate) fn keyed(span: Span, code: Code, message: Name) -> KeyedDiagnostic
    ensures { diagnostic_of result ≡ record { span = span; code = code_number code; message = message } }
{
    KeyedDiagnostic {
        start: span.start,
        code: code.number(),
        end: span.end,
        message,
    }
}

/// What is told of a document, in its order, each once.
pub(crate) fn sorted_diagnostics(
    alloc: Global,
    tree: &Tree,
    locals: &Locals,
    answers: &[Answer],
    doc: DocId,
    index: &Index,
    others: bool,
    types: &Types,
) -> Result<Vec<KeyedDiagnostic>, NoMemory>
    requires alone { others ≡ false → index.now ≡ map.empty }
    requires root { 0 < length tree.now.nodes }
    requires locals { AreLocalsOf tree.now locals.now }
    requires count { length answers.now ≡ length tree.now.refs }
    requires known { (g : Grammar) × AreTypesOf g types.now × HasKnownTypes g tree.now }
    ensures { (g : Grammar) → AreTypesOf g types.now →
        IfOk result (λ diagnostics. AreTold g tree.now answers.now doc.0 index.now (diagnostics_of diagnostics.items)) }
{
    let mut diagnostics = all_diagnostics(alloc, tree, locals, answers, doc, index, others, types)?;
    diagnostics.sort_unstable();
    diagnostics.dedup();
    Ok(diagnostics)
}

/// What is told of a document, code by code.
fn all_diagnostics(
    alloc: Global,
    tree: &Tree,
    locals: &Locals,
    answers: &[Answer],
    doc: DocId,
    index: &Index,
    others: bool,
    types: &Types,
) -> Result<Vec<KeyedDiagnostic>, NoMemory>
    requires alone { others ≡ false → index.now ≡ map.empty }
    requires root { 0 < length tree.now.nodes }
    requires locals { AreLocalsOf tree.now locals.now }
    requires count { length answers.now ≡ length tree.now.refs }
    requires known { (g : Grammar) × AreTypesOf g types.now × HasKnownTypes g tree.now }
    ensures { (g : Grammar) → AreTypesOf g types.now →
        IfOk result (λ diagnostics. Finds (IsTold g tree.now answers.now doc.0 index.now) [] (diagnostics_of diagnostics.items)) }
{
    let mut diagnostics = Vec::new(alloc);
    tell_unresolved(alloc, tree, answers, types, &mut diagnostics)?;
    tell_duplicates(alloc, tree, locals, types, &mut diagnostics)?;
    tell_rivals(alloc, tree, doc, index, others, types, &mut diagnostics)?;
    tell_numbers(alloc, tree, &mut diagnostics)?;
    Ok(diagnostics)
}
