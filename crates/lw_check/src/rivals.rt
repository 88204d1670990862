// Exports that other documents have too.
ghost use Rattle.std.specs.Prelude.{◌≡◌, ◌<◌, IfOk, OnOk, false, length};
ghost use Rattle.std.specs.FinMap as map;
ghost use Rattle.lw_faults.specs.Finding.{Finds, OfSome};
ghost use Rattle.lw_grammar.specs.declared.grammar.Grammar.{Grammar};
ghost use Rattle.lw_reading.specs.Known.{HasKnownTypes};
ghost use Rattle.lw_link_rules.specs.TreeDiagnostics.{also_exported_at};
ghost use Rattle.lw_scoping.specs.Symbols.{exports as exports_of};
ghost use Rattle.lw_types.specs.Inferred.{AreTypesOf};
ghost use Rattle.lw_check.specs.Sorting.{diagnostic_of, diagnostics_of};
ghost use Rattle.lw_check.specs.Telling.{TellsRival};

use crate::code::Code;
use crate::sorting::{KeyedDiagnostic, keyed};
use lw_base::{DocId, Name, NoMemory, NodeId, Span};
use lw_index::Index;
use lw_symbols::exports;
use lw_tree::Tree;
use lw_types::Types;
use std::alloc::Global;

/// Tells each export of a document, which has this tree, that another one exports too. It takes one look-up in the index for each export,
/// and none where no others are held.
pub(crate) fn tell_rivals(
    alloc: Global,
    tree: &Tree,
    doc: DocId,
    index: &Index,
    others: bool,
    types: &Types,
    diagnostics: &mut Vec<KeyedDiagnostic>,
) -> Result<(), NoMemory>
    requires alone { others ≡ false → index.now ≡ map.empty }
    requires root { 0 < length tree.now.nodes }
    requires known { (g : Grammar) × AreTypesOf g types.now × HasKnownTypes g tree.now }
    ensures { (g : Grammar) → AreTypesOf g types.now →
        OnOk result (Finds (OfSome (TellsRival g tree.now index.now doc.0) (exports_of tree.now)) (diagnostics_of diagnostics.old.items) (diagnostics_of diagnostics.new.items)) }
{
    if !others {
        return Ok(());
    }
    let nodes = exports(alloc, tree)?;
    for node in &nodes {
        tell_rival(alloc, tree, *node, doc, index, types, diagnostics)?;
    }
    Ok(())
}

/// Tells a node, where another document exports its name with its very type.
fn tell_rival(
    alloc: Global,
    tree: &Tree,
    n: NodeId,
    doc: DocId,
    index: &Index,
    types: &Types,
    diagnostics: &mut Vec<KeyedDiagnostic>,
) -> Result<(), NoMemory>
    requires there { n.0 < length tree.now.nodes }
    requires known { (g : Grammar) × AreTypesOf g types.now × HasKnownTypes g tree.now }
    ensures { (g : Grammar) → AreTypesOf g types.now →
        OnOk result (Finds (TellsRival g tree.now index.now doc.0 n.0) (diagnostics_of diagnostics.old.items) (diagnostics_of diagnostics.new.items)) }
{
    let type_id = tree.node(n).type_id;
    let Some((name, span)) = tree.name(n) else {
        return Ok(());
    };
    let Some(uri) = index.others(doc, name, type_id) else {
        return Ok(());
    };
    let diagnostic = also_exported_at(alloc, span, types.type_name(type_id), name, uri)?;
    Ok(diagnostics.push(diagnostic)?)
}

/// That the document of this URI exports a node of this type and name too.
fn also_exported_at(
    alloc: Global,
    span: Span,
    type_name: &Name,
    name: &Name,
    uri: &Name,
) -> Result<KeyedDiagnostic, NoMemory>
    ensures { IfOk result (λ diagnostic. diagnostic_of diagnostic ≡ also_exported_at span type_name.now name.now uri.now) }
{
    let message = format!(in alloc; "{type_name} '{name}' is also exported by {uri}.")?;
    Ok(keyed(span, Code::AlsoExported, Name::from_string(message)))
}
