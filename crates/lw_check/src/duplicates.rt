// Nodes that stand beside earlier ones of their names and types.
ghost use Rattle.std.specs.Prelude.{ℕ, ◌≡◌, ◌<◌, ◌↔◌, IfOk, IsTrue, OnOk, length};
ghost use Rattle.lw_faults.specs.Finding.{Finds};
ghost use Rattle.lw_grammar.specs.declared.grammar.Grammar.{Grammar};
ghost use Rattle.lw_reading.specs.Known.{HasKnownTypes};
ghost use Rattle.lw_link_rules.specs.TreeDiagnostics.{duplicate_at};
ghost use Rattle.lw_scoping.specs.Doubles.{HasDouble};
ghost use Rattle.lw_scoping.specs.Symbols.{IsNamedNode};
ghost use Rattle.lw_symbols.specs.Locals.{AreLocalsOf};
ghost use Rattle.lw_types.specs.Inferred.{AreTypesOf};
ghost use Rattle.lw_check.specs.Sorting.{diagnostic_of, diagnostics_of};
ghost use Rattle.lw_check.specs.Telling.{TellsDouble, TellsDoubleBelow};

use crate::code::Code;
use crate::sorting::{KeyedDiagnostic, keyed};
use lw_base::{Name, NoMemory, NodeId, Span};
use lw_symbols::Locals;
use lw_tree::Tree;
use lw_types::Types;
use std::alloc::Global;

/// Tells each node of a tree that stands beside an earlier one of its name and very type. It takes time linear in the symbols of the tree,
/// and one look for each that may be such a node.
pub(crate) fn tell_duplicates(
    alloc: Global,
    tree: &Tree,
    locals: &Locals,
    types: &Types,
    diagnostics: &mut Vec<KeyedDiagnostic>,
) -> Result<(), NoMemory>
    requires locals { AreLocalsOf tree.now locals.now }
    requires known { (g : Grammar) × AreTypesOf g types.now × HasKnownTypes g tree.now }
    ensures { (g : Grammar) → AreTypesOf g types.now →
        OnOk result (Finds (TellsDoubleBelow g tree.now (length tree.now.nodes)) (diagnostics_of diagnostics.old.items) (diagnostics_of diagnostics.new.items)) }
{
    let nodes = locals.crowded(alloc)?;
    for node in &nodes {
        tell_duplicate(alloc, tree, locals, *node, types, diagnostics)?;
    }
    Ok(())
}

/// Tells a node, where it stands beside such a one.
fn tell_duplicate(
    alloc: Global,
    tree: &Tree,
    locals: &Locals,
    n: NodeId,
    types: &Types,
    diagnostics: &mut Vec<KeyedDiagnostic>,
) -> Result<(), NoMemory>
    requires there { n.0 < length tree.now.nodes }
    requires locals { AreLocalsOf tree.now locals.now }
    requires known { (g : Grammar) × AreTypesOf g types.now × HasKnownTypes g tree.now }
    ensures { (g : Grammar) → AreTypesOf g types.now →
        OnOk result (Finds (TellsDouble g tree.now n.0) (diagnostics_of diagnostics.old.items) (diagnostics_of diagnostics.new.items)) }
{
    let type_id = tree.node(n).type_id;
    let Some((name, span)) = tree.name(n) else {
        return Ok(());
    };
    if !is_duplicate(tree, locals, n, name) {
        return Ok(());
    }
    let diagnostic = duplicate_at(alloc, span, types.type_name(type_id), name)?;
    Ok(diagnostics.push(diagnostic)?)
}

/// Whether a node, by this name, stands beside an earlier one of the name and its type.
fn is_duplicate(tree: &Tree, locals: &Locals, n: NodeId, name: &Name) -> bool
    requires there { n.0 < length tree.now.nodes }
    requires locals { AreLocalsOf tree.now locals.now }
    ensures { (type : ℕ) → IsNamedNode tree.now n.0 name.now type → IsTrue result ↔ HasDouble tree.now n.0 name.now type }
{
    let node = tree.node(n);
    match node.container {
        None => false,
        Some(container) => match locals.first_of_type(tree, container, name, node.type_id) {
            None => false,
            Some(first) => first.0 < n.0,
        },
    }
}

/// That a node stands beside an earlier one of this type and name.
fn duplicate_at(
    alloc: Global,
    span: Span,
    type_name: &Name,
    name: &Name,
) -> Result<KeyedDiagnostic, NoMemory>
    ensures { IfOk result (λ diagnostic. diagnostic_of diagnostic ≡ duplicate_at span type_name.now name.now) }
{
    let message = format!(in alloc; "Duplicate {type_name} named '{name}'.")?;
    Ok(keyed(span, Code::Duplicate, Name::from_string(message)))
}
