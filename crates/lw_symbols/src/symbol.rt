// All symbols of a tree, in the order in which they are looked up.
ghost use Rattle.std.specs.Prelude.{ℕ, ◌≡◌, ◌<◌, ◌↔◌, IfOk, MatchOption, OnOk, Contains, length};
ghost use Rattle.std.specs.List.Sorted.{IsPermutation};
ghost use Rattle.lw_symbols.specs.Symbols.{AreSymbolsOf, AreAmongFirst, AreSymbolsSorted, IsSymbolOf};
ghost use Rattle.lw_symbols.specs.declared.symbol.Symbol.{Symbol};

use crate::hash::hash_of;
use lw_base::{NoMemory, NodeId, TypeId};
use lw_tree::Tree;
use std::alloc::Global;

/// A node with a name, by what it is looked up by.
#[derive(Clone, Copy)]
pub(crate) struct Symbol {
    pub(crate) container: NodeId,
    /// The number of its name.
    pub(crate) hash: u32,
    pub(crate) type_id: TypeId,
    pub(crate) node: NodeId,
}

/// The symbol that a node is, where it has a name and a container.
fn symbol_of(tree: &Tree, n: NodeId) -> Option<Symbol>
    requires { n.0 < length tree.now.nodes }
    ensures { MatchOption result
        ((s : Symbol) → s.node ≡ n → ¬ IsSymbolOf tree.now s)
        (λ s. (s.node ≡ n) × IsSymbolOf tree.now s) }
{
    let node = tree.node(n);
    let container = node.container?;
    let (name, _) = tree.name(n)?;
    Some(Symbol {
        container,
        hash: hash_of(name),
        type_id: node.type_id,
        node: n,
    })
}

/// All symbols of a tree, in the order of their nodes.
fn list_symbols(alloc: Global, tree: &Tree) -> Result<Vec<Symbol>, NoMemory>
    ensures { IfOk result (λ list. AreAmongFirst tree.now (length tree.now.nodes) list.items) }
{
    let mut list = Vec::new(alloc);
    for number in 0..tree.len() {
        if let Some(symbol) = symbol_of(tree, NodeId(number)) {
            list.push(symbol)?;
        }
    }
    Ok(list)
}

/// These symbols in their order.
fn in_order(mut symbols: Vec<Symbol>) -> Result<Vec<Symbol>, NoMemory>
    ensures ordered { IfOk result (λ list. AreSymbolsSorted list.items) }
    ensures same { IfOk result (λ list. IsPermutation symbols.items list.items) }
{
    symbols.sort_by_key(|s| (s.hash, s.container.0, s.type_id.0, s.node.0))?;
    Ok(symbols)
}

/// All symbols of a tree, in their order. For n nodes n log n steps.
pub(crate) fn symbols_of(alloc: Global, tree: &Tree) -> Result<Vec<Symbol>, NoMemory>
    ensures { IfOk result (λ list. AreSymbolsOf tree.now list.items) }
{
    let list = list_symbols(alloc, tree)?;
    let symbols = in_order(list)?;
    Ok(symbols)
}
