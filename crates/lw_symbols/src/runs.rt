// The least node of some symbols, found by halving.
ghost use Rattle.std.specs.Prelude.{ℕ, ◌≡◌, ◌<◌, ◌≤◌, ◌↔◌, Contains, IfOk, IsTrue, MatchOption, Some, false, length, slice_get, slice_index_or, true};
ghost use Rattle.std.specs.FinSet as set;
ghost use Rattle.lw_symbols.specs.Symbols.{AreSymbolsOf, AreSymbolsSorted};
ghost use Rattle.lw_symbols.specs.Least.{IsCalled, IsInGroup, IsInRun, IsLeastSymbol, IsWantedSymbol, lesser_node};
ghost use Rattle.lw_symbols.specs.Shelves.{AreStartsOf};
ghost use Rattle.lw_symbols.specs.Runs.{BeginsRun, IsNextRun, StandsBehindAlike, before_type};
ghost use Rattle.lw_base.specs.declared.numbers.NodeId.{NodeId};
ghost use Rattle.lw_symbols.specs.declared.symbol.Symbol.{Symbol};

use crate::shelves::places_of;
use crate::symbol::Symbol;
use lw_base::{Name, NoMemory, NodeId, TypeId, TypeSet};
use lw_tree::Tree;
use std::alloc::Global;

/// Whether a symbol stands before all of a container, whose names have this number, and of a type from this one on.
fn is_before(s: &Symbol, container: u32, hash: u32, low: u32) -> bool
    ensures { result ≡ before_type container hash low s.now }
{
    s.hash < hash
        || (s.hash == hash
            && (s.container.0 < container
                || (s.container.0 == container && (s.type_id.0 as u32) < low)))
}

/// How many symbols stand before all of a container, whose names have this number, and of a type from this one on. It takes time that is
/// logarithmic in the symbols of one shelf.
fn first_from(symbols: &[Symbol], starts: &[u32], container: u32, hash: u32, low: u32) -> usize
    requires sorted { AreSymbolsSorted symbols.now }
    requires starts { AreStartsOf symbols.now starts.now }
    ensures bound { result ≤ length symbols.now }
    ensures before { (k : ℕ) (d : Symbol) → k < result → before_type container hash low (slice_index_or symbols.now k d) ≡ true }
    ensures behind { (k : ℕ) (d : Symbol) → result ≤ k → k < length symbols.now → before_type container hash low (slice_index_or symbols.now k d) ≡ false }
{
    let (mut first, mut end) = places_of(symbols, starts, hash);
    'halving: while first < end {
        let middle = first + (end - first) / 2;
        if is_before(&symbols[middle], container, hash, low) {
            first = middle + 1;
        } else {
            end = middle;
        }
    }
    first
}

/// The first of a container, whose name has this number, and which is of a type from this one on, and where it stands. It takes time that
/// is logarithmic in the symbols of one shelf.
fn next_run(
    symbols: &[Symbol],
    starts: &[u32],
    container: u32,
    hash: u32,
    low: u32,
) -> Option<(usize, Symbol)>
    requires sorted { AreSymbolsSorted symbols.now }
    requires starts { AreStartsOf symbols.now starts.now }
    ensures { MatchOption result
        ((s : Symbol) → Contains symbols.now s → IsInGroup container hash s → s.type_id.0 < low)
        (λ found. IsNextRun container hash low symbols.now found.0 found.1) }
{
    let place = first_from(symbols, starts, container, hash, low);
    match symbols.get(place) {
        None => None,
        Some(s) => {
            if s.container.0 == container && s.hash == hash {
                Some((place, *s))
            } else {
                None
            }
        }
    }
}

/// Whether the node of a symbol has this name.
fn is_called(tree: &Tree, s: &Symbol, name: &Name) -> bool
    requires { s.now.node.0 < length tree.now.nodes }
    ensures yes { result ≡ true → IsCalled tree.now name.now s.now }
    ensures no { result ≡ false → ¬ IsCalled tree.now name.now s.now }
{
    match tree.name(s.node) {
        None => false,
        Some((found, _)) => found == name,
    }
}

/// Of the symbols that begin with one at a place, up to where the container, the number of the name or the type changes, the first of this
/// name.
fn first_called(
    symbols: &[Symbol],
    tree: &Tree,
    from: usize,
    run: Symbol,
    name: &Name,
) -> Option<NodeId>
    requires symbols { AreSymbolsOf tree.now symbols.now }
    requires there { slice_get symbols.now from ≡ Some run }
    requires begins { BeginsRun symbols.now from run }
    ensures { IsLeastSymbol (λ s. IsInRun run s × IsCalled tree.now name.now s) symbols.now result }
{
    for place in from..symbols.len() {
        let s = symbols[place];
        if s.container.0 != run.container.0 || s.hash != run.hash || s.type_id.0 != run.type_id.0 {
            return None;
        }
        if is_called(tree, &s, name) {
            return Some(s.node);
        }
    }
    None
}

/// Of two nodes the lesser.
fn lesser(one: Option<NodeId>, other: Option<NodeId>) -> Option<NodeId>
    ensures { result ≡ lesser_node one other }
{
    match (one, other) {
        (Some(n), Some(k)) => { if n.0 <= k.0 { Some(n) } else { Some(k) } }
        (Some(n), None) => Some(n),
        (None, found) => found,
    }
}

/// Of the symbols of a container, whose names have this number, the least node that has this name and a type of the set. It takes
/// logarithmic time for each type that such symbols have.
pub(crate) fn first_wanted(
    symbols: &[Symbol],
    starts: &[u32],
    tree: &Tree,
    container: u32,
    hash: u32,
    name: &Name,
    fits: &TypeSet,
) -> Option<NodeId>
    requires symbols { AreSymbolsOf tree.now symbols.now }
    requires starts { AreStartsOf symbols.now starts.now }
    ensures { IsLeastSymbol (λ s. IsInGroup container hash s × IsWantedSymbol tree.now name.now (λ type. set.contains fits.now type ≡ true) s) symbols.now result }
{
    let mut best = None;
    let mut low = 0;
    while let Some((place, run)) = next_run(symbols, starts, container, hash, low) {
        if fits.holds(run.type_id) {
            best = lesser(best, first_called(symbols, tree, place, run, name));
        }
        low = run.type_id.0 as u32 + 1;
    }
    best
}

/// Of the symbols of a container, whose names have this number, the least node that has this name and this type. It takes logarithmic time.
pub(crate) fn first_of_type(
    symbols: &[Symbol],
    starts: &[u32],
    tree: &Tree,
    container: u32,
    hash: u32,
    name: &Name,
    type_id: TypeId,
) -> Option<NodeId>
    requires symbols { AreSymbolsOf tree.now symbols.now }
    requires starts { AreStartsOf symbols.now starts.now }
    ensures { IsLeastSymbol (λ s. IsInGroup container hash s × IsWantedSymbol tree.now name.now (λ type. type ≡ type_id.0) s) symbols.now result }
{
    let (place, run) = next_run(symbols, starts, container, hash, type_id.0 as u32)?;
    if run.type_id.0 != type_id.0 {
        return None;
    }
    first_called(symbols, tree, place, run, name)
}

/// Whether two symbols have one container, one number of their names and one type.
fn is_alike(one: &Symbol, other: &Symbol) -> bool
    ensures { IsTrue result ↔ IsInRun one.now other.now }
{
    one.container.0 == other.container.0
        && one.hash == other.hash
        && one.type_id.0 == other.type_id.0
}

/// The nodes of all symbols that stand behind one of their container, their number of names and their type. Linear time.
pub(crate) fn behind_alike(alloc: Global, symbols: &[Symbol]) -> Result<Vec<NodeId>, NoMemory>
    ensures { IfOk result (λ nodes. (n : NodeId) → Contains nodes.items n ↔ StandsBehindAlike (length symbols.now) symbols.now n) }
{
    let mut nodes = Vec::new(alloc);
    for place in 1..symbols.len() {
        if is_alike(&symbols[place - 1], &symbols[place]) {
            nodes.push(symbols[place].node)?;
        }
    }
    Ok(nodes)
}
