// The symbols of the nodes of a tree.
ghost use Rattle.std.specs.Prelude.{ℕ, List, ◌≡◌, ◌<◌, Contains, IfOk, length, map, true};
ghost use Rattle.std.specs.FinSet as set;
ghost use Rattle.std.specs.Option.{option_map};
ghost use Rattle.lw_tree.specs.Parts.{Parts};
ghost use Rattle.lw_scoping.specs.Firsts.{IsFirstIn};
ghost use Rattle.lw_base.specs.declared.numbers.NodeId.{NodeId};
ghost use Rattle.lw_scoping.specs.Doubles.{HasDouble};
ghost use Rattle.lw_scoping.specs.Symbols.{IsNamedNode, IsNamedOf, locals as locals_of};
ghost use Rattle.lw_symbols.specs.Hashes.{name_hash};
ghost use Rattle.lw_symbols.specs.Locals.{AreLocalsOf};

use crate::hash::hash_of;
use crate::named::NamedChildren;
use crate::runs::{behind_alike, first_of_type, first_wanted};
use crate::shelves::starts_of;
use crate::symbol::{Symbol, symbols_of};
use lw_base::{Name, NoMemory, NodeId, TypeId, TypeSet};
use lw_tree::Tree;
use std::alloc::Global;

/// The symbols of all nodes of a tree.
#[derive(Drop)]
pub struct Locals {
    named: NamedChildren,
    /// By the number of the name, container, type and node.
    symbols: Vec<Symbol>,
    /// Where those of near numbers begin.
    starts: Vec<u32>,
}

impl Locals {
    /// Those of this tree. Want of memory is its only error. For n nodes it takes n log n steps.
    pub fn of_tree(alloc: Global, tree: &Tree) -> Result<Locals, NoMemory>
        ensures { IfOk result (AreLocalsOf tree.now) }
    {
        let named = NamedChildren::of_tree(alloc, tree)?;
        let symbols = symbols_of(alloc, tree)?;
        let starts = starts_of(alloc, symbols.as_slice())?;
        Ok(Locals {
            named,
            symbols,
            starts,
        })
    }

    /// The symbols of this node, in the order of their numbers. Constant time.
    pub fn of(&self, n: NodeId) -> &[NodeId]
        requires { n.0 < length self.now.named }
        ensures { (tree : Parts) → AreLocalsOf tree self.now → map (λ k. k.0) result.now ≡ locals_of tree n.0 }
    {
        self.named.at(n)
    }

    /// The first symbol of this node that has this name and a type of the set. It takes constant time where the node has no symbols, else
    /// time that is logarithmic in the symbols of near numbers for each type that those of this name have, and a look for the name of one.
    pub fn first_named(&self, tree: &Tree, n: NodeId, name: &Name, fits: &TypeSet) -> Option<NodeId>
        requires locals { AreLocalsOf tree.now self.now }
        requires node { n.0 < length tree.now.nodes }
        ensures { IsFirstIn (IsNamedOf tree.now name.now (λ type. set.contains fits.now type ≡ true)) (locals_of tree.now n.0) (option_map (λ k. k.0) result) }
    {
        self.first_hashed(tree, n, hash_of(name), name, fits)
    }

    /// The same by the number of the name.
    pub(crate) fn first_hashed(
        &self,
        tree: &Tree,
        n: NodeId,
        hash: u32,
        name: &Name,
        fits: &TypeSet,
    ) -> Option<NodeId>
        requires locals { AreLocalsOf tree.now self.now }
        requires node { n.0 < length tree.now.nodes }
        requires hash { hash ≡ name_hash name.now }
        ensures { IsFirstIn (IsNamedOf tree.now name.now (λ type. set.contains fits.now type ≡ true)) (locals_of tree.now n.0) (option_map (λ k. k.0) result) }
    {
        if self.of(n).is_empty() {
            return None;
        }
        first_wanted(
            self.symbols.as_slice(),
            self.starts.as_slice(),
            tree,
            n.0,
            hash,
            name,
            fits,
        )
    }

    /// The first symbol of this node that has this name and this very type. It takes time that is logarithmic in the symbols of near
    /// numbers, and a look for the name of one.
    pub fn first_of_type(
        &self,
        tree: &Tree,
        n: NodeId,
        name: &Name,
        type_id: TypeId,
    ) -> Option<NodeId>
        requires { AreLocalsOf tree.now self.now }
        ensures { IsFirstIn (IsNamedOf tree.now name.now (λ type. type ≡ type_id.0)) (locals_of tree.now n.0) (option_map (λ k. k.0) result) }
    {
        first_of_type(
            self.symbols.as_slice(),
            self.starts.as_slice(),
            tree,
            n.0,
            hash_of(name),
            name,
            type_id,
        )
    }

    /// Nodes that stand beside an earlier one of their type and, but for few, of their name: all that stand beside an earlier one of their
    /// name and very type are among them. Linear time.
    pub fn crowded(&self, alloc: Global) -> Result<Vec<NodeId>, NoMemory>
        ensures inside { (tree : Parts) → AreLocalsOf tree self.now → IfOk result (λ nodes. (n : NodeId) → Contains nodes.items n → n.0 < length tree.nodes) }
        ensures doubles { (tree : Parts) → AreLocalsOf tree self.now →
            IfOk result (λ nodes. (n : NodeId) (name : List ℕ) (type : ℕ) → IsNamedNode tree n.0 name type → HasDouble tree n.0 name type → Contains nodes.items n) }
    {
        behind_alike(alloc, self.symbols.as_slice())
    }
}
