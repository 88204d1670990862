// Which symbol of its own tree a reference leads to.
ghost use Rattle.std.specs.Prelude.{◌≡◌, ◌<◌, length, true};
ghost use Rattle.std.specs.FinSet as set;
ghost use Rattle.std.specs.Option.{option_map};
ghost use Rattle.lw_scoping.specs.Links.{IsOwn};
ghost use Rattle.lw_scoping.specs.Outward.{ContainersComeFirst};
ghost use Rattle.lw_symbols.specs.Locals.{AreLocalsOf};

use crate::Locals;
use crate::hash::hash_of;
use lw_base::{NodeId, TypeSet};
use lw_tree::{Reference, Tree};

/// The symbol of its own tree that a reference leads to, where the types that it wants are those of the set. It takes one look for each
/// node from the reference outwards.
pub fn own_answer(
    tree: &Tree,
    locals: &Locals,
    reference: &Reference,
    fits: &TypeSet,
) -> Option<NodeId>
    requires locals { AreLocalsOf tree.now locals.now }
    requires outwards { ContainersComeFirst tree.now }
    requires owner { reference.now.owner.0 < length tree.now.nodes }
    ensures { IsOwn (λ type _. set.contains fits.now type ≡ true) tree.now reference.now (option_map (λ n. n.0) result) }
{
    let hash = hash_of(&reference.name);
    let mut level = reference.owner;
    loop {
        let found = locals.first_hashed(tree, level, hash, &reference.name, fits);
        if found.is_some() {
            return found;
        }
        match tree.node(level).container {
            None => return None,
            Some(container) => level = container,
        }
    }
}
