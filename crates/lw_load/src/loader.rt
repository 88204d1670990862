// The walk over the files of a grammar.
ghost use Rattle.std.specs.Prelude.{◌≡◌, ◌<◌, ◌≤◌, IfOk, IfErr, IfSome, length};
ghost use Rattle.lw_grammar.specs.Size.{size};
ghost use Rattle.lw_grammar.specs.WellFormed.{IsWellFormed};
ghost use Rattle.lw_load.specs.FilledChoices.{HasFilledChoices};
ghost use Rattle.lw_load.specs.declared.limits.TheConstants.{LARGEST_GRAMMAR};
ghost use Rattle.lw_load.specs.declared.loader.Loaded.{Loaded};
ghost use Rattle.lw_load.specs.Loading.{Loads};
ghost use Rattle.lw_load.specs.LoadFaults.{Stops, IsOfFiles, CountsLoad};
ghost use Rattle.lw_load.specs.Standing.{Stands};

use crate::fault::LoadFault;
use crate::walk::Walk;
use lw_base::{Items, Name};
use lw_grammar::Grammar;
use lw_io::Store;
use std::alloc::Global;

/// A grammar of one file or more, and the text of each file by its number, by which places are told.
#[derive(Drop)]
pub struct Loaded {
    pub grammar: Grammar,
    pub texts: Items<Name>,
}

/// The grammar that the root file and all that it imports say together.
///
/// Each file is read once: the root, then each import depth first in the order of the text. What a file
/// says, and then how large the files are so far, is looked at before its imports are opened, so the first
/// fault in that order is told. A chain of imports of any length takes no deeper stack. Nothing of this
/// changes the store's files.
pub fn load<F: Store>(alloc: Global, root: &Name, store: &mut F) -> Result<Loaded, LoadFault>
    ensures loads { IfOk result (λ loaded. IfSome (F.files store.old) (λ files. Loads files root.now loaded)) }
    ensures only { IfOk result (λ loaded. IfSome (F.files store.old) (λ files. (other : Loaded) → Loads files root.now other → other ≡ loaded)) }
    ensures fits { IfOk result (λ loaded. size loaded.grammar ≤ LARGEST_GRAMMAR) }
    ensures root { IfOk result (λ loaded. 0 < length loaded.grammar.files) }
    ensures stand { IfOk result (λ loaded. Stands loaded.texts loaded.grammar) }
    ensures formed { IfOk result (λ loaded. IsWellFormed loaded.grammar) }
    ensures filled { IfOk result (λ loaded. HasFilledChoices loaded.grammar) }
    ensures fault { IfErr result (λ fault. IfSome (F.files store.old) (λ files. Stops files root.now fault)) }
    ensures nothing { IfErr result (λ fault. IfSome (F.files store.old) (λ files. IsOfFiles fault → (other : Loaded) → ¬ Loads files root.now other)) }
    ensures store { CountsLoad (F.count store.old) (F.count store.new) result }
    ensures files { F.files store.new ≡ F.files store.old }
{
    let mut walk = Walk::begin(alloc, root, store)?;
    'walking: while let Some(path) = walk.waiting.pop() {
        walk.visit(alloc, path, store)?;
    }
    Ok(walk.into_loaded())
}
