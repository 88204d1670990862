// Why a grammar is not compiled.
ghost use Rattle.std.specs.Prelude.{◌≡◌};
ghost use Rattle.lw_lang.specs.Compiled.{of_load};
ghost use Rattle.lw_lang.specs.declared.fault.CompileFault.TheVariants.{NoMemory as no_memory};

use crate::told::ToldFault;
use crate::told_look::ToldLookFault;
use crate::told_term::ToldTermFault;
use lw_base::{Items, NoMemory};
use lw_load::LoadFault;

/// Why a grammar is not compiled.
#[derive(Drop)]
pub enum CompileFault {
    /// The files are not loaded. The fault of loading is never want of memory.
    Load(LoadFault),
    /// Something is wrong with what the files say: all faults of the first phase that has any, at least one, in their
    /// order.
    Faults(Items<ToldFault>),
    /// The grammar has no set of tokens.
    Term(ToldTermFault),
    /// The next kinds do not tell the ways of its choices apart, or there are too many look-ahead strings.
    Look(ToldLookFault),
    /// There was no memory.
    NoMemory,
}

impl From<NoMemory> for CompileFault {
    ghost from_gives = { λ _ fault. fault ≡ no_memory };

    fn from(_: NoMemory) -> Self {
        CompileFault::NoMemory
    }
}

impl From<LoadFault> for CompileFault {
    ghost from_gives = { λ found fault. fault ≡ of_load found };

    fn from(found: LoadFault) -> Self {
        match found {
            LoadFault::NoMemory => CompileFault::NoMemory,
            found => CompileFault::Load(found),
        }
    }
}
