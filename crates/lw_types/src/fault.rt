// Why a grammar has no types.
use lw_base::{Items, NoMemory};
use lw_grammar::GrammarFault;

/// Why a grammar has no types.
#[derive(Drop)]
pub enum TypeFaults {
    /// Something is wrong with its names or types: all faults of this phase, at least one, in the order of faults.
    Faults(Items<GrammarFault>),
    /// There was no memory.
    NoMemory,
}

impl From<NoMemory> for TypeFaults {
    ghost use Rattle.std.specs.Prelude.{◌≡◌};
    ghost use Rattle.lw_types.specs.declared.fault.TypeFaults.TheVariants.{NoMemory as no_memory};

    ghost from_gives = { λ _ fault. fault ≡ no_memory };

    fn from(_: NoMemory) -> Self {
        TypeFaults::NoMemory
    }
}
