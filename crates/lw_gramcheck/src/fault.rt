// Why a grammar cannot be used.
use lw_base::{Items, NoMemory};
use lw_grammar::GrammarFault;

/// Why a grammar cannot be used.
#[derive(Drop)]
pub enum JudgeFault {
    /// All faults of the first phase that has any, at least one, in the order of faults.
    Faults(Items<GrammarFault>),
    /// There was no memory.
    NoMemory,
}

impl From<NoMemory> for JudgeFault {
    ghost use Rattle.std.specs.Prelude.{◌≡◌};
    ghost use Rattle.lw_gramcheck.specs.declared.fault.JudgeFault.TheVariants.{NoMemory as no_memory};

    ghost from_gives = { λ _ fault. fault ≡ no_memory };

    fn from(_: NoMemory) -> Self {
        JudgeFault::NoMemory
    }
}
