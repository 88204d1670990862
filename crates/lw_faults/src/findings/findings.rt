// The faults that were found so far.
ghost use Rattle.std.specs.Prelude.{◌≡◌, ◌↔◌, IsTrue, [], OnOk, IfOk, Contains, map};
ghost use Rattle.lw_faults.specs.Faults.{fault, AreFaults};
ghost use Rattle.lw_faults.specs.Finding.{Finds};
ghost use Rattle.lw_faults.specs.Kinds.{number_of};
ghost use Rattle.lw_faults.specs.Telling.{told_fault};

use crate::findings::told::Told;
use crate::kind::FaultKind;
use lw_base::{Items, Name, NoMemory, Span};
use lw_grammar::GrammarFault;
use std::alloc::Global;
use std::marker::Model;

/// The faults that were found so far, in any order, some perhaps more than once.
#[derive(Drop)]
pub struct Findings {
    found: Vec<Told>,
}

impl Model for Findings {
    ghost use Rattle.std.specs.Prelude.{List, map};
    ghost use Rattle.lw_grammar.specs.declared.fault.GrammarFault.{GrammarFault};
    ghost use Rattle.lw_faults.specs.Telling.{told_fault};

    ghost Value = { List GrammarFault };

    ghost view = { λ a. map told_fault a.found.items };
}

impl Findings {
    /// None yet.
    pub fn new(alloc: Global) -> Findings
        ensures { result ≡ [] }
    {
        Findings {
            found: Vec::new(alloc),
        }
    }

    /// Puts a fault in: its kind, the file, the place there, and the name that is spoken of.
    pub fn add(
        &mut self,
        alloc: Global,
        kind: FaultKind,
        file: u16,
        span: Span,
        name: &Name,
    ) -> Result<(), NoMemory>
        ensures { OnOk result (Finds (λ f. f ≡ fault (number_of kind) file span name.now) self.old self.new) }
    {
        let told = Told::new(alloc, kind.number(), file, span, name)?;
        self.found.push(told)?;
        Ok(())
    }

    /// Whether none was found.
    pub fn is_empty(&self) -> bool
        ensures { IsTrue result ↔ (self.now ≡ []) }
    {
        self.found.is_empty()
    }

    /// The list of all that were found, in the order of faults, each once.
    pub fn into_list(self, alloc: Global) -> Result<Items<GrammarFault>, NoMemory>
        ensures { IfOk result (AreFaults (Contains self)) }
    {
        let mut found = self.found;
        found.sort_unstable();
        found.dedup();
        listed(alloc, found)
    }
}

/// These, as faults.
fn listed(alloc: Global, found: Vec<Told>) -> Result<Items<GrammarFault>, NoMemory>
    ensures { IfOk result (λ list. list ≡ map told_fault found.items) }
{
    let mut list = Items::new(alloc);
    for told in found {
        list.push(told.into_fault())?;
    }
    Ok(list)
}
