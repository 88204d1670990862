// How a fault is told where something holds.
ghost use Rattle.std.specs.Prelude.{IsTrue, OnOk};
ghost use Rattle.lw_faults.specs.Faults.{fault};
ghost use Rattle.lw_faults.specs.Finding.{Finds, OneIf};
ghost use Rattle.lw_faults.specs.Kinds.{number_of};

use lw_base::{Name, NoMemory, Span};
use lw_faults::FaultKind;
use lw_faults::findings::Findings;
use std::alloc::Global;

/// A place in a grammar's files, and the name that is spoken of.
#[derive(Clone, Copy, Drop)]
pub(crate) struct Spoken<'g> {
    pub(crate) file: u16,
    pub(crate) span: Span,
    pub(crate) name: &'g Name,
}

/// Tells a fault of this kind, if it is so.
pub(crate) fn tell_if(
    alloc: Global,
    found: &mut Findings,
    so: bool,
    kind: FaultKind,
    of: &Spoken<'_>,
) -> Result<(), NoMemory>
    ensures { OnOk result (Finds (OneIf (IsTrue so) (fault (number_of kind) of.now.file of.now.span of.now.name.now)) found.old found.new) }
{
    if so {
        found.add(alloc, kind, of.file, of.span, of.name)?;
    }
    Ok(())
}
