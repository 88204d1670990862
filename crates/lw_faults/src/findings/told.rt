// A fault as its order compares it: by file, start and number, then by end and name.
ghost use Rattle.std.specs.Prelude.{◌≡◌, IfOk};
ghost use Rattle.lw_faults.specs.Faults.{fault};
ghost use Rattle.lw_faults.specs.Telling.{told_fault};

use lw_base::{Name, NoMemory, Span};
use lw_grammar::GrammarFault;
use std::alloc::Global;

/// A fault, its parts in the order in which they are compared.
#[derive(Drop, PartialEq, Eq, PartialOrd, Ord)]
pub(crate) struct Told {
    file: u16,
    start: u32,
    number: u8,
    end: u32,
    name: Name,
}

impl Told {
    pub(crate) fn new(
        alloc: Global,
        number: u8,
        file: u16,
        span: Span,
        name: &Name,
    ) -> Result<Told, NoMemory>
        ensures { IfOk result (λ told. told_fault told ≡ fault number file span name.now) }
    {
        Ok(Told {
            file,
            start: span.start,
            number,
            end: span.end,
            name: name.copy(alloc)?,
        })
    }

    pub(crate) fn into_fault(self) -> GrammarFault
        ensures { result ≡ told_fault self }
    {
        let span = Span {
            start: self.start,
            end: self.end,
        };
        GrammarFault {
            number: self.number,
            file: self.file,
            span,
            name: self.name,
        }
    }
}
