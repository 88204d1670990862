// What the machine makes of the documents of a workspace.
ghost use Rattle.lw_base.specs.declared.numbers.DocId.{DocId};
ghost use Rattle.lw_docs.specs.Documents.{ByAddress};
ghost use Rattle.lw_docs.specs.Least.{AllValidated, HaveSameStates, IsLeast};
ghost use Rattle.lw_machine.specs.Building.{IsNext};
ghost use Rattle.lw_machine.specs.Documents.{Document, Documents, IsBuilt};

/// Where documents of the machine have the same states at the same addresses, the least document is the one
/// that its next step takes up, and they are built where all are validated.
pub fn the_least_is_next()
    ensures next { (m : ByAddress) (n : Documents) → HaveSameStates m n → (d : DocId) (least : IsLeast m d) →
        (e : Document) × IsNext n least.doc.uri e }
    ensures built { (m : ByAddress) (n : Documents) → HaveSameStates m n → AllValidated m → IsBuilt n }
{}
