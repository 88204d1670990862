// What stands of the build before, while documents change.
ghost use Rattle.std.specs.Prelude.{◌≡◌, ◌⊎◌, ℕ, List, Contains, IsTrue, OnOk, Some, false};
ghost use Rattle.std.specs.FinMap.{get};
ghost use Rattle.lw_docs.specs.Documents.{Numbered};
ghost use Rattle.lw_index.specs.declared.parts.Export.{Export as OneExport};
ghost use Rattle.lw_index.specs.Indexed.{exports_in};
ghost use Rattle.lw_tree.specs.declared.node.Reference.{Reference as OneReference};
ghost use Rattle.lw_tree.specs.Parts.{Parts};
ghost use Rattle.lw_build.specs.Standing.{AreAllUntouched, AreHeld, IsChangedName, IsName, IsNobodyUntouched, IsUntouched, NamesNoChange, StayNames, Touches};
ghost use Rattle.lw_build.specs.Readings.{tree_of};

use crate::readings::Reading;
use indexmap::IndexSet;
use lw_base::{DocId, Name, NoMemory};
use lw_docs::Docs;
use lw_index::{Export, Index};
use lw_tree::Reference;
use std::alloc::Global;
use std::collections::BTreeSet;

/// Which documents are as the last build left them, and the names whose exports may have changed since.
#[derive(Drop)]
pub(crate) struct Standing {
    /// The numbers of the documents whose texts are those that were built.
    pub(crate) untouched: BTreeSet<u32>,
    /// By which names other documents exported something then, or do now.
    pub(crate) changed: IndexSet<Name>,
}

/// Puts in the names of these exports. Where memory is refused, some may be put in.
fn put_names(alloc: Global, exports: &[Export], names: &mut IndexSet<Name>) -> Result<(), NoMemory>
    ensures stay { StayNames names.old.keys names.new.keys }
    ensures put { OnOk result ((e : OneExport) → Contains exports.now e → IsName names.new.keys e.name) }
{
    for export in exports {
        names.insert(export.name.copy(alloc)?)?;
    }
    Ok(())
}

impl Standing {
    /// That of documents which were never built. It takes no memory.
    pub(crate) fn new(alloc: Global) -> Standing
        ensures { IsNobodyUntouched result }
    {
        Standing {
            untouched: BTreeSet::new(alloc),
            changed: IndexSet::new(alloc),
        }
    }

    /// Forgets all of it, so that each document is linked and checked by the next build. It takes no memory.
    pub(crate) fn clear(&mut self)
        ensures { IsNobodyUntouched self.new }
    {
        self.untouched.clear();
        self.changed.clear();
    }

    /// Says that the document of this number, which exports these, is to have another text or to be no more. Where memory for their names is
    /// refused, all is forgotten.
    pub(crate) fn touch(&mut self, alloc: Global, d: DocId, exports: &[Export])
        ensures { Touches self.old self.new d.0 exports.now }
    {
        self.untouched.remove(&d.0);
        if put_names(alloc, exports, &mut self.changed).is_err() {
            self.clear();
        }
    }

    /// Puts in the names of what the document of this number exports, which are these, unless it is untouched.
    fn enter_one(&mut self, alloc: Global, d: DocId, exports: &[Export]) -> Result<(), NoMemory>
        ensures untouched { self.new.untouched ≡ self.old.untouched }
        ensures stay { StayNames self.old.changed.keys self.new.changed.keys }
        ensures entered { OnOk result (¬ IsUntouched self.old d.0 → (e : OneExport) → Contains exports.now e → IsName self.new.changed.keys e.name) }
    {
        if self.untouched.contains(&d.0) {
            return Ok(());
        }
        put_names(alloc, exports, &mut self.changed)
    }

    /// Puts in the names of what is exported by documents that are not as they were built. Where memory is refused, some may be put in.
    pub(crate) fn enter(
        &mut self,
        alloc: Global,
        docs: &Docs,
        index: &Index,
    ) -> Result<(), NoMemory>
        ensures untouched { self.new.untouched ≡ self.old.untouched }
        ensures stay { StayNames self.old.changed.keys self.new.changed.keys }
        ensures entered { OnOk result ((address : List ℕ) (held : Numbered) → get docs.now address ≡ Some held → ¬ IsUntouched self.old held.number.0 →
            (e : OneExport) → Contains (exports_in index.now held.number.0) e → IsName self.new.changed.keys e.name) }
    {
        docs.numbered();
        'entering: for (_uri, d) in docs.uris() {
            self.enter_one(alloc, *d, index.of(*d))?;
        }
        Ok(())
    }

    /// Puts in the number of each document.
    fn enlist(&mut self, docs: &Docs) -> Result<(), NoMemory>
        requires held { AreHeld docs.now self.old }
        ensures held { AreHeld docs.now self.new }
        ensures all { OnOk result (AreAllUntouched docs.now self.new) }
    {
        docs.numbered();
        'enlisting: for (_uri, d) in docs.uris() {
            self.untouched.insert(d.0)?;
        }
        Ok(())
    }

    /// Says that all documents are as they were built. Where memory for their numbers is refused, all is forgotten.
    pub(crate) fn settle(&mut self, docs: &Docs)
        requires { AreHeld docs.now self.old }
        ensures { (AreHeld docs.now self.new × AreAllUntouched docs.now self.new) ⊎ IsNobodyUntouched self.new }
    {
        self.changed.clear();
        if self.enlist(docs).is_err() {
            self.clear();
        }
    }

    /// Whether one of these references looks for a changed name.
    fn is_looked_for(&self, refs: &[Reference]) -> bool
        ensures { result ≡ false → (r : OneReference) → Contains refs.now r → ¬ IsChangedName self.now r.name }
    {
        for reference in refs {
            if self.changed.contains(&reference.name) {
                return true;
            }
        }
        false
    }

    /// Whether one of these exports has a changed name.
    fn is_exported(&self, exports: &[Export]) -> bool
        ensures { result ≡ false → (e : OneExport) → Contains exports.now e → ¬ IsChangedName self.now e.name }
    {
        for export in exports {
            if self.changed.contains(&export.name) {
                return true;
            }
        }
        false
    }

    /// Whether a text that was read so looks for a changed name.
    fn refers_to_change(&self, reading: &Reading) -> bool
        ensures { result ≡ false → (tree : Parts) → tree_of reading.now ≡ Some tree → (r : OneReference) → Contains tree.refs r → ¬ IsChangedName self.now r.name }
    {
        match reading {
            Reading::Whole(tree, _) => self.is_looked_for(tree.refs()),
            Reading::Broken(_) => false,
        }
    }

    /// Whether the document of this number, whose text was read so and which exports these, keeps its links and its list: it is as it was built,
    /// and no changed name is one that it looks for or exports. It takes a look-up for each reference and each export.
    pub(crate) fn spares(&self, d: DocId, reading: &Reading, exports: &[Export]) -> bool
        ensures untouched { IsTrue result → IsUntouched self.now d.0 }
        ensures names { IsTrue result → NamesNoChange self.now reading.now exports.now }
    {
        self.untouched.contains(&d.0)
            && !self.refers_to_change(reading)
            && !self.is_exported(exports)
    }
}
