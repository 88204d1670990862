// The index itself.
ghost use Rattle.std.specs.Prelude.{◌≡◌, ◌↔◌, ◌^◌, ◌<◌, Contains, AllPairs, length, OnOk, OnErr, IfOk};
ghost use Rattle.std.specs.FinMap as map;
ghost use Rattle.std.specs.List.{slice_get};
ghost use Rattle.lw_index.specs.declared.refs.slot.SlotId.{SlotId};
ghost use Rattle.lw_index.specs.Led.{answers_in};
ghost use Rattle.lw_index.specs.Users.{IsUser, SlotPrecedes};

use crate::refs::leads::Leads;
use crate::refs::slot::SlotId;
use crate::refs::users::{Pairs, gather, sweep};
use crate::{Answer, Target};
use lw_base::{DocId, Items, NoMemory, RefId};
use std::alloc::Global;
use std::collections::{BTreeMap, BTreeSet};
use std::marker::Model;

/// Where the references of documents lead, seen as the answers that each document was given last, by the document's number and in the
/// order of its references.
pub struct RefIndex {
    documents: BTreeMap<u32, Leads>,
    pairs: Pairs,
    alloc: Global,
}

impl Model for RefIndex {
    ghost use Rattle.std.specs.FinMap as map;
    ghost use Rattle.std.specs.Ordering.{nat_cmp};
    ghost use Rattle.std.specs.Coded.{coded_ℕ, coded_list};
    ghost use Rattle.lw_index.specs.Led.{Led, coded_answer};
    ghost use Rattle.lw_index.specs.Pairs.{ArePaired};

    ghost Value = { Led };

    ghost coded = { map.code coded_ℕ (coded_list coded_answer) };

    ghost view = { λ a. map.from_entries {R = nat_cmp} a.documents.entries };

    ghost invariant = { λ a. ArePaired a.documents a.pairs };
}

impl Drop for RefIndex {
    // In one place, so that whoever drops such a value sees one call and not the drops of all its parts.
    fn drop(self) {
        let RefIndex {
            documents: _,
            pairs: _,
            alloc: _,
        } = self;
    }
}

impl RefIndex {
    /// An index of no documents. It takes no memory.
    pub fn new(alloc: Global) -> RefIndex
        ensures { result ≡ map.empty }
    {
        RefIndex {
            documents: BTreeMap::new(alloc),
            pairs: BTreeSet::new(alloc),
            alloc,
        }
    }

    /// Takes over what the references of a document lead to, in their order, in place of what it was given before. Where memory is
    /// refused nothing changes. For n references n log n steps, and a look-up or two for each document that they lead into, or led into
    /// before.
    pub fn set(&mut self, doc: DocId, answers: Vec<Answer>) -> Result<(), NoMemory>
        requires { length answers.items < 2 ^ 32 }
        ensures ok { OnOk result (self.new ≡ map.insert self.old doc.0 answers.items) }
        ensures refused { OnErr result (self.new ≡ self.old) }
    {
        let leads = Leads::new(self.alloc, answers)?;
        if leads.enter(doc, &mut self.pairs).is_err() {
            sweep(&mut self.pairs, &self.documents, doc, Some(leads));
            return Err(NoMemory);
        }
        match self.documents.insert(doc.0, leads) {
            Err(refused) => {
                let (_, leads) = refused.value;
                sweep(&mut self.pairs, &self.documents, doc, Some(leads));
                Err(NoMemory)
            }
            Ok(old) => {
                sweep(&mut self.pairs, &self.documents, doc, old);
                Ok(())
            }
        }
    }

    /// Takes out all that a document was given: nothing where there is no document of this number. It takes no memory, and the time of a
    /// look-up for each document that its references led into.
    pub fn remove(&mut self, doc: DocId)
        ensures { self.new ≡ map.remove self.old doc.0 }
    {
        let gone = self.documents.remove(&doc.0);
        sweep(&mut self.pairs, &self.documents, doc, gone);
    }

    /// Takes out all documents. It takes no memory.
    pub fn clear(&mut self)
        ensures { self.new ≡ map.empty }
    {
        self.documents.clear();
        self.pairs.clear();
    }

    /// Where the references of a document lead, in their order: none where it was given none. One look-up by number.
    pub fn answers(&self, doc: DocId) -> &[Answer]
        ensures { result.now ≡ answers_in self.now doc.0 }
    {
        match self.documents.get(&doc.0) {
            Some(leads) => leads.answers(),
            None => &[],
        }
    }

    /// Where one reference leads, or None where its document was given no answer for it. One look-up by number.
    pub fn answer(&self, doc: DocId, reference: RefId) -> Option<Answer>
        ensures { result ≡ slice_get (answers_in self.now doc.0) reference.0 }
    {
        self.answers(doc).get(reference.0 as usize).copied()
    }

    /// The references that lead to a node, wherever they stand, each once, in the order of documents by number and of the references of
    /// each. The time is that of a look-up for each document that has references into the document of the node, and of a step for each
    /// reference that is answered, however many documents there are.
    pub fn of(&self, target: Target) -> Result<Items<SlotId>, NoMemory>
        ensures exact { IfOk result (λ slots. (slot : SlotId) → Contains slots slot ↔ IsUser self.now target slot) }
        ensures ordered { IfOk result (λ slots. AllPairs SlotPrecedes slots) }
    {
        let slots = gather(self.alloc, &self.documents, &self.pairs, target)?;
        Ok(Items::from_vec(slots))
    }
}
