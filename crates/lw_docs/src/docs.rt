// The documents of a workspace.
ghost use Rattle.std.specs.Prelude.{◌≡◌, ◌≢◌, ◌+◌, ◌-◌, ◌<◌, ◌≤◌, ◌↔◌, ◌⊎◌, ℕ, List, [], ◌∷◌, map, length, slice_index, take, vec_capacity, IfOk, IfErr, IfSome, IfNone, OnOk, OnErr, IsTrue, Err, Ok, MatchOption, Some, None};
ghost use Rattle.std.specs.Option.{option_map};
ghost use Rattle.std.specs.FinMap as all;
ghost use Rattle.std.specs.Map.Iter.{ShowsInOrder, deref_pair};
ghost use Rattle.lw_text.specs.Changes.{Changes};
ghost use Rattle.lw_docs.specs.declared.doc.Doc.{Doc as OneDoc};
ghost use Rattle.lw_docs.specs.Documents.{AreNumbered, IsAt, IsHeld, Turns, changed, numbered};
ghost use Rattle.lw_docs.specs.Least.{AllValidated, IsLeast};
ghost use Rattle.lw_docs.specs.Table.{AreSpare, doc_in};
ghost use Rattle.lw_docs.specs.Knockout.{IsKnockout};

use crate::knockout::{Entrant, cell, settle, turn_to};
use crate::{Doc, DocFault};
use lw_base::{DocId, Items, MOST_DOCUMENTS, Name, NoMemory};
use lw_machine::State;
use lw_text::{Change, EditFault, Encoding, Shown, TextDoc};
use std::alloc::Global;
use std::collections::BTreeMap;
use std::collections::btree_map::Iter;
use std::marker::Model;

/// The documents of a workspace, seen as a map from addresses to documents, each with its number.
#[derive(Drop)]
pub struct Docs {
    /// The document of each number, where it has one.
    slots: Vec<Option<Doc>>,
    /// The numbers without a document.
    spare: Vec<u32>,
    /// The knockout: which document comes first, of that of a number and those that two places behind it
    /// hold.
    cells: Vec<Option<Entrant>>,
    numbers: BTreeMap<Name, DocId>,
    alloc: Global,
}

impl Model for Docs {
    ghost use Rattle.std.specs.Prelude.{vec_capacity};
    ghost use Rattle.lw_docs.specs.Documents.{ByAddress};
    ghost use Rattle.lw_docs.specs.Table.{held_in};
    ghost use Rattle.lw_docs.specs.Kept.{AreKept};

    ghost Value = { ByAddress };

    ghost use Rattle.std.specs.Coded.{codes};
    ghost use Rattle.std.specs.FinMap as map;
    ghost use Rattle.lw_machine.specs.contracts.state.State as state;

    ghost coded = { Prim.hlevel (codes, map.code, state.the_row.coded) };

    ghost view = { λ a. held_in a.slots.items a.numbers };

    ghost invariant = { λ a. AreKept a.slots.items a.spare.items (vec_capacity a.spare) a.cells.items a.numbers };
}

/// A free number, which is made where there is none.
fn spare_number(
    slots: &mut Vec<Option<Doc>>,
    spare: &mut Vec<u32>,
    cells: &mut Vec<Option<Entrant>>,
) -> Result<u32, NoMemory>
    requires spares { AreSpare slots.old.items spare.old.items }
    requires knockout { IsKnockout slots.old.items cells.old.items }
    requires places { length cells.old.items ≡ length slots.old.items }
    requires few { length slots.old.items < 65536 + length spare.old.items }
    requires roomy { length slots.old.items ≤ vec_capacity spare.old }
    ensures last { IfOk result (λ number. (0 < length spare.new.items)
        × (slice_index spare.new.items (length spare.new.items - 1) ≡ number)) }
    ensures spares { AreSpare slots.new.items spare.new.items }
    ensures knockout { IsKnockout slots.new.items cells.new.items }
    ensures places { length cells.new.items ≡ length slots.new.items }
    ensures counted { length slots.new.items + length spare.old.items ≡ length slots.old.items + length spare.new.items }
    ensures docs { (n : ℕ) → doc_in slots.new.items n ≡ doc_in slots.old.items n }
    ensures few { length slots.old.items ≤ 65536 → length slots.new.items ≤ 65536 }
    ensures roomy { length slots.new.items ≤ vec_capacity spare.new }
{
    if let Some(number) = spare.last() {
        return Ok(*number);
    }
    let number = slots.len();
    slots.reserve(1)?;
    cells.reserve(1)?;
    spare.reserve(number + 1)?;
    slots.push_reserved(None);
    cells.push_reserved(None);
    spare.push_reserved(number as u32);
    Ok(number as u32)
}

impl Docs {
    /// No documents. It takes no memory.
    pub fn new(alloc: Global) -> Docs
        ensures { result ≡ all.empty }
    {
        Docs {
            slots: Vec::new(alloc),
            spare: Vec::new(alloc),
            cells: Vec::new(alloc),
            numbers: BTreeMap::new(alloc),
            alloc,
        }
    }

    /// How many documents are held.
    pub fn len(&self) -> usize
        ensures len { result ≡ all.len self.now }
        ensures most { result ≤ MOST_DOCUMENTS }
    {
        self.numbers.len()
    }

    /// Whether no document is held.
    pub fn is_empty(&self) -> bool
        ensures { IsTrue result ↔ (all.len self.now ≡ 0) }
    {
        self.len() == 0
    }

    /// That each document has its address, and no two have one number. It does nothing.
    pub fn numbered(&self)
        ensures { AreNumbered self.now }
    {
        let _ = &self.slots;
    }

    /// The number of the document at an address, where there is one. One look-up by address.
    pub fn find(&self, uri: &Name) -> Option<DocId>
        ensures number { result ≡ option_map (λ held. held.number) (all.get self.now uri.now) }
        ensures vacant { IfNone result (all.get self.now uri.now ≡ None) }
        ensures held { IfSome result (IsHeld self.now) }
    {
        self.numbers.get(uri).copied()
    }

    /// The addresses in their order, each with the number of its document.
    pub fn uris(&self) -> Iter<'_, Name, DocId>
        ensures rest { result ≡ map (λ e. (e.0, e.1.number)) (all.entries self.now) }
        ensures runs { ShowsInOrder (deref_pair {K = List ℕ} {X = DocId}) }
    {
        self.numbers.iter()
    }

    /// A document. It takes constant time.
    pub fn doc(&self, d: DocId) -> &Doc
        requires { IsHeld self.now d }
        ensures { IsAt self.now d result.now }
    {
        match &self.slots[d.0 as usize] {
            Some(doc) => doc,
            None => unreachable!(),
        }
    }

    /// Takes a document in, at an address at which there is none: nothing was done for it yet, and nothing
    /// published of it. The answer is its number, which no other document has. Where it is refused nothing
    /// changes. The time is logarithmic.
    pub fn add(
        &mut self,
        uri: Name,
        text: TextDoc,
        version: Option<i64>,
        is_open: bool,
    ) -> Result<DocId, DocFault>
        requires { all.get self.old uri ≡ None }
        ensures added { IfOk result (λ d. self.new ≡ all.insert self.old uri (numbered d (changed uri text version is_open))) }
        ensures held { IfOk result (IsHeld self.new) }
        ensures fresh { IfOk result (λ d. ¬ (IsHeld self.old d)) }
        ensures too_many { (result ≡ Err DocFault.TooMany) ↔ (all.len self.old ≡ MOST_DOCUMENTS) }
        ensures refused { OnErr result (self.new ≡ self.old) }
    {
        if self.len() == MOST_DOCUMENTS {
            return Err(DocFault::TooMany);
        }
        match self.take_in(uri, text, version, is_open) {
            Ok(d) => Ok(d),
            Err(_) => Err(DocFault::NoMemory),
        }
    }

    /// Takes a document in where there is room for one more.
    fn take_in(
        &mut self,
        uri: Name,
        text: TextDoc,
        version: Option<i64>,
        is_open: bool,
    ) -> Result<DocId, NoMemory>
        requires vacant { all.get self.old uri ≡ None }
        requires room { all.len self.old ≢ MOST_DOCUMENTS }
        ensures added { IfOk result (λ d. self.new ≡ all.insert self.old uri (numbered d (changed uri text version is_open))) }
        ensures held { IfOk result (IsHeld self.new) }
        ensures fresh { IfOk result (λ d. ¬ (IsHeld self.old d)) }
        ensures refused { OnErr result (self.new ≡ self.old) }
    {
        let key = uri.copy(self.alloc)?;
        let number = spare_number(&mut self.slots, &mut self.spare, &mut self.cells)?;
        let d = DocId(number);
        self.numbers.insert(key, d)?;
        self.spare.pop();
        self.slots[number as usize] = Some(Doc {
            uri,
            text,
            version,
            is_open,
            state: State::Changed,
            published: None,
        });
        settle(self.cells.as_mut_slice(), self.slots.as_slice(), number);
        Ok(d)
    }

    /// Takes a document out, and hands it back. Its number is free from then on. It takes no memory, and
    /// logarithmic time.
    pub fn take_out(&mut self, d: DocId) -> Doc
        requires { IsHeld self.old d }
        ensures doc { IsAt self.old d result }
        ensures gone { self.new ≡ all.remove self.old result.uri }
    {
        let state = self.doc(d).state;
        turn_to(
            self.slots.as_mut_slice(),
            self.cells.as_mut_slice(),
            d.0,
            State::Validated,
        );
        match self.slots[d.0 as usize].take() {
            Some(mut doc) => {
                self.numbers.remove(&doc.uri);
                self.spare.push_reserved(d.0);
                doc.state = state;
                doc
            }
            None => unreachable!(),
        }
    }

    /// The document that the next build step takes up: of those that are not validated the one of the least
    /// state, and of these the one of the least address; None where all are validated. It takes constant
    /// time. Only tests ask.
    pub fn least(&self) -> Option<DocId>
        ensures least { MatchOption result (AllValidated self.now) (IsLeast self.now) }
        ensures held { IfSome result (IsHeld self.now) }
    {
        match cell(self.cells.as_slice(), 0) {
            Some(first) => Some(DocId(first.number)),
            None => None,
        }
    }

    /// Gives a document another text. It takes constant time and no memory.
    pub fn set_text(&mut self, d: DocId, text: TextDoc)
        requires { IsHeld self.old d }
        ensures { Turns self.old self.new d (λ x. record x { text = text }) }
    {
        match &mut self.slots[d.0 as usize] {
            Some(doc) => doc.text = text,
            None => unreachable!(),
        }
    }

    /// Gives a document another version, or none. It takes constant time and no memory.
    pub fn set_version(&mut self, d: DocId, version: Option<i64>)
        requires { IsHeld self.old d }
        ensures { Turns self.old self.new d (λ x. record x { version = version }) }
    {
        match &mut self.slots[d.0 as usize] {
            Some(doc) => doc.version = version,
            None => unreachable!(),
        }
    }

    /// Says whether an editor has a document open. It takes constant time and no memory.
    pub fn set_open(&mut self, d: DocId, is_open: bool)
        requires { IsHeld self.old d }
        ensures { Turns self.old self.new d (λ x. record x { is_open = is_open }) }
    {
        match &mut self.slots[d.0 as usize] {
            Some(doc) => doc.is_open = is_open,
            None => unreachable!(),
        }
    }

    /// Says what was published last of a document. It takes constant time and no memory.
    pub fn set_published(&mut self, d: DocId, published: Option<Items<Shown>>)
        requires { IsHeld self.old d }
        ensures { Turns self.old self.new d (λ x. record x { published = published }) }
    {
        match &mut self.slots[d.0 as usize] {
            Some(doc) => doc.published = published,
            None => unreachable!(),
        }
    }

    /// Gives a document another state. It takes logarithmic time and no memory. Only tests ask.
    pub fn set_state(&mut self, d: DocId, state: State)
        requires { IsHeld self.old d }
        ensures { Turns self.old self.new d (λ x. record x { state = state }) }
    {
        turn_to(
            self.slots.as_mut_slice(),
            self.cells.as_mut_slice(),
            d.0,
            state,
        );
    }

    /// Makes all changes in order in the text of a document, or answers the first fault: then, and where
    /// memory is refused, nothing changes. It costs what [`TextDoc::apply`] costs. Only tests ask.
    pub fn apply(&mut self, d: DocId, changes: &[Change], enc: Encoding) -> Result<(), EditFault>
        requires { IsHeld self.old d }
        ensures made { OnOk result ((x : OneDoc) → IsAt self.old d x → (text : List ℕ) × Changes enc x.text changes.now (Ok text)
            × (self.new ≡ all.insert self.old x.uri (numbered d (record x { text = text })))) }
        ensures fault { IfErr result (λ fault. (fault ≡ EditFault.NoMemory)
            ⊎ ((x : OneDoc) → IsAt self.old d x → Changes enc x.text changes.now (Err fault))) }
        ensures unchanged { OnErr result (self.new ≡ self.old) }
    {
        match &mut self.slots[d.0 as usize] {
            Some(doc) => doc.text.apply(self.alloc, changes, enc),
            None => unreachable!(),
        }
    }
}
