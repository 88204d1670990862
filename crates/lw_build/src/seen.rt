// What is lent of a workspace that is built.
ghost use Rattle.std.specs.Prelude.{◌≡◌, ℕ, List, IfOk, MatchOption};
ghost use Rattle.std.specs.List.{AllZip};
ghost use Rattle.lw_docs.specs.Documents.{IsAt};
ghost use Rattle.lw_index.specs.Led.{answers_in};
ghost use Rattle.lw_build.specs.Seen.{IsTextSeen, IsViewOf, StandsSeen};
ghost use Rattle.lw_build.specs.Telling.{numbered_places};

use crate::readings::Readings;
use lw_base::{DocId, Name, NoMemory, RefId};
use lw_docs::{Doc, Docs};
use lw_index::Answer;
use lw_index::refs::RefIndex;
use lw_query::{View, Views};
use lw_text::TextDoc;
use lw_tree::Tree;
use std::alloc::Global;
use std::marker::Model;

/// What is asked of a workspace that is built, by the numbers of its documents: each is a look-up or two by number.
#[derive(Drop)]
pub struct Seen<'a> {
    pub(crate) docs: &'a Docs,
    pub(crate) readings: &'a Readings,
    pub(crate) refs: &'a RefIndex,
}

impl<'a> Model for Seen<'a> {
    ghost use Rattle.lw_build.specs.Seen.{SeenView};

    ghost Value = { SeenView };

    ghost use Rattle.std.specs.Coded.{codes};
    ghost use Rattle.std.specs.FinMap as map;
    ghost use Rattle.lw_machine.specs.contracts.state.State as state;

    ghost coded = { Prim.hlevel (codes, map.code, state.the_row.coded) };

    ghost use Rattle.lw_build.specs.Seen.{AreReadingsSeen, lent};

    ghost view = { λ s. lent s.docs.now s.readings.now s.refs.now };

    ghost invariant = { λ s. AreReadingsSeen s.docs.now s.readings.now };
}

impl<'a> Seen<'a> {
    /// The document of a number, where there is one.
    fn doc(&self, doc: DocId) -> Option<&'a Doc>
        ensures { MatchOption result ((address : List ℕ) → ¬ StandsSeen self.now doc.0 address) (λ found. IsAt self.now.kept doc found.now) }
    {
        if self.readings.has(doc) {
            Some(self.docs.doc(doc))
        } else {
            None
        }
    }

    /// The text of the document of a number, where there is one. The tree of the document stands in it.
    pub fn text(&self, doc: DocId) -> Option<&'a TextDoc>
        ensures { MatchOption result ((address : List ℕ) → ¬ StandsSeen self.now doc.0 address) (λ text. IsTextSeen self.now doc.0 text.now) }
    {
        let _ = &self.docs;
        let found = self.doc(doc)?;
        Some(&found.text)
    }

    /// Where the references of all documents lead, found both ways.
    pub fn refs(&self) -> &'a RefIndex
        ensures { (n : ℕ) → answers_in result.now n ≡ ⟦<Seen<'static> as Views>⟧.answers_at self.now n }
    {
        self.refs
    }
}

impl<'a> Views for Seen<'a> {
    ghost use Rattle.lw_build.specs.Seen.{StandsSeen, seen_answers, seen_tree};

    ghost tree_at = { seen_tree };

    ghost answers_at = { seen_answers };

    ghost Stands = { StandsSeen };

    fn tree(&self, doc: DocId) -> Option<&Tree> {
        self.readings.tree(doc)
    }

    fn answer(&self, doc: DocId, reference: RefId) -> Option<Answer> {
        self.refs.answer(doc, reference)
    }

    fn uri(&self, doc: DocId) -> Option<&Name> {
        let found = self.doc(doc)?;
        Some(&found.uri)
    }
}

/// All documents in the order of their addresses, as they were read and linked. It takes memory for one list.
pub(crate) fn views_of<'a>(
    alloc: Global,
    docs: &'a Docs,
    readings: &'a Readings,
    refs: &'a RefIndex,
) -> Result<Vec<View<'a>>, NoMemory>
    ensures { IfOk result (λ views. AllZip (IsViewOf docs.now readings.now refs.now) (numbered_places docs.now) views.items) }
{
    docs.numbered();
    let mut views = Vec::new(alloc);
    'viewing: for (_uri, d) in docs.uris() {
        let doc = docs.doc(*d);
        views.push(View {
            doc: *d,
            uri: &doc.uri,
            text: doc.text.as_name(),
            tree: readings.tree(*d),
            answers: refs.answers(*d),
        })?;
    }
    Ok(views)
}
