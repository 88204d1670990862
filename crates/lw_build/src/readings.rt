// What is kept of the texts that were read: what each was read as, and what all of them export.
ghost use Rattle.std.specs.Prelude.{◌≡◌, ◌≢◌, ℕ, IfOk, MatchBool, OnOk, OnErr, Some, None};
ghost use Rattle.std.specs.FinMap as all;
ghost use Rattle.std.specs.Option.{option_map};
ghost use Rattle.lw_docs.specs.Documents.{IsHeld};
ghost use Rattle.lw_index.specs.Indexed.{IsFreeFor};
ghost use Rattle.lw_link.specs.Indexed.{AreEntriesAt};
ghost use Rattle.lw_reading.specs.Issues.{IfBroken, IfWhole, IsIssueWithin, IsNamed};
ghost use Rattle.lw_reading.specs.Reading.{Reads};
ghost use Rattle.lw_reading.specs.Within.{StandsInText};
ghost use Rattle.lw_build.specs.declared.readings.Reading.{Reading as OneReading};
ghost use Rattle.lw_build.specs.Readings.{AreAllRead, AreDocumentsRead, HasReading, IsReadingOfText, reading_at, tree_numbered, tree_of};

use lw_base::{DocId, Name, NoMemory};
use lw_docs::{Doc, Docs};
use lw_index::{Export, Index};
use lw_lang::{Language, Parsed};
use lw_link::entries;
use lw_symbols::Locals;
use lw_tree::{Issue, Tree};
use std::alloc::Global;
use std::collections::BTreeMap;

/// What a text was read as: its tree with the symbols of its nodes, or its one fault.
#[derive(Drop)]
pub(crate) enum Reading {
    Whole(Tree, Locals),
    Broken(Issue),
}

impl Reading {
    /// The tree, where the text is read whole.
    pub(crate) fn tree(&self) -> Option<&Tree>
        ensures { option_map (λ tree. tree.now) result ≡ tree_of self.now }
    {
        match self {
            Reading::Whole(tree, _) => Some(tree),
            Reading::Broken(_) => None,
        }
    }
}

/// What is kept of the texts of documents that were read, by the numbers of the documents, and the index of what these export.
pub(crate) struct Readings {
    pub(crate) texts: BTreeMap<u32, Reading>,
    pub(crate) index: Index,
}

impl Drop for Readings {
    // In one place, so that whoever drops such a value sees one call and not the drops of all its parts.
    fn drop(self) {
        let Readings { texts: _, index: _ } = self;
    }
}

/// What was read, and what the index is to hold of it.
#[derive(Drop)]
struct Entered {
    reading: Reading,
    exports: Vec<Export>,
}

/// What is to be kept of what a text was read as. Want of memory is the only error; so is that there are no numbers for its references.
fn kept_of(
    alloc: Global,
    language: &Language,
    text: &Name,
    parsed: Parsed,
) -> Result<Entered, NoMemory>
    requires reads { Reads language.now.grammar text.now parsed }
    requires named { IfBroken parsed (IsNamed language.now.texts) }
    requires within { IfBroken parsed (IsIssueWithin text.now) }
    requires stands { IfWhole parsed (StandsInText text.now) }
    ensures { IfOk result (λ entered. IsReadingOfText language.now.grammar language.now.texts text.now entered.reading
        × AreEntriesAt (tree_of entered.reading) entered.exports.items) }
{
    let _ = language;
    let _ = text;
    match parsed {
        Parsed::Whole(tree) => {
            if tree.refs().len() > u32::MAX as usize {
                return Err(NoMemory);
            }
            let locals = Locals::of_tree(alloc, &tree)?;
            let exports = entries(alloc, &tree)?;
            Ok(Entered {
                reading: Reading::Whole(tree, locals),
                exports,
            })
        }
        Parsed::Broken(issue) => Ok(Entered {
            reading: Reading::Broken(issue),
            exports: Vec::new(alloc),
        }),
    }
}

impl Readings {
    /// Those of no texts. It takes no memory.
    pub(crate) fn new(alloc: Global) -> Readings
        ensures index { result.index ≡ all.empty }
        ensures texts { (n : ℕ) → reading_at result n ≡ None }
    {
        Readings {
            texts: BTreeMap::new(alloc),
            index: Index::new(alloc),
        }
    }

    /// Whether there is one of the document of this number.
    pub(crate) fn has(&self, d: DocId) -> bool
        ensures { MatchBool result (HasReading self.now d.0) (reading_at self.now d.0 ≡ None) }
    {
        self.texts.contains_key(&d.0)
    }

    /// The tree of the document of this number, where there is one.
    pub(crate) fn tree(&self, d: DocId) -> Option<&Tree>
        ensures { option_map (λ tree. tree.now) result ≡ tree_numbered self.now d.0 }
    {
        match self.texts.get(&d.0) {
            Some(reading) => reading.tree(),
            None => None,
        }
    }

    /// Takes out that of the document of this number, where there is one. It takes no memory.
    pub(crate) fn forget(&mut self, d: DocId)
        ensures here { reading_at self.new d.0 ≡ None }
        ensures others { (n : ℕ) → n ≢ d.0 → reading_at self.new n ≡ reading_at self.old n }
        ensures index { self.new.index ≡ all.remove self.old.index d.0 }
    {
        self.texts.remove(&d.0);
        self.index.remove(d);
    }

    /// Keeps this of the document of this number, at an address. Where memory is refused nothing changes.
    fn keep(&mut self, d: DocId, uri: &Name, entered: Entered) -> Result<(), NoMemory>
        requires free { IsFreeFor self.old.index d.0 uri.now }
        requires none { all.get self.old.index d.0 ≡ None }
        ensures here { OnOk result (reading_at self.new d.0 ≡ Some entered.reading) }
        ensures others { OnOk result ((n : ℕ) → n ≢ d.0 → reading_at self.new n ≡ reading_at self.old n) }
        ensures index { OnOk result (self.new.index ≡ all.insert self.old.index d.0 (record { uri = uri.now; exports = entered.exports.items })) }
        ensures refused { OnErr result ((n : ℕ) → reading_at self.new n ≡ reading_at self.old n) }
        ensures stays { OnErr result (self.new.index ≡ self.old.index) }
    {
        let Entered { reading, exports } = entered;
        if self.index.set(d, uri, exports).is_err() {
            return Err(NoMemory);
        }
        if self.texts.insert(d.0, reading).is_err() {
            self.index.remove(d);
            return Err(NoMemory);
        }
        Ok(())
    }

    /// Reads the text of a document, where that was not done.
    fn read_one(
        &mut self,
        alloc: Global,
        language: &Language,
        docs: &Docs,
        d: DocId,
    ) -> Result<(), NoMemory>
        requires held { IsHeld docs.now d }
        requires kept { AreDocumentsRead language.now.grammar language.now.texts docs.now self.old }
        ensures kept { AreDocumentsRead language.now.grammar language.now.texts docs.now self.new }
        ensures here { OnOk result (HasReading self.new d.0) }
        ensures stays { (n : ℕ) (reading : OneReading) → reading_at self.old n ≡ Some reading → reading_at self.new n ≡ Some reading }
    {
        if self.has(d) {
            return Ok(());
        }
        docs.numbered();
        let doc = docs.doc(d);
        let _ = doc.text.as_text();
        let text = doc.text.as_name();
        let parsed = language.read(alloc, text)?;
        let entered = kept_of(alloc, language, text, parsed)?;
        self.keep(d, &doc.uri, entered)
    }

    /// Reads the text of each document of which that was not done. Where memory is refused, some may be read.
    pub(crate) fn read_all(
        &mut self,
        alloc: Global,
        language: &Language,
        docs: &Docs,
    ) -> Result<(), NoMemory>
        requires kept { AreDocumentsRead language.now.grammar language.now.texts docs.now self.old }
        ensures kept { AreDocumentsRead language.now.grammar language.now.texts docs.now self.new }
        ensures all { OnOk result (AreAllRead docs.now self.new) }
        ensures stays { (n : ℕ) (reading : OneReading) → reading_at self.old n ≡ Some reading → reading_at self.new n ≡ Some reading }
    {
        docs.numbered();
        'reading: for (_uri, d) in docs.uris() {
            self.read_one(alloc, language, docs, *d)?;
        }
        Ok(())
    }
}
