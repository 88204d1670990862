// A text in which a word is being typed, and what is known of all documents.
ghost use Rattle.std.specs.Prelude.{◌≡◌, ◌++◌, IfOk};

use lw_base::{DocId, Name, NoMemory, Token};
use lw_index::Index;
use lw_lang::Language;
use std::alloc::Global;

/// A text in which a word is being typed.
#[derive(Clone, Copy)]
pub(crate) struct Typing<'a> {
    pub(crate) language: &'a Language,
    /// What all documents export, and the number of the one that is asked about.
    pub(crate) index: &'a Index,
    pub(crate) doc: DocId,
    /// The text before the word, its tokens, the word, and the text behind the offset.
    pub(crate) front: &'a Name,
    pub(crate) tokens: &'a [Token],
    pub(crate) word: &'a str,
    pub(crate) rest: &'a Name,
}

impl Typing<'_> {
    /// The text before the word with another behind it.
    pub(crate) fn with(&self, alloc: Global, text: &str) -> Result<Name, NoMemory>
        ensures { IfOk result (λ whole. whole ≡ self.now.front.now ++ text.now) }
    {
        let mut whole = String::new(alloc);
        whole.push_str(self.front.text())?;
        whole.push_str(text)?;
        Ok(Name::from_string(whole))
    }
}
