// What is seen of documents by number.
ghost use Rattle.std.specs.Prelude.{◌≡◌, ◌<◌, ◌^◌, ℕ, List, Option, IfSome, MatchOption, length, slice_get};
ghost use Rattle.std.specs.Option.{option_map};
ghost use Rattle.lw_index.specs.declared.parts.Answer.{Answer as AnAnswer};
ghost use Rattle.lw_tree.specs.Parts.{Parts};

use lw_base::{DocId, Name, RefId};
use lw_index::Answer;
use lw_tree::Tree;

/// What keeps documents by number, read and linked.
pub trait Views {
    /// The tree of the document of a number, where there is one.
    ghost tree_at: { Self → ℕ → Option Parts };

    /// Where its references lead, one answer for each.
    ghost answers_at: { Self → ℕ → List AnAnswer };

    /// The document of a number stands at an address.
    ghost Stands: { Self → ℕ → List ℕ → Type 0 };

    /// The tree of a document, where it has one. Its references can be numbered.
    fn tree(&self, doc: DocId) -> Option<&Tree>
        ensures tree { option_map (λ tree. tree.now) result ≡ tree_at self.now doc.0 }
        ensures few { IfSome result (λ tree. length tree.now.refs < 2 ^ 32) };

    /// Where a reference of a document leads, or None where it has no such reference.
    fn answer(&self, doc: DocId, reference: RefId) -> Option<Answer>
        ensures { result ≡ slice_get (answers_at self.now doc.0) reference.0 };

    /// The address of a document, or None where there is none of this number.
    fn uri(&self, doc: DocId) -> Option<&Name>
        ensures { MatchOption result ((address : List ℕ) → ¬ Stands self.now doc.0 address) (λ uri. Stands self.now doc.0 uri.now) };
}
