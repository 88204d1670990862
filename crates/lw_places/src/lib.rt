//! What stands at a place of a document, where the name of what is meant there stands, and where it is mentioned: definitions, over the
//! trees of all documents and over their texts.
//!
//! `specs/Places.antt` says what stands at an offset of a tree ([`Place`]): the name of a node or a reference. `specs/Mentions.antt` says
//! which node is meant by that, where its name stands, and which references lead to it, over trees. `specs/Asked.antt` says the same of
//! texts, as a grammar reads them: what an editor is answered that asks for a definition, or for references. Places are byte offsets,
//! counted from zero.
//!
//! There is no code here but the type [`Place`]. Each function has an empty body, and its contract is a law that a
//! reader would expect. What stands at a place is settled, and so are the mentions of a node ([`one_place`]). By a
//! grammar by which a text is read in one way, a definition and references have one answer at most ([`one_reply`]).
//! The texts alone settle it ([`only_texts_matter`]).
//!
//! In folders of their own stand:
//!
//! - [`renaming`]: what a rename makes of the texts of all documents, and when it is refused: definitions.
//! - [`offers`]: what is offered at a place of a document, to be written there: definitions.
#![tactic(auto)]

mod laws;
pub mod offers;
mod place;
pub mod renaming;

pub use laws::{one_place, one_reply, only_texts_matter};
pub use place::Place;
