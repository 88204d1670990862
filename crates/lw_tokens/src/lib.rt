//! How a text is cut into tokens, as definitions over a grammar and a text.
//!
//! `specs/Patterns.antt` has the regular expression of a terminal, `specs/Matching.antt` what one
//! matches at the start of a text, `specs/Lexicon.antt` the keywords and patterns of a grammar in the
//! order of kinds, `specs/Keywords.antt` keywords that can be told apart, `specs/NextToken.antt` the
//! token at the start of a text, and `specs/Cut.antt` the cut of a whole text. They speak of all kinds
//! and of suffixes of the text; code keeps a position and tries few kinds. It is a crate of its own so
//! that only what cuts texts depends on `regex`.
//!
//! There is no code here but laws of the definitions. A grammar has one lexicon at most
//! ([`one_lexicon`]). Where no keyword is empty and no two are equal, a text has one cut at most, or one
//! place where no token stands ([`one_cut`]).
#![tactic(auto)]

mod laws;

pub use laws::{one_cut, one_lexicon};
