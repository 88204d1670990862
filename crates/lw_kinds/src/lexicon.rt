//! What the names of a grammar mean where its rules are gone through.
//!
//! A [`Lexicon`] is a grammar beside the numbers of its names, its name rules and its kinds. It says of a keyword its kind, and of a call
//! whether it reads a token or a rule.
//!
//! Its model is that of its parts: a lexicon is one (`IsKnownLexicon`) where each part is that of the grammar. It
//! promises that what it says of a name is what the name means. The answers are those of [`Lexicon::keyword`],
//! [`Lexicon::callee`] and [`Lexicon::read_by`]: the kind, or the rule, or nothing that is known.
mod callee;
mod lexicon;

pub use callee::Callee;
pub use lexicon::Lexicon;
