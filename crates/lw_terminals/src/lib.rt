//! The set of tokens of a grammar: by what its texts are cut, or why there is no such set.
//!
//! [`token_set`] is lent the kinds of a grammar and the numbers of its names. It writes the pattern of each terminal that is a kind
//! and has all of them compiled.
//!
//! Its model: a [`TokenSet`](lw_matchers::TokenSet) is what texts are cut by.
//!
//! It promises that a set holds exactly the grammar's keywords and the patterns of its terminals, in the order of kinds, and
//! that each [`TermFault`] comes exactly where it should. Numbers are looked at first: there are at most [`MOST_KINDS`] kinds,
//! [`MOST_TERMINALS`] of them terminals. Then keywords are, none of which may be empty or begin with white space. Then
//! terminals are, and the first whose pattern is long, refused, or matches the empty text decides.
//!
//! [`token_set`] answers how many kinds there are, or else terminals, where these are too many. Else it answers the
//! first use of the first blank keyword. Else it answers the first terminal in the order of kinds that does not
//! serve, and why; the patterns before it are taken.
//!
//! Where the kinds and the patterns of a grammar serve, it has none of these faults but a refusal, whatever a maker
//! lists ([`one_answer`]). What holds for a maker that lists some patterns holds for one that lists none
//! ([`listed_or_not`]).
//!
//! [`limits_of_tokens`] says which numbers the limits are: 256 kinds, 32 terminals, and 1,000 bytes of a pattern.
//!
//! A pattern that is long is measured and not built, so that time does not grow with its length.
//!
//! In a folder of its own stands:
//!
//! - [`patterns`]: the regular expression of each terminal of a grammar, as text.
#![tactic(auto)]

mod fault;
mod laws;
mod limits;
mod making;
pub mod patterns;
mod sources;

pub use fault::{MOST_KINDS, MOST_TERMINALS, TermFault};
pub use laws::{limits_of_tokens, listed_or_not, one_answer};
pub use making::token_set;
