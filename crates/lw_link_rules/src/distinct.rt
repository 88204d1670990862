//! Of two diagnostics of one document, either the starts differ or the codes.
//!
//! `lw_link_rules` says what is told of a document that is read whole, and puts it in order by start, code,
//! end and message. By a grammar without faults the first two are enough: no two diagnostics of a document
//! have one start and one code ([`starts_and_codes_tell_apart`]). So whoever keeps them by start and code
//! keeps them all.
//!
//! Behind it stands a law of trees. Each value was read from tokens of its own, and each reference too:
//! they stand one behind the other in the text, so that no two begin at one place
//! ([`values_stand_apart`], `specs/Apart.antt`). It needs a grammar without faults: a value without tokens
//! would have no place. Faults 21 and 22 let no fragment be a value, fault 8 lets each data type rule that
//! can be reached read a token, and the entry rule is none, by fault 3. That no token is empty needs
//! nothing: a text with an empty token is not cut to its end. [`names_stand_at_their_places`] shows over
//! small trees which stand apart.
//!
//! Places are counted in bytes here. An editor counts lines and characters, and to it a token that begins
//! between a `\r` and its `\n` begins where the line ends, so two starts may be shown as one.
//!
//! There is no code here but laws.
mod laws;

pub use laws::{names_stand_at_their_places, starts_and_codes_tell_apart, values_stand_apart};
