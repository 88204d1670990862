//! What the pattern of a terminal matches at the start of a text, where that does not hang on what follows the text.
//!
//! Two texts that begin alike match alike there only as far as a pattern does not look behind what they share: `[a-z]+` matches two bytes
//! of `ab;` whatever comes next, and of `ab` nothing is known, since another letter may follow. Who knows what is foreseen over the front
//! of a text need not ask the pattern again when the text behind it changes.
//!
//! Its model: patterns and texts are lists of bytes, and what a pattern matches is `match_length` of `lw_tokens`. An NFA is that of a
//! pattern if the library `regex` would match by it (`specs/Nfas.antt`). A [`Walker`] is the number of steps that it may still take.
//!
//! It promises that [`nfa_of`] and [`nfas_of`] give the NFAs of the patterns, in order, and none only for a text that `regex` may refuse;
//! that where a flag of [`first_bytes_of`] is off, the pattern matches at the start of no text that begins with its byte (`AreFirstBytes`);
//! and that what [`Walker::foreseen_length`] tells is so for the text with any bytes behind it (`IsForeseen`). Neither ever has to tell
//! anything: where it does not, whoever asks is slower, and never wrong. A walker never gains steps.
//!
//! How it is done. The states of the NFA are walked from the start of the text on, one byte after the other, and the ways that are still
//! to be tried are kept, the preferred one on top (`specs/Walk.antt`). The first way that comes to a match decides, as in `regex`, so the
//! walk stops with nothing told as soon as a way asks for what is behind the text: a byte there, or an assertion whose place has no whole
//! character behind it (`specs/Steps.antt`).
//!
//! What it costs: a step for each state that is visited, and sixteen bytes for each way that is kept. A pattern that goes back
//! much may visit a state at one place many times, so the steps of a walker bound all its walks together.
//!
//! In folders of their own stand:
//!
//! - [`sure`]: how much of a text's cut into tokens stands, whatever follows the text.
//! - [`lengths`]: how many bytes a pattern matches at each place of a text, found for all places at once.
#![tactic(auto)]

mod first_bytes;
pub mod lengths;
mod nfa;
mod step;
pub mod sure;
mod walk;

pub use first_bytes::{FirstBytes, first_bytes_of};
pub use nfa::{nfa_of, nfas_of};
pub use walk::Walker;
