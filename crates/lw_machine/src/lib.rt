//! The machine that a workspace is held against: documents with their states, and the events that happen to
//! them. It knows neither messages nor frames; what it tells are lists of diagnostics ([`Published`]).
//!
//! It keeps texts, versions, states and the lists that were published last, and computes everything else
//! anew from the shown texts. The definitions stand in `specs/`:
//!
//! - `Documents.antt`: a document, and the documents by address.
//! - `Events.antt`: what puts, edits, closes, removes and resets documents.
//! - `Building.antt`: a build step takes one document one state up; a text that becomes the shown one lowers
//!   the others (`Settling.antt`); a build runs to its end.
//! - `Validity.antt`: what holds of the documents at every moment, and at the end of a build.
//! - `Laws.antt`: what laws of the machine speak of.
//!
//! There is no code here but the types [`State`] and [`Published`]. What keeps documents is held against these
//! definitions. Each function here has an empty body, and its contract is a law that a reader would expect of
//! them. A build goes on while anything is left to do ([`build_goes_on`]), and ends ([`build_ends`]).
//!
//! By the laws a build publishes each list that has become another, once, in the order of addresses
//! ([`publishes_what_differs`]). Behind it every document is validated, and no address, text, version or open
//! flag has changed ([`built`]). Where each document has links and a list, whichever texts are shown, its next
//! step can be taken ([`a_step_can_be_taken`]). It can be run to its end there ([`build_has_end`]). Both are
//! said of documents that are valid (`specs/Validity.antt`).
//!
//! Further laws are of a grammar by which a text is read in one way. Each event keeps what holds of the
//! documents ([`stays_valid`]). Behind a build of valid documents each last list is that of the texts that are
//! seen at the end ([`built`]). A build has one outcome ([`one_build`]).
//!
//! In a folder of its own stands:
//!
//! - [`outcomes`]: what the builds of a workspace come to, whoever makes them, and that they come to something.
#![tactic(auto)]

mod laws;
pub mod outcomes;
mod published;
mod state;

pub use laws::{
    a_step_can_be_taken, build_ends, build_goes_on, build_has_end, built, one_build,
    publishes_what_differs, stays_valid,
};
pub use published::Published;
pub use state::State;
