//! Texts, the places in them, and their changes.
//!
//! Its model: a text is its list of bytes, which are UTF-8; so is a [`TextDoc`]. `specs/Lines.antt` cuts
//! a text into lines, `specs/Position.antt` says which line and character a place has,
//! `specs/Offset.antt` which place a line and character mean, and `specs/Changes.antt` what a list of
//! changes makes of a text, all in the words of the Language Server Protocol 3.17. What a character
//! counts is a matter of the [`Encoding`], of which there is one: UTF-16.
//!
//! It promises that the calls give what the definitions say. Each place has one position
//! ([`a_place_has_one_position`]), and each position means one place ([`a_position_means_one_place`]). The position
//! of a place leads back to it where that is a character's start and not inside `\r\n` ([`positions_lead_back`]). A
//! later position means no earlier place ([`positions_keep_their_order`]). A list of changes has one outcome
//! ([`changes_have_one_outcome`]).
//!
//! [`TextDoc::offset`] and [`TextDoc::position`] count whole characters of a line, by UTF-16 units.
//! [`TextDoc::apply`] makes all changes, each in the text that the one before left, or answers the first fault. Then,
//! and where memory is refused, it leaves the text. [`TextDoc::edited`] makes a new text in the same way. A
//! [`TextDoc`] knows where its lines begin, so that a place is found by looking at its line alone, and without
//! memory; [`position`] is for a text that is looked at once.
#![tactic(auto)]

mod change;
mod doc;
mod laws;
mod line;
mod place;
mod shown;
mod units;

pub use change::{Change, EditFault};
pub use doc::TextDoc;
pub use laws::{
    a_place_has_one_position, a_position_means_one_place, changes_have_one_outcome,
    positions_keep_their_order, positions_lead_back,
};
pub use place::{Pos, position};
pub use shown::Shown;
pub use units::Encoding;
