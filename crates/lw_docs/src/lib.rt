//! The documents of a workspace, by address and by number, and which of them the build takes up next.
//!
//! A [`Doc`] has an address, a text, a version where it has one, whether an editor has it open, how far its build has come, and the list
//! of diagnostics that was published last. [`Docs`] keeps them. A document has a number ([`lw_base::DocId`]) as long as it is held;
//! by its number whoever keeps more of it finds that without its address.
//!
//! Its model is the map from addresses to documents, each with its number (`specs/Documents.antt`). Nothing else is seen of it. Each
//! document stands at its own address, and no two have one number: [`Docs::numbered`] says so.
//!
//! It promises that each call changes the one document that it names, in the one field that it names, and never an address or a number;
//! that [`Docs::add`] gives a number that no document has, and refuses one document more than [`MOST_DOCUMENTS`](lw_base::MOST_DOCUMENTS); that nothing changes
//! where memory is refused, and only [`Docs::add`] and [`Docs::apply`] ask for any; and that [`Docs::least`] answers the document that the
//! next step of a build takes up: of those that are not validated the one of the least state, and of these the one of the least address
//! by its bytes (`specs/Least.antt`). [`the_least_is_next`] ties that to the machine of `lw_machine`.
//!
//! For another cause than memory [`Docs::add`] refuses exactly where 65,536 documents are held. [`Docs::take_out`]
//! hands one back. No two documents have one number, and each stands at its own address ([`Docs::numbered`]).
//! [`Docs::least`] answers none exactly where all are validated.
//!
//! Documents lie in a table by number, beside an ordered map from addresses to numbers. Which is the least is kept as a knockout among
//! the numbers: each place holds the first of the document of its own number and those that two places behind it hold, so the first place
//! holds the first of all, and a document that comes, goes or turns plays only at the places between its own and the first. So
//! [`Docs::find`], [`Docs::add`], [`Docs::take_out`] and [`Docs::set_state`] take logarithmic time and all else takes constant time.
//! Numbers of documents that went are kept and given again, the last first.
#![tactic(auto)]

mod doc;
mod docs;
mod knockout;
mod laws;

pub use doc::{Doc, DocFault};
pub use docs::Docs;
pub use laws::the_least_is_next;
