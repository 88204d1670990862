//! A workspace: documents that are read, linked with one another and checked.
//!
//! A [`Workspace`] is what a session and a command line keep of many documents. They are put, edited, closed and removed by address; then
//! [`Workspace::advance`] builds all documents to the end, and answers the lists of diagnostics that are news, in the order of
//! addresses. A list that was published last is not published again.
//!
//! Its model is the grammar of its language, the documents by address, each with its number, and whether they are built
//! (`specs/View.antt`). It is held against the machine of `lw_machine`, which says step by step what a build is. How far a build has
//! come cannot be seen of a workspace, so it may stand for all documents of the machine that have its addresses, texts, versions,
//! open flags and last lists (`specs/Agreeing.antt`). Each call leads from documents that it may stand for to such documents.
//!
//! It promises that a build comes to what the machine's comes to, from whichever documents it stands for, and publishes the same;
//! that the farewell of a document that is removed is the machine's; and that what is refused changes nothing, for a cause that is
//! told ([`WorkFault`]).
//!
//! [`Workspace::put`], [`Workspace::edit`] and [`Workspace::remove`] lead from all documents that a workspace may
//! stand for to what the machine's events make of them. [`Workspace::published`] lends the list that was published
//! last of a document. What a build does not make anew, since no changed name is named there (`specs/Standing.antt`),
//! is what it was. Where memory is refused, [`Workspace::advance`] has published nothing.
//!
//! What a text was read as is kept with its symbols, by the number of its document, until the text changes; so is what it exports, in an
//! index (`specs/Readings.antt`), and where its references lead, found both ways (`specs/Linked.antt`). So a build reads the texts that
//! are new and no other. It links and checks these, and with them each document that looks for a name, or exports one, by which a
//! document that has another text, or is no more, exported something at the last build, or one with another text does now
//! (`specs/Standing.antt`). What all others were told stands, and so do their links: each of their references and exports is looked at
//! once, for its name, in the set of these names. A document that is linked takes one look-up in the index for each reference that leads
//! out of it, beside time linear in its tree, and n log n for its n references. Where memory for the names is refused, all documents are
//! linked and checked. While a build runs, it needs memory for the lists that are news, twice. What is kept of references takes an answer
//! and a number for each (see `lw_index::refs`), and what stands a number for each document.
//!
//! Once all is built, a workspace lends what the questions of an editor need. [`Workspace::seen`] lends the tree of a
//! document by its number, its text, and where its references lead. [`Workspace::views`] gives all documents in the
//! order of addresses. It promises that these are the trees of the present texts and their links, as `lw_query` says
//! it (`specs/Seen.antt`).
#![tactic(auto)]

mod fault;
mod readings;
mod seen;
mod standing;
mod telling;
mod workspace;

pub use fault::WorkFault;
pub use seen::Seen;
pub use workspace::Workspace;
