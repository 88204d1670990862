//! What the builds of a workspace come to, whoever makes them, and that they come to something.
//!
//! `lw_machine` says what a build is, step by step. Here stands that its end needs no steps to be known: whoever has
//! documents of the same content of which nothing is left to do, and what is news in them, has what the build comes
//! to ([`current_documents_are_built`]), since there are no two such documents, and no two such news ([`one_end`]).
//! So the builds of documents of the same content, whose lists that were published last are the same, come to one
//! end, and the build of documents of which all that was computed is forgotten comes to the end of theirs
//! ([`clean_builds`]). These three laws are of a grammar by which a text is read in one way. The last two ask for
//! documents that are valid, of which each has links and a list, whichever texts are shown.
//!
//! `lw_machine` runs a build to its end where each document has links and a list of diagnostics, whichever texts are
//! shown meanwhile. It has both where each text is UTF-8 and reads as something (`specs/Readable.antt`), by a grammar
//! whose subtypes are told ([`links_and_lists_exist`]), as a table of them does ([`tables_tell_subtypes`]):
//! references lead to what is found by looking through finitely many symbols and exports, and what is told of a tree
//! is a list that can be put in order and shown. Texts stay so, whatever happens, where each new one is
//! ([`texts_stay_readable`]).
//!
//! There is no code here but laws.
mod laws;

pub use laws::{
    clean_builds, current_documents_are_built, links_and_lists_exist, one_end,
    tables_tell_subtypes, texts_stay_readable,
};
