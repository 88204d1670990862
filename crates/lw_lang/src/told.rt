//! Faults of a grammar as they are told to its author.
//!
//! A fault is found with the number of its file and a place there, in bytes. It is told with the path of
//! the file, and the position where it begins, line and column as editors count them: [`told_faults`] makes
//! the one of the other, by the texts of the grammar's files. [`fault_text`] is what a fault is called.
//!
//! Its model: faults, those that are told, and texts are plain data.
//!
//! It promises that each fault is told as what it is, where it is, in the order in which they are given; and, as a
//! law ([`faults_have_places`]), that each fault that a grammar can have has a place in the text of its file, where
//! the things of the grammar have theirs. A fault costs a walk over its file's text up to its place.
mod laws;
mod texts;
mod told;

pub use laws::faults_have_places;
pub use texts::fault_text;
pub use told::{ToldFault, told_faults};
