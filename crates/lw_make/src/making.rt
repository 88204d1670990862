//! A generated workspace, made by a language: its documents are put and built, its edits are made with a build
//! behind each, and what comes of it is summed up, for whoever wants to measure builds.
//!
//! Its model: what is put, edited and built is said over the machine of `lw_machine`
//! (`specs/Making.antt`), whose documents a workspace stands for; what a summary counts, and its lines, are in
//! `specs/Summaries.antt`.
//!
//! It promises that [`make`] leaves the workspace and the summary that are defined, and fails only for want of
//! memory. By a grammar by which a text is read in one way, no other summary comes of a generated workspace
//! ([`one_summary`]). [`summary_text`] gives the lines of a summary. Sums of 2^64 and more, which no memory holds,
//! would be told as want of memory.
mod laws;
mod making;
mod summary;

pub use laws::one_summary;
pub use making::{MadeWorkspace, make};
pub use summary::{Summary, summary_text};
