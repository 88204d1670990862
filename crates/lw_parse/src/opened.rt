//! The trees opened of the readings of tokens: what a text may be so far, whether or not it is a sentence.
//!
//! A reading of tokens is a prefix of a sentence that has their kinds and ends with the last of them, or with the end of a value directly
//! behind that one; of no visible token there is one, the opening of the entry rule (`specs/Readings.antt`). Each of these is opened: what is
//! not finished is closed, the innermost first, and a reference that is not finished is left out (`lw_reading::marks`).
//!
//! It promises, for a grammar without faults, that [`open_trees`] gives a tree of each reading, no other tree, and each tree once: readings
//! that leave the same tree share it, and no two of the trees have the same tables. Want of memory is the only error. A law says which
//! reading no tokens have, and that each reading has the kinds that it is of ([`readings_have_their_kinds`]).
//!
//! What it is made of may be used alone: [`read_front`] keeps the readings of tokens that a sentence begins with, [`read_over`] those of what
//! places of the program give, and [`opened_tree`] gives the tree opened of marks.
//!
//! It takes any tokens of the text, also where they are no sentence, and looks at no table: all readings are kept as the tokens come
//! (`lw_viable`), and of the marks of each a tree is built (`lw_builder`). It is linear in what keeping the readings comes to, and, for each
//! reading, in the tokens and marks, and in the trees that were given before: the tree is compared with each of them, which differ, in time
//! that is linear in it at most. Nothing recurses.
mod laws;
mod opening;
mod reading;
mod readings;

pub use laws::readings_have_their_kinds;
pub use opening::{open_trees, opened_tree};
pub use reading::{read_front, read_over};
