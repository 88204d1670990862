//! Which way to take at each choice of a grammar, by the next kinds of tokens.
//!
//! A grammar is LL(k), in the textbooks' word strong LL(k), where at each choice the next `k` kinds tell its ways apart, whatever calls the
//! rule and whatever was read. [`tables`] finds for each choice which windows come next at which way, and [`Tables::choose`] looks
//! one up.
//!
//! Its model: [`Tables`] has for each choice, by its number, entries, which are heads, each with one way. A window is that of a head: its
//! kinds, and then end marks. A [`Conflict`] names a choice by its place, two ways, a head that both have, and how its window is printed:
//! the texts of its kinds joined by one space, where an end mark is `<end>`.
//!
//! It promises tables exactly for grammars that are LL(k) and have at most
//! [`MOST_STRINGS`](crate::points::MOST_STRINGS) strings; that they hold exactly the windows of each way; and for
//! other grammars the first choice that is in conflict, the least pair of its ways and the string that they share
//! which is printed first. No grammar is in conflict that has too many strings. The greatest number of strings is
//! 200,000 ([`limit_of_strings`]). [`Tables::choose`] is the way that a window comes next at, and none exactly where
//! it comes next at no way.
//!
//! Once the heads of all ways are found, tables are made by one look-up for each, in expected constant time. A choice in conflict takes one
//! more for each head of the second way, and only those heads are printed that both ways have. To choose takes no memory and expected
//! constant time.
//!
//! In a folder of its own stands:
//!
//! - [`points`]: the choices of a grammar, with what may come next at each of their ways.
#![tactic(auto)]

mod choosing;
mod conflict;
mod entries;
mod fault;
mod kept;
mod laws;
mod making;
pub mod points;
mod printed;

pub use fault::{Conflict, LookFault};
pub use kept::Tables;
pub use laws::limit_of_strings;
pub use making::tables;
