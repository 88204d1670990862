//! The choices of a grammar, with what may come next at each of their ways.
//!
//! A choice is a written `|`, `?`, `*` or `+`. [`points`] goes over the rules of a grammar and gathers them in their order: rule
//! after rule, an outer choice before those inside it. For each way it finds the heads of what the way reads, with what may
//! follow the choice behind it.
//!
//! Its model: a [`Point`] is a record of a file's number, a span and its ways in their order, each the list of its heads, where none
//! stands twice. The ways of `|` are its alternatives. The first way of `?`, `*` and `+` reads the part, of `*` and `+` once more, and
//! the second goes on behind it.
//!
//! It promises that each choice is there once, in its place, with exactly its heads. It gives up exactly where there
//! are more than [`MOST_STRINGS`] heads in all, which are 200,000.
//!
//! The rules are gone through once, up to the first choice with which there are too many heads. The heads of a way are found anew
//! from its part, and those behind a part of a row from the parts that come later, so a part is looked at once for each choice and
//! each row around it.
mod gathered;
mod gathering;
mod point;
mod walk;
mod ways;

pub use gathering::points;
pub use point::{MOST_STRINGS, Point, PointsFault};
