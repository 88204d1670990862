//! The regular expression of each terminal of a grammar, as text.
//!
//! A terminal is written as literals, ranges, regular expressions, calls of other terminals, rows,
//! choices and marks. [`patterns`] writes for each one the regular expression that all of this comes to:
//! literals escaped, the ends of ranges by their numbers, and what is called in a group of its own.
//!
//! Its model: of each terminal a [`Written`] says the pattern itself, or that it is longer than
//! [`LONGEST_PATTERN`] and how long, or that there is none, as where terminals call each other in a
//! circle, a call means no terminal, or a range has other ends than two characters in order.
//!
//! It promises that each answer is exactly what the definition in `lw_tokens` says of the terminal. A
//! pattern is given where its length in bytes is at most 1,000 ([`patterns`]). A longer one is told by
//! its length, where 4,294,967,295 stands for that many and more. A terminal has at most one pattern
//! ([`one_pattern`]), and in a grammar without faults each has one, if its choices have parts and no rule
//! stands where a terminal stands ([`each_has_a_pattern`]).
//!
//! Where terminals call each other, lengths can double with each call. So a text is held only while it is
//! short, and a pattern that is long is measured and never built. What is called is written before what
//! calls it: each body is gone over a few times, in expected time linear in its size and, for each call,
//! in a thousand bytes. The stack grows with the depth of a body alone. Where terminals call each other
//! in a circle, bodies are gone over once more as long as that adds a pattern.
mod draft;
mod ends;
mod laws;
mod order;
mod readiness;
mod rounds;
mod scribe;
mod unescaping;
mod writing;
mod written;

pub use laws::{each_has_a_pattern, one_pattern};
pub use rounds::patterns;
pub use written::{LONGEST_PATTERN, Written};
