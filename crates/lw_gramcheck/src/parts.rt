//! What is wrong with how the parts of a grammar work together, as far as that is seen without a look
//! at what its rules read: entries and size, data type rules, circles of calls, bad calls and bad
//! assignments.
//!
//! A [`Checker`] holds a grammar with what was found of it before: the numbers of its names, which of
//! its rules make nodes, and by which rules cross-references read that name none.
//! [`find_circular_calls`] and [`find_plain_faults`] go through it, one kind of fault after the other, and
//! put each fault that is there into the [`lw_faults::findings::Findings`] that they are given, and no other.
//!
//! Its model: a call that a rule writes is a name, a place and a manner, which is by itself, into a
//! property, or as the text of a cross-reference; most of what is asked of a rule is asked of these.
//! Fragments that call fragments and terminals that call terminals are the edges of two graphs.
//!
//! It promises that exactly the faults that the definitions of the grammar's faults tell are found, whatever
//! else is wrong with the grammar. [`find_circular_calls`] finds the fault 20, and [`find_plain_faults`] the
//! faults 1, 2, 3, 13, 21, 22 and 23. Each kind takes expected time linear in the grammar, but for circles,
//! where what may lie on one is walked from, one after the other.
mod assignments;
mod bad_calls;
mod call_graphs;
mod checker;
mod circles;
mod data_types;
mod entries;
mod plain_faults;
mod range_ends;
mod sites;

pub use checker::Checker;
pub use circles::find_circular_calls;
pub use plain_faults::find_plain_faults;
