//! What may come before each leaf of a grammar's rules, on the ways that lead to it.
//!
//! A fault of a grammar is often one of order: an action behind an assignment, a call that takes the
//! place of a node, an assignment where another type is current. Who looks for these asks of each leaf
//! of a rule's body what may have been done before it, on the ways through all rules that come to it,
//! fragments put in. [`Ways`] knows it of all leaves at once, as a [`Before`] of each.
//!
//! Its model: a [`Ways`] is a list of rows, one for each rule, and a row is a list of [`Before`], one for
//! each leaf of the rule's body in the order of the text. `specs/Recorded.antt` says what they record, in
//! the words of the ways through a rule. A keyword and a call of a fragment, at which no way is at a step,
//! have entries that say nothing.
//!
//! It promises that the record is exact: what it says of a leaf is so on some way that comes to it, and
//! what is so on a way is said. Fragments may call themselves and each other: what is done before a leaf
//! has an end, and the way behind it need have none.
//!
//! [`Ways::before`] tells of a leaf whether nothing may come before it, whether some step may, and whether
//! one may that fills a node. It tells which types may be current there, and the types of which rules come
//! to it.
//!
//! How it is made. What a list of steps does is told by one effect, that of the last step among those of
//! most weight: an action, else a call of a rule that makes nodes, else an assignment, else
//! any other call. Effects join, so that an element has a set of them in place of its ways, and a loop
//! those of one turn. First a table of what fragments may do is widened until nothing is added. Then the
//! marks of the ways that come to the begin of each rule are passed on to the fragments that it calls,
//! likewise until nothing is added. A last walk over all bodies has the marks at each leaf.
//!
//! What it costs: a pass is linear in the size of the rules, times how deep repetitions nest, and in how
//! many types there are to tell of at each leaf. Fragments are passed from the last to the first, and what
//! comes to them from the first to the last, so that one pass and one that adds nothing are enough where
//! each fragment stands behind the rules that call it; else there is a pass for each call that leads back.
#![tactic(auto)]

mod arrivals;
mod before;
mod callee;
mod doing;
mod effect;
mod entries;
mod fragments;
mod rows;
mod sets;
mod tables;
mod walking;
mod ways;

pub use before::Before;
pub use ways::Ways;
