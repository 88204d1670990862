//! Heads: the first kinds of what may be read, at most three of them, and sets of heads.
//!
//! A head is what a parser sees that looks ahead: the first `k` kinds of a list of kinds, or the whole list where it is
//! shorter. Filled up with end marks it is a window of exactly `k`.
//!
//! Its model: a [`Head`] is the list of its kinds' numbers (`kinds_in`), and a [`HeadSet`] is a list of heads in which none stands
//! twice, in the order in which they were put in.
//!
//! It promises that heads are joined and cut exactly, that a set holds exactly what was put in, and that a set that
//! says that it did not grow is as it was.
//!
//! Heads are joined and cut by [`Head::behind`] and [`Head::followed_by`]. A head is seen as a window
//! ([`Head::window`]), and a window has one head at most ([`Head::of_window`]).
mod head;
mod head_set;

pub use head::{Head, LONGEST_HEAD, Window};
pub use head_set::HeadSet;
