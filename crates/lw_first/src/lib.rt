//! What the rules of a grammar, and their parts, may begin with.
//!
//! [`rule_heads`] finds for each rule its heads: the first `k` kinds of all that a call of it may read. From
//! these a [`First`] finds the heads of any part of a rule, before whatever may stand behind it.
//!
//! Its model: the heads of rules are a list of lists of heads, by the number of the rule; what may come before
//! given heads is a relation on lists of kinds (`CanBefore`), and a set of heads has grown by exactly those
//! that are so.
//!
//! It promises that the heads of the rules are all that there are and no others, and that what is put into a set for
//! a part is exactly what may come. It is put in by [`First::element`], [`First::value`], [`First::row`] and
//! [`First::repeated`]. The order in which heads stand in a set is not promised.
//!
//! A part is gone through once for each set of heads that it stands before, and each head that is found costs
//! expected constant time. A row is done from its end, in a loop, so that a long one needs no deep stack. What
//! is read any number of times is put before what was new the last time, until nothing is.
//!
//! Rules are done by rounds, from the last to the first, since most rules stand before those that they call. A rule is done
//! again only where a rule that it calls got a head, so a grammar whose rules all stand before those that they
//! call has each rule done once.
//!
//! In folders of their own stand:
//!
//! - [`heads`]: heads: the first kinds of what may be read, at most three of them, and sets of heads.
//! - [`follow`]: what may follow the rules of a grammar, and their parts.
#![tactic(auto)]

mod callers;
mod calls;
mod first;
pub mod follow;
mod fresh;
pub mod heads;
mod rounds;

pub use first::First;
pub use rounds::rule_heads;
