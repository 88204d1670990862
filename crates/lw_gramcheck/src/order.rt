//! Faults of the order of actions and calls, by what may come before each place of a rule.
//!
//! [`find_order_faults`] finds the two that are about what a rule does one after the other. Misplaced
//! action: an action that makes a new node comes behind a step that was done already, or one that
//! takes the node so far comes where none was done. Misplaced call: a call of a rule that makes nodes,
//! and is no fragment, comes behind a step that fills a node, whose place it would take. A fragment's
//! body is looked at where it is written, by all that may come before it where it is called.
//!
//! Its model: what is found is a list of faults. At a leaf of a rule's body at most one fault is told,
//! by the leaf itself and by what `lw_flow` recorded of it: that nothing may come before it, that some
//! step may, or that one may that fills a node. It promises that exactly the misplaced actions and the
//! misplaced calls of the grammar are found besides what was found before, unless there is no memory:
//! then some of them may be missing. [`find_order_faults`] finds the faults 11 and 12 of
//! `docs/faults.md`.
//!
//! Each leaf is looked at once, and of a call what its name means, in expected constant time. So a
//! call takes time linear in the size of the grammar, and memory for the leaves of one rule at a time
//! and for what is found.
mod order;

pub use order::find_order_faults;
