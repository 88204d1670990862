//! What the rules of a grammar can read, and what is wrong with that.
//!
//! Four faults speak of what rules read: a rule comes to itself before it reads any token, a rule
//! reads nothing, what `*` or `+` repeats reads nothing, and a rule has no finite sentence. They are
//! looked for over the rules that can be reached from the entry.
//!
//! [`Reading`] has three flags for each rule: whether it can be reached, whether it may read no token,
//! and whether it can come to an end. [`find_derivation_faults`] puts in the faults, which are 7 to 10
//! of `docs/faults.md`. [`entry`] finds the entry rule.
//!
//! Its model: a [`Reading`] is three lists of flags, by the numbers of rules. Whether a part of a
//! rule may be read so goes by the flags of the rules that it calls, and rounds over all rules set
//! flags until a round sets none. What is reached, and what lies on a circle of calls before any token,
//! is asked of graphs whose nodes are the rules.
//!
//! It promises that each flag is set exactly where the definition says so, and that exactly the
//! faults of the four definitions are put in.
//!
//! A round takes time linear in the size of the grammar. Rounds go over the rules so that what is
//! called stands in front of what calls it, and then two serve but for circles of calls. Graphs and
//! the order are made in linear time, the walk for what is repeated takes time linear in the grammar
//! for each depth of marks that stand in one another, and circles cost what the crate of graphs says.
mod calls;
mod edges;
mod finding;
mod flags;
mod leads;
mod names;
mod passing;
mod reaching;
mod reading;
mod rounds;

pub use finding::find_derivation_faults;
pub use reaching::entry;
pub use reading::Reading;
