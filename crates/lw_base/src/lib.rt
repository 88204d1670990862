//! What every crate of Langbench stands on: texts, typed numbers, spans, tokens, sets of types, the
//! counter of steps, and the limits that several crates keep.
//!
//! Its model: a [`Name`] is its list of bytes, which are always UTF-8; a [`TypeSet`] is the
//! finite set of its members' numbers; a [`Steps`] is the number of its ticks. Typed numbers, spans
//! and tokens are plain data, seen by their fields.
//!
//! It promises that a copy equals what it was made of. A text that is taken over or given back has the
//! same bytes. A refusal for want of memory changes nothing, and only `tick` changes the counter.
//!
//! A [`Name`] is made of a text that it copies ([`Name::from_text`], [`Name::from_bytes`]) or takes over
//! ([`Name::from_string`], [`Name::from_vec`]). [`Name::into_string`] gives the text back. Bytes that
//! are no UTF-8 make no [`Name`]. Texts that are taken over or given back are not copied, which is not
//! proved. Names compare by their bytes. [`Steps::tick`] adds one to a [`Steps`].
//!
//! [`limits_of_all`] says which numbers the limits are: 67,108,864 bytes of a text, 65,536 documents, 9,999 documents
//! of a generated workspace, and 2,097,152 bytes of a document that is read by a grammar.
#![tactic(auto)]

mod laws;
mod limits;
mod memory;
mod name;
mod numbers;
mod steps;
mod token;
mod type_set;

pub use laws::limits_of_all;
pub use limits::{GREATEST_WORKSPACE, LONGEST_DOCUMENT, LONGEST_TEXT, MOST_DOCUMENTS};
pub use memory::NoMemory;
pub use name::Name;
pub use numbers::{DocId, KindId, NodeId, PointId, PropId, RefId, RuleId, TypeId};
pub use sqlite_items::{Boxed, Items};
pub use steps::Steps;
pub use token::{Span, Token};
pub use type_set::TypeSet;
