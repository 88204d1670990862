//! The outside: what a program reads, where it writes, its files, and its regular expressions.
//!
//! Four traits stand for it. A [`Source`] gives bytes, a [`Sink`] takes them, a [`Store`] has texts by
//! path, and [`Patterns`] makes regular expressions. Each has a form in memory, for tests and for replays,
//! and one over the real thing.
//!
//! Their model: a source is the bytes left, a sink the bytes written, a store its files, each where the
//! object tells them (a real file or terminal tells nothing), and a maker of patterns the texts that it
//! was told to refuse and the text that it refused last. Beside that each object has a count of its faults,
//! which it always tells.
//!
//! What they promise: a call that answers a fault raises the count by one, and every other call leaves it
//! as it is; a fault changes nothing else. So a program that looks at the counts before and after can say
//! whose fault it was. At its last value, 2^64 - 1, a count stands still, and is said to have risen. Want
//! of memory is an answer of its own, and is counted nowhere. A pattern is refused only where it is listed,
//! or where `regex` refuses it for another cause than memory. A text that is listed is always refused.
//! `regex` refuses a text for a fault of its syntax, or because the pattern is too big. From which size on
//! it is too big is not said.
//!
//! [`Source::read`] says what a read gives and takes, and [`Sink::write`] what a write adds.
//! [`Store::read`] says what a store answers for a path, where it tells its files. [`Patterns::make`] says
//! what becomes of a text. The forms in memory and the adapters over the real things meet what these
//! promise.
//!
//! [`read_all`] reads a source to its end, or as many bytes as it may at most. [`write_all`] writes all of
//! a text. At a fault, or where memory is refused, [`read_all`] has taken fewer bytes than it may. Then
//! [`write_all`] has written a front of the text.
//!
//! In a folder of its own stands:
//!
//! - [`paths`]: the paths of files that addresses stand for, and the addresses of files by their paths.
#![tactic(auto)]

mod calls;
mod content;
mod file_store;
mod mem_patterns;
mod mem_sink;
mod mem_source;
mod mem_store;
pub mod paths;
mod patterns;
mod real_patterns;
mod refusals;
mod sink;
mod source;
mod std_sink;
mod std_source;
mod store;
mod whole;

pub use file_store::FileStore;
pub use mem_patterns::MemPatterns;
pub use mem_sink::MemSink;
pub use mem_source::MemSource;
pub use mem_store::MemStore;
pub use patterns::{MakeFault, Patterns};
pub use real_patterns::RealPatterns;
pub use sink::{Sink, Wrote};
pub use source::{Read, Source};
pub use std_sink::StdSink;
pub use std_source::StdSource;
pub use store::{Found, Store};
pub use whole::{ReadFault, WriteFault, read_all, write_all};
