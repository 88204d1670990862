//! Counts over the bytes of a text, a block of 32 bytes at a time in the lanes of a vector: its
//! characters, its UTF-16 units, its line break bytes, and where the next of those stands.
//!
//! Its model: a text is its list of bytes, of which nothing is asked; in particular it need not be
//! UTF-8. Each byte counts by itself, so counts of neighbouring pieces add up, wherever they are cut.
//!
//! It promises that every answer is the plain count, byte by byte, over the whole list, at every
//! length that is allowed; that of a UTF-8 text the counts are those of its characters and of its
//! units in UTF-16; and that no call takes memory. That vectors make it fast is measured and not
//! proved.
//!
//! The counts are those of [`utf16_len`], [`char_count`] and [`break_count`]. [`next_break`] finds
//! the next line break byte from a place on, and none exactly where none follows.
#![tactic(auto)]

mod block;
mod breaks;
mod counts;

pub use breaks::next_break;
pub use counts::{break_count, char_count, utf16_len};
