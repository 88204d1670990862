//! How many bytes a pattern matches at each place of a text, found for all places at once.
//!
//! A pattern like `a*b` reads a row of `a` to its end before it is known that no `b` comes, and tried anew at each letter of the row it
//! takes a time that is quadratic in its length. Here the automaton of the pattern is gone through once, from the end of the text to its
//! start, and what was found at one place serves the place before it: linear, however far the pattern reads.
//!
//! Its model: patterns and texts are lists of bytes, and what a pattern matches is `match_length` of `lw_tokens`. The lengths are a list, one
//! for each byte of the text and one for its end (`specs/Lengths.antt`). A [`KnownLengths`] is a pattern and a text.
//!
//! It promises that the lengths of [`match_lengths`] are those of the matches of the pattern wherever the text may be
//! cut, and that what a [`KnownLengths`] tells of a place is so. [`match_lengths`] answers nothing only where the
//! automaton has another assertion than that of the start, as `\b` or `$`, or memory is wanting. A [`KnownLengths`]
//! never has to tell anything. It tells nothing of such a pattern, nor where there is no memory for it, nor before
//! searches have read far.
//!
//! How it is done. From a state of an automaton the first match ends at one place of the text, if at all, and this hangs on what follows
//! alone, and on whether the search begins here (`specs/Rows.antt`). So the row of these ends, one for each state, is known of a place once
//! that of the place behind it is: a state that reads a byte has the end of the state that it leads to there, and the others have those of
//! states of lower rank at the same place, which stand before them in the order by which a row is filled (`specs/Order.antt`). No stack is
//! kept, and nothing is tried twice.
//!
//! What it costs: two steps for each state and each byte of the text, and eight bytes of memory for each byte. That is more than a search
//! takes which reads no further than its match, so a [`KnownLengths`] finds the lengths only once as many searches have read far as the
//! automaton has states. It looks at each search that has found nothing, by a walk of at most 64 steps, but for those at a byte with which
//! no match begins, and at one in 61 of those that have found a match, which then stands for all 61.
mod known;
mod lengths;
mod order;
mod row;

pub use known::KnownLengths;
pub use lengths::match_lengths;
