//! The kinds of tokens of a language: its keywords and its terminals, whose patterns are compiled once.
//!
//! Its model: a [`TokenSet`] is what texts are cut by, the keywords and the terminals' patterns in the
//! order of kinds, and the text by which each kind is told. A [`Terminal`] and a [`TerminalMatcher`] are
//! a pattern and whether its tokens are hidden.
//!
//! It promises that a pattern matches exactly what the library `regex` defines for it at the start of
//! a text, that no terminal of a made set matches the empty text, and that no keyword is empty or stands
//! twice.
//!
//! [`TokenSet::make`] keeps exactly the kinds that it was given. Or it refuses at the first kind whose pattern is
//! refused or matches the empty text, and those before it are neither. Where its pattern is refused, one refusal was
//! counted and its text is the one refused last. Where nothing is refused, the text last refused stays.
//! [`TokenSet::nfas`] gives the automata of the patterns, and none only where `regex` may refuse one of them. With a
//! byte whose flag is off in [`Terminal::first_bytes`] no text begins that the pattern matches.
//!
//! What begins with a byte with which no match of a pattern begins is not tried: each terminal has a table of these bytes, and each
//! keyword is found by its first byte.
#![tactic(auto)]

mod fault;
mod make;
mod matcher;
mod source;
mod starting;
mod terminal;
mod token_set;

pub use fault::MakeTokensFault;
pub use matcher::TerminalMatcher;
pub use source::TerminalSource;
pub use terminal::Terminal;
pub use token_set::TokenSet;
