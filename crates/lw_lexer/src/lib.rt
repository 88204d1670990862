//! Texts cut into tokens.
//!
//! A [`Lexer`] cuts texts by the keywords and terminals of a [`TokenSet`](lw_matchers::TokenSet). Its model
//! is the cut itself, the list of tokens that `specs/Cut.antt` of `lw_tokens` defines by the rest of the
//! text at each place; the code keeps a place and goes over the text once.
//!
//! It promises that the tokens are the one cut of the text, and that a text without one is refused at
//! the one place where no token stands.
//!
//! Each token is a part of the text that splits no character ([`Lexer::cut`]). [`Lexer::next`] gives the one token
//! that stands at the start of a text, or none.
//!
//! [`LexerTables`] are a set of tokens with what is found out about it once: which of its keywords and blanks end
//! before which bytes, whatever comes behind (`specs/Fronts.antt`), so that they are known by their first bytes and
//! no pattern is tried. They are seen as the set; that any of this is known, is promised nowhere. What they know is
//! never wrong: such a keyword or blank is the next token of every text that begins so. They hold the automata of the
//! terminals too, by which a text that some pattern reads far in at many places is gone through once
//! (`lw_matching::lengths`).
//!
//! In a folder of its own stands:
//!
//! - [`recut`]: texts that begin alike, each cut into tokens from where they may differ.
#![tactic(auto)]

mod fault;
mod front;
mod fronts;
mod keyword;
mod known;
mod lexer;
mod next;
pub mod recut;
mod tables;
mod terminal;

pub use fault::LexFault;
pub use lexer::Lexer;
pub use next::Next;
pub use tables::LexerTables;
