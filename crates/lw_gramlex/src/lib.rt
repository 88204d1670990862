//! Reading grammar files: the tokens of a file, and what they say.
//!
//! Its model: a file is its list of bytes, and its tokens are cut from it as `specs/FileTokens.antt`
//! and `specs/FileCut.antt` say, by the form that each token has to have. White space and comments are
//! passed over. Where no token stands, a token of one character does that can follow nowhere. So every
//! text that is UTF-8 has one cut ([`every_text_has_one_cut`]), and a reader refuses at a token. The
//! forms are those of Langium's grammar language, of which these files are a stated part.
//!
//! It promises that [`front_tokens`] gives the cut of a text, up to the first token that can follow
//! nowhere; that each token stands at a part of the text that splits no character; and that its bytes
//! have the form of its kind, which is what the functions on a token's text ask for.
//!
//! [`word_name`], [`string_value`] and [`regex_text`] give what tokens say. `//` begins a comment, and
//! a `/*` that nothing closes does not ([`comments_and_slashes`]).
#![tactic(auto)]

mod cut;
mod hidden;
mod laws;
mod regex;
mod string;
mod symbol;
mod token;
mod values;
mod word;

pub use cut::front_tokens;
pub use laws::{comments_and_slashes, every_text_has_one_cut};
pub use token::{FileKind, FileToken, Symbol};
pub use values::{is_reserved, read_escapes, regex_text, string_value, word_name};
