//! The words of the command line, as a command.
//!
//! Its model: words are lists of bytes, in their order behind the program's name. What they say, operands and an
//! option among them, is in `specs/Said.antt`, and which of them are a command in `specs/Words.antt`: `check GRAMMAR`,
//! `serve GRAMMAR FILE ..` and `make GRAMMAR N`, among which `--lookahead K` may stand.
//!
//! It promises that [`command_of`] gives the command that words are, and none exactly where they are none, and [`one_command`]
//! that words are one command at most. The operands and the option of a command are those that `specs/Said.antt` derives
//! from the words behind its name.
#![tactic(auto)]

mod laws;
mod root;
mod said;
mod words;

pub use laws::one_command;
pub use root::Root;
pub use words::{Command, command_of};
