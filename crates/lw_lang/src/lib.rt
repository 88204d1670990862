//! A grammar made ready: a root file and all that it imports become a language, and a text is read by it.
//!
//! [`compile`] loads the root file of a grammar with all that it imports through a store (`lw_load`), and answers the
//! [`Language`] of what the files say together, or the one cause why there is none. [`Language::read`] says what a text
//! reads as, with its tree or its one fault, exactly as `specs/Reading.antt` of `lw_reading` does. A language is seen as its
//! grammar, the texts by which messages name its kinds, and how many kinds its tables look ahead: as many as were asked for.
//!
//! Any grammar is loaded, and judged (`lw_gramcheck`): where something is wrong with it, all faults of the first phase that has
//! any are told, each by the path of its file and the position there (`lw_lang::told`). Of one without a fault the set of tokens is
//! made (`lw_terminals`), and then it is found out whether the next kinds of tokens tell the ways of its choices apart
//! (`lw_lookahead`); why not is told in the same way. Its kinds of tokens and what its rules can read are found once
//! for all of this, beside its types, and lent. What has passed all of this is made ready: by the tables its rules are
//! parsed (`lw_parse`), and nothing of that is made anew for a text. Who asks more of a text than its reading cuts it into tokens himself
//! ([`Language::cut`]) and is lent what texts are parsed by ([`Language::parser`]).
//!
//! A grammar that is compiled has no empty keyword, and no two of its sentences have one list of kinds
//! ([`compiled_grammars_are_read_in_one_way`]). What the crates above say of texts is settled by such a grammar, and they ask for one.
//!
//! A keyword at fault is told by the path and the position of its first use, and a conflict by those of its choice. A
//! terminal is told by its number among the rules and terminals, its name, and the path and the position where that
//! stands. The count of the patterns rises exactly where one was refused ([`compile`]).
//!
//! [`Language::cut`] gives the one cut of a text into tokens. Where there is none, it gives the first place where no
//! token stands, with the character there. [`Language::types`], [`Language::tokens`], [`Language::look`] and
//! [`Language::parser`] lend the types of the grammar, its set of tokens, its tables and what its texts are parsed
//! by.
//!
//! In a folder of its own stands:
//!
//! - [`told`]: faults of a grammar as they are told to its author.
#![tactic(auto)]

mod compiler;
mod entry;
mod facts;
mod fault;
mod judging;
mod language;
mod laws;
pub mod told;
mod told_look;
mod told_term;

pub use compiler::compile;
pub use fault::CompileFault;
pub use language::Language;
pub use laws::compiled_grammars_are_read_in_one_way;
pub use lw_lexer::LexFault;
pub use lw_reading::{Issue, Parsed};
pub use told_look::{ToldConflict, ToldLookFault};
pub use told_term::{FilePlace, PatternProblem, ToldTermFault, ToldTerminal};
