//! What is told of a program's places and of rules before anything is read: which places may read nothing, which kinds of tokens may come
//! next at a call, and which calls are nodes. By it a reader of the first tokens of a text leaves ways alone that cannot go on.
//!
//! [`Begins::of`] makes three tables: a flag for each place, a row of flags for each rule, by kinds, and a flag for each rule.
//!
//! Its model is these tables as lists (`specs/Told.antt`). They are held against what places and rules give (`specs/Gives.antt`): lists of
//! marks, as the grammar's sentences are made of. A place may read nothing where some marks that its task gives have no token. A kind may
//! come next at a rule where what some call of the rule reads begins with a token of the kind, or is nothing.
//!
//! It promises that each flag is exact: it is set where this is so, and nowhere else. That places and kinds are those of the grammar is
//! asked of the caller, as `IsProgramOf` and `AreKinds`.
//!
//! What rules may begin with is taken from their heads of one kind (`lw_first`). Places are told from the last to the first in one pass,
//! since an instruction names later places alone, and calls are told by the rules. Beside the time for the heads, it takes time and memory
//! linear in the size of the program, and in the number of rules times the number of kinds. An answer takes constant time.
mod begins;
mod empty_places;
mod rules;

pub use begins::Begins;
