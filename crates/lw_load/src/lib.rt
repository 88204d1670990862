//! Which grammar a root file says with all that it imports: the walk over the files, and the join of what they say.
//!
//! Its model: a file that is loaded has an address, a text, and what that says (`lw_gramread`). The files come in load
//! order: the root, then each import depth first in the order of the text, each file once. The grammar has the things
//! of all files, each with the number of its file. The definitions stand in `specs/`:
//!
//! - `Paths.antt`: the path that an import names.
//! - `Loading.antt`: which files are loaded, in which order, and how they are joined.
//! - `LoadFaults.antt`: why none are, the first fault in that order.
//! - `Standing.antt`: in which file's text each thing stands.
//! - `FilledChoices.antt`: that each choice in a rule has a part.
//! - `Opening.antt`, `Walking.antt`: how the walk opens a file, and goes on.
//!
//! It promises that [`load`] gives the grammar of a root file and no other, or the first fault, where the store tells
//! its files. At a fault the files say none, but where the store failed or memory was wanting. Files are loaded depth
//! first, each once. Of each file what it says, and then how large the grammar is with it, is looked at before its
//! imports. The count of the store rises exactly where the store failed.
//!
//! Of a grammar that is loaded it promises that it has a file, and that it is not larger than [`LARGEST_GRAMMAR`].
//! [`limit_of_grammars`] says which number that is: 65,535. Each choice in a terminal has a part, and no rule stands where a terminal stands (`lw_grammar::formed`). Each
//! choice in a rule has a part, too. Each place in the grammar is in the text of its file, so that whoever finds
//! something wrong can tell where.
#![tactic(auto)]

mod fault;
mod join;
mod laws;
mod limits;
mod loader;
mod opening;
mod paths;
mod size;
mod walk;

pub use fault::LoadFault;
pub use laws::limit_of_grammars;
pub use limits::LARGEST_GRAMMAR;
pub use loader::{Loaded, load};
