//! The commands: what `check`, `serve` and `make` do, over any source, sinks, store and patterns.
//!
//! [`run`] has the whole meaning of the program, and one clause, `Runs` (`specs/Run.antt`). It says which outcome there is, the work done
//! or a stop, and what is told of it: the status by a table (`specs/Stops.antt`), the counts of faults, and the note (`specs/Notes.antt`).
//! What the work is stands command by command: `specs/Checking.antt`, `specs/Serving.antt` with `specs/Named.antt`, `specs/Making.antt`.
//! A grammar that is accepted (`specs/Accepted.antt`) is held, has no fault and is built. Where nothing fails, it is answered whole or memory was refused.
//!
//! `named` reads the files that the words name, `serve` keeps the conversation frame by frame and `desk` what a run leaves, `report` makes
//! the lines of `check` and `making` those of `make`, `stop` has the causes that end a run early and `notes` their lines.
//!
//! It promises nothing of the memory that there is, and that a reply is written before the next read is tested.
#![tactic(auto)]

mod desk;
mod making;
mod named;
mod notes;
mod place;
mod report;
mod serve;
mod stop;
mod top;

pub use desk::Desk;
pub use top::{Status, run};
