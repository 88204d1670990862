//! Tests of languages, workspaces and sessions: what grammars and texts read as, what builds publish, and what messages are answered.
//! What is tried of whole commands is a row of `lw_command_rows`.
//!
//! They show what no clause says: that the calls succeed where there is memory, and what examples come to that are worked by hand. Each
//! module is named by what it tries, and names public items alone.
#![tactic(auto)]

#[cfg(test)]
mod build;
#[cfg(test)]
mod completion;
#[cfg(test)]
mod files;
#[cfg(test)]
mod make;
#[cfg(test)]
mod making;
#[cfg(test)]
mod reading;
#[cfg(test)]
mod session;
#[cfg(test)]
mod syntax;
