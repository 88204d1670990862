//! Tests of what stands lowest: names, counts of bytes, the outside in memory, paths, texts, the words of the command line, frames and
//! messages.
//!
//! They show what no clause says: that the calls succeed where there is memory, and what outside examples come to. Each module is named
//! by the crate or the folder that it tries, and names public items alone.
#![tactic(auto)]

#[cfg(test)]
mod base;
#[cfg(test)]
mod command_line;
#[cfg(test)]
mod frame;
#[cfg(test)]
mod io;
#[cfg(test)]
mod lanes;
#[cfg(test)]
mod paths;
#[cfg(test)]
mod rpc;
#[cfg(test)]
mod text;
