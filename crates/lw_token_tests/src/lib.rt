//! Tests of patterns and tokens: what patterns are written, what they match, and how texts are cut.
//!
//! They show what no clause says: that the calls succeed where there is memory, what texts come to that are cut by hand, and that what
//! only saves searches is found. Each module is named by the crate or the folder that it tries, and names public items alone.
#![tactic(auto)]

#[cfg(test)]
mod lengths;
#[cfg(test)]
mod lexer;
#[cfg(test)]
mod matchers;
#[cfg(test)]
mod matching;
#[cfg(test)]
mod patterns;
#[cfg(test)]
mod recut;
#[cfg(test)]
mod sure;
