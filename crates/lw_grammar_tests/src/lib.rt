//! Tests of what is made of grammars: their tokens, their files, graphs, properties, and the tables of a parser.
//!
//! They show what no clause says: that the calls succeed where there is memory, and what small grammars come to. Each module is named by
//! the crate or the folder that it tries, and names public items alone.
#![tactic(auto)]

#[cfg(test)]
mod chains;
#[cfg(test)]
mod gramlex;
#[cfg(test)]
mod graph;
#[cfg(test)]
mod load;
#[cfg(test)]
mod preorder;
#[cfg(test)]
mod property_table;
