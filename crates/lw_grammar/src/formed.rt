//! Grammars that are well formed, whatever their names mean and whatever their rules read.
//!
//! Its model: a grammar as plain data (`lw_grammar`). `specs/WellFormed.antt` says of one that each
//! choice in a terminal has a part, and that no rule stands where a terminal stands.
//!
//! There is no code here, only this definition. Whoever loads a grammar promises it, and whoever writes
//! the patterns of its terminals goes by it; neither has to know the other.
