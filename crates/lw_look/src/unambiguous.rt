//! In a grammar that is strong LL(k) no list of kinds is that of two sentences.
//!
//! `lw_look` says when a grammar is strong LL(k): no window of `k` kinds comes next at two ways of one choice.
//! `lw_grammar::sentences` says which marks are a sentence: what reading by the grammar does, in its order. The law
//! of this folder joins the two. It is the textbooks' theorem that such a grammar is not ambiguous, said of marks:
//! two sentences whose tokens have the same kinds, in the same order, are one ([`one_sentence`]). So a text that
//! was cut into tokens is read in one way at most. The grammar may have any faults, and `k` may be 0.
//!
//! Whether a list of kinds is that of any sentence is not said.
//!
//! There is no code here but a law.
mod laws;

pub use laws::one_sentence;
