//! What is found wrong with a grammar: a heap of faults that becomes the one list of them.
//!
//! Its model: [`Findings`] is the list of the faults that were put in, as they came. It promises that
//! a fault that is put in ([`Findings::add`]) is found besides those of before. The list that it
//! becomes ([`Findings::into_list`]) has each of them once, in the order of faults. Putting one in
//! takes constant time, spread over all, and a copy of its name; making the list takes n log n
//! compares.
mod findings;
mod told;

pub use findings::Findings;
