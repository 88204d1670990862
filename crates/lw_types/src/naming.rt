//! What is wrong with the names of a grammar.
//!
//! [`find_name_faults`] goes over a grammar and finds the faults that are about its names: what is
//! declared or inferred a second time, calls of rules and names of types that are not there,
//! cross-references that nothing reads, and types that extend themselves, extend what is no interface,
//! or have themselves as members.
//!
//! Its model: the names that a grammar writes are one list, each with what it does where it stands, and
//! the types that extend each other or are members of each other are edges between their places. Such a
//! list is the code's own. Lemmas say that a name stands in it exactly where the definitions of faults
//! speak of it, and that a type lies on a circle of edges exactly where it leads to itself.
//!
//! It promises that exactly those faults are found which the definitions name, besides what was found
//! before. [`find_name_faults`] finds the faults 4, 5, 6, 18 and 19. The names are gathered in one
//! pass, and what a name means is looked up in constant time, as expected, so the time is linear in the
//! grammar, but for types on circles: each interface or union that lies on one or leads to one costs a
//! search of its own.
mod attributes;
mod circles;
mod declarations;
mod faults;
mod mentions;
mod names;

pub use faults::find_name_faults;
