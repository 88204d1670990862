//! What the marks of a reading make, by the numbers that they have.
//!
//! A reading leaves a [`TreeMark`] for each thing that it does. The values that a grammar assigns and its actions stand in the grammar,
//! and a mark names them by their numbers: their places among those of the whole grammar, rule after rule, and in a rule what stands
//! earlier first (`specs/Meant.antt`). [`Recipes`] says by these numbers what is made: of a value, into which property it goes and what
//! its text becomes ([`ValueRecipe`]); of an action, the type and the property ([`ActionRecipe`]); of a rule, the type of the nodes that
//! it begins; and which property names a node. So whoever builds a tree looks up no name.
//!
//! The model of [`Recipes`] is a record of three lists and that property (`specs/Making.antt`): what is made, by the numbers of values;
//! what is done, by the numbers of actions; and what is opened, by the numbers of rules.
//!
//! It promises that these are the recipes of the grammar ([`Recipes::of`]). Each property and each type has its
//! number there, and what a value becomes is all that the grammar lets it become. A cross-reference that makes a
//! reference becomes one, whatever its names mean. A grammar with faults has recipes too. Where the name of a call
//! means nothing, the value is a text. Where that of a cross-reference means nothing, the reference wants the first
//! type, or looks up its text as it stands. That these are a text, the first type and the text as it stands is not
//! proved.
//!
//! [`Recipes::of`] takes time and memory linear in the size of the grammar, but for the expected constant time in which a name is looked
//! up. A reader takes constant time.
mod content;
mod draft;
mod mark;
mod numbering;
mod recipe;
mod recipes;
mod values;

pub use mark::TreeMark;
pub use recipe::{ActionRecipe, Content, TextForm, ValueRecipe};
pub use recipes::Recipes;
