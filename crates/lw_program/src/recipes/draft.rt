// The recipes of the bodies of rules.
ghost use Rattle.std.specs.Prelude.{ℕ, ◌≡◌, List, Contains, OnOk, map};
ghost use Rattle.lw_look.specs.Choices.{inside};
ghost use Rattle.lw_look.specs.Sites.{PartSite, Body, IsPartAt};
ghost use Rattle.lw_kinds.specs.LexiconKnown.{IsKnownLexicon};
ghost use Rattle.lw_reading.specs.Numbers.{IsNumberOfType};
ghost use Rattle.lw_numbers.specs.Numbering.{type_names, property_names, put_property};
ghost use Rattle.lw_program.specs.Numbered.{element_puts, element_acts};
ghost use Rattle.lw_program.specs.Drafted.{ArePartsAt, IsDrafted, IsRecipeOf, StandsSomewhere};
ghost use Rattle.lw_program.specs.Making.{IsPutNumber};

use crate::recipes::numbering::{named_property, named_type};
use crate::recipes::recipe::{ActionRecipe, ValueRecipe};
use crate::recipes::values::{Target, put_value};
use lw_base::{Name, NoMemory, PropId};
use lw_grammar::{Action, Element};
use lw_kinds::lexicon::Lexicon;
use std::alloc::Global;

/// The recipes of the values and the actions that were gone past.
#[derive(Drop)]
pub(crate) struct Draft {
    pub(crate) values: Vec<ValueRecipe>,
    pub(crate) actions: Vec<ActionRecipe>,
}

impl Draft {
    /// Goes past an element.
    #[cycle(elements)]
    pub(crate) fn pass(
        &mut self,
        alloc: Global,
        lexicon: Lexicon<'_>,
        element: &Element,
    ) -> Result<(), NoMemory>
        requires known { IsKnownLexicon lexicon }
        requires stands { StandsSomewhere lexicon.g.now (Body element.now) }
        ensures { (s : PartSite) → IsPartAt lexicon.entry.g.now s (Body element.now) →
            OnOk result (IsDrafted lexicon.entry.g.now (element_puts element.now s) (element_acts element.now s) self.old self.new) }
    {
        match element {
            Element::Keyword(..) => Ok(()),
            Element::Call(..) => Ok(()),
            Element::Assign(name, op, value, _) => {
                let prop = named_property(lexicon, name);
                let target = Target { prop, op: *op };
                put_value(alloc, lexicon, target, value, &mut self.values)
            }
            Element::Act(action) => {
                self.actions.push(action_recipe(lexicon, action))?;
                Ok(())
            }
            Element::Group(parts, _) => self.pass_all(alloc, lexicon, parts.as_slice()),
            Element::Choice(parts, _) => self.pass_all(alloc, lexicon, parts.as_slice()),
            Element::Maybe(part, _) => self.pass(alloc, lexicon, part.get()),
            Element::Many(part, _) => self.pass(alloc, lexicon, part.get()),
            Element::Some1(part, _) => self.pass(alloc, lexicon, part.get()),
        }
    }

    /// Goes past elements, one after the other.
    #[cycle(elements)]
    fn pass_all(
        &mut self,
        alloc: Global,
        lexicon: Lexicon<'_>,
        elements: &[Element],
    ) -> Result<(), NoMemory>
        requires known { IsKnownLexicon lexicon }
        requires stand { (s : PartSite) × ArePartsAt lexicon.g.now s (map Body elements.now) }
        ensures { (s : PartSite) → ArePartsAt lexicon.entry.g.now s (map Body elements.now) →
            OnOk result (IsDrafted lexicon.entry.g.now (inside s 0 (map element_puts elements.now)) (inside s 0 (map element_acts elements.now)) self.old self.new) }
    {
        for element in elements {
            self.pass(alloc, lexicon, element)?;
        }
        Ok(())
    }
}

/// What an action of the grammar does.
fn action_recipe(lexicon: Lexicon<'_>, action: &Action) -> ActionRecipe
    requires known { IsKnownLexicon lexicon }
    requires type_named { Contains (type_names lexicon.g.now) action.now.type_name }
    requires put_named { (name : List ℕ) → Contains (put_property action.now.put) name → Contains (property_names lexicon.g.now) name }
    ensures { IsRecipeOf lexicon.entry.g.now action.now result }
{
    ActionRecipe {
        type_id: named_type(lexicon, &action.type_name),
        put: put_number(lexicon, &action.put),
    }
}

/// The number of the property that an action puts the current node into, if it does.
fn put_number(lexicon: Lexicon<'_>, put: &Option<(Name, bool)>) -> Option<PropId>
    requires known { IsKnownLexicon lexicon }
    requires named { (name : List ℕ) → Contains (put_property put.now) name → Contains (property_names lexicon.g.now) name }
    ensures { IsPutNumber lexicon.entry.g.now put.now result }
{
    match put {
        Some((name, _)) => Some(named_property(lexicon, name)),
        None => None,
    }
}
