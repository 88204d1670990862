// What is gathered in a walk over rules: the first uses of keywords, and which terminals are called.
ghost use Rattle.std.specs.Prelude.{◌≡◌, [], false, IfOk, OnOk, length, replicate};
ghost use Rattle.std.specs.List.{flat_map};
ghost use Rattle.lw_grammar.specs.Leaves.{leaves, value_leaves};
ghost use Rattle.lw_kinds.specs.Crossing.{IsReadBy};
ghost use Rattle.lw_kinds.specs.Reading.{IsReadingOf};
ghost use Rattle.lw_kinds.specs.Calls.{IsTerminalSo, Marks};
ghost use Rattle.lw_kinds.specs.Gathering.{AreNamesKnown, HasMarks, GathersParts, GathersLeaves, IsGatheredBelow, put_use};

use crate::derivations::Reading;
use crate::kind_table::FirstUse;
use crate::names::{Names, terminal_place};
use indexmap::IndexMap;
use lw_base::{Name, NoMemory};
use lw_grammar::{Element, Value0};
use std::alloc::Global;

/// Keywords with their first uses, and marks of the terminals that are called, by their places.
#[derive(Drop)]
pub(crate) struct Gathered {
    pub(crate) keywords: IndexMap<Name, FirstUse>,
    pub(crate) called: Vec<bool>,
}

impl Gathered {
    /// Nothing so far, of a grammar with so many terminals.
    fn new(alloc: Global, terminals: usize) -> Result<Gathered, NoMemory>
        ensures keywords { IfOk result (λ gathered. gathered.keywords.entries ≡ []) }
        ensures called { IfOk result (λ gathered. gathered.called.items ≡ replicate terminals false) }
    {
        Ok(Gathered {
            keywords: IndexMap::new(alloc),
            called: vec![in alloc; false; terminals]?,
        })
    }

    /// Puts the keyword behind the others, unless it is one of them.
    fn put(&mut self, alloc: Global, text: &Name, first: FirstUse) -> Result<(), NoMemory>
        ensures keywords { OnOk result (self.new.keywords.entries ≡ put_use self.old.keywords.entries (text.now, first)) }
        ensures called { self.new.called.items ≡ self.old.called.items }
    {
        if !self.keywords.contains_key(text) {
            self.keywords.insert(text.copy(alloc)?, first)?;
        }
        Ok(())
    }
}

impl Names<'_> {
    /// What the rules write that are reached.
    pub(crate) fn gather(&self, alloc: Global, reading: &Reading) -> Result<Gathered, NoMemory>
        requires known { AreNamesKnown self.now }
        requires read { IsReadingOf self.now.g.now reading.now }
        ensures { IfOk result (IsGatheredBelow self.now.g.now (length self.now.g.now.rules)) }
    {
        let mut gathered = Gathered::new(alloc, self.g.terminals.len())?;
        for (number, rule) in self.g.rules.as_slice().iter().enumerate() {
            if reading.is_reached(number) {
                self.add_element(alloc, rule.file, &rule.body, &mut gathered)?;
            }
        }
        Ok(gathered)
    }

    #[cycle(elements)]
    fn add_element(
        &self,
        alloc: Global,
        file: u16,
        element: &Element,
        gathered: &mut Gathered,
    ) -> Result<(), NoMemory>
        requires known { AreNamesKnown self.now }
        requires marks { HasMarks self.now.g.now gathered.old }
        ensures { OnOk result (GathersLeaves self.now.g.now file (leaves element.now) gathered.old gathered.new) }
    {
        match element {
            Element::Keyword(text, span) => {
                gathered.put(alloc, text, FirstUse { file, span: *span })
            }
            Element::Call(name, _) => {
                self.mark(name, &mut gathered.called);
                Ok(())
            }
            Element::Assign(_, _, value, _) => self.add_value(alloc, file, value, gathered),
            Element::Act(_) => Ok(()),
            Element::Group(parts, _) | Element::Choice(parts, _) => {
                self.add_elements(alloc, file, parts.as_slice(), gathered)
            }
            Element::Maybe(part, _) | Element::Many(part, _) | Element::Some1(part, _) => {
                self.add_element(alloc, file, part.get(), gathered)
            }
        }
    }

    #[cycle(elements)]
    fn add_elements(
        &self,
        alloc: Global,
        file: u16,
        elements: &[Element],
        gathered: &mut Gathered,
    ) -> Result<(), NoMemory>
        requires known { AreNamesKnown self.now }
        requires marks { HasMarks self.now.g.now gathered.old }
        ensures { OnOk result (GathersLeaves self.now.g.now file (flat_map leaves elements.now) gathered.old gathered.new) }
    {
        for element in elements {
            self.add_element(alloc, file, element, gathered)?;
        }
        Ok(())
    }

    #[cycle(values)]
    fn add_value(
        &self,
        alloc: Global,
        file: u16,
        value: &Value0,
        gathered: &mut Gathered,
    ) -> Result<(), NoMemory>
        requires known { AreNamesKnown self.now }
        requires marks { HasMarks self.now.g.now gathered.old }
        ensures { OnOk result (GathersParts self.now.g.now file (value_leaves value.now) gathered.old gathered.new) }
    {
        match value {
            Value0::Keyword(text, span) => gathered.put(
                alloc,
                text,
                FirstUse { file, span: *span },
            ),
            Value0::Call(name, _) => {
                self.mark(name, &mut gathered.called);
                Ok(())
            }
            Value0::Cross(wanted, rule, _) => {
                self.mark_cross(wanted, rule, &mut gathered.called);
                Ok(())
            }
            Value0::Choice(values, _) => self.add_values(alloc, file, values.as_slice(), gathered),
        }
    }

    #[cycle(values)]
    fn add_values(
        &self,
        alloc: Global,
        file: u16,
        values: &[Value0],
        gathered: &mut Gathered,
    ) -> Result<(), NoMemory>
        requires known { AreNamesKnown self.now }
        requires marks { HasMarks self.now.g.now gathered.old }
        ensures { OnOk result (GathersParts self.now.g.now file (flat_map value_leaves values.now) gathered.old gathered.new) }
    {
        for value in values {
            self.add_value(alloc, file, value, gathered)?;
        }
        Ok(())
    }

    /// Marks the terminal that the name means, if it means one.
    fn mark(&self, name: &Name, called: &mut Vec<bool>)
        requires known { AreNamesKnown self.now }
        requires marks { length called.old.items ≡ length self.now.g.now.terminals }
        ensures { Marks (IsTerminalSo self.now.g.now (λ called. name.now ≡ called)) called.old.items called.new.items }
    {
        match terminal_place(self.g, self.numbers, name) {
            Some(place) => called[place] = true,
            None => {}
        }
    }

    /// Marks the terminal that reads a cross-reference to this type, where this rule is written or none.
    fn mark_cross(&self, wanted: &Name, rule: &Option<Name>, called: &mut Vec<bool>)
        requires known { AreNamesKnown self.now }
        requires marks { length called.old.items ≡ length self.now.g.now.terminals }
        ensures { Marks (IsTerminalSo self.now.g.now (IsReadBy self.now.g.now wanted.now rule.now)) called.old.items called.new.items }
    {
        match self.read_by(wanted, rule) {
            Some(name) => self.mark(name, called),
            None => {}
        }
    }
}
