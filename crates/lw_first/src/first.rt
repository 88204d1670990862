// What the parts of a grammar may begin with.
ghost use Rattle.std.specs.Prelude.{IfOk, OnOk};
ghost use Rattle.lw_grammar.specs.Kinds.{Kinds, AreKinds};
ghost use Rattle.lw_look.specs.Sites.{Body, Value};
ghost use Rattle.lw_first.specs.Sets.{AddsHeads};
ghost use Rattle.lw_first.specs.Before.{CanBefore, RowCanBefore, ManyCanBefore, IsReady};
ghost use Rattle.lw_first.specs.Forms.{ChosenBefore, MaybeBefore, OnceBefore, ValuesBefore};
ghost use Rattle.lw_first.specs.New.{AreNew};

use crate::fresh::{put_all, put_new};
use crate::heads::{Head, HeadSet};
use lw_base::NoMemory;
use lw_grammar::{Element, Value0};
use lw_kinds::lexicon::Lexicon;
use std::alloc::Global;

/// What calls of a grammar's rules may begin with, by which it is found what its parts may.
#[derive(Clone, Copy)]
pub struct First<'a> {
    pub lexicon: Lexicon<'a>,
    /// How many kinds a head has at most.
    pub k: usize,
    /// By the number of a rule, its heads.
    pub heads: &'a [HeadSet],
}

impl First<'_> {
    /// Puts in what may come where the element stands and one of these heads is behind it.
    #[cycle(elements)]
    pub fn element(
        &self,
        alloc: Global,
        element: &Element,
        after: &[Head],
        into: &mut HeadSet,
    ) -> Result<(), NoMemory>
        requires { IsReady self.now }
        ensures { (kinds : Kinds) → AreKinds self.now.lexicon.g.now kinds →
            OnOk result (AddsHeads (CanBefore self.now.lexicon.g.now kinds self.now.k self.now.heads.now (Body element.now) after.now) into.old into.new) }
    {
        match element {
            Element::Keyword(text, _) => self.keyword(text, after, into),
            Element::Call(name, _) => self.call(name, after, into),
            Element::Assign(_, _, value, _) => self.value(alloc, value, after, into),
            Element::Act(_) => put_all(after, into),
            Element::Group(parts, _) => self.row(alloc, parts.as_slice(), after, into),
            Element::Choice(parts, _) => self.choice(alloc, parts.as_slice(), after, into),
            Element::Maybe(part, _) => self.optional(alloc, part.get(), after, into),
            Element::Many(part, _) => self.repeated(alloc, part.get(), after, into),
            Element::Some1(part, _) => self.repeated_once(alloc, part.get(), after, into),
        }
    }

    /// The same of a value that is assigned.
    #[cycle(values)]
    pub fn value(
        &self,
        alloc: Global,
        value: &Value0,
        after: &[Head],
        into: &mut HeadSet,
    ) -> Result<(), NoMemory>
        requires { IsReady self.now }
        ensures { (kinds : Kinds) → AreKinds self.now.lexicon.g.now kinds →
            OnOk result (AddsHeads (CanBefore self.now.lexicon.g.now kinds self.now.k self.now.heads.now (Value value.now) after.now) into.old into.new) }
    {
        match value {
            Value0::Keyword(text, _) => self.keyword(text, after, into),
            Value0::Call(name, _) => self.call(name, after, into),
            Value0::Cross(wanted, rule, _) => self.cross(wanted, rule, after, into),
            Value0::Choice(values, _) => self.values(alloc, values.as_slice(), after, into),
        }
    }

    /// The same of a choice of values.
    #[cycle(values)]
    fn values(
        &self,
        alloc: Global,
        values: &[Value0],
        after: &[Head],
        into: &mut HeadSet,
    ) -> Result<(), NoMemory>
        requires { IsReady self.now }
        ensures { (kinds : Kinds) → AreKinds self.now.lexicon.g.now kinds →
            OnOk result (AddsHeads (ValuesBefore self.now.lexicon.g.now kinds self.now.k self.now.heads.now values.now after.now) into.old into.new) }
    {
        for value in values {
            self.value(alloc, value, after, into)?;
        }
        Ok(())
    }

    /// The same of elements that stand in a row. What stands last is done first.
    #[cycle(elements)]
    pub fn row(
        &self,
        alloc: Global,
        parts: &[Element],
        after: &[Head],
        into: &mut HeadSet,
    ) -> Result<(), NoMemory>
        requires { IsReady self.now }
        ensures { (kinds : Kinds) → AreKinds self.now.lexicon.g.now kinds →
            OnOk result (AddsHeads (RowCanBefore self.now.lexicon.g.now kinds self.now.k self.now.heads.now parts.now after.now) into.old into.new) }
    {
        let mut behind = HeadSet::new(alloc);
        behind.insert_all(after)?;
        let mut left = parts.len();
        'parts: while left > 0 {
            left -= 1;
            let mut before = HeadSet::new(alloc);
            self.element(alloc, &parts[left], behind.as_slice(), &mut before)?;
            behind = before;
        }
        put_all(behind.as_slice(), into)
    }

    /// The same of a choice of elements.
    #[cycle(elements)]
    fn choice(
        &self,
        alloc: Global,
        parts: &[Element],
        after: &[Head],
        into: &mut HeadSet,
    ) -> Result<(), NoMemory>
        requires { IsReady self.now }
        ensures { (kinds : Kinds) → AreKinds self.now.lexicon.g.now kinds →
            OnOk result (AddsHeads (ChosenBefore self.now.lexicon.g.now kinds self.now.k self.now.heads.now parts.now after.now) into.old into.new) }
    {
        for part in parts {
            self.element(alloc, part, after, into)?;
        }
        Ok(())
    }

    /// The same of an element that is read once or not at all.
    #[cycle(elements)]
    fn optional(
        &self,
        alloc: Global,
        part: &Element,
        after: &[Head],
        into: &mut HeadSet,
    ) -> Result<(), NoMemory>
        requires { IsReady self.now }
        ensures { (kinds : Kinds) → AreKinds self.now.lexicon.g.now kinds →
            OnOk result (AddsHeads (MaybeBefore self.now.lexicon.g.now kinds self.now.k self.now.heads.now part.now after.now) into.old into.new) }
    {
        into.insert_all(after)?;
        self.element(alloc, part, after, into)
    }

    /// The same of an element that is read any number of times. What is met is put before the element as long as something new is met.
    #[cycle(elements)]
    pub fn repeated(
        &self,
        alloc: Global,
        part: &Element,
        after: &[Head],
        into: &mut HeadSet,
    ) -> Result<(), NoMemory>
        requires { IsReady self.now }
        ensures { (kinds : Kinds) → AreKinds self.now.lexicon.g.now kinds →
            OnOk result (AddsHeads (ManyCanBefore self.now.lexicon.g.now kinds self.now.k self.now.heads.now part.now after.now) into.old into.new) }
    {
        let mut met = HeadSet::new(alloc);
        let mut fresh = put_new(alloc, after, &mut met)?;
        let mut done = 0;
        'turns: while done < met.len() {
            done = met.len();
            fresh = self.turn(alloc, part, fresh.as_slice(), &mut met)?;
        }
        put_all(met.as_slice(), into)
    }

    /// Puts in what may come where the element stands before these heads, and gives what of it is new.
    #[cycle(elements)]
    fn turn(
        &self,
        alloc: Global,
        part: &Element,
        fresh: &[Head],
        met: &mut HeadSet,
    ) -> Result<Vec<Head>, NoMemory>
        requires { IsReady self.now }
        ensures adds { (kinds : Kinds) → AreKinds self.now.lexicon.g.now kinds →
            OnOk result (AddsHeads (CanBefore self.now.lexicon.g.now kinds self.now.k self.now.heads.now (Body part.now) fresh.now) met.old met.new) }
        ensures fresh { IfOk result (λ more. AreNew more.items met.old met.new) }
    {
        let mut next = HeadSet::new(alloc);
        self.element(alloc, part, fresh, &mut next)?;
        put_new(alloc, next.as_slice(), met)
    }

    /// The same of an element that is read once or more.
    #[cycle(elements)]
    fn repeated_once(
        &self,
        alloc: Global,
        part: &Element,
        after: &[Head],
        into: &mut HeadSet,
    ) -> Result<(), NoMemory>
        requires { IsReady self.now }
        ensures { (kinds : Kinds) → AreKinds self.now.lexicon.g.now kinds →
            OnOk result (AddsHeads (OnceBefore self.now.lexicon.g.now kinds self.now.k self.now.heads.now part.now after.now) into.old into.new) }
    {
        let mut behind = HeadSet::new(alloc);
        self.repeated(alloc, part, after, &mut behind)?;
        self.element(alloc, part, behind.as_slice(), into)
    }
}
