// The parts of a rule gone through, an outer choice before those inside it.
ghost use Rattle.std.specs.Prelude.{OnOk, map};
ghost use Rattle.lw_grammar.specs.Kinds.{Kinds, AreKinds};
ghost use Rattle.lw_look.specs.Choices.{element_choices, value_choices, inside};
ghost use Rattle.lw_first.specs.Before.{ManyCanBefore, IsReady};
ghost use Rattle.lw_lookahead.specs.Counted.{AreCountedPoints};
ghost use Rattle.lw_lookahead.specs.Gathering.{
  GathersWhere,
  IsElementAt,
  IsValueAt,
  HasRowAt,
  HasAlternatives,
  HasValueAlternatives,
  HasSomeAlternatives,
  HasSomeValueAlternatives,
  HasOptional,
  HasRepeated,
  site_alone,
  with_part,
};
ghost use Rattle.lw_lookahead.specs.Ways.{HasExactly};

use crate::points::gathered::Gathered;
use crate::points::ways::{alternatives, repeated_heads, two_ways, value_alternatives};
use crate::points::{Point, PointsFault};
use lw_base::Span;
use lw_first::First;
use lw_first::follow::behind_each;
use lw_first::heads::Head;
use lw_grammar::{Element, Value0};
use std::alloc::Global;

/// What is known while the rules of a file are gone through.
#[derive(Clone, Copy)]
pub(crate) struct Walk<'a> {
    pub(crate) first: First<'a>,
    pub(crate) file: u16,
}

impl Walk<'_> {
    /// Gathers the choices in an element that these heads may follow.
    #[cycle(elements)]
    pub(crate) fn add_element(
        &self,
        alloc: Global,
        element: &Element,
        after: &[Head],
        gathered: &mut Gathered,
    ) -> Result<(), PointsFault>
        requires ready { IsReady self.now.first }
        requires counted { AreCountedPoints gathered.old }
        ensures gathers { GathersWhere self.now.first self.now.file (IsElementAt element.now) after.now (element_choices element.now) gathered.old.points.items gathered.new.points.items result }
        ensures counted { OnOk result (AreCountedPoints gathered.new) }
    {
        match element {
            Element::Keyword(..) | Element::Call(..) | Element::Act(_) => Ok(()),
            Element::Assign(_, _, value, _) => self.add_value(alloc, value, after, gathered),
            Element::Group(parts, _) => self.add_row(alloc, parts.as_slice(), after, gathered),
            Element::Choice(parts, span) => {
                self.put_alternatives(alloc, parts.as_slice(), *span, after, gathered)?;
                self.add_alternatives(alloc, parts.as_slice(), after, gathered)
            }
            Element::Maybe(part, span) => {
                self.put_optional(alloc, part.get(), *span, after, gathered)?;
                self.add_element(alloc, part.get(), after, gathered)
            }
            Element::Many(part, span) | Element::Some1(part, span) => {
                self.add_repeated(alloc, part.get(), *span, after, gathered)
            }
        }
    }

    /// Those in the parts of a row.
    #[cycle(elements)]
    fn add_row(
        &self,
        alloc: Global,
        parts: &[Element],
        after: &[Head],
        gathered: &mut Gathered,
    ) -> Result<(), PointsFault>
        requires ready { IsReady self.now.first }
        requires counted { AreCountedPoints gathered.old }
        ensures gathers { GathersWhere self.now.first self.now.file (HasRowAt parts.now) after.now (λ s. inside s 0 (map element_choices parts.now)) gathered.old.points.items gathered.new.points.items result }
        ensures counted { OnOk result (AreCountedPoints gathered.new) }
    {
        let behind = behind_each(alloc, &self.first, parts, after)?;
        for (number, part) in parts.iter().enumerate() {
            self.add_element(alloc, part, behind[number].as_slice(), gathered)?;
        }
        Ok(())
    }

    /// Those in the alternatives of a choice.
    #[cycle(elements)]
    fn add_alternatives(
        &self,
        alloc: Global,
        parts: &[Element],
        after: &[Head],
        gathered: &mut Gathered,
    ) -> Result<(), PointsFault>
        requires ready { IsReady self.now.first }
        requires counted { AreCountedPoints gathered.old }
        ensures gathers { GathersWhere self.now.first self.now.file (HasSomeAlternatives parts.now) after.now (λ s. inside s 0 (map element_choices parts.now)) gathered.old.points.items gathered.new.points.items result }
        ensures counted { OnOk result (AreCountedPoints gathered.new) }
    {
        for part in parts {
            self.add_element(alloc, part, after, gathered)?;
        }
        Ok(())
    }

    /// `*` or `+`, and those inside it.
    #[cycle(elements)]
    fn add_repeated(
        &self,
        alloc: Global,
        part: &Element,
        span: Span,
        after: &[Head],
        gathered: &mut Gathered,
    ) -> Result<(), PointsFault>
        requires ready { IsReady self.now.first }
        requires counted { AreCountedPoints gathered.old }
        ensures gathers { GathersWhere self.now.first self.now.file (HasRepeated part.now span) after.now (with_part part.now) gathered.old.points.items gathered.new.points.items result }
        ensures counted { OnOk result (AreCountedPoints gathered.new) }
    {
        let again = repeated_heads(alloc, &self.first, part, after)?;
        self.put_repeated(alloc, part, span, again.as_slice(), after, gathered)?;
        self.add_element(alloc, part, again.as_slice(), gathered)
    }

    /// Those in a value that is assigned.
    #[cycle(values)]
    fn add_value(
        &self,
        alloc: Global,
        value: &Value0,
        after: &[Head],
        gathered: &mut Gathered,
    ) -> Result<(), PointsFault>
        requires ready { IsReady self.now.first }
        requires counted { AreCountedPoints gathered.old }
        ensures gathers { GathersWhere self.now.first self.now.file (IsValueAt value.now) after.now (value_choices value.now) gathered.old.points.items gathered.new.points.items result }
        ensures counted { OnOk result (AreCountedPoints gathered.new) }
    {
        match value {
            Value0::Keyword(..) | Value0::Call(..) | Value0::Cross(..) => Ok(()),
            Value0::Choice(values, span) => {
                self.put_values(alloc, values.as_slice(), *span, after, gathered)?;
                self.add_values(alloc, values.as_slice(), after, gathered)
            }
        }
    }

    /// Those in alternative values.
    #[cycle(values)]
    fn add_values(
        &self,
        alloc: Global,
        values: &[Value0],
        after: &[Head],
        gathered: &mut Gathered,
    ) -> Result<(), PointsFault>
        requires ready { IsReady self.now.first }
        requires counted { AreCountedPoints gathered.old }
        ensures gathers { GathersWhere self.now.first self.now.file (HasSomeValueAlternatives values.now) after.now (λ s. inside s 0 (map value_choices values.now)) gathered.old.points.items gathered.new.points.items result }
        ensures counted { OnOk result (AreCountedPoints gathered.new) }
    {
        for value in values {
            self.add_value(alloc, value, after, gathered)?;
        }
        Ok(())
    }

    /// A choice of elements.
    fn put_alternatives(
        &self,
        alloc: Global,
        parts: &[Element],
        span: Span,
        after: &[Head],
        gathered: &mut Gathered,
    ) -> Result<(), PointsFault>
        requires ready { IsReady self.now.first }
        requires counted { AreCountedPoints gathered.old }
        ensures gathers { GathersWhere self.now.first self.now.file (HasAlternatives parts.now span) after.now site_alone gathered.old.points.items gathered.new.points.items result }
        ensures counted { OnOk result (AreCountedPoints gathered.new) }
    {
        let ways = alternatives(alloc, &self.first, parts, after)?;
        gathered.put(Point {
            file: self.file,
            span,
            ways,
        })
    }

    /// A choice of values.
    fn put_values(
        &self,
        alloc: Global,
        values: &[Value0],
        span: Span,
        after: &[Head],
        gathered: &mut Gathered,
    ) -> Result<(), PointsFault>
        requires ready { IsReady self.now.first }
        requires counted { AreCountedPoints gathered.old }
        ensures gathers { GathersWhere self.now.first self.now.file (HasValueAlternatives values.now span) after.now site_alone gathered.old.points.items gathered.new.points.items result }
        ensures counted { OnOk result (AreCountedPoints gathered.new) }
    {
        let ways = value_alternatives(alloc, &self.first, values, after)?;
        gathered.put(Point {
            file: self.file,
            span,
            ways,
        })
    }

    /// `?`
    fn put_optional(
        &self,
        alloc: Global,
        part: &Element,
        span: Span,
        after: &[Head],
        gathered: &mut Gathered,
    ) -> Result<(), PointsFault>
        requires ready { IsReady self.now.first }
        requires counted { AreCountedPoints gathered.old }
        ensures gathers { GathersWhere self.now.first self.now.file (HasOptional part.now span) after.now site_alone gathered.old.points.items gathered.new.points.items result }
        ensures counted { OnOk result (AreCountedPoints gathered.new) }
    {
        let ways = two_ways(alloc, &self.first, part, after, after)?;
        gathered.put(Point {
            file: self.file,
            span,
            ways,
        })
    }

    /// `*` or `+`, where `again` has what may come once the part is read.
    fn put_repeated(
        &self,
        alloc: Global,
        part: &Element,
        span: Span,
        again: &[Head],
        after: &[Head],
        gathered: &mut Gathered,
    ) -> Result<(), PointsFault>
        requires ready { IsReady self.now.first }
        requires counted { AreCountedPoints gathered.old }
        requires again { (kinds : Kinds) → AreKinds self.now.first.lexicon.g.now kinds →
            HasExactly (ManyCanBefore self.now.first.lexicon.g.now kinds self.now.first.k self.now.first.heads.now part.now after.now) again.now }
        ensures gathers { GathersWhere self.now.first self.now.file (HasRepeated part.now span) after.now site_alone gathered.old.points.items gathered.new.points.items result }
        ensures counted { OnOk result (AreCountedPoints gathered.new) }
    {
        let ways = two_ways(alloc, &self.first, part, again, after)?;
        gathered.put(Point {
            file: self.file,
            span,
            ways,
        })
    }
}
