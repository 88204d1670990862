// How many choices, values and actions have been counted.
ghost use Rattle.std.specs.Prelude.{ℕ, List, ◌≡◌, ◌+◌, IfOk, OnOk, ◌∷◌, []};
ghost use Rattle.lw_grammar.specs.declared.rule.Op.{Op};
ghost use Rattle.lw_look.specs.Sites.{PartSite};
ghost use Rattle.lw_program.specs.Counting.{AreSitesCounted, joined_sites, choice_site, element_sites, value_sites, after_point, after_put, after_act};
ghost use Rattle.lw_program.specs.Filled.{element_want, value_want, wants_from, all_sites};

use lw_base::{NoMemory, PointId};
use lw_grammar::{Element, Value0};

/// How many choices, values that are assigned and actions have been gone past. Each takes the next number.
#[derive(Clone, Copy, Debug, PartialEq, Eq)]
pub(crate) struct Counts {
    pub(crate) points: u32,
    pub(crate) puts: u32,
    pub(crate) acts: u32,
}

impl Counts {
    pub(crate) fn next_point(&mut self) -> Result<PointId, NoMemory>
        ensures { IfOk result (λ point. (point.0 ≡ self.old.points) × (self.new ≡ after_point self.old)) }
    {
        let number = next(&mut self.points)?;
        match u16::try_from(number) {
            Ok(point) => Ok(PointId(point)),
            Err(_) => Err(NoMemory),
        }
    }

    pub(crate) fn next_put(&mut self) -> Result<u32, NoMemory>
        ensures { IfOk result (λ put. (put ≡ self.old.puts) × (self.new ≡ after_put self.old)) }
    {
        next(&mut self.puts)
    }

    pub(crate) fn next_act(&mut self) -> Result<u32, NoMemory>
        ensures { IfOk result (λ act. (act ≡ self.old.acts) × (self.new ≡ after_act self.old)) }
    {
        next(&mut self.acts)
    }

    /// Goes past an element.
    #[cycle(elements)]
    pub(crate) fn pass(&mut self, element: &Element) -> Result<(), NoMemory>
        ensures { (s : PartSite) → OnOk result (AreSitesCounted (element_sites s element.now) self.old self.new) }
    {
        match element {
            Element::Keyword(..) => Ok(()),
            Element::Call(..) => Ok(()),
            Element::Assign(_, _, value, _) => self.pass_value(value),
            Element::Act(_) => {
                self.next_act()?;
                Ok(())
            }
            Element::Group(parts, _) => self.pass_all(parts.as_slice()),
            Element::Choice(parts, _) => {
                self.next_point()?;
                self.pass_all(parts.as_slice())
            }
            Element::Maybe(part, _) => self.pass_inner(part.get()),
            Element::Many(part, _) => self.pass_inner(part.get()),
            Element::Some1(part, _) => self.pass_inner(part.get()),
        }
    }

    /// Goes past `?`, `*` or `+` and what it holds.
    #[cycle(elements)]
    fn pass_inner(&mut self, part: &Element) -> Result<(), NoMemory>
        ensures { (s : PartSite) → OnOk result (AreSitesCounted (joined_sites (choice_site s) (all_sites (wants_from element_want s 0 (part.now ∷ [])))) self.old self.new) }
    {
        self.next_point()?;
        self.pass(part)
    }

    #[cycle(elements)]
    fn pass_all(&mut self, elements: &[Element]) -> Result<(), NoMemory>
        ensures { (s : PartSite) → OnOk result (AreSitesCounted (all_sites (wants_from element_want s 0 elements.now)) self.old self.new) }
    {
        for element in elements {
            self.pass(element)?;
        }
        Ok(())
    }

    #[cycle(values)]
    fn pass_value(&mut self, value: &Value0) -> Result<(), NoMemory>
        ensures { (s : PartSite) → OnOk result (AreSitesCounted (value_sites s value.now) self.old self.new) }
    {
        match value {
            Value0::Keyword(..) => self.pass_single(),
            Value0::Call(..) => self.pass_single(),
            Value0::Cross(..) => self.pass_single(),
            Value0::Choice(values, _) => {
                self.next_point()?;
                self.pass_values(values.as_slice())
            }
        }
    }

    /// Goes past a value that is no choice.
    fn pass_single(&mut self) -> Result<(), NoMemory>
        ensures { OnOk result (self.new ≡ after_put self.old) }
    {
        self.next_put()?;
        Ok(())
    }

    #[cycle(values)]
    fn pass_values(&mut self, values: &[Value0]) -> Result<(), NoMemory>
        ensures { (p : List ℕ) (op : Op) (s : PartSite) → OnOk result (AreSitesCounted (all_sites (wants_from (value_want p op) s 0 values.now)) self.old self.new) }
    {
        for value in values {
            self.pass_value(value)?;
        }
        Ok(())
    }
}

/// The count before it is raised by one. One that has no next number is want of memory.
fn next(count: &mut u32) -> Result<u32, NoMemory>
    ensures { IfOk result (λ number. (number ≡ count.old) × (count.new ≡ count.old + 1)) }
{
    let number = *count;
    match number.checked_add(1) {
        Some(more) => *count = more,
        None => return Err(NoMemory),
    }
    Ok(number)
}
