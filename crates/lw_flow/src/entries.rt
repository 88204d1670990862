// What is recorded of leaves.
ghost use Rattle.std.specs.Prelude.{◌≡◌, ◌↔◌, ◌⊎◌, [], ℕ, Some, IsTrue, IfOk, OnOk, Contains};
ghost use Rattle.std.specs.List.Sorted.{IsStrictlyIncreasing};
ghost use Rattle.lw_flow.specs.declared.effect.Effect.TheVariants.{Nothing};
ghost use Rattle.lw_flow.specs.declared.effect.Mark.TheVariants.{Done};
ghost use Rattle.lw_flow.specs.Entries.{AreEntriesOf, AreNumbersIn, IsEntryOf, SomeWeighs, Weighs, current_of, single_marks, type_of};

use crate::Before;
use crate::effect::{Effect, Mark};
use crate::walking::Visit;
use lw_base::NoMemory;
use std::alloc::Global;
use std::collections::BTreeSet;

impl Mark {
    /// The number of the current type.
    fn current(&self) -> Option<u16>
        ensures { result ≡ current_of self.now }
    {
        match self {
            Mark::Done(Effect::Calls(number)) | Mark::Done(Effect::Acts(number)) => *number,
            Mark::Own(number) => Some(*number),
            _ => None,
        }
    }

    /// The number of the type of the rule.
    fn rule_type(&self) -> Option<u16>
        ensures { result ≡ type_of self.now }
    {
        match self {
            Mark::Of(number) => Some(*number),
            _ => None,
        }
    }

    /// Whether it has an effect of this weight at least.
    fn weighs(&self, least: u8) -> bool
        ensures { IsTrue result ↔ Weighs self.now least }
    {
        match self {
            Mark::Done(effect) => least <= effect.weight(),
            _ => false,
        }
    }

    /// Whether it says that nothing is done.
    fn is_first(&self) -> bool
        ensures { IsTrue result ↔ (self.now ≡ Done Nothing) }
    {
        match self {
            Mark::Done(Effect::Nothing) => true,
            _ => false,
        }
    }
}

/// Whether one of the marks has an effect of this weight at least.
fn some_weighs(marks: &[Mark], least: u8) -> bool
    ensures { IsTrue result ↔ SomeWeighs marks.now least }
{
    marks.iter().any(|mark| mark.weighs(least))
}

/// Whether one of the marks says that nothing is done.
fn is_first(marks: &[Mark]) -> bool
    ensures { IsTrue result ↔ Contains marks.now (Done Nothing) }
{
    marks.iter().any(|mark| mark.is_first())
}

/// Puts a number into the set, where there is one.
fn put_number(numbers: &mut BTreeSet<u16>, number: Option<u16>) -> Result<(), NoMemory>
    ensures { OnOk result ((n : ℕ) → Contains numbers.new.keys n ↔ (Contains numbers.old.keys n ⊎ (number ≡ Some n))) }
{
    if let Some(number) = number {
        numbers.insert(number)?;
    }
    Ok(())
}

/// The numbers of a set, ascending.
fn ascending(alloc: Global, numbers: &BTreeSet<u16>) -> Result<Vec<u16>, NoMemory>
    ensures items { IfOk result (λ list. list.items ≡ numbers.now.keys) }
    ensures ascends { IfOk result (λ list. IsStrictlyIncreasing list.items) }
{
    Ok(numbers.iter().copied().collect(alloc)?)
}

/// The numbers of the current types.
fn current_numbers(alloc: Global, marks: &[Mark]) -> Result<Vec<u16>, NoMemory>
    ensures exact { IfOk result (λ list. AreNumbersIn current_of marks.now list.items) }
    ensures ascends { IfOk result (λ list. IsStrictlyIncreasing list.items) }
{
    let mut numbers = BTreeSet::new(alloc);
    for mark in marks {
        put_number(&mut numbers, mark.current())?;
    }
    ascending(alloc, &numbers)
}

/// The numbers of the types of the rules.
fn type_numbers(alloc: Global, marks: &[Mark]) -> Result<Vec<u16>, NoMemory>
    ensures exact { IfOk result (λ list. AreNumbersIn type_of marks.now list.items) }
    ensures ascends { IfOk result (λ list. IsStrictlyIncreasing list.items) }
{
    let mut numbers = BTreeSet::new(alloc);
    for mark in marks {
        put_number(&mut numbers, mark.rule_type())?;
    }
    ascending(alloc, &numbers)
}

/// What is recorded where these marks come to.
fn entry(alloc: Global, marks: &[Mark]) -> Result<Before, NoMemory>
    ensures { IfOk result (IsEntryOf marks.now) }
{
    Ok(Before {
        first: is_first(marks),
        behind: some_weighs(marks, 1),
        filled: some_weighs(marks, 2),
        current: current_numbers(alloc, marks)?,
        of: type_numbers(alloc, marks)?,
    })
}

/// What is recorded of a visit: nothing where a fragment is called.
fn visit_entry(alloc: Global, visit: &Visit) -> Result<Before, NoMemory>
    ensures { IfOk result (IsEntryOf (single_marks visit.now)) }
{
    match visit.enters {
        Some(..) => entry(alloc, &[]),
        None => entry(alloc, visit.marks.as_slice()),
    }
}

/// What is recorded of visits, one after the other.
pub(crate) fn entries(alloc: Global, visits: &[Visit]) -> Result<Vec<Before>, NoMemory>
    ensures { IfOk result (λ list. AreEntriesOf visits.now list.items) }
{
    let mut list = Vec::new(alloc);
    for visit in visits {
        list.push(visit_entry(alloc, visit)?)?;
    }
    Ok(list)
}
