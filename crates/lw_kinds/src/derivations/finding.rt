// The faults of what rules read.
ghost use Rattle.std.specs.Prelude.{ℕ, ◌≡◌, ◌≢◌, ◌⊎◌, ◌↔◌, Some, false, OnOk, IfOk, IsTrue, Contains};
ghost use Rattle.lw_grammar.specs.declared.rule.Element.{Element};
ghost use Rattle.lw_numbers.specs.Tables.{AreNumbersOf};
ghost use Rattle.lw_numbers.specs.NameTable.{AreNameRulesOf};
ghost use Rattle.lw_graph.specs.Walks.{HasNode};
ghost use Rattle.lw_faults.specs.Reads.{ComesFirstTo, MayRead};
ghost use Rattle.lw_faults.specs.Kinds.{number_of};
ghost use Rattle.lw_faults.specs.Faults.{fault};
ghost use Rattle.lw_faults.specs.Derivations.{LeftRecursion, ReadsNothing, RepeatsNothing, NeverEnds};
ghost use Rattle.lw_faults.specs.Finding.{Finds, IsFaultOf};
ghost use Rattle.lw_kinds.specs.Known.{AreKnown};
ghost use Rattle.lw_kinds.specs.Reading.{IsReadingOf};
ghost use Rattle.lw_kinds.specs.Telling.{SpeaksOf, TellsRepeats};
ghost use Rattle.lw_kinds.specs.Rounds.{AreExact};

use crate::derivations::names::Names;
use crate::derivations::reaching::entry;
use crate::derivations::reading::Reading;
use lw_base::{NoMemory, Span};
use lw_faults::FaultKind;
use lw_faults::findings::Findings;
use lw_grammar::{Element, Grammar, Rule};
use lw_graph::NodeSet;
use lw_numbers::Numbers;
use lw_numbers::name_rules::NameRules;
use std::alloc::Global;

/// Puts in the faults of what rules read: left recursion, what reads nothing, what repeats nothing
/// and what never ends.
pub fn find_derivation_faults(
    alloc: Global,
    g: &Grammar,
    numbers: &Numbers,
    name_rules: &NameRules,
    reading: &Reading,
    found: &mut Findings,
) -> Result<(), NoMemory>
    requires numbered { AreNumbersOf g.now numbers.now }
    requires related { AreNameRulesOf g.now name_rules.now }
    requires read { IsReadingOf g.now reading.now }
    ensures { OnOk result (Finds (λ f. IsFaultOf 7 (LeftRecursion g.now) f ⊎ IsFaultOf 8 (ReadsNothing g.now) f ⊎ IsFaultOf 9 (RepeatsNothing g.now) f
        ⊎ IsFaultOf 10 (NeverEnds g.now) f) found.old found.new) }
{
    let names = Names {
        g,
        numbers,
        name_rules,
    };
    find_left_recursion(alloc, &names, reading, found)?;
    find_reading_nothing(alloc, g, reading, found)?;
    find_repeating_nothing(alloc, &names, reading, found)?;
    find_never_ending(alloc, g, reading, found)
}

fn find_left_recursion(
    alloc: Global,
    names: &Names<'_>,
    reading: &Reading,
    found: &mut Findings,
) -> Result<(), NoMemory>
    requires known { AreKnown names.now }
    requires read { IsReadingOf names.now.g.now reading.now }
    ensures { OnOk result (Finds (IsFaultOf 7 (LeftRecursion names.now.g.now)) found.old found.new) }
{
    let round = left_recursive(alloc, names, reading)?;
    tell_left_recursion(alloc, names.g, reading, &round, found)
}

/// The rules that can come to themselves before they read any token.
fn left_recursive(alloc: Global, names: &Names<'_>, reading: &Reading) -> Result<NodeSet, NoMemory>
    requires known { AreKnown names.now }
    requires read { IsReadingOf names.now.g.now reading.now }
    ensures { IfOk result (λ round. (r : ℕ) → HasNode round r ↔ ComesFirstTo names.now.g.now r r) }
{
    names.leads(alloc, reading.nothing())?.circles(alloc)
}

fn tell_left_recursion(
    alloc: Global,
    g: &Grammar,
    reading: &Reading,
    round: &NodeSet,
    found: &mut Findings,
) -> Result<(), NoMemory>
    requires read { IsReadingOf g.now reading.now }
    requires round { (r : ℕ) → HasNode round.now r ↔ ComesFirstTo g.now r r }
    ensures { OnOk result (Finds (IsFaultOf 7 (LeftRecursion g.now)) found.old found.new) }
{
    for (number, rule) in g.rules.as_slice().iter().enumerate() {
        let is_so = comes_round(reading, round, number);
        tell_if(alloc, is_so, FaultKind::LeftRecursion, rule, found)?;
    }
    Ok(())
}

fn comes_round(reading: &Reading, round: &NodeSet, number: usize) -> bool
    ensures { IsTrue result ↔ (HasNode reading.now.reached number × HasNode round.now number) }
{
    reading.is_reached(number) && round.holds(number)
}

fn find_reading_nothing(
    alloc: Global,
    g: &Grammar,
    reading: &Reading,
    found: &mut Findings,
) -> Result<(), NoMemory>
    requires { IsReadingOf g.now reading.now }
    ensures { OnOk result (Finds (IsFaultOf 8 (ReadsNothing g.now)) found.old found.new) }
{
    let first = entry(g);
    for (number, rule) in g.rules.as_slice().iter().enumerate() {
        let is_so = reads_nothing(reading, first, number, rule);
        tell_if(alloc, is_so, FaultKind::ReadsNothing, rule, found)?;
    }
    Ok(())
}

fn reads_nothing(reading: &Reading, entry: Option<usize>, number: usize, rule: &Rule) -> bool
    ensures { IsTrue result ↔ (HasNode reading.now.reached number × (rule.now.is_fragment ≡ false) × (entry ≢ Some number) × HasNode reading.now.nothing number) }
{
    reading.is_reached(number)
        && !rule.is_fragment
        && entry != Some(number)
        && reading.may_read_nothing(number)
}

fn find_never_ending(
    alloc: Global,
    g: &Grammar,
    reading: &Reading,
    found: &mut Findings,
) -> Result<(), NoMemory>
    requires { IsReadingOf g.now reading.now }
    ensures { OnOk result (Finds (IsFaultOf 10 (NeverEnds g.now)) found.old found.new) }
{
    for (number, rule) in g.rules.as_slice().iter().enumerate() {
        let is_so = never_ends(reading, number);
        tell_if(alloc, is_so, FaultKind::NeverEnds, rule, found)?;
    }
    Ok(())
}

fn never_ends(reading: &Reading, number: usize) -> bool
    ensures { IsTrue result ↔ (HasNode reading.now.reached number × ¬ HasNode reading.now.ends number) }
{
    reading.is_reached(number) && !reading.can_end(number)
}

/// Tells a fault of the rule if it is so.
fn tell_if(
    alloc: Global,
    is_so: bool,
    kind: FaultKind,
    rule: &Rule,
    found: &mut Findings,
) -> Result<(), NoMemory>
    ensures { OnOk result (Finds (λ f. IsTrue is_so × SpeaksOf (number_of kind) rule.now f) found.old found.new) }
{
    if is_so {
        found.add(alloc, kind, rule.file, rule.span, &rule.name)?;
    }
    Ok(())
}

fn find_repeating_nothing(
    alloc: Global,
    names: &Names<'_>,
    reading: &Reading,
    found: &mut Findings,
) -> Result<(), NoMemory>
    requires known { AreKnown names.now }
    requires read { IsReadingOf names.now.g.now reading.now }
    ensures { OnOk result (Finds (IsFaultOf 9 (RepeatsNothing names.now.g.now)) found.old found.new) }
{
    for (number, rule) in names.g.rules.as_slice().iter().enumerate() {
        names.find_in_rule(alloc, reading, number, rule, found)?;
    }
    Ok(())
}

impl Names<'_> {
    fn find_in_rule(
        &self,
        alloc: Global,
        reading: &Reading,
        number: usize,
        rule: &Rule,
        found: &mut Findings,
    ) -> Result<(), NoMemory>
        requires known { AreKnown self.now }
        requires read { IsReadingOf self.now.g.now reading.now }
        ensures { OnOk result (Finds (λ f. HasNode reading.now.reached number × TellsRepeats self.now.g.now rule.now rule.now.body f) found.old found.new) }
    {
        if !reading.is_reached(number) {
            return Ok(());
        }
        self.find_repeats(alloc, reading.nothing(), rule, &rule.body, found)
    }

    #[cycle(repeats)]
    fn find_repeats(
        &self,
        alloc: Global,
        nothing: &[bool],
        rule: &Rule,
        element: &Element,
        found: &mut Findings,
    ) -> Result<(), NoMemory>
        requires known { AreKnown self.now }
        requires nothing { AreExact self.now.g.now false nothing.now }
        ensures { OnOk result (Finds (TellsRepeats self.now.g.now rule.now element.now) found.old found.new) }
    {
        match element {
            Element::Keyword(..) => Ok(()),
            Element::Call(..) => Ok(()),
            Element::Assign(..) => Ok(()),
            Element::Act(_) => Ok(()),
            Element::Group(parts, _) => {
                self.find_each_repeats(alloc, nothing, rule, parts.as_slice(), found)
            }
            Element::Choice(parts, _) => {
                self.find_each_repeats(alloc, nothing, rule, parts.as_slice(), found)
            }
            Element::Maybe(part, _) => self.find_repeats(alloc, nothing, rule, part.get(), found),
            Element::Many(part, span) => {
                self.tell_repeated(alloc, nothing, rule, part.get(), *span, found)?;
                self.find_repeats(alloc, nothing, rule, part.get(), found)
            }
            Element::Some1(part, span) => {
                self.tell_repeated(alloc, nothing, rule, part.get(), *span, found)?;
                self.find_repeats(alloc, nothing, rule, part.get(), found)
            }
        }
    }

    #[cycle(repeats)]
    fn find_each_repeats(
        &self,
        alloc: Global,
        nothing: &[bool],
        rule: &Rule,
        elements: &[Element],
        found: &mut Findings,
    ) -> Result<(), NoMemory>
        requires known { AreKnown self.now }
        requires nothing { AreExact self.now.g.now false nothing.now }
        ensures { OnOk result (Finds (λ f. (e : Element) × Contains elements.now e × TellsRepeats self.now.g.now rule.now e f) found.old found.new) }
    {
        for element in elements {
            self.find_repeats(alloc, nothing, rule, element, found)?;
        }
        Ok(())
    }

    /// Tells that this part is repeated at this place, if it may read nothing.
    fn tell_repeated(
        &self,
        alloc: Global,
        nothing: &[bool],
        rule: &Rule,
        part: &Element,
        span: Span,
        found: &mut Findings,
    ) -> Result<(), NoMemory>
        requires known { AreKnown self.now }
        requires nothing { AreExact self.now.g.now false nothing.now }
        ensures { OnOk result (Finds (λ f. MayRead self.now.g.now part.now 0 × (f ≡ fault 9 rule.now.file span rule.now.name)) found.old found.new) }
    {
        if self.passes(false, nothing, part) {
            found.add(
                alloc,
                FaultKind::RepeatsNothing,
                rule.file,
                span,
                &rule.name,
            )?;
        }
        Ok(())
    }
}
