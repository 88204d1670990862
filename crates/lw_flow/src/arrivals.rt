// What comes before the body of each rule.
ghost use Rattle.std.specs.Prelude.{◌≡◌, ◌↔◌, ◌<◌, ◌∷◌, [], ℕ, false, Some, IfOk, OnOk, Contains, length};
ghost use Rattle.lw_numbers.specs.Tables.{AreNumbersOf};
ghost use Rattle.lw_numbers.specs.Kinship.{AreNodeRules};
ghost use Rattle.lw_flow.specs.declared.effect.Effect.TheVariants.{Nothing};
ghost use Rattle.lw_flow.specs.declared.effect.Mark.{Mark};
ghost use Rattle.lw_flow.specs.declared.walking.Visit.{Visit};
ghost use Rattle.lw_flow.specs.Arrivals.{Spread, StartsRule, BelongsTo, AllOfWays, Spreads, SpreadsBelow, AreArrivals};
ghost use Rattle.lw_flow.specs.Fixed.{IsSound};
ghost use Rattle.lw_flow.specs.Rows.{InTable, TakesRoom, room};

use crate::callee::Source;
use crate::effect::{Effect, Mark};
use crate::sets::put_mark;
use crate::tables::widen_row;
use crate::walking::{Visit, walk};
use indexmap::IndexSet;
use lw_base::NoMemory;
use lw_grammar::Rule;
use std::alloc::Global;

/// What comes before the body of each rule, where the table has what fragments may do.
pub(crate) fn arrivals(
    alloc: Global,
    source: &Source,
    table: &[IndexSet<Effect>],
) -> Result<Vec<IndexSet<Mark>>, NoMemory>
    requires numbers { AreNumbersOf source.now.grammar.now source.now.numbers.now }
    requires nodes { AreNodeRules source.now.grammar.now source.now.nodes.now }
    requires sized { length table.now ≡ length source.now.grammar.now.rules }
    requires sound { IsSound source.now.grammar.now (InTable table.now) }
    ensures sized { IfOk result (λ marks. length marks.items ≡ length source.now.grammar.now.rules) }
    ensures exact { IfOk result (λ marks. AreArrivals source.now.grammar.now (InTable table.now) (InTable marks.items)) }
{
    let mut marks = starts(alloc, source)?;
    'rounds: loop {
        if !spread_all(alloc, source, table, &mut marks)? {
            return Ok(marks);
        }
    }
}

/// The marks at the begin of each rule, none at that of a fragment.
fn starts(alloc: Global, source: &Source) -> Result<Vec<IndexSet<Mark>>, NoMemory>
    requires { AreNumbersOf source.now.grammar.now source.now.numbers.now }
    ensures sized { IfOk result (λ marks. length marks.items ≡ length source.now.grammar.now.rules) }
    ensures exact { IfOk result (λ marks. (w : ℕ) (m : Mark) → InTable marks.items w m ↔ StartsRule source.now.grammar.now w m) }
{
    let mut marks = Vec::new(alloc);
    for rule in source.grammar.rules.as_slice() {
        marks.push(start(alloc, source, rule)?)?;
    }
    Ok(marks)
}

/// The marks at the begin of the rule, none where it is a fragment.
fn start(alloc: Global, source: &Source, rule: &Rule) -> Result<IndexSet<Mark>, NoMemory>
    requires { AreNumbersOf source.now.grammar.now source.now.numbers.now }
    ensures { IfOk result (λ set. (m : Mark) → Contains set.keys m ↔ ((rule.now.is_fragment ≡ false) × BelongsTo source.now.grammar.now rule.now Nothing m)) }
{
    let mut set = IndexSet::new(alloc);
    if rule.is_fragment {
        return Ok(set);
    }
    put_mark(&mut set, Mark::Done(Effect::Nothing))?;
    let number = match source.own_number(rule) {
        Some(number) => number,
        None => return Ok(set),
    };
    put_mark(&mut set, Mark::Own(number))?;
    put_mark(&mut set, Mark::Of(number))?;
    Ok(set)
}

/// Passes on what comes to each rule, and says whether something is new.
fn spread_all(
    alloc: Global,
    source: &Source,
    table: &[IndexSet<Effect>],
    marks: &mut Vec<IndexSet<Mark>>,
) -> Result<bool, NoMemory>
    requires numbers { AreNumbersOf source.now.grammar.now source.now.numbers.now }
    requires nodes { AreNodeRules source.now.grammar.now source.now.nodes.now }
    requires sized { length table.now ≡ length source.now.grammar.now.rules }
    requires marks_sized { length marks.old.items ≡ length source.now.grammar.now.rules }
    ensures length { OnOk result (length marks.new.items ≡ length marks.old.items) }
    ensures spreads { IfOk result (λ grown. SpreadsBelow source.now.grammar.now (InTable table.now) (length source.now.grammar.now.rules) grown (InTable marks.old.items) (InTable marks.new.items)) }
    ensures room { IfOk result (λ grown. TakesRoom grown (room marks.old.items) (room marks.new.items)) }
{
    let mut grown = false;
    for number in 0..source.grammar.rules.len() {
        if spread(alloc, source, table, marks, number)? {
            grown = true;
        }
    }
    Ok(grown)
}

/// Passes on what comes to the rule of this number, and says whether something is new.
fn spread(
    alloc: Global,
    source: &Source,
    table: &[IndexSet<Effect>],
    marks: &mut Vec<IndexSet<Mark>>,
    number: usize,
) -> Result<bool, NoMemory>
    requires numbers { AreNumbersOf source.now.grammar.now source.now.numbers.now }
    requires nodes { AreNodeRules source.now.grammar.now source.now.nodes.now }
    requires sized { length table.now ≡ length source.now.grammar.now.rules }
    requires marks_sized { length marks.old.items ≡ length source.now.grammar.now.rules }
    requires within { number < length source.now.grammar.now.rules }
    ensures length { OnOk result (length marks.new.items ≡ length marks.old.items) }
    ensures spreads { IfOk result (λ grown. Spreads source.now.grammar.now (InTable table.now) number grown (InTable marks.old.items) (InTable marks.new.items)) }
    ensures room { IfOk result (λ grown. TakesRoom grown (room marks.old.items) (room marks.new.items)) }
{
    let rule = &source.grammar.rules.as_slice()[number];
    let mut visits = Vec::new(alloc);
    walk(
        alloc,
        source,
        table,
        marks[number].as_slice(),
        &rule.body,
        &mut visits,
    )?;
    spread_visits(marks, visits.as_slice())
}

/// Puts the visits' marks into the sets of the fragments that they enter, and says whether one is new.
fn spread_visits(marks: &mut Vec<IndexSet<Mark>>, visits: &[Visit]) -> Result<bool, NoMemory>
    requires { (v : Visit) (f : ℕ) → Contains visits.now v → v.enters ≡ Some f → f < length marks.old.items }
    ensures length { OnOk result (length marks.new.items ≡ length marks.old.items) }
    ensures spreads { IfOk result (λ grown. Spread visits.now grown (InTable marks.old.items) (InTable marks.new.items)) }
    ensures room { IfOk result (λ grown. TakesRoom grown (room marks.old.items) (room marks.new.items)) }
{
    let mut grown = false;
    for visit in visits {
        if spread_visit(marks, visit)? {
            grown = true;
        }
    }
    Ok(grown)
}

/// Puts the visit's marks into the set of the fragment that it enters, and says whether one is new.
fn spread_visit(marks: &mut Vec<IndexSet<Mark>>, visit: &Visit) -> Result<bool, NoMemory>
    requires { (f : ℕ) → visit.now.enters ≡ Some f → f < length marks.old.items }
    ensures length { OnOk result (length marks.new.items ≡ length marks.old.items) }
    ensures spreads { IfOk result (λ grown. Spread (visit.now ∷ []) grown (InTable marks.old.items) (InTable marks.new.items)) }
    ensures room { IfOk result (λ grown. TakesRoom grown (room marks.old.items) (room marks.new.items)) }
{
    match visit.enters {
        Some(number) => widen_row(marks, number, visit.marks.as_slice()),
        None => Ok(false),
    }
}
