// The patterns of all terminals, by rounds over them.
ghost use Rattle.std.specs.Prelude.{ℕ, ◌≡◌, ◌<◌, ◌≤◌, All, IfOk, OnOk, length};
ghost use Rattle.lw_numbers.specs.Tables.{AreNumbersOf};
ghost use Rattle.lw_terminals.specs.Rounds.{missing, IsNextWritten, PatternsGrewAt, PatternsGrewBelow, PatternsGrewOrSettled};
ghost use Rattle.lw_terminals.specs.Writing.{IsFoundAt, ArePatternsKnown};
ghost use Rattle.lw_terminals.specs.WrittenPatterns.{ArePatternsOf};

use crate::patterns::scribe::Scribe;
use crate::patterns::written::Written;
use lw_base::NoMemory;
use lw_grammar::Grammar;
use lw_numbers::Numbers;
use std::alloc::Global;

/// The patterns of a grammar's terminals, by their places.
pub fn patterns(alloc: Global, g: &Grammar, numbers: &Numbers) -> Result<Vec<Written>, NoMemory>
    requires numbered { AreNumbersOf g.now numbers.now }
    ensures { IfOk result (λ written. ArePatternsOf g.now written.items) }
{
    let mut written = none(alloc, g.terminals.len())?;
    let scribe = Scribe {
        g,
        numbers,
        written: written.as_slice(),
    };
    let order = scribe.called_first(alloc)?;
    'rounds: while round(alloc, g, numbers, order.as_slice(), &mut written)? {}
    Ok(written)
}

/// So many terminals whose patterns are not known.
fn none(alloc: Global, terminals: usize) -> Result<Vec<Written>, NoMemory>
    ensures count { IfOk result (λ written. length written.items ≡ terminals) }
    ensures none { IfOk result (λ written. (t : ℕ) → ¬ IsFoundAt written.items t) }
{
    let mut written = Vec::with_capacity(alloc, terminals)?;
    for _ in 0..terminals {
        written.push(Written::Unwritten)?;
    }
    Ok(written)
}

/// Visits the terminals in this order, and then each once more. It is false where that added no pattern.
fn round(
    alloc: Global,
    g: &Grammar,
    numbers: &Numbers,
    order: &[usize],
    written: &mut Vec<Written>,
) -> Result<bool, NoMemory>
    requires known { ArePatternsKnown g.now numbers.now written.old.items }
    requires order { All (λ t. t < length g.now.terminals) order.now }
    ensures known { OnOk result (ArePatternsKnown g.now numbers.now written.new.items) }
    ensures settles { IfOk result (PatternsGrewOrSettled g.now written.old.items written.new.items) }
{
    visit_some(alloc, g, numbers, order, written)?;
    visit_all(alloc, g, numbers, written)
}

fn visit_some(
    alloc: Global,
    g: &Grammar,
    numbers: &Numbers,
    places: &[usize],
    written: &mut Vec<Written>,
) -> Result<(), NoMemory>
    requires known { ArePatternsKnown g.now numbers.now written.old.items }
    requires places { All (λ t. t < length g.now.terminals) places.now }
    ensures known { OnOk result (ArePatternsKnown g.now numbers.now written.new.items) }
    ensures fewer { OnOk result (missing written.new.items ≤ missing written.old.items) }
{
    for place in places {
        visit(alloc, g, numbers, *place, written)?;
    }
    Ok(())
}

/// Visits each terminal. Whether a pattern was added.
fn visit_all(
    alloc: Global,
    g: &Grammar,
    numbers: &Numbers,
    written: &mut Vec<Written>,
) -> Result<bool, NoMemory>
    requires { ArePatternsKnown g.now numbers.now written.old.items }
    ensures known { OnOk result (ArePatternsKnown g.now numbers.now written.new.items) }
    ensures grew { IfOk result (PatternsGrewBelow g.now (length g.now.terminals) written.old.items written.new.items) }
{
    let mut grew = false;
    for place in 0..g.terminals.len() {
        if visit(alloc, g, numbers, place, written)? {
            grew = true;
        }
    }
    Ok(grew)
}

/// Adds the pattern of the terminal at this place, if it is not known and the body has one. Whether that
/// is so.
fn visit(
    alloc: Global,
    g: &Grammar,
    numbers: &Numbers,
    place: usize,
    written: &mut Vec<Written>,
) -> Result<bool, NoMemory>
    requires known { ArePatternsKnown g.now numbers.now written.old.items }
    requires place { place < length g.now.terminals }
    ensures known { OnOk result (ArePatternsKnown g.now numbers.now written.new.items) }
    ensures grew { IfOk result (PatternsGrewAt g.now place written.old.items written.new.items) }
{
    if written[place].is_found() {
        return Ok(false);
    }
    match pattern(alloc, g, numbers, place, written.as_slice())? {
        Some(found) => {
            written[place] = found;
            Ok(true)
        }
        None => Ok(false),
    }
}

/// The pattern of the terminal at this place, if the body has one as far as patterns are known.
fn pattern(
    alloc: Global,
    g: &Grammar,
    numbers: &Numbers,
    place: usize,
    written: &[Written],
) -> Result<Option<Written>, NoMemory>
    requires known { ArePatternsKnown g.now numbers.now written.now }
    requires place { place < length g.now.terminals }
    ensures { IfOk result (IsNextWritten g.now place written.now) }
{
    let terminal = &g.terminals.as_slice()[place];
    let scribe = Scribe {
        g,
        numbers,
        written,
    };
    if !scribe.is_ready(&terminal.body) {
        return Ok(None);
    }
    Ok(Some(scribe.write(alloc, terminal)?))
}
