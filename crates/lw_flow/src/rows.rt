// The rows of all rules.
ghost use Rattle.std.specs.Prelude.{◌≡◌, ℕ, IfOk, length, map};
ghost use Rattle.lw_numbers.specs.Tables.{AreNumbersOf};
ghost use Rattle.lw_numbers.specs.Kinship.{AreNodeRules};
ghost use Rattle.lw_flow.specs.Entries.{IsRowOf};
ghost use Rattle.lw_flow.specs.Rows.{InTable};
ghost use Rattle.lw_flow.specs.Whole.{AreRowsOf, items_of};

use crate::Before;
use crate::callee::Source;
use crate::effect::{Effect, Mark};
use crate::entries::entries;
use crate::walking::walk;
use indexmap::IndexSet;
use lw_base::NoMemory;
use lw_grammar::Rule;
use std::alloc::Global;

/// What is recorded of the leaves of each rule, where the table has what fragments may do, and these
/// marks come to the rules.
pub(crate) fn rows(
    alloc: Global,
    source: &Source,
    table: &[IndexSet<Effect>],
    marks: &[IndexSet<Mark>],
) -> Result<Vec<Vec<Before>>, NoMemory>
    requires numbers { AreNumbersOf source.now.grammar.now source.now.numbers.now }
    requires nodes { AreNodeRules source.now.grammar.now source.now.nodes.now }
    requires sized { length table.now ≡ length source.now.grammar.now.rules }
    requires marks_sized { length marks.now ≡ length source.now.grammar.now.rules }
    ensures { IfOk result (λ rows. AreRowsOf source.now.grammar.now (InTable table.now) marks.now (length source.now.grammar.now.rules) (map items_of rows.items)) }
{
    let mut rows = Vec::new(alloc);
    let rules = source.grammar.rules.as_slice();
    for number in 0..rules.len() {
        let start = marks[number].as_slice();
        rows.push(row(alloc, source, table, start, &rules[number])?)?;
    }
    Ok(rows)
}

/// What is recorded of the leaves of the rule, to which these marks come.
fn row(
    alloc: Global,
    source: &Source,
    table: &[IndexSet<Effect>],
    start: &[Mark],
    rule: &Rule,
) -> Result<Vec<Before>, NoMemory>
    requires numbers { AreNumbersOf source.now.grammar.now source.now.numbers.now }
    requires nodes { AreNodeRules source.now.grammar.now source.now.nodes.now }
    requires sized { length table.now ≡ length source.now.grammar.now.rules }
    ensures { IfOk result (λ list. IsRowOf source.now.grammar.now (InTable table.now) rule.now start.now list.items) }
{
    let mut visits = Vec::new(alloc);
    walk(alloc, source, table, start, &rule.body, &mut visits)?;
    entries(alloc, visits.as_slice())
}
