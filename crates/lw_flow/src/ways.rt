// What may come before each leaf of a grammar's rules.
ghost use Rattle.std.specs.Prelude.{◌≡◌, ◌<◌, ◌≤◌, IfOk, List, Some, length, slice_get};
ghost use Rattle.lw_grammar.specs.Size.{size};
ghost use Rattle.lw_numbers.specs.Tables.{AreNumbersOf};
ghost use Rattle.lw_numbers.specs.Kinship.{AreNodeRules};
ghost use Rattle.lw_flow.specs.Recorded.{AreWaysOf};
ghost use Rattle.lw_flow.specs.declared.before.Before.{Before};

use crate::Before;
use crate::arrivals::arrivals;
use crate::callee::Source;
use crate::fragments::fragment_effects;
use crate::rows::rows;
use lw_base::NoMemory;
use lw_grammar::Grammar;
use lw_numbers::Numbers;
use std::alloc::Global;
use std::marker::Model;

/// What may come before each leaf of a grammar's rules.
#[derive(Drop)]
pub struct Ways {
    rows: Vec<Vec<Before>>,
}

impl Model for Ways {
    ghost use Rattle.std.specs.Prelude.{List, map};
    ghost use Rattle.lw_flow.specs.declared.before.Before.{Before};

    ghost Value = { List (List Before) };

    ghost view = { λ a. map (λ row. row.items) a.rows.items };
}

impl Ways {
    /// Those of a grammar, of whose rules it is known by their numbers which make nodes.
    pub fn of(
        alloc: Global,
        g: &Grammar,
        numbers: &Numbers,
        nodes: &[bool],
    ) -> Result<Ways, NoMemory>
        requires numbers { AreNumbersOf g.now numbers.now }
        requires nodes { AreNodeRules g.now nodes.now }
        requires small { size g.now ≤ 65535 }
        ensures { IfOk result (AreWaysOf g.now) }
    {
        let source = Source {
            grammar: g,
            numbers,
            nodes,
        };
        let table = fragment_effects(alloc, &source)?;
        let marks = arrivals(alloc, &source, table.as_slice())?;
        Ok(Ways {
            rows: rows(alloc, &source, table.as_slice(), marks.as_slice())?,
        })
    }

    /// What may come before the leaf of this number, of the leaves of the body of the rule of this number.
    pub fn before(&self, rule: usize, leaf: usize) -> &Before
        requires rule { rule < length self.now }
        requires leaf { (row : List Before) → slice_get self.now rule ≡ Some row → leaf < length row }
        ensures { (row : List Before) → slice_get self.now rule ≡ Some row → slice_get row leaf ≡ Some result.now }
    {
        &self.rows[rule][leaf]
    }
}
