// What names mean.
ghost use Rattle.std.specs.Prelude.{ℕ, List};
ghost use Rattle.lw_numbers.specs.Numbering.{IsNumbered, Means};
ghost use Rattle.lw_numbers.specs.Tables.{AreNumbersOf};

use crate::Numbers;
use lw_base::Name;
use lw_grammar::{Grammar, Rule, Terminal};

/// What a name means that is called: a rule or a terminal, with its place among them, or nothing.
#[derive(Clone, Copy, Drop)]
pub enum Called<'g> {
    Rule(usize, &'g Rule),
    Terminal(usize, &'g Terminal),
    Nothing,
}

impl Numbers {
    /// What the name means, in expected constant time.
    pub fn called<'g>(&self, g: &'g Grammar, name: &Name) -> Called<'g>
        requires { AreNumbersOf g.now self.now }
        ensures { Means g.now name.now result }
    {
        match self.rule(name) {
            Some(id) => numbered(g, id.0 as usize),
            None => Called::Nothing,
        }
    }
}

/// The rule or terminal of this number.
fn numbered(g: &Grammar, number: usize) -> Called<'_>
    ensures { (name : List ℕ) → IsNumbered g.now name number → Means g.now name result }
{
    if number < g.rules.len() {
        return Called::Rule(number, &g.rules.as_slice()[number]);
    }
    let place = number - g.rules.len();
    match g.terminals.as_slice().get(place) {
        Some(terminal) => Called::Terminal(place, terminal),
        None => Called::Nothing,
    }
}
