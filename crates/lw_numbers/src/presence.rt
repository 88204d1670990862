// Whether names are declared, and whether before a place.
ghost use Rattle.std.specs.Prelude.{◌↔◌, IsTrue, MatchBool};
ghost use Rattle.lw_grammar.specs.declared.grammar.Grammar.{Grammar};
ghost use Rattle.lw_grammar.specs.Written.{rule_space, type_space};
ghost use Rattle.lw_grammar.specs.Written.{HasDeclaration, IsNoRule};
ghost use Rattle.lw_numbers.specs.Presence.{HasRule, IsDeclaredBefore};
ghost use Rattle.lw_numbers.specs.Tables.{AreNumbersOf};

use crate::Numbers;
use crate::standing::{Place, begins_before};
use lw_base::Name;

impl Numbers {
    /// Whether a rule or a terminal has this name, in expected constant time.
    pub fn is_called(&self, name: &Name) -> bool
        ensures { (g : Grammar) → AreNumbersOf g self.now → MatchBool result (HasRule g name.now) (IsNoRule g name.now) }
    {
        self.rules.by_name.contains_key(name) || self.terminals.by_name.contains_key(name)
    }

    /// Whether an interface or a union has this name, in expected constant time.
    pub fn is_declared(&self, name: &Name) -> bool
        ensures { (g : Grammar) → AreNumbersOf g self.now → (IsTrue result ↔ HasDeclaration g name.now) }
    {
        self.interfaces.by_name.contains_key(name) || self.unions.by_name.contains_key(name)
    }

    /// Whether a rule or a terminal of this name stands before the place, in expected constant time:
    /// in a file that was loaded earlier, or further to the front of this one.
    pub fn called_before(&self, name: &Name, file: u16, start: u32) -> bool
        ensures { (g : Grammar) → AreNumbersOf g self.now → (IsTrue result ↔ IsDeclaredBefore (rule_space g) name.now file start) }
    {
        let place = Place { file, start };
        begins_before(self.rules.by_name.get(name), place)
            || begins_before(self.terminals.by_name.get(name), place)
    }

    /// Whether an interface or a union of this name stands before the place, in expected constant
    /// time.
    pub fn declared_before(&self, name: &Name, file: u16, start: u32) -> bool
        ensures { (g : Grammar) → AreNumbersOf g self.now → (IsTrue result ↔ IsDeclaredBefore (type_space g) name.now file start) }
    {
        let place = Place { file, start };
        begins_before(self.interfaces.by_name.get(name), place)
            || begins_before(self.unions.by_name.get(name), place)
    }
}
