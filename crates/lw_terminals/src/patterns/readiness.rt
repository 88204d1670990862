// Whether a terminal's body has a pattern, as far as patterns are known.
ghost use Rattle.std.specs.Prelude.{◌↔◌, IsTrue};
ghost use Rattle.lw_terminals.specs.Readiness.{ElementIsReady, AreReady};
ghost use Rattle.lw_terminals.specs.Writing.{IsFoundAt, KnowsPatterns};

use crate::patterns::ends::has_ends;
use crate::patterns::scribe::Scribe;
use lw_grammar::TermElement;

impl Scribe<'_> {
    /// Whether the element has a pattern, as far as patterns are known.
    #[cycle(readiness)]
    pub(crate) fn is_ready(&self, element: &TermElement) -> bool
        requires { KnowsPatterns self.now }
        ensures { IsTrue result ↔ ElementIsReady self.now.g.now (IsFoundAt self.now.written.now) element.now }
    {
        match element {
            TermElement::Literal(..) => true,
            TermElement::Range(from, to, _) => has_ends(from, to),
            TermElement::Pattern(..) => true,
            TermElement::Call(name, _) => self.calls_known(name),
            TermElement::Group(parts) => self.are_ready(parts.as_slice()),
            TermElement::Choice(parts) => !parts.is_empty() && self.are_ready(parts.as_slice()),
            TermElement::Maybe(part) => self.is_ready(part.get()),
            TermElement::Many(part) => self.is_ready(part.get()),
            TermElement::Some1(part) => self.is_ready(part.get()),
        }
    }

    #[cycle(readiness)]
    fn are_ready(&self, parts: &[TermElement]) -> bool
        requires { KnowsPatterns self.now }
        ensures { IsTrue result ↔ AreReady self.now.g.now (IsFoundAt self.now.written.now) parts.now }
    {
        for part in parts {
            if !self.is_ready(part) {
                return false;
            }
        }
        true
    }
}
