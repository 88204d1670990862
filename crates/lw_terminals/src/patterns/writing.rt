// The pattern of a terminal's body that has one, piece by piece.
ghost use Rattle.std.specs.Prelude.{◌≡◌, ◌<◌, IfOk, OnOk, length};
ghost use Rattle.std.specs.Option.{option_copied};
ghost use Rattle.lw_base.specs.declared.token.Span.{Span};
ghost use Rattle.lw_grammar.specs.declared.grammar.Grammar.{Grammar};
ghost use Rattle.lw_grammar.specs.declared.terminal.TermElement.{out-TermElement};
ghost use Rattle.lw_grammar.specs.declared.terminal.TermElement.TheOpen as layer;
ghost use Rattle.lw_tokens.specs.Patterns.{as_pattern, as_choice, escaped, grouped, unescaped, ElementPattern, LayerPattern, RowPattern, ChoicePattern, AlternativePattern, TerminalPattern};
ghost use Rattle.lw_terminals.specs.Drafts.{PutsText, Writes, IsGrouped};
ghost use Rattle.lw_terminals.specs.Readiness.{HasEnds, CallsKnown, ElementIsReady, AreReady};
ghost use Rattle.lw_terminals.specs.Writing.{IsFoundAt, SaysPatternOf, KnowsPatterns};

use crate::patterns::draft::Draft;
use crate::patterns::ends::{class, only_char};
use crate::patterns::scribe::Scribe;
use crate::patterns::unescaping::unescaped;
use crate::patterns::written::Written;
use lw_base::{Name, NoMemory};
use lw_grammar::{TermElement, Terminal};
use regex::escape;
use std::alloc::Global;

impl Scribe<'_> {
    /// The pattern of a terminal whose body has one.
    pub(crate) fn write(&self, alloc: Global, terminal: &Terminal) -> Result<Written, NoMemory>
        requires knows { KnowsPatterns self.now }
        requires ready { ElementIsReady self.now.g.now (IsFoundAt self.now.written.now) terminal.now.body }
        ensures { IfOk result (SaysPatternOf self.now.g.now terminal.now) }
    {
        let mut draft = Draft::new(alloc);
        self.put_terminal(alloc, terminal, &mut draft)?;
        Ok(draft.finish())
    }

    fn put_terminal(
        &self,
        alloc: Global,
        terminal: &Terminal,
        draft: &mut Draft,
    ) -> Result<(), NoMemory>
        requires knows { KnowsPatterns self.now }
        requires ready { ElementIsReady self.now.g.now (IsFoundAt self.now.written.now) terminal.now.body }
        ensures { OnOk result (Writes (TerminalPattern self.now.g.now terminal.now) draft.old draft.new) }
    {
        if let Some(text) = regex(&terminal.body) {
            return put_unescaped(alloc, text, draft);
        }
        match choice(&terminal.body) {
            Some(parts) => self.put_choice(alloc, parts, draft),
            None => self.put_alternative(alloc, &terminal.body, draft),
        }
    }

    /// Puts in an alternative. A row stands without a group of its own.
    #[cycle(writing)]
    fn put_alternative(
        &self,
        alloc: Global,
        element: &TermElement,
        draft: &mut Draft,
    ) -> Result<(), NoMemory>
        requires knows { KnowsPatterns self.now }
        requires ready { ElementIsReady self.now.g.now (IsFoundAt self.now.written.now) element.now }
        ensures { OnOk result (Writes (AlternativePattern self.now.g.now element.now) draft.old draft.new) }
    {
        match element {
            TermElement::Group(parts) => self.put_row(alloc, parts.as_slice(), draft),
            _ => self.put_element(alloc, element, draft),
        }
    }

    /// Puts in alternatives, with a bar between each two.
    #[cycle(writing)]
    fn put_choice(
        &self,
        alloc: Global,
        parts: &[TermElement],
        draft: &mut Draft,
    ) -> Result<(), NoMemory>
        requires knows { KnowsPatterns self.now }
        requires some { 0 < length parts.now }
        requires ready { AreReady self.now.g.now (IsFoundAt self.now.written.now) parts.now }
        ensures { OnOk result (Writes (ChoicePattern self.now.g.now parts.now) draft.old draft.new) }
    {
        for (i, part) in parts.iter().enumerate() {
            if i > 0 {
                draft.put("|")?;
            }
            self.put_alternative(alloc, part, draft)?;
        }
        Ok(())
    }

    /// Puts in one part behind the other.
    #[cycle(writing)]
    fn put_row(
        &self,
        alloc: Global,
        parts: &[TermElement],
        draft: &mut Draft,
    ) -> Result<(), NoMemory>
        requires knows { KnowsPatterns self.now }
        requires ready { AreReady self.now.g.now (IsFoundAt self.now.written.now) parts.now }
        ensures { OnOk result (Writes (RowPattern self.now.g.now parts.now) draft.old draft.new) }
    {
        for part in parts {
            self.put_element(alloc, part, draft)?;
        }
        Ok(())
    }

    #[cycle(writing)]
    fn put_element(
        &self,
        alloc: Global,
        element: &TermElement,
        draft: &mut Draft,
    ) -> Result<(), NoMemory>
        requires knows { KnowsPatterns self.now }
        requires ready { ElementIsReady self.now.g.now (IsFoundAt self.now.written.now) element.now }
        ensures { OnOk result (Writes (ElementPattern self.now.g.now element.now) draft.old draft.new) }
    {
        match element {
            TermElement::Literal(text, _) => put_escaped(alloc, text, draft),
            TermElement::Range(from, to, _) => put_range(alloc, from, to, draft),
            TermElement::Pattern(text, _) => put_regex(alloc, text, draft),
            TermElement::Call(name, _) => self.put_call(name, draft),
            TermElement::Group(parts) => self.put_grouped_row(alloc, parts.as_slice(), draft),
            TermElement::Choice(parts) => self.put_grouped_choice(alloc, parts.as_slice(), draft),
            TermElement::Maybe(part) => self.put_marked(alloc, part.get(), ")?", draft),
            TermElement::Many(part) => self.put_marked(alloc, part.get(), ")*", draft),
            TermElement::Some1(part) => self.put_marked(alloc, part.get(), ")+", draft),
        }
    }

    /// Puts in a row in a group of its own.
    #[cycle(writing)]
    fn put_grouped_row(
        &self,
        alloc: Global,
        parts: &[TermElement],
        draft: &mut Draft,
    ) -> Result<(), NoMemory>
        requires knows { KnowsPatterns self.now }
        requires ready { AreReady self.now.g.now (IsFoundAt self.now.written.now) parts.now }
        ensures { OnOk result (Writes (LayerPattern self.now.g.now (layer.Group parts.now)) draft.old draft.new) }
    {
        draft.put("(?:")?;
        self.put_row(alloc, parts, draft)?;
        draft.put(")")
    }

    /// Puts in alternatives in a group of their own.
    #[cycle(writing)]
    fn put_grouped_choice(
        &self,
        alloc: Global,
        parts: &[TermElement],
        draft: &mut Draft,
    ) -> Result<(), NoMemory>
        requires knows { KnowsPatterns self.now }
        requires some { 0 < length parts.now }
        requires ready { AreReady self.now.g.now (IsFoundAt self.now.written.now) parts.now }
        ensures { OnOk result (Writes (LayerPattern self.now.g.now (layer.Choice parts.now)) draft.old draft.new) }
    {
        draft.put("(?:")?;
        self.put_choice(alloc, parts, draft)?;
        draft.put(")")
    }

    /// Puts in an element in a group of its own, which ends in this.
    #[cycle(writing)]
    fn put_marked(
        &self,
        alloc: Global,
        element: &TermElement,
        end: &str,
        draft: &mut Draft,
    ) -> Result<(), NoMemory>
        requires knows { KnowsPatterns self.now }
        requires ready { ElementIsReady self.now.g.now (IsFoundAt self.now.written.now) element.now }
        ensures { OnOk result (Writes (IsGrouped (ElementPattern self.now.g.now element.now) end.now) draft.old draft.new) }
    {
        draft.put("(?:")?;
        self.put_element(alloc, element, draft)?;
        draft.put(end)
    }

    /// Puts in the pattern of the terminal that is called, in a group of its own.
    fn put_call(&self, name: &Name, draft: &mut Draft) -> Result<(), NoMemory>
        requires knows { KnowsPatterns self.now }
        requires ready { CallsKnown self.now.g.now (IsFoundAt self.now.written.now) name.now }
        ensures { (s : Span) → OnOk result (Writes (LayerPattern self.now.g.now (layer.Call name.now s)) draft.old draft.new) }
    {
        let Some(place) = self.called(name) else {
            unreachable!();
        };
        draft.put("(?:")?;
        draft.put_written(&self.written[place])?;
        draft.put(")")
    }
}

/// Puts in a text that stands for itself.
fn put_escaped(alloc: Global, text: &Name, draft: &mut Draft) -> Result<(), NoMemory>
    ensures { OnOk result (PutsText (escaped text.now) draft.old draft.new) }
{
    let escaped = escape(alloc, text.text())?;
    draft.put(escaped.as_str())
}

/// Puts in a range.
fn put_range(alloc: Global, from: &Name, to: &Name, draft: &mut Draft) -> Result<(), NoMemory>
    requires { HasEnds from.now to.now }
    ensures { (g : Grammar) (s : Span) → OnOk result (Writes (LayerPattern g (layer.Range from.now to.now s)) draft.old draft.new) }
{
    let (Some(first), Some(last)) = (only_char(from), only_char(to)) else {
        unreachable!();
    };
    let class = class(alloc, first, last)?;
    draft.put(class.as_str())
}

/// Puts in a regular expression as it stands.
fn put_unescaped(alloc: Global, text: &Name, draft: &mut Draft) -> Result<(), NoMemory>
    ensures { OnOk result (PutsText (unescaped text.now) draft.old draft.new) }
{
    let pattern = unescaped(alloc, text)?;
    draft.put(pattern.text())
}

/// Puts in a regular expression in a group of its own.
fn put_regex(alloc: Global, text: &Name, draft: &mut Draft) -> Result<(), NoMemory>
    ensures { OnOk result (PutsText (grouped (unescaped text.now)) draft.old draft.new) }
{
    draft.put("(?:")?;
    put_unescaped(alloc, text, draft)?;
    draft.put(")")
}

/// The text between the slashes of an element that is one regular expression.
fn regex(element: &TermElement) -> Option<&Name>
    ensures { option_copied result ≡ as_pattern (out-TermElement element.now) }
{
    match element {
        TermElement::Pattern(text, _) => Some(text),
        _ => None,
    }
}

/// The alternatives of an element that is a choice.
fn choice(element: &TermElement) -> Option<&[TermElement]>
    ensures { option_copied result ≡ as_choice (out-TermElement element.now) }
{
    match element {
        TermElement::Choice(parts) => Some(parts.as_slice()),
        _ => None,
    }
}
