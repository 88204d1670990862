// Where a node is mentioned.
ghost use Rattle.std.specs.Prelude.{◌≡◌, ◌↔◌, ◌++◌, IfOk, IsTrue, Contains, AllPairs, Some, map};
ghost use Rattle.std.specs.Option.{option_map};
ghost use Rattle.lw_base.specs.declared.token.Span.{Span as ASpan};
ghost use Rattle.lw_rename.specs.SpansOf.{AreAllSpans, AreSpansOf, IsUseSpan, SpanPrecedes, key_at, keyed_span, keys_named, name_span};
ghost use Rattle.lw_rename.specs.declared.mentions.SpanKey.{SpanKey as AKey};
ghost use Rattle.lw_index.specs.declared.parts.Answer.TheVariants.{Found};

use lw_base::{Items, NoMemory, Span};
use lw_index::{Answer, Target};
use lw_query::View;
use lw_tree::Tree;
use std::alloc::Global;

/// A span, its parts in the order in which they are compared.
#[derive(Clone, Copy, PartialEq, Eq, PartialOrd, Ord)]
pub(crate) struct SpanKey {
    pub(crate) start: u32,
    pub(crate) end: u32,
}

fn key_of(span: Span) -> SpanKey
    ensures { result ≡ key_at span }
{
    SpanKey {
        start: span.start,
        end: span.end,
    }
}

fn leads_to(answer: Option<&Answer>, target: Target) -> bool
    ensures { IsTrue result ↔ (option_map (λ a. a.now) answer.entry ≡ Some (Found target)) }
{
    match answer {
        Some(Answer::Found(other)) => *other == target,
        _ => false,
    }
}

/// Where the references stand that lead to a node.
fn uses_of(
    alloc: Global,
    tree: &Tree,
    answers: &[Answer],
    target: Target,
) -> Result<Vec<SpanKey>, NoMemory>
    ensures { IfOk result (λ keys. (k : AKey) → Contains keys.items k ↔ IsUseSpan tree.now answers.now target (keyed_span k)) }
{
    let mut keys = Vec::new(alloc);
    'uses: for (i, reference) in tree.refs().iter().enumerate() {
        if leads_to(answers.get(i), target) {
            keys.push(key_of(reference.span))?;
        }
    }
    Ok(keys)
}

/// Where the name of a node stands, where it is one of this document.
fn name_of(view: &View<'_>, tree: &Tree, target: Target) -> Option<Span>
    ensures { result ≡ name_span view.now tree.now target }
{
    if view.doc != target.doc || target.node.0 >= tree.len() {
        return None;
    }
    match tree.name(target.node) {
        Some((_, span)) => Some(span),
        None => None,
    }
}

/// These spans, and behind them that of the name, where there is one.
fn with_name(found: Vec<SpanKey>, name: Option<Span>) -> Result<Vec<SpanKey>, NoMemory>
    ensures { IfOk result (λ keys. keys.items ≡ found.items ++ keys_named name) }
{
    let Some(span) = name else {
        return Ok(found);
    };
    let mut keys = found;
    keys.push(key_of(span))?;
    Ok(keys)
}

/// These spans in their order, each once.
fn in_order(alloc: Global, keys: Vec<SpanKey>) -> Result<Items<Span>, NoMemory>
    ensures exact { IfOk result (λ spans. (s : ASpan) → Contains spans s ↔ Contains (map keyed_span keys.items) s) }
    ensures ordered { IfOk result (AllPairs SpanPrecedes) }
{
    let mut keys = keys;
    keys.sort_unstable();
    keys.dedup();
    let mut spans = Items::new(alloc);
    'listing: for key in &keys {
        spans.push(Span {
            start: key.start,
            end: key.end,
        })?;
    }
    Ok(spans)
}

/// Where a node is mentioned in a document: by references, and by its own name.
fn spans_in(alloc: Global, view: &View<'_>, target: Target) -> Result<Items<Span>, NoMemory>
    ensures { IfOk result (AreSpansOf target view.now) }
{
    let Some(tree) = view.tree else {
        return Ok(Items::new(alloc));
    };
    let found = uses_of(alloc, tree, view.answers, target)?;
    let keys = with_name(found, name_of(view, tree, target))?;
    in_order(alloc, keys)
}

/// The same of each document.
pub(crate) fn spans_of_all(
    alloc: Global,
    views: &[View<'_>],
    target: Target,
) -> Result<Vec<Items<Span>>, NoMemory>
    ensures { IfOk result (λ spans. AreAllSpans target views.now spans.items) }
{
    let mut spans = Vec::new(alloc);
    'gathering: for view in views {
        spans.push(spans_in(alloc, view, target)?)?;
    }
    Ok(spans)
}
