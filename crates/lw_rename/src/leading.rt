// Where answers lead, by address.
ghost use Rattle.std.specs.Prelude.{◌≡◌, ◌↔◌, IfOk, IsTrue, MatchOption, length, map};
ghost use Rattle.lw_rename.specs.Grouped.{link_told};
ghost use Rattle.lw_rename.specs.Leads.{IsFirstOther, address_among, link_among};

use lw_base::{DocId, Name, NoMemory, NodeId};
use lw_index::Answer;
use lw_query::View;
use std::alloc::Global;

/// The bytes of the address of the document of a number: none, where there is no such document.
fn address_of<'v>(views: &[View<'v>], doc: DocId) -> &'v [u8]
    ensures { result.now ≡ address_among views.now doc.0 }
{
    'finding: for view in views {
        if view.doc == doc {
            return view.uri.bytes();
        }
    }
    &[]
}

/// The same, in memory of its own.
fn address_copy(alloc: Global, views: &[View<'_>], doc: DocId) -> Result<Name, NoMemory>
    ensures { IfOk result (λ name. name ≡ address_among views.now doc.0) }
{
    'copying: for view in views {
        if view.doc == doc {
            return view.uri.copy(alloc);
        }
    }
    Ok(Name::from_string(String::new(alloc)))
}

/// The documents of two numbers have one address.
fn have_same_address(views: &[View<'_>], one: DocId, other: DocId) -> bool
    ensures { IsTrue result ↔ (address_among views.now one.0 ≡ address_among views.now other.0) }
{
    one == other || address_of(views, one) == address_of(views, other)
}

/// Two answers lead to the same node, or both nowhere.
fn lead_alike(views: &[View<'_>], one: Answer, other: Answer) -> bool
    ensures { IsTrue result ↔ (link_among views.now one ≡ link_among views.now other) }
{
    match (one, other) {
        (Answer::Found(one), Answer::Found(other)) => {
            one.node == other.node && have_same_address(views, one.doc, other.doc)
        }
        (Answer::Missing, Answer::Missing) => true,
        _ => false,
    }
}

/// The number of the first answer that leads elsewhere than the one before.
pub(crate) fn first_other(views: &[View<'_>], before: &[Answer], after: &[Answer]) -> Option<usize>
    requires { length after.now ≡ length before.now }
    ensures { MatchOption result (map (link_among views.now) before.now ≡ map (link_among views.now) after.now)
        (IsFirstOther (map (link_among views.now) before.now) (map (link_among views.now) after.now)) }
{
    'comparing: for i in 0..before.len() {
        if !lead_alike(views, before[i], after[i]) {
            return Some(i);
        }
    }
    None
}

/// Where an answer leads, by address and node.
pub(crate) fn told(
    alloc: Global,
    views: &[View<'_>],
    answer: Answer,
) -> Result<Option<(Name, NodeId)>, NoMemory>
    ensures { IfOk result (λ told. link_told told ≡ link_among views.now answer) }
{
    match answer {
        Answer::Found(target) => {
            let address = address_copy(alloc, views, target.doc)?;
            Ok(Some((address, target.node)))
        }
        Answer::Missing => Ok(None),
    }
}
