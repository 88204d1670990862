// What is meant at a place.
ghost use Rattle.std.specs.Prelude.{◌≡◌, IfOk};
ghost use Rattle.lw_rename.specs.Targets.{IsMeantAmong, MeansAt, place_target};

use lw_base::{Name, NoMemory};
use lw_index::{Answer, Target};
use lw_query::{Place, View, place_at};

/// How many references of a tree can be told by their numbers.
const MOST_REFERENCES: usize = 4_294_967_295;

/// What a place of a document leads to: a name to its node, a reference to what it leads to.
fn target_at(view: &View<'_>, place: Place) -> Option<Target>
    ensures { result ≡ place_target view.now place }
{
    match place {
        Place::Named(node) => Some(Target {
            doc: view.doc,
            node,
        }),
        Place::Refers(number) => match view.answers.get(number.0 as usize) {
            Some(Answer::Found(target)) => Some(*target),
            _ => None,
        },
    }
}

/// What is meant at an offset of a document. More references than have numbers are more than memory holds.
fn meant_in(view: &View<'_>, off: u32) -> Result<Option<Target>, NoMemory>
    ensures { IfOk result (MeansAt view.now off) }
{
    let Some(tree) = view.tree else {
        return Ok(None);
    };
    if tree.refs().len() > MOST_REFERENCES {
        return Err(NoMemory);
    }
    match place_at(tree, off) {
        Some(place) => Ok(target_at(view, place)),
        None => Ok(None),
    }
}

/// What is meant at an offset of the document at an address.
pub(crate) fn meant(views: &[View<'_>], uri: &Name, off: u32) -> Result<Option<Target>, NoMemory>
    ensures { IfOk result (IsMeantAmong views.now uri.now off) }
{
    'looking: for view in views {
        if view.uri == uri {
            return meant_in(view, off);
        }
    }
    Ok(None)
}
