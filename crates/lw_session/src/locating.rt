// Places of documents: as an editor asks about them, and as it is told them.
ghost use Rattle.std.specs.Prelude.{◌≡◌, IfOk, All, MatchOption, None};
ghost use Rattle.std.specs.FinMap.{get};
ghost use Rattle.std.specs.List.{AllZip};
ghost use Rattle.lw_session.specs.Locating.{IsAskedPlace, IsLocated, IsSpotOf};

use lw_base::{DocId, Items, Name, NoMemory};
use lw_build::{Seen, Workspace};
use lw_query::{Spot, Views};
use lw_rpc::Location;
use lw_text::{Encoding, Pos};
use std::alloc::Global;

/// A place of a document that is asked about: the document by its number, and the byte of its text.
#[derive(Clone, Copy)]
pub(crate) struct PlaceAsked {
    pub doc: DocId,
    pub off: u32,
}

/// The place that a position of the document at an address means, where there is such a document.
pub(crate) fn asked_at(workspace: &Workspace, address: &Name, at: Pos) -> Option<PlaceAsked>
    ensures { MatchOption result (get workspace.now.kept address.now ≡ None) (IsAskedPlace workspace.now address.now at) }
{
    let doc = workspace.find(address)?;
    let text = workspace.text_of(address)?;
    let off = text.offset(at, Encoding::Utf16);
    Some(PlaceAsked { doc, off })
}

/// Where a part of a document is, as an editor is told it.
pub(crate) fn location_of(alloc: Global, seen: &Seen<'_>, spot: Spot) -> Result<Location, NoMemory>
    requires { IsSpotOf seen.now spot }
    ensures { IfOk result (IsLocated seen.now spot) }
{
    match (seen.uri(spot.doc), seen.text(spot.doc)) {
        (Some(uri), Some(text)) => Ok(Location {
            uri: uri.copy(alloc)?,
            start: text.position(spot.span.start, Encoding::Utf16),
            end: text.position(spot.span.end, Encoding::Utf16),
        }),
        _ => unreachable!(),
    }
}

/// The same of several, in their order.
pub(crate) fn locations_of(
    alloc: Global,
    seen: &Seen<'_>,
    spots: &[Spot],
) -> Result<Items<Location>, NoMemory>
    requires { All (IsSpotOf seen.now) spots.now }
    ensures { IfOk result (λ locations. AllZip (IsLocated seen.now) spots.now locations) }
{
    let mut locations = Items::new(alloc);
    'locating: for spot in spots {
        locations.push(location_of(alloc, seen, *spot)?)?;
    }
    Ok(locations)
}
