// The change of a file, out of the value that says it.
ghost use Rattle.std.specs.Prelude.{◌≡◌};
ghost use Rattle.serde_json.specs.Data.{object};
ghost use Rattle.serde_json.specs.View.{view, members_view};
ghost use Rattle.lw_rpc.specs.FileChangeParams as shape;

use crate::listed::Listed;
use crate::members::{taken_text, taken_value};
use crate::{FileChange, FileChangeKind};
use serde_json::{Map, Value};

impl Listed for FileChange {
    ghost shape = { shape.file_change_of };

    fn out_of(value: Value) -> Option<FileChange> {
        match value {
            Value::Object(members) => file_change_of(members),
            _ => None,
        }
    }
}

/// The change of a file that an object of these members is.
fn file_change_of(mut members: Map<String, Value>) -> Option<FileChange>
    ensures { result ≡ shape.file_change_of (object (members_view members.entries)) }
{
    let uri = taken_text(taken_value(&mut members, "uri")?)?;
    let kind = kind(taken_value(&mut members, "type")?)?;
    Some(FileChange { uri, kind })
}

/// What the value says that was done to a file.
fn kind(value: Value) -> Option<FileChangeKind>
    ensures { result ≡ shape.kind_of (view value) }
{
    match value.as_u64()? {
        1 => Some(FileChangeKind::Created),
        2 => Some(FileChangeKind::Changed),
        3 => Some(FileChangeKind::Deleted),
        _ => None,
    }
}
