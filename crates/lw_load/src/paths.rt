// The paths by which files of a grammar are found and compared.
ghost use Rattle.std.specs.Prelude.{◌≡◌, [], IfOk, OnOk, map, reverse, if◌then◌else◌};
ghost use Rattle.lw_load.specs.Paths.{is_absolute, segments, back, walk_on, walk, walked, folder, extension, has_extension, import_path};

use lw_base::{Name, NoMemory};
use std::alloc::Global;

/// A path without detours.
pub(crate) fn walked(alloc: Global, path: &Name) -> Result<Name, NoMemory>
    ensures { IfOk result (λ name. name ≡ walked path.now) }
{
    let path = path.text();
    let absolute = path.starts_with('/');
    let kept = walked_segments(alloc, path, absolute)?;
    let text = kept.join(alloc, "/")?;
    if absolute {
        return Ok(Name::from_string(format!(in alloc; "/{text}")?));
    }
    Ok(Name::from_string(text))
}

// The segments that are left of a path that is walked.
fn walked_segments(alloc: Global, path: &str, absolute: bool) -> Result<Vec<&str>, NoMemory>
    ensures { IfOk result (λ kept. map (λ s. s.now) kept.items ≡ walk absolute [] (segments path.now)) }
{
    let mut kept = Vec::new(alloc);
    for segment in path.split('/') {
        walk_on(&mut kept, segment, absolute)?;
    }
    Ok(kept)
}

// Walks one segment on: an empty one and `.` go out, and `..` goes back.
fn walk_on<'a>(kept: &mut Vec<&'a str>, segment: &'a str, absolute: bool) -> Result<(), NoMemory>
    ensures { OnOk result (reverse (map (λ s. s.now) kept.new.items) ≡ walk_on absolute (reverse (map (λ s. s.now) kept.old.items)) segment.now) }
{
    match segment {
        "" | "." => {}
        ".." => go_back(kept, absolute)?,
        _ => kept.push(segment)?,
    }
    Ok(())
}

// Walks a `..` on: it takes out the segment before it, where there is one that is no `..` itself.
fn go_back(kept: &mut Vec<&str>, absolute: bool) -> Result<(), NoMemory>
    ensures { OnOk result (reverse (map (λ s. s.now) kept.new.items) ≡ back absolute (reverse (map (λ s. s.now) kept.old.items))) }
{
    match kept.last() {
        None if absolute => {}
        None | Some(&"..") => kept.push("..")?,
        Some(_) => {
            kept.pop();
        }
    }
    Ok(())
}

/// The path of the file that an import of the file at `importer` names, in its walked form.
pub(crate) fn import_path(alloc: Global, importer: &Name, path: &Name) -> Result<Name, NoMemory>
    ensures { IfOk result (λ name. name ≡ import_path importer.now path.now) }
{
    let path = path.text();
    let start = start_of(importer.text(), path);
    let extension = missing_extension(path);
    let whole = format!(in alloc; "{start}{path}{extension}")?;
    walked(alloc, &Name::from_string(whole))
}

// What the path is relative to: the importer's folder, but nothing where it is absolute.
fn start_of<'a>(importer: &'a str, path: &str) -> &'a str
    ensures { result.now ≡ (if is_absolute path.now then [] else folder importer.now) }
{
    if path.starts_with('/') {
        ""
    } else {
        folder(importer)
    }
}

// The path up to and including its last slash.
fn folder(path: &str) -> &str
    ensures { result.now ≡ folder path.now }
{
    match path.rfind('/') {
        Some(slash) => &path[..=slash],
        None => "",
    }
}

// The extension, where the path leaves it out.
fn missing_extension(path: &str) -> &'static str
    ensures { result.now ≡ (if has_extension path.now then [] else extension) }
{
    if path.ends_with(".langium") {
        ""
    } else {
        ".langium"
    }
}
