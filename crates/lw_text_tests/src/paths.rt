// That the calls succeed where there is memory, which no clause says, and what they give.
use lw_base::{Name, NoMemory};
use lw_io::paths::{address_of, path_of};
use std::alloc::Global;
use std::test::Fail;

// The path of an address, or an empty text where it has none.
fn path_or_empty(alloc: Global, address: &str) -> Result<Name, NoMemory> {
    let address = Name::from_text(alloc, address)?;
    match path_of(alloc, &address)? {
        Some(path) => Ok(path),
        None => Name::from_text(alloc, ""),
    }
}

// The address of a path.
fn address_at(alloc: Global, path: &str) -> Result<Name, NoMemory> {
    let path = Name::from_text(alloc, path)?;
    address_of(alloc, &path)
}

#[test]
fn paths_and_addresses(rt: HostRuntime) -> Result<(), Fail> {
    for (address, path) in [
        ("file:///a/b", "/a/b"),
        ("file:///", "/"),
        ("file://host/a", ""),
        ("file:/a", ""),
        ("FILE:///a", ""),
        ("untitled:a", ""),
        ("file:///a%2Fb", "/a/b"),
        ("file:///a%20b?q#f", "/a b"),
        ("file:///a#f?q", "/a"),
        ("file:///%", "/%"),
        ("file:///%4", "/%4"),
        ("file:///%zz", "/%zz"),
        ("file:///%C3%A9", "/é"),
        ("file:///%FF", ""),
        ("file:///a%00b", ""),
        ("", ""),
    ] {
        let found = path_or_empty(rt.alloc(), address)?;
        assert_eq!(rt; found.text(), path, "{address}");
    }
    for (path, address) in [
        ("/a b", "file:///a%20b"),
        ("/é", "file:///%C3%A9"),
        ("/a%b", "file:///a%25b"),
        ("/a?b#c", "file:///a%3Fb%23c"),
        ("/x-._~y", "file:///x-._~y"),
    ] {
        let made = address_at(rt.alloc(), path)?;
        assert_eq!(rt; made.text(), address, "{path}");
    }
    Ok(())
}
