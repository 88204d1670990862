// That the calls succeed where there is memory, which no clause says.
use lw_base::{Name, TypeId, TypeSet};
use std::test::Fail;

#[test]
fn texts_are_made_copied_and_compared(rt: HostRuntime) -> Result<(), Fail> {
    let alloc = rt.alloc();
    let name = Name::from_text(alloc, "a😀b")?;
    let copy = name.copy(alloc)?;
    let from_bytes = Name::from_bytes(alloc, name.bytes())?;
    assert!(rt; copy == name);
    assert!(rt; from_bytes == Some(copy));
    assert!(rt; Name::from_bytes(alloc, b"a\xFFb".as_slice())?.is_none());
    assert!(rt; Name::from_text(alloc, "Z")? < Name::from_text(alloc, "a")?);
    let taken_over = Name::from_string(name.into_string());
    assert_eq!(rt; format!(in alloc; "<{taken_over}>")?.as_str(), "<a😀b>");
    assert_eq!(rt;
        Name::from_vec(vec![in alloc; 226, 130, 172]?),
        Some(Name::from_text(alloc, "€")?)
    );
    assert!(rt; Name::from_vec(vec![in alloc; 226, 130]?).is_none());
    Ok(())
}

#[test]
fn types_are_put_into_a_set(rt: HostRuntime) -> Result<(), Fail> {
    let mut set = TypeSet::new(rt.alloc());
    for number in [3u16, 1, 3, 65_535] {
        set.add(TypeId(number))?;
    }
    for (number, held) in [
        (0u16, false),
        (1, true),
        (2, false),
        (3, true),
        (65_535, true),
    ] {
        assert_eq!(rt; set.holds(TypeId(number)), held, "at {number}");
    }
    Ok(())
}
