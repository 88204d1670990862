// What no clause says: that items can be put where there is memory, and that a long list is read back.
use lw_viable::chains::{Chains, Link};
use std::process::Abort;
use std::test::Fail;

/// Items in the order of being put, each with the number of the list below it, and the items of each list.
const PUT: [(u8, usize); 6] = [(10, 0), (20, 1), (30, 1), (40, 3), (20, 2), (60, 0)];

const LISTS: [&[u8]; 7] = [
    &[],
    &[10],
    &[20, 10],
    &[30, 10],
    &[40, 30, 10],
    &[20, 20, 10],
    &[60],
];

/// Reads down a list and expects these items.
fn expect_items(rt: &impl Abort, chains: &Chains<u8>, list: Link, items: &[u8]) {
    let mut rest = list;
    for item in items {
        match chains.first(rest) {
            Some((first, below)) => {
                assert_eq!(rt; first, *item);
                rest = below;
            }
            None => assert!(rt; false, "the list is too short"),
        }
    }
    assert!(rt; chains.first(rest).is_none());
}

#[test]
fn lists_share_their_ends(rt: HostRuntime) -> Result<(), Fail> {
    let alloc = rt.alloc();
    let mut chains = Chains::new(alloc);
    for (number, (item, below)) in PUT.iter().enumerate() {
        assert!(rt; *below <= chains.len());
        let link = chains.put(*item, Link(*below as u32))?;
        assert_eq!(rt; link.0 as usize, number + 1);
    }
    assert_eq!(rt; chains.len(), PUT.len());
    for (number, items) in LISTS.iter().enumerate() {
        expect_items(&rt, &chains, Link(number as u32), items);
    }
    Ok(())
}

#[test]
fn a_long_list_is_read_back(rt: HostRuntime) -> Result<(), Fail> {
    let alloc = rt.alloc();
    let mut chains = Chains::new(alloc);
    let mut list = Link(0);
    for item in 0..100_000 {
        assert!(rt; list.0 as usize <= chains.len());
        list = chains.put(item, list)?;
    }
    for item in (0..100_000).rev() {
        match chains.first(list) {
            Some((first, below)) => {
                assert_eq!(rt; first, item);
                list = below;
            }
            None => assert!(rt; false, "the list is too short"),
        }
    }
    assert!(rt; chains.first(list).is_none());
    Ok(())
}
