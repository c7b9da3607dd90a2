// Copies of lists and sets of servers.
use fed_dest::{List, ServerIndex, ServerName, ServerSet};
use std::test::Fail;

#[test]
fn copies_of_lists_and_sets(rt: HostRuntime) -> Result<(), Fail> {
    let alloc = rt.alloc();
    let mut names = Vec::new(alloc);
    for name in ["b.example", "a.example:8448"] {
        names.push(ServerName::read(alloc, name)?)?;
    }
    let copy = List::new(names)?.copy(alloc)?;
    assert_eq!(rt; copy.len(), 2);
    assert_eq!(rt; copy.name(ServerIndex::new(0)), "a.example:8448");
    assert_eq!(rt; copy.name(ServerIndex::new(1)), "b.example");
    let mut places = Vec::new(alloc);
    for place in [3, 63] {
        places.push(ServerIndex::new(place))?;
    }
    let Some(set) = ServerSet::rising(places) else {
        return Err(Fail::from("the places rise"));
    };
    let copy = set.copy(alloc)?;
    assert_eq!(rt; copy.len(), 2);
    assert!(rt; copy.contains(ServerIndex::new(3)) && copy.contains(ServerIndex::new(63)));
    assert!(rt; !copy.contains(ServerIndex::new(4)));
    Ok(())
}
