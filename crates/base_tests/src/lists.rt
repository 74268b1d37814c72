//! Lists of identifiers and of found points.
use map_shapes::{Found, FoundList, IdTally, Recent};
use query_laws::Tally;
use std::test::Fail;

#[test]
fn lists_hold_what_is_put_in(rt: HostRuntime) -> Result<(), Fail> {
    let mut tally = IdTally::new(rt.alloc());
    tally.push(9)?;
    tally.push(u64::MAX)?;
    tally.push(0)?;
    let ids = tally.finish()?;
    assert_eq!(rt; (ids.len(), ids.is_empty()), (3, false));
    assert_eq!(rt; ids.into_vec().as_slice(), [0, 9, u64::MAX].as_slice());

    let mut recent = Recent::new();
    recent.push(7);
    recent.push(u64::MAX);
    assert_eq!(rt;
        (recent.len(), recent.is_empty(), recent.get(1)),
        (2, false, u64::MAX)
    );

    let mut found = FoundList::new();
    found.push(Found::new(1, 3, 0));
    found.insert(0, Found::new(4, 0, 1));
    found.truncate(1);
    assert_eq!(rt;
        (found.len(), found.is_empty(), found.get(0).id()),
        (1, false, 4)
    );
    Ok(())
}
