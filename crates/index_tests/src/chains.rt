//! A chain of three items, of which the middle one goes, another comes, and the first is renewed.
use crate::item::Pair;
use id_chain::{Chain, Handle};
use query_laws::NoMemory;
use std::process::Abort;
use std::test::Fail;

fn add(chain: &mut Chain<Pair>, stamp: u64) -> Result<Handle, NoMemory> {
    chain.reserve(1)?;
    Ok(chain.append(Pair::new(1, 2, stamp)))
}

/// What stands after and before an item that is there.
fn beside(
    chain: &Chain<Pair>,
    handle: Handle,
    rt: &impl Abort,
) -> (Option<Handle>, Option<Handle>) {
    assert!(rt; chain.has(handle));
    (chain.next(handle), chain.prev(handle))
}

#[test]
fn walks_both_ways(rt: HostRuntime) -> Result<(), Fail> {
    let mut chain = Chain::new(rt.alloc());
    let a = add(&mut chain, 0)?;
    let b = add(&mut chain, 1)?;
    let c = add(&mut chain, 2)?;
    assert!(rt; chain.has(b));
    assert_eq!(rt; (chain.item(b).stamp, chain.unlink(b).stamp), (1, 1));
    assert!(rt; chain.spare() > 0 && !chain.is_empty());
    let d = add(&mut chain, 3)?;
    assert_eq!(rt; d, b);
    assert_eq!(rt;
        (chain.first(), chain.last(), chain.len()),
        (Some(a), Some(d), 3)
    );
    assert_eq!(rt; beside(&chain, a, &rt), (Some(c), None));
    assert_eq!(rt; beside(&chain, d, &rt), (None, Some(c)));
    assert!(rt; chain.has(a));
    assert_eq!(rt; chain.renew(a, Pair::new(1, 2, 4)).stamp, 0);
    assert_eq!(rt; (chain.first(), chain.item(a).stamp), (Some(c), 4));
    assert_eq!(rt; beside(&chain, a, &rt), (None, Some(d)));
    Ok(())
}
