//! A prepared add that is given up, adds, a removal, the latest identifiers, and an item that is renewed.
ghost use Rattle.std.specs.Prelude.{◌≡◌, None, OnOk};

use crate::item::Pair;
use id_chain::Handle;
use id_directory::Directory;
use query_laws::NoMemory;
use std::process::Abort;
use std::test::Fail;

/// Adds an item with this identifier.
fn put(directory: &mut Directory<Pair>, id: u32, rt: &impl Abort) -> Result<Handle, NoMemory>
    requires { directory.old.pending ≡ None }
    ensures { OnOk result (directory.new.pending ≡ None) }
{
    let stamp = directory.adds();
    assert!(rt; stamp < 1_000_000);
    assert!(rt; directory.prepare_add(u64::from(id))?);
    Ok(directory.add(Pair::new(id, 0, stamp)))
}

/// Renews the item with this identifier, and says which y it had.
fn renew(directory: &mut Directory<Pair>, id: u32, y: u32, rt: &impl Abort) -> Option<u32>
    requires { directory.old.pending ≡ None }
{
    let handle = directory.find(u64::from(id))?;
    let stamp = directory.adds();
    assert!(rt; stamp < 1_000_000);
    Some(directory.renew(handle, Pair::new(id, y, stamp)).y)
}

#[test]
fn finds_and_lists(rt: HostRuntime) -> Result<(), Fail> {
    let mut directory = Directory::new(rt.alloc(), 2);
    assert!(rt; directory.prepare_add(5)?);
    assert_eq!(rt; directory.find(5), None);
    directory.cancel_add();
    assert_eq!(rt; directory.find(5), None);
    let five = put(&mut directory, 5, &rt)?;
    assert_eq!(rt; directory.find(5), Some(five));
    assert_eq!(rt; directory.adds(), 1);
    put(&mut directory, 6, &rt)?;
    let seven = put(&mut directory, 7, &rt)?;
    assert!(rt; !directory.prepare_add(7)?);
    assert!(rt; directory.find(6).is_some());
    assert_eq!(rt; directory.remove(6).x, 6);
    assert_eq!(rt; directory.find(6), None);
    assert_eq!(rt; (directory.adds(), directory.chain().len()), (3, 2));
    assert_eq!(rt; directory.chain().last(), Some(seven));
    let recent = directory.recent(2);
    assert_eq!(rt; recent.as_slice(), [7, 5].as_slice());
    assert_eq!(rt; renew(&mut directory, 5, 9, &rt), Some(0));
    assert_eq!(rt; (directory.find(5), directory.adds()), (Some(five), 4));
    assert_eq!(rt; directory.recent(2).as_slice(), [5, 7].as_slice());
    Ok(())
}
