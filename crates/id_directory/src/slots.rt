//! The map's entry of one identifier.
ghost use Rattle.std.specs.Prelude.{◌≡◌, Some, None, OnErr, IfOk};
ghost use Rattle.std.specs.Option.{is_none};
ghost use Rattle.std.specs.Ordering.{nat_cmp};
ghost use Rattle.std.specs.BTreeMap.{get, Updates};
ghost use Rattle.id_directory.specs.Agreement.{PutsNew, AreSame};

use id_chain::Handle;
use query_laws::NoMemory;
use std::collections::BTreeMap;
use std::collections::btree_map::Entry;

/// Puts a handle under an identifier that has none, and says whether it had none. It looks for the identifier once.
pub(crate) fn put_new(
    handles: &mut BTreeMap<u64, Handle>,
    id: u64,
    handle: Handle,
) -> Result<bool, NoMemory>
    ensures put { IfOk result (λ is_new. (is_new ≡ is_none (get nat_cmp handles.old id)) × PutsNew is_new handles.old handles.new id handle) }
    ensures refused { OnErr result (AreSame handles.old handles.new) }
    ensures absent { OnErr result (get nat_cmp handles.old id ≡ None) }
{
    match handles.entry(id) {
        Ok(Entry::Vacant(vacant)) => {
            vacant.insert(handle);
            Ok(true)
        }
        Ok(Entry::Occupied(occupied)) => {
            // An entry that is let go says nothing of the map, and a reference does.
            occupied.into_mut();
            Ok(false)
        }
        Err(_) => Err(NoMemory),
    }
}

/// Takes the entry of an identifier out, if there is one.
pub(crate) fn take(handles: &mut BTreeMap<u64, Handle>, id: u64) -> Option<Handle>
    ensures value { result ≡ get nat_cmp handles.old id }
    ensures updates { Updates nat_cmp handles.old handles.new id None }
{
    handles.remove(&id)
}
