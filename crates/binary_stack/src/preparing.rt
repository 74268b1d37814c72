//! The memory for the parts that the next insert builds.
ghost use Rattle.std.specs.Prelude.{◌≡◌, ℕ, ◌+◌, ◌-◌, ◌<◌, ◌≤◌, ◌^◌, Some, IfOk, length, vec_capacity};
ghost use Rattle.binary_stack.specs.Levels.{live_items, HaveAtMost, AreLevels};
ghost use Rattle.binary_stack.specs.Counter.{IsReady};
ghost use Rattle.binary_stack.specs.Rooms.{AreWithin, IsRoomFor, HaveRooms};

use crate::room::Room;
use builder_trait::{Builder, Part};
use query_laws::NoMemory;
use std::alloc::Global;
use std::collections::VecDeque;

/// The most items of a part.
const ITEMS: u64 = 1 << 30;

/// All memory that the next insert may want: a place for one more level, a builder for the part of its item, and a room for each part that it joins.
///
/// `NoMemory` where some isn't given.
pub(crate) fn take_memory<B: Builder>(
    levels: &mut Vec<Option<B::Part>>,
    alloc: Global,
) -> Result<(B, VecDeque<Room<B>>), NoMemory>
    requires levels { AreLevels B.Part.Part.contents 0 levels.old.items }
    requires small { HaveAtMost B.Part.Part.contents (2 ^ 30) levels.old.items }
    requires few { length (live_items B.Part.Part.contents levels.old.items) ≤ 2 ^ 40 }
    ensures same { levels.new.items ≡ levels.old.items }
    ensures ready { IfOk result (λ memory. IsReady B.Part.Part.contents B.progress levels.new.items (vec_capacity levels.new)
        (Some memory.0) memory.1.items) }
{
    levels.reserve(1)?;
    let starter = B::room(alloc, 0)?;
    let rooms = make_rooms(levels, 1, alloc)?;
    Ok((starter, rooms))
}

/// A room for each level from the lowest of some up to the first without a part, where so many items are carried to the lowest.
///
/// `NoMemory` where memory for one isn't given.
fn make_rooms<B: Builder>(
    levels: &[Option<B::Part>],
    carried: u64,
    alloc: Global,
) -> Result<VecDeque<Room<B>>, NoMemory>
    requires some { 1 ≤ carried }
    requires few { carried + length (live_items B.Part.Part.contents levels.now) < 2 ^ 63 }
    requires small { HaveAtMost B.Part.Part.contents (2 ^ 30) levels.now }
    ensures made { IfOk result (λ rooms. HaveRooms B.Part.Part.contents carried levels.now rooms.items) }
    ensures within { IfOk result (λ rooms. (i : ℕ) → AreLevels B.Part.Part.contents i levels.now → carried ≤ 2 ^ i
        → AreWithin i rooms.items) }
{
    let Some((level, above)) = levels.split_first() else {
        return Ok(VecDeque::new(alloc));
    };
    let Some(part) = level else {
        return Ok(VecDeque::new(alloc));
    };
    let room = room_for(part, carried, alloc)?;
    let more = carried + part.live() as u64;
    let mut rooms = make_rooms(above, more, alloc)?;
    rooms.push_front(room)?;
    Ok(rooms)
}

/// A room for a part and one of so many items that is carried to it.
fn room_for<B: Builder>(part: &B::Part, carried: u64, alloc: Global) -> Result<Room<B>, NoMemory>
    requires some { 1 ≤ carried }
    requires small { length (B.Part.Part.contents part.now).items ≤ 2 ^ 30 }
    ensures fits { IfOk result (λ room. IsRoomFor B.Part.Part.contents carried room part.now) }
    ensures within { IfOk result (λ room. (i : ℕ) → length (B.Part.Part.contents part.now).items ≤ 2 ^ i → carried ≤ 2 ^ i → room ≤ i + 1) }
{
    let most = carried.max(part.len() as u64).min(ITEMS);
    Room::new(alloc, size_for(most))
}

/// The least size of a room for parts of so many items.
fn size_for(items: u64) -> u32
    requires some { 1 ≤ items }
    requires most { items ≤ 2 ^ 30 }
    ensures fits { items ≤ 2 ^ (result - 1) }
    ensures least { (i : ℕ) → items ≤ 2 ^ i → result ≤ i + 1 }
    ensures some { 1 ≤ result }
    ensures most { result < 32 }
{
    (2 * items - 1).ilog2() + 1
}
