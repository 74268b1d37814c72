//! The ticks to come: the levels that they may want, and the memory.
ghost use Rattle.std.specs.Prelude.{◌≡◌, ◌+◌, ◌^◌, ◌<◌, ◌≤◌, true, false, IfOk, length};
ghost use Rattle.log_levels.specs.Levels.{weight_of};
ghost use Rattle.log_levels.specs.Towers.{AreAllLevels};
ghost use Rattle.log_levels.specs.Trades.{wanted_at, IsQuiet};
ghost use Rattle.log_method.specs.Stack.{AreInPlace};
ghost use Rattle.log_method.specs.Preparing.{IsKept, HasTaken, HasRoomsBelow, forecast_of};

use builder_trait::{Builder, Part, Profiled};
use log_levels::Level;
use part_store::Store;
use query_laws::{Item, NoMemory};
use std::alloc::Global;

/// The most levels that a stack has.
const LEVELS: u32 = 32;

/// How many builders two ticks want for single items.
const TICKS: usize = 2;

/// Makes levels until the highest isn't due soon, but 32 at most: there is one at least then.
///
/// `NoMemory` where memory for one isn't given; those made so far stay.
pub(crate) fn add_levels<B: Builder>(
    levels: &mut Vec<Level<B>>,
    alloc: Global,
) -> Result<(), NoMemory>
    requires levels { AreAllLevels B.Part.Part.contents ⟦<B as Profiled>⟧.profile levels.old.items }
    requires few { length levels.old.items ≤ 32 }
    ensures kept { IsKept B.Part.Part.contents levels.old.items levels.new.items }
    ensures enough { IfOk result (λ _. weight_of levels.new.items < 2 ^ 31 → IsQuiet 2 levels.new.items) }
{
    while is_short(levels) {
        add_level(levels, alloc)?;
    }
    Ok(())
}

/// Whether another level is wanted.
fn is_short<B: Builder>(levels: &[Level<B>]) -> bool
    requires levels { AreAllLevels B.Part.Part.contents ⟦<B as Profiled>⟧.profile levels.now }
    requires few { length levels.now ≤ 32 }
    ensures wanted { result ≡ true → length levels.now < 32 }
    ensures enough { result ≡ false → weight_of levels.now < 2 ^ 31 → IsQuiet 2 levels.now }
{
    match levels.last() {
        Some(highest) => levels.len() < LEVELS as usize && highest.is_due_soon(),
        None => true,
    }
}

/// Makes another level.
///
/// `NoMemory` where memory for it isn't given; nothing has changed then.
fn add_level<B: Builder>(levels: &mut Vec<Level<B>>, alloc: Global) -> Result<(), NoMemory>
    requires levels { AreAllLevels B.Part.Part.contents ⟦<B as Profiled>⟧.profile levels.old.items }
    requires few { length levels.old.items < 32 }
    ensures kept { IsKept B.Part.Part.contents levels.old.items levels.new.items }
    ensures more { IfOk result (λ _. length levels.new.items ≡ length levels.old.items + 1) }
{
    let level = Level::new(alloc, levels.len() as u32)?;
    levels.reserve(1)?;
    levels.push_reserved(level);
    Ok(())
}

/// Has a store keep, level by level, what two ticks may take.
///
/// `NoMemory` where some isn't given; what was taken is kept.
pub(crate) fn stock_levels<B: Builder>(
    levels: &[Level<B>],
    store: &mut Store<B>,
    alloc: Global,
) -> Result<(), NoMemory>
    requires { AreInPlace 0 levels.now }
    ensures stocked { IfOk result (λ _. HasRoomsBelow 32 (λ k. wanted_at 2 k levels.now) store.new) }
    ensures taken { HasTaken (λ k. wanted_at 2 k levels.now) store.old store.new }
{
    for level in 0..LEVELS {
        store.stock(level, wanted(levels, level), alloc)?;
    }
    Ok(())
}

/// How many builders of a level two ticks may take: one for each item, and one where a construction may begin.
pub(crate) fn wanted<B: Builder>(levels: &[Level<B>], level: u32) -> usize
    requires { AreInPlace 0 levels.now }
    ensures value { result ≡ wanted_at 2 level levels.now }
    ensures few { result ≤ 2 }
{
    if level == 0 {
        return TICKS;
    }
    match levels.get(level as usize - 1) {
        Some(below) => usize::from(below.is_due_soon()),
        None => 0,
    }
}

/// The weight of the constructions that may begin above levels within two ticks. The lowest of these levels has the given number.
pub(crate) fn forecast<B: Builder>(levels: &[Level<B>], number: u32) -> u64
    requires in_place { AreInPlace number levels.now }
    requires few { number + length levels.now ≤ 32 }
    ensures value { result ≡ forecast_of levels.now }
    ensures few { result + 2 ^ (number + 1) ≤ 2 ^ 33 }
{
    let Some((level, above)) = levels.split_first() else {
        return 0;
    };
    let rest = forecast(above, number + 1);
    if level.is_due_soon() {
        return rest + (2 << number);
    }
    rest
}
