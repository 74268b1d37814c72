//! What is left of a stack that isn't asked any more: memory, given back part by part.
ghost use Rattle.std.specs.Prelude.{◌≡◌, ◌==◌, ◌<◌, ℕ, Some, None, IfSome, nat_lt};
ghost use Rattle.std.specs.Option.{is_some};
ghost use Rattle.log_levels.specs.Trades.{used_in, AreLent, Trades};
ghost use Rattle.log_method.specs.Retired.{used_of, top_of, GivesOneBack};

use builder_trait::Builder;
use log_levels::Level;
use part_store::Store;
use std::marker::Model;

/// The memory of a retired stack. Contracts see it as the stack, of which no tick is to come.
///
/// To give all back at once takes as long as it has parts. An update gives back one.
#[derive(Drop)]
pub struct Retired<B: Builder> {
    levels: Vec<Level<B>>,
}

impl<B: Builder> Model for Retired<B> {
    ghost use Rattle.log_method.specs.Stack.{Stacked};

    ghost Value = { Stacked B.Part B.Item };

    ghost view = { λ r. record { levels = r.levels.items } };
}

impl<B: Builder> Retired<B> {
    /// The parts of levels.
    pub(crate) fn new(levels: Vec<Level<B>>) -> Retired<B>
        ensures { result ≡ record { levels = levels.items } }
    {
        Retired { levels }
    }

    /// Whether no part is left.
    pub fn is_empty(&self) -> bool
        ensures { result ≡ (used_of self.now.levels == 0) }
    {
        are_idle(&self.levels)
    }

    /// The highest level that has a part.
    pub fn top(&self) -> u32
        ensures { 0 < used_of self.now.levels → result ≡ top_of self.now.levels }
    {
        match highest_used(&self.levels) {
            Some(level) => level,
            None => 0,
        }
    }

    /// Gives a part back to the store that lent it, if one is left: the oldest of the highest level that has any. One that is under
    /// construction goes first, with its tables.
    pub fn give_up(&mut self, store: &mut Store<B>)
        requires { AreLent self.old.levels store.old }
        ensures given { GivesOneBack self.old.levels self.new.levels }
        ensures trades { Trades self.old.levels store.old self.new.levels store.new }
    {
        give_back_highest(&mut self.levels, store);
    }
}

/// Whether levels have no part, and none under construction.
fn are_idle<B: Builder>(levels: &[Level<B>]) -> bool
    ensures { result ≡ (used_of levels.now == 0) }
{
    match levels.split_first() {
        Some((level, above)) => level.is_idle() && are_idle(above),
        None => true,
    }
}

/// The highest of some levels that has a part, or one under construction.
fn highest_used<B: Builder>(levels: &[Level<B>]) -> Option<u32>
    ensures some { is_some result ≡ nat_lt 0 (used_of levels.now) }
    ensures found { IfSome result (λ level. level ≡ top_of levels.now) }
{
    match levels.split_first() {
        Some((level, above)) => used_or(highest_used(above), level),
        None => None,
    }
}

/// The number of a level that has a part, or one under construction, where there is no higher one that has any.
fn used_or<B: Builder>(higher: Option<u32>, level: &Level<B>) -> Option<u32>
    ensures above { (k : ℕ) → higher ≡ Some k → result ≡ Some k }
    ensures here { higher ≡ None → is_some result ≡ nat_lt 0 (used_in level.now) }
    ensures found { higher ≡ None → IfSome result (λ k. k ≡ level.now.level) }
{
    if higher.is_some() || level.is_idle() {
        return higher;
    }
    Some(level.number())
}

/// Gives back a part of the highest level that has any, and says whether one has.
fn give_back_highest<B: Builder>(levels: &mut [Level<B>], store: &mut Store<B>) -> bool
    requires { AreLent levels.old store.old }
    ensures some { result ≡ nat_lt 0 (used_of levels.old) }
    ensures given { GivesOneBack levels.old levels.new }
    ensures trades { Trades levels.old store.old levels.new store.new }
{
    match levels.split_first_mut() {
        Some((level, above)) => give_back_highest(above, store) || level.give_back(store),
        None => false,
    }
}
