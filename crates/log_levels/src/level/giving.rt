//! A level that isn't needed any more.
ghost use Rattle.std.specs.Prelude.{◌≡◌, ◌+◌, false, [], ◌∷◌};
ghost use Rattle.part_store.specs.Shelves.{one_if};
ghost use Rattle.log_levels.specs.Trades.{used_in, AreLent, Trades};

use crate::level::Level;
use builder_trait::Builder;
use part_store::Store;

impl<B: Builder> Level<B> {
    /// Gives back what is left of the level: its construction, in a room in which none has begun, and else its oldest part. It says whether
    /// there was one.
    pub fn give_back(&mut self, store: &mut Store<B>) -> bool
        requires { AreLent (self.old ∷ []) store.old }
        ensures trades { Trades (self.old ∷ []) store.old (self.new ∷ []) store.new }
        ensures one { used_in self.new + one_if result ≡ used_in self.old }
        ensures none { result ≡ false → used_in self.old ≡ 0 }
        ensures level { self.new.level ≡ self.old.level }
    {
        if let Some(construction) = self.construction.take() {
            store.take_back_room(self.level, construction.abandon());
            return true;
        }
        if self.parts.is_empty() {
            return false;
        }
        self.retire_oldest(store);
        true
    }
}
