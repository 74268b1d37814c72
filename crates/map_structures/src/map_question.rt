//! The questions of the map.
ghost use Rattle.std.specs.Prelude.{◌≡◌, ℕ, ◌+◌, ◌*◌, ◌^◌, ◌<◌, ◌≤◌, Bool, List, length, filter, map};
ghost use Rattle.builder_trait.specs.Parts.{Contents, live_of};
ghost use Rattle.map_model.specs.Answer as answers;
ghost use Rattle.map_model.specs.Command.{lists_ids};
ghost use Rattle.map_structures.specs.Touches.{PartTouches, AreFew};

use crate::MapRows;
use builder_trait::AnsweringRows;
use map_questions::OneQuestion;
use map_shapes::Shaped;
use query_laws::Question;

/// A question of the definitions, which a structure answers as a scan of all items does.
pub trait MapQuestion<R: MapRows>: Question<Item = R::Item> + OneQuestion
where
    R: AnsweringRows<Self>,
    R::Item: Shaped,
{
    /// The items each of which takes more touches.
    ghost hits: { Self → R.Item → Bool };

    /// The touches in a part of at most `2^g` items.
    ghost touches: { ℕ → PartTouches };

    /// The most touches in so many parts of at most `2^g` items each, of a layer of n items, with such an answer.
    ghost most_touches: { (g parts n : ℕ) → Self.Answer → ℕ };

    /// It asks a layer of its items.
    ghost asks_kind: { (q : Self) → answers.kind_asked (Self.asks q) ≡ R.Item.kind };

    /// Memory may be refused to it exactly where its answer lists identifiers.
    ghost refuses: { (q : Self) → Self.refusable ≡ lists_ids (Self.asks q) };

    /// The answer is that of a scan.
    ghost scans: { (q : Self) (xs : List R.Item) → length xs ≤ 2 ^ 24
        → Self.tells (Self.value q xs) ≡ answers.answer_over (map R.Item.item_of xs) (Self.asks q) };

    /// A part is touched so often at most.
    ghost part_touches: { (q : Self) (g : ℕ) (p : Contents R.Item) → g < 64 → length p.items ≤ 2 ^ g
        → R.ask_touches q p ≤ (touches g).part + (touches g).hit * length (filter (hits q) (live_of p)) + (touches g).item * length p.items };

    /// And all parts together.
    ghost all_touches: { (q : Self) (g parts : ℕ) (xs : List R.Item)
        → parts * (touches g).part + (touches g).hit * length (filter (hits q) xs) + (touches g).item * (2 * length xs + 9)
        ≤ most_touches g parts (length xs) (Self.value q xs) };

    ghost few: { (g : ℕ) → g ≤ 25 → AreFew (touches g) };
}
