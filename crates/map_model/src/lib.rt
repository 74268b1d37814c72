//! What a map of layers is, what a script's line says and what it is answered: the definitions that every other crate's
//! contracts speak of, and the laws that hold of them.
//!
//! The definitions are in `specs/`: numbers are whole and without limit, lists count from 0, and a text is a list of bytes.
//! Each function here is a law: it does nothing, and its contract holds of every map, every script and everything that may
//! be written for it.
//!
//! The definitions name no type of the program: a crate above says by a function of its `specs/` what its own types mean here
//! (`command_of`, `reply_of`, `map_of`). An output is a relation by recursion over the lines, and no function of a script, since memory
//! may be refused at any line that takes some. What a reply cost stands beside it, and any costs that are allowed will do: so bytes fix
//! the map though costs differ ([`end_is_fixed`]). Points and segments are added by one command, and the eleven questions are one, since
//! their refusals are the same.
#![tactic(auto)]

ghost use Rattle.std.specs.Prelude.{◌≡◌, ℕ, ◌+◌, ◌-◌, ◌*◌, ◌^◌, ◌<◌, ◌≤◌, Bool, true, false, List, [], ◌∷◌, ◌++◌, Ok, Some, None, Contains, codes, IsTrue, nat_eq};
ghost use Rattle.std.specs.List.{starts_with};
ghost use Rattle.map_model.specs.Index.{Index};
ghost use Rattle.map_model.specs.Answer.{Question, answer_over};
ghost use Rattle.map_model.specs.Shift.{shifted_items, shifted_question, shifted_answer, shifted_found};
ghost use Rattle.map_model.specs.Text.{lines, one_line};
ghost use Rattle.map_model.specs.Version.{Version};
ghost use Rattle.map_model.specs.State.{Item, Layer, State, HasDistinctKeys, empty_map_of, shape_of, wait_of, added, moved, dropped};
ghost use Rattle.map_model.specs.Machine.{step};
ghost use Rattle.map_model.specs.Cost.{Cost, Update, Spent, SpentAtOnce, QuestionCost, Updating, Joining, Asking, Fits64, IsSpent, IsSpentAtOnce, IsAsked, greatest_level, batch_parts, batch_part_bound};
ghost use Rattle.map_model.specs.Reply.{Reply, reply_text, reply_line, is_refusal};
ghost use Rattle.map_model.specs.Command.{Command};
ghost use Rattle.map_model.specs.Grammar.{parse};
ghost use Rattle.map_model.specs.Line.{IsCommand, command_line};
ghost use Rattle.map_model.specs.Output.{Output, machine_text, machine_end, never_lacks_memory};
ghost use Rattle.map_model.specs.WorkedRows.{WorkedRows};
ghost use Rattle.map_model.specs.WorkedLines.{WorkedLines};
ghost use Rattle.map_model.specs.WorkedBounds.{WorkedBounds};

/// The lines and the bytes written for them fix the map at the end, whatever the replies say that they cost. So they
/// tell which commands memory refused.
pub fn end_is_fixed()
    ensures { (ledger : Bool) (start first second : State) (script : List (List ℕ)) (written : List ℕ) →
        Output ledger start script written first → Output ledger start script written second → first ≡ second }
{}

/// What is written for one text, and then from the map that it leads to for a second one, is written for both,
/// where a line feed ends the first.
pub fn outputs_join()
    ensures { (ledger : Bool) (start middle end : State) (first second : List ℕ) (v w : List ℕ) →
        Output ledger start (lines (first ++ 10 ∷ [])) v middle → Output ledger middle (lines second) w end →
        Output ledger start (lines ((first ++ 10 ∷ []) ++ second)) (v ++ w) end }
{}

/// What is written for two texts is what is written for the first, and then from the map that it leads to what is
/// written for the second.
pub fn outputs_split()
    ensures { (ledger : Bool) (start end : State) (first second written : List ℕ) →
        Output ledger start (lines ((first ++ 10 ∷ []) ++ second)) written end →
        (v : List ℕ) × (w : List ℕ) × (middle : State) × (written ≡ v ++ w)
        × Output ledger start (lines (first ++ 10 ∷ [])) v middle × Output ledger middle (lines second) w end }
{}

/// Without the ledger, a script in which no command that takes memory could be accepted has exactly one output: that
/// of the machine.
pub fn one_output()
    ensures exists { (start : State) (script : List (List ℕ)) →
        Output false start script (machine_text start script) (machine_end start script) }
    ensures unique { (start end : State) (script : List (List ℕ)) (written : List ℕ) →
        IsTrue (never_lacks_memory start script) → Output false start script written end →
        (written ≡ machine_text start script) × (end ≡ machine_end start script) }
{}

/// Without the ledger, and where no line `no memory` was written, the written bytes are exactly the replies of the
/// machine, one command after another, and the map is its map.
pub fn without_refused_memory()
    ensures { (start end : State) (script : List (List ℕ)) (written : List ℕ) →
        (Contains (lines written) (codes "no memory") → ⊥) → Output false start script written end →
        (written ≡ machine_text start script) × (end ≡ machine_end start script) }
{}

/// In every map that a script leads to, no two layers have the same name, and no two items of a layer the same
/// identifier.
pub fn keys_are_distinct()
    ensures empty { (most : ℕ) → HasDistinctKeys (empty_map_of most) }
    ensures step { (state : State) (command : Command) → HasDistinctKeys state → HasDistinctKeys (step state command).state }
    ensures output { (ledger : Bool) (start end : State) (script : List (List ℕ)) (written : List ℕ) →
        Output ledger start script written end → HasDistinctKeys start → HasDistinctKeys end }
{}

/// A reply is one line, which begins with `no ` exactly where it is a refusal.
pub fn replies_are_lines()
    ensures one_line { (version : Version) (ledger : Bool) (reply : Reply) (cost : Cost) →
        (text : List ℕ) × (reply_line version ledger reply cost ≡ text ++ 10 ∷ []) × (one_line text ≡ true) }
    ensures refusals { (version : Version) (reply : Reply) (rest : List ℕ) → starts_with nat_eq (reply_text version reply ++ rest) (codes "no ") ≡ is_refusal reply }
{}

/// With the ledger a reply's line tells what the reply cost: two costs that make the same line of it are the same. An update's
/// numbers always have few enough bits for it, and so have a question's, but for its touches; where parts are joined at once, those of the
/// first 2^40 updates.
pub fn costs_are_fixed()
    ensures fixed { (version : Version) (reply : Reply) (first second : Cost) → Fits64 first → Fits64 second →
        reply_line version true reply first ≡ reply_line version true reply second → first ≡ second }
    ensures updates { (layer : Layer) (update : Update) (spent : Spent) → IsSpent layer update spent → Fits64 (Updating spent) }
    ensures joins { (layer : Layer) (update : Update) (spent : SpentAtOnce) → layer.inserted < 2 ^ 40 → IsSpentAtOnce layer update spent → Fits64 (Joining spent) }
    ensures questions { (layer : Layer) (asked : QuestionCost) → IsAsked layer asked → asked.touches < 2 ^ 64 → Fits64 (Asking asked) }
{}

/// In either version a command is read from its own line, whatever its numbers within their limits. Made scripts stand on it.
pub fn commands_are_read()
    ensures { (version : Version) (command : Command) → IsCommand version command → parse version (command_line version command) ≡ Ok (Some command) }
{}

/// What a line says is a command of its version: its name is one, and its numbers are within their limits and in order.
pub fn read_commands_are_lawful()
    ensures { (version : Version) (line : List ℕ) (command : Command) → parse version line ≡ Ok (Some command) → IsCommand version command }
{}

/// A question about items that are moved alike is answered as before, but for the height that the highest point has; and a shape is found where
/// it was moved. So the answers of version 2 are those of kept coordinates.
pub fn shifts_keep_answers()
    ensures answers { (dx dy : ℕ) (items : List Item) (question : Question) →
        answer_over (shifted_items dx dy items) (shifted_question dx dy question) ≡ shifted_answer dy (answer_over items question) }
    ensures shapes { (dx dy : ℕ) (items : List Item) (id : ℕ) → shape_of id (shifted_items dx dy items) ≡ shifted_found dx dy (shape_of id items) }
{}

/// The greatest level is the greatest one whose power of two is at most twice the live items and ten more.
pub fn greatest_level_is_greatest()
    ensures { (n : ℕ) → 2 * n + 10 < 2 ^ 64 →
        (2 ^ greatest_level n ≤ 2 * n + 10) × (2 * n + 10 < 2 * 2 ^ greatest_level n) }
{}

/// An index that waits for items waits for three fewer at least after each update of its layer, until it waits for none, and from then on for
/// none.
pub fn late_indexes_catch_up()
    ensures adds { (layer : Layer) (item : Item) (index : Index) → wait_of (added item layer).waits index ≤ wait_of layer.waits index - 3 }
    ensures moves { (layer : Layer) (item : Item) (index : Index) → wait_of (moved item layer).waits index ≤ wait_of layer.waits index - 3 }
    ensures drops { (layer : Layer) (id : ℕ) (index : Index) → wait_of (dropped id layer).waits index ≤ wait_of layer.waits index - 3 }
{}

/// Parts that are joined at once are at most as many as their number of inserts has digits in binary.
pub fn batch_parts_are_ones()
    ensures bound { (inserted : ℕ) → batch_parts inserted ≤ batch_part_bound inserted }
    ensures digits { (inserted : ℕ) → inserted < 2 ^ 64 →
        (inserted < 2 ^ batch_part_bound inserted) × (0 < inserted → 2 ^ batch_part_bound inserted ≤ 2 * inserted) }
{}

/// Worked rows: what these scripts are answered, without the ledger.
pub fn worked_rows()
    ensures { WorkedRows }
{}

/// Worked lines: what each of these is answered, where one empty layer of points stands.
pub fn worked_lines()
    ensures { WorkedLines }
{}

/// The bounds of one index, where a layer has so many live items, and of parts that are joined at once.
pub fn worked_bounds()
    ensures { WorkedBounds }
{}
