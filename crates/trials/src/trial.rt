//! Parts, stacks and indexes of any kind, measured and compared.
ghost use Rattle.std.specs.Prelude.{◌≡◌};

use crate::bench::Bench;
use crate::indexed::Indexed;
use crate::marked::Marked;
use crate::stacked::Stacked;
use crate::tried::{Kind, Tried};
use builder_trait::RowsBuilder;
use query_laws::step_ledger::Steps;
use query_laws::{Item, NoMemory};
use samples::{Costs, Failure, Generator, Outcome, Seeded, Spread, drawn_question, numbers};
use std::alloc::Global;
use std::sync::ledger::Ledger;
use std::{fs, mem};

/// The most updates after the first inserts where answers are compared.
const COMPARED_UPDATES: usize = 128;

/// How often each question is asked before all updates, and when nine tenths are deleted, where answers are compared; else it is twice each time.
const SWEPT: usize = 17;

/// How something is tried. Where the items lie densely, answers are compared with those of a plain list, and elsewhere costs are told.
#[derive(Clone, Copy)]
pub struct Plan {
    pub seed: u64,
    pub spread: Spread,
    /// The first inserts.
    pub size: usize,
}

/// What is tried.
#[derive(Clone, Copy, Debug, PartialEq, Eq)]
pub enum Layer {
    /// A part, its questions and its marks.
    Part,
    /// A stack, and its questions.
    Stack,
    /// An index, of which some items go and others come, up to three times as many.
    Index,
}

/// Tries a layer of a kind. Where items lie densely it is compared with a plain list, at each size up to that of the plan which is at most
/// 1 away from a power of two, or 16 above one, and elsewhere measured.
pub fn try_layer<K: Kind, L: Ledger>(bench: &mut Bench<L>, layer: Layer, plan: Plan) -> Outcome {
    match layer {
        Layer::Part => try_sizes::<K, Marked<RowsBuilder<K>>, L>(bench, plan),
        Layer::Stack => try_sizes::<K, Stacked<RowsBuilder<K>>, L>(bench, plan),
        Layer::Index => try_sizes::<K, Indexed<RowsBuilder<K>>, L>(bench, plan),
    }
}

fn try_sizes<K: Kind, T: Tried<RowsBuilder<K>>, L: Ledger>(
    bench: &mut Bench<L>,
    plan: Plan,
) -> Outcome {
    if plan.spread != Spread::Dense {
        return run_trial::<K, T, L>(bench, plan);
    }
    for size in 0..=plan.size {
        let mut near = size.saturating_sub(1)..=size.saturating_add(1);
        if near.any(|n| n.is_power_of_two()) || size.saturating_sub(16).is_power_of_two() {
            let seed = plan.seed.wrapping_add(size as u64);
            let plan = Plan { seed, size, ..plan };
            let mut done = run_trial::<K, T, L>(bench, plan);
            if matches!(done, Err(Failure::NoMemory(_))) {
                // For the trial's own lists: once more, from the beginning.
                bench.refused = bench.refused.wrapping_add(1);
                done = run_trial::<K, T, L>(bench, plan);
            }
            done?;
        }
    }
    let words = format!(in bench.alloc; "{} {}", K::WORD, T::WORD)?;
    Ok(bench.tell_seen(words.as_str())?)
}

/// Tries something by a plan, and tells how much memory it holds where times are wanted and nothing is compared.
fn run_trial<K: Kind, T: Tried<RowsBuilder<K>>, L: Ledger>(
    bench: &mut Bench<L>,
    plan: Plan,
) -> Outcome {
    let before = bytes_held(bench)?;
    let mut trial = Trial::<K, T>::new(bench.alloc, plan)?;
    trial.fill(bench)?;
    let bytes = bytes_held(bench)?.saturating_sub(before);
    if bench.is_timed && plan.spread != Spread::Dense {
        let each = bytes / (plan.size as u64).max(1);
        writeln!(bench.report, "{} bytes {bytes} each {each}", T::WORD)?;
    }
    trial.update(bench)?;
    trial.empty(bench)
}

/// Tells whether a difference is seen: in what a part answers whose list lost its items, and then in the same after updates.
pub fn tell_differences<K: Kind, L: Ledger>(bench: &mut Bench<L>, plan: Plan) -> Outcome {
    let mut trial = Trial::<K, Marked<RowsBuilder<K>>>::new(bench.alloc, plan)?;
    trial.fill(bench)?;
    trial.items.clear();
    let asked = is_difference(&trial.ask_each(2, bench));
    let updated = is_difference(&trial.update(bench));
    Ok(writeln!(bench.report, "lost items seen {asked} {updated}")?)
}

/// Whether a comparison ended with a difference.
pub fn is_difference(done: &Outcome) -> bool {
    matches!(done, Err(Failure::Differs(_)))
}

/// How many bytes of memory the process holds, which the system tells in pages of 4,096.
fn bytes_held<L: Ledger>(bench: &Bench<L>) -> Outcome<u64> {
    let line = fs::read_to_string(bench.rt, "/proc/self/statm")?;
    let pages = line.as_str().split_ascii_whitespace().nth(1);
    let pages: u64 = pages.unwrap_or("0").parse().unwrap_or(0);
    Ok(pages.saturating_mul(4_096))
}

/// A change of what is tried: an item comes, or the one goes that a number picks.
#[derive(Clone, Copy)]
enum Change<I: Item> {
    Insert(I),
    Delete(usize),
}

/// What is tried, beside a plain list of its items.
#[derive(Drop)]
struct Trial<K: Kind, T: Tried<RowsBuilder<K>>> {
    set: T,
    /// The items that were inserted, but `None` for each that was deleted: so each is at the place of its stamp.
    items: Vec<Option<K::Item>>,
    plan: Plan,
    generator: Generator,
    costs: Costs,
}

impl<K: Kind, T: Tried<RowsBuilder<K>>> Trial<K, T> {
    /// Nothing was inserted yet.
    fn new(alloc: Global, plan: Plan) -> Result<Trial<K, T>, NoMemory> {
        Ok(Trial {
            set: T::new(alloc, plan.size)?,
            items: Vec::with_capacity(alloc, plan.size)?,
            plan,
            generator: Generator::new(plan.seed),
            costs: Costs::new(alloc),
        })
    }

    fn is_compared(&self) -> bool {
        self.plan.spread == Spread::Dense
    }

    /// Inserts the first items, and asks each question.
    fn fill<L: Ledger>(&mut self, bench: &mut Bench<L>) -> Outcome {
        for _ in 0..self.plan.size {
            let change = self.drawn_change(0);
            self.change(change, bench)?;
        }
        self.tell_costs("insert", bench)?;
        let begun = bench.begin()?;
        self.set.settle(&mut bench.steps)?;
        bench.take_in(begun, &mut self.costs)?;
        self.tell_costs("settle", bench)?;
        self.ask_each(SWEPT, bench)
    }

    /// Makes the updates. Where answers are compared, it asks each question after each tenth.
    fn update<L: Ledger>(&mut self, bench: &mut Bench<L>) -> Outcome {
        let updates = match self.is_compared() {
            true => self.plan.size.saturating_mul(6).min(COMPARED_UPDATES),
            false => self.plan.size.saturating_mul(3).min(T::UPDATES.1),
        };
        for number in 0..updates {
            let change = self.drawn_change(T::DELETES);
            self.change(change, bench)?;
            if self.is_compared() && number % 10 == 0 {
                self.ask_each(2, bench)?;
            }
        }
        self.tell_costs(T::UPDATES.0, bench)
    }

    /// Deletes all items, where answers are compared. It asks each question once nine tenths are deleted, and at the end.
    fn empty<L: Ledger>(&mut self, bench: &mut Bench<L>) -> Outcome {
        if !self.is_compared() {
            return Ok(());
        }
        let all = self.items.len();
        for pick in 0..all {
            if pick == all - all / 10 {
                self.ask_each(SWEPT, bench)?;
            }
            self.change(Change::Delete(pick), bench)?;
        }
        self.ask_each(2, bench)
    }

    /// Asks each question of the kind, so often where answers are compared. `Differs` where one isn't that of a scan.
    fn ask_each<L: Ledger>(&mut self, asked: usize, bench: &mut Bench<L>) -> Outcome {
        let live: Vec<K::Item> = self.items.iter().flatten().copied().collect(bench.alloc)?;
        for (word, class) in K::ASKED {
            self.ask((word, *class, asked), &live, bench)?;
        }
        Ok(())
    }

    /// Asks a question, and tells what that costs: of 1,024 where nothing is compared.
    fn ask<L: Ledger>(
        &mut self,
        (word, class, asked): (&str, u32, usize),
        live: &[K::Item],
        bench: &mut Bench<L>,
    ) -> Outcome {
        let (asked, scanned) = match (self.is_compared(), bench.is_timed) {
            (true, _) => (asked, asked),
            (false, true) => (1_024, 16),
            (false, false) => (1_024, 0),
        };
        for number in 0..asked {
            let scanned = (number < scanned).then_some(live);
            let drawn = self.generator.below(SWEPT as u32) as usize;
            let number = if asked == SWEPT { number } else { drawn };
            match self.put((word, class, number), scanned, bench) {
                Err(Failure::NoMemory(_)) => bench.refused = bench.refused.wrapping_add(1),
                done => done?,
            }
        }
        let words = format!(in bench.alloc; "{word} {class}")?;
        self.tell_costs(words.as_str(), bench)
    }

    /// Puts a drawn question, by its word, class and number, and compares the answer with that of a scan.
    fn put<L: Ledger>(
        &mut self,
        (word, class, number): (&str, u32, usize),
        scanned: Option<&[K::Item]>,
        bench: &mut Bench<L>,
    ) -> Outcome {
        let question = drawn_question(word, class, number, self.plan.spread, &mut self.generator);
        let begun = bench.begin()?;
        let answer = K::ask(&self.set, &question, bench)?;
        bench.take_in(begun, &mut self.costs)?;
        bench.answers = bench.answers.wrapping_add(1);
        let touches = bench.steps.lap_touches();
        bench.touches = bench.touches.wrapping_add(touches);
        if let Some(items) = scanned {
            let begun = bench.begin()?;
            let wanted = Seeded::scan(bench.alloc, &question, items)?;
            self.costs.push_scan(bench.since(begun)?)?;
            let found = numbers(bench.alloc, answer)?;
            if found != wanted {
                let text = format!(in bench.alloc; "{word}: {found:?}, and {wanted:?} by a scan")?;
                return Err(Failure::Differs(text));
            }
        }
        Ok(())
    }

    /// Tells what calls cost since it was told last, where nothing is compared.
    fn tell_costs<L: Ledger>(&mut self, words: &str, bench: &mut Bench<L>) -> Outcome {
        let mut costs = mem::replace(&mut self.costs, Costs::new(bench.alloc));
        if !self.is_compared() {
            let words = format!(in bench.alloc; "{} {words}", T::WORD)?;
            costs.tell(words.as_str(), &mut bench.report)?;
        }
        Ok(())
    }

    /// A change: of eight so many are deletes, on average. Where an even number of items is compared, they are of the one at the front.
    fn drawn_change(&mut self, deletes: u32) -> Change<K::Item> {
        if self.generator.below(8) < deletes {
            let is_front = self.is_compared() && self.plan.size % 2 == 0;
            let drawn = self.generator.draw() as usize;
            return Change::Delete(if is_front { 0 } else { drawn });
        }
        let stamp = self.items.len() as u64;
        Change::Insert(Seeded::drawn(&mut self.generator, self.plan.spread, stamp))
    }

    /// Makes a change. Where memory is refused, it compares, and asks for it once more.
    ///
    /// `NoMemory` where it is refused again.
    fn change<L: Ledger>(&mut self, change: Change<K::Item>, bench: &mut Bench<L>) -> Outcome {
        let begun = bench.begin()?;
        let mut done = self.make(change, bench);
        if matches!(done, Err(Failure::NoMemory(_))) {
            bench.refused = bench.refused.wrapping_add(1);
            self.ask_each(2, bench)?;
            done = self.make(change, bench);
        }
        done?;
        bench.take_in(begun, &mut self.costs)
    }

    /// Makes a change once, and that of the plain list.
    fn make<L: Ledger>(&mut self, change: Change<K::Item>, bench: &mut Bench<L>) -> Outcome {
        self.items.reserve(1)?;
        match change {
            Change::Insert(item) => {
                self.set.insert(item, &mut bench.steps)?;
                self.items.push(Some(item))?;
            }
            Change::Delete(pick) => {
                let deleted = self.set.delete(pick, &mut bench.steps)?;
                let place = deleted.map_or(usize::MAX, |item| item.stamp() as usize);
                if let Some(slot) = self.items.get_mut(place) {
                    *slot = None;
                }
            }
        }
        Ok(())
    }
}
