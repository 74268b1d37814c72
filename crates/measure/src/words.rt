//! The words after the program's name.
use clap::{ArgMatches, Command, arg, value_parser};
use samples::Spread;
use std::alloc::{AllocError, Global};
use trials::Layer;

/// The most items: 2^20.
const MOST: i64 = 1_048_576;

/// Each layer, after its word.
pub const LAYERS: [(&str, Layer); 3] = [
    ("part", Layer::Part),
    ("stack", Layer::Stack),
    ("index", Layer::Index),
];

/// The words of the kinds of parts.
pub const KINDS: [&str; 4] = ["range", "near", "top", "stab"];

/// Where items may lie, after its word.
const SPREADS: [(&str, Spread); 6] = [
    ("square", Spread::Square),
    ("column", Spread::Column),
    ("row", Spread::Row),
    ("cluster", Spread::Cluster),
    ("diagonal", Spread::Diagonal),
    ("spanning", Spread::Spanning),
];

/// What is asked for.
#[derive(Clone, Copy, Debug, PartialEq, Eq)]
pub enum Work<'a> {
    /// What a layer costs, of so many items of a kind, which has this word.
    Layer(Layer, &'a str, Spread),
    /// What the commands of a script cost.
    Script(&'a str),
    /// Parts, stacks and indexes of each kind, sessions, and the scripts of a folder beside their answers.
    Check(Option<&'a str>),
}

/// The work, the seed of all random numbers, how many items there are, and whether times are told.
#[derive(Clone, Copy, Debug, PartialEq, Eq)]
pub struct Job<'a> {
    pub work: Work<'a>,
    pub seed: u64,
    pub size: usize,
    pub is_timed: bool,
}

/// The command line.
pub fn command<'a>(alloc: Global) -> Result<Command<'a>, AllocError> {
    let file = arg!(in alloc; <file> "The script");
    let examples = arg!(in alloc; --examples <FOLDER> "Compare each NAME.livemap with NAME.out");
    let script = subcommand(alloc, "script", "Tell of a script's commands")?.arg(file)?;
    let check = subcommand(alloc, "check", "Compare with plain lists")?.arg(examples)?;
    Command::new(alloc, "measure")
        .about("Measures the parts of Livemap and checks them")
        .subcommand_required(true)
        .subcommand(for_layers(alloc, "part", "Try one part")?)?
        .subcommand(for_layers(alloc, "stack", "Try a stack of parts")?)?
        .subcommand(for_layers(alloc, "index", "Try an index of parts")?)?
        .subcommand(script)?
        .subcommand(check)
}

/// A subcommand for a layer over parts of a kind.
fn for_layers<'a>(alloc: Global, name: &'a str, about: &'a str) -> Result<Command<'a>, AllocError> {
    let kind = arg!(in alloc; --kind <KIND> "The kind of part")
        .value_parser(KINDS.as_slice())
        .default_value("range");
    let spread = arg!(in alloc; --spread <SPREAD> "Where the items lie")
        .value_parser(["square", "column", "row", "cluster", "diagonal", "spanning"].as_slice())
        .default_value("square");
    subcommand(alloc, name, about)?.arg(kind)?.arg(spread)
}

/// A subcommand with a seed, a size and times.
fn subcommand<'a>(alloc: Global, name: &'a str, about: &'a str) -> Result<Command<'a>, AllocError> {
    let seed = arg!(in alloc; --seed <SEED> "The seed of all random numbers")
        .value_parser(value_parser!(u64))
        .default_value("1");
    let size = arg!(in alloc; --size <SIZE> "The number of items")
        .value_parser(value_parser!(u32).range(0..=MOST))
        .default_value("257");
    Command::new(alloc, name)
        .about(about)
        .arg(seed)?
        .arg(size)?
        .arg(arg!(in alloc; --time "Tell of nanoseconds too"))
}

/// What the words ask for, or `None` where they name no subcommand.
pub fn job_of<'a>(matches: &ArgMatches<'a>) -> Option<Job<'a>> {
    let (word, matches) = matches.subcommand()?;
    let work = match word {
        "script" => Work::Script(matches.get_str("file")?),
        "check" => Work::Check(matches.get_str("examples")),
        layer => Work::Layer(
            named(&LAYERS, layer)?,
            matches.get_str("kind")?,
            named(&SPREADS, matches.get_str("spread")?)?,
        ),
    };
    Some(Job {
        work,
        seed: matches.get_one::<u64>("seed")?,
        size: matches.get_one::<usize>("size")?,
        is_timed: matches.get_flag("time"),
    })
}

/// What a word stands for.
fn named<T: Copy>(table: &[(&str, T)], word: &str) -> Option<T> {
    let (_, found) = table.iter().find(|(name, _)| *name == word)?;
    Some(*found)
}
