//! The words of the command line.
ghost use Rattle.std.specs.Prelude.{◌≡◌, ◌-◌, ◌^◌, [], ◌∷◌, ◌++◌, false, map, option_map, string_bytes, IfOk, OnOk};
ghost use Rattle.clap.specs.declared.builder.value_parser.ValueParser.TheVariants as parser;
ghost use Rattle.clap.specs.Matches.{found_of};
ghost use Rattle.clap.specs.Simple.{new_shape};
ghost use Rattle.clap.specs.Walk.{rows_of};
ghost use Rattle.clap.specs.Words.{app_of, rule_of, with_subcommand};
ghost use Rattle.command_words.specs.Commands.{command_by_name, command_of, compile_in, crash_rule, crashes_in, crashes_of, evict_rule, flag_rule, flag_shape};
ghost use Rattle.command_words.specs.Commands.{image_in, is_set, live_in, live_shape, load_in, load_shape, make_in, make_shape, most_crash, most_loaded_rounds};
ghost use Rattle.command_words.specs.Commands.{most_rounds, most_turns, needs_threads, number_in, number_of, number_rule, numbers_of, one_shape, play_in};
ghost use Rattle.command_words.specs.Commands.{play_shape, reads_input, recover_in, regions_in, scheme_in, scheme_named, scheme_rule, scheme_shape, seeded_in};
ghost use Rattle.command_words.specs.Commands.{seeded_shape, sweep_in, table, turns_shape, upgrade_in};

use crate::crashes::Crashes;
use crate::scheme::SchemeName;
use clap::builder::ValueParser;
use clap::error::ErrorKind;
use clap::{Arg, ArgAction, ArgMatches};
use ido_base::memory::OutOfMemory;
use std::alloc::{AllocError, Global};

/// Crash words at most.
const MOST_CRASHES: usize = 1000;

/// A command of the program. One that compiles a source to be run does so for a scheme of logging.
#[derive(Drop)]
pub enum Command {
    /// Writes the object of a source.
    Compile {
        scheme: SchemeName,
    },
    /// Lists an object.
    List,
    /// Lists the nodes of a source, and the boundaries among them; and how few there are in straight code, where that is asked.
    Regions {
        least: bool,
    },
    /// Runs a compiled source by a script, and tells how many fences each hart has finished, where that is asked.
    Play {
        fences: bool,
        scheme: SchemeName,
    },
    /// Runs a source by itself, by a schedule.
    Source,
    /// Writes what a crash after a script would leave.
    Image {
        scheme: SchemeName,
    },
    /// Whether each thread of a source locks its mutexes in one order: that of their declarations, and within an array that of its elements, by keys that
    /// are plain numbers.
    Order,
    /// Resumes what a crash has left, by so many turns of each hart, 0 to 1,000,000.
    Recover {
        turns: u32,
    },
    /// Resumes so what a crash has left of an older version, and writes what is left then in the newest.
    Upgrade {
        turns: u32,
    },
    /// Writes the source of a seed, whose threads make so many rounds, 1 to 10,000.
    Make {
        rounds: u32,
        seed: u32,
    },
    /// Runs a compiled source by what a seed draws: so many draws, 0 to 1,000,000, and crashes after some of them. Writes the report, or the journal.
    Seeded {
        seed: u64,
        turns: u32,
        crashes: Crashes,
        journal: bool,
        scheme: SchemeName,
    },
    /// Runs a compiled source with each hart in a thread of its own: legs of so many turns of each hart, 0 to 1,000,000, which the
    /// crashes end, and with evictions that a seed draws, where there is one. Writes the report, or the journal.
    Live {
        turns: u32,
        crashes: Crashes,
        evict: Option<u64>,
        journal: bool,
        scheme: SchemeName,
    },
    /// Runs the source of a seed, whose threads make so many rounds, 1 to 100, with each hart in a thread of its own.
    Load {
        rounds: u32,
        seed: u32,
        scheme: SchemeName,
    },
    /// Runs a compiled source by a script up to each of its events, and on from a crash there.
    Sweep {
        scheme: SchemeName,
    },
}

impl Command {
    /// Whether it reads its input.
    pub fn reads_input(&self) -> bool
        ensures { result ≡ reads_input self.now }
    {
        !matches!(self, Command::Make { .. } | Command::Load { .. })
    }

    /// Whether harts, or runs, have threads of their own for it.
    pub fn needs_threads(&self) -> bool
        ensures { result ≡ needs_threads self.now }
    {
        matches!(
            self,
            Command::Live { .. }
                | Command::Recover { .. }
                | Command::Upgrade { .. }
                | Command::Load { .. }
                | Command::Sweep { .. }
        )
    }
}

/// A table with one command more, which takes no word of its own.
fn with_command<'a>(
    alloc: Global,
    table: clap::Command<'a>,
    name: &'a str,
) -> Result<clap::Command<'a>, AllocError>
    ensures { IfOk result (λ c. app_of c ≡ with_subcommand (app_of table.entry) (new_shape name.entry.now)) }
{
    table.subcommand(clap::Command::new(alloc, name))
}

/// A word that is required, and is a number that this parser takes.
fn number_word<'a>(alloc: Global, name: &'a str, parser: ValueParser<'a>) -> Arg<'a>
    ensures rule { rule_of result ≡ number_rule name.entry.now parser.entry }
    ensures local { result.global ≡ false }
{
    Arg::new(alloc, name).required(true).value_parser(parser)
}

/// What takes a number of turns.
fn turns_parser<'a>() -> ValueParser<'a>
    ensures { result ≡ parser.Unsigned 0 most_turns }
{
    clap::value_parser!(u64).range(..=1_000_000)
}

/// What takes a number of rounds.
fn rounds_parser<'a>() -> ValueParser<'a>
    ensures { result ≡ parser.Unsigned 1 most_rounds }
{
    clap::value_parser!(u64).range(1..10_001)
}

/// What takes a number of rounds that are run.
fn loaded_rounds_parser<'a>() -> ValueParser<'a>
    ensures { result ≡ parser.Unsigned 1 most_loaded_rounds }
{
    clap::value_parser!(u64).range(1..101)
}

/// What takes a number of 32 bits.
fn short_parser<'a>() -> ValueParser<'a>
    ensures { result ≡ parser.Unsigned 0 (2 ^ 32 - 1) }
{
    clap::value_parser!(u64).range(..=4_294_967_295)
}

/// What takes a number of 64 bits.
fn long_parser<'a>() -> ValueParser<'a>
    ensures { result ≡ parser.Unsigned 0 (2 ^ 64 - 1) }
{
    clap::value_parser!(u64)
}

/// What takes a crash word.
fn crash_parser<'a>() -> ValueParser<'a>
    ensures { result ≡ parser.Unsigned 0 most_crash }
{
    clap::value_parser!(u64).range(..=4_000_000)
}

/// Any number of words, each of them a crash word.
fn crash_words<'a>(alloc: Global) -> Arg<'a>
    ensures rule { rule_of result ≡ crash_rule }
    ensures local { result.global ≡ false }
{
    Arg::new(alloc, "CRASH")
        .action(ArgAction::Append)
        .value_parser(crash_parser())
}

/// The option `--evict`, whose word is a seed.
fn evict_option<'a>(alloc: Global) -> Arg<'a>
    ensures rule { rule_of result ≡ evict_rule }
    ensures local { result.global ≡ false }
{
    Arg::new(alloc, "evict")
        .long("evict")
        .value_parser(long_parser())
}

/// The option `--scheme`, whose word is a scheme's name.
fn scheme_option<'a>(alloc: Global) -> Arg<'a>
    ensures rule { rule_of result ≡ scheme_rule }
    ensures local { result.global ≡ false }
{
    Arg::new(alloc, "scheme").long("scheme")
}

/// The flag of this name, with two hyphens before it.
fn flag<'a>(alloc: Global, name: &'a str) -> Arg<'a>
    ensures rule { rule_of result ≡ flag_rule name.entry.now }
    ensures local { result.global ≡ false }
{
    Arg::new(alloc, name).long(name).action(ArgAction::SetTrue)
}

/// A table with one command more, which takes one word, option or flag.
fn with_one<'a>(
    alloc: Global,
    table: clap::Command<'a>,
    name: &'a str,
    word: Arg<'a>,
) -> Result<clap::Command<'a>, AllocError>
    requires { word.global ≡ false }
    ensures { IfOk result (λ c. app_of c ≡ with_subcommand (app_of table.entry) (one_shape name.entry.now (rule_of word.entry))) }
{
    table.subcommand(clap::Command::new(alloc, name).arg(word)?)
}

/// A table with one command more, which takes a flag.
fn with_flag<'a>(
    alloc: Global,
    table: clap::Command<'a>,
    name: &'a str,
    word: &'a str,
) -> Result<clap::Command<'a>, AllocError>
    ensures { IfOk result (λ c. app_of c ≡ with_subcommand (app_of table.entry) (flag_shape name.entry.now word.entry.now)) }
{
    with_one(alloc, table, name, flag(alloc, word))
}

/// A table with one command more, which takes a scheme.
fn with_scheme<'a>(
    alloc: Global,
    table: clap::Command<'a>,
    name: &'a str,
) -> Result<clap::Command<'a>, AllocError>
    ensures { IfOk result (λ c. app_of c ≡ with_subcommand (app_of table.entry) (scheme_shape name.entry.now)) }
{
    with_one(alloc, table, name, scheme_option(alloc))
}

/// A table with the command `play` more, which takes a flag and a scheme.
fn with_play<'a>(alloc: Global, table: clap::Command<'a>) -> Result<clap::Command<'a>, AllocError>
    ensures { IfOk result (λ c. app_of c ≡ with_subcommand (app_of table.entry) play_shape) }
{
    let fences = flag(alloc, "fences");
    let scheme = scheme_option(alloc);
    let one = clap::Command::new(alloc, "play").arg(fences)?;
    let two = one.arg(scheme)?;
    table.subcommand(two)
}

/// A table with one command more, which takes a number of turns.
fn with_turns<'a>(
    alloc: Global,
    table: clap::Command<'a>,
    name: &'a str,
) -> Result<clap::Command<'a>, AllocError>
    ensures { IfOk result (λ c. app_of c ≡ with_subcommand (app_of table.entry) (turns_shape name.entry.now)) }
{
    let turns = number_word(alloc, "TURNS", turns_parser());
    with_one(alloc, table, name, turns)
}

/// A table with the command `make` more, which takes two numbers.
fn with_make<'a>(alloc: Global, table: clap::Command<'a>) -> Result<clap::Command<'a>, AllocError>
    ensures { IfOk result (λ c. app_of c ≡ with_subcommand (app_of table.entry) make_shape) }
{
    let rounds = number_word(alloc, "N", rounds_parser());
    let seed = number_word(alloc, "SEED", short_parser());
    let one = clap::Command::new(alloc, "make").arg(rounds)?;
    let two = one.arg(seed)?;
    table.subcommand(two)
}

/// A table with the command `seeded` more, which takes two numbers and any number of others, a flag and a scheme.
fn with_seeded<'a>(alloc: Global, table: clap::Command<'a>) -> Result<clap::Command<'a>, AllocError>
    ensures { IfOk result (λ c. app_of c ≡ with_subcommand (app_of table.entry) seeded_shape) }
{
    let seed = number_word(alloc, "SEED", long_parser());
    let turns = number_word(alloc, "TURNS", turns_parser());
    let crashes = crash_words(alloc);
    let journal = flag(alloc, "journal");
    let scheme = scheme_option(alloc);
    let one = clap::Command::new(alloc, "seeded").arg(seed)?;
    let two = one.arg(turns)?;
    let three = two.arg(crashes)?;
    let four = three.arg(journal)?;
    let five = four.arg(scheme)?;
    table.subcommand(five)
}

/// A table with the command `live` more, which takes a number and any number of others, an option, a flag and a scheme.
fn with_live<'a>(alloc: Global, table: clap::Command<'a>) -> Result<clap::Command<'a>, AllocError>
    ensures { IfOk result (λ c. app_of c ≡ with_subcommand (app_of table.entry) live_shape) }
{
    let turns = number_word(alloc, "TURNS", turns_parser());
    let crashes = crash_words(alloc);
    let evict = evict_option(alloc);
    let journal = flag(alloc, "journal");
    let scheme = scheme_option(alloc);
    let one = clap::Command::new(alloc, "live").arg(turns)?;
    let two = one.arg(crashes)?;
    let three = two.arg(evict)?;
    let four = three.arg(journal)?;
    let five = four.arg(scheme)?;
    table.subcommand(five)
}

/// A table with the command `load` more, which takes two numbers and a scheme.
fn with_load<'a>(alloc: Global, table: clap::Command<'a>) -> Result<clap::Command<'a>, AllocError>
    ensures { IfOk result (λ c. app_of c ≡ with_subcommand (app_of table.entry) load_shape) }
{
    let rounds = number_word(alloc, "N", loaded_rounds_parser());
    let seed = number_word(alloc, "SEED", short_parser());
    let scheme = scheme_option(alloc);
    let one = clap::Command::new(alloc, "load").arg(rounds)?;
    let two = one.arg(seed)?;
    let three = two.arg(scheme)?;
    table.subcommand(three)
}

/// The commands, as `clap` takes them.
fn table<'a>(alloc: Global) -> Result<clap::Command<'a>, AllocError>
    ensures { IfOk result (λ c. app_of c ≡ table) }
{
    let empty = clap::Command::new(alloc, "ido").subcommand_required(true);
    let one = with_scheme(alloc, empty, "compile")?;
    let two = with_command(alloc, one, "list")?;
    let three = with_flag(alloc, two, "regions", "least")?;
    let four = with_play(alloc, three)?;
    let five = with_command(alloc, four, "source")?;
    let six = with_scheme(alloc, five, "image")?;
    let seven = with_command(alloc, six, "order")?;
    let eight = with_turns(alloc, seven, "recover")?;
    let nine = with_turns(alloc, eight, "upgrade")?;
    let ten = with_make(alloc, nine)?;
    let eleven = with_seeded(alloc, ten)?;
    let twelve = with_live(alloc, eleven)?;
    let thirteen = with_load(alloc, twelve)?;
    with_scheme(alloc, thirteen, "sweep")
}

/// The number of 32 bits that a word of this name is.
fn short_number(matches: &ArgMatches, name: &str) -> Option<u32>
    ensures { result ≡ number_in 32 name.now (rows_of (found_of matches.now)) }
{
    matches.get_one::<u32>(name)
}

/// The number of 64 bits that a word of this name is.
fn long_number(matches: &ArgMatches, name: &str) -> Option<u64>
    ensures { result ≡ number_in 64 name.now (rows_of (found_of matches.now)) }
{
    matches.get_one::<u64>(name)
}

/// Whether the flag of this name is set.
fn is_set(matches: &ArgMatches, name: &str) -> bool
    ensures { result ≡ is_set name.now (rows_of (found_of matches.now)) }
{
    matches.get_one::<bool>(name).unwrap_or(false)
}

/// Adds a number.
fn push(numbers: &mut Vec<u64>, number: u64) -> Result<(), OutOfMemory>
    ensures { OnOk result (numbers.new.items ≡ numbers.old.items ++ number ∷ []) }
{
    numbers.push(number)?;
    Ok(())
}

/// The number of 64 bits that a text is.
fn number_of(text: &str) -> Option<u64>
    ensures { result ≡ number_of 64 text.now }
{
    text.parse::<u64>().ok()
}

/// The numbers of 64 bits that texts are, where each of them is one.
fn numbers_of(alloc: Global, texts: &[&str]) -> Result<Option<Vec<u64>>, OutOfMemory>
    ensures { IfOk result (λ found. option_map (λ v. v.items) found ≡ numbers_of (map (λ t. t.now) texts.now)) }
{
    let mut numbers = Vec::new(alloc);
    let mut rest = texts;
    while let [text, after @ ..] = rest {
        let Some(number) = number_of(text) else {
            return Ok(None);
        };
        push(&mut numbers, number)?;
        rest = after;
    }
    Ok(Some(numbers))
}

/// The crash words, where there are at most a thousand and each is a number.
fn crashes_of(alloc: Global, texts: &[&str]) -> Result<Option<Crashes>, OutOfMemory>
    ensures { IfOk result (λ found. found ≡ crashes_of (map (λ t. t.now) texts.now)) }
{
    if texts.len() > MOST_CRASHES {
        return Ok(None);
    }
    match numbers_of(alloc, texts)? {
        Some(words) => Ok(Some(Crashes::new(words))),
        None => Ok(None),
    }
}

/// The crash words among the words of `seeded` or `live`, if there are any.
fn crashes_in(alloc: Global, matches: &ArgMatches) -> Result<Option<Crashes>, OutOfMemory>
    ensures { IfOk result (λ found. found ≡ crashes_in (rows_of (found_of matches.now))) }
{
    match matches.get_raw("CRASH") {
        Some(texts) => crashes_of(alloc, texts),
        None => crashes_of(alloc, &[]),
    }
}

/// The scheme of this name.
fn scheme_named(name: &str) -> Option<SchemeName>
    ensures { result ≡ scheme_named name.now }
{
    match name {
        "ido" => Some(SchemeName::Ido),
        "justdo" => Some(SchemeName::Justdo),
        _ => None,
    }
}

/// The scheme that is asked for: `ido` where the words tell none.
fn scheme_in(matches: &ArgMatches) -> Option<SchemeName>
    ensures { result ≡ scheme_in (rows_of (found_of matches.now)) }
{
    match matches.get_str("scheme") {
        Some(name) => scheme_named(name),
        None => Some(SchemeName::Ido),
    }
}

/// The command `compile` by its words.
fn compile_in(matches: &ArgMatches) -> Option<Command>
    ensures { result ≡ compile_in (rows_of (found_of matches.now)) }
{
    let scheme = scheme_in(matches)?;
    Some(Command::Compile { scheme })
}

/// The command `image` by its words.
fn image_in(matches: &ArgMatches) -> Option<Command>
    ensures { result ≡ image_in (rows_of (found_of matches.now)) }
{
    let scheme = scheme_in(matches)?;
    Some(Command::Image { scheme })
}

/// The command `sweep` by its words.
fn sweep_in(matches: &ArgMatches) -> Option<Command>
    ensures { result ≡ sweep_in (rows_of (found_of matches.now)) }
{
    let scheme = scheme_in(matches)?;
    Some(Command::Sweep { scheme })
}

/// The command `regions` by its words.
fn regions_in(matches: &ArgMatches) -> Command
    ensures { result ≡ regions_in (rows_of (found_of matches.now)) }
{
    let least = is_set(matches, "least");
    Command::Regions { least }
}

/// The command `play` by its words.
fn play_in(matches: &ArgMatches) -> Option<Command>
    ensures { result ≡ play_in (rows_of (found_of matches.now)) }
{
    let fences = is_set(matches, "fences");
    let scheme = scheme_in(matches)?;
    Some(Command::Play { fences, scheme })
}

/// The command `recover` by its words.
fn recover_in(matches: &ArgMatches) -> Option<Command>
    ensures { result ≡ recover_in (rows_of (found_of matches.now)) }
{
    let turns = short_number(matches, "TURNS")?;
    Some(Command::Recover { turns })
}

/// The command `upgrade` by its words.
fn upgrade_in(matches: &ArgMatches) -> Option<Command>
    ensures { result ≡ upgrade_in (rows_of (found_of matches.now)) }
{
    let turns = short_number(matches, "TURNS")?;
    Some(Command::Upgrade { turns })
}

/// The command `make` by its words.
fn make_in(matches: &ArgMatches) -> Option<Command>
    ensures { result ≡ make_in (rows_of (found_of matches.now)) }
{
    let rounds = short_number(matches, "N")?;
    let seed = short_number(matches, "SEED")?;
    Some(Command::Make { rounds, seed })
}

/// The command `seeded` by its words.
fn seeded_in(alloc: Global, matches: &ArgMatches) -> Result<Option<Command>, OutOfMemory>
    ensures { IfOk result (λ c. c ≡ seeded_in (rows_of (found_of matches.now))) }
{
    let Some(seed) = long_number(matches, "SEED") else {
        return Ok(None);
    };
    let Some(turns) = short_number(matches, "TURNS") else {
        return Ok(None);
    };
    let Some(scheme) = scheme_in(matches) else {
        return Ok(None);
    };
    let journal = is_set(matches, "journal");
    match crashes_in(alloc, matches)? {
        Some(crashes) => Ok(Some(Command::Seeded {
            seed,
            turns,
            crashes,
            journal,
            scheme,
        })),
        None => Ok(None),
    }
}

/// The command `live` by its words.
fn live_in(alloc: Global, matches: &ArgMatches) -> Result<Option<Command>, OutOfMemory>
    ensures { IfOk result (λ c. c ≡ live_in (rows_of (found_of matches.now))) }
{
    let Some(turns) = short_number(matches, "TURNS") else {
        return Ok(None);
    };
    let Some(scheme) = scheme_in(matches) else {
        return Ok(None);
    };
    let evict = long_number(matches, "evict");
    let journal = is_set(matches, "journal");
    match crashes_in(alloc, matches)? {
        Some(crashes) => Ok(Some(Command::Live {
            turns,
            crashes,
            evict,
            journal,
            scheme,
        })),
        None => Ok(None),
    }
}

/// The command `load` by its words.
fn load_in(matches: &ArgMatches) -> Option<Command>
    ensures { result ≡ load_in (rows_of (found_of matches.now)) }
{
    let rounds = short_number(matches, "N")?;
    let seed = short_number(matches, "SEED")?;
    let scheme = scheme_in(matches)?;
    Some(Command::Load {
        rounds,
        seed,
        scheme,
    })
}

/// The command of a name, by what its own words are.
fn command_by_name(
    alloc: Global,
    name: &str,
    matches: &ArgMatches,
) -> Result<Option<Command>, OutOfMemory>
    ensures { IfOk result (λ c. c ≡ command_by_name name.now (rows_of (found_of matches.now))) }
{
    match name {
        "compile" => Ok(compile_in(matches)),
        "list" => Ok(Some(Command::List)),
        "regions" => Ok(Some(regions_in(matches))),
        "play" => Ok(play_in(matches)),
        "source" => Ok(Some(Command::Source)),
        "image" => Ok(image_in(matches)),
        "order" => Ok(Some(Command::Order)),
        "recover" => Ok(recover_in(matches)),
        "upgrade" => Ok(upgrade_in(matches)),
        "make" => Ok(make_in(matches)),
        "seeded" => seeded_in(alloc, matches),
        "live" => live_in(alloc, matches),
        "load" => Ok(load_in(matches)),
        "sweep" => Ok(sweep_in(matches)),
        _ => Ok(None),
    }
}

/// The command that words name, the program's name first; none where they aren't taken.
pub fn command_of(alloc: Global, words: &[String]) -> Result<Option<Command>, OutOfMemory>
    ensures { IfOk result (λ c. c ≡ command_of (map string_bytes words.now)) }
{
    match table(alloc)?.try_get_matches_from(words) {
        Ok(matches) => match matches.subcommand() {
            Some((name, own)) => command_by_name(alloc, name, own),
            None => Ok(None),
        },
        Err(error) => match error.kind() {
            ErrorKind::OutOfMemory => Err(OutOfMemory),
            _ => Ok(None),
        },
    }
}
