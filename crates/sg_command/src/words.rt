ghost use Rattle.std.specs.Prelude.{◌≡◌, ◌≤◌, IfOk, IfErr, OnOk, IsSome, Some, None, [], ◌&&◌, codes, option_map, option_and_then};
ghost use Rattle.clap.specs.Words.{rows_of, first_of, found_of, fault_of, subcommand_of, subcommand_rows_of, kind_of};
ghost use Rattle.sg_words.specs.Parse.{number_of};
ghost use Rattle.sg_command.specs.Words.{stasis_app};
ghost use Rattle.sg_command.specs.Asked.{run_of, counted, gen_of, asked_of, asked, named_in, named, shown_paths, texts_of, if_memory};

use crate::line::stasis_command;
use clap::error::ErrorKind;
use clap::{ArgMatches, Error};
use sg_words::parse_number;
use std::alloc::Global;

/// What the words of the command line ask for.
#[derive(Clone, Copy, Debug, PartialEq, Eq)]
pub enum Command {
    /// A new store.
    Init {
        /// Whether a file says its sizes.
        geometry: bool,
    },
    /// A script over a store.
    Run {
        /// How many calls the disk makes at most, if it is to stop.
        stop_after: Option<u64>,
    },
    /// The objects of a store.
    Dump,
    /// A look at the structures of a store.
    Check,
    /// The records of a store's log.
    Log,
    /// A workload.
    Gen {
        /// What it is drawn from.
        seed: u64,
        /// How many lines are drawn: 1 to 1,000,000.
        count: u32,
    },
}

/// Why words ask for nothing.
#[derive(Clone, Copy, Debug, PartialEq, Eq)]
pub enum WordsError {
    /// They are none that the program has, or a number isn't in its range.
    Usage,
    /// There was not enough memory.
    Memory,
}

// The first value of an option or a word.
fn value<'a>(matches: &ArgMatches<'a>, id: &str) -> Option<&'a str>
    ensures { option_map (λ s. s.now) result ≡ first_of id.now (rows_of (found_of matches.now)) }
{
    matches.get_str(id)
}

fn run_of(text: Option<&str>) -> Option<Command>
    ensures { result ≡ run_of (option_map (λ s. s.now) text.entry) }
{
    match text {
        Some(text) => match parse_number(text.as_bytes()) {
            Some(calls) => Some(Command::Run {
                stop_after: Some(calls),
            }),
            None => None,
        },
        None => Some(Command::Run { stop_after: None }),
    }
}

fn counted(seed: u64, count: u64) -> Option<Command>
    ensures { result ≡ counted seed count }
{
    if (1..=1_000_000).contains(&count) {
        Some(Command::Gen {
            seed,
            count: count as u32,
        })
    } else {
        None
    }
}

fn gen_of(seed: Option<&str>, count: Option<&str>) -> Option<Command>
    ensures { result ≡ gen_of (option_map (λ s. s.now) seed.entry) (option_map (λ s. s.now) count.entry) }
{
    let (Some(seed), Some(count)) = (seed, count) else {
        return None;
    };
    let (Some(seed), Some(count)) = (
        parse_number(seed.as_bytes()),
        parse_number(count.as_bytes()),
    ) else {
        return None;
    };
    counted(seed, count)
}

// What a subcommand asks for, with the values that it was given.
fn asked_of(name: &str, matches: &ArgMatches<'_>) -> Option<Command>
    ensures { result ≡ asked_of name.now (rows_of (found_of matches.now)) }
{
    if name == "init" {
        return Some(Command::Init {
            geometry: value(matches, "geometry").is_some(),
        });
    }
    if name == "run" {
        return run_of(value(matches, "stop-after"));
    }
    if name == "dump" {
        return Some(Command::Dump);
    }
    if name == "check" {
        return Some(Command::Check);
    }
    if name == "log" {
        return Some(Command::Log);
    }
    gen_of(value(matches, "seed"), value(matches, "count"))
}

// What a parse of the words asks for.
fn asked_in(matches: &ArgMatches<'_>) -> Option<Command>
    ensures { result ≡ option_and_then (λ p. asked_of p.0 p.1) (subcommand_rows_of matches.now) }
{
    match matches.subcommand() {
        Some((name, rows)) => asked_of(name, rows),
        None => None,
    }
}

// Why a parse of the words failed.
fn error_of(error: &Error) -> WordsError
    ensures { result ≡ if_memory (kind_of error.now) }
{
    match error.kind() {
        ErrorKind::OutOfMemory => WordsError::Memory,
        _ => WordsError::Usage,
    }
}

// Parses the words.
fn parse<'a>(alloc: Global, words: &'a [String]) -> Result<ArgMatches<'a>, WordsError>
    ensures parsed { IfOk result (λ m. (fault_of stasis_app (texts_of words.entry.now) ≡ []) × (subcommand_rows_of m ≡ subcommand_of stasis_app (texts_of words.entry.now))) }
    ensures refused { IfErr result (λ e. e ≡ WordsError.Usage → fault_of stasis_app (texts_of words.entry.now) ≡ [] → ⊥) }
{
    let Ok(command) = stasis_command(alloc) else {
        return Err(WordsError::Memory);
    };
    match command.try_get_matches_from(words) {
        Ok(matches) => Ok(matches),
        Err(error) => Err(error_of(&error)),
    }
}

/// What the words behind the program's name ask for. It is refused as `Usage` exactly where `clap` refuses the words, a request for help
/// among them, or a number is none of 1 to 20 digits below 2^64, or a count isn't 1 to 1,000,000; want of memory aside.
pub fn read_command(alloc: Global, words: &[String]) -> Result<Command, WordsError>
    ensures asked { IfOk result (λ command. asked (texts_of words.now) ≡ Some command) }
    ensures usage { IfErr result (λ e. e ≡ WordsError.Usage → asked (texts_of words.now) ≡ None) }
{
    match parse(alloc, words) {
        Ok(matches) => match asked_in(&matches) {
            Some(command) => Ok(command),
            None => Err(WordsError::Usage),
        },
        Err(error) => Err(error),
    }
}

/// The words that name a folder and a file, for whoever opens them.
#[derive(Clone, Copy, Debug, PartialEq, Eq)]
pub struct Paths<'a> {
    /// DIR, where the command has one.
    pub dir: Option<&'a str>,
    /// FILE, where it was given.
    pub file: Option<&'a str>,
}

// The folder and the file of a parse.
fn paths_in<'a>(matches: &ArgMatches<'a>) -> Paths<'a>
    ensures { shown_paths result ≡ named_in (subcommand_rows_of matches.now) }
{
    match matches.subcommand() {
        Some((_, rows)) => Paths {
            dir: value(rows, "dir"),
            file: value(rows, "geometry"),
        },
        None => Paths {
            dir: None,
            file: None,
        },
    }
}

/// The words that name a folder and a file, of words that `read_command` reads, exactly; others are refused as it refuses them.
pub fn read_paths<'a>(alloc: Global, words: &'a [String]) -> Result<Paths<'a>, WordsError>
    ensures asked { OnOk result (IsSome (asked (texts_of words.entry.now))) }
    ensures named { IfOk result (λ p. shown_paths p ≡ named (texts_of words.entry.now)) }
    ensures usage { IfErr result (λ e. e ≡ WordsError.Usage → asked (texts_of words.entry.now) ≡ None) }
{
    match parse(alloc, words) {
        Ok(matches) => match asked_in(&matches) {
            Some(_) => Ok(paths_in(&matches)),
            None => Err(WordsError::Usage),
        },
        Err(error) => Err(error),
    }
}
