use sg_command::{Command, WordsError, read_command, read_paths};
use std::alloc::{AllocError, Global};
use std::test::Fail;

const A_RUN: Command = Command::Run { stop_after: None };

const TO_THE_LAST: Command = Command::Run {
    stop_after: Some(18446744073709551615),
};

// Words with spaces between, and what they ask for.
const ASKED: [(&str, Command); 14] = [
    ("init d", Command::Init { geometry: false }),
    ("init d --geometry f", Command::Init { geometry: true }),
    ("init --geometry f d", Command::Init { geometry: true }),
    ("init d --geometry=f", Command::Init { geometry: true }),
    ("run d", A_RUN),
    ("run run", A_RUN),
    (
        "run d --stop-after 0",
        Command::Run {
            stop_after: Some(0),
        },
    ),
    ("run d --stop-after 18446744073709551615", TO_THE_LAST),
    ("run -- -d", A_RUN),
    ("dump d", Command::Dump),
    ("check d", Command::Check),
    ("log d", Command::Log),
    ("gen 0 1", Command::Gen { seed: 0, count: 1 }),
    (
        "gen 18446744073709551615 1000000",
        Command::Gen {
            seed: 18446744073709551615,
            count: 1000000,
        },
    ),
];

// Words that ask for nothing.
const REFUSED: [&str; 24] = [
    "frob",
    "run",
    "init",
    "dump",
    "log",
    "check",
    "run d e",
    "run -d",
    "run d --stop-after",
    "run d --stop-after x",
    "run d --stop-after 18446744073709551616",
    "run d --stop-after 184467440737095516150",
    "run d --stop-after 1 --stop-after 2",
    "run d --geometry f",
    "init d --stop-after 1",
    "dump d --geometry f",
    "gen 1",
    "gen 1 0",
    "gen 1 1000001",
    "gen x 1",
    "gen 1 2 3",
    "help",
    "run --help",
    "d run",
];

// The words of a line.
fn words_of(alloc: Global, line: &str) -> Result<Vec<String>, AllocError> {
    let mut words = Vec::new(alloc);
    for word in line.split(' ') {
        words.push(String::from_str(alloc, word)?)?;
    }
    Ok(words)
}

fn is_asked(alloc: Global, line: &str, command: Command) -> Result<bool, AllocError> {
    let words = words_of(alloc, line)?;
    Ok(read_command(alloc, &words) == Ok(command))
}

fn first_asked(alloc: Global) -> Result<Option<usize>, AllocError> {
    for (i, (line, command)) in ASKED.iter().enumerate() {
        if !is_asked(alloc, line, *command)? {
            return Ok(Some(i));
        }
    }
    Ok(None)
}

#[test]
fn words_are_read(rt: HostRuntime) -> Result<(), Fail> {
    assert_eq!(rt; first_asked(rt.alloc())?, None);
    Ok(())
}

fn is_refused(alloc: Global, line: &str) -> Result<bool, AllocError> {
    let words = words_of(alloc, line)?;
    Ok(read_command(alloc, &words) == Err(WordsError::Usage))
}

fn first_refused(alloc: Global) -> Result<Option<usize>, AllocError> {
    for (i, line) in REFUSED.iter().enumerate() {
        if !is_refused(alloc, line)? {
            return Ok(Some(i));
        }
    }
    Ok(None)
}

#[test]
fn other_words_are_refused(rt: HostRuntime) -> Result<(), Fail> {
    assert_eq!(rt; first_refused(rt.alloc())?, None);
    Ok(())
}

#[test]
fn no_words_are_refused(rt: HostRuntime) {
    let words = Vec::new(rt.alloc());
    assert!(rt; read_command(rt.alloc(), &words) == Err(WordsError::Usage));
}

// Whether the words name this folder and this file.
fn are_named(
    alloc: Global,
    line: &str,
    dir: Option<&str>,
    file: Option<&str>,
) -> Result<bool, AllocError> {
    let words = words_of(alloc, line)?;
    match read_paths(alloc, &words) {
        Ok(paths) => Ok(paths.dir == dir && paths.file == file),
        Err(_) => Ok(false),
    }
}

#[test]
fn paths_are_named(rt: HostRuntime) -> Result<(), Fail> {
    let alloc = rt.alloc();
    assert!(rt; are_named(alloc, "run store", Some("store"), None)?);
    assert!(rt;
        are_named(
            alloc,
            "init store --geometry sizes",
            Some("store"),
            Some("sizes")
        )?
    );
    assert!(rt; are_named(alloc, "gen 1 2", None, None)?);
    Ok(())
}
