// The words of the command line.
mod labels;
mod refused;

use aero_program::command::{Config, Refused, Sources};
use aero_words::words::settle_words;
use std::alloc::{AllocError, Global};

// The helpers below say that a row doesn't hold where memory is refused.

pub(crate) type Words = &'static [&'static str];

pub(crate) fn owned_words(alloc: Global, words: &[&str]) -> Result<Vec<String>, AllocError> {
    let mut all = Vec::new(alloc);
    for word in words {
        all.push(String::from_str(alloc, word)?)?;
    }
    Ok(all)
}

pub(crate) fn settled(alloc: Global, words: &[&str]) -> Result<Config, Refused> {
    let words = owned_words(alloc, words)?;
    settle_words(alloc, &words)
}

// Words, and how many workers, reads of how many bytes and which files they ask for.
type Taken = (Words, u32, u32, Words);

// Whether these files are asked for, or standard input where there are none.
fn are_files(sources: &Sources, wanted: &[&str]) -> bool {
    match sources {
        Sources::Standard(name) => name.is_none() && wanted.is_empty(),
        Sources::Files(files) => are_same(files, wanted),
        Sources::Listed(_) => false,
    }
}

fn are_same(files: &[String], wanted: &[&str]) -> bool {
    let mut are_same = files.len() == wanted.len();
    for (file, expected) in files.iter().zip(wanted) {
        are_same &= file.as_str() == *expected;
    }
    are_same
}

fn is_taken(alloc: Global, row: &Taken) -> bool {
    let Ok(config) = settled(alloc, row.0) else {
        return false;
    };
    config.workers == row.1 && config.piece == row.2 && are_files(&config.files, row.3)
}

// The first row that doesn't hold.
fn first_mistaken(alloc: Global, rows: &[Taken]) -> Option<usize> {
    for i in 0..rows.len() {
        if !is_taken(alloc, &rows[i]) {
            return Some(i);
        }
    }
    None
}

static TAKEN: [Taken; 8] = [
    (&[], 4, 65_536, &[]),
    (&["--workers", "2", "a", "b"], 2, 65_536, &["a", "b"]),
    (&["a", "--workers=16", "b"], 16, 65_536, &["a", "b"]),
    (&["--piece", "1", "--workers", "1"], 1, 1, &[]),
    (&["--piece=1048576"], 4, 1_048_576, &[]),
    (&["--", "--x"], 4, 65_536, &["--x"]),
    (&["-"], 4, 65_536, &["-"]),
    (&["a", "a", "none", ""], 4, 65_536, &["a", "a", "none", ""]),
];

#[test]
fn the_words_that_are_taken(rt: HostRuntime) {
    assert_eq!(rt; first_mistaken(rt.alloc(), &TAKEN), None);
}

// What is told of the words, and how many files they name where they are taken.
pub(crate) fn told_of(told: &Result<Config, Refused>) -> (&'static str, usize) {
    match told {
        Ok(config) => ("taken", config.files.named().len()),
        Err(Refused::Help(_)) => ("help", 0),
        Err(Refused::Usage(_)) => ("usage", 0),
        Err(Refused::TooManyFiles) => ("too many files", 0),
        Err(Refused::BadLabel) => ("bad label", 0),
        Err(Refused::TooManyLabels) => ("too many labels", 0),
        Err(Refused::Memory) => ("memory", 0),
    }
}

// A word, how often it stands, the words behind it, what is told of them all, and how many files.
pub(crate) type Counted = (&'static str, usize, Words, &'static str, usize);

fn many_words(
    alloc: Global,
    word: &str,
    count: usize,
    last: &[&str],
) -> Result<Vec<String>, AllocError> {
    let mut all = Vec::new(alloc);
    for _ in 0..count {
        all.push(String::from_str(alloc, word)?)?;
    }
    for word in last {
        all.push(String::from_str(alloc, word)?)?;
    }
    Ok(all)
}

fn settled_many(alloc: Global, word: &str, count: usize, last: &[&str]) -> Result<Config, Refused> {
    let words = many_words(alloc, word, count, last)?;
    settle_words(alloc, &words)
}

fn is_counted(alloc: Global, row: &Counted) -> bool {
    let (told, files) = told_of(&settled_many(alloc, row.0, row.1, row.2));
    told == row.3 && files == row.4
}

// The first row that doesn't hold.
pub(crate) fn first_miscounted(alloc: Global, rows: &[Counted]) -> Option<usize> {
    for i in 0..rows.len() {
        if !is_counted(alloc, &rows[i]) {
            return Some(i);
        }
    }
    None
}
