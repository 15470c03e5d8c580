// Labels from words.
use crate::words::{Counted, Words, first_miscounted, owned_words, settled, told_of};
use aero_model::Name;
use aero_program::command::{Config, Refused};
use aero_words::words::settle_words;
use std::alloc::{AllocError, Global};

fn are_labels(labels: &[Name], wanted: &[&str]) -> bool {
    let mut are_same = labels.len() == wanted.len();
    for (label, expected) in labels.iter().zip(wanted) {
        are_same &= label.bytes() == expected.as_bytes();
    }
    are_same
}

// Whether words ask for these labels, in this order.
fn is_labelled_so(alloc: Global, words: &[&str], wanted: &[&str]) -> bool {
    match settled(alloc, words) {
        Ok(config) => are_labels(&config.except, wanted) && config.only.is_empty(),
        Err(_) => false,
    }
}

// The same of labels of the only transactions.
fn is_named_so(alloc: Global, words: &[&str], wanted: &[&str]) -> bool {
    match settled(alloc, words) {
        Ok(config) => are_labels(&config.only, wanted) && config.except.is_empty(),
        Err(_) => false,
    }
}

// The first row that doesn't hold.
fn first_mislabelled(alloc: Global, rows: &[(Words, Words)]) -> Option<usize> {
    for i in 0..rows.len() {
        if !is_labelled_so(alloc, rows[i].0, rows[i].1) {
            return Some(i);
        }
    }
    None
}

static LABELLED: [(Words, Words); 5] = [
    (&[], &[]),
    (&["a", "--workers", "1"], &[]),
    (&["--except", "a", "--except", "b"], &["a", "b"]),
    (&["--except=b", "n", "--except", "a"], &["b", "a"]),
    (&["--except", "a b)", "--except", "a"], &["a b)", "a"]),
];

static BAD_LABELS: [Counted; 5] = [
    ("--except", 1, &["a", "--except", ""], "bad label", 0),
    ("--except", 1, &["a", "--except", "a|b"], "bad label", 0),
    ("--except", 1, &["a", "--except", "a\n"], "bad label", 0),
    ("--except", 1, &["a", "--except", "\u{7f}"], "bad label", 0),
    ("--only", 1, &["a", "--only", "a|b"], "bad label", 0),
];

#[test]
fn labels_are_read_in_order(rt: HostRuntime) {
    assert_eq!(rt; first_mislabelled(rt.alloc(), &LABELLED), None);
    assert!(rt; is_named_so(rt.alloc(), &["--only", "b", "n", "--only=a"], &["b", "a"]));
    assert_eq!(rt; first_miscounted(rt.alloc(), &BAD_LABELS), None);
}

// The words of one `--except` with a label of so many bytes.
fn words_with_label(alloc: Global, count: usize) -> Result<Vec<String>, AllocError> {
    let mut label = String::new(alloc);
    for _ in 0..count {
        label.push('a')?;
    }
    let mut words = owned_words(alloc, &["--except"])?;
    words.push(label)?;
    Ok(words)
}

fn settled_label(alloc: Global, count: usize) -> Result<Config, Refused> {
    let words = words_with_label(alloc, count)?;
    settle_words(alloc, &words)
}

// Whether this is told of a label of so many bytes.
fn is_measured(alloc: Global, count: usize, wanted: &str) -> bool {
    told_of(&settled_label(alloc, count)).0 == wanted
}

static LABELS: [Counted; 5] = [
    ("--except=a", 64, &["n"], "taken", 1),
    ("--except=a", 64, &["--except=a"], "too many labels", 0),
    ("--except=a", 65, &["--except="], "bad label", 0),
    ("--only=a", 64, &["n"], "taken", 1),
    ("--only=a", 64, &["--only=a"], "too many labels", 0),
];

#[test]
fn labels_are_measured_and_counted(rt: HostRuntime) {
    let alloc = rt.alloc();
    assert!(rt; is_measured(alloc, 255, "taken") && is_measured(alloc, 256, "bad label"));
    assert_eq!(rt; first_miscounted(alloc, &LABELS), None);
}
