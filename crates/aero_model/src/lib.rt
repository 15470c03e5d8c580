//! What every part of the checker speaks of: names, events, limits, terms, faults, verdicts and findings.
//!
//! The definitions that a reader has to believe stand in `specs/`: the lines of a text, names and
//! their numbers, the transactions of a trace and the blocks that are none, conflicts and telling
//! cycles, well-formed traces. `laws` proves what they imply of each other. `Counting` is the reader
//! and writer that every call which reads or writes takes, and `GhostCount` a number of the kind
//! that it counts by.
//!
//! ```text
//! let name = Name::read(alloc, b"T1")?;
//! assert_eq!(rt; name.bytes(), b"T1");
//! ```
//!
//! # What is proved
//!
//! - A name that is read is the bytes given, or has their first fault. Memory is refused only to a name of more than 16
//!   bytes: `Name::read`.
//! - Limits are made exactly where none is 0 or above the greatest of its kind: `Limits::new`, `within`. What the
//!   greatest are, and those of long sources, is said by the clauses of `Limits::greatest` and `Limits::long`.
//! - A list of labels is made exactly of up to 64, or of a set of up to 65,536, and has exactly those: `Except::new`,
//!   `all_but`, `of_set`, `few` and `labels`; `has`, `has_bytes`, `place_of`, `is_same`. It says which blocks are left
//!   out: `leaves_out`, `leaves_out_unlabelled`. A `SharedExcept` is the list that it was made of: `new`, `share`, `get`.
//! - Of a `Counting` one number rises by 1 exactly where a read or a write failed. A write that takes none of some
//!   bytes counts as failed. The other rises by 1 exactly where a read found the end. The bytes are those of what is
//!   within, and a flush changes neither number: `read`, `write`, `flush`; `bytes`, `faults`, `ends`.
//! - The terms on which a source is judged are those that were given: `Terms::new`, and each of its calls.
//! - A finding has a verdict exactly if the bytes of its source came whole: `Finding::verdict`. Counting adds 1 to one of four
//!   numbers: `Counts::none`, `Counts::with`.
//! - Each fault has its words: `line_words`, `shape_words`. Nothing is said of the texts that `Display` makes of them.
//! - Laws on cycles. A telling cycle is a cycle, and it stays one. Where all transactions have ended each cycle shows
//!   as a telling one, and a cycle that doesn't passes two open blocks. The first telling cycles begin in open blocks.
//!   The open blocks are those of threads in a block, and where none is counted as open all have ended.
//! - Laws on exempt blocks. Where none is exempt a trace is judged as it was read. The judged depth counts the blocks
//!   that aren't exempt. A well-formed trace is judged as one.
//! - Laws on serial orders. A trace has one, without doubles. It has every transaction exactly where there is no cycle,
//!   and each edge between those that it has goes forwards.
//!
//! Each law is the contract of one function of `laws`.
#![tactic(auto)]

pub mod bytes;
pub mod counting;
pub mod event;
pub mod except;
pub mod ghost_count;
pub mod laws;
pub mod limits;
pub mod name;
pub mod numbered;
pub mod terms;
pub mod verdict;
pub mod words;

pub use counting::Counting;
pub use event::{Event, Op};
pub use except::{Except, SharedExcept};
pub use limits::Limits;
pub use name::{Name, NameFault};
pub use numbered::{Numbered, What};
pub use terms::Terms;
pub use verdict::{
    Counts, Cycle, CycleStep, CycleTransaction, Ending, Extent, Finding, LineFault, OpenBlock,
    ShapeFault, Step, Verdict,
};
