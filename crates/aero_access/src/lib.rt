//! Clocks of a logged execution, by which a violation of atomicity is found as it happens.
//!
//! A block is what a thread does between an outermost begin and its end. `Clocks` is given the
//! events one by one, threads, variables and locks by their numbers. For each thread, each last
//! write, read and release it keeps a clock: how many blocks of each thread lead there. An event
//! takes the clocks of what it conflicts with. Where one of them counts the open block of the
//! event's own thread, there is a telling cycle through that block, and the thread is returned.
//!
//! A cycle of blocks is a telling one where each of them but the first has ended, or is left by no
//! earlier event than it was entered by. A cycle that isn't is told when enough of its blocks have
//! ended, so that `None` doesn't say that there is no cycle.
//!
//! `led` and `led_slot` list what an open block leads to: the slots whose clocks count it. The lists
//! are kept while events come, so that the end of a block has to look at nothing else.
//!
//! The contracts speak of the trace of the events so far: what is returned is what is to be told,
//! so `None` is returned exactly where the trace has no telling cycle. `aero_engine::laws` has the laws of
//! such clocks, whatever keeps them.
//!
//! ```text
//! let mut clocks = Clocks::new(alloc);
//! clocks.begin(0)?;
//! clocks.write(0, 7)?;
//! clocks.read(1, 7)?;
//! clocks.write(1, 8)?;
//! // Thread 0's block comes before what thread 1 wrote, and after it.
//! assert_eq!(rt; clocks.read(0, 8), Ok(Some(0)));
//! ```
//!
//! # What is proved
//!
//! All is said of each well-formed trace for which the clocks stand. New ones stand for no event: `Clocks::new`,
//! `stands`.
//!
//! - After an event a thread is returned exactly where the event closes the first telling cycle, and it is the opener.
//!   Where none is returned, the clocks stand for the longer trace. So of every event but an outermost end: `follows`
//!   of `read`, `write`, `acquire`, `release`, `fork`, `join`, `begin` and `plain`.
//! - After a thread was returned, and after a refused call, the tests `in_block`, `begins` and `acted` return what they
//!   did before. After a refusal each later call refuses: `answers` of the same calls.
//! - While no memory was refused, the slots whose clocks count an open block are listed, each once, the threads first
//!   and rising: `led`, `led_slot`.
//! - For the end of a block: a slot takes the clock of the block's thread, or the thread whose block closes is
//!   returned, and the block is closed. By `absorb`, `told` and `absorbed`; `close_block`, `closes`.
#![tactic(auto)]

mod changes;
mod clock_rules;
pub mod clocks;
mod entries;
mod index;
mod kept;
mod places;
mod readers;
mod table;
mod thread;

pub use aero_engine::slot;
pub use clocks::Clocks;
