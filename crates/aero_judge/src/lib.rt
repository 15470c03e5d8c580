//! What is found of a trace on the terms that are asked for: the verdict, and what shows it.
//!
//! That is the telling cycle of a violation, event by event, the blocks that are open at the end, or the serial order. A `Judge`
//! is a monitor of aero_verdict whose engine keeps what the terms ask for: `Recorder` the events, `InOrder` the transactions,
//! `InFull` both.
//!
//! ```text
//! // T1|begin, T1|w(x), T2|w(x) and T1|r(x), on four lines, to be explained
//! let finding = judge_trace(alloc, &parts, &terms)?;
//! assert!(rt; matches!(finding, Finding::Explained(Verdict::Violation { line: 4, begun: 1, .. }, _)));
//! ```
//!
//! # What is proved
//!
//! - A `Judge` finds what its terms ask for of the parts that it was fed, though none was kept, and `judge_trace` finds the
//!   same of parts at once: the verdict, and no fault of it is want of memory. If the order is asked for, the transactions
//!   come with a verdict `Serializable`, in the serial order, each by the line and the thread of its first event. If the
//!   verdict is to be explained, a telling cycle comes with `Violation`, and the first 64 open blocks with `Pending`:
//!   `Judge::new`, `feed`, `feed_text`, `feed_all`, `finish`, `finding`, `own_fault`; `judge_trace`.
//! - Its verdict alone, and whether one is certain, are those of a monitor: `verdict`, `certain`, `is_certain`.
//! - The cycle is one of the events up to the closing one, begins in the block that the verdict names, and none from there
//!   has fewer visits. Each event comes with its line and that of the first event of its transaction. With them come the
//!   transactions of the cycle, each with its thread, its line, and as a block with its label and, if it has ended, the line
//!   of its end, and the closing event. Each open block comes with its thread, and with the line and the label of its begin,
//!   in the order of their begins: `IsTraceFinding`.
//! - A judge that is to explain shows a violation as soon as it is certain, and goes on: `Judge::explain`.
//! - `Recorder`, first places with the events, and `InFull`, with the events and the transactions, are engines too: of the
//!   events that each is given it tells what the definitions say. By `Engine::judge`, `told`.
//! - They keep something of each event that they are given, also of the one that closes a cycle: `Recorder` each event with
//!   its line and its label, `InFull` also the line and the thread of each transaction's first event. By `Engine::judge`,
//!   `kept`.
#![tactic(auto)]

mod event_words;
mod explained;
pub mod full;
pub mod judge;
mod opened;
pub mod recorder;
mod shown;
mod spans;
mod sweep;

pub use full::InFull;
pub use judge::{Judge, judge_trace};
pub use recorder::Recorder;
