//! The verdict on a trace: serializable, pending, or the first line with which something is wrong.
//!
//! A trace comes as parts, one after the other, and each part says what its block of lines holds.
//! The events are numbered and checked against the rules for well-formed traces, one after another,
//! and limits bound how many lines, threads and names a trace may have. First places (`Leads`) tell the
//! first event with which a cycle closes that begins in an open block: it stands for an execution that
//! no execution of whole blocks, one after another, has the same conflicts as.
//!
//! ```text
//! // T1|begin, T1|w(x) and T1|end, on three lines
//! let verdict = check_trace(alloc, &parts, &Limits::greatest(), &except)?;
//! assert!(rt; matches!(verdict, Verdict::Serializable { events: 3, blocks: 1 }));
//! ```
//!
//! `Monitor` is the same check of a trace that comes part by part, and `monitor` shows how a program judges
//! events with it that it sees. What shows a verdict is found above, in aero_judge.
//!
//! # What is proved
//!
//! - The verdict is exact for all parts, limits and labels. It is the first malformed line or ill-formed event; or a
//!   violation at the first event with which a telling cycle closes, and its opener; or the counts. No fault of it is
//!   want of memory. By `check_trace`, and by any engine `check_trace_by`: `verdict`, `own_fault`.
//! - The same of a trace that comes part by part. A `Monitor` has exactly the rules that it was made with and the parts
//!   that it was fed, in that order: `Monitor::new`, `rules`, `none`; `feed`, `rules`, `fed`.
//! - `feed` returns whether the verdict is certain: then something is wrong, and the verdict is this whatever follows, and
//!   what shows a violation is the same.
//!   It stays certain, also where memory is refused. Else nothing is wrong yet, but for one line too many at most:
//!   `told`, `certain`, `going_on`, `stays`.
//! - `certain` gives that verdict, if there is one: `same`, `certain`.
//! - `finish` gives the verdict on exactly the parts that were fed: `verdict`, `own_fault`. It refuses a monitor that is
//!   spent, as `feed` leaves it where memory was refused, and, if no blocks are to end, no other: `spent` of both. Where they
//!   are, it may also be refused memory for their ends; that it isn't otherwise is shown by tests alone.
//! - If its rules say so, blocks that are open end: before their thread is joined, on the line of the join, and, if no
//!   line is malformed, at the end, on the line after the last. Their ends are events that count: `Monitor::ruled`, `rules`.
//! - `check_trace`, `check_trace_by` and `serial_order` feed their parts to a monitor: `feed_all`.
//! - There is a serial order exactly if the verdict is `Serializable` or `Pending` and the graph has no cycle. It is
//!   returned by the lines of first events: `serial_order`, `exact`, `serializable`, `lines`.
//! - With the verdict a monitor gives what judged the events: the names are theirs, and the engine stands for them and
//!   keeps them, up to one that closes a cycle. The same of a verdict that is certain: `into_verdict`, `tells`; `checker`.
//! - If it keeps transactions, they come with a verdict `Serializable`, in the serial order, each by the line and the
//!   thread of its first event: `finish_in_order`, `told`, `own_fault`. `steps_in_order` finds the same of the
//!   transactions that another engine kept: `told`, `same`.
//! - The actor of the event on a line is returned, whatever the limits, if there is one: `actor_at`.
//! - `InOrder`, first places with the transactions, is an engine too: of the events that it is given it tells what the
//!   definitions say. By `Engine::judge`, `told`.
//! - It keeps the line and the thread of the first event of each transaction, also of the event that closes a cycle. By
//!   `Engine::judge`, `kept`.
//! - All parts have exactly one verdict. `Serializable` means that there is no cycle at all, a violation that there is
//!   one, and with open blocks each cycle passes two of them: `laws`.
//! - If blocks that are open end, no verdict is `Pending`, and `Serializable` means that there is no cycle without
//!   those ends either: `finish`, `hides_nothing`; `laws`.
#![tactic(auto)]

mod actor;
mod blocks;
mod check;
mod checker;
mod ended;
mod first_steps;
mod ghost_parts;
pub mod in_order;
mod known;
pub mod laws;
pub mod monitor;
pub mod named;
mod numbering;
mod on_line;
mod serial;

pub use actor::actor_at;
pub use aero_engine::engine;
pub use check::{check_trace, check_trace_by};
pub use checker::Checker;
pub use in_order::InOrder;
pub use monitor::{Monitor, feed_all};
pub use numbering::Numbering;
pub use serial::{serial_order, steps_in_order};
