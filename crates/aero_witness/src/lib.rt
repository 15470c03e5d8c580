//! Telling cycles event by event: what shows a violation, and who checks it.
//!
//! A telling cycle is told by its visits. Each is a pair of places in the trace, from 0: where a walk comes into a
//! transaction, and where it goes out of it. From each visit the walk goes on by a conflict to the next, and from the
//! last back to the first. So a list of visits is a certificate that a trace has a violation. `is_telling_cycle` checks
//! one, whoever made it. `shortest_cycle` makes one with as few visits as can be, and `shorten` makes one of another.
//!
//! ```text
//! // T0|begin, T1|begin, T0|w(x), T1|r(x), T1|w(y), T0|r(y): out of T0 at place 2, into T1 at 3, out at 4, back at 5
//! let visits = shortest_cycle(alloc, &events, 0)?;
//! let shown = [Visit { enters: 5, leaves: 2 }, Visit { enters: 3, leaves: 4 }];
//! assert!(rt; visits.as_slice() == shown.as_slice() && is_telling_cycle(alloc, &events, &shown)?);
//! ```
//!
//! Begins and ends that aren't outermost may stand there as such or as `What::Exempt`: by `laws` that changes nothing.
//!
//! # What is proved
//!
//! - It returns true exactly where the visits are a telling cycle of all events, by the definition by which verdicts
//!   are judged: `is_telling_cycle`.
//! - Where a telling cycle begins in a transaction, one is given that begins there, and none that does has fewer visits:
//!   `shortest_cycle`, and with the transactions of the events `shortest_of`.
//! - The same for the transaction of the first of some visits. `None` exactly where these are no telling cycle:
//!   `shorten`.
//! - The transactions of the events, each told by the place of its first event; how deep each thread is at the end, and
//!   where the block began that it is in: `transactions_of`.
//! - Where each begin or end that isn't outermost is recorded as `What::Exempt`, and all else as it is, that has the
//!   transactions and the telling cycles of the trace: `laws`.
//!
//! Which of several shortest cycles is given, no contract says.
//!
//! # What a search costs
//!
//! No contract says it. Each place is reached once, and taken once by each kind of conflict in which its event can be
//! the later one: four of them for a write, and fewer for any other. Those of the transaction where walks begin aren't
//! taken. Of what a level takes what isn't reached yet is sorted, and so is what it reaches. Beside that all events are
//! gone through a fixed number of times, however many visits the cycle has. So the time is at most about that of
//! sorting the events. In memory an event takes 48 bytes, beside what a level takes: 24 for the
//! places before it, 16 for how it is reached, and 8 for its transaction and the next place there.
#![tactic(auto)]

mod basis;
mod buckets;
mod chosen;
mod conflict;
mod kinds;
pub mod laws;
mod left;
mod marks;
mod reached;
mod rounds;
pub mod search;
pub mod telling;
pub mod transactions;
pub mod visit;

pub use search::{Shortest, shorten, shortest_cycle, shortest_of};
pub use telling::{has_ended, is_telling_cycle};
pub use transactions::{TransactionTable, transactions_of};
pub use visit::Visit;
