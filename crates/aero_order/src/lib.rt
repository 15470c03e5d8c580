//! The serial order of the transactions of a trace.
//!
//! Transactions are numbered in the order of their first events. An edge leads from one to another
//! where near events do: the last of a thread, a variable or a lock and the next. `least_order`
//! goes along such edges and takes, each time, the least number that may come. It groups the edges by
//! counting, without a sort, and keeps the numbers that may come in a heap. The `laws` say that this
//! is the serial order, though conflicts have many more edges. `Transactions` gathers numbers and edges
//! event by event.
//!
//! ```text
//! // Number 2 comes before 1, and 0 before both.
//! let order = least_order(alloc, 3, &[(0, 2), (2, 1)])?;
//! assert!(rt; order.as_slice() == [0, 2, 1].as_slice());
//! ```
//!
//! # What is proved
//!
//! - Of the numbers below a count, each time the least is next to which no edge leads from one that isn't there yet:
//!   `least_order`.
//! - After the events of a well-formed trace there is an order exactly where its graph has no cycle. It has the first
//!   events of the transactions, in the serial order: `Transactions::order`, `exact` and `serial`; `new`, `add`. Each comes
//!   with the line and the thread with which it was added, and an event counts also where memory is refused: `kept` of
//!   `add` and `order`, `counted`.
//! - Near events conflict, and in a well-formed trace chains of them lead wherever a conflict does. The order along
//!   near edges is the serial order. It has every transaction exactly where it is as long as there are transactions:
//!   `laws`.
#![tactic(auto)]

pub mod first;
mod free;
pub mod laws;
mod lookup;
mod marks;
pub mod order;
mod targets;
pub mod transactions;

pub use order::least_order;
pub use transactions::Transactions;
