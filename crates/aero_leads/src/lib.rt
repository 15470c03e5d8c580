//! First places: to which event of each thread an open block leads first.
//!
//! Where a thread's block leads to an event, it leads to each later event of the same thread. So
//! for a thread and an open block the least place of an event of that thread to which the block
//! leads says all: the block leads to the last write of a variable exactly where that place is
//! the write's or an earlier one, and so for last reads, last releases and last events of threads.
//! Of each of these the thread that made it and its place are enough, and no clock is kept.
//!
//! `Leads` keeps that for each thread as a row, the open blocks that lead to the thread with the place
//! from which on they do, and finds what `Clocks` and `end` find together: which open block closes a cycle
//! with an event, if one does.
//!
//! - A thread that takes an event is closed where its own open block leads there. Else what leads to
//!   the event leads to the thread from now on.
//! - A begin is the first place of its block, and a fork gives all that leads to the thread.
//! - A read that no open block leads to is forgotten where its variable is read again: what comes to lead to its thread
//!   leads to later events of it alone. A thread's earlier reads may stay, since what leads to them leads to the write.
//! - At an end, what leads to the block leads to all that the block led to, each from where the block
//!   did, and the block leaves all rows. No variable and no lock is looked at.
//!   What led to the block before it led on to another thread leads there already, and is passed over. Each row has a
//!   block once, and whoever is listed with a block knows where it stood in the row, so no row is gone through to take
//!   it out unless its lead was moved.
//!
//! ```text
//! let mut leads = Leads::new(alloc);
//! leads.begin(0)?;
//! leads.begin(1)?;
//! leads.write(1, 1)?;
//! leads.write(0, 0)?;
//! leads.read(1, 0)?;
//! leads.read(0, 1)?;
//! assert_eq!(rt; leads.end(0), Ok(Some(1)));
//! ```
//!
//! # What is proved
//!
//! All is said of each well-formed trace for which `Leads` stands. A new one stands for no event: `Leads::new`.
//!
//! - After an event a thread is returned exactly where the event closes the first telling cycle, and it is the opener,
//!   at an end the least. Where none is returned, `Leads` stands for the longer trace. So of every event, an outermost
//!   end among them: `follows` of `read`, `write`, `acquire`, `release`, `fork`, `join`, `begin`, `plain` and `end`.
//! - After a thread was returned, and after a refused call, the tests `in_block`, `begins` and `acted` return what they
//!   did before. After a refusal each later call refuses: `answers` of the same calls.
//! - The place of the first event of a thread to which an open block leads: `Leads::least_place`. That tells to which of the
//!   thread's events one does: `laws`.
#![tactic(auto)]

mod back;
mod beside;
mod engine;
mod gaining;
mod highs;
mod index;
mod kept;
mod last;
pub mod laws;
pub mod leads;
mod least;
mod led;
mod lows;
mod news;
mod passed;
mod row;
mod seen;
mod spreading;
mod table;
mod thread;
mod variable;

pub use leads::Leads;
