//! A bounded queue of jobs, with one `Poster` and several `Taker`s.
//!
//! The `Poster` posts jobs, and stops, each of which ends a `Taker`. It can take jobs back. A `Taker`
//! takes jobs until it meets a stop. Each take hands out the front of the queue. Whatever the ends
//! do, on whatever threads and in whatever order, a job that was posted is in the queue, was taken
//! back or is in one `Taker`'s hand, each as often as it was posted, and in the order of the posts.
//! A call that finds the queue full gives the job back. A `Job` is the number and the question of a run: nothing else
//! goes through such a queue, so it has no type parameter. What clauses say of a full or an empty queue
//! is said as far as the `Poster` can know: while a `Taker` is out, any queue could be empty for it, and
//! any to which it has posted as much as there are places could be full.
//!
//! `specs/Rule.antt` is the rule that each change of the queue keeps, and the functions of `laws` say
//! which step of the schedule of `aero_pieces` each change is. Nothing is said of waiting: not that
//! a take returns, nor which `Taker` gets which job.
//!
//! ```text
//! let (mut poster, mut takers) = stage(alloc, 2, 1)?;
//! let mut taker = takers.remove(0);
//! assert!(rt; poster.post(&rt, Job { number: 7, question }).is_ok());
//! assert!(rt; poster.stop(&rt));
//! assert_eq!(rt; taker.take(&rt).map(|job| job.number), Some(7));
//! assert!(rt; taker.take(&rt).is_none());
//! poster.rejoin(taker);
//! assert!(rt; poster.take_back(&rt).is_none());
//! ```
//!
//! # What is proved
//!
//! - On one queue each job posted is in the queue, was taken back or is in one taker's hand. It is there as often as it
//!   was posted, in the order of the posts: `stage`; `Poster::post`, `stop`, `take_back`, `rejoin`; `Taker::take`.
//! - Each take hands out the front of the queue: `Taker::take`, `took`; `take_back`, `back`.
//! - `Full` and `None` come only where the queue was full, or empty, at a moment of the call, as far as the poster can
//!   know: `post`, `full`; `stop`; `take_back`, `empty`.
//! - After `None` every take gives `None`: `Taker::take`, `over` and `took`.
//! - A new queue is the start of a schedule, and each change of it a step, of which the laws of `aero_pieces` speak:
//!   `laws`.
//!
//! No contract says that `Poster::post`, `stop`, `take_back` or `Taker::take` returns.
#![tactic(auto)]

mod ends;
mod job;
pub mod laws;
mod rule;

pub use ends::{Full, Poster, Taker, stage};
pub use job::Job;
