//! A crew of workers, which answer questions in threads of their own.
//!
//! A `Crew` holds a queue of jobs. Each of its workers takes a job, works out the answer of its
//! question, and sends a `Reply`, until the crew is closed. A job's number is its poster's own, and
//! the workers keep account of the numbers that they take: after `close` each number that was posted
//! stands in the list of one worker, or among those that were left, as often as it was posted.
//!
//! Memory for the jobs, for the replies and for what is let go is taken where the crew starts. A worker to which
//! memory is refused later says that it missed its job, or takes no more jobs, and a reply needs no memory: so a
//! run in which memory stays refused ends.
//!
//! `Crew::let_go` hands a question that was settled to the workers, so that one of them frees it.
//!
//! A `Gate` is a caller's own code, which each worker runs before it works an answer out, and after.
//!
//! `Helpers` are whoever takes jobs and may reply, of whom nothing is promised: a `Crew`, or a caller's own.
//!
//! Of a reply its type alone tells something: the answer that it holds is that of the question which
//! the answer carries. Nothing is promised on how many replies come, in what order, from which worker
//! or when, nor that a call which waits returns.
//!
//! ```text
//! let mut crew = Crew::start(rt, alloc, 2, Arc::new(alloc, NoGate)?)?;
//! crew.post(&rt, Job { number: 0, question })?;
//! match crew.next_answer(&rt) {
//!     Some(Reply::Done(answer)) => keep(answer),
//!     Some(Reply::Missed(number)) => work_out_here(number),
//!     None => work_all_out_here(),
//! }
//! let CrewReport { by_worker, left } = crew.close(&rt);
//! ```
//!
//! # What is proved
//!
//! - A crew has no more workers than asked for, and says how many it has: `Crew::start`, `start_with`, `workers`.
//! - A job posted is noted by its number. One that isn't is given back, nothing changes, and at least 64 were posted
//!   before: `Crew::post`, `posted`, `full`, `places`.
//! - After a crew is closed, its workers' lists, one a worker, and what was left have together each number as often as
//!   it was posted: `Crew::close`, `workers`, `each`.
//! - Each of these lists is in the order of the posts: `Crew::close`, `left`, `by_worker`. Where the numbers posted
//!   rise so does each list: `laws`.
//!
//! No contract says that `Crew::start`, `start_with`, `post`, `next_answer` or `close` returns. `ready_answer` and
//! `let_go` wait for no message, but that they return isn't proved.
#![tactic(auto)]

mod crew;
mod gate;
mod helpers;
pub mod laws;
mod reply;
mod seed;
mod shift;

pub use crew::{Crew, CrewReport};
pub use gate::{Gate, NoGate};
pub use helpers::Helpers;
pub use reply::{Reply, reply_with};
