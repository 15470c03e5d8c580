//! Questions about a trace, and their answers.
//!
//! A question asks what a block of lines says, or what the verdict on a whole trace is. It carries
//! all that its answer depends on, so that any worker can answer it, at any time and more than once,
//! and always with the same value. An `Answer` holds a question with its value, and nothing but
//! `Question::answer` makes one: whoever has an answer has a true one.
//!
//! `specs/Schedule.antt` says what may happen to questions, jobs and answers, in any order, and the
//! functions of `laws` say what holds whatever happens.
//!
//! ```text
//! let bytes = Bytes::new(b"T1|r(x)".to_vec(alloc)?).ok_or("too many bytes")?;
//! let question = Question::Parse { trace: 0, number: 0, bytes }.share(alloc)?;
//! let answer = Question::answer(&question, alloc)?;
//! assert!(rt; same(answer.question(), &question));
//! ```
//!
//! # What is proved
//!
//! - The value of a question is what its block says, or the finding on its trace, as the definitions say:
//!   `Question::value`.
//! - An answer carries its question with such a value: `Question::answer`. Nobody can make one that lies: the invariant
//!   of `Answer`, and `Answer::value` and `into_value`, `known`.
//! - Two questions are the same exactly where their content is: `same`.
//! - `laws` speak of every schedule of questions and jobs, with answers that are lost, repeated or forged. Values come
//!   in the order asked: `values_are_given_in_the_order_of_the_questions`.
//! - Each job posted is in the queue, in one hand or taken back: `each_posted_job_is_in_one_place`.
#![tactic(auto)]

pub mod answer;
mod equal;
pub mod laws;
pub mod question;

pub use answer::{Answer, Value};
pub use equal::same;
pub use question::{Bytes, Parts, Question};
