//! Values in the order in which they were asked for.
//!
//! Answers come in any order, some more than once, some to questions that nobody asked, and some
//! not at all. A `Gather` holds the questions that are open, as many as its window at most, keeps the
//! first answer to each, and gives their values, the oldest question's first. What no answer came
//! for it works out itself.
//!
//! `specs/Gathered.antt` says what each call does. A call is one step of a schedule, of which the
//! laws of `aero_pieces` speak: whatever happens, the values come in the order of the questions.
//!
//! ```text
//! let mut gather = Gather::new(alloc, 8)?;
//! gather.ask(first)?;
//! gather.ask(second)?;
//! gather.accept(answer_of_second);
//! assert_eq!(rt; gather.oldest(), Oldest::Awaited);
//! gather.accept(answer_of_first);
//! let value_of_first = gather.settle()?;
//! ```
//!
//! # What is proved
//!
//! - A question is asked exactly where the window has room, and the ticket has its number. A refused one is given back,
//!   and nothing changes: `Gather::ask`, `ticket`, `room`, `asked`, `full`, `unchanged`, `returned`.
//! - An answer is kept for the oldest open question of the same content that waits for one: `accept`.
//! - Values are given in the order asked, each a value of its question, and on request the question with it: `settle`,
//!   `settle_with_question`, `settled`, `known`, `question`. A refused call changes nothing: `unchanged`.
//! - A note that a question's answer is missed says whether it was news: `note_missed`, `news`, `noted`.
//! - How the oldest question stands, which it is, its ticket, how many are open, and the counts are as defined: `oldest`,
//!   `front`, `oldest_ticket`, `len`, `tally`.
//! - Each call is a step of the schedule of which the laws of `aero_pieces` speak, and the values come in the order of
//!   the questions: `laws`.
#![tactic(auto)]

pub mod gather;
pub mod laws;
mod open_question;

pub use gather::{Accepted, Gather, Oldest, Settled, Tally, Ticket, WindowFull};
