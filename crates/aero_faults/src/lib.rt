//! What is wrong with a malformed line, and what stands in the way of an ill-formed event, in sentences.
//!
//! The verdict on a faulty trace has a line and a fault. Whoever looks at the trace again, up to that
//! line, can say more. A `Search` is made of the fault and the event on the line, is handed the events
//! before it, one by one, and tells the `Hindrance`: who holds the lock and since which line, or where
//! the thread acted, was forked or joined. It keeps a name and some numbers, however many events come.
//! `append_ill_formed` and `append_malformed` make the sentence of a `Look`. Where nothing was seen
//! that explains the fault, it is the fault in words.
//!
//! ```text
//! let search = Search::new(ShapeFault::LockHeldByOther, event)     // T2|acq(l)
//!     .see(alloc, 1, &first)?;                                     // T1|acq(l)
//! if let (event, Some(hindrance)) = search.finish() {
//!     let look = Look::Event(event, hindrance);
//!     append_ill_formed(&mut text, ShapeFault::LockHeldByOther, &look)?;
//! }
//! // T2 acquires l, which T1 holds since line 1
//! ```
//!
//! # What is proved
//!
//! - What a search tells stands in the event's way, after the events that it has seen, as defined for each fault: `Search::new`,
//!   `see`, `finish`; `seen`, `hinders`. Where it tells nothing is said by `value`.
//! - Who holds a lock, as long as no event clashes with those before it, and the line of the outermost acquire that isn't
//!   released: `Holder::after`.
//! - The first event that joined a thread, or with which it came too late to fork it: `first_after`. How many blocks of a
//!   thread are open: `opened_after`.
//! - What a second reading of a text shows at a faulty line is there: the line with that fault, or its event and what
//!   stands in its way after those before it. `line_at`; `malformed_look`, `ill_formed_look`. That something is shown
//!   where it is there, tests show.
//! - The sentences are byte by byte as defined: `append_malformed`, `append_ill_formed`; `append_line`,
//!   `append_hindrance`.
#![tactic(auto)]

mod deeds;
mod fields;
pub mod first;
pub mod hindrance;
pub mod holder;
pub mod look;
pub mod opened;
pub mod reading;
pub mod search;
mod short;
pub mod texts;
