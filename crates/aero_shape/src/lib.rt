//! Says of the events of a trace, one after another, whether the trace is well-formed so far.
//!
//! A `Shape` stands for the list of the events that it has admitted. The next event is admitted
//! and told for what it is (an outermost begin or end, a join of a thread that made no event, or
//! any other), or it is refused with the first cause that holds, and then counts for nothing. The
//! rules are `aero_model`'s `shape_fault`. A begin can be exempt: it and its end are admitted by the
//! same rules, and told as plain events that open and close no block. The list itself is kept
//! nowhere: a few bytes for each thread, each lock and each open exempt block say all that the rules
//! ask of it.
//!
//! ```text
//! let mut shape = Shape::new(alloc);
//! let begin = Numbered { thread: 0, what: What::Begin(None) };
//! assert_eq!(rt; shape.admit(&begin, true), Ok(Admitted::Plain { in_block: false }));
//! assert_eq!(rt; shape.admit(&begin, false), Ok(Admitted::OuterBegin));
//! assert_eq!(rt; shape.admitted(), 2);
//! ```
//!
//! # What is proved
//!
//! All is said of each list of events, each exempt or not, for which the shape stands. A new one stands for no event,
//! and an admitted event is added to the list: `Shape::new`; `Shape::admit`, `ok`.
//!
//! - An event is refused exactly where it isn't well-formed after those admitted before it, with the first cause, but
//!   for want of memory. What it is admitted as is what it is as judged: exempt begins, and the ends that match them,
//!   open and close no block. By `Shape::admit`, `told`.
//! - A refusal changes nothing: `err`.
//! - Memory isn't refused to an event whose numbers are reached by those of admitted events, if it is no exempt begin:
//!   `room`.
//! - No limit on threads or names is looked at here: `threads_unlimited`, `names_unlimited`.
#![tactic(auto)]

pub mod admission;
mod exempt;
mod growth;
mod judge;
mod notes;
mod rules;
pub mod shape;
mod states;

pub use admission::Admitted;
pub use shape::Shape;
