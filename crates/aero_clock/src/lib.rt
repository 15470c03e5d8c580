//! Vector clocks: a number for each thread, 0 at first.
//!
//! A clock is compared with another in every place, and joined with it by taking the greater
//! number in every place.
//!
//! ```text
//! let mut mine = Clock::new(alloc);
//! mine.raise(2)?;
//! let mut theirs = mine.copy()?;
//! theirs.raise(0)?;
//! assert!(rt; mine.at_most(&theirs) && !theirs.at_most(&mine));
//! mine.join(&theirs)?;
//! assert_eq!(rt; mine.get(0), 1);
//! ```
//!
//! # What is proved
//!
//! What contracts see of a clock is its number at each thread.
//!
//! - A new clock has 0 at each thread, and `get` gives the number at one: `Clock::new`, `get`.
//! - `at_most` returns whether no number is greater than the other clock's at the same thread.
//! - `join` takes the greater number at each thread, and `raise` adds 1 at one thread. A refused call changes no
//!   number. Neither is refused where it makes no thread's 0 a greater number: `ok`, `err`, `room`.
//! - `copy` and `copy_from` give a clock with the same numbers.
//! - `pairs` lists exactly the threads whose number isn't 0, with their numbers.
#![tactic(auto)]

pub mod clock;
mod pairs;

pub use clock::Clock;
