//! What judges a trace event by event, and what it may tell.
//!
//! `Engine` is what a checker asks. An engine that has a call for each kind of event is `ByKind`, and
//! `judge` makes the call that an admitted event asks for.
//!
//! The definitions say what is to be told with an event: the first telling cycle, by its closing event and
//! its opener. They also say which event is the last one of a thread, variable or lock (`Slot`), whose
//! clocks an event takes, how clocks go on by these rules, and what they name.
//!
//! ```text
//! let mut engine = Leads::new(alloc);
//! let event = Numbered { thread: 0, what: What::Write(7) };
//! let told = judge(&mut engine, &event, Admitted::Plain { in_block: false })?;
//! ```
//!
//! # What is proved
//!
//! - Any engine that takes events by kinds judges each admitted event as `Engine` asks: `by_kind::judge`.
//! - Laws of the rules over whole runs. Clocks exist, count exactly the blocks that lead to an event, miss nothing, and
//!   name the opener. What is judged begins a telling cycle, and a begin clock is a test: `laws`.
#![tactic(auto)]

pub mod by_kind;
pub mod engine;
pub mod laws;
pub mod slot;
pub mod spent;

pub use by_kind::ByKind;
pub use engine::Engine;
pub use slot::Slot;
pub use spent::Spent;
