//! The verdict on a text that comes in pieces, whoever brings them.
//!
//! A `Feed` takes the bytes of a trace as they come: lines may be cut anywhere. It says when the verdict is certain,
//! whatever comes, and at the end gives the verdict on exactly the bytes that were fed.
//!
//! ```text
//! let none = SharedExcept::new(alloc, Except::new(Vec::new(alloc)).ok_or("labels")?)?;
//! let mut feed = Feed::new(alloc, Terms::new(Limits::greatest(), none, false, false))?;
//! feed.feed(b"T1|begin\nT1|w(x)\nT2|beg")?;
//! feed.feed(b"in\nT2|r(x)\nT2|w(y)\n")?;
//! feed.is_certain()?;      // false
//! feed.feed(b"T1|r(y)\n")?;
//! feed.is_certain()?;      // true
//! feed.finish()?;          // Violation { line: 6, thread: T1, begun: 1 }
//! ```
//!
//! If the terms ask for an explanation, a feed also shows a violation, as soon as that is certain:
//!
//! ```text
//! let mut feed = Feed::new(alloc, Terms::new(Limits::greatest(), none, false, true))?;
//! feed.feed(b"T1|begin(a)\nT1|r(x)\nT2|w(x)\nT1|w(x)\n")?;
//! feed.explain()?;         // the label a, and the events on the lines 2, 3 and 4
//! ```
//!
//! # What is proved
//!
//! - A feed has exactly the bytes that it was fed, under the rules that it began with: `Feed::new`; `feed`, `text`,
//!   `feeds_on`.
//! - It is told that the verdict is certain only where it is, whatever bytes come, and stays so: `Feed::is_certain`,
//!   `certain`, `feeds_on`. Where the bytes end a line and it isn't told, nothing is wrong with them, but maybe that there
//!   is one line too many: `going_on`.
//! - Once memory was refused no call returns anything else: `feeds_on` of each (`spent`, `stays_spent`, `was_unspent`).
//! - What shows a violation that is certain is a shortest telling cycle of the text, as `judge_trace` finds it. If the terms
//!   ask for no explanation nothing is shown: `Feed::explain`, `shown`.
//! - The verdict is that of the text, as one part: `Feed::finish`. So it is what `check_trace` returns of it.
#![tactic(auto)]

pub mod feed;
mod ghost_text;
mod text_monitor;

pub use feed::Feed;
