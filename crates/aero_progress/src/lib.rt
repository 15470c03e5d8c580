//! The line on progress: how many sources were read and judged, how many bytes came, and since when, written again in place.
//!
//! `Ticker::start` has a thread of its own show a `ProgressLine`, first after a while and then at each tick, until `stop` clears
//! it and ends the thread. A `Metered` reader tells the ticker's `Meter` what was read, and a `Metered` writer which texts
//! are out. A `Course` makes of that what the line says. Whatever else may come to the same terminal goes through a
//! `Beside`, which clears the line first.
//!
//! None of them changes what is read or written beside the line: each hands its calls on.
//!
//! ```text
//! let line = ProgressLine::new(rt.stderr(), Surface::Terminal);
//! let work = Some(Work { sources: 1, size: None });
//! let ticker = Ticker::start(rt, rt.alloc(), line, work, Pace { first_after: 2_000, tick: 200 });
//! let input = Metered::new(rt.stdin(), ticker.as_ref().map(Ticker::meter));
//! ..
//! if let Some(ticker) = ticker {
//!     ticker.stop(&rt);
//! }
//! ```
//!
//! # What is proved
//!
//! - A read adds so many bytes, and a source exactly where it finds the end or fails otherwise than by an interruption:
//!   `gain_of`, `bytes`, `ends`, `fails`; `gain_of_failure`.
//! - A write ends a text exactly where it takes all that it was handed: `ends_text`.
//! - The text of the line is byte by byte as defined, on a terminal and elsewhere: `text_of`. What is shown of a run is such
//!   a text, of which at most as many sources are judged as there are, of the work that was known from the start, if it was:
//!   `Course::show`, `work`, `reached`.
//! - A line that is shown stands, and its text went out whole where the call succeeds. Once it is over none is shown:
//!   `ProgressLine::show`, `shown`, `stands`, `over`.
//! - What clears it goes out only where it stands: `ProgressLine::clear`, `cleared`, `untouched`. `end` clears it too, and then
//!   it is over: `cleared`, `is_over`.
//! - A `Metered` reader, and a writer that is `Beside` the line, read and write as the one within, where its type tells
//!   its bytes: `read`, `write`, `flush`, by `bytes`.
//!
//! No contract says that `Ticker::stop`, the thread of `Ticker::start` or a write of a `Beside` returns, nor when the
//! line is written, nor which numbers a `Meter` has.
#![tactic(auto)]

pub mod beside;
pub mod course;
pub mod gain;
pub mod line;
pub mod meter;
pub mod metered;
pub mod reached;
pub mod ticker;
