//! What the lines of a trace's text say.
//!
//! A line holds one event: the thread, the operation with its target, and a location, each behind
//! the other with a `|` between them. `parse_line` reads one line, and `parse_block` a block of
//! lines, up to the first that is malformed. Spaces and tabs round the thread and the operation
//! don't count, nor does anything from the second `|` on. What a begin has in its parentheses is its
//! label, if that is 1 to 255 bytes: it is the event's target. A begin without one is no fault, and
//! what an end has in its parentheses says nothing.
//!
//! A program that sees events and has no text of them puts them into a `Batch`, which gives what
//! `parse_block` gives of a text with one event a line.
//!
//! `specs/Meaning.antt` says what a line means and `specs/Reading.antt` what a text means, and the
//! contracts say that just that is returned. Blocks of whole lines mean, one after the other, what
//! the text means that they make up.
//!
//! ```text
//! let parsed = parse_block(rt.alloc(), b"\nT1|begin(f)|12\nT1\nT2|w(y)")?;
//! let (line, event) = parsed.events[0].parts();
//! assert_eq!(rt; line, 2);
//! assert_eq!(rt; event.what, What::Begin(Some(0)));
//! assert!(rt; parsed.labels.name(0) == Some(b"f"));
//! assert!(rt; parsed.threads.name(event.thread) == Some(b"T1"));
//! assert_eq!(rt; parsed.fault, Some((3, LineFault::NoOperation)));
//! ```
//!
//! # What is proved
//!
//! - A line's event is returned, or that the line is blank, or its first fault, and nothing else: `parse_line`.
//! - A block is read as the definition says, up to its first fault, and is refused only where it has an event:
//!   `parse_block`, `reading`, `lines`, `refused`.
//! - Its tables have the names and labels in order of first appearance, none twice and none that no event has. Its
//!   events stand by places in them: the view and the invariant of `Parsed`.
//! - A `LineEvent` is the line and the event that it is made of, and gives them back: `LineEvent::new`, `parts`.
//! - A `Batch` reads as the lines that were put in, in that order, each an event or blank: `Batch::push`, `push_blank`,
//!   `said`. `into_parsed` gives just that reading (`said`), and `lines` counts the lines.
//! - Once a line was refused, each later `push` and `push_blank` refuses, and so does `into_parsed`: `fresh`, `spent`,
//!   `stays`.
//! - Blocks of whole lines read, one after the other, as their join. A text reads as its front up to where a line is
//!   too long: `laws`.
//! - The first line of a text is the first of its lines, and the lines of what is behind it are the others; any text is cut
//!   at the first such byte: `bytes::first_line`, `split_at_byte`.
#![tactic(auto)]

pub mod batch;
pub mod block;
pub mod bytes;
pub mod laws;
pub mod line;
pub mod line_event;
mod names;
mod operation;
pub mod parsed;
mod short;
mod tables;
mod words;

pub use batch::Batch;
pub use block::parse_block;
pub use line::parse_line;
pub use line_event::LineEvent;
pub use parsed::Parsed;
