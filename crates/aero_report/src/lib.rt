//! The texts of the report, and the call that writes them.
//!
//! `trace_text` makes the line of a source, with its newline: the source's name, then what was
//! found of it; and behind it the lines of its transactions in order, or of the events of a cycle, where the
//! finding has them.
//! `summary_text` makes the last line, which counts what was found. `put` writes a text
//! to a counting writer, and says how many bytes went out where a write failed. The lines stand byte
//! by byte in `specs/Texts.antt`.
//!
//! `source_text` and `totals_text` make the same in the `Form` that is asked for. As JSON a source is an object
//! on a line, and so is the summary. Their members stand in order in `specs/Json.antt`. For a terminal names are shown
//! without control characters, by `shown`, which does so for all that the program says there.
//!
//! ```text
//! let finding = Finding::Judged(Verdict::Malformed { line: 2, fault: LineFault::BadParenthesis });
//! let text = trace_text(alloc, b"trace.std", &finding)?;
//! assert_eq!(rt; text.as_slice(), b"trace.std:2: malformed: BadParenthesis\n".as_slice());
//!
//! let text = source_text(alloc, Form::Json, b"trace.std", &finding)?;
//! let line = r#"{"source":"trace.std","verdict":"malformed","line":2,"fault":"BadParenthesis","note":"no ) at the operation's end"}"#;
//! assert_eq!(rt; text.as_slice().strip_suffix(b"\n"), Some(line.as_bytes()));
//!
//! let mut writer = Counting::new(stdout());
//! if let Err(cut) = put(&mut writer, text.as_slice()) {
//!     // Only the first `cut.written` bytes of the text went out.
//! }
//! ```
//!
//! # What is proved
//!
//! - The line of a source, with its name, its finding and the steps of its order or of its cycle, is byte by byte as
//!   defined: `trace_text`. So are the steps of a cycle alone: `cycle_text`.
//! - So is the summary of what was counted: `summary_text`.
//! - In each form both are as defined, for a terminal too: `source_text`, `totals_text`. A line of JSON is a document by
//!   the grammar of the `json` crate, and means the value that is defined: `readable`.
//! - What `shown` adds stands byte by byte as defined: `append_bytes`, `append_text`, `append_lines`.
//! - All bytes go out, or exactly the prefix that is told, and then a write failed: `put`, `all_written`, `no_fault`;
//!   `cut_written`, `cut_short`, `cut_at_fault`.
#![tactic(auto)]

mod cycles;
mod form;
mod line;
mod notes;
mod objects;
mod options;
mod output;
pub mod shown;
mod summary;
mod texts;

pub use form::{Form, source_text, totals_text};
pub use notes::Note;
pub use options::{Options, VERSION};
pub use output::{Cut, put};
pub use summary::summary_text;
pub use texts::{cycle_text, trace_text};
