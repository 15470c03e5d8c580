//! What the words of a command line ask for.
//!
//! `settle_words` reads the words that follow the program's name, by `clap`, into the `Config` that the
//! rest of the program takes, or tells why they are refused, with the text for it: the help and the
//! version are told so too. `label_of` reads a label. The options are a table, `OPTIONS`; what each has on
//! the words stands in `specs/Line.antt`.
//!
//! ```text
//! let words = words_of(alloc, &rt)?;
//! let config = settle_words(alloc, &words)?;
//! ```
//!
//! # What is proved
//!
//! - A command line that is taken asks for 1 to 16 workers, reads of 1 to 1,048,576 bytes, at most 64 labels of options, at
//!   most 64 files of labels, all of one kind, and at most 65,536 files: `settle_words`, `Config`.
//! - `--long` and `--order` are never both taken: `Config`, `no_long_order`.
//!   Neither are two of files, a list of files and a name of standard input: `settle_words`, `AreAskedFor`.
//! - What it asks for is what the options have on these words, defaults included, by `clap`'s definitions of how words
//!   are read: each number and flag, the labels and their files, the files, their list, the name of standard input, the form of
//!   the report, and when the line on progress is shown: `settle_words`.
//! - The options are those of `specs/Line.antt`, in that order: `command_line` (private).
//! - A label is the text that is given for it, or is refused where that is none. Want of memory is answered only for
//!   one of more than 16 bytes: `label_of`. Of several, that one is none is told first, then that they are too many, and
//!   want of memory last: `labels_of` (private), `refused`.
#![tactic(auto)]

mod help;
mod options;
pub mod words;
