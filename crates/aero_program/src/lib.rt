//! What the program does with what its words ask for, apart from its command line: `main` hands over
//! the words' meaning and the three streams.
//!
//! `words_of` gives the words. `execute` does what they ask for and gives the exit status: it runs over
//! the sources of `sources_of`, of which each is a `Traced` `Input`, standard input or a file that is opened
//! at its first read by an `Opener`. What `notes_of` says of them it tells in the summary as JSON, and then on
//! standard error. The files may be named in a list (`read_list`). A `Failure` has the line and the status where
//! there is no whole report.
//!
//! ```text
//! let mut output = Output::new(rt.stdout());
//! let mut errors = Counting::new(Retrying::new(rt.stderr()));
//! let host = Host { rt, alloc: rt.alloc() };
//! let streams = Streams { output: &mut output, errors: &mut errors };
//! let (status, stdin) = execute(host, asked, &FilesOf::new(rt), rt.stdin(), streams);
//! ```
//!
//! # What is proved
//!
//! - What goes out on standard output and standard error, and the exit status, are as defined, whatever fails:
//!   `execute`. No contract says that it returns.
//! - The status after a run and a flush, or why the program fails: `status`, `status_after`. The line and the status of
//!   each failure: `Failure::line`, `status`.
//! - The texts of words, or the first that isn't UTF-8: `texts_of`. That the word of a refusal isn't: `words_of`. Its lines:
//!   `odd_word_line`.
//! - A plan is what the command line asks for, with its labels. Its limits are the greatest, or those of long sources
//!   where `Config.long` is set, and a text is one for a terminal where standard output is one: `Config::into_plan`, `limits`,
//!   `form`, and a clause for each other field.
//! - A `Config` lies within its ranges, and never has both `long` and `order`: `no_long_order`. It has as many workers as are
//!   asked for, but no more than processors, where these are known, and one at least: `Config::within`, `workers`, `alike`.
//! - There is a source for each word, named as it, whose reader stands unopened for that word's file, or for each name
//!   in a list, or standard input under its name: `sources_of`, `names`, `readers`, `reasons`, `sighted`.
//! - A list of names is read to its end, or it is said why not, and is cut at each byte 0: `read_list`, `first_name`.
//! - The labels of files are those on their lines, behind those of options, each once, or the first file and line at fault is
//!   told: `label_set`, `listed`, `fault`.
//! - A read of standard input fails exactly where the stream does, interruptions apart, or where it is given up. It
//!   finds the end exactly where the stream does: `Input::standard`, `read`, `steps`.
//! - A file is opened at its first read, by any `Opener`. It has bytes or an end only where an open can have worked, and
//!   after a failed open each read fails: `Input::path`, `read`, `steps`.
//! - An input has the bytes that the opener says of its path, where it says them, and then those that its file says to have left.
//!   No read loses or changes one, and what a file has left stays known where a read fails: `Opener::known`, `Input::read`, `bytes`.
//! - So what a run tells of such a file is told of a front of these bytes, and of all where it tells that the file was read to its
//!   end: `execute`, `laws`.
//! - An open or a read of a file fails only where the opener says that it may: `Opener::can_fail`, `Input::read`, `failed`. A file whose
//!   opener tells its bytes and can't fail is judged by all of them: `execute`, `laws`.
//! - Standard input is told as broken exactly where a call of its stream failed, interruptions apart: `execute` gives it back as the run
//!   left it. Where files are named, or nothing is judged, nothing is read of it. A list that it has is read to its end, and is told as
//!   unreadable only if a read failed: `sources_of`, `left`, `unlisted_left`; `execute`.
//! - If open blocks are to end, the sources are judged on terms that say so, and the summary as JSON tells it: `Config::into_plan`,
//!   `end`; `execute`, over `terms_asked`.
//! - An input notes its first three bytes and its first failure: `Input::read`, `start`, `reason`.
//! - Behind the notes on sources those listed labels are told, in order, with which no block of the sources begins, if each source
//!   was read to its end, none has a malformed line, and sources aren't read only as far as they must be: `unused_labels`, `lines_on`;
//!   `execute`, over `labels_told`.
//! - What was noted of a source was noted by its own reader, of exactly the bytes that this gave: the first three, a reason
//!   where one of its reads failed and else none, unless the name isn't UTF-8, and a stamp of a file that was opened at its path:
//!   `Traced`, `read`; `execute`, over `AreOwn`. The bytes are those of which the report tells.
//! - Where the flush of standard output fails as that of a pipe whose reader has gone, no line says so: `execute`,
//!   `status_after`, `Failure::of_write`, `of_cut`.
//! - The whole size of files is the sum of theirs, by their stamps, if each is a plain one: `look_at_all`, `whole`.
//! - A call through `Retrying` is done exactly where one call of the stream was done, and once. It fails exactly where
//!   one failed otherwise than by an interruption, or after 2^64 - 1 interruptions: `Retrying`: `read`, `write`,
//!   `flush`.
//! - It never fails with an interruption, and finds the end exactly where the stream does. What is read or written is
//!   the stream's, where its type tells its bytes: `lasting`, `idle`, `bytes`.
//! - The notes on byte order marks, failed reads, sizes and faulty lines: `notes_of`. Their lines, as they are shown where
//!   standard error is a terminal: `note_texts`, `reason_note`. The system's words: `Reason::of`, `words`.
//! - A faulty line is told as a second look at the file shows it, or else in words: `notes_of`. Such a look shows the fault
//!   that the run found, on its line, of a file that was opened at the source's name with the stamp that the input noted:
//!   `Looker::look`, `look_at`. That it shows something where it can is only tested.
//! - An input notes the stamp of the file that its first read opens: `Input::read`, `opened`.
//! - After how many milliseconds the line on progress is shown first, if ever: `Progress::first_after`.
//!
//! No contract says which words there are, or whether a stream is a terminal: `words_of` asks, and `Config::on` is told. Nor does
//! one say that files hear how much there is to do: `Opener::begin`.
//! No contract says how often a stream is flushed: tests show that standard output is, once and behind all that it has.
//! Which bytes a file has at a path, an `Opener` says by its ghost member `known`, at which paths an open or a read may fail by
//! `can_fail`, and which bytes a file with a stamp may have by `holds`. Of the files of `FilesOf` nothing is known, and those of
//! `MeteredFiles` have the bytes of the files within. Where a file may fail, no contract says after how many bytes it does, or why.
#![tactic(auto)]

pub mod arguments;
pub mod command;
pub mod crew;
pub mod execute;
pub mod failure;
pub mod files;
mod ghost_text;
pub mod input;
pub mod label_files;
pub mod labels;
mod lasting;
pub mod laws;
pub mod listing;
pub mod looker;
pub mod notes;
pub mod output;
pub mod reason;
pub mod retrying;
pub mod sizes;
pub mod sources;
pub mod stamp;
pub mod start;
pub mod status;
pub mod traced;
mod watched;
