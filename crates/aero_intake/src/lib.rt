//! How a source is read, and how far it has come.
//!
//! A `Plan` says in what pieces the sources of a run are read, under which limits, and by how many
//! workers. An `Intake` takes the pieces of one `Source` after the other, holds them until 262,144 bytes
//! have come, cuts what it holds into chunks of whole lines, and tells how a source ended: whole, by a
//! read that failed, or by one byte more than the limit allows.
//! A `Track` keeps what its chunks say as they are read, until it is found what is to be said of it.
//! Who reads the chunks, and in what order, is for the crates above.
//! `judge_source` does all for one source by one thread: it reads, cuts and judges in a plain loop, and keeps one chunk.
//!
//! `laws` says that the chunks of a source have the verdict of its text, however its bytes came.
//!
//! # What is proved
//!
//! - A plan is made exactly within its ranges, and has what it was made with. It keeps 1,048,576 events of a source at
//!   most, and 65,536 of the last: `Plan::new`, `within`, `events`, `last_events`, and a clause for each field.
//! - Another `Keeping` changes nothing else: `Plan::with_keeping`. It has a number for the last source, and one for
//!   each other: `Keeping::most`. Nor does it that violations are to be explained: `Plan::explaining`. A plan by which a
//!   source is read no further once its verdict is certain keeps nothing: `Plan::stopping`.
//! - A read of a source is one step. A source is broken exactly where a read failed, and whole exactly where one found
//!   the end; then nothing is left of bytes that the reader's type tells. It is too large after one byte more than the
//!   limit: `Intake::take`. What the reader says of itself goes on with the bytes that came: `trail`.
//! - What came is held in the order in which it came, until it is cut. Then its chunk is the cutter's: `Intake::take`,
//!   `cut`, `block`, `after`; `finish`, `last`.
//! - A cut that is refused changes nothing: `cut`, `refused`. What is passed over counts as having come, and that some
//!   was is kept: `pass_over`, `has_passed`. After the last chunk another source may be read, of which nothing has
//!   come: `finish`, `fresh`.
//! - A `Live` has exactly the parts that came, in order, on the terms that it began with: `Live::new`, `feed`, `parts`,
//!   `terms`; `len`. `finish` gives what is found of exactly them, on these terms.
//! - With each chunk that comes a `Live` judges two: one waits less than before, if one did: `Live::new`, `feed`, `waiting`.
//!   After `catch_up` none waits.
//! - Kept or judged as they came, the parts of a source are those that its chunks gave, on the terms that it began
//!   with: `Knowledge::new`, `add`, `len`. With the chunk that makes them more than so many events the source turns
//!   live, and it stays so: `Knowledge::add`, `take_value`.
//! - A whole source is judged by its parts themselves, or has the finding on them, on its own terms:
//!   `Knowledge::into_basis`.
//! - Where it is told that the first chunks of a source decide, what is found of it is the same whatever chunks come
//!   after them, and so is what is told of the labels. It is told exactly after a malformed line, after a line too many, and
//!   where the source is live, the verdict of its `Live` is certain, and no label of the list is missing or none is to be told:
//!   `Knowledge::decide`, `told`, `faulty`, `decisive`; `is_decided`, `told`; `Live::is_certain`.
//! - A `Survey` is of exactly the chunks that were added: how many lines they have, whether one is malformed, and which labels of
//!   the list begin a block, by the chunks' tables of labels: `Survey::none`, `add`, `is_faulty`, `has_all`, `into_begun`.
//! - What one thread finds of a source is the finding on the bytes that came from its reader, and they ended so. Of each label
//!   of the list it says whether a block begins with it, or nothing, if the source wasn't read to its end, has a malformed
//!   line, or may be read no further than it must be: `alone::judge_source`, `found`.
//! - However its bytes came, the chunks of a source have the verdicts, orders and events of telling cycles of its text.
//!   After a malformed line, or one too many, later chunks don't count: `laws`.
#![tactic(auto)]

pub mod alone;
pub mod begun;
pub mod found;
pub mod held;
pub mod intake;
pub mod laws;
pub mod live;
pub mod plan;
pub mod source;
pub mod survey;
pub mod track;

pub use begun::Begun;
pub use found::Found;
pub use intake::Intake;
pub use plan::{Keeping, Plan};
pub use source::{Followed, Source, SourceOf};
