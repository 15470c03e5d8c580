//! Names, numbered from 0 in order of first appearance: threads, variables and locks each have
//! such a list.
//!
//! A name that is known is looked up by its bytes, with no allocation; only a new name is copied.
//!
//! ```text
//! let mut names = Names::new(alloc, 2);
//! names.number(&x)?; // 0
//! names.number(&y)?; // 1
//! names.number(&x)?; // 0
//! names.number(&z);  // Err(NamesFault::Full)
//! names.name(1);     // the bytes of y
//! ```
//!
//! # What is proved
//!
//! - A name's number is its place in order of first appearance, and a new name comes last: `Names::number` and
//!   `number_of_bytes`, `number`, `place`, `names`. A refused name changes nothing: `err`.
//! - `Full` is returned exactly where the limit is met and the name is new, and a known name is never refused: `full`,
//!   `known` of both. No name is listed twice, nor more than the limit: `listing`.
//! - The list gives back its names and how many they are. Two lists have the same names exactly where that is returned:
//!   `Names::name`, `len`, `is_empty`, `into_list`, `has_same_names`.
//! - A `NameList`, which keeps its names in one text, gives back each name. Two are the same exactly where their names
//!   are: each call of `NameList`.
//! - An event has too many threads or names exactly where it names a new one, and as many as the limit allows are
//!   numbered before it: `laws`.
#![tactic(auto)]

mod hash;
mod index;
mod key;
mod latest;
pub mod laws;
pub mod list;
pub mod names;
mod print;

pub use list::NameList;
pub use names::{Names, NamesFault};
