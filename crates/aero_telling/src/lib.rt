//! Telling what was found of sources, one after the other: the lines of a report, and its summary.
//!
//! A run finds something of each source, in whatever order. It tells the sources in their order: `tell_found` writes the
//! line of the next one, and `Told` keeps how the reading of each ended, what is noted of it beside its line, how many
//! sources were found to be what, and which labels of the list begin a block of one. `sum_up` writes the summary behind the
//! lines. Runs and lanes tell by these calls.
//!
//! # What is proved
//!
//! - A source is told by exactly its line in the form that is asked for, its ending, its note, its count and its labels: `tell_found`.
//!   Where memory is refused nothing is written, and where a write fails a proper part of the line, and then nothing counts
//!   as told.
//! - The summary is written exactly behind the lines of a run that didn't stop: `sum_up`, `summed`, `whole`.
//! - Nothing is told yet of a new `Told`, nor in a `Report` of a run that was refused memory at its start: `Told::new`,
//!   `Report::refused`.
//!
//! `specs/Founds.antt` says what a whole run tells of its sources: the headline of aero_batch and aero_lanes. `specs/Labels.antt`
//! says it of the labels.
#![tactic(auto)]

pub mod cause;
pub mod notable;
pub mod told;

pub use cause::Cause;
pub use notable::{Fault, FaultyLine, Notable};
pub use told::{Report, Style, Told, sum_up, tell_found};
