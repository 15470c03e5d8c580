//! Tests of what the program does with a run, of its command line and of its line on progress: single calls, and failures that no
//! case of tests/cases can bring about.
//!
//! A crate with tests is proved twice, with them and without, so they stand here, above these crates, and
//! each is proved once. A module has the tests of the crate that it is named for. It has nothing for
//! other crates.
#![tactic(auto)]

#[cfg(test)]
mod program;
#[cfg(test)]
mod progress;
#[cfg(test)]
mod words;
