//! Tests of the crates that a run over many sources is made of: questions, the gatherer, the queue, the
//! crew, and reports.
//!
//! A crate with tests is proved twice, with them and without, so they stand here, above all of the
//! crates, and each is proved once. A module has the tests of the crate that it is named for, and `alone` and `survey` have
//! those of these modules of `aero_intake`. The crate has nothing for other crates.
#![tactic(auto)]

#[cfg(test)]
mod alone;
#[cfg(test)]
mod except;
#[cfg(test)]
mod gather;
#[cfg(test)]
mod intake;
#[cfg(test)]
mod pieces;
#[cfg(test)]
mod report;
#[cfg(test)]
mod stage;
#[cfg(test)]
mod survey;
#[cfg(test)]
mod worker;
