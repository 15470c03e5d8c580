//! Tests of the crates that read and judge one trace: names, lines, events, clocks, serial orders and verdicts.
//!
//! A crate with tests is proved twice, with them and without, so they stand here, above all of the
//! crates, and each is proved once. A module has the tests of the crate that it is named for, most of
//! them as tables of texts; `serial` has those of serial orders and of who made an event, and `said` has
//! rows that `leads` and `end` share. It has nothing for other crates.
#![tactic(auto)]

#[cfg(test)]
mod batch;
#[cfg(test)]
mod clock;
#[cfg(test)]
mod end;
#[cfg(test)]
mod grammar;
#[cfg(test)]
mod leads;
#[cfg(test)]
mod lines;
#[cfg(test)]
mod model;
#[cfg(test)]
mod monitor;
#[cfg(test)]
mod names;
#[cfg(test)]
mod said;
#[cfg(test)]
mod serial;
#[cfg(test)]
mod shape;
#[cfg(test)]
mod verdict;
#[cfg(test)]
mod witness;
