//! Tests of a run over many sources.
//!
//! A crate with tests is proved twice, with them and without, so they stand here, above the crate, and
//! each is proved once. It has nothing for other crates.
#![tactic(auto)]

#[cfg(test)]
mod batch;
