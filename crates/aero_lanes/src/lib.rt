//! A run over many sources, several of which are read and judged at once, each in a lane of its own.
//!
//! A lane is a thread that is given a source, reads and judges it by `aero_intake::alone::judge_source`, and gives it back
//! with what was found. As many lanes run at once as the plan has workers. The calling thread starts them in the order of the
//! sources, and writes the line of each source once its lane has ended and all before it are told: so the lines are those of
//! `aero_batch::run_lines`. The summary is the caller's, by `aero_telling::sum_up`.
#![tactic(auto)]

mod lane;
mod lanes;
mod room;
mod run;
mod seat;
mod shared;
mod steps;
mod tell;

pub use aero_telling::Report;
pub use run::run_in_lanes;
